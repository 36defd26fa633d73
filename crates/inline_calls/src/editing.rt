//! New bodies put into a program.

ghost use Rattle.std.specs.Prelude.{◌≡◌, [], None, false, OnOk, slice_index_or};
ghost use Rattle.std.specs.Option.{option_copied};
ghost use Rattle.inline_calls.specs.Edited.{method_by, each_by, class_by, program_by};

use program_model::{Body, Class, Method, Program};
use seq::Seq;
use std::alloc::AllocError;

/// A new body and its lines.
#[derive(Drop)]
pub struct Edit {
    pub body: Body,
    pub lines: Seq<u32>,
}

/// Whether a number is marked.
pub fn is_on(marks: &[bool], number: u32) -> bool
    ensures { result ≡ slice_index_or marks.now number false }
{
    match marks.get(number as usize) {
        Some(mark) => *mark,
        None => false,
    }
}

/// The new body at a place of a row, if there is one.
fn edit_at(row: &[Option<Edit>], place: usize) -> Option<&Edit>
    ensures { option_copied result ≡ slice_index_or row.now place None }
{
    match row.get(place) {
        Some(Some(edit)) => Some(edit),
        _ => None,
    }
}

/// The row at a place, an empty one past the end.
fn row_at(rows: &[Seq<Option<Edit>>], place: usize) -> &[Option<Edit>]
    ensures { result.now ≡ slice_index_or rows.now place [] }
{
    match rows.get(place) {
        Some(row) => row.as_slice(),
        None => &[],
    }
}

/// Puts a new body into a method, if there is one.
fn put_method(method: &mut Method, edit: Option<&Edit>) -> Result<(), AllocError>
    ensures { OnOk result (method.new ≡ method_by (option_copied edit.entry) method.old) }
{
    if let Some(edit) = edit {
        let body = edit.body.clone()?;
        let lines = edit.lines.clone()?;
        method.body = Some(body);
        method.lines = lines;
    }
    Ok(())
}

/// Puts new bodies into methods, by their places.
fn put_methods(methods: &mut [Method], row: &[Option<Edit>]) -> Result<(), AllocError>
    ensures { OnOk result (methods.new ≡ each_by method_by row.now methods.old) }
{
    for place in 0..methods.len() {
        put_method(&mut methods[place], edit_at(row, place))?;
    }
    Ok(())
}

/// Puts new bodies into the methods of a class, by their places.
fn put_class(class: &mut Class, row: &[Option<Edit>]) -> Result<(), AllocError>
    ensures { OnOk result (class.new ≡ class_by row.now class.old) }
{
    put_methods(class.methods.items.as_mut_slice(), row)
}

/// The same for classes.
fn put_classes(classes: &mut [Class], rows: &[Seq<Option<Edit>>]) -> Result<(), AllocError>
    ensures { OnOk result (classes.new ≡ each_by class_by rows.now classes.old) }
{
    for place in 0..classes.len() {
        put_class(&mut classes[place], row_at(rows, place))?;
    }
    Ok(())
}

/// Puts new bodies into a program, by the places of their classes and methods.
pub fn put_program(program: &mut Program, rows: &[Seq<Option<Edit>>]) -> Result<(), AllocError>
    ensures { OnOk result (program.new ≡ program_by rows.now program.old) }
{
    put_classes(program.classes.items.as_mut_slice(), rows)
}
