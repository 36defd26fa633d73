//! What `live` says: the live classes in file order, each with its live members in class order.

ghost use Rattle.std.specs.Prelude.{◌≡◌, ◌++◌, Some, flat_map, IfOk, OnOk};
ghost use Rattle.program_model.specs.Texts.{string_text, type_text};
ghost use Rattle.reach.specs.Kept.{is_marked};
ghost use Rattle.text_defs.specs.Escapes.{escaped};
ghost use Rattle.redex_cli.specs.Lists.{class_lines, field_line, live_class, live_field, live_method, live_text, method_line};

use call_graph::LiveSet;
use pipeline::proto_text;
use program_model::{Class, Field, FieldName, Method, MethodName, Program};
use script_text::push_escaped;
use std::alloc::{AllocError, Global};

/// Adds a string, nothing where there is none.
fn push_string(out: &mut Vec<u8>, program: &Program, string: u32) -> Result<(), AllocError>
    ensures { OnOk result (out.new.items ≡ out.old.items ++ escaped (string_text program.now string)) }
{
    match program.strings.items.get(string as usize) {
        Some(text) => push_escaped(out, text),
        None => Ok(()),
    }
}

/// Adds a type's descriptor, nothing where there is no such type.
#[tactic(auto, unfolding(program_model::specs::Texts::type_text))]
fn push_type(out: &mut Vec<u8>, program: &Program, kind: u32) -> Result<(), AllocError>
    ensures { OnOk result (out.new.items ≡ out.old.items ++ escaped (type_text program.now kind)) }
{
    match program.types.items.get(kind as usize) {
        Some(string) => push_string(out, program, *string),
        None => Ok(()),
    }
}

/// Whether the entry is marked.
fn is_marked(marks: &[bool], number: u32) -> bool
    ensures { result ≡ is_marked marks.now number }
{
    marks.get(number as usize).copied().unwrap_or(false)
}

/// The line of a field: `CLASS->NAME:TYPE`.
fn push_field(
    out: &mut Vec<u8>,
    program: &Program,
    class: u32,
    field: &FieldName,
) -> Result<(), AllocError>
    ensures { OnOk result (out.new.items ≡ out.old.items ++ field_line program.now class (Some field.now)) }
{
    push_type(out, program, class)?;
    out.extend_from_slice(b"->")?;
    push_string(out, program, field.name)?;
    out.extend_from_slice(b":")?;
    push_type(out, program, field.kind)?;
    out.extend_from_slice(b"\n")
}

/// The line of a method: `CLASS->NAME(PARAMETERS)RESULT`.
fn push_method(
    alloc: Global,
    out: &mut Vec<u8>,
    program: &Program,
    class: u32,
    method: &MethodName,
) -> Result<(), AllocError>
    ensures { OnOk result (out.new.items ≡ out.old.items ++ method_line program.now class (Some method.now)) }
{
    let proto = proto_text(alloc, program, method.proto)?;
    push_type(out, program, class)?;
    out.extend_from_slice(b"->")?;
    push_string(out, program, method.name)?;
    push_escaped(out, &proto)?;
    out.extend_from_slice(b"\n")
}

/// The line of a field where it is live.
fn push_live_field(
    out: &mut Vec<u8>,
    program: &Program,
    live: &LiveSet,
    class: u32,
    field: &Field,
) -> Result<(), AllocError>
    ensures { OnOk result (out.new.items ≡ out.old.items ++ live_field program.now live.now class field.now) }
{
    if !is_marked(live.fields.as_slice(), field.name) {
        return Ok(());
    }
    match program.fields.items.get(field.name as usize) {
        Some(name) => push_field(out, program, class, name),
        None => Ok(()),
    }
}

/// The line of a method where it is live.
fn push_live_method(
    alloc: Global,
    out: &mut Vec<u8>,
    program: &Program,
    live: &LiveSet,
    class: u32,
    method: &Method,
) -> Result<(), AllocError>
    ensures { OnOk result (out.new.items ≡ out.old.items ++ live_method program.now live.now class method.now) }
{
    if !is_marked(live.methods.as_slice(), method.name) {
        return Ok(());
    }
    match program.methods.items.get(method.name as usize) {
        Some(name) => push_method(alloc, out, program, class, name),
        None => Ok(()),
    }
}

/// The lines of a class's live fields.
fn push_fields(
    out: &mut Vec<u8>,
    program: &Program,
    live: &LiveSet,
    class: &Class,
) -> Result<(), AllocError>
    ensures { OnOk result (out.new.items ≡ out.old.items ++ flat_map (live_field program.now live.now class.now.name) class.now.fields) }
{
    for field in class.fields.as_slice() {
        push_live_field(out, program, live, class.name, field)?;
    }
    Ok(())
}

/// The lines of a class's live methods.
fn push_methods(
    alloc: Global,
    out: &mut Vec<u8>,
    program: &Program,
    live: &LiveSet,
    class: &Class,
) -> Result<(), AllocError>
    ensures { OnOk result (out.new.items ≡ out.old.items ++ flat_map (live_method program.now live.now class.now.name) class.now.methods) }
{
    for method in class.methods.as_slice() {
        push_live_method(alloc, out, program, live, class.name, method)?;
    }
    Ok(())
}

/// The lines of a class and of its live members.
fn push_class(
    alloc: Global,
    out: &mut Vec<u8>,
    program: &Program,
    live: &LiveSet,
    class: &Class,
) -> Result<(), AllocError>
    ensures { OnOk result (out.new.items ≡ out.old.items ++ class_lines program.now live.now class.now) }
{
    push_type(out, program, class.name)?;
    out.extend_from_slice(b"\n")?;
    push_fields(out, program, live, class)?;
    push_methods(alloc, out, program, live, class)
}

/// The lines of a class where it is live.
fn push_live_class(
    alloc: Global,
    out: &mut Vec<u8>,
    program: &Program,
    live: &LiveSet,
    class: &Class,
) -> Result<(), AllocError>
    ensures { OnOk result (out.new.items ≡ out.old.items ++ live_class program.now live.now class.now) }
{
    if is_marked(live.classes.as_slice(), class.name) {
        push_class(alloc, out, program, live, class)
    } else {
        Ok(())
    }
}

/// The lines of all live classes and members.
pub fn live_list(alloc: Global, program: &Program, live: &LiveSet) -> Result<Vec<u8>, AllocError>
    ensures { IfOk result (λ text. text.items ≡ live_text program.now live.now) }
{
    let mut out = Vec::new(alloc);
    for class in program.classes.as_slice() {
        push_live_class(alloc, &mut out, program, live, class)?;
    }
    Ok(out)
}
