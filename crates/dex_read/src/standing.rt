//! What interfaces stand on (Dalvik executable format, "class_def_item").

ghost use Rattle.std.specs.Prelude.{◌≡◌, ℕ, ◌<◌, ◌^◌, ◌||◌, not, nat_eq, length, vec_len, IfOk, IfErr, OnOk};
ghost use Rattle.std.specs.List.{list_all};
ghost use Rattle.dex_base.specs.Reading.{Gives};
ghost use Rattle.program_model.specs.InterfaceRules.{defines_so, is_plain_class};
ghost use Rattle.dex_read.specs.Counts.{CountsInFile};
ghost use Rattle.dex_read.specs.Faults.{is_free};
ghost use Rattle.dex_read.specs.Standing.{each_stands, standing_at, is_marked, MarksPlain, stands_by};

use crate::fault::DexFault;
use program_model::{Class, Flags, Program};
use std::alloc::{AllocError, Global};

/// Makes room for a type in a table by type.
fn make_room(kind: u32, marks: &mut Vec<bool>) -> Result<(), AllocError>
    ensures room { OnOk result (kind < vec_len marks.new) }
    ensures same { OnOk result ((k : ℕ) → is_marked marks.new.items k ≡ is_marked marks.old.items k) }
{
    let place = kind as usize;
    if place < marks.len() {
        Ok(())
    } else {
        marks.resize(place + 1, false)
    }
}

/// Marks a type in a table by type, which grows as far as it has to.
fn mark(kind: u32, marks: &mut Vec<bool>) -> Result<(), AllocError>
    ensures { OnOk result ((k : ℕ) → is_marked marks.new.items k ≡ (nat_eq kind k || is_marked marks.old.items k)) }
{
    make_room(kind, marks)?;
    marks[kind as usize] = true;
    Ok(())
}

/// Whether a class is no interface.
fn is_plain_class(class: &Class) -> bool
    ensures { result ≡ is_plain_class class.now }
{
    !class.flags.has(Flags::INTERFACE)
}

/// Marks the type that a class defines, unless it is an interface.
fn mark_plain(class: &Class, marks: &mut Vec<bool>) -> Result<(), AllocError>
    ensures { OnOk result ((k : ℕ) → is_marked marks.new.items k ≡ (defines_so k class.now || is_marked marks.old.items k)) }
{
    if is_plain_class(class) {
        mark(class.name, marks)
    } else {
        Ok(())
    }
}

/// The types that the classes define, but for interfaces, in a table by type.
fn plain_types(alloc: Global, classes: &[Class]) -> Result<Vec<bool>, AllocError>
    ensures { IfOk result (λ marks. MarksPlain classes.now marks.items) }
{
    let mut marks = Vec::new(alloc);
    for class in classes {
        mark_plain(class, &mut marks)?;
    }
    Ok(marks)
}

/// Whether a type is marked.
fn is_marked(marks: &[bool], kind: u32) -> bool
    ensures { result ≡ is_marked marks.now kind }
{
    marks.get(kind as usize).copied().unwrap_or(false)
}

/// Whether none of the types is marked.
fn none_marked(marks: &[bool], kinds: &[u32]) -> bool
    ensures { result ≡ list_all (λ kind. not (is_marked marks.now kind)) kinds.now }
{
    kinds.iter().all(|kind| !is_marked(marks, *kind))
}

/// Whether a class is no interface, or stands on none of the types that are marked.
fn stands_by(marks: &[bool], class: &Class) -> bool
    ensures { result ≡ stands_by marks.now class.now }
{
    is_plain_class(class)
        || (!is_marked(marks, class.superclass) && none_marked(marks, class.interfaces.as_slice()))
}

/// The first class that does not stand as it has to is refused.
fn check_each(classes: &[Class], marks: &[bool]) -> Result<(), DexFault>
    requires { length classes.now < 2 ^ 32 }
    ensures gives { result ≡ each_stands (stands_by marks.now) 0 classes.now }
    ensures counts { IfErr result CountsInFile }
{
    for (place, class) in classes.iter().enumerate() {
        if !stands_by(marks, class) {
            return Err(DexFault::Root {
                class: place as u32,
            });
        }
    }
    Ok(())
}

/// That no interface of the program extends or implements a class of the program that is no interface.
#[tactic(auto, using(crate::proofs::PlainTypes::by_table))]
pub fn check_standing(alloc: Global, program: &Program) -> Result<(), DexFault>
    requires { length program.now.classes < 2 ^ 32 }
    ensures gives { Gives is_free (λ u. u) result (standing_at program.now) }
    ensures counts { IfErr result CountsInFile }
{
    let marks = plain_types(alloc, program.classes.as_slice())?;
    check_each(program.classes.as_slice(), marks.as_slice())
}
