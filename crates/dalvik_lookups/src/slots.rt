//! A place for each field that a class defines.

ghost use Rattle.std.specs.Prelude.{◌≡◌, IfOk};
ghost use Rattle.dalvik_lookups.specs.Slots.{slot_in, slots_from, slots_after};

use program_model::Program;
use std::alloc::{AllocError, Global};

/// Where the fields of each class begin among the fields of all classes.
pub fn first_slots(alloc: Global, program: &Program) -> Result<Vec<usize>, AllocError>
    ensures { IfOk result (λ slots. slots.items ≡ slots_from 0 program.now.classes) }
{
    let mut slots = Vec::new(alloc);
    let mut next: usize = 0;
    for class in program.classes.as_slice() {
        slots.push(next)?;
        next = next.saturating_add(class.fields.len());
    }
    Ok(slots)
}

/// How many fields all classes have.
pub fn slot_count(program: &Program) -> usize
    ensures { result ≡ slots_after 0 program.now.classes }
{
    let mut count: usize = 0;
    for class in program.classes.as_slice() {
        count = count.saturating_add(class.fields.len());
    }
    count
}

/// The place of a field of a class, where the fields of each class begin at `firsts`; the largest number past its end.
pub(crate) fn slot_at(firsts: &[usize], class: u32, place: u32) -> usize
    ensures { result ≡ slot_in firsts.now class place }
{
    match firsts.get(class as usize) {
        Some(first) => first.saturating_add(place as usize),
        None => usize::MAX,
    }
}
