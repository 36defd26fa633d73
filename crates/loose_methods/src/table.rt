//! Tables of marks by number.

ghost use Rattle.std.specs.Prelude.{◌≡◌, ◌<◌, ◌^◌, false, replicate, slice_index_or, slice_set, IfOk};
ghost use Rattle.std.specs.List.{list_any};
ghost use Rattle.loose_methods.specs.Marking.{turned_on, is_any_on};

use std::alloc::{AllocError, Global};

/// A length or a place as a number of 32 bits.
pub(crate) fn word(place: usize) -> u32
    ensures { place < 2 ^ 32 → result ≡ place }
{
    if place < 0xffff_ffff {
        place as u32
    } else {
        0xffff_ffff
    }
}

/// Whether a number is marked.
pub(crate) fn is_on(marks: &[bool], number: u32) -> bool
    ensures { result ≡ slice_index_or marks.now number false }
{
    match marks.get(number as usize) {
        Some(mark) => *mark,
        None => false,
    }
}

/// Marks a number, or takes its mark, unless it is past the table.
pub(crate) fn turn(marks: &mut [bool], number: u32, on: bool)
    ensures { marks.new ≡ slice_set marks.old number on }
{
    let place = number as usize;
    if place < marks.len() {
        marks[place] = on;
    }
}

/// So many marks, none of which is set.
pub(crate) fn no_marks(alloc: Global, count: usize) -> Result<Vec<bool>, AllocError>
    ensures { IfOk result (λ marks. marks.items ≡ replicate count false) }
{
    vec![in alloc; false; count]
}

/// Marks numbers.
pub(crate) fn turn_all(marks: &mut [bool], numbers: &[u32])
    ensures { marks.new ≡ turned_on marks.old numbers.now }
{
    for number in numbers {
        turn(marks, *number, true);
    }
}

/// Whether one of some numbers is marked.
pub(crate) fn is_any_on(marks: &[bool], numbers: &[u32]) -> bool
    ensures { result ≡ is_any_on marks.now numbers.now }
{
    for number in numbers {
        if is_on(marks, *number) {
            return true;
        }
    }
    false
}

/// Whether any number is marked.
pub(crate) fn has_mark(marks: &[bool]) -> bool
    ensures { result ≡ list_any (λ mark. mark) marks.now }
{
    for mark in marks {
        if *mark {
            return true;
        }
    }
    false
}
