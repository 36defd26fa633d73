//! Marks by number.

ghost use Rattle.std.specs.Prelude.{◌≡◌, ◌≤◌, ◌<◌, ◌^◌, true, false, replicate, slice_index_or, slice_set, IfOk};
ghost use Rattle.stub_library.specs.Marking.{set_all};

use std::alloc::{AllocError, Global};

/// A length or a place as a number of 32 bits, the greatest one past all that a table has.
pub fn word(n: usize) -> u32
    ensures same { n < 2 ^ 32 → result ≡ n }
    ensures most { result ≤ n }
{
    if n < u32::MAX as usize {
        n as u32
    } else {
        u32::MAX
    }
}

/// Whether a number is marked.
pub fn is_on(marks: &[bool], number: u32) -> bool
    ensures { result ≡ slice_index_or marks.now number false }
{
    match marks.get(number as usize) {
        Some(mark) => *mark,
        None => false,
    }
}

/// Marks a number or takes its mark, unless it is past the end.
pub fn turn(marks: &mut [bool], number: u32, on: bool)
    ensures { marks.new ≡ slice_set marks.old number on }
{
    let at = number as usize;
    if at < marks.len() {
        marks[at] = on;
    }
}

/// Marks numbers or takes their marks.
pub fn turn_all(marks: &mut [bool], numbers: &[u32], on: bool)
    ensures { marks.new ≡ set_all on marks.old numbers.now }
{
    for number in numbers {
        turn(marks, *number, on);
    }
}

/// The marks with numbers marked or their marks taken.
pub fn turned(marks: Vec<bool>, numbers: &[u32], on: bool) -> Vec<bool>
    ensures { result.items ≡ set_all on marks.items numbers.now }
{
    let mut marks = marks;
    turn_all(marks.as_mut_slice(), numbers, on);
    marks
}

/// A table of this size without marks.
pub fn no_marks(alloc: Global, size: usize) -> Result<Vec<bool>, AllocError>
    ensures { IfOk result (λ marks. marks.items ≡ replicate size false) }
{
    let marks = vec![in alloc; false; size]?;
    Ok(marks)
}

/// The marks of some numbers of a table of this size.
pub fn marked(alloc: Global, numbers: &[u32], size: usize) -> Result<Vec<bool>, AllocError>
    ensures { IfOk result (λ marks. marks.items ≡ set_all true (replicate size false) numbers.now) }
{
    Ok(turned(vec![in alloc; false; size]?, numbers, true))
}
