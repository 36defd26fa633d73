//! Marks of methods, by their numbers.

ghost use Rattle.std.specs.Prelude.{◌≡◌, true, false, slice_index_or, slice_set};

/// Whether a number is marked.
pub fn is_on(marks: &[bool], number: u32) -> bool
    ensures { result ≡ slice_index_or marks.now number false }
{
    match marks.get(number as usize) {
        Some(mark) => *mark,
        None => false,
    }
}

/// Marks a number, unless it is past the end.
pub fn mark(marks: &mut [bool], number: u32)
    ensures { marks.new ≡ slice_set marks.old number true }
{
    let at = number as usize;
    if at < marks.len() {
        marks[at] = true;
    }
}
