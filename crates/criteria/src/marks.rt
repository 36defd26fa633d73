//! What marks say.

ghost use Rattle.std.specs.Prelude.{◌≡◌, ◌&&◌, not};
ghost use Rattle.walk_marks.specs.Walks.{is_on};

/// Whether a number is marked.
pub fn is_on(marks: &[bool], number: u32) -> bool
    ensures { result ≡ is_on marks.now number }
{
    match marks.get(number as usize) {
        Some(mark) => *mark,
        None => false,
    }
}

/// Whether the body of a method may be rewritten, by the marks of those that are admitted.
pub fn is_admitted(admitted: &[bool], method: u32) -> bool
    ensures { result ≡ is_on admitted.now method }
{
    is_on(admitted, method)
}

/// Whether a method stays in a program, by the marks of what is live.
pub fn is_live(live: &[bool], method: u32) -> bool
    ensures { result ≡ is_on live.now method }
{
    is_on(live, method)
}

/// Whether a copy is kept to a position: a walk comes to it, and none on which the copy is spoilt.
pub fn is_kept(reached: &[bool], spoilt: &[bool], position: u32) -> bool
    ensures { result ≡ (is_on reached.now position && not (is_on spoilt.now position)) }
{
    is_on(reached, position) && !is_on(spoilt, position)
}
