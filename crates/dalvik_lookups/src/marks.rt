//! Marked numbers, all of which are listed.

ghost use Rattle.std.specs.Prelude.{◌≡◌, ◌∷◌, [], ℕ, ◌<◌, true, false, not, length, slice_get, slice_index_or, IfOk, OnOk, vec_len, Contains};
ghost use Rattle.std.specs.Option.{option_copied};
ghost use Rattle.dalvik_lookups.specs.Walks.{is_on, is_met, Grow, IsClean};

use std::alloc::{AllocError, Global};

/// Which numbers of a table are marked, in the order of their coming.
#[derive(Drop)]
pub struct Marks {
    marks: Vec<bool>,
    listed: Vec<usize>,
}

/// Takes the marks of numbers away.
fn unmark_all(marks: &mut [bool], numbers: &[usize])
    ensures size { length marks.new ≡ length marks.old }
    ensures unmarked { (n : ℕ) → slice_index_or marks.new n false ≡ true → (slice_index_or marks.old n false ≡ true) × (Contains numbers.now n → ⊥) }
{
    for number in numbers {
        unmark(marks, *number);
    }
}

/// Takes the mark of a number away.
fn unmark(marks: &mut [bool], number: usize)
    ensures size { length marks.new ≡ length marks.old }
    ensures unmarked { (n : ℕ) → slice_index_or marks.new n false ≡ true → (slice_index_or marks.old n false ≡ true) × (n ≡ number → ⊥) }
{
    if number < marks.len() {
        marks[number] = false;
    }
}

impl Marks {
    /// No marks on a table of this size.
    pub fn new(alloc: Global, size: usize) -> Result<Marks, AllocError>
        ensures size { IfOk result (λ m. vec_len m.marks ≡ size) }
        ensures clean { IfOk result IsClean }
    {
        Ok(Marks {
            marks: vec![in alloc; false; size]?,
            listed: Vec::new(alloc),
        })
    }

    /// Whether a number is marked.
    pub fn has(&self, number: usize) -> bool
        ensures { result ≡ is_on self.now number }
    {
        match self.marks.as_slice().get(number) {
            Some(mark) => *mark,
            None => false,
        }
    }

    /// A listed number by its place.
    pub fn at(&self, place: usize) -> Option<usize>
        ensures { result ≡ slice_get self.now.listed.items place }
    {
        match self.listed.as_slice().get(place) {
            Some(number) => Some(*number),
            None => None,
        }
    }

    /// Marks a number of the table, and lists it unless it was marked. Where memory runs out, all stays.
    pub fn mark(&mut self, number: usize) -> Result<(), AllocError>
        ensures grow { Grow self.old self.new (number ∷ []) }
        ensures marked { OnOk result (is_met self.new number ≡ true) }
    {
        if number < self.marks.len() && !self.marks[number] {
            self.listed.push(number)?;
            self.marks[number] = true;
        }
        Ok(())
    }

    /// Marks numbers, up to the one where memory runs out.
    pub fn mark_all(&mut self, numbers: &[usize]) -> Result<(), AllocError>
        ensures grow { Grow self.old self.new numbers.now }
        ensures marked { OnOk result ((n : ℕ) → Contains numbers.now n → is_met self.new n ≡ true) }
    {
        for number in numbers {
            self.mark(*number)?;
        }
        Ok(())
    }

    /// Takes all marks away.
    pub fn clear(&mut self)
        ensures size { vec_len self.new.marks ≡ vec_len self.old.marks }
        ensures clean { ((n : ℕ) → is_on self.old n ≡ true → Contains self.old.listed.items n) → IsClean self.new }
    {
        unmark_all(self.marks.as_mut_slice(), self.listed.as_slice());
        self.listed.clear();
    }
}
