//! Marked numbers, some of which still wait for what follows from them.

ghost use Rattle.std.specs.Prelude.{◌≡◌, ◌+◌, ◌≤◌, [], ◌∷◌, ℕ, true, false, IfOk, OnOk, OnSome, slice_index_or, vec_len, Contains};
ghost use Rattle.call_graph.specs.Marks.{left, Swells, Keeps, Pops, IsUnmarked, WaitsFrom};

use std::alloc::{AllocError, Global};

/// Which numbers of a table are marked, and which of them wait.
#[derive(Drop)]
pub struct Marks {
    pub marks: Vec<bool>,
    pub waiting: Vec<u32>,
}

impl Marks {
    /// No marks on a table of this size.
    pub fn new(alloc: Global, size: usize) -> Result<Marks, AllocError>
        ensures size { IfOk result (λ m. vec_len m.marks ≡ size) }
        ensures none { IfOk result (λ m. (n : ℕ) → slice_index_or m.marks.items n false ≡ true → ⊥) }
        ensures idle { IfOk result (λ m. m.waiting.items ≡ []) }
    {
        Ok(Marks {
            marks: vec![in alloc; false; size]?,
            waiting: Vec::new(alloc),
        })
    }

    /// Whether a number is marked.
    pub fn has(&self, number: u32) -> bool {
        match self.marks.as_slice().get(number as usize) {
            Some(mark) => *mark,
            None => false,
        }
    }

    /// Marks a number of the table, which then waits unless it was marked.
    pub fn mark(&mut self, number: u32) -> Result<(), AllocError>
        ensures swells { OnOk result (Swells self.old self.new) }
        ensures keeps { OnOk result (Keeps self.old self.new) }
        ensures marked { OnOk result (slice_index_or self.new.marks.items number true ≡ true) }
        ensures from { OnOk result (WaitsFrom self.old self.new (number ∷ [])) }
    {
        let at = number as usize;
        if at < self.marks.len() && !self.marks[at] {
            self.marks[at] = true;
            self.waiting.push(number)?;
        }
        Ok(())
    }

    /// Marks numbers.
    #[tactic(auto, using(crate::proofs::Growth::keeps_same))]
    pub fn mark_all(&mut self, numbers: &[u32]) -> Result<(), AllocError>
        ensures swells { OnOk result (Swells self.old self.new) }
        ensures keeps { OnOk result (Keeps self.old self.new) }
        ensures marked { OnOk result ((n : ℕ) → Contains numbers.now n → slice_index_or self.new.marks.items n true ≡ true) }
        ensures from { OnOk result (WaitsFrom self.old self.new numbers.now) }
    {
        for number in numbers {
            self.mark(*number)?;
        }
        Ok(())
    }

    /// Takes the mark of a number away.
    fn unmark(&mut self, number: u32)
        ensures { IsUnmarked self.old self.new number }
    {
        if let Some(mark) = self.marks.get_mut(number as usize) {
            *mark = false;
        }
    }

    /// Takes the marks of numbers away.
    pub fn clear(&mut self, numbers: &[u32])
        ensures size { vec_len self.new.marks ≡ vec_len self.old.marks }
        ensures idle { self.new.waiting ≡ self.old.waiting }
        ensures unmarked { (n : ℕ) → slice_index_or self.new.marks.items n false ≡ true → (slice_index_or self.old.marks.items n false ≡ true) × (Contains numbers.now n → ⊥) }
    {
        for number in numbers {
            self.unmark(*number);
        }
    }

    /// The marks of all numbers.
    pub fn into_marks(self) -> Vec<bool>
        ensures { result ≡ self.marks }
    {
        let Marks { marks, waiting: _ } = self;
        marks
    }

    /// Takes a number that waits.
    pub fn pop(&mut self) -> Option<u32>
        ensures size { vec_len self.new.marks ≡ vec_len self.old.marks }
        ensures none { left self.new ≤ left self.old }
        ensures some { OnSome result (left self.new + 1 ≤ left self.old) }
        ensures pops { Pops self.old self.new result }
        ensures rest { (n : ℕ) → Contains self.new.waiting.items n → Contains self.old.waiting.items n }
    {
        self.waiting.pop()
    }
}
