//! Numbers for texts: equal texts have one number.

ghost use Rattle.std.specs.Prelude.{◌≡◌, IfOk};
ghost use Rattle.dalvik_lookups.specs.Views.{text_of, AreTexts, AddedText};

use indexmap::IndexSet;
use std::alloc::{AllocError, Global};

/// Texts by number.
#[derive(Drop)]
pub struct Texts<'a> {
    numbers: IndexSet<&'a [u16]>,
}

impl<'a> Texts<'a> {
    /// No texts.
    pub fn new(alloc: Global) -> Texts<'a>
        ensures { AreTexts result }
    {
        Texts {
            numbers: IndexSet::new(alloc),
        }
    }

    /// The number of a text.
    pub fn add(&mut self, units: &'a [u16]) -> Result<usize, AllocError>
        ensures { AreTexts self.old → IfOk result (λ n. AddedText self.old self.new units.now n) }
    {
        let (number, _added) = self.numbers.insert_full(units)?;
        Ok(number)
    }

    /// The text with a number, empty where there is none.
    pub fn text(&self, number: usize) -> &[u16]
        ensures { result.now ≡ text_of self.now number }
    {
        match self.numbers.get_index(number) {
            Some(units) => *units,
            None => &[],
        }
    }
}
