//! Numbers by text.

ghost use Rattle.std.specs.Prelude.{◌≡◌, ◌+◌, ◌<◌, ℕ, List, IfOk, OnOk};
ghost use Rattle.stub_library.specs.Listing.{number_of, last_below, all_below, AreListed};

use indexmap::IndexMap;
use std::alloc::{AllocError, Global};

/// The last number with each text, and for each number the one before it with the same text.
#[derive(Drop)]
pub struct Listed<'a> {
    last: IndexMap<&'a [u16], usize>,
    before: Vec<Option<usize>>,
}

/// The last number with a text.
fn number_of(last: &IndexMap<&[u16], usize>, text: &[u16]) -> Option<usize>
    ensures { result ≡ number_of last.now text.now }
{
    match last.get(&text) {
        Some(number) => Some(*number),
        None => None,
    }
}

impl<'a> Listed<'a> {
    /// No numbers.
    pub fn new(alloc: Global) -> Listed<'a>
        ensures { (texts : ℕ → List ℕ) → AreListed texts 0 result }
    {
        Listed {
            last: IndexMap::new(alloc),
            before: Vec::new(alloc),
        }
    }

    /// Gives the text the next number.
    pub fn add(&mut self, text: &'a [u16]) -> Result<(), AllocError>
        ensures { (texts : ℕ → List ℕ) (n : ℕ) → AreListed texts n self.old → texts n ≡ text.now → OnOk result (AreListed texts (n + 1) self.new) }
    {
        let number = self.before.len();
        let earlier = self.last.insert(text, number)?;
        self.before.push(earlier)?;
        Ok(())
    }

    /// The number before one with the same text.
    fn earlier(&self, number: usize) -> Option<usize>
        ensures { (texts : ℕ → List ℕ) (n : ℕ) → AreListed texts n self.now → number < n → result ≡ last_below texts (texts number) number }
    {
        match self.before.get(number) {
            Some(earlier) => *earlier,
            None => None,
        }
    }

    /// All numbers with a text, the last first.
    pub fn all(&self, alloc: Global, text: &[u16]) -> Result<Vec<usize>, AllocError>
        ensures { (texts : ℕ → List ℕ) (n : ℕ) → AreListed texts n self.now → IfOk result (λ numbers. numbers.items ≡ all_below texts text.now n) }
    {
        let mut numbers = Vec::new(alloc);
        let mut at = number_of(&self.last, text);
        for done in 0..self.before.len() {
            let number = match at {
                Some(number) => number,
                None => return Ok(numbers),
            };
            numbers.push(number)?;
            at = self.earlier(number);
        }
        Ok(numbers)
    }
}
