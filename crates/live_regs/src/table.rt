//! The answer of the analysis.

ghost use Rattle.std.specs.Prelude.{◌≡◌, [], true, slice_index_or};
ghost use Rattle.walk_marks.specs.Walks.{is_on};
ghost use Rattle.live_regs.specs.Live.{is_live, has_words};
ghost use Rattle.live_regs.specs.Words.{IsMask};

use crate::words::{has, word_at};
use seq::Seq;

/// Which registers are live before each position of a body: for each position those below 64 as the bits of a word, or for
/// each register the positions, nothing where no position reads it.
#[derive(Drop)]
pub struct Live {
    pub(crate) words: Vec<u64>,
    pub(crate) marks: Vec<Seq<bool>>,
}

impl Live {
    /// Whether the position is among those of the register.
    fn is_marked(&self, position: u32, register: u32) -> bool
        ensures { result ≡ is_on (slice_index_or self.now.marks.items register []) position }
    {
        match self.marks.as_slice().get(register as usize) {
            Some(marks) => match marks.as_slice().get(position as usize) {
                Some(mark) => *mark,
                None => false,
            },
            None => false,
        }
    }

    /// Whether some walk from the position reads the register before it is written. It takes no memory.
    pub fn before(&self, position: u32, register: u32) -> bool
        ensures { result ≡ is_live self.now position register }
    {
        has(word_at(&self.words, position as usize), register) || self.is_marked(position, register)
    }

    /// Whether the registers that are live before a position are at hand as a word.
    pub fn has_words(&self) -> bool
        ensures { result ≡ has_words self.now }
    {
        self.marks.is_empty()
    }

    /// The registers below 64 that are live before a position, as the bits of a word. It takes no memory.
    #[tactic(auto, using(crate::proofs::Sweeping::word_is))]
    pub fn word(&self, position: u32) -> u64
        requires { has_words self.now ≡ true }
        ensures { IsMask (is_live self.now position) result }
    {
        word_at(&self.words, position as usize)
    }
}
