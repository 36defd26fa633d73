//! A short list of 16-bit words.

ghost use Rattle.std.specs.Prelude.{◌≡◌, IfOk};

use crate::exact::Exact;
use smallvec::SmallVec;
use std::alloc::{AllocError, Global};
use std::fmt;
use std::marker::Model;

/// A list of 16-bit words, of which up to five take no memory of their own.
#[derive(Drop)]
pub struct Words {
    items: SmallVec<u16, 5>,
}

impl Model for Words {
    ghost use Rattle.std.specs.Prelude.{List, ℕ};

    ghost Value = { List ℕ };

    ghost view = { λ s. s.items.items };
}

impl Words {
    /// A list of these words.
    pub fn of_slice(alloc: Global, words: &[u16]) -> Result<Words, AllocError>
        ensures { IfOk result (λ w. w ≡ words.now) }
    {
        Ok(Words {
            items: SmallVec::from_slice(alloc, words)?,
        })
    }

    /// The words.
    pub fn as_slice(&self) -> &[u16]
        ensures { result.now ≡ self.now }
    {
        self.items.as_slice()
    }
}

impl Clone for Words {
    ghost use Rattle.std.specs.Prelude.{◌≡◌};

    ghost is_clone = { λ a b. b ≡ a };

    fn clone(&self) -> Result<Self, AllocError> {
        Words::of_slice(*self.items.allocator(), self.items.as_slice())
    }
}

impl Exact for Words {
    ghost exact = { λ x y h. h };
}

impl PartialEq for Words {
    ghost use Rattle.std.specs.Prelude.{nat_eq};
    ghost use Rattle.std.specs.Cmp.Lexicographic.{pointwise, nat_list_eq_equiv};
    ghost use Rattle.std.specs.Cmp.{partial_equiv_from_equiv};

    ghost eq = { pointwise nat_eq };

    ghost laws = { partial_equiv_from_equiv nat_list_eq_equiv };

    fn eq(&self, other: &Self) -> bool {
        self.items == other.items
    }
}

impl Eq for Words {
    ghost use Rattle.std.specs.Cmp.Lexicographic.{nat_list_eq_equiv};

    ghost laws = { nat_list_eq_equiv };
}

impl fmt::Debug for Words {
    fn fmt<W: fmt::Write>(&self, f: &mut fmt::Formatter<W>) -> fmt::Result {
        f.debug_list().entries(self.as_slice()).finish()
    }
}
