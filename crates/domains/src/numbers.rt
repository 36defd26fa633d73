//! One number, or any.

ghost use Rattle.std.specs.Prelude.{◌≡◌, true, IsTrue};
ghost use Rattle.domains.specs.Words.{word_leq, word_joined, word_known, word_known_wide};
ghost use Rattle.domains.specs.Reducing.{has_zero as holds_zero};

use lattice_core::{Domain, Lattice};
use std::alloc::{AllocError, Global};

/// No number, one known word of 32 bits, one known wide number of 64 bits, or any number.
#[derive(Clone, Copy, PartialEq, Eq, Debug)]
pub enum Word {
    Bottom,
    Known(u32),
    KnownWide(u64),
    Any,
}

impl Word {
    /// The word of 32 bits, if one is known.
    pub fn known(self) -> Option<u32>
        ensures { result ≡ word_known self }
    {
        match self {
            Word::Known(word) => Some(word),
            _ => None,
        }
    }

    /// Whether it can be the word 0.
    pub fn has_zero(self) -> bool
        ensures { result ≡ holds_zero self }
    {
        match self {
            Word::Known(word) => word == 0,
            Word::Any => true,
            _ => false,
        }
    }

    /// Whether two words are the same.
    pub(crate) fn is_same(self, other: Word) -> bool
        ensures { IsTrue result → self ≡ other }
    {
        match (self, other) {
            (Word::Bottom, Word::Bottom) | (Word::Any, Word::Any) => true,
            (Word::Known(m), Word::Known(n)) => m == n,
            (Word::KnownWide(m), Word::KnownWide(n)) => m == n,
            _ => false,
        }
    }

    /// The wide number, if one is known.
    pub fn known_wide(self) -> Option<u64>
        ensures { result ≡ word_known_wide self }
    {
        match self {
            Word::KnownWide(number) => Some(number),
            _ => None,
        }
    }
}

impl Lattice for Word {
    ghost use Rattle.domains.specs.declared.numbers.Word.TheVariants.{Bottom};
    ghost use Rattle.domains.specs.Datum.{Number, Within};
    ghost use Rattle.domains.specs.Words.{word_holds, word_joined};

    ghost Meaning = { Number };

    ghost least = { Bottom };

    ghost below = { Within word_holds };

    ghost joined = { word_joined };

    ghost holds = { word_holds };

    ghost least_below = { λ x n h. absurd h };

    ghost reflexive = { λ x n h. h };

    ghost transitive = { λ x y z f g n h. g n (f n h) };

    ghost grows = { λ x y n f h. f n h };

    ghost of_nothing = { λ n h. h };

    fn bottom(alloc: Global) -> Self {
        Word::Bottom
    }

    fn leq(&self, other: &Self) -> bool {
        is_within(*self, *other)
    }

    fn join(&self, alloc: Global, other: &Self) -> Result<Self, AllocError> {
        Ok(either(*self, *other))
    }

    fn copy(&self, alloc: Global) -> Result<Self, AllocError> {
        Ok(*self)
    }
}

impl Domain for Word {
    ghost use Rattle.domains.specs.Words.{word_rank, word_joined, word_join_least};

    const EXACT: bool = true;

    ghost EXACT = { true };

    ghost rank = { word_rank };

    ghost widened = { word_joined };

    ghost join_least = { λ x y z e. word_join_least x y z };

    fn widen(&self, alloc: Global, newer: &Self) -> Result<Self, AllocError> {
        Ok(either(*self, *newer))
    }
}

/// Whether `b` holds of all that `a` holds of.
fn is_within(a: Word, b: Word) -> bool
    ensures { result ≡ word_leq a b }
{
    match (a, b) {
        (Word::Bottom, _) | (_, Word::Any) => true,
        (Word::Known(m), Word::Known(n)) => m == n,
        (Word::KnownWide(m), Word::KnownWide(n)) => m == n,
        _ => false,
    }
}

/// The least word that holds of all that either holds of.
fn either(a: Word, b: Word) -> Word
    ensures { result ≡ word_joined a b }
{
    if is_within(a, b) {
        b
    } else if is_within(b, a) {
        a
    } else {
        Word::Any
    }
}
