//! A range of signed words.

ghost use Rattle.std.specs.Prelude.{◌≡◌, false, ◌≤ℤ◌, if◌then◌else◌, int_lt, IsTrue};
ghost use Rattle.domains.specs.Ranges.{no_words, all_words, only_word, words_between, range_leq, range_joined, range_widened, Widens, first_word, last_word, is_empty as has_no_word};
ghost use Rattle.domains.specs.Reducing.{in_range, past_zero as low_end, before_zero as high_end, without_zero as trimmed};
ghost use Rattle.domains.specs.ReducingLaws.{AreEnds};

use lattice_core::{Domain, Lattice};
use std::alloc::{AllocError, Global};
use std::marker::Model;

/// The signed words of 32 bits from `low` to `high`, both included.
///
/// A range without a word has `low` 1 and `high` 0, so that there is one such range.
#[derive(Clone, Copy, PartialEq, Eq, Debug)]
pub struct Interval {
    pub low: i32,
    pub high: i32,
}

impl Model for Interval {
    ghost use Rattle.domains.specs.Ranges.{Bounds, IsSpelled};

    ghost Value = { Bounds };

    ghost view = { λ r. record { low = r.low; high = r.high } };

    ghost invariant = { λ r. IsSpelled (record { low = r.low; high = r.high }) };

    ghost inverse = { λ r. record { low = r.low; high = r.high } };
}

impl Interval {
    /// The range in which there is no word.
    pub fn empty() -> Self
        ensures { result ≡ no_words }
    {
        Interval { low: 1, high: 0 }
    }

    /// The range of all words.
    pub fn full() -> Self
        ensures { result ≡ all_words }
    {
        Interval {
            low: i32::MIN,
            high: i32::MAX,
        }
    }

    /// The range of one word.
    pub fn of_word(word: i32) -> Self
        ensures { result ≡ only_word word }
    {
        Interval {
            low: word,
            high: word,
        }
    }

    /// The words from `low` to `high`, both included.
    pub fn between(low: i32, high: i32) -> Self
        ensures { result ≡ words_between low high }
    {
        if low <= high {
            Interval { low, high }
        } else {
            Interval::empty()
        }
    }

    /// Whether a word is in it.
    pub fn has(&self, word: i32) -> bool
        ensures is { result ≡ in_range self.now word }
        ensures ends { AreEnds self.now }
    {
        let low = self.low;
        let high = self.high;
        low <= word && word <= high
    }

    /// The range without the word 0 where that is one of its ends.
    pub fn without_zero(&self) -> Self
        ensures is { result ≡ trimmed self.now }
        ensures ends { AreEnds self.now }
    {
        Interval::between(past_zero(self.low), before_zero(self.high))
    }

    /// Whether both ranges are the same.
    pub(crate) fn is_same(self, other: Interval) -> bool
        ensures { IsTrue result → self ≡ other }
    {
        self.low == other.low && self.high == other.high
    }

    /// Whether there is no word in it.
    pub fn is_empty(&self) -> bool
        ensures { result ≡ has_no_word self.now }
    {
        self.high < self.low
    }
}

impl Lattice for Interval {
    ghost use Rattle.std.specs.Prelude.{ℤ};
    ghost use Rattle.domains.specs.Datum.{Within};
    ghost use Rattle.domains.specs.Ranges.{no_words, range_holds, range_joined, nothing_in_it};

    ghost Meaning = { ℤ };

    ghost least = { no_words };

    ghost below = { Within range_holds };

    ghost joined = { range_joined };

    ghost holds = { range_holds };

    ghost least_below = { λ x z h. absurd (nothing_in_it z h) };

    ghost reflexive = { λ x z h. h };

    ghost transitive = { λ x y w f g z h. g z (f z h) };

    ghost grows = { λ x y z f h. f z h };

    ghost of_nothing = { nothing_in_it };

    fn bottom(alloc: Global) -> Self {
        Interval::empty()
    }

    fn leq(&self, other: &Self) -> bool {
        is_within(*self, *other)
    }

    fn join(&self, alloc: Global, other: &Self) -> Result<Self, AllocError> {
        Ok(either(*self, *other))
    }

    fn copy(&self, alloc: Global) -> Result<Self, AllocError> {
        Ok(*self)
    }
}

impl Domain for Interval {
    ghost use Rattle.domains.specs.Ranges.{range_rank, range_widened};

    const EXACT: bool = false;

    ghost EXACT = { false };

    ghost rank = { range_rank };

    ghost widened = { range_widened };

    ghost join_least = { λ x y z e. absurd (Prim.cc) };

    fn widen(&self, alloc: Global, newer: &Self) -> Result<Self, AllocError> {
        Ok(widened(*self, *newer))
    }
}

/// Whether each word of `a` is in `b`.
fn is_within(a: Interval, b: Interval) -> bool
    ensures { result ≡ range_leq a b }
{
    a.is_empty() || (b.low <= a.low && a.high <= b.high)
}

/// The least range with the words of both.
fn either(a: Interval, b: Interval) -> Interval
    ensures { result ≡ range_joined a b }
{
    if a.is_empty() {
        b
    } else if b.is_empty() {
        a
    } else {
        Interval {
            low: a.low.min(b.low),
            high: a.high.max(b.high),
        }
    }
}

/// The range `a` with each end that `b` passes moved to the end of the type.
fn widened(a: Interval, b: Interval) -> Interval
    ensures is { result ≡ range_widened a b }
    ensures widens { Widens a b result }
{
    if a.is_empty() {
        b
    } else if b.is_empty() {
        a
    } else {
        Interval {
            low: moved_low(a.low, b.low),
            high: moved_high(a.high, b.high),
        }
    }
}

/// The old low end, or the least word where the newer one is lower.
fn moved_low(old: i32, newer: i32) -> i32
    ensures is { result ≡ (if int_lt newer old then first_word else old) }
    ensures lower { result ≤ℤ old }
{
    if newer < old { i32::MIN } else { old }
}

/// The old high end, or the greatest word where the newer one is higher.
fn moved_high(old: i32, newer: i32) -> i32
    ensures is { result ≡ (if int_lt old newer then last_word else old) }
    ensures higher { old ≤ℤ result }
{
    if old < newer { i32::MAX } else { old }
}

/// A low end, or 1 in place of 0.
fn past_zero(low: i32) -> i32
    ensures { result ≡ low_end low }
{
    if low == 0 { 1 } else { low }
}

/// A high end, or -1 in place of 0.
fn before_zero(high: i32) -> i32
    ensures { result ≡ high_end high }
{
    if high == 0 { -1 } else { high }
}
