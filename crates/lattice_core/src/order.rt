//! What a solver asks of the values that it computes.

ghost use Rattle.std.specs.Prelude.{◌≡◌, ℕ, Bool, true, ◌↔◌, IsTrue, IfOk};
ghost use Rattle.lattice_core.specs.Laws.{IsUpper, IsWidened};

use std::alloc::{AllocError, Global};

/// An order with a least element and upper bounds.
pub trait Lattice: Sized + Drop {
    /// What a value can hold of.
    ghost Meaning: { Type 0 };

    /// The least value.
    ghost least: { Self };

    /// One value is at or below another.
    ghost below: { Self → Self → Type 0 };

    /// The upper bound that `join` answers.
    ghost joined: { Self → Self → Self };

    /// A value describes a thing.
    ghost holds: { Self → Meaning → Type 0 };

    /// The least value, which describes nothing.
    fn bottom(alloc: Global) -> Self
        ensures { result ≡ least };

    /// Whether this value is at or below the other. It takes no memory.
    fn leq(&self, other: &Self) -> bool
        ensures { IsTrue result ↔ below self.now other.now };

    /// An upper bound of both values. The only error is want of memory.
    fn join(&self, alloc: Global, other: &Self) -> Result<Self, AllocError>
        ensures is { IfOk result (λ j. j ≡ joined self.now other.now) }
        ensures over { IfOk result (λ j. IsUpper below self.now other.now j) };

    /// The same value once more. The only error is want of memory.
    fn copy(&self, alloc: Global) -> Result<Self, AllocError>
        ensures { IfOk result (λ c. c ≡ self.now) };

    ghost least_below: { (x : Self) → below least x };

    ghost reflexive: { (x : Self) → below x x };

    ghost transitive: { (x y z : Self) → below x y → below y z → below x z };

    ghost grows: { (x y : Self) (m : Meaning) → below x y → holds x m → holds y m };

    ghost of_nothing: { (m : Meaning) → holds least m → ⊥ };
}

/// A lattice whose ascents end.
///
/// Every value has a rank, a whole number that no program computes. Widening never raises it, and lowers it where the
/// value rises, so that a value is widened to a higher one only finitely often.
pub trait Domain: Lattice {
    /// Whether `join` answers the least upper bound, and `widen` no more than `join`.
    const EXACT: bool;

    ghost EXACT: { Bool };

    /// How far a value may still rise.
    ghost rank: { Self → ℕ };

    /// The upper bound that `widen` answers.
    ghost widened: { Self → Self → Self };

    /// An upper bound of this value and a newer one, of lower rank where this value isn't at or above it. The only
    /// error is want of memory.
    fn widen(&self, alloc: Global, newer: &Self) -> Result<Self, AllocError>
        ensures is { IfOk result (λ w. w ≡ widened self.now newer.now) }
        ensures over { IfOk result (λ w. IsUpper Self.below self.now newer.now w) }
        ensures falls { IfOk result (λ w. IsWidened Self.below rank EXACT (Self.joined self.now newer.now) self.now w) };

    ghost join_least: { (x y z : Self) → EXACT ≡ true → Self.below x z → Self.below y z → Self.below (Self.joined x y) z };
}
