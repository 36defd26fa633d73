//! Whether a content is null.

ghost use Rattle.std.specs.Prelude.{◌≡◌, true, IsTrue};
ghost use Rattle.domains.specs.Nulls.{null_leq, null_joined};

use lattice_core::{Domain, Lattice};
use std::alloc::{AllocError, Global};

/// No content, the word 0 alone, which null is, all other contents, or any.
#[derive(Clone, Copy, PartialEq, Eq, Debug)]
pub enum Nullness {
    Bottom,
    Null,
    NotNull,
    Any,
}

impl Nullness {
    /// Whether both are the same.
    pub(crate) fn is_same(self, other: Nullness) -> bool
        ensures { IsTrue result → self ≡ other }
    {
        match (self, other) {
            (Nullness::Bottom, Nullness::Bottom)
            | (Nullness::Null, Nullness::Null)
            | (Nullness::NotNull, Nullness::NotNull)
            | (Nullness::Any, Nullness::Any) => true,
            _ => false,
        }
    }
}

impl Lattice for Nullness {
    ghost use Rattle.domains.specs.declared.nulls.Nullness.TheVariants.{Bottom};
    ghost use Rattle.domains.specs.Datum.{Datum, Within};
    ghost use Rattle.domains.specs.Nulls.{null_holds, null_joined};

    ghost Meaning = { Datum };

    ghost least = { Bottom };

    ghost below = { Within null_holds };

    ghost joined = { null_joined };

    ghost holds = { null_holds };

    ghost least_below = { λ x n h. absurd h };

    ghost reflexive = { λ x n h. h };

    ghost transitive = { λ x y z f g n h. g n (f n h) };

    ghost grows = { λ x y n f h. f n h };

    ghost of_nothing = { λ n h. h };

    fn bottom(alloc: Global) -> Self {
        Nullness::Bottom
    }

    fn leq(&self, other: &Self) -> bool {
        is_within(*self, *other)
    }

    fn join(&self, alloc: Global, other: &Self) -> Result<Self, AllocError> {
        Ok(either(*self, *other))
    }

    fn copy(&self, alloc: Global) -> Result<Self, AllocError> {
        Ok(*self)
    }
}

impl Domain for Nullness {
    ghost use Rattle.domains.specs.Nulls.{null_rank, null_joined, null_join_least};

    const EXACT: bool = true;

    ghost EXACT = { true };

    ghost rank = { null_rank };

    ghost widened = { null_joined };

    ghost join_least = { λ x y z e. null_join_least x y z };

    fn widen(&self, alloc: Global, newer: &Self) -> Result<Self, AllocError> {
        Ok(either(*self, *newer))
    }
}

/// Whether `b` holds of all that `a` holds of.
fn is_within(a: Nullness, b: Nullness) -> bool
    ensures { result ≡ null_leq a b }
{
    match (a, b) {
        (Nullness::Bottom, _) | (_, Nullness::Any) => true,
        (Nullness::Null, Nullness::Null) => true,
        (Nullness::NotNull, Nullness::NotNull) => true,
        _ => false,
    }
}

/// The least nullness that holds of all that either holds of.
fn either(a: Nullness, b: Nullness) -> Nullness
    ensures { result ≡ null_joined a b }
{
    if is_within(a, b) {
        b
    } else if is_within(b, a) {
        a
    } else {
        Nullness::Any
    }
}
