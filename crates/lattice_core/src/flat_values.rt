//! One value, or any.

ghost use Rattle.std.specs.Prelude.{◌≡◌, true};

use crate::order::{Domain, Lattice};
use std::alloc::{AllocError, Global};

/// Nothing, one known value, or any value. Two different known values have only `Any` above them.
#[derive(Drop)]
pub enum Flat<T> {
    Bottom,
    Known(T),
    Any,
}

impl<T: Copy + Eq> Lattice for Flat<T> {
    ghost use Rattle.lattice_core.specs.declared.flat_values.Flat.TheVariants.{Bottom};
    ghost use Rattle.lattice_core.specs.FlatValues.{flat_below, flat_joined, flat_holds, flat_reflexive, flat_transitive, flat_grows};

    ghost Meaning = { T };

    ghost least = { Bottom };

    ghost below = { flat_below T.eq };

    ghost joined = { flat_joined T.eq };

    ghost holds = { flat_holds T.eq };

    ghost least_below = { λ x. tt };

    ghost reflexive = { flat_reflexive T.Eq.laws };

    ghost transitive = { flat_transitive T.Eq.laws };

    ghost grows = { flat_grows T.Eq.laws };

    ghost of_nothing = { λ m h. h };

    fn bottom(alloc: Global) -> Self {
        Flat::Bottom
    }

    fn leq(&self, other: &Self) -> bool {
        match (self, other) {
            (Flat::Bottom, _) => true,
            (_, Flat::Any) => true,
            (Flat::Known(a), Flat::Known(b)) => a == b,
            _ => false,
        }
    }

    fn join(&self, alloc: Global, other: &Self) -> Result<Self, AllocError> {
        match (self, other) {
            (Flat::Bottom, _) => other.copy(alloc),
            (_, Flat::Bottom) => self.copy(alloc),
            (Flat::Known(a), Flat::Known(b)) => if a == b {
                Ok(Flat::Known(*a))
            } else {
                Ok(Flat::Any)
            },
            _ => Ok(Flat::Any),
        }
    }

    fn copy(&self, alloc: Global) -> Result<Self, AllocError> {
        Ok(match self {
            Flat::Bottom => Flat::Bottom,
            Flat::Known(a) => Flat::Known(*a),
            Flat::Any => Flat::Any,
        })
    }
}

impl<T: Copy + Eq> Domain for Flat<T> {
    ghost use Rattle.lattice_core.specs.FlatValues.{flat_rank, flat_joined, flat_join_least};

    const EXACT: bool = true;

    ghost EXACT = { true };

    ghost rank = { flat_rank };

    ghost widened = { flat_joined T.eq };

    ghost join_least = { λ x y z e. flat_join_least T.Eq.laws x y z };

    fn widen(&self, alloc: Global, newer: &Self) -> Result<Self, AllocError> {
        self.join(alloc, newer)
    }
}
