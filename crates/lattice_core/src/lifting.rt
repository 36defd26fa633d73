//! A value that a place has once it is reached.

ghost use Rattle.std.specs.Prelude.{◌≡◌, IfOk};
ghost use Rattle.lattice_core.specs.Laws.{IsUpper, IsWidened};
ghost use Rattle.lattice_core.specs.Lifting.{lifted_below, lifted_rank};
ghost use Rattle.lattice_core.specs.declared.lifting.Lifted.TheVariants.{Reached};

use crate::order::{Domain, Lattice};
use std::alloc::{AllocError, Global};

/// Nothing where a place isn't reached, else a value. What isn't reached is below the least value that is.
#[derive(Drop)]
pub enum Lifted<L> {
    Unreached,
    Reached(L),
}

impl<L: Lattice> Lattice for Lifted<L> {
    ghost use Rattle.lattice_core.specs.declared.lifting.Lifted.TheVariants.{Unreached};
    ghost use Rattle.lattice_core.specs.Lifting.{lifted_below, lifted_joined, lifted_holds, lifted_reflexive, lifted_transitive, lifted_grows};

    ghost Meaning = { L.Meaning };

    ghost least = { Unreached };

    ghost below = { lifted_below L.below };

    ghost joined = { lifted_joined L.joined };

    ghost holds = { lifted_holds L.holds };

    ghost least_below = { λ x. tt };

    ghost reflexive = { lifted_reflexive L.below L.reflexive };

    ghost transitive = { lifted_transitive L.below L.transitive };

    ghost grows = { lifted_grows L.below L.holds L.grows };

    ghost of_nothing = { λ m h. h };

    fn bottom(alloc: Global) -> Self {
        Lifted::Unreached
    }

    fn leq(&self, other: &Self) -> bool {
        match (self, other) {
            (Lifted::Unreached, _) => true,
            (Lifted::Reached(a), Lifted::Reached(b)) => a.leq(b),
            _ => false,
        }
    }

    fn join(&self, alloc: Global, other: &Self) -> Result<Self, AllocError> {
        match (self, other) {
            (Lifted::Unreached, _) => other.copy(alloc),
            (_, Lifted::Unreached) => self.copy(alloc),
            (Lifted::Reached(a), Lifted::Reached(b)) => match a.join(alloc, b) {
                Ok(joined) => Ok(Lifted::Reached(joined)),
                Err(error) => Err(error),
            },
        }
    }

    fn copy(&self, alloc: Global) -> Result<Self, AllocError> {
        match self {
            Lifted::Unreached => Ok(Lifted::Unreached),
            Lifted::Reached(a) => match a.copy(alloc) {
                Ok(copied) => Ok(Lifted::Reached(copied)),
                Err(error) => Err(error),
            },
        }
    }
}

impl<L: Domain> Domain for Lifted<L> {
    ghost use Rattle.lattice_core.specs.Lifting.{lifted_rank, lifted_widened, lifted_join_least};

    const EXACT: bool = L::EXACT;

    ghost EXACT = { L.EXACT };

    ghost rank = { lifted_rank L.least L.rank };

    ghost widened = { lifted_widened L.least L.widened };

    ghost join_least = { λ x y z e. lifted_join_least L.below L.joined (λ a b c. L.join_least a b c e) x y z };

    fn widen(&self, alloc: Global, newer: &Self) -> Result<Self, AllocError> {
        match (self, newer) {
            (_, Lifted::Unreached) => self.copy(alloc),
            (Lifted::Unreached, Lifted::Reached(b)) => reach(alloc, &L::bottom(alloc), b),
            (Lifted::Reached(a), Lifted::Reached(b)) => reach(alloc, a, b),
        }
    }
}

// The widening of one reached value by another.
fn reach<L: Domain>(alloc: Global, old: &L, newer: &L) -> Result<Lifted<L>, AllocError>
    ensures is { IfOk result (λ w. w ≡ Reached (L.widened old.now newer.now)) }
    ensures over { IfOk result (λ w. IsUpper (lifted_below L.below) (Reached old.now) (Reached newer.now) w) }
    ensures falls { IfOk result (λ w. IsWidened (lifted_below L.below) (lifted_rank L.least L.rank) L.EXACT (Reached (L.joined old.now newer.now)) (Reached old.now) w) }
{
    match old.widen(alloc, newer) {
        Ok(widened) => Ok(Lifted::Reached(widened)),
        Err(error) => Err(error),
    }
}
