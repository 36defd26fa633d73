//! Two values side by side.

ghost use Rattle.std.specs.Prelude.{◌≡◌, ◌&&◌};

use crate::order::{Domain, Lattice};
use std::alloc::{AllocError, Global};

/// Two values, each compared, joined and widened by itself.
#[derive(Drop)]
pub struct Pair<A, B> {
    pub first: A,
    pub second: B,
}

impl<A: Lattice, B: Lattice> Lattice for Pair<A, B> {
    ghost use Rattle.lattice_core.specs.Pairs.{BothBelow, BothHold, each_part};

    ghost Meaning = { A.Meaning × B.Meaning };

    ghost least = { record { first = A.least; second = B.least } };

    ghost below = { BothBelow A.below B.below };

    ghost joined = { each_part A.joined B.joined };

    ghost holds = { BothHold A.holds B.holds };

    ghost least_below = { λ x. record { first = A.least_below x.first; second = B.least_below x.second } };

    ghost reflexive = { λ x. record { first = A.reflexive x.first; second = B.reflexive x.second } };

    ghost transitive = { λ x y z h k. record { first = A.transitive x.first y.first z.first h.first k.first; second = B.transitive x.second y.second z.second h.second k.second } };

    ghost grows = { λ x y m h k. record { first = A.grows x.first y.first m.0 h.first k.first; second = B.grows x.second y.second m.1 h.second k.second } };

    ghost of_nothing = { λ m h. A.of_nothing m.0 h.first };

    fn bottom(alloc: Global) -> Self {
        Pair {
            first: A::bottom(alloc),
            second: B::bottom(alloc),
        }
    }

    fn leq(&self, other: &Self) -> bool {
        self.first.leq(&other.first) && self.second.leq(&other.second)
    }

    fn join(&self, alloc: Global, other: &Self) -> Result<Self, AllocError> {
        let first = self.first.join(alloc, &other.first)?;
        let second = self.second.join(alloc, &other.second)?;
        Ok(Pair { first, second })
    }

    fn copy(&self, alloc: Global) -> Result<Self, AllocError> {
        let first = self.first.copy(alloc)?;
        let second = self.second.copy(alloc)?;
        Ok(Pair { first, second })
    }
}

impl<A: Domain, B: Domain> Domain for Pair<A, B> {
    ghost use Rattle.lattice_core.specs.Pairs.{each_part, both_rank, both_join_least};

    const EXACT: bool = A::EXACT && B::EXACT;

    ghost EXACT = { A.EXACT && B.EXACT };

    ghost rank = { both_rank A.rank B.rank };

    ghost widened = { each_part A.widened B.widened };

    ghost join_least = { λ x y z e. both_join_least A.below B.below A.joined B.joined A.EXACT B.EXACT (λ h a b c. A.join_least a b c h) (λ h a b c. B.join_least a b c h) e x y z };

    fn widen(&self, alloc: Global, newer: &Self) -> Result<Self, AllocError> {
        let first = self.first.widen(alloc, &newer.first)?;
        let second = self.second.widen(alloc, &newer.second)?;
        Ok(Pair { first, second })
    }
}
