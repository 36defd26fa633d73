//! Maps of values as a domain.

ghost use Rattle.std.specs.Prelude.{◌≡◌, IfOk};
ghost use Rattle.lattice_core.specs.Laws.{IsUpper, IsWidened};
ghost use Rattle.pat_map.specs.Trees.{IsBelow, union};
ghost use Rattle.pat_map.specs.MapOrder.{map_rank};

use crate::maps::PatMap;
use crate::pours::{MapValue, pour_joins, pour_widens};
use lattice_core::{Domain, Lattice};
use std::alloc::{AllocError, Global};

impl<V: MapValue> PatMap<V> {
    /// The keys of both maps, where a value at a key of both is widened by the newer one. Where no value changes, it is
    /// this map with all its nodes. The only error is want of memory.
    pub fn widen_with(&self, alloc: Global, newer: &PatMap<V>) -> Result<PatMap<V>, AllocError>
        ensures is { IfOk result (λ m. m ≡ union V.widened self.now newer.now) }
        ensures over { IfOk result (λ m. IsUpper (IsBelow V.below) self.now newer.now m) }
        ensures falls { IfOk result (λ m. IsWidened (IsBelow V.below) (map_rank V.rank V.most) V.EXACT (union V.joined self.now newer.now) self.now m) }
    {
        match (&self.root, &newer.root) {
            (_, None) => self.share(),
            (None, _) => newer.share(),
            (Some(tree), Some(more)) => Ok(PatMap {
                root: Some(pour_widens(alloc, tree.clone()?, more)?),
            }),
        }
    }

    /// The keys of both maps, with the join of both values at a key of both. Where no value changes, it is this map with
    /// all its nodes. The only error is want of memory.
    pub fn join_with(&self, alloc: Global, newer: &PatMap<V>) -> Result<PatMap<V>, AllocError>
        ensures is { IfOk result (λ m. m ≡ union V.joined self.now newer.now) }
        ensures over { IfOk result (λ m. IsUpper (IsBelow V.below) self.now newer.now m) }
    {
        match (&self.root, &newer.root) {
            (_, None) => self.share(),
            (None, _) => newer.share(),
            (Some(tree), Some(more)) => Ok(PatMap {
                root: Some(pour_joins(alloc, tree.clone()?, more)?),
            }),
        }
    }
}

impl<V: MapValue> Lattice for PatMap<V> {
    ghost use Rattle.std.specs.Prelude.{ℕ};
    ghost use Rattle.std.specs.FinMap as finite;
    ghost use Rattle.pat_map.specs.Trees.{IsBelow, union};
    ghost use Rattle.pat_map.specs.MapLaws.{none_below};
    ghost use Rattle.pat_map.specs.MapOrder.{HoldsAt, map_reflexive, map_transitive, map_grows, holds_none};

    ghost Meaning = { ℕ × V.Meaning };

    ghost least = { finite.empty };

    ghost below = { IsBelow V.below };

    ghost joined = { union V.joined };

    ghost holds = { λ m d. HoldsAt V.holds (finite.get m d.0) d.1 };

    ghost least_below = { none_below V.below };

    ghost reflexive = { map_reflexive V.below V.reflexive };

    ghost transitive = { map_transitive V.below V.transitive };

    ghost grows = { map_grows V.below V.holds V.grows };

    ghost of_nothing = { holds_none V.holds };

    fn bottom(alloc: Global) -> Self {
        PatMap::empty()
    }

    fn leq(&self, other: &Self) -> bool {
        self.leq_with(other)
    }

    fn join(&self, alloc: Global, other: &Self) -> Result<Self, AllocError> {
        self.join_with(alloc, other)
    }

    fn copy(&self, alloc: Global) -> Result<Self, AllocError> {
        self.share()
    }
}

impl<V: MapValue> Domain for PatMap<V> {
    ghost use Rattle.pat_map.specs.Trees.{union};
    ghost use Rattle.pat_map.specs.MapOrder.{map_rank, map_join_least};

    const EXACT: bool = V::EXACT;

    ghost EXACT = { V.EXACT };

    ghost rank = { map_rank V.rank V.most };

    ghost widened = { union V.widened };

    ghost join_least = { λ x y z e. map_join_least V.below V.joined (λ a b c. V.join_least a b c e) x y z };

    fn widen(&self, alloc: Global, newer: &Self) -> Result<Self, AllocError> {
        self.widen_with(alloc, newer)
    }
}
