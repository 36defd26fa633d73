//! A value for each place.

ghost use Rattle.std.specs.Prelude.{◌≡◌, ℕ, ◌+◌, ◌<◌, ◌≤◌, ◌^◌, [], ◌∷◌, ◌++◌, length, replicate, set, IfOk, slice_index_or};
ghost use Rattle.lattice_core.specs.Laws.{IsUpper, IsWidened};

use crate::order::{Domain, Lattice};
use std::alloc::{AllocError, Global};
use std::marker::Model;

/// A value for each place below a size, and bottom for each place at or past it.
///
/// Contracts see it as the list of its values. So the least one is the empty one, and a join or a widening has the
/// greater of the two sizes.
#[derive(Drop)]
pub struct Env<L: Lattice> {
    items: Vec<L>,
    low: L,
}

impl<L: Lattice> Model for Env<L> {
    ghost use Rattle.std.specs.Prelude.{List, ◌≡◌, ◌≤◌, ◌^◌, length};
    ghost use Rattle.std.specs.Coded.{coded_list};
    ghost use Rattle.lattice_core.specs.Places.{FitsPlaces};

    ghost Value = { List L };

    ghost coded = { coded_list L.code };

    ghost view = { λ s. s.items.items };

    ghost invariant = { λ s. FitsPlaces s.items.items s.low L.least };
}

impl<L: Lattice> Env<L> {
    /// The same value at each place below the size. The only error is want of memory.
    pub fn filled(alloc: Global, size: u32, value: L) -> Result<Env<L>, AllocError>
        ensures { IfOk result (λ e. e ≡ replicate size value) }
    {
        let mut items = Vec::with_capacity(alloc, size as usize)?;
        for _ in 0..size {
            items.push(value.copy(alloc)?)?;
        }
        Ok(Env {
            items,
            low: L::bottom(alloc),
        })
    }

    /// The value at a place below the size.
    pub fn get(&self, place: u32) -> &L
        requires { place < length self.now }
        ensures { result.now ≡ slice_index_or self.now place L.least }
    {
        &self.items[place as usize]
    }

    /// Puts a value at a place below the size.
    pub fn set(&mut self, place: u32, value: L)
        requires { place < length self.old }
        ensures { self.new ≡ set self.old place value }
    {
        self.items[place as usize] = value;
    }
}

/// The value at a place, bottom past the end.
fn at_place<'a, L>(items: &'a [L], low: &'a L, place: usize) -> &'a L
    ensures { result.now ≡ slice_index_or items.now place low.now }
{
    if place < items.len() {
        &items[place]
    } else {
        low
    }
}

impl<L: Lattice> Lattice for Env<L> {
    ghost use Rattle.std.specs.Prelude.{ℕ, slice_index_or};
    ghost use Rattle.lattice_core.specs.Places.{Below, both};

    ghost Meaning = { ℕ × L.Meaning };

    ghost least = { [] };

    ghost below = { Below L.below L.least };

    ghost joined = { both L.joined L.least };

    ghost holds = { λ e m. L.holds (slice_index_or e m.0 L.least) m.1 };

    ghost least_below = { λ x k. L.least_below (slice_index_or x k L.least) };

    ghost reflexive = { λ x k. L.reflexive (slice_index_or x k L.least) };

    ghost transitive = { λ x y z h i k. L.transitive (slice_index_or x k L.least) (slice_index_or y k L.least) (slice_index_or z k L.least) (h k) (i k) };

    ghost grows = { λ x y m h. L.grows (slice_index_or x m.0 L.least) (slice_index_or y m.0 L.least) m.1 (h m.0) };

    ghost of_nothing = { λ m. L.of_nothing m.1 };

    fn bottom(alloc: Global) -> Self {
        Env {
            items: Vec::new(alloc),
            low: L::bottom(alloc),
        }
    }

    fn leq(&self, other: &Self) -> bool {
        for i in 0..self.items.len() {
            if !self.items[i].leq(at_place(other.items.as_slice(), &self.low, i)) {
                return false;
            }
        }
        true
    }

    fn join(&self, alloc: Global, other: &Self) -> Result<Self, AllocError> {
        let size = self.items.len().max(other.items.len());
        let mut items = Vec::with_capacity(alloc, size)?;
        for i in 0..size {
            items.push(at_place(self.items.as_slice(), &self.low, i).join(
                alloc,
                at_place(other.items.as_slice(), &self.low, i),
            )?)?;
        }
        Ok(Env {
            items,
            low: self.low.copy(alloc)?,
        })
    }

    fn copy(&self, alloc: Global) -> Result<Self, AllocError> {
        let mut items = Vec::with_capacity(alloc, self.items.len())?;
        for x in self.items.as_slice() {
            items.push(x.copy(alloc)?)?;
        }
        Ok(Env {
            items,
            low: self.low.copy(alloc)?,
        })
    }
}

impl<L: Domain> Domain for Env<L> {
    ghost use Rattle.lattice_core.specs.Places.{Below, both, env_rank, join_least_env};

    const EXACT: bool = L::EXACT;

    ghost EXACT = { L.EXACT };

    ghost rank = { env_rank L.rank L.least };

    ghost widened = { both L.widened L.least };

    ghost join_least = { λ x y z e. join_least_env L.below L.joined L.least L.reflexive (λ a b c. L.join_least a b c e) x y z };

    fn widen(&self, alloc: Global, newer: &Self) -> Result<Self, AllocError> {
        let size = self.items.len().max(newer.items.len());
        let mut items = Vec::with_capacity(alloc, size)?;
        for i in 0..size {
            items.push(at_place(self.items.as_slice(), &self.low, i).widen(
                alloc,
                at_place(newer.items.as_slice(), &self.low, i),
            )?)?;
        }
        Ok(Env {
            items,
            low: self.low.copy(alloc)?,
        })
    }
}
