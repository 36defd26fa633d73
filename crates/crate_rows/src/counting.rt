//! A flow over a list of edges that counts how often an edge is followed.

ghost use Rattle.std.specs.Prelude.{◌≡◌, ◌<◌, ◌-◌, ◌+ℤ◌, pos, length, min, slice_index_or, if◌then◌else◌, int_lt};
ghost use Rattle.domains.specs.Ranges.{last_word};
ghost use Rattle.crate_rows.specs.Steps.{next_word, one_more};

use domains::Interval;
use fixpoint::Flow;
use lattice_core::Lattice;
use std::alloc::{AllocError, Global};
use std::cell::Cell;

/// A graph of which a counter is in the state: node 0 begins at 0, and each edge that goes back adds 1.
///
/// An end of an edge past the last node counts as the last node.
#[derive(Drop)]
pub struct Counting {
    pub count: u32,
    pub edges: Vec<(u32, u32)>,
    pub followed: Cell<u64>,
    ghost some: { 0 < count },
}

impl Counting {
    /// The graph of the nodes that its edges name, and at least one.
    pub fn new(edges: Vec<(u32, u32)>) -> Counting {
        Counting {
            count: last_of(edges.as_slice()).saturating_add(1),
            edges,
            followed: Cell::new(0),
        }
    }
}

/// The greatest number that some edges name.
fn last_of(edges: &[(u32, u32)]) -> u32 {
    let mut last = 0;
    for (from, to) in edges {
        last = last.max((*from).max(*to));
    }
    last
}

/// The next word, none past the last one.
fn next_word(word: i32) -> i32
    ensures { result ≡ next_word word }
{
    if word < i32::MAX { word + 1 } else { word }
}

/// The range with one word more at its high end.
fn one_more(range: Interval) -> Interval
    ensures { result ≡ one_more range }
{
    if range.is_empty() {
        range
    } else {
        Interval::between(range.low, next_word(range.high))
    }
}

impl Flow for Counting {
    ghost use Rattle.std.specs.Prelude.{⊤, slice_index_or, length, min, nat_le, ◌-◌, ◌<◌, pos, ◌==◌, if◌then◌else◌};
    ghost use Rattle.std.proofs.Common.{arith};
    ghost use Rattle.domains.specs.Ranges.{no_words, only_word};
    ghost use Rattle.crate_rows.specs.Steps.{one_more};

    type State = Interval;

    ghost sound = { λ f. 0 < f.count };

    ghost graph = { λ f. record { nodes = f.count; edges = length f.edges.items; source = λ e. min (slice_index_or f.edges.items e (0, 0)).0 (f.count - 1); target = λ e. min (slice_index_or f.edges.items e (0, 0)).1 (f.count - 1); begun = λ n. if n == 0 then only_word (pos 0) else no_words; moved = λ e s. if nat_le (min (slice_index_or f.edges.items e (0, 0)).1 (f.count - 1)) (min (slice_index_or f.edges.items e (0, 0)).0 (f.count - 1)) then one_more s else s } };

    ghost stays = { λ f n s. ⊤ };

    ghost laws = { λ f s. record { ends = λ e lt. (Prim.omega (arith, s), Prim.omega (arith, s)); grows = λ q e a b lt h. absurd (Prim.cc); bottom_stays = λ n lt. tt; entry_stays = λ n lt. tt; entry_join = λ n a lt h. (tt, tt); edge_join = λ e a b lt h k. (tt, tt) } };

    fn nodes(&self) -> u32 {
        self.count
    }

    fn edges(&self) -> u64 {
        self.edges.len() as u64
    }

    fn edge(&self, place: u64) -> (u32, u32) {
        let (from, to) = self.edges[place as usize];
        let last = self.count - 1;
        (from.min(last), to.min(last))
    }

    fn entry(&self, alloc: Global, node: u32) -> Result<Interval, AllocError> {
        if node == 0 {
            Ok(Interval::of_word(0))
        } else {
            Ok(Interval::empty())
        }
    }

    fn transfer(&self, alloc: Global, edge: u64, state: &Interval) -> Result<Interval, AllocError> {
        self.followed.set(self.followed.get().saturating_add(1));
        let (from, to) = self.edge(edge);
        if to <= from {
            Ok(one_more(*state))
        } else {
            Ok(*state)
        }
    }
}
