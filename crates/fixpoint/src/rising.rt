//! The table while it rises: what both solvers do at an edge.

ghost use Rattle.std.specs.Prelude.{◌≡◌, ℕ, ◌+◌, ◌<◌, ◌≤◌, [], ◌∷◌, ◌++◌, length, replicate, IfOk, slice_index_or};
ghost use Rattle.fixpoint.specs.Graph.{Graph};
ghost use Rattle.fixpoint.specs.Rising.{AreRows, IsRaised, Follows, Keeps};

use crate::flows::Flow;
use lattice_core::{Domain, Lattice};
use seq::Seq;
use std::alloc::{AllocError, Global};

/// The state of each node, and whether it rose since the node's edges were followed.
#[derive(Drop)]
pub(crate) struct Table<S> {
    pub(crate) states: Vec<S>,
    pub(crate) waiting: Vec<bool>,
}

/// The edges that leave each node.
pub(crate) fn rows_of<F: Flow>(alloc: Global, flow: &F) -> Result<Vec<Seq<u64>>, AllocError>
    requires { F.sound flow.now }
    ensures { IfOk result (λ rows. AreRows (F.graph flow.now) (F.graph flow.now).edges rows.items) }
{
    let nodes = flow.nodes();
    let mut rows = Vec::new(alloc);
    for _ in 0..nodes {
        rows.push(Seq::new(alloc))?;
    }
    for e in 0..flow.edges() {
        let (from, _) = flow.edge(e);
        rows[from as usize].items.push(e)?;
    }
    Ok(rows)
}

/// The table of the entries, with every node waiting.
pub(crate) fn begin<F: Flow>(alloc: Global, flow: &F) -> Result<Table<F::State>, AllocError>
    requires { F.sound flow.now }
    ensures { IfOk result (λ t. Keeps F.State.below F.State.EXACT (F.stays flow.now) F.State.least (F.graph flow.now) t.states.items t.waiting.items) }
{
    let nodes = flow.nodes();
    let mut states = Vec::with_capacity(alloc, nodes as usize)?;
    let mut waiting = Vec::with_capacity(alloc, nodes as usize)?;
    for node in 0..nodes {
        states.push(flow.entry(alloc, node)?)?;
        waiting.push(true)?;
    }
    Ok(Table { states, waiting })
}

/// The join or the widening of a state with a newer one.
fn raise<D: Domain>(alloc: Global, old: &D, newer: &D, widens: bool) -> Result<D, AllocError>
    ensures { IfOk result (IsRaised D.below D.rank D.EXACT D.joined D.widened widens old.now newer.now) }
{
    if widens {
        old.widen(alloc, newer)
    } else {
        old.join(alloc, newer)
    }
}

/// Follows one edge, and answers whether its target rose, by a widening or by a join.
pub(crate) fn follow<F: Flow>(
    alloc: Global,
    flow: &F,
    edge: u64,
    widens: bool,
    table: &mut Table<F::State>,
) -> Result<bool, AllocError>
    requires sound { F.sound flow.now }
    requires edge { edge < (F.graph flow.now).edges }
    requires states { length table.old.states.items ≡ (F.graph flow.now).nodes }
    requires waiting { length table.old.waiting.items ≡ (F.graph flow.now).nodes }
    ensures { IfOk result (Follows F.State.below F.State.rank F.State.EXACT (F.stays flow.now) F.State.least (F.graph flow.now) widens edge table.old.states.items table.old.waiting.items table.new.states.items table.new.waiting.items) }
{
    let (from, to) = flow.edge(edge);
    let moved = flow.transfer(alloc, edge, &table.states[from as usize])?;
    if moved.leq(&table.states[to as usize]) {
        return Ok(false);
    }
    let risen = raise(alloc, &table.states[to as usize], &moved, widens)?;
    table.states[to as usize] = risen;
    table.waiting[to as usize] = true;
    Ok(true)
}
