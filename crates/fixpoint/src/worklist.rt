//! The solver that keeps a queue of the nodes to visit.

ghost use Rattle.std.specs.Prelude.{◌≡◌, ℕ, ◌+◌, ◌<◌, ◌≤◌, [], ◌∷◌, ◌++◌, length, false, set, All, Contains, IfOk, OnOk, slice_index_or};
ghost use Rattle.fixpoint.specs.Graph.{Graph, IsInductive, IsLeast, states_at};
ghost use Rattle.fixpoint.specs.Rising.{Done, Rises, Queues};

use crate::flows::{Flow, Solution};
use crate::rising::{Table, begin, follow, rows_of};
use lattice_core::{Domain, Lattice};
use std::alloc::{AllocError, Global};
use std::collections::VecDeque;

/// Follows one edge, and queues its target where that rose.
fn follow_queued<F: Flow>(
    alloc: Global,
    flow: &F,
    edge: u64,
    table: &mut Table<F::State>,
    queue: &mut VecDeque<u32>,
) -> Result<(), AllocError>
    requires sound { F.sound flow.now }
    requires edge { edge < (F.graph flow.now).edges }
    requires states { length table.old.states.items ≡ (F.graph flow.now).nodes }
    requires waiting { length table.old.waiting.items ≡ (F.graph flow.now).nodes }
    ensures rises { OnOk result (Rises F.State.below F.State.EXACT (F.stays flow.now) F.State.least (F.graph flow.now) table.old.states.items table.old.waiting.items table.new.states.items table.new.waiting.items) }
    ensures done { OnOk result (Done F.State.below F.State.least (F.graph flow.now) table.new.states.items table.new.waiting.items edge) }
    ensures queues { OnOk result (Queues F.State.rank (F.graph flow.now) table.old.states.items table.old.waiting.items queue.old.items table.new.states.items table.new.waiting.items queue.new.items) }
{
    if !follow(alloc, flow, edge, true, table)? {
        return Ok(());
    }
    let (_, to) = flow.edge(edge);
    queue.push_back(to)?;
    Ok(())
}

/// Follows each edge of a row.
fn follow_row<F: Flow>(
    alloc: Global,
    flow: &F,
    row: &[u64],
    table: &mut Table<F::State>,
    queue: &mut VecDeque<u32>,
) -> Result<(), AllocError>
    requires sound { F.sound flow.now }
    requires row { All (λ e. e < (F.graph flow.now).edges) row.now }
    requires states { length table.old.states.items ≡ (F.graph flow.now).nodes }
    requires waiting { length table.old.waiting.items ≡ (F.graph flow.now).nodes }
    ensures rises { OnOk result (Rises F.State.below F.State.EXACT (F.stays flow.now) F.State.least (F.graph flow.now) table.old.states.items table.old.waiting.items table.new.states.items table.new.waiting.items) }
    ensures done { OnOk result (All (Done F.State.below F.State.least (F.graph flow.now) table.new.states.items table.new.waiting.items) row.now) }
    ensures queues { OnOk result (Queues F.State.rank (F.graph flow.now) table.old.states.items table.old.waiting.items queue.old.items table.new.states.items table.new.waiting.items queue.new.items) }
{
    for edge in row {
        follow_queued(alloc, flow, *edge, table, queue)?;
    }
    Ok(())
}

/// All nodes, in order.
fn all_nodes(alloc: Global, nodes: u32) -> Result<VecDeque<u32>, AllocError>
    ensures all { IfOk result (λ q. (n : ℕ) → n < nodes → Contains q.items n) }
    ensures range { IfOk result (λ q. All (λ n. n < nodes) q.items) }
{
    let mut queue = VecDeque::new(alloc);
    for node in 0..nodes {
        queue.push_back(node)?;
    }
    Ok(queue)
}

/// A table that is at or above each entry and each transfer, whose states stay at their nodes; where the state is
/// exact, it is at or below every such table. The only error is want of memory.
///
/// Nodes wait in a queue. A node that rises while it waits isn't visited once more for that.
pub fn solve<F: Flow>(alloc: Global, flow: &F) -> Result<Solution<F>, AllocError>
    ensures length { IfOk result (λ s. length s.states.items ≡ (F.graph flow.now).nodes) }
    ensures inductive { IfOk result (λ s. IsInductive F.State.below (F.graph flow.now) (states_at F.State.least s.states.items)) }
    ensures stays { IfOk result (λ s. (n : ℕ) → n < (F.graph flow.now).nodes → F.stays flow.now n (states_at F.State.least s.states.items n)) }
    ensures least { IfOk result (λ s. IsLeast F.State.below F.State.EXACT (F.graph flow.now) (states_at F.State.least s.states.items)) }
{
    let mut queue = all_nodes(alloc, flow.nodes())?;
    let rows = rows_of(alloc, flow)?;
    let mut table = begin(alloc, flow)?;
    while let Some(node) = queue.pop_front() {
        if !table.waiting[node as usize] {
            continue;
        }
        table.waiting[node as usize] = false;
        follow_row(
            alloc,
            flow,
            rows[node as usize].as_slice(),
            &mut table,
            &mut queue,
        )?;
    }
    Ok(Solution {
        states: table.states,
    })
}
