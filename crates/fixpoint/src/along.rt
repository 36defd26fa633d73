//! The solver that goes along an order of the nodes.
//!
//! A part of the order begins at its head and goes up to the head's end. The solver goes from place to place and visits
//! the nodes that wait. Behind the end of a part it goes back to the part's head where that waits again, from the inner
//! parts to the outer ones, so that a part is stable before the solver leaves it.

ghost use Rattle.std.specs.Prelude.{◌≡◌, ℕ, ◌+◌, ◌<◌, ◌≤◌, [], ◌∷◌, ◌++◌, length, true, false, None, set, All, Contains, IfOk, OnOk, IfSome, IfNone, slice_index_or};
ghost use Rattle.std.specs.List.{sum_by};
ghost use Rattle.fixpoint.specs.Graph.{Graph, IsInductive, IsLeast, states_at, ListsNodes, AreEnds};
ghost use Rattle.fixpoint.specs.Rising.{AreRows, Done, Rises, Keeps, Spends, NoneWaits, itself};

use crate::agenda::Agenda;
use crate::flows::{Flow, Solution};
use crate::rising::{Table, begin, follow, rows_of};
use lattice_core::{Domain, Lattice};
use seq::Seq;
use std::alloc::{AllocError, Global};

/// How often a node that heads no part rises by a join before it is widened.
const JOINS: u8 = 63;

/// Follows one edge, and answers whether its target rose by one of the joins that it had left.
fn follow_patiently<F: Flow>(
    alloc: Global,
    flow: &F,
    edge: u64,
    table: &mut Table<F::State>,
    joins: &mut Vec<u8>,
    agenda: &mut Agenda,
) -> Result<bool, AllocError>
    requires sound { F.sound flow.now }
    requires edge { edge < (F.graph flow.now).edges }
    requires states { length table.old.states.items ≡ (F.graph flow.now).nodes }
    requires waiting { length table.old.waiting.items ≡ (F.graph flow.now).nodes }
    requires joins { length joins.old.items ≡ (F.graph flow.now).nodes }
    ensures rises { OnOk result (Rises F.State.below F.State.EXACT (F.stays flow.now) F.State.least (F.graph flow.now) table.old.states.items table.old.waiting.items table.new.states.items table.new.waiting.items) }
    ensures done { OnOk result (Done F.State.below F.State.least (F.graph flow.now) table.new.states.items table.new.waiting.items edge) }
    ensures spends { IfOk result (Spends F.State.rank table.old.states.items table.old.waiting.items joins.old.items table.new.states.items table.new.waiting.items joins.new.items) }
{
    let (_, to) = flow.edge(edge);
    let left = joins[to as usize];
    let rose = follow(alloc, flow, edge, left == 0, table)?;
    if !rose {
        return Ok(false);
    }
    agenda.put_down(to)?;
    if left == 0 {
        return Ok(false);
    }
    joins[to as usize] = left - 1;
    Ok(true)
}

/// Follows each edge of a row, and answers whether a target rose by one of its joins.
fn follow_row<F: Flow>(
    alloc: Global,
    flow: &F,
    row: &[u64],
    table: &mut Table<F::State>,
    joins: &mut Vec<u8>,
    agenda: &mut Agenda,
) -> Result<bool, AllocError>
    requires sound { F.sound flow.now }
    requires row { All (λ e. e < (F.graph flow.now).edges) row.now }
    requires states { length table.old.states.items ≡ (F.graph flow.now).nodes }
    requires waiting { length table.old.waiting.items ≡ (F.graph flow.now).nodes }
    requires joins { length joins.old.items ≡ (F.graph flow.now).nodes }
    ensures rises { OnOk result (Rises F.State.below F.State.EXACT (F.stays flow.now) F.State.least (F.graph flow.now) table.old.states.items table.old.waiting.items table.new.states.items table.new.waiting.items) }
    ensures done { OnOk result (All (Done F.State.below F.State.least (F.graph flow.now) table.new.states.items table.new.waiting.items) row.now) }
    ensures spends { IfOk result (Spends F.State.rank table.old.states.items table.old.waiting.items joins.old.items table.new.states.items table.new.waiting.items joins.new.items) }
{
    let mut joined = false;
    for edge in row {
        let step = follow_patiently(alloc, flow, *edge, table, joins, agenda)?;
        joined |= step;
    }
    Ok(joined)
}

/// Visits nodes until a join was spent or no node waits, and answers whether it was the first.
///
/// Where nothing is joined each visit lowers the ranks or the number of nodes that wait, so it ends.
fn settle<F: Flow>(
    alloc: Global,
    flow: &F,
    rows: &[Seq<u64>],
    nodes: &[u32],
    table: &mut Table<F::State>,
    joins: &mut Vec<u8>,
    agenda: &mut Agenda,
) -> Result<bool, AllocError>
    requires sound { F.sound flow.now }
    requires rows { AreRows (F.graph flow.now) (F.graph flow.now).edges rows.now }
    requires nodes { All (λ n. n < (F.graph flow.now).nodes) nodes.now }
    requires table { Keeps F.State.below F.State.EXACT (F.stays flow.now) F.State.least (F.graph flow.now) table.old.states.items table.old.waiting.items }
    requires joins { length joins.old.items ≡ (F.graph flow.now).nodes }
    ensures keeps { OnOk result (Keeps F.State.below F.State.EXACT (F.stays flow.now) F.State.least (F.graph flow.now) table.new.states.items table.new.waiting.items) }
    ensures joins { OnOk result (length joins.new.items ≡ (F.graph flow.now).nodes) }
    ensures spent { IfOk result (λ r. r ≡ true → sum_by itself joins.new.items < sum_by itself joins.old.items) }
    ensures settled { IfOk result (λ r. r ≡ false → NoneWaits nodes.now table.new.waiting.items) }
{
    while let Some(next) = agenda.next_place(nodes, table.waiting.as_slice()) {
        let node = nodes[next];
        table.waiting[node as usize] = false;
        let joined = follow_row(
            alloc,
            flow,
            rows[node as usize].as_slice(),
            table,
            joins,
            agenda,
        )?;
        if joined {
            return Ok(true);
        }
    }
    Ok(false)
}

/// How often each node may rise by a join: never where it heads a part.
fn joins_of(alloc: Global, nodes: &[u32], ends: &[u32]) -> Result<Vec<u8>, AllocError>
    requires nodes { All (λ n. n < length nodes.now) nodes.now }
    requires ends { length ends.now ≡ length nodes.now }
    ensures { IfOk result (λ joins. length joins.items ≡ length nodes.now) }
{
    let mut joins = Vec::with_capacity(alloc, nodes.len())?;
    for _ in 0..nodes.len() {
        joins.push(JOINS)?;
    }
    for place in 0..nodes.len() {
        if ends[place] as usize > place + 1 {
            joins[nodes[place] as usize] = 0;
        }
    }
    Ok(joins)
}

/// A table as that of [`solve`](crate::solve), found along an order of the nodes. The only error is want of memory.
///
/// Each node stands once in `nodes`. A part goes from a place up to its end in `ends`, exclusive. A node whose part is
/// longer than itself is widened wherever it rises. All others are joined, and widened too from their 64th rise on.
/// Only nodes that rose since their last visit are visited again. It is fast where the parts are nested and every edge
/// that goes back ends at the head of a part around its source, and right for any order.
pub fn solve_along<F: Flow>(
    alloc: Global,
    flow: &F,
    nodes: &[u32],
    ends: &[u32],
) -> Result<Solution<F>, AllocError>
    requires nodes { ListsNodes (F.graph flow.now).nodes nodes.now }
    requires ends { AreEnds (length nodes.now) ends.now }
    ensures length { IfOk result (λ s. length s.states.items ≡ (F.graph flow.now).nodes) }
    ensures inductive { IfOk result (λ s. IsInductive F.State.below (F.graph flow.now) (states_at F.State.least s.states.items)) }
    ensures stays { IfOk result (λ s. (n : ℕ) → n < (F.graph flow.now).nodes → F.stays flow.now n (states_at F.State.least s.states.items n)) }
    ensures least { IfOk result (λ s. IsLeast F.State.below F.State.EXACT (F.graph flow.now) (states_at F.State.least s.states.items)) }
{
    let _sound = flow.nodes();
    let rows = rows_of(alloc, flow)?;
    let mut joins = joins_of(alloc, nodes, ends)?;
    let mut agenda = Agenda::of_all(alloc, nodes, ends)?;
    let mut table = begin(alloc, flow)?;
    while settle(
        alloc,
        flow,
        rows.as_slice(),
        nodes,
        &mut table,
        &mut joins,
        &mut agenda,
    )? {}
    Ok(Solution {
        states: table.states,
    })
}
