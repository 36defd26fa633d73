//! Which place of an order to visit next.

ghost use Rattle.std.specs.Prelude.{◌<◌, length, All, IfSome, IfNone};
ghost use Rattle.fixpoint.specs.Rising.{WaitsAt, NoneWaits};

use std::alloc::{AllocError, Global};
use std::cmp::Reverse;
use std::collections::BinaryHeap;

/// When a node that waits is visited: at its own place, or behind the end of the part that it heads where its place is
/// passed already. Behind one end the inner heads come before the outer ones, and all of them before the node that
/// stands there.
#[derive(Clone, Copy, PartialEq, Eq, PartialOrd, Ord)]
struct Turn {
    due: u32,
    behind: u32,
    place: u32,
}

/// The nodes that wait, by their turns, and the place that was visited last. A node may stand in it that waits no more.
#[derive(Drop)]
pub(crate) struct Agenda {
    places: Vec<u32>,
    ends: Vec<u32>,
    turns: BinaryHeap<Reverse<Turn>>,
    last: u32,
}

impl Agenda {
    /// The agenda on which all nodes stand, each of them at its own place.
    pub(crate) fn of_all(alloc: Global, nodes: &[u32], ends: &[u32]) -> Result<Agenda, AllocError>
        requires { All (λ n. n < length nodes.now) nodes.now }
    {
        let mut places = vec![in alloc; 0; nodes.len()]?;
        let mut turns = BinaryHeap::new(alloc);
        let mut place = 0u32;
        for node in nodes {
            places[*node as usize] = place;
            turns.push(Reverse(Turn {
                due: place,
                behind: u32::MAX,
                place,
            }))?;
            place = place.saturating_add(1);
        }
        Ok(Agenda {
            places,
            ends: Vec::from_slice(alloc, ends)?,
            turns,
            last: 0,
        })
    }

    /// Puts down a node that has risen.
    pub(crate) fn put_down(&mut self, node: u32) -> Result<(), AllocError> {
        let place = listed(&self.places, node);
        let turn = if place < self.last {
            let end = listed(&self.ends, place);
            Turn {
                due: end,
                behind: end.saturating_sub(place),
                place,
            }
        } else {
            Turn {
                due: place,
                behind: u32::MAX,
                place,
            }
        };
        self.turns.push(Reverse(turn))?;
        Ok(())
    }

    /// The place to visit next, if any node waits.
    pub(crate) fn next_place(&mut self, nodes: &[u32], waiting: &[bool]) -> Option<usize>
        requires { All (λ n. n < length waiting.now) nodes.now }
        ensures some { IfSome result (WaitsAt nodes.now waiting.now) }
        ensures none { IfNone result (NoneWaits nodes.now waiting.now) }
    {
        while let Some(Reverse(turn)) = self.turns.pop() {
            let place = turn.place as usize;
            if place < nodes.len() && waiting[nodes[place] as usize] {
                self.last = turn.place;
                return Some(place);
            }
        }
        first_waiting(nodes, waiting)
    }
}

/// A number of a table, 0 past its end.
fn listed(table: &[u32], place: u32) -> u32 {
    match table.get(place as usize) {
        Some(number) => *number,
        None => 0,
    }
}

/// The first place whose node waits.
fn first_waiting(nodes: &[u32], waiting: &[bool]) -> Option<usize>
    requires nodes { All (λ n. n < length waiting.now) nodes.now }
    ensures some { IfSome result (WaitsAt nodes.now waiting.now) }
    ensures none { IfNone result (NoneWaits nodes.now waiting.now) }
{
    for place in 0..nodes.len() {
        if waiting[nodes[place] as usize] {
            return Some(place);
        }
    }
    None
}
