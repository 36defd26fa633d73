//! Ranks of the nodes of a graph.

ghost use Rattle.std.specs.Prelude.{◌≡◌, ◌<◌, ◌≤◌, ◌^◌, ℕ, true, false, not, length, replicate, None, Some, is_some, IfOk, slice_get};
ghost use Rattle.std.specs.List.{list_all};
ghost use Rattle.quiet_methods.specs.Settled.{rank_at, has_rank, is_ready, IsSettled};
ghost use Rattle.quiet_methods.specs.Steps.{AreRanks, IsClosedAt, Turns, Sweeps};

use seq::Seq;
use std::alloc::{AllocError, Global};

/// A node: whether it may have a rank, and the nodes that it needs.
#[derive(Drop)]
pub struct Node {
    pub may: bool,
    pub needs: Seq<u32>,
}

/// The ranks that were given, and the next one.
#[derive(Drop)]
struct Ranks {
    given: Vec<Option<u32>>,
    next: u32,
}

/// Whether a node has a rank.
fn has_rank(ranks: &[Option<u32>], node: u32) -> bool
    ensures { result ≡ has_rank ranks.now node }
{
    match ranks.get(node as usize) {
        Some(rank) => rank.is_some(),
        None => false,
    }
}

/// Whether all of these nodes have ranks.
fn have_ranks(ranks: &[Option<u32>], nodes: &[u32]) -> bool
    ensures { result ≡ list_all (has_rank ranks.now) nodes.now }
{
    nodes.iter().all(|node| has_rank(ranks, *node))
}

/// Whether a node may have a rank, and all that it needs have one.
fn is_ready(ranks: &[Option<u32>], node: &Node) -> bool
    ensures { result ≡ is_ready ranks.now node.now }
{
    node.may && have_ranks(ranks, node.needs.as_slice())
}

impl Ranks {
    /// No ranks yet, for so many nodes.
    fn none(alloc: Global, count: usize) -> Result<Ranks, AllocError>
        ensures { IfOk result (λ r. (r.given.items ≡ replicate count None) × (r.next ≡ 0)) }
    {
        Ok(Ranks {
            given: vec![in alloc; None; count]?,
            next: 0,
        })
    }

    /// Gives a node the next rank, where it has none and may have one.
    fn turn(&mut self, nodes: &[Node], place: usize)
        requires { AreRanks nodes.now self.now.given.items self.now.next × (length nodes.now < 2 ^ 32) × (place < length nodes.now) }
        ensures kept { AreRanks nodes.now self.new.given.items self.new.next }
        ensures turns { Turns nodes.now place self.old.given.items self.old.next self.new.given.items self.new.next }
    {
        if self.given[place].is_none() && is_ready(self.given.as_slice(), &nodes[place]) {
            self.given[place] = Some(self.next);
            self.next += 1;
        }
    }

    /// Goes over all nodes, from the last to the first.
    fn sweep(&mut self, nodes: &[Node])
        requires { AreRanks nodes.now self.now.given.items self.now.next × (length nodes.now < 2 ^ 32) }
        ensures kept { AreRanks nodes.now self.new.given.items self.new.next }
        ensures sweeps { Sweeps nodes.now (length nodes.now) self.old.next self.new.given.items self.new.next }
    {
        let count = nodes.len();
        for turned in 0..count {
            self.turn(nodes, count - 1 - turned);
        }
    }
}

/// A rank for each node that can have one, below those of all that need it. The only error is want of memory.
pub fn settle(alloc: Global, nodes: &[Node]) -> Result<Vec<Option<u32>>, AllocError>
    requires { length nodes.now < 2 ^ 32 }
    ensures { IfOk result (λ v. IsSettled nodes.now v.items) }
{
    let mut ranks = Ranks::none(alloc, nodes.len())?;
    let mut open = true;
    while open {
        let before = ranks.next;
        ranks.sweep(nodes);
        open = ranks.next != before;
    }
    let Ranks { given, .. } = ranks;
    Ok(given)
}
