//! What is known of a body by itself.

ghost use Rattle.std.specs.Prelude.{◌≡◌, ◌<◌, ◌+◌, ◌^◌, true, None, Some, false, [], length, cond, is_some, IfOk};
ghost use Rattle.std.specs.List.{list_all};
ghost use Rattle.std.specs.Option.{option_copied};
ghost use Rattle.hierarchy.specs.Shapes.{IsResolved};
ghost use Rattle.quiet_methods.specs.Bodies.{frame_in, demand_in, ways_in, nodes_upto, with_demand, calls_upto, IsRanked, IsOwn};

use crate::forms::{Demand, Search, count_targets};
use crate::ranks::{Node, settle};
use crate::ways::add_ways;
use dom_frame::Frame;
use insn_set::Insn;
use seq::Seq;
use std::alloc::{AllocError, Global};

/// What is known of a body by itself: whether its own forms are quiet and no way comes back to where it was, the methods that
/// it calls, and the ranks of its positions.
#[derive(Drop)]
pub(crate) struct Own {
    pub(crate) node: Node,
    pub(crate) ranks: Seq<Option<u32>>,
}

/// A body that isn't quiet.
fn loud(alloc: Global) -> Own
    ensures { (result.node ≡ record { may = false; needs = [] }) × (result.ranks ≡ []) }
{
    Own {
        node: Node {
            may: false,
            needs: Seq::new(alloc),
        },
        ranks: Seq::new(alloc),
    }
}

/// The frame at a position, none where no run comes.
fn frame_in(frames: &[Option<Frame>], place: usize) -> Option<&Frame>
    ensures { option_copied result ≡ frame_in frames.now place }
{
    match frames.get(place) {
        Some(Some(frame)) => Some(frame),
        _ => None,
    }
}

/// Notes what a form asks for, and answers whether it is quiet.
fn note(demand: Demand, calls: &mut Vec<u32>) -> Result<bool, AllocError>
    ensures { IfOk result (λ quiet. cond quiet (Some calls.new.items) None ≡ with_demand (Some calls.old.items) demand) }
{
    match demand {
        Demand::Nothing => Ok(true),
        Demand::Call(method) => {
            calls.push(method)?;
            Ok(true)
        }
        Demand::Loud => Ok(false),
    }
}

impl Search<'_> {
    /// What a form at a position asks for.
    fn demand_in(&self, frame: Option<&Frame>, insn: &Insn) -> Demand
        ensures { IsResolved self.now.program.now self.now.hierarchy.now → result ≡ demand_in self.now.program.now (option_copied frame.entry) insn.now }
    {
        match frame {
            Some(frame) => self.demand(frame, insn),
            None => Demand::Nothing,
        }
    }

    /// The methods that a body calls, none where one of its forms is loud.
    fn calls(
        &self,
        alloc: Global,
        insns: &[Insn],
        frames: &[Option<Frame>],
    ) -> Result<Option<Seq<u32>>, AllocError>
        ensures { IsResolved self.now.program.now self.now.hierarchy.now → IfOk result (λ o. o ≡ calls_upto self.now.program.now insns.now frames.now (length insns.now)) }
    {
        let mut calls = Vec::new(alloc);
        for place in 0..insns.len() {
            let demand = self.demand_in(frame_in(frames, place), &insns[place]);
            if !note(demand, &mut calls)? {
                return Ok(None);
            }
        }
        Ok(Some(Seq::of_vec(calls)))
    }
}

/// The positions at which a run may go on behind a form whose registers are known so far.
fn known_ways(
    alloc: Global,
    frame: &Frame,
    insn: &Insn,
    position: u32,
) -> Result<Vec<u32>, AllocError>
    requires { position + 1 < 2 ^ 32 }
    ensures { IfOk result (λ v. v.items ≡ ways_in (Some frame.now) insn.now position) }
{
    let mut out = Vec::new(alloc);
    if count_targets(insn) >= 4294967296 {
        return Ok(out);
    }
    add_ways(alloc, frame, insn, position, &mut out)?;
    Ok(out)
}

/// The positions at which a run may go on behind a form at a position.
fn ways_in(
    alloc: Global,
    frame: Option<&Frame>,
    insn: &Insn,
    position: u32,
) -> Result<Vec<u32>, AllocError>
    requires { position + 1 < 2 ^ 32 }
    ensures { IfOk result (λ v. v.items ≡ ways_in (option_copied frame.entry) insn.now position) }
{
    match frame {
        Some(frame) => known_ways(alloc, frame, insn, position),
        None => Ok(Vec::new(alloc)),
    }
}

/// The positions of a body with the ways from them.
fn nodes(alloc: Global, insns: &[Insn], frames: &[Option<Frame>]) -> Result<Vec<Node>, AllocError>
    requires { length insns.now + 1 < 2 ^ 32 }
    ensures { IfOk result (λ v. v.items ≡ nodes_upto insns.now frames.now (length insns.now)) }
{
    let mut nodes = Vec::with_capacity(alloc, insns.len())?;
    for place in 0..insns.len() {
        let needs = ways_in(alloc, frame_in(frames, place), &insns[place], place as u32)?;
        nodes.push(Node {
            may: true,
            needs: Seq::of_vec(needs),
        })?;
    }
    Ok(nodes)
}

/// Whether all nodes have ranks.
fn are_ranked(ranks: &[Option<u32>]) -> bool
    ensures { result ≡ list_all is_some ranks.now }
{
    ranks.iter().all(|rank| rank.is_some())
}

/// What is known of a body by itself, whose own forms are quiet.
fn ranked(
    alloc: Global,
    insns: &[Insn],
    frames: &[Option<Frame>],
    calls: Seq<u32>,
) -> Result<Own, AllocError>
    requires { length insns.now + 1 < 2 ^ 32 }
    ensures { IfOk result (λ own. IsRanked insns.now frames.now calls own.node own.ranks) }
{
    let nodes = nodes(alloc, insns, frames)?;
    let ranks = settle(alloc, &nodes)?;
    let may = are_ranked(&ranks);
    Ok(Own {
        node: Node { may, needs: calls },
        ranks: Seq::of_vec(ranks),
    })
}

impl Search<'_> {
    /// What is known of a body by itself.
    pub(crate) fn judge(
        &self,
        alloc: Global,
        insns: &[Insn],
        frames: &[Option<Frame>],
    ) -> Result<Own, AllocError>
        ensures { IsResolved self.now.program.now self.now.hierarchy.now → IfOk result (λ own. IsOwn self.now.program.now insns.now frames.now own.node own.ranks) }
    {
        if insns.len() >= 4294967295 {
            return Ok(loud(alloc));
        }
        match self.calls(alloc, insns, frames)? {
            Some(calls) => ranked(alloc, insns, frames, calls),
            None => Ok(loud(alloc)),
        }
    }
}
