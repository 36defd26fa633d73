//! The least flow of a body.
//!
//! Each position has a frame where a walk reaches it. A position whose frame rose waits to be visited; of those that
//! wait the first one is visited, and what its form leaves is joined into the frames at the ends of its edges, in place.
//! Each region has a frame of its own, in which all its positions that may throw are joined, so that they reach its
//! handlers together.

ghost use Rattle.std.specs.Prelude.{◌≡◌, ◌≤◌, [], slice_get, length, replicate, Some, None, OnOk, IfOk};
ghost use Rattle.insn_set.specs.Flow.{targets_of};
ghost use Rattle.verify.specs.declared.kinds.Kind.TheVariants.{Null, Undefined, Reference};
ghost use Rattle.verify.specs.Frames.{kinds_of, all_undefined};
ghost use Rattle.verify.specs.Waiting.{Queued, Queues, queue_of};
ghost use Rattle.verify.specs.Typings.{IsLattice, IsMonotone, IsCovering, IsFlow, IsLeastFlow, Covers};
ghost use Rattle.verify.specs.Flow.{met, kinds_in, thrown_in, caught_at, caught_as, arrived_of, arrived, flowing_of, handled, caught_in, thrown_to, thrown_from, arrived_all, gone_on, followed_by, followed, visited, region_of, unreached, started, greatest, places_of};

use crate::arrivals::{Arrivals, merge, no_frames};
use crate::frames::Frame;
use crate::kinds::Kind;
use crate::setting::Setting;
use insn_set::Insn;
use program_model::{Body, Handler, Region};
use std::alloc::{AllocError, Global};

/// The frames of the positions and of the regions.
#[derive(Drop)]
pub struct States {
    pub arrivals: Arrivals,
    regions: Vec<Option<Frame>>,
}

/// A body and the region that covers each of its positions; none is listed where the body has no region.
#[derive(Drop)]
pub struct Code<'a, 'b, 'c, 'd> {
    pub setting: &'a Setting<'b>,
    pub body: &'c Body,
    pub covering: &'d [Option<u32>],
}

/// Notes the region for the positions that it covers, unless an earlier one does.
fn cover(covering: &mut [Option<u32>], region: &Region, place: u32)
    ensures { Covers covering.old covering.new region.now place }
{
    for position in region.first..region.end {
        let at = position as usize;
        if at >= covering.len() {
            return;
        }
        if covering[at].is_none() {
            covering[at] = Some(place);
        }
    }
}

/// No region for each of so many positions.
fn uncovered(alloc: Global, count: usize) -> Result<Vec<Option<u32>>, AllocError>
    ensures { IfOk result (λ cs. cs.items ≡ replicate count None) }
{
    let mut covering = Vec::with_capacity(alloc, count)?;
    for _ in 0..count {
        covering.push(None)?;
    }
    Ok(covering)
}

/// The region that covers each position of a body, the first one if there are several; the empty list where the body
/// has no regions.
pub fn covering(alloc: Global, body: &Body) -> Result<Vec<Option<u32>>, AllocError>
    ensures { IfOk result (λ cs. length body.now.regions ≤ greatest → IsCovering body.now cs.items) }
{
    if body.regions.is_empty() {
        return Ok(Vec::new(alloc));
    }
    let mut covering = uncovered(alloc, body.insns.len())?;
    let mut place: u32 = 0;
    for region in body.regions.as_slice() {
        cover(covering.as_mut_slice(), region, place);
        place = place.saturating_add(1);
    }
    Ok(covering)
}

impl Code<'_, '_, '_, '_> {
    /// The kind of the caught object at a handler: that of the handler's type, any object for a catch-all. Where a read
    /// was refused nothing is known of it.
    fn caught_at(&self, thrown: Kind, kind: Kind) -> Kind
        ensures { result ≡ caught_at thrown kind }
    {
        match thrown {
            Kind::Undefined => thrown,
            _ => kind,
        }
    }

    /// What was thrown in a region arrives at a handler, with a caught object of a kind.
    fn catch_at(
        &self,
        alloc: Global,
        arrivals: &mut Arrivals,
        position: u32,
        kind: Kind,
        frame: &mut Frame,
    ) -> Result<(), AllocError>
        ensures arrivals { OnOk result (arrived_of arrivals.new ≡ arrived self.now.setting.now.tables.now position (caught_as (kinds_of frame.old) kind) (arrived_of arrivals.old)) }
        ensures frame { OnOk result (kinds_of frame.new ≡ kinds_of frame.old) }
        ensures queues { OnOk result (Queued arrivals.old arrivals.new) }
    {
        let thrown = frame.caught;
        frame.caught = self.caught_at(thrown, kind);
        arrivals.arrive(alloc, self.setting.tables, position, frame)?;
        frame.caught = thrown;
        Ok(())
    }

    /// What was thrown in a region arrives at its handlers.
    fn catch_all(
        &self,
        alloc: Global,
        arrivals: &mut Arrivals,
        handlers: &[Handler],
        frame: &mut Frame,
    ) -> Result<(), AllocError>
        ensures arrivals { OnOk result (arrived_of arrivals.new ≡ handled self.now.setting.now.tables.now handlers.now (kinds_of frame.old) (arrived_of arrivals.old)) }
        ensures frame { OnOk result (kinds_of frame.new ≡ kinds_of frame.old) }
        ensures queues { OnOk result (Queued arrivals.old arrivals.new) }
    {
        for handler in handlers {
            let kind = self.setting.tables.kind_of(handler.kind);
            self.catch_at(alloc, arrivals, handler.position, kind, frame)?;
        }
        Ok(())
    }

    /// What was thrown in a region arrives at its handlers and at its catch-all.
    fn catch(
        &self,
        alloc: Global,
        arrivals: &mut Arrivals,
        region: &Region,
        frame: &mut Frame,
    ) -> Result<(), AllocError>
        ensures arrivals { OnOk result (arrived_of arrivals.new ≡ caught_in self.now.setting.now.tables.now region.now (kinds_of frame.old) (arrived_of arrivals.old)) }
        ensures frame { OnOk result (kinds_of frame.new ≡ kinds_of frame.old) }
        ensures queues { OnOk result (Queued arrivals.old arrivals.new) }
    {
        self.catch_all(alloc, arrivals, region.handlers.as_slice(), frame)?;
        if let Some(position) = region.rest {
            self.catch_at(alloc, arrivals, position, Kind::Reference, frame)?;
        }
        Ok(())
    }

    /// What a position throws arrives at a region, and where that rises at the region's handlers.
    fn throw_at(
        &self,
        alloc: Global,
        arrivals: &mut Arrivals,
        region: &Region,
        state: &mut Option<Frame>,
        frame: &Frame,
    ) -> Result<(), AllocError>
        ensures state { OnOk result (kinds_in state.new ≡ Some (met self.now.setting.now.tables.now (kinds_of frame.now) (kinds_in state.old))) }
        ensures arrivals { OnOk result (arrived_of arrivals.new ≡ thrown_in self.now.setting.now.tables.now region.now (kinds_of frame.now) (arrived_of arrivals.old) (kinds_in state.old)) }
        ensures queues { OnOk result (Queued arrivals.old arrivals.new) }
    {
        if merge(alloc, self.setting.tables, state, frame)? {
            if let Some(joined) = state {
                self.catch(alloc, arrivals, region, joined)?;
            }
        }
        Ok(())
    }

    /// What a position throws arrives at a region with this place.
    fn throw_to(
        &self,
        alloc: Global,
        states: &mut States,
        region: &Region,
        place: u32,
        frame: &Frame,
    ) -> Result<(), AllocError>
        ensures states { OnOk result (flowing_of states.new ≡ thrown_to self.now.setting.now.tables.now (Some region.now) place (kinds_of frame.now) (flowing_of states.old)) }
        ensures queues { OnOk result (Queued states.old.arrivals states.new.arrivals) }
    {
        let at = place as usize;
        if at < states.regions.len() {
            self.throw_at(
                alloc,
                &mut states.arrivals,
                region,
                &mut states.regions[at],
                frame,
            )?;
        }
        Ok(())
    }

    /// What a position throws arrives at the region at a place.
    fn throw(
        &self,
        alloc: Global,
        states: &mut States,
        place: u32,
        frame: &Frame,
    ) -> Result<(), AllocError>
        ensures states { OnOk result (flowing_of states.new ≡ thrown_to self.now.setting.now.tables.now (slice_get self.now.body.now.regions place) place (kinds_of frame.now) (flowing_of states.old)) }
        ensures queues { OnOk result (Queued states.old.arrivals states.new.arrivals) }
    {
        match self.body.regions.as_slice().get(place as usize) {
            Some(region) => self.throw_to(alloc, states, region, place, frame),
            None => Ok(()),
        }
    }

    /// The region that covers a position.
    fn region_of(&self, position: u32) -> Option<u32>
        ensures { result ≡ region_of self.now.covering.now position }
    {
        match self.covering.get(position as usize) {
            Some(place) => *place,
            None => None,
        }
    }

    /// The kinds before a form arrive at the handlers of its position, where it may throw. `thrown` is null for an object
    /// that is thrown, and undefined where a read of the form isn't allowed.
    fn throw_from(
        &self,
        alloc: Global,
        states: &mut States,
        position: u32,
        insn: &Insn,
        thrown: Kind,
        frame: &mut Frame,
    ) -> Result<(), AllocError>
        ensures states { OnOk result (flowing_of states.new ≡ thrown_from self.now.setting.now.tables.now self.now.body.now self.now.covering.now position insn.now thrown (kinds_of frame.old) (flowing_of states.old)) }
        ensures frame { OnOk result (kinds_of frame.new ≡ kinds_of frame.old) }
        ensures queues { OnOk result (Queued states.old.arrivals states.new.arrivals) }
    {
        if !insn.may_throw() {
            return Ok(());
        }
        if let Some(place) = self.region_of(position) {
            let caught = frame.caught;
            frame.caught = thrown;
            self.throw(alloc, states, place, frame)?;
            frame.caught = caught;
        }
        Ok(())
    }

    /// The kinds after a form arrive at its targets.
    fn branch(
        &self,
        alloc: Global,
        arrivals: &mut Arrivals,
        insn: &Insn,
        frame: &Frame,
    ) -> Result<(), AllocError>
        ensures arrivals { OnOk result (arrived_of arrivals.new ≡ arrived_all self.now.setting.now.tables.now (targets_of insn.now) (kinds_of frame.now) (arrived_of arrivals.old)) }
        ensures queues { OnOk result (Queued arrivals.old arrivals.new) }
    {
        let tables = self.setting.tables;
        match insn {
            Insn::Goto { target } | Insn::If { target, .. } | Insn::IfZero { target, .. } => {
                arrivals.arrive(alloc, tables, *target, frame)
            }
            Insn::PackedSwitch { targets, .. } | Insn::SparseSwitch { targets, .. } => {
                arrivals.arrive_all(alloc, tables, targets.as_slice(), frame)
            }
            _ => Ok(()),
        }
    }

    /// The kinds after a form arrive at its targets and at the next position.
    #[tactic(auto, using(crate::proofs::Queue::queues_on))]
    fn go_on(
        &self,
        alloc: Global,
        arrivals: &mut Arrivals,
        position: u32,
        insn: &Insn,
        frame: Frame,
    ) -> Result<(), AllocError>
        ensures arrivals { OnOk result (arrived_of arrivals.new ≡ gone_on self.now.setting.now.tables.now position insn.now (kinds_of frame) (arrived_of arrivals.old)) }
        ensures queues { OnOk result (Queued arrivals.old arrivals.new) }
    {
        let tables = self.setting.tables;
        if let Insn::Goto { target } = insn {
            arrivals.arrive_moved(tables, *target, frame)?;
            return Ok(());
        }
        self.branch(alloc, arrivals, insn, &frame)?;
        if insn.continues() {
            arrivals.arrive_moved(tables, position.saturating_add(1), frame)?;
        }
        Ok(())
    }

    /// Follows all edges from a position where a read isn't allowed: they carry nothing.
    #[tactic(auto, using(crate::proofs::Queue::queues_on))]
    fn follow_nothing(
        &self,
        alloc: Global,
        states: &mut States,
        position: u32,
        insn: &Insn,
    ) -> Result<(), AllocError>
        ensures states { OnOk result (flowing_of states.new ≡ followed_by self.now.setting.now self.now.body.now self.now.covering.now position insn.now (all_undefined 0) (flowing_of states.old) (Some 0)) }
        ensures queues { OnOk result (Queued states.old.arrivals states.new.arrivals) }
    {
        let mut nothing = Frame::undefined(alloc, self.body.registers)?;
        self.throw_from(alloc, states, position, insn, Kind::Undefined, &mut nothing)?;
        self.go_on(alloc, &mut states.arrivals, position, insn, nothing)?;
        Ok(())
    }

    /// Follows all edges from a position with these kinds.
    #[tactic(auto, using(crate::proofs::Queue::queues_on))]
    fn follow_kinds(
        &self,
        alloc: Global,
        states: &mut States,
        position: u32,
        insn: &Insn,
        before: Frame,
    ) -> Result<(), AllocError>
        ensures states { OnOk result (flowing_of states.new ≡ followed_by self.now.setting.now self.now.body.now self.now.covering.now position insn.now (kinds_of before) (flowing_of states.old) None) }
        ensures queues { OnOk result (Queued states.old.arrivals states.new.arrivals) }
    {
        let mut frame = before;
        self.throw_from(alloc, states, position, insn, Kind::Null, &mut frame)?;
        self.setting.apply(position, insn, &mut frame);
        self.go_on(alloc, &mut states.arrivals, position, insn, frame)?;
        Ok(())
    }

    /// Follows all edges from a position with these kinds. Where a read isn't allowed they carry nothing.
    fn follow(
        &self,
        alloc: Global,
        states: &mut States,
        position: u32,
        insn: &Insn,
        before: Frame,
    ) -> Result<(), AllocError>
        ensures states { OnOk result (flowing_of states.new ≡ followed self.now.setting.now self.now.body.now self.now.covering.now position insn.now (kinds_of before) (flowing_of states.old)) }
        ensures queues { OnOk result (Queued states.old.arrivals states.new.arrivals) }
    {
        match self.setting.fault(position, &before, insn) {
            Some(_register) => self.follow_nothing(alloc, states, position, insn),
            None => self.follow_kinds(alloc, states, position, insn, before),
        }
    }

    /// Visits a position.
    fn visit(&self, alloc: Global, states: &mut States, position: u32) -> Result<(), AllocError>
        ensures states { OnOk result (flowing_of states.new ≡ visited self.now.setting.now self.now.body.now self.now.covering.now position (flowing_of states.old)) }
        ensures queues { OnOk result (Queued states.old.arrivals states.new.arrivals) }
    {
        let insn = match self.body.insns.as_slice().get(position as usize) {
            Some(insn) => insn,
            None => return Ok(()),
        };
        match states.arrivals.copy_at(alloc, position)? {
            Some(frame) => self.follow(alloc, states, position, insn, frame),
            None => Ok(()),
        }
    }

    /// The entry's frame has arrived, and nothing else has.
    fn start(&self, alloc: Global, entry: Frame) -> Result<States, AllocError>
        ensures states { IfOk result (λ f. flowing_of f ≡ started self.now.setting.now.tables.now self.now.body.now (kinds_of entry)) }
        ensures queues { IfOk result (λ f. Queues (unreached (length self.now.body.now.insns)).waits f.arrivals.waiting.items [] (queue_of f.arrivals)) }
    {
        let regions = no_frames(alloc, self.body.regions.len())?;
        let mut arrivals = Arrivals::new(alloc, self.body.insns.len())?;
        arrivals.arrive_moved(self.setting.tables, 0, entry)?;
        Ok(States { arrivals, regions })
    }

    /// The frames of the least flow that begins with a frame. The only error is want of memory.
    pub fn solve(&self, alloc: Global, entry: Frame) -> Result<Vec<Option<Frame>>, AllocError>
        requires wide { length (kinds_of entry).registers ≡ self.now.body.now.registers }
        ensures flow { IfOk result (λ fs. IsLattice self.now.setting.now.tables.now → length self.now.body.now.insns ≤ greatest → IsCovering self.now.body.now self.now.covering.now
            → IsFlow self.now.setting.now self.now.body.now (kinds_of entry) (places_of fs.items)) }
        ensures least { IfOk result (λ fs. IsLattice self.now.setting.now.tables.now → IsMonotone self.now.setting.now → length self.now.body.now.insns ≤ greatest
            → IsCovering self.now.body.now self.now.covering.now → IsLeastFlow self.now.setting.now self.now.body.now (kinds_of entry) (places_of fs.items)) }
    {
        let mut states = self.start(alloc, entry)?;
        while let Some(position) = states.arrivals.next() {
            self.visit(alloc, &mut states, position)?;
        }
        Ok(states.arrivals.positions)
    }
}
