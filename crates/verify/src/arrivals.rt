//! The frames of the positions, and which positions wait to be visited.

ghost use Rattle.std.specs.Prelude.{◌≡◌, ◌<◌, ◌≤◌, ◌∷◌, [], Some, None, replicate, slice_index_or, slice_set, true, false, IfOk, IfSome, IfNone, OnOk, OnSome};
ghost use Rattle.std.specs.Option.{option_map};
ghost use Rattle.std.specs.List.Sorted.{IsPermutation};
ghost use Rattle.verify.specs.Waiting.{Queued, queue_of};
ghost use Rattle.verify.specs.Frames.{kinds_of};
ghost use Rattle.verify.specs.Flow.{met, rises_in, kinds_in, places_of, arrived_of, arrived, arrived_all, place_at, unreached};

use crate::frames::Frame;
use crate::tables::Tables;
use std::alloc::{AllocError, Global};
use std::cmp::Reverse;
use std::collections::BinaryHeap;

/// The frames of the positions, and which positions wait. Each that waits stands in the heap.
#[derive(Drop)]
pub struct Arrivals {
    pub positions: Vec<Option<Frame>>,
    waiting: Vec<bool>,
    work: BinaryHeap<Reverse<u32>>,
}

/// So many places without a frame.
pub fn no_frames(alloc: Global, count: usize) -> Result<Vec<Option<Frame>>, AllocError>
    ensures { IfOk result (λ fs. places_of fs.items ≡ replicate count None) }
{
    let mut frames = Vec::with_capacity(alloc, count)?;
    for _ in 0..count {
        frames.push(None)?;
    }
    Ok(frames)
}

/// Joins a frame into what stands at a place, and answers whether that rose.
pub fn merge(
    alloc: Global,
    tables: &Tables,
    place: &mut Option<Frame>,
    frame: &Frame,
) -> Result<bool, AllocError>
    ensures place { OnOk result (kinds_in place.new ≡ Some (met tables.now (kinds_of frame.now) (kinds_in place.old))) }
    ensures rose { IfOk result (λ rose. rose ≡ rises_in tables.now (kinds_of frame.now) (kinds_in place.old)) }
{
    match place {
        Some(old) => Ok(old.raise(tables, frame)),
        None => {
            *place = Some(frame.copy(alloc)?);
            Ok(true)
        }
    }
}

/// Moves a frame to a place where none stands, or joins it into the one there; answers whether that rose.
fn merge_moved(tables: &Tables, place: &mut Option<Frame>, frame: Frame) -> bool
    ensures place { kinds_in place.new ≡ Some (met tables.now (kinds_of frame) (kinds_in place.old)) }
    ensures rose { result ≡ rises_in tables.now (kinds_of frame) (kinds_in place.old) }
{
    match place {
        Some(old) => old.raise(tables, &frame),
        None => {
            *place = Some(frame);
            true
        }
    }
}

impl Arrivals {
    /// So many positions without a frame.
    pub fn new(alloc: Global, count: usize) -> Result<Arrivals, AllocError>
        ensures arrived { IfOk result (λ a. arrived_of a ≡ unreached count) }
        ensures queue { IfOk result (λ a. queue_of a ≡ []) }
    {
        Ok(Arrivals {
            positions: no_frames(alloc, count)?,
            waiting: vec![in alloc; false; count]?,
            work: BinaryHeap::new(alloc),
        })
    }

    /// Lets a position wait.
    fn wake(&mut self, position: u32) -> Result<(), AllocError>
        ensures positions { OnOk result (self.new.positions.items ≡ self.old.positions.items) }
        ensures waiting { OnOk result (self.new.waiting.items ≡ slice_set self.old.waiting.items position true) }
        ensures queues { OnOk result (Queued self.old self.new) }
    {
        let at = position as usize;
        if at < self.waiting.len() && !self.waiting[at] {
            self.work.push(Reverse(position))?;
            self.waiting[at] = true;
        }
        Ok(())
    }

    /// A frame arrives at a position.
    pub fn arrive(
        &mut self,
        alloc: Global,
        tables: &Tables,
        position: u32,
        frame: &Frame,
    ) -> Result<(), AllocError>
        ensures arrived { OnOk result (arrived_of self.new ≡ arrived tables.now position (kinds_of frame.now) (arrived_of self.old)) }
        ensures queues { OnOk result (Queued self.old self.new) }
    {
        let at = position as usize;
        if at < self.positions.len() {
            if merge(alloc, tables, &mut self.positions[at], frame)? {
                self.wake(position)?;
            }
        }
        Ok(())
    }

    /// A frame that is needed nowhere else arrives at a position.
    pub fn arrive_moved(
        &mut self,
        tables: &Tables,
        position: u32,
        frame: Frame,
    ) -> Result<(), AllocError>
        ensures arrived { OnOk result (arrived_of self.new ≡ arrived tables.now position (kinds_of frame) (arrived_of self.old)) }
        ensures queues { OnOk result (Queued self.old self.new) }
    {
        let at = position as usize;
        if at < self.positions.len() {
            if merge_moved(tables, &mut self.positions[at], frame) {
                self.wake(position)?;
            }
        }
        Ok(())
    }

    /// A frame arrives at each of some positions.
    pub fn arrive_all(
        &mut self,
        alloc: Global,
        tables: &Tables,
        targets: &[u32],
        frame: &Frame,
    ) -> Result<(), AllocError>
        ensures arrived { OnOk result (arrived_of self.new ≡ arrived_all tables.now targets.now (kinds_of frame.now) (arrived_of self.old)) }
        ensures queues { OnOk result (Queued self.old self.new) }
    {
        for target in targets {
            self.arrive(alloc, tables, *target, frame)?;
        }
        Ok(())
    }

    /// The first position that waits, which waits no longer.
    pub fn next(&mut self) -> Option<u32>
        ensures positions { self.new.positions.items ≡ self.old.positions.items }
        ensures waiting { IfSome result (λ n. self.new.waiting.items ≡ slice_set self.old.waiting.items n false) }
        ensures queue { IfSome result (λ n. IsPermutation (queue_of self.old) (n ∷ queue_of self.new)) }
        ensures none { IfNone result (queue_of self.old ≡ []) }
    {
        match self.work.pop() {
            Some(Reverse(position)) => {
                if let Some(mark) = self.waiting.get_mut(position as usize) {
                    *mark = false;
                }
                Some(position)
            }
            None => None,
        }
    }

    /// A copy of the frame at a position.
    pub fn copy_at(&self, alloc: Global, position: u32) -> Result<Option<Frame>, AllocError>
        ensures { IfOk result (λ f. kinds_in f ≡ place_at (places_of self.now.positions.items) position) }
    {
        match self.positions.get(position as usize) {
            Some(Some(frame)) => Ok(Some(frame.copy(alloc)?)),
            _ => Ok(None),
        }
    }
}
