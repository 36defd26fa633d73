//! The frames of all methods.

ghost use Rattle.std.specs.Prelude.{◌≡◌, true, false, ℕ, ◌+◌, ◌<◌, length, List, [], Some, None, IfOk, IfSome, OnOk, slice_get, slice_index_or};
ghost use Rattle.facts_check.specs.Known.{AreKnown};
ghost use Rattle.facts_check.specs.Bodies.{AreFrames};
ghost use Rattle.facts_check.specs.Tables.{IsPut, Adds, IsFilledTo, AreFilled, Holds};

use crate::body::fill_body;
use crate::classes::classes_hold;
use crate::entries::{entries_hold, links_hold};
use crate::fields::fields_hold;
use crate::known::Known;
use crate::positions::Site;
use crate::starts::Start;
use dom_frame::Frame;
use program_model::{Body, Class, Method};
use seq::Seq;
use std::alloc::{AllocError, Global};

/// The frames of each method by its number, as far as they are filled in, and which numbers have been seen.
#[derive(Drop)]
struct Table {
    frames: Vec<Seq<Option<Frame>>>,
    seen: Vec<bool>,
}

/// So many empty lists.
fn empty_frames(alloc: Global, count: usize) -> Result<Vec<Seq<Option<Frame>>>, AllocError> {
    let mut frames: Vec<Seq<Option<Frame>>> = Vec::with_capacity(alloc, count)?;
    for _ in 0..count {
        frames.push(Seq::new(alloc))?;
    }
    Ok(frames)
}

/// What is known where the blocks of a method begin, by its number; nothing where no run comes to it.
fn starts_at(starts: &[Seq<Start>], number: u32) -> &[Start] {
    match starts.get(number as usize) {
        Some(list) => list.as_slice(),
        None => &[],
    }
}

/// The frames of a body, none of them where no run comes to it.
#[tactic(auto, using(crate::proofs::Filling::no_frames))]
fn frames_from(
    alloc: Global,
    known: &Known<'_>,
    class: u32,
    number: u32,
    body: &Body,
    starts: &[Start],
) -> Result<Option<Vec<Option<Frame>>>, AllocError>
    ensures { AreKnown known.now → IfOk result (λ o. IfSome o (λ frames. AreFrames known.now class number body.now frames.items)) }
{
    if starts.is_empty() {
        return Ok(Some(Vec::new(alloc)));
    }
    let site = Site {
        class,
        number,
        body,
        starts,
    };
    fill_body(alloc, known, &site)
}

impl Table {
    /// Puts the frames of a method in, unless its number has been seen.
    fn put(&mut self, number: u32, frames: Vec<Option<Frame>>) -> bool
        ensures { result ≡ true → IsPut self.old self.new number frames.items }
    {
        let at = number as usize;
        if at >= self.seen.len() || at >= self.frames.len() || self.seen[at] {
            return false;
        }
        self.seen[at] = true;
        self.frames[at] = Seq::of_vec(frames);
        true
    }

    /// Fills in the frames of a method.
    fn add(
        &mut self,
        alloc: Global,
        known: &Known<'_>,
        class: u32,
        method: &Method,
        starts: &[Seq<Start>],
    ) -> Result<bool, AllocError>
        ensures { AreKnown known.now → IfOk result (λ b. b ≡ true → Adds known.now class method.now.name method.now.body self.old self.new) }
    {
        let Some(body) = &method.body else {
            return Ok(true);
        };
        let own = starts_at(starts, method.name);
        match frames_from(alloc, known, class, method.name, body, own)? {
            Some(frames) => Ok(self.put(method.name, frames)),
            None => Ok(false),
        }
    }

    /// Fills in the frames of the methods of a class.
    #[tactic(auto, using(crate::proofs::Tabling::one_added, crate::proofs::Tabling::class_added))]
    fn add_class(
        &mut self,
        alloc: Global,
        known: &Known<'_>,
        place: u32,
        class: &Class,
        starts: &[Seq<Start>],
    ) -> Result<bool, AllocError>
        requires is { slice_get known.now.program.now.classes place ≡ Some class.now }
        requires before { AreKnown known.now → IsFilledTo known.now self.old place 0 }
        ensures { AreKnown known.now → IfOk result (λ b. b ≡ true → IsFilledTo known.now self.new (place + 1) 0) }
    {
        for method in class.methods.as_slice() {
            if !self.add(alloc, known, place, method, starts)? {
                return Ok(false);
            }
        }
        Ok(true)
    }
}

/// The table without any frames.
fn empty_table(alloc: Global, methods: usize) -> Result<Table, AllocError> {
    Ok(Table {
        frames: empty_frames(alloc, methods)?,
        seen: vec![in alloc; false; methods]?,
    })
}

/// The frames of all methods by number, from what is known where the blocks of each begin; none where that isn't closed.
#[tactic(auto, using(crate::proofs::Tabling::none_added, crate::proofs::Tabling::all_added))]
pub fn fill(
    alloc: Global,
    known: &Known<'_>,
    starts: &[Seq<Start>],
) -> Result<Option<Vec<Seq<Option<Frame>>>>, AllocError>
    ensures { AreKnown known.now → IfOk result (λ o. IfSome o (λ frames. AreFilled known.now frames.items)) }
{
    let mut table = empty_table(alloc, known.program.methods.len())?;
    let classes = known.program.classes.as_slice();
    if classes.len() >= 4294967296 {
        return Ok(None);
    }
    for place in 0..classes.len() {
        if !table.add_class(alloc, known, place as u32, &classes[place], starts)? {
            return Ok(None);
        }
    }
    let Table { frames, .. } = table;
    Ok(Some(frames))
}

/// Whether all else is closed: entries, classes that are initialised, fields, and the pools of calls.
pub fn holds(known: &Known<'_>, frames: &[Seq<Option<Frame>>]) -> bool
    ensures { AreKnown known.now → result ≡ true → Holds known.now frames.now }
{
    entries_hold(known, frames) && classes_hold(known) && links_hold(known) && fields_hold(known)
}
