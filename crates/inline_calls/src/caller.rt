//! The sites of one caller.

ghost use Rattle.std.specs.Prelude.{◌≡◌, ◌≤◌, ◌+◌, Some, None, true, false, length, map, slice_get, IfOk, OnErr};
ghost use Rattle.inline_calls.specs.Accepting.{Weighs, GoesOn, IsAccepted};
ghost use Rattle.inline_calls.specs.Asked.{Asks, NoAsks};
ghost use Rattle.inline_calls.specs.Candidates.{IsCandidate, IsWith};
ghost use Rattle.inline_calls.specs.Plans.{HasBegun};
ghost use Rattle.inline_calls.specs.Rooms.{HasRoom, LacksRoom, Judges};
ghost use Rattle.splice.specs.Callees.{chosen_at};
ghost use Rattle.verify.specs.Meeting.{IsMeeting};

use crate::asking::ask_about;
use crate::found::insn_at;
use crate::room::{cells_with, fits_cells, is_short, is_typed};
use crate::site::{Caller, Known};
use program_model::{Body, Renumber};
use redex_outside::{Adviser, Panel};
use splice::{Callee, Plan, Spliced};
use std::alloc::{AllocError, Global};
use verify::Verifier;

/// What serves all callers.
#[derive(Drop)]
pub struct Inliner<'p> {
    pub known: Known<'p>,
    pub verifier: Verifier<'p>,
    pub numbers: Renumber,
    pub admitted: &'p [bool],
}

/// What was accepted of a caller: the method that is copied at each of its positions up to the last accepted one, the new body
/// with all of these, and how many there are.
#[derive(Drop)]
pub struct Accepted<'p> {
    pub chosen: Vec<Option<Callee<'p>>>,
    pub spliced: Option<Spliced>,
    pub count: u64,
}

/// The method that is chosen at a position, if there is one.
fn chosen_at<'p>(chosen: &[Option<Callee<'p>>], position: usize) -> Option<Callee<'p>>
    ensures { result ≡ chosen_at chosen.now position }
{
    match chosen.get(position) {
        Some(callee) => *callee,
        None => None,
    }
}

/// What is chosen with a method at a position more, behind those for which any was chosen.
fn chosen_with<'p>(
    alloc: Global,
    chosen: &[Option<Callee<'p>>],
    position: usize,
    callee: Callee<'p>,
) -> Result<Vec<Option<Callee<'p>>>, AllocError>
    ensures { IfOk result (λ new. IsWith chosen.now position callee.entry new.items) }
{
    let mut new = Vec::new(alloc);
    for place in 0..position {
        new.push(chosen_at(chosen, place))?;
    }
    new.push(Some(callee))?;
    Ok(new)
}

impl<'p> Inliner<'p> {
    /// Whether a caller has room with a body, in a program that has so many cells without it.
    fn has_room(
        &self,
        alloc: Global,
        caller: Caller<'p>,
        cells: u64,
        body: &Body,
    ) -> Result<bool, AllocError>
        requires { IsMeeting self.now.verifier.tables }
        ensures room { IfOk result (λ has. has ≡ true → HasRoom self.now caller.entry cells body.now) }
        ensures none { IfOk result (λ has. has ≡ false → LacksRoom self.now caller.entry cells body.now) }
    {
        if !fits_cells(cells_with(cells, caller.body, body)) {
            return Ok(false);
        }
        if !is_short(alloc, body, &self.numbers)? {
            return Ok(false);
        }
        let typed = is_typed(alloc, &self.verifier, caller.at, body)?;
        Ok(typed)
    }

    /// The caller with these methods copied, where it has room in a program that has so many cells without them.
    fn judged(
        &self,
        alloc: Global,
        caller: Caller<'p>,
        chosen: &[Option<Callee<'p>>],
        cells: u64,
    ) -> Result<Option<Spliced>, AllocError>
        requires { IsMeeting self.now.verifier.tables }
        ensures { IfOk result (Judges self.now caller.entry cells chosen.now) }
    {
        let plan = Plan {
            program: self.known.program,
            caller: caller.method,
            body: caller.body,
            chosen,
        };
        let spliced = plan.spliced(alloc)?;
        let has = self.has_room(alloc, caller, cells, &spliced.body)?;
        if has { Ok(Some(spliced)) } else { Ok(None) }
    }

    /// Asks about a call that may be a site, where the new body has room with it, and answers that body where every adviser
    /// says yes.
    fn asked(
        &self,
        alloc: Global,
        caller: Caller<'p>,
        position: usize,
        callee: Callee<'p>,
        chosen: &[Option<Callee<'p>>],
        cells: u64,
        panel: &mut Panel,
    ) -> Result<Option<Spliced>, AllocError>
        requires { IsMeeting self.now.verifier.tables }
        ensures asked { IfOk result (λ new.
            Asks (map (λ b. (⟦<dyn Adviser as Adviser>⟧ b.vtable).replies b.value) panel.old.advisers.items)
            (map (λ b. (⟦<dyn Adviser as Adviser>⟧ b.vtable).replies b.value) panel.new.advisers.items)
            panel.old.answers.items panel.new.answers.items (λ rows. Weighs self.now caller.entry cells position callee.entry chosen.now rows new)) }
        ensures unasked { OnErr result (
            Asks (map (λ b. (⟦<dyn Adviser as Adviser>⟧ b.vtable).replies b.value) panel.old.advisers.items)
            (map (λ b. (⟦<dyn Adviser as Adviser>⟧ b.vtable).replies b.value) panel.new.advisers.items)
            panel.old.answers.items panel.new.answers.items NoAsks) }
    {
        let judged = self.judged(alloc, caller, chosen, cells)?;
        let spliced = match judged {
            Some(spliced) => spliced,
            None => return Ok(None),
        };
        let yes = ask_about(alloc, self.known.program, caller, position, callee, panel)?;
        if yes { Ok(Some(spliced)) } else { Ok(None) }
    }

    /// Asks about a call that may be a site, and accepts it where every adviser says yes.
    fn try_site(
        &self,
        alloc: Global,
        caller: Caller<'p>,
        position: usize,
        callee: Callee<'p>,
        cells: u64,
        accepted: Accepted<'p>,
        panel: &mut Panel,
    ) -> Result<Accepted<'p>, AllocError>
        requires meeting { IsMeeting self.now.verifier.tables }
        requires candidate { IsCandidate self.now.known caller position callee }
        ensures asked { IfOk result (λ new.
            Asks (map (λ b. (⟦<dyn Adviser as Adviser>⟧ b.vtable).replies b.value) panel.old.advisers.items)
            (map (λ b. (⟦<dyn Adviser as Adviser>⟧ b.vtable).replies b.value) panel.new.advisers.items)
            panel.old.answers.items panel.new.answers.items (GoesOn self.now caller.entry cells position accepted.entry new)) }
        ensures unasked { OnErr result (
            Asks (map (λ b. (⟦<dyn Adviser as Adviser>⟧ b.vtable).replies b.value) panel.old.advisers.items)
            (map (λ b. (⟦<dyn Adviser as Adviser>⟧ b.vtable).replies b.value) panel.new.advisers.items)
            panel.old.answers.items panel.new.answers.items NoAsks) }
    {
        let old = accepted.chosen.as_slice();
        let chosen = chosen_with(alloc, old, position, callee)?;
        let new = chosen.as_slice();
        let asked = self.asked(alloc, caller, position, callee, new, cells, panel)?;
        let spliced = match asked {
            Some(spliced) => spliced,
            None => return Ok(accepted),
        };
        Ok(Accepted {
            chosen,
            spliced: Some(spliced),
            count: accepted.count.saturating_add(1),
        })
    }

    /// Asks about the call at a position of a caller, where it is a site.
    fn try_position(
        &self,
        alloc: Global,
        caller: Caller<'p>,
        position: usize,
        cells: u64,
        accepted: Accepted<'p>,
        panel: &mut Panel,
    ) -> Result<Accepted<'p>, AllocError>
        requires { IsMeeting self.now.verifier.tables }
        ensures asked { IfOk result (λ new.
            Asks (map (λ b. (⟦<dyn Adviser as Adviser>⟧ b.vtable).replies b.value) panel.old.advisers.items)
            (map (λ b. (⟦<dyn Adviser as Adviser>⟧ b.vtable).replies b.value) panel.new.advisers.items)
            panel.old.answers.items panel.new.answers.items (GoesOn self.now caller.entry cells position accepted.entry new)) }
        ensures unasked { OnErr result (
            Asks (map (λ b. (⟦<dyn Adviser as Adviser>⟧ b.vtable).replies b.value) panel.old.advisers.items)
            (map (λ b. (⟦<dyn Adviser as Adviser>⟧ b.vtable).replies b.value) panel.new.advisers.items)
            panel.old.answers.items panel.new.answers.items NoAsks) }
    {
        let insn = match insn_at(caller.body, position) {
            Some(insn) => insn,
            None => return Ok(accepted),
        };
        match self.known.candidate(caller, position, insn) {
            Some(callee) => {
                let new = self.try_site(alloc, caller, position, callee, cells, accepted, panel)?;
                Ok(new)
            }
            None => Ok(accepted),
        }
    }

    /// What is accepted of a caller, in a program that has so many cells without it.
    pub fn accept(
        &self,
        alloc: Global,
        caller: Caller<'p>,
        cells: u64,
        panel: &mut Panel,
    ) -> Result<Accepted<'p>, AllocError>
        requires { IsMeeting self.now.verifier.tables }
        ensures accepted { IfOk result (λ new.
            Asks (map (λ b. (⟦<dyn Adviser as Adviser>⟧ b.vtable).replies b.value) panel.old.advisers.items)
            (map (λ b. (⟦<dyn Adviser as Adviser>⟧ b.vtable).replies b.value) panel.new.advisers.items)
            panel.old.answers.items panel.new.answers.items (IsAccepted self.now caller.entry cells (length caller.entry.body.now.insns) new)) }
        ensures begun { OnErr result (
            Asks (map (λ b. (⟦<dyn Adviser as Adviser>⟧ b.vtable).replies b.value) panel.old.advisers.items)
            (map (λ b. (⟦<dyn Adviser as Adviser>⟧ b.vtable).replies b.value) panel.new.advisers.items)
            panel.old.answers.items panel.new.answers.items (HasBegun self.now caller.entry cells)) }
    {
        let mut accepted = Accepted {
            chosen: Vec::new(alloc),
            spliced: None,
            count: 0,
        };
        let count = caller.body.insns.len();
        for position in 0..count {
            accepted = self.try_position(alloc, caller, position, cells, accepted, panel)?;
        }
        Ok(accepted)
    }
}
