//! The state of a run, and the tables that it reads.

ghost use Rattle.std.specs.Prelude.{◌≡◌, ◌<◌, ℕ, List, Some, length, slice_index_or, slice_set, true, IfOk};
ghost use Rattle.std.specs.Option.{option_copied};
ghost use Rattle.program_model.specs.declared.program.Program.{Program};
ghost use Rattle.dalvik_defs.specs.State.{opening, put_status};
ghost use Rattle.dalvik_defs.specs.declared.script.Move.{Move};
ghost use Rattle.dalvik_lookups.specs.Tables.{place_named, IsRight};
ghost use Rattle.dalvik_state.specs.States.{class_text, classes_of, state_of, status_of, top_frame, IsOpening, IsRunning};
ghost use Rattle.dalvik_state.specs.Views.{class_in, names_in};

use crate::datum::Datum;
use crate::frame::Frame;
use crate::world::World;
use dalvik_lookups::{Kind, Lookups, Play};
use dalvik_numbers::FloatTable;
use std::alloc::{AllocError, Global};

/// What a run reads: the program by numbers, what float arithmetic answers, and the moves of the script.
#[derive(Drop)]
pub struct Tables<'a> {
    pub lookups: Lookups<'a>,
    pub floats: FloatTable,
    pub plays: Vec<Play>,
}

impl<'a> Tables<'a> {
    /// The class of a type number as a value.
    pub fn class_constant(&self, kind: u32) -> Datum
        ensures { result ≡ class_in self.now.lookups kind }
    {
        match self.lookups.program.types.as_slice().get(kind as usize) {
            Some(string) => Datum::Class(self.lookups.string(*string)),
            None => Datum::NULL,
        }
    }
}

/// How far the initialisation of a class is.
#[derive(Clone, Copy, PartialEq, Eq, Drop)]
pub enum Status {
    New,
    Running,
    Done,
    Failed,
}

/// What stands on the stack: a method; a class that is being initialised, with the classes that come before it, of which
/// those from place `next` on are left; a class whose initialiser has run, or that has none; or the framework, with the
/// type of the answer that it owes, none where nothing is open, and with the place in the script of the move that it makes
/// again once the class that the move needs is initialised.
#[derive(Drop)]
pub enum Waiting<'a> {
    Method(Frame<'a>),
    Initialiser {
        class: u32,
        above: Vec<u32>,
        next: usize,
    },
    Ending {
        class: u32,
    },
    Outside {
        owes: Option<Kind>,
        pending: Option<usize>,
    },
}

/// The state of a run. The stack has its top last, `next` is the place of the next move in the script.
#[derive(Drop)]
pub struct State<'a> {
    pub world: World,
    pub statuses: Vec<Status>,
    pub stack: Vec<Waiting<'a>>,
    pub next: usize,
    pub ended: bool,
}

/// The state in which a run begins.
fn begin<'a>(alloc: Global, tables: &Tables<'a>) -> Result<State<'a>, AllocError>
    ensures { IsRight tables.now.lookups → IfOk result (IsOpening tables.now.lookups) }
{
    let world = World::new(alloc, tables.lookups.slot_count())?;
    let classes = tables.lookups.program.classes.len();
    let statuses = vec![in alloc; Status::New; classes]?;
    let mut stack = Vec::new(alloc);
    stack.push(Waiting::Outside {
        owes: None,
        pending: None,
    })?;
    Ok(State {
        world,
        statuses,
        stack,
        next: 0,
        ended: false,
    })
}

/// Writes how far a class is, unless there is no such class.
fn write_status(statuses: &mut Vec<Status>, class: usize, status: Status)
    ensures { statuses.new.items ≡ slice_set statuses.old.items class status }
{
    if class < statuses.len() {
        statuses[class] = status;
    }
}

impl<'a> State<'a> {
    /// No objects, all classes new, and one framework frame.
    #[tactic(auto, using(crate::proofs::Opening::opening_named, crate::proofs::Opening::opening_runs))]
    pub fn new(alloc: Global, tables: &Tables<'a>) -> Result<State<'a>, AllocError>
        ensures named { (script : List Move) → IsRight tables.now.lookups → IfOk result (λ s. state_of (names_in tables.now.lookups) script s ≡ opening script) }
        ensures running { IsRight tables.now.lookups → IfOk result (IsRunning tables.now.lookups 0) }
    {
        let state = begin(alloc, tables)?;
        Ok(state)
    }

    /// How far the initialisation of a class is.
    pub fn status(&self, class: u32) -> Status
        ensures { result ≡ slice_index_or self.now.statuses.items class Status.Done }
    {
        match self.statuses.as_slice().get(class as usize) {
            Some(status) => *status,
            None => Status::Done,
        }
    }

    /// Sets how far the initialisation of a class is.
    pub fn set_status(&mut self, class: u32, status: Status)
        ensures statuses { self.new.statuses.items ≡ slice_set self.old.statuses.items class status }
        ensures named { (p : Program) → place_named p (class_text p class) ≡ Some class → class < length self.old.statuses.items → classes_of p self.new.statuses.items ≡ put_status (class_text p class) (status_of status) (classes_of p self.old.statuses.items) }
        ensures world { self.new.world ≡ self.old.world }
        ensures stack { self.new.stack ≡ self.old.stack }
        ensures next { self.new.next ≡ self.old.next }
        ensures ended { self.new.ended ≡ self.old.ended }
    {
        write_status(&mut self.statuses, class as usize, status);
    }

    /// The frame on top.
    pub fn frame(&self) -> Option<&Frame<'a>>
        ensures { option_copied result ≡ top_frame self.now.stack.items }
    {
        match self.stack.as_slice().last() {
            Some(Waiting::Method(frame)) => Some(frame),
            _ => None,
        }
    }

    /// The frame on top, to be written.
    pub fn frame_mut(&mut self) -> Option<&mut Frame<'a>> {
        match self.stack.as_mut_slice().last_mut() {
            Some(Waiting::Method(frame)) => Some(frame),
            _ => None,
        }
    }

    /// The run ends, and shows nothing.
    pub fn end(&mut self)
        ensures { self.new ≡ record self.old { ended = true } }
    {
        self.ended = true;
    }
}
