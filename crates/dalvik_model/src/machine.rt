//! The machine, step by step.

ghost use Rattle.std.specs.Prelude.{ℕ, ◌≡◌, ◌+◌, ◌<◌, ◌≤◌, ◌^◌, ◌++◌, [], true, List, IfOk, None, Ok, OnOk, OnErr, vec_len};
ghost use Rattle.program_model.specs.ProgramRules.{is_well_formed};
ghost use Rattle.dalvik_defs.specs.State.{opening, State as NamedState};
ghost use Rattle.dalvik_defs.specs.Step.{events_of};
ghost use Rattle.dalvik_defs.specs.declared.script.Move.{Move as NamedMove};
ghost use Rattle.dalvik_lookups.specs.Tables.{IsRight};
ghost use Rattle.dalvik_lookups.specs.Walks.{IsKept};
ghost use Rattle.dalvik_state.specs.States.{state_of, IsRunning};
ghost use Rattle.dalvik_state.specs.Views.{names_in};
ghost use Rattle.array_law.specs.Making.{MakesArray};
ghost use Rattle.dalvik_model.specs.Standing.{bodies_for, shown_by, subject_of, top_in, AreTables, AreTablesOf, Begins, HasFault, IsAt, IsAtNext, IsIdle, IsRunOf, IsStepped, IsSubject, MakesOnlyArrays, Runs, RunsNext, Subject};

use crate::happens::happens;
use dalvik_defs::{Event, Floats, Framework, Move};
use dalvik_lookups::{Kind, Lookups, Memo};
use dalvik_moves::moves;
use dalvik_numbers::FloatTable;
use dalvik_state::{State, Tables, Waiting};
use dalvik_steps::{ends, initialises};
use program_model::{Outside, Program};
use std::alloc::{AllocError, Global};

/// A run: what it reads, what it remembers of look-ups, and its state.
#[derive(Drop)]
struct Parts<'a> {
    tables: Tables<'a>,
    memo: Memo,
    state: State<'a>,
}

/// A program that runs under a script. `steps` is the number of steps that it has done.
#[derive(Drop)]
pub struct Machine<'a> {
    pub steps: u32,
    run: Option<Parts<'a>>,
}

/// What stands on top of the stack.
#[derive(Clone, Copy, Drop)]
enum Top {
    Nothing,
    Method,
    Initialiser,
    Ending(u32),
    Outside(Option<Kind>, Option<usize>),
}

/// What stands on top of the stack of a run that hasn't ended.
fn top_of(state: &State<'_>) -> Top
    ensures { result ≡ top_in state.now }
{
    if state.ended {
        return Top::Nothing;
    }
    match state.stack.as_slice().last() {
        Some(Waiting::Method(_)) => Top::Method,
        Some(Waiting::Initialiser { .. }) => Top::Initialiser,
        Some(Waiting::Ending { class }) => Top::Ending(*class),
        Some(Waiting::Outside { owes, pending }) => Top::Outside(*owes, *pending),
        None => Top::Nothing,
    }
}

/// The tables of a run, none where the program's classes have a fault.
fn tables_of<'a>(
    alloc: Global,
    program: &'a Program,
    outside: &Outside,
    framework: &'a Framework,
    floats: &Floats,
    script: &'a [Move],
) -> Result<Option<Tables<'a>>, AllocError>
    ensures { is_well_formed program.now ≡ true → IfOk result (AreTables (subject_of program.now outside.now framework.now floats.now script.now)) }
{
    let floats = FloatTable::new(alloc, floats)?;
    let made = Lookups::new(alloc, program, outside, framework, script)?;
    match made {
        Some((lookups, plays)) => Ok(Some(Tables {
            lookups,
            floats,
            plays,
        })),
        None => Ok(None),
    }
}

/// What a run begins with over its tables: nothing that it remembers, and the opening state.
#[derive(Drop)]
struct Opening<'a> {
    memo: Memo,
    state: State<'a>,
}

/// The opening over some tables.
fn open<'a>(alloc: Global, tables: &Tables<'a>) -> Result<Opening<'a>, AllocError>
    ensures kept { IsRight tables.now.lookups → IfOk result (λ r. IsKept tables.now.lookups r.memo) }
    ensures named { (script : List NamedMove) → IsRight tables.now.lookups → IfOk result (λ r. state_of (names_in tables.now.lookups) script r.state ≡ opening script) }
    ensures running { IsRight tables.now.lookups → IfOk result (λ r. IsRunning tables.now.lookups 0 r.state) }
{
    let memo = tables.lookups.memo(alloc)?;
    let state = State::new(alloc, tables)?;
    Ok(Opening { memo, state })
}

impl<'a> Parts<'a> {
    /// The opening of a run over its tables.
    fn new(alloc: Global, tables: Tables<'a>) -> Result<Parts<'a>, AllocError>
        ensures { (s : Subject) → AreTablesOf s tables.entry → IfOk result (λ p. IsRunOf s 0 p (opening s.script)) }
    {
        let Opening { memo, state } = open(alloc, &tables)?;
        Ok(Parts {
            tables,
            memo,
            state,
        })
    }

    /// One step, and what it shows.
    fn step(&mut self, alloc: Global) -> Result<Option<Event>, AllocError>
        ensures ok { (s : Subject) (steps : ℕ) (from : NamedState) → steps < 2 ^ 32 → IsRunOf s steps self.old from → MakesArray (bodies_for s) from → IfOk result (λ e. IsStepped s steps self.new e from) }
        ensures err { (s : Subject) (steps : ℕ) (from : NamedState) → steps < 2 ^ 32 → IsRunOf s steps self.old from → MakesArray (bodies_for s) from → OnErr result (IsRunOf s steps self.new from) }
    {
        match top_of(&self.state) {
            Top::Nothing => {
                self.state.end();
                Ok(None)
            }
            Top::Method => happens(alloc, &self.tables, &mut self.memo, &mut self.state),
            Top::Initialiser => {
                initialises(alloc, &self.tables, &mut self.memo, &mut self.state)
            }
            Top::Ending(class) => {
                ends(alloc, &self.tables, &mut self.state, class)?;
                Ok(None)
            }
            Top::Outside(owes, pending) => moves(
                alloc,
                &self.tables,
                &mut self.memo,
                &mut self.state,
                owes,
                pending,
            ),
        }
    }
}

/// The opening of a run over its tables, where there are any.
fn begin<'a>(alloc: Global, tables: Option<Tables<'a>>) -> Result<Option<Parts<'a>>, AllocError>
    ensures { (s : Subject) → AreTables s tables.entry → IfOk result (Begins s) }
{
    match tables {
        Some(tables) => {
            let parts = Parts::new(alloc, tables)?;
            Ok(Some(parts))
        }
        None => Ok(None),
    }
}

/// One step of a run, where there is one, and what it shows.
fn step_of(alloc: Global, run: &mut Option<Parts<'_>>) -> Result<Option<Event>, AllocError>
    ensures ok { (s : Subject) (steps : ℕ) (from : NamedState) → steps < 2 ^ 32 → Runs s steps run.old from → MakesArray (bodies_for s) from → IfOk result (λ e. RunsNext s steps run.new e from) }
    ensures err { (s : Subject) (steps : ℕ) (from : NamedState) → steps < 2 ^ 32 → Runs s steps run.old from → MakesArray (bodies_for s) from → OnErr result (Runs s steps run.new from) }
    ensures silent { run.old ≡ None → result ≡ Ok None }
    ensures idle { run.old ≡ None → run.new ≡ None }
{
    match run {
        Some(parts) => parts.step(alloc),
        None => Ok(None),
    }
}

impl<'a> Machine<'a> {
    /// The opening state of a run of a program: no objects, zero or first values in the static fields, all classes new,
    /// and the framework on top. `outside` says what the framework may reach, `framework` has its types, `floats`
    /// answers float arithmetic, and `script` has the framework's moves. The machine of a program whose classes have a
    /// fault (a class that is defined twice or is its own ancestor, or a split override) is idle: its steps do and show
    /// nothing. The only error is want of memory.
    pub fn new(
        alloc: Global,
        program: &'a Program,
        outside: &'a Outside,
        framework: &'a Framework,
        floats: &'a Floats,
        script: &'a [Move],
    ) -> Result<Machine<'a>, AllocError>
        ensures none { IfOk result (λ machine. machine.steps ≡ 0) }
        ensures at { IsSubject (subject_of program.now outside.now framework.now floats.now script.now) → IfOk result (λ machine. IsAt (subject_of program.now outside.now framework.now floats.now script.now) machine (opening script.now)) }
        ensures idle { HasFault program.now → IfOk result (λ machine. IsIdle machine) }
    {
        let tables = tables_of(alloc, program, outside, framework, floats, script)?;
        let run = begin(alloc, tables)?;
        Ok(Machine { steps: 0, run })
    }

    /// One step, and what it shows: none where it shows nothing, or the run has ended, or the machine is idle. Where there is
    /// no memory for it, the step has done nothing, and can be made again. A machine can make 2 ^ 32 - 1 steps.
    pub fn step(&mut self, alloc: Global) -> Result<Option<Event>, AllocError>
        requires { self.old.steps < 4294967295 }
        ensures done { OnOk result (self.new.steps ≡ self.old.steps + 1) }
        ensures err { OnErr result (self.new.steps ≡ self.old.steps) }
        ensures step { (s : Subject) (from : NamedState) → IsAt s self.old from → MakesArray (bodies_for s) from → IfOk result (λ e. IsAtNext s self.new e from) }
        ensures undone { (s : Subject) (from : NamedState) → IsAt s self.old from → MakesArray (bodies_for s) from → OnErr result (IsAt s self.new from) }
        ensures silent { IsIdle self.old → result ≡ Ok None }
        ensures idle { IsIdle self.old → IsIdle self.new }
    {
        let event = step_of(alloc, &mut self.run)?;
        self.steps += 1;
        Ok(event)
    }
}

/// Adds what a step shows to the events.
fn add(events: &mut Vec<Event>, event: Option<Event>) -> Result<(), AllocError>
    ensures { OnOk result (events.new.items ≡ events.old.items ++ events_of event) }
{
    match event {
        Some(event) => {
            events.push(event)?;
            Ok(())
        }
        None => Ok(()),
    }
}

/// The events of so many steps of a machine that has made none.
fn collect(alloc: Global, machine: &mut Machine<'_>, n: u32) -> Result<Vec<Event>, AllocError>
    requires { machine.old.steps ≡ 0 }
    ensures few { IfOk result (λ events. vec_len events ≤ n) }
    ensures shown { (s : Subject) → IsAt s machine.old (opening s.script) → MakesOnlyArrays s n → IfOk result (λ events. events.items ≡ shown_by s n) }
    ensures silent { IsIdle machine.old → IfOk result (λ events. events.items ≡ []) }
{
    let mut events = Vec::new(alloc);
    for at in 0..n {
        let event = machine.step(alloc)?;
        add(&mut events, event)?;
    }
    Ok(events)
}

/// The events of `n` steps of a program under a script of framework moves, in order (see [`Machine::new`]): those that the
/// definition shows, where each instruction that makes an array names the type of one, as those of a typed program do. A
/// program whose classes have a fault shows nothing. The only error is want of memory.
pub fn run(
    alloc: Global,
    program: &Program,
    outside: &Outside,
    framework: &Framework,
    floats: &Floats,
    script: &[Move],
    n: u32,
) -> Result<Vec<Event>, AllocError>
    ensures few { IfOk result (λ events. vec_len events ≤ n) }
    ensures shown { IsSubject (subject_of program.now outside.now framework.now floats.now script.now) → MakesOnlyArrays (subject_of program.now outside.now framework.now floats.now script.now) n
        → IfOk result (λ events. events.items ≡ shown_by (subject_of program.now outside.now framework.now floats.now script.now) n) }
    ensures silent { HasFault program.now → IfOk result (λ events. events.items ≡ []) }
{
    let mut machine = Machine::new(alloc, program, outside, framework, floats, script)?;
    collect(alloc, &mut machine, n)
}
