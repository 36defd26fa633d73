//! Classes that are initialised.

ghost use Rattle.std.specs.Prelude.{◌≡◌, ◌+◌, ◌-◌, ◌++◌, ◌∷◌, [], ◌<◌, ◌≤◌, ◌^◌, ℕ, List, None, false, Some, cond, nat_lt, IfOk, OnErr, OnOk, drop, length, map, slice_get, take, vec_capacity, vec_len, Vec};
ghost use Rattle.std.specs.declared.alloc.Global.{Global as OwnGlobal};
ghost use Rattle.dalvik_defs.specs.Happens.{initialises, Setting};
ghost use Rattle.dalvik_defs.specs.Stack.{ends, goes_on, left_of, resumes, runs, starts};
ghost use Rattle.dalvik_defs.specs.State.{On};
ghost use Rattle.dalvik_defs.specs.declared.script.Move.{Move};
ghost use Rattle.dalvik_lookups.specs.Facing.{run_face};
ghost use Rattle.dalvik_lookups.specs.Tables.{IsRight as AreRight};
ghost use Rattle.dalvik_lookups.specs.Walks.{IsKept};
ghost use Rattle.dalvik_lookups.specs.declared.lookups.Lookups.{Lookups};
ghost use Rattle.dalvik_state.specs.Runs.{below_in, bodies_in, classes_in, script_in, stack_in, world_in, IsLeft, IsNext, IsRun, IsUndone, IsUndoneWith};
ghost use Rattle.dalvik_state.specs.States.{class_text, stack_of, AreClasses, IsRunning};
ghost use Rattle.dalvik_state.specs.Views.{names_in};
ghost use Rattle.dalvik_state.specs.Worlds.{spots_of};
ghost use Rattle.dalvik_state.specs.declared.state.Waiting.TheVariants as waiting;
ghost use Rattle.dalvik_steps.specs.Entries.{IsReadied};
ghost use Rattle.dalvik_steps.specs.Needs.{IsRight, need_at, status_at};
ghost use Rattle.dalvik_steps.specs.Turns.{hinders, is_initialiser, left_in, turn_entries, waits_at, ComesTurn, IsReserved, IsTurn, Looks};

use crate::stack::entry_frame;
use crate::throwing::{Thrown, throws};
use dalvik_defs::Event;
use dalvik_lookups::{Memo, known};
use dalvik_state::{Frame, State, Status, Tables, Waiting};
use std::alloc::{AllocError, Global};

/// Whether a class that is needed is no hindrance, has to be initialised first, or has failed.
#[derive(Clone, Copy, PartialEq, Eq, Drop)]
pub enum Need {
    Ready,
    Fresh,
    Broken,
}

/// How a class stands that is needed.
pub fn need_of(state: &State<'_>, class: u32) -> Need
    ensures { result ≡ need_at (status_at state.now.statuses.items class) }
{
    match state.status(class) {
        Status::New => Need::Fresh,
        Status::Running | Status::Done => Need::Ready,
        Status::Failed => Need::Broken,
    }
}

/// Whether a class that is needed is ready, or what has happened first: its initialisation has begun, which shows
/// nothing, or it had failed, and an error was thrown, with what that shows.
#[derive(Drop)]
pub enum Readied {
    Ready,
    Started,
    Failed(Option<Event>),
}

/// Sees to it that a class is ready. It answers that it is only where its initialiser runs or has run; a new class is
/// started, and one that failed throws a new NoClassDefFoundError.
pub fn readies<'a>(
    alloc: Global,
    tables: &Tables<'a>,
    memo: &mut Memo,
    state: &mut State<'a>,
    class: u32,
) -> Result<Readied, AllocError>
    ensures standing { IfOk result (λ readied. IsRight readied (status_at state.old.statuses.items class)) }
    ensures readied { (steps : ℕ) (script : List Move) → IsRun tables.now.lookups memo.old steps state.old → class < length tables.now.lookups.program.now.classes → IfOk result (IsReadied tables.now.lookups steps script memo.new state.old state.new class) }
    ensures kept { (steps : ℕ) → IsRun tables.now.lookups memo.old steps state.old → class < length tables.now.lookups.program.now.classes → IsKept tables.now.lookups memo.new }
    ensures err { (steps : ℕ) → IsRun tables.now.lookups memo.old steps state.old → class < length tables.now.lookups.program.now.classes → OnErr result (IsUndoneWith tables.now.lookups steps memo.new state.old state.new) }
{
    match need_of(state, class) {
        Need::Ready => Ok(Readied::Ready),
        Need::Fresh => {
            starts(alloc, tables, memo, state, class)?;
            Ok(Readied::Started)
        }
        Need::Broken => {
            let event = throws(alloc, tables, memo, state, Thrown::New(known::NO_CLASS))?;
            Ok(Readied::Failed(event))
        }
    }
}

/// Whether a class is neither running nor done.
fn hinders(status: Status) -> bool
    ensures { result ≡ hinders status }
{
    match status {
        Status::New | Status::Failed => true,
        Status::Running | Status::Done => false,
    }
}

/// The place, from `next` on, of the first class that is neither running nor done.
fn left_of(state: &State<'_>, above: &[u32], next: usize) -> usize
    ensures { drop result above.now ≡ left_in state.now.statuses.items (drop next above.now) }
{
    for at in next..above.len() {
        if hinders(state.status(above[at])) {
            return at;
        }
    }
    above.len()
}

/// What comes of a class whose turn has come: it ends once its initialiser has run, of which this is the frame, or at once
/// where it has none; or the run ends, since its initialiser can't be entered.
#[derive(Drop)]
enum Turn<'a> {
    Goes(Option<Frame<'a>>),
    Ends,
}

/// What comes of a class whose turn has come.
fn turn_of<'a>(alloc: Global, tables: &Tables<'a>, class: u32) -> Result<Turn<'a>, AllocError>
    ensures { (size : ℕ) → AreRight tables.now.lookups → class < length tables.now.lookups.program.now.classes → IfOk result (ComesTurn tables.now.lookups size class) }
{
    match tables.lookups.initialiser(class) {
        Some(at) => match entry_frame(alloc, tables, at, &[])? {
            Some(frame) => Ok(Turn::Goes(Some(frame))),
            None => Ok(Turn::Ends),
        },
        None => Ok(Turn::Goes(None)),
    }
}

/// Puts a class that ends and its initialiser's frame on a stack, which has room for both.
fn runs<'a>(stack: &mut Vec<Waiting<'a>>, class: u32, frame: Option<Frame<'a>>)
    ensures { vec_len stack.old + 2 ≤ vec_capacity stack.old → stack.new.items ≡ stack.old.items ++ turn_entries class frame.entry }
{
    let _ = stack.push(Waiting::Ending { class });
    if let Some(frame) = frame {
        let _ = stack.push(Waiting::Method(frame));
    }
}

/// A class and the frame of its initialiser stand on what is left of the stack, so many entries.
fn stands<'a>(
    state: &mut State<'a>,
    class: u32,
    count: usize,
    frame: Option<Frame<'a>>,
) -> Result<(), AllocError>
    ensures ok { (l : Lookups) (steps : ℕ) (script : List Move) → AreRight l → IsRunning l steps state.old → state.old.ended ≡ false → class < length l.program.now.classes → IsTurn l (length (spots_of state.old.world)) class frame.entry → OnOk result (IsLeft l steps script state.new (runs (bodies_in l) (world_in l state.old) (classes_in l state.old) (class_text l.program.now class) ((run_face l).initialiser (class_text l.program.now class)) (stack_of (names_in l) script (take count state.old.stack.items)) (script_in script state.old))) }
    ensures err { OnErr result (IsReserved state.old state.new) }
{
    state.stack.reserve(2)?;
    state.stack.truncate(count);
    runs(&mut state.stack, class, frame);
    Ok(())
}

/// The turn of a class has come: it stands on what is left of the stack, so many entries.
fn turns<'a>(
    alloc: Global,
    tables: &Tables<'a>,
    state: &mut State<'a>,
    class: u32,
    count: usize,
) -> Result<(), AllocError>
    ensures ok { (steps : ℕ) (script : List Move) → AreRight tables.now.lookups → IsRunning tables.now.lookups steps state.old → state.old.ended ≡ false → class < length tables.now.lookups.program.now.classes → OnOk result (IsLeft tables.now.lookups steps script state.new (runs (bodies_in tables.now.lookups) (world_in tables.now.lookups state.old) (classes_in tables.now.lookups state.old) (class_text tables.now.lookups.program.now class) ((run_face tables.now.lookups).initialiser (class_text tables.now.lookups.program.now class)) (stack_of (names_in tables.now.lookups) script (take count state.old.stack.items)) (script_in script state.old))) }
    ensures err { OnErr result (IsReserved state.old state.new) }
{
    match turn_of(alloc, tables, class)? {
        Turn::Goes(frame) => stands(state, class, count, frame),
        Turn::Ends => {
            state.end();
            Ok(())
        }
    }
}

/// A class is initialised from what comes before it on: the first of those that hinder it is looked at, or its own turn
/// has come.
fn begins<'a>(
    alloc: Global,
    tables: &Tables<'a>,
    state: &mut State<'a>,
    class: u32,
    above: Vec<u32>,
) -> Result<(), AllocError>
    ensures ok { (steps : ℕ) (script : List Move) → AreRight tables.now.lookups → IsRunning tables.now.lookups steps state.old → state.old.ended ≡ false → class < length tables.now.lookups.program.now.classes → AreClasses tables.now.lookups above.items → OnOk result (IsLeft tables.now.lookups steps script state.new (goes_on (run_face tables.now.lookups) (bodies_in tables.now.lookups) (world_in tables.now.lookups state.old) (classes_in tables.now.lookups state.old) (class_text tables.now.lookups.program.now class) (left_of (classes_in tables.now.lookups state.old) (map (class_text tables.now.lookups.program.now) above.items)) (stack_in tables.now.lookups script state.old) (script_in script state.old))) }
    ensures err { OnErr result (IsReserved state.old state.new) }
{
    let next = left_of(state, above.as_slice(), 0);
    if next < above.len() {
        state
            .stack
            .push(Waiting::Initialiser { class, above, next })?;
        Ok(())
    } else {
        let count = state.stack.len();
        turns(alloc, tables, state, class, count)
    }
}

/// The start of a class: it is running, and those that come before it are looked at.
pub fn starts<'a>(
    alloc: Global,
    tables: &Tables<'a>,
    memo: &mut Memo,
    state: &mut State<'a>,
    class: u32,
) -> Result<(), AllocError>
    ensures ok { (steps : ℕ) (script : List Move) → IsRun tables.now.lookups memo.old steps state.old → class < length tables.now.lookups.program.now.classes → OnOk result (IsLeft tables.now.lookups steps script state.new (starts (run_face tables.now.lookups) (bodies_in tables.now.lookups) (world_in tables.now.lookups state.old) (classes_in tables.now.lookups state.old) (class_text tables.now.lookups.program.now class) (stack_in tables.now.lookups script state.old) (script_in script state.old))) }
    ensures kept { (steps : ℕ) → IsRun tables.now.lookups memo.old steps state.old → class < length tables.now.lookups.program.now.classes → IsKept tables.now.lookups memo.new }
    ensures err { (steps : ℕ) → IsRun tables.now.lookups memo.old steps state.old → class < length tables.now.lookups.program.now.classes → OnErr result (IsUndoneWith tables.now.lookups steps memo.new state.old state.new) }
{
    let above = tables.lookups.initialised_first(alloc, memo, class)?;
    let before = state.status(class);
    state.set_status(class, Status::Running);
    match begins(alloc, tables, state, class, above) {
        Ok(()) => Ok(()),
        Err(fault) => {
            state.set_status(class, before);
            Err(fault)
        }
    }
}

/// A place where something is left of so many, none past them.
fn rest_from(left: usize, count: usize) -> Option<usize>
    ensures { result ≡ cond (nat_lt left count) (Some left) None }
{
    if left < count { Some(left) } else { None }
}

/// The class that is being initialised at a place of the stack, and what is left of those before it, `more` further than
/// it stands.
fn left_at(state: &State<'_>, place: usize, more: usize) -> Option<(u32, Option<usize>)>
    ensures { Looks state.now.statuses.items more (slice_get state.now.stack.items place) result }
{
    match state.stack.as_slice().get(place) {
        Some(Waiting::Initialiser { class, above, next }) => {
            let left = left_of(state, above.as_slice(), next.saturating_add(more));
            Some((*class, rest_from(left, above.len())))
        }
        Some(Waiting::Method(_)) => None,
        Some(Waiting::Ending { .. }) => None,
        Some(Waiting::Outside { .. }) => None,
        None => None,
    }
}

/// What is left before a class that is being initialised begins at a place.
fn wait_in(waiting: &mut Waiting<'_>, place: usize)
    ensures { waiting.new ≡ waits_at place waiting.old }
{
    if let Waiting::Initialiser { next, .. } = waiting {
        *next = place;
    }
}

/// The class that is being initialised at a place of a stack comes on top, and what is left before it begins at a place.
fn wait_on(stack: &mut Vec<Waiting<'_>>, place: usize, next: usize)
    ensures { (w : Waiting) → slice_get stack.old.items place ≡ Some w → stack.new.items ≡ take place stack.old.items ++ waits_at next w ∷ [] }
{
    stack.truncate(place.saturating_add(1));
    if place < stack.len() {
        wait_in(&mut stack[place], next);
    }
}

/// What waits at a place of the stack goes on, and all above it is gone: of a class that is being initialised the next of
/// those before it is looked at, `more` further than it stands, or its own turn has come.
fn goes_on<'a>(
    alloc: Global,
    tables: &Tables<'a>,
    state: &mut State<'a>,
    place: usize,
    more: usize,
) -> Result<(), AllocError>
    ensures class { (steps : ℕ) (script : List Move) (class : ℕ) (above : Vec ℕ OwnGlobal) (next : ℕ) → AreRight tables.now.lookups → IsRunning tables.now.lookups steps state.old → state.old.ended ≡ false → slice_get state.old.stack.items place ≡ Some (waiting.Initialiser class above next)
        → OnOk result (IsLeft tables.now.lookups steps script state.new (goes_on (run_face tables.now.lookups) (bodies_in tables.now.lookups) (world_in tables.now.lookups state.old) (classes_in tables.now.lookups state.old) (class_text tables.now.lookups.program.now class) (left_of (classes_in tables.now.lookups state.old) (map (class_text tables.now.lookups.program.now) (drop (next + more) above.items))) (stack_of (names_in tables.now.lookups) script (take place state.old.stack.items)) (script_in script state.old))) }
    ensures other { (steps : ℕ) (script : List Move) → AreRight tables.now.lookups → IsRunning tables.now.lookups steps state.old → state.old.ended ≡ false → place < length state.old.stack.items → is_initialiser (slice_get state.old.stack.items place) ≡ false
        → OnOk result (IsLeft tables.now.lookups steps script state.new (On (world_in tables.now.lookups state.old) (classes_in tables.now.lookups state.old) (stack_of (names_in tables.now.lookups) script (take (place + 1) state.old.stack.items)) (script_in script state.old))) }
    ensures err { OnErr result (IsReserved state.old state.new) }
{
    match left_at(state, place, more) {
        Some((class, None)) => turns(alloc, tables, state, class, place),
        Some((_, Some(next))) => {
            wait_on(&mut state.stack, place, next);
            Ok(())
        }
        None => {
            state.stack.truncate(place.saturating_add(1));
            Ok(())
        }
    }
}

/// The class that the one being initialised on top of the stack waits for.
fn first_needed(state: &State<'_>) -> Option<u32>
    ensures { (class : ℕ) (above : Vec ℕ OwnGlobal) (next : ℕ) → slice_get state.now.stack.items (length state.now.stack.items - 1) ≡ Some (waiting.Initialiser class above next) → result ≡ slice_get above.items next }
{
    match state.stack.as_slice().last() {
        Some(Waiting::Initialiser { above, next, .. }) => above.as_slice().get(*next).copied(),
        _ => None,
    }
}

/// Looks at the first of the classes that come before the one being initialised on top of the stack.
fn looks_at<'a>(
    alloc: Global,
    tables: &Tables<'a>,
    memo: &mut Memo,
    state: &mut State<'a>,
    first: u32,
) -> Result<Option<Event>, AllocError>
    ensures ok { (steps : ℕ) (script : List Move) (setting : Setting) (class : ℕ) (above : Vec ℕ OwnGlobal) (next : ℕ) → setting.face ≡ run_face tables.now.lookups → IsRun tables.now.lookups memo.old steps state.old → slice_get state.old.stack.items (length state.old.stack.items - 1) ≡ Some (waiting.Initialiser class above next) → slice_get above.items next ≡ Some first → IfOk result (λ e. IsNext tables.now.lookups steps script memo.new state.new e (initialises setting (bodies_in tables.now.lookups) (world_in tables.now.lookups state.old) (classes_in tables.now.lookups state.old) (class_text tables.now.lookups.program.now class) (map (class_text tables.now.lookups.program.now) (drop next above.items)) (below_in tables.now.lookups script state.old) (script_in script state.old))) }
    ensures kept { (steps : ℕ) (class : ℕ) (above : Vec ℕ OwnGlobal) (next : ℕ) → IsRun tables.now.lookups memo.old steps state.old → slice_get state.old.stack.items (length state.old.stack.items - 1) ≡ Some (waiting.Initialiser class above next) → slice_get above.items next ≡ Some first → IsKept tables.now.lookups memo.new }
    ensures err { (steps : ℕ) (class : ℕ) (above : Vec ℕ OwnGlobal) (next : ℕ) → IsRun tables.now.lookups memo.old steps state.old → slice_get state.old.stack.items (length state.old.stack.items - 1) ≡ Some (waiting.Initialiser class above next) → slice_get above.items next ≡ Some first → OnErr result (IsUndoneWith tables.now.lookups steps memo.new state.old state.new) }
{
    match state.status(first) {
        Status::New => {
            starts(alloc, tables, memo, state, first)?;
            Ok(None)
        }
        Status::Failed => throws(alloc, tables, memo, state, Thrown::New(known::NO_CLASS)),
        Status::Running | Status::Done => {
            let top = state.stack.len().saturating_sub(1);
            goes_on(alloc, tables, state, top, 1)?;
            Ok(None)
        }
    }
}

/// A step of a class that is being initialised on top of the stack: the first of those that come before it is started,
/// and a failed one fails it too.
pub fn initialises<'a>(
    alloc: Global,
    tables: &Tables<'a>,
    memo: &mut Memo,
    state: &mut State<'a>,
) -> Result<Option<Event>, AllocError>
    ensures ok { (steps : ℕ) (script : List Move) (setting : Setting) (class : ℕ) (above : Vec ℕ OwnGlobal) (next : ℕ) → setting.face ≡ run_face tables.now.lookups → IsRun tables.now.lookups memo.old steps state.old → slice_get state.old.stack.items (length state.old.stack.items - 1) ≡ Some (waiting.Initialiser class above next) → IfOk result (λ e. IsNext tables.now.lookups steps script memo.new state.new e (initialises setting (bodies_in tables.now.lookups) (world_in tables.now.lookups state.old) (classes_in tables.now.lookups state.old) (class_text tables.now.lookups.program.now class) (map (class_text tables.now.lookups.program.now) (drop next above.items)) (below_in tables.now.lookups script state.old) (script_in script state.old))) }
    ensures kept { (steps : ℕ) (class : ℕ) (above : Vec ℕ OwnGlobal) (next : ℕ) → IsRun tables.now.lookups memo.old steps state.old → slice_get state.old.stack.items (length state.old.stack.items - 1) ≡ Some (waiting.Initialiser class above next) → IsKept tables.now.lookups memo.new }
    ensures err { (steps : ℕ) (class : ℕ) (above : Vec ℕ OwnGlobal) (next : ℕ) → IsRun tables.now.lookups memo.old steps state.old → slice_get state.old.stack.items (length state.old.stack.items - 1) ≡ Some (waiting.Initialiser class above next) → OnErr result (IsUndoneWith tables.now.lookups steps memo.new state.old state.new) }
{
    match first_needed(state) {
        Some(first) => looks_at(alloc, tables, memo, state, first),
        None => {
            let top = state.stack.len().saturating_sub(1);
            goes_on(alloc, tables, state, top, 0)?;
            Ok(None)
        }
    }
}

/// What waits below a class that has ended goes on.
fn resumes<'a>(alloc: Global, tables: &Tables<'a>, state: &mut State<'a>) -> Result<(), AllocError>
    ensures ok { (steps : ℕ) (script : List Move) → AreRight tables.now.lookups → IsRunning tables.now.lookups steps state.old → state.old.ended ≡ false → OnOk result (IsLeft tables.now.lookups steps script state.new (resumes (run_face tables.now.lookups) (bodies_in tables.now.lookups) (world_in tables.now.lookups state.old) (classes_in tables.now.lookups state.old) (below_in tables.now.lookups script state.old) (script_in script state.old))) }
    ensures err { OnErr result (IsReserved state.old state.new) }
{
    match state.stack.len().checked_sub(2) {
        Some(place) => goes_on(alloc, tables, state, place, 0),
        None => {
            state.stack.pop();
            Ok(())
        }
    }
}

/// The end of the class on top of the stack: it is done.
pub fn ends<'a>(
    alloc: Global,
    tables: &Tables<'a>,
    state: &mut State<'a>,
    class: u32,
) -> Result<(), AllocError>
    ensures ok { (steps : ℕ) (script : List Move) → AreRight tables.now.lookups → IsRunning tables.now.lookups steps state.old → state.old.ended ≡ false → class < length tables.now.lookups.program.now.classes → OnOk result (IsLeft tables.now.lookups steps script state.new (ends (run_face tables.now.lookups) (bodies_in tables.now.lookups) (world_in tables.now.lookups state.old) (classes_in tables.now.lookups state.old) (class_text tables.now.lookups.program.now class) (below_in tables.now.lookups script state.old) (script_in script state.old))) }
    ensures err { (steps : ℕ) → AreRight tables.now.lookups → IsRunning tables.now.lookups steps state.old → state.old.ended ≡ false → class < length tables.now.lookups.program.now.classes → OnErr result (IsUndone tables.now.lookups steps state.old state.new) }
{
    let before = state.status(class);
    state.set_status(class, Status::Done);
    match resumes(alloc, tables, state) {
        Ok(()) => Ok(()),
        Err(fault) => {
            state.set_status(class, before);
            Err(fault)
        }
    }
}
