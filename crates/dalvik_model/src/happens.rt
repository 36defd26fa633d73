//! What comes of an instruction: what an effect does to the stack and the framework.

ghost use Rattle.std.specs.Prelude.{ℕ, ◌≡◌, List, length, Some, IfOk, OnErr};
ghost use Rattle.std.specs.Option.{option_map};
ghost use Rattle.program_model.specs.declared.pass.Outside.{Outside};
ghost use Rattle.dalvik_defs.specs.Outcome.{Ends};
ghost use Rattle.dalvik_defs.specs.declared.script.Move.{Move};
ghost use Rattle.dalvik_defs.specs.declared.tables.Floats.{Floats};
ghost use Rattle.dalvik_lookups.specs.Walks.{IsKept};
ghost use Rattle.dalvik_numbers.specs.Rows.{IsTable};
ghost use Rattle.dalvik_state.specs.Runs.{comes_of, IsEvent, IsNext, IsRun, IsUndone, IsUndoneWith};
ghost use Rattle.dalvik_state.specs.States.{top_frame, IsInMethod, IsTopped};
ghost use Rattle.dalvik_state.specs.Views.{names_in, value_of};
ghost use Rattle.dalvik_state.specs.Worlds.{spots_of};
ghost use Rattle.dalvik_steps.specs.Reaching.{IsStep};
ghost use Rattle.dalvik_act.specs.Acted.{IsGivenBack};
ghost use Rattle.dalvik_state.specs.declared.frame.Frame.{Frame as OwnFrame};
ghost use Rattle.dalvik_state.specs.declared.state.Waiting.TheVariants as stands;
ghost use Rattle.dalvik_model.specs.Doing.{effect_outcome, form_outcome, IsAhead, IsForm, IsFruitless, IsInRun, IsReached, IsUndoneIn, NamesNext};

use dalvik_act::act;
use dalvik_defs::Event;
use dalvik_lookups::Memo;
use dalvik_state::{Datum, Effect, Frame, Gifts, State, Tables, Waiting, World};
use dalvik_steps::{
    Reading, Thrown, Writing, calls, gives, locks, makes, reads, throws, unlocks, writes,
};
use std::alloc::{AllocError, Global};

/// What the form at the position of a frame does in it.
fn acts_at<'a>(
    alloc: Global,
    tables: &Tables<'a>,
    memo: &mut Memo,
    world: &mut World,
    frame: &mut Frame<'a>,
) -> Result<Effect<'a>, AllocError>
    ensures ok { (floats : Floats) (steps : ℕ) → IsTable tables.now.floats floats → IsInRun tables.now.lookups memo.old steps world.old frame.old → IfOk result (IsForm tables.now.lookups floats steps world.old world.new frame.old frame.new) }
    ensures memo { (steps : ℕ) → IsInRun tables.now.lookups memo.old steps world.old frame.old → IsKept tables.now.lookups memo.new }
    ensures err { OnErr result (IsUndoneIn world.old world.new frame.old frame.new) }
{
    match frame.insn() {
        Some(insn) => act(alloc, tables, memo, world, frame, insn),
        None => Ok(Effect::Stuck),
    }
}

/// What the form at the position of a method does in its frame.
fn acts_in<'a>(
    alloc: Global,
    tables: &Tables<'a>,
    memo: &mut Memo,
    world: &mut World,
    waiting: &mut Waiting<'a>,
) -> Result<Effect<'a>, AllocError>
    ensures ok { (floats : Floats) (steps : ℕ) (f : OwnFrame) → waiting.old ≡ stands.Method f → IsTable tables.now.floats floats → IsInRun tables.now.lookups memo.old steps world.old f
        → IfOk result (λ e. IsInMethod (λ g. IsForm tables.now.lookups floats steps world.old world.new f g e) waiting.new) }
    ensures memo { (steps : ℕ) (f : OwnFrame) → waiting.old ≡ stands.Method f → IsInRun tables.now.lookups memo.old steps world.old f → IsKept tables.now.lookups memo.new }
    ensures err { (f : OwnFrame) → waiting.old ≡ stands.Method f → OnErr result (IsInMethod (IsUndoneIn world.old world.new f) waiting.new) }
{
    match waiting {
        Waiting::Method(frame) => acts_at(alloc, tables, memo, world, frame),
        _ => Ok(Effect::Stuck),
    }
}

/// What the form at the position of the last entry of a stack does.
fn acts_on<'a>(
    alloc: Global,
    tables: &Tables<'a>,
    memo: &mut Memo,
    world: &mut World,
    stack: &mut Vec<Waiting<'a>>,
) -> Result<Effect<'a>, AllocError>
    ensures ok { (floats : Floats) (steps : ℕ) (f : OwnFrame) → top_frame stack.old.items ≡ Some f → IsTable tables.now.floats floats → IsInRun tables.now.lookups memo.old steps world.old f
        → IfOk result (λ e. IsTopped (λ g. IsForm tables.now.lookups floats steps world.old world.new f g e) stack.old.items stack.new.items) }
    ensures memo { (steps : ℕ) (f : OwnFrame) → top_frame stack.old.items ≡ Some f → IsInRun tables.now.lookups memo.old steps world.old f → IsKept tables.now.lookups memo.new }
    ensures err { (f : OwnFrame) → top_frame stack.old.items ≡ Some f → OnErr result (IsTopped (IsUndoneIn world.old world.new f) stack.old.items stack.new.items) }
{
    let count = stack.len();
    if count > 0 {
        acts_in(alloc, tables, memo, world, &mut stack[count - 1])
    } else {
        Ok(Effect::Stuck)
    }
}

/// What the form at the position of the frame on top does in its frame.
fn effect_of<'a>(
    alloc: Global,
    tables: &Tables<'a>,
    memo: &mut Memo,
    state: &mut State<'a>,
) -> Result<Effect<'a>, AllocError>
    ensures ok { (floats : Floats) (steps : ℕ) (f : OwnFrame) → IsTable tables.now.floats floats → IsRun tables.now.lookups memo.old steps state.old → top_frame state.old.stack.items ≡ Some f → NamesNext tables.now.lookups.program.now f
        → IfOk result (IsReached tables.now.lookups floats steps memo.new state.old state.new f) }
    ensures err { (steps : ℕ) (f : OwnFrame) → IsRun tables.now.lookups memo.old steps state.old → top_frame state.old.stack.items ≡ Some f → NamesNext tables.now.lookups.program.now f → OnErr result (IsUndoneWith tables.now.lookups steps memo.new state.old state.new) }
{
    acts_on(alloc, tables, memo, &mut state.world, &mut state.stack)
}

/// The method of the frame on top.
fn running_method(state: &State<'_>) -> Option<u32>
    ensures { result ≡ option_map (λ f. f.method) (top_frame state.now.stack.items) }
{
    match state.frame() {
        Some(frame) => Some(frame.method),
        None => None,
    }
}

/// The frame on top ends.
fn returns<'a>(
    alloc: Global,
    tables: &Tables<'a>,
    state: &mut State<'a>,
    value: Option<Datum>,
) -> Result<Option<Event>, AllocError>
    ensures ok { (o : Outside) (floats : Floats) (script : List Move) (steps : ℕ) (f : OwnFrame) → IsStep tables.now.lookups steps state.old f → IsGivenBack tables.now.lookups (length (spots_of state.old.world)) value
        → IfOk result (λ e. IsEvent tables.now.lookups steps script state.new e (comes_of tables.now.lookups o floats script state.old f (Ends (option_map (value_of (names_in tables.now.lookups)) value)))) }
    ensures err { (steps : ℕ) (f : OwnFrame) → IsStep tables.now.lookups steps state.old f → OnErr result (IsUndone tables.now.lookups steps state.old state.new) }
{
    match running_method(state) {
        Some(method) => {
            let kind = tables.result_kind(method);
            gives(alloc, tables, state, Gifts::new(alloc), kind, value)
        }
        None => Ok(None),
    }
}

/// What comes of an effect of the frame on top.
fn comes<'a>(
    alloc: Global,
    tables: &Tables<'a>,
    memo: &mut Memo,
    state: &mut State<'a>,
    effect: Effect<'a>,
) -> Result<Option<Event>, AllocError>
    ensures ok { (o : Outside) (floats : Floats) (script : List Move) (steps : ℕ) (f : OwnFrame) → IsAhead tables.now.lookups memo.old steps state.old f effect.entry
        → IfOk result (λ e. IsNext tables.now.lookups steps script memo.new state.new e (comes_of tables.now.lookups o floats script state.old f (effect_outcome tables.now.lookups state.old f effect.entry))) }
    ensures err { (steps : ℕ) (f : OwnFrame) → IsAhead tables.now.lookups memo.old steps state.old f effect.entry → OnErr result (IsFruitless tables.now.lookups steps memo.new state.old state.new effect.entry) }
{
    match effect {
        Effect::Goes => Ok(None),
        Effect::Faults(class) => throws(alloc, tables, memo, state, Thrown::New(class)),
        Effect::Throws(datum) => throws(alloc, tables, memo, state, Thrown::Value(datum)),
        Effect::Gives(value) => returns(alloc, tables, state, value),
        Effect::Calls { kind, method, args } => {
            calls(alloc, tables, memo, state, kind, method, args)
        }
        Effect::Makes { to, kind } => makes(alloc, tables, memo, state, to, kind),
        Effect::Reads {
            item,
            to,
            field,
            on,
        } => {
            let reading = Reading {
                item,
                to,
                field,
                on,
            };
            reads(alloc, tables, memo, state, reading)
        }
        Effect::Writes { field, on, value } => {
            writes(alloc, tables, memo, state, Writing { field, on, value })
        }
        Effect::Locks(datum) => locks(alloc, tables, state, datum),
        Effect::Unlocks(datum) => unlocks(alloc, tables, state, datum),
        Effect::Stuck => {
            state.end();
            Ok(None)
        }
    }
}

/// A step of the frame on top of the stack.
pub fn happens<'a>(
    alloc: Global,
    tables: &Tables<'a>,
    memo: &mut Memo,
    state: &mut State<'a>,
) -> Result<Option<Event>, AllocError>
    ensures ok { (o : Outside) (floats : Floats) (script : List Move) (steps : ℕ) (f : OwnFrame) → IsRun tables.now.lookups memo.old steps state.old → IsTable tables.now.floats floats → top_frame state.old.stack.items ≡ Some f → NamesNext tables.now.lookups.program.now f
        → IfOk result (λ e. IsNext tables.now.lookups steps script memo.new state.new e (comes_of tables.now.lookups o floats script state.old f (form_outcome tables.now.lookups o floats state.old f))) }
    ensures err { (floats : Floats) (steps : ℕ) (f : OwnFrame) → IsRun tables.now.lookups memo.old steps state.old → IsTable tables.now.floats floats → top_frame state.old.stack.items ≡ Some f → NamesNext tables.now.lookups.program.now f
        → OnErr result (IsUndoneWith tables.now.lookups steps memo.new state.old state.new) }
{
    let effect = effect_of(alloc, tables, memo, state)?;
    comes(alloc, tables, memo, state, effect)
}
