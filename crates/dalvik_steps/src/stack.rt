//! Entries and results (Dalvik bytecode, "invoke-kind", "return").

ghost use Rattle.std.specs.Prelude.{◌≡◌, ◌-◌, ◌++◌, ◌<◌, ◌^◌, true, ℕ, List, None, Some, IfOk, OnErr, OnOk, false, nat_eq, replicate, length, slice_get};
ghost use Rattle.std.specs.Option.{option_map};
ghost use Rattle.program_model.specs.Lookups as look;
ghost use Rattle.program_model.specs.declared.program.Method.{Method as OwnMethod};
ghost use Rattle.dalvik_defs.specs.Names.{Text};
ghost use Rattle.dalvik_defs.specs.Naming.{method_at};
ghost use Rattle.dalvik_defs.specs.Stack.{enters, gives};
ghost use Rattle.dalvik_defs.specs.declared.script.Move.{Move};
ghost use Rattle.dalvik_lookups.specs.Tables.{IsRight};
ghost use Rattle.dalvik_lookups.specs.Views.{type_text};
ghost use Rattle.dalvik_lookups.specs.declared.lookups.Lookups.{Lookups};
ghost use Rattle.dalvik_state.specs.Drafts.{given_world};
ghost use Rattle.dalvik_state.specs.Giving.{AreGiven, IsGiven};
ghost use Rattle.dalvik_state.specs.Runs.{below_in, bodies_in, classes_in, script_in, stack_in, world_in, IsEvent, IsLeft, IsUndone};
ghost use Rattle.dalvik_state.specs.States.{below_top, ChangesIn, ChangesTop, IsRunning};
ghost use Rattle.dalvik_state.specs.Views.{names_in, value_of, values_of, AreFine};
ghost use Rattle.dalvik_state.specs.Worlds.{spots_of};
ghost use Rattle.dalvik_steps.specs.Turns.{IsAsItWas};
ghost use Rattle.dalvik_steps.specs.Backs.{asked_by, is_outside, last_of, Backs, IsHanded, TakesResult};
ghost use Rattle.dalvik_steps.specs.Entries.{first_cell, AreGivenFine, IsAtEntry, IsEntry, IsFirst, IsWithin, ShowsGiven};

use dalvik_defs::{Event, Shown};
use dalvik_lookups::Kind;
use dalvik_state::{
    Datum, Frame, Gifts, State, Tables, Waiting, World, drafted_option, read_register, show_option,
};
use program_model::{Body, Insn, Item, Method, MethodAt};
use std::alloc::{AllocError, Global};

/// The registers at an entry: the arguments are last.
fn entry_registers(alloc: Global, body: &Body, values: &[Datum]) -> Result<Vec<Datum>, AllocError>
    ensures { IfOk result (λ r. r.items ≡ replicate (body.now.registers - body.now.ins) (Datum.Word 0) ++ values.now) }
{
    let locals = body.registers.saturating_sub(body.ins) as usize;
    let mut registers = vec![in alloc; Datum::NULL; locals]?;
    registers.extend_from_slice(values)?;
    Ok(registers)
}

/// The frame of a method at the entry of its code.
fn frame_of<'a>(
    alloc: Global,
    at: MethodAt,
    method: u32,
    body: &'a Body,
    values: &[Datum],
) -> Result<Frame<'a>, AllocError>
    ensures { IfOk result (IsAtEntry at method body.now values.now) }
{
    let registers = entry_registers(alloc, body, values)?;
    Ok(Frame {
        at,
        method,
        body,
        position: 0,
        registers,
        result: Datum::NULL,
        caught: Datum::NULL,
    })
}

/// Whether a body takes so many values.
fn takes(body: &Body, values: &[Datum]) -> bool
    ensures { result ≡ nat_eq (length values.now) body.now.ins }
{
    values.len() == body.ins as usize
}

/// The frame of a body that takes these values, none of one that takes another number of them.
fn frame_within<'a>(
    alloc: Global,
    at: MethodAt,
    method: u32,
    body: &'a Body,
    values: &[Datum],
) -> Result<Option<Frame<'a>>, AllocError>
    ensures { IfOk result (IsWithin at method body.now values.now) }
{
    if !takes(body, values) {
        return Ok(None);
    }
    let frame = frame_of(alloc, at, method, body, values)?;
    Ok(Some(frame))
}

/// The frame of a method at its entry, none where it has no code, or code that takes another number of values.
fn first_frame<'a>(
    alloc: Global,
    at: MethodAt,
    method: &'a Method,
    values: &[Datum],
) -> Result<Option<Frame<'a>>, AllocError>
    ensures { IfOk result (IsFirst at method.now values.now) }
{
    match &method.body {
        Some(body) => frame_within(alloc, at, method.name, body, values),
        None => Ok(None),
    }
}

/// The frame of a method that is entered, none where it has no code, or code that takes another number of values.
pub fn entry_frame<'a>(
    alloc: Global,
    tables: &Tables<'a>,
    at: MethodAt,
    values: &[Datum],
) -> Result<Option<Frame<'a>>, AllocError>
    ensures { (size : ℕ) (own : OwnMethod) → IsRight tables.now.lookups → look.method_at tables.now.lookups.program.now at ≡ Some own → AreFine (names_in tables.now.lookups) size values.now → IfOk result (IsEntry tables.now.lookups size own values.now) }
{
    match tables.lookups.method(at) {
        Some(method) => first_frame(alloc, at, method, values),
        None => Ok(None),
    }
}

/// Enters a method on top of the stack. Without code, or where that takes another number of values, the run ends.
pub fn enters<'a>(
    alloc: Global,
    tables: &Tables<'a>,
    state: &mut State<'a>,
    at: MethodAt,
    values: &[Datum],
) -> Result<(), AllocError>
    ensures ok { (steps : ℕ) (script : List Move) (own : OwnMethod) → IsRight tables.now.lookups → IsRunning tables.now.lookups steps state.old → state.old.ended ≡ false → look.method_at tables.now.lookups.program.now at ≡ Some own → AreFine (names_in tables.now.lookups) (length (spots_of state.old.world)) values.now
        → OnOk result (IsLeft tables.now.lookups steps script state.new (enters (bodies_in tables.now.lookups) (world_in tables.now.lookups state.old) (classes_in tables.now.lookups state.old) (method_at tables.now.lookups.program.now own.name) (values_of (names_in tables.now.lookups) values.now) (stack_in tables.now.lookups script state.old) (script_in script state.old))) }
    ensures err { (steps : ℕ) → IsRight tables.now.lookups → IsRunning tables.now.lookups steps state.old → state.old.ended ≡ false → OnErr result (IsUndone tables.now.lookups steps state.old state.new) }
{
    match entry_frame(alloc, tables, at, values)? {
        Some(frame) => {
            state.stack.push(Waiting::Method(frame))?;
            Ok(())
        }
        None => {
            state.end();
            Ok(())
        }
    }
}

/// The register for which a frame's position has asked a value, if it is a read.
fn asked(frame: &Frame<'_>) -> Option<(Item, u16)>
    ensures { result ≡ asked_by (slice_get frame.now.body.now.insns frame.now.position) }
{
    match frame.body.insns.as_slice().get(frame.position) {
        Some(Insn::InstanceGet { item, to, .. } | Insn::StaticGet { item, to, .. }) => {
            Some((*item, *to))
        }
        _ => None,
    }
}

/// A frame goes on with the result of a call.
fn take_result(frame: &mut Frame<'_>, datum: Datum)
    ensures { TakesResult frame.old frame.new datum }
{
    frame.result = datum;
    frame.position = frame.position.saturating_add(1);
}

/// A value comes back to the position that asked for it. Where none comes, nothing is left of an earlier result.
fn back(frame: &mut Frame<'_>, value: Option<Datum>)
    ensures { Backs value frame.old frame.new }
{
    let register = asked(frame);
    match (value, register) {
        (Some(datum), Some((item, to))) => frame.next_with(item, to, datum),
        (Some(datum), None) => take_result(frame, datum),
        (None, _) => take_result(frame, Datum::NULL),
    }
}

/// A value comes back to a method.
fn back_in(waiting: &mut Waiting<'_>, value: Option<Datum>)
    ensures { ChangesIn (Backs value) waiting.old waiting.new }
{
    if let Waiting::Method(frame) = waiting {
        back(frame, value);
    }
}

/// A value comes back to the method on top of a stack.
pub(crate) fn back_on(stack: &mut Vec<Waiting<'_>>, value: Option<Datum>)
    ensures { ChangesTop (Backs value) stack.old.items stack.new.items }
{
    let count = stack.len();
    if count > 0 {
        back_in(&mut stack[count - 1], value);
    }
}

/// Gives a value to a frame on top of the stack, or to a class that ends, which takes none.
fn hand_back(state: &mut State<'_>, value: Option<Datum>)
    ensures { IsHanded value state.old state.new }
{
    match state.stack.as_slice().last() {
        Some(Waiting::Method(_)) => back_on(&mut state.stack, value),
        Some(Waiting::Ending { .. }) => {}
        _ => state.end(),
    }
}

/// Whether the framework stands below the top.
fn is_outside_below(state: &State<'_>) -> bool
    ensures { result ≡ is_outside (last_of (below_top state.now.stack.items)) }
{
    let length = state.stack.len();
    if length < 2 {
        return false;
    }
    match state.stack.as_slice().get(length - 2) {
        Some(Waiting::Outside { .. }) => true,
        _ => false,
    }
}

/// Puts the objects of a move on the heap.
fn puts(world: &mut World, gifts: Gifts) -> Result<(), AllocError>
    ensures ok { (l : Lookups) → IsGiven l world.old gifts → OnOk result (AreGiven l gifts world.old world.new) }
    ensures err { OnErr result (IsAsItWas world.old world.new) }
{
    gifts.reserve(world, 0)?;
    gifts.give(world);
    Ok(())
}

/// Puts the objects of a move on the heap, and shows a value that may be of one of them.
pub fn shows_given(
    alloc: Global,
    tables: &Tables<'_>,
    world: &mut World,
    gifts: Gifts,
    kind: Kind,
    value: Option<Datum>,
) -> Result<Option<Shown>, AllocError>
    ensures ok { IsRight tables.now.lookups → IsGiven tables.now.lookups world.old gifts → AreGivenFine tables.now.lookups world.old gifts value → IfOk result (ShowsGiven tables.now.lookups gifts (type_text tables.now.lookups.types kind) value world.old world.new) }
    ensures err { OnErr result (IsAsItWas world.old world.new) }
{
    let draft = drafted_option(alloc, tables, world, &gifts, kind, value)?;
    gifts.reserve(world, 1)?;
    gifts.give(world);
    Ok(show_option(world, draft))
}

/// Takes the top off the stack and gives a value to the framework below it, which is shown it.
fn gives_out(
    alloc: Global,
    tables: &Tables<'_>,
    state: &mut State<'_>,
    gifts: Gifts,
    kind: Kind,
    value: Option<Datum>,
) -> Result<Option<Event>, AllocError>
    ensures ok { (steps : ℕ) (script : List Move) → steps < 2 ^ 32 → IsRight tables.now.lookups → IsRunning tables.now.lookups steps state.old → state.old.ended ≡ false → is_outside (last_of (below_top state.old.stack.items)) ≡ true → IsGiven tables.now.lookups state.old.world gifts → AreGivenFine tables.now.lookups state.old.world gifts value
        → IfOk result (λ e. IsEvent tables.now.lookups steps script state.new e (gives (bodies_in tables.now.lookups) (type_text tables.now.lookups.types kind) (given_world (names_in tables.now.lookups) state.old.world gifts) (classes_in tables.now.lookups state.old) (option_map (value_of (names_in tables.now.lookups)) value) (below_in tables.now.lookups script state.old) (script_in script state.old))) }
    ensures next { OnOk result (state.new.next ≡ state.old.next) }
    ensures err { (steps : ℕ) → IsRight tables.now.lookups → IsRunning tables.now.lookups steps state.old → state.old.ended ≡ false → OnErr result (IsUndone tables.now.lookups steps state.old state.new) }
{
    let value = shows_given(alloc, tables, &mut state.world, gifts, kind, value)?;
    state.stack.pop();
    Ok(Some(Event::Result { value }))
}

/// Takes the top off the stack and gives a value to what stands below it in the program.
fn gives_within(
    tables: &Tables<'_>,
    state: &mut State<'_>,
    gifts: Gifts,
    value: Option<Datum>,
) -> Result<(), AllocError>
    ensures ok { (steps : ℕ) (script : List Move) → steps < 2 ^ 32 → IsRight tables.now.lookups → IsRunning tables.now.lookups steps state.old → state.old.ended ≡ false → is_outside (last_of (below_top state.old.stack.items)) ≡ false → IsGiven tables.now.lookups state.old.world gifts → AreGivenFine tables.now.lookups state.old.world gifts value
        → (kind : Text) → OnOk result (IsEvent tables.now.lookups steps script state.new None (gives (bodies_in tables.now.lookups) kind (given_world (names_in tables.now.lookups) state.old.world gifts) (classes_in tables.now.lookups state.old) (option_map (value_of (names_in tables.now.lookups)) value) (below_in tables.now.lookups script state.old) (script_in script state.old))) }
    ensures next { OnOk result (state.new.next ≡ state.old.next) }
    ensures err { (steps : ℕ) → IsRight tables.now.lookups → IsRunning tables.now.lookups steps state.old → state.old.ended ≡ false → OnErr result (IsUndone tables.now.lookups steps state.old state.new) }
{
    puts(&mut state.world, gifts)?;
    state.stack.pop();
    hand_back(state, value);
    Ok(())
}

/// Takes the top off the stack and gives a value to what stands below it. `gifts` are new objects that the value may be
/// of; `kind` is the type of the value.
pub fn gives<'a>(
    alloc: Global,
    tables: &Tables<'a>,
    state: &mut State<'a>,
    gifts: Gifts,
    kind: Kind,
    value: Option<Datum>,
) -> Result<Option<Event>, AllocError>
    ensures ok { (steps : ℕ) (script : List Move) → steps < 2 ^ 32 → IsRight tables.now.lookups → IsRunning tables.now.lookups steps state.old → state.old.ended ≡ false → IsGiven tables.now.lookups state.old.world gifts → AreGivenFine tables.now.lookups state.old.world gifts value
        → IfOk result (λ e. IsEvent tables.now.lookups steps script state.new e (gives (bodies_in tables.now.lookups) (type_text tables.now.lookups.types kind) (given_world (names_in tables.now.lookups) state.old.world gifts) (classes_in tables.now.lookups state.old) (option_map (value_of (names_in tables.now.lookups)) value) (below_in tables.now.lookups script state.old) (script_in script state.old))) }
    ensures next { OnOk result (state.new.next ≡ state.old.next) }
    ensures err { (steps : ℕ) → IsRight tables.now.lookups → IsRunning tables.now.lookups steps state.old → state.old.ended ≡ false → OnErr result (IsUndone tables.now.lookups steps state.old state.new) }
{
    if is_outside_below(state) {
        gives_out(alloc, tables, state, gifts, kind, value)
    } else {
        gives_within(tables, state, gifts, value)?;
        Ok(None)
    }
}

/// The receiver of a call: its first argument, null without one.
pub fn receiver(frame: &Frame<'_>, args: &[u16]) -> Datum
    ensures { result ≡ first_cell frame.now.registers.items args.now }
{
    match args.first() {
        Some(register) => read_register(frame.registers.as_slice(), *register as usize),
        None => Datum::NULL,
    }
}
