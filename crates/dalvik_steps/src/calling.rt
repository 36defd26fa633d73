//! Calls (Dalvik bytecode, "invoke-kind").

ghost use Rattle.std.specs.Prelude.{◌≡◌, ◌&&◌, ◌<◌, ◌^◌, ℕ, List, Option, Some, None, length, map, false, IfOk, OnErr};
ghost use Rattle.program_model.specs.Lookups as look;
ghost use Rattle.program_model.specs.declared.pass.Outside.{Outside};
ghost use Rattle.dalvik_defs.specs.Effect.{register};
ghost use Rattle.dalvik_defs.specs.Find.{Found};
ghost use Rattle.dalvik_defs.specs.Names.{method_eq, object_constructor};
ghost use Rattle.dalvik_defs.specs.Naming.{method_at};
ghost use Rattle.dalvik_defs.specs.Outcome.{calls, calls_by, calls_found, calls_out, calls_ready, calls_uncoded, calls_unfound, is_direct, native_kind, passed_types, takes_no_receiver};
ghost use Rattle.dalvik_defs.specs.State.{kind_of};
ghost use Rattle.dalvik_defs.specs.declared.state.Value.{Value};
ghost use Rattle.dalvik_defs.specs.declared.script.Move.{Move};
ghost use Rattle.dalvik_defs.specs.declared.tables.Floats.{Floats};
ghost use Rattle.dalvik_lookups.specs.Facing.{named_search, run_face};
ghost use Rattle.dalvik_lookups.specs.Tables.{IsRight};
ghost use Rattle.dalvik_lookups.specs.Views.{type_text};
ghost use Rattle.dalvik_lookups.specs.Walks.{IsKept};
ghost use Rattle.dalvik_lookups.specs.declared.lookups.Lookups.{Lookups};
ghost use Rattle.dalvik_state.specs.Drafts.{AreDraftsOf};
ghost use Rattle.dalvik_state.specs.Runs.{comes_of, need_in, world_in, IsEvent, IsNext, IsRun, IsUndoneWith};
ghost use Rattle.dalvik_state.specs.States.{class_text, top_frame, HasPlaces, HasRoom, IsFineKind, IsSound};
ghost use Rattle.dalvik_state.specs.Views.{frame_of, names_in, value_of, values_of, world_of, AreFine};
ghost use Rattle.dalvik_state.specs.Worlds.{spots_of};
ghost use Rattle.dalvik_state.specs.declared.frame.Frame.{Frame};
ghost use Rattle.dalvik_steps.specs.Invoking.{calls_on, receiver_in, searched, AreCallTexts, FramesCall, IsFound};
ghost use Rattle.dalvik_steps.specs.Reaching.{IsReserved, IsStep};

use crate::asking::{asks, reserve};
use crate::stack::{back_on, enters};
use crate::starting::{Readied, readies};
use crate::throwing::{Thrown, throws};
use dalvik_defs::{Event, Shown};
use dalvik_lookups::{Kind, Memo, Search, known};
use dalvik_state::{Datum, Drafts, State, Tables, World, values_of};
use dex_base::Text;
use program_model::{Flags, InvokeKind, Method, MethodAt};
use seq::Seq;
use std::alloc::{AllocError, Global};

/// A call that an instruction makes: its kind, the method number, and the values that it passes.
#[derive(Drop)]
pub struct Call {
    pub kind: InvokeKind,
    pub method: u32,
    pub values: Vec<Datum>,
}

/// A call of the framework: the kind that is shown, whether it takes no receiver, and the method number that is shown.
#[derive(Clone, Copy, Drop)]
struct Outward {
    kind: InvokeKind,
    is_static: bool,
    method: u32,
}

/// The texts of a method's class, of its name and of its proto.
#[derive(Drop)]
struct CallTexts {
    class: Text,
    name: Text,
    proto: Text,
}

/// The texts of a method by its number.
fn call_texts(alloc: Global, tables: &Tables<'_>, method: u32) -> Result<CallTexts, AllocError>
    ensures { IsRight tables.now.lookups → method < length tables.now.lookups.program.now.methods → IfOk result (AreCallTexts tables.now.lookups.program.now method) }
{
    let lookups = &tables.lookups;
    let class = lookups.kind_text(alloc, lookups.class_of_method(method))?;
    let name = lookups.method_text(alloc, method)?;
    let proto = lookups.proto_text(alloc, method)?;
    Ok(CallTexts { class, name, proto })
}

/// What is shown of the values of a call.
fn draft_values(
    alloc: Global,
    tables: &Tables<'_>,
    world: &World,
    call: Outward,
    values: &[Datum],
) -> Result<Drafts, AllocError>
    ensures { IsRight tables.now.lookups → IsSound tables.now.lookups world.now → call.method < length tables.now.lookups.program.now.methods → AreFine (names_in tables.now.lookups) (length (spots_of world.now)) values.now → IfOk result (AreDraftsOf (world_of (names_in tables.now.lookups) world.now) (passed_types call.is_static (method_at tables.now.lookups.program.now call.method)) (values_of (names_in tables.now.lookups) values.now)) }
{
    let kinds = tables.passed_kinds(alloc, call.method, call.is_static)?;
    let drafts = Drafts::new(alloc, tables, world, kinds.as_slice(), values)?;
    Ok(drafts)
}

/// The framework is shown a call, and owes its answer; there is room for both.
fn shows_call(
    state: &mut State<'_>,
    call: Outward,
    texts: CallTexts,
    drafts: Drafts,
    owes: Kind,
) -> Option<Event>
    ensures { (l : Lookups) (o : Outside) (floats : Floats) (script : List Move) (steps : ℕ) (f : Frame) (values : List Value) → IsStep l steps state.old f → HasRoom state.old.world (length drafts.drafts.items) → HasPlaces state.old 1 → AreCallTexts l.program.now call.method texts → AreDraftsOf (world_in l state.old) (passed_types call.is_static (method_at l.program.now call.method)) values drafts → type_text l.types owes ≡ (method_at l.program.now call.method).signature.result → IsFineKind l owes
        → IsEvent l steps script state.new result (comes_of l o floats script state.old f (calls_out call.kind call.is_static (method_at l.program.now call.method) values (world_in l state.old))) }
{
    let values = drafts.show(&mut state.world);
    asks(state, owes);
    let CallTexts { class, name, proto } = texts;
    Some(Event::Call {
        kind: call.kind,
        class,
        name,
        proto,
        values,
    })
}

/// Calls the framework, which owes an answer.
fn calls_out<'a>(
    alloc: Global,
    tables: &Tables<'a>,
    state: &mut State<'a>,
    call: Outward,
    values: &[Datum],
) -> Result<Option<Event>, AllocError>
    ensures ok { (o : Outside) (floats : Floats) (script : List Move) (steps : ℕ) (f : Frame) → IsStep tables.now.lookups steps state.old f → call.method < length tables.now.lookups.program.now.methods → AreFine (names_in tables.now.lookups) (length (spots_of state.old.world)) values.now
        → IfOk result (λ e. IsEvent tables.now.lookups steps script state.new e (comes_of tables.now.lookups o floats script state.old f (calls_out call.kind call.is_static (method_at tables.now.lookups.program.now call.method) (values_of (names_in tables.now.lookups) values.now) (world_in tables.now.lookups state.old)))) }
    ensures err { OnErr result (IsReserved state.old state.new) }
{
    let drafts = draft_values(alloc, tables, &state.world, call, values)?;
    let texts = call_texts(alloc, tables, call.method)?;
    reserve(state, drafts.len())?;
    Ok(shows_call(state, call, texts, drafts, tables.result_kind(call.method)))
}

/// Of a virtual or interface call that finds a native method the kind is virtual.
fn native_kind(kind: InvokeKind) -> InvokeKind
    ensures { result ≡ native_kind kind }
{
    match kind {
        InvokeKind::Interface => InvokeKind::Virtual,
        _ => kind,
    }
}

/// Whether a call of a kind takes no receiver.
fn takes_no_receiver(kind: InvokeKind) -> bool
    ensures { result ≡ takes_no_receiver kind }
{
    match kind {
        InvokeKind::Static => true,
        _ => false,
    }
}

/// Calls a method that was found and has no code: a native one is the framework's.
fn calls_uncoded<'a>(
    alloc: Global,
    tables: &Tables<'a>,
    memo: &mut Memo,
    state: &mut State<'a>,
    call: &Call,
    method: &Method,
) -> Result<Option<Event>, AllocError>
    ensures ok { (o : Outside) (floats : Floats) (script : List Move) (steps : ℕ) (f : Frame) (g : Found) → IsRun tables.now.lookups memo.old steps state.old → top_frame state.old.stack.items ≡ Some f → IsFound tables.now.lookups g method.now → AreFine (names_in tables.now.lookups) (length (spots_of state.old.world)) call.now.values.items
        → IfOk result (λ e. IsNext tables.now.lookups steps script memo.new state.new e (comes_of tables.now.lookups o floats script state.old f (calls_uncoded call.now.kind g (values_of (names_in tables.now.lookups) call.now.values.items) (world_in tables.now.lookups state.old)))) }
    ensures err { (steps : ℕ) (f : Frame) (g : Found) → IsRun tables.now.lookups memo.old steps state.old → top_frame state.old.stack.items ≡ Some f → IsFound tables.now.lookups g method.now → OnErr result (IsUndoneWith tables.now.lookups steps memo.new state.old state.new) }
{
    if method.flags.has(Flags::NATIVE) {
        let outward = Outward {
            kind: native_kind(call.kind),
            is_static: takes_no_receiver(call.kind),
            method: method.name,
        };
        calls_out(alloc, tables, state, outward, call.values.as_slice())
    } else {
        throws(
            alloc,
            tables,
            memo,
            state,
            Thrown::New(known::ABSTRACT_METHOD),
        )
    }
}

/// Calls a method that was found.
fn calls_found<'a>(
    alloc: Global,
    tables: &Tables<'a>,
    memo: &mut Memo,
    state: &mut State<'a>,
    call: &Call,
    found: (MethodAt, &Method),
) -> Result<Option<Event>, AllocError>
    ensures ok { (o : Outside) (floats : Floats) (script : List Move) (steps : ℕ) (f : Frame) (g : Found) → IsRun tables.now.lookups memo.old steps state.old → top_frame state.old.stack.items ≡ Some f → IsFound tables.now.lookups g found.entry.1.now → look.method_at tables.now.lookups.program.now found.entry.0 ≡ Some found.entry.1.now → AreFine (names_in tables.now.lookups) (length (spots_of state.old.world)) call.now.values.items
        → IfOk result (λ e. IsNext tables.now.lookups steps script memo.new state.new e (comes_of tables.now.lookups o floats script state.old f (calls_found call.now.kind g (values_of (names_in tables.now.lookups) call.now.values.items) (world_in tables.now.lookups state.old)))) }
    ensures err { (steps : ℕ) (f : Frame) (g : Found) → IsRun tables.now.lookups memo.old steps state.old → top_frame state.old.stack.items ≡ Some f → IsFound tables.now.lookups g found.entry.1.now → OnErr result (IsUndoneWith tables.now.lookups steps memo.new state.old state.new) }
{
    let (at, method) = found;
    if method.body.is_some() {
        enters(alloc, tables, state, at, call.values.as_slice())?;
        Ok(None)
    } else {
        calls_uncoded(alloc, tables, memo, state, call, method)
    }
}

/// Calls a method that was found, once its class is initialised where it is static.
fn calls_ready<'a>(
    alloc: Global,
    tables: &Tables<'a>,
    memo: &mut Memo,
    state: &mut State<'a>,
    call: &Call,
    found: (MethodAt, &Method),
) -> Result<Option<Event>, AllocError>
    ensures ok { (o : Outside) (floats : Floats) (script : List Move) (steps : ℕ) (f : Frame) (g : Found) → IsRun tables.now.lookups memo.old steps state.old → top_frame state.old.stack.items ≡ Some f → IsFound tables.now.lookups g found.entry.1.now → look.method_at tables.now.lookups.program.now found.entry.0 ≡ Some found.entry.1.now → g.key.class ≡ class_text tables.now.lookups.program.now found.entry.0.class → AreFine (names_in tables.now.lookups) (length (spots_of state.old.world)) call.now.values.items
        → IfOk result (λ e. IsNext tables.now.lookups steps script memo.new state.new e (comes_of tables.now.lookups o floats script state.old f (calls_ready (need_in tables.now.lookups state.old) call.now.kind g (values_of (names_in tables.now.lookups) call.now.values.items) (world_in tables.now.lookups state.old)))) }
    ensures err { (steps : ℕ) (f : Frame) (g : Found) → IsRun tables.now.lookups memo.old steps state.old → top_frame state.old.stack.items ≡ Some f → IsFound tables.now.lookups g found.entry.1.now → look.method_at tables.now.lookups.program.now found.entry.0 ≡ Some found.entry.1.now → OnErr result (IsUndoneWith tables.now.lookups steps memo.new state.old state.new) }
{
    if !found.1.flags.has(Flags::STATIC) {
        return calls_found(alloc, tables, memo, state, call, found);
    }
    match readies(alloc, tables, memo, state, found.0.class)? {
        Readied::Ready => calls_found(alloc, tables, memo, state, call, found),
        Readied::Started => Ok(None),
        Readied::Failed(event) => Ok(event),
    }
}

/// Whether a call is direct.
fn is_direct(kind: InvokeKind) -> bool
    ensures { result ≡ is_direct kind }
{
    match kind {
        InvokeKind::Direct => true,
        _ => false,
    }
}

/// Whether a call that isn't found does nothing: it is a direct one of the constructor of `Ljava/lang/Object;`.
fn does_nothing(tables: &Tables<'_>, call: &Call) -> bool
    ensures { IsRight tables.now.lookups → result ≡ (is_direct call.now.kind && method_eq (method_at tables.now.lookups.program.now call.now.method) object_constructor) }
{
    is_direct(call.kind) && tables.lookups.is_object_constructor(call.method)
}

/// Calls what isn't found, which belongs to the framework. A direct call of the constructor of `Ljava/lang/Object;` does
/// nothing, and nothing is left of an earlier result.
fn calls_unfound<'a>(
    alloc: Global,
    tables: &Tables<'a>,
    state: &mut State<'a>,
    call: &Call,
) -> Result<Option<Event>, AllocError>
    ensures ok { (o : Outside) (floats : Floats) (script : List Move) (steps : ℕ) (f : Frame) → IsStep tables.now.lookups steps state.old f → call.now.method < length tables.now.lookups.program.now.methods → AreFine (names_in tables.now.lookups) (length (spots_of state.old.world)) call.now.values.items
        → IfOk result (λ e. IsEvent tables.now.lookups steps script state.new e (comes_of tables.now.lookups o floats script state.old f (calls_unfound call.now.kind (method_at tables.now.lookups.program.now call.now.method) (values_of (names_in tables.now.lookups) call.now.values.items) (world_in tables.now.lookups state.old) (frame_of (names_in tables.now.lookups) f)))) }
    ensures err { OnErr result (IsReserved state.old state.new) }
{
    if does_nothing(tables, call) {
        back_on(&mut state.stack, None);
        return Ok(None);
    }
    let outward = Outward {
        kind: call.kind,
        is_static: takes_no_receiver(call.kind),
        method: call.method,
    };
    calls_out(alloc, tables, state, outward, call.values.as_slice())
}

/// The receiver of a call that passes some values, null where it passes nothing.
fn receiver_of(values: &[Datum]) -> Datum
    ensures { result ≡ receiver_in values.now }
{
    match values.first() {
        Some(datum) => *datum,
        None => Datum::NULL,
    }
}

/// What a virtual or interface call finds at its receiver.
fn finds_virtually(
    tables: &Tables<'_>,
    memo: &mut Memo,
    world: &World,
    call: &Call,
) -> Result<Search, AllocError>
    ensures kept { IsRight tables.now.lookups → IsKept tables.now.lookups memo.old → IsSound tables.now.lookups world.now → call.now.method < length tables.now.lookups.program.now.methods → IsKept tables.now.lookups memo.new }
    ensures is { IsRight tables.now.lookups → IsKept tables.now.lookups memo.old → IsSound tables.now.lookups world.now → call.now.method < length tables.now.lookups.program.now.methods → IfOk result (λ s. named_search tables.now.lookups.program.now s ≡ (run_face tables.now.lookups).virtually (kind_of (world_of (names_in tables.now.lookups) world.now) (value_of (names_in tables.now.lookups) (receiver_in call.now.values.items))) (method_at tables.now.lookups.program.now call.now.method)) }
{
    match world.kind_of(receiver_of(call.values.as_slice())) {
        Some(kind) => tables.lookups.virtually(memo, kind, call.method),
        None => Ok(Search::Nothing),
    }
}

/// What a call from a class finds, on a receiver that isn't null.
fn finds(
    tables: &Tables<'_>,
    memo: &mut Memo,
    world: &World,
    call: &Call,
    own: u32,
) -> Result<Search, AllocError>
    ensures kept { IsRight tables.now.lookups → IsKept tables.now.lookups memo.old → IsSound tables.now.lookups world.now → call.now.method < length tables.now.lookups.program.now.methods → own < length tables.now.lookups.program.now.classes → IsKept tables.now.lookups memo.new }
    ensures is { IsRight tables.now.lookups → IsKept tables.now.lookups memo.old → IsSound tables.now.lookups world.now → call.now.method < length tables.now.lookups.program.now.methods → own < length tables.now.lookups.program.now.classes → IfOk result (λ s. named_search tables.now.lookups.program.now s ≡ searched (run_face tables.now.lookups) call.now.kind (method_at tables.now.lookups.program.now call.now.method) (kind_of (world_of (names_in tables.now.lookups) world.now) (value_of (names_in tables.now.lookups) (receiver_in call.now.values.items))) (class_text tables.now.lookups.program.now own)) }
{
    match call.kind {
        InvokeKind::Static | InvokeKind::Direct => Ok(tables.lookups.statically(call.method)),
        InvokeKind::Super => tables.lookups.from_super(memo, own, call.method),
        InvokeKind::Virtual | InvokeKind::Interface => finds_virtually(tables, memo, world, call),
    }
}

/// Calls what was found.
fn calls_by<'a>(
    alloc: Global,
    tables: &Tables<'a>,
    memo: &mut Memo,
    state: &mut State<'a>,
    call: &Call,
    search: Search,
) -> Result<Option<Event>, AllocError>
    ensures ok { (o : Outside) (floats : Floats) (script : List Move) (steps : ℕ) (f : Frame) → IsRun tables.now.lookups memo.old steps state.old → top_frame state.old.stack.items ≡ Some f → call.now.method < length tables.now.lookups.program.now.methods → AreFine (names_in tables.now.lookups) (length (spots_of state.old.world)) call.now.values.items
        → IfOk result (λ e. IsNext tables.now.lookups steps script memo.new state.new e (comes_of tables.now.lookups o floats script state.old f (calls_by (need_in tables.now.lookups state.old) call.now.kind (method_at tables.now.lookups.program.now call.now.method) (values_of (names_in tables.now.lookups) call.now.values.items) (world_in tables.now.lookups state.old) (frame_of (names_in tables.now.lookups) f) (named_search tables.now.lookups.program.now search)))) }
    ensures err { (steps : ℕ) (f : Frame) → IsRun tables.now.lookups memo.old steps state.old → top_frame state.old.stack.items ≡ Some f → OnErr result (IsUndoneWith tables.now.lookups steps memo.new state.old state.new) }
{
    match search {
        Search::Nothing => calls_unfound(alloc, tables, state, call),
        Search::Clash => throws(alloc, tables, memo, state, Thrown::New(known::CLASS_CHANGE)),
        Search::Finds(at) => match tables.lookups.method(at) {
            Some(method) => calls_ready(alloc, tables, memo, state, call, (at, method)),
            None => calls_unfound(alloc, tables, state, call),
        },
    }
}

/// Makes a call from the frame on top of the stack, whose receiver isn't null where there is one.
fn calls_on<'a>(
    alloc: Global,
    tables: &Tables<'a>,
    memo: &mut Memo,
    state: &mut State<'a>,
    call: &Call,
    own: u32,
) -> Result<Option<Event>, AllocError>
    ensures ok { (o : Outside) (floats : Floats) (script : List Move) (steps : ℕ) (f : Frame) → IsRun tables.now.lookups memo.old steps state.old → top_frame state.old.stack.items ≡ Some f → call.now.method < length tables.now.lookups.program.now.methods → f.at.class ≡ own → AreFine (names_in tables.now.lookups) (length (spots_of state.old.world)) call.now.values.items
        → IfOk result (λ e. IsNext tables.now.lookups steps script memo.new state.new e (comes_of tables.now.lookups o floats script state.old f (calls_on (run_face tables.now.lookups) (need_in tables.now.lookups state.old) call.now.kind (method_at tables.now.lookups.program.now call.now.method) (values_of (names_in tables.now.lookups) call.now.values.items) (world_in tables.now.lookups state.old) (frame_of (names_in tables.now.lookups) f)))) }
    ensures err { (steps : ℕ) (f : Frame) → IsRun tables.now.lookups memo.old steps state.old → top_frame state.old.stack.items ≡ Some f → call.now.method < length tables.now.lookups.program.now.methods → f.at.class ≡ own → OnErr result (IsUndoneWith tables.now.lookups steps memo.new state.old state.new) }
{
    let search = finds(tables, memo, &state.world, call, own)?;
    calls_by(alloc, tables, memo, state, call, search)
}

/// What the frame on top of the stack passes: the values, the receiver, and the place of the frame's class.
fn passed_by(
    alloc: Global,
    state: &State<'_>,
    args: &[u16],
) -> Result<Option<(Vec<Datum>, Datum, u32)>, AllocError>
    ensures { (f : Frame) → top_frame state.now.stack.items ≡ Some f → IfOk result (FramesCall f args.now) }
{
    match state.frame() {
        Some(frame) => {
            let values = values_of(alloc, frame, args)?;
            let on = receiver_of(values.as_slice());
            Ok(Some((values, on, frame.at.class)))
        }
        None => Ok(None),
    }
}

/// Makes a call from the frame on top of the stack; on null it throws.
pub fn calls<'a>(
    alloc: Global,
    tables: &Tables<'a>,
    memo: &mut Memo,
    state: &mut State<'a>,
    kind: InvokeKind,
    method: u32,
    args: &[u16],
) -> Result<Option<Event>, AllocError>
    ensures ok { (o : Outside) (floats : Floats) (script : List Move) (steps : ℕ) (f : Frame) → IsRun tables.now.lookups memo.old steps state.old → top_frame state.old.stack.items ≡ Some f → method < length tables.now.lookups.program.now.methods
        → IfOk result (λ e. IsNext tables.now.lookups steps script memo.new state.new e (comes_of tables.now.lookups o floats script state.old f (calls (run_face tables.now.lookups) (need_in tables.now.lookups state.old) kind (method_at tables.now.lookups.program.now method) (map (register (frame_of (names_in tables.now.lookups) f)) args.now) (world_in tables.now.lookups state.old) (frame_of (names_in tables.now.lookups) f)))) }
    ensures err { (steps : ℕ) (f : Frame) → IsRun tables.now.lookups memo.old steps state.old → top_frame state.old.stack.items ≡ Some f → method < length tables.now.lookups.program.now.methods → OnErr result (IsUndoneWith tables.now.lookups steps memo.new state.old state.new) }
{
    let (values, on, own) = match passed_by(alloc, state, args)? {
        Some(passed) => passed,
        None => return Ok(None),
    };
    if !takes_no_receiver(kind) && on.is_null() {
        return throws(alloc, tables, memo, state, Thrown::New(known::NULL_POINTER));
    }
    let call = Call {
        kind,
        method,
        values,
    };
    calls_on(alloc, tables, memo, state, &call, own)
}
