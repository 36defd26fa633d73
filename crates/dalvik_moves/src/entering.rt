//! The framework enters methods and makes objects.

ghost use Rattle.std.specs.Prelude.{◌≡◌, ◌+◌, ◌<◌, ◌≤◌, ◌∷◌, ◌++◌, ◌&&◌, ◌||◌, [], ℕ, List, Option, None, Some, false, is_some, length, map, slice_get, vec_capacity, vec_len, IfOk, OnErr, OnOk};
ghost use Rattle.std.specs.Option.{option_map};
ghost use Rattle.program_model.specs.declared.pass.Outside.{Outside};
ghost use Rattle.program_model.specs.Lookups as look;
ghost use Rattle.name_bridge.specs.Named.{found_at};
ghost use Rattle.dalvik_defs.specs.Find.{Found};
ghost use Rattle.dalvik_defs.specs.Flags.{is_static};
ghost use Rattle.dalvik_defs.specs.Gives.{all_fit, spread};
ghost use Rattle.dalvik_defs.specs.Legal.{is_class_initialiser, may_enter, may_enter_found, may_make, receiver_ok};
ghost use Rattle.dalvik_defs.specs.Moves.{enter, entered, made, make, needs};
ghost use Rattle.dalvik_defs.specs.Outcome.{need_of, passed_types};
ghost use Rattle.dalvik_defs.specs.Outer.{outer_of};
ghost use Rattle.dalvik_defs.specs.Stack.{enters};
ghost use Rattle.dalvik_defs.specs.State.{quiet, On};
ghost use Rattle.dalvik_defs.specs.declared.state.Waiting.TheVariants.{Method as InMethod};
ghost use Rattle.dalvik_defs.specs.Names.{Text as NameText};
ghost use Rattle.dalvik_defs.specs.declared.script.Given.{Given};
ghost use Rattle.dalvik_defs.specs.declared.script.Move.{Move};
ghost use Rattle.dalvik_defs.specs.declared.tables.Floats.{Floats};
ghost use Rattle.dalvik_lookups.specs.Declaring.{declared_method};
ghost use Rattle.dalvik_lookups.specs.Facing.{run_face};
ghost use Rattle.dalvik_lookups.specs.Playing.{AreEach, IsGift};
ghost use Rattle.dalvik_lookups.specs.Tables.{place_named, search_of, IsRight};
ghost use Rattle.dalvik_lookups.specs.Walks.{IsKept};
ghost use Rattle.dalvik_lookups.specs.declared.lookups.Lookups.{Lookups as OwnLookups};
ghost use Rattle.dalvik_lookups.specs.declared.memo.Memo.{Memo as OwnMemo};
ghost use Rattle.dalvik_lookups.specs.declared.types.Kind.{Kind};
ghost use Rattle.dalvik_state.specs.Drafts.{gift_spots, given_world};
ghost use Rattle.dalvik_state.specs.Giving.{finds_at, IsGiven};
ghost use Rattle.dalvik_state.specs.Runs.{bodies_in, classes_in, setting_in, stack_in, world_in, IsEvent, IsNext, IsReach, IsUndone, IsUndoneWith};
ghost use Rattle.dalvik_state.specs.States.{class_text, IsRunning, IsSound, IsSoundFrame};
ghost use Rattle.dalvik_state.specs.Views.{frame_of, names_in, value_of};
ghost use Rattle.dalvik_state.specs.declared.state.Waiting.TheVariants as stands;
ghost use Rattle.dalvik_moves.specs.Moving.{datums_of, freed_in, spread_in, AreAllTaken, IsMember, IsMoving, MemberMaybe};

use crate::finishing::done;
use dalvik_defs::Event;
use dalvik_lookups::{Gift, Memo};
use dalvik_state::{Datum, Frame, Gifts, State, Tables, Taken, Waiting, all_fit, receiver_ok};
use dalvik_steps::{Readied, entry_frame, makes_shown, readies};
use program_model::{Flags, Method, MethodAt};
use std::alloc::{AllocError, Global};

/// The values of a move, and the new objects among them.
#[derive(Drop)]
struct Values {
    gifts: Gifts,
    taken: Vec<(Gift, Taken)>,
}

/// Takes the values of a move from left to right.
fn take_all(
    alloc: Global,
    tables: &Tables<'_>,
    state: &State<'_>,
    values: &[Gift],
) -> Result<Values, AllocError>
    ensures { (o : Outside) (gs : List Given) → IsRight tables.now.lookups → IsReach tables.now.lookups o → IsSound tables.now.lookups state.now.world → AreEach (IsGift tables.now.lookups.types tables.now.lookups.texts) gs values.now → IfOk result (AreAllTaken tables.now.lookups o state.now.world gs) }
{
    let mut gifts = Gifts::new(alloc);
    let mut taken = Vec::new(alloc);
    for gift in values {
        let one = gifts.take(alloc, tables, &state.world, *gift)?;
        taken.push((*gift, one))?;
    }
    Ok(Values { gifts, taken })
}

/// Adds the registers of a value: a wide takes two.
fn add_registers(registers: &mut Vec<Datum>, datum: Datum) -> Result<(), AllocError>
    ensures { OnOk result (registers.new.items ≡ registers.old.items ++ spread_in (datum ∷ [])) }
{
    registers.push(datum)?;
    match datum {
        Datum::Low(wide) => {
            registers.push(Datum::High(wide))?;
            Ok(())
        }
        Datum::Word(_) | Datum::High(_) | Datum::Object(_) | Datum::Literal(_) | Datum::Class(_) =>
            Ok(()),
    }
}

/// The registers of values.
fn spread(alloc: Global, taken: &[(Gift, Taken)]) -> Result<Vec<Datum>, AllocError>
    ensures { IfOk result (λ registers. registers.items ≡ spread_in (datums_of taken.now)) }
{
    let mut registers = Vec::new(alloc);
    for (_, one) in taken {
        add_registers(&mut registers, one.datum)?;
    }
    Ok(registers)
}

/// The first value.
fn first_of(taken: &[(Gift, Taken)]) -> Option<Datum>
    ensures { result ≡ slice_get (datums_of taken.now) 0 }
{
    match taken.first() {
        Some((_, one)) => Some(one.datum),
        None => None,
    }
}

/// Whether a method may be entered on the first value.
fn is_on_receiver(
    tables: &Tables<'_>,
    memo: &mut Memo,
    state: &State<'_>,
    values: &Values,
    found: (MethodAt, &Method),
) -> Result<bool, AllocError>
    ensures kept { (o : Outside) → IsRight tables.now.lookups → IsReach tables.now.lookups o → IsKept tables.now.lookups memo.old → IsGiven tables.now.lookups state.now.world values.now.gifts → look.method_at tables.now.lookups.program.now found.entry.0 ≡ Some found.entry.1.now → IsKept tables.now.lookups memo.new }
    ensures is { (o : Outside) (f : Found) (gs : List Given) → IsRight tables.now.lookups → IsReach tables.now.lookups o → IsKept tables.now.lookups memo.old → AreAllTaken tables.now.lookups o state.now.world gs values.now → IsMember tables.now.lookups found.entry.0 found.entry.1.now f
        → IfOk result (λ b. b ≡ receiver_ok (run_face tables.now.lookups) (outer_of tables.now.lookups.program.now o) (given_world (names_in tables.now.lookups) state.now.world values.now.gifts) f (map (value_of (names_in tables.now.lookups)) (datums_of values.now.taken.items))) }
{
    match first_of(values.taken.as_slice()) {
        Some(receiver) => {
            receiver_ok(tables, memo, &state.world, &values.gifts, receiver, found)
        }
        None => Ok(false),
    }
}

/// Whether the values of a move may be given, and fit what a method takes.
fn values_fit(
    alloc: Global,
    tables: &Tables<'_>,
    memo: &mut Memo,
    state: &State<'_>,
    values: &Values,
    method: &Method,
) -> Result<bool, AllocError>
    ensures kept { (o : Outside) (at : MethodAt) (f : Found) (gs : List Given) → IsRight tables.now.lookups → IsKept tables.now.lookups memo.old → AreAllTaken tables.now.lookups o state.now.world gs values.now → IsMember tables.now.lookups at method.now f → IsKept tables.now.lookups memo.new }
    ensures is { (o : Outside) (at : MethodAt) (f : Found) (gs : List Given) → IsRight tables.now.lookups → IsKept tables.now.lookups memo.old → AreAllTaken tables.now.lookups o state.now.world gs values.now → IsMember tables.now.lookups at method.now f
        → IfOk result (λ b. b ≡ all_fit (run_face tables.now.lookups) (outer_of tables.now.lookups.program.now o) (world_in tables.now.lookups state.now) (given_world (names_in tables.now.lookups) state.now.world values.now.gifts) gs (map (value_of (names_in tables.now.lookups)) (datums_of values.now.taken.items)) (passed_types (is_static f.flags) f.key)) }
{
    let is_static = method.flags.has(Flags::STATIC);
    let kinds = tables.passed_kinds(alloc, method.name, is_static)?;
    all_fit(
        tables,
        memo,
        &state.world,
        &values.gifts,
        values.taken.as_slice(),
        kinds.as_slice(),
    )
}

/// Whether a method with code may be entered with these values: a static one that is kept, or one that the framework
/// reaches on its receiver.
fn may_enter_found(
    alloc: Global,
    tables: &Tables<'_>,
    memo: &mut Memo,
    state: &State<'_>,
    values: &Values,
    found: (MethodAt, &Method),
) -> Result<bool, AllocError>
    ensures kept { (o : Outside) (f : Found) (gs : List Given) → IsRight tables.now.lookups → IsReach tables.now.lookups o → IsKept tables.now.lookups memo.old → AreAllTaken tables.now.lookups o state.now.world gs values.now → IsMember tables.now.lookups found.entry.0 found.entry.1.now f → IsKept tables.now.lookups memo.new }
    ensures is { (o : Outside) (f : Found) (gs : List Given) → IsRight tables.now.lookups → IsReach tables.now.lookups o → IsKept tables.now.lookups memo.old → AreAllTaken tables.now.lookups o state.now.world gs values.now → IsMember tables.now.lookups found.entry.0 found.entry.1.now f
        → IfOk result (λ b. b ≡ may_enter_found (run_face tables.now.lookups) (outer_of tables.now.lookups.program.now o) (world_in tables.now.lookups state.now) (given_world (names_in tables.now.lookups) state.now.world values.now.gifts) f gs (map (value_of (names_in tables.now.lookups)) (datums_of values.now.taken.items))) }
{
    let method = found.1;
    let fit = values_fit(alloc, tables, memo, state, values, method)?;
    if !fit {
        return Ok(false);
    }
    if method.flags.has(Flags::STATIC) {
        return Ok(tables.lookups.outer.keeps_method(method.name));
    }
    is_on_receiver(tables, memo, state, values, found)
}

/// Whether a method was found at a place.
fn is_at(found: Option<MethodAt>, at: MethodAt) -> bool
    ensures { result ≡ finds_at at (search_of found) }
{
    match found {
        Some(one) => one.class == at.class && one.place == at.place,
        None => false,
    }
}

/// Whether a method is the initialiser of its class, with code.
fn is_initialiser(tables: &Tables<'_>, at: MethodAt) -> bool
    ensures { (own : Method) (f : Found) → IsRight tables.now.lookups → IsMember tables.now.lookups at own f → result ≡ (f.coded && is_class_initialiser f) }
{
    is_at(tables.lookups.initialiser(at.class), at)
}

/// Whether a method has code.
fn is_coded(method: &Method) -> bool
    ensures { result ≡ is_some method.now.body }
{
    match &method.body {
        Some(_) => true,
        None => false,
    }
}

/// Whether the framework may enter a method that a class defines: it has code, and is not the class's initialiser.
fn may_enter(
    alloc: Global,
    tables: &Tables<'_>,
    memo: &mut Memo,
    state: &State<'_>,
    values: &Values,
    found: (MethodAt, &Method),
) -> Result<bool, AllocError>
    ensures kept { (o : Outside) (f : Found) (gs : List Given) → IsRight tables.now.lookups → IsReach tables.now.lookups o → IsKept tables.now.lookups memo.old → AreAllTaken tables.now.lookups o state.now.world gs values.now → IsMember tables.now.lookups found.entry.0 found.entry.1.now f → IsKept tables.now.lookups memo.new }
    ensures is { (o : Outside) (f : Found) (gs : List Given) → IsRight tables.now.lookups → IsReach tables.now.lookups o → IsKept tables.now.lookups memo.old → AreAllTaken tables.now.lookups o state.now.world gs values.now → IsMember tables.now.lookups found.entry.0 found.entry.1.now f
        → IfOk result (λ b. b ≡ may_enter (run_face tables.now.lookups) (outer_of tables.now.lookups.program.now o) (world_in tables.now.lookups state.now) (given_world (names_in tables.now.lookups) state.now.world values.now.gifts) f gs (map (value_of (names_in tables.now.lookups)) (datums_of values.now.taken.items))) }
{
    let (at, method) = found;
    if !is_coded(method) {
        return Ok(false);
    }
    if is_initialiser(tables, at) {
        return Ok(false);
    }
    may_enter_found(alloc, tables, memo, state, values, found)
}

/// A frame comes to stand on a stack that has room for it.
fn stands_on<'a>(stack: &mut Vec<Waiting<'a>>, frame: Frame<'a>)
    ensures { vec_len stack.old + 1 ≤ vec_capacity stack.old → stack.new.items ≡ stack.old.items ++ stands.Method frame.entry ∷ [] }
{
    let _ = stack.push(Waiting::Method(frame));
}

/// A frame comes to stand on top of the framework's, with the objects of the move on the heap, and the move is done.
fn enters_frame<'a>(state: &mut State<'a>, gifts: Gifts, frame: Frame<'a>) -> Result<(), AllocError>
    ensures ok { (l : OwnLookups) (o : Outside) (memo : OwnMemo) (script : List Move) (steps : ℕ) (owes : Option Kind) (first : Move) (rest : List Move) → IsMoving l o memo script steps state.old owes first rest → IsGiven l state.old.world gifts → IsSoundFrame l (length (gift_spots state.old.world gifts)) frame.entry → frame.entry.position ≡ 0
        → OnOk result (IsEvent l steps script state.new None (quiet (On (given_world (names_in l) state.old.world gifts) (classes_in l state.old) (InMethod (frame_of (names_in l) frame.entry) ∷ freed_in l script state.old) rest))) }
    ensures err { (l : OwnLookups) (steps : ℕ) → IsRunning l steps state.old → state.old.ended ≡ false → OnErr result (IsUndone l steps state.old state.new) }
{
    gifts.reserve(&mut state.world, 0)?;
    state.stack.reserve(1)?;
    gifts.give(&mut state.world);
    done(state);
    stands_on(&mut state.stack, frame);
    Ok(())
}

/// The framework's frame stays below the method's, and the move is done. Where the method doesn't take so many values, the
/// run ends.
fn enters_now<'a>(
    alloc: Global,
    tables: &Tables<'a>,
    state: &mut State<'a>,
    values: Values,
    at: MethodAt,
) -> Result<(), AllocError>
    ensures ok { (o : Outside) (memo : OwnMemo) (script : List Move) (steps : ℕ) (owes : Option Kind) (first : Move) (rest : List Move) (own : Method) (f : Found) (gs : List Given) → IsMoving tables.now.lookups o memo script steps state.old owes first rest → AreAllTaken tables.now.lookups o state.old.world gs values → IsMember tables.now.lookups at own f
        → OnOk result (IsEvent tables.now.lookups steps script state.new None (quiet (enters (bodies_in tables.now.lookups) (given_world (names_in tables.now.lookups) state.old.world values.gifts) (classes_in tables.now.lookups state.old) f.key (spread (map (value_of (names_in tables.now.lookups)) (datums_of values.taken.items))) (freed_in tables.now.lookups script state.old) rest))) }
    ensures err { (steps : ℕ) → IsRunning tables.now.lookups steps state.old → state.old.ended ≡ false → OnErr result (IsUndone tables.now.lookups steps state.old state.new) }
{
    let Values { gifts, taken } = values;
    let registers = spread(alloc, taken.as_slice())?;
    let entry = entry_frame(alloc, tables, at, registers.as_slice())?;
    match entry {
        Some(frame) => enters_frame(state, gifts, frame),
        None => {
            state.end();
            Ok(())
        }
    }
}

/// Enters a static method, once its class is initialised.
fn enters_static<'a>(
    alloc: Global,
    tables: &Tables<'a>,
    memo: &mut Memo,
    state: &mut State<'a>,
    values: Values,
    at: MethodAt,
) -> Result<Option<Event>, AllocError>
    ensures ok { (o : Outside) (floats : Floats) (script : List Move) (steps : ℕ) (owes : Option Kind) (first : Move) (rest : List Move) (own : Method) (f : Found) (gs : List Given) → IsMoving tables.now.lookups o memo.old script steps state.old owes first rest → AreAllTaken tables.now.lookups o state.old.world gs values → IsMember tables.now.lookups at own f
        → IfOk result (λ e. IsNext tables.now.lookups steps script memo.new state.new e (needs (setting_in tables.now.lookups o floats) (bodies_in tables.now.lookups) (need_of (run_face tables.now.lookups) (classes_in tables.now.lookups state.old) f.key.class) (world_in tables.now.lookups state.old) (classes_in tables.now.lookups state.old) f.key.class (stack_in tables.now.lookups script state.old) (freed_in tables.now.lookups script state.old) rest (quiet (enters (bodies_in tables.now.lookups) (given_world (names_in tables.now.lookups) state.old.world values.gifts) (classes_in tables.now.lookups state.old) f.key (spread (map (value_of (names_in tables.now.lookups)) (datums_of values.taken.items))) (freed_in tables.now.lookups script state.old) rest)))) }
    ensures err { (o : Outside) (script : List Move) (steps : ℕ) (owes : Option Kind) (first : Move) (rest : List Move) (own : Method) (f : Found) → IsMoving tables.now.lookups o memo.old script steps state.old owes first rest → IsMember tables.now.lookups at own f → OnErr result (IsUndoneWith tables.now.lookups steps memo.new state.old state.new) }
{
    match readies(alloc, tables, memo, state, at.class)? {
        Readied::Ready => {
            enters_now(alloc, tables, state, values, at)?;
            Ok(None)
        }
        Readied::Started => Ok(None),
        Readied::Failed(event) => Ok(event),
    }
}

/// Enters a method that may be entered, once its class is initialised where it is static.
fn entered<'a>(
    alloc: Global,
    tables: &Tables<'a>,
    memo: &mut Memo,
    state: &mut State<'a>,
    values: Values,
    found: (MethodAt, &Method),
) -> Result<Option<Event>, AllocError>
    ensures ok { (o : Outside) (floats : Floats) (script : List Move) (steps : ℕ) (owes : Option Kind) (first : Move) (rest : List Move) (f : Found) (gs : List Given) → IsMoving tables.now.lookups o memo.old script steps state.old owes first rest → AreAllTaken tables.now.lookups o state.old.world gs values → IsMember tables.now.lookups found.entry.0 found.entry.1.now f
        → IfOk result (λ e. IsNext tables.now.lookups steps script memo.new state.new e (entered (setting_in tables.now.lookups o floats) (bodies_in tables.now.lookups) (world_in tables.now.lookups state.old) (classes_in tables.now.lookups state.old) f (map (value_of (names_in tables.now.lookups)) (datums_of values.taken.items)) (stack_in tables.now.lookups script state.old) (freed_in tables.now.lookups script state.old) rest (given_world (names_in tables.now.lookups) state.old.world values.gifts))) }
    ensures err { (o : Outside) (script : List Move) (steps : ℕ) (owes : Option Kind) (first : Move) (rest : List Move) (f : Found) → IsMoving tables.now.lookups o memo.old script steps state.old owes first rest → IsMember tables.now.lookups found.entry.0 found.entry.1.now f → OnErr result (IsUndoneWith tables.now.lookups steps memo.new state.old state.new) }
{
    let (at, method) = found;
    if method.flags.has(Flags::STATIC) {
        return enters_static(alloc, tables, memo, state, values, at);
    }
    enters_now(alloc, tables, state, values, at)?;
    Ok(None)
}

/// The framework enters a method that a class defines, if it may.
fn enter_found<'a>(
    alloc: Global,
    tables: &Tables<'a>,
    memo: &mut Memo,
    state: &mut State<'a>,
    found: (MethodAt, &Method),
    values: &[Gift],
) -> Result<Option<Event>, AllocError>
    ensures ok { (o : Outside) (floats : Floats) (script : List Move) (steps : ℕ) (owes : Option Kind) (first : Move) (rest : List Move) (f : Found) (gs : List Given) → IsMoving tables.now.lookups o memo.old script steps state.old owes first rest → AreEach (IsGift tables.now.lookups.types tables.now.lookups.texts) gs values.now → IsMember tables.now.lookups found.entry.0 found.entry.1.now f
        → IfOk result (λ e. IsNext tables.now.lookups steps script memo.new state.new e (enter (setting_in tables.now.lookups o floats) (bodies_in tables.now.lookups) (world_in tables.now.lookups state.old) (classes_in tables.now.lookups state.old) (Some f) gs (stack_in tables.now.lookups script state.old) (freed_in tables.now.lookups script state.old) rest)) }
    ensures err { (o : Outside) (script : List Move) (steps : ℕ) (owes : Option Kind) (first : Move) (rest : List Move) (f : Found) (gs : List Given) → IsMoving tables.now.lookups o memo.old script steps state.old owes first rest → AreEach (IsGift tables.now.lookups.types tables.now.lookups.texts) gs values.now → IsMember tables.now.lookups found.entry.0 found.entry.1.now f → OnErr result (IsUndoneWith tables.now.lookups steps memo.new state.old state.new) }
{
    let values = take_all(alloc, tables, state, values)?;
    let legal = may_enter(alloc, tables, memo, state, &values, found)?;
    if legal {
        entered(alloc, tables, memo, state, values, found)
    } else {
        state.end();
        Ok(None)
    }
}

/// The method at a place, beside the place.
fn method_there<'a>(tables: &Tables<'a>, at: MethodAt) -> Option<(MethodAt, &'a Method)>
    ensures { (a : Option Found) → a ≡ found_at tables.now.lookups.program.now at → MemberMaybe tables.now.lookups a (option_map (λ r. (r.0, r.1.now)) result) }
{
    match tables.lookups.method(at) {
        Some(method) => Some((at, method)),
        None => None,
    }
}

/// The method that a class defines itself, beside its place.
fn method_of<'a>(tables: &Tables<'a>, found: Option<MethodAt>) -> Option<(MethodAt, &'a Method)>
    ensures { (class name proto : NameText) → IsRight tables.now.lookups → found ≡ declared_method tables.now.lookups.program.now class name proto → MemberMaybe tables.now.lookups ((run_face tables.now.lookups).declared class name proto) (option_map (λ r. (r.0, r.1.now)) result) }
{
    match found {
        Some(at) => method_there(tables, at),
        None => None,
    }
}

/// The framework enters a method.
pub fn enter<'a>(
    alloc: Global,
    tables: &Tables<'a>,
    memo: &mut Memo,
    state: &mut State<'a>,
    found: Option<MethodAt>,
    values: &[Gift],
) -> Result<Option<Event>, AllocError>
    ensures ok { (o : Outside) (floats : Floats) (script : List Move) (steps : ℕ) (owes : Option Kind) (first : Move) (rest : List Move) (class name proto : NameText) (gs : List Given) → IsMoving tables.now.lookups o memo.old script steps state.old owes first rest → AreEach (IsGift tables.now.lookups.types tables.now.lookups.texts) gs values.now → found ≡ declared_method tables.now.lookups.program.now class name proto
        → IfOk result (λ e. IsNext tables.now.lookups steps script memo.new state.new e (enter (setting_in tables.now.lookups o floats) (bodies_in tables.now.lookups) (world_in tables.now.lookups state.old) (classes_in tables.now.lookups state.old) ((run_face tables.now.lookups).declared class name proto) gs (stack_in tables.now.lookups script state.old) (freed_in tables.now.lookups script state.old) rest)) }
    ensures err { (o : Outside) (script : List Move) (steps : ℕ) (owes : Option Kind) (first : Move) (rest : List Move) (class name proto : NameText) (gs : List Given) → IsMoving tables.now.lookups o memo.old script steps state.old owes first rest → AreEach (IsGift tables.now.lookups.types tables.now.lookups.texts) gs values.now → found ≡ declared_method tables.now.lookups.program.now class name proto → OnErr result (IsUndoneWith tables.now.lookups steps memo.new state.old state.new) }
{
    match method_of(tables, found) {
        Some(one) => enter_found(alloc, tables, memo, state, one, values),
        None => {
            state.end();
            Ok(None)
        }
    }
}

/// Makes an object for the framework, which is shown.
fn made(
    alloc: Global,
    tables: &Tables<'_>,
    state: &mut State<'_>,
    class: u32,
) -> Result<Option<Event>, AllocError>
    ensures ok { (o : Outside) (memo : OwnMemo) (script : List Move) (steps : ℕ) (owes : Option Kind) (first : Move) (rest : List Move) → IsMoving tables.now.lookups o memo script steps state.old owes first rest → class < length tables.now.lookups.program.now.classes
        → IfOk result (λ e. IsEvent tables.now.lookups steps script state.new e (made (world_in tables.now.lookups state.old) (classes_in tables.now.lookups state.old) (class_text tables.now.lookups.program.now class) (freed_in tables.now.lookups script state.old) rest)) }
    ensures err { (steps : ℕ) → IsRunning tables.now.lookups steps state.old → state.old.ended ≡ false → OnErr result (IsUndone tables.now.lookups steps state.old state.new) }
{
    let kind = tables.lookups.kind_of_class(class);
    let (_reference, event) = makes_shown(alloc, tables, state, kind)?;
    done(state);
    Ok(Some(event))
}

/// Whether a class is kept, or a constructor of it.
fn is_constructed(tables: &Tables<'_>, class: u32) -> bool
    ensures { (o : Outside) (c : NameText) → IsRight tables.now.lookups → IsReach tables.now.lookups o → place_named tables.now.lookups.program.now c ≡ Some class
        → result ≡ ((outer_of tables.now.lookups.program.now o).classes c || (outer_of tables.now.lookups.program.now o).constructed c) }
{
    let kind = tables.lookups.kind_of_class(class);
    if tables.lookups.outer.keeps_class(kind) {
        return true;
    }
    tables.lookups.outer.keeps_constructor_of(kind)
}

/// Whether the framework may make an object of a class: the class is kept, or a constructor of it, and it is neither
/// abstract nor an interface.
fn may_make(tables: &Tables<'_>, class: u32) -> bool
    ensures { (o : Outside) (c : NameText) → IsRight tables.now.lookups → IsReach tables.now.lookups o → place_named tables.now.lookups.program.now c ≡ Some class → result ≡ may_make (run_face tables.now.lookups) (outer_of tables.now.lookups.program.now o) c }
{
    if !is_constructed(tables, class) {
        return false;
    }
    tables.is_concrete(class)
}

/// Makes an object of a class that may be made, once it is initialised.
fn makes_ready<'a>(
    alloc: Global,
    tables: &Tables<'a>,
    memo: &mut Memo,
    state: &mut State<'a>,
    class: u32,
) -> Result<Option<Event>, AllocError>
    ensures ok { (o : Outside) (floats : Floats) (script : List Move) (steps : ℕ) (owes : Option Kind) (first : Move) (rest : List Move) (c : NameText) → IsMoving tables.now.lookups o memo.old script steps state.old owes first rest → place_named tables.now.lookups.program.now c ≡ Some class
        → IfOk result (λ e. IsNext tables.now.lookups steps script memo.new state.new e (needs (setting_in tables.now.lookups o floats) (bodies_in tables.now.lookups) (need_of (run_face tables.now.lookups) (classes_in tables.now.lookups state.old) c) (world_in tables.now.lookups state.old) (classes_in tables.now.lookups state.old) c (stack_in tables.now.lookups script state.old) (freed_in tables.now.lookups script state.old) rest (made (world_in tables.now.lookups state.old) (classes_in tables.now.lookups state.old) c (freed_in tables.now.lookups script state.old) rest))) }
    ensures err { (o : Outside) (script : List Move) (steps : ℕ) (owes : Option Kind) (first : Move) (rest : List Move) (c : NameText) → IsMoving tables.now.lookups o memo.old script steps state.old owes first rest → place_named tables.now.lookups.program.now c ≡ Some class → OnErr result (IsUndoneWith tables.now.lookups steps memo.new state.old state.new) }
{
    match readies(alloc, tables, memo, state, class)? {
        Readied::Ready => made(alloc, tables, state, class),
        Readied::Started => Ok(None),
        Readied::Failed(event) => Ok(event),
    }
}

/// The framework makes an object of a class that the program defines, if it may.
fn make_found<'a>(
    alloc: Global,
    tables: &Tables<'a>,
    memo: &mut Memo,
    state: &mut State<'a>,
    class: u32,
) -> Result<Option<Event>, AllocError>
    ensures ok { (o : Outside) (floats : Floats) (script : List Move) (steps : ℕ) (owes : Option Kind) (first : Move) (rest : List Move) (c : NameText) → IsMoving tables.now.lookups o memo.old script steps state.old owes first rest → place_named tables.now.lookups.program.now c ≡ Some class
        → IfOk result (λ e. IsNext tables.now.lookups steps script memo.new state.new e (make (setting_in tables.now.lookups o floats) (bodies_in tables.now.lookups) (world_in tables.now.lookups state.old) (classes_in tables.now.lookups state.old) c (stack_in tables.now.lookups script state.old) (freed_in tables.now.lookups script state.old) rest)) }
    ensures err { (o : Outside) (script : List Move) (steps : ℕ) (owes : Option Kind) (first : Move) (rest : List Move) (c : NameText) → IsMoving tables.now.lookups o memo.old script steps state.old owes first rest → place_named tables.now.lookups.program.now c ≡ Some class → OnErr result (IsUndoneWith tables.now.lookups steps memo.new state.old state.new) }
{
    let legal = may_make(tables, class);
    if legal {
        makes_ready(alloc, tables, memo, state, class)
    } else {
        state.end();
        Ok(None)
    }
}

/// The framework makes an object of a class that is kept, or of which a constructor is kept, and that is neither abstract
/// nor an interface.
pub fn make<'a>(
    alloc: Global,
    tables: &Tables<'a>,
    memo: &mut Memo,
    state: &mut State<'a>,
    class: Option<u32>,
) -> Result<Option<Event>, AllocError>
    ensures ok { (o : Outside) (floats : Floats) (script : List Move) (steps : ℕ) (owes : Option Kind) (first : Move) (rest : List Move) (c : NameText) → IsMoving tables.now.lookups o memo.old script steps state.old owes first rest → class ≡ place_named tables.now.lookups.program.now c
        → IfOk result (λ e. IsNext tables.now.lookups steps script memo.new state.new e (make (setting_in tables.now.lookups o floats) (bodies_in tables.now.lookups) (world_in tables.now.lookups state.old) (classes_in tables.now.lookups state.old) c (stack_in tables.now.lookups script state.old) (freed_in tables.now.lookups script state.old) rest)) }
    ensures err { (o : Outside) (script : List Move) (steps : ℕ) (owes : Option Kind) (first : Move) (rest : List Move) (c : NameText) → IsMoving tables.now.lookups o memo.old script steps state.old owes first rest → class ≡ place_named tables.now.lookups.program.now c → OnErr result (IsUndoneWith tables.now.lookups steps memo.new state.old state.new) }
{
    match class {
        Some(class) => make_found(alloc, tables, memo, state, class),
        None => {
            state.end();
            Ok(None)
        }
    }
}
