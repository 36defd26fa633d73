//! New objects and monitors (Dalvik bytecode, "new-instance", "monitor-enter", "monitor-exit").

ghost use Rattle.std.specs.Prelude.{◌≡◌, ◌<◌, ◌≤◌, ◌+◌, ◌-◌, ◌^◌, ℕ, List, Some, None, length, false, IfOk, OnErr, OnOk};
ghost use Rattle.program_model.specs.declared.pass.Outside.{Outside};
ghost use Rattle.dalvik_defs.specs.Effect.{next, write};
ghost use Rattle.dalvik_defs.specs.Naming.{type_at};
ghost use Rattle.dalvik_defs.specs.Outcome.{locks, makes, unlocks, when_ready, with_lock, Stays};
ghost use Rattle.dalvik_defs.specs.Show.{show};
ghost use Rattle.dalvik_defs.specs.State.{fresh, kind_of, next_object, with_thing};
ghost use Rattle.dalvik_defs.specs.declared.events.Event.TheVariants as event;
ghost use Rattle.dalvik_defs.specs.declared.script.Move.{Move};
ghost use Rattle.dalvik_defs.specs.declared.tables.Floats.{Floats};
ghost use Rattle.dalvik_lookups.specs.Facing.{run_face};
ghost use Rattle.dalvik_lookups.specs.Tables.{place_named, IsRight};
ghost use Rattle.dalvik_lookups.specs.Views.{type_text};
ghost use Rattle.dalvik_lookups.specs.declared.lookups.Lookups.{Lookups};
ghost use Rattle.dalvik_state.specs.Drafts.{IsDraft};
ghost use Rattle.dalvik_state.specs.Frames.{is_null_in};
ghost use Rattle.dalvik_state.specs.Runs.{comes_of, need_in, world_in, IsEvent, IsNext, IsRun, IsUndone, IsUndoneWith};
ghost use Rattle.dalvik_state.specs.States.{top_frame, HasRoom, IsFineKind, IsSound};
ghost use Rattle.dalvik_state.specs.Views.{frame_of, names_in, value_of, world_of, IsFine};
ghost use Rattle.dalvik_state.specs.Worlds.{spots_of};
ghost use Rattle.dalvik_state.specs.declared.frame.Frame.{Frame};
ghost use Rattle.dalvik_steps.specs.Reaching.{IsLockShown, IsMade, IsMadeIn, IsReserved, IsStep, PutsLock, SameItems};

use crate::asking::{reserve, reserve_exposed};
use crate::starting::{Readied, readies};
use dalvik_defs::{Event, Shown};
use dalvik_lookups::{Kind, Memo, known};
use dalvik_state::{Datum, Draft, Gifts, State, Tables, Thing, World, drafted, show};
use dex_base::Text;
use program_model::Item;
use std::alloc::{AllocError, Global};

/// Makes an object of a program class, whose class is ready, and goes on.
fn makes_own(state: &mut State<'_>, to: u16, kind: Kind) -> Result<(), AllocError>
    ensures ok { (l : Lookups) (o : Outside) (floats : Floats) (script : List Move) (steps : ℕ) (f : Frame) → IsStep l steps state.old f → IsFineKind l kind
        → OnOk result (IsEvent l steps script state.new None (comes_of l o floats script state.old f (Stays (with_thing (world_in l state.old) (fresh (type_text l.types kind))) (next (write (frame_of (names_in l) f) to (next_object (world_in l state.old)))) None))) }
    ensures err { OnErr result (IsReserved state.old state.new) }
{
    let reference = state.world.add(Thing::Instance(kind))?;
    state.go_on_with(Item::Object, to, reference);
    Ok(())
}

/// Adds an object and shows it by the text of its type; there is room to show it.
fn add_shown(world: &mut World, kind: Kind, text: Text) -> Result<(Datum, Shown), AllocError>
    ensures made { (l : Lookups) → HasRoom world.old 1 → IsSound l world.old → IsFineKind l kind → text ≡ type_text l.types kind → IfOk result (λ r. IsMadeIn l world.old world.new kind r.0 r.1) }
    ensures err { OnErr result (SameItems world.old world.new) }
{
    let number = world.next_number();
    let reference = world.add(Thing::Instance(kind))?;
    let draft = Draft::Object {
        number,
        kind: Some(text),
    };
    Ok((reference, show(world, draft)))
}

/// Makes an object and shows it. Its type is printed.
pub fn makes_shown(
    alloc: Global,
    tables: &Tables<'_>,
    state: &mut State<'_>,
    kind: Kind,
) -> Result<(Datum, Event), AllocError>
    ensures made { IsSound tables.now.lookups state.old.world → IsFineKind tables.now.lookups kind → IfOk result (λ r. IsMade tables.now.lookups state.old state.new kind r.0 r.1) }
    ensures err { OnErr result (IsReserved state.old state.new) }
{
    let text = tables.lookups.kind_text(alloc, kind)?;
    reserve_exposed(&mut state.world, 1)?;
    let (reference, value) = add_shown(&mut state.world, kind, text)?;
    Ok((reference, Event::Make { value }))
}

/// Makes an object of a framework class, which is shown.
fn makes_outer(
    alloc: Global,
    tables: &Tables<'_>,
    state: &mut State<'_>,
    to: u16,
    kind: Kind,
) -> Result<Option<Event>, AllocError>
    ensures ok { (o : Outside) (floats : Floats) (script : List Move) (steps : ℕ) (f : Frame) → IsStep tables.now.lookups steps state.old f → IsFineKind tables.now.lookups kind
        → IfOk result (λ e. IsEvent tables.now.lookups steps script state.new e (comes_of tables.now.lookups o floats script state.old f (Stays (show (with_thing (world_in tables.now.lookups state.old) (fresh (type_text tables.now.lookups.types kind))) (type_text tables.now.lookups.types kind) (next_object (world_in tables.now.lookups state.old))).0 (next (write (frame_of (names_in tables.now.lookups) f) to (next_object (world_in tables.now.lookups state.old)))) (Some (event.Make (show (with_thing (world_in tables.now.lookups state.old) (fresh (type_text tables.now.lookups.types kind))) (type_text tables.now.lookups.types kind) (next_object (world_in tables.now.lookups state.old))).1))))) }
    ensures err { OnErr result (IsReserved state.old state.new) }
{
    let (reference, event) = makes_shown(alloc, tables, state, kind)?;
    state.go_on_with(Item::Object, to, reference);
    Ok(Some(event))
}

/// Makes an object of a program class, which is initialised first.
fn makes_ready<'a>(
    alloc: Global,
    tables: &Tables<'a>,
    memo: &mut Memo,
    state: &mut State<'a>,
    to: u16,
    kind: Kind,
    class: u32,
) -> Result<Option<Event>, AllocError>
    ensures ok { (o : Outside) (floats : Floats) (script : List Move) (steps : ℕ) (f : Frame) → IsRun tables.now.lookups memo.old steps state.old → top_frame state.old.stack.items ≡ Some f → IsFineKind tables.now.lookups kind → place_named tables.now.lookups.program.now (type_text tables.now.lookups.types kind) ≡ Some class
        → IfOk result (λ e. IsNext tables.now.lookups steps script memo.new state.new e (comes_of tables.now.lookups o floats script state.old f (when_ready (need_in tables.now.lookups state.old (type_text tables.now.lookups.types kind)) (world_in tables.now.lookups state.old) (type_text tables.now.lookups.types kind) (Stays (with_thing (world_in tables.now.lookups state.old) (fresh (type_text tables.now.lookups.types kind))) (next (write (frame_of (names_in tables.now.lookups) f) to (next_object (world_in tables.now.lookups state.old)))) None)))) }
    ensures err { (steps : ℕ) → IsRun tables.now.lookups memo.old steps state.old → place_named tables.now.lookups.program.now (type_text tables.now.lookups.types kind) ≡ Some class → OnErr result (IsUndoneWith tables.now.lookups steps memo.new state.old state.new) }
{
    match readies(alloc, tables, memo, state, class)? {
        Readied::Ready => {
            makes_own(state, to, kind)?;
            Ok(None)
        }
        Readied::Started => Ok(None),
        Readied::Failed(event) => Ok(event),
    }
}

/// Makes an object for the frame on top of the stack; its class is initialised first.
pub fn makes<'a>(
    alloc: Global,
    tables: &Tables<'a>,
    memo: &mut Memo,
    state: &mut State<'a>,
    to: u16,
    kind: u32,
) -> Result<Option<Event>, AllocError>
    ensures ok { (o : Outside) (floats : Floats) (script : List Move) (steps : ℕ) (f : Frame) → IsRun tables.now.lookups memo.old steps state.old → top_frame state.old.stack.items ≡ Some f → kind < length tables.now.lookups.program.now.types
        → IfOk result (λ e. IsNext tables.now.lookups steps script memo.new state.new e (comes_of tables.now.lookups o floats script state.old f (makes (run_face tables.now.lookups) (need_in tables.now.lookups state.old) to (type_at tables.now.lookups.program.now kind) (world_in tables.now.lookups state.old) (frame_of (names_in tables.now.lookups) f)))) }
    ensures err { (steps : ℕ) (f : Frame) → IsRun tables.now.lookups memo.old steps state.old → top_frame state.old.stack.items ≡ Some f → kind < length tables.now.lookups.program.now.types → OnErr result (IsUndoneWith tables.now.lookups steps memo.new state.old state.new) }
{
    let own = tables.lookups.kind(kind);
    match tables.lookups.class_at(own) {
        Some(class) => makes_ready(alloc, tables, memo, state, to, own, class),
        None => makes_outer(alloc, tables, state, to, own),
    }
}

/// What is shown of a value of a type.
fn draft_as(
    alloc: Global,
    tables: &Tables<'_>,
    world: &World,
    kind: Kind,
    datum: Datum,
) -> Result<Draft, AllocError>
    ensures { IsRight tables.now.lookups → IsSound tables.now.lookups world.now → IsFine (names_in tables.now.lookups) (length (spots_of world.now)) datum → IfOk result (λ d. IsDraft (world_of (names_in tables.now.lookups) world.now) (type_text tables.now.lookups.types kind) (value_of (names_in tables.now.lookups) datum) d) }
{
    let none = Gifts::new(alloc);
    let draft = drafted(alloc, tables, world, &none, kind, datum)?;
    Ok(draft)
}

/// What is shown of a value that is locked, which isn't null.
fn draft_locked(
    alloc: Global,
    tables: &Tables<'_>,
    world: &World,
    datum: Datum,
) -> Result<Draft, AllocError>
    ensures { IsRight tables.now.lookups → IsSound tables.now.lookups world.now → IsFine (names_in tables.now.lookups) (length (spots_of world.now)) datum → is_null_in datum ≡ false → IfOk result (λ d. IsDraft (world_of (names_in tables.now.lookups) world.now) (kind_of (world_of (names_in tables.now.lookups) world.now) (value_of (names_in tables.now.lookups) datum)) (value_of (names_in tables.now.lookups) datum) d) }
{
    match world.kind_of(datum) {
        Some(kind) => draft_as(alloc, tables, world, kind, datum),
        None => draft_as(alloc, tables, world, Kind::plain(known::OBJECT), datum),
    }
}

/// Writes how often a monitor is held.
fn write_lock(world: &mut World, datum: Datum, count: u64) -> Result<(), AllocError>
    ensures put { OnOk result (PutsLock world.old world.new datum count) }
    ensures err { OnErr result (SameItems world.old world.new) }
{
    world.locks.insert(datum, count)?;
    Ok(())
}

/// Sets how often a monitor is held, and shows the object.
fn lock_shown(
    world: &mut World,
    datum: Datum,
    count: u64,
    draft: Draft,
) -> Result<Shown, AllocError>
    ensures ok { (l : Lookups) (steps : ℕ) → HasRoom world.old 1 → IsRight l → IsSound l world.old → IsFine (names_in l) (length (spots_of world.old)) datum → IsDraft (world_of (names_in l) world.old) (kind_of (world_of (names_in l) world.old) (value_of (names_in l) datum)) (value_of (names_in l) datum) draft → IfOk result (IsLockShown l world.old world.new datum count) }
    ensures err { OnErr result (SameItems world.old world.new) }
{
    write_lock(world, datum, count)?;
    Ok(show(world, draft))
}

/// Sets how often a monitor is held, goes on, and shows the object.
fn set_lock(
    alloc: Global,
    tables: &Tables<'_>,
    state: &mut State<'_>,
    datum: Datum,
    count: u64,
) -> Result<Shown, AllocError>
    ensures ok { (o : Outside) (floats : Floats) (script : List Move) (steps : ℕ) (f : Frame) → IsStep tables.now.lookups steps state.old f → IsFine (names_in tables.now.lookups) (length (spots_of state.old.world)) datum → is_null_in datum ≡ false → count ≤ steps + 1
        → IfOk result (λ s. (s ≡ (show (world_in tables.now.lookups state.old) (kind_of (world_in tables.now.lookups state.old) (value_of (names_in tables.now.lookups) datum)) (value_of (names_in tables.now.lookups) datum)).1) × ((e : Event) → IsEvent tables.now.lookups steps script state.new (Some e) (comes_of tables.now.lookups o floats script state.old f (Stays (with_lock (show (world_in tables.now.lookups state.old) (kind_of (world_in tables.now.lookups state.old) (value_of (names_in tables.now.lookups) datum)) (value_of (names_in tables.now.lookups) datum)).0 (value_of (names_in tables.now.lookups) datum) count) (next (frame_of (names_in tables.now.lookups) f)) (Some e))))) }
    ensures err { OnErr result (IsReserved state.old state.new) }
{
    let draft = draft_locked(alloc, tables, &state.world, datum)?;
    reserve_exposed(&mut state.world, 1)?;
    let shown = lock_shown(&mut state.world, datum, count, draft)?;
    state.go_on();
    Ok(shown)
}

/// Enters a monitor.
pub fn locks(
    alloc: Global,
    tables: &Tables<'_>,
    state: &mut State<'_>,
    datum: Datum,
) -> Result<Option<Event>, AllocError>
    ensures ok { (o : Outside) (floats : Floats) (script : List Move) (steps : ℕ) (f : Frame) → IsStep tables.now.lookups steps state.old f → IsFine (names_in tables.now.lookups) (length (spots_of state.old.world)) datum → is_null_in datum ≡ false
        → IfOk result (λ e. IsEvent tables.now.lookups steps script state.new e (comes_of tables.now.lookups o floats script state.old f (locks (world_in tables.now.lookups state.old) (value_of (names_in tables.now.lookups) datum) (frame_of (names_in tables.now.lookups) f)))) }
    ensures err { (steps : ℕ) (f : Frame) → IsStep tables.now.lookups steps state.old f → OnErr result (IsUndone tables.now.lookups steps state.old state.new) }
{
    let count = state.world.locked(datum).saturating_add(1);
    let value = set_lock(alloc, tables, state, datum, count)?;
    Ok(Some(Event::Lock { value }))
}

/// Leaves a monitor that is held.
pub fn unlocks(
    alloc: Global,
    tables: &Tables<'_>,
    state: &mut State<'_>,
    datum: Datum,
) -> Result<Option<Event>, AllocError>
    ensures ok { (o : Outside) (floats : Floats) (script : List Move) (steps : ℕ) (f : Frame) → IsStep tables.now.lookups steps state.old f → IsFine (names_in tables.now.lookups) (length (spots_of state.old.world)) datum → is_null_in datum ≡ false
        → IfOk result (λ e. IsEvent tables.now.lookups steps script state.new e (comes_of tables.now.lookups o floats script state.old f (unlocks (world_in tables.now.lookups state.old) (value_of (names_in tables.now.lookups) datum) (frame_of (names_in tables.now.lookups) f)))) }
    ensures err { (steps : ℕ) (f : Frame) → IsStep tables.now.lookups steps state.old f → OnErr result (IsUndone tables.now.lookups steps state.old state.new) }
{
    let count = state.world.locked(datum).saturating_sub(1);
    let value = set_lock(alloc, tables, state, datum, count)?;
    Ok(Some(Event::Unlock { value }))
}
