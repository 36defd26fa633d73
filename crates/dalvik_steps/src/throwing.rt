//! Thrown objects: which handler they reach, and what they do to the stack on the way (Dalvik bytecode, "throw"; Dalvik
//! executable format, "try_item").

ghost use Rattle.std.specs.Prelude.{◌≡◌, ◌+◌, ◌++◌, ◌∷◌, [], ◌<◌, ◌≤◌, ◌^◌, ℕ, List, None, Some, IfOk, OnErr, OnOk, false, drop, find, length, reverse, slice_get, take};
ghost use Rattle.std.specs.Option.{option_copied};
ghost use Rattle.dalvik_defs.specs.Names.{throwable_type};
ghost use Rattle.dalvik_defs.specs.Naming.{body_of, region_of};
ghost use Rattle.dalvik_defs.specs.Stack.{handler_at, handler_in};
ghost use Rattle.dalvik_defs.specs.State.{Next, World as NamedWorld};
ghost use Rattle.dalvik_defs.specs.declared.script.Move.{Move};
ghost use Rattle.dalvik_defs.specs.declared.state.Value.{Value};
ghost use Rattle.dalvik_lookups.specs.Facing.{run_face};
ghost use Rattle.dalvik_lookups.specs.Tables.{IsRight};
ghost use Rattle.dalvik_lookups.specs.Views.{type_text, IsKind};
ghost use Rattle.dalvik_lookups.specs.Walks.{IsKept};
ghost use Rattle.dalvik_lookups.specs.declared.lookups.Lookups.{Lookups};
ghost use Rattle.dalvik_state.specs.Drafts.{given_world, kind_text, IsDraft};
ghost use Rattle.dalvik_state.specs.Effects.{plain};
ghost use Rattle.dalvik_state.specs.Giving.{IsGiven};
ghost use Rattle.dalvik_state.specs.Runs.{classes_in, script_in, stack_in, world_in, IsEvent, IsNext, IsRun, IsUndoneWith};
ghost use Rattle.dalvik_state.specs.States.{below_top, HasRoom, HasSpace, IsRunning, IsSound, IsSoundFrame, IsSoundWaiting};
ghost use Rattle.dalvik_state.specs.Views.{names_in, value_of, Names};
ghost use Rattle.dalvik_state.specs.Worlds.{spots_of, IsHeap, Plain};
ghost use Rattle.dalvik_state.specs.declared.state.Waiting.{Waiting as OwnWaiting};
ghost use Rattle.dalvik_steps.specs.Backs.{last_of};
ghost use Rattle.dalvik_steps.specs.Entries.{thrown_by, IsThrown};
ghost use Rattle.dalvik_steps.specs.Falls.{failing_of, noted, DropsTop, HasFallen, IsFalling, IsThrownInto, LandsThere};
ghost use Rattle.dalvik_steps.specs.Flights.{covers_in, thrown_value, thrown_world, AreHandlers, Exhibits, Flies, GoesPast, HasFlightRoom, IsCourse, IsFlight, IsFlying, IsKindMaybe, IsThrownWith, Meets};
ghost use Rattle.dalvik_steps.specs.Turns.{IsReserved};

use dalvik_defs::{Event, Shown};
use dalvik_lookups::{Kind, Memo, known};
use dalvik_state::{
    Cell, Datum, Draft, Frame, Gifts, State, Status, Tables, Thing, Waiting, World, drafted, show,
};
use dex_base::Text;
use program_model::Region;
use std::alloc::{AllocError, Global};

/// What is thrown: a value that there is, or a new object of a known type.
#[derive(Clone, Copy, Drop)]
pub enum Thrown {
    Value(Datum),
    New(usize),
}

/// What the framework is to be shown of a thrown object: a value as it is drafted, or a new object by its type.
#[derive(Drop)]
enum Exhibit {
    Old(Draft),
    New(Text),
}

/// Where a thrown object ends up: in the frame at a place of the stack, at a position; at the framework at a place; or
/// nowhere.
#[derive(Drop)]
enum Landing {
    Handler { place: usize, position: u32 },
    Framework { place: usize, shown: Exhibit },
    Nowhere,
}

/// The way of a thrown object: where it lands, the places of the stack where it is replaced by a new
/// ExceptionInInitializerError, from the top down, and what is thrown.
#[derive(Drop)]
pub struct Flight {
    thrown: Thrown,
    wraps: Vec<usize>,
    landing: Landing,
}

/// What is thrown while it flies: the value, none for an object that isn't made yet, and its type, none for a number.
#[derive(Clone, Copy, Drop)]
struct Flying {
    datum: Option<Datum>,
    kind: Option<Kind>,
}

/// What a thrown object meets at an entry of the stack: it passes, is replaced by a new object, or lands.
#[derive(Drop)]
enum Met {
    Passes,
    Wrapped,
    Lands(Landing),
}

/// What flies, and the places where it has been replaced.
#[derive(Drop)]
struct Course {
    flying: Flying,
    wraps: Vec<usize>,
}

/// Whether a type is under another; a number has a type that is under none.
fn is_kind_under(
    tables: &Tables<'_>,
    memo: &mut Memo,
    kind: Option<Kind>,
    upper: Kind,
) -> Result<bool, AllocError>
    ensures kept { IsRight tables.now.lookups → IsKept tables.now.lookups memo.old → IsKindMaybe tables.now.lookups kind → IsKind tables.now.lookups.types upper → IsKept tables.now.lookups memo.new }
    ensures is { IsRight tables.now.lookups → IsKept tables.now.lookups memo.old → IsKindMaybe tables.now.lookups kind → IsKind tables.now.lookups.types upper → IfOk result (λ b. b ≡ (run_face tables.now.lookups).under (kind_text tables.now.lookups kind) (type_text tables.now.lookups.types upper)) }
{
    match kind {
        Some(kind) => tables.lookups.is_under(memo, kind, upper),
        None => Ok(false),
    }
}

/// The first handler of a region whose type is above the object's, else the catch-all.
fn handler_in(
    tables: &Tables<'_>,
    memo: &mut Memo,
    region: &Region,
    kind: Option<Kind>,
) -> Result<Option<u32>, AllocError>
    ensures kept { IsRight tables.now.lookups → IsKept tables.now.lookups memo.old → IsKindMaybe tables.now.lookups kind → AreHandlers tables.now.lookups region.now → IsKept tables.now.lookups memo.new }
    ensures is { IsRight tables.now.lookups → IsKept tables.now.lookups memo.old → IsKindMaybe tables.now.lookups kind → AreHandlers tables.now.lookups region.now → IfOk result (λ o. o ≡ handler_in ((run_face tables.now.lookups).under (kind_text tables.now.lookups kind)) (region_of tables.now.lookups.program.now region.now)) }
{
    for handler in region.handlers.as_slice() {
        let own = tables.lookups.kind(handler.kind);
        if is_kind_under(tables, memo, kind, own)? {
            return Ok(Some(handler.position));
        }
    }
    Ok(region.rest)
}

/// Whether a region covers a position.
fn covers(region: &Region, position: usize) -> bool
    ensures { result ≡ covers_in position region.now }
{
    region.first as usize <= position && position < region.end as usize
}

/// The first region that covers a position.
fn region_at(regions: &[Region], position: usize) -> Option<&Region>
    ensures { option_copied result ≡ find (covers_in position) regions.now }
{
    for region in regions {
        if covers(region, position) {
            return Some(region);
        }
    }
    None
}

/// The position at which a frame goes on with a thrown object.
fn lands(
    tables: &Tables<'_>,
    memo: &mut Memo,
    frame: &Frame<'_>,
    kind: Option<Kind>,
) -> Result<Option<u32>, AllocError>
    ensures kept { (size : ℕ) → IsRight tables.now.lookups → IsKept tables.now.lookups memo.old → IsKindMaybe tables.now.lookups kind → IsSoundFrame tables.now.lookups size frame.now → IsKept tables.now.lookups memo.new }
    ensures is { (size : ℕ) → IsRight tables.now.lookups → IsKept tables.now.lookups memo.old → IsKindMaybe tables.now.lookups kind → IsSoundFrame tables.now.lookups size frame.now → IfOk result (λ o. o ≡ handler_at ((run_face tables.now.lookups).under (kind_text tables.now.lookups kind)) frame.now.position (body_of tables.now.lookups.program.now frame.now.body.now)) }
{
    match region_at(frame.body.regions.as_slice(), frame.position) {
        Some(region) => handler_in(tables, memo, region, kind),
        None => Ok(None),
    }
}

/// What the framework is to be shown of a thrown object that nothing caught.
fn exhibited(
    alloc: Global,
    tables: &Tables<'_>,
    world: &World,
    gifts: &Gifts,
    flying: Flying,
) -> Result<Exhibit, AllocError>
    ensures { (w : NamedWorld) (v : Value) → IsRight tables.now.lookups → IsGiven tables.now.lookups world.now gifts.now → IsFlying tables.now.lookups world.now gifts.now w v flying → IfOk result (Exhibits w v) }
{
    match (flying.datum, flying.kind) {
        (Some(datum), _) => {
            let throwable = Kind::plain(known::THROWABLE);
            Ok(Exhibit::Old(drafted(alloc, tables, world, gifts, throwable, datum)?))
        }
        (None, Some(kind)) => Ok(Exhibit::New(tables.lookups.kind_text(alloc, kind)?)),
        (None, None) => Ok(Exhibit::New(Text::from_units(alloc, &[])?)),
    }
}

/// What a thrown object meets at an entry of the stack. A class whose initialiser ends hands on an object under Error,
/// else a new ExceptionInInitializerError.
fn meets(
    alloc: Global,
    tables: &Tables<'_>,
    memo: &mut Memo,
    world: &World,
    gifts: &Gifts,
    waiting: (&Waiting<'_>, usize),
    flying: Flying,
) -> Result<Met, AllocError>
    ensures kept { (size : ℕ) → IsRight tables.now.lookups → IsKept tables.now.lookups memo.old → IsKindMaybe tables.now.lookups flying.kind → IsSoundWaiting tables.now.lookups size waiting.entry.0.now → IsKept tables.now.lookups memo.new }
    ensures is { (size : ℕ) (w : NamedWorld) (v : Value) → IsRight tables.now.lookups → IsKept tables.now.lookups memo.old → IsSoundWaiting tables.now.lookups size waiting.entry.0.now → IsGiven tables.now.lookups world.now gifts.now → IsFlying tables.now.lookups world.now gifts.now w v flying → IfOk result (Meets tables.now.lookups w v waiting.entry.0.now waiting.entry.1) }
{
    let (entry, place) = waiting;
    match entry {
        Waiting::Method(frame) => match lands(tables, memo, frame, flying.kind)? {
            Some(position) => Ok(Met::Lands(Landing::Handler { place, position })),
            None => Ok(Met::Passes),
        },
        Waiting::Initialiser { .. } => Ok(Met::Passes),
        Waiting::Ending { .. } => {
            let error = Kind::plain(known::ERROR);
            if is_kind_under(tables, memo, flying.kind, error)? {
                Ok(Met::Passes)
            } else {
                Ok(Met::Wrapped)
            }
        }
        Waiting::Outside { .. } => {
            let shown = exhibited(alloc, tables, world, gifts, flying)?;
            Ok(Met::Lands(Landing::Framework { place, shown }))
        }
    }
}

impl Course {
    /// What flies is replaced by a new object at a place.
    fn wrap(&mut self, place: usize) -> Result<(), AllocError>
        ensures wraps { OnOk result (self.new.wraps.items ≡ self.old.wraps.items ++ place ∷ []) }
        ensures flying { OnOk result (self.new.flying ≡ record { datum = None; kind = Some (plain 16) }) }
    {
        self.wraps.push(place)?;
        self.flying = Flying {
            datum: None,
            kind: Some(Kind::plain(known::INITIALISER_ERROR)),
        };
        Ok(())
    }

    /// Goes past an entry of the stack at a place, or lands there.
    fn passes(
        &mut self,
        alloc: Global,
        tables: &Tables<'_>,
        memo: &mut Memo,
        world: &World,
        gifts: &Gifts,
        waiting: (&Waiting<'_>, usize),
    ) -> Result<Option<Landing>, AllocError>
        ensures kept { (size : ℕ) → IsRight tables.now.lookups → IsKept tables.now.lookups memo.old → IsKindMaybe tables.now.lookups self.old.flying.kind → IsSoundWaiting tables.now.lookups size waiting.entry.0.now → IsKept tables.now.lookups memo.new }
        ensures goes { (size : ℕ) (w : NamedWorld) (v : Value) (all rest : List OwnWaiting) → IsRight tables.now.lookups → IsKept tables.now.lookups memo.old → IsSoundWaiting tables.now.lookups size waiting.entry.0.now → IsGiven tables.now.lookups world.now gifts.now → length rest ≡ waiting.entry.1 → IsCourse tables.now.lookups world.now gifts.now w v all (waiting.entry.0.now ∷ rest) self.old → IfOk result (GoesPast tables.now.lookups world.now gifts.now w v all rest self.new) }
    {
        match meets(alloc, tables, memo, world, gifts, waiting, self.flying)? {
            Met::Passes => Ok(None),
            Met::Wrapped => {
                self.wrap(waiting.1)?;
                Ok(None)
            }
            Met::Lands(landing) => Ok(Some(landing)),
        }
    }
}

/// The way of an object down the stack from below a place.
fn fly(
    alloc: Global,
    tables: &Tables<'_>,
    memo: &mut Memo,
    state: &State<'_>,
    gifts: &Gifts,
    top: usize,
    flying: Flying,
) -> Result<(Vec<usize>, Landing), AllocError>
    ensures kept { (steps : ℕ) (w : NamedWorld) (v : Value) → IsRun tables.now.lookups memo.old steps state.now → IsGiven tables.now.lookups state.now.world gifts.now → IsFlying tables.now.lookups state.now.world gifts.now w v flying → top ≤ length state.now.stack.items → IsKept tables.now.lookups memo.new }
    ensures flies { (steps : ℕ) (w : NamedWorld) (v : Value) → IsRun tables.now.lookups memo.old steps state.now → IsGiven tables.now.lookups state.now.world gifts.now → IsFlying tables.now.lookups state.now.world gifts.now w v flying → top ≤ length state.now.stack.items → IfOk result (λ r. Flies tables.now.lookups w v (reverse (take top state.now.stack.items)) r.0.items r.1) }
{
    let mut course = Course {
        flying,
        wraps: Vec::new(alloc),
    };
    let mut place = top;
    while place > 0 {
        place -= 1;
        if let Some(waiting) = state.stack.as_slice().get(place) {
            let entry = (waiting, place);
            if let Some(landing) = course.passes(alloc, tables, memo, &state.world, gifts, entry)? {
                return Ok((course.wraps, landing));
            }
        }
    }
    Ok((course.wraps, Landing::Nowhere))
}

/// What is thrown, with its type.
fn flying_of(gifts: &Gifts, world: &World, thrown: Thrown) -> Flying
    ensures { (l : Lookups) → IsRight l → IsGiven l world.now gifts.now → IsThrownWith l world.now gifts.now thrown → IsFlying l world.now gifts.now (thrown_world l (given_world (names_in l) world.now gifts.now) thrown) (thrown_value l (given_world (names_in l) world.now gifts.now) thrown) result }
{
    match thrown {
        Thrown::Value(datum) => Flying {
            datum: Some(datum),
            kind: gifts.kind_of(world, datum),
        },
        Thrown::New(class) => Flying {
            datum: None,
            kind: Some(Kind::plain(class)),
        },
    }
}

/// Makes room for a flight, beside some objects.
fn reserves(state: &mut State<'_>, gifts: &Gifts, wraps: usize) -> Result<(), AllocError>
    ensures same { IsReserved state.old state.new }
    ensures space { wraps < 2 ^ 63 → OnOk result (HasSpace state.new.world (length gifts.now.things.items + (wraps + 1))) }
    ensures room { wraps < 2 ^ 63 → OnOk result (HasRoom state.new.world (length gifts.now.things.items + (wraps + 1))) }
{
    gifts.reserve(&mut state.world, wraps.saturating_add(1))
}

/// Finds the way of a thrown object from below a place of the stack, and makes room for all that it does. `gifts` are
/// objects that are put on the heap before.
pub fn plan(
    alloc: Global,
    tables: &Tables<'_>,
    memo: &mut Memo,
    state: &mut State<'_>,
    gifts: &Gifts,
    top: usize,
    thrown: Thrown,
) -> Result<Flight, AllocError>
    ensures same { IsReserved state.old state.new }
    ensures kept { (steps : ℕ) → IsRun tables.now.lookups memo.old steps state.old → IsGiven tables.now.lookups state.old.world gifts.now → IsThrownWith tables.now.lookups state.old.world gifts.now thrown → top ≤ length state.old.stack.items → IsKept tables.now.lookups memo.new }
    ensures flies { (steps : ℕ) → IsRun tables.now.lookups memo.old steps state.old → IsGiven tables.now.lookups state.old.world gifts.now → IsThrownWith tables.now.lookups state.old.world gifts.now thrown → top ≤ length state.old.stack.items → IfOk result (IsFlight tables.now.lookups (given_world (names_in tables.now.lookups) state.old.world gifts.now) (take top state.old.stack.items) thrown) }
    ensures room { IfOk result (HasFlightRoom state.new.world (length gifts.now.things.items)) }
{
    let flying = flying_of(gifts, &state.world, thrown);
    let (wraps, landing) = fly(alloc, tables, memo, state, gifts, top, flying)?;
    reserves(state, gifts, wraps.len())?;
    Ok(Flight {
        thrown,
        wraps,
        landing,
    })
}

/// A new object of a known type, for which there is room.
fn make_new(world: &mut World, class: usize) -> Datum
    ensures datum { result ≡ Datum.Object (length (spots_of world.old)) }
    ensures heap { HasSpace world.old 1 → IsHeap world.old world.new (spots_of world.old ++ record { shape = Plain (plain class); place = None } ∷ []) }
    ensures space { (count : ℕ) → HasSpace world.old (count + 1) → HasSpace world.new count }
    ensures room { (count : ℕ) → HasRoom world.old count → HasRoom world.new count }
{
    let number = world.next_number();
    let thing = Thing::Instance(Kind::plain(class));
    let _ = world.heap.push(Cell { thing, place: None });
    Datum::Object(number)
}

/// The class on top of the stack that fails where a thrown object passes.
fn failing(state: &State<'_>) -> Option<u32>
    ensures { result ≡ failing_of (last_of state.now.stack.items) }
{
    match state.stack.as_slice().last() {
        Some(Waiting::Initialiser { class, .. }) => Some(*class),
        Some(Waiting::Ending { class }) => Some(*class),
        _ => None,
    }
}

/// Takes the top off the stack, which a thrown object passes.
fn drop_top(state: &mut State<'_>)
    ensures drops { DropsTop (last_of state.old.stack.items) state.old state.new }
    ensures stack { state.new.stack.items ≡ below_top state.old.stack.items }
{
    let class = failing(state);
    state.stack.pop();
    if let Some(class) = class {
        state.set_status(class, Status::Failed);
    }
}

/// Whether the object is replaced at a place of the stack.
fn is_noted(wraps: &[usize], wrapped: usize, top: usize) -> bool
    ensures { result ≡ noted (slice_get wraps.now wrapped) top }
{
    match wraps.get(wrapped) {
        Some(place) => *place == top,
        None => false,
    }
}

/// A thrown object passes the top of the stack, and is replaced where it is noted. Answers how many have been made, and
/// the object.
fn fall(state: &mut State<'_>, wraps: &[usize], wrapped: usize, datum: Datum) -> (usize, Datum)
    ensures stack { state.new.stack.items ≡ below_top state.old.stack.items }
    ensures falls { (l : Lookups) (steps : ℕ) (script : List Move) (whole : Next) (to : Landing) (place : ℕ) → IsRight l → LandsThere to place → place + 1 < length state.old.stack.items → IsFalling l steps script whole to state.old (drop wrapped wraps.now) datum → IsFalling l steps script whole to state.new (drop result.0 wraps.now) result.1 }
{
    let _count = wraps.len();
    let top = state.stack.len().saturating_sub(1);
    if is_noted(wraps, wrapped, top) {
        let wrapper = make_new(&mut state.world, known::INITIALISER_ERROR);
        drop_top(state);
        (wrapped.saturating_add(1), wrapper)
    } else {
        drop_top(state);
        (wrapped, datum)
    }
}

/// Takes off the stack what stands above a place. Answers the object, which is replaced where it is noted.
fn unwind(state: &mut State<'_>, place: usize, wraps: &[usize], datum: Datum) -> Datum
    ensures { (l : Lookups) (steps : ℕ) (script : List Move) (whole : Next) (to : Landing) → IsRight l → LandsThere to place → IsFalling l steps script whole to state.old wraps.now datum → HasFallen l steps script whole to place state.new result }
{
    let mut flown = (0, datum);
    while place < state.stack.len().saturating_sub(1) {
        flown = fall(state, wraps, flown.0, flown.1);
    }
    flown.1
}

/// What is thrown; a new object is put on the heap, which has room for it.
fn throw(world: &mut World, thrown: Thrown) -> Datum
    ensures { (l : Lookups) (count : ℕ) → IsRight l → IsSound l world.old → IsThrown l (length (spots_of world.old)) thrown → HasSpace world.old (count + 1) → HasRoom world.old (count + 1) → IsThrownInto l thrown count world.old world.new result }
{
    match thrown {
        Thrown::Value(datum) => datum,
        Thrown::New(class) => make_new(world, class),
    }
}

/// The draft of what the framework is shown.
fn draft_of(shown: Exhibit, datum: Datum) -> Draft
    ensures { (n : Names) (w : NamedWorld) (size : ℕ) → Exhibits w (value_of n datum) shown → IsDraft w throwable_type (value_of n datum) result }
{
    match (shown, datum) {
        (Exhibit::Old(draft), _) => draft,
        (Exhibit::New(kind), Datum::Object(number)) => Draft::Object {
            number,
            kind: Some(kind),
        },
        (Exhibit::New(_), _) => Draft::Done(Shown::Null),
    }
}

/// A thrown object goes down the stack to where it lands. At the framework a move that waits there for a class is over.
fn descend(state: &mut State<'_>, wraps: &[usize], landing: Landing, datum: Datum) -> Option<Event>
    ensures { (l : Lookups) (steps : ℕ) (script : List Move) (whole : Next) → IsRight l → IsFalling l steps script whole landing state.old wraps.now datum → IsEvent l steps script state.new result whole }
{
    match landing {
        Landing::Handler { place, position } => {
            let caught = unwind(state, place, wraps, datum);
            state.go_to_handler(position, caught);
            None
        }
        Landing::Framework { place, shown } => {
            let uncaught = unwind(state, place, wraps, datum);
            let value = show(&mut state.world, draft_of(shown, uncaught));
            state.set_pending(None);
            Some(Event::Uncaught { value })
        }
        Landing::Nowhere => {
            state.end();
            None
        }
    }
}

/// Lets a thrown object go its way, for which there is room.
pub fn land(state: &mut State<'_>, flight: Flight) -> Option<Event>
    ensures { (l : Lookups) (steps : ℕ) (script : List Move) → IsRight l → IsRunning l steps state.old → state.old.ended ≡ false → IsThrown l (length (spots_of state.old.world)) flight.thrown → IsFlight l (world_in l state.old) state.old.stack.items flight.thrown flight → HasFlightRoom state.old.world 0 flight
        → IsEvent l steps script state.new result (thrown_by l flight.thrown (world_in l state.old) (classes_in l state.old) (stack_in l script state.old) (script_in script state.old)) }
{
    let Flight {
        thrown,
        wraps,
        landing,
    } = flight;
    let datum = throw(&mut state.world, thrown);
    descend(state, wraps.as_slice(), landing, datum)
}

/// Throws something from the top of the stack.
pub fn throws(
    alloc: Global,
    tables: &Tables<'_>,
    memo: &mut Memo,
    state: &mut State<'_>,
    thrown: Thrown,
) -> Result<Option<Event>, AllocError>
    ensures ok { (steps : ℕ) (script : List Move) → IsRun tables.now.lookups memo.old steps state.old → IsThrown tables.now.lookups (length (spots_of state.old.world)) thrown
        → IfOk result (λ e. IsNext tables.now.lookups steps script memo.new state.new e (thrown_by tables.now.lookups thrown (world_in tables.now.lookups state.old) (classes_in tables.now.lookups state.old) (stack_in tables.now.lookups script state.old) (script_in script state.old))) }
    ensures kept { (steps : ℕ) → IsRun tables.now.lookups memo.old steps state.old → IsThrown tables.now.lookups (length (spots_of state.old.world)) thrown → IsKept tables.now.lookups memo.new }
    ensures err { (steps : ℕ) → IsRun tables.now.lookups memo.old steps state.old → IsThrown tables.now.lookups (length (spots_of state.old.world)) thrown → OnErr result (IsUndoneWith tables.now.lookups steps memo.new state.old state.new) }
{
    let top = state.stack.len();
    let none = Gifts::new(alloc);
    let flight = plan(alloc, tables, memo, state, &none, top, thrown)?;
    Ok(land(state, flight))
}
