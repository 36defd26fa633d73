//! What an instruction does to an array (Dalvik bytecode, "array-length", "new-array", "filled-new-array",
//! "fill-array-data", "aget", "aput").

ghost use Rattle.std.specs.Prelude.{◌≡◌, ◌<◌, ◌^◌, ℕ, length, IfOk, IsTrue, OnErr};
ghost use Rattle.std.specs.Option.{option_map};
ghost use Rattle.std.specs.Int.{w32, cast_signed};
ghost use Rattle.dalvik_defs.specs.ActArray.{array_get, fills, may_store, measures, reads_item, writes_item};
ghost use Rattle.dalvik_defs.specs.Effect.{unless_null};
ghost use Rattle.dalvik_defs.specs.Items.{item_of_type};
ghost use Rattle.dalvik_defs.specs.State.{thing_at};
ghost use Rattle.dalvik_lookups.specs.Facing.{run_face};
ghost use Rattle.dalvik_lookups.specs.Tables.{IsRight};
ghost use Rattle.dalvik_lookups.specs.Views.{type_text, AreTypes};
ghost use Rattle.dalvik_lookups.specs.Walks.{IsKept};
ghost use Rattle.dalvik_lookups.specs.declared.lookups.Lookups.{Lookups};
ghost use Rattle.dalvik_state.specs.Frames.{IsSame, Leaves, stored_in};
ghost use Rattle.dalvik_state.specs.States.{IsFineKind};
ghost use Rattle.dalvik_state.specs.Views.{IsFine, IsFineFrame, Names, frame_of, names_in, value_of, world_of};
ghost use Rattle.dalvik_state.specs.Worlds.{LeavesWorld, IsSameWorld, IsShort, shape_at, spots_of};
ghost use Rattle.dalvik_act.specs.Acted.{ActsUnder, Fits, IsAsking, IsGivenBack, IsReady, IsSafe, IsSafeIn, IsSafely, IsTested, NamesArray};
ghost use Rattle.dalvik_act.specs.Acting.{ActsNamed, ActsWith, Does, DoesIn, DoesNamed, DoesTo, Fills, Puts, PutsAt, Stores, adds_array, adds_zeros, contents_of, is_array_form, is_get, is_length, is_put, item_in, new_array_of, outline_of, place_below, place_in};

use crate::going::{goes_on, sets, sets_item};
use crate::plain::{is_instance, unless_null};
use dalvik_lookups::{Kind, Memo, known};
use dalvik_state::{
    Datum, Effect, Frame, Tables, Thing, World, length_word, stored, values_of, zeros,
};
use program_model::{Insn, Item};
use std::alloc::{AllocError, Global};

/// The length of an array.
fn measures<'a>(world: &World, frame: &mut Frame<'a>, array: Datum, to: u16) -> Effect<'a>
    ensures left { Leaves result frame.old frame.new }
    ensures does { IsShort (spots_of world.now) → DoesIn (λ n w f. unless_null (value_of n array) (measures (thing_at w (value_of n array)) w f to)) world.now frame.old frame.new result }
    ensures safe { IsSafely frame.old frame.new result }
{
    match shape_of(world, array) {
        Some((_, length)) => sets(frame, to, Datum::Word(length_word(length))),
        None => unless_null(array, Effect::Stuck),
    }
}

/// The place of an index, where it isn't negative.
fn place_of(index: u32) -> Option<usize>
    ensures { result ≡ place_in (cast_signed w32 index) }
{
    if index < 2147483648 {
        Some(index as usize)
    } else {
        None
    }
}

/// Goes on with a new array of so many items, all zero.
fn zeroed_array<'a>(
    alloc: Global,
    tables: &Tables<'a>,
    world: &mut World,
    frame: &mut Frame<'a>,
    to: u16,
    array: (u32, Kind),
) -> Result<Effect<'a>, AllocError>
    ensures ok { IfOk result (λ effect. Leaves effect frame.old frame.new) }
    ensures err { OnErr result (IsSame frame.old frame.new) }
    ensures lost { OnErr result (IsSameWorld world.old world.new) }
    ensures kept { IfOk result (λ effect. LeavesWorld effect world.old world.new) }
    ensures does { IfOk result (DoesNamed tables.now (λ n w f. adds_zeros (n.kind array.1) array.0 w f to) world.old world.new frame.old frame.new) }
    ensures safe { AreTypes tables.now.lookups.types → IsReady tables.now.lookups world.old frame.old → IsFineKind tables.now.lookups array.1
        → IfOk result (IsSafeIn tables.now.lookups world.old world.new frame.old frame.new) }
{
    let thing = zeros(alloc, tables, array.1, array.0)?;
    let reference = world.add(thing)?;
    Ok(sets(frame, to, reference))
}

/// A new array with items of a type, unless its size is negative.
fn new_array<'a>(
    alloc: Global,
    tables: &Tables<'a>,
    world: &mut World,
    frame: &mut Frame<'a>,
    to: u16,
    array: (u32, Kind),
) -> Result<Effect<'a>, AllocError>
    ensures ok { IfOk result (λ effect. Leaves effect frame.old frame.new) }
    ensures err { OnErr result (IsSame frame.old frame.new) }
    ensures lost { OnErr result (IsSameWorld world.old world.new) }
    ensures kept { IfOk result (λ effect. LeavesWorld effect world.old world.new) }
    ensures does { IfOk result (DoesNamed tables.now (λ n w f. new_array_of (cast_signed w32 array.0) (n.kind array.1) w f to) world.old world.new frame.old frame.new) }
    ensures safe { AreTypes tables.now.lookups.types → IsReady tables.now.lookups world.old frame.old → IsFineKind tables.now.lookups array.1
        → IfOk result (IsSafeIn tables.now.lookups world.old world.new frame.old frame.new) }
{
    match place_of(array.0) {
        Some(_) => zeroed_array(alloc, tables, world, frame, to, array),
        None => Ok(Effect::Faults(known::NEGATIVE_SIZE)),
    }
}

/// An array with items of a type, those that stand in registers, which a move-result reads.
fn filled_array<'a>(
    alloc: Global,
    world: &mut World,
    frame: &mut Frame<'a>,
    kind: Kind,
    args: &[u16],
) -> Result<Effect<'a>, AllocError>
    ensures ok { IfOk result (λ effect. Leaves effect frame.old frame.new) }
    ensures err { OnErr result (IsSame frame.old frame.new) }
    ensures lost { OnErr result (IsSameWorld world.old world.new) }
    ensures kept { IfOk result (λ effect. LeavesWorld effect world.old world.new) }
    ensures does { IfOk result (DoesTo (λ n w f. adds_array (n.kind kind) args.now w f) world.old world.new frame.old frame.new) }
    ensures safe { (l : Lookups) → IsReady l world.old frame.old → IsFineKind l kind → length args.now < 2 ^ 32 → IfOk result (IsSafeIn l world.old world.new frame.old frame.new) }
{
    let items = values_of(alloc, frame, args)?;
    frame.result = world.add(Thing::Items { kind, items })?;
    frame.next();
    Ok(Effect::Goes)
}

/// The item type of an array, and how many items it has.
fn shape_of(world: &World, array: Datum) -> Option<(Kind, usize)>
    ensures { result ≡ outline_of (shape_at (spots_of world.now) array) }
{
    match world.thing(array) {
        Some(Thing::Items { kind, items }) => Some((*kind, items.len())),
        _ => None,
    }
}

/// Fills an array, unless it lacks places.
fn fills_items<'a>(
    world: &mut World,
    frame: &mut Frame<'a>,
    array: Datum,
    item: Item,
    lacks: bool,
    numbers: &[u64],
) -> Effect<'a>
    ensures left { Leaves result frame.old frame.new }
    ensures kept { LeavesWorld result world.old world.new }
    ensures does { Fills array item lacks numbers.now world.old world.new frame.old frame.new result }
    ensures safe { (l : Lookups) → IsReady l world.old frame.old → IsSafeIn l world.old world.new frame.old frame.new result }
{
    if lacks {
        Effect::Faults(known::OUT_OF_BOUNDS)
    } else {
        world.fill(array, item, numbers);
        goes_on(frame)
    }
}

/// Fills an array, unless it has fewer places than there are items.
fn fills<'a>(
    tables: &Tables<'a>,
    world: &mut World,
    frame: &mut Frame<'a>,
    array: Datum,
    numbers: &[u64],
) -> Effect<'a>
    ensures left { Leaves result frame.old frame.new }
    ensures kept { LeavesWorld result world.old world.new }
    ensures does { DoesNamed tables.now (λ n w f. unless_null (value_of n array) (fills (thing_at w (value_of n array)) w f (value_of n array) numbers.now)) world.old world.new frame.old frame.new result }
    ensures safe { (l : Lookups) → IsReady l world.old frame.old → IsSafeIn l world.old world.new frame.old frame.new result }
{
    match shape_of(world, array) {
        Some((kind, length)) => {
            let item = tables.lookups.types.item(kind);
            fills_items(world, frame, array, item, length < numbers.len(), numbers)
        }
        None => unless_null(array, Effect::Stuck),
    }
}

/// The length of an array, and new and filled arrays.
pub fn act_arrays<'a>(
    alloc: Global,
    tables: &Tables<'a>,
    world: &mut World,
    frame: &mut Frame<'a>,
    insn: &'a Insn,
) -> Result<Effect<'a>, AllocError>
    ensures ok { IfOk result (λ effect. Leaves effect frame.old frame.new) }
    ensures err { OnErr result (IsSame frame.old frame.new) }
    ensures lost { OnErr result (IsSameWorld world.old world.new) }
    ensures kept { IfOk result (λ effect. LeavesWorld effect world.old world.new) }
    ensures still { IsTrue (is_length insn.now) → IsSameWorld world.old world.new }
    ensures acts { IsTrue (is_length insn.now) → IsShort (spots_of world.old) → IfOk result (ActsWith insn.now world.old world.new frame.old frame.new) }
    ensures named { IsTrue (is_array_form insn.now) → IfOk result (ActsNamed tables.now insn.now world.old world.new frame.old frame.new) }
    ensures safe { IsRight tables.now.lookups → IsReady tables.now.lookups world.old frame.old → Fits tables.now.lookups.program.now insn.now
        → NamesArray tables.now.lookups.program.now insn.now → IfOk result (IsSafeIn tables.now.lookups world.old world.new frame.old frame.new) }
{
    match insn {
        Insn::ArrayLength { to, from } => {
            let array = frame.get(*from);
            Ok(measures(world, frame, array, *to))
        }
        Insn::NewArray { to, size, kind } => {
            let array = (
                frame.get(*size).word(),
                tables.lookups.kind(*kind).item_of(),
            );
            new_array(alloc, tables, world, frame, *to, array)
        }
        Insn::FilledNewArray { kind, args } => {
            let item = tables.lookups.kind(*kind).item_of();
            filled_array(alloc, world, frame, item, args.as_slice())
        }
        Insn::FillArray {
            on,
            width: _,
            items,
        } => {
            let array = frame.get(*on);
            Ok(fills(tables, world, frame, array, items.as_slice()))
        }
        _ => Ok(Effect::Stuck),
    }
}

/// The item at an index, where there is one.
fn item_at(items: &[Datum], index: u32) -> Option<Datum>
    ensures { result ≡ item_in items.now (cast_signed w32 index) }
{
    match place_of(index) {
        Some(place) => items.get(place).copied(),
        None => None,
    }
}

/// Goes on with an item that was read; none is there where the index is out of range.
fn gets_item<'a>(frame: &mut Frame<'a>, item: Item, to: u16, found: Option<Datum>) -> Effect<'a>
    ensures left { Leaves result frame.old frame.new }
    ensures does { Does (λ n w f. reads_item item (option_map (value_of n) found) w f to) frame.old frame.new result }
    ensures safe { (l : Lookups) (size : ℕ) → IsGivenBack l size found → frame.old.position < 2 ^ 63 → IsFineFrame (names_in l) size frame.old → IsSafe l size frame.old frame.new result }
{
    match found {
        Some(datum) => sets_item(frame, item, to, datum),
        None => Effect::Faults(known::OUT_OF_BOUNDS),
    }
}

/// The items of an array.
fn items_of(world: &World, array: Datum) -> Option<&[Datum]>
    ensures { option_map (λ items. items.now) result ≡ contents_of (shape_at (spots_of world.now) array) }
{
    match world.thing(array) {
        Some(Thing::Items { kind: _, items }) => Some(items.as_slice()),
        _ => None,
    }
}

/// Reads an item.
fn array_get<'a>(
    world: &World,
    frame: &mut Frame<'a>,
    item: Item,
    to: u16,
    array: Datum,
    index: u32,
) -> Effect<'a>
    ensures left { Leaves result frame.old frame.new }
    ensures does { DoesIn (λ n w f. unless_null (value_of n array) (array_get item (thing_at w (value_of n array)) w f to (cast_signed w32 index))) world.now frame.old frame.new result }
    ensures safe { (l : Lookups) → IsReady l world.now frame.old → IsSafe l (length (spots_of world.now)) frame.old frame.new result }
{
    match items_of(world, array) {
        Some(items) => gets_item(frame, item, to, item_at(items, index)),
        None => unless_null(array, Effect::Stuck),
    }
}

/// Whether an object may be stored in an array: it is null, or under the item type.
fn may_store(
    tables: &Tables<'_>,
    memo: &mut Memo,
    world: &World,
    item: Item,
    datum: Datum,
    kind: Kind,
) -> Result<bool, AllocError>
    ensures answer { IsTested tables.now.lookups memo.old world.now datum kind
        → IfOk result (λ fits. fits ≡ may_store (run_face tables.now.lookups).under (world_of (names_in tables.now.lookups) world.now) item (value_of (names_in tables.now.lookups) datum) (type_text tables.now.lookups.types kind)) }
    ensures kept { IsTested tables.now.lookups memo.old world.now datum kind → IsKept tables.now.lookups memo.new }
{
    match item {
        Item::Object => {
            if datum.is_null() {
                Ok(true)
            } else {
                is_instance(tables, memo, world, datum, kind)
            }
        }
        _ => Ok(true),
    }
}

/// What a put into an array works on: the item that it names, the value, the array, and the index.
#[derive(Clone, Copy, Drop)]
struct Putting {
    item: Item,
    datum: Datum,
    array: Datum,
    index: u32,
}

/// The place of an index among so many items, where there is one.
fn place_within(index: u32, length: usize) -> Option<usize>
    ensures { result ≡ place_below length (cast_signed w32 index) }
{
    match place_of(index) {
        Some(place) => { if place < length { Some(place) } else { None } }
        None => None,
    }
}

/// Writes an item that is there, where the value fits.
fn stores<'a>(
    world: &mut World,
    frame: &mut Frame<'a>,
    put: Putting,
    place: usize,
    fits: bool,
) -> Effect<'a>
    ensures left { Leaves result frame.old frame.new }
    ensures kept { LeavesWorld result world.old world.new }
    ensures does { Stores put.array place (stored_in put.item put.datum) fits world.old world.new frame.old frame.new result }
    ensures safe { (l : Lookups) → IsReady l world.old frame.old → IsFine (names_in l) (length (spots_of world.old)) put.datum → IsSafeIn l world.old world.new frame.old frame.new result }
{
    if fits {
        world.put_item(put.array, place, stored(put.item, put.datum));
        goes_on(frame)
    } else {
        Effect::Faults(known::BAD_STORE)
    }
}

/// Writes an item of an array with items of a type: the index is in range, and an object fits.
fn puts_item<'a>(
    tables: &Tables<'a>,
    memo: &mut Memo,
    world: &mut World,
    frame: &mut Frame<'a>,
    put: Putting,
    outline: (Kind, usize),
) -> Result<Effect<'a>, AllocError>
    ensures ok { IfOk result (λ effect. Leaves effect frame.old frame.new) }
    ensures err { OnErr result (IsSame frame.old frame.new) }
    ensures lost { OnErr result (IsSameWorld world.old world.new) }
    ensures kept { IfOk result (λ effect. LeavesWorld effect world.old world.new) }
    ensures puts { IsTested tables.now.lookups memo.old world.old put.datum outline.0 → frame.old.position < 2 ^ 63
        → IfOk result (Puts tables.now.lookups put.item put.array put.datum put.index outline world.old world.new frame.old frame.new) }
    ensures safe { (l : Lookups) → IsReady l world.old frame.old → IsFine (names_in l) (length (spots_of world.old)) put.datum → IfOk result (IsSafeIn l world.old world.new frame.old frame.new) }
    ensures memo { IsTested tables.now.lookups memo.old world.old put.datum outline.0 → IsKept tables.now.lookups memo.new }
{
    match place_within(put.index, outline.1) {
        Some(place) => {
            let fits = may_store(tables, memo, world, put.item, put.datum, outline.0)?;
            Ok(stores(world, frame, put, place, fits))
        }
        None => Ok(Effect::Faults(known::OUT_OF_BOUNDS)),
    }
}

/// Writes an item: the array isn't null, the index is in range, and an object fits.
fn array_put<'a>(
    tables: &Tables<'a>,
    memo: &mut Memo,
    world: &mut World,
    frame: &mut Frame<'a>,
    put: Putting,
) -> Result<Effect<'a>, AllocError>
    ensures ok { IfOk result (λ effect. Leaves effect frame.old frame.new) }
    ensures err { OnErr result (IsSame frame.old frame.new) }
    ensures lost { OnErr result (IsSameWorld world.old world.new) }
    ensures kept { IfOk result (λ effect. LeavesWorld effect world.old world.new) }
    ensures puts { IsAsking tables.now.lookups memo.old world.old frame.old → IsFine (names_in tables.now.lookups) (length (spots_of world.old)) put.datum
        → IfOk result (PutsAt tables.now.lookups put.item put.array put.datum put.index world.old world.new frame.old frame.new) }
    ensures safe { (l : Lookups) → IsReady l world.old frame.old → IsFine (names_in l) (length (spots_of world.old)) put.datum → IfOk result (IsSafeIn l world.old world.new frame.old frame.new) }
    ensures memo { IsAsking tables.now.lookups memo.old world.old frame.old → IsFine (names_in tables.now.lookups) (length (spots_of world.old)) put.datum → IsKept tables.now.lookups memo.new }
{
    match shape_of(world, put.array) {
        Some(outline) => puts_item(tables, memo, world, frame, put, outline),
        None => Ok(unless_null(put.array, Effect::Stuck)),
    }
}

/// Reads and writes of items.
pub fn act_items<'a>(
    tables: &Tables<'a>,
    memo: &mut Memo,
    world: &mut World,
    frame: &mut Frame<'a>,
    insn: &'a Insn,
) -> Result<Effect<'a>, AllocError>
    ensures ok { IfOk result (λ effect. Leaves effect frame.old frame.new) }
    ensures err { OnErr result (IsSame frame.old frame.new) }
    ensures lost { OnErr result (IsSameWorld world.old world.new) }
    ensures kept { IfOk result (λ effect. LeavesWorld effect world.old world.new) }
    ensures still { IsTrue (is_get insn.now) → IsSameWorld world.old world.new }
    ensures gets { IsTrue (is_get insn.now) → IfOk result (ActsWith insn.now world.old world.new frame.old frame.new) }
    ensures puts { IsTrue (is_put insn.now) → IsAsking tables.now.lookups memo.old world.old frame.old → IfOk result (ActsUnder tables.now.lookups insn.now world.old world.new frame.old frame.new) }
    ensures safe { (l : Lookups) → IsReady l world.old frame.old → IfOk result (IsSafeIn l world.old world.new frame.old frame.new) }
    ensures memo { IsAsking tables.now.lookups memo.old world.old frame.old → IsKept tables.now.lookups memo.new }
{
    match insn {
        Insn::ArrayGet {
            item,
            to,
            array,
            index,
        } => {
            let (array, index) = (frame.get(*array), frame.get(*index).word());
            Ok(array_get(world, frame, *item, *to, array, index))
        }
        Insn::ArrayPut {
            item,
            from,
            array,
            index,
        } => {
            let put = Putting {
                item: *item,
                datum: frame.get(*from),
                array: frame.get(*array),
                index: frame.get(*index).word(),
            };
            array_put(tables, memo, world, frame, put)
        }
        _ => Ok(Effect::Stuck),
    }
}
