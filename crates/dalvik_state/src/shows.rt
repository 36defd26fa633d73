//! How values are shown. What an event needs memory for is drafted first; then the objects get their places.

ghost use Rattle.std.specs.Prelude.{◌≡◌, ◌+◌, ◌<◌, ◌≤◌, ◌++◌, ◌∷◌, [], ℕ, List, Option, Some, cond, length, map, vec_capacity, vec_len, IfOk};
ghost use Rattle.std.specs.Option.{option_map};
ghost use Rattle.dalvik_defs.specs.Names.{Text, is_wide};
ghost use Rattle.dalvik_defs.specs.Show.{show_word};
ghost use Rattle.dalvik_defs.specs.declared.state.Value.{Value};
ghost use Rattle.dalvik_defs.specs.declared.state.Value.TheVariants as value;
ghost use Rattle.dalvik_lookups.specs.Views.{AreTypes, type_text};
ghost use Rattle.dalvik_lookups.specs.declared.lookups.Lookups.{Lookups};
ghost use Rattle.dalvik_state.specs.Drafts.{again, first_exposed, first_place, first_spots, gift_spots, given_world, kind_text, AreAllDrawn, AreAllShown, AreDrafts, AreDraftsOf, AreDrawn, AreShown, DraftsOf, IsDraft, IsDrawn, IsObject, IsShown};
ghost use Rattle.dalvik_state.specs.States.{HasRoom, IsSound};
ghost use Rattle.dalvik_state.specs.Views.{names_in, value_of, world_of};
ghost use Rattle.dalvik_state.specs.Worlds.{kind_in, place_at, spots_of, IsExposed};

use crate::datum::Datum;
use crate::gifts::Gifts;
use crate::state::Tables;
use crate::world::World;
use dalvik_defs::Shown;
use dalvik_lookups::Kind;
use dex_base::Text;
use seq::Seq;
use std::alloc::{AllocError, Global};

/// A value that is to be shown: as it stands, or an object by its number, with the text of its type where it may be
/// printed for the first time.
#[derive(Drop)]
pub enum Draft {
    Done(Shown),
    Object { number: u64, kind: Option<Text> },
}

/// A word by its declared type: 0 of a reference type is null.
fn show_word(tables: &Tables<'_>, kind: Kind, word: u32) -> Shown
    ensures { AreTypes tables.now.lookups.types → result ≡ show_word (type_text tables.now.lookups.types kind) word }
{
    if word == 0 && tables.lookups.types.is_reference(kind) {
        Shown::Null
    } else {
        Shown::Word(word)
    }
}

/// The text of an object's type, empty where there is no object.
fn object_text(
    alloc: Global,
    tables: &Tables<'_>,
    world: &World,
    gifts: &Gifts,
    number: u64,
) -> Result<Text, AllocError>
    ensures { IfOk result (λ text. text ≡ kind_text tables.now.lookups (kind_in (gift_spots world.now gifts.now) (Datum.Object number))) }
{
    match gifts.kind_of(world, Datum::Object(number)) {
        Some(kind) => tables.lookups.kind_text(alloc, kind),
        None => Text::from_units(alloc, &[]),
    }
}

/// An object, with the text of its type unless it has been printed.
fn draft_object(
    alloc: Global,
    tables: &Tables<'_>,
    world: &World,
    gifts: &Gifts,
    number: u64,
) -> Result<Draft, AllocError>
    ensures { (kind : Text) → IsDrawn tables.now.lookups world.now gifts.now (Datum.Object number) → IfOk result (λ d. IsDraft (given_world (names_in tables.now.lookups) world.now gifts.now) kind (value.Object number) d) }
{
    if world.is_printed(number) {
        return Ok(Draft::Object { number, kind: None });
    }
    let kind = object_text(alloc, tables, world, gifts, number)?;
    Ok(Draft::Object {
        number,
        kind: Some(kind),
    })
}

/// A value of a type, which may be of an object among `gifts`.
pub fn drafted(
    alloc: Global,
    tables: &Tables<'_>,
    world: &World,
    gifts: &Gifts,
    kind: Kind,
    datum: Datum,
) -> Result<Draft, AllocError>
    ensures { IsDrawn tables.now.lookups world.now gifts.now datum → IfOk result (λ d. IsDraft (given_world (names_in tables.now.lookups) world.now gifts.now) (type_text tables.now.lookups.types kind) (value_of (names_in tables.now.lookups) datum) d) }
{
    match datum {
        Datum::Word(word) => Ok(Draft::Done(show_word(tables, kind, word))),
        Datum::Low(wide) | Datum::High(wide) => Ok(Draft::Done(Shown::Wide(wide))),
        Datum::Object(number) => draft_object(alloc, tables, world, gifts, number),
        Datum::Literal(text) => Ok(Draft::Done(Shown::Literal(
            tables.lookups.literal_text(alloc, text)?,
        ))),
        Datum::Class(text) => Ok(Draft::Done(Shown::Class(
            tables.lookups.literal_text(alloc, text)?,
        ))),
    }
}

/// A value that may be none.
pub fn drafted_option(
    alloc: Global,
    tables: &Tables<'_>,
    world: &World,
    gifts: &Gifts,
    kind: Kind,
    datum: Option<Datum>,
) -> Result<Option<Draft>, AllocError>
    ensures { AreDrawn tables.now.lookups world.now gifts.now datum → IfOk result (λ d. AreDrafts (given_world (names_in tables.now.lookups) world.now gifts.now) (type_text tables.now.lookups.types kind) (option_map (value_of (names_in tables.now.lookups)) datum) d) }
{
    match datum {
        Some(datum) => Ok(Some(drafted(alloc, tables, world, gifts, kind, datum)?)),
        None => Ok(None),
    }
}

/// Shows an object that has been printed.
fn show_again(world: &World, number: u64) -> Shown
    ensures { result ≡ again (place_at (spots_of world.now) number) }
{
    match world.place(number) {
        Some(place) => Shown::Again(place as u64),
        None => Shown::Null,
    }
}

/// Shows an object for the first time. One that isn't exposed gets the next place, for which there is room.
fn show_first(world: &mut World, number: u64, kind: Text) -> Shown
    ensures shown { result ≡ Shown.First (first_place world.old.exposed.items (place_at (spots_of world.old) number)) kind }
    ensures world { HasRoom world.old 1 → IsExposed world.old world.new (first_spots (spots_of world.old) world.old.exposed.items number (place_at (spots_of world.old) number)) (first_exposed world.old.exposed.items number (place_at (spots_of world.old) number)) }
    ensures room { (count : ℕ) → HasRoom world.old (count + 1) → HasRoom world.new count }
{
    match world.place(number) {
        Some(place) => {
            world.print(place);
            Shown::First {
                number: place as u64,
                kind,
            }
        }
        None => {
            let place = world.expose(number, true);
            Shown::First {
                number: place as u64,
                kind,
            }
        }
    }
}

/// Shows an object of a known type, which may have been printed.
fn show_typed(world: &mut World, number: u64, kind: Text) -> Shown
    ensures shown { (l : Lookups) (declared : Text) (v : Value) → IsSound l world.old → HasRoom world.old 1 → IsObject (world_of (names_in l) world.old) v number (Some kind) → IsShown l declared v world.old world.new result }
    ensures room { (count : ℕ) → HasRoom world.old (count + 1) → HasRoom world.new count }
{
    if world.is_printed(number) {
        show_again(world, number)
    } else {
        show_first(world, number, kind)
    }
}

/// Shows an object. The text of its type is there unless it has been printed.
fn show_object(world: &mut World, number: u64, kind: Option<Text>) -> Shown
    ensures shown { (l : Lookups) (declared : Text) (v : Value) → IsSound l world.old → HasRoom world.old 1 → IsObject (world_of (names_in l) world.old) v number kind → IsShown l declared v world.old world.new result }
    ensures room { (count : ℕ) → HasRoom world.old (count + 1) → HasRoom world.new count }
{
    match kind {
        Some(kind) => show_typed(world, number, kind),
        None => show_again(world, number),
    }
}

/// Shows a drafted value.
pub fn show(world: &mut World, draft: Draft) -> Shown
    ensures shown { (l : Lookups) (kind : Text) (v : Value) → IsSound l world.old → HasRoom world.old 1 → IsDraft (world_of (names_in l) world.old) kind v draft → IsShown l kind v world.old world.new result }
    ensures room { (count : ℕ) → HasRoom world.old (count + 1) → HasRoom world.new count }
{
    match draft {
        Draft::Done(shown) => shown,
        Draft::Object { number, kind } => show_object(world, number, kind),
    }
}

/// Shows a drafted value that may be none.
pub fn show_option(world: &mut World, draft: Option<Draft>) -> Option<Shown>
    ensures shown { (l : Lookups) (kind : Text) (v : Option Value) → IsSound l world.old → HasRoom world.old 1 → AreDrafts (world_of (names_in l) world.old) kind v draft → AreShown l kind v world.old world.new result }
    ensures room { (count : ℕ) → HasRoom world.old (count + 1) → HasRoom world.new count }
{
    match draft {
        Some(draft) => Some(show(world, draft)),
        None => None,
    }
}

/// How many registers a value of a type stands in.
fn width(tables: &Tables<'_>, kind: Kind) -> usize
    ensures { AreTypes tables.now.lookups.types → result ≡ cond (is_wide (type_text tables.now.lookups.types kind)) 2 1 }
{
    if tables.lookups.types.is_wide(kind) {
        2
    } else {
        1
    }
}

/// Drafts values by their types, from left to right; a wide stands in two registers.
fn draft_all(
    alloc: Global,
    tables: &Tables<'_>,
    world: &World,
    kinds: &[Kind],
    values: &[Datum],
) -> Result<Vec<Draft>, AllocError>
    ensures { AreAllDrawn tables.now.lookups world.now values.now → IfOk result (λ drafts. DraftsOf (world_of (names_in tables.now.lookups) world.now) (map (type_text tables.now.lookups.types) kinds.now) (map (value_of (names_in tables.now.lookups)) values.now) drafts.items) }
{
    let mut drafts = Vec::new(alloc);
    let none = Gifts::new(alloc);
    let mut at: usize = 0;
    for kind in kinds {
        let datum = match values.get(at) {
            Some(datum) => *datum,
            None => break,
        };
        drafts.push(drafted(alloc, tables, world, &none, *kind, datum)?)?;
        at = at.saturating_add(width(tables, *kind));
    }
    Ok(drafts)
}

/// Adds to a list that has room for one more.
fn push_one(list: &mut Vec<Shown>, one: Shown)
    ensures items { vec_len list.old < vec_capacity list.old → list.new.items ≡ list.old.items ++ one ∷ [] }
    ensures len { vec_len list.old < vec_capacity list.old → vec_len list.new ≡ vec_len list.old + 1 }
    ensures capacity { vec_capacity list.old ≤ vec_capacity list.new }
{
    let _ = list.push(one);
}

/// Shows drafted values one behind another in a list that is empty and has room for them.
fn show_each(world: &mut World, drafts: Vec<Draft>, mut shown: Vec<Shown>) -> Vec<Shown>
    ensures { (l : Lookups) (kinds : List Text) (values : List Value) → IsSound l world.old → HasRoom world.old (length drafts.items) → length drafts.items ≤ vec_capacity shown → shown.items ≡ [] → DraftsOf (world_of (names_in l) world.old) kinds values drafts.items → AreAllShown l kinds values world.old world.new result.items }
{
    for draft in drafts {
        let one = show(world, draft);
        push_one(&mut shown, one);
    }
    shown
}

/// Drafted values, and the list that they are shown in.
#[derive(Drop)]
pub struct Drafts {
    drafts: Vec<Draft>,
    shown: Vec<Shown>,
}

impl Drafts {
    /// Values by their types, from left to right; a wide stands in two registers.
    pub fn new(
        alloc: Global,
        tables: &Tables<'_>,
        world: &World,
        kinds: &[Kind],
        values: &[Datum],
    ) -> Result<Drafts, AllocError>
        ensures { AreAllDrawn tables.now.lookups world.now values.now → IfOk result (AreDraftsOf (world_of (names_in tables.now.lookups) world.now) (map (type_text tables.now.lookups.types) kinds.now) (map (value_of (names_in tables.now.lookups)) values.now)) }
    {
        let drafts = draft_all(alloc, tables, world, kinds, values)?;
        let shown = Vec::with_capacity(alloc, drafts.len())?;
        Ok(Drafts { drafts, shown })
    }

    /// How many values there are.
    pub fn len(&self) -> usize
        ensures { result ≡ length self.now.drafts.items }
    {
        self.drafts.len()
    }

    /// Shows the values.
    pub fn show(self, world: &mut World) -> Seq<Shown>
        ensures { (l : Lookups) (kinds : List Text) (values : List Value) → IsSound l world.old → HasRoom world.old (length self.drafts.items) → AreDraftsOf (world_of (names_in l) world.old) kinds values self → AreAllShown l kinds values world.old world.new result }
    {
        let Drafts { drafts, shown } = self;
        Seq::of_vec(show_each(world, drafts, shown))
    }
}
