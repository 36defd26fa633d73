//! The tables as they grow: what is appended for a method that is made static.

ghost use Rattle.std.specs.Prelude.{◌≡◌, ℕ, ◌∷◌, ◌&&◌, ◌||◌, ◌<◌, ◌+◌, ◌^◌, None, Some, replicate, true, cond};
ghost use Rattle.std.specs.Prelude.{is_some, map, nat_eq, nat_le, nat_lt, length, position, sum_by, slice_set, IfOk, IfSome, OnOk};
ghost use Rattle.std.specs.List.{list_any};
ghost use Rattle.std.specs.Cmp.Lexicographic.{pointwise};
ghost use Rattle.std.specs.HashSet.{contains_by};
ghost use Rattle.program_model.specs.Cells.{capped};
ghost use Rattle.program_model.specs.Distinct.{all_differ, text_key, proto_key};
ghost use Rattle.program_model.specs.ProgramRules.{is_well_formed};
ghost use Rattle.static_protos.specs.Tables.{Tables, tables_of, shorty, has_room, is_taken, text_at, proto_at, strings_with, items_with, texts_with, protos_with, text_place, place_or, with_new};
ghost use Rattle.static_protos.specs.Growing.{same_pair, is_pair, units_more, items_more, texts_in, keys_in, IsGrown};

use crate::items::count_items;
use crate::letters::letter;
use dex_base::Text;
use indexmap::IndexSet;
use program_model::{MethodName, Program, Proto};
use seq::Seq;
use std::alloc::{AllocError, Global};

/// The proto that a method of a number and a name gets, its short form, and whether its parameters have annotations.
#[derive(Drop)]
pub struct Wanted {
    pub number: u32,
    pub name: u32,
    pub result: u32,
    pub parameters: Seq<u32>,
    pub text: Seq<u16>,
    pub marked: bool,
}

/// What is appended to the tables of a program for methods that are made static, and the new proto of each of them by number.
/// `texts` has all strings, and `keys` of each proto the result and the parameters, both in the order of their tables; `names` has
/// the name and the proto of each method. `units` and `items` are how many units the strings have, and how many items the program.
#[derive(Drop)]
pub(crate) struct Additions {
    pub(crate) new_strings: Vec<Text>,
    pub(crate) new_protos: Vec<Proto>,
    pub(crate) given: Vec<Option<u32>>,
    texts: IndexSet<Vec<u16>>,
    keys: IndexSet<Vec<u32>>,
    names: IndexSet<(u32, u32)>,
    units: u64,
    items: u64,
}

/// Where a short form and a proto stand in their tables.
#[derive(Clone, Copy)]
struct Room {
    text: Option<usize>,
    proto: Option<usize>,
}

/// A length or a place as a number of 32 bits.
fn word(place: usize) -> u32
    ensures { place < 2 ^ 32 → result ≡ place }
{
    if place < 0xffff_ffff {
        place as u32
    } else {
        0xffff_ffff
    }
}

/// The result and the parameters of a proto.
pub(crate) fn key(alloc: Global, given: u32, parameters: &[u32]) -> Result<Vec<u32>, AllocError>
    ensures { IfOk result (λ key. key.items ≡ given ∷ parameters.now) }
{
    let mut key = Vec::new(alloc);
    key.push(given)?;
    key.extend_from_slice(parameters)?;
    Ok(key)
}

/// The letters of types in short forms, behind that of a result.
pub(crate) fn short_form(
    alloc: Global,
    program: &Program,
    given: u32,
    parameters: &[u32],
) -> Result<Vec<u16>, AllocError>
    ensures { IfOk result (λ text. text.items ≡ shorty program.now given parameters.now) }
{
    let mut text = Vec::new(alloc);
    text.push(letter(program, given))?;
    for parameter in parameters {
        text.push(letter(program, *parameter))?;
    }
    Ok(text)
}

/// The strings of a table, in its order.
fn texts_of(alloc: Global, strings: &[Text]) -> Result<IndexSet<Vec<u16>>, AllocError>
    ensures { all_differ text_key strings.now ≡ true → IfOk result (λ texts. map (λ v. v.items) texts.keys ≡ strings.now) }
{
    let mut texts = IndexSet::new(alloc);
    for text in strings {
        texts.insert(Vec::from_slice(alloc, text.units())?)?;
    }
    Ok(texts)
}

/// The results and parameters of protos, in their order.
fn keys_of(alloc: Global, protos: &[Proto]) -> Result<IndexSet<Vec<u32>>, AllocError>
    ensures { all_differ proto_key protos.now ≡ true → IfOk result (λ keys. map (λ v. v.items) keys.keys ≡ map proto_key protos.now) }
{
    let mut keys = IndexSet::new(alloc);
    for proto in protos {
        keys.insert(key(alloc, proto.result, proto.parameters.as_slice())?)?;
    }
    Ok(keys)
}

/// The name and the proto of each method.
fn names_of(alloc: Global, methods: &[MethodName]) -> Result<IndexSet<(u32, u32)>, AllocError>
    ensures { IfOk result (λ names. (name proto : ℕ) → contains_by (same_pair (name, proto)) names ≡ list_any (is_pair name proto) methods.now) }
{
    let mut names = IndexSet::new(alloc);
    for method in methods {
        names.insert((method.name, method.proto))?;
    }
    Ok(names)
}

/// How many units strings have.
fn count_units(strings: &[Text]) -> u64
    ensures { result ≡ capped (sum_by length strings.now) }
{
    let mut count: u64 = 0;
    for text in strings {
        count = count.saturating_add(text.units().len() as u64);
    }
    count
}

/// The tables to which nothing is appended yet.
pub(crate) fn no_additions(alloc: Global, program: &Program) -> Result<Additions, AllocError>
    ensures { is_well_formed program.now ≡ true → IfOk result (IsGrown program.now (tables_of program.now)) }
{
    let new_strings = Vec::new(alloc);
    let new_protos = Vec::new(alloc);
    let given = no_protos(alloc, program.methods.len())?;
    let texts = texts_of(alloc, program.strings.as_slice())?;
    let keys = keys_of(alloc, program.protos.as_slice())?;
    let names = names_of(alloc, program.methods.as_slice())?;
    let units = count_units(program.strings.as_slice());
    let items = count_items(program);
    Ok(Additions {
        new_strings,
        new_protos,
        given,
        texts,
        keys,
        names,
        units,
        items,
    })
}

/// Whether both hold.
fn both(first: bool, second: bool) -> bool
    ensures { result ≡ (first && second) }
{
    first && second
}

/// So many methods without a new proto.
fn no_protos(alloc: Global, count: usize) -> Result<Vec<Option<u32>>, AllocError>
    ensures { IfOk result (λ given. given.items ≡ replicate count None) }
{
    vec![in alloc; None; count]
}

/// Whether a count with more keeps the limit of units and of items.
fn is_within(count: u64, more: u64) -> bool
    ensures { result ≡ nat_le (count + more) 16777216 }
{
    count.saturating_add(more) <= 16_777_216
}

/// What stands at a place, or past the end where it stands nowhere, as a number.
fn place_or(end: usize, place: Option<usize>) -> u32
    ensures { end < 2 ^ 32 → IfSome place (λ i. i < 2 ^ 32) → result ≡ place_or end place }
{
    match place {
        Some(place) => word(place),
        None => word(end),
    }
}

impl Wanted {
    /// How many units are appended to the strings.
    fn more_units(&self, room: Room) -> u64
        ensures { result ≡ units_more self.now room.text }
    {
        match room.text {
            Some(_) => 0,
            None => self.text.len() as u64,
        }
    }

    /// How many items the program gets.
    fn more_items(&self, room: Room) -> u64
        ensures { result ≡ capped (items_more self.now room.proto) }
    {
        let marks: u64 = if self.marked { 1 } else { 0 };
        match room.proto {
            Some(_) => marks,
            None => (self.parameters.len() as u64).saturating_add(marks),
        }
    }
}

impl Additions {
    /// Where the short form and the proto of a method stand.
    fn room(&self, alloc: Global, wanted: &Wanted) -> Result<Room, AllocError>
        ensures { (p : Program) (t : Tables) → IsGrown p t self.now → IfOk result (λ room. (room.text ≡ text_at t wanted.now) × (room.proto ≡ proto_at t wanted.now)) }
    {
        let key = key(alloc, wanted.result, wanted.parameters.as_slice())?;
        let text = self.texts.get_index_of(wanted.text.as_slice());
        let proto = self.keys.get_index_of(key.as_slice());
        Ok(Room { text, proto })
    }

    /// Whether a method of the program has this name and the proto at this place.
    fn is_taken(&self, name: u32, proto: Option<usize>) -> bool
        ensures { (p : Program) (t : Tables) → IsGrown p t self.now → IfSome proto (λ i. i < 2 ^ 32) → result ≡ is_taken p name proto }
    {
        match proto {
            Some(proto) => self.names.contains(&(name, word(proto))),
            None => false,
        }
    }

    /// Whether the tables have places for what is appended.
    #[tactic(auto, using(crate::proofs::Grown::texts_long, crate::proofs::Grown::keys_long))]
    fn has_places(&self, room: Room) -> bool
        ensures { (p : Program) (t : Tables) → IsGrown p t self.now
            → result ≡ ((is_some room.text || nat_lt (length t.strings) 65536) && (is_some room.proto || nat_lt (length t.protos) 65535)) }
    {
        let texts = self.texts.len();
        let keys = self.keys.len();
        (room.text.is_some() || texts < 65_536) && (room.proto.is_some() || keys < 65_535)
    }

    /// Whether what is appended keeps the limits.
    fn keeps_limits(&self, wanted: &Wanted, room: Room) -> bool
        ensures { (p : Program) (t : Tables) → IsGrown p t self.now → room.text ≡ text_at t wanted.now → room.proto ≡ proto_at t wanted.now
            → result ≡ (nat_le (sum_by length (strings_with t wanted.now)) 16777216 && nat_le (items_with t wanted.now) 16777216) }
    {
        let units = is_within(self.units, wanted.more_units(room));
        let items = is_within(self.items, wanted.more_items(room));
        both(units, items)
    }

    /// Whether a method may get its proto.
    fn has_room(&self, wanted: &Wanted, room: Room) -> bool
        ensures { (p : Program) (t : Tables) → IsGrown p t self.now → room.text ≡ text_at t wanted.now → room.proto ≡ proto_at t wanted.now → result ≡ has_room p t wanted.now }
    {
        let taken = self.is_taken(wanted.name, room.proto);
        let places = self.has_places(room);
        let limits = self.keeps_limits(wanted, room);
        let free = both(!taken, places);
        both(free, limits)
    }

    /// Counts what a method appends.
    fn count(&mut self, wanted: &Wanted, room: Room)
        ensures units { self.old.units + units_more wanted.now room.text < 2 ^ 64 → self.new.units ≡ self.old.units + units_more wanted.now room.text }
        ensures items { self.old.items + items_more wanted.now room.proto < 2 ^ 64 → self.new.items ≡ self.old.items + items_more wanted.now room.proto }
        ensures rest { self.new ≡ record self.old { units = self.new.units; items = self.new.items } }
    {
        self.units = self.units.saturating_add(wanted.more_units(room));
        self.items = self.items.saturating_add(wanted.more_items(room));
    }

    /// Appends a short form, unless it stands at a place of the table.
    fn keep_text(
        &mut self,
        alloc: Global,
        text: &[u16],
        place: Option<usize>,
    ) -> Result<(), AllocError>
        ensures strings { OnOk result (self.new.new_strings.items ≡ texts_with self.old.new_strings.items text.now place) }
        ensures texts { place ≡ text_place (texts_in self.old) text.now → OnOk result (texts_in self.new ≡ texts_with (texts_in self.old) text.now place) }
        ensures rest { OnOk result (self.new ≡ record self.old { new_strings = self.new.new_strings; texts = self.new.texts }) }
    {
        match place {
            Some(_) => Ok(()),
            None => {
                self.new_strings.push(Text::from_units(alloc, text)?)?;
                self.texts.insert(Vec::from_slice(alloc, text)?)?;
                Ok(())
            }
        }
    }

    /// Appends a proto, unless it stands at a place of the table.
    fn keep_proto(
        &mut self,
        alloc: Global,
        proto: Proto,
        place: Option<usize>,
    ) -> Result<(), AllocError>
        ensures protos { OnOk result (self.new.new_protos.items ≡ protos_with self.old.new_protos.items proto place) }
        ensures keys { place ≡ position (pointwise nat_eq (proto_key proto)) (keys_in self.old) → OnOk result (keys_in self.new ≡ texts_with (keys_in self.old) (proto_key proto) place) }
        ensures rest { OnOk result (self.new ≡ record self.old { new_protos = self.new.new_protos; keys = self.new.keys }) }
    {
        match place {
            Some(_) => Ok(()),
            None => {
                self.keys
                    .insert(key(alloc, proto.result, proto.parameters.as_slice())?)?;
                self.new_protos.push(proto)?;
                Ok(())
            }
        }
    }

    /// Notes the new proto of a method.
    fn give(&mut self, number: u32, proto: u32)
        ensures given { self.new.given.items ≡ slice_set self.old.given.items number (Some proto) }
        ensures rest { self.new ≡ record self.old { given = self.new.given } }
    {
        let place = number as usize;
        if place < self.given.len() {
            self.given[place] = Some(proto);
        }
    }

    /// Gives a method its proto.
    fn append(&mut self, alloc: Global, wanted: Wanted, room: Room) -> Result<(), AllocError>
        ensures { (p : Program) (t : Tables) → IsGrown p t self.old → room.text ≡ text_at t wanted → room.proto ≡ proto_at t wanted → has_room p t wanted ≡ true
            → OnOk result (IsGrown p (with_new t wanted) self.new) }
    {
        let texts = self.texts.len();
        let keys = self.keys.len();
        let shorty = place_or(texts, room.text);
        let number = place_or(keys, room.proto);
        self.count(&wanted, room);
        self.give(wanted.number, number);
        self.keep_text(alloc, wanted.text.as_slice(), room.text)?;
        let proto = Proto {
            shorty,
            result: wanted.result,
            parameters: wanted.parameters,
        };
        self.keep_proto(alloc, proto, room.proto)?;
        Ok(())
    }

    /// Gives a method its proto, if there is room for it.
    pub(crate) fn add(&mut self, alloc: Global, wanted: Wanted) -> Result<(), AllocError>
        ensures { (p : Program) (t : Tables) → IsGrown p t self.old → OnOk result (IsGrown p (cond (has_room p t wanted) (with_new t wanted) t) self.new) }
    {
        let room = self.room(alloc, &wanted)?;
        if !self.has_room(&wanted, room) {
            return Ok(());
        }
        self.append(alloc, wanted, room)
    }
}
