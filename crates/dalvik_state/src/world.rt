//! The heap, the fields, the monitors, and what was exposed.

ghost use Rattle.std.specs.Prelude.{◌≡◌, ◌<◌, ◌^◌, ◌+◌, ◌++◌, ◌∷◌, ℕ, [], length, map, replicate, vec_capacity, vec_len, None, IfOk, OnErr, OnOk};
ghost use Rattle.std.specs.Map.{lookup};
ghost use Rattle.std.specs.Option.{option_map, unwrap_or};
ghost use Rattle.dalvik_state.specs.Frames.{same_in};
ghost use Rattle.dalvik_state.specs.States.{HasRoom};
ghost use Rattle.dalvik_state.specs.Worlds.{IsExposed, IsHeap, IsSameWorld, fill_shape, kind_in, kind_of_shape, new_spot, place_at, place_spot, print_at, printed_at, put_shape, reshape, reshape_at, shape_at, shape_of, spot_of, spots_of};

use crate::datum::Datum;
use crate::frame::write_register;
use crate::items::fill;
use dalvik_lookups::{Kind, known};
use program_model::Item;
use std::alloc::{AllocError, Global};
use std::collections::HashMap;

/// An object of a class, or an array by its item type with its items.
#[derive(Drop)]
pub enum Thing {
    Instance(Kind),
    Items { kind: Kind, items: Vec<Datum> },
}

impl Thing {
    /// The type of the object or array.
    pub fn kind(&self) -> Kind
        ensures { result ≡ kind_of_shape (shape_of self.now) }
    {
        match self {
            Thing::Instance(kind) => *kind,
            Thing::Items { kind, .. } => kind.array_of(),
        }
    }
}

/// Writes an item of a thing, unless it is no array or has no such place.
fn put_in(thing: &mut Thing, place: usize, datum: Datum)
    ensures { shape_of thing.new ≡ put_shape place datum (shape_of thing.old) }
{
    match thing {
        Thing::Items { kind: _, items } => write_register(items.as_mut_slice(), place, datum),
        Thing::Instance(_) => {}
    }
}

/// A thing, and its place among the exposed ones.
#[derive(Drop)]
pub struct Cell {
    pub thing: Thing,
    pub place: Option<usize>,
}

/// Writes an item of the thing with a number.
fn put_at(heap: &mut Vec<Cell>, number: usize, place: usize, datum: Datum)
    ensures { map spot_of heap.new.items ≡ reshape (put_shape place datum) (map spot_of heap.old.items) number }
{
    if number < heap.len() {
        put_in(&mut heap[number].thing, place, datum);
    }
}

/// Fills the first items of a thing, unless it is no array.
fn fill_thing(thing: &mut Thing, item: Item, numbers: &[u64])
    ensures { shape_of thing.new ≡ fill_shape item numbers.now (shape_of thing.old) }
{
    match thing {
        Thing::Items { kind: _, items } => fill(items.as_mut_slice(), item, numbers),
        Thing::Instance(_) => {}
    }
}

/// Fills the first items of the thing with a number.
fn fill_at(heap: &mut Vec<Cell>, number: usize, item: Item, numbers: &[u64])
    ensures { map spot_of heap.new.items ≡ reshape (fill_shape item numbers.now) (map spot_of heap.old.items) number }
{
    if number < heap.len() {
        fill_thing(&mut heap[number].thing, item, numbers);
    }
}

/// Gives the thing with a number its place among the exposed ones.
fn place_cell(heap: &mut Vec<Cell>, number: usize, place: usize)
    ensures { map spot_of heap.new.items ≡ place_spot place (map spot_of heap.old.items) number }
{
    if number < heap.len() {
        heap[number].place = Some(place);
    }
}

/// Notes that what stands at a place has been printed.
fn mark_printed(exposed: &mut Vec<Exposed>, place: usize)
    ensures exposed { exposed.new.items ≡ print_at exposed.old.items place }
    ensures len { vec_len exposed.new ≡ vec_len exposed.old }
    ensures capacity { vec_capacity exposed.new ≡ vec_capacity exposed.old }
{
    if place < exposed.len() {
        exposed[place].printed = true;
    }
}

/// An object that was exposed, and whether it has been printed.
#[derive(Clone, Copy, PartialEq, Eq, Drop)]
pub struct Exposed {
    pub number: u64,
    pub printed: bool,
}

/// Things by their numbers, the fields that were written by object and place of the field, the static ones by place,
/// how often each object, text and class is locked, and what was exposed.
#[derive(Drop)]
pub struct World {
    pub heap: Vec<Cell>,
    pub fields: HashMap<(u64, usize), Datum>,
    pub statics: Vec<Option<Datum>>,
    pub locks: HashMap<Datum, u64>,
    pub exposed: Vec<Exposed>,
}

impl World {
    /// No objects, and nothing written to so many fields.
    pub fn new(alloc: Global, slots: usize) -> Result<World, AllocError>
        ensures heap { IfOk result (λ w. spots_of w ≡ []) }
        ensures exposed { IfOk result (λ w. w.exposed.items ≡ []) }
        ensures fields { IfOk result (λ w. w.fields.entries ≡ []) }
        ensures locks { IfOk result (λ w. w.locks.entries ≡ []) }
        ensures statics { IfOk result (λ w. w.statics.items ≡ replicate slots None) }
    {
        Ok(World {
            heap: Vec::new(alloc),
            fields: HashMap::new(alloc),
            statics: vec![in alloc; None; slots]?,
            locks: HashMap::new(alloc),
            exposed: Vec::new(alloc),
        })
    }

    /// The number of the next object.
    pub fn next_number(&self) -> u64
        ensures is { result ≡ length (spots_of self.now) }
        ensures small { result < 2 ^ 63 }
    {
        self.heap.as_slice().len() as u64
    }

    /// Adds a thing, and answers the reference to it.
    pub fn add(&mut self, thing: Thing) -> Result<Datum, AllocError>
        ensures datum { IfOk result (λ d. d ≡ Datum.Object (length (spots_of self.old))) }
        ensures heap { OnOk result (IsHeap self.old self.new (spots_of self.old ++ new_spot thing ∷ [])) }
        ensures err { OnErr result (IsSameWorld self.old self.new) }
    {
        let number = self.next_number();
        self.heap.push(Cell { thing, place: None })?;
        Ok(Datum::Object(number))
    }

    /// The thing that a value refers to.
    pub fn thing(&self, datum: Datum) -> Option<&Thing>
        ensures { option_map (λ t. shape_of t.now) result ≡ shape_at (spots_of self.now) datum }
    {
        match datum {
            Datum::Object(number) => match self.heap.as_slice().get(number as usize) {
                Some(cell) => Some(&cell.thing),
                None => None,
            },
            _ => None,
        }
    }

    /// Writes an item of the array that a value refers to, unless it has no such place.
    pub fn put_item(&mut self, array: Datum, place: usize, datum: Datum)
        ensures { IsHeap self.old self.new (reshape_at (put_shape place datum) (spots_of self.old) array) }
    {
        if let Datum::Object(number) = array {
            put_at(&mut self.heap, number as usize, place, datum);
        }
    }

    /// Fills the first items of the array that a value refers to.
    pub fn fill(&mut self, array: Datum, item: Item, numbers: &[u64])
        ensures { IsHeap self.old self.new (reshape_at (fill_shape item numbers.now) (spots_of self.old) array) }
    {
        if let Datum::Object(number) = array {
            fill_at(&mut self.heap, number as usize, item, numbers);
        }
    }

    /// The type of what a value refers to, none of a number.
    pub fn kind_of(&self, datum: Datum) -> Option<Kind>
        ensures { result ≡ kind_in (spots_of self.now) datum }
    {
        match datum {
            Datum::Object(number) => match self.heap.as_slice().get(number as usize) {
                Some(cell) => Some(cell.thing.kind()),
                None => None,
            },
            Datum::Literal(_) => Some(Kind::plain(known::STRING)),
            Datum::Class(_) => Some(Kind::plain(known::CLASS)),
            _ => None,
        }
    }

    /// How often a monitor is held.
    pub fn locked(&self, datum: Datum) -> u64
        ensures { result ≡ unwrap_or (lookup (λ k. same_in k datum) self.now.locks.entries) 0 }
    {
        match self.locks.get(&datum) {
            Some(count) => *count,
            None => 0,
        }
    }

    /// Whether an object has been printed.
    pub fn is_printed(&self, number: u64) -> bool
        ensures { result ≡ printed_at self.now.exposed.items (place_at (spots_of self.now) number) }
    {
        match self.place(number) {
            Some(place) => match self.exposed.as_slice().get(place) {
                Some(one) => one.printed,
                None => false,
            },
            None => false,
        }
    }

    /// The place of an object among the exposed ones.
    pub fn place(&self, number: u64) -> Option<usize>
        ensures { result ≡ place_at (spots_of self.now) number }
    {
        match self.heap.as_slice().get(number as usize) {
            Some(cell) => cell.place,
            None => None,
        }
    }

    /// Gives an object that isn't exposed the next place, for which there is room.
    #[tactic(auto, using(crate::proofs::Room::room_less))]
    pub fn expose(&mut self, number: u64, printed: bool) -> usize
        ensures place { result ≡ length self.old.exposed.items }
        ensures shown { HasRoom self.old 1 → IsExposed self.old self.new (place_spot (length self.old.exposed.items) (spots_of self.old) number) (self.old.exposed.items ++ record { number = number; printed = printed } ∷ []) }
        ensures room { (count : ℕ) → HasRoom self.old (count + 1) → HasRoom self.new count }
    {
        let place = self.exposed.len();
        let _ = self.exposed.push(Exposed { number, printed });
        place_cell(&mut self.heap, number as usize, place);
        place
    }

    /// Notes that an exposed object has been printed.
    #[tactic(auto, using(crate::proofs::Room::room_same))]
    pub fn print(&mut self, place: usize)
        ensures shown { IsExposed self.old self.new (spots_of self.old) (print_at self.old.exposed.items place) }
        ensures room { (count : ℕ) → HasRoom self.old count → HasRoom self.new count }
    {
        mark_printed(&mut self.exposed, place);
    }
}
