//! The order of the classes: each directly behind those of its superclass and interfaces that were not written yet.

ghost use Rattle.std.specs.Prelude.{◌≡◌, ◌++◌, [], suc, reverse, slice_get, slice_set, option_to_list, true, if◌then◌else◌, IfNone, IfOk, OnOk};
ghost use Rattle.dex_write.specs.Order.{with_place, place_of, ArePlaces, kinds_above, above, is_fresh, visit, pushed, written, begin_at, step_from, Drained, Asked, IsOrder, IsOnlyOrder};

use crate::numbers::word_of;
use program_model::{Class, Program};
use seq::Seq;
use std::alloc::{AllocError, Global};

/// A class on the way, and how many of the types above it were looked at.
#[derive(Clone, Copy, Drop)]
struct Visit {
    class: usize,
    looked: usize,
}

/// What the search knows: which classes were begun, the classes on the way, and the order so far.
#[derive(Drop)]
struct Search {
    begun: Seq<bool>,
    way: Seq<Visit>,
    order: Seq<u32>,
}

/// Sets the place of a type's class, where it has none yet.
fn put_place(places: &mut Vec<u32>, none: u32, kind: u32, place: u32)
    ensures { places.new.items ≡ with_place none places.old.items kind place }
{
    if let Some(entry) = places.get_mut(kind as usize) {
        if *entry == none {
            *entry = place;
        }
    }
}

/// The place of the class that defines each type; the number of classes for none.
fn places_of(alloc: Global, program: &Program) -> Result<Vec<u32>, AllocError>
    ensures { IfOk result (λ v. ArePlaces program.now v.items) }
{
    let none = word_of(program.classes.len())?;
    let mut places = vec![in alloc; none; program.types.len()]?;
    for (place, class) in program.classes.as_slice().iter().enumerate() {
        put_place(&mut places, none, class.name, word_of(place)?);
    }
    Ok(places)
}

/// The type above a class at this place of its superclass and interfaces, none behind the last one.
fn type_above(class: &Class, place: usize) -> Option<u32>
    ensures { result ≡ slice_get (kinds_above class.now) place }
{
    if place == 0 {
        return Some(class.superclass);
    }
    class.interfaces.items.get(place - 1).copied()
}

/// The place of the class that defines a type; the number of classes for none.
fn place_at(program: &Program, places: &[u32], kind: u32) -> usize
    requires { ArePlaces program.now places.now }
    ensures { result ≡ place_of program.now kind }
{
    match places.get(kind as usize) {
        Some(place) => *place as usize,
        None => program.classes.len(),
    }
}

/// The class above one on the way that is to be looked at next, none where all were.
#[tactic(auto, unfolding(crate::specs::Order::above))]
fn next_above(program: &Program, places: &[u32], visit: Visit) -> Option<usize>
    requires { ArePlaces program.now places.now }
    ensures { result ≡ slice_get (above program.now visit.class) visit.looked }
{
    let class = program.classes.items.get(visit.class)?;
    let kind = type_above(class, visit.looked)?;
    Some(place_at(program, places, kind))
}

/// Notes that a class was begun. True where it was not yet.
fn note(begun: &mut Vec<bool>, class: usize) -> bool
    ensures fresh { result ≡ is_fresh begun.old.items class }
    ensures set { begun.new.items ≡ (if result then slice_set begun.old.items class true else begun.old.items) }
{
    let Some(entry) = begun.get_mut(class) else {
        return false;
    };
    if *entry {
        return false;
    }
    *entry = true;
    true
}

/// Puts a class on the way.
fn push_visit(search: &mut Search, class: usize, looked: usize) -> Result<(), AllocError>
    ensures { OnOk result (search.new ≡ pushed (visit class looked) search.old) }
{
    search.way.items.push(Visit { class, looked })?;
    Ok(())
}

/// Takes the last class from the way.
fn pop_visit(search: &mut Search) -> Option<Visit>
    ensures way { search.old.way ≡ search.new.way ++ option_to_list result }
    ensures none { IfNone result (search.old.way ≡ []) }
    ensures begun { search.new.begun ≡ search.old.begun }
    ensures order { search.new.order ≡ search.old.order }
{
    search.way.items.pop()
}

/// Writes a class.
fn write(search: &mut Search, class: usize) -> Result<(), AllocError>
    ensures { OnOk result (search.new ≡ written class search.old) }
{
    search.order.items.push(word_of(class)?)?;
    Ok(())
}

/// Begins a class, where it was not begun yet.
fn begin(search: &mut Search, class: usize) -> Result<(), AllocError>
    ensures { OnOk result (search.new ≡ begin_at class search.old) }
{
    if note(&mut search.begun.items, class) {
        return push_visit(search, class, 0);
    }
    Ok(())
}

/// The number behind another.
fn one_more(number: usize) -> Result<usize, AllocError>
    ensures { IfOk result (λ more. more ≡ suc number) }
{
    if number == usize::MAX {
        return Err(AllocError);
    }
    Ok(number + 1)
}

/// Looks at the next class above the one that was last on the way, or writes that one.
fn step(
    search: &mut Search,
    program: &Program,
    places: &[u32],
    visit: Visit,
) -> Result<(), AllocError>
    requires { ArePlaces program.now places.now }
    ensures { OnOk result (search.new ≡ step_from program.now visit search.old) }
{
    match next_above(program, places, visit) {
        Some(above) => {
            push_visit(search, visit.class, one_more(visit.looked)?)?;
            begin(search, above)
        }
        None => write(search, visit.class),
    }
}

/// Goes on until no class is on the way. A search of more than 2^64 steps is answered as want of memory.
fn drain(search: &mut Search, program: &Program, places: &[u32]) -> Result<(), AllocError>
    requires { ArePlaces program.now places.now }
    ensures { OnOk result (Drained program.now (reverse search.old.way) search.old search.new) }
{
    for _ in 0..u64::MAX {
        let Some(visit) = pop_visit(search) else {
            return Ok(());
        };
        step(search, program, places, visit)?;
    }
    Err(AllocError)
}

/// Writes a class and those above it that were not written yet.
fn ask(
    search: &mut Search,
    program: &Program,
    places: &[u32],
    class: usize,
) -> Result<(), AllocError>
    requires places { ArePlaces program.now places.now }
    requires empty { search.old.way ≡ [] }
    ensures { OnOk result (Asked program.now class search.old search.new) }
{
    begin(search, class)?;
    drain(search, program, places)
}

/// The places of the classes in the order in which they are written.
pub fn written_order(alloc: Global, program: &Program) -> Result<Vec<u32>, AllocError>
    ensures is { IfOk result (λ v. IsOrder program.now v.items) }
    ensures only { IfOk result (λ v. IsOnlyOrder program.now v.items) }
{
    let count = program.classes.len();
    let places = places_of(alloc, program)?;
    let mut search = Search {
        begun: Seq::of_vec(vec![in alloc; false; count]?),
        way: Seq::new(alloc),
        order: Seq::of_vec(Vec::with_capacity(alloc, count)?),
    };
    for class in 0..count {
        ask(&mut search, program, &places, class)?;
    }
    let Search { order, .. } = search;
    Ok(order.into_vec())
}
