//! Which classes stand directly above and below a class.

ghost use Rattle.std.specs.Prelude.{◌≡◌, ◌<◌, ◌^◌, ◌++◌, [], length, map, replicate, IfOk, OnOk, slice_index_or};
ghost use Rattle.class_defs.specs.Finding.{beside};
ghost use Rattle.hierarchy.specs.Placing.{known_places};
ghost use Rattle.hierarchy.specs.Tables.{row_of};
ghost use Rattle.hierarchy.specs.Touring.{add_to, add_to_all, IsBelow};

use crate::table::{read, word};
use program_model::Class;
use seq::Seq;
use std::alloc::{AllocError, Global};

/// A list of numbers for each place.
#[derive(Drop)]
pub struct Links {
    pub rows: Seq<Seq<u32>>,
}

impl Links {
    /// The list of a place, empty past the end.
    pub fn row(&self, place: u32) -> &[u32]
        ensures { result.now ≡ row_of self.now.rows place }
    {
        match self.rows.as_slice().get(place as usize) {
            Some(row) => row.as_slice(),
            None => &[],
        }
    }

    /// How many numbers all lists have.
    pub fn size(&self) -> usize {
        let mut size: usize = 0;
        for row in self.rows.as_slice() {
            size = size.saturating_add(row.len());
        }
        size
    }
}

/// The place of the program superclass of each class.
pub fn superclasses(
    alloc: Global,
    classes: &[Class],
    places: &[u32],
) -> Result<Vec<u32>, AllocError>
    ensures { IfOk result (λ supers. supers.items ≡ map (λ c. slice_index_or places.now c.superclass 4294967295) classes.now) }
{
    let mut supers = Vec::new(alloc);
    for class in classes {
        supers.push(number_or_none(places, class.superclass))?;
    }
    Ok(supers)
}

/// The number at a place, none past the end.
fn number_or_none(table: &[u32], place: u32) -> u32
    ensures { result ≡ slice_index_or table.now place 4294967295 }
{
    match table.get(place as usize) {
        Some(value) => *value,
        None => crate::table::NONE,
    }
}

/// The places of those of the types that the program defines, in order.
fn places_among(alloc: Global, kinds: &[u32], places: &[u32]) -> Result<Seq<u32>, AllocError>
    ensures { IfOk result (λ among. among ≡ known_places places.now kinds.now) }
{
    let mut among = Seq::new(alloc);
    for kind in kinds {
        if let Some(place) = read(places, *kind) {
            among.push(place)?;
        }
    }
    Ok(among)
}

/// The places of the program interfaces that each class lists, in its order.
pub fn interfaces(alloc: Global, classes: &[Class], places: &[u32]) -> Result<Links, AllocError>
    ensures { IfOk result (λ lists. lists.rows ≡ map (λ c. known_places places.now c.interfaces) classes.now) }
{
    let mut rows = Seq::new(alloc);
    for class in classes {
        rows.push(places_among(alloc, class.interfaces.as_slice(), places)?)?;
    }
    Ok(Links { rows })
}

/// So many empty lists.
pub fn empty_rows(alloc: Global, count: usize) -> Result<Links, AllocError>
    ensures { IfOk result (λ links. links.rows ≡ replicate count []) }
{
    let mut rows = Seq::new(alloc);
    for _ in 0..count {
        rows.push(Seq::new(alloc))?;
    }
    Ok(Links { rows })
}

/// Adds a number to the list at a place, unless the place is past the end.
fn push_at(rows: &mut [Seq<u32>], place: u32, number: u32) -> Result<(), AllocError>
    ensures { OnOk result (rows.new ≡ add_to rows.old place number) }
{
    let at = place as usize;
    if at < rows.len() {
        rows[at].push(number)?;
    }
    Ok(())
}

impl Links {
    /// Adds a number to the list of a place, unless the place is past the end.
    pub fn add(&mut self, place: u32, number: u32) -> Result<(), AllocError>
        ensures { OnOk result (self.new.rows ≡ add_to self.old.rows place number) }
    {
        push_at(self.rows.items.as_mut_slice(), place, number)
    }
}

/// Adds a class to the list of its superclass, where it has one.
fn note_super(below: &mut Links, class: u32, above: Option<u32>) -> Result<(), AllocError>
    ensures { OnOk result (below.new.rows ≡ add_to_all below.old.rows (beside above) class) }
{
    match above {
        Some(superclass) => below.add(superclass, class),
        None => Ok(()),
    }
}

/// Adds a class to the list of each of some places.
pub fn note_all(below: &mut Links, class: u32, list: &[u32]) -> Result<(), AllocError>
    ensures { OnOk result (below.new.rows ≡ add_to_all below.old.rows list.now class) }
{
    for up in list {
        below.add(*up, class)?;
    }
    Ok(())
}

/// The places of the classes directly below each class, in file order. One that lists an interface twice stands there
/// twice.
pub fn subclasses(alloc: Global, supers: &[u32], lists: &Links) -> Result<Links, AllocError>
    ensures { length supers.now < 2 ^ 32 → IfOk result (λ below. IsBelow supers.now lists.now.rows below.rows (length supers.now)) }
{
    let mut below = empty_rows(alloc, supers.len())?;
    for place in 0..word(supers.len()) {
        note_super(&mut below, place, read(supers, place))?;
        note_all(&mut below, place, lists.row(place))?;
    }
    Ok(below)
}
