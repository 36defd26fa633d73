//! The members that each class defines, by key.

ghost use Rattle.std.specs.Prelude.{◌≡◌, ℕ, ◌<◌, ◌^◌, List, map, length, IfOk, OnOk, Some, None, nat_eq, slice_get, slice_index_or, cond, ◌&&◌};
ghost use Rattle.std.specs.Option.{option_or};
ghost use Rattle.hierarchy.specs.Naming.{AreDefiners};
ghost use Rattle.hierarchy.specs.Membership.{found_in, key_at, IsIndex, AreShort, StandOnce, index_of_row, one_at, method_rows, field_rows, is_virtual_by};

use crate::links::{Links, empty_rows, note_all};
use crate::table::{NONE, is_on, word};
use indexmap::IndexMap;
use program_model::{Class, Flags, Method};
use seq::Seq;
use std::alloc::{AllocError, Global};

/// The place of the first member with each key of each class among the fields or the methods of the class.
#[derive(Drop)]
pub struct Members {
    places: IndexMap<(u32, u32), u32>,
}

impl Members {
    fn new(alloc: Global) -> Members
        ensures { (class key : ℕ) → found_in result class key ≡ None }
    {
        Members {
            places: IndexMap::new(alloc),
        }
    }

    /// The place of the first member of a class that has the key.
    pub fn find(&self, class: u32, key: u32) -> Option<u32>
        ensures { result ≡ found_in self.now class key }
    {
        self.places.get(&(class, key)).copied()
    }

    /// Adds a member, unless the class has one with the key.
    fn add(&mut self, class: u32, key: u32, place: u32) -> Result<(), AllocError>
        ensures { OnOk result ((c k : ℕ) → found_in self.new c k ≡ option_or (found_in self.old c k) (one_at class key place c k)) }
    {
        match self.find(class, key) {
            Some(_) => Ok(()),
            None => {
                self.places.insert((class, key), place)?;
                Ok(())
            }
        }
    }

    /// Adds the members of a class, which have these keys.
    fn add_class(&mut self, class: u32, keys: &[u32]) -> Result<(), AllocError>
        ensures { length keys.now < 2 ^ 32 → OnOk result ((c k : ℕ) → found_in self.new c k ≡ option_or (found_in self.old c k) (index_of_row class keys.now c k)) }
    {
        for (place, key) in keys.iter().enumerate() {
            self.add(class, *key, word(place))?;
        }
        Ok(())
    }
}

/// The members by these keys of the members of each class.
pub fn members_of(alloc: Global, rows: &Links) -> Result<Members, AllocError>
    ensures { AreShort rows.now.rows → IfOk result (λ members. IsIndex rows.now.rows members) }
{
    let mut members = Members::new(alloc);
    for (place, row) in rows.rows.as_slice().iter().enumerate() {
        members.add_class(word(place), row.as_slice())?;
    }
    Ok(members)
}

/// For each of so many keys the classes that define a member with it, in file order.
pub fn definers(alloc: Global, rows: &Links, count: usize) -> Result<Links, AllocError>
    ensures { AreShort rows.now.rows → StandOnce rows.now.rows → IfOk result (λ definers. AreDefiners rows.now.rows count definers.rows) }
{
    let mut definers = empty_rows(alloc, count)?;
    for (place, row) in rows.rows.as_slice().iter().enumerate() {
        note_all(&mut definers, word(place), row.as_slice())?;
    }
    Ok(definers)
}

/// The key of a number, none past the table.
pub fn key_of(keys: &[u32], number: u32) -> u32
    ensures { result ≡ key_at keys.now number }
{
    match keys.get(number as usize) {
        Some(key) => *key,
        None => NONE,
    }
}

/// The keys of the fields of a class.
fn keys_of_fields(alloc: Global, class: &Class, keys: &[u32]) -> Result<Seq<u32>, AllocError>
    ensures { IfOk result (λ row. row ≡ map (λ f. key_at keys.now f.name) class.now.fields) }
{
    let mut row = Seq::new(alloc);
    for field in class.fields.as_slice() {
        row.push(key_of(keys, field.name))?;
    }
    Ok(row)
}

/// The keys of the methods of a class.
fn keys_of_methods(alloc: Global, class: &Class, keys: &[u32]) -> Result<Seq<u32>, AllocError>
    ensures { IfOk result (λ row. row ≡ map (λ m. key_at keys.now m.name) class.now.methods) }
{
    let mut row = Seq::new(alloc);
    for method in class.methods.as_slice() {
        row.push(key_of(keys, method.name))?;
    }
    Ok(row)
}

/// The keys of the fields of each class, by these keys of the field numbers.
pub fn rows_of_fields(alloc: Global, classes: &[Class], keys: &[u32]) -> Result<Links, AllocError>
    ensures { IfOk result (λ rows. rows.rows ≡ field_rows keys.now classes.now) }
{
    let mut rows = Seq::new(alloc);
    for class in classes {
        rows.push(keys_of_fields(alloc, class, keys)?)?;
    }
    Ok(Links { rows })
}

/// The keys of the methods of each class, by these keys of the method numbers.
pub fn rows_of_methods(alloc: Global, classes: &[Class], keys: &[u32]) -> Result<Links, AllocError>
    ensures { IfOk result (λ rows. rows.rows ≡ method_rows keys.now classes.now) }
{
    let mut rows = Seq::new(alloc);
    for class in classes {
        rows.push(keys_of_methods(alloc, class, keys)?)?;
    }
    Ok(Links { rows })
}

/// Whether calls find the method by the class of their receiver: it is neither static, private nor special, as
/// `special` says by method number of the names that begin with `<`.
pub fn is_virtual(method: &Method, special: &[bool]) -> bool
    ensures { result ≡ is_virtual_by special.now method.now }
{
    !method.flags.has(Flags::STATIC)
        && !method.flags.has(Flags::PRIVATE)
        && !is_on(special, method.name)
}
