//! Which classes list a type.

ghost use Rattle.std.specs.Prelude.{◌≡◌, ◌<◌, ◌^◌, [], length, replicate, IfOk, OnOk};
ghost use Rattle.hierarchy.specs.Touring.{add_to, add_to_all};
ghost use Rattle.receivers.specs.Listing.{kinds_above, AreListed};

use program_model::Class;
use seq::Seq;
use std::alloc::{AllocError, Global};

/// A length or a place as a number of 32 bits.
pub(crate) fn word(n: usize) -> u32
    ensures { n < 2 ^ 32 → result ≡ n }
{
    if n < u32::MAX as usize {
        n as u32
    } else {
        u32::MAX
    }
}

/// So many empty rows.
fn empty_rows(alloc: Global, count: usize) -> Result<Seq<Seq<u32>>, AllocError>
    ensures { IfOk result (λ rows. rows ≡ replicate count []) }
{
    let mut rows = Seq::new(alloc);
    for _ in 0..count {
        rows.push(Seq::new(alloc))?;
    }
    Ok(rows)
}

/// Adds a class to the row of a type, unless there is no such type.
fn add(rows: &mut [Seq<u32>], kind: u32, class: u32) -> Result<(), AllocError>
    ensures { OnOk result (rows.new ≡ add_to rows.old kind class) }
{
    let at = kind as usize;
    if at < rows.len() {
        rows[at].push(class)?;
    }
    Ok(())
}

/// Adds a class to the row of each of some types.
fn add_all(rows: &mut [Seq<u32>], kinds: &[u32], class: u32) -> Result<(), AllocError>
    ensures { OnOk result (rows.new ≡ add_to_all rows.old kinds.now class) }
{
    for kind in kinds {
        add(rows, *kind, class)?;
    }
    Ok(())
}

/// Adds a class to the rows of its superclass and of its interfaces.
fn note(rows: &mut [Seq<u32>], class: &Class, place: u32) -> Result<(), AllocError>
    ensures { OnOk result (rows.new ≡ add_to_all rows.old (kinds_above class.now) place) }
{
    add(rows, class.superclass, place)?;
    add_all(rows, class.interfaces.as_slice(), place)
}

/// Adds a class to the rows of what it lists.
fn note_in(rows: &mut Seq<Seq<u32>>, class: &Class, place: u32) -> Result<(), AllocError>
    ensures { OnOk result (rows.new ≡ add_to_all rows.old (kinds_above class.now) place) }
{
    note(rows.items.as_mut_slice(), class, place)
}

/// For each of so many types the places of the classes that list it, as their superclass or among their interfaces.
pub(crate) fn listed_in(
    alloc: Global,
    classes: &[Class],
    kinds: usize,
) -> Result<Seq<Seq<u32>>, AllocError>
    ensures { length classes.now < 2 ^ 32 → IfOk result (λ rows. AreListed classes.now kinds rows (length classes.now)) }
{
    let mut rows = empty_rows(alloc, kinds)?;
    for place in 0..classes.len() {
        note_in(&mut rows, &classes[place], word(place))?;
    }
    Ok(rows)
}
