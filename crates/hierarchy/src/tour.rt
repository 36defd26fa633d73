//! Numbers of the classes by a tour of a forest.

ghost use Rattle.std.specs.Prelude.{◌≡◌, ◌<◌, ◌^◌, ℕ, Some, true, length, IfOk, slice_get, slice_index};
ghost use Rattle.std.specs.List.{range_with_len};
ghost use Rattle.hierarchy.specs.Touring.{IsNumbering};

use crate::links::Links;
use crate::table::{add, count_at, put, read, word};
use std::alloc::{AllocError, Global};

/// How many classes each tree has that is made of a class and all below it in the forest of these parents.
fn tree_sizes(alloc: Global, parents: &[u32], order: &[u32]) -> Result<Vec<u32>, AllocError> {
    let mut sizes = vec![in alloc; 1u32; parents.len()]?;
    for class in order.iter().rev() {
        if let Some(parent) = read(parents, *class) {
            let size = count_at(sizes.as_slice(), *class);
            add(sizes.as_mut_slice(), parent, size);
        }
    }
    Ok(sizes)
}

/// The number of each class in a tour of the forest of these parents that goes to a class before those below it, and to
/// a whole tree before what stands behind it.
fn tour(alloc: Global, parents: &[u32], order: &[u32]) -> Result<Vec<u32>, AllocError> {
    let sizes = tree_sizes(alloc, parents, order)?;
    let mut numbers = vec![in alloc; 0u32; parents.len()]?;
    let mut cursors = vec![in alloc; 0u32; parents.len()]?;
    let mut next: u32 = 0;
    for class in order {
        let size = count_at(sizes.as_slice(), *class);
        let number = match read(parents, *class) {
            Some(parent) => add(cursors.as_mut_slice(), parent, size),
            None => {
                let number = next;
                next = next.saturating_add(size);
                number
            }
        };
        put(numbers.as_mut_slice(), *class, number);
        put(cursors.as_mut_slice(), *class, number.saturating_add(1));
    }
    Ok(numbers)
}

/// The class with each number.
fn by_number(alloc: Global, numbers: &[u32]) -> Result<Vec<u32>, AllocError> {
    let mut classes = vec![in alloc; 0u32; numbers.len()]?;
    for (place, number) in numbers.iter().enumerate() {
        put(classes.as_mut_slice(), *number, word(place));
    }
    Ok(classes)
}

/// Whether the number at a place is the place of this number in another table.
fn is_back(back: &[u32], number: u32, place: usize) -> bool
    ensures { result ≡ true → slice_get back.now number ≡ Some place }
{
    match back.get(number as usize) {
        Some(there) => *there as usize == place,
        None => false,
    }
}

/// Whether a table leads back from each number of another to the number's place.
fn leads_back(numbers: &[u32], back: &[u32]) -> bool
    ensures { result ≡ true → (c : ℕ) → c < length numbers.now → slice_get back.now (slice_index numbers.now c) ≡ Some c }
{
    for (place, number) in numbers.iter().enumerate() {
        if !is_back(back, *number, place) {
            return false;
        }
    }
    true
}

/// The numbers below a count, each at its own place.
fn in_turn(alloc: Global, count: usize) -> Result<Vec<u32>, AllocError>
    ensures { count < 2 ^ 32 → IfOk result (λ numbers. numbers.items ≡ range_with_len 0 count) }
{
    let mut numbers = Vec::new(alloc);
    for number in 0..word(count) {
        numbers.push(number)?;
    }
    Ok(numbers)
}

/// The number of each class, and the class with each number.
#[derive(Drop)]
pub struct Numbering {
    pub numbers: Vec<u32>,
    pub classes: Vec<u32>,
}

/// Numbers of the classes by a tour of the forest of these parents. Numbers that were no numbering would give way to the
/// places of the classes.
pub fn number(alloc: Global, parents: &[u32], order: &[u32]) -> Result<Numbering, AllocError>
    ensures { length parents.now < 2 ^ 32 → IfOk result (λ tour. IsNumbering (length parents.now) tour.numbers.items tour.classes.items) }
{
    let numbers = tour(alloc, parents, order)?;
    let classes = by_number(alloc, numbers.as_slice())?;
    if is_numbering(parents.len(), numbers.as_slice(), classes.as_slice()) {
        return Ok(Numbering { numbers, classes });
    }
    Ok(Numbering {
        numbers: in_turn(alloc, parents.len())?,
        classes: in_turn(alloc, parents.len())?,
    })
}

/// Whether each of so many places has a number of its own, and each number its place.
fn is_numbering(count: usize, numbers: &[u32], classes: &[u32]) -> bool
    ensures { result ≡ true → IsNumbering count numbers.now classes.now }
{
    numbers.len() == count
        && classes.len() == count
        && leads_back(numbers, classes)
        && leads_back(classes, numbers)
}

/// The parent of each class in the forest of the tour: its superclass, else the first of its interfaces.
pub fn parents(alloc: Global, supers: &[u32], lists: &Links) -> Result<Vec<u32>, AllocError>
    ensures { IfOk result (λ parents. length parents.items ≡ length supers.now) }
{
    let mut parents = Vec::new(alloc);
    for (place, superclass) in supers.iter().enumerate() {
        let parent = match (read(supers, word(place)), lists.row(word(place))) {
            (Some(_), _) | (None, []) => *superclass,
            (None, [first, ..]) => *first,
        };
        parents.push(parent)?;
    }
    Ok(parents)
}
