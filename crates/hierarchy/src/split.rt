//! Methods that repeat a package-private method of a superclass in another package.
//!
//! Each class has a map, which shares what it can with that of its superclass: by the key of a name and a proto, what is
//! known of the classes along its superclasses that have a package-private method with it.

ghost use Rattle.std.specs.Prelude.{◌≡◌, ◌≤◌, ◌<◌, ◌^◌, ◌&&◌, ℕ, List, Some, None, not, length, take, slice_get, slice_set, replicate, Option, IfOk, OnOk};
ghost use Rattle.std.specs.FinMap as finite;
ghost use Rattle.std.specs.Option.{option_copied};
ghost use Rattle.program_model.specs.declared.program.Program.{Program};
ghost use Rattle.class_defs.specs.ClassGraph.{package_of};
ghost use Rattle.class_defs.specs.Places.{super_place};
ghost use Rattle.hierarchy.specs.Climbing.{IsOrder};
ghost use Rattle.hierarchy.specs.Tables.{read_at};
ghost use Rattle.hierarchy.specs.Splitting.{package_at, same_package, is_hidden_by, methods_at, with_class, with_method, is_apart, TellsAll, HasMaps, map_of, SplitOf, FirstBy, AnswersSplit};

use crate::members::{is_virtual, key_of};
use crate::names::type_units;
use crate::table::{read, word};
use lattice_core::Flat;
use pat_map::PatMap;
use program_model::{Flags, Method, Program};
use std::alloc::{AllocError, Global};

/// How many units of a descriptor are its package: those up to the last `/`.
fn package_size(units: &[u16]) -> usize
    ensures front { take result units.now ≡ package_of units.now }
    ensures short { result ≤ length units.now }
{
    let mut size = 0;
    for (at, unit) in units.iter().enumerate() {
        if *unit == 47 {
            size = at + 1;
        }
    }
    size
}

/// The package of a descriptor: its units up to the last `/`.
fn package(units: &[u16]) -> &[u16]
    ensures { result.now ≡ package_of units.now }
{
    match units.get(..package_size(units)) {
        Some(front) => front,
        None => &[],
    }
}

/// The package of the class at a place, no units past the end.
fn package_at(program: &Program, class: u32) -> &[u16]
    ensures { result.now ≡ package_at program.now class }
{
    match program.classes.as_slice().get(class as usize) {
        Some(class) => package(type_units(program, class.name)),
        None => &[],
    }
}

/// Whether two classes are of one package.
fn same_package(program: &Program, a: u32, b: u32) -> bool
    ensures { result ≡ same_package program.now a b }
{
    package_at(program, a) == package_at(program, b)
}

/// Whether only classes of its package may override the method.
fn is_hidden(method: &Method, special: &[bool]) -> bool
    ensures { result ≡ is_hidden_by special.now method.now }
{
    is_virtual(method, special)
        && !method.flags.has(Flags::PUBLIC)
        && !method.flags.has(Flags::PROTECTED)
}

/// What is known with one class more.
fn with_class(program: &Program, known: Option<&Flat<u32>>, class: u32) -> Flat<u32>
    ensures { result ≡ with_class program.now (option_copied known.entry) class }
{
    match known {
        Some(Flat::Known(first)) => {
            if same_package(program, *first, class) {
                Flat::Known(*first)
            } else {
                Flat::Any
            }
        }
        Some(Flat::Bottom) | Some(Flat::Any) => Flat::Any,
        None => Flat::Known(class),
    }
}

/// Whether the class is of another package than one of those that are known.
fn is_apart(program: &Program, known: Option<&Flat<u32>>, class: u32) -> bool
    ensures { result ≡ is_apart program.now (option_copied known.entry) class }
{
    match known {
        Some(Flat::Known(first)) => !same_package(program, *first, class),
        Some(Flat::Bottom) | Some(Flat::Any) => true,
        None => false,
    }
}

/// The map with one class more at a key.
fn note(
    alloc: Global,
    program: &Program,
    map: &PatMap<Flat<u32>>,
    class: u32,
    key: u32,
) -> Result<PatMap<Flat<u32>>, AllocError>
    ensures { IfOk result (λ m. m ≡ finite.insert map.now key (with_class program.now (finite.get map.now key) class)) }
{
    let known = with_class(program, map.get(key), class);
    map.set(alloc, key, known)
}

/// The methods of the class at a place, none past the end.
fn methods_at(program: &Program, class: u32) -> &[Method]
    ensures { result.now ≡ methods_at program.now class }
{
    match program.classes.as_slice().get(class as usize) {
        Some(class) => class.methods.as_slice(),
        None => &[],
    }
}

/// The map with a method of a class, where only classes of its package may override it.
fn note_method(
    alloc: Global,
    program: &Program,
    keys: &[u32],
    special: &[bool],
    class: u32,
    method: &Method,
    map: PatMap<Flat<u32>>,
) -> Result<PatMap<Flat<u32>>, AllocError>
    ensures { IfOk result (λ m. m ≡ with_method program.now keys.now special.now class method.now map) }
{
    if is_hidden(method, special) {
        return note(alloc, program, &map, class, key_of(keys, method.name));
    }
    Ok(map)
}

/// The map of a class from that of its superclass: with each of its methods that only classes of its package may override.
fn note_all(
    alloc: Global,
    program: &Program,
    keys: &[u32],
    special: &[bool],
    class: u32,
    above: PatMap<Flat<u32>>,
) -> Result<PatMap<Flat<u32>>, AllocError>
    ensures { (o : Option ℕ) → super_place program.now class ≡ o → TellsAll program.now keys.now special.now o above → IfOk result (λ m. TellsAll program.now keys.now special.now (Some class) m) }
{
    let mut map = above;
    for method in methods_at(program, class) {
        map = note_method(alloc, program, keys, special, class, method, map)?;
    }
    Ok(map)
}

/// What is known of no class, for each of so many.
fn empty_maps(alloc: Global, classes: usize) -> Result<Vec<PatMap<Flat<u32>>>, AllocError>
    ensures { IfOk result (λ maps. maps.items ≡ replicate classes finite.empty) }
{
    let mut maps = Vec::new(alloc);
    for _ in 0..classes {
        maps.push(PatMap::empty())?;
    }
    Ok(maps)
}

/// The map of a class, the empty one past the end and where there is none.
fn map_of(maps: &[PatMap<Flat<u32>>], class: Option<u32>) -> Result<PatMap<Flat<u32>>, AllocError>
    ensures { IfOk result (λ m. m ≡ map_of maps.now class) }
{
    match class {
        Some(class) => match maps.get(class as usize) {
            Some(map) => map.share(),
            None => Ok(PatMap::empty()),
        },
        None => Ok(PatMap::empty()),
    }
}

/// Gives a class this map, unless it is past the end.
fn set_map(maps: &mut Vec<PatMap<Flat<u32>>>, class: u32, map: PatMap<Flat<u32>>)
    ensures { maps.new.items ≡ slice_set maps.old.items class map }
{
    let at = class as usize;
    if at < maps.len() {
        maps[at] = map;
    }
}

/// The map of each class. `order` has each class behind its superclass.
fn hidden_maps(
    alloc: Global,
    program: &Program,
    keys: &[u32],
    special: &[bool],
    supers: &[u32],
    order: &[u32],
) -> Result<Vec<PatMap<Flat<u32>>>, AllocError>
    ensures { (rows : List (List ℕ)) → ((c : ℕ) → read_at supers.now c ≡ super_place program.now c) → length supers.now ≡ length program.now.classes → IsOrder supers.now rows order.now → IfOk result (λ maps. HasMaps program.now keys.now special.now maps.items) }
{
    let mut maps = empty_maps(alloc, supers.len())?;
    for class in order {
        let above = map_of(maps.as_slice(), read(supers, *class))?;
        let map = note_all(alloc, program, keys, special, *class, above)?;
        set_map(&mut maps, *class, map);
    }
    Ok(maps)
}

/// The number of the first method of a class that repeats a package-private one of another package, by the map of its
/// superclass.
fn split_of(
    program: &Program,
    keys: &[u32],
    special: &[bool],
    class: u32,
    above: &PatMap<Flat<u32>>,
) -> Option<u32>
    ensures { SplitOf program.now keys.now special.now class above.now result }
{
    for method in methods_at(program, class) {
        if is_virtual(method, special)
            && is_apart(program, above.get(key_of(keys, method.name)), class)
        {
            return Some(method.name);
        }
    }
    None
}

/// The first class in file order with a split override, and the number of its first such method, by the maps.
fn first_by_maps(
    program: &Program,
    keys: &[u32],
    special: &[bool],
    supers: &[u32],
    maps: &[PatMap<Flat<u32>>],
) -> Result<Option<(u32, u32)>, AllocError>
    ensures { length supers.now < 2 ^ 32 → IfOk result (λ r. FirstBy program.now keys.now special.now supers.now maps.now r) }
{
    for class in 0..word(supers.len()) {
        let above = map_of(maps, read(supers, class))?;
        if let Some(method) = split_of(program, keys, special, class, &above) {
            return Ok(Some((class, method)));
        }
    }
    Ok(None)
}

/// The first class in file order that has a virtual method which repeats the name and proto of a package-private
/// virtual method of a superclass in another package, and the number of the first such method. `keys` and `special` are
/// of the method numbers, and `order` has each class behind its superclass.
pub fn first_split(
    alloc: Global,
    program: &Program,
    keys: &[u32],
    special: &[bool],
    supers: &[u32],
    order: &[u32],
) -> Result<Option<(u32, u32)>, AllocError>
    ensures { (rows : List (List ℕ)) → length supers.now < 2 ^ 32 → ((c : ℕ) → read_at supers.now c ≡ super_place program.now c) → length supers.now ≡ length program.now.classes → IsOrder supers.now rows order.now → IfOk result (λ r. AnswersSplit program.now keys.now special.now supers.now r) }
{
    let maps = hidden_maps(alloc, program, keys, special, supers, order)?;
    first_by_maps(program, keys, special, supers, maps.as_slice())
}
