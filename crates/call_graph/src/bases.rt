//! The program classes that types are, or are arrays of (Dalvik executable format, "TypeDescriptor").

ghost use Rattle.std.specs.Prelude.{◌≡◌, List, ℕ, ◌<◌, ◌≤◌, ◌^◌, length, drop, IfOk, None};
ghost use Rattle.program_model.specs.Texts.{string_text, type_text};
ghost use Rattle.call_graph.specs.Bases.{without_brackets, last_named, bases_of, kind_of, or_none, same_text, object_text, object_number};

use indexmap::IndexMap;
use program_model::Program;
use std::alloc::{AllocError, Global};

/// Stands for no type.
pub const NONE: u32 = u32::MAX;

/// The units of a string number, none past the table.
pub fn units_of(program: &Program, string: u32) -> &[u16]
    ensures { result.now ≡ string_text program.now string }
{
    match program.strings.as_slice().get(string as usize) {
        Some(text) => text.units(),
        None => &[],
    }
}

/// The descriptor of a type number, empty past the table.
#[tactic(auto, unfolding(program_model::specs::Texts::type_text))]
pub fn descriptor_of(program: &Program, kind: u32) -> &[u16]
    ensures { result.now ≡ type_text program.now kind }
{
    match program.types.as_slice().get(kind as usize) {
        Some(string) => units_of(program, *string),
        None => &[],
    }
}

/// How many brackets a descriptor begins with.
fn depth_of(units: &[u16]) -> usize
    ensures within { result ≤ length units.now }
    ensures rest { drop result units.now ≡ without_brackets units.now }
{
    let mut depth: usize = 0;
    for unit in units {
        if *unit != 91 {
            return depth;
        }
        depth += 1;
    }
    depth
}

/// A descriptor without its leading brackets.
fn without_brackets(units: &[u16]) -> &[u16]
    ensures { result.now ≡ without_brackets units.now }
{
    let depth = depth_of(units);
    &units[depth..]
}

/// The types that the program defines, by their descriptors.
fn defined<'a>(alloc: Global, program: &'a Program) -> Result<IndexMap<&'a [u16], u32>, AllocError>
    ensures { IfOk result (λ kinds. (t : List ℕ) → kind_of kinds t ≡ last_named program.now t None program.now.classes) }
{
    let mut kinds: IndexMap<&'a [u16], u32> = IndexMap::new(alloc);
    for class in program.classes.as_slice() {
        kinds.insert(descriptor_of(program, class.name), class.name)?;
    }
    Ok(kinds)
}

/// The type in a table of types by their descriptors.
fn base_in(kinds: &IndexMap<&[u16], u32>, units: &[u16]) -> u32
    ensures { result ≡ or_none (kind_of kinds.now (without_brackets units.now)) }
{
    match kinds.get(&without_brackets(units)) {
        Some(kind) => *kind,
        None => NONE,
    }
}

/// For each type the type of the program class that it is, or that it is an array of.
pub fn bases(alloc: Global, program: &Program) -> Result<Vec<u32>, AllocError>
    ensures { IfOk result (λ bases. bases.items ≡ bases_of program.now) }
{
    let kinds = defined(alloc, program)?;
    let mut bases = Vec::new(alloc);
    for string in program.types.as_slice() {
        bases.push(base_in(&kinds, units_of(program, *string)))?;
    }
    Ok(bases)
}

/// Whether the units are `Ljava/lang/Object;`.
pub fn is_object_text(units: &[u16]) -> bool
    ensures { result ≡ same_text units.now object_text }
{
    let name: [u16; 18] = [
        76, 106, 97, 118, 97, 47, 108, 97, 110, 103, 47, 79, 98, 106, 101, 99, 116, 59,
    ];
    units == name.as_slice()
}

/// The number of the type `Ljava/lang/Object;`, if the program names it.
pub fn object_kind(program: &Program) -> u32
    ensures { length program.now.types < 2 ^ 32 → result ≡ object_number program.now }
{
    let mut place: usize = 0;
    for string in program.types.as_slice() {
        if is_object_text(units_of(program, *string)) {
            return word(place);
        }
        place += 1;
    }
    NONE
}

/// Whether the type is `Ljava/lang/Object;`.
pub fn is_object(program: &Program, kind: u32) -> bool
    ensures { result ≡ same_text (type_text program.now kind) object_text }
{
    is_object_text(descriptor_of(program, kind))
}

/// A place as a number of 32 bits.
pub fn word(place: usize) -> u32
    ensures { place < 2 ^ 32 → result ≡ place }
{
    if place < 4294967296 {
        place as u32
    } else {
        u32::MAX
    }
}
