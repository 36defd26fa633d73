//! What the types of a program are, by their texts (Dalvik executable format, "TypeDescriptor").

ghost use Rattle.std.specs.Prelude.{◌≡◌, ◌<◌, ◌≤◌, List, ℕ, Some, None, length, cond, map, IfOk, OnOk};
ghost use Rattle.std.specs.Option.{option_or};
ghost use Rattle.program_model.specs.Texts.{string_text, type_text};
ghost use Rattle.verify.specs.Descriptors.{same_text, number_of, number_or, class_named, item_named, item_number, plain_at, base_shape, shape_named, without_brackets, object_text, AreNamed};

use crate::shapes::{Shape, base_shape, depth_of, without_brackets};
use crate::tables::word;
use indexmap::IndexMap;
use program_model::{Flags, Program};
use std::alloc::{AllocError, Global};

/// The places of a program's classes by their descriptors, and the type numbers by what stands behind the brackets of
/// their descriptors: the first of each text.
#[derive(Drop)]
pub struct Named<'a> {
    places: IndexMap<&'a [u16], u32>,
    items: IndexMap<&'a [u16], u32>,
}

/// The units of a string, none past the end.
pub fn units_of(program: &Program, string: u32) -> &[u16]
    ensures { result.now ≡ string_text program.now string }
{
    match program.strings.as_slice().get(string as usize) {
        Some(text) => text.units(),
        None => &[],
    }
}

/// The units of a type's descriptor.
#[tactic(auto, unfolding(program_model::specs::Texts::type_text))]
fn descriptor(program: &Program, kind: u32) -> &[u16]
    ensures { result.now ≡ type_text program.now kind }
{
    match program.types.as_slice().get(kind as usize) {
        Some(string) => units_of(program, *string),
        None => &[],
    }
}

/// The number that a text has in a table.
fn number_of(numbers: &IndexMap<&[u16], u32>, text: &[u16]) -> Option<u32>
    ensures { result ≡ number_of numbers.now text.now }
{
    match numbers.get(&text) {
        Some(number) => Some(*number),
        None => None,
    }
}

/// Gives a text a number, unless it has one.
fn give<'a>(
    numbers: &mut IndexMap<&'a [u16], u32>,
    text: &'a [u16],
    number: u32,
) -> Result<(), AllocError>
    ensures { OnOk result ((t : List ℕ) → number_of numbers.new t ≡ option_or (number_of numbers.old t) (cond (same_text text.now t) (Some number) None)) }
{
    if let None = number_of(numbers, text) {
        numbers.insert(text, number)?;
    }
    Ok(())
}

/// The places of the classes.
fn places<'a>(alloc: Global, program: &'a Program) -> Result<IndexMap<&'a [u16], u32>, AllocError>
    ensures { IfOk result (λ numbers. (t : List ℕ) → number_of numbers t ≡ class_named program.now t) }
{
    let mut numbers: IndexMap<&'a [u16], u32> = IndexMap::new(alloc);
    let mut at: u32 = 0;
    for class in program.classes.as_slice() {
        give(&mut numbers, descriptor(program, class.name), at)?;
        at = at.saturating_add(1);
    }
    Ok(numbers)
}

/// The type numbers by what stands behind the brackets.
fn items<'a>(alloc: Global, program: &'a Program) -> Result<IndexMap<&'a [u16], u32>, AllocError>
    ensures { IfOk result (λ numbers. (t : List ℕ) → number_of numbers t ≡ item_named program.now t) }
{
    let mut numbers: IndexMap<&'a [u16], u32> = IndexMap::new(alloc);
    let mut at: u32 = 0;
    for string in program.types.as_slice() {
        give(
            &mut numbers,
            without_brackets(units_of(program, *string)),
            at,
        )?;
        at = at.saturating_add(1);
    }
    Ok(numbers)
}

/// Whether a program class is no interface.
fn plain_at(program: &Program, place: Option<u32>) -> bool
    ensures { result ≡ plain_at program.now place }
{
    match place {
        Some(place) => match program.classes.as_slice().get(place as usize) {
            Some(class) => !class.flags.has(Flags::INTERFACE),
            None => false,
        },
        None => false,
    }
}

/// A number that there may be, or one that nothing has.
fn number_or(number: Option<u32>) -> u32
    ensures { result ≡ number_or number }
{
    match number {
        Some(number) => number,
        None => u32::MAX,
    }
}

impl<'a> Named<'a> {
    /// The classes and types of a program by their texts.
    pub fn make(alloc: Global, program: &'a Program) -> Result<Named<'a>, AllocError>
        ensures { IfOk result (AreNamed program.now) }
    {
        Ok(Named {
            places: places(alloc, program)?,
            items: items(alloc, program)?,
        })
    }

    /// What a descriptor without brackets is.
    fn base_shape(&self, program: &Program, text: &[u16]) -> Shape
        requires { AreNamed program.now self.now }
        ensures { result ≡ base_shape program.now text.now }
    {
        let place = number_of(&self.places, text);
        base_shape(text, place, plain_at(program, place))
    }

    /// The least type number with the same text behind its brackets.
    fn item(&self, program: &Program, text: &[u16]) -> u32
        requires { AreNamed program.now self.now }
        ensures { result ≡ item_number program.now text.now }
    {
        number_or(number_of(&self.items, text))
    }

    /// What a descriptor is.
    fn shape(&self, program: &Program, units: &[u16]) -> Shape
        requires { AreNamed program.now self.now }
        ensures { result ≡ shape_named program.now units.now }
    {
        let depth = depth_of(units);
        let base = without_brackets(units);
        if depth == 0 {
            self.base_shape(program, base)
        } else {
            Shape::Array {
                depth: word(depth),
                item: self.item(program, base),
            }
        }
    }

    /// What each type is without its brackets.
    pub fn bases(&self, alloc: Global, program: &Program) -> Result<Vec<Shape>, AllocError>
        requires { AreNamed program.now self.now }
        ensures { IfOk result (λ shapes. shapes.items ≡ map (λ s. base_shape program.now (without_brackets (string_text program.now s))) program.now.types) }
    {
        let mut shapes = Vec::new(alloc);
        for string in program.types.as_slice() {
            shapes.push(self.base_shape(program, without_brackets(units_of(program, *string))))?;
        }
        Ok(shapes)
    }

    /// The least type number with the base of each type.
    pub fn items(&self, alloc: Global, program: &Program) -> Result<Vec<u32>, AllocError>
        requires { AreNamed program.now self.now }
        ensures { IfOk result (λ items. items.items ≡ map (λ s. item_number program.now (without_brackets (string_text program.now s))) program.now.types) }
    {
        let mut items = Vec::new(alloc);
        for string in program.types.as_slice() {
            items.push(self.item(program, without_brackets(units_of(program, *string))))?;
        }
        Ok(items)
    }

    /// What each type is.
    pub fn shapes(&self, alloc: Global, program: &Program) -> Result<Vec<Shape>, AllocError>
        requires { AreNamed program.now self.now }
        ensures { IfOk result (λ shapes. shapes.items ≡ map (λ s. shape_named program.now (string_text program.now s)) program.now.types) }
    {
        let mut shapes = Vec::new(alloc);
        for string in program.types.as_slice() {
            shapes.push(self.shape(program, units_of(program, *string)))?;
        }
        Ok(shapes)
    }

    /// The least type number whose type, without its brackets, is `Ljava/lang/Object;`.
    pub fn object(&self, _program: &Program) -> Option<u32>
        requires { AreNamed _program.now self.now }
        ensures { result ≡ item_named _program.now object_text }
    {
        let name: [u16; 18] = [
            76, 106, 97, 118, 97, 47, 108, 97, 110, 103, 47, 79, 98, 106, 101, 99, 116, 59,
        ];
        number_of(&self.items, name.as_slice())
    }
}
