//! The strings and types of a program by their numbers.

ghost use Rattle.std.specs.Prelude.{◌≡◌};
ghost use Rattle.program_model.specs.Texts.{has_string, has_type, has_proto, has_field, has_method, string_text, type_text, first_unit, letter_of, is_void, is_class, is_reference, is_wide};

use crate::program::Program;

/// Whether there is a string of this number.
pub(crate) fn has_string(program: &Program, number: u32) -> bool
    ensures { result ≡ has_string program.now number }
{
    (number as usize) < program.strings.len()
}

/// Whether there is a type of this number.
pub(crate) fn has_type(program: &Program, number: u32) -> bool
    ensures { result ≡ has_type program.now number }
{
    (number as usize) < program.types.len()
}

/// Whether there is a proto of this number.
pub(crate) fn has_proto(program: &Program, number: u32) -> bool
    ensures { result ≡ has_proto program.now number }
{
    (number as usize) < program.protos.len()
}

/// Whether there is a field of this number.
pub(crate) fn has_field(program: &Program, number: u32) -> bool
    ensures { result ≡ has_field program.now number }
{
    (number as usize) < program.fields.len()
}

/// Whether there is a method of this number.
pub(crate) fn has_method(program: &Program, number: u32) -> bool
    ensures { result ≡ has_method program.now number }
{
    (number as usize) < program.methods.len()
}

/// The units of a string, none where there is no such string.
pub(crate) fn string_units(program: &Program, number: u32) -> &[u16]
    ensures { result.now ≡ string_text program.now number }
{
    match program.strings.items.get(number as usize) {
        Some(text) => text.units(),
        None => &[],
    }
}

/// The units of a type's descriptor, none where there is no such type.
#[tactic(auto, unfolding(crate::specs::Texts::type_text))]
pub(crate) fn type_units(program: &Program, kind: u32) -> &[u16]
    ensures { result.now ≡ type_text program.now kind }
{
    match program.types.items.get(kind as usize) {
        Some(string) => string_units(program, *string),
        None => &[],
    }
}

/// The first unit of a text, 0 where it has none.
pub(crate) fn first_unit(units: &[u16]) -> u16
    ensures { result ≡ first_unit units.now }
{
    match units {
        [first, ..] => *first,
        [] => 0,
    }
}

/// The letter that a type's descriptor begins with, 0 where there is none.
#[tactic(auto, unfolding(crate::specs::Texts::letter_of))]
pub(crate) fn letter_of(program: &Program, kind: u32) -> u16
    ensures { result ≡ letter_of program.now kind }
{
    first_unit(type_units(program, kind))
}

/// Whether the letter is that of no type of a value: `V`.
pub(crate) fn is_void(letter: u16) -> bool
    ensures { result ≡ is_void letter }
{
    letter == 86
}

/// Whether the letter is that of a class: `L`.
pub(crate) fn is_class(letter: u16) -> bool
    ensures { result ≡ is_class letter }
{
    letter == 76
}

/// Whether the letter is that of a class or an array: `L` or `[`.
pub(crate) fn is_reference(letter: u16) -> bool
    ensures { result ≡ is_reference letter }
{
    letter == 76 || letter == 91
}

/// Whether the letter is that of a value in two registers: `J` or `D`.
pub(crate) fn is_wide(letter: u16) -> bool
    ensures { result ≡ is_wide letter }
{
    letter == 74 || letter == 68
}
