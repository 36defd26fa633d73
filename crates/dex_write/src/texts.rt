//! The strings and types of a program by their numbers.

ghost use Rattle.std.specs.Prelude.{◌≡◌, slice_get};
ghost use Rattle.program_model.specs.MemberRules.{field_letter, name_of_method};
ghost use Rattle.program_model.specs.Texts.{string_text, type_text, first_unit, letter_of};

use program_model::Program;

/// The units of a string, none where there is no such string.
fn string_units(program: &Program, number: u32) -> &[u16]
    ensures { result.now ≡ string_text program.now number }
{
    match program.strings.items.get(number as usize) {
        Some(text) => text.units(),
        None => &[],
    }
}

/// The units of a type's descriptor, none where there is no such type.
#[tactic(auto, unfolding(program_model::specs::Texts::type_text))]
fn type_units(program: &Program, kind: u32) -> &[u16]
    ensures { result.now ≡ type_text program.now kind }
{
    match program.types.items.get(kind as usize) {
        Some(string) => string_units(program, *string),
        None => &[],
    }
}

/// The first unit of a text, 0 where it has none.
fn first_unit(units: &[u16]) -> u16
    ensures { result ≡ first_unit units.now }
{
    match units {
        [first, ..] => *first,
        [] => 0,
    }
}

/// The letter that a type's descriptor begins with, 0 where there is none.
#[tactic(auto, unfolding(program_model::specs::Texts::letter_of))]
fn letter_of(program: &Program, kind: u32) -> u16
    ensures { result ≡ letter_of program.now kind }
{
    first_unit(type_units(program, kind))
}

/// The letter of a field's type.
pub fn field_letter(program: &Program, field: u32) -> u16
    ensures { result ≡ field_letter program.now (slice_get program.now.fields field) }
{
    match program.fields.items.get(field as usize) {
        Some(name) => letter_of(program, name.kind),
        None => 0,
    }
}

/// The units of a method's name.
fn method_units(program: &Program, method: u32) -> &[u16]
    ensures { result.now ≡ name_of_method program.now (slice_get program.now.methods method) }
{
    match program.methods.items.get(method as usize) {
        Some(name) => string_units(program, name.name),
        None => &[],
    }
}

/// The unit that a method's name begins with, 0 where there is none.
pub fn method_letter(program: &Program, method: u32) -> u16
    ensures { result ≡ first_unit (name_of_method program.now (slice_get program.now.methods method)) }
{
    first_unit(method_units(program, method))
}
