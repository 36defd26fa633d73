//! The letters of types in short forms.

ghost use Rattle.std.specs.Prelude.{◌≡◌};
ghost use Rattle.program_model.specs.Texts.{string_text, type_text, first_unit};
ghost use Rattle.static_protos.specs.Tables.{letter_at};

use program_model::Program;

/// The units of a string, none past the table.
fn string_units(program: &Program, string: u32) -> &[u16]
    ensures { result.now ≡ string_text program.now string }
{
    match program.strings.as_slice().get(string as usize) {
        Some(text) => text.units(),
        None => &[],
    }
}

/// The units of a type's descriptor, none past the table.
#[tactic(auto, unfolding(program_model::specs::Texts::type_text))]
fn type_units(program: &Program, kind: u32) -> &[u16]
    ensures { result.now ≡ type_text program.now kind }
{
    match program.types.as_slice().get(kind as usize) {
        Some(string) => string_units(program, *string),
        None => &[],
    }
}

/// The unit that a text begins with, 0 where it has none.
fn first_unit(units: &[u16]) -> u16
    ensures { result ≡ first_unit units.now }
{
    match units.first() {
        Some(unit) => *unit,
        None => 0,
    }
}

/// The letter of a type in short forms: that of an object stands for arrays too.
#[tactic(auto, unfolding(program_model::specs::Texts::letter_of))]
pub(crate) fn letter(program: &Program, kind: u32) -> u16
    ensures { result ≡ letter_at program.now kind }
{
    let first = first_unit(type_units(program, kind));
    if first == 76 || first == 91 {
        76
    } else {
        first
    }
}
