//! The texts of strings and types, and those that mean something by themselves.

ghost use Rattle.std.specs.Prelude.{◌≡◌, codes};
ghost use Rattle.std.specs.Cmp.Lexicographic.{pointwise};
ghost use Rattle.std.specs.Prelude.{nat_eq};
ghost use Rattle.program_model.specs.MemberRules.{is_object};
ghost use Rattle.program_model.specs.Texts.{string_text, type_text};
ghost use Rattle.class_defs.specs.Members.{string_is};

use program_model::Program;

/// The units of a string, none past the table.
pub(crate) fn string_units(program: &Program, string: u32) -> &[u16]
    ensures { result.now ≡ string_text program.now string }
{
    match program.strings.as_slice().get(string as usize) {
        Some(text) => text.units(),
        None => &[],
    }
}

/// The units of a type's descriptor, none past the table.
#[tactic(auto, unfolding(program_model::specs::Texts::type_text))]
pub(crate) fn type_units(program: &Program, kind: u32) -> &[u16]
    ensures { result.now ≡ type_text program.now kind }
{
    match program.types.as_slice().get(kind as usize) {
        Some(string) => string_units(program, *string),
        None => &[],
    }
}

/// Whether the units are `Ljava/lang/Object;`.
pub(crate) fn is_object(units: &[u16]) -> bool
    ensures { result ≡ is_object units.now }
{
    let object: [u16; 18] = [
        76, 106, 97, 118, 97, 47, 108, 97, 110, 103, 47, 79, 98, 106, 101, 99, 116, 59,
    ];
    units == object.as_slice()
}

/// Whether the units are `<init>`.
fn is_init(units: &[u16]) -> bool
    ensures { result ≡ pointwise nat_eq units.now (codes "<init>") }
{
    let name: [u16; 6] = [60, 105, 110, 105, 116, 62];
    units == name.as_slice()
}

/// Whether a string is the name of constructors.
pub(crate) fn is_constructor_name(program: &Program, string: u32) -> bool
    ensures { result ≡ string_is program.now string (codes "<init>") }
{
    is_init(string_units(program, string))
}
