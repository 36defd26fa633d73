//! Whether the methods that a program names are those of classes and arrays.

ghost use Rattle.std.specs.Prelude.{◌≡◌};
ghost use Rattle.program_model.specs.Texts.{letter_of};
ghost use Rattle.insn_regs.specs.Wides.{is_wide_type};
ghost use Rattle.compact.specs.Narrow.{has_narrow_classes};

use program_model::Program;

/// The unit that a type's descriptor begins with, 0 where there is none.
#[tactic(auto, unfolding(program_model::specs::Texts::type_text, program_model::specs::Texts::letter_of))]
fn letter_of(program: &Program, kind: u32) -> u16
    ensures { result ≡ letter_of program.now kind }
{
    match program.types.items.get(kind as usize) {
        Some(string) => match program.strings.items.get(*string as usize) {
            Some(text) => match text.units() {
                [first, ..] => *first,
                [] => 0,
            },
            None => 0,
        },
        None => 0,
    }
}

/// Whether a value of the type takes two registers: `J` or `D`.
fn is_wide_type(program: &Program, kind: u32) -> bool
    ensures { result ≡ is_wide_type program.now kind }
{
    let letter = letter_of(program, kind);
    letter == 74 || letter == 68
}

/// Whether no method of a wide type is named. What [`apply`](crate::apply) leaves of a program is typed where this holds: a
/// call of such a method would read one half of a wide as its receiver. The format names methods of classes and arrays alone
/// (Dalvik executable format, "method_id_item"), so this fails only for a file that breaks it.
pub fn has_narrow_classes(program: &Program) -> bool
    ensures { result ≡ has_narrow_classes program.now }
{
    program
        .methods
        .as_slice()
        .iter()
        .all(|method| !is_wide_type(program, method.class))
}
