//! Which methods a caller may reach.

ghost use Rattle.std.specs.Prelude.{◌≡◌, ◌≤◌, length, take};
ghost use Rattle.std.specs.Option.{option_copied};
ghost use Rattle.program_model.specs.Texts.{string_text, type_text};
ghost use Rattle.class_defs.specs.ClassGraph.{package_of};
ghost use Rattle.devirt.specs.Reach.{is_beside, reaches, reaches_in};

use program_model::{Class, Flags, Method, Program};

/// How many units of a descriptor are its package: those up to the last `/`.
fn package_size(units: &[u16]) -> usize
    ensures front { take result units.now ≡ package_of units.now }
    ensures short { result ≤ length units.now }
{
    let mut size = 0;
    for (at, unit) in units.iter().enumerate() {
        if *unit == 47 {
            size = at + 1;
        }
    }
    size
}

/// The package of a descriptor: its units up to the last `/`.
fn package(units: &[u16]) -> &[u16]
    ensures { result.now ≡ package_of units.now }
{
    match units.get(..package_size(units)) {
        Some(front) => front,
        None => &[],
    }
}

/// The units of a string, none past the table.
fn text_units(program: &Program, string: u32) -> &[u16]
    ensures { result.now ≡ string_text program.now string }
{
    match program.strings.as_slice().get(string as usize) {
        Some(text) => text.units(),
        None => &[],
    }
}

/// The units of a type's descriptor, none where there is no such type.
#[tactic(auto, unfolding(program_model::specs::Texts::type_text))]
fn units_of(program: &Program, kind: u32) -> &[u16]
    ensures { result.now ≡ type_text program.now kind }
{
    match program.types.as_slice().get(kind as usize) {
        Some(string) => text_units(program, *string),
        None => &[],
    }
}

/// Whether two classes are of one package.
fn is_beside(program: &Program, one: &Class, other: &Class) -> bool
    ensures { result ≡ is_beside program.now one.now other.now }
{
    package(units_of(program, one.name)) == package(units_of(program, other.name))
}

/// Whether code of a class may reach a method of another one: that class and the method are public, or both classes are of
/// one package.
fn reaches(program: &Program, caller: &Class, class: &Class, method: &Method) -> bool
    ensures { result ≡ reaches program.now caller.now class.now method.now }
{
    class.flags.has(Flags::PUBLIC) && method.flags.has(Flags::PUBLIC)
        || is_beside(program, caller, class)
}

/// Whether code of a class, if there is one, may reach a method of another one.
pub(crate) fn may_reach(
    program: &Program,
    caller: Option<&Class>,
    class: Option<&Class>,
    method: &Method,
) -> bool
    ensures { result ≡ reaches_in program.now (option_copied caller.entry) (option_copied class.entry) method.now }
{
    match (caller, class) {
        (Some(caller), Some(class)) => reaches(program, caller, class, method),
        _ => false,
    }
}
