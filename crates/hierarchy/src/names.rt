//! Names that mean something by themselves: those that begin with `<`, and the five methods of `Ljava/lang/Object;`
//! that the framework may call on every object.

ghost use Rattle.std.specs.Prelude.{◌≡◌, ◌+◌, length, map, IfOk};
ghost use Rattle.std.specs.Prelude.{◌<◌, ◌^◌, [], ◌∷◌, ℕ, true, false, Some, None, nat_eq, codes, cond, slice_get, slice_set, replicate};
ghost use Rattle.std.specs.Cmp.Lexicographic.{pointwise};
ghost use Rattle.program_model.specs.Texts.{first_unit, string_text, type_text};
ghost use Rattle.class_defs.specs.Members.{types_are, proto_is, is_common};
ghost use Rattle.class_defs.specs.Starts.{is_initialiser, runs, initialiser_of};
ghost use Rattle.hierarchy.specs.Membership.{method_pair, AreKeys};
ghost use Rattle.hierarchy.specs.Naming.{is_special, common_by, AreCommon};

use crate::members::key_of;
use crate::table::{turn, word};
use program_model::{Class, Flags, Method, MethodName, Program, Proto};
use std::alloc::{AllocError, Global};

/// The units of the text of a string number, none past the table.
fn units_of(program: &Program, string: u32) -> &[u16]
    ensures { result.now ≡ string_text program.now string }
{
    match program.strings.as_slice().get(string as usize) {
        Some(text) => text.units(),
        None => &[],
    }
}

/// The first unit, 0 where there is none.
fn first_unit(units: &[u16]) -> u16
    ensures { result ≡ first_unit units.now }
{
    match units.first() {
        Some(unit) => *unit,
        None => 0,
    }
}

/// Whether the method's name begins with `<`.
fn is_special(program: &Program, method: &MethodName) -> bool
    ensures { result ≡ is_special program.now method.now }
{
    first_unit(units_of(program, method.name)) == 60
}

/// For each method number whether its name begins with `<`.
pub fn special(alloc: Global, program: &Program) -> Result<Vec<bool>, AllocError>
    ensures { IfOk result (λ marks. marks.items ≡ map (is_special program.now) program.now.methods) }
{
    let mut marks = Vec::new(alloc);
    for method in program.methods.as_slice() {
        marks.push(is_special(program, method))?;
    }
    Ok(marks)
}

/// The units of the descriptor of a type number, none past the table.
#[tactic(auto, unfolding(program_model::specs::Texts::type_text))]
pub fn type_units(program: &Program, kind: u32) -> &[u16]
    ensures { result.now ≡ type_text program.now kind }
{
    match program.types.as_slice().get(kind as usize) {
        Some(string) => units_of(program, *string),
        None => &[],
    }
}

/// Whether the units are `<clinit>`.
fn is_clinit(units: &[u16]) -> bool
    ensures { result ≡ pointwise nat_eq units.now (codes "<clinit>") }
{
    let name: [u16; 8] = [60, 99, 108, 105, 110, 105, 116, 62];
    units == name.as_slice()
}

/// Whether the units are `V`.
fn is_void(units: &[u16]) -> bool
    ensures { result ≡ pointwise nat_eq units.now (codes "V") }
{
    let name: [u16; 1] = [86];
    units == name.as_slice()
}

/// Whether there are no parameters.
fn takes_nothing(program: &Program, parameters: &[u32]) -> bool
    ensures { result ≡ types_are program.now parameters.now [] }
{
    match parameters {
        [] => true,
        [..] => false,
    }
}

/// Whether the proto takes nothing and gives nothing.
fn is_bare_proto(program: &Program, proto: &Proto) -> bool
    ensures { result ≡ proto_is program.now [] (codes "V") (Some proto.now) }
{
    is_void(type_units(program, proto.result))
        && takes_nothing(program, proto.parameters.as_slice())
}

/// Whether the proto of a number takes nothing and gives nothing.
fn is_bare(program: &Program, proto: u32) -> bool
    ensures { result ≡ proto_is program.now [] (codes "V") (slice_get program.now.protos proto) }
{
    match program.protos.as_slice().get(proto as usize) {
        Some(found) => is_bare_proto(program, found),
        None => false,
    }
}

/// Whether the method is named `<clinit>`, takes nothing and gives nothing.
fn is_initialiser(program: &Program, method: &Method) -> bool
    ensures { result ≡ is_initialiser program.now method.now }
{
    match program.methods.as_slice().get(method.name as usize) {
        Some(name) => { is_clinit(units_of(program, name.name)) && is_bare(program, name.proto) }
        None => false,
    }
}

/// Whether the units are `Z`.
fn is_boolean(units: &[u16]) -> bool
    ensures { result ≡ pointwise nat_eq units.now (codes "Z") }
{
    let name: [u16; 1] = [90];
    units == name.as_slice()
}

/// Whether the units are `I`.
fn is_int(units: &[u16]) -> bool
    ensures { result ≡ pointwise nat_eq units.now (codes "I") }
{
    let name: [u16; 1] = [73];
    units == name.as_slice()
}

/// Whether the units are `Ljava/lang/Object;`.
fn is_object(units: &[u16]) -> bool
    ensures { result ≡ pointwise nat_eq units.now (codes "Ljava/lang/Object;") }
{
    let name: [u16; 18] = [
        76, 106, 97, 118, 97, 47, 108, 97, 110, 103, 47, 79, 98, 106, 101, 99, 116, 59,
    ];
    units == name.as_slice()
}

/// Whether the units are `Ljava/lang/String;`.
fn is_string(units: &[u16]) -> bool
    ensures { result ≡ pointwise nat_eq units.now (codes "Ljava/lang/String;") }
{
    let name: [u16; 18] = [
        76, 106, 97, 118, 97, 47, 108, 97, 110, 103, 47, 83, 116, 114, 105, 110, 103, 59,
    ];
    units == name.as_slice()
}

/// Whether the units are `equals`.
fn is_equals(units: &[u16]) -> bool
    ensures { result ≡ pointwise nat_eq units.now (codes "equals") }
{
    let name: [u16; 6] = [101, 113, 117, 97, 108, 115];
    units == name.as_slice()
}

/// Whether the units are `hashCode`.
fn is_hash_code(units: &[u16]) -> bool
    ensures { result ≡ pointwise nat_eq units.now (codes "hashCode") }
{
    let name: [u16; 8] = [104, 97, 115, 104, 67, 111, 100, 101];
    units == name.as_slice()
}

/// Whether the units are `toString`.
fn is_to_string(units: &[u16]) -> bool
    ensures { result ≡ pointwise nat_eq units.now (codes "toString") }
{
    let name: [u16; 8] = [116, 111, 83, 116, 114, 105, 110, 103];
    units == name.as_slice()
}

/// Whether the units are `clone`.
fn is_clone(units: &[u16]) -> bool
    ensures { result ≡ pointwise nat_eq units.now (codes "clone") }
{
    let name: [u16; 5] = [99, 108, 111, 110, 101];
    units == name.as_slice()
}

/// Whether the units are `finalize`.
fn is_finalize(units: &[u16]) -> bool
    ensures { result ≡ pointwise nat_eq units.now (codes "finalize") }
{
    let name: [u16; 8] = [102, 105, 110, 97, 108, 105, 122, 101];
    units == name.as_slice()
}

/// Whether there is one parameter, an object of any class.
fn takes_object(program: &Program, parameters: &[u32]) -> bool
    ensures { result ≡ types_are program.now parameters.now (codes "Ljava/lang/Object;" ∷ []) }
{
    parameters.len() == 1 && is_object(type_units(program, parameters[0]))
}

/// Whether the proto takes an object and gives a boolean.
fn compares(program: &Program, proto: &Proto) -> bool
    ensures { result ≡ proto_is program.now (codes "Ljava/lang/Object;" ∷ []) (codes "Z") (Some proto.now) }
{
    is_boolean(type_units(program, proto.result))
        && takes_object(program, proto.parameters.as_slice())
}

/// Whether the proto takes nothing and gives an integer.
fn gives_int(program: &Program, proto: &Proto) -> bool
    ensures { result ≡ proto_is program.now [] (codes "I") (Some proto.now) }
{
    is_int(type_units(program, proto.result)) && takes_nothing(program, proto.parameters.as_slice())
}

/// Whether the proto takes nothing and gives a string.
fn gives_string(program: &Program, proto: &Proto) -> bool
    ensures { result ≡ proto_is program.now [] (codes "Ljava/lang/String;") (Some proto.now) }
{
    is_string(type_units(program, proto.result))
        && takes_nothing(program, proto.parameters.as_slice())
}

/// Whether the proto takes nothing and gives an object.
fn gives_object(program: &Program, proto: &Proto) -> bool
    ensures { result ≡ proto_is program.now [] (codes "Ljava/lang/Object;") (Some proto.now) }
{
    is_object(type_units(program, proto.result))
        && takes_nothing(program, proto.parameters.as_slice())
}

/// Whether a name of these units with this proto is one of the five.
fn is_of_five(program: &Program, name: &[u16], proto: &Proto) -> bool
    ensures { result ≡ common_by program.now name.now (Some proto.now) }
{
    (is_equals(name) && compares(program, proto))
        || (is_hash_code(name) && gives_int(program, proto))
        || (is_to_string(name) && gives_string(program, proto))
        || (is_clone(name) && gives_object(program, proto))
        || (is_finalize(name) && is_bare_proto(program, proto))
}

/// Whether the method has the name and the proto of `equals`, `hashCode`, `toString`, `clone` or `finalize` of
/// `Ljava/lang/Object;`.
fn is_of_object(program: &Program, method: &MethodName) -> bool
    ensures { result ≡ is_common program.now method.now.name method.now.proto }
{
    match program.protos.as_slice().get(method.proto as usize) {
        Some(proto) => is_of_five(program, units_of(program, method.name), proto),
        None => false,
    }
}

/// Marks a place where it is one of the five.
fn note(marks: &mut [bool], key: u32, on: bool)
    ensures { marks.new ≡ cond on (slice_set marks.old key true) marks.old }
{
    if on {
        turn(marks, key, true);
    }
}

/// Marks the keys of those methods that are of the five.
fn note_all(program: &Program, methods: &[MethodName], keys: &[u32], marks: &mut [bool])
    ensures size { length marks.new ≡ length marks.old }
    ensures common { (count : ℕ) → AreKeys method_pair methods.now keys.now count → marks.old ≡ replicate count false → AreCommon program.now methods.now keys.now marks.new }
{
    for (number, method) in methods.iter().enumerate() {
        note(
            marks,
            key_of(keys, word(number)),
            is_of_object(program, method),
        );
    }
}

/// For each key of methods whether it is one of the five.
pub fn of_object(
    alloc: Global,
    program: &Program,
    keys: &[u32],
    count: usize,
) -> Result<Vec<bool>, AllocError>
    ensures { AreKeys method_pair program.now.methods keys.now count → IfOk result (λ marks. AreCommon program.now program.now.methods keys.now marks.items) }
{
    let mut marks = vec![in alloc; false; count]?;
    note_all(
        program,
        program.methods.as_slice(),
        keys,
        marks.as_mut_slice(),
    );
    Ok(marks)
}

/// Whether the method is static and has code.
fn runs(method: &Method) -> bool
    ensures { result ≡ runs (Some method.now) }
{
    method.flags.has(Flags::STATIC) && method.body.is_some()
}

/// The place of the first method that is named `<clinit>`, takes nothing and gives nothing, where it runs.
fn running(method: &Method, place: usize) -> Option<u32>
    ensures { place < 2 ^ 32 → result ≡ cond (runs (Some method.now)) (Some place) None }
{
    if runs(method) {
        Some(word(place))
    } else {
        None
    }
}

/// The place of the initialiser among the methods of a class: its static method with code that is named `<clinit>`, takes
/// nothing and gives nothing.
pub fn initialiser(program: &Program, class: &Class) -> Option<u32>
    ensures { length class.now.methods < 2 ^ 32 → result ≡ initialiser_of program.now (Some class.now) }
{
    for (place, method) in class.methods.as_slice().iter().enumerate() {
        if is_initialiser(program, method) {
            return running(method, place);
        }
    }
    None
}
