//! Methods that their names tell: constructors, and those that every object answers to, `equals`, `hashCode`, `toString`,
//! `clone` and `finalize` of `java.lang.Object`.

ghost use Rattle.std.specs.Prelude.{◌≡◌, ◌∷◌, [], Some, codes};
ghost use Rattle.class_defs.specs.Members.{is_common, types_are, proto_is};
ghost use Rattle.call_graph.specs.Bases.{same_text, object_text};
ghost use Rattle.call_graph.specs.Common.{common_of};

use crate::bases::{descriptor_of, is_object_text, units_of};
use program_model::{MethodName, Program, Proto};

/// Whether a method of this name is a constructor.
pub fn is_constructor(units: &[u16]) -> bool
    ensures { result ≡ same_text units.now (codes "<init>") }
{
    let name: [u16; 6] = [60, 105, 110, 105, 116, 62];
    units == name.as_slice()
}

fn is_equals(units: &[u16]) -> bool
    ensures { result ≡ same_text units.now (codes "equals") }
{
    let name: [u16; 6] = [101, 113, 117, 97, 108, 115];
    units == name.as_slice()
}

fn is_hash_code(units: &[u16]) -> bool
    ensures { result ≡ same_text units.now (codes "hashCode") }
{
    let name: [u16; 8] = [104, 97, 115, 104, 67, 111, 100, 101];
    units == name.as_slice()
}

fn is_to_string(units: &[u16]) -> bool
    ensures { result ≡ same_text units.now (codes "toString") }
{
    let name: [u16; 8] = [116, 111, 83, 116, 114, 105, 110, 103];
    units == name.as_slice()
}

fn is_clone(units: &[u16]) -> bool
    ensures { result ≡ same_text units.now (codes "clone") }
{
    let name: [u16; 5] = [99, 108, 111, 110, 101];
    units == name.as_slice()
}

fn is_finalize(units: &[u16]) -> bool
    ensures { result ≡ same_text units.now (codes "finalize") }
{
    let name: [u16; 8] = [102, 105, 110, 97, 108, 105, 122, 101];
    units == name.as_slice()
}

fn is_boolean(units: &[u16]) -> bool
    ensures { result ≡ same_text units.now (codes "Z") }
{
    let name: [u16; 1] = [90];
    units == name.as_slice()
}

fn is_int(units: &[u16]) -> bool
    ensures { result ≡ same_text units.now (codes "I") }
{
    let name: [u16; 1] = [73];
    units == name.as_slice()
}

fn is_void(units: &[u16]) -> bool
    ensures { result ≡ same_text units.now (codes "V") }
{
    let name: [u16; 1] = [86];
    units == name.as_slice()
}

fn is_string(units: &[u16]) -> bool
    ensures { result ≡ same_text units.now (codes "Ljava/lang/String;") }
{
    let name: [u16; 18] = [
        76, 106, 97, 118, 97, 47, 108, 97, 110, 103, 47, 83, 116, 114, 105, 110, 103, 59,
    ];
    units == name.as_slice()
}

/// Whether there are no parameters.
fn takes_nothing(program: &Program, parameters: &[u32]) -> bool
    ensures { result ≡ types_are program.now parameters.now [] }
{
    match parameters {
        [] => true,
        [..] => false,
    }
}

/// Whether the one parameter is an object.
fn takes_object(program: &Program, parameters: &[u32]) -> bool
    ensures { result ≡ types_are program.now parameters.now (object_text ∷ []) }
{
    match parameters {
        [] => false,
        [only, rest @ ..] => {
            is_object_text(descriptor_of(program, *only)) && takes_nothing(program, rest)
        }
    }
}

/// Whether a proto takes an object and gives a boolean.
fn is_comparison(program: &Program, proto: &Proto) -> bool
    ensures { result ≡ proto_is program.now (object_text ∷ []) (codes "Z") (Some proto.now) }
{
    is_boolean(descriptor_of(program, proto.result))
        && takes_object(program, proto.parameters.as_slice())
}

/// Whether a proto takes nothing and gives an int.
fn gives_int(program: &Program, proto: &Proto) -> bool
    ensures { result ≡ proto_is program.now [] (codes "I") (Some proto.now) }
{
    is_int(descriptor_of(program, proto.result))
        && takes_nothing(program, proto.parameters.as_slice())
}

/// Whether a proto takes nothing and gives a text.
fn gives_string(program: &Program, proto: &Proto) -> bool
    ensures { result ≡ proto_is program.now [] (codes "Ljava/lang/String;") (Some proto.now) }
{
    is_string(descriptor_of(program, proto.result))
        && takes_nothing(program, proto.parameters.as_slice())
}

/// Whether a proto takes nothing and gives an object.
fn gives_object(program: &Program, proto: &Proto) -> bool
    ensures { result ≡ proto_is program.now [] object_text (Some proto.now) }
{
    is_object_text(descriptor_of(program, proto.result))
        && takes_nothing(program, proto.parameters.as_slice())
}

/// Whether a proto takes nothing and gives nothing.
fn gives_nothing(program: &Program, proto: &Proto) -> bool
    ensures { result ≡ proto_is program.now [] (codes "V") (Some proto.now) }
{
    is_void(descriptor_of(program, proto.result))
        && takes_nothing(program, proto.parameters.as_slice())
}

/// Whether every object answers to a method of this name and proto.
fn is_common_of(program: &Program, units: &[u16], proto: &Proto) -> bool
    ensures { result ≡ common_of program.now units.now (Some proto.now) }
{
    (is_equals(units) && is_comparison(program, proto))
        || (is_hash_code(units) && gives_int(program, proto))
        || (is_to_string(units) && gives_string(program, proto))
        || (is_clone(units) && gives_object(program, proto))
        || (is_finalize(units) && gives_nothing(program, proto))
}

/// Whether every object answers to a method of this name.
pub fn is_common(program: &Program, name: &MethodName) -> bool
    ensures { result ≡ is_common program.now name.now.name name.now.proto }
{
    match program.protos.as_slice().get(name.proto as usize) {
        Some(proto) => is_common_of(program, units_of(program, name.name), proto),
        None => false,
    }
}
