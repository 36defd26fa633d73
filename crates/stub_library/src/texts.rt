//! The texts of strings, types and protos (Dalvik executable format, "string_data_item", "TypeDescriptor").

ghost use Rattle.std.specs.Prelude.{◌≡◌, ◌++◌, ◌∷◌, flat_map, slice_get, IfOk, OnOk};
ghost use Rattle.program_model.specs.Texts.{string_text, type_text};
ghost use Rattle.program_model.specs.MemberRules.{is_object, name_of_method};
ghost use Rattle.stub_library.specs.Stubs.{proto_text};

use program_model::{Program, Proto};
use std::alloc::{AllocError, Global};

/// The units of the text with this number, none where there is no such text.
pub fn string_units(program: &Program, string: u32) -> &[u16]
    ensures { result.now ≡ string_text program.now string }
{
    match program.strings.items.get(string as usize) {
        Some(text) => text.units(),
        None => &[],
    }
}

/// The units of a type's descriptor, none where there is no such type.
#[tactic(auto, unfolding(program_model::specs::Texts::type_text))]
pub fn type_units(program: &Program, kind: u32) -> &[u16]
    ensures { result.now ≡ type_text program.now kind }
{
    match program.types.items.get(kind as usize) {
        Some(string) => string_units(program, *string),
        None => &[],
    }
}

/// The units of the method's name, none where there is no such method.
pub fn name_units(program: &Program, method: u32) -> &[u16]
    ensures { result.now ≡ name_of_method program.now (slice_get program.now.methods method) }
{
    match program.methods.items.get(method as usize) {
        Some(named) => string_units(program, named.name),
        None => &[],
    }
}

/// Whether the units are `Ljava/lang/Object;`.
pub fn is_object(units: &[u16]) -> bool
    ensures { result ≡ is_object units.now }
{
    let object: [u16; 18] = [
        76, 106, 97, 118, 97, 47, 108, 97, 110, 103, 47, 79, 98, 106, 101, 99, 116, 59,
    ];
    units == object.as_slice()
}

/// Adds the units of the types' descriptors.
fn push_types(units: &mut Vec<u16>, program: &Program, kinds: &[u32]) -> Result<(), AllocError>
    ensures { OnOk result (units.new.items ≡ units.old.items ++ flat_map (type_text program.now) kinds.now) }
{
    for kind in kinds {
        units.extend_from_slice(type_units(program, *kind))?;
    }
    Ok(())
}

/// Adds the units of a proto: `(PARAMETERS)RESULT`.
fn push_proto(units: &mut Vec<u16>, program: &Program, proto: &Proto) -> Result<(), AllocError>
    ensures { OnOk result (units.new.items ≡ units.old.items ++ 40 ∷ (flat_map (type_text program.now) proto.now.parameters ++ 41 ∷ type_text program.now proto.now.result)) }
{
    units.push(0x28)?;
    push_types(units, program, proto.parameters.as_slice())?;
    units.push(0x29)?;
    units.extend_from_slice(type_units(program, proto.result))?;
    Ok(())
}

/// The units of a proto: `(PARAMETERS)RESULT`, none where there is no such proto.
pub fn proto_units(alloc: Global, program: &Program, proto: u32) -> Result<Vec<u16>, AllocError>
    ensures { IfOk result (λ units. units.items ≡ proto_text program.now proto) }
{
    let mut units = Vec::new(alloc);
    if let Some(proto) = program.protos.items.get(proto as usize) {
        push_proto(&mut units, program, proto)?;
    }
    Ok(units)
}
