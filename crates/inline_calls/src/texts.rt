//! The texts of types, names and protos.

ghost use Rattle.std.specs.Prelude.{◌≡◌, ◌++◌, ◌∷◌, flat_map, codes, IfOk, OnOk};
ghost use Rattle.dalvik_defs.specs.Names.{text_eq};
ghost use Rattle.inline_calls.specs.Asked.{proto_text, signature_text};
ghost use Rattle.inline_calls.specs.Candidates.{name_units};
ghost use Rattle.program_model.specs.Texts.{string_text, type_text};

use dex_base::Text;
use program_model::{Program, Proto};
use std::alloc::{AllocError, Global};

/// The units of the text with this number, none where there is no such text.
pub fn string_units(program: &Program, string: u32) -> &[u16]
    ensures { result.now ≡ string_text program.now string }
{
    match program.strings.items.get(string as usize) {
        Some(text) => text.units(),
        None => &[],
    }
}

/// The units of a type's text, none where there is no such type.
#[tactic(auto, unfolding(program_model::specs::Texts::type_text))]
pub fn type_units(program: &Program, kind: u32) -> &[u16]
    ensures { result.now ≡ type_text program.now kind }
{
    match program.types.items.get(kind as usize) {
        Some(string) => string_units(program, *string),
        None => &[],
    }
}

/// The units of the name of a method, none where there is no such method.
pub fn name_units(program: &Program, method: u32) -> &[u16]
    ensures { result.now ≡ name_units program.now method }
{
    match program.methods.items.get(method as usize) {
        Some(named) => string_units(program, named.name),
        None => &[],
    }
}

/// Whether the units are `<init>`.
pub fn is_constructor_name(units: &[u16]) -> bool
    ensures { result ≡ text_eq units.now (codes "<init>") }
{
    let name: [u16; 6] = [60, 105, 110, 105, 116, 62];
    units == name.as_slice()
}

/// Adds the units of the types' texts.
fn push_types(units: &mut Vec<u16>, program: &Program, kinds: &[u32]) -> Result<(), AllocError>
    ensures { OnOk result (units.new.items ≡ units.old.items ++ flat_map (type_text program.now) kinds.now) }
{
    for kind in kinds {
        units.extend_from_slice(type_units(program, *kind))?;
    }
    Ok(())
}

/// Adds the units of a proto: `(PARAMETERS)RESULT`.
fn push_proto(units: &mut Vec<u16>, program: &Program, proto: &Proto) -> Result<(), AllocError>
    ensures { OnOk result (units.new.items ≡ units.old.items ++ 40 ∷ (flat_map (type_text program.now) proto.now.parameters ++ 41 ∷ type_text program.now proto.now.result)) }
{
    units.push(0x28)?;
    push_types(units, program, proto.parameters.as_slice())?;
    units.push(0x29)?;
    units.extend_from_slice(type_units(program, proto.result))?;
    Ok(())
}

/// The text of a proto, empty where there is no such proto.
fn proto_text(alloc: Global, program: &Program, proto: u32) -> Result<Text, AllocError>
    ensures { IfOk result (λ text. text ≡ proto_text program.now proto) }
{
    let mut units = Vec::new(alloc);
    if let Some(proto) = program.protos.items.get(proto as usize) {
        push_proto(&mut units, program, proto)?;
    }
    Ok(Text::from_vec(units))
}

/// The text of a method's proto, empty where there is none.
pub fn signature_text(alloc: Global, program: &Program, method: u32) -> Result<Text, AllocError>
    ensures { IfOk result (λ text. text ≡ signature_text program.now method) }
{
    match program.methods.items.get(method as usize) {
        Some(named) => Ok(proto_text(alloc, program, named.proto)?),
        None => Ok(Text::from_vec(Vec::new(alloc))),
    }
}
