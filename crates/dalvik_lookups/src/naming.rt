//! Names as texts.

ghost use Rattle.std.specs.Prelude.{◌≡◌, ◌++◌, ◌<◌, [], Some, length, map, codes, slice_get, IfOk, OnOk};
ghost use Rattle.program_model.specs.declared.pools.MethodName.{MethodName};
ghost use Rattle.std.specs.List.{concat};
ghost use Rattle.dalvik_defs.specs.Names.{constructor_name, proto_text, text_eq, texts_eq, signature_eq, object_type, void};
ghost use Rattle.dalvik_defs.specs.Naming.{text_at, type_at, signature_at, method_at, field_at};
ghost use Rattle.dalvik_lookups.specs.Tables.{IsRight};
ghost use Rattle.dalvik_lookups.specs.Views.{type_text, text_of};
ghost use Rattle.dalvik_lookups.specs.Spelling.{signature_of, spelled, is_constructor};

use crate::known::{NAMES, OBJECT};
use crate::lookups::{Lookups, units_at};
use crate::types::Kind;
use dex_base::Text;
use program_model::{MethodName, Program, Proto};
use std::alloc::{AllocError, Global};

/// The units of the text of a string number, none past the table.
fn text_at(program: &Program, string: u32) -> &[u16]
    ensures { result.now ≡ text_at program.now string }
{
    units_at(program.strings.as_slice(), string)
}

/// The descriptor of a type number, none past the table.
pub(crate) fn descriptor_of(program: &Program, kind: u32) -> &[u16]
    ensures { result.now ≡ type_at program.now kind }
{
    match program.types.as_slice().get(kind as usize) {
        Some(string) => text_at(program, *string),
        None => &[],
    }
}

/// The units of the name of a method number, none past the table.
fn method_units(program: &Program, method: u32) -> &[u16]
    ensures { result.now ≡ (method_at program.now method).name }
{
    match program.methods.as_slice().get(method as usize) {
        Some(name) => text_at(program, name.name),
        None => &[],
    }
}

/// The units of the name of a field number, none past the table.
fn field_units(program: &Program, field: u32) -> &[u16]
    ensures { result.now ≡ (field_at program.now field).name }
{
    match program.fields.as_slice().get(field as usize) {
        Some(name) => text_at(program, name.name),
        None => &[],
    }
}

/// Whether the units are `<init>`.
fn is_init(units: &[u16]) -> bool
    ensures { result ≡ text_eq units.now (codes "<init>") }
{
    let name: [u16; 6] = [60, 105, 110, 105, 116, 62];
    units == name.as_slice()
}

/// Whether a method is a constructor.
pub(crate) fn is_constructor(program: &Program, method: &MethodName) -> bool
    ensures { result ≡ text_eq (text_at program.now method.now.name) constructor_name }
{
    is_init(text_at(program, method.name))
}

/// Whether the units are `V`.
fn is_void(units: &[u16]) -> bool
    ensures { result ≡ text_eq units.now (codes "V") }
{
    let name: [u16; 1] = [86];
    units == name.as_slice()
}

/// Whether the units are `Ljava/lang/Object;`.
fn is_object(units: &[u16]) -> bool
    ensures { result ≡ text_eq units.now object_type }
{
    units == NAMES[OBJECT]
}

/// Whether there are no parameters.
fn takes_nothing(program: &Program, parameters: &[u32]) -> bool
    ensures { result ≡ texts_eq (map (type_at program.now) parameters.now) [] }
{
    match parameters {
        [] => true,
        [..] => false,
    }
}

/// Whether the proto takes nothing and gives nothing.
fn is_bare(program: &Program, proto: &Proto) -> bool
    ensures { result ≡ signature_eq (signature_of program.now proto.now) void }
{
    is_void(descriptor_of(program, proto.result))
        && takes_nothing(program, proto.parameters.as_slice())
}

/// Whether the proto of a number takes nothing and gives nothing.
fn takes_and_gives_nothing(program: &Program, proto: u32) -> bool
    ensures { result ≡ signature_eq (signature_at program.now proto) void }
{
    match program.protos.as_slice().get(proto as usize) {
        Some(found) => is_bare(program, found),
        None => false,
    }
}

/// Whether a method is the constructor of `Ljava/lang/Object;`.
fn is_object_constructor(program: &Program, method: &MethodName) -> bool
    ensures { result ≡ is_constructor program.now method.now }
{
    is_object(descriptor_of(program, method.class))
        && is_init(text_at(program, method.name))
        && takes_and_gives_nothing(program, method.proto)
}

/// For each method number whether it is the constructor of `Ljava/lang/Object;`.
pub(crate) fn object_constructors(alloc: Global, program: &Program) -> Result<Vec<bool>, AllocError>
    ensures { IfOk result (λ marks. marks.items ≡ map (is_constructor program.now) program.now.methods) }
{
    let mut marks = Vec::new(alloc);
    for method in program.methods.as_slice() {
        marks.push(is_object_constructor(program, method))?;
    }
    Ok(marks)
}

/// Appends the descriptors of types.
fn spell_types(program: &Program, types: &[u32], out: &mut Vec<u16>) -> Result<(), AllocError>
    ensures { OnOk result (out.new.items ≡ out.old.items ++ concat (map (type_at program.now) types.now)) }
{
    for one in types {
        out.extend_from_slice(descriptor_of(program, *one))?;
    }
    Ok(())
}

/// Appends what a proto spells: its parameters between parentheses, and its result.
pub(crate) fn spell(program: &Program, proto: &Proto, out: &mut Vec<u16>) -> Result<(), AllocError>
    ensures { OnOk result (out.new.items ≡ out.old.items ++ proto_text (signature_of program.now proto.now)) }
{
    out.push(40)?;
    spell_types(program, proto.parameters.as_slice(), out)?;
    out.push(41)?;
    out.extend_from_slice(descriptor_of(program, proto.result))?;
    Ok(())
}

/// Appends what the proto of a number spells, nothing past the table.
pub(crate) fn spell_proto(
    program: &Program,
    proto: u32,
    out: &mut Vec<u16>,
) -> Result<(), AllocError>
    ensures { OnOk result (out.new.items ≡ out.old.items ++ spelled program.now (slice_get program.now.protos proto)) }
{
    if let Some(found) = program.protos.as_slice().get(proto as usize) {
        spell(program, found, out)?;
    }
    Ok(())
}

/// What the proto of a number spells, nothing past the table.
fn spelled_text(alloc: Global, program: &Program, proto: u32) -> Result<Text, AllocError>
    ensures { IfOk result (λ t. t ≡ spelled program.now (slice_get program.now.protos proto)) }
{
    let mut units = Vec::new(alloc);
    spell_proto(program, proto, &mut units)?;
    Ok(Text::from_vec(units))
}

impl<'a> Lookups<'a> {
    /// The descriptor of a type.
    pub fn kind_text(&self, alloc: Global, kind: Kind) -> Result<Text, AllocError>
        ensures { IfOk result (λ t. t ≡ type_text self.now.types kind) }
    {
        let mut units = Vec::new(alloc);
        self.types.spell(kind, &mut units)?;
        Ok(Text::from_vec(units))
    }

    /// The text with a number.
    pub fn literal_text(&self, alloc: Global, number: usize) -> Result<Text, AllocError>
        ensures { IfOk result (λ t. t ≡ text_of self.now.texts number) }
    {
        let text = Text::from_units(alloc, self.texts.text(number))?;
        Ok(text)
    }

    /// The name of a method number.
    pub fn method_text(&self, alloc: Global, method: u32) -> Result<Text, AllocError>
        ensures { IfOk result (λ t. t ≡ (method_at self.now.program.now method).name) }
    {
        let text = Text::from_units(alloc, method_units(self.program, method))?;
        Ok(text)
    }

    /// The proto of a method number, as events spell it.
    pub fn proto_text(&self, alloc: Global, method: u32) -> Result<Text, AllocError>
        ensures entry { (q : MethodName) → slice_get self.now.program.now.methods method ≡ Some q → IfOk result (λ t. t ≡ spelled self.now.program.now (slice_get self.now.program.now.protos q.proto)) }
        ensures is { IsRight self.now → method < length self.now.program.now.methods → IfOk result (λ t. t ≡ proto_text (method_at self.now.program.now method).signature) }
    {
        match self.method_name(method) {
            Some(name) => {
                let text = spelled_text(alloc, self.program, name.proto)?;
                Ok(text)
            }
            None => Ok(Text::from_vec(Vec::new(alloc))),
        }
    }

    /// The name of a field number.
    pub fn field_text(&self, alloc: Global, field: u32) -> Result<Text, AllocError>
        ensures { IfOk result (λ t. t ≡ (field_at self.now.program.now field).name) }
    {
        let text = Text::from_units(alloc, field_units(self.program, field))?;
        Ok(text)
    }
}
