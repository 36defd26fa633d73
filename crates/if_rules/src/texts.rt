//! What the wildcards of types, members and class names matched.

ghost use Rattle.std.specs.Prelude.{◌≡◌, ◌∷◌, ◌++◌, [], List, true, map, length, nat_lt, slice_get, IfOk, OnOk};
ghost use Rattle.dalvik_defs.specs.Naming.{text_at, type_at, field_at, method_at, signature_at};
ghost use Rattle.keep_rules.specs.Fits.{signature_of, has_signature};
ghost use Rattle.rule_text.specs.declared.pattern.Named.TheVariants as named;
ghost use Rattle.rule_text.specs.Related.{AreEach, IsPatternOf, IsItemOf, IsTypeOf, AreArgumentsOf, IsWhatOf};
ghost use Rattle.rule_text.specs.Rules as meant;
ghost use Rattle.rule_text.specs.Tokens.{Word};
ghost use Rattle.if_rules.specs.Lists.{lists_of};
ghost use Rattle.if_rules.specs.Matched.{java, item_texts, type_texts, types_texts, argument_texts, method_texts, field_texts, class_texts, name_texts};

use crate::globs::{behind_units, name_texts};
use crate::java::{inside, java};
use program_model::{FieldName, MethodName, Program, Proto};
use rule_text::{Arguments, ItemPattern, NamePattern, Named, TypePattern, What};
use std::alloc::{AllocError, Global};

/// The units of a string, none where the table has no such string.
fn string_units(program: &Program, string: u32) -> &[u16]
    ensures { result.now ≡ text_at program.now string }
{
    match program.strings.items.get(string as usize) {
        Some(text) => text.units(),
        None => &[],
    }
}

/// The descriptor of a type.
pub fn descriptor(program: &Program, kind: u32) -> &[u16]
    ensures { result.now ≡ type_at program.now kind }
{
    match program.types.items.get(kind as usize) {
        Some(string) => string_units(program, *string),
        None => &[],
    }
}

/// Adds the type as Java writes it.
#[tactic(auto, using(crate::proofs::Fills::lists_more))]
fn push_java(alloc: Global, descriptor: &[u16], out: &mut Vec<Vec<u16>>) -> Result<(), AllocError>
    ensures { OnOk result (lists_of out.new.items ≡ lists_of out.old.items ++ (java descriptor.now ∷ [])) }
{
    out.push(java(alloc, descriptor)?)?;
    Ok(())
}

/// Adds what the wildcards of an item matched.
fn item_texts(
    alloc: Global,
    item: &ItemPattern,
    descriptor: &[u16],
    row: &mut Vec<bool>,
    out: &mut Vec<Vec<u16>>,
) -> Result<(), AllocError>
    ensures { (w : Word) → IsItemOf item.now w → OnOk result (lists_of out.new.items ≡ lists_of out.old.items ++ item_texts w descriptor.now) }
{
    match item {
        ItemPattern::Any => push_java(alloc, descriptor, out),
        ItemPattern::Primitive => push_java(alloc, descriptor, out),
        ItemPattern::Letter(_) => Ok(()),
        ItemPattern::Class(pattern) => {
            name_texts(alloc, pattern, Named::Class, inside(descriptor), row, out)
        }
    }
}

/// Adds what the wildcards of a type matched.
fn type_texts(
    alloc: Global,
    kind: &TypePattern,
    descriptor: &[u16],
    row: &mut Vec<bool>,
    out: &mut Vec<Vec<u16>>,
) -> Result<(), AllocError>
    ensures { (w : Word) → IsTypeOf kind.now w → OnOk result (lists_of out.new.items ≡ lists_of out.old.items ++ type_texts w descriptor.now) }
{
    let item = behind_units(descriptor, kind.depth);
    item_texts(alloc, &kind.item, item, row, out)
}

/// Adds what the wildcards of the types of arguments matched, one for each.
fn types_texts(
    alloc: Global,
    patterns: &[TypePattern],
    program: &Program,
    kinds: &[u32],
    row: &mut Vec<bool>,
    out: &mut Vec<Vec<u16>>,
) -> Result<(), AllocError>
    ensures { (ws : List Word) → AreEach IsTypeOf patterns.now ws → OnOk result (lists_of out.new.items ≡ lists_of out.old.items ++ types_texts ws (map (type_at program.now) kinds.now)) }
{
    let mut left = patterns;
    let mut rest = kinds;
    while let [pattern, patterns_behind @ ..] = left {
        let [kind, kinds_behind @ ..] = rest else {
            return Ok(());
        };
        type_texts(alloc, pattern, descriptor(program, *kind), row, out)?;
        left = patterns_behind;
        rest = kinds_behind;
    }
    Ok(())
}

/// Adds what the wildcards of arguments matched.
fn argument_texts(
    alloc: Global,
    arguments: &Arguments,
    program: &Program,
    kinds: &[u32],
    row: &mut Vec<bool>,
    out: &mut Vec<Vec<u16>>,
) -> Result<(), AllocError>
    ensures { (a : meant.Arguments) → AreArgumentsOf arguments.now a → OnOk result (lists_of out.new.items ≡ lists_of out.old.items ++ argument_texts a (map (type_at program.now) kinds.now)) }
{
    match arguments {
        Arguments::Any => Ok(()),
        Arguments::These(patterns) => {
            types_texts(alloc, patterns.as_slice(), program, kinds, row, out)
        }
    }
}

/// Adds what the wildcards of a type and of a name behind it matched.
fn typed_texts(
    alloc: Global,
    kind: &TypePattern,
    name: &NamePattern,
    program: &Program,
    own: u32,
    string: u32,
    row: &mut Vec<bool>,
    out: &mut Vec<Vec<u16>>,
) -> Result<(), AllocError>
    ensures { (k w : Word) → IsTypeOf kind.now k → IsPatternOf name.now w
        → OnOk result (lists_of out.new.items ≡ lists_of out.old.items ++ (type_texts k (type_at program.now own) ++ name_texts named.Member w (text_at program.now string))) }
{
    type_texts(alloc, kind, descriptor(program, own), row, out)?;
    let units = string_units(program, string);
    name_texts(alloc, name, Named::Member, units, row, out)
}

/// Adds what the wildcards of a result, a name and arguments matched in a method of this name, with a proto.
fn member_texts(
    alloc: Global,
    kind: &TypePattern,
    name: &NamePattern,
    arguments: &Arguments,
    program: &Program,
    string: u32,
    proto: &Proto,
    row: &mut Vec<bool>,
    out: &mut Vec<Vec<u16>>,
) -> Result<(), AllocError>
    ensures { (k w : Word) (a : meant.Arguments) → IsTypeOf kind.now k → IsPatternOf name.now w → AreArgumentsOf arguments.now a
        → OnOk result (lists_of out.new.items ≡ lists_of out.old.items ++ (type_texts k (type_at program.now proto.now.result)
        ++ (name_texts named.Member w (text_at program.now string) ++ argument_texts a (map (type_at program.now) proto.now.parameters)))) }
{
    typed_texts(alloc, kind, name, program, proto.result, string, row, out)?;
    let kinds = proto.parameters.as_slice();
    argument_texts(alloc, arguments, program, kinds, row, out)
}

/// Adds what the wildcards of a line matched in a method of this name, with the result and the parameters of a proto.
fn spelled_texts(
    alloc: Global,
    what: &What,
    program: &Program,
    string: u32,
    proto: &Proto,
    row: &mut Vec<bool>,
    out: &mut Vec<Vec<u16>>,
) -> Result<(), AllocError>
    ensures { (w : meant.What) → IsWhatOf what.now w
        → OnOk result (lists_of out.new.items ≡ lists_of out.old.items ++ method_texts w (text_at program.now string) (signature_of program.now proto.now)) }
{
    match what {
        What::All | What::Fields | What::Methods | What::Field { .. } => Ok(()),
        What::Init(arguments) => {
            let kinds = proto.parameters.as_slice();
            argument_texts(alloc, arguments, program, kinds, row, out)
        }
        What::Method {
            result,
            name,
            arguments,
        } => member_texts(
            alloc, result, name, arguments, program, string, proto, row, out,
        ),
    }
}

/// What the wildcards of a line matched in the method with a name.
fn named_method_texts(
    alloc: Global,
    what: &What,
    program: &Program,
    method: &MethodName,
    row: &mut Vec<bool>,
    out: &mut Vec<Vec<u16>>,
) -> Result<(), AllocError>
    ensures { (w : meant.What) → nat_lt method.now.proto (length program.now.protos) ≡ true → IsWhatOf what.now w
        → OnOk result (lists_of out.new.items ≡ lists_of out.old.items ++ method_texts w (text_at program.now method.now.name) (signature_at program.now method.now.proto)) }
{
    match program.protos.as_slice().get(method.proto as usize) {
        Some(proto) => spelled_texts(alloc, what, program, method.name, proto, row, out),
        None => Ok(()),
    }
}

/// Adds what the wildcards of a line matched in the method with a number.
fn numbered_method_texts(
    alloc: Global,
    what: &What,
    program: &Program,
    method: u32,
    row: &mut Vec<bool>,
    out: &mut Vec<Vec<u16>>,
) -> Result<(), AllocError>
    ensures { (w : meant.What) → has_signature program.now (slice_get program.now.methods method) ≡ true → IsWhatOf what.now w
        → OnOk result (lists_of out.new.items ≡ lists_of out.old.items ++ method_texts w (method_at program.now method).name (method_at program.now method).signature) }
{
    match program.methods.as_slice().get(method as usize) {
        Some(name) => named_method_texts(alloc, what, program, name, row, out),
        None => Ok(()),
    }
}

/// What the wildcards of a line matched in the method with a number.
pub fn method_texts(
    alloc: Global,
    what: &What,
    program: &Program,
    method: u32,
    row: &mut Vec<bool>,
) -> Result<Vec<Vec<u16>>, AllocError>
    ensures { (w : meant.What) → has_signature program.now (slice_get program.now.methods method) ≡ true → IsWhatOf what.now w
        → IfOk result (λ out. lists_of out.items ≡ method_texts w (method_at program.now method).name (method_at program.now method).signature) }
{
    let mut out = Vec::new(alloc);
    numbered_method_texts(alloc, what, program, method, row, &mut out)?;
    Ok(out)
}

/// What the wildcards of a line matched in the field with a name.
fn named_field_texts(
    alloc: Global,
    what: &What,
    program: &Program,
    field: &FieldName,
    row: &mut Vec<bool>,
    out: &mut Vec<Vec<u16>>,
) -> Result<(), AllocError>
    ensures { (w : meant.What) → IsWhatOf what.now w
        → OnOk result (lists_of out.new.items ≡ lists_of out.old.items ++ field_texts w (text_at program.now field.now.name) (type_at program.now field.now.kind)) }
{
    match what {
        What::Field { kind, name } => typed_texts(
            alloc, kind, name, program, field.kind, field.name, row, out,
        ),
        What::All | What::Fields | What::Methods | What::Init(_) | What::Method { .. } => Ok(()),
    }
}

/// Adds what the wildcards of a line matched in the field with a number.
fn numbered_field_texts(
    alloc: Global,
    what: &What,
    program: &Program,
    field: u32,
    row: &mut Vec<bool>,
    out: &mut Vec<Vec<u16>>,
) -> Result<(), AllocError>
    ensures { (w : meant.What) → nat_lt field (length program.now.fields) ≡ true → IsWhatOf what.now w
        → OnOk result (lists_of out.new.items ≡ lists_of out.old.items ++ field_texts w (field_at program.now field).name (field_at program.now field).kind) }
{
    match program.fields.as_slice().get(field as usize) {
        Some(name) => named_field_texts(alloc, what, program, name, row, out),
        None => Ok(()),
    }
}

/// What the wildcards of a line matched in the field with a number.
pub fn field_texts(
    alloc: Global,
    what: &What,
    program: &Program,
    field: u32,
    row: &mut Vec<bool>,
) -> Result<Vec<Vec<u16>>, AllocError>
    ensures { (w : meant.What) → nat_lt field (length program.now.fields) ≡ true → IsWhatOf what.now w
        → IfOk result (λ out. lists_of out.items ≡ field_texts w (field_at program.now field).name (field_at program.now field).kind) }
{
    let mut out = Vec::new(alloc);
    numbered_field_texts(alloc, what, program, field, row, &mut out)?;
    Ok(out)
}

/// Adds what the wildcards of a class's name matched, where there is one name alone.
fn push_class_texts(
    alloc: Global,
    names: &[NamePattern],
    descriptor: &[u16],
    row: &mut Vec<bool>,
    out: &mut Vec<Vec<u16>>,
) -> Result<(), AllocError>
    ensures { (ws : List Word) → AreEach IsPatternOf names.now ws → OnOk result (lists_of out.new.items ≡ lists_of out.old.items ++ class_texts ws descriptor.now) }
{
    let one = names.len() == 1;
    if !one {
        return Ok(());
    }
    let name = &names[0];
    name_texts(alloc, name, Named::Class, inside(descriptor), row, out)
}

/// What the wildcards of a class's name matched, where there is one name alone.
pub fn class_texts(
    alloc: Global,
    names: &[NamePattern],
    descriptor: &[u16],
    row: &mut Vec<bool>,
) -> Result<Vec<Vec<u16>>, AllocError>
    ensures { (ws : List Word) → AreEach IsPatternOf names.now ws → IfOk result (λ out. lists_of out.items ≡ class_texts ws descriptor.now) }
{
    let mut out = Vec::new(alloc);
    push_class_texts(alloc, names, descriptor, row, &mut out)?;
    Ok(out)
}
