//! The id tables and the class_defs (Dalvik executable format, "string_id_item" to "class_def_item").

ghost use Rattle.std.specs.Prelude.{◌≡◌, ◌+◌, ◌*◌, ◌%◌, ◌++◌, map, IfOk, OnOk, slice_get};
ghost use Rattle.dex_write.specs.Plans.{plan_in};
ghost use Rattle.dex_write.specs.Tables.{pair, type_words, proto_row, proto_words, field_row, field_words, method_row, method_words, source_word, class_row, class_words, table_words};

use crate::numbers::at_place;
use crate::ordered::{Ordered, renumbered};
use dex_pools::Interner;
use program_model::{Class, FieldName, MethodName, Program, Proto, Renumber};
use seq::Seq;
use std::alloc::{AllocError, Global};

/// For each class the offsets of its interfaces, directory, class data and first values, 0 for none.
#[derive(Drop)]
pub struct ClassOffsets {
    pub interfaces: Seq<u32>,
    pub directories: Seq<u32>,
    pub data: Seq<u32>,
    pub firsts: Seq<u32>,
}

/// Two numbers of 16 bits as one of 32.
fn pair(low: u32, high: u32) -> u32
    ensures { result ≡ pair low high }
{
    low % 0x1_0000 + high % 0x1_0000 * 0x1_0000
}

/// Adds the texts of types.
fn push_types(
    out: &mut Vec<u32>,
    strings: &[u32],
    types: &[u32],
    order: &[u32],
) -> Result<(), AllocError>
    ensures { OnOk result (out.new.items ≡ out.old.items ++ type_words strings.now types.now order.now) }
{
    for old in order {
        out.push(renumbered(strings, at_place(types, *old as usize)))?;
    }
    Ok(())
}

/// Adds a proto, its parameters standing at an offset.
fn push_proto(
    out: &mut Vec<u32>,
    protos: &[Proto],
    old: u32,
    numbers: &Renumber,
    offset: u32,
) -> Result<(), AllocError>
    ensures { OnOk result (out.new.items ≡ out.old.items ++ proto_row numbers.now (slice_get protos.now old) offset) }
{
    match protos.get(old as usize) {
        Some(proto) => {
            let shorty = renumbered(&numbers.strings, proto.shorty);
            let kind = renumbered(&numbers.types, proto.result);
            out.extend_from_slice(&[shorty, kind, offset])
        }
        None => out.extend_from_slice(&[0, 0, 0]),
    }
}

/// Adds the protos.
fn push_protos(
    out: &mut Vec<u32>,
    protos: &[Proto],
    order: &[u32],
    numbers: &Renumber,
    parameters: &[u32],
) -> Result<(), AllocError>
    ensures { OnOk result (out.new.items ≡ out.old.items ++ proto_words numbers.now protos.now parameters.now 0 order.now) }
{
    for (place, old) in order.iter().enumerate() {
        push_proto(out, protos, *old, numbers, at_place(parameters, place))?;
    }
    Ok(())
}

/// Adds a field.
fn push_field(
    out: &mut Vec<u32>,
    fields: &[FieldName],
    old: u32,
    numbers: &Renumber,
) -> Result<(), AllocError>
    ensures { OnOk result (out.new.items ≡ out.old.items ++ field_row numbers.now (slice_get fields.now old)) }
{
    match fields.get(old as usize) {
        Some(field) => {
            let class = renumbered(&numbers.types, field.class);
            let kind = renumbered(&numbers.types, field.kind);
            let name = renumbered(&numbers.strings, field.name);
            out.extend_from_slice(&[pair(class, kind), name])
        }
        None => out.extend_from_slice(&[0, 0]),
    }
}

/// Adds the fields.
fn push_fields(
    out: &mut Vec<u32>,
    fields: &[FieldName],
    order: &[u32],
    numbers: &Renumber,
) -> Result<(), AllocError>
    ensures { OnOk result (out.new.items ≡ out.old.items ++ field_words numbers.now fields.now order.now) }
{
    for old in order {
        push_field(out, fields, *old, numbers)?;
    }
    Ok(())
}

/// Adds a method.
fn push_method(
    out: &mut Vec<u32>,
    methods: &[MethodName],
    old: u32,
    numbers: &Renumber,
) -> Result<(), AllocError>
    ensures { OnOk result (out.new.items ≡ out.old.items ++ method_row numbers.now (slice_get methods.now old)) }
{
    match methods.get(old as usize) {
        Some(method) => {
            let class = renumbered(&numbers.types, method.class);
            let proto = renumbered(&numbers.protos, method.proto);
            let name = renumbered(&numbers.strings, method.name);
            out.extend_from_slice(&[pair(class, proto), name])
        }
        None => out.extend_from_slice(&[0, 0]),
    }
}

/// Adds the methods.
fn push_methods(
    out: &mut Vec<u32>,
    methods: &[MethodName],
    order: &[u32],
    numbers: &Renumber,
) -> Result<(), AllocError>
    ensures { OnOk result (out.new.items ≡ out.old.items ++ method_words numbers.now methods.now order.now) }
{
    for old in order {
        push_method(out, methods, *old, numbers)?;
    }
    Ok(())
}

/// The number of a class's source.
fn source_word(source: Option<u32>, numbers: &Renumber) -> u32
    ensures { result ≡ source_word numbers.now source }
{
    match source {
        Some(string) => renumbered(&numbers.strings, string),
        None => u32::MAX,
    }
}

/// Adds the definition of the class at a place.
fn push_class(
    out: &mut Vec<u32>,
    class: &Class,
    numbers: &Renumber,
    offsets: &ClassOffsets,
    place: usize,
) -> Result<(), AllocError>
    ensures { OnOk result (out.new.items ≡ out.old.items ++ class_row numbers.now class.now offsets.now place) }
{
    out.extend_from_slice(&[
        renumbered(&numbers.types, class.name),
        class.flags.0,
        renumbered(&numbers.types, class.superclass),
        at_place(offsets.interfaces.as_slice(), place),
        source_word(class.source, numbers),
        at_place(offsets.directories.as_slice(), place),
        at_place(offsets.data.as_slice(), place),
        at_place(offsets.firsts.as_slice(), place),
    ])
}

/// Adds the definitions of the classes.
fn push_classes(
    out: &mut Vec<u32>,
    order: &[Ordered],
    numbers: &Renumber,
    offsets: &ClassOffsets,
) -> Result<(), AllocError>
    ensures { OnOk result (out.new.items ≡ out.old.items ++ class_words numbers.now offsets.now 0 (map plan_in order.now)) }
{
    for (place, ordered) in order.iter().enumerate() {
        push_class(out, ordered.class, numbers, offsets, place)?;
    }
    Ok(())
}

/// The tables, of strings that stand at these offsets, protos whose parameters do, and classes.
#[tactic(auto, unfolding(crate::specs::Tables::table_words))]
pub fn table_words(
    alloc: Global,
    program: &Program,
    interner: &Interner,
    order: &[Ordered],
    strings: &[u32],
    parameters: &[u32],
    offsets: &ClassOffsets,
) -> Result<Vec<u32>, AllocError>
    ensures { IfOk result (λ v. v.items ≡ table_words program.now interner.now (map plan_in order.now) strings.now parameters.now offsets.now) }
{
    let numbers = interner.numbers();
    let used = interner.order();
    let types = program.types.as_slice();
    let mut out = Vec::from_slice(alloc, strings)?;
    push_types(&mut out, &numbers.strings, types, &used.types)?;
    push_protos(
        &mut out,
        program.protos.as_slice(),
        &used.protos,
        numbers,
        parameters,
    )?;
    push_fields(&mut out, program.fields.as_slice(), &used.fields, numbers)?;
    push_methods(&mut out, program.methods.as_slice(), &used.methods, numbers)?;
    push_classes(&mut out, order, numbers, offsets)?;
    Ok(out)
}
