//! What the tables of strings, types, protos, fields and methods have to be (Dalvik executable format, "string_id_item" to
//! "method_id_item").

ghost use Rattle.std.specs.Prelude.{◌≡◌, length, sum_by, nat_le};
ghost use Rattle.std.specs.List.{list_all, zip};
ghost use Rattle.program_model.specs.Cells.{capped};
ghost use Rattle.program_model.specs.Limits.{limit_of};
ghost use Rattle.program_model.specs.Texts.{has_type};
ghost use Rattle.program_model.specs.TableRules.{type_fits, stands_for, stands_for_parameter, is_shorty, proto_fits, field_id_fits, method_id_fits, entries_fit, entries_differ, tables_are_short, texts_are_short, tables_fit};

use crate::distinct::all_differ;
use crate::limits::Counted;
use crate::pools::{FieldName, MethodName, Proto};
use crate::program::Program;
use crate::texts::{has_proto, has_string, has_type, is_void, letter_of, string_units};
use dex_base::{Text, split_descriptor};

/// Whether a text is a descriptor, by the number of its string.
fn type_fits(program: &Program, string: u32) -> bool
    ensures { result ≡ type_fits program.now string }
{
    match program.strings.items.get(string as usize) {
        Some(text) => split_descriptor(text).is_ok(),
        None => false,
    }
}

/// Whether a unit of a shorty is the letter of a type, that of an array being `L`.
fn stands_for(unit: u16, letter: u16) -> bool
    ensures { result ≡ stands_for unit letter }
{
    if letter == 91 {
        unit == 76
    } else {
        unit == letter
    }
}

/// Whether a unit of a shorty is the letter of a parameter, which is not `V`.
fn stands_for_parameter(program: &Program, unit: u16, kind: u32) -> bool
    ensures { result ≡ stands_for_parameter program.now (unit, kind) }
{
    let letter = letter_of(program, kind);
    stands_for(unit, letter) && !is_void(letter)
}

/// Whether the units are the letters of the parameters, one for each of the shorter list.
fn stand_for_parameters(program: &Program, units: &[u16], parameters: &[u32]) -> bool
    ensures { result ≡ list_all (stands_for_parameter program.now) (zip units.now parameters.now) }
{
    units
        .iter()
        .zip(parameters.iter())
        .all(|(unit, kind)| stands_for_parameter(program, *unit, *kind))
}

/// Whether the units are the letter of the result and those of the parameters (Dalvik executable format,
/// "ShortyDescriptor").
fn is_shorty(program: &Program, units: &[u16], outcome: u32, parameters: &[u32]) -> bool
    ensures { result ≡ is_shorty program.now units.now outcome parameters.now }
{
    match units {
        [] => false,
        [unit, rest @ ..] => {
            stands_for(*unit, letter_of(program, outcome))
                && (rest.len() == parameters.len()
                    && stand_for_parameters(program, rest, parameters))
        }
    }
}

/// Whether the numbers are those of types.
pub(crate) fn have_types(program: &Program, kinds: &[u32]) -> bool
    ensures { result ≡ list_all (has_type program.now) kinds.now }
{
    kinds.iter().all(|kind| has_type(program, *kind))
}

/// Whether a proto's numbers are those of entries, and its shorty is its own.
fn proto_fits(program: &Program, proto: &Proto) -> bool
    ensures { result ≡ proto_fits program.now proto.now }
{
    let parameters = proto.parameters.as_slice();
    (has_string(program, proto.shorty) && has_type(program, proto.result))
        && (have_types(program, parameters)
            && is_shorty(
                program,
                string_units(program, proto.shorty),
                proto.result,
                parameters,
            ))
}

/// Whether a field's numbers are those of entries, and its type is not `V`.
fn field_id_fits(program: &Program, field: &FieldName) -> bool
    ensures { result ≡ field_id_fits program.now field.now }
{
    (has_type(program, field.class) && has_type(program, field.kind))
        && (has_string(program, field.name) && !is_void(letter_of(program, field.kind)))
}

/// Whether a method's numbers are those of entries.
fn method_id_fits(program: &Program, method: &MethodName) -> bool
    ensures { result ≡ method_id_fits program.now method.now }
{
    has_type(program, method.class)
        && (has_proto(program, method.proto) && has_string(program, method.name))
}

/// Whether each type is that of a string which is a descriptor.
fn types_fit(program: &Program) -> bool
    ensures { result ≡ list_all (type_fits program.now) program.now.types }
{
    program
        .types
        .as_slice()
        .iter()
        .all(|string| type_fits(program, *string))
}

/// Whether each proto fits.
fn protos_fit(program: &Program) -> bool
    ensures { result ≡ list_all (proto_fits program.now) program.now.protos }
{
    program
        .protos
        .as_slice()
        .iter()
        .all(|proto| proto_fits(program, proto))
}

/// Whether each field of the table fits.
fn field_ids_fit(program: &Program) -> bool
    ensures { result ≡ list_all (field_id_fits program.now) program.now.fields }
{
    program
        .fields
        .as_slice()
        .iter()
        .all(|field| field_id_fits(program, field))
}

/// Whether each method of the table fits.
fn method_ids_fit(program: &Program) -> bool
    ensures { result ≡ list_all (method_id_fits program.now) program.now.methods }
{
    program
        .methods
        .as_slice()
        .iter()
        .all(|method| method_id_fits(program, method))
}

/// Whether each entry of each table fits.
#[tactic(auto, unfolding(crate::specs::TableRules::entries_fit))]
fn entries_fit(program: &Program) -> bool
    ensures { result ≡ entries_fit program.now }
{
    types_fit(program)
        && (protos_fit(program) && (field_ids_fit(program) && method_ids_fit(program)))
}

/// Whether no table has two equal entries.
#[tactic(auto, unfolding(crate::specs::TableRules::entries_differ))]
fn entries_differ(program: &Program) -> bool
    ensures { result ≡ entries_differ program.now }
{
    (all_differ(program.strings.as_slice()) && all_differ(program.types.as_slice()))
        && (all_differ(program.protos.as_slice())
            && (all_differ(program.fields.as_slice()) && all_differ(program.methods.as_slice())))
}

/// Whether a count keeps its limit.
pub(crate) fn keeps(counted: Counted, count: u64) -> bool
    ensures { result ≡ nat_le count (limit_of counted) }
{
    count <= counted.limit()
}

/// Whether the tables are no longer than they may be.
#[tactic(auto, unfolding(crate::specs::TableRules::tables_are_short))]
fn tables_are_short(program: &Program) -> bool
    ensures { result ≡ tables_are_short program.now }
{
    (program.strings.len() < 0x1_0000_0000 && program.classes.len() < 0x1_0000_0000)
        && ((keeps(Counted::Types, program.types.len() as u64)
            && keeps(Counted::Protos, program.protos.len() as u64))
            && (keeps(Counted::Fields, program.fields.len() as u64)
                && keeps(Counted::Methods, program.methods.len() as u64)))
}

/// How many units the texts have, the greatest number of 64 bits standing for all above it.
fn count_units(strings: &[Text]) -> u64
    ensures { result ≡ capped (sum_by length strings.now) }
{
    let mut total: u64 = 0;
    for text in strings {
        total = total.saturating_add(text.units().len() as u64);
    }
    total
}

/// Whether the texts have no more units than they may.
#[tactic(auto, using(crate::proofs::Capped::within_cap), unfolding(crate::specs::TableRules::texts_are_short))]
fn texts_are_short(program: &Program) -> bool
    ensures { result ≡ texts_are_short program.now }
{
    keeps(Counted::TextUnits, count_units(program.strings.as_slice()))
}

/// Whether the tables are what they have to be.
#[tactic(auto, unfolding(crate::specs::TableRules::tables_fit))]
pub(crate) fn tables_fit(program: &Program) -> bool
    ensures { result ≡ tables_fit program.now }
{
    (tables_are_short(program) && texts_are_short(program))
        && (entries_fit(program) && entries_differ(program))
}
