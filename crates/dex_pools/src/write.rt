//! Values and annotations, written in the fewest bytes.

ghost use Rattle.std.specs.Prelude.{◌≡◌, ◌+◌, ◌<◌, ◌≤◌, ◌^◌, ◌++◌, ◌∷◌, length, take, min, OnOk, OnErr};
ghost use Rattle.dex_base.specs.Leb.{uleb_text};
ghost use Rattle.std.specs.List.{flat_map};
ghost use Rattle.dex_pools.specs.Written.{value_text, element_text, note_text, list_text, mark_text};

use crate::few::{push_double, push_float, push_signed, push_unsigned, renumbered};
use dex_base::write_uleb;
use program_model::{Element, EncValue, Mark, Note, Renumber};
use std::alloc::AllocError;

/// Adds how many items follow. An `Err` leaves the bytes as they were.
fn push_count(out: &mut Vec<u8>, len: usize) -> Result<(), AllocError>
    ensures ok { OnOk result (out.new.items ≡ out.old.items ++ uleb_text (min len 4294967295)) }
    ensures front { take (length out.old.items) out.new.items ≡ out.old.items }
{
    let count = if len < 4_294_967_295 {
        len as u32
    } else {
        4_294_967_295
    };
    write_uleb(out, count)
}

/// Adds a value. An `Err` may leave a part of it there.
#[cycle(writes)]
#[tactic(auto, unfolding(crate::specs::Written::value_text))]
fn push_value(out: &mut Vec<u8>, value: &EncValue, numbers: &Renumber) -> Result<(), AllocError>
    ensures ok { OnOk result (out.new.items ≡ out.old.items ++ value_text numbers.now value.now) }
    ensures front { take (length out.old.items) out.new.items ≡ out.old.items }
{
    match value {
        EncValue::Byte(x) => push_signed(out, 0x00, i64::from(*x)),
        EncValue::Short(x) => push_signed(out, 0x02, i64::from(*x)),
        EncValue::Char(x) => push_unsigned(out, 0x03, u32::from(*x)),
        EncValue::Int(x) => push_signed(out, 0x04, i64::from(*x)),
        EncValue::Long(x) => push_signed(out, 0x06, *x),
        EncValue::Float(x) => push_float(out, *x),
        EncValue::Double(x) => push_double(out, *x),
        EncValue::Str(n) => push_unsigned(out, 0x17, renumbered(&numbers.strings, *n)),
        EncValue::Class(n) => push_unsigned(out, 0x18, renumbered(&numbers.types, *n)),
        EncValue::Field(n) => push_unsigned(out, 0x19, renumbered(&numbers.fields, *n)),
        EncValue::Method(n) => push_unsigned(out, 0x1a, renumbered(&numbers.methods, *n)),
        EncValue::Enum(n) => push_unsigned(out, 0x1b, renumbered(&numbers.fields, *n)),
        EncValue::Array(values) => {
            out.push(0x1c)?;
            push_values(out, values.as_slice(), numbers)
        }
        EncValue::Annotation(note) => {
            out.push(0x1d)?;
            push_note(out, note, numbers)
        }
        EncValue::Null => {
            out.push(0x1e)?;
            Ok(())
        }
        EncValue::Bool(x) => {
            out.push(if *x { 0x3f } else { 0x1f })?;
            Ok(())
        }
    }
}

/// Adds values, and before them how many there are. An `Err` may leave a part of it there.
#[cycle(writes)]
#[tactic(auto, unfolding(crate::specs::Written::list_text))]
fn push_values(out: &mut Vec<u8>, values: &[EncValue], numbers: &Renumber) -> Result<(), AllocError>
    ensures ok { OnOk result (out.new.items ≡ out.old.items ++ list_text (value_text numbers.now) values.now) }
    ensures front { take (length out.old.items) out.new.items ≡ out.old.items }
{
    push_count(out, values.len())?;
    for value in values {
        push_value(out, value, numbers)?;
    }
    Ok(())
}

/// Adds an annotation, without its visibility. An `Err` may leave a part of it there.
#[cycle(writes)]
fn push_note(out: &mut Vec<u8>, note: &Note, numbers: &Renumber) -> Result<(), AllocError>
    ensures ok { OnOk result (out.new.items ≡ out.old.items ++ note_text numbers.now note.now) }
    ensures front { take (length out.old.items) out.new.items ≡ out.old.items }
{
    write_uleb(out, renumbered(&numbers.types, note.class))?;
    push_elements(out, note.elements.as_slice(), numbers)
}

/// Adds elements, and before them how many there are. An `Err` may leave a part of it there.
#[cycle(writes)]
#[tactic(auto, unfolding(crate::specs::Written::list_text))]
fn push_elements(
    out: &mut Vec<u8>,
    elements: &[Element],
    numbers: &Renumber,
) -> Result<(), AllocError>
    ensures ok { OnOk result (out.new.items ≡ out.old.items ++ list_text (element_text numbers.now) elements.now) }
    ensures front { take (length out.old.items) out.new.items ≡ out.old.items }
{
    push_count(out, elements.len())?;
    for element in elements {
        push_element(out, element, numbers)?;
    }
    Ok(())
}

/// Adds an element. An `Err` may leave a part of it there.
#[cycle(writes)]
fn push_element(out: &mut Vec<u8>, element: &Element, numbers: &Renumber) -> Result<(), AllocError>
    ensures ok { OnOk result (out.new.items ≡ out.old.items ++ element_text numbers.now element.now) }
    ensures front { take (length out.old.items) out.new.items ≡ out.old.items }
{
    write_uleb(out, renumbered(&numbers.strings, element.name))?;
    push_value(out, &element.value, numbers)
}

/// Adds the value at the end, each number in the fewest bytes and each entry by its new number, which is the greatest
/// number of 32 bits where `numbers` has none (Dalvik executable format, "encoded_value"). The only error is want of
/// memory, which leaves the bytes as they were.
pub fn write_value(
    out: &mut Vec<u8>,
    value: &EncValue,
    numbers: &Renumber,
) -> Result<(), AllocError>
    ensures ok { OnOk result (out.new.items ≡ out.old.items ++ value_text numbers.now value.now) }
    ensures err { OnErr result (out.new.items ≡ out.old.items) }
{
    let start = out.len();
    let written = push_value(out, value, numbers);
    if written.is_err() {
        out.truncate(start);
    }
    written
}

/// Adds an annotation. An `Err` may leave a part of it there.
fn push_mark(out: &mut Vec<u8>, mark: &Mark, numbers: &Renumber) -> Result<(), AllocError>
    ensures ok { OnOk result (out.new.items ≡ out.old.items ++ mark_text numbers.now mark.now) }
    ensures front { take (length out.old.items) out.new.items ≡ out.old.items }
{
    out.push(mark.visibility)?;
    push_note(out, &mark.note, numbers)
}

/// Adds the annotation at the end, as [`write_value`] writes its values: its visibility, its type, how many elements it
/// has, and these in their order (Dalvik executable format, "annotation_item"). The only error is want of memory, which
/// leaves the bytes as they were.
pub fn write_annotation(
    out: &mut Vec<u8>,
    mark: &Mark,
    numbers: &Renumber,
) -> Result<(), AllocError>
    ensures ok { OnOk result (out.new.items ≡ out.old.items ++ mark_text numbers.now mark.now) }
    ensures err { OnErr result (out.new.items ≡ out.old.items) }
{
    let start = out.len();
    let written = push_mark(out, mark, numbers);
    if written.is_err() {
        out.truncate(start);
    }
    written
}
