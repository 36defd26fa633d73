//! The lines of events.

ghost use Rattle.std.specs.Prelude.{◌≡◌, ◌++◌, ◌<◌, OnOk, IfOk};
ghost use Rattle.std.specs.Char.{digit_char};
ghost use Rattle.std.specs.Fmt.{decimal};
ghost use Rattle.std.specs.List.{flat_map};
ghost use Rattle.text_defs.specs.Digits.{hex};
ghost use Rattle.text_defs.specs.Escapes.{unit_text, escaped, is_plain};
ghost use Rattle.text_defs.specs.EventLines.{shown_text, and_value, and_perhaps, and_word, and_member, kind_name, event_text, event_line, event_lines};

use dalvik_defs::{Event, Shown};
use dex_base::Text;
use insn_set::InvokeKind;
use std::alloc::{AllocError, Global};

/// A digit in base 16, in lower case.
fn digit_char(digit: u8) -> u8
    requires { digit < 16 }
    ensures { result ≡ digit_char digit }
{
    if digit < 10 {
        b'0' + digit
    } else {
        b'a' + (digit - 10)
    }
}

/// Adds the lowest digits of the number in base 16, so many.
fn push_hex(out: &mut Vec<u8>, places: u32, number: u64) -> Result<(), AllocError>
    ensures { OnOk result (out.new.items ≡ out.old.items ++ hex places number) }
{
    if places == 0 {
        return Ok(());
    }
    push_hex(out, places - 1, number / 16)?;
    out.push(digit_char((number % 16) as u8))?;
    Ok(())
}

/// Adds a number in base 10.
fn push_decimal(alloc: Global, out: &mut Vec<u8>, number: u64) -> Result<(), AllocError>
    ensures { OnOk result (out.new.items ≡ out.old.items ++ decimal number) }
{
    let text = format!(in alloc; "{number}")?;
    out.extend_from_slice(text.as_bytes())
}

fn is_plain(unit: u16) -> bool
    ensures { result ≡ is_plain unit }
{
    matches!(unit, 0x21..=0x5b | 0x5d..=0x7e)
}

/// Adds a unit as it is written.
fn push_unit(out: &mut Vec<u8>, unit: u16) -> Result<(), AllocError>
    ensures { OnOk result (out.new.items ≡ out.old.items ++ unit_text unit) }
{
    if is_plain(unit) {
        out.push(unit as u8)?;
        return Ok(());
    }
    out.push(b'\\')?;
    push_hex(out, 4, u64::from(unit))
}

/// Adds a text as it is written. The only error is want of memory.
pub fn push_escaped(out: &mut Vec<u8>, text: &Text) -> Result<(), AllocError>
    ensures { OnOk result (out.new.items ≡ out.old.items ++ escaped text.now) }
{
    for unit in text.units() {
        push_unit(out, *unit)?;
    }
    Ok(())
}

fn push_word(out: &mut Vec<u8>, number: u32) -> Result<(), AllocError>
    ensures { OnOk result (out.new.items ≡ out.old.items ++ shown_text (Shown.Word number)) }
{
    out.push(b'w')?;
    push_hex(out, 8, u64::from(number))
}

fn push_wide(out: &mut Vec<u8>, number: u64) -> Result<(), AllocError>
    ensures { OnOk result (out.new.items ≡ out.old.items ++ shown_text (Shown.Wide number)) }
{
    out.push(b'l')?;
    push_hex(out, 16, number)
}

/// Adds an object's place.
fn push_again(alloc: Global, out: &mut Vec<u8>, number: u64) -> Result<(), AllocError>
    ensures { OnOk result (out.new.items ≡ out.old.items ++ shown_text (Shown.Again number)) }
{
    out.push(b'#')?;
    push_decimal(alloc, out, number)
}

/// Adds an object's place and its type.
fn push_first(alloc: Global, out: &mut Vec<u8>, number: u64, kind: &Text) -> Result<(), AllocError>
    ensures { OnOk result (out.new.items ≡ out.old.items ++ shown_text (Shown.First number kind.now)) }
{
    push_again(alloc, out, number)?;
    out.push(b'=')?;
    push_escaped(out, kind)
}

fn push_literal(out: &mut Vec<u8>, text: &Text) -> Result<(), AllocError>
    ensures { OnOk result (out.new.items ≡ out.old.items ++ shown_text (Shown.Literal text.now)) }
{
    out.extend_from_slice(b"text:")?;
    push_escaped(out, text)
}

fn push_class(out: &mut Vec<u8>, kind: &Text) -> Result<(), AllocError>
    ensures { OnOk result (out.new.items ≡ out.old.items ++ shown_text (Shown.Class kind.now)) }
{
    out.extend_from_slice(b"class:")?;
    push_escaped(out, kind)
}

/// Adds a value.
fn push_shown(alloc: Global, out: &mut Vec<u8>, value: &Shown) -> Result<(), AllocError>
    ensures { OnOk result (out.new.items ≡ out.old.items ++ shown_text value.now) }
{
    match value {
        Shown::Null => out.extend_from_slice(b"null"),
        Shown::Word(number) => push_word(out, *number),
        Shown::Wide(number) => push_wide(out, *number),
        Shown::First { number, kind } => push_first(alloc, out, *number, kind),
        Shown::Again(number) => push_again(alloc, out, *number),
        Shown::Literal(text) => push_literal(out, text),
        Shown::Class(kind) => push_class(out, kind),
    }
}

/// Adds a space and a value.
fn push_value(alloc: Global, out: &mut Vec<u8>, value: &Shown) -> Result<(), AllocError>
    ensures { OnOk result (out.new.items ≡ out.old.items ++ and_value value.now) }
{
    out.push(b' ')?;
    push_shown(alloc, out, value)
}

fn push_perhaps(alloc: Global, out: &mut Vec<u8>, value: &Option<Shown>) -> Result<(), AllocError>
    ensures { OnOk result (out.new.items ≡ out.old.items ++ and_perhaps value.now) }
{
    match value {
        None => Ok(()),
        Some(value) => push_value(alloc, out, value),
    }
}

fn push_values(alloc: Global, out: &mut Vec<u8>, values: &[Shown]) -> Result<(), AllocError>
    ensures { OnOk result (out.new.items ≡ out.old.items ++ flat_map and_value values.now) }
{
    for value in values {
        push_value(alloc, out, value)?;
    }
    Ok(())
}

/// Adds a space and a name.
fn push_name(out: &mut Vec<u8>, name: &Text) -> Result<(), AllocError>
    ensures { OnOk result (out.new.items ≡ out.old.items ++ and_word (escaped name.now)) }
{
    out.push(b' ')?;
    push_escaped(out, name)
}

/// Adds a class, a name and a type or a proto.
fn push_member(out: &mut Vec<u8>, class: &Text, name: &Text, kind: &Text) -> Result<(), AllocError>
    ensures { OnOk result (out.new.items ≡ out.old.items ++ and_member class.now name.now kind.now) }
{
    push_name(out, class)?;
    push_name(out, name)?;
    push_name(out, kind)
}

fn push_kind(out: &mut Vec<u8>, kind: InvokeKind) -> Result<(), AllocError>
    ensures { OnOk result (out.new.items ≡ out.old.items ++ kind_name kind) }
{
    match kind {
        InvokeKind::Virtual => out.extend_from_slice(b"virtual"),
        InvokeKind::Super => out.extend_from_slice(b"super"),
        InvokeKind::Direct => out.extend_from_slice(b"direct"),
        InvokeKind::Static => out.extend_from_slice(b"static"),
        InvokeKind::Interface => out.extend_from_slice(b"interface"),
    }
}

/// Adds a call: its kind, the method and the values.
fn push_call(
    alloc: Global,
    out: &mut Vec<u8>,
    kind: InvokeKind,
    class: &Text,
    name: &Text,
    proto: &Text,
    values: &[Shown],
) -> Result<(), AllocError>
    ensures { OnOk result (out.new.items ≡ out.old.items ++ event_text (Event.Call kind class.now name.now proto.now values.now)) }
{
    out.extend_from_slice(b"call ")?;
    push_kind(out, kind)?;
    push_member(out, class, name, proto)?;
    push_values(alloc, out, values)
}

fn push_get(
    alloc: Global,
    out: &mut Vec<u8>,
    class: &Text,
    name: &Text,
    kind: &Text,
    on: &Option<Shown>,
) -> Result<(), AllocError>
    ensures { OnOk result (out.new.items ≡ out.old.items ++ event_text (Event.Get class.now name.now kind.now on.now)) }
{
    out.extend_from_slice(b"get")?;
    push_member(out, class, name, kind)?;
    push_perhaps(alloc, out, on)
}

fn push_put(
    alloc: Global,
    out: &mut Vec<u8>,
    class: &Text,
    name: &Text,
    kind: &Text,
    on: &Option<Shown>,
    value: &Shown,
) -> Result<(), AllocError>
    ensures { OnOk result (out.new.items ≡ out.old.items ++ event_text (Event.Put class.now name.now kind.now on.now value.now)) }
{
    out.extend_from_slice(b"put")?;
    push_member(out, class, name, kind)?;
    push_perhaps(alloc, out, on)?;
    push_value(alloc, out, value)
}

/// Adds a word and a value.
fn push_said(alloc: Global, out: &mut Vec<u8>, word: &[u8], value: &Shown) -> Result<(), AllocError>
    ensures { OnOk result (out.new.items ≡ out.old.items ++ (word.now ++ and_value value.now)) }
{
    out.extend_from_slice(word)?;
    push_value(alloc, out, value)
}

fn push_result(alloc: Global, out: &mut Vec<u8>, value: &Option<Shown>) -> Result<(), AllocError>
    ensures { OnOk result (out.new.items ≡ out.old.items ++ event_text (Event.Result value.now)) }
{
    out.extend_from_slice(b"result")?;
    push_perhaps(alloc, out, value)
}

/// Adds the words of an event.
fn push_event(alloc: Global, out: &mut Vec<u8>, event: &Event) -> Result<(), AllocError>
    ensures { OnOk result (out.new.items ≡ out.old.items ++ event_text event.now) }
{
    match event {
        Event::Call {
            kind,
            class,
            name,
            proto,
            values,
        } => push_call(alloc, out, *kind, class, name, proto, values.as_slice()),
        Event::Make { value } => push_said(alloc, out, b"make", value),
        Event::Get {
            class,
            name,
            kind,
            on,
        } => push_get(alloc, out, class, name, kind, on),
        Event::Put {
            class,
            name,
            kind,
            on,
            value,
        } => push_put(alloc, out, class, name, kind, on, value),
        Event::Lock { value } => push_said(alloc, out, b"lock", value),
        Event::Unlock { value } => push_said(alloc, out, b"unlock", value),
        Event::Result { value } => push_result(alloc, out, value),
        Event::Uncaught { value } => push_said(alloc, out, b"uncaught", value),
        Event::Answer { value } => push_said(alloc, out, b"answer", value),
    }
}

/// Adds the line of an event.
fn push_line(alloc: Global, out: &mut Vec<u8>, event: &Event) -> Result<(), AllocError>
    ensures { OnOk result (out.new.items ≡ out.old.items ++ event_line event.now) }
{
    push_event(alloc, out, event)?;
    out.push(b'\n')?;
    Ok(())
}

/// The lines of events, one each: exactly those of the definition `event_lines`. The only error is want of memory (this
/// project's profile).
pub fn write_events(alloc: Global, events: &[Event]) -> Result<Vec<u8>, AllocError>
    ensures { IfOk result (λ text. text.items ≡ event_lines events.now) }
{
    let mut out = Vec::new(alloc);
    for event in events {
        push_line(alloc, &mut out, event)?;
    }
    Ok(out)
}
