//! Texts in modified UTF-8.

ghost use Rattle.std.specs.Prelude.{◌≡◌, ◌≤◌, ◌<◌, ◌^◌, ◌+◌, ◌++◌, length, take, slice_index, IfOk, OnOk, OnErr};
ghost use Rattle.dex_base.specs.Mutf8.{unit_bytes, text_bytes, six_bits_in, double_in, triple_in, unit_in, text_at};
ghost use Rattle.dex_base.specs.Reading.{Gives, is_no_memory};

use crate::fault::BaseFault;
use crate::text::Text;
use std::alloc::{AllocError, Global};

/// The low six bits of the byte at the front, which has the place `place` in a text from `begin` on, and has to be
/// from `low` to `high`.
fn six_bits(bytes: &[u8], begin: usize, place: usize, low: u8, high: u8) -> Result<u16, BaseFault>
    requires at_least { 128 ≤ low }
    requires at_most { high < 192 }
    ensures gives { result ≡ six_bits_in begin place low high bytes.now }
    ensures some { OnOk result (1 ≤ length bytes.now) }
    ensures few { IfOk result (λ bits. bits < 64) }
{
    match bytes {
        [] => Err(BaseFault::Short { at: begin }),
        [byte, ..] if low <= *byte && *byte <= high => Ok(u16::from(*byte - 0x80)),
        _ => Err(BaseFault::BadText { at: place }),
    }
}

/// A unit of two bytes, whose second has to be from 80 to `high`.
fn read_double(
    bytes: &[u8],
    begin: usize,
    place: usize,
    high: u8,
) -> Result<(u16, usize), BaseFault>
    requires lead { 192 ≤ slice_index bytes.now 0 }
    requires below { slice_index bytes.now 0 < 224 }
    requires at_most { high < 192 }
    requires some { 1 ≤ length bytes.now }
    requires fits { place < 2 ^ 63 }
    ensures { result ≡ double_in begin place high bytes.now }
{
    let low = six_bits(&bytes[1..], begin, place + 1, 0x80, high)?;
    Ok((u16::from(bytes[0] - 0xc0) * 64 + low, 2))
}

/// A unit of three bytes, whose second has to be from `lowest` to bf.
fn read_triple(
    bytes: &[u8],
    begin: usize,
    place: usize,
    lowest: u8,
) -> Result<(u16, usize), BaseFault>
    requires lead { 224 ≤ slice_index bytes.now 0 }
    requires below { slice_index bytes.now 0 < 240 }
    requires at_least { 128 ≤ lowest }
    requires some { 1 ≤ length bytes.now }
    requires fits { place < 2 ^ 63 }
    ensures { result ≡ triple_in begin place lowest bytes.now }
{
    let middle = six_bits(&bytes[1..], begin, place + 1, lowest, 0xbf)?;
    let low = six_bits(&bytes[2..], begin, place + 2, 0x80, 0xbf)?;
    Ok((u16::from(bytes[0] - 0xe0) * 4096 + middle * 64 + low, 3))
}

/// The unit at the front of the bytes, and how many bytes it takes.
#[tactic(auto, unfolding(crate::specs::Mutf8::unit_in))]
fn read_unit(bytes: &[u8], begin: usize, place: usize) -> Result<(u16, usize), BaseFault>
    requires fits { place < 2 ^ 63 }
    ensures gives { result ≡ unit_in begin place bytes.now }
    ensures inside { IfOk result (λ read. read.1 ≤ length bytes.now) }
    ensures some { IfOk result (λ read. 1 ≤ read.1) }
{
    let [lead, ..] = bytes else {
        return Err(BaseFault::Short { at: begin });
    };
    match *lead {
        0x01..=0x7f => Ok((u16::from(*lead), 1)),
        0xc0 => read_double(bytes, begin, place, 0x80),
        0xc2..=0xdf => read_double(bytes, begin, place, 0xbf),
        0xe0 => read_triple(bytes, begin, place, 0xa0),
        0xe1..=0xef => read_triple(bytes, begin, place, 0x80),
        _ => Err(BaseFault::BadText { at: place }),
    }
}

/// The text of so many UTF-16 units that begins at `at`, and the place behind its zero byte. `Short` names the place
/// where the text begins, and `BadText` the first byte that continues no text of so many units (Dalvik executable
/// format, "MUTF-8 (Modified UTF-8) Encoding").
#[tactic(auto, using(crate::proofs::TextReading::reads_none, crate::proofs::TextReading::reads_nothing), unfolding(crate::specs::Mutf8::text_at))]
pub fn read_text(
    alloc: Global,
    bytes: &[u8],
    at: usize,
    units: u32,
) -> Result<(Text, usize), BaseFault>
    ensures gives { Gives is_no_memory (λ read. read) result (text_at bytes.now at units) }
    ensures counted { IfOk result (λ read. length read.0 ≡ units) }
    ensures behind { IfOk result (λ read. at < read.1) }
    ensures inside { IfOk result (λ read. read.1 ≤ length bytes.now) }
{
    if at >= bytes.len() {
        return Err(BaseFault::Short { at });
    }
    let mut rest = &bytes[at..];
    let mut text = Vec::with_capacity(alloc, rest.len().min(units as usize))?;
    let mut next = at;
    for _ in 0..units {
        let (unit, len) = read_unit(rest, at, next)?;
        text.push(unit)?;
        next += len;
        rest = &rest[len..];
    }
    match rest {
        [] => Err(BaseFault::Short { at }),
        [0, ..] => Ok((Text::from_vec(text), next + 1)),
        _ => Err(BaseFault::BadText { at: next }),
    }
}

/// Adds the spelling of a unit at the end.
#[tactic(auto, unfolding(crate::specs::Mutf8::unit_bytes))]
fn push_unit(out: &mut Vec<u8>, unit: u16) -> Result<(), AllocError>
    ensures ok { OnOk result (out.new.items ≡ out.old.items ++ unit_bytes unit) }
    ensures err { OnErr result (out.new.items ≡ out.old.items) }
{
    match unit {
        0x01..=0x7f => out.extend_from_slice(&[unit as u8]),
        0 | 0x80..=0x7ff => {
            out.extend_from_slice(&[0xc0 + (unit / 64) as u8, 0x80 + (unit % 64) as u8])
        }
        _ => out.extend_from_slice(&[
            0xe0 + (unit / 4096) as u8,
            0x80 + (unit / 64 % 64) as u8,
            0x80 + (unit % 64) as u8,
        ]),
    }
}

/// Adds the spelling of a text at the end. An `Err` may leave a part of it there.
#[tactic(auto, unfolding(crate::specs::Mutf8::text_bytes))]
fn push_text(out: &mut Vec<u8>, text: &Text) -> Result<(), AllocError>
    ensures ok { OnOk result (out.new.items ≡ out.old.items ++ text_bytes text.now) }
    ensures front { take (length out.old.items) out.new.items ≡ out.old.items }
{
    for unit in text.units() {
        push_unit(out, *unit)?;
    }
    out.push(0)?;
    Ok(())
}

/// Adds the spelling of the text, with a zero byte behind it, at the end. The only error is want of memory.
pub fn write_text(out: &mut Vec<u8>, text: &Text) -> Result<(), AllocError>
    ensures ok { OnOk result (out.new.items ≡ out.old.items ++ text_bytes text.now) }
    ensures err { OnErr result (out.new.items ≡ out.old.items) }
{
    let start = out.len();
    let written = push_text(out, text);
    if written.is_err() {
        out.truncate(start);
    }
    written
}
