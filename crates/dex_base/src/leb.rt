//! Numbers in LEB128.

ghost use Rattle.std.specs.Prelude.{◌≡◌, ◌+◌, ◌<◌, ◌≤◌, ◌++◌, ◌%◌, ◌/◌, ◌^◌, length, drop, pos, negsuc, ◌≤ℤ◌, ◌<ℤ◌, ◌+ℤ◌, ◌*ℤ◌, Ok, Err, MatchResult, IfOk, OnOk, OnErr};
ghost use Rattle.dex_base.specs.Leb.{IsLeb, leb_at, sleb_value, last_seven, last_four, uleb_at, sleb_at, uleb_text, is_near, sleb_text};

use crate::fault::BaseFault;
use std::alloc::AllocError;

/// The bytes from `at` on; none where they end before.
fn rest_from(bytes: &[u8], at: usize) -> &[u8]
    ensures { result.now ≡ drop at bytes.now }
{
    if at <= bytes.len() { &bytes[at..] } else { &[] }
}

/// Seven bits of a number.
fn seven(byte: u8) -> u32
    ensures value { result ≡ byte % 128 }
{
    u32::from(byte % 128)
}

/// The number at `at` and the place behind it. It may have more bytes than it needs, up to five, and bits past
/// the 32nd are dropped. `Short` names the place where the number begins, `LongLeb` the fifth byte. No memory is
/// taken (Dalvik executable format, "LEB128").
#[tactic(auto, unfolding(crate::specs::Leb::uleb_at))]
pub fn read_uleb(bytes: &[u8], at: usize) -> Result<(u32, usize), BaseFault>
    ensures gives { result ≡ uleb_at bytes.now at }
    ensures behind { IfOk result (λ read. at < read.1) }
    ensures inside { IfOk result (λ read. read.1 ≤ length bytes.now) }
{
    match rest_from(bytes, at) {
        [a, ..] if *a < 128 => Ok((seven(*a), at + 1)),
        [a, b, ..] if *b < 128 => Ok((seven(*a) + (seven(*b) << 7), at + 2)),
        [a, b, c, ..] if *c < 128 => {
            Ok((seven(*a) + (seven(*b) << 7) + (seven(*c) << 14), at + 3))
        }
        [a, b, c, d, ..] if *d < 128 => Ok((
            seven(*a) + (seven(*b) << 7) + (seven(*c) << 14) + (seven(*d) << 21),
            at + 4,
        )),
        [a, b, c, d, e, ..] if *e < 128 => Ok((
            seven(*a)
                + (seven(*b) << 7)
                + (seven(*c) << 14)
                + (seven(*d) << 21)
                + (seven(*e % 16) << 28),
            at + 5,
        )),
        [_, _, _, _, _, ..] => Err(BaseFault::LongLeb { at: at + 4 }),
        _ => Err(BaseFault::Short { at }),
    }
}

/// A signed number whose lowest seven bits are those of the byte, and whose others are `high`.
fn onto(byte: u8, high: i32) -> i32
    requires above { negsuc 16777215 ≤ℤ high }
    requires below { high <ℤ pos 16777216 }
    ensures { result ≡ pos (byte % 128) +ℤ pos 128 *ℤ high }
{
    i32::from(byte % 128) + 128 * high
}

/// The last seven bits of a signed number.
#[tactic(auto, unfolding(crate::specs::Leb::last_seven))]
fn last(byte: u8) -> i32
    requires { byte < 128 }
    ensures value { result ≡ last_seven byte }
    ensures above { negsuc 63 ≤ℤ result }
    ensures below { result <ℤ pos 64 }
{
    let bits = i32::from(byte);
    if byte < 64 { bits } else { bits - 128 }
}

/// The last four bits of a signed number of 32 bits.
#[tactic(auto, unfolding(crate::specs::Leb::last_four))]
fn last_four(byte: u8) -> i32
    requires { byte < 128 }
    ensures value { result ≡ last_four byte }
    ensures above { negsuc 7 ≤ℤ result }
    ensures below { result <ℤ pos 8 }
{
    let bits = i32::from(byte % 16);
    if bits < 8 { bits } else { bits - 16 }
}

/// The signed number that the bytes spell.
#[tactic(auto, using(crate::proofs::Signed::wraps_one, crate::proofs::Signed::wraps_two, crate::proofs::Signed::wraps_three, crate::proofs::Signed::wraps_four, crate::proofs::Signed::wraps_five))]
fn signed_value(text: &[u8]) -> i32
    requires { IsLeb text.now }
    ensures { result ≡ sleb_value text.now }
{
    match text {
        [a] => last(*a),
        [a, b] => onto(*a, last(*b)),
        [a, b, c] => onto(*a, onto(*b, last(*c))),
        [a, b, c, d] => onto(*a, onto(*b, onto(*c, last(*d)))),
        [a, b, c, d, e] => onto(*a, onto(*b, onto(*c, onto(*d, last_four(*e))))),
        _ => 0,
    }
}

/// The bytes of the number at `at`.
fn leb_of(bytes: &[u8], at: usize) -> Result<&[u8], BaseFault>
    ensures gives { MatchResult result (λ text. leb_at bytes.now at ≡ Ok text.now) (λ e. leb_at bytes.now at ≡ Err e) }
    ensures spells { IfOk result (λ text. IsLeb text.now) }
    ensures some { IfOk result (λ text. 0 < length text.now) }
    ensures inside { IfOk result (λ text. at + length text.now ≤ length bytes.now) }
{
    let rest = rest_from(bytes, at);
    match rest {
        [a, ..] if *a < 128 => Ok(&rest[..1]),
        [_, b, ..] if *b < 128 => Ok(&rest[..2]),
        [_, _, c, ..] if *c < 128 => Ok(&rest[..3]),
        [_, _, _, d, ..] if *d < 128 => Ok(&rest[..4]),
        [_, _, _, _, e, ..] if *e < 128 => Ok(&rest[..5]),
        [_, _, _, _, _, ..] => Err(BaseFault::LongLeb { at: at + 4 }),
        _ => Err(BaseFault::Short { at }),
    }
}

/// The signed number at `at` and the place behind it. It may have more bytes than it needs, up to five, and bits
/// past the 32nd are dropped. `Short` names the place where the number begins, `LongLeb` the fifth byte. No
/// memory is taken (Dalvik executable format, "LEB128").
#[tactic(auto, unfolding(crate::specs::Leb::sleb_at))]
pub fn read_sleb(bytes: &[u8], at: usize) -> Result<(i32, usize), BaseFault>
    ensures gives { result ≡ sleb_at bytes.now at }
    ensures behind { IfOk result (λ read. at < read.1) }
    ensures inside { IfOk result (λ read. read.1 ≤ length bytes.now) }
{
    let text = leb_of(bytes, at)?;
    Ok((signed_value(text), at + text.len()))
}

/// A byte with the seven bits of `v` from this place on, behind which another byte follows.
fn more(v: u32, place: u32) -> u8
    requires { place < 32 }
    ensures { result ≡ v / 2 ^ place % 128 + 128 }
{
    ((v >> place) % 128) as u8 + 128
}

/// Adds the shortest spelling of the number at the end. The only error is want of memory.
#[tactic(auto, unfolding(crate::specs::Leb::uleb_text))]
pub fn write_uleb(out: &mut Vec<u8>, v: u32) -> Result<(), AllocError>
    ensures ok { OnOk result (out.new.items ≡ out.old.items ++ uleb_text v) }
    ensures err { OnErr result (out.new.items ≡ out.old.items) }
{
    if v < 1 << 7 {
        out.extend_from_slice(&[v as u8])
    } else if v < 1 << 14 {
        out.extend_from_slice(&[more(v, 0), (v >> 7) as u8])
    } else if v < 1 << 21 {
        out.extend_from_slice(&[more(v, 0), more(v, 7), (v >> 14) as u8])
    } else if v < 1 << 28 {
        out.extend_from_slice(&[more(v, 0), more(v, 7), more(v, 14), (v >> 21) as u8])
    } else {
        out.extend_from_slice(&[
            more(v, 0),
            more(v, 7),
            more(v, 14),
            more(v, 21),
            (v >> 28) as u8,
        ])
    }
}

/// Whether the bits are those of a signed number from - `bound` on and below `bound`.
fn is_near(bits: u32, bound: u32) -> bool
    requires some { 0 < bound }
    ensures { result ≡ is_near bound bits }
{
    bits < bound || bits >= u32::MAX - bound + 1
}

/// The seven bits of `v` from this place on.
fn end(v: u32, place: u32) -> u8
    requires { place < 32 }
    ensures { result ≡ v / 2 ^ place % 128 }
{
    ((v >> place) % 128) as u8
}

/// Adds the shortest spelling of the signed number at the end. The only error is want of memory.
#[tactic(auto, unfolding(crate::specs::Leb::bits_text))]
pub fn write_sleb(out: &mut Vec<u8>, v: i32) -> Result<(), AllocError>
    ensures ok { OnOk result (out.new.items ≡ out.old.items ++ sleb_text v) }
    ensures err { OnErr result (out.new.items ≡ out.old.items) }
{
    let v = v.cast_unsigned();
    if is_near(v, 1 << 6) {
        out.extend_from_slice(&[end(v, 0)])
    } else if is_near(v, 1 << 13) {
        out.extend_from_slice(&[more(v, 0), end(v, 7)])
    } else if is_near(v, 1 << 20) {
        out.extend_from_slice(&[more(v, 0), more(v, 7), end(v, 14)])
    } else if is_near(v, 1 << 27) {
        out.extend_from_slice(&[more(v, 0), more(v, 7), more(v, 14), end(v, 21)])
    } else {
        let sign = if v < 1 << 31 { 0 } else { 0x70 };
        out.extend_from_slice(&[
            more(v, 0),
            more(v, 7),
            more(v, 14),
            more(v, 21),
            (v >> 28) as u8 + sign,
        ])
    }
}
