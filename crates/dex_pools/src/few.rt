//! Numbers in the fewest bytes.

ghost use Rattle.std.specs.Prelude.{◌≡◌, ◌+◌, ◌<◌, ◌≤◌, ◌^◌, ◌++◌, ◌-◌, ◌*◌, length, take, OnOk, OnErr};
ghost use Rattle.dex_pools.specs.Written.{renumbered, tagged, unsigned_len, unsigned_few, magnitude, signed_len, signed_few, float_zeros, float_few, double_zeros, double_few};

use byteorder::{ByteOrder, LittleEndian};
use std::alloc::AllocError;

/// The new number of an entry; the greatest number where the list has none.
pub fn renumbered(numbers: &[u32], number: u32) -> u32
    ensures { result ≡ renumbered numbers.now number }
{
    match numbers.get(number as usize) {
        Some(new) => *new,
        None => u32::MAX,
    }
}

/// Adds the type of a value, how many bytes follow, and these. An `Err` may leave a part of it there.
fn push_tagged(out: &mut Vec<u8>, kind: u8, few: &[u8]) -> Result<(), AllocError>
    requires some { 1 ≤ length few.now }
    requires most { length few.now ≤ 8 }
    requires kind { kind < 32 }
    ensures ok { OnOk result (out.new.items ≡ out.old.items ++ tagged kind few.now) }
    ensures front { take (length out.old.items) out.new.items ≡ out.old.items }
{
    out.push(kind + 32 * (few.len() - 1) as u8)?;
    out.extend_from_slice(few)
}

/// How many bytes an unsigned number needs.
fn unsigned_len(number: u32) -> usize
    ensures value { result ≡ unsigned_len number }
    ensures some { 1 ≤ result }
    ensures most { result ≤ 4 }
{
    if number < 1 << 8 {
        1
    } else if number < 1 << 16 {
        2
    } else if number < 1 << 24 {
        3
    } else {
        4
    }
}

/// Adds an unsigned number as a value of this type. An `Err` may leave a part of it there.
#[tactic(auto, unfolding(crate::specs::Written::unsigned_few))]
pub fn push_unsigned(out: &mut Vec<u8>, kind: u8, number: u32) -> Result<(), AllocError>
    requires { kind < 32 }
    ensures ok { OnOk result (out.new.items ≡ out.old.items ++ tagged kind (unsigned_few number)) }
    ensures front { take (length out.old.items) out.new.items ≡ out.old.items }
{
    let mut bytes = [0; 4];
    LittleEndian::write_u32(&mut bytes, number);
    push_tagged(out, kind, &bytes[..unsigned_len(number)])
}

/// The bits of a number but for its sign.
fn magnitude(number: i64) -> u64
    ensures { result ≡ magnitude number }
{
    if number < 0 {
        number.unsigned_abs() - 1
    } else {
        number.unsigned_abs()
    }
}

/// How many bytes the bits and a sign need.
fn signed_len(bits: u64) -> usize
    ensures value { result ≡ signed_len bits }
    ensures some { 1 ≤ result }
    ensures most { result ≤ 8 }
{
    if bits < 1 << 7 {
        1
    } else if bits < 1 << 15 {
        2
    } else if bits < 1 << 23 {
        3
    } else if bits < 1 << 31 {
        4
    } else if bits < 1 << 39 {
        5
    } else if bits < 1 << 47 {
        6
    } else if bits < 1 << 55 {
        7
    } else {
        8
    }
}

/// Adds a signed number as a value of this type. An `Err` may leave a part of it there.
#[tactic(auto, unfolding(crate::specs::Written::signed_few))]
pub fn push_signed(out: &mut Vec<u8>, kind: u8, number: i64) -> Result<(), AllocError>
    requires { kind < 32 }
    ensures ok { OnOk result (out.new.items ≡ out.old.items ++ tagged kind (signed_few number)) }
    ensures front { take (length out.old.items) out.new.items ≡ out.old.items }
{
    let mut bytes = [0; 8];
    LittleEndian::write_i64(&mut bytes, number);
    push_tagged(out, kind, &bytes[..signed_len(magnitude(number))])
}

/// How many of the low bytes of a float are zero, the highest byte not counted.
fn float_zeros(bits: u32) -> usize
    ensures value { result ≡ float_zeros bits }
    ensures most { result ≤ 3 }
{
    if bits % (1 << 24) == 0 {
        3
    } else if bits % (1 << 16) == 0 {
        2
    } else if bits % (1 << 8) == 0 {
        1
    } else {
        0
    }
}

/// Adds a float as a value of this type. An `Err` may leave a part of it there.
#[tactic(auto, unfolding(crate::specs::Written::float_few))]
pub fn push_float(out: &mut Vec<u8>, bits: u32) -> Result<(), AllocError>
    ensures ok { OnOk result (out.new.items ≡ out.old.items ++ tagged 16 (float_few bits)) }
    ensures front { take (length out.old.items) out.new.items ≡ out.old.items }
{
    let mut bytes = [0; 4];
    LittleEndian::write_u32(&mut bytes, bits);
    push_tagged(out, 0x10, &bytes[float_zeros(bits)..])
}

/// How many of the low bytes of a double are zero, the highest byte not counted.
fn double_zeros(bits: u64) -> usize
    ensures value { result ≡ double_zeros bits }
    ensures most { result ≤ 7 }
{
    if bits % (1 << 56) == 0 {
        7
    } else if bits % (1 << 48) == 0 {
        6
    } else if bits % (1 << 40) == 0 {
        5
    } else if bits % (1 << 32) == 0 {
        4
    } else if bits % (1 << 24) == 0 {
        3
    } else if bits % (1 << 16) == 0 {
        2
    } else if bits % (1 << 8) == 0 {
        1
    } else {
        0
    }
}

/// Adds a double as a value of this type. An `Err` may leave a part of it there.
#[tactic(auto, unfolding(crate::specs::Written::double_few))]
pub fn push_double(out: &mut Vec<u8>, bits: u64) -> Result<(), AllocError>
    ensures ok { OnOk result (out.new.items ≡ out.old.items ++ tagged 17 (double_few bits)) }
    ensures front { take (length out.old.items) out.new.items ≡ out.old.items }
{
    let mut bytes = [0; 8];
    LittleEndian::write_u64(&mut bytes, bits);
    push_tagged(out, 0x11, &bytes[double_zeros(bits)..])
}
