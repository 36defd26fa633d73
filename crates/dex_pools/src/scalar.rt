//! Values without values in them.

ghost use Rattle.std.specs.Prelude.{◌≡◌, ◌+◌, ◌-◌, ◌<◌, ◌≤◌, ◌^◌, ◌++◌, length, replicate, IfOk, OnOk};
ghost use Rattle.std.specs.Int.{w16, w32, w64};
ghost use Rattle.dex_base.specs.Reading.{Gives};
ghost use Rattle.dex_pools.specs.Fault.{is_free};
ghost use Rattle.dex_pools.specs.declared.scalar.TableSizes as s;
ghost use Rattle.dex_pools.specs.ValueRange.{ValueInRange};
ghost use Rattle.dex_pools.specs.Value.{byte_at, few_at, number_index_at, most_argument, is_within, sign_extended, zero_extended, right_extended, widest, numeric, size_for, naming, named_at, scalar_at};

use crate::fault::PoolFault;
use crate::word::number_of;
use byteorder::{ByteOrder, LittleEndian};
use program_model::EncValue;

/// How many entries the tables have that a value may name.
#[derive(Clone, Copy, Drop)]
pub struct TableSizes {
    pub strings: u32,
    pub types: u32,
    pub fields: u32,
    pub methods: u32,
}

/// The byte at `at`.
#[tactic(auto, unfolding(crate::specs::Value::byte_at))]
pub fn byte_of(bytes: &[u8], at: usize) -> Result<u8, PoolFault>
    ensures gives { Gives is_free (λ n. n) result (byte_at bytes.now at) }
    ensures inside { OnOk result (at < length bytes.now) }
{
    match bytes.get(at) {
        Some(byte) => Ok(*byte),
        None => Err(PoolFault::Short { at }),
    }
}

/// So many bytes behind the one at `at`.
#[tactic(auto, unfolding(crate::specs::Value::few_at))]
fn few_of(bytes: &[u8], at: usize, count: usize) -> Result<&[u8], PoolFault>
    requires place { at < length bytes.now }
    requires few { count < 2 ^ 8 }
    ensures gives { Gives is_free (λ few. few.now) result (few_at bytes.now at count) }
    ensures inside { OnOk result (at + 1 + count ≤ length bytes.now) }
    ensures sized { IfOk result (λ few. length few.now ≡ count) }
{
    if count > bytes.len() - (at + 1) {
        return Err(PoolFault::Short { at });
    }
    Ok(&bytes[at + 1..at + 1 + count])
}

/// The number in LEB128 at `at`, which has to be below `size`, and the place behind it.
#[tactic(auto, unfolding(crate::specs::Value::number_index_at))]
pub fn number_index_of(bytes: &[u8], at: usize, size: u32) -> Result<(u32, usize), PoolFault>
    ensures gives { Gives is_free (λ n. n) result (number_index_at bytes.now at size) }
    ensures below { IfOk result (λ n. n.0 < size) }
    ensures behind { IfOk result (λ n. at < n.1) }
    ensures inside { IfOk result (λ n. n.1 ≤ length bytes.now) }
{
    let (value, next) = number_of(bytes, at)?;
    if value < size {
        Ok((value, next))
    } else {
        Err(PoolFault::Index { at, value, size })
    }
}

/// The greatest argument of a type of values; none where there is no such type.
fn most_argument(kind: u8) -> Option<u8>
    ensures { result ≡ most_argument kind }
{
    match kind {
        0x00 | 0x1c | 0x1d | 0x1e => Some(0),
        0x02 | 0x03 | 0x1f => Some(1),
        0x04 | 0x10 | 0x17..=0x1b => Some(3),
        0x06 | 0x11 => Some(7),
        _ => None,
    }
}

/// Whether a type of values may have the argument.
pub fn is_within(kind: u8, argument: u8) -> bool
    ensures { result ≡ is_within argument (most_argument kind) }
{
    match most_argument(kind) {
        Some(most) => argument <= most,
        None => false,
    }
}

/// The number of a few bytes, in two's complement.
#[tactic(auto, unfolding(crate::specs::Value::sign_extended))]
fn signed_in(few: &[u8]) -> i64
    requires some { 1 ≤ length few.now }
    requires most { length few.now ≤ 8 }
    ensures { result ≡ sign_extended few.now }
{
    LittleEndian::read_int(few, few.len())
}

/// The number of one byte.
fn byte_in(few: &[u8]) -> i8
    requires { length few.now ≡ 1 }
    ensures { result ≡ sign_extended few.now }
{
    signed_in(few) as i8
}

/// The number of one or two bytes.
fn short_in(few: &[u8]) -> i16
    requires some { 1 ≤ length few.now }
    requires most { length few.now ≤ 2 }
    ensures { result ≡ sign_extended few.now }
{
    signed_in(few) as i16
}

/// The number of one to four bytes.
fn int_in(few: &[u8]) -> i32
    requires some { 1 ≤ length few.now }
    requires most { length few.now ≤ 4 }
    ensures { result ≡ sign_extended few.now }
{
    signed_in(few) as i32
}

/// The character of one or two bytes.
#[tactic(auto, using(crate::proofs::Extended::zero_16))]
fn char_in(few: &[u8]) -> u16
    requires some { 1 ≤ length few.now }
    requires most { length few.now ≤ 2 }
    ensures { result ≡ zero_extended w16 few.now }
{
    LittleEndian::read_uint(few, few.len()) as u16
}

/// The index of one to four bytes.
#[tactic(auto, using(crate::proofs::Extended::zero_32))]
fn index_in(few: &[u8]) -> u32
    requires some { 1 ≤ length few.now }
    requires most { length few.now ≤ 4 }
    ensures { result ≡ zero_extended w32 few.now }
{
    LittleEndian::read_uint(few, few.len()) as u32
}

/// The bits of a float of one to four bytes, the highest ones.
#[tactic(auto, unfolding(crate::specs::Value::right_extended))]
fn float_in(few: &[u8]) -> u32
    requires some { 1 ≤ length few.now }
    requires most { length few.now ≤ 4 }
    ensures { result ≡ right_extended w32 few.now }
{
    let mut all = [0; 4];
    all[4 - few.len()..].copy_from_slice(few);
    LittleEndian::read_u32(&all)
}

/// A few bytes behind zeros.
fn behind_zeros(few: &[u8]) -> [u8; 8]
    requires { length few.now ≤ 8 }
    ensures { result ≡ replicate (8 - length few.now) 0 ++ few.now }
{
    let mut all = [0; 8];
    all[8 - few.len()..].copy_from_slice(few);
    all
}

/// The bits of a double of one to eight bytes, the highest ones.
#[tactic(auto, using(crate::proofs::Extended::eight), unfolding(crate::specs::Value::right_extended))]
fn double_in(few: &[u8]) -> u64
    requires some { 1 ≤ length few.now }
    requires most { length few.now ≤ 8 }
    ensures { result ≡ right_extended w64 few.now }
{
    LittleEndian::read_u64(&behind_zeros(few))
}

/// The number, character or float of this type.
fn numeric(kind: u8, few: &[u8]) -> EncValue
    requires some { 1 ≤ length few.now }
    requires most { length few.now ≤ widest kind }
    ensures value { result ≡ numeric kind few.now }
    ensures range { (sizes : s.TableSizes) → ValueInRange sizes result }
{
    match kind {
        0x00 => EncValue::Byte(byte_in(few)),
        0x02 => EncValue::Short(short_in(few)),
        0x03 => EncValue::Char(char_in(few)),
        0x04 => EncValue::Int(int_in(few)),
        0x06 => EncValue::Long(signed_in(few)),
        0x10 => EncValue::Float(float_in(few)),
        _ => EncValue::Double(double_in(few)),
    }
}

/// The size of the table that a value of this type names an entry of.
fn size_for(sizes: TableSizes, kind: u8) -> u32
    ensures { result ≡ size_for sizes kind }
{
    match kind {
        0x17 => sizes.strings,
        0x18 => sizes.types,
        0x1a => sizes.methods,
        _ => sizes.fields,
    }
}

/// The value of this type that names an entry.
fn naming(sizes: TableSizes, at: usize, kind: u8, value: u32) -> Result<EncValue, PoolFault>
    ensures gives { Gives is_free (λ v. v) result (named_at sizes at kind value) }
    ensures range { IfOk result (ValueInRange sizes) }
{
    let size = size_for(sizes, kind);
    if value >= size {
        return Err(PoolFault::Index { at, value, size });
    }
    match kind {
        0x17 => Ok(EncValue::Str(value)),
        0x18 => Ok(EncValue::Class(value)),
        0x19 => Ok(EncValue::Field(value)),
        0x1a => Ok(EncValue::Method(value)),
        _ => Ok(EncValue::Enum(value)),
    }
}

/// The value of this type at `at` in so many bytes behind the first.
#[tactic(auto, unfolding(crate::specs::Value::scalar_at))]
pub fn scalar_of(
    bytes: &[u8],
    sizes: TableSizes,
    at: usize,
    kind: u8,
    count: usize,
) -> Result<EncValue, PoolFault>
    requires place { at < length bytes.now }
    requires some { 1 ≤ count }
    requires number { kind < 23 → count ≤ widest kind }
    requires index { 23 ≤ kind → count ≤ 4 }
    requires few { count < 2 ^ 8 }
    ensures gives { Gives is_free (λ v. v) result (scalar_at bytes.now sizes at kind count) }
    ensures range { IfOk result (ValueInRange sizes) }
    ensures inside { OnOk result (at + 1 + count ≤ length bytes.now) }
{
    let few = few_of(bytes, at, count)?;
    if kind < 23 {
        Ok(numeric(kind, few))
    } else {
        naming(sizes, at, kind, index_in(few))
    }
}
