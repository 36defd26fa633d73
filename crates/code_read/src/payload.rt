//! The payload that an instruction names: the table of a switch, or the items of an array.

ghost use Rattle.std.specs.Prelude.{◌≡◌, ◌+◌, ◌*◌, ◌^◌, ◌<◌, IfOk, OnOk, slice_index, drop, ◌/◌, ◌++◌, ◌∷◌, []};
ghost use Rattle.std.specs.Int.Signed.{lt_z};
ghost use Rattle.insn_set.specs.Spelling.{is_width, keys_ascend};
ghost use Rattle.code_read.specs.Payloads.{double_in, signed_in, long_in, entries, bytes_in, item_in, items_in, keys_in, has_payload, size_of, is_right, targets_in};
ghost use Rattle.code_read.specs.Positions.{target_from};

use crate::places::Places;
use crate::positions::target_from;
use crate::sweep::{rest_from, unit_at};
use std::alloc::{AllocError, Global};

/// The number of 32 bits at the front, the lower unit first.
fn double_in(units: &[u16]) -> u32
    ensures { result ≡ double_in units.now }
{
    u32::from(unit_at(units, 0)) + 65536 * u32::from(unit_at(units, 1))
}

/// The signed number of 32 bits at the front.
fn signed_in(units: &[u16]) -> i32
    ensures { result ≡ signed_in units.now }
{
    double_in(units).cast_signed()
}

/// The number of 64 bits at the front, the lowest unit first.
fn long_in(units: &[u16]) -> u64
    ensures { result ≡ long_in units.now }
{
    u64::from(double_in(units)) + 0x1_0000_0000 * u64::from(double_in(rest_from(units, 2)))
}

/// Whether the signed number at the front of the first units is below that of the second.
fn is_below(units: &[u16], behind: &[u16]) -> bool
    ensures { result ≡ lt_z (signed_in units.now) (signed_in behind.now) }
{
    signed_in(units) < signed_in(behind)
}

/// Whether the first so many signed numbers in the units ascend.
fn keys_ascend(units: &[u16], count: u16) -> bool
    ensures { result ≡ keys_ascend (keys_in count units.now) }
{
    let mut rest = units;
    let mut left = count;
    while left > 1 {
        let behind = rest_from(rest, 2);
        if !is_below(rest, behind) {
            return false;
        }
        rest = behind;
        left -= 1;
    }
    true
}

/// Whether an array's items may have so many bytes.
fn is_width(width: u16) -> bool
    ensures { result ≡ is_width width }
{
    (width == 1 || width == 2) || (width == 4 || width == 8)
}

/// Whether the opcode is that of an instruction with a payload.
pub(crate) fn has_payload(op: u16) -> bool
    ensures { result ≡ has_payload op }
{
    op == 0x26 || (op == 0x2b || op == 0x2c)
}

/// Whether the payload at the front is one of the kind that the opcode names, with a right width and right keys.
pub(crate) fn is_right(op: u16, payload: &[u16]) -> bool
    ensures { result ≡ is_right op payload.now }
{
    let first = unit_at(payload, 0);
    let second = unit_at(payload, 1);
    if op == 0x26 {
        first == 0x0300 && is_width(second)
    } else if op == 0x2b {
        first == 0x0100
    } else {
        first == 0x0200 && keys_ascend(rest_from(payload, 2), second)
    }
}

/// How many entries the payload says that it has.
pub(crate) fn size_of(op: u16, payload: &[u16]) -> u32
    ensures is { result ≡ size_of op payload.now }
{
    if op == 0x26 {
        double_in(rest_from(payload, 2))
    } else {
        u32::from(unit_at(payload, 1))
    }
}

/// The first number of a packed switch's keys.
pub(crate) fn first_key(payload: &[u16]) -> i32
    ensures { result ≡ signed_in (drop 2 payload.now) }
{
    signed_in(rest_from(payload, 2))
}

/// Adds the key at the front of the units.
fn push_key(keys: &mut Vec<i32>, units: &[u16]) -> Result<(), AllocError>
    ensures { OnOk result (keys.new.items ≡ keys.old.items ++ signed_in units.now ∷ []) }
{
    keys.push(signed_in(units))?;
    Ok(())
}

/// Adds the position to which the offset at the front of the units leads from `start`, or nowhere.
fn push_target(
    targets: &mut Vec<u32>,
    places: &Places,
    start: u32,
    units: &[u16],
) -> Result<(), AllocError>
    ensures { OnOk result (targets.new.items ≡ targets.old.items ++ target_from places.now.starts.items start (signed_in units.now) ∷ []) }
{
    targets.push(target_from(places, start, signed_in(units)))?;
    Ok(())
}

/// So many keys from the front.
pub(crate) fn keys_of(alloc: Global, units: &[u16], count: u32) -> Result<Vec<i32>, AllocError>
    ensures { IfOk result (λ v. v.items ≡ keys_in count units.now) }
{
    let mut keys = Vec::with_capacity(alloc, count as usize)?;
    let mut rest = units;
    let mut left = count;
    while left > 0 {
        push_key(&mut keys, rest)?;
        rest = rest_from(rest, 2);
        left -= 1;
    }
    Ok(keys)
}

/// The positions that so many offsets at the front lead to, from `start` on, or nowhere.
pub(crate) fn targets_of(
    alloc: Global,
    places: &Places,
    start: u32,
    units: &[u16],
    count: u32,
) -> Result<Vec<u32>, AllocError>
    ensures { IfOk result (λ v. v.items ≡ targets_in (target_from places.now.starts.items start) count units.now) }
{
    let mut targets = Vec::with_capacity(alloc, count as usize)?;
    let mut rest = units;
    let mut left = count;
    while left > 0 {
        push_target(&mut targets, places, start, rest)?;
        rest = rest_from(rest, 2);
        left -= 1;
    }
    Ok(targets)
}

/// So many bytes from the front, the lower of each unit first.
fn bytes_of(alloc: Global, units: &[u16], count: u32) -> Result<Vec<u64>, AllocError>
    ensures { IfOk result (λ v. v.items ≡ bytes_in count units.now) }
{
    let mut bytes = Vec::with_capacity(alloc, count as usize)?;
    let mut rest = units;
    let mut left = count;
    while left > 1 {
        let unit = unit_at(rest, 0);
        bytes.push(u64::from(unit % 256))?;
        bytes.push(u64::from(unit / 256))?;
        rest = rest_from(rest, 1);
        left -= 2;
    }
    if left == 0 {
        return Ok(bytes);
    }
    bytes.push(u64::from(unit_at(rest, 0) % 256))?;
    Ok(bytes)
}

/// The item of 2, 4 or 8 bytes at the front.
fn item_in(width: u16, units: &[u16]) -> u64
    ensures { result ≡ item_in width units.now }
{
    if width == 2 {
        u64::from(unit_at(units, 0))
    } else if width == 4 {
        u64::from(double_in(units))
    } else {
        long_in(units)
    }
}

/// So many items of 2, 4 or 8 bytes from the front.
fn wide_items_of(
    alloc: Global,
    units: &[u16],
    width: u16,
    count: u32,
) -> Result<Vec<u64>, AllocError>
    ensures { IfOk result (λ v. v.items ≡ entries (item_in width) (width / 2) count units.now) }
{
    let mut items = Vec::with_capacity(alloc, count as usize)?;
    let mut rest = units;
    let mut left = count;
    while left > 0 {
        items.push(item_in(width, rest))?;
        rest = rest_from(rest, width as usize / 2);
        left -= 1;
    }
    Ok(items)
}

/// So many items of this width from the front.
pub(crate) fn items_of(
    alloc: Global,
    units: &[u16],
    width: u16,
    count: u32,
) -> Result<Vec<u64>, AllocError>
    ensures { IfOk result (λ v. v.items ≡ items_in width count units.now) }
{
    if width == 1 {
        bytes_of(alloc, units, count)
    } else {
        wide_items_of(alloc, units, width, count)
    }
}
