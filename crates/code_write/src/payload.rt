//! Payloads (Dalvik bytecode, "packed-switch-payload", "sparse-switch-payload" and "fill-array-data-payload").

ghost use Rattle.std.specs.Prelude.{◌≡◌, ◌++◌, ◌%◌, ◌∷◌, [], length, min, take, OnOk};
ghost use Rattle.std.specs.List.{flat_map};
ghost use Rattle.std.specs.Int.{w32, w64, cast_unsigned, to_le_bytes};
ghost use Rattle.code_write.specs.Code.{spots_of};
ghost use Rattle.code_write.specs.Units.{unit_bytes};
ghost use Rattle.code_write.specs.Payloads.{number_bytes, length_low, length_high, target_bytes, item_bytes, odd_byte, payload_text, payload_behind, with_payloads};

use crate::bytes::{push_pad, push_units};
use crate::insn::{far_of, place_at};
use crate::units::{high, low};
use byteorder::{ByteOrder, LittleEndian};
use program_model::Insn;
use relax::{Layout, payload_units};
use std::alloc::AllocError;

/// Adds a number of 32 bits.
fn push_number(out: &mut Vec<u8>, number: u32) -> Result<(), AllocError>
    ensures { OnOk result (out.new.items ≡ out.old.items ++ number_bytes number) }
{
    push_units(out, &[low(number), high(number)])
}

/// Adds how far each target is from the switch.
fn push_targets(
    out: &mut Vec<u8>,
    layout: &Layout,
    from: u32,
    targets: &[u32],
) -> Result<(), AllocError>
    ensures { OnOk result (out.new.items ≡ out.old.items ++ flat_map (target_bytes (spots_of layout.now) from) targets.now) }
{
    for target in targets {
        let to = place_at(&layout.starts, layout.size, *target as usize);
        push_number(out, far_of(from, to))?;
    }
    Ok(())
}

/// Adds the keys.
fn push_keys(out: &mut Vec<u8>, keys: &[i32]) -> Result<(), AllocError>
    ensures { OnOk result (out.new.items ≡ out.old.items ++ flat_map (λ key. number_bytes (cast_unsigned w32 key)) keys.now) }
{
    for key in keys {
        push_number(out, key.cast_unsigned())?;
    }
    Ok(())
}

/// Adds the lowest bytes of an item.
fn push_item(out: &mut Vec<u8>, width: u8, item: u64) -> Result<(), AllocError>
    ensures { OnOk result (out.new.items ≡ out.old.items ++ item_bytes width item) }
{
    let mut bytes = [0; 8];
    LittleEndian::write_u64(&mut bytes, item);
    out.extend_from_slice(&bytes[..usize::from(width.min(8))])
}

/// Adds the items.
fn push_items(out: &mut Vec<u8>, width: u8, items: &[u64]) -> Result<(), AllocError>
    ensures { OnOk result (out.new.items ≡ out.old.items ++ flat_map (item_bytes width) items.now) }
{
    for item in items {
        push_item(out, width, *item)?;
    }
    Ok(())
}

/// Adds a zero byte where the items have an odd number of bytes.
fn push_odd(out: &mut Vec<u8>, width: u8, count: usize) -> Result<(), AllocError>
    ensures { OnOk result (out.new.items ≡ out.old.items ++ odd_byte width count) }
{
    if width % 2 == 1 && count % 2 == 1 {
        out.extend_from_slice(&[0])?;
    }
    Ok(())
}

/// The lower half of a count.
fn low_count(count: usize) -> u16
    ensures { result ≡ length_low count }
{
    (count % 0x1_0000) as u16
}

/// The upper half of a count of 32 bits.
fn high_count(count: usize) -> u16
    ensures { result ≡ length_high count }
{
    (count / 0x1_0000 % 0x1_0000) as u16
}

/// Adds the payload of the instruction at `from`, none where it has none.
fn push_payload(
    out: &mut Vec<u8>,
    layout: &Layout,
    from: u32,
    insn: &Insn,
) -> Result<(), AllocError>
    ensures { OnOk result (out.new.items ≡ out.old.items ++ payload_text (spots_of layout.now) from insn.now) }
{
    match insn {
        Insn::PackedSwitch { first, targets, .. } => {
            push_units(out, &[0x0100, low_count(targets.len())])?;
            push_number(out, first.cast_unsigned())?;
            push_targets(out, layout, from, targets.as_slice())
        }
        Insn::SparseSwitch { keys, targets, .. } => {
            push_units(out, &[0x0200, low_count(targets.len())])?;
            push_keys(out, keys.as_slice())?;
            push_targets(out, layout, from, targets.as_slice())
        }
        Insn::FillArray { width, items, .. } => {
            let count = items.len();
            push_units(
                out,
                &[
                    0x0300,
                    u16::from(*width),
                    low_count(count),
                    high_count(count),
                ],
            )?;
            push_items(out, *width, items.as_slice())?;
            push_odd(out, *width, count)
        }
        _ => Ok(()),
    }
}

/// Adds the payload of the instruction in this position at the next even unit.
fn push_behind(out: &mut Vec<u8>, layout: &Layout, at: usize, insn: &Insn) -> Result<(), AllocError>
    ensures { OnOk result (out.new.items ≡ payload_behind (spots_of layout.now) out.old.items at insn.now) }
{
    if payload_units(insn) > 0 {
        push_pad(out)?;
        push_payload(out, layout, place_at(&layout.starts, layout.size, at), insn)?;
    }
    Ok(())
}

/// Adds the payloads of the instructions, each at an even unit.
pub(crate) fn push_payloads(
    out: &mut Vec<u8>,
    insns: &[Insn],
    layout: &Layout,
) -> Result<(), AllocError>
    ensures { OnOk result (out.new.items ≡ with_payloads (spots_of layout.now) out.old.items 0 insns.now) }
{
    for at in 0..insns.len() {
        push_behind(out, layout, at, &insns[at])?;
    }
    Ok(())
}
