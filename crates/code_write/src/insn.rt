//! Instructions in their places.

ghost use Rattle.std.specs.Prelude.{◌≡◌, ◌++◌, pos, ◌-ℤ◌, OnOk};
ghost use Rattle.code_write.specs.Units.{unit_bytes};
ghost use Rattle.code_write.specs.Code.{spots_of, place_at, far_of, format_of, insn_units, goes_to, payload_count, code_text};

use crate::fields::fields_of;
use crate::opcode::opcode_of;
use crate::units::push_fields;
use insn_set::Format;
use program_model::{Insn, Renumber};
use relax::{Layout, new_number, payload_units};
use std::alloc::AllocError;

/// Where a position begins, `end` where there is no such position.
pub(crate) fn place_at(starts: &[u32], end: u32, position: usize) -> u32
    ensures { result ≡ place_at starts.now end position }
{
    match starts.get(position) {
        Some(start) => *start,
        None => end,
    }
}

/// How far it is from one place to another, in 32 bits of which the highest is the sign.
pub(crate) fn far_of(from: u32, to: u32) -> u32
    ensures { result ≡ far_of from to }
{
    if from <= to {
        to - from
    } else {
        u32::MAX - (from - to) + 1
    }
}

/// How far it is from one place to another.
fn distance(from: u32, to: u32) -> i64
    ensures { result ≡ pos to -ℤ pos from }
{
    i64::from(to) - i64::from(from)
}

/// The first format with room for the instruction at `from` that goes to `to`.
fn format_of(insn: &Insn, numbers: &Renumber, from: u32, to: u32) -> Format
    ensures { result ≡ format_of numbers.now from to insn.now }
{
    match insn {
        Insn::ConstString { to, string } => {
            let string = new_number(&numbers.strings, *string);
            let insn = Insn::ConstString { to: *to, string };
            insn.shortest(0)
        }
        _ => insn.shortest(distance(from, to)),
    }
}

/// Adds the units of the instruction at `from` that goes to `to`.
fn push_insn(
    out: &mut Vec<u8>,
    insn: &Insn,
    numbers: &Renumber,
    from: u32,
    to: u32,
) -> Result<(), AllocError>
    ensures { OnOk result (out.new.items ≡ out.old.items ++ unit_bytes (insn_units numbers.now from to insn.now)) }
{
    let format = format_of(insn, numbers, from, to);
    let fields = fields_of(insn, format, numbers, far_of(from, to));
    push_fields(out, format, opcode_of(insn, format), &fields)
}

/// How many payloads the instruction has.
fn payload_count(insn: &Insn) -> usize
    ensures { result ≡ payload_count insn.now }
{
    if payload_units(insn) == 0 { 0 } else { 1 }
}

/// Where the instruction at `from` goes: to its target, or to its payload, the one in this place of all.
fn goes_to(layout: &Layout, payload: usize, from: u32, insn: &Insn) -> u32
    ensures { result ≡ goes_to (spots_of layout.now) payload from insn.now }
{
    match insn {
        Insn::Goto { target } | Insn::If { target, .. } | Insn::IfZero { target, .. } => {
            place_at(&layout.starts, layout.size, *target as usize)
        }
        Insn::FillArray { .. } | Insn::PackedSwitch { .. } | Insn::SparseSwitch { .. } => {
            place_at(&layout.payloads, layout.size, payload)
        }
        _ => from,
    }
}

/// Adds the units of the instructions.
pub(crate) fn push_code(
    out: &mut Vec<u8>,
    insns: &[Insn],
    layout: &Layout,
    numbers: &Renumber,
) -> Result<(), AllocError>
    ensures { OnOk result (out.new.items ≡ out.old.items ++ code_text numbers.now (spots_of layout.now) 0 0 insns.now) }
{
    let mut payload: usize = 0;
    for at in 0..insns.len() {
        let insn = &insns[at];
        let from = place_at(&layout.starts, layout.size, at);
        let to = goes_to(layout, payload, from, insn);
        push_insn(out, insn, numbers, from, to)?;
        payload += payload_count(insn);
    }
    Ok(())
}
