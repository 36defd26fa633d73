//! The sweep: which units begin an instruction, and which a payload.

ghost use Rattle.std.specs.Prelude.{◌≡◌, ◌+◌, ◌<◌, ◌≤◌, ◌^◌, length, drop, slice_index, IfOk, OnOk, IsTrue};
ghost use Rattle.std.specs.Option.{option_map};
ghost use Rattle.dex_base.specs.Reading.{Gives};
ghost use Rattle.insn_set.specs.Formats.{format_units};
ghost use Rattle.code_read.specs.Fault.{is_free};
ghost use Rattle.code_read.specs.Found.{found, with_piece};
ghost use Rattle.code_read.specs.Opcodes.{format_at};
ghost use Rattle.code_read.specs.Payloads.{payload_size};
ghost use Rattle.code_read.specs.Positions.{rises_in};
ghost use Rattle.code_read.specs.Sweep.{payload_kind, piece_size, no_size, size_in, places, sweep_of};

use crate::fault::CodeFault;
use crate::opcodes::format_of;
use std::alloc::{AllocError, Global};

/// The first units of instructions and payloads, each list ascending. The first `kept` of the starts stay whatever
/// follows; the others are those of nops.
#[derive(Drop)]
pub(crate) struct Swept {
    pub starts: Vec<u32>,
    pub payloads: Vec<u32>,
    kept: usize,
}

/// The units from `at` on; none where they end before.
pub(crate) fn rest_from(units: &[u16], at: usize) -> &[u16]
    ensures { result.now ≡ drop at units.now }
{
    if at <= units.len() { &units[at..] } else { &[] }
}

/// The unit at this place, 0 past the end.
pub(crate) fn unit_at(units: &[u16], at: usize) -> u16
    ensures { result ≡ slice_index units.now at }
{
    match units.get(at) {
        Some(unit) => *unit,
        None => 0,
    }
}

/// Which payload a unit begins, 0 for none.
fn payload_kind(unit: u16) -> u16
    ensures { result ≡ payload_kind unit }
{
    if unit % 256 == 0 && unit / 256 <= 3 {
        unit / 256
    } else {
        0
    }
}

/// How many units the payload at the front has, none where they end before that is known. `kind` is the high byte of
/// its first unit.
pub(crate) fn payload_units(kind: u16, units: &[u16]) -> Option<u64>
    ensures { result ≡ payload_size kind units.now }
{
    match (kind, units) {
        (1, [_, size, ..]) => Some(4 + 2 * u64::from(*size)),
        (2, [_, size, ..]) => Some(2 + 4 * u64::from(*size)),
        (3, [_, width, low, high, ..]) => {
            let size = u64::from(*low) + 65536 * u64::from(*high);
            Some(4 + (u64::from(*width) * size + 1) / 2)
        }
        _ => None,
    }
}

/// How many units the instructions with this opcode have, none where there is no such instruction.
pub(crate) fn opcode_units(op: u16) -> Option<u64>
    ensures { result ≡ option_map format_units (format_at op) }
{
    match format_of(op) {
        Some(format) => Some(u64::from(format.units())),
        None => None,
    }
}

/// How many units the piece at the front has, whether or not they are there.
fn piece_size(units: &[u16]) -> Option<u64>
    ensures { result ≡ piece_size units.now }
{
    match units {
        [unit, ..] => {
            let kind = payload_kind(*unit);
            if kind == 0 {
                opcode_units(*unit % 256)
            } else {
                payload_units(kind, units)
            }
        }
        [] => None,
    }
}

/// The fault of a piece whose size is not known.
fn no_size(at: u32, unit: u16) -> CodeFault
    ensures { result ≡ no_size at unit }
{
    if payload_kind(unit) == 0 {
        CodeFault::Opcode { unit: at }
    } else {
        CodeFault::Cut { unit: at }
    }
}

/// How many units the piece at the front has. `at` is the number of its first unit. `Opcode` or `Cut` where nothing
/// whole stands there.
fn size_at(rest: &[u16], at: u32) -> Result<usize, CodeFault>
    ensures is { result ≡ size_in at rest.now }
    ensures some { IfOk result (λ n. 0 < n) }
    ensures inside { IfOk result (λ n. n ≤ length rest.now) }
{
    match piece_size(rest) {
        Some(size) => {
            if size > 0 && size <= rest.len() as u64 {
                Ok(size as usize)
            } else {
                Err(CodeFault::Cut { unit: at })
            }
        }
        None => Err(no_size(at, unit_at(rest, 0))),
    }
}

/// Takes the piece that begins with this unit at this place. A payload drops the nops directly before it, and any other
/// instruction than a nop keeps them.
fn take_piece(swept: &mut Swept, unit: u16, at: u32) -> Result<(), AllocError>
    ensures { OnOk result (found swept.new.starts.items swept.new.kept swept.new.payloads.items ≡ with_piece (found swept.old.starts.items swept.old.kept swept.old.payloads.items) unit at) }
{
    if payload_kind(unit) != 0 {
        swept.starts.truncate(swept.kept);
        swept.payloads.push(at)?;
    } else if unit % 256 == 0 {
        swept.starts.push(at)?;
    } else {
        swept.starts.push(at)?;
        swept.kept = swept.starts.len();
    }
    Ok(())
}

/// The instructions and payloads of the units, from the first unit on. A run of nops directly before a payload or the
/// end is no instruction. `Opcode` and `Cut` come in the order of the units.
pub(crate) fn sweep(alloc: Global, units: &[u16]) -> Result<Swept, CodeFault>
    requires { length units.now < 2 ^ 32 }
    ensures gives { Gives is_free (λ s. places units.now s.starts.items s.payloads.items) result (sweep_of units.now) }
    ensures starts { IfOk result (λ s. IsTrue (rises_in 0 (length units.now) s.starts.items)) }
    ensures payloads { IfOk result (λ s. IsTrue (rises_in 0 (length units.now) s.payloads.items)) }
{
    let mut swept = Swept {
        starts: Vec::new(alloc),
        payloads: Vec::new(alloc),
        kept: 0,
    };
    let mut at = 0;
    while at < units.len() {
        let rest = rest_from(units, at);
        let size = size_at(rest, at as u32)?;
        take_piece(&mut swept, unit_at(rest, 0), at as u32)?;
        at += size;
    }
    swept.starts.truncate(swept.kept);
    Ok(swept)
}
