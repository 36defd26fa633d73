//! An instruction from the units where it begins.

ghost use Rattle.std.specs.Prelude.{◌≡◌, ◌+◌, ◌≤◌, ◌<◌, length, IsTrue, IfOk};
ghost use Rattle.std.specs.List.{list_all};
ghost use Rattle.dex_base.specs.Reading.{Gives};
ghost use Rattle.code_read.specs.Checks.{operands_inside};
ghost use Rattle.code_read.specs.Branches.{is_branch, is_call, is_range, offset_form, branch_form, nibbles_form, registers_from, words_form, most_words, call_form};
ghost use Rattle.code_read.specs.Decoded.{opcode_at, fields_at, payload_of, entries_at, entries_of, check_payloads, branch_at, call_at, insn_of, insn_at, checked_at, insns_from, insns_of};
ghost use Rattle.code_read.specs.Fault.{is_free, passed};
ghost use Rattle.code_read.specs.Payloads.{table_form};
ghost use Rattle.code_read.specs.Positions.{target_from};
ghost use Rattle.code_read.specs.Seen.{seen};

use crate::checks::fits_sizes;
use crate::fault::CodeFault;
use crate::fields::{Fields, fields_of};
use crate::forms::{byte_of, plain_of, short_of, word_of};
use crate::limits::passed;
use crate::opcodes::{format_of, kind_of, test_of};
use crate::payload::{first_key, has_payload, is_right, items_of, keys_of, size_of, targets_of};
use crate::places::Places;
use crate::positions::{payload_from, target_from};
use crate::sizes::Sizes;
use crate::sweep::{rest_from, unit_at};
use insn_set::Insn;
use program_model::Counted;
use seq::{Seq, Words};
use std::alloc::{AllocError, Global};

/// The opcode of the instruction at this unit.
pub(crate) fn opcode_at(units: &[u16], start: u32) -> u16
    ensures { result ≡ opcode_at units.now start }
{
    unit_at(units, start as usize) % 256
}

/// The fields of the instruction at this unit, 0 where none is there.
#[tactic(auto, unfolding(crate::specs::Decoded::fields_at))]
fn fields_at(units: &[u16], start: u32) -> Fields
    ensures { result ≡ fields_at units.now start }
{
    let nothing = Fields {
        a: 0,
        b: 0,
        c: 0,
        wide: 0,
    };
    match format_of(opcode_at(units, start)) {
        Some(format) => match fields_of(format, rest_from(units, start as usize)) {
            Some(f) => f,
            None => nothing,
        },
        None => nothing,
    }
}

/// The units from the payload on that an instruction names; none where it names no payload.
#[tactic(auto, unfolding(crate::specs::Decoded::payload_of))]
fn payload_of<'a>(places: &Places<'a>, start: u32, f: Fields) -> &'a [u16]
    ensures { result.now ≡ payload_of (seen places.now) start f }
{
    match payload_from(places, start, word_of(f.wide)) {
        Some(unit) => rest_from(places.units, unit as usize),
        None => &[],
    }
}

/// How many entries the payload of the instruction at `start` has, 0 where it needs none.
fn entries_of(places: &Places, start: u32, op: u16, f: Fields) -> Result<u32, CodeFault>
    ensures { result ≡ entries_of (seen places.now) start op f }
{
    if !has_payload(op) {
        return Ok(0);
    }
    let payload = payload_of(places, start, f);
    if is_right(op, payload) {
        Ok(size_of(op, payload))
    } else {
        Err(CodeFault::Payload { unit: start })
    }
}

/// How many entries the payload of the instruction at `start` has, 0 where it needs none.
#[tactic(auto, unfolding(crate::specs::Decoded::entries_at))]
fn entries_at(places: &Places, start: u32) -> Result<u32, CodeFault>
    ensures { result ≡ entries_at (seen places.now) start }
{
    entries_of(
        places,
        start,
        opcode_at(places.units, start),
        fields_at(places.units, start),
    )
}

/// Whether each instruction at these starts that needs a payload has a right one. `Payload` names the first that has
/// none. The tables together may have as many entries as a program may have cells.
fn check_payloads_at(places: &Places, starts: &[u32]) -> Result<(), CodeFault>
    ensures { result ≡ check_payloads (seen places.now) 67108864 starts.now }
{
    let mut left = Counted::Cells.limit();
    for start in starts {
        let entries = u64::from(entries_at(places, *start)?);
        if entries > left {
            return Err(passed(Counted::Cells));
        }
        left -= entries;
    }
    Ok(())
}

/// Whether each instruction that needs a payload has a right one.
pub(crate) fn check_payloads(places: &Places) -> Result<(), CodeFault>
    ensures { result ≡ check_payloads (seen places.now) 67108864 places.now.starts.items }
{
    check_payloads_at(places, places.starts.as_slice())
}

/// Whether the opcode is that of a branch.
fn is_branch(op: u16) -> bool
    ensures { result ≡ is_branch op }
{
    (0x28 <= op && op <= 0x2a) || (0x32 <= op && op <= 0x3d)
}

/// Whether the opcode is that of a call or a filled array.
fn is_call(op: u16) -> bool
    ensures { result ≡ is_call op }
{
    (0x24 <= op && op <= 0x25) || ((0x6e <= op && op <= 0x72) || (0x74 <= op && op <= 0x78))
}

/// Whether the opcode is that of a call by range.
fn is_range(op: u16) -> bool
    ensures { result ≡ is_range op }
{
    op == 0x25 || (0x74 <= op && op <= 0x78)
}

/// How far the branch with this opcode goes, in units.
fn offset_of(op: u16, f: Fields) -> i32
    ensures { result ≡ offset_form op f }
{
    match op {
        0x28 => i32::from(byte_of(f.a)),
        0x29 => i32::from(short_of(f.a)),
        0x2a => word_of(f.wide),
        0x32..=0x37 => i32::from(short_of(f.c)),
        _ => i32::from(short_of(f.b)),
    }
}

/// The branch with this opcode and these fields to the position.
fn branch_of(op: u16, f: Fields, target: u32) -> Insn
    ensures { result ≡ branch_form op f target }
{
    match op {
        0x28..=0x2a => Insn::Goto { target },
        0x32..=0x37 => Insn::If {
            test: test_of(op - 0x32),
            a: f.a,
            b: f.b,
            target,
        },
        _ => Insn::IfZero {
            test: test_of(op.saturating_sub(0x38)),
            a: f.a,
            target,
        },
    }
}

/// The branch at `start`. Only the longest goto may go to itself.
fn branch_at(places: &Places, start: u32, op: u16, f: Fields) -> Insn
    ensures { result ≡ branch_at places.now.starts.items start op f }
{
    let offset = offset_of(op, f);
    if offset == 0 && op != 0x2a {
        branch_of(op, f, u32::MAX)
    } else {
        branch_of(op, f, target_from(places, start, offset))
    }
}

/// The first registers of a call by nibbles.
fn nibbles_of(alloc: Global, f: Fields) -> Result<Words, AllocError>
    requires { f.a ≤ 5 }
    ensures { IfOk result (λ words. words ≡ nibbles_form f) }
{
    let all = [
        f.c % 16,
        f.c / 16 % 16,
        f.c / 256 % 16,
        f.c / 4096,
        (f.wide % 16) as u16,
    ];
    Words::of_slice(alloc, &all[..f.a as usize])
}

/// The registers of a call by range: `count` from `first` on.
fn range_of(alloc: Global, first: u16, count: u16) -> Result<Words, AllocError>
    requires { first + count ≤ 65536 }
    ensures { IfOk result (λ words. words ≡ registers_from first count) }
{
    let mut all = Vec::with_capacity(alloc, count as usize)?;
    for place in 0..count {
        all.push(first + place)?;
    }
    Words::of_slice(alloc, all.as_slice())
}

/// How many registers the call with this opcode may count.
fn most_words(op: u16, f: Fields) -> u32
    ensures { result ≡ most_words op f }
{
    if is_range(op) {
        65536 - u32::from(f.c)
    } else {
        5
    }
}

/// The registers of a call or filled array, which are not too many.
fn words_of(alloc: Global, op: u16, f: Fields) -> Result<Words, AllocError>
    requires { f.a ≤ most_words op f }
    ensures { IfOk result (λ words. words ≡ words_form op f) }
{
    if is_range(op) {
        range_of(alloc, f.c, f.a)
    } else {
        nibbles_of(alloc, f)
    }
}

/// The call or filled array with these registers.
fn call_of(op: u16, f: Fields, args: Words) -> Insn
    requires { args ≡ words_form op f }
    ensures { result ≡ call_form op f }
{
    if 0x24 <= op && op <= 0x25 {
        Insn::FilledNewArray {
            kind: u32::from(f.b),
            args,
        }
    } else {
        let number = if is_range(op) {
            op.saturating_sub(0x74)
        } else {
            op.saturating_sub(0x6e)
        };
        Insn::Invoke {
            kind: kind_of(number),
            method: u32::from(f.b),
            args,
        }
    }
}

/// The call or filled array at `start`, `Operand` where its registers are too many.
fn call_at(alloc: Global, start: u32, op: u16, f: Fields) -> Result<Insn, CodeFault>
    ensures { Gives is_free (λ insn. insn) result (call_at start op f) }
{
    if u32::from(f.a) <= most_words(op, f) {
        let args = words_of(alloc, op, f)?;
        Ok(call_of(op, f, args))
    } else {
        Err(CodeFault::Operand { unit: start })
    }
}

/// The switch or filling of an array at `start`, with its payload.
fn table_at(
    alloc: Global,
    payload: &[u16],
    places: &Places,
    start: u32,
    op: u16,
    on: u16,
) -> Result<Insn, AllocError>
    ensures { IfOk result (λ insn. insn ≡ table_form op on (target_from places.now.starts.items start) payload.now) }
{
    let size = size_of(op, payload);
    if op == 0x26 {
        let width = unit_at(payload, 1);
        Ok(Insn::FillArray {
            on,
            width: (width % 256) as u8,
            items: Seq::of_vec(items_of(alloc, rest_from(payload, 4), width, size)?),
        })
    } else if op == 0x2b {
        Ok(Insn::PackedSwitch {
            on,
            first: first_key(payload),
            targets: Seq::of_vec(targets_of(alloc, places, start, rest_from(payload, 4), size)?),
        })
    } else {
        let behind = rest_from(payload, 2 + 2 * size as usize);
        Ok(Insn::SparseSwitch {
            on,
            keys: Seq::of_vec(keys_of(alloc, rest_from(payload, 2), size)?),
            targets: Seq::of_vec(targets_of(alloc, places, start, behind, size)?),
        })
    }
}

/// The instruction at `start` with this opcode and these fields.
fn insn_of(
    alloc: Global,
    places: &Places,
    start: u32,
    op: u16,
    f: Fields,
) -> Result<Insn, CodeFault>
    ensures { Gives is_free (λ insn. insn) result (insn_of (seen places.now) start op f) }
{
    if is_call(op) {
        call_at(alloc, start, op, f)
    } else if is_branch(op) {
        Ok(branch_at(places, start, op, f))
    } else if has_payload(op) {
        Ok(table_at(alloc, payload_of(places, start, f), places, start, op, f.a)?)
    } else {
        Ok(plain_of(op, f))
    }
}

/// The instruction at `start`.
#[tactic(auto, unfolding(crate::specs::Decoded::insn_at))]
fn insn_at(alloc: Global, places: &Places, start: u32) -> Result<Insn, CodeFault>
    ensures { Gives is_free (λ insn. insn) result (insn_at (seen places.now) start) }
{
    insn_of(
        alloc,
        places,
        start,
        opcode_at(places.units, start),
        fields_at(places.units, start),
    )
}

/// The instruction at `start`, `Operand` where a number of it is out of range.
#[tactic(auto, unfolding(crate::specs::Decoded::checked_at))]
fn checked_at(alloc: Global, places: &Places, sizes: &Sizes, start: u32) -> Result<Insn, CodeFault>
    ensures gives { Gives is_free (λ insn. insn) result (checked_at (seen places.now) sizes.now start) }
    ensures inside { IfOk result (λ insn. IsTrue (operands_inside sizes.now insn)) }
{
    let insn = insn_at(alloc, places, start)?;
    if fits_sizes(&insn, sizes) {
        Ok(insn)
    } else {
        Err(CodeFault::Operand { unit: start })
    }
}

/// The instructions at these starts.
fn insns_at(
    alloc: Global,
    places: &Places,
    sizes: &Sizes,
    starts: &[u32],
) -> Result<Vec<Insn>, CodeFault>
    ensures gives { Gives is_free (λ v. v.items) result (insns_from (seen places.now) sizes.now starts.now) }
    ensures count { IfOk result (λ insns. length insns.items ≡ length starts.now) }
    ensures inside { IfOk result (λ insns. IsTrue (list_all (operands_inside sizes.now) insns.items)) }
{
    let mut insns = Vec::with_capacity(alloc, starts.len())?;
    for start in starts {
        let insn = checked_at(alloc, places, sizes, *start)?;
        insns.push(insn)?;
    }
    Ok(insns)
}

/// The instructions of a body.
pub(crate) fn insns_of(
    alloc: Global,
    places: &Places,
    sizes: &Sizes,
) -> Result<Vec<Insn>, CodeFault>
    ensures gives { Gives is_free (λ v. v.items) result (insns_of (seen places.now) sizes.now) }
    ensures count { IfOk result (λ insns. length insns.items ≡ length places.now.starts.items) }
    ensures inside { IfOk result (λ insns. IsTrue (list_all (operands_inside sizes.now) insns.items)) }
{
    insns_at(alloc, places, sizes, places.starts.as_slice())
}
