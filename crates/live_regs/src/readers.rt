//! Which positions read each register.

ghost use Rattle.std.specs.Prelude.{◌≡◌, ℕ, ◌<◌, ◌^◌, ◌++◌, false, length, slice_get, IfOk, OnOk};
ghost use Rattle.walk_marks.specs.Walks.{row_of};
ghost use Rattle.live_regs.specs.Liveness.{AreReaders, operand, single_list, several_list, read_list_at};

use insn_set::Insn;
use program_model::Body;
use seq::Seq;
use std::alloc::{AllocError, Global};
use walk_marks::turned;

/// Adds the register of an operand, and the second one of a wide operand.
fn add(wide: bool, register: u16, found: &mut Vec<u32>) -> Result<(), AllocError>
    ensures { OnOk result (found.new.items ≡ found.old.items ++ operand wide register) }
{
    found.push(u32::from(register))?;
    if wide {
        found.push(u32::from(register) + 1)?;
    }
    Ok(())
}

/// Adds the registers of a call.
fn add_all(registers: &[u16], found: &mut Vec<u32>) -> Result<(), AllocError>
    ensures { OnOk result (found.new.items ≡ found.old.items ++ registers.now) }
{
    for register in registers {
        found.push(u32::from(*register))?;
    }
    Ok(())
}

/// Adds the registers of a form that reads an array, or compares.
fn add_pair(a: u16, b: u16, found: &mut Vec<u32>) -> Result<(), AllocError>
    ensures { OnOk result (found.new.items ≡ (found.old.items ++ operand false a) ++ operand false b) }
{
    add(false, a, found)?;
    add(false, b, found)
}

/// Adds the registers that a form with one operand reads.
fn add_single(insn: &Insn, found: &mut Vec<u32>) -> Result<(), AllocError>
    ensures { OnOk result (found.new.items ≡ found.old.items ++ single_list insn.now) }
{
    match insn {
        Insn::Move { slot, from, .. } | Insn::Return { slot, from } => add(
            slot.is_wide(),
            *from,
            found,
        ),
        Insn::MonitorEnter { on }
        | Insn::MonitorExit { on }
        | Insn::CheckCast { on, .. }
        | Insn::FillArray { on, .. }
        | Insn::Throw { on }
        | Insn::PackedSwitch { on, .. }
        | Insn::SparseSwitch { on, .. }
        | Insn::InstanceGet { on, .. } => add(false, *on, found),
        Insn::InstanceOf { from, .. } | Insn::ArrayLength { from, .. } => add(false, *from, found),
        Insn::NewArray { size, .. } => add(false, *size, found),
        Insn::FilledNewArray { args, .. } | Insn::Invoke { args, .. } => add_all(
            args.as_slice(),
            found,
        ),
        Insn::IfZero { a, .. } | Insn::Literal { a, .. } => add(false, *a, found),
        Insn::StaticPut { item, from, .. } => add(item.is_wide(), *from, found),
        Insn::Unary { op, from, .. } => add(op.reads_wide(), *from, found),
        _ => Ok(()),
    }
}

/// Adds the registers that a form with more operands reads.
fn add_several(insn: &Insn, found: &mut Vec<u32>) -> Result<(), AllocError>
    ensures { OnOk result (found.new.items ≡ found.old.items ++ several_list insn.now) }
{
    match insn {
        Insn::Cmp { op, a, b, .. } => {
            add(op.compares_wide(), *a, found)?;
            add(op.compares_wide(), *b, found)
        }
        Insn::If { a, b, .. } => add_pair(*a, *b, found),
        Insn::ArrayGet { array, index, .. } => add_pair(*array, *index, found),
        Insn::ArrayPut {
            item,
            from,
            array,
            index,
        } => {
            add(item.is_wide(), *from, found)?;
            add_pair(*array, *index, found)
        }
        Insn::InstancePut { item, from, on, .. } => {
            add(item.is_wide(), *from, found)?;
            add(false, *on, found)
        }
        Insn::Binary { op, a, b, .. } => {
            add(op.is_wide(), *a, found)?;
            add(op.second_is_wide(), *b, found)
        }
        _ => Ok(()),
    }
}

/// The registers that the instruction at a position reads, some of them twice.
fn read_by(alloc: Global, insns: &[Insn], position: usize) -> Result<Seq<u32>, AllocError>
    ensures { IfOk result (λ found. found ≡ read_list_at (slice_get insns.now position)) }
{
    let mut found = Vec::new(alloc);
    if let Some(insn) = insns.get(position) {
        add_single(insn, &mut found)?;
        add_several(insn, &mut found)?;
    }
    Ok(Seq::of_vec(found))
}

/// The registers that each position reads.
fn reads_of(alloc: Global, body: &Body) -> Result<Vec<Seq<u32>>, AllocError>
    ensures long { IfOk result (λ v. length v.items ≡ length body.now.insns) }
    ensures rows { IfOk result (λ v. (n : ℕ) → n < length body.now.insns → row_of v.items n ≡ read_list_at (slice_get body.now.insns n)) }
{
    let insns = body.insns.as_slice();
    let mut rows = Vec::with_capacity(alloc, insns.len())?;
    for position in 0..insns.len() {
        rows.push(read_by(alloc, insns, position)?)?;
    }
    Ok(rows)
}

/// The positions that read each of the body's registers.
pub(crate) fn readers_of(alloc: Global, body: &Body) -> Result<Vec<Seq<u32>>, AllocError>
    requires { length body.now.insns < 2 ^ 32 }
    ensures long { IfOk result (λ v. length v.items ≡ body.now.registers) }
    ensures reads { IfOk result (λ v. AreReaders body.now v.items) }
{
    let rows = reads_of(alloc, body)?;
    let readers = turned(alloc, &rows, body.registers as usize)?;
    Ok(readers)
}
