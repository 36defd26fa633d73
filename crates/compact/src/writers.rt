//! Which positions write each register.

ghost use Rattle.std.specs.Prelude.{◌≡◌, ◌++◌, ◌<◌, ◌^◌, ℕ, false, length, slice_get, IfOk, OnOk};
ghost use Rattle.walk_marks.specs.Walks.{row_of};
ghost use Rattle.live_regs.specs.Liveness.{operand};
ghost use Rattle.compact.specs.Ties.{write_list, write_list_at, AreWriters};

use insn_set::Insn;
use program_model::Body;
use seq::Seq;
use std::alloc::{AllocError, Global};
use walk_marks::turned;

/// Adds the register of an operand, and the second one of a wide operand.
fn add(wide: bool, register: u16, found: &mut Vec<u32>) -> Result<(), AllocError>
    ensures { OnOk result (found.new.items ≡ found.old.items ++ operand wide register) }
{
    found.push(u32::from(register))?;
    if wide {
        found.push(u32::from(register) + 1)?;
    }
    Ok(())
}

/// Adds the registers that an instruction writes.
fn add_written(insn: &Insn, found: &mut Vec<u32>) -> Result<(), AllocError>
    ensures { OnOk result (found.new.items ≡ found.old.items ++ write_list insn.now) }
{
    match insn {
        Insn::Move { slot, to, .. } | Insn::MoveResult { slot, to } => add(
            slot.is_wide(),
            *to,
            found,
        ),
        Insn::ConstWide { to, .. } => add(true, *to, found),
        Insn::MoveException { to }
        | Insn::Const { to, .. }
        | Insn::ConstString { to, .. }
        | Insn::ConstClass { to, .. }
        | Insn::InstanceOf { to, .. }
        | Insn::ArrayLength { to, .. }
        | Insn::NewInstance { to, .. }
        | Insn::NewArray { to, .. }
        | Insn::Cmp { to, .. }
        | Insn::Literal { to, .. } => add(false, *to, found),
        Insn::ArrayGet { item, to, .. }
        | Insn::InstanceGet { item, to, .. }
        | Insn::StaticGet { item, to, .. } => add(item.is_wide(), *to, found),
        Insn::Unary { op, to, .. } => add(op.writes_wide(), *to, found),
        Insn::Binary { op, to, .. } => add(op.is_wide(), *to, found),
        _ => Ok(()),
    }
}

/// The registers that the instruction at a position writes.
fn written_at(alloc: Global, insns: &[Insn], position: usize) -> Result<Seq<u32>, AllocError>
    ensures { IfOk result (λ found. found ≡ write_list_at (slice_get insns.now position)) }
{
    let mut found = Vec::new(alloc);
    if let Some(insn) = insns.get(position) {
        add_written(insn, &mut found)?;
    }
    Ok(Seq::of_vec(found))
}

/// What each position writes.
fn write_rows(alloc: Global, body: &Body) -> Result<Vec<Seq<u32>>, AllocError>
    ensures long { IfOk result (λ v. length v.items ≡ length body.now.insns) }
    ensures rows { IfOk result (λ v. (n : ℕ) → n < length body.now.insns → row_of v.items n ≡ write_list_at (slice_get body.now.insns n)) }
{
    let insns = body.insns.as_slice();
    let mut rows = Vec::with_capacity(alloc, insns.len())?;
    for position in 0..insns.len() {
        rows.push(written_at(alloc, insns, position)?)?;
    }
    Ok(rows)
}

/// For each register, the positions that write it.
pub(crate) fn writers_of(alloc: Global, body: &Body) -> Result<Vec<Seq<u32>>, AllocError>
    requires { length body.now.insns < 2 ^ 32 }
    ensures long { IfOk result (λ v. length v.items ≡ body.now.registers) }
    ensures writers { IfOk result (λ v. AreWriters body.now v.items) }
{
    let rows = write_rows(alloc, body)?;
    let writers = turned(alloc, &rows, body.registers as usize)?;
    Ok(writers)
}
