//! Which registers stay side by side.

ghost use Rattle.std.specs.Prelude.{◌≡◌, ◌++◌, ◌+◌, ◌<◌, ◌^◌, ℕ, nat_lt, nat_eq, length, map, slice_get, IfOk, OnOk};
ghost use Rattle.std.specs.List.{filter, list_all};
ghost use Rattle.insn_set.specs.Spelling.{fit_nibbles};
ghost use Rattle.walk_marks.specs.Walks.{row_of};
ghost use Rattle.compact.specs.Packed.{wides_written};
ghost use Rattle.compact.specs.Ties.{has_next, tied_words, range_ties, ties_of, ties_at, AreTies, has_some};

use insn_regs::wides_read;
use insn_set::Insn;
use program_model::Body;
use register_criteria::add_wide;
use seq::Seq;
use std::alloc::{AllocError, Global};
use walk_marks::turned;

/// Adds the first register of a wide operand that an instruction writes.
fn add_written(insn: &Insn, found: &mut Vec<u32>) -> Result<(), AllocError>
    ensures { OnOk result (found.new.items ≡ found.old.items ++ wides_written insn.now) }
{
    match insn {
        Insn::Move { slot, to, .. } | Insn::MoveResult { slot, to } => add_wide(
            slot.is_wide(),
            *to,
            found,
        ),
        Insn::ConstWide { to, .. } => add_wide(true, *to, found),
        Insn::ArrayGet { item, to, .. }
        | Insn::InstanceGet { item, to, .. }
        | Insn::StaticGet { item, to, .. } => add_wide(item.is_wide(), *to, found),
        Insn::Unary { op, to, .. } => add_wide(op.writes_wide(), *to, found),
        Insn::Binary { op, to, .. } => add_wide(op.is_wide(), *to, found),
        _ => Ok(()),
    }
}

/// Adds registers.
fn add_all(registers: &[u16], found: &mut Vec<u32>) -> Result<(), AllocError>
    ensures { OnOk result (found.new.items ≡ found.old.items ++ registers.now) }
{
    for register in registers {
        found.push(u32::from(*register))?;
    }
    Ok(())
}

/// Whether the register behind one is among these.
fn has_next(words: &[u16], register: u16) -> bool
    ensures { result ≡ has_next words.now register }
{
    let next = u32::from(register) + 1;
    words.iter().any(|word| u32::from(*word) == next)
}

/// Adds the registers that have the one behind them there too.
fn add_followed(words: &[u16], found: &mut Vec<u32>) -> Result<(), AllocError>
    ensures { OnOk result (found.new.items ≡ found.old.items ++ filter (has_next words.now) words.now) }
{
    for word in words {
        if has_next(words, *word) {
            found.push(u32::from(*word))?;
        }
    }
    Ok(())
}

/// Whether each register has room in a nibble.
fn all_nibbles(words: &[u16]) -> bool
    ensures { result ≡ list_all (λ r. nat_lt r 16) words.now }
{
    words.iter().all(|word| *word < 16)
}

/// Adds the registers that a call by a range ties to the ones behind them.
fn add_range(words: &[u16], found: &mut Vec<u32>) -> Result<(), AllocError>
    ensures { OnOk result (found.new.items ≡ found.old.items ++ tied_words words.now) }
{
    if words.len() <= 5 && all_nibbles(words) {
        return Ok(());
    }
    add_followed(words, found)
}

/// The same for an instruction.
fn add_range_of(insn: &Insn, found: &mut Vec<u32>) -> Result<(), AllocError>
    ensures { OnOk result (found.new.items ≡ found.old.items ++ range_ties insn.now) }
{
    match insn {
        Insn::FilledNewArray { args, .. } | Insn::Invoke { args, .. } => add_range(
            args.as_slice(),
            found,
        ),
        _ => Ok(()),
    }
}

/// The registers that the instruction at a position ties to the ones behind them.
fn ties_at(
    alloc: Global,
    widths: &[Seq<bool>],
    insns: &[Insn],
    position: usize,
) -> Result<Seq<u32>, AllocError>
    ensures { IfOk result (λ found. found ≡ ties_at widths.now (slice_get insns.now position)) }
{
    let mut found = Vec::new(alloc);
    if let Some(insn) = insns.get(position) {
        add_written(insn, &mut found)?;
        let reads = wides_read(alloc, widths, insn)?;
        add_all(reads.as_slice(), &mut found)?;
        add_range_of(insn, &mut found)?;
    }
    Ok(Seq::of_vec(found))
}

/// What each position ties.
fn tie_rows(alloc: Global, widths: &[Seq<bool>], body: &Body) -> Result<Vec<Seq<u32>>, AllocError>
    ensures long { IfOk result (λ v. length v.items ≡ length body.now.insns) }
    ensures rows { IfOk result (λ v. (n : ℕ) → n < length body.now.insns → row_of v.items n ≡ ties_at widths.now (slice_get body.now.insns n)) }
{
    let insns = body.insns.as_slice();
    let mut rows = Vec::with_capacity(alloc, insns.len())?;
    for position in 0..insns.len() {
        rows.push(ties_at(alloc, widths, insns, position)?)?;
    }
    Ok(rows)
}

/// For each register, the positions that tie it to the one behind it.
pub(crate) fn ties_of(
    alloc: Global,
    widths: &[Seq<bool>],
    body: &Body,
) -> Result<Vec<Seq<u32>>, AllocError>
    requires { length body.now.insns < 2 ^ 32 }
    ensures long { IfOk result (λ v. length v.items ≡ body.now.registers) }
    ensures ties { IfOk result (λ v. AreTies widths.now body.now v.items) }
{
    let rows = tie_rows(alloc, widths, body)?;
    let ties = turned(alloc, &rows, body.registers as usize)?;
    Ok(ties)
}

/// Whether a row isn't empty.
pub(crate) fn has_some(rows: &[Seq<u32>], register: usize) -> bool
    ensures { result ≡ has_some rows.now register }
{
    match rows.get(register) {
        Some(row) => row.len() != 0,
        None => false,
    }
}
