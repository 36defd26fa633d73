//! Which reads are stale, and by which Moves.

ghost use Rattle.std.specs.Prelude.{◌≡◌, ◌↔◌, ◌+◌, ◌<◌, ◌^◌, ℕ, true, false, ◌&&◌, replicate, [], ◌∷◌, ◌++◌, length, nat_eq, slice_get, slice_index_or, IfOk, OnOk, IsTrue};
ghost use Rattle.std.specs.List.{list_any};
ghost use Rattle.walk_marks.specs.Walks.{is_on, row_of};
ghost use Rattle.copy_prop.specs.Stale.{IsCopy};
ghost use Rattle.copy_prop.specs.Searches.{AreSteps, AreGood, AllGood, StandsBehind, IsWorth, AreStaleBy, AreCopies, HasNoCopy, Adds, can_read, writes_in};

use crate::copied::Copied;
use crate::moves::copied_at;
use crate::reading::can_read;
use crate::searches::{both, spoilt};
use crate::steps::{Steps, insn_at};
use crate::walking::steps_of;
use criteria::{is_kept, is_on};
use insn_set::Insn;
use program_model::Body;
use seq::Seq;
use std::alloc::{AllocError, Global};
use walk_marks::{Gate, marked};

/// Whether the instruction at a position writes a register.
fn writes_at(insns: &[Insn], register: u32, position: u32) -> bool
    ensures { result ≡ writes_in register (slice_get insns.now position) }
{
    match insns.get(position as usize) {
        Some(insn) => insn.writes(register),
        None => false,
    }
}

/// Whether a handler to which a throw at a position goes stands at another one.
fn is_caught(backs: &[Seq<u32>], from: u32, to: u32) -> bool
    ensures { result ≡ list_any (nat_eq to) (row_of backs.now from) }
{
    match backs.get(from as usize) {
        Some(row) => row.as_slice().iter().any(|one| to == *one),
        None => false,
    }
}

/// The edges that don't pass a write of a register.
#[derive(Drop)]
struct Unwritten<'a> {
    insns: &'a [Insn],
    backs: &'a [Seq<u32>],
    register: u32,
}

impl Gate for Unwritten<'_> {
    ghost use Rattle.copy_prop.specs.Searches.{passes};

    ghost lets = { λ g n m. passes g.insns.now g.backs.now g.register n m };

    fn is_open(&self, from: u32, to: u32) -> bool {
        !writes_at(self.insns, self.register, from) || is_caught(self.backs, from, to)
    }
}

/// Whether an instruction to which the copy is kept can read the original. The only error is want of memory.
fn is_good(
    alloc: Global,
    widths: &[Seq<bool>],
    kept: bool,
    copy: &Copied,
    insn: &Insn,
) -> Result<bool, AllocError>
    ensures { IfOk result (λ r. r ≡ (kept && can_read widths.now copy.now insn.now)) }
{
    if !kept {
        return Ok(false);
    }
    can_read(alloc, widths, copy, insn)
}

/// The positions at which a copy can be read from its original. The only error is want of memory.
fn good_reads(
    alloc: Global,
    widths: &[Seq<bool>],
    body: &Body,
    steps: &Steps,
    copy: &Copied,
) -> Result<Vec<bool>, AllocError>
    requires steps { AreSteps body.now steps.now }
    requires few { length body.now.insns < 2 ^ 32 }
    ensures { IfOk result (λ marks. AreGood widths.now body.now copy.now (length body.now.insns) marks.items) }
{
    let spoilt = spoilt(alloc, body, steps, copy)?;
    let mut good = Vec::with_capacity(alloc, body.insns.len())?;
    for position in 0..body.insns.len() as u32 {
        let insn = insn_at(body, position);
        let kept = is_kept(steps.reached.as_slice(), spoilt.as_slice(), position);
        good.push(is_good(alloc, widths, kept, copy, insn)?)?;
    }
    Ok(good)
}

/// Whether each marked position that reads a register is good.
fn all_good(body: &Body, register: u32, marks: &[bool], good: &[bool]) -> bool
    requires { length body.now.insns < 2 ^ 32 }
    ensures { IsTrue result ↔ AllGood body.now register marks.now good.now (length body.now.insns) }
{
    for position in 0..body.insns.len() as u32 {
        if is_on(marks, position)
            && insn_at(body, position).reads(register)
            && !is_on(good, position)
        {
            return false;
        }
    }
    true
}

/// Whether each read of a register behind a Move is good. The only error is want of memory.
fn stands_behind(
    alloc: Global,
    body: &Body,
    steps: &Steps,
    at: u32,
    register: u32,
    good: &[bool],
) -> Result<bool, AllocError>
    requires steps { AreSteps body.now steps.now }
    requires few { length body.now.insns < 2 ^ 32 }
    requires at { at < length body.now.insns }
    ensures { IfOk result (λ r. IsTrue r ↔ StandsBehind body.now at register good.now) }
{
    let gate = Unwritten {
        insns: body.insns.as_slice(),
        backs: steps.backs.as_slice(),
        register,
    };
    let seeds = steps.rows[at as usize].as_slice();
    let marks = marked(alloc, steps.rows.as_slice(), seeds, &gate)?;
    Ok(all_good(body, register, marks.as_slice(), good))
}

/// Whether the original of a copy has the lower number, or each read of the copy behind the Move is good. The only error
/// is want of memory.
fn is_worth(
    alloc: Global,
    body: &Body,
    steps: &Steps,
    copy: &Copied,
    good: &[bool],
) -> Result<bool, AllocError>
    requires steps { AreSteps body.now steps.now }
    requires few { length body.now.insns < 2 ^ 32 }
    requires at { copy.now.at < length body.now.insns }
    ensures { IfOk result (λ r. IsTrue r ↔ IsWorth body.now copy.now good.now) }
{
    if copy.from < copy.to {
        return Ok(true);
    }
    let to = u32::from(copy.to);
    let first = stands_behind(alloc, body, steps, copy.at, to, good)?;
    let wide = copy.slot.is_wide();
    if wide {
        let second = stands_behind(alloc, body, steps, copy.at, to + 1, good)?;
        Ok(both(first, second))
    } else {
        Ok(first)
    }
}

/// Whether some position is marked.
fn has_mark(marks: &[bool]) -> bool
    ensures { result ≡ list_any (λ mark. mark) marks.now }
{
    marks.iter().any(|mark| *mark)
}

/// So many places, none of which is marked.
fn no_marks(alloc: Global, count: usize) -> Result<Vec<bool>, AllocError>
    ensures { IfOk result (λ marks. marks.items ≡ replicate count false) }
{
    let marks = vec![in alloc; false; count]?;
    Ok(marks)
}

/// The positions whose read is stale by a Move. The only error is want of memory.
fn stale_reads(
    alloc: Global,
    widths: &[Seq<bool>],
    body: &Body,
    steps: &Steps,
    copy: &Copied,
) -> Result<Vec<bool>, AllocError>
    requires steps { AreSteps body.now steps.now }
    requires few { length body.now.insns < 2 ^ 32 }
    requires at { copy.now.at < length body.now.insns }
    requires copy { IsCopy body.now copy.now.at copy.now.slot copy.now.to copy.now.from }
    ensures { IfOk result (λ marks. AreStaleBy widths.now body.now copy.now marks.items) }
{
    let good = good_reads(alloc, widths, body, steps, copy)?;
    let some = has_mark(good.as_slice());
    if some {
        let worth = is_worth(alloc, body, steps, copy, good.as_slice())?;
        if worth {
            Ok(good)
        } else {
            let none = no_marks(alloc, body.insns.len())?;
            Ok(none)
        }
    } else {
        Ok(good)
    }
}

/// Whether a place is marked.
fn is_marked(marks: &[bool], place: usize) -> bool
    ensures { result ≡ is_on marks.now place }
{
    match marks.get(place) {
        Some(mark) => *mark,
        None => false,
    }
}

/// Adds a copy to a row.
fn push_copy(row: &mut Seq<Copied>, copy: &Copied) -> Result<(), AllocError>
    ensures { OnOk result (row.new ≡ row.old ++ copy.now ∷ []) }
{
    row.items.push(*copy)?;
    Ok(())
}

/// Adds a copy to the rows that are marked.
fn add_copy(table: &mut Vec<Seq<Copied>>, marks: &[bool], copy: &Copied) -> Result<(), AllocError>
    ensures { OnOk result (Adds copy.now marks.now table.old.items table.new.items) }
{
    for place in 0..table.len() {
        if is_marked(marks, place) {
            push_copy(&mut table[place], copy)?;
        }
    }
    Ok(())
}

/// Adds the Move that stands at a position to the rows of the reads that are stale by it.
fn add_stale(
    alloc: Global,
    widths: &[Seq<bool>],
    body: &Body,
    steps: &Steps,
    at: u32,
    table: &mut Vec<Seq<Copied>>,
) -> Result<(), AllocError>
    requires steps { AreSteps body.now steps.now }
    requires few { length body.now.insns < 2 ^ 32 }
    requires at { at < length body.now.insns }
    requires copies { AreCopies widths.now body.now at table.old.items }
    ensures { OnOk result (AreCopies widths.now body.now (at + 1) table.new.items) }
{
    if let Some(copy) = copied_at(insn_at(body, at), at) {
        let marks = stale_reads(alloc, widths, body, steps, &copy)?;
        add_copy(table, marks.as_slice(), &copy)?;
    }
    Ok(())
}

/// So many empty rows.
fn no_copies(alloc: Global, count: usize) -> Result<Vec<Seq<Copied>>, AllocError>
    ensures long { IfOk result (λ table. length table.items ≡ count) }
    ensures empty { IfOk result (λ table. (n : ℕ) → slice_index_or table.items n [] ≡ []) }
{
    let mut table = Vec::with_capacity(alloc, count)?;
    for _ in 0..count {
        table.push(Seq::new(alloc))?;
    }
    Ok(table)
}

/// Adds each Move to the rows of the reads that are stale by it.
fn add_all_stale(
    alloc: Global,
    widths: &[Seq<bool>],
    body: &Body,
    table: &mut Vec<Seq<Copied>>,
) -> Result<(), AllocError>
    requires few { length body.now.insns + 1 < 2 ^ 32 }
    requires regions { length body.now.insns + length body.now.regions < 2 ^ 32 }
    requires copies { AreCopies widths.now body.now 0 table.old.items }
    ensures { OnOk result (AreCopies widths.now body.now (length body.now.insns) table.new.items) }
{
    let steps = steps_of(alloc, body)?;
    for at in 0..body.insns.len() as u32 {
        add_stale(alloc, widths, body, &steps, at, table)?;
    }
    Ok(())
}

/// Whether some Move can make a read stale. It takes no memory.
fn has_copy(body: &Body) -> bool
    requires { length body.now.insns < 2 ^ 32 }
    ensures { result ≡ false → HasNoCopy body.now (length body.now.insns) }
{
    for position in 0..body.insns.len() as u32 {
        match copied_at(insn_at(body, position), position) {
            Some(_) => return true,
            None => {}
        }
    }
    false
}

/// For each position the Moves by which its reads are stale. The only error is want of memory.
pub(crate) fn stale_copies(
    alloc: Global,
    widths: &[Seq<bool>],
    body: &Body,
) -> Result<Vec<Seq<Copied>>, AllocError>
    requires few { length body.now.insns + 1 < 2 ^ 32 }
    requires regions { length body.now.insns + length body.now.regions < 2 ^ 32 }
    ensures { IfOk result (λ table. AreCopies widths.now body.now (length body.now.insns) table.items) }
{
    let mut table = no_copies(alloc, body.insns.len())?;
    let some = has_copy(body);
    if some {
        add_all_stale(alloc, widths, body, &mut table)?;
        Ok(table)
    } else {
        Ok(table)
    }
}
