//! Writing the lines of a method as a debug item.

ghost use Rattle.std.specs.Prelude.{◌≡◌, ◌+◌, ◌-◌, ◌<◌, ◌≤◌, ◌^◌, ◌++◌, length, take, replicate, IfOk, OnOk, OnErr};
ghost use Rattle.std.specs.List.{AllByRecursion};
ghost use Rattle.line_tables.specs.Text.{AscendsFrom, first_line, is_near, line_text, digit, opcode_text, entry_text, entries_text, item_text};

use dex_base::{write_sleb, write_uleb};
use std::alloc::AllocError;

/// The first line other than 0, or 0 without one.
fn first_line(lines: &[u32]) -> u32
    requires { AllByRecursion (λ x. x < 2 ^ 31) lines.now }
    ensures value { result ≡ first_line lines.now }
    ensures low { result < 2 ^ 31 }
{
    for line in lines {
        if *line != 0 {
            return *line;
        }
    }
    0
}

/// Whether the step from a line to another is from -4 to 10.
fn is_near(line: u32, next: u32) -> bool
    requires line_low { line < 2 ^ 31 }
    requires next_low { next < 2 ^ 31 }
    ensures { result ≡ is_near line next }
{
    line <= next + 4 && next <= line + 10
}

/// Adds the opcode for a step of the line that is too large for an entry's opcode, and answers the step that is left for
/// that one.
fn push_line(out: &mut Vec<u8>, line: u32, next: u32) -> Result<u8, AllocError>
    requires line_low { line < 2 ^ 31 }
    requires next_low { next < 2 ^ 31 }
    ensures ok { OnOk result (out.new.items ≡ out.old.items ++ line_text line next) }
    ensures left { IfOk result (λ low. low ≡ digit line next) }
    ensures few { IfOk result (λ low. low < 15) }
    ensures front { take (length out.old.items) out.new.items ≡ out.old.items }
{
    if is_near(line, next) {
        return Ok((next + 4 - line) as u8);
    }
    out.push(2)?;
    write_sleb(out, next as i32 - line as i32)?;
    Ok(4)
}

/// Adds the opcode of an entry, behind a step of the address that is too large for it.
fn push_opcode(out: &mut Vec<u8>, step: u32, low: u8) -> Result<(), AllocError>
    requires { low < 15 }
    ensures ok { OnOk result (out.new.items ≡ out.old.items ++ opcode_text step low) }
    ensures front { take (length out.old.items) out.new.items ≡ out.old.items }
{
    if step <= 16 && 10 + u32::from(low) + 15 * step <= 255 {
        out.push(10 + low + 15 * step as u8)?;
        return Ok(());
    }
    out.push(1)?;
    write_uleb(out, step)?;
    out.push(10 + low)?;
    Ok(())
}

/// Adds an entry at an address with a line, behind another.
#[tactic(auto, using(crate::proofs::Fronts::front_trans), unfolding(crate::specs::Text::entry_text))]
fn push_entry(
    out: &mut Vec<u8>,
    address: u32,
    line: u32,
    at: u32,
    next: u32,
) -> Result<(), AllocError>
    requires behind { address ≤ at }
    requires line_low { line < 2 ^ 31 }
    requires next_low { next < 2 ^ 31 }
    ensures ok { OnOk result (out.new.items ≡ out.old.items ++ entry_text address line at next) }
    ensures front { take (length out.old.items) out.new.items ≡ out.old.items }
{
    let low = push_line(out, line, next)?;
    push_opcode(out, at - address, low)
}

/// Adds so many zeros.
fn push_zeros(out: &mut Vec<u8>, count: u32) -> Result<(), AllocError>
    ensures ok { OnOk result (out.new.items ≡ out.old.items ++ replicate count 0) }
    ensures front { take (length out.old.items) out.new.items ≡ out.old.items }
{
    for _ in 0..count {
        out.push(0)?;
    }
    Ok(())
}

/// Adds one entry for each position whose line isn't the one before it.
fn push_entries(
    out: &mut Vec<u8>,
    lines: &[u32],
    starts: &[u32],
    first: u32,
) -> Result<(), AllocError>
    requires alike { length lines.now ≡ length starts.now }
    requires ascends { AscendsFrom 0 starts.now }
    requires low { AllByRecursion (λ x. x < 2 ^ 31) lines.now }
    requires first_low { first < 2 ^ 31 }
    ensures ok { OnOk result (out.new.items ≡ out.old.items ++ entries_text 0 first 0 starts.now lines.now) }
    ensures front { take (length out.old.items) out.new.items ≡ out.old.items }
{
    let mut address = 0;
    let mut line = first;
    let mut shown = 0;
    for (i, at) in starts.iter().enumerate() {
        let next = lines[i];
        if next != shown {
            push_entry(out, address, line, *at, next)?;
            address = *at;
            line = next;
            shown = next;
        }
    }
    Ok(())
}

/// Adds the item. An `Err` may leave a part of it there.
#[tactic(auto, using(crate::proofs::Fronts::front_trans), unfolding(crate::specs::Text::item_text))]
fn push_item(
    out: &mut Vec<u8>,
    lines: &[u32],
    starts: &[u32],
    parameters: u32,
) -> Result<(), AllocError>
    requires alike { length lines.now ≡ length starts.now }
    requires ascends { AscendsFrom 0 starts.now }
    requires low { AllByRecursion (λ x. x < 2 ^ 31) lines.now }
    ensures ok { OnOk result (out.new.items ≡ out.old.items ++ item_text lines.now starts.now parameters) }
    ensures front { take (length out.old.items) out.new.items ≡ out.old.items }
{
    let first = first_line(lines);
    write_uleb(out, first)?;
    write_uleb(out, parameters)?;
    push_zeros(out, parameters)?;
    push_entries(out, lines, starts, first)?;
    out.push(0)?;
    Ok(())
}

/// Adds the debug item that gives these lines to the positions that begin at `starts`, in code units, of a method with so
/// many parameters, whose names it leaves out. There is one entry at the first position with a line and one wherever the
/// line changes. `starts` ascend strictly, and no start and no line is above 2,147,483,647. The only error is want of
/// memory (Dalvik executable format, "debug_info_item").
pub fn write_lines(
    out: &mut Vec<u8>,
    lines: &[u32],
    starts: &[u32],
    parameters: u32,
) -> Result<(), AllocError>
    requires alike { length lines.now ≡ length starts.now }
    requires ascends { AscendsFrom 0 starts.now }
    requires low { AllByRecursion (λ x. x < 2 ^ 31) lines.now }
    ensures ok { OnOk result (out.new.items ≡ out.old.items ++ item_text lines.now starts.now parameters) }
    ensures err { OnErr result (out.new.items ≡ out.old.items) }
{
    let begin = out.len();
    let written = push_item(out, lines, starts, parameters);
    if written.is_err() {
        out.truncate(begin);
    }
    written
}
