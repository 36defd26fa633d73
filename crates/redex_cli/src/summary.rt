//! The summary of an optimisation.

ghost use Rattle.std.specs.Prelude.{◌≡◌, ◌++◌, IfOk, OnOk, string_bytes};
ghost use Rattle.redex_cli.specs.Finished.{change_line, count_line, sizes_in, summary_text};

use pipeline::{count_instructions, count_members};
use program_model::Program;
use std::alloc::{AllocError, Global};

/// How large a program and its file are.
#[derive(Clone, Copy, Debug, Drop)]
pub struct Sizes {
    pub classes: usize,
    pub members: u64,
    pub instructions: u64,
    pub bytes: usize,
}

/// The sizes of a program whose file has so many bytes.
pub fn sizes_of(program: &Program, bytes: usize) -> Sizes
    ensures { result ≡ sizes_in program.now bytes }
{
    Sizes {
        classes: program.classes.len(),
        members: count_members(program),
        instructions: count_instructions(program),
        bytes,
    }
}

/// A line of the summary: `WHAT A -> B`.
fn change_line(alloc: Global, what: &str, before: u64, after: u64) -> Result<String, AllocError>
    ensures { IfOk result (λ text. string_bytes text ≡ change_line what.now before after) }
{
    format!(in alloc; "{what} {before} -> {after}\n")
}

/// A line of the summary: `WHAT N`.
fn count_line(alloc: Global, what: &str, count: u32) -> Result<String, AllocError>
    ensures { IfOk result (λ text. string_bytes text ≡ count_line what.now count) }
{
    format!(in alloc; "{what} {count}\n")
}

/// Adds a line `WHAT A -> B`.
fn push_change(
    alloc: Global,
    out: &mut String,
    what: &str,
    before: u64,
    after: u64,
) -> Result<(), AllocError>
    ensures { OnOk result (string_bytes out.new ≡ string_bytes out.old ++ change_line what.now before after) }
{
    let line = change_line(alloc, what, before, after)?;
    out.push_str(line.as_str())
}

/// Adds a line `WHAT N`.
fn push_count(alloc: Global, out: &mut String, what: &str, count: u32) -> Result<(), AllocError>
    ensures { OnOk result (string_bytes out.new ≡ string_bytes out.old ++ count_line what.now count) }
{
    let line = count_line(alloc, what, count)?;
    out.push_str(line.as_str())
}

/// The six lines of the summary.
pub fn summary(
    alloc: Global,
    before: Sizes,
    after: Sizes,
    rounds: u32,
    spared: u32,
) -> Result<String, AllocError>
    ensures { IfOk result (λ text. string_bytes text ≡ summary_text before after rounds spared) }
{
    let mut text = change_line(
        alloc,
        "classes",
        before.classes as u64,
        after.classes as u64,
    )?;
    push_change(alloc, &mut text, "members", before.members, after.members)?;
    push_change(
        alloc,
        &mut text,
        "instructions",
        before.instructions,
        after.instructions,
    )?;
    push_change(
        alloc,
        &mut text,
        "bytes",
        before.bytes as u64,
        after.bytes as u64,
    )?;
    push_count(alloc, &mut text, "rounds", rounds)?;
    push_count(alloc, &mut text, "spared", spared)?;
    Ok(text)
}
