//! What `check` says.

ghost use Rattle.std.specs.Prelude.{◌≡◌, IfOk, sum_by, length, string_bytes};
ghost use Rattle.pipeline.specs.Counts.{insns_of};
ghost use Rattle.program_model.specs.Cells.{capped};
ghost use Rattle.redex_cli.specs.Finished.{checked_text, methods_of, program_text};

use pipeline::count_instructions;
use program_model::Program;
use std::alloc::{AllocError, Global};

/// The methods that are defined.
fn count_methods(program: &Program) -> u64
    ensures { result ≡ capped (methods_of program.now) }
{
    let mut total: u64 = 0;
    for class in program.classes.as_slice() {
        total = total.saturating_add(class.methods.len() as u64);
    }
    total
}

fn counts_line(
    alloc: Global,
    classes: u64,
    methods: u64,
    instructions: u64,
) -> Result<String, AllocError>
    ensures { IfOk result (λ text. string_bytes text ≡ checked_text classes methods instructions) }
{
    format!(in alloc; "ok: {classes} classes, {methods} methods, {instructions} instructions\n")
}

/// How many classes, methods and instructions a program has.
pub fn check_line(alloc: Global, program: &Program) -> Result<String, AllocError>
    ensures { IfOk result (λ text. string_bytes text ≡ program_text program.now) }
{
    counts_line(
        alloc,
        program.classes.len() as u64,
        count_methods(program),
        count_instructions(program),
    )
}
