//! Static fields whose gets do nothing but write a register.

ghost use Rattle.std.specs.Prelude.{◌≡◌, ◌<◌, ◌^◌, length, IfOk};
ghost use Rattle.dead_code.specs.Dead.{quiet_in, AreQuiet};

use hierarchy::Hierarchy;
use program_model::Program;
use std::alloc::{AllocError, Global};

/// Whether a field is one of a program class whose initialisation runs no code.
fn is_quiet_field(program: &Program, hierarchy: &Hierarchy, field: u32) -> bool
    ensures { result ≡ quiet_in hierarchy.now field }
{
    match hierarchy.resolve_field(program, field) {
        Some((class, _)) => hierarchy.trivially_initialised(program, class),
        None => false,
    }
}

/// For each field number, whether the field is one of a program class whose initialisation runs no code.
pub(crate) fn quiet_fields(
    alloc: Global,
    program: &Program,
    hierarchy: &Hierarchy,
) -> Result<Vec<bool>, AllocError>
    requires { length program.now.fields < 2 ^ 32 }
    ensures { IfOk result (λ v. AreQuiet hierarchy.now (length program.now.fields) v.items) }
{
    let mut quiet = Vec::with_capacity(alloc, program.fields.len())?;
    for field in 0..program.fields.len() {
        quiet.push(is_quiet_field(program, hierarchy, field as u32))?;
    }
    Ok(quiet)
}
