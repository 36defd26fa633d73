//! The pass.

ghost use Rattle.std.specs.Prelude.{◌≡◌, ◌<◌, ◌≤◌, IfOk};
ghost use Rattle.thin_pass.specs.Plans.{IsThinnedBy};
ghost use Rattle.thin_pass.specs.Weights.{weight_of};
ghost use Rattle.squeeze.specs.Needed.{NothingLeft};
ghost use Rattle.squeeze.specs.Skipping.{AreSkips};

use crate::wishing::wishes;
use body_edit::Fate;
use program_model::{Admitted, Body, Changed, Program};
use std::alloc::{AllocError, Global};
use thin_pass::{Thinning, thin_program};

/// What is skipped goes.
struct Squeeze;

impl Thinning for Squeeze {
    ghost wishes = { λ s b ws. AreSkips b ws };

    fn wish(&self, alloc: Global, body: &Body) -> Result<Vec<Fate>, AllocError> {
        wishes(alloc, body)
    }
}

/// Takes the positions out of the bodies of admitted methods that no walk from the entry comes to, the nops, and the gotos to the
/// next position; lines follow, and `origins` says where each position comes from. Where a branch would lead to itself, the last
/// position before it stays as a nop. `count` is how many positions went or became nops, 0 exactly where the program is the
/// same: then nothing is left that goes. All else stays. A program that isn't the same weighs less: a nop weighs 1 and every
/// other instruction 2. A body with 4,294,967,296 positions and regions or more is left alone. After want of memory, the only
/// error, the program is lost (this project's profile).
pub fn apply(alloc: Global, program: Program, admitted: &Admitted) -> Result<Changed, AllocError>
    ensures squeezed { IfOk result (IsThinnedBy AreSkips admitted.now.methods.items program) }
    ensures same { IfOk result (λ changed. changed.count ≡ 0 → changed.program ≡ program) }
    ensures falls { IfOk result (λ changed. weight_of changed.program ≤ weight_of program) }
    ensures less { IfOk result (λ changed. 0 < changed.count → weight_of changed.program < weight_of program) }
    ensures nothing_left { IfOk result (λ changed. changed.count ≡ 0 → NothingLeft admitted.now.methods.items program) }
{
    let changed = thin_program(alloc, program, &Squeeze, admitted)?;
    Ok(changed)
}
