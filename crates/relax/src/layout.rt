//! The layout of a body.

ghost use Rattle.std.specs.Prelude.{◌≡◌, ◌+◌, ◌<◌, ◌≤◌, ℕ, length, slice_index, IfOk, IfErr};
ghost use Rattle.relax.specs.Sizes.{start};
ghost use Rattle.relax.specs.Payloads.{capped_place};
ghost use Rattle.relax.specs.Layouts.{IsLaidOut, IsLayFault};

use crate::far::first_far;
use crate::fault::LayFault;
use crate::payload::{capped_place, payloads_of};
use crate::sizes::{least_sizes, starts_of};
use crate::step::steps_of;
use program_model::{Body, Renumber};
use std::alloc::{AllocError, Global};

/// Where things stand, in 16-bit units from the first one: each position in `starts`, the payload of each instruction
/// that has one, in the order of positions, in `payloads`, and the end of all in `size`.
#[derive(Debug, Drop)]
pub struct Layout {
    pub starts: Vec<u32>,
    pub payloads: Vec<u32>,
    pub size: u32,
}

/// Where each position begins, in 32 bits.
fn narrowed(alloc: Global, starts: &[u64], count: usize) -> Result<Vec<u32>, AllocError>
    requires { count ≤ length starts.now }
    ensures long { IfOk result (λ v. length v.items ≡ count) }
    ensures each { IfOk result (λ v. (k : ℕ) → k < count → slice_index v.items k ≡ capped_place (slice_index starts.now k)) }
{
    let mut narrow = Vec::new(alloc);
    for at in 0..count {
        narrow.push(capped_place(starts[at]))?;
    }
    Ok(narrow)
}

/// The least layout of the body, its string numbers being those that `numbers` gives: the sizes are those of the
/// shortest spellings, gotos have the least sizes with room for their distances, and each payload stands at the next
/// even unit behind the code and the payload before it. A target past the last position stands for the end of the code.
/// `FarBranch` names the first conditional branch that goes more than 32,767 units forwards or 32,768 backwards in this
/// layout. A place past 4,294,967,295 units is given as that number.
pub fn lay_out(alloc: Global, body: &Body, numbers: &Renumber) -> Result<Layout, LayFault>
    ensures ok { IfOk result (IsLaidOut numbers.now body.now) }
    ensures fault { IfErr result (IsLayFault numbers.now body.now) }
{
    let insns = body.insns.as_slice();
    let steps = steps_of(alloc, insns, numbers)?;
    let sizes = least_sizes(alloc, &steps)?;
    let starts = starts_of(alloc, &sizes)?;
    if let Some(at) = first_far(insns, &starts, &sizes) {
        return Err(LayFault::FarBranch {
            position: capped_place(at as u64),
        });
    }
    let (payloads, end) = payloads_of(alloc, insns, starts[insns.len()])?;
    let starts = narrowed(alloc, &starts, insns.len())?;
    Ok(Layout {
        starts,
        payloads,
        size: capped_place(end),
    })
}
