//! Where the positions of a thinned body come from.

ghost use Rattle.std.specs.Prelude.{◌≡◌, ◌<◌, ◌^◌, ◌++◌, length, IfOk, OnOk};
ghost use Rattle.body_edit.specs.Fates.{fate_of, fates_of, origin_at, origins_of};

use crate::fate::Fate;
use program_model::Origin;
use seq::Seq;
use std::alloc::{AllocError, Global};

/// Adds a position that is left.
fn add_origin(
    origins: &mut Vec<Origin>,
    method: u32,
    position: u32,
    fate: Fate,
) -> Result<(), AllocError>
    ensures { OnOk result (origins.new.items ≡ origins.old.items ++ origin_at method position (fate_of fate)) }
{
    if fate.is_left() {
        origins.push(Origin { method, position })?;
    }
    Ok(())
}

/// The positions of a method's body that are left, in their order: where the positions of the thinned body come from. The
/// only error is want of memory.
pub fn origins(alloc: Global, method: u32, fates: &[Fate]) -> Result<Seq<Origin>, AllocError>
    requires { length fates.now < 2 ^ 32 }
    ensures { IfOk result (λ v. v ≡ origins_of method (fates_of fates.now)) }
{
    let mut origins = Vec::new(alloc);
    for position in 0..fates.len() {
        add_origin(&mut origins, method, position as u32, fates[position])?;
    }
    Ok(Seq::of_vec(origins))
}
