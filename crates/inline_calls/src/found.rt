//! What stands at the places of methods.

ghost use Rattle.std.specs.Prelude.{◌≡◌, slice_get};
ghost use Rattle.std.specs.Option.{option_copied};
ghost use Rattle.program_model.specs.Lookups.{method_at};
ghost use Rattle.splice.specs.Shifted.{word};

use insn_set::Insn;
use program_model::{Body, Method, MethodAt, Program};

/// The method at a place.
pub fn method_at(program: &Program, at: MethodAt) -> Option<&Method>
    ensures { option_copied result ≡ method_at program.now at }
{
    match program.classes.as_slice().get(at.class as usize) {
        Some(class) => class.methods.as_slice().get(at.place as usize),
        None => None,
    }
}

/// The instruction at a position.
pub fn insn_at(body: &Body, position: usize) -> Option<&Insn>
    ensures { option_copied result ≡ slice_get body.now.insns position }
{
    body.insns.as_slice().get(position)
}

/// A length as a number of 32 bits, the greatest one for all above it.
pub fn word(n: usize) -> u32
    ensures { result ≡ word n }
{
    u32::try_from(n).unwrap_or(u32::MAX)
}
