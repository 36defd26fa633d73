//! Which registers a body uses.

ghost use Rattle.std.specs.Prelude.{◌≡◌, ◌<◌, ◌++◌, ◌∷◌, [], ℕ, length, if◌then◌else◌, IfOk, OnOk};
ghost use Rattle.compact.specs.Packed.{is_used};
ghost use Rattle.compact.specs.Clashes.{AreUsed, AreNames};

use program_model::Body;
use std::alloc::{AllocError, Global};

/// Whether some instruction reads or writes the register.
fn is_used(body: &Body, register: u16) -> bool
    ensures { result ≡ is_used body.now register }
{
    let register = u32::from(register);
    let insns = body.insns.as_slice();
    insns
        .iter()
        .any(|insn| insn.reads(register) || insn.writes(register))
}

/// The marks of the registers that are used.
pub(crate) fn used_in(alloc: Global, body: &Body) -> Result<Vec<bool>, AllocError>
    ensures used { IfOk result (λ v. AreUsed body.now v.items) }
    ensures narrow { IfOk result (λ v. length v.items < 65536) }
{
    let mut used = Vec::with_capacity(alloc, body.registers as usize)?;
    for register in 0..body.registers {
        used.push(is_used(body, register))?;
    }
    Ok(used)
}

/// Adds a number where it is marked.
fn add_if(mark: bool, number: u16, names: &mut Vec<u16>) -> Result<(), AllocError>
    ensures { OnOk result (names.new.items ≡ (if mark then names.old.items ++ number ∷ [] else names.old.items)) }
{
    if mark {
        names.push(number)?;
    }
    Ok(())
}

/// The numbers that are marked.
pub(crate) fn names_of(alloc: Global, used: &[bool]) -> Result<Vec<u16>, AllocError>
    requires { length used.now < 65536 }
    ensures { IfOk result (λ v. AreNames used.now v.items) }
{
    let mut names = Vec::new(alloc);
    for register in 0..used.len() {
        add_if(used[register], register as u16, &mut names)?;
    }
    Ok(names)
}
