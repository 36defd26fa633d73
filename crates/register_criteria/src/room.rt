//! Registers that are tied, and those that are no arguments.

ghost use Rattle.std.specs.Prelude.{◌≡◌, ◌++◌, OnOk};
ghost use Rattle.insn_regs.specs.Wides.{first_if};
ghost use Rattle.register_criteria.specs.Locals.{locals};

use program_model::Body;
use std::alloc::AllocError;

/// Adds the register of an operand where it is wide, and so tied to the one behind it.
pub fn add_wide(wide: bool, register: u16, found: &mut Vec<u32>) -> Result<(), AllocError>
    ensures { OnOk result (found.new.items ≡ found.old.items ++ first_if wide register) }
{
    if wide {
        found.push(u32::from(register))?;
    }
    Ok(())
}

/// How many registers are no arguments.
pub fn locals(body: &Body) -> u16
    ensures { result ≡ locals body.now }
{
    body.registers.saturating_sub(body.ins)
}
