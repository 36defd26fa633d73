//! The laws of the program that is read.

ghost use Rattle.std.specs.Prelude.{◌≡◌, ◌<◌, List, ℕ, Ok, true, slice_index};
ghost use Rattle.dex_pools.specs.Finds.{Ascends};
ghost use Rattle.dex_pools.specs.Order.{list_below};
ghost use Rattle.program_model.specs.ProgramRules.{is_well_formed};
ghost use Rattle.program_model.specs.declared.program.Program.{Program};
ghost use Rattle.dex_read.specs.File.{program_at};

/// The program that is read is well-formed: its tables, its classes with their members and bodies, and what it counts.
pub fn well_formed_law()
    ensures { (bytes : List ℕ) (p : Program) → ((i : ℕ) → slice_index bytes i < 256) → program_at bytes ≡ Ok p → is_well_formed p ≡ true }
{}

/// The same of bytes in memory: after a call, they are known to be bytes, and whatever program they spell to be well-formed. It does
/// nothing else.
pub fn reads_well_formed(bytes: &[u8])
    ensures formed { (p : Program) → program_at bytes.now ≡ Ok p → is_well_formed p ≡ true }
    ensures bytes { (i : ℕ) → slice_index bytes.now i < 256 }
{
    let _bytes = bytes;
}

/// The strings of the program that is read ascend.
pub fn order_law()
    ensures { (bytes : List ℕ) (p : Program) → program_at bytes ≡ Ok p → Ascends list_below p.strings }
{}
