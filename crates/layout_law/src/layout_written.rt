//! The program that is written for one that lays out lays out too, where strings and the texts of types ascend. Then no used entry
//! gets a higher number; where few strings are there, 16 bits hold their new numbers whatever their order. A program that is read
//! has tables that ascend, and passes keep tables.

ghost use Rattle.std.specs.Prelude.{◌≡◌, true, nat_lt};
ghost use Rattle.program_model.specs.ProgramRules.{is_well_formed};
ghost use Rattle.program_model.specs.declared.program.Program.{Program};
ghost use Rattle.dex_pools.specs.Finds.{Ascends};
ghost use Rattle.dex_pools.specs.Order.{list_below};
ghost use Rattle.dex_defs.specs.LaysOut.{LaysOut};
ghost use Rattle.dex_defs.specs.Written.{IsWritten};
ghost use Rattle.layout_law.specs.Ascending.{TextsAscend};

/// What is written for a well-formed program that lays out and whose texts ascend lays out.
pub fn written_lays_out_law()
    ensures { (p q : Program) → is_well_formed p ≡ true → TextsAscend p → IsWritten p q → LaysOut p → LaysOut q }
{}

/// The texts of a well-formed program ascend whose tables of strings and types do, as those of a file.
pub fn read_tables_law()
    ensures { (p : Program) → is_well_formed p ≡ true → Ascends list_below p.strings → Ascends nat_lt p.types → TextsAscend p }
{}
