//! Laws of the tables that are read.

ghost use Rattle.std.specs.Prelude.{◌≡◌, ◌<◌, List, ℕ, Ok, true, slice_index};
ghost use Rattle.program_model.specs.TableRules.{tables_are_short, texts_are_short, entries_fit, entries_differ, tables_fit};
ghost use Rattle.program_model.specs.declared.program.Program.{Program};
ghost use Rattle.dex_read.specs.File.{program_at};
ghost use Rattle.dex_read.specs.Kept.{KeepsLimits};

/// No table that is read is longer than it may be.
pub fn short_tables_law()
    ensures { (bytes : List ℕ) (p : Program) → ((i : ℕ) → slice_index bytes i < 256) → program_at bytes ≡ Ok p → tables_are_short p ≡ true }
{}

/// The tables and the classes that are read keep their limits.
pub fn limits_law()
    ensures { (bytes : List ℕ) (p : Program) → ((i : ℕ) → slice_index bytes i < 256) → program_at bytes ≡ Ok p → KeepsLimits p }
{}

/// The texts that are read have no more units than they may.
pub fn short_texts_law()
    ensures { (bytes : List ℕ) (p : Program) → program_at bytes ≡ Ok p → texts_are_short p ≡ true }
{}

/// Each entry of the tables that are read fits: types are descriptors, protos have their shorties, and all numbers are
/// those of entries.
pub fn entries_fit_law()
    ensures { (bytes : List ℕ) (p : Program) → program_at bytes ≡ Ok p → entries_fit p ≡ true }
{}

/// No table that is read has two equal entries.
pub fn entries_differ_law()
    ensures { (bytes : List ℕ) (p : Program) → program_at bytes ≡ Ok p → entries_differ p ≡ true }
{}

/// The tables that are read are what the tables of a well-formed program have to be.
pub fn tables_law()
    ensures { (bytes : List ℕ) (p : Program) → ((i : ℕ) → slice_index bytes i < 256) → program_at bytes ≡ Ok p → tables_fit p ≡ true }
{}
