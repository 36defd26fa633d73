//! The tables of a written file: of a well-formed program they are what a file's have to be, and each of their entries is used.

ghost use Rattle.std.specs.Prelude.{◌≡◌, ◌<◌, ℕ, length, nat_eq, true};
ghost use Rattle.std.specs.List.{list_any};
ghost use Rattle.dex_pools.specs.declared.interner.Interner.{Interner};
ghost use Rattle.dex_pools.specs.Interned.{IsInterned};
ghost use Rattle.program_model.specs.declared.program.Program.{Program};
ghost use Rattle.program_model.specs.ProgramRules.{is_well_formed};
ghost use Rattle.dex_defs.specs.Written.{class_order, written_by};
ghost use Rattle.dex_defs.specs.Valid.{AllUsed};
ghost use Rattle.write_laws.specs.Fits.{TablesFit};
ghost use Rattle.written_file.specs.Widths.{HasWidths};

/// The tables of the written program of a well-formed one are what a file's have to be.
pub fn tables_law()
    ensures { (p : Program) (i : Interner) → is_well_formed p ≡ true → IsInterned p i → HasWidths p → TablesFit (written_by i p) }
{}

/// Each entry of the written program's tables is used, where no class is left out.
pub fn used_law()
    ensures { (p : Program) (i : Interner) → is_well_formed p ≡ true → IsInterned p i → ((k : ℕ) → k < length p.classes → list_any (nat_eq k) (class_order p) ≡ true) → AllUsed (written_by i p) }
{}
