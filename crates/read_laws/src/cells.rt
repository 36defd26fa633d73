//! The laws of the cells and the items that are read.

ghost use Rattle.std.specs.Prelude.{◌≡◌, ◌≤◌, List, ℕ, Ok};
ghost use Rattle.program_model.specs.Cells.{cells_of};
ghost use Rattle.program_model.specs.Items.{items_of};
ghost use Rattle.program_model.specs.declared.program.Program.{Program};
ghost use Rattle.dex_read.specs.File.{program_at};

/// The cells of the program that is read keep their limit.
pub fn cells_law()
    ensures { (bytes : List ℕ) (p : Program) → program_at bytes ≡ Ok p → cells_of p ≤ 67108864 }
{}

/// The items of the program that is read keep their limit: the reader counts each of them, and more.
pub fn items_law()
    ensures { (bytes : List ℕ) (p : Program) → program_at bytes ≡ Ok p → items_of p ≤ 16777216 }
{}
