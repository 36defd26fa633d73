//! Laws of what is read and what the bytes spell.

ghost use Rattle.std.specs.Prelude.{◌≡◌, ◌<◌, ◌^◌, ℕ, List, Ok, length, slice_index};
ghost use Rattle.program_model.specs.declared.program.Class.{Class};
ghost use Rattle.program_model.specs.declared.program.Program.{Program};
ghost use Rattle.dex_pools.specs.declared.scalar.TableSizes.{TableSizes};
ghost use Rattle.dex_pools.specs.Value.{value_at};
ghost use Rattle.dex_defs.specs.Annotations.{AreMarksOf, AreParameterMarksOf};
ghost use Rattle.dex_defs.specs.ClassDefs.{IsClass};
ghost use Rattle.dex_defs.specs.Spells.{Spells};
ghost use Rattle.dex_defs.specs.Values.{IsValue};
ghost use Rattle.dex_read.specs.declared.members.Budget.{Budget};
ghost use Rattle.dex_read.specs.Classes.{class_at};
ghost use Rattle.dex_read.specs.Directory.{set_at, sets_at};
ghost use Rattle.dex_read.specs.File.{program_at};
ghost use Rattle.dex_read.specs.Tables.{sizes_in};
ghost use Rattle.file_laws.specs.Founds.{Founds};

/// The values, the sets of annotations and the lists of such sets that are read stand there.
pub fn values_law()
    ensures values { (bytes : List ℕ) (sizes : TableSizes) (depth : ℕ) (s : ℕ × ℕ) → Founds (λ r. IsValue bytes sizes depth s.0 (r.0, r.1.0)) (value_at depth bytes sizes s) }
    ensures sets { (bytes : List ℕ) (p : Program) (offset left : ℕ) → Founds (λ r. AreMarksOf bytes (sizes_in p) offset r.0) (set_at bytes p offset left) }
    ensures parameters { (bytes : List ℕ) (p : Program) (offset left : ℕ) → Founds (λ r. AreParameterMarksOf bytes (sizes_in p) offset r.0) (sets_at bytes p offset left) }
{}

/// The class that is read is the one that its class_def spells, of a program with these tables and whatever classes: its
/// members, their code and lines, its annotations and its first values.
pub fn class_law()
    ensures { (bytes : List ℕ) (p : Program) (classes : List Class) (at place : ℕ) (left : Budget) → length bytes < 2 ^ 32
        → Founds (λ r. IsClass bytes (record p { classes = classes }) (sizes_in p) at r.0) (class_at bytes p at place left) }
{}

/// The program that is read is one that the bytes spell.
pub fn read_law()
    ensures { (bytes : List ℕ) (p : Program) → ((i : ℕ) → slice_index bytes i < 256) → program_at bytes ≡ Ok p → Spells bytes p }
{}

/// The bytes spell one program only.
pub fn one_program_law()
    ensures { (bytes : List ℕ) (p q : Program) → ((i : ℕ) → slice_index bytes i < 256) → Spells bytes p → Spells bytes q → p ≡ q }
{}

/// The same of bytes in memory: after a call, whatever program is read of them is known to be the one that they spell. It
/// does nothing else.
pub fn reads_spelled(bytes: &[u8])
    ensures spelled { (p : Program) → program_at bytes.now ≡ Ok p → Spells bytes.now p }
    ensures once { (p q : Program) → Spells bytes.now p → Spells bytes.now q → p ≡ q }
{
    let _bytes = bytes;
}
