//! The code of a written file: each body of a well-formed program that lays out is written as a code item, in the text that a valid
//! file has there, so that the file is valid where its classes are spelled.

ghost use Rattle.std.specs.Prelude.{◌≡◌, ◌<◌, ◌+◌, ◌*◌, ◌^◌, ℕ, List, length, true};
ghost use Rattle.dex_base.specs.Decides.{Entries};
ghost use Rattle.program_model.specs.declared.program.Program.{Program};
ghost use Rattle.program_model.specs.ProgramRules.{is_well_formed};
ghost use Rattle.class_defs.specs.ClassGraph.{IsTwice, IsAncestor};
ghost use Rattle.dex_write.specs.File.{IsSealed};
ghost use Rattle.dex_write.specs.Written.{IsWritten};
ghost use Rattle.dex_defs.specs.Written.{written_by};
ghost use Rattle.dex_defs.specs.LaysOut.{LaysOut};
ghost use Rattle.dex_defs.specs.Arranged.{Both};
ghost use Rattle.dex_defs.specs.ClassDefs.{IsClass};
ghost use Rattle.dex_defs.specs.Spells.{sizes_in};
ghost use Rattle.dex_defs.specs.Valid.{AreCodes, classes_at, methods_of};
ghost use Rattle.write_laws.specs.Kinds.{IsValidFile};
ghost use Rattle.written_file.specs.Widths.{HasWidths};
ghost use Rattle.written_file.specs.Rises.{NamesRise};
ghost use Rattle.written_file.specs.Wide.{HasWideValues};
ghost use Rattle.written_code.specs.Widths.{HasWideCode};
ghost use Rattle.written_file.specs.Parts.{parts_of_file};

/// Each code item of what is written for a well-formed program, whose written program lays out, stands where class data says, in
/// the text that a file has there.
pub fn codes_law()
    ensures { (p : Program) (bytes : List ℕ) (w : IsWritten p bytes) → is_well_formed p ≡ true → ((class : ℕ) → IsTwice p class → ⊥) → ((class : ℕ) → IsAncestor p class class → ⊥)
        → HasWidths p → HasWideCode p → LaysOut (written_by w.interner p) → length bytes < 2 ^ 32
        → Both (λ c x. AreCodes bytes (written_by w.interner p) (methods_of x.lists) c.methods x.codes) (written_by w.interner p).classes (parts_of_file p w.interner w.plans) }
{}

/// What is written for a well-formed program whose strings ascend, and whose written program lays out, is a valid file of the
/// written program, where its classes are spelled there.
pub fn coded_law()
    ensures { (p : Program) (bytes : List ℕ) (w : IsWritten p bytes) → is_well_formed p ≡ true → ((class : ℕ) → IsTwice p class → ⊥) → ((class : ℕ) → IsAncestor p class class → ⊥)
        → HasWidths p → HasWideValues p → HasWideCode p → LaysOut (written_by w.interner p) → NamesRise p
        → IsSealed p.version bytes → length bytes < 2 ^ 32
        → Entries (length (written_by w.interner p).classes) (λ k. IsClass bytes (written_by w.interner p) (sizes_in (written_by w.interner p)) (classes_at (written_by w.interner p) + 32 * k)) (written_by w.interner p).classes
        → IsValidFile p bytes (written_by w.interner p) }
{}
