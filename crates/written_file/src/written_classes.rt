//! The classes of a written file: class_defs, class data, directories and first values stand where they are named, and so the file
//! is valid where classes are spelled and their code stands (`LeftOfCode` of `specs/Left.antt`).

ghost use Rattle.std.specs.Prelude.{◌≡◌, ◌<◌, ◌^◌, ℕ, List, [], length, true};
ghost use Rattle.dex_pools.specs.declared.interner.Interner.{Interner};
ghost use Rattle.program_model.specs.declared.program.Program.{Program};
ghost use Rattle.program_model.specs.ProgramRules.{is_well_formed};
ghost use Rattle.class_defs.specs.ClassGraph.{IsTwice, IsAncestor};
ghost use Rattle.dex_write.specs.File.{IsSealed};
ghost use Rattle.dex_write.specs.Written.{IsWritten};
ghost use Rattle.dex_defs.specs.Written.{written_by};
ghost use Rattle.write_laws.specs.Kinds.{IsValidFile};
ghost use Rattle.written_file.specs.Widths.{HasWidths};
ghost use Rattle.written_file.specs.Rises.{NamesRise};
ghost use Rattle.written_file.specs.Wide.{HasWideValues};
ghost use Rattle.written_file.specs.Left.{Left, LeftOfCode};

/// What is written for a well-formed program whose strings ascend is a valid file of the written program, where its classes and
/// its sets of annotations are spelled there.
pub fn filed_law()
    ensures { (p : Program) (bytes : List ℕ) (w : IsWritten p bytes) → is_well_formed p ≡ true → ((class : ℕ) → IsTwice p class → ⊥) → ((class : ℕ) → IsAncestor p class class → ⊥)
        → HasWidths p → NamesRise p
        → IsSealed p.version bytes → length bytes < 2 ^ 32 → Left bytes p w.interner w.plans (written_by w.interner p) → IsValidFile p bytes (written_by w.interner p) }
{}

/// What is written for a well-formed program whose strings ascend is a valid file of the written program, where its classes are
/// spelled there and the code of their methods stands where class data says.
pub fn whole_law()
    ensures { (p : Program) (bytes : List ℕ) (w : IsWritten p bytes) → is_well_formed p ≡ true → ((class : ℕ) → IsTwice p class → ⊥) → ((class : ℕ) → IsAncestor p class class → ⊥)
        → HasWidths p → HasWideValues p → NamesRise p
        → IsSealed p.version bytes → length bytes < 2 ^ 32 → LeftOfCode bytes p w.interner w.plans (written_by w.interner p) → IsValidFile p bytes (written_by w.interner p) }
{}

/// What is written for a well-formed program without classes is a valid file of its written program.
pub fn bare_law()
    ensures { (p : Program) (bytes : List ℕ) → IsWritten p bytes → p.classes ≡ [] → is_well_formed p ≡ true → HasWidths p → NamesRise p → IsSealed p.version bytes
        → length bytes < 2 ^ 32
        → (interner : Interner) × IsValidFile p bytes (written_by interner p) }
{}
