//! What is written is a valid file: its classes are spelled where their class_defs stand, with their members, annotations, first
//! values, code and lines. The members of a class are those that class data lists; each set of annotations, and each list of sets,
//! stands where the class's directory names it; and where a method's code and its debug item stand, it is read back with its body
//! and its lines. The function of this crate has an empty body, and its contract is the law.

ghost use Rattle.std.specs.Prelude.{◌≡◌, ℕ, List, true};
ghost use Rattle.program_model.specs.declared.program.Program.{Program};
ghost use Rattle.program_model.specs.ProgramRules.{is_well_formed};
ghost use Rattle.class_defs.specs.ClassGraph.{IsTwice, IsAncestor};
ghost use Rattle.dex_write.specs.Written.{IsWritten};
ghost use Rattle.dex_defs.specs.Written.{written_by};
ghost use Rattle.dex_defs.specs.LaysOut.{LaysOut};
ghost use Rattle.write_laws.specs.Kinds.{IsValidFile};
ghost use Rattle.written_file.specs.Rises.{NamesRise};

/// What is written for a well-formed program, of whose classes none is above itself or there twice, whose annotations name strings of
/// a part of the table that ascends, and whose written program lays out, is a valid file of the written program.
pub fn written_law()
    ensures { (p : Program) (bytes : List ℕ) (w : IsWritten p bytes) → is_well_formed p ≡ true → ((class : ℕ) → IsTwice p class → ⊥) → ((class : ℕ) → IsAncestor p class class → ⊥)
        → NamesRise p → LaysOut (written_by w.interner p) → IsValidFile p bytes (written_by w.interner p) }
{}
