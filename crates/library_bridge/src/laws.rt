//! Shut methods by number and by names.

ghost use Rattle.std.specs.Prelude.{◌≡◌, ℕ, true};
ghost use Rattle.program_model.specs.ProgramRules.{is_well_formed};
ghost use Rattle.program_model.specs.declared.pass.Outside.{Outside};
ghost use Rattle.program_model.specs.declared.program.Program.{Program};
ghost use Rattle.class_defs.specs.ClassGraph.{IsTwice};
ghost use Rattle.dalvik_defs.specs.Naming.{named};
ghost use Rattle.dalvik_defs.specs.Outer.{outer_of};
ghost use Rattle.removal_law.specs.Reach.{IsNarrowed, ShutsHold};
ghost use Rattle.stub_library.specs.Shut as number;
ghost use Rattle.stub_library.specs.declared.library.Library.{Library};
ghost use Rattle.library_bridge.specs.Libraries.{library_of};

/// The table that narrowing answers shuts, by names, what the definition of shut methods says for the library's types, so it
/// holds what a table of shut methods owes.
pub fn narrowed_by_number_law()
    ensures narrowed { (p : Program) (o new : Outside) (l : Library) → is_well_formed p ≡ true → ((class : ℕ) → IsTwice p class → ⊥) → number.IsNarrowed p o l new
        → IsNarrowed (named p) (outer_of p new) (library_of l) }
    ensures holds { (p : Program) (o new : Outside) (l : Library) → is_well_formed p ≡ true → ((class : ℕ) → IsTwice p class → ⊥) → number.IsNarrowed p o l new
        → ShutsHold (named p) (outer_of p new) }
{}
