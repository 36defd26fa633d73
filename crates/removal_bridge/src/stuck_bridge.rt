//! That a program which was read, and whose code is typed, is never stuck: what `stuck_law` asks of a program by names holds of a
//! well-formed program by numbers.

ghost use Rattle.std.specs.Prelude.{◌≡◌, ℕ, List, true};
ghost use Rattle.program_model.specs.ProgramRules.{is_well_formed};
ghost use Rattle.program_model.specs.declared.program.Program.{Program};
ghost use Rattle.class_defs.specs.ClassGraph.{IsTwice};
ghost use Rattle.dalvik_defs.specs.Face.{bodies_of};
ghost use Rattle.dalvik_defs.specs.Naming.{named};
ghost use Rattle.dalvik_defs.specs.Outer.{Outer};
ghost use Rattle.dalvik_defs.specs.Shown.{Fit};
ghost use Rattle.dalvik_defs.specs.State.{opening};
ghost use Rattle.dalvik_defs.specs.Step.{setting_of};
ghost use Rattle.dalvik_defs.specs.declared.script.Move.{Move};
ghost use Rattle.dalvik_defs.specs.declared.tables.Floats.{Floats};
ghost use Rattle.dalvik_defs.specs.declared.tables.Framework.{Framework};
ghost use Rattle.pass_defs.specs.Typed.{IsTyped};
ghost use Rattle.run_laws.specs.NeverStuck.{IsNeverStuck};
ghost use Rattle.run_laws.specs.Regular.{IsRegular};

/// The named program of a typed and well-formed program, of which no class is defined twice, is regular.
pub fn regular_law()
    ensures { (p : Program) → is_well_formed p ≡ true → ((class : ℕ) → IsTwice p class → ⊥) → IsTyped (named p) → IsRegular (named p) }
{}

/// So under a framework and a script that fit it, a run of it ends only at the end of the script or at a move that isn't
/// legal.
pub fn never_stuck_law()
    ensures { (p : Program) → is_well_formed p ≡ true → ((class : ℕ) → IsTwice p class → ⊥) → IsTyped (named p)
        → (o : Outer) (f : Framework) (a : Floats) (script : List Move) → Fit (named p) o f script
        → IsNeverStuck (setting_of (named p) o f a) (bodies_of (named p)) (opening script) }
{}
