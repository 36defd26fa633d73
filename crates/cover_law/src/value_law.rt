//! The law of values: the product domain, with what value_ops makes of numbers and of tests (`specs/Operators.antt`), is a sound
//! analysis on operands as the typing of a program has them, under a framework that fits. So a closed table of its facts covers
//! every state of every run, by cover_law.

ghost use Rattle.std.specs.Prelude.{◌≡◌, ◌⊎◌, ℕ, List};
ghost use Rattle.dalvik_defs.specs.Face.{bodies_of};
ghost use Rattle.dalvik_defs.specs.Outer.{Outer};
ghost use Rattle.dalvik_defs.specs.Shown.{Fit};
ghost use Rattle.dalvik_defs.specs.State.{Ended, opening};
ghost use Rattle.dalvik_defs.specs.Step.{after, setting_of};
ghost use Rattle.dalvik_defs.specs.Under.{is_under};
ghost use Rattle.dalvik_defs.specs.declared.program.NamedProgram.{NamedProgram};
ghost use Rattle.dalvik_defs.specs.declared.script.Move.{Move};
ghost use Rattle.dalvik_defs.specs.declared.tables.Floats.{Floats};
ghost use Rattle.dalvik_defs.specs.declared.tables.Framework.{Framework};
ghost use Rattle.domains.specs.Values.{Parts};
ghost use Rattle.run_laws.specs.Holds.{Holds};
ghost use Rattle.pass_defs.specs.Facts.{Facts};
ghost use Rattle.removal_law.specs.Reach.{IsAcyclic};
ghost use Rattle.run_facts.specs.ValueAnalysis.{value_analysis};
ghost use Rattle.run_laws.specs.Regular.{IsRegular};
ghost use Rattle.cover_law.specs.Coverable.{IsTabled};
ghost use Rattle.cover_law.specs.States.{covered_states};
ghost use Rattle.cover_law.specs.Sound.{IsSoundOn};
ghost use Rattle.cover_law.specs.Operators.{operators};

/// The product domain with the operators and the tests of value_ops is sound on operands as the typing has them, under a
/// framework that fits a regular program of which no class stands above itself, whatever floats answer.
pub fn values_are_sound()
    ensures { (p : NamedProgram) (o : Outer) (f : Framework) (floats : Floats) (script : List Move) → IsRegular p → IsAcyclic p → Fit p o f script
        → IsSoundOn (value_analysis p operators) (is_under p f) floats }
{}

/// Under a closed table of facts of the product domain, as the code makes them of instructions, and a framework and a script
/// that fit, each state that a run of a typed, regular program reaches has ended, or the facts cover it.
pub fn values_cover()
    ensures { (p : NamedProgram) (o : Outer) (f : Framework) (floats : Floats) (facts : Facts Parts) (script : List Move) (n : ℕ)
        → IsTabled (value_analysis p operators) p o f facts → Fit p o f script
        → let t = after (setting_of p o f floats) (bodies_of p) (opening script) n in (t ≡ Ended) ⊎ Holds (covered_states (value_analysis p operators) p o f facts) t }
{}
