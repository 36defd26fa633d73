//! Registers that facts know as not null hold no null in the states of a run, where the facts are closed: so much static_law asks
//! of facts. A register past those of the body is none, so nothing is said of it.

ghost use Rattle.std.specs.Prelude.{List};
ghost use Rattle.program_model.specs.declared.program.Program.{Program};
ghost use Rattle.dalvik_defs.specs.Naming.{named};
ghost use Rattle.dalvik_defs.specs.Outer.{Outer};
ghost use Rattle.dalvik_defs.specs.Shown.{Fit};
ghost use Rattle.dalvik_defs.specs.declared.script.Move.{Move};
ghost use Rattle.dalvik_defs.specs.declared.tables.Floats.{Floats};
ghost use Rattle.dalvik_defs.specs.declared.tables.Framework.{Framework};
ghost use Rattle.domains.specs.Values.{Parts};
ghost use Rattle.facts.specs.declared.facts.Facts.{Facts};
ghost use Rattle.pass_defs.specs.Facts as by_name;
ghost use Rattle.run_facts.specs.ValueAnalysis.{value_analysis};
ghost use Rattle.cover_law.specs.Coverable.{IsTabled};
ghost use Rattle.cover_law.specs.Operators.{operators};
ghost use Rattle.facts_kept.specs.Folds.{AreNamed};
ghost use Rattle.static_law.specs.Receiving.{HoldNoNull};
ghost use Rattle.static_kept.specs.Knows.{KnowsNotNull};

/// Registers that facts by number know as not null hold no null in the states of a run that begins with the calm classes done, where
/// these facts say what facts by name say, which are closed.
pub fn no_null_law()
    ensures { (p : Program) (o : Outer) (f : Framework) (floats : Floats) (facts : Facts) (t : by_name.Facts Parts) (script : List Move)
        → IsTabled (value_analysis (named p) operators) (named p) o f t → Fit (named p) o f script → AreNamed p o facts t → HoldNoNull (named p) o (KnowsNotNull p facts) f floats script }
{}
