//! A program whose instructions are folded by facts shows the same: what `const_prop` may write over the instructions of a
//! well-formed program, by facts whose named form is closed, does in each state that a run reaches what was there. It is
//! well-formed, and its instructions weigh no more than before.
//!
//! `specs/Folds.antt` says what a folded body is and what facts by number owe to facts by name. That the folded program is typed
//! isn't proved here.

ghost use Rattle.std.specs.Prelude.{◌≡◌, ◌≤◌, ℕ, Bool, true, List};
ghost use Rattle.program_model.specs.ProgramRules.{is_well_formed};
ghost use Rattle.program_model.specs.declared.pass.Changed.{Changed};
ghost use Rattle.program_model.specs.declared.program.Program.{Program};
ghost use Rattle.class_defs.specs.ClassGraph.{IsTwice, IsAncestor};
ghost use Rattle.hierarchy.specs.declared.build.Hierarchy.{Hierarchy};
ghost use Rattle.dalvik_defs.specs.Naming.{named};
ghost use Rattle.dalvik_defs.specs.Outer.{Outer};
ghost use Rattle.dalvik_defs.specs.Shown.{Fit, SameShown};
ghost use Rattle.dalvik_defs.specs.declared.script.Move.{Move};
ghost use Rattle.dalvik_defs.specs.declared.tables.Floats.{Floats};
ghost use Rattle.dalvik_defs.specs.declared.tables.Framework.{Framework};
ghost use Rattle.domains.specs.Values.{Parts};
ghost use Rattle.facts.specs.declared.facts.Facts.{Facts};
ghost use Rattle.pass_defs.specs.Facts as by_name;
ghost use Rattle.run_facts.specs.ValueAnalysis.{value_analysis};
ghost use Rattle.cover_law.specs.Coverable.{IsTabled};
ghost use Rattle.cover_law.specs.Operators.{operators};
ghost use Rattle.reach.specs.Kept.{size_of};
ghost use Rattle.thin_pass.specs.Weights.{weight_of};
ghost use Rattle.form_laws.specs.Known.{SameRun};
ghost use Rattle.const_prop.specs.Folds.{IsFoldedBy};
ghost use Rattle.facts_kept.specs.Folds.{AreNamed};

/// A well-formed program, of which no class is defined twice or is its own ancestor, shows the same in a run once
/// instructions are folded by facts: facts by number that say what facts by name say, which are closed.
pub fn folded_run_law()
    ensures { (p : Program) (h : Hierarchy) (o : Outer) (facts : Facts) (t : by_name.Facts Parts) (admitted : List Bool) (c : Changed) (f : Framework) (floats : Floats) (script : List Move)
        → is_well_formed p ≡ true → ((class : ℕ) → IsTwice p class → ⊥) → ((class : ℕ) → IsAncestor p class class → ⊥) → IsFoldedBy p h facts admitted c → AreNamed p o facts t
        → IsTabled (value_analysis (named p) operators) (named p) o f t → Fit (named p) o f script → SameRun (named p) (named c.program) o f floats script }
{}

/// So it shows the same, where the facts are closed for every framework.
pub fn folded_shown_law()
    ensures { (p : Program) (h : Hierarchy) (o : Outer) (facts : Facts) (t : by_name.Facts Parts) (admitted : List Bool) (c : Changed)
        → is_well_formed p ≡ true → ((class : ℕ) → IsTwice p class → ⊥) → ((class : ℕ) → IsAncestor p class class → ⊥) → IsFoldedBy p h facts admitted c → AreNamed p o facts t
        → ((f : Framework) → IsTabled (value_analysis (named p) operators) (named p) o f t) → SameShown (named p) (named c.program) o }
{}

/// What is left of a well-formed program once instructions are folded is well-formed.
pub fn folded_formed_law()
    ensures { (p : Program) (h : Hierarchy) (facts : Facts) (admitted : List Bool) (c : Changed) → is_well_formed p ≡ true → IsFoldedBy p h facts admitted c → is_well_formed c.program ≡ true }
{}

/// It has as many classes and members, and instructions that weigh no more.
pub fn folded_bulk_law()
    ensures size { (p : Program) (h : Hierarchy) (facts : Facts) (admitted : List Bool) (c : Changed) → IsFoldedBy p h facts admitted c → size_of c.program ≡ size_of p }
    ensures weight { (p : Program) (h : Hierarchy) (facts : Facts) (admitted : List Bool) (c : Changed) → IsFoldedBy p h facts admitted c → weight_of c.program ≤ weight_of p }
{}
