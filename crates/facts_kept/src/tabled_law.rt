//! What the law of coverage asks of a program, a well-formed and typed program has: `IsTabled` of cover_law, the closed table of
//! facts apart (`specs/Apart.antt`).
//!
//! Premises that well-formedness doesn't give stand in the laws: the numbers of the program have the bits that their types give
//! them (`AllHaveWords` of premises, where code that reads them shows it), which a law that speaks of numbers without an end can't
//! know; the table of shut methods holds what it says, as where it is empty; and a kept constructor is one that its class defines
//! (by number `MakersAreOwn` of premises).

ghost use Rattle.std.specs.Prelude.{◌≡◌, ℕ, true};
ghost use Rattle.program_model.specs.ProgramRules.{is_well_formed};
ghost use Rattle.program_model.specs.declared.pass.Outside.{Outside};
ghost use Rattle.program_model.specs.declared.program.Program.{Program};
ghost use Rattle.class_defs.specs.ClassGraph.{IsAncestor, IsTwice};
ghost use Rattle.dalvik_defs.specs.Naming.{named};
ghost use Rattle.dalvik_defs.specs.Outer.{Outer, outer_of};
ghost use Rattle.dalvik_defs.specs.declared.program.NamedProgram.{NamedProgram};
ghost use Rattle.dalvik_defs.specs.declared.tables.Framework.{Framework};
ghost use Rattle.domains.specs.Values.{Parts};
ghost use Rattle.run_facts.specs.Closed.{IsClosed};
ghost use Rattle.pass_defs.specs.Facts.{Facts};
ghost use Rattle.pass_defs.specs.Typed.{IsTyped};
ghost use Rattle.removal_law.specs.Reach.{ShutsHold};
ghost use Rattle.run_facts.specs.ValueAnalysis.{Numbers, value_analysis};
ghost use Rattle.cover_law.specs.Coverable.{IsTabled};
ghost use Rattle.facts_kept.specs.Apart.{ConstructsByOwn, IsTabledApart};
ghost use Rattle.premises.specs.Numbers.{AllHaveWords};

/// A well-formed and typed program, of which no class is defined twice or is its own ancestor, whose numbers have their bits,
/// whose table of shut methods holds what it says, and whose kept constructors are those of their classes, has all that the
/// law of coverage asks beside a closed table.
pub fn tabled_apart_law()
    ensures { (p : Program) (o : Outside) (f : Framework) → is_well_formed p ≡ true → ((class : ℕ) → IsTwice p class → ⊥) → ((class : ℕ) → IsAncestor p class class → ⊥)
        → IsTyped (named p) → AllHaveWords p → ShutsHold (named p) (outer_of p o) → ConstructsByOwn (named p) (outer_of p o) → IsTabledApart (named p) (outer_of p o) f }
{}

/// With a closed table of facts of the product domain it has all, whatever the code makes of numbers.
pub fn tabled_law()
    ensures { (p : NamedProgram) (numbers : Numbers) (o : Outer) (f : Framework) (facts : Facts Parts) → IsTabledApart p o f → IsClosed (value_analysis p numbers) p o facts
        → IsTabled (value_analysis p numbers) p o f facts }
{}
