//! A program whose instructions are folded by certified facts is kept for the outside of these facts: what `const_prop` leaves of
//! it is well-formed and typed, has the same tables and the same classes and members but for bodies, and shows the same.
//!
//! A typing of a body, the least one where a move of one register is folded, is one of the folded body, without the states of moves
//! of results that have none in front of them (`proofs/Bodies.antt`).

ghost use Rattle.std.specs.Prelude.{◌≡◌, ℕ, Bool, true, List};
ghost use Rattle.program_model.specs.ProgramRules.{is_well_formed};
ghost use Rattle.program_model.specs.declared.pass.Changed.{Changed};
ghost use Rattle.program_model.specs.declared.pass.Outside.{Outside};
ghost use Rattle.program_model.specs.declared.program.Program.{Program};
ghost use Rattle.class_defs.specs.ClassGraph.{IsAncestor};
ghost use Rattle.hierarchy.specs.Shapes.{IsAcyclic, IsResolved};
ghost use Rattle.hierarchy.specs.declared.build.Hierarchy.{Hierarchy};
ghost use Rattle.call_graph.specs.Closed.{IsClosedSet};
ghost use Rattle.call_graph.specs.Facts.{Fits};
ghost use Rattle.call_graph.specs.declared.live_set.LiveSet.{LiveSet};
ghost use Rattle.call_targets.specs.Targeted.{IsTargeted};
ghost use Rattle.call_targets.specs.declared.table.Targets.{Targets};
ghost use Rattle.dalvik_defs.specs.Naming.{named};
ghost use Rattle.dalvik_defs.specs.Outer.{outer_of};
ghost use Rattle.pass_defs.specs.Typed.{IsTyped};
ghost use Rattle.facts.specs.declared.facts.Facts.{Facts};
ghost use Rattle.closed_facts.specs.Closed.{AreClosed};
ghost use Rattle.premises.specs.Makers.{MakersAreOwn};
ghost use Rattle.facts_kept.specs.Names.{named_facts};
ghost use Rattle.premises.specs.Numbers.{AllHaveWords};
ghost use Rattle.const_prop.specs.Folds.{IsFoldedBy};
ghost use Rattle.facts_kept.specs.Folds.{AreNamed};
ghost use Rattle.premises.specs.Plain.{ListsPlainly};
ghost use Rattle.facts_kept.specs.Kept.{IsKeptFor};

/// Facts by number that are certified for an outside say what their names say, where only interfaces stand in lists of
/// interfaces.
pub fn named_facts_law()
    ensures { (p : Program) (h : Hierarchy) (o : Outside) (live : LiveSet) (targets : Targets) (facts : Facts) → is_well_formed p ≡ true → IsResolved p h → IsAcyclic p
        → Fits p live → IsClosedSet p o live → IsTargeted p o live targets → AreClosed p o live targets facts → ListsPlainly p → AreNamed p (outer_of p o) facts (named_facts p facts) }
{}

/// What is left of a well-formed and typed program once instructions are folded is typed, whatever the facts are: no class of
/// the program is its own ancestor, and the numbers of what is left have their bits.
pub fn folded_typed_law()
    ensures { (p : Program) (h : Hierarchy) (facts : Facts) (admitted : List Bool) (c : Changed) → is_well_formed p ≡ true → IsResolved p h → ((class : ℕ) → IsAncestor p class class → ⊥)
        → IsTyped (named p) → IsFoldedBy p h facts admitted c → AllHaveWords c.program → IsTyped (named c.program) }
{}

/// What is left of a well-formed and typed program once instructions are folded by facts that are certified for an outside is
/// kept for this outside. Beside what certifies the facts stand what the law of coverage asks of a program and of the kept
/// constructors, and that the facts by number say what their names say.
pub fn folded_kept_law()
    ensures { (p : Program) (h : Hierarchy) (o : Outside) (live : LiveSet) (targets : Targets) (facts : Facts) (admitted : List Bool) (c : Changed) → is_well_formed p ≡ true
        → IsResolved p h → IsAcyclic p → IsTyped (named p) → AllHaveWords p → MakersAreOwn p o → Fits p live → IsClosedSet p o live → IsTargeted p o live targets → AreClosed p o live targets facts
        → AreNamed p (outer_of p o) facts (named_facts p facts) → IsFoldedBy p h facts admitted c → AllHaveWords c.program → IsKeptFor o p c.program }
{}
