//! What `staticise` leaves of a well-formed and typed program is kept for the outside of its facts: it is typed, its class graph
//! has no fault, by its tables the outside names the same but for silent and shut methods, and it shows the same
//! (`specs/Kept.antt`).
//!
//! static_choice reads the plan of the pass, and static_bridge says what a program with methods made static keeps. Here the facts
//! come in: each call that resolves to such a method has a receiver that facts know as not null (`proofs/Known`), and since the
//! facts are certified, such registers hold no null (static_facts).

ghost use Rattle.std.specs.Prelude.{◌≡◌, ℕ, Bool, true, List};
ghost use Rattle.program_model.specs.ProgramRules.{is_well_formed};
ghost use Rattle.program_model.specs.declared.pass.Changed.{Changed};
ghost use Rattle.program_model.specs.declared.pass.Outside.{Outside};
ghost use Rattle.program_model.specs.declared.program.Program.{Program};
ghost use Rattle.class_defs.specs.ClassGraph.{IsAncestor, IsTwice};
ghost use Rattle.hierarchy.specs.Shapes.{IsAcyclic, IsResolved};
ghost use Rattle.hierarchy.specs.Splitting.{NoSplit};
ghost use Rattle.hierarchy.specs.declared.build.Hierarchy.{Hierarchy};
ghost use Rattle.call_graph.specs.Closed.{IsClosedSet};
ghost use Rattle.call_graph.specs.Facts.{Fits};
ghost use Rattle.call_graph.specs.declared.live_set.LiveSet.{LiveSet};
ghost use Rattle.call_targets.specs.Targeted.{IsTargeted};
ghost use Rattle.call_targets.specs.declared.table.Targets.{Targets};
ghost use Rattle.dalvik_defs.specs.Naming.{named};
ghost use Rattle.dalvik_defs.specs.Outer.{outer_of};
ghost use Rattle.pass_defs.specs.Typed.{IsTyped};
ghost use Rattle.facts.specs.declared.facts.Facts.{Facts};
ghost use Rattle.closed_facts.specs.Closed.{AreClosed};
ghost use Rattle.premises.specs.Makers.{MakersAreOwn};
ghost use Rattle.premises.specs.Numbers.{AllHaveWords};
ghost use Rattle.facts_kept.specs.Names.{named_facts};
ghost use Rattle.facts_kept.specs.Folds.{AreNamed};
ghost use Rattle.static_law.specs.Receiving.{KnowsReceivers};
ghost use Rattle.static_law.specs.Edited.{loose_in};
ghost use Rattle.staticise.specs.Loosened.{IsStaticisedBy};
ghost use Rattle.static_kept.specs.Choice.{given_by};
ghost use Rattle.static_kept.specs.Knows.{KnowsNotNull};
ghost use Rattle.static_kept.specs.Kept.{IsKeptStatic};

/// Each call that resolves to a method that is made static has a receiver that the facts know as not null.
pub fn known_receivers_law()
    ensures { (p : Program) (facts : Facts) (o : Outside) (admitted : List Bool) → is_well_formed p ≡ true → ((class : ℕ) → IsTwice p class → ⊥) → ((class : ℕ) → IsAncestor p class class → ⊥)
        → KnowsReceivers (named p) (loose_in p (given_by p facts o admitted)) (KnowsNotNull p facts) }
{}

/// What staticise leaves of a well-formed and typed program without a fault in its class graph is kept for the outside of its facts,
/// which are certified for it. Beside what certifies the facts stand what the law of coverage asks of a program and of the kept
/// constructors, and that the facts by number say what their names say (fold_kept).
pub fn static_kept_law()
    ensures { (p : Program) (h : Hierarchy) (o : Outside) (live : LiveSet) (targets : Targets) (facts : Facts) (admitted : List Bool) (c : Changed) → is_well_formed p ≡ true
        → IsResolved p h → IsAcyclic p → NoSplit p → IsTyped (named p) → AllHaveWords p → MakersAreOwn p o → Fits p live → IsClosedSet p o live → IsTargeted p o live targets
        → AreClosed p o live targets facts → AreNamed p (outer_of p o) facts (named_facts p facts) → IsStaticisedBy p facts o admitted c → IsKeptStatic o p c.program }
{}
