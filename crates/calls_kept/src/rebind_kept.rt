//! What `devirt` leaves of a well-formed and typed program is kept for the outside of its facts, and for every outside where there
//! are none: it is well-formed and typed, has the same tables and the same classes and members but for bodies, shows the same, and
//! keeps what a table of shut methods owes.
//!
//! That it shows the same and is typed is rebind_bridge's; here its plan is read (`proofs/Planned.antt`), its bodies keep the rules
//! of bodies (`proofs/ReboundFormed.antt`), and certified facts are those by names.

ghost use Rattle.std.specs.Prelude.{◌≡◌, Bool, true, List, []};
ghost use Rattle.program_model.specs.ProgramRules.{is_well_formed};
ghost use Rattle.program_model.specs.declared.pass.Changed.{Changed};
ghost use Rattle.program_model.specs.declared.pass.Outside.{Outside};
ghost use Rattle.program_model.specs.declared.program.Program.{Program};
ghost use Rattle.hierarchy.specs.Shapes.{IsAcyclic, IsResolved};
ghost use Rattle.hierarchy.specs.declared.build.Hierarchy.{Hierarchy};
ghost use Rattle.call_graph.specs.Closed.{IsClosedSet};
ghost use Rattle.call_graph.specs.Facts.{Fits};
ghost use Rattle.call_graph.specs.declared.live_set.LiveSet.{LiveSet};
ghost use Rattle.call_targets.specs.Targeted.{IsTargeted};
ghost use Rattle.call_targets.specs.declared.table.Targets.{Targets};
ghost use Rattle.dalvik_defs.specs.Naming.{named};
ghost use Rattle.dalvik_defs.specs.Outer.{Outer, outer_of};
ghost use Rattle.pass_defs.specs.Typed.{IsTyped};
ghost use Rattle.removal_law.specs.Reach.{ShutsHold};
ghost use Rattle.facts.specs.declared.facts.Facts.{Facts};
ghost use Rattle.closed_facts.specs.Closed.{AreClosed};
ghost use Rattle.premises.specs.Makers.{MakersAreOwn};
ghost use Rattle.premises.specs.Numbers.{AllHaveWords};
ghost use Rattle.facts_kept.specs.Names.{named_facts};
ghost use Rattle.facts_kept.specs.Folds.{AreNamed};
ghost use Rattle.facts_kept.specs.Kept.{IsKeptFor};
ghost use Rattle.devirt.specs.Rebound.{IsReboundBy};

/// What is left of a well-formed and typed program once calls are rebound by facts that are certified for an outside, or by the
/// kinds of their receivers, is kept for this outside. Beside what certifies the facts stand what the law of coverage asks of a
/// program and of the kept constructors, and that the facts by number say what their names say (fold_kept).
pub fn rebound_kept_law()
    ensures { (p : Program) (h : Hierarchy) (o : Outside) (live : LiveSet) (targets : Targets) (facts : Facts) (admitted : List Bool) (c : Changed) → is_well_formed p ≡ true
        → IsResolved p h → IsAcyclic p → IsTyped (named p) → AllHaveWords p → MakersAreOwn p o → Fits p live → IsClosedSet p o live → IsTargeted p o live targets → AreClosed p o live targets facts
        → AreNamed p (outer_of p o) facts (named_facts p facts) → IsReboundBy p h facts admitted c → IsKeptFor o p c.program }
{}

/// Where there are no frames of facts, calls are rebound by the kinds of their receivers alone, and what is left is kept for every
/// outside.
pub fn kinds_kept_law()
    ensures { (p : Program) (h : Hierarchy) (o : Outside) (facts : Facts) (admitted : List Bool) (c : Changed) → is_well_formed p ≡ true → IsResolved p h → IsAcyclic p → IsTyped (named p)
        → facts.frames.items ≡ [] → IsReboundBy p h facts admitted c → IsKeptFor o p c.program }
{}

/// Whatever the facts are, it keeps what a table of shut methods owes: calls that are written name methods of the program.
pub fn rebound_shut_law()
    ensures { (p : Program) (h : Hierarchy) (facts : Facts) (admitted : List Bool) (c : Changed) (o : Outer) → is_well_formed p ≡ true → IsReboundBy p h facts admitted c
        → ShutsHold (named p) o → ShutsHold (named c.program) o }
{}
