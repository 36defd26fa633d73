//! What `inline_calls` leaves of a well-formed and typed program is kept for the outside of its facts, and for every outside where
//! these have no frames: it has the same tables and the same classes and members but for bodies, it is typed, shows the same, and
//! keeps what a table of shut methods owes. That it is well-formed is what the pass itself tests, and so a premise here; each new
//! body was tested to be typed (`proofs/Tested.antt`). A method that isn't admitted stays whole (`proofs/Stayed.antt`).
//!
//! `specs/Spliced.antt` says what became of the code of a method, by number: the same code, or the code with copies at sites
//! (inline_bridge). The pass's plan is read in `proofs/Looked.antt`; `proofs/InlinedNamed.antt` says the same by name, and
//! `proofs/Running.antt` what the states of a run are known to be, so that the law of inlining applies (inline_law).

ghost use Rattle.std.specs.Prelude.{◌≡◌, ℕ, Bool, true, List, []};
ghost use Rattle.program_model.specs.ProgramRules.{is_well_formed};
ghost use Rattle.program_model.specs.declared.pass.Origin.{Origin};
ghost use Rattle.program_model.specs.declared.pass.Outside.{Outside};
ghost use Rattle.program_model.specs.declared.program.Program.{Program};
ghost use Rattle.hierarchy.specs.Shapes.{IsAcyclic, IsResolved};
ghost use Rattle.hierarchy.specs.declared.build.Hierarchy.{Hierarchy};
ghost use Rattle.call_graph.specs.Closed.{IsClosedSet};
ghost use Rattle.call_graph.specs.Facts.{Fits};
ghost use Rattle.call_graph.specs.declared.live_set.LiveSet.{LiveSet};
ghost use Rattle.call_targets.specs.Targeted.{IsTargeted};
ghost use Rattle.call_targets.specs.declared.table.Targets.{Targets};
ghost use Rattle.dalvik_defs.specs.Naming.{named};
ghost use Rattle.dalvik_defs.specs.Outer.{Outer, outer_of};
ghost use Rattle.pass_defs.specs.Typed.{IsTyped};
ghost use Rattle.removal_law.specs.Reach.{ShutsHold};
ghost use Rattle.facts.specs.declared.facts.Facts.{Facts};
ghost use Rattle.closed_facts.specs.Closed.{AreClosed};
ghost use Rattle.premises.specs.Makers.{MakersAreOwn};
ghost use Rattle.premises.specs.Numbers.{AllHaveWords};
ghost use Rattle.facts_kept.specs.Names.{named_facts};
ghost use Rattle.facts_kept.specs.Folds.{AreNamed};
ghost use Rattle.facts_kept.specs.Kept.{IsKeptFor};
ghost use Rattle.program_laws.specs.Numbered.{OtherNumberedBodies};
ghost use Rattle.inline_calls.specs.Asked.{Row};
ghost use Rattle.inline_calls.specs.Plans.{IsInlined};
ghost use Rattle.bodies_kept.specs.Stays.{StaysInlined};
ghost use Rattle.calls_kept.specs.Spliced.{SplicesSo};

/// What the pass leaves of a program is the program with other code: in each body, copies stand at sites.
pub fn inlined_bodies_law()
    ensures { (p q : Program) (h : Hierarchy) (facts : Facts) (admitted : List Bool) (count : ℕ) (origins : List (List Origin)) (rows : List Row) → is_well_formed p ≡ true → IsResolved p h
        → IsInlined p h facts admitted q count origins rows → OtherNumberedBodies (SplicesSo p h facts) p q }
{}

/// What is left of a well-formed and typed program with calls inlined by facts that are certified for an outside is kept for this
/// outside, where it is well-formed, which the pass tests. That it is typed follows from what was tested of each new body. Beside what
/// certifies the facts stand what the law of coverage asks of a program and of the kept constructors, and that the facts by number say
/// what their names say (fold_kept).
pub fn inlined_kept_law()
    ensures { (p q : Program) (h : Hierarchy) (o : Outside) (live : LiveSet) (targets : Targets) (facts : Facts) (admitted : List Bool) (count : ℕ) (origins : List (List Origin)) (rows : List Row)
        → is_well_formed p ≡ true → IsResolved p h → IsAcyclic p → IsTyped (named p) → AllHaveWords p → MakersAreOwn p o → Fits p live → IsClosedSet p o live → IsTargeted p o live targets
        → AreClosed p o live targets facts → AreNamed p (outer_of p o) facts (named_facts p facts) → IsInlined p h facts admitted q count origins rows
        → is_well_formed q ≡ true → IsKeptFor o p q }
{}

/// Where there are no frames of facts, no receiver is known, and so static calls alone are inlined; what is left is kept for every
/// outside.
pub fn frameless_kept_law()
    ensures { (p q : Program) (h : Hierarchy) (o : Outside) (facts : Facts) (admitted : List Bool) (count : ℕ) (origins : List (List Origin)) (rows : List Row) → is_well_formed p ≡ true → IsResolved p h
        → IsAcyclic p → IsTyped (named p) → facts.frames.items ≡ [] → IsInlined p h facts admitted q count origins rows → is_well_formed q ≡ true → IsKeptFor o p q }
{}

/// What is left of a well-formed and typed program is typed where it is well-formed, whatever the facts are.
pub fn inlined_typed_law()
    ensures { (p q : Program) (h : Hierarchy) (facts : Facts) (admitted : List Bool) (count : ℕ) (origins : List (List Origin)) (rows : List Row) → is_well_formed p ≡ true → IsResolved p h
        → IsTyped (named p)
        → IsInlined p h facts admitted q count origins rows → is_well_formed q ≡ true → IsTyped (named q) }
{}

/// Whatever the facts are, it keeps what a table of shut methods owes: what a copy says, the method that is copied says too.
pub fn inlined_shut_law()
    ensures { (p q : Program) (h : Hierarchy) (facts : Facts) (admitted : List Bool) (count : ℕ) (origins : List (List Origin)) (rows : List Row) (o : Outer) → is_well_formed p ≡ true → IsResolved p h
        → IsTyped (named p) → IsInlined p h facts admitted q count origins rows → ShutsHold (named p) o → ShutsHold (named q) o }
{}

/// A method that isn't admitted stays whole, and a body has no more registers than before, or at most 16.
pub fn inlined_stays_law()
    ensures { (p q : Program) (h : Hierarchy) (facts : Facts) (admitted : List Bool) (count : ℕ) (origins : List (List Origin)) (rows : List Row) → IsInlined p h facts admitted q count origins rows
        → StaysInlined admitted p q }
{}
