//! From facts by number to facts by names: what a closed table of facts by number (closed_facts) says of positions, fields and
//! calls, the facts of the same table by names (`specs/Names.antt`) say of the named program. So the law of coverage, which speaks
//! of names, can be used of what the code computes.
//!
//! - `Numbers`: the number of a name is that of the entry which it names.
//! - `Registers`, `Values`, `Forms`: what a form leaves in registers by the analysis of values is what its instruction leaves by
//!   the steps of `dom_frame`.
//! - `Edges`: where a form goes on, and with what, is where its instruction goes on; switches key by key.
//! - `Places`: a position that is reached by names is one that is reached by number.
//! - `Fielding`, `Holding`, `Begun`: what a field holds that is got, put into, begun with or open to the framework.
//! - `Flowing`, `Beginning`: what goes on, is thrown and returned, and begins, arrives by names as by number.
//! - `Standing`, `Calling`: what a static, direct or super call finds by names it finds by number, and leaves the program where it
//!   finds no code.
//! - `Made`: a class that every closed family of live sets has made is marked as made. `Asking`: a virtual or interface call of a
//!   reached position is one of those that the tables of call targets tell of, and what it finds by names is a link by number.
//! - `Entering`, `Taking`: what a call passes, that it enters a method, and what is taken of its result.
//! - `Defining`, `Opening`: what the framework may enter by names it may enter by number. `Starting`: each class that is needed by
//!   names, or initialised first for one, is marked by number.
//! - `Making`: kept constructors are those of their classes, which the law of coverage asks beside, where they are so by number
//!   (`MakersAreOwn` of premises).
//! - `Closing` puts them together: `closed_law` says that a table that is closed by number is closed by names.
//!
//! The law asks for closed marks (`IsMarked` of reach), which the contracts of `Hierarchy::build` and `live_members` give, and for
//! exact call targets (`IsTargeted` of call_targets) of these marks.

ghost use Rattle.std.specs.Prelude.{◌≡◌, ℕ, is_some, map, true};
ghost use Rattle.call_graph.specs.Closed.{IsClosedSet};
ghost use Rattle.call_graph.specs.Facts.{Fits};
ghost use Rattle.call_graph.specs.declared.live_set.LiveSet.{LiveSet};
ghost use Rattle.call_targets.specs.Targeted.{IsTargeted};
ghost use Rattle.call_targets.specs.declared.table.Targets.{Targets};
ghost use Rattle.class_defs.specs.ClassGraph.{IsTwice};
ghost use Rattle.facts_kept.specs.Flows.{GoesOn, NamedBegins, NamedGoesOn, NamedReturns, NamedTakes, NamedThrows, Returns, Throws};
ghost use Rattle.premises.specs.Makers.{MakersAreOwn};
ghost use Rattle.facts_kept.specs.Names.{by_names, named_facts, values, values_of};
ghost use Rattle.closed_facts.specs.Calls.{Calls};
ghost use Rattle.closed_facts.specs.Closed.{AreClosed, ReachesLive};
ghost use Rattle.closed_facts.specs.Edges as number;
ghost use Rattle.closed_facts.specs.Entries.{Begins, OpensEntries};
ghost use Rattle.closed_facts.specs.Fields as number_fields;
ghost use Rattle.closed_facts.specs.Flows.{Flows};
ghost use Rattle.dalvik_defs.specs.Find.{defined_method};
ghost use Rattle.dalvik_defs.specs.Naming.{form_of, named};
ghost use Rattle.dalvik_defs.specs.Outer.{outer_of};
ghost use Rattle.dalvik_defs.specs.declared.names.MethodKey.{MethodKey};
ghost use Rattle.dom_frame.specs.Registers.{Registers};
ghost use Rattle.facts.specs.declared.facts.Facts.{Facts};
ghost use Rattle.hierarchy.specs.Shapes.{IsAcyclic, IsResolved};
ghost use Rattle.hierarchy.specs.declared.build.Hierarchy.{Hierarchy};
ghost use Rattle.insn_set.specs.declared.form.Insn.{Insn};
ghost use Rattle.pass_defs.specs.Live.{is_concrete, is_constructor};
ghost use Rattle.program_model.specs.OperandRules.{numbers_fit};
ghost use Rattle.program_model.specs.ProgramRules.{is_well_formed};
ghost use Rattle.program_model.specs.declared.pass.Outside.{Outside};
ghost use Rattle.program_model.specs.declared.program.Program.{Program};
ghost use Rattle.reach.specs.Marked.{IsMarked};
ghost use Rattle.run_facts.specs.Closed as name;

/// Of a well-formed program, of which no class is defined twice, a form goes on by names where its instruction goes on by
/// number, with the same registers, where what is got from fields is told by the facts of the same table.
pub fn edges_law()
    ensures { (p : Program) → is_well_formed p ≡ true → ((class : ℕ) → IsTwice p class → ⊥) → (t : Facts) (n : ℕ) (i : Insn) → numbers_fit i p ≡ true → (x : Registers)
        → name.edges (values p) (named p) (named_facts p t) n (form_of p i) (values_of x) ≡ map by_names (number.edges p t n i x) }
{}

/// What a reached position leaves arrives by names wherever it does by number, what it throws too, what is returned is among
/// the results, and reached entries begin so.
pub fn flows_law()
    ensures onward { (p : Program) → is_well_formed p ≡ true → ((class : ℕ) → IsTwice p class → ⊥) → (t : Facts) → GoesOn p t → NamedGoesOn p t }
    ensures thrown { (p : Program) → is_well_formed p ≡ true → (t : Facts) → Throws p t → NamedThrows p t }
    ensures returned { (p : Program) → is_well_formed p ≡ true → (t : Facts) → Returns p t → NamedReturns p t }
    ensures begun { (p : Program) → is_well_formed p ≡ true → (t : Facts) → Begins p t → NamedBegins p t }
{}

/// A field holds by names what it begins with, anything where the framework may write it, and what is put into it, where it does
/// by number.
pub fn fields_law()
    ensures { (p : Program) → is_well_formed p ≡ true → (outside : Outside) (t : Facts) → number_fields.HoldsFields p outside t
        → name.HoldsFields (values p) (named p) (outer_of p outside) (named_facts p t) }
{}

/// What a call passes by names comes to the parameters of each method that it may find by the facts, and enters it where it has
/// code, where it does by number: for a program whose marks are closed, whose call targets are exact, and of which only live
/// methods are reached.
pub fn calls_law()
    ensures { (p : Program) (o : Outside) (live : LiveSet) (targets : Targets) (t : Facts) → IsMarked p o live → IsTargeted p o live targets → ReachesLive p live t → Calls p targets t
        → name.Calls (values p) (named p) (outer_of p o) (named_facts p t) }
{}

/// What a move of a result takes by names arrives where what is taken by number arrives.
pub fn taken_law()
    ensures { (p : Program) (o : Outside) (live : LiveSet) (targets : Targets) (t : Facts) → IsMarked p o live → IsTargeted p o live targets → ReachesLive p live t → Flows p targets t
        → NamedTakes p t (outer_of p o) }
{}

/// What the framework may enter by names is entered with anything, and the initialiser of each class that may be initialised is
/// entered, where it is so by number.
pub fn entries_law()
    ensures { (p : Program) (o : Outside) (live : LiveSet) (targets : Targets) (t : Facts) → IsMarked p o live → IsTargeted p o live targets → OpensEntries p targets t
        → name.OpensEntries (values p) (named p) (outer_of p o) (named_facts p t) }
{}

/// A table of facts that is closed by number is closed by names, for a program whose marks are closed and whose call targets are
/// exact.
pub fn closed_law()
    ensures { (p : Program) (o : Outside) (live : LiveSet) (targets : Targets) (t : Facts) → IsMarked p o live → IsTargeted p o live targets → AreClosed p o live targets t
        → name.IsClosed (values p) (named p) (outer_of p o) (named_facts p t) }
{}

/// The same, where the hierarchy was built of the program, its live members were found, and its call targets. The premises are what
/// `Hierarchy::build`, `live_members` and `targets` say where they answer, beside the closed table.
pub fn accepted_closed_law()
    ensures { (p : Program) (h : Hierarchy) (o : Outside) (live : LiveSet) (targets : Targets) (t : Facts) → is_well_formed p ≡ true → IsResolved p h → IsAcyclic p → Fits p live → IsClosedSet p o live
        → IsTargeted p o live targets → AreClosed p o live targets t → name.IsClosed (values p) (named p) (outer_of p o) (named_facts p t) }
{}

/// Kept constructors of classes that can have objects are defined by these classes, by names where they are by number, in a
/// well-formed program of which no class is defined twice. The law of coverage asks this of a program.
pub fn makers_law()
    ensures { (p : Program) → is_well_formed p ≡ true → ((class : ℕ) → IsTwice p class → ⊥) → (o : Outside) → MakersAreOwn p o
        → (k : MethodKey) → (outer_of p o).methods k ≡ true → is_constructor k ≡ true → is_concrete (named p) k.class ≡ true → is_some (defined_method (named p) k) ≡ true }
{}
