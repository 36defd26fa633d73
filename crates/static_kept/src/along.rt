//! The laws of passes one after another, some of which make methods static.

ghost use Rattle.std.specs.Prelude.{◌≡◌, ◌<◌, ◌≤◌, ℕ, Bool, true, List};
ghost use Rattle.program_model.specs.ProgramRules.{is_well_formed};
ghost use Rattle.program_model.specs.declared.pass.Changed.{Changed};
ghost use Rattle.program_model.specs.declared.pass.Outside.{Outside};
ghost use Rattle.program_model.specs.declared.program.Program.{Program};
ghost use Rattle.class_defs.specs.ClassGraph.{IsTwice};
ghost use Rattle.call_graph.specs.declared.live_set.LiveSet.{LiveSet};
ghost use Rattle.reach.specs.Kept.{kept_of, size_of};
ghost use Rattle.thin_pass.specs.Weights.{weight_of};
ghost use Rattle.dalvik_defs.specs.Names.{Text};
ghost use Rattle.dalvik_defs.specs.Naming.{named};
ghost use Rattle.dalvik_defs.specs.Outer.{outer_of};
ghost use Rattle.dalvik_defs.specs.Shown.{SameShown};
ghost use Rattle.dalvik_defs.specs.Under.{defines};
ghost use Rattle.dalvik_defs.specs.declared.program.NamedProgram.{NamedProgram};
ghost use Rattle.facts.specs.declared.facts.Facts.{Facts};
ghost use Rattle.pass_defs.specs.Live.{Family};
ghost use Rattle.removal_law.specs.Left.{left_of};
ghost use Rattle.removal_law.specs.Reach.{ShutsHold};
ghost use Rattle.program_laws.specs.Numbered.{OtherNumberedBodies};
ghost use Rattle.bodies_kept.specs.Kept.{AnyCode};
ghost use Rattle.program_laws.specs.Virtual.{VirtualsStay};
ghost use Rattle.bodies_kept.specs.Stays.{Stays, StaysInlined};
ghost use Rattle.staticise.specs.Judging.{judged};
ghost use Rattle.staticise.specs.Left.{receivers_in};
ghost use Rattle.staticise.specs.Loosened.{IsLoosenedBy, IsStaticisedBy};
ghost use Rattle.static_kept.specs.Choice.{IsPlan};
ghost use Rattle.static_kept.specs.Kept.{IsKeptStatic};
ghost use Rattle.static_kept.specs.Owed.{IsSound, OwesAlong};
ghost use Rattle.static_kept.specs.Passing.{Loosens};
ghost use Rattle.static_kept.specs.Staying.{StaysAlong, StaysAlongInlined};

/// What passes owe they owe one after another. A pass after which numbers name what they named owes it where it has no new virtual
/// method, and one that makes methods static owes it where what it leaves is well-formed.
pub fn owes_along_law()
    ensures same { (o : Outside) (p : Program) → IsSound p → OwesAlong o p p }
    ensures twice { (o : Outside) (p q r : Program) → OwesAlong o p q → OwesAlong o q r → OwesAlong o p r }
    ensures still { (o : Outside) (p q : Program) → IsSound q → outer_of q o ≡ outer_of p o → ((t : Text) → defines (named q) t ≡ true → defines (named p) t ≡ true) → VirtualsStay (named p) (named q)
        → (ShutsHold (named p) (outer_of p o) → SameShown (named p) (named q) (outer_of p o)) → (ShutsHold (named p) (outer_of p o) → ShutsHold (named q) (outer_of q o)) → OwesAlong o p q }
    ensures made { (o : Outside) (p q : Program) → is_well_formed q ≡ true → IsKeptStatic o p q → OwesAlong o p q }
{}

/// Removals and other bodies bring no new virtual method.
pub fn virtuals_left_law()
    ensures removed { (p : NamedProgram) (s : Family) → VirtualsStay p (left_of s p) }
    ensures bodies { (p q : Program) → OtherNumberedBodies AnyCode p q → VirtualsStay (named p) (named q) }
{}

/// What staticise says of its plan, each well-formed program has.
pub fn plan_law()
    ensures { (p : Program) (facts : Facts) (o : Outside) (admitted : List Bool) → is_well_formed p ≡ true → IsPlan p facts o admitted }
{}

/// A program that stays stays along, also where methods of it are made static, and where it stays along twice, it stays along. So it
/// does where calls are inlined on the way.
pub fn stays_along_law()
    ensures kept { (admitted : List Bool) (p q : Program) → Stays admitted p q → StaysAlong admitted p q }
    ensures twice { (admitted : List Bool) (p q r : Program) → StaysAlong admitted p q → StaysAlong admitted q r → StaysAlong admitted p r }
    ensures inlined { (admitted : List Bool) (p q : Program) → StaysInlined admitted p q → StaysAlongInlined admitted p q }
    ensures behind { (admitted : List Bool) (p q r : Program) → StaysAlong admitted p q → StaysAlongInlined admitted q r → StaysAlongInlined admitted p r }
    ensures before { (admitted : List Bool) (p q r : Program) → StaysAlongInlined admitted p q → StaysAlong admitted q r → StaysAlongInlined admitted p r }
    ensures made { (p q : Program) (facts : Facts) (o : Outside) (admitted : List Bool) → is_well_formed p ≡ true → ((class : ℕ) → IsTwice p class → ⊥) → IsLoosenedBy p (judged p facts o admitted) q
        → StaysAlong admitted p q }
{}

/// A pass that makes methods static, by facts that are known of a sound program, owes what passes owe, and what it leaves stays along.
pub fn passing_law()
    ensures owes { (o : Outside) (admitted : List Bool) (p q : Program) → Loosens o admitted p q → IsSound p → OwesAlong o p q }
    ensures stays { (o : Outside) (admitted : List Bool) (p q : Program) → Loosens o admitted p q → is_well_formed p ≡ true → ((class : ℕ) → IsTwice p class → ⊥) → StaysAlong admitted p q }
{}

/// Removals leave no more methods with a receiver, other bodies as many, and a pass that makes methods static fewer.
pub fn receivers_law()
    ensures removed { (s : LiveSet) (p : Program) → receivers_in (kept_of s p) ≤ receivers_in p }
    ensures bodies { (p q : Program) → OtherNumberedBodies AnyCode p q → receivers_in q ≡ receivers_in p }
    ensures made { (p : Program) (facts : Facts) (o : Outside) (admitted : List Bool) (c : Changed) → IsStaticisedBy p facts o admitted c → 0 < c.count → receivers_in c.program < receivers_in p }
{}

/// Methods made static are as many as they were, and their code weighs as much.
pub fn bulk_law()
    ensures { (p : Program) (facts : Facts) (o : Outside) (admitted : List Bool) (c : Changed) → IsStaticisedBy p facts o admitted c
        → (size_of c.program ≡ size_of p) × (weight_of c.program ≡ weight_of p) }
{}
