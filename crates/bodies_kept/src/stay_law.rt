//! What passes leave as it was: a method that may not be rewritten stays whole, no body has more registers than before, and nothing
//! is there that wasn't. Stated of removal, thinning, instructions written over others, copy propagation and compaction one by one,
//! and of passes one after another (`specs/Stays.antt`).

ghost use Rattle.std.specs.Prelude.{ℕ, Bool, List};
ghost use Rattle.program_model.specs.declared.pass.Changed.{Changed};
ghost use Rattle.program_model.specs.declared.program.Program.{Program};
ghost use Rattle.call_graph.specs.declared.live_set.LiveSet.{LiveSet};
ghost use Rattle.reach.specs.Kept.{kept_of};
ghost use Rattle.rewrite_pass.specs.Plans.{IsRewrittenBy};
ghost use Rattle.thin_pass.specs.Plans.{IsThinnedBy};
ghost use Rattle.dead_code.specs.Wishes.{AreCleaned};
ghost use Rattle.squeeze.specs.Skipping.{AreSkips};
ghost use Rattle.copy_prop.specs.Propagated.{IsPropagatedProgram};
ghost use Rattle.compact.specs.Renamed.{IsCompactedProgram};
ghost use Rattle.bodies_kept.specs.Stays.{Stays, StaysInlined};

/// A program stays where nothing is done, and where it stays twice, it stays, also where calls are inlined before or behind.
pub fn stays_law()
    ensures same { (admitted : List Bool) (p : Program) → Stays admitted p p }
    ensures twice { (admitted : List Bool) (p q r : Program) → Stays admitted p q → Stays admitted q r → Stays admitted p r }
    ensures behind { (admitted : List Bool) (p q r : Program) → Stays admitted p q → StaysInlined admitted q r → StaysInlined admitted p r }
    ensures before { (admitted : List Bool) (p q r : Program) → StaysInlined admitted p q → Stays admitted q r → StaysInlined admitted p r }
{}

/// It stays where classes and members go, where positions go, where instructions are written over others, whatever they are,
/// where reads read originals, and where registers get other numbers, whatever methods are admitted.
pub fn passes_stay_law()
    ensures removed { (admitted : List Bool) (marks : LiveSet) (p : Program) → Stays admitted p (kept_of marks p) }
    ensures cleaned { (admitted : List Bool) (quiet : ℕ → Bool) (p : Program) (c : Changed) → IsThinnedBy (AreCleaned quiet) admitted p c → Stays admitted p c.program }
    ensures squeezed { (admitted : List Bool) (p : Program) (c : Changed) → IsThinnedBy AreSkips admitted p c → Stays admitted p c.program }
    ensures rewritten { (admitted : List Bool) (p : Program) (c : Changed) → IsRewrittenBy (λ at m b es. Unit {0}) admitted p c → Stays admitted p c.program }
    ensures propagated { (admitted : List Bool) (p q : Program) → IsPropagatedProgram admitted p q → Stays admitted p q }
    ensures compacted { (admitted : List Bool) (p q : Program) → IsCompactedProgram admitted p q → Stays admitted p q }
{}
