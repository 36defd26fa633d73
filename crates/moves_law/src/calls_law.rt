//! How far calls are from what they find, across passes (`calls_in` of devirt's `specs/Measure.antt`). Copy propagation and
//! compaction leave it as it is, since a call with other registers names the same method, and what a name weighs depends on the
//! heads of classes alone. Rebinding, which lowers it, leaves how many classes and members there are, what instructions weigh and
//! how many of them may still be folded. So rounds of all these end.

ghost use Rattle.std.specs.Prelude.{◌≡◌, All, Bool, List};
ghost use Rattle.program_model.specs.declared.pass.Changed.{Changed};
ghost use Rattle.program_model.specs.declared.program.Program.{Program};
ghost use Rattle.reach.specs.Kept.{size_of};
ghost use Rattle.thin_pass.specs.Weights.{weight_of};
ghost use Rattle.compact.specs.Renamed.{IsCompactedProgram};
ghost use Rattle.copy_prop.specs.Propagated.{IsPropagatedProgram};
ghost use Rattle.rewrite_pass.specs.Plans.{IsRewrittenBy};
ghost use Rattle.const_prop.specs.Measure.{open_forms};
ghost use Rattle.devirt.specs.Measure.{calls_in};
ghost use Rattle.devirt.specs.Rebound.{IsRecalledAt};

/// The calls of a program in which stale reads read originals are as far from what they find as before.
pub fn propagated_calls_law()
    ensures { (admitted : List Bool) (p q : Program) → IsPropagatedProgram admitted p q → calls_in q ≡ calls_in p }
{}

/// So are those of a compacted program.
pub fn compacted_calls_law()
    ensures { (admitted : List Bool) (p q : Program) → IsCompactedProgram admitted p q → calls_in q ≡ calls_in p }
{}

/// A program whose calls name other methods has as many classes and members, its instructions weigh as much, and as many of them
/// may still be folded.
pub fn rebound_bulk_law()
    ensures size { (admitted : List Bool) (p : Program) (c : Changed) → IsRewrittenBy (λ at m b es. All (IsRecalledAt b) es) admitted p c → size_of c.program ≡ size_of p }
    ensures weight { (admitted : List Bool) (p : Program) (c : Changed) → IsRewrittenBy (λ at m b es. All (IsRecalledAt b) es) admitted p c → weight_of c.program ≡ weight_of p }
    ensures open { (admitted : List Bool) (p : Program) (c : Changed) → IsRewrittenBy (λ at m b es. All (IsRecalledAt b) es) admitted p c → open_forms c.program ≡ open_forms p }
{}
