//! How much of a program passes leave to be folded: instructions other than constants, gotos and nops (`open_forms` of const_prop's
//! `specs/Measure.antt`). Folds lower it, and copy propagation and compaction leave it as it is, since a form that names other
//! registers stays of its kind; folds don't raise how many classes and members there are, or what instructions weigh. So rounds of
//! all these end.

ghost use Rattle.std.specs.Prelude.{◌≡◌, ◌≤◌, All, Bool, List};
ghost use Rattle.program_model.specs.declared.pass.Changed.{Changed};
ghost use Rattle.program_model.specs.declared.program.Program.{Program};
ghost use Rattle.reach.specs.Kept.{size_of};
ghost use Rattle.thin_pass.specs.Weights.{weight_of};
ghost use Rattle.compact.specs.Renamed.{IsCompactedProgram};
ghost use Rattle.copy_prop.specs.Propagated.{IsPropagatedProgram};
ghost use Rattle.rewrite_pass.specs.Plans.{IsRewrittenBy};
ghost use Rattle.const_prop.specs.Folded.{IsFold};
ghost use Rattle.const_prop.specs.Measure.{open_forms};

/// A program in which stale reads read originals has as many instructions other than constants, gotos and nops.
pub fn propagated_open_law()
    ensures { (admitted : List Bool) (p q : Program) → IsPropagatedProgram admitted p q → open_forms q ≡ open_forms p }
{}

/// So has a compacted program.
pub fn compacted_open_law()
    ensures { (admitted : List Bool) (p q : Program) → IsCompactedProgram admitted p q → open_forms q ≡ open_forms p }
{}

/// A program in which instructions are folded has as many classes and members, and instructions that weigh no more.
pub fn folded_bulk_law()
    ensures size { (admitted : List Bool) (p : Program) (c : Changed) → IsRewrittenBy (λ at m b es. All (IsFold b) es) admitted p c → size_of c.program ≡ size_of p }
    ensures weight { (admitted : List Bool) (p : Program) (c : Changed) → IsRewrittenBy (λ at m b es. All (IsFold b) es) admitted p c → weight_of c.program ≤ weight_of p }
{}
