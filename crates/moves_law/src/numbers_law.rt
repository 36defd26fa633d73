//! How much of a program passes leave, by its register counts and the numbers that instructions name: passes that take positions or
//! members out leave no more of these. Compaction, which lowers them, leaves as many members and instructions, and so does copy
//! propagation.

ghost use Rattle.std.specs.Prelude.{◌≡◌, ◌≤◌, Bool, List};
ghost use Rattle.program_model.specs.declared.program.Program.{Program};
ghost use Rattle.body_edit.specs.declared.fate.Fate.{Fate};
ghost use Rattle.call_graph.specs.declared.live_set.LiveSet.{LiveSet};
ghost use Rattle.reach.specs.Kept.{kept_of, size_of};
ghost use Rattle.thin_pass.specs.Plans.{program_by};
ghost use Rattle.thin_pass.specs.Weights.{weight_of};
ghost use Rattle.compact.specs.Measure.{numbers_in};
ghost use Rattle.compact.specs.Renamed.{IsCompactedProgram};
ghost use Rattle.copy_prop.specs.Propagated.{IsPropagatedProgram};

/// A program without some positions has no more registers, and its instructions name no more numbers. A plan has the fates of
/// the positions.
pub fn thinned_numbers_law()
    ensures { (plan : List (List (List Fate))) (p : Program) → numbers_in (program_by plan p) ≤ numbers_in p }
{}

/// Nor has a program without some classes and members.
pub fn removed_numbers_law()
    ensures { (marks : LiveSet) (p : Program) → numbers_in (kept_of marks p) ≤ numbers_in p }
{}

/// A compacted program has as many classes and members, and instructions that weigh as much.
pub fn compacted_bulk_law()
    ensures size { (admitted : List Bool) (p q : Program) → IsCompactedProgram admitted p q → size_of q ≡ size_of p }
    ensures weight { (admitted : List Bool) (p q : Program) → IsCompactedProgram admitted p q → weight_of q ≡ weight_of p }
{}

/// A program in which stale reads read originals has as many classes and members, and instructions that weigh as much.
pub fn propagated_bulk_law()
    ensures size { (admitted : List Bool) (p q : Program) → IsPropagatedProgram admitted p q → size_of q ≡ size_of p }
    ensures weight { (admitted : List Bool) (p q : Program) → IsPropagatedProgram admitted p q → weight_of q ≡ weight_of p }
{}
