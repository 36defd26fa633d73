//! How many methods have a receiver, across passes: methods with code that aren't static (`receivers_in` of staticise's
//! `specs/Left.antt`). Removal leaves no more of them and passes on bodies as many, since a body stays where one was; staticise,
//! which lowers it, leaves as many classes and members, and instructions that weigh as much. So rounds of all these end.

ghost use Rattle.std.specs.Prelude.{◌≡◌, ◌≤◌, Bool, List};
ghost use Rattle.program_model.specs.declared.pass.Changed.{Changed};
ghost use Rattle.program_model.specs.declared.pass.Outside.{Outside};
ghost use Rattle.program_model.specs.declared.program.Program.{Program};
ghost use Rattle.call_graph.specs.declared.live_set.LiveSet.{LiveSet};
ghost use Rattle.reach.specs.Kept.{kept_of, size_of};
ghost use Rattle.body_edit.specs.declared.fate.Fate.{Fate};
ghost use Rattle.thin_pass.specs.Plans.{program_by as program_thinned};
ghost use Rattle.thin_pass.specs.Weights.{weight_of};
ghost use Rattle.rewrite_pass.specs.declared.edit.Edit.{Edit};
ghost use Rattle.rewrite_pass.specs.Plans.{program_by as program_written};
ghost use Rattle.compact.specs.Renamed.{IsCompactedProgram};
ghost use Rattle.copy_prop.specs.Propagated.{IsPropagatedProgram};
ghost use Rattle.facts.specs.declared.facts.Facts.{Facts};
ghost use Rattle.staticise.specs.Left.{receivers_in};
ghost use Rattle.staticise.specs.Loosened.{IsStaticisedBy};

/// What a removal leaves has no more methods with a receiver, and what a pass on bodies leaves as many: one that thins bodies, one
/// that writes over instructions, one that lets reads read originals, and one that gives registers other numbers.
pub fn receivers_left_law()
    ensures removed { (s : LiveSet) (p : Program) → receivers_in (kept_of s p) ≤ receivers_in p }
    ensures thinned { (plan : List (List (List Fate))) (p : Program) → receivers_in (program_thinned plan p) ≡ receivers_in p }
    ensures written { (plan : List (List (List Edit))) (p : Program) → receivers_in (program_written plan p) ≡ receivers_in p }
    ensures propagated { (admitted : List Bool) (p q : Program) → IsPropagatedProgram admitted p q → receivers_in q ≡ receivers_in p }
    ensures compacted { (admitted : List Bool) (p q : Program) → IsCompactedProgram admitted p q → receivers_in q ≡ receivers_in p }
{}

/// A program whose methods are made static has as many classes and members, and its instructions weigh as much.
pub fn made_bulk_law()
    ensures size { (p : Program) (facts : Facts) (o : Outside) (admitted : List Bool) (c : Changed) → IsStaticisedBy p facts o admitted c → size_of c.program ≡ size_of p }
    ensures weight { (p : Program) (facts : Facts) (o : Outside) (admitted : List Bool) (c : Changed) → IsStaticisedBy p facts o admitted c → weight_of c.program ≡ weight_of p }
{}
