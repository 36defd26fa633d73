//! The law of programs that the hierarchy and the verifier accept.

ghost use Rattle.std.specs.Prelude.{◌≡◌, true, []};
ghost use Rattle.program_model.specs.declared.program.Program.{Program};
ghost use Rattle.program_model.specs.declared.pass.Outside.{Outside};
ghost use Rattle.program_model.specs.ProgramRules.{is_well_formed};
ghost use Rattle.call_graph.specs.declared.live_set.LiveSet.{LiveSet};
ghost use Rattle.call_graph.specs.Facts.{Fits};
ghost use Rattle.call_graph.specs.Closed.{IsClosedSet};
ghost use Rattle.dalvik_defs.specs.Naming.{named};
ghost use Rattle.dalvik_defs.specs.Outer.{outer_of};
ghost use Rattle.dalvik_defs.specs.Shown.{SameShown};
ghost use Rattle.hierarchy.specs.Shapes.{IsAcyclic, IsResolved};
ghost use Rattle.hierarchy.specs.declared.build.Hierarchy.{Hierarchy};
ghost use Rattle.reach.specs.Kept.{kept_of};
ghost use Rattle.verify.specs.Methods.{TypesAll};

/// What closed marks leave of a well-formed program shows the same, where the hierarchy was built of it, the verifier has
/// a typing of each method, and no method is shut, as in what rules alone give. The premises are what `Hierarchy::build`,
/// `verify_all` and `live_members` say where they accept.
pub fn accepted_reach_law()
    ensures { (p : Program) (h : Hierarchy) (o : Outside) (s : LiveSet) → is_well_formed p ≡ true → IsResolved p h → IsAcyclic p → TypesAll p h
        → Fits p s → IsClosedSet p o s → o.shut ≡ [] → SameShown (named p) (named (kept_of s p)) (outer_of p o) }
{}
