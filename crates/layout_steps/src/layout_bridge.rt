//! Programs lay out still behind each pass: where members go, where positions go, where a constant, a goto or a nop stands for an
//! instruction, where calls name other methods, where reads read originals, and where registers have other numbers. No instruction
//! gets longer by any of them, as their contracts say, and no goto comes to lead to itself; so it is the laws of layout_law, body
//! by body.

ghost use Rattle.std.specs.Prelude.{◌≡◌, ℕ, Bool, true, List};
ghost use Rattle.program_model.specs.ProgramRules.{is_well_formed};
ghost use Rattle.program_model.specs.declared.pass.Changed.{Changed};
ghost use Rattle.program_model.specs.declared.program.Program.{Program};
ghost use Rattle.hierarchy.specs.declared.build.Hierarchy.{Hierarchy};
ghost use Rattle.call_graph.specs.declared.live_set.LiveSet.{LiveSet};
ghost use Rattle.facts.specs.declared.facts.Facts.{Facts};
ghost use Rattle.reach.specs.Kept.{kept_of};
ghost use Rattle.thin_pass.specs.Plans.{IsThinnedBy};
ghost use Rattle.dead_code.specs.Wishes.{AreCleaned};
ghost use Rattle.squeeze.specs.Skipping.{AreSkips};
ghost use Rattle.const_prop.specs.Folds.{IsFoldedBy};
ghost use Rattle.devirt.specs.Rebound.{IsReboundBy};
ghost use Rattle.quiet_code.specs.Quieted.{IsQuieted};
ghost use Rattle.copy_prop.specs.Propagated.{IsPropagatedProgram};
ghost use Rattle.compact.specs.Renamed.{IsCompactedProgram};
ghost use Rattle.dex_defs.specs.LaysOut.{LaysOut};

/// A program that lays out does so without some of its classes and members.
pub fn removed_lays_out_law()
    ensures { (marks : LiveSet) (p : Program) → LaysOut p → LaysOut (kept_of marks p) }
{}

/// It does without positions: without what computes what nobody reads, whatever static fields are quiet, and squeezed.
pub fn thinned_lays_out_law()
    ensures cleaned { (admitted : List Bool) (quiet : ℕ → Bool) (p : Program) (c : Changed) → IsThinnedBy (AreCleaned quiet) admitted p c → LaysOut p → LaysOut c.program }
    ensures squeezed { (admitted : List Bool) (p : Program) (c : Changed) → IsThinnedBy AreSkips admitted p c → LaysOut p → LaysOut c.program }
{}

/// A well-formed one does with what facts let stand for its instructions: constants, gotos and nops.
pub fn folded_lays_out_law()
    ensures { (admitted : List Bool) (p : Program) (h : Hierarchy) (facts : Facts) (c : Changed) → is_well_formed p ≡ true → IsFoldedBy p h facts admitted c → LaysOut p → LaysOut c.program }
{}

/// It does where calls name other methods, and where such as do nothing are nops.
pub fn recalled_lays_out_law()
    ensures rebound { (admitted : List Bool) (p : Program) (h : Hierarchy) (facts : Facts) (c : Changed) → IsReboundBy p h facts admitted c → LaysOut p → LaysOut c.program }
    ensures quieted { (admitted : List Bool) (p : Program) (facts : Facts) (c : Changed) → IsQuieted p facts admitted c → LaysOut p → LaysOut c.program }
{}

/// It does where reads read originals, and where registers have other numbers.
pub fn renamed_lays_out_law()
    ensures propagated { (admitted : List Bool) (p q : Program) → IsPropagatedProgram admitted p q → LaysOut p → LaysOut q }
    ensures compacted { (admitted : List Bool) (p q : Program) → IsCompactedProgram admitted p q → LaysOut p → LaysOut q }
{}
