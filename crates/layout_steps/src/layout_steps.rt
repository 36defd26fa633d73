//! A program lays out still behind each pass of the rounds, with calls inlined before them, and without its silent calls. What
//! `pipeline` says of a pass is what the laws of layout_bridge ask; calls of methods made static pass the same registers, and
//! nothing else of a body changes; and a new body with inlined calls is put in place only where it lays out in few units with room
//! for its lists of handlers, as the pass tests it, and has as many regions as before.

ghost use Rattle.std.specs.Prelude.{◌≡◌, ℕ, Bool, true, List};
ghost use Rattle.program_model.specs.ProgramRules.{is_well_formed};
ghost use Rattle.program_model.specs.declared.pass.Changed.{Changed};
ghost use Rattle.program_model.specs.declared.pass.Origin.{Origin};
ghost use Rattle.program_model.specs.declared.pass.Outside.{Outside};
ghost use Rattle.program_model.specs.declared.program.Program.{Program};
ghost use Rattle.hierarchy.specs.declared.build.Hierarchy.{Hierarchy};
ghost use Rattle.facts.specs.declared.facts.Facts.{Facts};
ghost use Rattle.staticise.specs.Loosened.{IsStaticisedBy};
ghost use Rattle.inline_calls.specs.Asked.{Row};
ghost use Rattle.inline_calls.specs.Plans.{IsInlined};
ghost use Rattle.pipeline.specs.Passes.{Pass, Does};
ghost use Rattle.pipeline.specs.Silence.{IsSilent};
ghost use Rattle.dex_defs.specs.LaysOut.{LaysOut};

/// What any pass of a round leaves of a well-formed program that lays out lays out.
pub fn pass_lays_out_law()
    ensures { (o : Outside) (admitted : List Bool) (pass : Pass) (p q : Program) (moved : List (List Origin)) → is_well_formed p ≡ true → Does o admitted pass p q moved → LaysOut p → LaysOut q }
{}

/// A program that lays out does so without its silent calls.
pub fn silenced_lays_out_law()
    ensures { (silent : List ℕ) (admitted : List Bool) (p q : Program) → IsSilent silent admitted p q → LaysOut p → LaysOut q }
{}

/// A program that lays out does so with methods made static.
pub fn staticised_lays_out_law()
    ensures { (p : Program) (facts : Facts) (o : Outside) (admitted : List Bool) (c : Changed) → IsStaticisedBy p facts o admitted c → LaysOut p → LaysOut c.program }
{}

/// What inlining leaves of a program that lays out lays out, where it is well-formed.
pub fn inlined_lays_out_law()
    ensures { (p q : Program) (h : Hierarchy) (facts : Facts) (admitted : List Bool) (count : ℕ) (origins : List (List Origin)) (rows : List Row)
        → IsInlined p h facts admitted q count origins rows → is_well_formed q ≡ true → LaysOut p → LaysOut q }
{}
