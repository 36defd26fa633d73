//! Laws of the passes.

ghost use Rattle.std.specs.Prelude.{◌≡◌, ℕ, Bool, true, List, []};
ghost use Rattle.program_model.specs.ProgramRules.{is_well_formed};
ghost use Rattle.program_model.specs.declared.pass.Origin.{Origin};
ghost use Rattle.program_model.specs.declared.pass.Outside.{Outside};
ghost use Rattle.program_model.specs.declared.program.Program.{Program};
ghost use Rattle.hierarchy.specs.Shapes.{IsResolved};
ghost use Rattle.hierarchy.specs.declared.build.Hierarchy.{Hierarchy};
ghost use Rattle.facts.specs.declared.facts.Facts.{Facts};
ghost use Rattle.inline_calls.specs.Asked.{Row};
ghost use Rattle.inline_calls.specs.Plans.{IsInlined};
ghost use Rattle.pipeline.specs.declared.traces.Traced.{Traced};
ghost use Rattle.pipeline.specs.Inlining.{IsInlining};
ghost use Rattle.pipeline.specs.Passes.{Reach, ConstProp, Devirt, Staticise, QuietCalls, CopyProp, DeadCode, Squeeze, Compact, AreKnown};
ghost use Rattle.headline.specs.Owed.{IsSound, Owes, Keeps};
ghost use Rattle.bodies_kept.specs.Stays.{StaysInlined};

/// A removal of what is not reached keeps what a pass owes, and so does a removal that is barred.
pub fn reach_keeps_law()
    ensures { (o : Outside) (admitted : List Bool) → Keeps o admitted Reach }
{}

/// Bodies over whose instructions is written what is known of them keep what a pass owes.
pub fn const_prop_keeps_law()
    ensures { (o : Outside) (admitted : List Bool) → Keeps o admitted ConstProp }
{}

/// Bodies whose calls name what all their receivers find keep what a pass owes.
pub fn devirt_keeps_law()
    ensures { (o : Outside) (admitted : List Bool) → Keeps o admitted Devirt }
{}

/// Methods that are static which could do without a receiver keep what a pass owes.
pub fn staticise_keeps_law()
    ensures { (o : Outside) (admitted : List Bool) → Keeps o admitted Staticise }
{}

/// Bodies without calls and divisions that do nothing keep what a pass owes.
pub fn quiet_calls_keeps_law()
    ensures { (o : Outside) (admitted : List Bool) → Keeps o admitted QuietCalls }
{}

/// Bodies whose stale reads read originals keep what a pass owes.
pub fn copy_prop_keeps_law()
    ensures { (o : Outside) (admitted : List Bool) → Keeps o admitted CopyProp }
{}

/// Bodies without what computes what nobody reads keep what a pass owes.
pub fn dead_code_keeps_law()
    ensures { (o : Outside) (admitted : List Bool) → Keeps o admitted DeadCode }
{}

/// Bodies without what does nothing keep what a pass owes.
pub fn squeeze_keeps_law()
    ensures { (o : Outside) (admitted : List Bool) → Keeps o admitted Squeeze }
{}

/// Bodies whose registers have the least numbers that they can have keep what a pass owes.
pub fn compact_keeps_law()
    ensures { (o : Outside) (admitted : List Bool) → Keeps o admitted Compact }
{}

/// What is left of a sound program once calls are inlined, before any round, owes what a pass owes, where it is well-formed, as the
/// pass tests it to be: by facts that are known of the program, and by facts that know nothing.
pub fn inlined_owes_law()
    ensures known { (o : Outside) (admitted : List Bool) (p q : Program) (h : Hierarchy) (facts : Facts) (count : ℕ) (origins : List (List Origin)) (rows : List Row) → IsSound p → IsResolved p h
        → IsInlined p h facts admitted q count origins rows → is_well_formed q ≡ true → AreKnown o p facts → Owes o p q }
    ensures frameless { (o : Outside) (admitted : List Bool) (p q : Program) (h : Hierarchy) (facts : Facts) (count : ℕ) (origins : List (List Origin)) (rows : List Row) → IsSound p → IsResolved p h
        → IsInlined p h facts admitted q count origins rows → is_well_formed q ≡ true → facts.frames.items ≡ [] → Owes o p q }
{}

/// What pipeline leaves of a sound program once calls are inlined before the rounds owes what a pass owes, whatever facts were taken;
/// a method that isn't admitted stays whole, and a body has no more registers, or at most 16.
pub fn inlining_owes_law()
    ensures owes { (o : Outside) (admitted : List Bool) (p : Program) (t : Traced) (rows : List Row) → IsSound p → IsInlining o admitted p t rows → Owes o p t.program }
    ensures stays { (o : Outside) (admitted : List Bool) (p : Program) (t : Traced) (rows : List Row) → IsInlining o admitted p t rows → StaysInlined admitted p t.program }
{}
