//! Laws of the definitions.

ghost use Rattle.std.specs.Prelude.{◌≡◌, ℕ, Bool, true, List};
ghost use Rattle.program_model.specs.declared.body.Body.{Body};
ghost use Rattle.program_model.specs.declared.program.Program.{Program};
ghost use Rattle.dalvik_defs.specs.Names.{Text};
ghost use Rattle.dalvik_defs.specs.Naming.{body_of};
ghost use Rattle.dalvik_defs.specs.declared.tables.Floats.{Floats};
ghost use Rattle.dalvik_defs.specs.Outer.{Outer};
ghost use Rattle.dalvik_defs.specs.declared.program.NamedBody.{NamedBody};
ghost use Rattle.dalvik_defs.specs.declared.program.NamedClass.{NamedClass};
ghost use Rattle.dalvik_defs.specs.declared.program.NamedMethod.{NamedMethod};
ghost use Rattle.dalvik_defs.specs.declared.program.NamedProgram.{NamedProgram};
ghost use Rattle.pass_defs.specs.Typed.{IsTyping, IsFlow, Table};
ghost use Rattle.pass_defs.specs.Live.{IsClosedFamily, IsForced, HasTheLive, Family, Conditions, everything};
ghost use Rattle.pass_defs.specs.Constants.{IsSolution, anything};
ghost use Rattle.pass_defs.specs.Analysis.{IsSound};
ghost use Rattle.pass_defs.specs.FlatAnalysis.{flat_analysis};
ghost use Rattle.pass_defs.specs.Thinned.{Fate, origins_from, thinned, body_thinned};
ghost use Rattle.pass_defs.specs.Origins.{Ascends};
ghost use Rattle.pass_defs.specs.Kinds.{Kind};
ghost use Rattle.pass_defs.specs.Registers.{Kinds, kinds_below, written};

/// Some family is closed: the one that has everything.
pub fn everything_is_closed_law()
    ensures { (p : NamedProgram) (o : Outer) (k : Conditions) → IsClosedFamily p o k everything }
{}

/// Some table is a constants solution: the one that says of all that it may be anything.
pub fn anything_is_a_solution_law()
    ensures { (p : NamedProgram) (o : Outer) → IsSolution p o anything }
{}

/// A typing is a flow, so the least flow is at or below every typing.
pub fn a_typing_is_a_flow_law()
    ensures { (p : NamedProgram) (c : NamedClass) (m : NamedMethod) (b : NamedBody) (t : Table) → IsTyping p c m b t → IsFlow p c m b t }
{}

/// A closed family whose marks every closed family has is the least one: it has exactly what is live.
pub fn a_forced_family_is_least_law()
    ensures { (p : NamedProgram) (o : Outer) (k : Conditions) (s : Family) → IsClosedFamily p o k s → IsForced p o k s → HasTheLive p o k s }
{}

/// A write of one kind keeps the order: where kinds are at or below others, they are so behind it.
pub fn a_write_keeps_the_order_law()
    ensures { (p : NamedProgram) (register : ℕ) (kind : Kind) (a b : Kinds) → kinds_below p a b ≡ true → kinds_below p (written register kind a) (written register kind b) ≡ true }
{}

/// What flat values make of known numbers holds of what the machine makes of them, and they lose no outcome.
pub fn flat_values_are_sound_law()
    ensures { (under : Text → Text → Bool) (floats : Floats) → IsSound flat_analysis under floats }
{}

/// The origins of a body that was thinned ascend.
pub fn origins_ascend_law()
    ensures { (from : ℕ) (fates : List Fate) → Ascends (origins_from from fates) }
{}

/// A body that is thinned by number is named as the named body thinned.
pub fn thinning_is_named_law()
    ensures { (p : Program) (fates : List Fate) (b : Body) → body_of p (body_thinned fates b) ≡ thinned fates (body_of p b) }
{}
