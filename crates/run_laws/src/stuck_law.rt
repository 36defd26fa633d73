//! A typed program is never stuck: under a framework and a script that fit it, a run ends only at the end of the script or at a
//! move of the framework that isn't legal. `specs/Regular.antt` says what is asked of the program, `specs/NeverStuck.antt` what is
//! had, and `specs/TypedStates.antt` what the kinds of a typing say of a state, as an invariant (`Invariant` of `invariant_law`).

ghost use Rattle.std.specs.Prelude.{◌≡◌, ◌⊎◌, ℕ, List};
ghost use Rattle.dalvik_defs.specs.Face.{bodies_of};
ghost use Rattle.dalvik_defs.specs.Outer.{Outer};
ghost use Rattle.dalvik_defs.specs.Shown.{Fit};
ghost use Rattle.dalvik_defs.specs.State.{Ended, opening};
ghost use Rattle.dalvik_defs.specs.Step.{after, setting_of};
ghost use Rattle.dalvik_defs.specs.declared.program.NamedProgram.{NamedProgram};
ghost use Rattle.dalvik_defs.specs.declared.script.Move.{Move};
ghost use Rattle.dalvik_defs.specs.declared.tables.Floats.{Floats};
ghost use Rattle.dalvik_defs.specs.declared.tables.Framework.{Framework};
ghost use Rattle.run_laws.specs.Holds.{Holds};
ghost use Rattle.run_laws.specs.NeverStuck.{IsNeverStuck};
ghost use Rattle.run_laws.specs.Regular.{IsRegular};
ghost use Rattle.run_laws.specs.TypedStates.{typed_states};
ghost use Rattle.run_laws.specs.Wides.{wide_states};

/// A regular program under a framework and a script that fit it ends only at the end of the script or at a move that isn't
/// legal: no frame is without a step.
pub fn never_stuck()
    ensures { (p : NamedProgram) (o : Outer) (f : Framework) (a : Floats) (script : List Move) → IsRegular p → Fit p o f script
        → IsNeverStuck (setting_of p o f a) (bodies_of p) (opening script) }
{}

/// Each state that such a run reaches has ended, or the kinds of a typing hold of it.
pub fn typed_always()
    ensures { (p : NamedProgram) (o : Outer) (f : Framework) (a : Floats) (script : List Move) (n : ℕ) → IsRegular p → Fit p o f script
        → let t = after (setting_of p o f a) (bodies_of p) (opening script) n in (t ≡ Ended) ⊎ Holds (typed_states p f o) t }
{}

/// Nor does a wide fall apart: in each state that such a run reaches, where a typing of the frame on top, or of one that waits, has
/// the low half of a wide in a register and a high half in the next one, these hold the two halves of one number; and the place
/// of the last result, fields and items of arrays hold the whole number where they hold a wide.
pub fn wides_whole()
    ensures { (p : NamedProgram) (o : Outer) (f : Framework) (a : Floats) (script : List Move) (n : ℕ) → IsRegular p → Fit p o f script
        → let t = after (setting_of p o f a) (bodies_of p) (opening script) n in (t ≡ Ended) ⊎ Holds (wide_states p f o) t }
{}
