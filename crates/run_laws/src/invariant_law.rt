//! The law of invariants: what each step in a frame, each entry, each answer and each move of the framework keeps holds of every
//! state that a run reaches. `specs/Invariant.antt` says what an invariant is, `specs/Holds.antt` what it is that one holds of a
//! state. The law itself speaks of any invariant and so is lemmas: `holds_after`, `never_stuck` and `opens_with` of
//! `proofs/Invariants.antt`, the same with fewer premises in `proofs/Plain.antt`, and one invariant over another in
//! `proofs/Stacked.antt`. Its functions have an empty body, and their contracts are instances of the law.

ghost use Rattle.std.specs.Prelude.{◌≡◌, ◌⊎◌, ℕ, List};
ghost use Rattle.dalvik_defs.specs.Face.{Bodies};
ghost use Rattle.dalvik_defs.specs.State.{Ended, opening};
ghost use Rattle.dalvik_defs.specs.Happens.{Setting};
ghost use Rattle.dalvik_defs.specs.Step.{after};
ghost use Rattle.dalvik_defs.specs.declared.script.Move.{Move};
ghost use Rattle.run_laws.specs.Invariant.{both};
ghost use Rattle.run_laws.specs.Holds.{Holds};
ghost use Rattle.run_laws.specs.Fine.{fine_states};
ghost use Rattle.run_laws.specs.Sized.{sized_states};

/// Whatever the bodies and the script, each state that a run reaches has ended, or each reference of it is to what there is.
pub fn references_law()
    ensures { (s : Setting) (find : Bodies) (script : List Move) (n : ℕ)
        → (after s find (opening script) n ≡ Ended) ⊎ Holds fine_states (after s find (opening script) n) }
{}

/// And in each such state each frame has a body, and as many registers as it.
pub fn sizes_law()
    ensures { (s : Setting) (find : Bodies) (script : List Move) (n : ℕ)
        → (after s find (opening script) n ≡ Ended) ⊎ Holds (both fine_states (sized_states find)) (after s find (opening script) n) }
{}
