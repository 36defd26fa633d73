//! The law of quiet calls: a program shows the same without calls of quiet methods whose results nobody takes.
//!
//! A quiet method shows nothing, changes nothing, throws nothing and ends. `specs/Calls.antt` says so by what a step in it does: it
//! goes on at a position of lower rank, enters another quiet method of lower rank, or ends the method (`Advances`). So from its
//! entry a run comes to its end in silence (`proofs/Gliding.antt`), and the call may go as dead code may: the law of thinning takes
//! both (`proofs/Dropped.antt`). Other forms may go with them of which it is known that they do no more than write registers which
//! nobody reads, as a division by a number other than 0. The law speaks of what is known in the states that a run reaches, by a
//! test that a run keeps, and so serves every analysis.

ghost use Rattle.std.specs.Prelude.{◌≡◌, ℕ, Bool, true, List, suc, length};
ghost use Rattle.dalvik_defs.specs.Face.{face_of, bodies_of};
ghost use Rattle.dalvik_defs.specs.Outer.{Outer};
ghost use Rattle.dalvik_defs.specs.Quiet.{quiet_within, calm_opening};
ghost use Rattle.dalvik_defs.specs.Shown.{Fit, SameShown};
ghost use Rattle.dalvik_defs.specs.State.{State};
ghost use Rattle.dalvik_defs.specs.Step.{setting_of};
ghost use Rattle.dalvik_defs.specs.declared.names.MethodKey.{MethodKey};
ghost use Rattle.dalvik_defs.specs.declared.program.NamedProgram.{NamedProgram};
ghost use Rattle.dalvik_defs.specs.declared.script.Move.{Move};
ghost use Rattle.dalvik_defs.specs.declared.tables.Floats.{Floats};
ghost use Rattle.dalvik_defs.specs.declared.tables.Framework.{Framework};
ghost use Rattle.program_laws.specs.Others.{OtherBodies};
ghost use Rattle.thin_laws.specs.Cleaning.{IsSound};
ghost use Rattle.thin_laws.specs.Thins.{Thins};
ghost use Rattle.thin_laws.specs.Calls.{Rank, QuietRuns, IsQuietCleaning};

/// A program shows the same without calls that enter quiet methods and whose results nobody takes, without other forms that do
/// no more than write registers which nobody reads, and without dead code, where a test that a run keeps from its opening on,
/// with trivially initialised classes done, says that steps in quiet methods advance, that these calls enter quiet methods, and
/// that these forms do no more.
pub fn quiet_law()
    ensures { (p q : NamedProgram) (o : Outer) (gone spare : MethodKey → ℕ → Bool) (quiet : MethodKey → Bool) (rank : Rank) (reached : Framework → Floats → List Move → State → Bool)
        → IsSound p → OtherBodies (Thins (λ k fs b. IsQuietCleaning p (λ n. gone k n ≡ true) (λ n. spare k n ≡ true) fs b)) p q
        → ((f : Framework) (a : Floats) (script : List Move) → Fit p o f script
        → QuietRuns (setting_of p o f a) (bodies_of p) (λ k. quiet k ≡ true) rank (λ k n. gone k n ≡ true) (λ k n. spare k n ≡ true) (λ t. reached f a script t ≡ true)
        × (reached f a script (calm_opening (quiet_within (face_of p f) (suc (length p.classes))) script) ≡ true))
        → SameShown p q o }
{}
