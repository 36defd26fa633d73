//! The law of inlining: a program shows the same where the bodies of callees stand in place of calls. `specs/Inlining.antt` says
//! what a body with inlined calls is, in whatever way it was made; `specs/Accepted.antt` says when the body that the definition of
//! inlining gives is one, and `specs/Programs.antt` the same of all methods at once. `specs/Entered.antt` says what a run has to
//! keep so that a call enters its callee at once, and `specs/Sound.antt` has conditions that are met by well-formed and typed
//! programs. One frame of the program with inlined calls stands for a frame of the program, or for a callee's on top of its
//! caller's. The law itself speaks of any registers that callees need, and so is a lemma: `inlining_shown` of
//! `proofs/Programs.antt`.

ghost use Rattle.std.specs.Prelude.{◌≡◌, ℕ, Bool, true, List, length};
ghost use Rattle.std.specs.List.{list_all};
ghost use Rattle.dalvik_defs.specs.Names.{Text};
ghost use Rattle.dalvik_defs.specs.Face.{face_of, bodies_of};
ghost use Rattle.dalvik_defs.specs.Outer.{Outer};
ghost use Rattle.dalvik_defs.specs.Quiet.{quiet_within, calm_opening};
ghost use Rattle.dalvik_defs.specs.Shown.{Fit, SameShown};
ghost use Rattle.dalvik_defs.specs.State.{State};
ghost use Rattle.dalvik_defs.specs.Step.{setting_of};
ghost use Rattle.dalvik_defs.specs.declared.names.MethodKey.{MethodKey};
ghost use Rattle.dalvik_defs.specs.declared.program.NamedClass.{NamedClass};
ghost use Rattle.dalvik_defs.specs.declared.program.NamedProgram.{NamedProgram};
ghost use Rattle.dalvik_defs.specs.declared.script.Move.{Move};
ghost use Rattle.dalvik_defs.specs.declared.tables.Floats.{Floats};
ghost use Rattle.dalvik_defs.specs.declared.tables.Framework.{Framework};
ghost use Rattle.pass_defs.specs.Kinds.{Kind};
ghost use Rattle.pass_defs.specs.Demands.{meets, passed};
ghost use Rattle.pass_defs.specs.Typed.{words_of};
ghost use Rattle.program_laws.specs.Others.{OtherBodies};
ghost use Rattle.inline_law.specs.Inlining.{Passes};
ghost use Rattle.inline_law.specs.Entered.{AcceptedIn, AreEnterable, FactsHold, sites_of};
ghost use Rattle.inline_law.specs.Programs.{Inlines, IsInlining};
ghost use Rattle.inline_law.specs.Sound.{IsStaticInlining};

/// A program shows the same with accepted calls inlined, where these calls enter callees that need no register but those of
/// their arguments, and where a test that a run keeps from its opening on says that receivers aren't null and that a wide that
/// is handed back is whole.
pub fn inlining_law()
    ensures { (p q : NamedProgram) (o : Outer) (accepted : AcceptedIn) (need : MethodKey → ℕ → ℕ → Bool) (level : ℕ) (reached : Framework → Floats → List Move → State → Bool)
        → IsInlining p (λ k n r. need k n r ≡ true) accepted → OtherBodies (Inlines p accepted) p q
        → ((f : Framework) → AreEnterable (face_of p f) (bodies_of p) (quiet_within (face_of p f) level) (sites_of p accepted))
        → ((f : Framework) (a : Floats) (script : List Move) → Fit p o f script → FactsHold (setting_of p o f a) (bodies_of p) (sites_of p accepted) (λ t. reached f a script t ≡ true))
        → ((f : Framework) (a : Floats) (script : List Move) → Fit p o f script → reached f a script (calm_opening (quiet_within (face_of p f) level) script) ≡ true)
        → SameShown p q o }
{}

/// It shows the same with accepted calls inlined of static methods of trivially initialised classes that hand back no wide:
/// nothing is asked of what a run reaches.
pub fn static_inlining_law()
    ensures { (p q : NamedProgram) (o : Outer) (accepted : AcceptedIn) → IsStaticInlining p accepted → OtherBodies (Inlines p accepted) p q → SameShown p q o }
{}

/// A typed call passes both halves of each wide, one behind the other.
pub fn passing_law()
    ensures { (p : NamedProgram) (c : NamedClass) (ks : List Kind) (ts : List Text) (rs : List ℕ)
        → list_all (λ d. meets p c ks d.0 d.1) (passed ts rs) ≡ true → length rs ≡ words_of ts → Passes ts rs }
{}
