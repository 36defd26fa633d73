//! The law of rewriting in place: a program whose bodies have other forms at the same positions shows the same, where any claims on
//! registers, that one frame holds in one register what the other holds in another, hold at each entry and are kept along each
//! edge. `specs/Rewriting.antt` says what is asked. The law speaks of any claims and so is a lemma: `in_place_shown` of
//! `proofs/Programs.antt`; `proofs/Bodies.antt` says what the bodies of a program with other bodies are. Its function has an empty
//! body, and its contract is an instance of the law.

ghost use Rattle.std.specs.Prelude.{◌≡◌, ℕ, List, Bool, true, Some, None};
ghost use Rattle.dalvik_defs.specs.Face.{face_of, bodies_of};
ghost use Rattle.dalvik_defs.specs.Outer.{Outer};
ghost use Rattle.dalvik_defs.specs.Shown.{Fit, SameShown};
ghost use Rattle.dalvik_defs.specs.State.{State};
ghost use Rattle.dalvik_defs.specs.Step.{setting_of};
ghost use Rattle.dalvik_defs.specs.declared.names.MethodKey.{MethodKey};
ghost use Rattle.dalvik_defs.specs.declared.program.NamedBody.{NamedBody};
ghost use Rattle.dalvik_defs.specs.declared.program.NamedProgram.{NamedProgram};
ghost use Rattle.dalvik_defs.specs.declared.script.Move.{Move};
ghost use Rattle.dalvik_defs.specs.declared.tables.Floats.{Floats};
ghost use Rattle.dalvik_defs.specs.declared.tables.Framework.{Framework};
ghost use Rattle.program_laws.specs.Bodies.{Change, changed, KeepsCode};
ghost use Rattle.program_model.specs.ProgramRules.{is_well_formed};
ghost use Rattle.program_model.specs.declared.program.Program.{Program};
ghost use Rattle.dalvik_defs.specs.Naming.{named};
ghost use Rattle.form_laws.specs.Solid.{AllSolid};
ghost use Rattle.form_laws.specs.Rewriting.{IsInPlace};
ghost use Rattle.form_laws.specs.Replaced.{Replaced};

/// Programs of one face, of which the second is the first rewritten in place, show the same: whatever is claimed of
/// registers, for every framework, float table and script that fit.
pub fn place_law()
    ensures { (p q : NamedProgram) (o : Outer) (claims : MethodKey → ℕ → ℕ → ℕ → Bool)
        → ((f : Framework) → face_of p f ≡ face_of q f)
        → ((f : Framework) (a : Floats) (script : List Move) → Fit p o f script
        → IsInPlace (setting_of p o f a) (bodies_of p) (bodies_of q) (λ k n old new. claims k n old new ≡ true) (λ (t : State). Unit {0}))
        → SameShown p q o }
{}

/// Where each method has code exactly if it had, the body of a method of a program with other bodies is the one that stands
/// in place of its own.
pub fn bodies_law()
    ensures some { (new : Change) (p : NamedProgram) (k : MethodKey) (b : NamedBody) → bodies_of p k ≡ Some b → Replaced new p k b }
    ensures none { (new : Change) (p : NamedProgram) → KeepsCode new → (k : MethodKey) → bodies_of p k ≡ None → bodies_of (changed new p) k ≡ None }
{}

/// In a well-formed program each body keeps to its registers and to fields of values.
pub fn solid_law()
    ensures { (p : Program) → is_well_formed p ≡ true → AllSolid (named p) }
{}
