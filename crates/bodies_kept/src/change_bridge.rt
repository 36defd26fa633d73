//! A program with other bodies is a change of the program: where no two classes have one name and no two methods of a class one
//! name and signature, what each method has instead can be looked up by these. So the laws of rewriting in place, which speak of
//! changes, hold of two programs that differ in bodies and source lines alone. `specs/Unique.antt` says what is asked of names, and
//! `specs/Changing.antt` what is looked up; `proofs/Changing.antt` has it for proofs above.

ghost use Rattle.std.specs.Prelude.{◌≡◌, ℕ, Bool, true, Option, Contains};
ghost use Rattle.program_model.specs.ProgramRules.{is_well_formed};
ghost use Rattle.program_model.specs.declared.program.Program.{Program};
ghost use Rattle.class_defs.specs.ClassGraph.{IsTwice};
ghost use Rattle.dalvik_defs.specs.Naming.{named};
ghost use Rattle.dalvik_defs.specs.Silence.{key_in};
ghost use Rattle.dalvik_defs.specs.declared.names.MethodKey.{MethodKey};
ghost use Rattle.dalvik_defs.specs.declared.program.NamedBody.{NamedBody};
ghost use Rattle.dalvik_defs.specs.declared.program.NamedClass.{NamedClass};
ghost use Rattle.dalvik_defs.specs.declared.program.NamedMethod.{NamedMethod};
ghost use Rattle.dalvik_defs.specs.declared.program.NamedProgram.{NamedProgram};
ghost use Rattle.program_laws.specs.Bodies.{changed, KeepsCode};
ghost use Rattle.program_laws.specs.Others.{OtherBodies};
ghost use Rattle.bodies_kept.specs.Unique.{IsUnique};
ghost use Rattle.bodies_kept.specs.Changing.{change_to};

/// Names are had once in a well-formed program without a class that is defined twice.
pub fn unique_law()
    ensures { (p : Program) → is_well_formed p ≡ true → ((class : ℕ) → IsTwice p class → ⊥) → IsUnique (named p) }
{}

/// A program that is the same but for bodies and source lines is a change, which keeps code where it was, and what a test
/// says of each method's old and new code it says of the change.
pub fn change_law()
    ensures code { (q : NamedProgram) → KeepsCode (change_to q) }
    ensures same { (p q : NamedProgram) (test : MethodKey → Option NamedBody → Option NamedBody → Bool) → IsUnique p
        → OtherBodies (λ k a b. test k a b ≡ true) p q → changed (change_to q) p ≡ q }
    ensures bodies { (p q : NamedProgram) (test : MethodKey → Option NamedBody → Option NamedBody → Bool) → IsUnique p
        → OtherBodies (λ k a b. test k a b ≡ true) p q
        → (c : NamedClass) (m : NamedMethod) → Contains p.classes c → Contains c.methods m → test (key_in c m) m.body (change_to q c m).body ≡ true }
{}
