//! Programs that are the same but for bodies and source lines: `specs/Others.antt` says by name what that is, and
//! `specs/Numbered.antt` by number. They have one face, and what holds of each method's old and new code holds of what look-ups
//! find: `others_face` of `proofs/Faces.antt`, `others_found` of `proofs/Found.antt`, and `others_named` of `proofs/Named.antt`,
//! which leads from numbers to names.

ghost use Rattle.std.specs.Prelude.{◌≡◌, Bool, true, Option, None, Some, Contains};
ghost use Rattle.std.specs.Option.{option_map};
ghost use Rattle.program_model.specs.declared.program.Program.{Program};
ghost use Rattle.dalvik_defs.specs.Face.{face_of, bodies_of};
ghost use Rattle.dalvik_defs.specs.Naming.{named, body_of};
ghost use Rattle.dalvik_defs.specs.Silence.{key_in};
ghost use Rattle.dalvik_defs.specs.declared.names.MethodKey.{MethodKey};
ghost use Rattle.dalvik_defs.specs.declared.program.NamedBody.{NamedBody};
ghost use Rattle.dalvik_defs.specs.declared.program.NamedClass.{NamedClass};
ghost use Rattle.dalvik_defs.specs.declared.program.NamedMethod.{NamedMethod};
ghost use Rattle.dalvik_defs.specs.declared.program.NamedProgram.{NamedProgram};
ghost use Rattle.dalvik_defs.specs.declared.tables.Framework.{Framework};
ghost use Rattle.pass_defs.specs.Typed.{Table, IsTyping, IsTyped};
ghost use Rattle.program_laws.specs.Others.{OtherBodies};
ghost use Rattle.program_laws.specs.Numbered.{OtherNumberedBodies};

/// What a test says of each method's old and new code it says of what look-ups find, if it holds of no code and none; and the
/// two programs have one face. The other program is typed where the new bodies have typings in the one.
pub fn other_bodies_law()
    ensures face { (p q : NamedProgram) (test : MethodKey → Option NamedBody → Option NamedBody → Bool)
        → OtherBodies (λ k a b. test k a b ≡ true) p q → (f : Framework) → face_of q f ≡ face_of p f }
    ensures found { (p q : NamedProgram) (test : MethodKey → Option NamedBody → Option NamedBody → Bool)
        → ((k : MethodKey) → test k None None ≡ true) → OtherBodies (λ k a b. test k a b ≡ true) p q → (k : MethodKey) → test k (bodies_of p k) (bodies_of q k) ≡ true }
    ensures typed { (p q : NamedProgram) (test : MethodKey → Option NamedBody → Option NamedBody → Bool)
        → OtherBodies (λ k a b. test k a b ≡ true) p q
        → ((c : NamedClass) (m : NamedMethod) (b : NamedBody) → Contains p.classes c → Contains c.methods m → test (key_in c m) m.body (Some b) ≡ true → (t : Table) × IsTyping p c m b t)
        → IsTyped q }
{}

/// Programs that are the same but for bodies and source lines by number are so by name.
pub fn numbered_bodies_law()
    ensures { (p q : Program) (test : MethodKey → Option NamedBody → Option NamedBody → Bool)
        → OtherNumberedBodies (λ k a b. test k (option_map (body_of p) a) (option_map (body_of p) b) ≡ true) p q
        → OtherBodies (λ k a b. test k a b ≡ true) (named p) (named q) }
{}
