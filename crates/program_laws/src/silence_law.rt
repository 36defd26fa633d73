//! The law of silence: the program without its silent calls (`Silence` of `dalvik_defs`) is typed where the program is, and has its
//! face. `specs/Bodies.antt` says what it is to have other bodies, `specs/Results.antt` where results are taken.

ghost use Rattle.std.specs.Prelude.{◌≡◌, Bool, true, Some, Contains};
ghost use Rattle.program_model.specs.ProgramRules.{is_well_formed};
ghost use Rattle.program_model.specs.declared.program.Program.{Program};
ghost use Rattle.dalvik_defs.specs.Face.{face_of};
ghost use Rattle.dalvik_defs.specs.Naming.{named};
ghost use Rattle.dalvik_defs.specs.Outer.{Outer};
ghost use Rattle.dalvik_defs.specs.Silence.{silenced};
ghost use Rattle.dalvik_defs.specs.declared.names.MethodKey.{MethodKey};
ghost use Rattle.dalvik_defs.specs.declared.program.NamedBody.{NamedBody};
ghost use Rattle.dalvik_defs.specs.declared.program.NamedMethod.{NamedMethod};
ghost use Rattle.dalvik_defs.specs.declared.program.NamedClass.{NamedClass};
ghost use Rattle.dalvik_defs.specs.declared.program.NamedProgram.{NamedProgram};
ghost use Rattle.dalvik_defs.specs.declared.tables.Framework.{Framework};
ghost use Rattle.pass_defs.specs.Typed.{IsTyped, IsTyping, Table};
ghost use Rattle.program_laws.specs.Bodies.{Change, changed, KeepsCode};
ghost use Rattle.program_laws.specs.Results.{AllTakeInPlace};

/// Where each method has code exactly if it had, a program with other bodies and source lines has the face that it had, and is typed where
/// each new body has a typing in the program before.
pub fn other_bodies_law()
    ensures face { (new : Change) → KeepsCode new → (p : NamedProgram) (f : Framework) → face_of (changed new p) f ≡ face_of p f }
    ensures typed { (new : Change) → KeepsCode new → (p : NamedProgram)
        → ((c : NamedClass) (m : NamedMethod) (b : NamedBody) → Contains p.classes c → Contains c.methods m → (new c m).body ≡ Some b → (t : Table) × IsTyping p c m b t)
        → IsTyped (changed new p) }
{}

/// The program without its silent calls has the face that the program has.
pub fn silenced_face_law()
    ensures { (p : NamedProgram) (o : Outer) (admitted : MethodKey → Bool) (f : Framework) → face_of (silenced p o admitted) f ≡ face_of p f }
{}

/// The program without its silent calls is typed where the program is, if results are taken where they are given: only
/// what gives a result goes on to a MoveResult, and no handler is one. (A MoveResult that stood behind a nop behind a
/// silent call would be left without a result.)
pub fn silenced_typed_law()
    ensures { (p : NamedProgram) → AllTakeInPlace p → IsTyped p → (o : Outer) (admitted : MethodKey → Bool) → IsTyped (silenced p o admitted) }
{}

/// In a well-formed program results are taken where they are given.
pub fn results_in_place_law()
    ensures { (p : Program) → is_well_formed p ≡ true → AllTakeInPlace (named p) }
{}
