//! The law of classes with other methods: a program in which each class has the same methods in another order shows the same, if
//! methods are told apart (`specs/Remade.antt`).
//!
//! What of a class is no method, its place in the class graph, its flags and its fields, is found alike whatever methods its class
//! gets (`proofs/Remade.antt`); other laws on programs with other methods take that from here.

ghost use Rattle.std.specs.Prelude.{◌≡◌};
ghost use Rattle.dalvik_defs.specs.Outer.{Outer};
ghost use Rattle.dalvik_defs.specs.Shown.{SameShown};
ghost use Rattle.dalvik_defs.specs.declared.program.NamedProgram.{NamedProgram};
ghost use Rattle.removal_law.specs.Reach.{TellsApart};
ghost use Rattle.program_laws.specs.Remade.{remade, Remethod, SameMethods};

/// A program shows the same where its classes have their methods in another order, if methods are told apart.
pub fn order_law()
    ensures { (new : Remethod) (p : NamedProgram) (o : Outer) → TellsApart p → SameMethods new p → SameShown p (remade new p) o }
{}
