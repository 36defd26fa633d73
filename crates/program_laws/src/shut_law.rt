//! What a table of shut methods owes (`ShutsHold` of removal_law), passes keep. Of a removal removal_law says so. Here it is said
//! of other bodies: `specs/Said.antt` tells what of code matters, of which classes it makes objects and which methods of other
//! classes than the program's it calls by their receivers, and where code says no more than before, the table holds what it says
//! still (`proofs/Changed.antt`). Code without some of its positions says no more (`proofs/Thinned.antt`), nor does code without
//! its silent calls (`proofs/Silent.antt`), nor code with other registers (`proofs/Numbered.antt`).

ghost use Rattle.std.specs.Prelude.{Bool};
ghost use Rattle.dalvik_defs.specs.Outer.{Outer};
ghost use Rattle.dalvik_defs.specs.Silence.{silenced};
ghost use Rattle.dalvik_defs.specs.declared.names.MethodKey.{MethodKey};
ghost use Rattle.dalvik_defs.specs.declared.program.NamedProgram.{NamedProgram};
ghost use Rattle.removal_law.specs.Reach.{ShutsHold};
ghost use Rattle.program_laws.specs.Others.{OtherBodies};
ghost use Rattle.program_laws.specs.Said.{SaysNoMore};

/// A table of shut methods that holds what it says of a program holds it of the program with other bodies that say no more:
/// no more methods of other classes than the program's are called by their receivers, and objects of no more classes are made.
pub fn other_bodies_law()
    ensures { (p q : NamedProgram) (o : Outer) → OtherBodies (SaysNoMore p) p q → ShutsHold p o → ShutsHold q o }
{}

/// A table of shut methods that holds what it says of a program holds it of the program without its silent calls.
pub fn silenced_law()
    ensures { (p : NamedProgram) (o : Outer) (admitted : MethodKey → Bool) → ShutsHold p o → ShutsHold (silenced p o admitted) o }
{}
