//! A table of shut methods that holds what it says of a program holds it of the program in which methods are static that may be,
//! with the methods of its classes in another order: what was shut is so still under its name, old or new.
//!
//! A call of a static method is none on the framework, and its new name is that of no method of the table, so no class finds it on
//! an object. A method that stays is found where it was, since a loose one that is found in its place would have it for a rival.

ghost use Rattle.std.specs.Prelude.{◌≡◌, Bool, List, true};
ghost use Rattle.dalvik_defs.specs.Outer.{Outer};
ghost use Rattle.dalvik_defs.specs.declared.names.MethodKey.{MethodKey};
ghost use Rattle.dalvik_defs.specs.declared.program.NamedProgram.{NamedProgram};
ghost use Rattle.program_laws.specs.Shutting.{ShutsAlike, with_shut};
ghost use Rattle.pass_defs.specs.Loose.{staticised};
ghost use Rattle.program_laws.specs.Remade.{Remethod, SameMethods, remade};
ghost use Rattle.removal_law.specs.Reach.{IsRegular, NamesOnce, ShutsHold, TellsApart};
ghost use Rattle.static_law.specs.Static.{AreInTables, MayAllBeStatic};
ghost use Rattle.static_law.specs.Shut.{WasShut};

/// A table that shuts what was shut, under old and new names, and the same of the virtual methods that are left, holds what it says of
/// the program in which methods are static that may be.
pub fn static_shut_law()
    ensures { (p : NamedProgram) (o : Outer) (methods : List MethodKey) (loose : MethodKey → Bool) → MayAllBeStatic p o methods loose → AreInTables p o methods
        → IsRegular p → NamesOnce p → TellsApart p → TellsApart (staticised p loose) → (new : Remethod) → SameMethods new (staticised p loose) → (silent shut : MethodKey → Bool)
        → ((k : MethodKey) → shut k ≡ true → WasShut o loose k) → ShutsAlike (remade new (staticised p loose)) o.shut shut → ShutsHold p o
        → ShutsHold (remade new (staticised p loose)) (with_shut o silent shut) }
{}
