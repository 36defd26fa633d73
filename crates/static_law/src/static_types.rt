//! A typed program stays typed in which methods are static that may be: a body keeps its typing.
//!
//! A loose method begins with an object of its class in its first argument, as receiver or as first parameter, and what fits the
//! class that a plain call names fits the loose method's class, above it (`proofs/Upward`). In programs with the same order of
//! kinds a form that is no call asks the same, and leaves the same (`proofs/TypedForms`).

ghost use Rattle.std.specs.Prelude.{◌≡◌, ℕ, Bool, true, List, None};
ghost use Rattle.program_model.specs.declared.program.Program.{Program};
ghost use Rattle.dalvik_defs.specs.Names.{object_type};
ghost use Rattle.dalvik_defs.specs.Under.{class_named};
ghost use Rattle.dalvik_defs.specs.Outer.{Outer};
ghost use Rattle.dalvik_defs.specs.declared.names.MethodKey.{MethodKey};
ghost use Rattle.dalvik_defs.specs.declared.program.NamedProgram.{NamedProgram};
ghost use Rattle.pass_defs.specs.Loose.{AreLoose, staticised};
ghost use Rattle.pass_defs.specs.Numbered.{tables_of};
ghost use Rattle.pass_defs.specs.Typed.{IsTyped};
ghost use Rattle.removal_law.specs.Reach.{IsRegular, IsAcyclic, DefinesOnce, IsDescribed, NamesOnce, TellsApart};
ghost use Rattle.program_laws.specs.Remade.{Remethod, SameMethods, remade};
ghost use Rattle.program_laws.specs.Rooted.{IsRooted};
ghost use Rattle.run_laws.specs.Regular as regular;
ghost use Rattle.static_law.specs.Static.{AreInTables, FitsUpward, FreeInterfaces, MayAllBeStatic};

/// A typed program stays typed in which methods are static that may be, where what fits a class fits the plain ones above it.
pub fn typed_static_law()
    ensures { (p : NamedProgram) (o : Outer) (methods : List MethodKey) (loose : MethodKey → Bool) → MayAllBeStatic p o methods loose → AreInTables p o methods
        → IsRegular p → IsDescribed p → DefinesOnce p → NamesOnce p → FitsUpward p → IsTyped p → IsTyped (staticised p loose) }
{}

/// So it is where the classes of a program stand in lines that end outside it, and no plain class is the superclass of an interface.
pub fn upward_law()
    ensures { (p : NamedProgram) → IsRooted p → FreeInterfaces p → FitsUpward p }
{}

/// A typed, regular program stays typed in which its loose methods are static.
pub fn loose_typed_law()
    ensures { (base : Program) (p : NamedProgram) (o : Outer) (optimise : Bool) (fits : Program → Bool)
        (admitted : MethodKey → Bool) (not_null : MethodKey → ℕ → ℕ → Bool) (loose : MethodKey → Bool)
        → AreLoose base p o optimise (λ x. fits x ≡ true) admitted (λ k n r. not_null k n r ≡ true) loose → AreInTables p o (tables_of base).methods
        → regular.IsRegular p → IsAcyclic p → IsDescribed p → class_named p object_type ≡ None → IsTyped (staticised p loose) }
{}

/// A typed program stays typed with the methods of its classes in another order, if methods are told apart.
pub fn ordered_typed_law()
    ensures { (new : Remethod) (p : NamedProgram) → TellsApart p → NamesOnce p → SameMethods new p → IsTyped p → IsTyped (remade new p) }
{}
