//! What is asked of methods that are made static, and what is found in the program in which they are static, all of them at once,
//! with their class in front of their parameters (`staticised` of pass_defs).
//!
//! The map of names swaps old and new ones, so that it needs no invariant. `specs/Static.antt` says what is asked of methods that
//! are made static, which loose methods have (`proofs/Judged`), and `specs/Receiving.antt` what of facts about receivers. Methods
//! that stay are found as before, and others under their new names (`proofs/Methods`, `LookUps`); all else of the face is the same
//! (`Faces`), bodies have their names swapped (`Bodies`), and the framework enters the same methods (`Declared`). On this stand
//! static_law, by which the same is shown, and static_types, by which typed programs stay typed. Its functions have an empty body,
//! and their contracts are the law, or examples that compute.

ghost use Rattle.std.specs.Prelude.{◌≡◌, ℕ, Bool, true};
ghost use Rattle.program_model.specs.declared.program.Program.{Program};
ghost use Rattle.dalvik_defs.specs.Outer.{Outer};
ghost use Rattle.dalvik_defs.specs.declared.names.MethodKey.{MethodKey};
ghost use Rattle.dalvik_defs.specs.declared.program.NamedProgram.{NamedProgram};
ghost use Rattle.pass_defs.specs.Loose.{AreLoose};
ghost use Rattle.pass_defs.specs.Numbered.{tables_of};
ghost use Rattle.static_law.specs.Static.{MayAllBeStatic};

/// Loose methods may be static.
pub fn loose_law()
    ensures { (base : Program) (p : NamedProgram) (o : Outer) (optimise : Bool) (fits : Program → Bool)
        (admitted : MethodKey → Bool) (not_null : MethodKey → ℕ → ℕ → Bool) (loose : MethodKey → Bool)
        → AreLoose base p o optimise (λ x. fits x ≡ true) admitted (λ k n r. not_null k n r ≡ true) loose → MayAllBeStatic p o (tables_of base).methods loose }
{}
