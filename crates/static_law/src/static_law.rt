//! The law of methods made static: a program shows the same in which loose methods are static, all of them at once, with their
//! class in front of their parameters (`staticised` of pass_defs).
//!
//! By rename_law it is enough to know of each call, in states that a run reaches, that it stays and finds no loose method, or names
//! one, finds it, and passes an object (`proofs/Known`, `Sites`), and that the framework enters no loose method (`Reached`). What
//! facts know of receivers is asked of the states of a run that begins with the calm classes done (`Receivers`).

ghost use Rattle.std.specs.Prelude.{◌≡◌, ℕ, Bool, true, List};
ghost use Rattle.program_model.specs.declared.program.Program.{Program};
ghost use Rattle.dalvik_defs.specs.Outer.{Outer};
ghost use Rattle.dalvik_defs.specs.Shown.{Fit, SameShown};
ghost use Rattle.dalvik_defs.specs.declared.names.MethodKey.{MethodKey};
ghost use Rattle.dalvik_defs.specs.declared.script.Move.{Move};
ghost use Rattle.dalvik_defs.specs.declared.tables.Floats.{Floats};
ghost use Rattle.dalvik_defs.specs.declared.tables.Framework.{Framework};
ghost use Rattle.dalvik_defs.specs.declared.program.NamedProgram.{NamedProgram};
ghost use Rattle.pass_defs.specs.Loose.{AreLoose, staticised};
ghost use Rattle.pass_defs.specs.Numbered.{tables_of};
ghost use Rattle.removal_law.specs.Reach.{IsRegular, IsAcyclic, AgreesInside, DefinesOnce, IsDescribed};
ghost use Rattle.run_laws.specs.Regular as regular;
ghost use Rattle.static_law.specs.Receiving.{HoldNoNull};
ghost use Rattle.static_law.specs.Static.{AreInTables, MayAllBeStatic, NamesDescribed, ReceiversReached};

/// A program shows the same where methods are static that may be, if facts know the receivers of the calls that resolve to
/// one in the states that runs reach.
pub fn static_law()
    ensures { (p : NamedProgram) (o : Outer) (methods : List MethodKey) (loose : MethodKey → Bool) → MayAllBeStatic p o methods loose → AreInTables p o methods
        → IsRegular p → IsDescribed p → NamesDescribed p → DefinesOnce p → AgreesInside o
        → ((f : Framework) (a : Floats) (script : List Move) → Fit p o f script → ReceiversReached p loose o f a script) → SameShown p (staticised p loose) o }
{}

/// A typed, regular program shows the same in which its loose methods are static, if the registers that facts know as not null
/// hold no null in the states that runs reach.
pub fn loose_static_law()
    ensures { (base : Program) (p : NamedProgram) (o : Outer) (optimise : Bool) (fits : Program → Bool)
        (admitted : MethodKey → Bool) (not_null : MethodKey → ℕ → ℕ → Bool) (loose : MethodKey → Bool)
        → AreLoose base p o optimise (λ x. fits x ≡ true) admitted (λ k n r. not_null k n r ≡ true) loose → AreInTables p o (tables_of base).methods
        → regular.IsRegular p → IsAcyclic p → IsDescribed p → NamesDescribed p → AgreesInside o
        → ((f : Framework) (a : Floats) (script : List Move) → Fit p o f script → HoldNoNull p o (λ k n r. not_null k n r ≡ true) f a script) → SameShown p (staticised p loose) o }
{}
