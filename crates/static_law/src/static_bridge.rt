//! A program in which methods are static that may be, by number: it is typed, shows the same for an outside, its class graph has no
//! fault, and by its tables the outside names the same but for silent and shut methods (`specs/Kept.antt`).
//!
//! loosened_bridge says what such a program is by name; here the laws by name are put together for it (`proofs/NumberedWhole`), its class
//! graph is that of the program, with fewer virtual methods (`Graph`), and so the outside shuts the same of the virtual methods
//! that are left (`Outers`).

ghost use Rattle.std.specs.Prelude.{◌≡◌, ℕ, Bool, List, None, Option, true};
ghost use Rattle.program_model.specs.ProgramRules.{is_well_formed};
ghost use Rattle.program_model.specs.declared.pass.Outside.{Outside};
ghost use Rattle.program_model.specs.declared.program.Program.{Program};
ghost use Rattle.class_defs.specs.ClassGraph.{IsAncestor, IsTwice};
ghost use Rattle.hierarchy.specs.Splitting.{NoSplit};
ghost use Rattle.dalvik_defs.specs.Naming.{named};
ghost use Rattle.dalvik_defs.specs.Outer.{outer_of};
ghost use Rattle.dalvik_defs.specs.Shown.{Fit};
ghost use Rattle.dalvik_defs.specs.declared.names.MethodKey.{MethodKey};
ghost use Rattle.dalvik_defs.specs.declared.script.Move.{Move};
ghost use Rattle.dalvik_defs.specs.declared.tables.Floats.{Floats};
ghost use Rattle.dalvik_defs.specs.declared.tables.Framework.{Framework};
ghost use Rattle.run_laws.specs.Holds.{Each};
ghost use Rattle.pass_defs.specs.Numbered.{tables_of};
ghost use Rattle.pass_defs.specs.Typed.{IsTyped};
ghost use Rattle.static_law.specs.Receiving.{HoldNoNull, KnowsReceivers};
ghost use Rattle.static_law.specs.Static.{MayAllBeStatic};
ghost use Rattle.static_law.specs.Edited.{IsEdited, IsPlanned, loose_in};
ghost use Rattle.static_law.specs.Kept.{IsMadeStatic};

/// What is left of a well-formed and typed program without a fault in its class graph, once methods are static that may be and that
/// no table keeps, is kept for an outside, if facts know the receivers of the calls that resolve to one, and registers that they know
/// as not null hold no null in the states that runs reach.
pub fn made_static_law()
    ensures { (given target : ℕ → Option ℕ) (p q : Program) (o : Outside) (not_null : MethodKey → ℕ → ℕ → Bool) → is_well_formed p ≡ true → ((class : ℕ) → IsTwice p class → ⊥)
        → ((class : ℕ) → IsAncestor p class class → ⊥) → NoSplit p → IsTyped (named p) → IsEdited given target p q → IsPlanned p given target → Each (λ n. given n ≡ None) o.methods
        → MayAllBeStatic (named p) (outer_of p o) (tables_of p).methods (loose_in p given) → KnowsReceivers (named p) (loose_in p given) (λ k n r. not_null k n r ≡ true)
        → ((f : Framework) (a : Floats) (script : List Move) → Fit (named p) (outer_of p o) f script → HoldNoNull (named p) (outer_of p o) (λ k n r. not_null k n r ≡ true) f a script)
        → IsMadeStatic o p q }
{}
