//! The program that is written for a program shows the same, and it is typed where the program is: by its new numbers each class
//! names what it named, its members stand in another order, and runs and typings ask for classes and members by names alone. Its
//! functions have empty bodies, and their contracts are the laws.

ghost use Rattle.std.specs.Prelude.{◌≡◌, ℕ, List, true};
ghost use Rattle.class_defs.specs.ClassGraph.{IsAncestor, IsTwice};
ghost use Rattle.dalvik_defs.specs.Naming.{named};
ghost use Rattle.dalvik_defs.specs.Outer.{Outer};
ghost use Rattle.dalvik_defs.specs.Shown.{SameShown};
ghost use Rattle.dalvik_defs.specs.Step.{shows};
ghost use Rattle.dalvik_defs.specs.declared.program.NamedProgram.{NamedProgram};
ghost use Rattle.dalvik_defs.specs.declared.script.Move.{Move};
ghost use Rattle.dalvik_defs.specs.declared.tables.Floats.{Floats};
ghost use Rattle.dalvik_defs.specs.declared.tables.Framework.{Framework};
ghost use Rattle.dex_defs.specs.Written.{written_by};
ghost use Rattle.dex_pools.specs.Interned.{IsInterned};
ghost use Rattle.dex_pools.specs.declared.interner.Interner.{Interner};
ghost use Rattle.dex_write.specs.Order.{IsOrder};
ghost use Rattle.pass_defs.specs.Typed.{IsTyped};
ghost use Rattle.program_model.specs.ProgramRules.{is_well_formed};
ghost use Rattle.program_model.specs.declared.program.Program.{Program};

/// The written program of a well-formed one, of which no class is defined twice or is its own ancestor, shows in as many steps what the program
/// shows.
pub fn written_shows_law()
    ensures { (p : Program) (i : Interner) (order : List ℕ) → is_well_formed p ≡ true → ((class : ℕ) → IsTwice p class → ⊥) → ((class : ℕ) → IsAncestor p class class → ⊥) → IsInterned p i → IsOrder p order
        → (o : Outer) (f : Framework) (a : Floats) (script : List Move) (n : ℕ) → shows (named (written_by i p)) o f a script n ≡ shows (named p) o f a script n }
{}

/// It is typed where the program is.
pub fn written_typed_law()
    ensures { (p : Program) (i : Interner) (order : List ℕ) → is_well_formed p ≡ true → ((class : ℕ) → IsTwice p class → ⊥) → ((class : ℕ) → IsAncestor p class class → ⊥) → IsInterned p i → IsOrder p order
        → IsTyped (named p) → IsTyped (named (written_by i p)) }
{}

/// What shows the same as a program shows the same as one that shows that in as many steps.
pub fn shown_on_law()
    ensures { (x p q : NamedProgram) (o : Outer) → ((f : Framework) (a : Floats) (script : List Move) (n : ℕ) → shows q o f a script n ≡ shows p o f a script n) → SameShown x p o → SameShown x q o }
{}
