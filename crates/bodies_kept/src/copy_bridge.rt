//! What copy propagation leaves of a body, by name: a body that was propagated by number (`copy_prop`) has, by name, forms that
//! read the originals of copies that a Move stands for, and what is stale by name is stale by number. So the law of copies
//! (`copy_law`) holds of such bodies, and a well-formed program shows the same after the pass. That it stays typed is not said
//! here. `specs/CopyBridged.antt` says what is claimed.

ghost use Rattle.std.specs.Prelude.{◌≡◌, ℕ, Bool, true, List};
ghost use Rattle.program_model.specs.ProgramRules.{is_well_formed};
ghost use Rattle.program_model.specs.declared.program.Program.{Program};
ghost use Rattle.class_defs.specs.ClassGraph.{IsTwice};
ghost use Rattle.dalvik_defs.specs.Naming.{named};
ghost use Rattle.dalvik_defs.specs.Outer.{Outer};
ghost use Rattle.dalvik_defs.specs.Shown.{SameShown};
ghost use Rattle.copy_prop.specs.Propagated.{IsPropagatedProgram};
ghost use Rattle.bodies_kept.specs.CopyBridged.{ReadsByNumber, StaleByNumber, SettlesByNumber, PairsByNumber, AllFresh};

/// A body that was propagated by number has forms that read originals, by name.
pub fn reread_by_number_law()
    ensures { ReadsByNumber }
{}

/// What is stale in a named body is stale by number.
pub fn stale_by_number_law()
    ensures { StaleByNumber }
{}

/// Nothing is stale by name in a body that propagation leaves the same.
pub fn settled_by_number_law()
    ensures { SettlesByNumber }
{}

/// A body whose instructions use its own registers alone has the pairs that propagation asks for.
pub fn pairs_law()
    ensures { PairsByNumber }
{}

/// A well-formed program shows the same after copy propagation, for every framework, script and float arithmetic that fit
/// it, and both ways.
pub fn propagated_program_law()
    ensures { (admitted : List Bool) (p q : Program) → is_well_formed p ≡ true → ((class : ℕ) → IsTwice p class → ⊥) → IsPropagatedProgram admitted p q
        → (o : Outer) → SameShown (named p) (named q) o }
{}

/// In a well-formed program that propagation leaves the same, no read in an admitted method is stale by name. (Each body has
/// fewer than 2 ^ 16 registers.)
pub fn fresh_law()
    ensures { (admitted : List Bool) (p : Program) → is_well_formed p ≡ true → IsPropagatedProgram admitted p p → AllFresh admitted p }
{}
