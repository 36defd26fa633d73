//! A program whose registers have other numbers is kept: what `compact` leaves of a well-formed and typed program is well-formed
//! and typed, has the same tables and the same classes and members but for bodies, and shows the same.
//!
//! A compacted body keeps the rules of bodies, since no instruction gets longer and the new numbers are among the registers that
//! are left. It is typed again: at each position a register has the kind of the one that it stands for, as far as that is read
//! later.

ghost use Rattle.std.specs.Prelude.{◌≡◌, ℕ, Bool, true, List};
ghost use Rattle.program_model.specs.ProgramRules.{is_well_formed};
ghost use Rattle.program_model.specs.declared.program.Program.{Program};
ghost use Rattle.class_defs.specs.ClassGraph.{IsTwice};
ghost use Rattle.dalvik_defs.specs.Naming.{named};
ghost use Rattle.pass_defs.specs.Typed.{IsTyped};
ghost use Rattle.compact.specs.Narrow.{has_narrow_classes};
ghost use Rattle.compact.specs.Renamed.{IsCompactedProgram};
ghost use Rattle.bodies_kept.specs.Kept.{IsKept};

/// What `compact` leaves of a well-formed, typed program, of which no class is defined twice and which names no method of a
/// wide type, is well-formed and typed, has the same tables, and the same classes and members but for bodies, and shows the
/// same, for every outside, whatever methods are admitted.
pub fn compacted_kept_law()
    ensures { (admitted : List Bool) (p q : Program) → is_well_formed p ≡ true → ((class : ℕ) → IsTwice p class → ⊥) → IsTyped (named p) → has_narrow_classes p ≡ true
        → IsCompactedProgram admitted p q → IsKept p q }
{}
