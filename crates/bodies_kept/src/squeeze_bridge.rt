//! A squeezed program is kept: what `squeeze` ensures by number is what the laws of thinning ask by name.
//!
//! A walk through the code of a method is one through the named body, and what goes is unreached, a nop, or a goto to the next
//! position; so what is reached and left goes on to what is left, a result that is taken keeps what gives it, and each
//! MoveException that is reached keeps the region through which it was reached.

ghost use Rattle.std.specs.Prelude.{◌≡◌, ℕ, Bool, true, List};
ghost use Rattle.program_model.specs.ProgramRules.{is_well_formed};
ghost use Rattle.program_model.specs.declared.pass.Changed.{Changed};
ghost use Rattle.program_model.specs.declared.program.Program.{Program};
ghost use Rattle.class_defs.specs.ClassGraph.{IsTwice, IsAncestor};
ghost use Rattle.dalvik_defs.specs.Naming.{named};
ghost use Rattle.pass_defs.specs.Typed.{IsTyped};
ghost use Rattle.squeeze.specs.Skipping.{AreSkips};
ghost use Rattle.bodies_kept.specs.Kept.{IsKept};
ghost use Rattle.thin_pass.specs.Plans.{IsThinnedBy};

/// What `squeeze` leaves of a well-formed, typed program, of which no class is defined twice or is its own ancestor, is
/// well-formed and typed, has the same tables, and the same classes and members but for bodies and source lines, and shows the
/// same, for every outside, whatever methods are admitted.
pub fn squeezed_program_law()
    ensures { (admitted : List Bool) (p : Program) (changed : Changed) → is_well_formed p ≡ true → ((class : ℕ) → IsTwice p class → ⊥) → ((class : ℕ) → IsAncestor p class class → ⊥)
        → IsTyped (named p) → IsThinnedBy AreSkips admitted p changed → IsKept p changed.program }
{}
