//! The order of the classes in a written file: that of the written program, in which each class stands behind those above it. The
//! functions of this crate have an empty body, and their contracts are the laws; other proofs are of plans, of lists in order, and
//! that numbers of strings rise.

ghost use Rattle.std.specs.Prelude.{◌≡◌, ℕ, List, [], true};
ghost use Rattle.program_model.specs.declared.program.Program.{Program};
ghost use Rattle.program_model.specs.ProgramRules.{is_well_formed};
ghost use Rattle.class_defs.specs.ClassGraph.{IsTwice, IsAncestor};
ghost use Rattle.dex_write.specs.Order.{IsOrder};
ghost use Rattle.dex_defs.specs.Written.{class_order};
ghost use Rattle.written_file.specs.Behind.{AllBehind};

/// The order in which the classes of a well-formed program are written is that of the written program, and in it each stands
/// behind those above it.
pub fn order_law()
    ensures is { (p : Program) (order : List ℕ) → is_well_formed p ≡ true → ((class : ℕ) → IsTwice p class → ⊥) → ((class : ℕ) → IsAncestor p class class → ⊥) → IsOrder p order
        → class_order p ≡ order }
    ensures behind { (p : Program) (order : List ℕ) → is_well_formed p ≡ true → ((class : ℕ) → IsTwice p class → ⊥) → ((class : ℕ) → IsAncestor p class class → ⊥) → IsOrder p order
        → AllBehind p [] order }
{}
