//! A program whose stale reads read originals is kept: what `copy_prop` leaves of a well-formed program that the verifier finds
//! well typed is well-formed and typed, has the same tables and the same classes and members but for bodies, and shows the same.
//!
//! In the least typing by names an original has the kind of its copy (`proofs/Alike.antt`), so a body that reads originals is typed
//! (`proofs/CopyTyping.antt`), and no wide copy begins at the second register of a wide that is read (`proofs/Formed.antt`).

ghost use Rattle.std.specs.Prelude.{◌≡◌, Bool, true, List};
ghost use Rattle.program_model.specs.ProgramRules.{is_well_formed};
ghost use Rattle.program_model.specs.declared.program.Program.{Program};
ghost use Rattle.hierarchy.specs.Shapes.{IsResolved};
ghost use Rattle.hierarchy.specs.declared.build.Hierarchy.{Hierarchy};
ghost use Rattle.dalvik_defs.specs.Naming.{named};
ghost use Rattle.pass_defs.specs.Typed.{IsTyped};
ghost use Rattle.bodies_kept.specs.Kept.{IsKept};
ghost use Rattle.verify.specs.Methods.{TypesAll};
ghost use Rattle.compact.specs.Narrow.{has_narrow_classes};
ghost use Rattle.copy_prop.specs.Propagated.{IsPropagatedProgram};

/// What copy propagation leaves of a well-formed program that the verifier finds well typed, and that names no method of a
/// wide type, is typed, whatever methods are admitted.
pub fn propagated_typed_law()
    ensures { (p : Program) (h : Hierarchy) → is_well_formed p ≡ true → IsResolved p h → has_narrow_classes p ≡ true → TypesAll p h
        → (admitted : List Bool) (q : Program) → IsPropagatedProgram admitted p q → IsTyped (named q) }
{}

/// And it is well-formed.
pub fn propagated_formed_law()
    ensures { (p : Program) (h : Hierarchy) → is_well_formed p ≡ true → IsResolved p h → has_narrow_classes p ≡ true → TypesAll p h
        → (admitted : List Bool) (q : Program) → IsPropagatedProgram admitted p q → is_well_formed q ≡ true }
{}

/// So it is kept: well-formed and typed, it has the same tables and the same classes and members but for bodies, and it shows
/// the same, for every outside.
pub fn propagated_kept_law()
    ensures { (p : Program) (h : Hierarchy) → is_well_formed p ≡ true → IsResolved p h → has_narrow_classes p ≡ true → TypesAll p h
        → (admitted : List Bool) (q : Program) → IsPropagatedProgram admitted p q → IsKept p q }
{}
