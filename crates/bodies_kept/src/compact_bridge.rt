//! What compaction leaves of a body, by name: a body that was compacted by number (`compact`) has other registers by name, as the
//! law of other registers asks (`pack_law`), and a body that compaction leaves the same is packed by name. So a well-formed program
//! shows the same after compaction, and one that compaction leaves the same is packed in each admitted method. That it stays
//! well-formed and typed is said in `kept_bridge`. `specs/CompactBridged.antt` says what is claimed.

ghost use Rattle.std.specs.Prelude.{◌≡◌, ℕ, Bool, true, List};
ghost use Rattle.program_model.specs.ProgramRules.{is_well_formed};
ghost use Rattle.program_model.specs.declared.program.Program.{Program};
ghost use Rattle.class_defs.specs.ClassGraph.{IsTwice};
ghost use Rattle.dalvik_defs.specs.Naming.{named};
ghost use Rattle.dalvik_defs.specs.Outer.{Outer};
ghost use Rattle.dalvik_defs.specs.Shown.{SameShown};
ghost use Rattle.compact.specs.Renamed.{IsCompactedProgram};
ghost use Rattle.compact.specs.Measure.{LowersByNumber};
ghost use Rattle.bodies_kept.specs.CompactBridged.{RenamedByNumber, PackedByNumber, SettlesByNumber, AllPacked};

/// A compacted body whose instructions use its own registers alone has other registers by name: those that conflict stay
/// apart, wide halves stay side by side, and what is read of the entry's registers keeps its place.
pub fn renamed_by_number_law()
    ensures { RenamedByNumber }
{}

/// A body that is packed by number is packed by name.
pub fn packed_by_number_law()
    ensures { PackedByNumber }
{}

/// A body that compaction leaves the same is packed by name.
pub fn settled_by_number_law()
    ensures { SettlesByNumber }
{}

/// A well-formed program shows the same after compaction, for every framework, script and float arithmetic that fit it, and
/// both ways.
pub fn compacted_program_law()
    ensures { (admitted : List Bool) (p q : Program) → is_well_formed p ≡ true → ((class : ℕ) → IsTwice p class → ⊥) → IsCompactedProgram admitted p q
        → (o : Outer) → SameShown (named p) (named q) o }
{}

/// Compaction raises neither the register count of a body nor the sum of the register numbers that its instructions name, and
/// where it lowers neither it leaves the body the same.
pub fn measure_law()
    ensures { LowersByNumber }
{}

/// Where compaction leaves a program the same, the body of each admitted method is packed, by name.
pub fn settled_program_law()
    ensures { (admitted : List Bool) (p : Program) → IsCompactedProgram admitted p p → AllPacked admitted p }
{}
