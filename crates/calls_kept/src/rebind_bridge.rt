//! What `devirt` leaves of a well-formed and typed program shows the same, is well-formed and typed, and has the same classes and
//! members but for bodies: what its calls name is what their receivers find by name, by facts that say what facts by name say, or
//! by the kinds of a typing (receiver_law).
//!
//! `specs/Rebound.antt` says what a rebound body is by number, and what facts by number owe to facts by name.

ghost use Rattle.std.specs.Prelude.{◌≡◌, ℕ, Bool, true, Some};
ghost use Rattle.program_model.specs.ProgramRules.{is_well_formed};
ghost use Rattle.program_model.specs.declared.program.Program.{Program};
ghost use Rattle.class_defs.specs.ClassGraph.{IsAncestor};
ghost use Rattle.hierarchy.specs.Shapes.{IsResolved};
ghost use Rattle.hierarchy.specs.declared.build.Hierarchy.{Hierarchy};
ghost use Rattle.dalvik_defs.specs.Naming.{named};
ghost use Rattle.dalvik_defs.specs.Outer.{Outer};
ghost use Rattle.dalvik_defs.specs.Shown.{SameShown};
ghost use Rattle.dalvik_defs.specs.declared.tables.Framework.{Framework};
ghost use Rattle.domains.specs.Values.{Parts};
ghost use Rattle.dom_frame.specs.declared.frames.Frame.{Frame};
ghost use Rattle.facts.specs.Lent.{frame_at};
ghost use Rattle.facts.specs.declared.facts.Facts.{Facts};
ghost use Rattle.pass_defs.specs.Facts as by_name;
ghost use Rattle.pass_defs.specs.Typed.{IsTyped};
ghost use Rattle.program_laws.specs.Numbered.{OtherNumberedBodies};
ghost use Rattle.run_facts.specs.ValueAnalysis.{value_analysis};
ghost use Rattle.cover_law.specs.Coverable.{IsTabled};
ghost use Rattle.cover_law.specs.Operators.{operators};
ghost use Rattle.calls_kept.specs.Rebound.{FramesAreNamed, ReboundSo};

/// A well-formed and typed program, of which no class is its own ancestor, shows the same in which calls name what their receivers
/// find by facts or by kinds, and it stays typed. Where the facts have a frame at all, they say what facts by name say, which are
/// closed.
pub fn rebound_so_law()
    ensures shown { (p q : Program) (h : Hierarchy) (facts : Facts) (t : by_name.Facts Parts) (o : Outer) (facts_used : Bool) → is_well_formed p ≡ true → IsResolved p h
        → ((class : ℕ) → IsAncestor p class class → ⊥) → IsTyped (named p) → ((method n : ℕ) (frame : Frame) → frame_at facts.frames.items method n ≡ Some frame → facts_used ≡ true)
        → (facts_used ≡ true → FramesAreNamed p facts t) → (facts_used ≡ true → (f : Framework) → IsTabled (value_analysis (named p) operators) (named p) o f t)
        → OtherNumberedBodies (ReboundSo p h facts) p q → SameShown (named p) (named q) o }
    ensures typed { (p q : Program) (h : Hierarchy) (facts : Facts) (t : by_name.Facts Parts) (facts_used : Bool) → is_well_formed p ≡ true → IsResolved p h
        → ((class : ℕ) → IsAncestor p class class → ⊥) → IsTyped (named p) → ((method n : ℕ) (frame : Frame) → frame_at facts.frames.items method n ≡ Some frame → facts_used ≡ true)
        → (facts_used ≡ true → FramesAreNamed p facts t) → OtherNumberedBodies (ReboundSo p h facts) p q → IsTyped (named q) }
{}
