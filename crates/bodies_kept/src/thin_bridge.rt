//! What `thin_pass` makes of a program is what the laws of thinning ask.
//!
//! A pass wishes positions to go or to become nops, and `thin_pass` gives the fates. Where the wishes are right
//! (`specs/Right.antt`), these fates are tidy, so that a thinned body keeps the rules of bodies; the lines that are left fit it;
//! and the program as a whole is one with other bodies (`proofs/Became.antt`). `proofs/Inside.antt` has that no walk leaves a body
//! that keeps the rules. A pass that stands on this owes that its wishes are right and its fates lose nothing that is seen, and has
//! that the program is kept: `specs/Kept.antt`.

ghost use Rattle.std.specs.Prelude.{◌≡◌, ℕ, Bool, true, List};
ghost use Rattle.program_model.specs.BodyRules.{body_fits};
ghost use Rattle.program_model.specs.ProgramRules.{is_well_formed};
ghost use Rattle.program_model.specs.declared.body.Body.{Body};
ghost use Rattle.program_model.specs.declared.program.Program.{Program};
ghost use Rattle.class_defs.specs.ClassGraph.{IsTwice, IsAncestor};
ghost use Rattle.dalvik_defs.specs.Naming.{named};
ghost use Rattle.body_edit.specs.declared.fate.Fate.{Fate};
ghost use Rattle.program_laws.specs.Rooted.{IsRooted};
ghost use Rattle.thin_laws.specs.Tidy.{IsTidy};
ghost use Rattle.bodies_kept.specs.Right.{AreRight, fates_by};

/// The fates that come of right wishes for a body that keeps the rules are tidy.
pub fn tidy_law()
    ensures { (p : Program) (marks : ℕ → Bool) (wishes : List Fate) (b : Body) → body_fits p b ≡ true → AreRight marks wishes b → IsTidy marks (fates_by wishes b) b }
{}

/// The classes of a well-formed program, of which none is defined twice or is its own ancestor, stand in lines that end
/// outside it.
pub fn rooted_law()
    ensures { (p : Program) → is_well_formed p ≡ true → ((class : ℕ) → IsTwice p class → ⊥) → ((class : ℕ) → IsAncestor p class class → ⊥) → IsRooted (named p) }
{}
