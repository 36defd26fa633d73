//! Laws of what is left by number.

ghost use Rattle.std.specs.Prelude.{◌≡◌, ℕ, true};
ghost use Rattle.class_defs.specs.ClassGraph.{IsTwice, IsAncestor};
ghost use Rattle.dalvik_defs.specs.Outer.{Outer};
ghost use Rattle.dalvik_defs.specs.Shown.{SameShown};
ghost use Rattle.pass_defs.specs.Live.{Conditions, IsClosedFamily};
ghost use Rattle.pass_defs.specs.Typed.{IsTyped};
ghost use Rattle.removal_law.specs.Reach.{IsSoundTable};
ghost use Rattle.program_model.specs.declared.program.Program.{Program};
ghost use Rattle.program_model.specs.ProgramRules.{is_well_formed};
ghost use Rattle.call_graph.specs.declared.live_set.LiveSet.{LiveSet};
ghost use Rattle.dalvik_defs.specs.Naming.{named};
ghost use Rattle.reach.specs.Kept.{kept_of};
ghost use Rattle.reach_bridge.specs.Names.{family_of};
ghost use Rattle.removal_law.specs.Left.{left_of};

/// The named program of what marks leave of a well-formed program is what is left of its named program by the names of
/// the marked numbers.
pub fn left_by_number_law()
    ensures { (p : Program) (s : LiveSet) → is_well_formed p ≡ true → named (kept_of s p) ≡ left_of (family_of p s) (named p) }
{}

/// What marks leave of a well-formed, typed program, of which no class is defined twice or is its own ancestor, shows the
/// same, where the names of the marked numbers are a closed family, the parts of its table of what the framework may reach
/// agree, and its shut methods hold what it says.
pub fn removal_by_number_law()
    ensures { (p : Program) (s : LiveSet) → is_well_formed p ≡ true → ((class : ℕ) → IsTwice p class → ⊥) → ((class : ℕ) → IsAncestor p class class → ⊥) → IsTyped (named p)
        → (o : Outer) (k : Conditions) → IsClosedFamily (named p) o k (family_of p s) → IsSoundTable (named p) o → SameShown (named p) (named (kept_of s p)) o }
{}
