//! What the law of removal asks of a program, a well-formed program has.

ghost use Rattle.std.specs.Prelude.{◌≡◌, ℕ, true};
ghost use Rattle.dalvik_defs.specs.Outer.{Outer};
ghost use Rattle.dalvik_defs.specs.Shown.{SameShown};
ghost use Rattle.pass_defs.specs.Live.{Conditions, Family, IsClosedFamily};
ghost use Rattle.pass_defs.specs.Typed.{IsTyped};
ghost use Rattle.removal_law.specs.Left.{left_of};
ghost use Rattle.program_model.specs.declared.program.Program.{Program};
ghost use Rattle.program_model.specs.ProgramRules.{is_well_formed};
ghost use Rattle.class_defs.specs.ClassGraph.{IsTwice, IsAncestor};
ghost use Rattle.dalvik_defs.specs.Naming.{named};
ghost use Rattle.removal_law.specs.Reach.{IsRegular, IsSoundTable, TellsApart, TellsProtos};

/// The named program of a well-formed program, of which no class is defined twice or is its own ancestor, is regular and
/// tells its methods and their protos apart.
pub fn well_formed_programs_law()
    ensures regular { (p : Program) → is_well_formed p ≡ true → ((class : ℕ) → IsTwice p class → ⊥) → ((class : ℕ) → IsAncestor p class class → ⊥) → IsRegular (named p) }
    ensures apart { (p : Program) → is_well_formed p ≡ true → TellsApart (named p) }
    ensures protos { (p : Program) → is_well_formed p ≡ true → TellsProtos (named p) }
{}

/// Of a well-formed program, of which no class is defined twice or is its own ancestor, and whose code is typed, what is
/// left by a closed family of live sets shows the same, where the parts of the table of what the framework may reach agree
/// and its shut methods hold what it says.
pub fn removal_of_programs_law()
    ensures { (p : Program) → is_well_formed p ≡ true → ((class : ℕ) → IsTwice p class → ⊥) → ((class : ℕ) → IsAncestor p class class → ⊥) → IsTyped (named p)
        → (o : Outer) (k : Conditions) (s : Family) → IsClosedFamily (named p) o k s → IsSoundTable (named p) o → SameShown (named p) (left_of s (named p)) o }
{}

/// Of a typed and well-formed program, of which no class is defined twice or is its own ancestor, what is left by a closed
/// family of live sets is typed.
pub fn removal_keeps_typing_law()
    ensures { (p : Program) → IsTyped (named p) → is_well_formed p ≡ true → ((class : ℕ) → IsTwice p class → ⊥) → ((class : ℕ) → IsAncestor p class class → ⊥)
        → (o : Outer) (k : Conditions) (s : Family) → IsClosedFamily (named p) o k s → IsTyped (left_of s (named p)) }
{}
