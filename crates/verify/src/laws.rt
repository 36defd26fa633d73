//! What the joins of kinds and the forms keep to.

ghost use Rattle.std.specs.Prelude.{◌≡◌, ℕ, true, Some, slice_get};
ghost use Rattle.program_model.specs.ProgramRules.{is_well_formed};
ghost use Rattle.program_model.specs.declared.body.Body.{Body};
ghost use Rattle.program_model.specs.declared.program.Class.{Class};
ghost use Rattle.program_model.specs.declared.program.Method.{Method};
ghost use Rattle.program_model.specs.declared.program.Program.{Program};
ghost use Rattle.hierarchy.specs.Ranks.{IsRanked};
ghost use Rattle.hierarchy.specs.Shapes.{IsOf};
ghost use Rattle.hierarchy.specs.declared.build.Hierarchy.{Hierarchy};
ghost use Rattle.verify.specs.declared.chains.Chains.{Chains};
ghost use Rattle.verify.specs.Building.{AreChainsOf, FollowsClasses};
ghost use Rattle.verify.specs.Descriptors.{AreTypesOf, SaysTexts};
ghost use Rattle.verify.specs.declared.kinds.Kind as kind;
ghost use Rattle.verify.specs.declared.tables.Tables.{Tables};
ghost use Rattle.verify.specs.Frames.{Kinds, written};
ghost use Rattle.verify.specs.Meeting.{IsMeeting};
ghost use Rattle.verify.specs.declared.setting.Setting.{Setting};
ghost use Rattle.verify.specs.Typings.{IsLattice, IsBelow, IsMonotone, IsShort};

/// A law, with nothing to run: joins are least upper bounds, and what a kind rises to by one has a lower rank, where the
/// classes of the tables meet as chains do.
pub fn joins_law()
    ensures { (t : Tables) → IsMeeting t → IsLattice t }
{}

/// A law, with nothing to run: a write of one kind into two frames, one at or below the other, leaves the one at or below
/// the other.
pub fn writes_law()
    ensures { (t : Tables) (r : ℕ) (k : kind.Kind) (a b : Kinds) → IsBelow t a b → IsBelow t (written r k a) (written r k b) }
{}

/// A law, with nothing to run: a form may read what is at or below what it may read, and leaves then what is at or below
/// what it leaves there, where the classes of the tables meet as chains do.
pub fn monotone_law()
    ensures { (s : Setting) → IsMeeting s.tables.now → IsMonotone s }
{}

/// A law, with nothing to run: the code of a well-formed program has positions and regions whose numbers have 32 bits.
pub fn short_law()
    ensures { (p : Program) → is_well_formed p ≡ true → (at : ℕ) (c : Class) (k : ℕ) (m : Method) (b : Body) → slice_get p.classes at ≡ Some c → slice_get c.methods k ≡ Some m
        → m.body ≡ Some b → IsShort b }
{}

/// A law, with nothing to run: the chains of a program's classes have above each class what its links lead to, and two
/// classes meet at the first class above both, where no class is its own ancestor.
pub fn chains_law()
    ensures { (p : Program) (c : Chains) → IsRanked p → AreChainsOf p c → FollowsClasses p c }
{}

/// A law, with nothing to run: what is looked up by number in the tables of a well-formed program is what its texts say.
pub fn types_law()
    ensures { (p : Program) (h : Hierarchy) (t : Tables) → is_well_formed p ≡ true → IsOf p h → AreTypesOf p t → AreChainsOf p t.chains → SaysTexts p t }
{}
