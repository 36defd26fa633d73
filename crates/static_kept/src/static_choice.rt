//! What `staticise` makes static is what the laws of methods made static ask of a choice.
//!
//! `staticise` says by number which methods its plan makes static (`specs/Choice.antt` takes what its laws say of a plan). Here
//! that is read as loosened_bridge and static_bridge take it: what it leaves is the program with these methods static
//! (`proofs/Edited`), the choice is a plan that names no kept method, since annotations, first values and kept numbers name none
//! (`Mentions`, `Planned`), and each of the methods may be static by name (`May`): nothing but calls reaches it (`Apart`), and a
//! call that concerns it by name does so by number, where it is plain and has a receiver (`Coded`, `Calls`).

ghost use Rattle.std.specs.Prelude.{◌≡◌, ℕ, Bool, List, None, true};
ghost use Rattle.program_model.specs.ProgramRules.{is_well_formed};
ghost use Rattle.program_model.specs.declared.pass.Outside.{Outside};
ghost use Rattle.program_model.specs.declared.program.Program.{Program};
ghost use Rattle.class_defs.specs.ClassGraph.{IsAncestor, IsTwice};
ghost use Rattle.dalvik_defs.specs.Naming.{named};
ghost use Rattle.dalvik_defs.specs.Outer.{outer_of};
ghost use Rattle.facts.specs.declared.facts.Facts.{Facts};
ghost use Rattle.run_laws.specs.Holds.{Each};
ghost use Rattle.pass_defs.specs.Numbered.{tables_of};
ghost use Rattle.static_law.specs.Static.{MayAllBeStatic};
ghost use Rattle.static_law.specs.Edited.{IsEdited, IsPlanned, loose_in, target_of};
ghost use Rattle.staticise.specs.Called.{IsUntouched};
ghost use Rattle.staticise.specs.Judging.{judged};
ghost use Rattle.staticise.specs.Loosened.{IsLoosenedBy};
ghost use Rattle.static_kept.specs.Choice.{IsPlan, given_by};
ghost use Rattle.static_kept.specs.Stays.{StaysBut};

/// What is left of a program by a plan is the program in which its methods are static, and so are their calls.
pub fn edited_law()
    ensures { (p q : Program) (facts : Facts) (o : Outside) (admitted : List Bool) → is_well_formed p ≡ true → ((class : ℕ) → IsTwice p class → ⊥) → IsPlan p facts o admitted
        → IsLoosenedBy p (judged p facts o admitted) q → IsEdited (given_by p facts o admitted) (target_of p (given_by p facts o admitted)) p q }
{}

/// No annotation names such a method, each is one of the program with a receiver, and none is kept.
pub fn planned_law()
    ensures planned { (p : Program) (facts : Facts) (o : Outside) (admitted : List Bool) → is_well_formed p ≡ true → ((class : ℕ) → IsTwice p class → ⊥) → IsPlan p facts o admitted
        → IsPlanned p (given_by p facts o admitted) (target_of p (given_by p facts o admitted)) }
    ensures free { (p : Program) (facts : Facts) (o : Outside) (admitted : List Bool) → is_well_formed p ≡ true → ((class : ℕ) → IsTwice p class → ⊥) → IsPlan p facts o admitted
        → Each (λ n. given_by p facts o admitted n ≡ None) o.methods }
{}

/// Such a method may be static by name: nothing but calls reaches it, and each call that concerns it is plain and passes a receiver.
pub fn may_law()
    ensures { (p : Program) (facts : Facts) (o : Outside) (admitted : List Bool) → is_well_formed p ≡ true → ((class : ℕ) → IsTwice p class → ⊥) → ((class : ℕ) → IsAncestor p class class → ⊥)
        → IsPlan p facts o admitted → MayAllBeStatic (named p) (outer_of p o) (tables_of p).methods (loose_in p (given_by p facts o admitted)) }
{}

/// What of a program stays once the methods of a plan are static: the code of a method that isn't admitted, and all but flags,
/// parameters' annotations and code of every other.
pub fn stays_law()
    ensures { (p q : Program) (facts : Facts) (o : Outside) (admitted : List Bool) → IsPlan p facts o admitted → IsUntouched p admitted (judged p facts o admitted)
        → IsLoosenedBy p (judged p facts o admitted) q → StaysBut (given_by p facts o admitted) admitted p q }
{}
