//! The law of rebinding: a program shows the same in which virtual and interface calls name another method, one with code that
//! their receivers find by both names in every state that a run reaches (`specs/Rebinding.antt`).
//!
//! Both programs are in one state at each step, since both enter the same method and null throws alike. The law speaks of any
//! invariant of runs and so is a lemma: `rebound_shown` of `proofs/Rebinding.antt`. Its functions have an empty body, and their
//! contracts are the laws, or instances of them.

ghost use Rattle.std.specs.Prelude.{◌≡◌, ℕ, List, Bool, true};
ghost use Rattle.dalvik_defs.specs.Outer.{Outer};
ghost use Rattle.dalvik_defs.specs.Shown.{Fit, SameShown};
ghost use Rattle.dalvik_defs.specs.State.{State};
ghost use Rattle.dalvik_defs.specs.declared.forms.Form.{Form};
ghost use Rattle.dalvik_defs.specs.declared.names.MethodKey.{MethodKey};
ghost use Rattle.dalvik_defs.specs.declared.program.NamedProgram.{NamedProgram};
ghost use Rattle.dalvik_defs.specs.declared.script.Move.{Move};
ghost use Rattle.dalvik_defs.specs.declared.tables.Floats.{Floats};
ghost use Rattle.dalvik_defs.specs.declared.tables.Framework.{Framework};
ghost use Rattle.domains.specs.Values.{Parts};
ghost use Rattle.pass_defs.specs.Facts.{Facts};
ghost use Rattle.pass_defs.specs.Typed.{IsTyped};
ghost use Rattle.program_laws.specs.Others.{OtherBodies};
ghost use Rattle.run_facts.specs.ValueAnalysis.{Numbers, value_analysis};
ghost use Rattle.removal_law.specs.Reach.{IsAcyclic};
ghost use Rattle.run_laws.specs.Regular.{IsRegular};
ghost use Rattle.cover_law.specs.Coverable.{IsCoverable};
ghost use Rattle.rebind_law.specs.Rebinding.{AllRebound};
ghost use Rattle.rebind_law.specs.Receivers.{BoundByFacts, BoundByClass, BoundByPlaces, ChangesCode, AreChanged};
ghost use Rattle.rebind_law.specs.Retyping.{Retyped};

/// A program shows the same in which calls name another method that their receivers find by both names, in every state of
/// which a test is true that is true of the opening and that each step keeps.
pub fn rebound_law()
    ensures { (p q : NamedProgram) (o : Outer) (reaches : Framework → Floats → List Move → State → Bool)
        → AllRebound p q o (λ f a script t. reaches f a script t ≡ true) → SameShown p q o }
{}

/// A regular program of which no class stands above itself shows the same in which calls of methods of plain classes name
/// another method, one with code that all classes under these find by both names.
pub fn by_class_law()
    ensures { (p q : NamedProgram) (o : Outer) → IsRegular p → IsAcyclic p → AreChanged (λ k n. BoundByClass p) p q → SameShown p q o }
{}

/// A program that closed facts cover shows the same in which calls name another method, one with code that all objects find by
/// both names which the facts allow in the first register.
pub fn by_facts_law()
    ensures { (p q : NamedProgram) (o : Outer) (numbers : Numbers) (facts : Facts Parts)
        → ((f : Framework) (a : Floats) (script : List Move) → Fit p o f script → IsCoverable (value_analysis p numbers) p o f a facts)
        → AreChanged (BoundByFacts (value_analysis p numbers) p facts) p q → SameShown p q o }
{}

/// So it is of two programs whose calls differ, where in a third one they name plain classes and may name what they name in the
/// one and in the other: what the typing of the third asks of receivers, these have in all three.
pub fn by_middle_law()
    ensures { (p m q : NamedProgram) (o : Outer) → IsRegular m → IsAcyclic m
        → AreChanged (λ k n. BoundByClass m) m p → AreChanged (λ k n. BoundByClass m) m q → SameShown p q o }
{}

/// A typed program stays typed in which calls name another method of their signature, one that is no constructor and isn't static
/// and whose class the receivers' kinds fit.
pub fn retyped_law()
    ensures { (p q : NamedProgram) → IsTyped p → OtherBodies (Retyped p) p q → IsTyped q }
{}

/// Two programs that are the same but for bodies of which some forms are others have one face, and code of the same methods.
pub fn others_law()
    ensures { (B : MethodKey → ℕ → Form → Form → Bool) (p q : NamedProgram)
        → OtherBodies (ChangesCode (λ k n f g. B k n f g ≡ true)) p q → AreChanged (λ k n f g. B k n f g ≡ true) p q }
{}

/// What facts list as the classes of a receiver says what it finds.
pub fn by_places_law()
    ensures { (p : NamedProgram) (numbers : Numbers) (t : Facts Parts) (k : MethodKey) (n : ℕ) (f g : Form)
        → BoundByPlaces p t k n f g → BoundByFacts (value_analysis p numbers) p t k n f g }
{}
