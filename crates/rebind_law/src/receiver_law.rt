//! What the kinds of a typing say of receivers: calls may name another method that all objects of the classes under the receiver's
//! kind find, beside calls that may do so by facts (`specs/Reasons.antt`).
//!
//! A typing of a method says nothing of a run by itself, since a run is typed by some typing of each method. So the law goes by a
//! second program, in which such a call names a method that no class has, of the class of the receiver's kind
//! (`specs/Asking.antt`): all its typings give the receiver a kind under that class. Its typings hold of each state of a run of the
//! first program, too (`proofs/Keeping.antt`).

ghost use Rattle.std.specs.Prelude.{◌≡◌, Bool, List, true};
ghost use Rattle.dalvik_defs.specs.Outer.{Outer};
ghost use Rattle.dalvik_defs.specs.Shown.{Fit, SameShown};
ghost use Rattle.dalvik_defs.specs.declared.program.NamedProgram.{NamedProgram};
ghost use Rattle.dalvik_defs.specs.declared.script.Move.{Move};
ghost use Rattle.dalvik_defs.specs.declared.tables.Floats.{Floats};
ghost use Rattle.dalvik_defs.specs.declared.tables.Framework.{Framework};
ghost use Rattle.domains.specs.Values.{Parts};
ghost use Rattle.pass_defs.specs.Facts.{Facts};
ghost use Rattle.pass_defs.specs.Typed.{IsTyped};
ghost use Rattle.program_laws.specs.Others.{OtherBodies};
ghost use Rattle.run_facts.specs.ValueAnalysis.{Numbers, value_analysis};
ghost use Rattle.removal_law.specs.Reach.{IsAcyclic};
ghost use Rattle.run_laws.specs.Regular.{IsRegular};
ghost use Rattle.cover_law.specs.Coverable.{IsCoverable};
ghost use Rattle.rebind_law.specs.Reasons.{ReboundCode};

/// A regular program of which no class stands above itself shows the same, and stays typed, in which calls name another method,
/// one with code that their receivers find by both names: the objects that closed facts allow, where these cover the program, or
/// those of all classes under the kind that a typing gives the receiver.
pub fn by_reasons_law()
    ensures shown { (facts_used : Bool) (p q : NamedProgram) (t : Facts Parts) (o : Outer) (numbers : Numbers) → IsRegular p → IsAcyclic p
        → (facts_used ≡ true → (f : Framework) (a : Floats) (script : List Move) → Fit p o f script → IsCoverable (value_analysis p numbers) p o f a t)
        → OtherBodies (ReboundCode (facts_used ≡ true) p t) p q → SameShown p q o }
    ensures typed { (facts_used : Bool) (p q : NamedProgram) (t : Facts Parts) → IsRegular p → OtherBodies (ReboundCode (facts_used ≡ true) p t) p q → IsTyped q }
{}
