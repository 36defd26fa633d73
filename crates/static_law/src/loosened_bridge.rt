//! From numbers to names: a program in which methods are static and so are their calls, by number, with what its tables get for
//! that, is by name the static program of pass_defs, with the methods of its classes in another order.
//!
//! `specs/Edited.antt` says what becomes of a program, whichever methods are chosen, and what is owed of the choice. What stood in
//! the tables stands there still, so an old number names what it named, but for methods that are made static (`proofs/Tables`);
//! annotations and first values name none of these (`Values`); calls of these are static calls of them (`Forms`), and so bodies,
//! members and classes follow (`Classes`, `Programs`).

ghost use Rattle.std.specs.Prelude.{◌≡◌, ℕ, is_some, List, Option, slice_get, Some, true};
ghost use Rattle.insn_set.specs.declared.ops.InvokeKind.{InvokeKind};
ghost use Rattle.program_model.specs.ProgramRules.{is_well_formed};
ghost use Rattle.program_model.specs.declared.pass.Outside.{Outside};
ghost use Rattle.program_model.specs.declared.program.Class.{Class};
ghost use Rattle.program_model.specs.declared.program.Program.{Program};
ghost use Rattle.class_defs.specs.ClassGraph.{IsTwice};
ghost use Rattle.dalvik_defs.specs.Face.{bodies_of};
ghost use Rattle.dalvik_defs.specs.Find.{is_virtual_method};
ghost use Rattle.dalvik_defs.specs.Names.{Text, is_class_type};
ghost use Rattle.dalvik_defs.specs.Naming.{method_at, named, named_method};
ghost use Rattle.dalvik_defs.specs.Outer.{outer_of};
ghost use Rattle.dalvik_defs.specs.Under.{defines};
ghost use Rattle.dalvik_defs.specs.declared.forms.Form.TheVariants as form;
ghost use Rattle.dalvik_defs.specs.declared.names.MethodKey.{MethodKey};
ghost use Rattle.dalvik_defs.specs.declared.program.NamedBody.{NamedBody};
ghost use Rattle.pass_defs.specs.Loose.{concerns, is_plain_call, staticised};
ghost use Rattle.pass_defs.specs.Numbered.{tables_of};
ghost use Rattle.pass_defs.specs.Walks.{form_at};
ghost use Rattle.program_laws.specs.Remade.{Remethod, SameMethods, remade};
ghost use Rattle.static_law.specs.Static.{IsApart, MayBeStatic, has_receiver};
ghost use Rattle.static_law.specs.Candidates.{IsCandidate};
ghost use Rattle.static_law.specs.Edited.{IsEdited, IsOwn, IsPlanned, LetsClass, loose_in, target_of};

/// A program with methods made static by number is by name the program in which they are static, with the methods of its classes in
/// another order.
pub fn named_static_law()
    ensures { (given target : ℕ → Option ℕ) (p q : Program) → is_well_formed p ≡ true → ((class : ℕ) → IsTwice p class → ⊥) → IsEdited given target p q → IsPlanned p given target
        → (new : Remethod) × ((named q ≡ remade new (staticised (named p) (loose_in p given))) × SameMethods new (staticised (named p) (loose_in p given))) }
{}

/// What method numbers resolve to is what their names resolve to, so a choice of methods of the program that no annotation names, and
/// that have a receiver, is a plan.
pub fn targets_law()
    ensures { (given : ℕ → Option ℕ) (p : Program) → is_well_formed p ≡ true → ((class : ℕ) → IsTwice p class → ⊥) → ((n : ℕ) → is_some (given n) ≡ true → IsOwn p n)
        → ((class : ℕ) (c : Class) → slice_get p.classes class ≡ Some c → LetsClass given c) → IsPlanned p given (target_of p given) }
{}

/// A method that is a candidate by number may be static by name, where nothing overrides it or reaches it in another way than by calls,
/// and each call that names it or may find it is plain and passes a receiver.
pub fn candidate_law()
    ensures { (p : Program) (o : Outside) (n : ℕ) (x : IsCandidate p o n) → is_well_formed p ≡ true → ((class : ℕ) → IsTwice p class → ⊥)
        → ((t : Text) → defines (named p) t ≡ true → is_class_type t ≡ true)
        → (is_virtual_method (named_method p x.own.method) ≡ true → IsApart (named p) (method_at p n))
        → ((caller : MethodKey) (b : NamedBody) (i : ℕ) (kind : InvokeKind) (called : MethodKey) (args : List ℕ) → bodies_of (named p) caller ≡ Some b
        → form_at b i ≡ Some (form.Invoke kind called args)
        → concerns (named p) (method_at p n) caller.class kind called ≡ true → (has_receiver kind args ≡ true) × (is_plain_call (named p) (method_at p n) caller.class kind called ≡ true))
        → MayBeStatic (named p) (outer_of p o) (tables_of p).methods (method_at p n) }
{}
