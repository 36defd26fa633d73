//! The law of folding: a program shows the same in which forms are replaced by others that change the frame as they do, in every
//! state that a run reaches (`specs/Known.antt`). The law speaks of any invariant of runs and so is a lemma: `folded_shown` of
//! `proofs/Folding.antt`. Its function has an empty body, and its contract is an instance of the law.

ghost use Rattle.std.specs.Prelude.{◌≡◌, ◌+◌, ℕ, ℤ, List, Bool, true, false, Contains};
ghost use Rattle.dalvik_defs.specs.Names.{Text};
ghost use Rattle.dalvik_defs.specs.Outer.{Outer};
ghost use Rattle.dalvik_defs.specs.Shown.{SameShown};
ghost use Rattle.dalvik_defs.specs.State.{State};
ghost use Rattle.dalvik_defs.specs.declared.forms.Form.{Form};
ghost use Rattle.dalvik_defs.specs.declared.forms.Form.TheVariants as form;
ghost use Rattle.dalvik_defs.specs.declared.program.NamedBody.{NamedBody};
ghost use Rattle.dalvik_defs.specs.declared.program.NamedClass.{NamedClass};
ghost use Rattle.dalvik_defs.specs.declared.program.NamedMethod.{NamedMethod};
ghost use Rattle.dalvik_defs.specs.declared.program.NamedProgram.{NamedProgram};
ghost use Rattle.dalvik_defs.specs.declared.script.Move.{Move};
ghost use Rattle.dalvik_defs.specs.declared.tables.Floats.{Floats};
ghost use Rattle.dalvik_defs.specs.declared.tables.Framework.{Framework};
ghost use Rattle.pass_defs.specs.Bare.{continues};
ghost use Rattle.pass_defs.specs.Kinds.{Kind, Low, is_below};
ghost use Rattle.pass_defs.specs.Registers.{Kinds, written};
ghost use Rattle.pass_defs.specs.Typed.{after, constant_kind, Table, IsTyping};
ghost use Rattle.pass_defs.specs.Walks.{onward};
ghost use Rattle.program_laws.specs.Bodies.{Change, changed};
ghost use Rattle.program_laws.specs.Results.{TakesInPlace};
ghost use Rattle.form_laws.specs.Solid.{AllSolid};
ghost use Rattle.form_laws.specs.Known.{AllFolded};
ghost use Rattle.form_laws.specs.Typed.{IsLowered, IsOrdered, Lowers, taken_table};

/// A program shows the same in which forms are replaced by others that change the frame as they do, in every state of which
/// a test is true that is true of the opening and that each step keeps.
pub fn folded_law()
    ensures { (p : NamedProgram) (o : Outer) (new : Change) (reaches : Framework → Floats → List Move → State → Bool) → AllSolid p
        → AllFolded new p o (λ (f : Framework) (t : Text). false) (λ f a script t. reaches f a script t ≡ true) → SameShown p (changed new p) o }
{}

/// A typing of a body is one of the body in which forms are replaced by others that leave no more, without the states of moves
/// of results that have no state in front of them.
pub fn lowered_typing_law()
    ensures { (p : NamedProgram) (c : NamedClass) (m : NamedMethod) (b d : NamedBody) (t : Table) → IsOrdered p → TakesInPlace b → IsTyping p c m b t → IsLowered p c m b d t
        → IsTyping p c m d (taken_table true b.forms t) }
{}

/// A constant leaves no more than a form that writes its register with a kind at or above its own, a nop or a goto along one of
/// the ways of a form no more than one that writes nothing.
pub fn lowers_law()
    ensures word { (p : NamedProgram) (c : NamedClass) (m : NamedMethod) (n : ℕ) (a : Kinds) (f : Form) (to : ℕ) (value : ℤ) (l : Kind) → continues f ≡ true → after p c n f a ≡ written to l a
        → is_below p (constant_kind value) l ≡ true → Lowers p c m n a f (form.Const to value) }
    ensures wide { (p : NamedProgram) (c : NamedClass) (m : NamedMethod) (n : ℕ) (a : Kinds) (f : Form) (to : ℕ) (value : ℤ) → continues f ≡ true → after p c n f a ≡ written to Low a
        → Lowers p c m n a f (form.ConstWide to value) }
    ensures nop { (p : NamedProgram) (c : NamedClass) (m : NamedMethod) (n : ℕ) (a : Kinds) (f : Form) → continues f ≡ true → after p c n f a ≡ a → Lowers p c m n a f form.Nop }
    ensures goto { (p : NamedProgram) (c : NamedClass) (m : NamedMethod) (n : ℕ) (a : Kinds) (f : Form) (target : ℕ) → Contains (onward f n) target → after p c n f a ≡ a
        → Lowers p c m n a f (form.Goto target) }
{}
