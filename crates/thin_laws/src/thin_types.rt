//! Typings of thinned bodies. Kinds name the positions where objects were made, and a thinned body has them elsewhere:
//! `specs/Renamed.antt`.

ghost use Rattle.std.specs.Prelude.{◌≡◌, ℕ, Bool, List};
ghost use Rattle.program_model.specs.declared.program.Program.{Program};
ghost use Rattle.dalvik_defs.specs.Naming.{named};
ghost use Rattle.dalvik_defs.specs.Outer.{Outer};
ghost use Rattle.dalvik_defs.specs.Shown.{SameShown};
ghost use Rattle.dalvik_defs.specs.declared.forms.Form.{Form};
ghost use Rattle.dalvik_defs.specs.declared.program.NamedBody.{NamedBody};
ghost use Rattle.dalvik_defs.specs.declared.program.NamedMethod.{NamedMethod};
ghost use Rattle.dalvik_defs.specs.declared.program.NamedClass.{NamedClass};
ghost use Rattle.dalvik_defs.specs.declared.program.NamedProgram.{NamedProgram};
ghost use Rattle.pass_defs.specs.Demands.{is_allowed};
ghost use Rattle.pass_defs.specs.Kinds.{Kind, is_below};
ghost use Rattle.pass_defs.specs.Registers.{Kinds};
ghost use Rattle.pass_defs.specs.Remade.{retargeted};
ghost use Rattle.pass_defs.specs.Thinned.{Fate, thinned};
ghost use Rattle.pass_defs.specs.Typed.{begun, after, is_wrong, Table, IsTyping, IsTyped};
ghost use Rattle.program_laws.specs.Others.{OtherBodies};
ghost use Rattle.program_laws.specs.Numbered.{OtherNumberedBodies};
ghost use Rattle.program_laws.specs.Rooted.{IsRooted};
ghost use Rattle.thin_laws.specs.Thins.{Thins, ThinsNumbered};
ghost use Rattle.thin_laws.specs.Renamed.{KeepsApart, renamed, kinds_renamed};
ghost use Rattle.thin_laws.specs.Squeezed.{IsTransitive, SqueezesMarked, Squeezes, squeezed_table};

/// Where positions have other numbers, kinds keep their order, and each form with other targets reads what it read, is as
/// right as it was, and leaves what it left.
pub fn renamed_law()
    ensures order { (s : ℕ → ℕ) → KeepsApart s → (p : NamedProgram) (a b : Kind) → is_below p (renamed s a) (renamed s b) ≡ is_below p a b }
    ensures reads { (s : ℕ → ℕ) → KeepsApart s → (p : NamedProgram) (c : NamedClass) (m : NamedMethod) (at : ℕ → ℕ) (a : Kinds) (f : Form)
        → is_allowed p c m (kinds_renamed s a) (retargeted at f) ≡ is_allowed p c m a f }
    ensures right { (s : ℕ → ℕ) → KeepsApart s → (p : NamedProgram) (c : NamedClass) (m : NamedMethod) (at : ℕ → ℕ) (a : Kinds) (f : Form)
        → is_wrong p c m (kinds_renamed s a) (retargeted at f) ≡ is_wrong p c m a f }
    ensures after { (s : ℕ → ℕ) → KeepsApart s → (p : NamedProgram) (c : NamedClass) (at : ℕ → ℕ) (n : ℕ) (f : Form) (a : Kinds)
        → after p c (s n) (retargeted at f) (kinds_renamed s a) ≡ kinds_renamed s (after p c n f a) }
    ensures begun { (s : ℕ → ℕ) → KeepsApart s → (p : NamedProgram) (c : NamedClass) (m : NamedMethod) (b : NamedBody) → kinds_renamed s (begun p c m b) ≡ begun p c m b }
{}

/// A squeezed body has a typing where the body has one: the squeezed table, if the order of kinds is transitive.
pub fn squeezed_typing_law()
    ensures { (p : NamedProgram) → IsTransitive p → (c : NamedClass) (m : NamedMethod) (b : NamedBody) (t : Table) → IsTyping p c m b t
        → (marks : ℕ → Bool) (fates : List Fate) → SqueezesMarked marks fates b → IsTyping p c m (thinned fates b) (squeezed_table marks fates t) }
{}

/// A squeezed program is typed where the program is, if its classes stand in lines that end outside it.
pub fn squeezed_typed_law()
    ensures by_name { (p q : NamedProgram) → IsRooted p → IsTyped p → OtherBodies (Thins Squeezes) p q → IsTyped q }
    ensures by_number { (p q : Program) → IsRooted (named p) → IsTyped (named p) → OtherNumberedBodies (ThinsNumbered Squeezes p) p q → IsTyped (named q) }
{}

/// And it shows the same.
pub fn squeezed_shown_law()
    ensures by_name { (p q : NamedProgram) (o : Outer) → OtherBodies (Thins Squeezes) p q → SameShown p q o }
    ensures by_number { (p q : Program) (o : Outer) → OtherNumberedBodies (ThinsNumbered Squeezes p) p q → SameShown (named p) (named q) o }
{}
