//! What a typing says of a method that is inlined: a body without regions reads no register before it is written but those of its
//! arguments, and each form that a walk reaches may stand in a copy of it, where what is taken of the call is as wide as what the
//! method gives. `inline_law` asks both of what is copied. The one typing of the method serves, since a register that begins
//! undefined stays so until it is written, and no form may read it. Its functions have an empty body, and their contracts are the
//! laws (Dalvik bytecode, "Summary of bytecode set"; this project's profile).

ghost use Rattle.std.specs.Prelude.{◌≡◌, ◌-◌, ◌≤◌, ℕ, [], Some};
ghost use Rattle.dalvik_defs.specs.declared.forms.Form.{Form};
ghost use Rattle.dalvik_defs.specs.declared.program.NamedBody.{NamedBody};
ghost use Rattle.dalvik_defs.specs.declared.program.NamedClass.{NamedClass};
ghost use Rattle.dalvik_defs.specs.declared.program.NamedMethod.{NamedMethod};
ghost use Rattle.dalvik_defs.specs.declared.program.NamedProgram.{NamedProgram};
ghost use Rattle.pass_defs.specs.Inlined.{Taken};
ghost use Rattle.pass_defs.specs.Typed.{Table, IsTyping};
ghost use Rattle.pass_defs.specs.Walks.{form_at, IsReached, IsRead};
ghost use Rattle.inline_law.specs.Accepted.{Suits};
ghost use Rattle.inline_law.specs.Takes.{Takes, CatchesNone};

/// A typed body without regions reads no register before it is written but those of its arguments.
pub fn arguments_law()
    ensures { (p : NamedProgram) (c : NamedClass) (m : NamedMethod) (b : NamedBody) (t : Table) → IsTyping p c m b t → b.regions ≡ []
        → (r : ℕ) → IsRead b r 0 → b.registers - b.ins ≤ r }
{}

/// Each form that a walk through a typed body without regions reaches may stand in a copy of it, where what is taken is as wide as
/// what its method gives.
pub fn suits_law()
    ensures { (p : NamedProgram) (c : NamedClass) (m : NamedMethod) (b : NamedBody) (t : Table) → IsTyping p c m b t → b.regions ≡ [] → CatchesNone b → (taken : Taken) → Takes m taken
        → (j : ℕ) → IsReached b j → (f : Form) × ((form_at b j ≡ Some f) × Suits taken f) }
{}
