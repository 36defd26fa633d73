//! The law of forms: what a form does depends on registers only through the values that it reads, and it changes its frame in few
//! ways. `specs/Changes.antt` says which registers a form looks at, which it writes, and what it is that two forms do alike. The
//! same form with other registers asks the same of them.

ghost use Rattle.std.specs.Prelude.{ℕ, ◌+◌, ◌<◌, Bool, true, false, List, length, slice_index_or, nat_eq, Some, ◌≡◌};
ghost use Rattle.std.specs.List.{list_any};
ghost use Rattle.dalvik_defs.specs.Names.{Text};
ghost use Rattle.dalvik_defs.specs.State.{World};
ghost use Rattle.dalvik_defs.specs.declared.state.Value.{Value};
ghost use Rattle.dalvik_defs.specs.declared.state.Value.TheVariants.{Word};
ghost use Rattle.dalvik_defs.specs.Act.{act};
ghost use Rattle.dalvik_defs.specs.Effect.{register};
ghost use Rattle.dalvik_defs.specs.declared.state.Frame.{Frame};
ghost use Rattle.dalvik_defs.specs.declared.forms.Form.{Form};
ghost use Rattle.dalvik_defs.specs.declared.program.NamedBody.{NamedBody};
ghost use Rattle.dalvik_defs.specs.declared.program.NamedClass.{NamedClass};
ghost use Rattle.dalvik_defs.specs.declared.program.NamedMethod.{NamedMethod};
ghost use Rattle.dalvik_defs.specs.declared.program.NamedProgram.{NamedProgram};
ghost use Rattle.dalvik_defs.specs.declared.tables.Floats.{Floats};
ghost use Rattle.pass_defs.specs.Bare.{reads, writes};
ghost use Rattle.pass_defs.specs.Packed.{wides_read};
ghost use Rattle.pass_defs.specs.Demands.{Demand, Pair, demands, is_allowed};
ghost use Rattle.pass_defs.specs.Typed.{is_wrong, Table, state_at, IsTyping};
ghost use Rattle.pass_defs.specs.Walks.{form_at};
ghost use Rattle.pass_defs.specs.Registers.{Kinds};
ghost use Rattle.pass_defs.specs.Remade.{remade};
ghost use Rattle.form_laws.specs.Changes.{In, operands, destination, width, written, TakesPair, Same, Alike};
ghost use Rattle.form_laws.specs.Kinds.{AtFirst, AllSame, IsAsked, HasNarrowClass, Held};

/// A form with other registers and targets, which reads the same values, does the same to another frame: it has the same
/// effect, with the same values in it, and changes the frame alike, at its own registers and targets.
pub fn forms_law()
    ensures { (under : Text → Text → Bool) (floats : Floats) (r d t : ℕ → ℕ) (f : Form) (w : World) (g g' : Frame) → g'.result ≡ g.result → g'.caught ≡ g.caught
        → Same g g' (operands f) (operands (remade r d t f)) → Alike t f (remade r d t f) g g' (act under floats f w g) (act under floats (remade r d t f) w g') }
{}

/// A form reads the same values where each register that it reads holds what its other register holds, if a Move takes the
/// halves of a wide together.
pub fn reads_law()
    ensures { (r d t : ℕ → ℕ) (g g' : Frame) (f : Form) → ((x : ℕ) → reads f x ≡ true → register g' (r x) ≡ register g x) → TakesPair r f
        → Same g g' (operands f) (operands (remade r d t f)) }
{}

/// What a form writes is a run of registers, and with other registers as long a run from its own destination on.
pub fn writes_law()
    ensures behind { (f : Form) (i : ℕ) → i < width f → writes f (destination f + i) ≡ true }
    ensures within { (f : Form) (x : ℕ) → writes f x ≡ true → (i : ℕ) × ((i < width f) × (x ≡ destination f + i)) }
    ensures width { (r d t : ℕ → ℕ) (f : Form) → width (remade r d t f) ≡ width f }
    ensures destination { (r d t : ℕ → ℕ) (f : Form) (i : ℕ) → i < width f → destination (remade r d t f) ≡ d (destination f) }
{}

/// After a write registers hold what was written, in its order, and all others what they held.
pub fn registers_law()
    ensures others { (vs : List Value) (to : ℕ) (g : Frame) (x : ℕ) → ((i : ℕ) → i < length vs → x ≡ to + i → ⊥) → register (written vs to g) x ≡ register g x }
    ensures there { (vs : List Value) (to : ℕ) (g : Frame) (i : ℕ) → i < length vs → to + i < length g.registers
        → register (written vs to g) (to + i) ≡ slice_index_or vs i (Word 0) }
{}

/// What is allowed of a form is allowed of it with other registers that hold the same kinds.
pub fn demands_law()
    ensures { (p : NamedProgram) (c : NamedClass) (m : NamedMethod) (r d t : ℕ → ℕ) (a a' : Kinds) (f : Form) → a'.result ≡ a.result → a'.caught ≡ a.caught
        → AtFirst r a.registers a'.registers f → AllSame r a.registers a'.registers (demands p c m a.registers f)
        → is_allowed p c m a f ≡ true → is_allowed p c m a' (remade r d t f) ≡ true }
{}

/// What a form that is right and allowed asks for it reads, of a wide both halves.
pub fn asked_law()
    ensures { (p : NamedProgram) (c : NamedClass) (m : NamedMethod) (a : Kinds) (f : Form) → HasNarrowClass f → is_allowed p c m a f ≡ true → is_wrong p c m a f ≡ false
        → (x : ℕ) (q : Demand) → In (x, q) (demands p c m a.registers f) → IsAsked f (demands p c m a.registers f) x q }
{}

/// What is allowed of a form that is right is allowed of it with other registers, where live registers and live wides have the
/// kinds that they had, what the form reads is live, and halves of the wides that it asks for stay side by side.
pub fn held_law()
    ensures { (p : NamedProgram) (c : NamedClass) (m : NamedMethod) (f : Form) (new : ℕ → ℕ) (live : ℕ → Bool) (a a' : Kinds) → Held new live a.registers a'.registers → a'.result ≡ a.result → a'.caught ≡ a.caught
        → ((o : ℕ) → reads f o ≡ true → live o ≡ true) → HasNarrowClass f → is_wrong p c m a f ≡ false → ((w : ℕ) → In (w, Pair) (demands p c m a.registers f) → list_any (nat_eq w) (wides_read f) ≡ true → new (w + 1) ≡ new w + 1)
        → is_allowed p c m a f ≡ true → is_allowed p c m a' (remade new new (λ t. t) f) ≡ true }
{}

/// Where a typing has a state each form is allowed and right.
pub fn typings_law()
    ensures allowed { (p : NamedProgram) (c : NamedClass) (m : NamedMethod) (b : NamedBody) (t : Table) → IsTyping p c m b t → (n : ℕ) (f : Form) (a : Kinds) → form_at b n ≡ Some f → state_at t n ≡ Some a
        → is_allowed p c m a f ≡ true }
    ensures right { (p : NamedProgram) (c : NamedClass) (m : NamedMethod) (b : NamedBody) (t : Table) → IsTyping p c m b t → (n : ℕ) (f : Form) (a : Kinds) → form_at b n ≡ Some f → state_at t n ≡ Some a
        → is_wrong p c m a f ≡ false }
{}
