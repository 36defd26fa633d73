//! The laws that every pass's law stands on. The form congruence says that a form does in a frame what the same form with other
//! registers and targets does in a frame that holds the same where the form reads (`specs/Alike.antt`). The law of standing forms
//! says of two programs with one face that they show the same where related blocks go on alike: the same form stands on both, or
//! they have silent steps of their own (`specs/Standing.antt`). The laws speak of any relation and so are lemmas: `acts` of
//! `proofs/Acts.antt`, `leads` of `proofs/Leads.antt` and `standing_shown` of `proofs/Standing.antt`. Its functions have an empty
//! body, and their contracts are the laws for relations that are tests.

ghost use Rattle.std.specs.Prelude.{◌≡◌, ℕ, Bool, true, false, nat_eq, List, Some, Contains, slice_set};
ghost use Rattle.dalvik_defs.specs.Names.{Text};
ghost use Rattle.dalvik_defs.specs.Act.{act};
ghost use Rattle.dalvik_defs.specs.Face.{face_of, bodies_of};
ghost use Rattle.dalvik_defs.specs.Outer.{Outer};
ghost use Rattle.dalvik_defs.specs.Shown.{Fit, SameShown};
ghost use Rattle.dalvik_defs.specs.State.{World, State, opening};
ghost use Rattle.dalvik_defs.specs.Step.{setting_of};
ghost use Rattle.dalvik_defs.specs.Stack.{handler_at};
ghost use Rattle.dalvik_defs.specs.declared.forms.Form.{Form};
ghost use Rattle.dalvik_defs.specs.declared.program.NamedBody.{NamedBody};
ghost use Rattle.dalvik_defs.specs.declared.program.NamedProgram.{NamedProgram};
ghost use Rattle.dalvik_defs.specs.declared.script.Move.{Move};
ghost use Rattle.dalvik_defs.specs.declared.state.Frame.{Frame};
ghost use Rattle.dalvik_defs.specs.declared.state.Value.{Value};
ghost use Rattle.dalvik_defs.specs.declared.tables.Floats.{Floats};
ghost use Rattle.dalvik_defs.specs.declared.tables.Framework.{Framework};
ghost use Rattle.dalvik_defs.proofs.Blocks.{Block};
ghost use Rattle.pass_defs.specs.Bare.{may_throw};
ghost use Rattle.pass_defs.specs.Remade.{remade};
ghost use Rattle.pass_defs.specs.Walks.{form_at, onward, IsReached};
ghost use Rattle.program_laws.specs.Agree.{Agree};
ghost use Rattle.program_laws.specs.Alike.{Holds, Accepts, Alike};
ghost use Rattle.program_laws.specs.Standing.{GoAlike};

/// What a form does in a frame, the same form with other registers and targets does in a frame that holds the same where it
/// reads: the effects are the same, but for frames that the test relates, where it relates what the form comes to.
pub fn forms_law()
    ensures { (under : Text → Text → Bool) (floats : Floats) (w : World) (f g : Frame) (from into to : ℕ → ℕ) (related : Frame → Frame → Bool) (x : Form)
        → Holds x from f g → Accepts x into to f g (λ a b. related a b ≡ true)
        → Alike x f g (λ a b. related a b ≡ true) (act under floats x w f) (act under floats (remade from into to x) w g) }
{}

/// Two programs with one face show the same where blocks that the test relates go on alike, in the states of two tests that
/// runs keep from their openings on.
pub fn standing_law()
    ensures { (p q : NamedProgram) (o : Outer) (related : Block → Block → Bool) (reached reached_other : State → Bool)
        → ((f : Framework) → face_of p f ≡ face_of q f)
        → ((f : Framework) (a : Floats) (script : List Move) → Fit p o f script
        → GoAlike (setting_of p o f a) (bodies_of p) (bodies_of q) (λ x y. related x y ≡ true) (λ t. reached t ≡ true) (λ t. reached_other t ≡ true))
        → ((script : List Move) → reached (opening script) ≡ true) → ((script : List Move) → reached_other (opening script) ≡ true)
        → SameShown p q o }
{}

/// Registers that agree where a test says so agree after the same is written to both, at the place of the write too.
pub fn agreement_law()
    ensures { (needed later : ℕ → Bool) (xs ys : List Value) (to : ℕ) (v : Value)
        → ((r : ℕ) → later r ≡ true → nat_eq r to ≡ false → needed r ≡ true)
        → Agree (λ r. needed r ≡ true) xs ys → Agree (λ r. later r ≡ true) (slice_set xs to v) (slice_set ys to v) }
{}

/// From a position that some walk reaches, walks reach where its form goes on to and the handler of what it throws.
pub fn walks_law()
    ensures onward { (b : NamedBody) (n m : ℕ) (x : Form) → form_at b n ≡ Some x → IsReached b n → Contains (onward x n) m → IsReached b m }
    ensures caught { (b : NamedBody) (n m : ℕ) (x : Form) (above : Text → Bool) → form_at b n ≡ Some x → IsReached b n
        → may_throw x ≡ true → handler_at above n b ≡ Some m → IsReached b m }
{}
