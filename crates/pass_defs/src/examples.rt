//! Examples of the definitions, on the programs of `specs/Examples.antt`.

ghost use Rattle.std.specs.Prelude.{◌≡◌, ◌≤◌, ℕ, pos, true, false, Some, None, [], ◌∷◌, codes};
ghost use Rattle.insn_set.specs.declared.ops.Slot.TheVariants as slot;
ghost use Rattle.insn_set.specs.declared.ops.LiteralOp.TheVariants as literal;
ghost use Rattle.dalvik_defs.specs.Names.{object_type, void};
ghost use Rattle.dalvik_defs.specs.Under.{is_under};
ghost use Rattle.dalvik_defs.specs.Examples.{a_type, b_type, m_key, keeps_m, answers_two, to_int, constructor};
ghost use Rattle.dalvik_defs.specs.declared.forms.Form.TheVariants as form;
ghost use Rattle.pass_defs.specs.Kinds.{Undefined, Zero, Word, Low, High, Null, Class, Array, Reference, joined};
ghost use Rattle.pass_defs.specs.Registers.{written_kinds};
ghost use Rattle.pass_defs.specs.Demands.{is_refused};
ghost use Rattle.pass_defs.specs.Typed.{IsTyping, is_ill_at};
ghost use Rattle.pass_defs.specs.Live.{IsLiveField, IsLiveClass, IsLiveMethod};
ghost use Rattle.pass_defs.specs.Idle.{IsIdle};
ghost use Rattle.pass_defs.specs.Flat.{Flat, Any, KnownWord};
ghost use Rattle.pass_defs.specs.Facts.{Facts, after};
ghost use Rattle.pass_defs.specs.Constants.{flat};
ghost use Rattle.pass_defs.specs.Foldable.{constant_of, units};
ghost use Rattle.pass_defs.specs.Examples.{s_type, x_of, copies_both, copies_number, n_method, n_class, meeting, both_typed, flow_of, names_b, keeps_x, sets_and_returns, adds, two_and_three, calls_itself, calls_q, m_calls_q, constructs_b, with_constructor, calls_object, returns_only, constructed_then};
ghost use Rattle.pass_defs.specs.Inlined.{inlined};

/// An array of numbers is under Object.
pub fn an_array_is_an_object()
    ensures { is_under answers_two (record { rows = [] }) (codes "[I") object_type ≡ true }
{}

/// Two classes under one join to it, a class and an array to any reference, and a number and a class to nothing that can
/// be read.
pub fn kinds_join()
    ensures classes { joined (meeting copies_both) (Class a_type) (Class b_type) ≡ Class s_type }
    ensures arrays { joined (meeting copies_both) (Array (codes "[LA;")) (Array (codes "[LB;")) ≡ Array (codes "[LS;") }
    ensures unlike { joined (meeting copies_both) (Class a_type) (Array (codes "[I")) ≡ Reference }
    ensures null { joined (meeting copies_both) Zero Null ≡ Null }
    ensures number { joined (meeting copies_both) Word (Class a_type) ≡ Undefined }
{}

/// A write over one half of a wide makes the other half undefined, also where that alone is still known; a number behind
/// another register stays.
pub fn halves_go_together()
    ensures low { written_kinds 0 Word (Low ∷ High ∷ []) ≡ Word ∷ Undefined ∷ [] }
    ensures high { written_kinds 1 Word (Low ∷ High ∷ []) ≡ Undefined ∷ Word ∷ [] }
    ensures alone { written_kinds 0 Word (Undefined ∷ High ∷ []) ≡ Word ∷ Undefined ∷ [] }
    ensures other { written_kinds 0 Null (Word ∷ Word ∷ []) ≡ Null ∷ Word ∷ [] }
{}

/// Where two classes under S meet, a field of S is read.
pub fn a_common_superclass_is_typed()
    ensures { IsTyping (meeting copies_both) (n_class copies_both) (n_method copies_both) copies_both both_typed }
{}

/// The flow of that body is the same list.
pub fn a_common_superclass_flows()
    ensures { flow_of (meeting copies_both) (n_class copies_both) (n_method copies_both) copies_both ≡ both_typed }
{}

/// Where a number and a class meet, nothing may be read: the field read is refused, at its position and register, and no
/// other read is.
pub fn a_number_and_a_class_are_refused()
    ensures refused { is_ill_at (meeting copies_number) (n_class copies_number) (n_method copies_number) copies_number (flow_of (meeting copies_number) (n_class copies_number) (n_method copies_number) copies_number) 4 0 ≡ true }
    ensures not_the_number { is_ill_at (meeting copies_number) (n_class copies_number) (n_method copies_number) copies_number (flow_of (meeting copies_number) (n_class copies_number) (n_method copies_number) copies_number) 4 3 ≡ false }
    ensures not_the_move { is_ill_at (meeting copies_number) (n_class copies_number) (n_method copies_number) copies_number (flow_of (meeting copies_number) (n_class copies_number) (n_method copies_number) copies_number) 3 3 ≡ false }
{}

/// A class is live whose static field live code reads, and with it the field that the rules keep where the class is live.
pub fn a_conditional_field_is_live()
    ensures class { IsLiveClass names_b (keeps_m void) keeps_x b_type }
    ensures field { IsLiveField names_b (keeps_m void) keeps_x (x_of b_type) }
{}

/// A constant that nothing reads is idle.
pub fn an_unread_constant_is_idle()
    ensures { IsIdle sets_and_returns (keeps_m void) (m_key void) 0 }
{}

/// The sum of two known numbers is known, and the constant is no longer than the addition.
pub fn an_addition_folds()
    ensures known { (t : Facts Flat) → constant_of 2 (after flat sets_and_returns t a_type None adds two_and_three 2) ≡ Some (form.Const 2 (pos 5)) }
    ensures short { units (form.Const 2 (pos 5)) ≤ units adds }
{}

/// A call is inlined: the argument is moved, the callee's code stands below the caller's registers, and its return becomes a
/// move into the register of the result and a goto.
pub fn a_call_is_inlined()
    ensures forms { (inlined calls_itself (m_key to_int) m_calls_q calls_q (1 ∷ [])).forms
        ≡ form.Const 2 (pos 1) ∷ form.Move slot.Word 1 2 ∷ form.Literal literal.AddInt 0 1 (pos 2) ∷ form.Move slot.Word 2 0 ∷ form.Goto 5 ∷ form.Return slot.Word 2 ∷ [] }
    ensures registers { (inlined calls_itself (m_key to_int) m_calls_q calls_q (1 ∷ [])).registers ≡ 3 }
{}

/// A constructor calls another one on its receiver before it returns; one that doesn't is ill typed at its return.
pub fn a_constructor_calls_one()
    ensures typed { IsTyping constructs_b with_constructor constructor calls_object constructed_then }
    ensures not_typed { is_ill_at constructs_b with_constructor constructor returns_only (flow_of constructs_b with_constructor constructor returns_only) 0 0 ≡ true }
{}
