//! What is asked of a method that is made static, and why.

ghost use Rattle.std.specs.Prelude.{◌≡◌, true, false};
ghost use Rattle.insn_set.specs.declared.ops.InvokeKind.TheVariants as call;
ghost use Rattle.dalvik_defs.specs.Examples.{a_type, b_type, keeps_m};
ghost use Rattle.dalvik_defs.specs.Face.{face_of, finds_virtually};
ghost use Rattle.dalvik_defs.specs.Legal.{is_found, may_reach};
ghost use Rattle.dalvik_defs.specs.Names.{method_eq, void};
ghost use Rattle.pass_defs.specs.Loose.{concerns, has_rival, is_alone, is_plain_call};
ghost use Rattle.pass_defs.specs.LooseExamples.{is_q, loose_program, needs_no_receiver};
ghost use Rattle.pass_defs.specs.Numbered.{tables_of};
ghost use Rattle.pass_defs.specs.PassExamples.{hides_q, nothing_key};
ghost use Rattle.static_law.specs.Examples.{lists_plain, d_type, keeps_q, no_rows, found_q};
ghost use Rattle.static_law.specs.Static.{MayAllBeStatic, edit_by};

/// A virtual call of B's private q finds the public q of A, above B, on an object of B. It doesn't resolve to it, and so would
/// stay where A's q were made static: it isn't plain, and A's q isn't loose, though it is alone.
pub fn a_call_may_find_a_method_that_it_does_not_name()
    ensures found { is_found (nothing_key a_type) (finds_virtually hides_q no_rows b_type (nothing_key b_type)) ≡ true }
    ensures stays { edit_by hides_q (method_eq (nothing_key a_type)) call.Virtual (nothing_key b_type) ≡ (call.Virtual, nothing_key b_type) }
    ensures concerns { concerns hides_q (nothing_key a_type) a_type call.Virtual (nothing_key b_type) ≡ true }
    ensures plain { is_plain_call hides_q (nothing_key a_type) a_type call.Virtual (nothing_key b_type) ≡ false }
    ensures alone { is_alone hides_q (nothing_key a_type) ≡ true }
{}

/// B under A has D in its interface list, which is no interface, and D's q is kept. So the framework may call it on an object
/// of B, and runs A's q, which isn't kept. So D's q is a rival of A's, and A's isn't alone.
pub fn a_listed_class_may_be_a_rival()
    ensures alone { is_alone lists_plain (nothing_key a_type) ≡ false }
    ensures reached { may_reach (face_of lists_plain no_rows) keeps_q b_type found_q ≡ true }
    ensures kept { keeps_q.methods (nothing_key d_type) ≡ true }
    ensures free { keeps_q.methods (nothing_key a_type) ≡ false }
    ensures rival { has_rival lists_plain (nothing_key a_type) ≡ true }
{}

/// The loose method of a program may be static.
pub fn a_loose_method_may_be_static()
    ensures { MayAllBeStatic loose_program (keeps_m void) (tables_of needs_no_receiver).methods is_q }
{}
