//! Examples of what the passes look for and write, on the programs of `specs/PassExamples.antt`.

ghost use Rattle.std.specs.Prelude.{◌≡◌, pos, length, true, false, [], ◌∷◌, codes};
ghost use Rattle.insn_set.specs.declared.ops.Slot.TheVariants as slot;
ghost use Rattle.insn_set.specs.declared.ops.Item.TheVariants as item;
ghost use Rattle.insn_set.specs.declared.ops.LiteralOp.TheVariants as literal;
ghost use Rattle.insn_set.specs.declared.ops.BinaryOp.TheVariants as binary;
ghost use Rattle.insn_set.specs.declared.ops.InvokeKind.TheVariants as call;
ghost use Rattle.dalvik_defs.specs.Names.{void};
ghost use Rattle.dalvik_defs.specs.Naming.{named};
ghost use Rattle.dalvik_defs.specs.Examples.{a_type, b_type, i_type, j_type, m_key, keeps_m, r_key, to_int, with_m};
ghost use Rattle.dalvik_defs.specs.declared.forms.Form.TheVariants as form;
ghost use Rattle.pass_defs.specs.Bare.{writes};
ghost use Rattle.pass_defs.specs.Flat.{KnownWord, KnownWide, flat_literal, flat_binary, flat_stored};
ghost use Rattle.pass_defs.specs.Leaves.{may_leave};
ghost use Rattle.pass_defs.specs.Foldable.{IsFoldable};
ghost use Rattle.pass_defs.specs.Kinds.{Low, Reference, Fresh, is_below};
ghost use Rattle.pass_defs.specs.Folded.{IsFolded, kind_written};
ghost use Rattle.pass_defs.specs.Constants.{IsSolution, flat};
ghost use Rattle.pass_defs.specs.Stale.{IsStale};
ghost use Rattle.pass_defs.specs.Packed.{IsPacked};
ghost use Rattle.pass_defs.specs.Quiet.{IsPlainlyQuiet, IsDroppable};
ghost use Rattle.pass_defs.specs.Covers.{Covers};
ghost use Rattle.pass_defs.specs.Thinned.{Stays, Empties, Goes, body_thinned, origins_from};
ghost use Rattle.pass_defs.specs.Origins.{composed};
ghost use Rattle.pass_defs.specs.Loose.{KnowsCalls, AreLoose, is_alone, concerns, is_plain_call, new_key, shorty};
ghost use Rattle.pass_defs.specs.Bindable.{IsBindable, package_of, may_access, may_rebind};
ghost use Rattle.pass_defs.specs.Site.{all_inlined, IsSite};
ghost use Rattle.pass_defs.specs.PassExamples.{spins, hides_q, inherits_q, nothing_key, app_type, lib_type, in_library, found_in, extends_interface, rebinds, rebinds_caller};
ghost use Rattle.pass_defs.specs.PassExamples.{rebinds_method, both_call_q, n_of, gives_q, caller_m, caller_n, sizes_of, branches_over, branches_next, at, q_key, adds, adds_three};
ghost use Rattle.pass_defs.specs.PassExamples.{knows_five, five_given, sum_typed, knows_sum, reads_copy, copy_is_old, needs_both, skips_one, drops_q, state_with, says, gives_copy};
ghost use Rattle.pass_defs.specs.SiteExamples.{by_number, gives_by_number, m_inlined};
ghost use Rattle.pass_defs.specs.LooseExamples.{needs_no_receiver, loose_program, is_q};

/// Operations on int take the low 32 bits of what a register holds, and a boolean field keeps the low byte of a wide.
pub fn known_numbers_are_words()
    ensures literal { flat_literal literal.RsubInt (KnownWord 4294967297) (pos 3) ≡ KnownWord 2 }
    ensures divides { flat_binary binary.DivInt (KnownWord 4294967303) (KnownWord 2) ≡ KnownWord 3 }
    ensures stored { flat_stored item.Boolean (KnownWide 257) ≡ KnownWord 1 }
    ensures whole { flat_stored item.Wide (KnownWide 257) ≡ KnownWide 257 }
{}

/// A super call that names a class of the framework may leave the program, whatever its superclass defines.
pub fn a_super_call_of_the_framework_leaves()
    ensures framework { may_leave inherits_q b_type call.Super (nothing_key (codes "Landroid/app/Activity;")) ≡ true }
    ensures program { may_leave inherits_q b_type call.Super (nothing_key a_type) ≡ false }
{}

/// A public method of a class is private in a class under it: a virtual call that names the private one and finds the public
/// one isn't a plain call of that. Where nothing hides it, the call is.
pub fn a_hidden_name_keeps_a_method()
    ensures alone { is_alone hides_q (nothing_key a_type) ≡ true }
    ensures concerns { concerns hides_q (nothing_key a_type) a_type call.Virtual (nothing_key b_type) ≡ true }
    ensures hidden { is_plain_call hides_q (nothing_key a_type) a_type call.Virtual (nothing_key b_type) ≡ false }
    ensures inherited { is_plain_call inherits_q (nothing_key a_type) a_type call.Virtual (nothing_key b_type) ≡ true }
{}

/// So the public one isn't loose.
pub fn a_hidden_name_is_not_loose()
    ensures { KnowsCalls hides_q (λ k. true) (λ k n r. Unit {0}) (nothing_key a_type) → ⊥ }
{}

/// The new signature has the class in front.
pub fn the_class_comes_first()
    ensures { shorty (new_key q_key).signature ≡ codes "ILI" }
{}

/// A caller reaches a public method of a public class, and any of its own package; packages end at the last slash.
pub fn a_call_is_rebound_within_reach()
    ensures package { package_of lib_type ≡ codes "Lapp/lib/" }
    ensures public { may_access (in_library 1) app_type (found_in lib_type 1) ≡ true }
    ensures hidden_class { may_access (in_library 0) app_type (found_in lib_type 1) ≡ false }
    ensures hidden_method { may_access (in_library 1) app_type (found_in lib_type 4) ≡ false }
    ensures own_package { may_access (in_library 0) (codes "Lapp/lib/C;") (found_in lib_type 4) ≡ true }
{}

/// A call of an interface's method with code goes to another interface only below that one, by whatever name it is called.
pub fn a_call_stays_below_its_interface()
    ensures below { may_rebind extends_interface (r_key i_type) (r_key j_type) ≡ true }
    ensures beside { may_rebind extends_interface (r_key i_type) (r_key (codes "LL;")) ≡ false }
    ensures by_another_name { may_rebind extends_interface (r_key (codes "LK;")) (r_key (codes "LL;")) ≡ false }
{}

/// A constant of one register doesn't write what a wide result does.
pub fn a_wide_result_needs_a_wide_constant()
    ensures narrow { writes (form.Const 0 (pos 5)) 1 ≡ false }
    ensures wide { writes (form.MoveResult slot.Wide 0) 1 ≡ true }
{}

/// Nothing known of a method that never comes back makes its wide result foldable.
pub fn a_wide_result_is_not_foldable()
    ensures { IsFoldable spins (keeps_m void) (m_key void) 1 → ⊥ }
{}

/// What was inlined in an earlier caller stays so in the program by which a later one is judged.
pub fn earlier_callers_count()
    ensures before { sizes_of both_call_q ≡ (4 ∷ 4 ∷ 2 ∷ []) ∷ [] }
    ensures after { sizes_of (all_inlined both_call_q both_call_q (caller_m ∷ caller_n ∷ [])) ≡ (6 ∷ 6 ∷ 2 ∷ []) ∷ [] }
{}

/// Positions go or become nops, and branches and regions follow; a region that covers nothing any more is left out.
pub fn a_body_is_thinned()
    ensures body { body_thinned (Stays ∷ Goes ∷ Empties ∷ Stays ∷ Stays ∷ []) branches_over ≡ branches_next }
    ensures origins { origins_from 0 (Stays ∷ Goes ∷ Empties ∷ Stays ∷ Stays ∷ []) ≡ 0 ∷ 2 ∷ 3 ∷ 4 ∷ [] }
{}

/// Origins of two rewritings lead back through the first one, which has inlined method 1 into method 0; a method that
/// moved nowhere has its own positions.
pub fn origins_are_composed()
    ensures through { composed ((at 0 0 ∷ at 1 0 ∷ at 1 1 ∷ at 0 2 ∷ []) ∷ (at 1 0 ∷ at 1 1 ∷ []) ∷ []) ((at 0 1 ∷ at 0 3 ∷ []) ∷ (at 1 0 ∷ []) ∷ [])
        ≡ (at 1 0 ∷ at 0 2 ∷ []) ∷ (at 1 0 ∷ []) ∷ [] }
    ensures unmoved { composed [] ((at 0 1 ∷ []) ∷ []) ≡ (at 0 1 ∷ []) ∷ [] }
    ensures unmoved_again { composed ((at 0 1 ∷ []) ∷ []) [] ≡ (at 0 1 ∷ []) ∷ [] }
{}

/// The sum of two known numbers is foldable, by a solution that knows it and that says what a state in front of it holds.
pub fn a_sum_is_foldable()
    ensures closed { IsSolution adds (keeps_m to_int) knows_sum }
    ensures foldable { IsFoldable adds (keeps_m to_int) (m_key to_int) 1 }
{}

/// The sum may become a constant in place.
pub fn a_sum_may_become_a_constant()
    ensures { IsFolded adds (with_m to_int adds_three) sum_typed five_given (λ n q. ⊥) adds_three knows_five }
{}

/// A constant's kind is at or below what the form writes: 0 alone among references, a wide one of wides, and none of an
/// object that no constructor was called on.
pub fn a_constant_keeps_the_kind()
    ensures null { is_below adds (kind_written (form.Const 0 (pos 0))) Reference ≡ true }
    ensures not_null { is_below adds (kind_written (form.Const 0 (pos 5))) Reference ≡ false }
    ensures wide { is_below adds (kind_written (form.ConstWide 0 (pos 0))) Low ≡ true }
    ensures narrow { is_below adds (kind_written (form.Const 0 (pos 0))) Low ≡ false }
    ensures fresh { is_below adds (kind_written (form.Const 0 (pos 0))) (Fresh a_type 3) ≡ false }
{}

/// A read of a copy is stale where the original has the lower number; once the original was written it stays.
pub fn a_read_of_a_copy_is_stale()
    ensures stale { IsStale reads_copy 2 }
    ensures old { IsStale copy_is_old 3 → ⊥ }
{}

/// A read is stale where it is as wide as the copy: one of half a wide copy isn't, nor a wide one of a narrow copy.
pub fn a_read_is_as_wide_as_its_copy()
    ensures wide { IsStale (gives_copy slot.Wide slot.Wide) 2 }
    ensures half { IsStale (gives_copy slot.Wide slot.Word) 2 → ⊥ }
    ensures wider { IsStale (gives_copy slot.Word slot.Wide) 2 → ⊥ }
{}

/// A body whose registers are needed at once is packed, and one that leaves out register 0 isn't.
pub fn a_body_is_packed()
    ensures packed { IsPacked needs_both }
    ensures skipping { IsPacked skips_one → ⊥ }
{}

/// A static method that only adds is plainly quiet, and a call of it whose result isn't taken can be dropped.
pub fn a_quiet_call_is_dropped()
    ensures quiet { IsPlainlyQuiet drops_q (keeps_m void) q_key }
    ensures droppable { IsDroppable drops_q (keeps_m void) (m_key void) 1 }
{}

/// Facts hold of a state whose registers hold what they say there, and not of one with another number.
pub fn facts_cover_a_state()
    ensures covers { Covers flat says adds knows_sum (state_with 2) }
    ensures not_another { Covers flat says adds knows_sum (state_with 3) → ⊥ }
{}

/// The call in a second caller is a site, judged by the program in which the first caller's is inlined: its limits see both.
pub fn a_second_site_sees_the_first()
    ensures names { named (by_number gives_by_number gives_by_number) ≡ both_call_q }
    ensures site { IsSite (by_number gives_by_number gives_by_number) both_call_q m_inlined (keeps_m void) (λ b. length b.insns) (λ x. sizes_of (named x) ≡ (6 ∷ 6 ∷ 2 ∷ []) ∷ []) (λ k n r. ⊥)
        caller_n.key n_of gives_q [] 1 }
{}

/// A public method that one call names, on an object that isn't null, is loose.
pub fn a_method_without_need_of_its_receiver_is_loose()
    ensures { AreLoose needs_no_receiver loose_program (keeps_m void) true (λ x. Unit {0}) (λ k. true) (λ k n r. Unit {0}) is_q }
{}

/// A call of an interface's method on an object of a known class can name that class's method, unless the class is hidden
/// in another package.
pub fn a_known_receiver_is_bindable()
    ensures bindable { IsBindable (rebinds a_type b_type 1) (rebinds_caller a_type b_type) (rebinds_method b_type) 0 (found_in b_type 1) }
    ensures hidden { IsBindable (rebinds app_type lib_type 0) (rebinds_caller app_type lib_type) (rebinds_method lib_type) 0 (found_in lib_type 1) → ⊥ }
{}
