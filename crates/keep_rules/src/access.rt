//! Which conditions hold of a class or a member.

ghost use Rattle.std.specs.Prelude.{◌≡◌, ◌&&◌, ◌||◌, ℕ, List, true, false, not, map, if◌then◌else◌, IfOk, IfSome, IfNone};
ghost use Rattle.dalvik_defs.specs.Naming.{mark_of};
ghost use Rattle.rule_text.specs.Tokens.{Word};
ghost use Rattle.rule_text.specs.Rules as meant;
ghost use Rattle.rule_text.specs.Related.{AreEach, IsPatternOf, IsConditionOf};
ghost use Rattle.rule_defs.specs.Members.{common_holds, field_holds, method_holds, access_holds, asks_visibility, conditions_hold, has_mark, is_visibility};
ghost use Rattle.std.specs.List.{list_any};
ghost use Rattle.keep_rules.specs.Fits.{role_of, is_seen, other_holds, others_hold, sees, words_hold, mark_holds, marks_hold};

use crate::fit::class_fits;
use crate::view::descriptor;
use program_model::{Flags, Mark, Program};
use rule_text::{Access, Condition, NamePattern};
use std::alloc::AllocError;

/// What the flags belong to. Two words name the same bit where one is of fields and the other of methods.
#[derive(Clone, Copy)]
pub enum Role {
    Class,
    Field,
    Method,
}

/// Whether a word that classes know as well, or who may see a member, holds of the flags.
#[tactic(auto, using(crate::proofs::AccessLemmas::bits))]
fn common_holds(access: Access, flags: Flags) -> bool
    ensures { result ≡ common_holds access flags.0 }
{
    match access {
        Access::Public => flags.has(Flags::PUBLIC),
        Access::Private => flags.has(Flags::PRIVATE),
        Access::Protected => flags.has(Flags::PROTECTED),
        Access::Static => flags.has(Flags::STATIC),
        Access::Final => flags.has(Flags::FINAL),
        Access::Abstract => flags.has(Flags::ABSTRACT),
        Access::Synthetic => flags.has(Flags::SYNTHETIC),
        _ => false,
    }
}

/// Whether a word of methods holds of the flags.
#[tactic(auto, using(crate::proofs::AccessLemmas::bits))]
fn method_holds(access: Access, flags: Flags) -> bool
    ensures { result ≡ method_holds access flags.0 }
{
    match access {
        Access::Synchronized => {
            flags.has(Flags::SYNCHRONIZED) || flags.has(Flags::DECLARED_SYNCHRONIZED)
        }
        Access::Native => flags.has(Flags::NATIVE),
        Access::Strict => flags.has(Flags::STRICT),
        Access::Varargs => flags.has(Flags::VARARGS),
        Access::Bridge => flags.has(Flags::BRIDGE),
        _ => common_holds(access, flags),
    }
}

/// Whether a word of fields holds of the flags.
#[tactic(auto, using(crate::proofs::AccessLemmas::bits))]
fn field_holds(access: Access, flags: Flags) -> bool
    ensures { result ≡ field_holds access flags.0 }
{
    match access {
        Access::Volatile => flags.has(Flags::VOLATILE),
        Access::Transient => flags.has(Flags::TRANSIENT),
        _ => common_holds(access, flags),
    }
}

/// Whether the access word holds of what has these flags.
fn access_holds(access: Access, role: Role, flags: Flags) -> bool
    ensures { result ≡ access_holds (role_of role) access flags.0 }
{
    match role {
        Role::Class => common_holds(access, flags),
        Role::Method => method_holds(access, flags),
        Role::Field => field_holds(access, flags),
    }
}

/// Whether what is asked holds: the word, or where it is negated that the word doesn't.
fn word_holds(holds: bool, negated: bool) -> bool
    ensures { result ≡ (if negated then not holds else holds) }
{
    holds != negated
}

/// Whether one of the annotations is of a type that matches.
pub fn mark_holds(
    pattern: &NamePattern,
    program: &Program,
    marks: &[Mark],
    row: &mut Vec<bool>,
) -> Result<bool, AllocError>
    ensures { (w : Word) → IsPatternOf pattern.now w → IfOk result (λ holds. holds ≡ has_mark w (map (mark_of program.now) marks.now)) }
{
    for mark in marks {
        let fits = class_fits(pattern, descriptor(program, mark.note.class), row)?;
        if fits {
            return Ok(true);
        }
    }
    Ok(false)
}

/// Whether the word says who may see the member.
fn is_visibility(access: Access) -> bool
    ensures { result ≡ is_visibility access }
{
    matches!(access, Access::Public | Access::Private | Access::Protected)
}

/// Whether something is asked that nobody negated, and holds.
fn is_asked(visible: bool, negated: bool, holds: bool) -> bool
    ensures { result ≡ ((visible && not negated) && holds) }
{
    visible && !negated && holds
}

/// Whether the condition is a word that says who may see the member, and stands without `!`.
#[tactic(auto, using(crate::proofs::AccessLemmas::asks_of))]
fn asks(condition: &Condition) -> bool
    ensures { (c : meant.Condition) → IsConditionOf condition.now c → result ≡ asks_visibility c }
{
    match condition {
        Condition::Access { negated, access } => is_asked(is_visibility(*access), *negated, true),
        Condition::Mark(_) => false,
    }
}

/// Whether the condition is such a word, and holds.
#[tactic(auto, using(crate::proofs::AccessLemmas::sees_of))]
fn sees(condition: &Condition, role: Role, flags: Flags) -> bool
    ensures { (c : meant.Condition) → IsConditionOf condition.now c → result ≡ sees (role_of role) flags.0 c }
{
    match condition {
        Condition::Access { negated, access } => {
            let visible = is_visibility(*access);
            let holds = access_holds(*access, role, flags);
            is_asked(visible, *negated, holds)
        }
        Condition::Mark(_) => false,
    }
}

/// Whether some condition is a word that says who may see the member, and stands without `!`.
fn some_asks(conditions: &[Condition]) -> bool
    ensures { (cs : List meant.Condition) → AreEach IsConditionOf conditions.now cs → result ≡ list_any asks_visibility cs }
{
    for condition in conditions {
        let asks = asks(condition);
        if asks {
            return true;
        }
    }
    false
}

/// Whether one of these words holds.
fn some_sees(conditions: &[Condition], role: Role, flags: Flags) -> bool
    ensures { (cs : List meant.Condition) → AreEach IsConditionOf conditions.now cs → result ≡ list_any (sees (role_of role) flags.0) cs }
{
    for condition in conditions {
        let sees = sees(condition, role, flags);
        if sees {
            return true;
        }
    }
    false
}

/// Whether of `public`, `private` and `protected` one that stands without `!` holds, where there are any.
fn is_seen(conditions: &[Condition], role: Role, flags: Flags) -> bool
    ensures { (cs : List meant.Condition) → AreEach IsConditionOf conditions.now cs → result ≡ is_seen (role_of role) flags.0 cs }
{
    some_sees(conditions, role, flags) || !some_asks(conditions)
}

/// Whether one of two things holds, or a third.
fn is_free(visible: bool, negated: bool, holds: bool) -> bool
    ensures { result ≡ ((visible && not negated) || holds) }
{
    visible && !negated || holds
}

/// Whether a condition holds that is neither an annotation nor a word that says who may see the member.
#[tactic(auto, using(crate::proofs::AccessLemmas::other_of, crate::proofs::AccessLemmas::other_mark))]
fn other_holds(condition: &Condition, role: Role, flags: Flags) -> bool
    ensures { (c : meant.Condition) → IsConditionOf condition.now c → result ≡ other_holds (role_of role) flags.0 c }
{
    match condition {
        Condition::Mark(_) => true,
        Condition::Access { negated, access } => {
            let visible = is_visibility(*access);
            let holds = word_holds(access_holds(*access, role, flags), *negated);
            is_free(visible, *negated, holds)
        }
    }
}

/// Whether every word holds that doesn't say who may see the member.
fn others_hold(conditions: &[Condition], role: Role, flags: Flags) -> bool
    ensures { (cs : List meant.Condition) → AreEach IsConditionOf conditions.now cs → result ≡ others_hold (role_of role) flags.0 cs }
{
    for condition in conditions {
        let holds = other_holds(condition, role, flags);
        if !holds {
            return false;
        }
    }
    true
}

/// Whether the words that are asked of the flags hold: of `public`, `private` and `protected` one that stands without
/// `!`, where there are any, and every other word, where one with `!` holds as the word itself doesn't.
pub fn access_fits(conditions: &[Condition], role: Role, flags: Flags) -> bool
    ensures { (cs : List meant.Condition) → AreEach IsConditionOf conditions.now cs → result ≡ words_hold (role_of role) flags.0 cs }
{
    is_seen(conditions, role, flags) && others_hold(conditions, role, flags)
}

/// Whether the annotation is there, if the condition asks for one.
fn mark_fits(
    condition: &Condition,
    program: &Program,
    marks: &[Mark],
    row: &mut Vec<bool>,
) -> Result<bool, AllocError>
    ensures { (c : meant.Condition) → IsConditionOf condition.now c → IfOk result (λ holds. holds ≡ mark_holds (map (mark_of program.now) marks.now) c) }
{
    match condition {
        Condition::Mark(pattern) => mark_holds(pattern, program, marks, row),
        Condition::Access { .. } => Ok(true),
    }
}

/// Whether for each annotation that is asked for there is one that matches.
pub fn marks_fit(
    conditions: &[Condition],
    program: &Program,
    marks: &[Mark],
    row: &mut Vec<bool>,
) -> Result<bool, AllocError>
    ensures { (cs : List meant.Condition) → AreEach IsConditionOf conditions.now cs
        → IfOk result (λ fits. fits ≡ marks_hold (map (mark_of program.now) marks.now) cs) }
{
    for condition in conditions {
        let fits = mark_fits(condition, program, marks, row)?;
        if !fits {
            return Ok(false);
        }
    }
    Ok(true)
}

/// Whether what is asked of flags and annotations holds.
#[tactic(auto, using(crate::proofs::AccessLemmas::conditions_fail, crate::proofs::AccessLemmas::conditions_left))]
pub fn conditions_fit(
    conditions: &[Condition],
    role: Role,
    flags: Flags,
    program: &Program,
    marks: &[Mark],
    row: &mut Vec<bool>,
) -> Result<bool, AllocError>
    ensures { (cs : List meant.Condition) → AreEach IsConditionOf conditions.now cs
        → IfOk result (λ fits. fits ≡ conditions_hold (role_of role) flags.0 (map (mark_of program.now) marks.now) cs) }
{
    let words = access_fits(conditions, role, flags);
    if !words {
        return Ok(false);
    }
    marks_fit(conditions, program, marks, row)
}
