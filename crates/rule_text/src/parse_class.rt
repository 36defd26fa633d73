//! Reading of which classes a rule names.

ghost use Rattle.std.specs.Prelude.{◌≡◌, ◌+◌, ◌<◌, ◌≤◌, ◌∷◌, ◌++◌, Bool, true, false, List, length, codes, IsTrue, IsErr, IfOk, IfErr, IfSome, IfNone, OnOk};
ghost use Rattle.rule_text.specs.Reads.{Reads, ReadsEach, IsHead};
ghost use Rattle.rule_text.specs.Related.{AreEach, AreBoth, IsPatternOf, IsConditionOf, IsAboveOf, AreMembersOf, IsClassOf};
ghost use Rattle.rule_text.specs.Spelling.{are_names, separated, is_class_condition, condition_words, access_word, kind_word, bang, is_above, above_words, are_members, braces_words, is_class_rule, class_rule_words};
ghost use Rattle.rule_text.specs.Words.{above_word, is_of_class};
ghost use Rattle.rule_text.specs.Steps.{AtSyntax, BeginOtherwise, BeginWithNone, first_word, words_at};
ghost use Rattle.rule_text.specs.Tokens.{Word};
ghost use Rattle.rule_text.specs.Places.{InHead, BeforeName, BehindName, BeforeBrace, is_class_access};
ghost use Rattle.rule_text.specs.Refusals.{IsRefused, EndsWhole, IsNoCondition, IsNoAbove};

use crate::cursor::{accept, advance, word_at};
use crate::parse_member::{read_mark, read_members, read_name};
use crate::pattern::NamePattern;
use crate::rules::{Above, AboveWord, Access, ClassKind, ClassRule, Condition, MemberRule};
use crate::stop::Stop;
use crate::token::Token;
use crate::words::{class_access, class_kind};
use std::alloc::Global;

/// Names with a comma between two.
pub fn read_names(
    alloc: Global,
    tokens: &[Token<'_>],
    at: &mut usize,
) -> Result<Vec<NamePattern>, Stop>
    requires { at.old ≤ length tokens.now }
    ensures moves { at.old ≤ at.new }
    ensures inside { at.new ≤ length tokens.now }
    ensures on { OnOk result (at.old < at.new) }
    ensures step { IfOk result (λ names. Reads (AreEach IsPatternOf) are_names separated tokens.now at.old at.new names.items) }
    ensures halt { (assumed : Bool) → IfErr result (AtSyntax (IsRefused (BeforeName assumed) tokens.now at.old at.new)) }
    ensures last { OnOk result (BeginOtherwise (codes ",") (words_at tokens.now at.new)) }
{
    let mut names = Vec::new(alloc);
    names.push(read_name(alloc, tokens, at)?)?;
    while accept(tokens, at, b",") {
        names.push(read_name(alloc, tokens, at)?)?;
    }
    Ok(names)
}

/// An access word of a class, with or without `!`; none, and nothing is read, where a class's kind follows.
fn read_access(tokens: &[Token<'_>], at: &mut usize) -> Option<(bool, Access)>
    requires { at.old ≤ length tokens.now }
    ensures moves { at.old ≤ at.new }
    ensures inside { at.new ≤ length tokens.now }
    ensures step { IfSome result (λ found. words_at tokens.now at.old ≡ bang found.0 ++ (access_word found.1 ∷ words_at tokens.now at.new)) }
    ensures class { IfSome result (λ found. is_of_class found.1 ≡ true) }
    ensures on { IfSome result (λ _. at.old < at.new) }
    ensures stays { IfNone result (at.new ≡ at.old) }
    ensures none { IfNone result (is_class_access (first_word (words_at tokens.now at.old)) ≡ false) }
    ensures behind { IfNone result ((rest : List Word) → words_at tokens.now at.old ≡ codes "!" ∷ rest → is_class_access (first_word rest) ≡ false) }
{
    let start = *at;
    let negated = accept(tokens, at, b"!");
    let Some(access) = class_access(word_at(tokens, *at)) else {
        *at = start;
        return None;
    };
    advance(tokens, at);
    Some((negated, access))
}

/// A condition on a class, none where its kind follows.
fn read_condition(
    alloc: Global,
    tokens: &[Token<'_>],
    at: &mut usize,
) -> Result<Option<Condition>, Stop>
    requires { at.old ≤ length tokens.now }
    ensures moves { at.old ≤ at.new }
    ensures inside { at.new ≤ length tokens.now }
    ensures step { IfOk result (λ read. IfSome read (Reads IsConditionOf is_class_condition condition_words tokens.now at.old at.new)) }
    ensures on { IfOk result (λ read. IfSome read (λ _. at.old < at.new)) }
    ensures stays { IfOk result (λ read. IfNone read (at.new ≡ at.old)) }
    ensures none { IfOk result (λ read. IfNone read (IsNoCondition (words_at tokens.now at.old))) }
    ensures halt { IfErr result (AtSyntax (IsRefused InHead tokens.now at.old at.new)) }
{
    if class_kind(word_at(tokens, *at)).is_some() {
        return Ok(None);
    }
    if let Some(mark) = read_mark(alloc, tokens, at)? {
        return Ok(Some(Condition::Mark(mark)));
    }
    match read_access(tokens, at) {
        Some((negated, access)) => Ok(Some(Condition::Access { negated, access })),
        None => Ok(None),
    }
}

/// The conditions on a class.
fn read_conditions(
    alloc: Global,
    tokens: &[Token<'_>],
    at: &mut usize,
) -> Result<Vec<Condition>, Stop>
    requires { at.old ≤ length tokens.now }
    ensures moves { at.old ≤ at.new }
    ensures inside { at.new ≤ length tokens.now }
    ensures step { IfOk result (λ conditions. ReadsEach IsConditionOf is_class_condition condition_words tokens.now at.old at.new conditions.items) }
    ensures none { OnOk result (IsNoCondition (words_at tokens.now at.new)) }
    ensures halt { IfErr result (AtSyntax (IsRefused InHead tokens.now at.old at.new)) }
{
    let mut conditions = Vec::new(alloc);
    while let Some(condition) = read_condition(alloc, tokens, at)? {
        conditions.push(condition)?;
    }
    Ok(conditions)
}

/// A kind of class.
fn read_kind(tokens: &[Token<'_>], at: &mut usize) -> Result<ClassKind, Stop>
    requires { at.old ≤ length tokens.now }
    ensures moves { at.old ≤ at.new }
    ensures inside { at.new ≤ length tokens.now }
    ensures step { IfOk result (λ kind. words_at tokens.now at.old ≡ kind_word kind ∷ words_at tokens.now at.new) }
    ensures stays { IsErr result → (at.new ≡ at.old) × BeginWithNone kind_word (words_at tokens.now at.old) }
{
    match class_kind(word_at(tokens, *at)) {
        Some(kind) => {
            advance(tokens, at);
            Ok(kind)
        }
        None => Err(Stop::Syntax),
    }
}

/// The word before an ancestor.
fn read_above_word(tokens: &[Token<'_>], at: &mut usize) -> Option<AboveWord>
    requires { at.old ≤ length tokens.now }
    ensures moves { at.old ≤ at.new }
    ensures inside { at.new ≤ length tokens.now }
    ensures step { IfSome result (λ word. words_at tokens.now at.old ≡ above_word word ∷ words_at tokens.now at.new) }
    ensures stays { IfNone result (at.new ≡ at.old) }
    ensures none { IfNone result (IsNoAbove (words_at tokens.now at.new)) }
{
    if accept(tokens, at, b"extends") {
        Some(AboveWord::Extends)
    } else if accept(tokens, at, b"implements") {
        Some(AboveWord::Implements)
    } else {
        None
    }
}

/// What is asked of the ancestors.
fn read_above(alloc: Global, tokens: &[Token<'_>], at: &mut usize) -> Result<Option<Above>, Stop>
    requires { at.old ≤ length tokens.now }
    ensures moves { at.old ≤ at.new }
    ensures inside { at.new ≤ length tokens.now }
    ensures step { IfOk result (Reads (AreBoth IsAboveOf) is_above above_words tokens.now at.old at.new) }
    ensures stays { IfOk result (λ above. IfNone above (at.new ≡ at.old)) }
    ensures none { IfOk result (λ above. IfNone above (IsNoAbove (words_at tokens.now at.new))) }
    ensures halt { IfErr result (AtSyntax (IsRefused (BehindName false) tokens.now at.old at.new)) }
{
    let Some(word) = read_above_word(tokens, at) else {
        return Ok(None);
    };
    let mark = read_mark(alloc, tokens, at)?;
    let name = read_name(alloc, tokens, at)?;
    Ok(Some(Above { word, mark, name }))
}

/// The lines of members, where a brace opens.
fn read_braces(
    alloc: Global,
    tokens: &[Token<'_>],
    at: &mut usize,
) -> Result<Option<Vec<MemberRule>>, Stop>
    requires { at.old ≤ length tokens.now }
    ensures moves { at.old ≤ at.new }
    ensures inside { at.new ≤ length tokens.now }
    ensures step { IfOk result (Reads (AreBoth AreMembersOf) are_members braces_words tokens.now at.old at.new) }
    ensures stays { IfOk result (λ members. IfNone members (at.new ≡ at.old)) }
    ensures none { IfOk result (λ members. IfNone members (BeginOtherwise (codes "{") (words_at tokens.now at.new))) }
    ensures opens { IsErr result → first_word (words_at tokens.now at.old) ≡ codes "{" }
    ensures halt { IfErr result (AtSyntax (IsRefused (BeforeBrace false) tokens.now at.old at.new)) }
{
    if word_at(tokens, *at) != b"{".as_slice() {
        return Ok(None);
    }
    let members = read_members(alloc, tokens, at)?;
    Ok(Some(members))
}

/// The kind of the classes that a keep rule names, and what stands before it.
fn read_head(
    alloc: Global,
    tokens: &[Token<'_>],
    at: &mut usize,
) -> Result<(Vec<Condition>, bool, ClassKind), Stop>
    requires { at.old ≤ length tokens.now }
    ensures moves { at.old ≤ at.new }
    ensures inside { at.new ≤ length tokens.now }
    ensures step { IfOk result (λ head. IsHead tokens.now at.old at.new head.0.items head.1 head.2) }
    ensures halt { IfErr result (AtSyntax (IsRefused InHead tokens.now at.old at.new)) }
{
    let conditions = read_conditions(alloc, tokens, at)?;
    let negated = accept(tokens, at, b"!");
    let kind = read_kind(tokens, at)?;
    Ok((conditions, negated, kind))
}

/// Which classes a keep rule names, and which of their members.
pub fn read_class(alloc: Global, tokens: &[Token<'_>], at: &mut usize) -> Result<ClassRule, Stop>
    requires { at.old ≤ length tokens.now }
    ensures moves { at.old ≤ at.new }
    ensures inside { at.new ≤ length tokens.now }
    ensures step { IfOk result (Reads IsClassOf is_class_rule class_rule_words tokens.now at.old at.new) }
    ensures whole { OnOk result (EndsWhole InHead tokens.now at.old at.new) }
    ensures halt { IfErr result (AtSyntax (IsRefused InHead tokens.now at.old at.new)) }
{
    let (conditions, negated, kind) = read_head(alloc, tokens, at)?;
    let names = read_names(alloc, tokens, at)?;
    let above = read_above(alloc, tokens, at)?;
    let members = read_braces(alloc, tokens, at)?;
    Ok(ClassRule {
        conditions,
        negated,
        kind,
        names,
        above,
        members,
    })
}
