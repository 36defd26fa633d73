//! Reading of names, types and member lines.

ghost use Rattle.std.specs.Prelude.{◌≡◌, ◌+◌, ◌<◌, ◌≤◌, ◌∷◌, ◌++◌, [], Bool, true, false, List, length, codes, IsTrue, IsFalse, IfOk, IfErr, IfSome, IfNone, OnOk};
ghost use Rattle.std.specs.List.{list_all};
ghost use Rattle.rule_text.specs.Pieces.{ends_in_brackets};
ghost use Rattle.rule_text.specs.Reads.{Reads, ReadsEach, alone};
ghost use Rattle.rule_text.specs.Related.{AreEach, IsPatternOf, IsItemOf, IsTypeOf, AreArgumentsOf, IsWhatOf, IsConditionOf, IsMemberOf};
ghost use Rattle.rule_text.specs.Spelling.{is_name, is_argument, are_some, are_arguments, separated, argument_words, is_what, is_assumed_what, what_words, is_member_condition, is_plain_condition, condition_words, is_member_rule, is_assumed_rule, member_rule_words, braces, access_word, bang, marked};
ghost use Rattle.rule_text.specs.Stops.{IsNoMark, IsBareBang, IsNoArgument};
ghost use Rattle.rule_text.specs.Tokens.{Word};
ghost use Rattle.rule_text.specs.Steps.{AtSyntax, BeginOtherwise, BeginWithNone, IsNoName, first_word, words_at};
ghost use Rattle.rule_text.specs.Places.{BeforeArgument, BeforeArguments, BeforeBrace, InLine};
ghost use Rattle.rule_text.specs.Refusals.{IsRefused, EndsAt, IsBare, IsNamed, IsTyped, IsTypedLine, begins_mark};

use crate::cursor::{accept, advance, expect_word, word_at};
use crate::pattern::NamePattern;
use crate::pieces::pattern_of;
use crate::rules::{Access, Arguments, Condition, ItemPattern, MemberRule, TypePattern, What};
use crate::stop::Stop;
use crate::token::Token;
use crate::words::{is_name, letter_of, member_access};
use std::alloc::{AllocError, Global};

/// A name.
pub fn read_name(alloc: Global, tokens: &[Token<'_>], at: &mut usize) -> Result<NamePattern, Stop>
    requires { at.old ≤ length tokens.now }
    ensures moves { at.old ≤ at.new }
    ensures inside { at.new ≤ length tokens.now }
    ensures on { OnOk result (at.old < at.new) }
    ensures step { IfOk result (Reads IsPatternOf is_name alone tokens.now at.old at.new) }
    ensures stop { IfErr result (AtSyntax (IsNoName tokens.now at.old at.new)) }
{
    let Some(token) = tokens.get(*at) else {
        return Err(Stop::Syntax);
    };
    if !is_name(token.word) {
        return Err(Stop::Syntax);
    }
    let name = pattern_of(alloc, token.word)?;
    *at += 1;
    Ok(name)
}

/// The annotation that a token `@NAME` asks for.
pub fn read_mark(
    alloc: Global,
    tokens: &[Token<'_>],
    at: &mut usize,
) -> Result<Option<NamePattern>, Stop>
    requires { at.old ≤ length tokens.now }
    ensures moves { at.old ≤ at.new }
    ensures inside { at.new ≤ length tokens.now }
    ensures on { IfOk result (λ read. IfSome read (λ _. at.old < at.new)) }
    ensures step { IfOk result (λ read. IfSome read (Reads IsPatternOf is_name (λ name. marked name ∷ []) tokens.now at.old at.new)) }
    ensures stays { IfOk result (λ read. IfNone read (at.new ≡ at.old)) }
    ensures none { IfOk result (λ read. IfNone read (begins_mark (first_word (words_at tokens.now at.old)) ≡ false)) }
    ensures stop { IfErr result (AtSyntax (IsNoMark tokens.now at.old at.new)) }
{
    match tokens.get(*at) {
        Some(token) => match token.word {
            [b'@', name @ ..] => {
                if !is_name(name) {
                    return Err(Stop::Syntax);
                }
                let mark = pattern_of(alloc, name)?;
                *at += 1;
                Ok(Some(mark))
            }
            _ => Ok(None),
        },
        None => Ok(None),
    }
}

/// What stands before `[]` at the end of a word.
fn before_brackets(word: &[u8]) -> Option<&[u8]>
    ensures some { IfSome result (λ front. word.now ≡ front.now ++ 91 ∷ 93 ∷ []) }
    ensures none { IfNone result (ends_in_brackets word.now ≡ false) }
{
    match word {
        [front @ .., b'[', b']'] => Some(front),
        _ => None,
    }
}

/// The item of a type without the `[]` behind it.
fn item_of(alloc: Global, word: &[u8]) -> Result<ItemPattern, AllocError>
    ensures { IfOk result (λ item. IsItemOf item word.now) }
{
    if word == b"***".as_slice() {
        return Ok(ItemPattern::Any);
    }
    if word == b"%".as_slice() {
        return Ok(ItemPattern::Primitive);
    }
    if let Some(letter) = letter_of(word) {
        return Ok(ItemPattern::Letter(letter));
    }
    Ok(ItemPattern::Class(pattern_of(alloc, word)?))
}

/// The type that a token writes.
fn type_of(alloc: Global, word: &[u8]) -> Result<TypePattern, AllocError>
    ensures { IfOk result (λ kind. IsTypeOf kind word.now) }
{
    let mut depth: usize = 0;
    let mut rest = word;
    while let Some(front) = before_brackets(rest) {
        depth += 1;
        rest = front;
    }
    Ok(TypePattern {
        depth,
        item: item_of(alloc, rest)?,
    })
}

/// A type.
fn read_type(alloc: Global, tokens: &[Token<'_>], at: &mut usize) -> Result<TypePattern, Stop>
    requires { at.old ≤ length tokens.now }
    ensures moves { at.old ≤ at.new }
    ensures inside { at.new ≤ length tokens.now }
    ensures on { OnOk result (at.old < at.new) }
    ensures step { IfOk result (Reads IsTypeOf is_name alone tokens.now at.old at.new) }
    ensures stop { IfErr result (AtSyntax (IsNoName tokens.now at.old at.new)) }
{
    let Some(token) = tokens.get(*at) else {
        return Err(Stop::Syntax);
    };
    if !is_name(token.word) {
        return Err(Stop::Syntax);
    }
    let kind = type_of(alloc, token.word)?;
    *at += 1;
    Ok(kind)
}

/// A type of an argument, for which `...` doesn't stand.
fn read_argument(alloc: Global, tokens: &[Token<'_>], at: &mut usize) -> Result<TypePattern, Stop>
    requires { at.old ≤ length tokens.now }
    ensures moves { at.old ≤ at.new }
    ensures inside { at.new ≤ length tokens.now }
    ensures on { OnOk result (at.old < at.new) }
    ensures step { IfOk result (Reads IsTypeOf is_argument alone tokens.now at.old at.new) }
    ensures stop { IfErr result (AtSyntax (IsNoArgument tokens.now at.old at.new)) }
{
    if word_at(tokens, *at) == b"...".as_slice() {
        return Err(Stop::Syntax);
    }
    read_type(alloc, tokens, at)
}

/// The types of arguments with a comma between two.
fn read_argument_types(
    alloc: Global,
    tokens: &[Token<'_>],
    at: &mut usize,
) -> Result<Vec<TypePattern>, Stop>
    requires { at.old ≤ length tokens.now }
    ensures moves { at.old ≤ at.new }
    ensures inside { at.new ≤ length tokens.now }
    ensures step { IfOk result (λ types. Reads (AreEach IsTypeOf) (are_some is_argument) separated tokens.now at.old at.new types.items) }
    ensures halt { (assumed : Bool) → IfErr result (AtSyntax (IsRefused (BeforeArgument assumed) tokens.now at.old at.new)) }
    ensures last { OnOk result (BeginOtherwise (codes ",") (words_at tokens.now at.new)) }
{
    let mut types = Vec::new(alloc);
    types.push(read_argument(alloc, tokens, at)?)?;
    while accept(tokens, at, b",") {
        types.push(read_argument(alloc, tokens, at)?)?;
    }
    Ok(types)
}

/// The arguments of a method.
fn read_arguments(alloc: Global, tokens: &[Token<'_>], at: &mut usize) -> Result<Arguments, Stop>
    requires { at.old ≤ length tokens.now }
    ensures moves { at.old ≤ at.new }
    ensures inside { at.new ≤ length tokens.now }
    ensures on { OnOk result (at.old < at.new) }
    ensures step { IfOk result (Reads AreArgumentsOf are_arguments argument_words tokens.now at.old at.new) }
    ensures halt { (assumed : Bool) → IfErr result (AtSyntax (IsRefused (BeforeArguments assumed) tokens.now at.old at.new)) }
{
    expect_word(tokens, at, b"(")?;
    if accept(tokens, at, b")") {
        return Ok(Arguments::These(Vec::new(alloc)));
    }
    if accept(tokens, at, b"...") {
        expect_word(tokens, at, b")")?;
        return Ok(Arguments::Any);
    }
    let types = read_argument_types(alloc, tokens, at)?;
    expect_word(tokens, at, b")")?;
    Ok(Arguments::These(types))
}

/// A type and a name, and arguments where a method is meant.
fn read_typed(alloc: Global, tokens: &[Token<'_>], at: &mut usize) -> Result<What, Stop>
    requires { at.old ≤ length tokens.now }
    ensures moves { at.old ≤ at.new }
    ensures inside { at.new ≤ length tokens.now }
    ensures on { OnOk result (at.old < at.new) }
    ensures step { BeginWithNone access_word (words_at tokens.now at.old) → IfOk result (Reads IsWhatOf is_what what_words tokens.now at.old at.new) }
    ensures last { IsTypedLine (words_at tokens.now at.old) → OnOk result (EndsAt (codes ";") (InLine false) tokens.now at.old at.new) }
    ensures halt { IsTypedLine (words_at tokens.now at.old) → IfErr result (AtSyntax (IsRefused (InLine false) tokens.now at.old at.new)) }
{
    let kind = read_type(alloc, tokens, at)?;
    let name = read_name(alloc, tokens, at)?;
    if word_at(tokens, *at) != b"(".as_slice() {
        return Ok(What::Field { kind, name });
    }
    let arguments = read_arguments(alloc, tokens, at)?;
    Ok(What::Method {
        result: kind,
        name,
        arguments,
    })
}

/// Goes over a `*` that names all members: the line ends behind it.
fn accept_all(tokens: &[Token<'_>], at: &mut usize) -> bool
    requires { at.old ≤ length tokens.now }
    ensures moves { at.old ≤ at.new }
    ensures inside { at.new ≤ length tokens.now }
    ensures step { IsTrue result → words_at tokens.now at.old ≡ codes "*" ∷ words_at tokens.now at.new }
    ensures last { IsTrue result → first_word (words_at tokens.now at.new) ≡ codes ";" }
    ensures stays { IsFalse result → at.new ≡ at.old }
    ensures none { IsFalse result → (rest : List Word) → words_at tokens.now at.old ≡ codes "*" ∷ rest → BeginOtherwise (codes ";") rest }
{
    let start = *at;
    if accept(tokens, at, b"*") && word_at(tokens, *at) == b";".as_slice() {
        return true;
    }
    *at = start;
    false
}

/// Which members a line names.
fn read_what(alloc: Global, tokens: &[Token<'_>], at: &mut usize) -> Result<What, Stop>
    requires { at.old ≤ length tokens.now }
    ensures moves { at.old ≤ at.new }
    ensures inside { at.new ≤ length tokens.now }
    ensures step { BeginWithNone access_word (words_at tokens.now at.old) → IfOk result (Reads IsWhatOf is_what what_words tokens.now at.old at.new) }
    ensures last { IsNamed (words_at tokens.now at.old) → OnOk result (EndsAt (codes ";") (InLine false) tokens.now at.old at.new) }
    ensures halt { IsNamed (words_at tokens.now at.old) → IfErr result (AtSyntax (IsRefused (InLine false) tokens.now at.old at.new)) }
{
    if accept_all(tokens, at) {
        return Ok(What::All);
    }
    if accept(tokens, at, b"<fields>") {
        return Ok(What::Fields);
    }
    if accept(tokens, at, b"<methods>") {
        return Ok(What::Methods);
    }
    if accept(tokens, at, b"<init>") {
        return Ok(What::Init(read_arguments(alloc, tokens, at)?));
    }
    read_typed(alloc, tokens, at)
}

/// An access word of a member, with or without `!`.
fn read_access(tokens: &[Token<'_>], at: &mut usize) -> Result<Option<(bool, Access)>, Stop>
    requires { at.old ≤ length tokens.now }
    ensures moves { at.old ≤ at.new }
    ensures inside { at.new ≤ length tokens.now }
    ensures on { IfOk result (λ read. IfSome read (λ _. at.old < at.new)) }
    ensures step { IfOk result (λ read. IfSome read (λ found. words_at tokens.now at.old ≡ bang found.0 ++ (access_word found.1 ∷ words_at tokens.now at.new))) }
    ensures stays { IfOk result (λ read. IfNone read (at.new ≡ at.old)) }
    ensures none { IfOk result (λ read. IfNone read (BeginWithNone access_word (words_at tokens.now at.new))) }
    ensures bang { IfOk result (λ read. IfNone read (BeginOtherwise (codes "!") (words_at tokens.now at.new))) }
    ensures stop { IfErr result (AtSyntax (IsBareBang tokens.now at.old at.new)) }
{
    let negated = accept(tokens, at, b"!");
    match member_access(word_at(tokens, *at)) {
        Some(access) => {
            advance(tokens, at);
            Ok(Some((negated, access)))
        }
        None if negated => Err(Stop::Syntax),
        None => Ok(None),
    }
}

/// A condition on a member, none where a line goes on with its type or the like.
fn read_condition(
    alloc: Global,
    tokens: &[Token<'_>],
    at: &mut usize,
) -> Result<Option<Condition>, Stop>
    requires { at.old ≤ length tokens.now }
    ensures moves { at.old ≤ at.new }
    ensures inside { at.new ≤ length tokens.now }
    ensures on { IfOk result (λ read. IfSome read (λ _. at.old < at.new)) }
    ensures step { IfOk result (λ read. IfSome read (Reads IsConditionOf is_member_condition condition_words tokens.now at.old at.new)) }
    ensures stays { IfOk result (λ read. IfNone read (at.new ≡ at.old)) }
    ensures none { IfOk result (λ read. IfNone read (BeginWithNone access_word (words_at tokens.now at.new))) }
    ensures named { IfOk result (λ read. IfNone read (IsNamed (words_at tokens.now at.new))) }
    ensures halt { IfErr result (AtSyntax (IsRefused (InLine false) tokens.now at.old at.new)) }
{
    if let Some(mark) = read_mark(alloc, tokens, at)? {
        return Ok(Some(Condition::Mark(mark)));
    }
    match read_access(tokens, at)? {
        Some((negated, access)) => Ok(Some(Condition::Access { negated, access })),
        None => Ok(None),
    }
}

/// The conditions on a member.
fn read_conditions(
    alloc: Global,
    tokens: &[Token<'_>],
    at: &mut usize,
) -> Result<Vec<Condition>, Stop>
    requires { at.old ≤ length tokens.now }
    ensures moves { at.old ≤ at.new }
    ensures inside { at.new ≤ length tokens.now }
    ensures step { IfOk result (λ conditions. ReadsEach IsConditionOf is_member_condition condition_words tokens.now at.old at.new conditions.items) }
    ensures none { OnOk result (BeginWithNone access_word (words_at tokens.now at.new)) }
    ensures named { OnOk result (IsNamed (words_at tokens.now at.new)) }
    ensures halt { IfErr result (AtSyntax (IsRefused (InLine false) tokens.now at.old at.new)) }
{
    let mut conditions = Vec::new(alloc);
    while let Some(condition) = read_condition(alloc, tokens, at)? {
        conditions.push(condition)?;
    }
    Ok(conditions)
}

/// A line: conditions, what it names, and `;`.
fn read_member(alloc: Global, tokens: &[Token<'_>], at: &mut usize) -> Result<MemberRule, Stop>
    requires { at.old ≤ length tokens.now }
    ensures moves { at.old ≤ at.new }
    ensures inside { at.new ≤ length tokens.now }
    ensures on { OnOk result (at.old < at.new) }
    ensures step { IfOk result (Reads IsMemberOf is_member_rule member_rule_words tokens.now at.old at.new) }
    ensures halt { IfErr result (AtSyntax (IsRefused (InLine false) tokens.now at.old at.new)) }
{
    let conditions = read_conditions(alloc, tokens, at)?;
    let what = read_what(alloc, tokens, at)?;
    expect_word(tokens, at, b";")?;
    Ok(MemberRule { conditions, what })
}

/// The lines between braces.
pub fn read_members(
    alloc: Global,
    tokens: &[Token<'_>],
    at: &mut usize,
) -> Result<Vec<MemberRule>, Stop>
    requires { at.old ≤ length tokens.now }
    ensures moves { at.old ≤ at.new }
    ensures inside { at.new ≤ length tokens.now }
    ensures on { OnOk result (at.old < at.new) }
    ensures step { IfOk result (λ members. Reads (AreEach IsMemberOf) (list_all is_member_rule) braces tokens.now at.old at.new members.items) }
    ensures halt { IfErr result (AtSyntax (IsRefused (BeforeBrace false) tokens.now at.old at.new)) }
{
    let mut members = Vec::new(alloc);
    expect_word(tokens, at, b"{")?;
    while !accept(tokens, at, b"}") {
        members.push(read_member(alloc, tokens, at)?)?;
    }
    Ok(members)
}

/// A type, a name and arguments.
fn read_method(alloc: Global, tokens: &[Token<'_>], at: &mut usize) -> Result<What, Stop>
    requires { at.old ≤ length tokens.now }
    ensures moves { at.old ≤ at.new }
    ensures inside { at.new ≤ length tokens.now }
    ensures step { BeginWithNone access_word (words_at tokens.now at.old) → IfOk result (Reads IsWhatOf is_assumed_what what_words tokens.now at.old at.new) }
    ensures last { IsTyped (words_at tokens.now at.old) → OnOk result (EndsAt (codes ";") (InLine true) tokens.now at.old at.new) }
    ensures halt { IsTyped (words_at tokens.now at.old) → IfErr result (AtSyntax (IsRefused (InLine true) tokens.now at.old at.new)) }
{
    let kind = read_type(alloc, tokens, at)?;
    let name = read_name(alloc, tokens, at)?;
    let arguments = read_arguments(alloc, tokens, at)?;
    Ok(What::Method {
        result: kind,
        name,
        arguments,
    })
}

/// Which methods a line of an assume rule names.
fn read_assumed_what(alloc: Global, tokens: &[Token<'_>], at: &mut usize) -> Result<What, Stop>
    requires { at.old ≤ length tokens.now }
    ensures moves { at.old ≤ at.new }
    ensures inside { at.new ≤ length tokens.now }
    ensures step { BeginWithNone access_word (words_at tokens.now at.old) → IfOk result (Reads IsWhatOf is_assumed_what what_words tokens.now at.old at.new) }
    ensures last { IsBare (words_at tokens.now at.old) → OnOk result (EndsAt (codes ";") (InLine true) tokens.now at.old at.new) }
    ensures halt { IsBare (words_at tokens.now at.old) → IfErr result (AtSyntax (IsRefused (InLine true) tokens.now at.old at.new)) }
{
    if accept_all(tokens, at) {
        return Ok(What::All);
    }
    if accept(tokens, at, b"<methods>") {
        return Ok(What::Methods);
    }
    read_method(alloc, tokens, at)
}

/// The access words of a line of an assume rule.
fn read_accesses(
    alloc: Global,
    tokens: &[Token<'_>],
    at: &mut usize,
) -> Result<Vec<Condition>, Stop>
    requires { at.old ≤ length tokens.now }
    ensures moves { at.old ≤ at.new }
    ensures inside { at.new ≤ length tokens.now }
    ensures step { IfOk result (λ conditions. ReadsEach IsConditionOf is_plain_condition condition_words tokens.now at.old at.new conditions.items) }
    ensures none { OnOk result (BeginWithNone access_word (words_at tokens.now at.new)) }
    ensures bare { OnOk result (IsBare (words_at tokens.now at.new)) }
    ensures halt { IfErr result (AtSyntax (IsRefused (InLine true) tokens.now at.old at.new)) }
{
    let mut conditions = Vec::new(alloc);
    while let Some((negated, access)) = read_access(tokens, at)? {
        conditions.push(Condition::Access { negated, access })?;
    }
    Ok(conditions)
}

/// A line of an assume rule: access words, methods, and `;`.
fn read_assumed(alloc: Global, tokens: &[Token<'_>], at: &mut usize) -> Result<MemberRule, Stop>
    requires { at.old ≤ length tokens.now }
    ensures moves { at.old ≤ at.new }
    ensures inside { at.new ≤ length tokens.now }
    ensures on { OnOk result (at.old < at.new) }
    ensures step { IfOk result (Reads IsMemberOf is_assumed_rule member_rule_words tokens.now at.old at.new) }
    ensures halt { IfErr result (AtSyntax (IsRefused (InLine true) tokens.now at.old at.new)) }
{
    let conditions = read_accesses(alloc, tokens, at)?;
    let what = read_assumed_what(alloc, tokens, at)?;
    expect_word(tokens, at, b";")?;
    Ok(MemberRule { conditions, what })
}

/// The lines between the braces of an assume rule.
pub fn read_assumed_members(
    alloc: Global,
    tokens: &[Token<'_>],
    at: &mut usize,
) -> Result<Vec<MemberRule>, Stop>
    requires { at.old ≤ length tokens.now }
    ensures moves { at.old ≤ at.new }
    ensures inside { at.new ≤ length tokens.now }
    ensures on { OnOk result (at.old < at.new) }
    ensures step { IfOk result (λ members. Reads (AreEach IsMemberOf) (list_all is_assumed_rule) braces tokens.now at.old at.new members.items) }
    ensures halt { IfErr result (AtSyntax (IsRefused (BeforeBrace true) tokens.now at.old at.new)) }
{
    let mut members = Vec::new(alloc);
    expect_word(tokens, at, b"{")?;
    while !accept(tokens, at, b"}") {
        members.push(read_assumed(alloc, tokens, at)?)?;
    }
    Ok(members)
}
