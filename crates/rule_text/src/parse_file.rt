//! Reading of a whole text.

ghost use Rattle.std.specs.Prelude.{◌≡◌, ◌+◌, ◌<◌, ◌≤◌, ◌^◌, ◌∷◌, ◌++◌, true, false, not, if◌then◌else◌, None, length, codes, IsErr, OnOk, IfOk, IfErr, IfSome, IfNone, MatchOption};
ghost use Rattle.std.specs.Str.{IsUtf8, IsValidUpTo};
ghost use Rattle.rule_text.specs.Fault.{IsFault, IsFaultBy};
ghost use Rattle.rule_text.specs.Faults.{IsReadable};
ghost use Rattle.rule_text.specs.Fronts.{AreTokensOf};
ghost use Rattle.rule_text.specs.Reads.{Reads};
ghost use Rattle.rule_text.specs.Halts.{IsNoNameOf, IsOptionBehind, IsRefusedBehind, HaltsAt, HaltsBefore};
ghost use Rattle.rule_text.specs.declared.stop.Halt.TheVariants.{TooMany};
ghost use Rattle.rule_text.specs.ReadEntries.{IsKeepBehind, IsAssumeBehind, AreWordsBehind, ReadsFew, IsReading};
ghost use Rattle.rule_text.specs.Related.{IsEntryOf};
ghost use Rattle.rule_text.specs.Spelling.{modifier_word, modifier_words, setting_word, keep_word, is_long, is_entry, entry_words, begins_option, begins_rule};
ghost use Rattle.rule_text.specs.Steps.{AtSyntax, BeginOtherwise, BeginWithNone, first_word, words_at};
ghost use Rattle.rule_text.specs.Places.{Between, BehindKeep, BeforeClass};
ghost use Rattle.rule_text.specs.Refusals.{IsRefused, EndsWhole};

use crate::cursor::{accept, advance, expect_word, word_at};
use crate::fault::RuleFault;
use crate::lexer::{tokens_of, whole_len};
use crate::parse_class::{read_class, read_names};
use crate::parse_member::read_assumed_members;
use crate::rules::{AssumeRule, Entry, KeepKind, KeepRule, Modifier, Rules, Setting, SettingName};
use crate::stop::{Halt, Stop};
use crate::token::{Token, Tokens};
use crate::words::{keep_kind, lone_setting, long_setting, modifier};
use std::alloc::{AllocError, Global};

/// How many rules a text may have.
const MOST_RULES: u32 = 4096;

/// A modifier.
fn read_modifier(tokens: &[Token<'_>], at: &mut usize) -> Result<Modifier, Stop>
    requires { at.old ≤ length tokens.now }
    ensures moves { at.old ≤ at.new }
    ensures inside { at.new ≤ length tokens.now }
    ensures step { IfOk result (λ modifier. words_at tokens.now at.old ≡ modifier_word modifier ∷ words_at tokens.now at.new) }
    ensures stays { IsErr result → (at.new ≡ at.old) × BeginWithNone modifier_word (words_at tokens.now at.old) }
{
    match modifier(word_at(tokens, *at)) {
        Some(modifier) => {
            advance(tokens, at);
            Ok(modifier)
        }
        None => Err(Stop::Syntax),
    }
}

/// The modifiers of a keep option, each behind a comma.
fn read_modifiers(
    alloc: Global,
    tokens: &[Token<'_>],
    at: &mut usize,
) -> Result<Vec<Modifier>, Stop>
    requires { at.old ≤ length tokens.now }
    ensures moves { at.old ≤ at.new }
    ensures inside { at.new ≤ length tokens.now }
    ensures step { IfOk result (λ modifiers. words_at tokens.now at.old ≡ modifier_words modifiers.items ++ words_at tokens.now at.new) }
    ensures last { OnOk result (BeginOtherwise (codes ",") (words_at tokens.now at.new)) }
    ensures refused { IfErr result (AtSyntax (IsRefused BehindKeep tokens.now at.old at.new)) }
{
    let mut modifiers = Vec::new(alloc);
    while accept(tokens, at, b",") {
        modifiers.push(read_modifier(tokens, at)?)?;
    }
    Ok(modifiers)
}

/// A keep rule behind its option.
fn read_keep(
    alloc: Global,
    tokens: &[Token<'_>],
    at: &mut usize,
    kind: KeepKind,
) -> Result<KeepRule, Stop>
    requires { at.old ≤ length tokens.now }
    ensures moves { at.old ≤ at.new }
    ensures inside { at.new ≤ length tokens.now }
    ensures step { IfOk result (IsKeepBehind kind tokens.now at.old at.new) }
    ensures whole { OnOk result (EndsWhole BehindKeep tokens.now at.old at.new) }
    ensures refused { IfErr result (AtSyntax (IsRefused BehindKeep tokens.now at.old at.new)) }
{
    let modifiers = read_modifiers(alloc, tokens, at)?;
    let class = read_class(alloc, tokens, at)?;
    Ok(KeepRule {
        kind,
        modifiers,
        class,
    })
}

/// A rule of methods that do nothing, behind its option.
fn read_assume(alloc: Global, tokens: &[Token<'_>], at: &mut usize) -> Result<AssumeRule, Stop>
    requires { at.old ≤ length tokens.now }
    ensures moves { at.old ≤ at.new }
    ensures inside { at.new ≤ length tokens.now }
    ensures step { IfOk result (IsAssumeBehind tokens.now at.old at.new) }
    ensures whole { OnOk result (EndsWhole BeforeClass tokens.now at.old at.new) }
    ensures refused { IfErr result (AtSyntax (IsRefused BeforeClass tokens.now at.old at.new)) }
{
    expect_word(tokens, at, b"class")?;
    let names = read_names(alloc, tokens, at)?;
    let members = read_assumed_members(alloc, tokens, at)?;
    Ok(AssumeRule { names, members })
}

/// Whether an option begins with this token.
fn begins_option(word: &[u8]) -> bool
    ensures { result ≡ begins_option word.now }
{
    matches!(word, [b'-', ..])
}

/// Goes over a word of an option, none where another option begins or the text ends.
fn option_word<'a>(tokens: &[Token<'a>], at: &mut usize) -> Option<&'a [u8]>
    requires { at.old ≤ length tokens.now }
    ensures moves { at.old ≤ at.new }
    ensures inside { at.new ≤ length tokens.now }
    ensures on { IfSome result (λ _. at.old < at.new) }
    ensures step { IfSome result (λ word. words_at tokens.now at.old ≡ word.now ∷ words_at tokens.now at.new) }
    ensures plain { IfSome result (λ word. begins_option word.now ≡ false) }
    ensures stays { IfNone result (at.new ≡ at.old) }
    ensures next { IfNone result (at.new < length tokens.now → begins_option (first_word (words_at tokens.now at.new)) ≡ true) }
{
    let Some(token) = tokens.get(*at) else {
        return None;
    };
    if begins_option(token.word) {
        return None;
    }
    *at += 1;
    Some(token.word)
}

/// The words of an option: the tokens up to one that begins with `-`.
fn read_words(alloc: Global, tokens: &[Token<'_>], at: &mut usize) -> Result<Vec<u8>, AllocError>
    requires { at.old ≤ length tokens.now }
    ensures moves { at.old ≤ at.new }
    ensures inside { at.new ≤ length tokens.now }
    ensures step { IfOk result (λ words. AreWordsBehind tokens.now at.old at.new words.items) }
    ensures next { OnOk result (at.new < length tokens.now → begins_option (first_word (words_at tokens.now at.new)) ≡ true) }
{
    let mut words = Vec::new(alloc);
    while let Some(word) = option_word(tokens, at) {
        words.push(b' ')?;
        words.extend_from_slice(word)?;
    }
    Ok(words)
}

/// The name of an option without words.
fn read_lone(tokens: &[Token<'_>], at: &mut usize) -> Option<SettingName>
    requires { at.old < length tokens.now }
    ensures inside { at.new ≤ length tokens.now }
    ensures on { IfSome result (λ _. at.old < at.new) }
    ensures step { IfSome result (λ name. words_at tokens.now at.old ≡ setting_word name ∷ words_at tokens.now at.new) }
    ensures lone { IfSome result (λ name. is_long name ≡ false) }
    ensures stays { IfNone result (at.new ≡ at.old) }
    ensures none { IfNone result (IsNoNameOf (λ name. not (is_long name)) setting_word (first_word (words_at tokens.now at.old))) }
{
    match lone_setting(word_at(tokens, *at)) {
        Some(name) => {
            advance(tokens, at);
            Some(name)
        }
        None => None,
    }
}

/// The name of an option with words.
fn read_long(tokens: &[Token<'_>], at: &mut usize) -> Option<SettingName>
    requires { at.old < length tokens.now }
    ensures inside { at.new ≤ length tokens.now }
    ensures on { IfSome result (λ _. at.old < at.new) }
    ensures step { IfSome result (λ name. words_at tokens.now at.old ≡ setting_word name ∷ words_at tokens.now at.new) }
    ensures long { IfSome result (λ name. is_long name ≡ true) }
    ensures stays { IfNone result (at.new ≡ at.old) }
    ensures none { IfNone result (IsNoNameOf is_long setting_word (first_word (words_at tokens.now at.old))) }
{
    match long_setting(word_at(tokens, *at)) {
        Some(name) => {
            advance(tokens, at);
            Some(name)
        }
        None => None,
    }
}

/// An option that isn't a rule.
fn read_setting(alloc: Global, tokens: &[Token<'_>], at: &mut usize) -> Result<Entry, Halt>
    requires { at.old < length tokens.now }
    ensures moves { at.old ≤ at.new }
    ensures inside { at.new ≤ length tokens.now }
    ensures on { OnOk result (at.old < at.new) }
    ensures step { IfOk result (Reads IsEntryOf is_entry entry_words tokens.now at.old at.new) }
    ensures whole { OnOk result (EndsWhole Between tokens.now at.old at.new) }
    ensures halt { begins_rule (first_word (words_at tokens.now at.old)) ≡ false → IfErr result (HaltsBefore tokens.now at.old at.new) }
{
    if let Some(name) = read_lone(tokens, at) {
        let words = Vec::new(alloc);
        return Ok(Entry::Setting(Setting { name, words }));
    }
    if let Some(name) = read_long(tokens, at) {
        let words = read_words(alloc, tokens, at)?;
        return Ok(Entry::Setting(Setting { name, words }));
    }
    if begins_option(word_at(tokens, *at)) {
        return Err(Halt::Option);
    }
    Err(Halt::Inside(Stop::Syntax))
}

/// Whether a rule begins with this token.
pub fn begins_rule(word: &[u8]) -> bool
    ensures { result ≡ begins_rule word.now }
{
    if word == b"-assumenosideeffects".as_slice() {
        return true;
    }
    keep_kind(word).is_some()
}

/// A keep option.
fn read_keep_kind(tokens: &[Token<'_>], at: &mut usize) -> Option<KeepKind>
    requires { at.old < length tokens.now }
    ensures inside { at.new ≤ length tokens.now }
    ensures on { IfSome result (λ _. at.old < at.new) }
    ensures step { IfSome result (λ kind. words_at tokens.now at.old ≡ keep_word kind ∷ words_at tokens.now at.new) }
    ensures stays { IfNone result (at.new ≡ at.old) }
    ensures none { IfNone result (IsNoNameOf (λ _. true) keep_word (first_word (words_at tokens.now at.old))) }
{
    match keep_kind(word_at(tokens, *at)) {
        Some(kind) => {
            advance(tokens, at);
            Some(kind)
        }
        None => None,
    }
}

/// A rule or an option.
pub fn read_entry(alloc: Global, tokens: &[Token<'_>], at: &mut usize) -> Result<Entry, Halt>
    requires { at.old < length tokens.now }
    ensures moves { at.old ≤ at.new }
    ensures inside { at.new ≤ length tokens.now }
    ensures on { OnOk result (at.old < at.new) }
    ensures step { IfOk result (Reads IsEntryOf is_entry entry_words tokens.now at.old at.new) }
    ensures whole { OnOk result (EndsWhole Between tokens.now at.old at.new) }
    ensures halt { IfErr result (HaltsBefore tokens.now at.old at.new) }
{
    if accept(tokens, at, b"-assumenosideeffects") {
        let rule = read_assume(alloc, tokens, at)?;
        return Ok(Entry::Assume(rule));
    }
    if let Some(kind) = read_keep_kind(tokens, at) {
        let rule = read_keep(alloc, tokens, at, kind)?;
        return Ok(Entry::Keep(rule));
    }
    read_setting(alloc, tokens, at)
}

/// How many rules there are with the one that may begin with this token.
fn count_rule(word: &[u8], rules: u32) -> Result<u32, Halt>
    requires { rules ≤ MOST_RULES }
    ensures ok { IfOk result (λ count. (count ≡ rules + (if begins_rule word.now then 1 else 0)) × (count ≤ MOST_RULES)) }
    ensures err { IfErr result (λ halt. (halt ≡ TooMany) × (begins_rule word.now ≡ true) × (rules ≡ MOST_RULES)) }
{
    if !begins_rule(word) {
        return Ok(rules);
    }
    if rules < MOST_RULES {
        Ok(rules + 1)
    } else {
        Err(Halt::TooMany)
    }
}

/// The rules and options of all tokens.
fn read_entries(alloc: Global, tokens: &[Token<'_>], at: &mut usize) -> Result<Vec<Entry>, Halt>
    requires { at.old ≤ length tokens.now }
    ensures moves { at.old ≤ at.new }
    ensures inside { at.new ≤ length tokens.now }
    ensures some { IsErr result → 0 < length tokens.now }
    ensures step { IfOk result (λ entries. ReadsFew tokens.now at.old at.new entries.items) }
    ensures all { OnOk result (at.new ≡ length tokens.now) }
    ensures halt { IfErr result (HaltsAt tokens.now at.old at.new) }
{
    let mut entries = Vec::new(alloc);
    let mut rules: u32 = 0;
    while *at < tokens.len() {
        rules = count_rule(word_at(tokens, *at), rules)?;
        entries.push(read_entry(alloc, tokens, at)?)?;
    }
    Ok(entries)
}

/// Where the first bytes stand that are not UTF-8, none where all are.
fn bad_byte(text: &[u8]) -> Option<usize>
    ensures { MatchOption result (IsUtf8 text.now) (IsValidUpTo text.now) }
{
    match str::from_utf8(text) {
        Ok(_) => None,
        Err(fault) => Some(fault.valid_up_to()),
    }
}

/// The bytes of the text up to those that are not UTF-8, without the run that goes on into them.
fn readable(text: &[u8], bad: Option<usize>) -> &[u8]
    requires { MatchOption bad (IsUtf8 text.now) (IsValidUpTo text.now) }
    ensures readable { IsReadable text.now result.now }
    ensures all { bad ≡ None → result.now ≡ text.now }
    ensures short { length result.now ≤ length text.now }
{
    match bad {
        Some(at) => {
            let front = &text[..at];
            &front[..whole_len(front)]
        }
        None => text,
    }
}

/// The fault of a token that fits nothing, or of a text that ends too early: by bytes that are not UTF-8, if there are
/// any.
fn syntax_fault(tokens: &Tokens<'_>, at: usize, bad: Option<usize>) -> RuleFault
    requires lines { tokens.now.ends + 1 < 2 ^ 32 }
    requires refused { IsRefusedBehind tokens.now.items.items 0 at }
    ensures { IsFaultBy tokens.now bad result }
{
    match tokens.items.get(at) {
        Some(token) => RuleFault::Syntax { line: token.line },
        None => match bad {
            Some(at) => RuleFault::NotUtf8 { at },
            None => RuleFault::Syntax {
                line: tokens.ends + 1,
            },
        },
    }
}

/// The fault of an option that isn't known. It stands at a token; the end of the text is no option.
fn option_fault(tokens: &Tokens<'_>, at: usize, bad: Option<usize>) -> RuleFault
    requires lines { tokens.now.ends + 1 < 2 ^ 32 }
    requires option { IsOptionBehind tokens.now.items.items 0 at }
    ensures { IsFaultBy tokens.now bad result }
{
    match tokens.items.get(at) {
        Some(token) => RuleFault::Option { line: token.line },
        None => syntax_fault(tokens, at, bad),
    }
}

/// The fault at a token.
fn fault_of(tokens: &Tokens<'_>, at: usize, halt: Halt, bad: Option<usize>) -> RuleFault
    requires lines { tokens.now.ends + 1 < 2 ^ 32 }
    requires halt { HaltsAt tokens.now.items.items 0 at halt }
    ensures { IsFaultBy tokens.now bad result }
{
    match halt {
        Halt::Inside(Stop::NoMemory) => RuleFault::NoMemory,
        Halt::Inside(Stop::Syntax) => syntax_fault(tokens, at, bad),
        Halt::Option => option_fault(tokens, at, bad),
        Halt::TooMany => RuleFault::TooMany {
            count: MOST_RULES + 1,
        },
    }
}

/// The rules and options of a text, or its first fault. Bytes that are not UTF-8 are a fault behind all tokens that
/// end before them; the end of a text that ends too early comes last.
pub fn read_rules(alloc: Global, text: &[u8]) -> Result<Rules, RuleFault>
    requires { length text.now < 2 ^ 32 }
    ensures ok { IfOk result (IsReading text.now) }
    ensures fault { IfErr result (IsFault text.now) }
{
    let bad = bad_byte(text);
    let tokens = tokens_of(alloc, readable(text, bad))?;
    let mut at = 0;
    match read_entries(alloc, tokens.items.as_slice(), &mut at) {
        Ok(entries) => match bad {
            None => Ok(Rules { entries }),
            Some(at) => Err(RuleFault::NotUtf8 { at }),
        },
        Err(halt) => Err(fault_of(&tokens, at, halt, bad)),
    }
}
