//! Reading of a text.

ghost use Rattle.std.specs.Prelude.{◌≡◌, ◌+◌, ◌<◌, ◌≤◌, ◌^◌, [], ℕ, List, Vec, true, false, map, suc, take, if◌then◌else◌, length, slice_index_or, OnOk, IfOk, IfErr, MatchOption};
ghost use Rattle.std.specs.declared.alloc.Global.{Global as Heap};
ghost use Rattle.std.specs.List.{list_all};
ghost use Rattle.std.specs.Str.{IsUtf8, IsValidUpTo};
ghost use Rattle.rule_text.specs.Fault.{IsFault};
ghost use Rattle.rule_text.specs.Fronts.{AreTokensOf};
ghost use Rattle.rule_text.specs.declared.stop.Halt.TheVariants.{TooMany};
ghost use Rattle.rule_text.specs.declared.token.Token.{Token as Lexed};
ghost use Rattle.if_text.specs.Faults.{AreMasked, is_if_at, HaltsItem, HaltsItems, IsRefusedAt, IsOptionAt, IsItemFault, HasIfFault, IsIfFault, begins_item};
ghost use Rattle.if_text.specs.Parts.{parts_of};
ghost use Rattle.if_text.specs.Steps.{AddsItem, HaltsKept, ReadsKept, ReadsIf, ReadsFew};
ghost use Rattle.if_text.specs.Readings.{IsIfReading};
ghost use Rattle.if_text.specs.Wildcards.{is_good_in};
ghost use Rattle.if_text.specs.declared.parts.Part.{Part as Parted};

use crate::parts::{Part, parts_of};
use crate::rules::{IfRule, IfRules};
use crate::slots::{Source, is_something, slots_of, source_in};
use crate::tokens::{begins_item, has_if, is_keep, masked_tokens};
use rule_text::{
    Halt, RuleFault, Rules, Stop, Token, Tokens, accept, read_class, read_entry, tokens_of, word_at,
};
use std::alloc::{AllocError, Global};

/// How many rules a text may have.
const MOST_RULES: u32 = 4096;

/// The parts of each word.
fn parts_of_each(alloc: Global, tokens: &[Token<'_>]) -> Result<Vec<Vec<Part>>, AllocError>
    ensures { IfOk result (λ words. map (λ parts. parts.items) words.items ≡ map (λ t. parts_of t.word.now) tokens.now) }
{
    let mut words = Vec::new(alloc);
    let mut rest = tokens;
    while let [token, behind @ ..] = rest {
        words.push(parts_of(alloc, token.word)?)?;
        rest = behind;
    }
    Ok(words)
}

/// Whether a part is none that names nothing.
fn is_good(slots: &[Source], part: Part) -> bool
    ensures { result ≡ is_good_in slots.now part }
{
    match part {
        Part::Byte(_) => true,
        Part::Ref(number) => is_something(source_in(slots, number)),
    }
}

/// Whether each reference of a word names a wildcard.
fn are_good(slots: &[Source], parts: &[Part]) -> bool
    ensures { result ≡ list_all (is_good_in slots.now) parts.now }
{
    let mut rest = parts;
    while let [part, behind @ ..] = rest {
        if !is_good(slots, *part) {
            return false;
        }
        rest = behind;
    }
    true
}

/// The place of the first word with a reference that names none, the number of words where there is none.
fn first_bad(slots: &[Source], words: &[Vec<Part>]) -> usize
    ensures inside { result ≤ length words.now }
    ensures before { list_all (λ parts. list_all (is_good_in slots.now) parts.items) (take result words.now) ≡ true }
    ensures there { (parts : Vec Parted Heap) → result < length words.now → parts ≡ slice_index_or words.now result parts → list_all (is_good_in slots.now) parts.items ≡ false }
{
    let mut at: usize = 0;
    while at < words.len() {
        let good = are_good(slots, words[at].as_slice());
        if !good {
            return at;
        }
        at += 1;
    }
    at
}

/// The words of a keep rule that may have references.
#[tactic(auto, using(crate::proofs::Halts::keep_inside, crate::proofs::Items::same_length, crate::proofs::Halts::entry_halts, crate::proofs::Kept::kept_read))]
fn read_kept(
    alloc: Global,
    tokens: &[Token<'_>],
    hidden: &[Token<'_>],
    slots: &[Source],
    at: &mut usize,
) -> Result<Vec<Vec<Part>>, Halt>
    requires inside { at.old ≤ length tokens.now }
    requires masked { AreMasked tokens.now hidden.now }
    ensures moves { at.old ≤ at.new }
    ensures inside { at.new ≤ length tokens.now }
    ensures step { IfOk result (λ words. ReadsKept tokens.now hidden.now slots.now at.old at.new words) }
    ensures halt { IfErr result (HaltsKept tokens.now hidden.now slots.now at.old at.new) }
{
    let start = *at;
    let keeps = is_keep(word_at(hidden, start));
    if !keeps {
        return Err(Halt::Inside(Stop::Syntax));
    }
    let _rule = read_entry(alloc, hidden, at)?;
    let words = parts_of_each(alloc, &tokens[start..*at])?;
    let bad = first_bad(slots, words.as_slice());
    if bad < words.len() {
        *at = start + bad;
        return Err(Halt::Inside(Stop::Syntax));
    }
    Ok(words)
}

/// A rule with a condition behind its `-if`.
#[tactic(auto, using(crate::proofs::Halts::condition_halts, crate::proofs::Halts::kept_halts, crate::proofs::Halts::reads_if))]
fn read_if(
    alloc: Global,
    tokens: &[Token<'_>],
    hidden: &[Token<'_>],
    at: &mut usize,
) -> Result<IfRule, Halt>
    requires inside { at.old ≤ length tokens.now }
    requires masked { AreMasked tokens.now hidden.now }
    ensures moves { at.old ≤ at.new }
    ensures inside { at.new ≤ length tokens.now }
    ensures step { (begin : ℕ) → at.old ≡ suc begin → is_if_at tokens.now begin ≡ true → IfOk result (ReadsIf tokens.now hidden.now begin at.new) }
    ensures halt { (begin : ℕ) → at.old ≡ suc begin → is_if_at tokens.now begin ≡ true → IfErr result (HaltsItem tokens.now hidden.now begin at.new) }
{
    let condition = read_class(alloc, tokens, at)?;
    let slots = slots_of(alloc, &condition)?;
    let words = read_kept(alloc, tokens, hidden, slots.as_slice(), at)?;
    Ok(IfRule {
        condition,
        slots,
        words,
    })
}

/// Adds a rule with or without a condition, or an option.
#[tactic(auto, using(crate::proofs::Items::adds_entry, crate::proofs::Items::adds_if, crate::proofs::Halts::plain_halts, crate::proofs::Halts::next_is, crate::proofs::Halts::if_there, crate::proofs::Halts::not_if))]
fn read_item(
    alloc: Global,
    tokens: &[Token<'_>],
    hidden: &[Token<'_>],
    at: &mut usize,
    rules: &mut IfRules,
) -> Result<(), Halt>
    requires inside { at.old < length tokens.now }
    requires masked { AreMasked tokens.now hidden.now }
    ensures inside { at.new ≤ length tokens.now }
    ensures on { OnOk result (at.old < at.new) }
    ensures step { OnOk result (AddsItem tokens.now hidden.now at.old at.new rules.old rules.new) }
    ensures halt { IfErr result (HaltsItem tokens.now hidden.now at.old at.new) }
{
    if accept(tokens, at, b"-if") {
        let rule = read_if(alloc, tokens, hidden, at)?;
        rules.ifs.push(rule)?;
        return Ok(());
    }
    let entry = read_entry(alloc, tokens, at)?;
    rules.plain.entries.push(entry)?;
    Ok(())
}

/// How many rules there are with the one that may begin with this word.
fn count_item(word: &[u8], rules: u32) -> Result<u32, Halt>
    requires { rules ≤ MOST_RULES }
    ensures ok { IfOk result (λ count. (count ≡ rules + (if begins_item word.now then 1 else 0)) × (count ≤ MOST_RULES)) }
    ensures err { IfErr result (λ halt. (halt ≡ TooMany) × (begins_item word.now ≡ true) × (rules ≡ MOST_RULES)) }
{
    let begins = begins_item(word);
    if !begins {
        return Ok(rules);
    }
    if rules < MOST_RULES {
        Ok(rules + 1)
    } else {
        Err(Halt::TooMany)
    }
}

/// Adds the rules and options of all tokens. At a fault `at` is its place.
#[tactic(auto, using(crate::proofs::Items::counts_none, crate::proofs::Items::counts_more, crate::proofs::Items::crowded, crate::proofs::Items::halted_item))]
fn read_items(
    alloc: Global,
    tokens: &[Token<'_>],
    hidden: &[Token<'_>],
    at: &mut usize,
    rules: &mut IfRules,
) -> Result<(), Halt>
    requires masked { AreMasked tokens.now hidden.now }
    requires begin { at.old ≡ 0 }
    requires none { rules.old.plain.entries.items ≡ [] }
    requires no_ifs { rules.old.ifs.items ≡ [] }
    ensures step { OnOk result (ReadsFew tokens.now hidden.now (length tokens.now) rules.new) }
    ensures halt { IfErr result (HaltsItems tokens.now hidden.now at.new) }
{
    let mut count: u32 = 0;
    while *at < tokens.len() {
        let more = count_item(word_at(tokens, *at), count)?;
        read_item(alloc, tokens, hidden, at, rules)?;
        count = more;
    }
    Ok(())
}

/// The fault of a token that fits nothing, or of a text that ends too early.
fn syntax_fault(tokens: &Tokens<'_>, at: usize) -> RuleFault
    requires { tokens.now.ends + 1 < 2 ^ 32 }
    ensures { (hidden : List Lexed) → IsRefusedAt tokens.now.items.items hidden at → IsItemFault tokens.now hidden result }
{
    match tokens.items.get(at) {
        Some(token) => RuleFault::Syntax { line: token.line },
        None => RuleFault::Syntax {
            line: tokens.ends + 1,
        },
    }
}

/// The fault of an option that isn't known.
fn option_fault(tokens: &Tokens<'_>, at: usize) -> RuleFault
    requires { tokens.now.ends + 1 < 2 ^ 32 }
    ensures { (hidden : List Lexed) → IsOptionAt tokens.now.items.items hidden at → IsItemFault tokens.now hidden result }
{
    match tokens.items.get(at) {
        Some(token) => RuleFault::Option { line: token.line },
        None => syntax_fault(tokens, at),
    }
}

/// The fault at a token.
fn fault_of(tokens: &Tokens<'_>, at: usize, halt: Halt) -> RuleFault
    requires { tokens.now.ends + 1 < 2 ^ 32 }
    ensures { (hidden : List Lexed) → HaltsItems tokens.now.items.items hidden at halt → IsItemFault tokens.now hidden result }
{
    match halt {
        Halt::Inside(Stop::NoMemory) => RuleFault::NoMemory,
        Halt::Inside(Stop::Syntax) => syntax_fault(tokens, at),
        Halt::Option => option_fault(tokens, at),
        Halt::TooMany => RuleFault::TooMany {
            count: MOST_RULES + 1,
        },
    }
}

/// No rules yet.
fn no_rules(alloc: Global) -> IfRules
    ensures none { result.plain.entries.items ≡ [] }
    ensures no_ifs { result.ifs.items ≡ [] }
{
    IfRules {
        plain: Rules {
            entries: Vec::new(alloc),
        },
        ifs: Vec::new(alloc),
    }
}

/// The rules and options of the tokens of a text with conditions, or their fault.
#[tactic(auto, using(crate::proofs::Items::whole_text, crate::proofs::Texts::fault_in, crate::proofs::Texts::no_memory_in))]
fn read_tokens(alloc: Global, tokens: &Tokens<'_>) -> Result<IfRules, RuleFault>
    requires lines { tokens.now.ends + 1 < 2 ^ 32 }
    ensures ok { (text : List ℕ) → IsUtf8 text → AreTokensOf text tokens.now → IfOk result (IsIfReading text) }
    ensures fault { (text : List ℕ) → IsUtf8 text → AreTokensOf text tokens.now → IfErr result (HasIfFault text) }
{
    let hidden = masked_tokens(alloc, tokens.items.as_slice())?;
    let mut rules = no_rules(alloc);
    let mut at = 0;
    match read_items(
        alloc,
        tokens.items.as_slice(),
        hidden.as_slice(),
        &mut at,
        &mut rules,
    ) {
        Ok(()) => Ok(rules),
        Err(halt) => Err(fault_of(tokens, at, halt)),
    }
}

/// Where the first bytes stand that are not UTF-8, none where all are.
fn bad_byte(text: &[u8]) -> Option<usize>
    ensures { MatchOption result (IsUtf8 text.now) (IsValidUpTo text.now) }
{
    match str::from_utf8(text) {
        Ok(_) => None,
        Err(fault) => Some(fault.valid_up_to()),
    }
}

/// The rules and options of a text that has conditions, or its fault. Bytes that are not UTF-8 come before all other faults.
fn read_with_ifs(alloc: Global, text: &[u8], tokens: &Tokens<'_>) -> Result<IfRules, RuleFault>
    requires lines { tokens.now.ends + 1 < 2 ^ 32 }
    requires tokens { AreTokensOf text.now tokens.now }
    ensures ok { IfOk result (IsIfReading text.now) }
    ensures fault { IfErr result (HasIfFault text.now) }
{
    match bad_byte(text) {
        Some(at) => Err(RuleFault::NotUtf8 { at }),
        None => read_tokens(alloc, tokens),
    }
}

/// The rules and options of a text without conditions, or its fault.
#[tactic(auto, using(crate::proofs::Items::plain_reading))]
fn read_plain(alloc: Global, text: &[u8]) -> Result<IfRules, RuleFault>
    requires { length text.now < 2 ^ 32 }
    ensures ok { IfOk result (IsIfReading text.now) }
    ensures fault { IfErr result (IsFault text.now) }
{
    let plain = rule_text::read_rules(alloc, text)?;
    Ok(IfRules {
        plain,
        ifs: Vec::new(alloc),
    })
}

/// The rules and options of a text, those with a condition apart, or its fault: where no word is `-if` that of a text without conditions, and
/// otherwise bytes that are not UTF-8, or the first place where no rule or option goes on. A reference that names nothing is looked for where
/// its keep rule fits otherwise.
#[tactic(auto, using(crate::proofs::Texts::has_same, crate::proofs::Texts::few_lines, crate::proofs::Texts::no_memory, crate::proofs::Texts::plain_fault, crate::proofs::Texts::if_fault))]
pub fn read_rules(alloc: Global, text: &[u8]) -> Result<IfRules, RuleFault>
    requires { length text.now < 2 ^ 32 }
    ensures ok { IfOk result (IsIfReading text.now) }
    ensures fault { IfErr result (IsIfFault text.now) }
{
    let tokens = tokens_of(alloc, text)?;
    if has_if(tokens.items.as_slice()) {
        return read_with_ifs(alloc, text, &tokens);
    }
    read_plain(alloc, text)
}
