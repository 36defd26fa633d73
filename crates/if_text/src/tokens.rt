//! Tokens as the grammar of rules sees them where references may stand.

ghost use Rattle.std.specs.Prelude.{◌≡◌, map, codes, nat_eq, IfOk, OnOk};
ghost use Rattle.std.specs.List.{list_any};
ghost use Rattle.rule_text.specs.Spelling.{word_eq};
ghost use Rattle.rule_text.specs.Places.{is_keep};
ghost use Rattle.if_text.specs.Faults.{AreMasked, begins_item};
ghost use Rattle.if_text.specs.Items.{if_word};
ghost use Rattle.if_text.specs.Parts.{has_reference, masked, stand_in};

use crate::parts::{parts_of, some_reference};
use rule_text::{Token, begins_rule, keep_kind};
use std::alloc::{AllocError, Global};

/// Whether the word is `-if`.
pub fn is_if(word: &[u8]) -> bool
    ensures { result ≡ word_eq word.now if_word }
{
    word == b"-if".as_slice()
}

/// Whether some token is `-if`.
pub fn has_if(tokens: &[Token<'_>]) -> bool
    ensures { result ≡ list_any (λ t. word_eq t.word.now if_word) tokens.now }
{
    let mut rest = tokens;
    while let [token, behind @ ..] = rest {
        if is_if(token.word) {
            return true;
        }
        rest = behind;
    }
    false
}

/// Whether the word is a keep option.
pub fn is_keep(word: &[u8]) -> bool
    ensures { result ≡ is_keep word.now }
{
    keep_kind(word).is_some()
}

/// Whether a rule begins with the word, `-if` among them.
pub fn begins_item(word: &[u8]) -> bool
    ensures { result ≡ begins_item word.now }
{
    is_if(word) || begins_rule(word)
}

/// Whether the word has a reference.
fn has_reference(alloc: Global, word: &[u8]) -> Result<bool, AllocError>
    ensures { IfOk result (λ has. has ≡ has_reference word.now) }
{
    let parts = parts_of(alloc, word)?;
    Ok(some_reference(parts.as_slice()))
}

/// A name that fits wherever the word does.
fn stand_in(word: &[u8]) -> &'static [u8]
    ensures { result.now ≡ stand_in word.now }
{
    match word {
        [b'@', ..] => b"@x".as_slice(),
        _ => b"x".as_slice(),
    }
}

/// The word, or a name in place of one with references.
fn masked<'a>(alloc: Global, word: &'a [u8]) -> Result<&'a [u8], AllocError>
    ensures { IfOk result (λ hidden. hidden.now ≡ masked word.now) }
{
    let has = has_reference(alloc, word)?;
    if has { Ok(stand_in(word)) } else { Ok(word) }
}

/// The tokens with names in place of words with references.
pub fn masked_tokens<'a>(alloc: Global, tokens: &[Token<'a>]) -> Result<Vec<Token<'a>>, AllocError>
    ensures { IfOk result (λ hidden. AreMasked tokens.now hidden.items) }
{
    let mut hidden = Vec::new(alloc);
    let mut rest = tokens;
    while let [token, behind @ ..] = rest {
        let word = masked(alloc, token.word)?;
        hidden.push(Token {
            word,
            line: token.line,
        })?;
        rest = behind;
    }
    Ok(hidden)
}
