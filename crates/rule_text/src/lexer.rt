//! From a text of rules to its tokens.

ghost use Rattle.std.specs.Prelude.{◌≡◌, ◌+◌, ◌<◌, ◌≤◌, ◌^◌, length, not, position, IfOk, IfSome};
ghost use Rattle.rule_text.specs.Bytes.{is_mark, is_blank, in_run, in_line, front_len, FrontIsShorter};
ghost use Rattle.rule_text.specs.Fronts.{FrontTells, AreTokensOf, IsWholeLen};

use crate::token::{Token, Tokens};
use std::alloc::{AllocError, Global};

/// What stands at the front of a text, with what is behind it: nothing, the end of a line, a blank or a comment, or a
/// token.
#[derive(Clone, Copy)]
enum Front<'a> {
    End,
    Line(&'a [u8]),
    Gap(&'a [u8]),
    Word(&'a [u8], &'a [u8]),
}

/// Whether the byte is a token by itself.
fn is_mark(byte: u8) -> bool
    ensures { result ≡ is_mark byte }
{
    matches!(byte, b'{' | b'}' | b'(' | b')' | b',' | b';' | b'!')
}

/// Whether the byte stands between tokens.
fn is_blank(byte: u8) -> bool
    ensures { result ≡ is_blank byte }
{
    matches!(byte, b' ' | b'\t' | b'\r' | b'\n')
}

/// Whether the byte is part of a run, which is a token that goes on to the next byte that is none.
fn in_run(byte: u8) -> bool
    ensures { result ≡ in_run byte }
{
    byte != b'#' && !is_mark(byte) && !is_blank(byte)
}

/// Whether the byte is part of a line.
fn in_line(byte: u8) -> bool
    ensures { result ≡ in_line byte }
{
    byte != b'\n'
}

/// Where the first byte stands that is part of no run.
fn run_end(text: &[u8]) -> Option<usize>
    ensures value { result ≡ position (λ c. not (in_run c)) text.now }
    ensures inside { IfSome result (λ at. at < length text.now) }
{
    text.iter().position(|byte| !in_run(*byte))
}

/// Where the line ends.
fn line_end(text: &[u8]) -> Option<usize>
    ensures value { result ≡ position (λ c. not (in_line c)) text.now }
    ensures inside { IfSome result (λ at. at < length text.now) }
{
    text.iter().position(|byte| !in_line(*byte))
}

/// How many bytes of a run stand at the front.
fn run_len(text: &[u8]) -> usize
    ensures value { result ≡ front_len in_run text.now }
    ensures inside { result ≤ length text.now }
{
    match run_end(text) {
        Some(at) => at,
        None => text.len(),
    }
}

/// How many bytes stand at the front before the end of the line.
fn comment_len(text: &[u8]) -> usize
    ensures value { result ≡ front_len in_line text.now }
    ensures inside { result ≤ length text.now }
{
    match line_end(text) {
        Some(at) => at,
        None => text.len(),
    }
}

/// How many bytes are left without the run at the end, of which it is not known how it goes on.
pub fn whole_len(text: &[u8]) -> usize
    ensures whole { IsWholeLen text.now result }
    ensures inside { result ≤ length text.now }
{
    let mut len = text.len();
    while len > 0 {
        if !in_run(text[len - 1]) {
            break;
        }
        len -= 1;
    }
    len
}

/// What stands at the front.
fn read_front(text: &[u8]) -> Front<'_>
    ensures tells { FrontTells text.now result }
    ensures shorter { FrontIsShorter text.now result }
{
    let (first, tail) = match text {
        [] => return Front::End,
        [first, tail @ ..] => (*first, tail),
    };
    if first == b'\n' {
        Front::Line(tail)
    } else if is_blank(first) {
        Front::Gap(tail)
    } else if first == b'#' {
        Front::Gap(&tail[comment_len(tail)..])
    } else if is_mark(first) {
        Front::Word(&text[..1], tail)
    } else {
        let len = run_len(tail);
        Front::Word(&text[..len + 1], &tail[len..])
    }
}

/// The tokens of a text. The only error is want of memory.
pub fn tokens_of(alloc: Global, text: &[u8]) -> Result<Tokens<'_>, AllocError>
    requires { length text.now < 2 ^ 32 }
    ensures { IfOk result (AreTokensOf text.now) }
{
    let mut items = Vec::new(alloc);
    let mut ends: u32 = 0;
    let mut rest = text;
    loop {
        match read_front(rest) {
            Front::End => break,
            Front::Line(behind) => {
                ends += 1;
                rest = behind;
            }
            Front::Gap(behind) => rest = behind,
            Front::Word(word, behind) => {
                items.push(Token {
                    word,
                    line: ends + 1,
                })?;
                rest = behind;
            }
        }
    }
    Ok(Tokens { items, ends })
}
