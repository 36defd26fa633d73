//! What clap's matches say, with what is told in the order of the words.

ghost use Rattle.std.specs.Prelude.{◌≡◌, ◌++◌, [], ◌∷◌, IfOk, OnOk, MatchOption, map, option_and_then, option_map, string_bytes};
ghost use Rattle.std.specs.Vec.Iter.{into_iter_items};
ghost use Rattle.clap.specs.Matches.{found_of};
ghost use Rattle.clap.specs.Walk.{rows_of};
ghost use Rattle.command_line.specs.Spelling.{sorted_of};
ghost use Rattle.command_line.specs.Parsing.{after_front, listed, names, rest_of, tell_numbers, tell_spares, tells_in, IsParsed};
ghost use Rattle.command_line.specs.Reading.{numbers_of, said, small, number_of};

use crate::command::Tell;
use crate::number::read_number;
use crate::sorted::Sorted;
use crate::word::Word;
use clap::ArgMatches;
use seq::Seq;
use std::alloc::{AllocError, Global};
use std::vec::IntoIter;

/// Adds copies of the texts.
fn push_words(alloc: Global, out: &mut Vec<Word>, texts: &[&str]) -> Result<(), AllocError>
    ensures { OnOk result (out.new.items ≡ out.old.items ++ map (λ text. text.now) texts.now) }
{
    for text in texts {
        out.push(Word::from_str(alloc, text)?)?;
    }
    Ok(())
}

/// The values of an option or of the operands, in the order of the words.
#[tactic(auto, using(crate::proofs::Lists::listed_some, crate::proofs::Lists::listed_none))]
fn words_of(alloc: Global, matches: &ArgMatches<'_>, id: &str) -> Result<Vec<Word>, AllocError>
    ensures { IfOk result (λ words. words.items ≡ listed id.now (rows_of (found_of matches.now))) }
{
    let mut words = Vec::new(alloc);
    if let Some(texts) = matches.get_strs(id) {
        push_words(alloc, &mut words, texts)?;
    }
    Ok(words)
}

/// A number of 32 bits in one to ten decimal digits.
fn small_number(text: &str) -> Option<u32>
    ensures { result ≡ option_and_then small (number_of text.now) }
{
    let number = read_number(text)?;
    if number <= u32::MAX as u64 {
        Some(number as u32)
    } else {
        None
    }
}

/// The numbers that the texts write, or nothing if one is no such text.
fn numbers_of(alloc: Global, texts: &[Word]) -> Result<Option<Vec<u32>>, AllocError>
    ensures { IfOk result (λ r. option_map (λ numbers. numbers.items) r ≡ numbers_of texts.now) }
{
    let mut numbers = Vec::new(alloc);
    for text in texts {
        let Some(number) = small_number(text.as_str()) else {
            return Ok(None);
        };
        numbers.push(number)?;
    }
    Ok(Some(numbers))
}

/// What follows `front` in the word.
fn after_front<'a>(word: &'a str, front: &str) -> Option<&'a str>
    ensures { option_map (λ rest. rest.now) result ≡ after_front front.now word.now }
{
    word.strip_prefix(front)
}

/// Whether the word is the option, alone or with `=` and a value.
fn names(word: &str, option: &str) -> bool
    ensures { result ≡ names option.now word.now }
{
    match after_front(word, option) {
        None => false,
        Some(rest) => match rest.as_bytes() {
            [] => true,
            [first, ..] => *first == b'=',
        },
    }
}

/// The next item.
fn next_of<T: Drop>(items: &mut IntoIter<T>) -> Option<T>
    ensures { MatchOption result ((into_iter_items items.old ≡ []) × (into_iter_items items.new ≡ [])) (λ item. into_iter_items items.old ≡ item ∷ into_iter_items items.new) }
{
    items.next()
}

/// Adds the next prefix, where there is one.
fn push_spare(tells: &mut Vec<Tell>, spares: &mut IntoIter<Word>) -> Result<(), AllocError>
    ensures told { OnOk result (tells.new.items ≡ tells.old.items ++ tell_spares (into_iter_items spares.old)) }
    ensures rest { OnOk result (into_iter_items spares.new ≡ rest_of (into_iter_items spares.old)) }
{
    if let Some(prefix) = next_of(spares) {
        tells.push(Tell::Spare(prefix))?;
    }
    Ok(())
}

/// Adds the next number, where there is one.
fn push_number(tells: &mut Vec<Tell>, numbers: &mut IntoIter<u32>) -> Result<(), AllocError>
    ensures told { OnOk result (tells.new.items ≡ tells.old.items ++ tell_numbers (into_iter_items numbers.old)) }
    ensures rest { OnOk result (into_iter_items numbers.new ≡ rest_of (into_iter_items numbers.old)) }
{
    if let Some(number) = next_of(numbers) {
        tells.push(Tell::AtMost(number))?;
    }
    Ok(())
}

/// What is told, in the order of the words. clap keeps the order of the prefixes and that of the numbers, so each word
/// that is one of the two options takes the next one of its own.
fn tells_in(
    alloc: Global,
    words: &[String],
    spares: Vec<Word>,
    numbers: Vec<u32>,
) -> Result<Vec<Tell>, AllocError>
    ensures { IfOk result (λ tells. tells.items ≡ tells_in (map string_bytes words.now) spares.items numbers.items) }
{
    let mut tells = Vec::new(alloc);
    let mut spares = spares.into_iter();
    let mut numbers = numbers.into_iter();
    for word in words {
        if word.as_str() == "--" {
            return Ok(tells);
        }
        if names(word.as_str(), "--spare") {
            push_spare(&mut tells, &mut spares)?;
        } else if names(word.as_str(), "--at-most") {
            push_number(&mut tells, &mut numbers)?;
        }
    }
    Ok(tells)
}

/// What the words say, from what clap found in them; nothing where a number is none. The only error is want of memory.
pub fn sorted_from(
    alloc: Global,
    words: &[String],
    matches: &ArgMatches<'_>,
) -> Result<Option<Sorted>, AllocError>
    requires { IsParsed (map string_bytes words.now) (rows_of (found_of matches.now)) }
    ensures { IfOk result (λ r. r ≡ option_map sorted_of (said (map string_bytes words.now))) }
{
    let at_mosts = words_of(alloc, matches, "at-most")?;
    let Some(numbers) = numbers_of(alloc, at_mosts.as_slice())? else {
        return Ok(None);
    };
    let spares = words_of(alloc, matches, "spare")?;
    let tells = tells_in(alloc, words, spares, numbers)?;
    let plain = words_of(alloc, matches, "operand")?;
    let inlines = words_of(alloc, matches, "inline")?;
    let libraries = words_of(alloc, matches, "library")?;
    Ok(Some(Sorted {
        plain: Seq::of_vec(plain),
        tells: Seq::of_vec(tells),
        inlines: inlines.len(),
        libraries: Seq::of_vec(libraries),
    }))
}
