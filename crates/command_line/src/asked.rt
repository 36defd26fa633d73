//! What a command is asked for, from what stands behind its name.

ghost use Rattle.std.specs.Prelude.{◌≡◌, count_by};
ghost use Rattle.command_line.specs.Spelling.{is_at_most};
ghost use Rattle.command_line.specs.Reading.{number_within, optimise_from, with_library, without_options, check_from, live_from, trace_from, workload_from, command_from};

use crate::command::{CommandWords, OptimiseWords, Tell};
use crate::number::read_number;
use crate::sorted::{Sorted, four_words, one_at_most, one_word, three_words, two_words};
use crate::verb::Verb;
use crate::word::Word;
use seq::Seq;

fn count_at_mosts(tells: &[Tell]) -> usize
    ensures { result ≡ count_by is_at_most tells.now }
{
    tells
        .iter()
        .filter(|tell| matches!(tell, Tell::AtMost(_)))
        .count()
}

/// A number from `low` to `high`.
fn number_within(low: u32, high: u32, text: &str) -> Option<u32>
    ensures { result ≡ number_within low high text.now }
{
    let number = read_number(text)?;
    if low as u64 <= number && number <= high as u64 {
        Some(number as u32)
    } else {
        None
    }
}

fn optimise_from(sorted: Sorted) -> Option<OptimiseWords>
    ensures { result ≡ optimise_from sorted }
{
    if count_at_mosts(sorted.tells.as_slice()) > 1 || sorted.inlines > 1 {
        return None;
    }
    let (rules, input, output) = three_words(sorted.plain)?;
    let library = one_at_most(sorted.libraries)?;
    Some(OptimiseWords {
        rules,
        input,
        output,
        tells: sorted.tells,
        inline: sorted.inlines == 1,
        library,
    })
}

/// The plain words and the library, where no other option stands.
fn with_library(sorted: Sorted) -> Option<(Seq<Word>, Option<Word>)>
    ensures { result ≡ with_library sorted }
{
    if sorted.tells.len() > 0 || sorted.inlines > 0 {
        return None;
    }
    let library = one_at_most(sorted.libraries)?;
    Some((sorted.plain, library))
}

/// The plain words, where no option stands.
fn without_options(sorted: Sorted) -> Option<Seq<Word>>
    ensures { result ≡ without_options sorted }
{
    match with_library(sorted)? {
        (plain, None) => Some(plain),
        _ => None,
    }
}

fn check_from(sorted: Sorted) -> Option<CommandWords>
    ensures { result ≡ check_from sorted }
{
    let plain = without_options(sorted)?;
    let input = one_word(plain)?;
    Some(CommandWords::Check { input })
}

fn live_from(sorted: Sorted) -> Option<CommandWords>
    ensures { result ≡ live_from sorted }
{
    let (plain, library) = with_library(sorted)?;
    let (rules, input) = two_words(plain)?;
    Some(CommandWords::Live {
        rules,
        input,
        library,
    })
}

fn trace_from(sorted: Sorted) -> Option<CommandWords>
    ensures { result ≡ trace_from sorted }
{
    let (plain, library) = with_library(sorted)?;
    let (rules, input, script, steps) = four_words(plain)?;
    let steps = number_within(0, 1_000_000, steps.as_str())?;
    Some(CommandWords::Trace {
        rules,
        input,
        script,
        steps,
        library,
    })
}

fn workload_from(sorted: Sorted) -> Option<CommandWords>
    ensures { result ≡ workload_from sorted }
{
    let plain = without_options(sorted)?;
    let count = one_word(plain)?;
    let count = number_within(1, 2_000, count.as_str())?;
    Some(CommandWords::Workload { count })
}

/// What the command is asked for, if its words are such.
pub fn command_from(verb: Verb, sorted: Sorted) -> Option<CommandWords>
    ensures { result ≡ command_from verb sorted }
{
    match verb {
        Verb::Optimise => Some(CommandWords::Optimise(optimise_from(sorted)?)),
        Verb::Check => check_from(sorted),
        Verb::Live => live_from(sorted),
        Verb::Trace => trace_from(sorted),
        Verb::Workload => workload_from(sorted),
    }
}
