//! The words behind a command, as clap parses them.

ghost use Rattle.std.specs.Prelude.{◌≡◌, ◌≢◌, ◌∷◌, IfOk, MatchOption, None, false, map, string_bytes};
ghost use Rattle.clap.specs.Matches.{found_of};
ghost use Rattle.clap.specs.Simple.{app_of};
ghost use Rattle.clap.specs.Values.{kind_of};
ghost use Rattle.clap.specs.Walk.{rule_of, rows_of};
ghost use Rattle.command_line.specs.Parsing.{operand_rule, valued_rule, flag_rule, app_for, has_one_dash, are_apt, IsParsed};
ghost use Rattle.command_line.specs.Reading.{said};

use clap::builder::ValueParser;
use clap::error::ErrorKind;
use clap::{Arg, ArgAction, ArgMatches, Command, Error};
use std::alloc::{AllocError, Global};

/// The operands, which are not empty.
fn operand<'a>(alloc: Global) -> Arg<'a>
    ensures rule { rule_of result ≡ operand_rule }
    ensures local { result.global ≡ false }
{
    Arg::new(alloc, "operand")
        .action(ArgAction::Append)
        .value_parser(ValueParser::NonEmptyString)
}

/// `--name VALUE`, whose value is not empty.
fn valued<'a>(alloc: Global, name: &'a str) -> Arg<'a>
    ensures rule { rule_of result ≡ valued_rule name.entry.now }
    ensures local { result.global ≡ false }
{
    Arg::new(alloc, name)
        .long(name)
        .action(ArgAction::Append)
        .value_parser(ValueParser::NonEmptyString)
}

/// `--name`. Each use of it is listed as its name.
fn flag<'a>(alloc: Global, name: &'a str) -> Arg<'a>
    ensures rule { rule_of result ≡ flag_rule name.entry.now }
    ensures local { result.global ≡ false }
{
    Arg::new(alloc, name)
        .long(name)
        .action(ArgAction::Append)
        .num_args(0)
        .default_missing_value(name)
        .value_parser(ValueParser::NonEmptyString)
}

/// The command of this name: operands, and the options of all commands, each as often as it comes.
fn command<'a>(alloc: Global, name: &'a str) -> Result<Command<'a>, AllocError>
    ensures { IfOk result (λ c. app_of c ≡ app_for name.entry.now) }
{
    Command::new(alloc, name)
        .disable_help_flag(true)
        .arg(operand(alloc))?
        .arg(valued(alloc, "spare"))?
        .arg(valued(alloc, "at-most"))?
        .arg(valued(alloc, "library"))?
        .arg(flag(alloc, "inline"))
}

/// Whether the word begins with one `-`. clap takes `-` itself for an operand or a value.
fn has_one_dash(word: &str) -> bool
    ensures { result ≡ has_one_dash word.now }
{
    match word.as_bytes() {
        [b'-'] => true,
        [b'-', next, ..] => *next != b'-',
        _ => false,
    }
}

/// Whether no word before `--` begins with one `-`.
fn are_apt(words: &[String]) -> bool
    ensures { result ≡ are_apt (map string_bytes words.now) }
{
    for word in words {
        if word.as_str() == "--" {
            return true;
        }
        if has_one_dash(word.as_str()) {
            return false;
        }
    }
    true
}

/// Whether clap found no memory.
fn lacks_memory(error: &Error) -> bool
    ensures { result ≡ false → kind_of error.now ≢ ErrorKind.OutOfMemory }
{
    match error.kind() {
        ErrorKind::OutOfMemory => true,
        _ => false,
    }
}

/// What clap finds in the words, of which the first is the command; nothing where they say nothing. The only error is
/// want of memory.
pub fn parse<'a>(
    alloc: Global,
    name: &'a str,
    rest: &[String],
    words: &'a [String],
) -> Result<Option<ArgMatches<'a>>, AllocError>
    requires whole { map string_bytes words.now ≡ name.now ∷ map string_bytes rest.now }
    ensures { IfOk result (λ r. MatchOption r (said (map string_bytes rest.now) ≡ None) (λ m. IsParsed (map string_bytes rest.now) (rows_of (found_of m)))) }
{
    if !are_apt(rest) {
        return Ok(None);
    }
    match command(alloc, name)?.try_get_matches_from(words) {
        Ok(matches) => Ok(Some(matches)),
        Err(error) => {
            if lacks_memory(&error) {
                Err(AllocError)
            } else {
                Ok(None)
            }
        }
    }
}
