//! The commands, and which of them words spell.

ghost use Rattle.std.specs.Prelude.{◌≡◌, IfOk, IfSome, IfNone, Some, map, string_bytes};
ghost use Rattle.command_line.specs.Spelling.{Spells};
ghost use Rattle.command_line.specs.Reading.{command_of};
ghost use Rattle.command_line.specs.declared.command.CommandWords.{CommandWords};

use crate::asked::command_from;
use crate::parse::parse;
use crate::told::sorted_from;
use crate::verb::verb_of;
use crate::word::Word;
use seq::Seq;
use std::alloc::{AllocError, Global};

/// What is told to the advisers.
#[derive(PartialEq, Eq, Debug, Drop)]
pub enum Tell {
    /// `--spare PREFIX`: the methods of classes whose descriptor begins with it are spared.
    Spare(Word),
    /// `--at-most N`: at most so many methods are changed.
    AtMost(u32),
}

/// What `optimise` is asked for.
#[derive(PartialEq, Eq, Debug, Drop)]
pub struct OptimiseWords {
    pub rules: Word,
    pub input: Word,
    pub output: Word,
    /// In the order of the words, with at most one `AtMost`.
    pub tells: Seq<Tell>,
    pub inline: bool,
    pub library: Option<Word>,
}

/// What words spell.
#[derive(PartialEq, Eq, Debug, Drop)]
pub enum CommandWords {
    /// No words at all, which asks for the usage text.
    Nothing,
    /// `optimise RULES IN OUT [--spare PREFIX].. [--at-most N] [--inline] [--library FILE]`
    Optimise(OptimiseWords),
    /// `check IN`
    Check {
        input: Word,
    },
    /// `live RULES IN [--library FILE]`
    Live {
        rules: Word,
        input: Word,
        library: Option<Word>,
    },
    /// `trace RULES IN SCRIPT STEPS [--library FILE]`, with at most 1,000,000 steps
    Trace {
        rules: Word,
        input: Word,
        script: Word,
        steps: u32,
        library: Option<Word>,
    },
    /// `workload N`, with N from 1 to 2,000
    Workload {
        count: u32,
    },
}

fn command_of(alloc: Global, words: &[String]) -> Result<Option<CommandWords>, AllocError>
    ensures { IfOk result (λ answer. answer ≡ command_of (map string_bytes words.now)) }
{
    let [name, rest @ ..] = words else {
        return Ok(Some(CommandWords::Nothing));
    };
    let Some(verb) = verb_of(name.as_str()) else {
        return Ok(None);
    };
    let Some(matches) = parse(alloc, name.as_str(), rest, words)? else {
        return Ok(None);
    };
    match sorted_from(alloc, rest, &matches)? {
        None => Ok(None),
        Some(sorted) => Ok(command_from(verb, sorted)),
    }
}

/// The command that the words spell, or nothing where they spell none. The only error is want of memory.
pub fn read_words(alloc: Global, words: &[String]) -> Result<Option<CommandWords>, AllocError>
    // What is answered is spelled.
    ensures found { IfOk result (λ answer. IfSome answer (Spells (map string_bytes words.now))) }

    // What is spelled is answered, so nothing else is spelled.
    ensures only { IfOk result (λ answer. (c : CommandWords) → Spells (map string_bytes words.now) c → answer ≡ Some c) }

    // Without an answer nothing is spelled.
    ensures none { IfOk result (λ answer. IfNone answer ((c : CommandWords) → ¬ (Spells (map string_bytes words.now) c))) }
{
    command_of(alloc, words)
}
