//! The words that begin a line which asks.

use crate::{advisers, code, domains_asked, edges, flows, lines, maps_asked, shelves, texts};
use command_line::{USAGE, read_words};
use program_text::Answer;
use std::rt::{Env, Files};

/// Adds what words spell.
fn say_command(answer: &mut Answer, words: &[String]) {
    match read_words(answer.alloc(), words) {
        Ok(Some(command)) => answer.say_value(&command),
        Ok(None) => answer.say("none"),
        Err(_) => answer.note(true),
    }
}

/// What the words between brackets spell, of which two blanks have an empty one between them.
fn words(answer: &mut Answer, line: &str) {
    let (_, rest) = answer.split(line, "[");
    let said = rest.strip_suffix(']').unwrap_or("");
    let mut words = Vec::new(answer.alloc());
    for word in said.split(' ') {
        let made = String::from_str(answer.alloc(), word);
        if let Some(word) = answer.taken(made) {
            answer.note(words.push(word).is_err());
        }
    }
    say_command(answer, words.as_slice());
}

/// What no words at all spell.
fn no_words(answer: &mut Answer) {
    answer.say("Some(");
    say_command(answer, &[]);
    answer.say(")");
}

/// The answer to a line about a program.
fn of_program(answer: &mut Answer, text: &str, first: &str, second: &str, third: &str) {
    match first {
        "layout" => code::layout(answer, text, second),
        "goto-over" => code::goto_over(answer, second),
        "if-over" => code::if_over(answer, second),
        "order" => flows::order(answer, second, third),
        "successors" => flows::successors_at(answer, text, second),
        "blocks" => flows::firsts(answer, text),
        _ => answer.refuse(),
    }
}

/// The answer to a line on domains, maps, lines or a program.
fn of_lists(answer: &mut Answer, text: &str, line: &str) {
    let mut pieces = line.split(' ');
    let first = pieces.next().unwrap_or("");
    let second = pieces.next().unwrap_or("");
    let third = pieces.next().unwrap_or("");
    let fourth = pieces.next().unwrap_or("");
    match first {
        "domain" => domains_asked::answer(answer, second, third, fourth),
        "map" => maps_asked::answer(answer, second, third, fourth),
        "lines" => lines::read(answer, second, third, fourth),
        "write-lines" => lines::write(answer, second, third, fourth),
        _ => {
            if !texts::answer(answer, first, second, third, fourth) {
                of_program(answer, text, first, second, third);
            }
        }
    }
}

/// The answer to a line on words, advisers and reads, or else on lists.
fn of_words(answer: &mut Answer, text: &str, line: &str) {
    let (first, rest) = line.split_once(' ').unwrap_or((line, ""));
    match first {
        "words" => words(answer, line),
        "no-words" => no_words(answer),
        "usage" => answer.say_value(&USAGE),
        "insn" => code::insn(answer, rest),
        "budget" => advisers::budget(answer, rest),
        "panel" => advisers::panel(answer, rest),
        "prefixes" => advisers::prefixes(answer, rest),
        "read-all" => edges::read(answer, rest),
        "read-broken" => edges::broken(answer, rest),
        "read-long" => edges::long(answer, rest),
        "write-all" => edges::write(answer, rest),
        _ => of_lists(answer, text, line),
    }
}

/// The answer to a line.
pub fn answer(
    rt: &(impl Files + Env + Print + AllocGlobal),
    answer: &mut Answer,
    text: &str,
    line: &str,
) {
    let (first, rest) = line.split_once(' ').unwrap_or((line, ""));
    match first {
        "memory" => shelves::memory(answer, rest),
        "sure" => shelves::sure(answer, rest),
        "files" => shelves::files(rt, answer, rest),
        "notes" => shelves::notes(answer, rest),
        "standard" => shelves::standard(rt, answer, rest),
        _ => of_words(answer, text, line),
    }
}
