//! The words that begin a line which asks.

use crate::kept::kept;
use crate::{graph, live};
use hierarchy::Hierarchy;
use program_model::{Outside, Program};
use program_text::{Answer, print, program_of};

/// The answer to a line that keeps something and asks what is reached.
fn of_kept(
    answer: &mut Answer,
    program: &Program,
    tables: &Hierarchy,
    outside: &Outside,
    first: &str,
) {
    match first {
        "live" => live::members(answer, program, tables, outside),
        "calls" => live::calls(answer, program, tables, outside),
        "closed" => live::closed(answer, program, tables, outside),
        "left" => live::left(answer, program, tables, outside),
        _ => answer.refuse(),
    }
}

/// The answer to a line that asks something of a program's class graph.
fn of_classes(
    answer: &mut Answer,
    program: &Program,
    tables: &Hierarchy,
    outside: &Outside,
    line: &str,
) {
    let mut words = line.split_whitespace();
    let first = words.next().unwrap_or("");
    let second = words.next().unwrap_or("");
    let third = words.next().unwrap_or("");
    match first {
        "graph" => answer.say("fine"),
        "subclasses" => graph::subclasses(answer, program, tables, second),
        "under" => graph::under(answer, program, tables, second, third),
        "resolves" => graph::resolved(answer, program, tables, second),
        "overriders" => graph::overriders(answer, program, tables, second),
        "trivial" => graph::trivial(answer, program, tables, second),
        _ => of_kept(answer, program, tables, outside, first),
    }
}

/// What the words of a line keep, where it begins with a word that keeps something.
fn kept_by(answer: &mut Answer, program: &Program, first: &str, line: &str) -> Outside {
    match first {
        "live" | "calls" | "closed" | "left" | "rounds" => kept(answer, program, line),
        _ => kept(answer, program, ""),
    }
}

/// The answer to a line. The class graph is made and let go in this function alone: each function that lets it go costs
/// the proof of that.
fn of_program(answer: &mut Answer, program: &Program, outside: &Outside, line: &str) {
    match Hierarchy::build(answer.alloc(), program) {
        Ok(tables) => of_classes(answer, program, &tables, outside, line),
        Err(fault) => graph::say_fault(answer, program, fault),
    }
}

/// The answer to a line about the program of a text.
pub fn answer(answer: &mut Answer, text: &str, line: &str) {
    let program = program_of(answer, text);
    let first = line.split_whitespace().next().unwrap_or("");
    let outside = kept_by(answer, &program, first, line);
    match first {
        "print" => print(answer, &program),
        "rounds" => live::rounds(answer, &program, &outside),
        _ => of_program(answer, &program, &outside, line),
    }
}
