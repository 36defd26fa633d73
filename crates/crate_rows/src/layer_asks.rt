//! The words that begin a line which asks.

use crate::{bodies, files, forming, machine, matching, pools, rules, typing};
use program_model::Program;
use program_text::{Answer, program_of};

/// The answer to a line about a program, which is let go in the function below alone.
fn about(answer: &mut Answer, program: &mut Program, first: &str, rest: &str) {
    match first {
        "formed" | "with" => forming::say_formed(answer, program),
        "where" => forming::formed_where(answer, program, rest),
        "cells" => forming::cells(answer, program),
        "copy" => forming::copy(answer, program),
        "kept" => matching::kept(answer, program, rest),
        "verify" => typing::say_typing(answer, program),
        "code" => bodies::read(answer, program, rest),
        "written" => bodies::written(answer, program),
        "file" => files::written(answer, program, rest),
        _ => answer.refuse(),
    }
}

/// The answer to a line about the program of a text.
fn of_text(answer: &mut Answer, text: &str, first: &str, rest: &str) {
    let mut program = program_of(answer, text);
    about(answer, &mut program, first, rest);
}

/// The answer to a line about the program above it, or about that one with a line in place of another one.
fn of_program(answer: &mut Answer, text: &str, first: &str, rest: &str) {
    if first == "with" {
        let (old, new) = answer.split(rest, " | ");
        let changed = forming::changed(answer, text, old, new);
        of_text(answer, changed.as_str(), first, rest);
    } else {
        of_text(answer, text, first, rest);
    }
}

/// The answer to a line on tables and values, or else on the program above it.
fn of_tables(answer: &mut Answer, text: &str, first: &str, rest: &str) {
    match first {
        "tables" => pools::tables(answer, rest),
        "value" => pools::value_of(answer, rest),
        "nested" => pools::nested(answer, rest),
        "annotations" => pools::marks(answer, rest),
        "used" => pools::used(answer, rest),
        "read" => files::fault(answer, rest),
        "starts" => bodies::starts(answer, rest),
        "code" => of_text(answer, "class LA; extends LA;\nmethod m()V", first, rest),
        _ => of_program(answer, text, first, rest),
    }
}

/// The answer to a line.
pub fn answer(answer: &mut Answer, text: &str, line: &str) {
    let (first, rest) = line.split_once(' ').unwrap_or((line, ""));
    match first {
        "rules" => rules::fault(answer, rest),
        "rules-in-bytes" => rules::fault_in_bytes(answer, rest),
        "many-rules" => rules::many(answer, rest),
        "script" => machine::script(answer, rest),
        "long-line" => machine::long_line(answer, rest),
        "events" => machine::events(answer),
        "binary" => machine::operator(answer, rest),
        "literal" => machine::reversed(answer, rest),
        "workload" => machine::workload(answer, rest),
        _ => of_tables(answer, text, first, rest),
    }
}
