//! The words that begin a line.

use crate::desk::{Desk, copied};
use crate::files::{changed, file_of, raw, summed};
use crate::many::{each_cut, each_turn};
use program_text::Answer;
use redex_outside::Fail;

/// The call that fails, and how many bytes it keeps.
fn fail_of(answer: &mut Answer, line: &str) -> Fail {
    let (call, kept) = answer.split(line, " ");
    let call = u64::from(answer.number(call));
    let kept = if kept == "none" {
        None
    } else {
        Some(answer.place(kept))
    };
    Fail { call, kept }
}

/// Says the bytes of a name from one place up to another.
fn show(answer: &mut Answer, desk: &Desk, line: &str) {
    let (name, places) = answer.split(line, " ");
    let (from, to) = answer.split(places, " ");
    let (from, to) = (answer.place(from), answer.place(to));
    match desk.held(name).get(from..to) {
        Some(bytes) => answer.say_bytes(bytes),
        None => answer.refuse(),
    }
}

/// A file with bytes over those from a place on.
fn over(answer: &mut Answer, file: &[u8], line: &str) -> Vec<u8> {
    let (at, words) = answer.split(line, " ");
    let at = answer.place(at);
    let over = raw(answer, words);
    changed(answer, file, at, over.as_slice())
}

/// A file changed as a word says.
fn changed_by(answer: &mut Answer, file: &[u8], first: &str, rest: &str) -> Vec<u8> {
    match first {
        "cut" => {
            let size = answer.place(rest);
            copied(answer, file.get(..size).unwrap_or(file))
        }
        "over" => over(answer, file, rest),
        "sum" => summed(answer, file),
        _ => {
            answer.refuse();
            Vec::new(answer.alloc())
        }
    }
}

/// Puts a file or bytes under a name, or changes the input.
fn put(answer: &mut Answer, desk: &mut Desk, text: &str, first: &str, rest: &str) {
    let (name, file) = match first {
        "library" => (rest, file_of(answer, text)),
        "bytes" => {
            let (name, words) = answer.split(rest, " ");
            (name, raw(answer, words))
        }
        _ => ("in", changed_by(answer, desk.held("in"), first, rest)),
    };
    desk.put(answer, name, file.as_slice());
}

/// Makes ready what a line says.
fn prepare(answer: &mut Answer, desk: &mut Desk, text: &str, first: &str, rest: &str) {
    match first {
        "row:" => desk.begin(answer, text, None),
        "fails" => {
            let fail = fail_of(answer, rest);
            desk.begin(answer, text, Some(fail));
        }
        "rules" | "script" => desk.add_line(answer, first, rest),
        "notes-fail" => desk.saying = Some(fail_of(answer, rest)),
        "forgets" => desk.is_forgetful = true,
        _ => put(answer, desk, text, first, rest),
    }
}

/// Takes a line about a program, and answers whether it asks something; the others only make something ready.
pub fn asks(answer: &mut Answer, desk: &mut Desk, text: &str, line: &str) -> bool {
    let (first, rest) = line.split_once(' ').unwrap_or((line, ""));
    match first {
        "redex" => desk.run(answer, rest),
        "each-cut" => each_cut(answer, desk, rest),
        "each-turn" => each_turn(answer, desk, rest),
        "show" => show(answer, desk, rest),
        _ => {
            prepare(answer, desk, text, first, rest);
            return answer.is_wrong() || answer.lacks_memory();
        }
    }
    true
}
