//! Programs that are well-formed and those that are not, and how large they are.

use program_model::{Insn, Program, count_cells, well_formed};
use program_text::Answer;

/// A text with a line in place of another one.
pub fn changed(answer: &mut Answer, text: &str, old: &str, new: &str) -> String {
    let mut out = String::new(answer.alloc());
    for line in text.lines() {
        let line = if line.trim() == old { new } else { line };
        answer.note(out.push_str(line).is_err() || out.push_str("\n").is_err());
    }
    out
}

/// Whether a program is well-formed.
pub fn say_formed(answer: &mut Answer, program: &Program) {
    answer.say(if well_formed(program) {
        "well formed"
    } else {
        "ill formed"
    });
}

/// Puts a number into an entry of the tables of types and protos.
fn put_in_proto(program: &mut Program, table: &str, place: usize, number: u32) {
    if table == "type" {
        if let Some(kind) = program.types.items.get_mut(place) {
            *kind = number;
        }
    } else if let Some(proto) = program.protos.items.get_mut(place) {
        if table == "shorty" {
            proto.shorty = number;
        } else if let Some(parameter) = proto.parameters.items.first_mut() {
            *parameter = number;
        }
    }
}

/// Puts a number into an entry of the tables of fields and methods.
fn put_in_member(program: &mut Program, table: &str, place: usize, number: u32) {
    if table == "method-proto" {
        if let Some(method) = program.methods.items.get_mut(place) {
            method.proto = number;
        }
    } else if let Some(field) = program.fields.items.get_mut(place) {
        if table == "field-class" {
            field.class = number;
        } else {
            field.kind = number;
        }
    }
}

/// Puts a number into the calls of some instructions.
fn put_in_calls(insns: &mut [Insn], number: u32) {
    for insn in insns.iter_mut() {
        if let Insn::Invoke { method, .. } = insn {
            *method = number;
        }
    }
}

/// Puts a number into the source of a class, or into the calls of its first method, or cuts that method's lines.
fn put_in_class(program: &mut Program, table: &str, place: usize, number: u32) {
    let Some(class) = program.classes.items.get_mut(place) else {
        return;
    };
    if table == "source" {
        class.source = Some(number);
    } else if let Some(method) = class.methods.items.first_mut() {
        if table == "lines" {
            method.lines.items.truncate(number as usize);
        } else if let Some(body) = &mut method.body {
            put_in_calls(body.insns.items.as_mut_slice(), number);
        }
    }
}

/// Puts a number into an entry of a table.
fn put(program: &mut Program, table: &str, place: usize, number: u32) {
    match table {
        "type" | "shorty" | "parameter" => put_in_proto(program, table, place, number),
        "source" | "call" | "lines" => put_in_class(program, table, place, number),
        _ => put_in_member(program, table, place, number),
    }
}

/// Puts a text in place of a string.
fn put_string(answer: &mut Answer, program: &mut Program, place: usize, word: &str) {
    let text = answer.text_of(word);
    if let Some(string) = program.strings.items.get_mut(place) {
        *string = text;
    }
}

/// Whether a program is well-formed in which an entry of a table has another number: the line has the table, the place and
/// the number, and for a string its text.
pub fn formed_where(answer: &mut Answer, program: &mut Program, line: &str) {
    let mut words = line.split_whitespace();
    let table = words.next().unwrap_or("");
    let place = answer.place(words.next().unwrap_or(""));
    let last = words.next().unwrap_or("");
    if table == "string" {
        put_string(answer, program, place, last);
    } else {
        put(program, table, place, answer.number(last));
    }
    say_formed(answer, program);
}

/// How many cells a program has.
pub fn cells(answer: &mut Answer, program: &Program) {
    answer.say_number("", i128::from(count_cells(program)));
}

/// Whether a copy of a program is the same.
pub fn copy(answer: &mut Answer, program: &Program) {
    if let Some(copy) = answer.taken(program.clone()) {
        answer.say_whether(copy == *program);
    }
}
