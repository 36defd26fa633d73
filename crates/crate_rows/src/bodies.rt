//! Code that is read and written.

use code_read::{CodeFault, Sizes, read_body, read_code};
use code_write::write_body;
use program_model::{Body, Program, Renumber};
use program_text::{Answer, first_body, say_body};
use relax::{LayFault, Layout, lay_out};
use std::alloc::Global;

/// What a line has of a code item.
#[derive(Drop)]
struct Spelled {
    units: Vec<u16>,
    tries: Vec<u8>,
    sizes: Sizes,
}

/// Units of four digits each.
fn units(answer: &mut Answer, digits: &str) -> Vec<u16> {
    let bytes = answer.bytes(digits);
    let mut units = Vec::new(answer.alloc());
    let mut high: u16 = 0;
    let mut is_second = false;
    for byte in bytes.as_slice() {
        high = high.wrapping_mul(256) | u16::from(*byte);
        if is_second {
            answer.note(units.push(high).is_err());
        }
        is_second = !is_second;
    }
    units
}

/// The number of 16 bits that a word spells.
fn short(answer: &mut Answer, word: &str) -> u16 {
    let number = answer.number(word);
    u16::try_from(number).unwrap_or(0)
}

/// A code item in a file of one type and one method, with no parameters: how many registers, try items and items there may
/// be, units, and the bytes of the try items and their handlers.
fn code_in(answer: &mut Answer, line: &str) -> Spelled {
    let mut words = line.split_whitespace();
    let registers = short(answer, words.next().unwrap_or(""));
    let tries = short(answer, words.next().unwrap_or(""));
    let items = answer.number(words.next().unwrap_or(""));
    Spelled {
        units: units(answer, words.next().unwrap_or("")),
        tries: answer.bytes(words.next().unwrap_or("")),
        sizes: Sizes {
            registers,
            ins: 0,
            tries,
            strings: 0,
            types: 1,
            fields: 0,
            methods: 1,
            items,
        },
    }
}

/// Adds a fault as it is said.
fn say_fault(answer: &mut Answer, fault: CodeFault) {
    match fault {
        CodeFault::NoMemory => answer.note(true),
        fault => answer.say_value(&fault),
    }
}

/// Adds the code that is read, in which the type and the method are those of a program.
fn say_read(answer: &mut Answer, program: &Program, read: Result<Body, CodeFault>) {
    match read {
        Ok(body) => {
            answer.say("\n");
            say_body(answer, program, &body);
            answer.cut_end(0);
        }
        Err(fault) => say_fault(answer, fault),
    }
}

/// The code that is read.
pub fn read(answer: &mut Answer, program: &Program, line: &str) {
    let spelled = code_in(answer, line);
    let (units, tries) = (spelled.units.as_slice(), spelled.tries.as_slice());
    if units.len() > 1000 {
        answer.refuse();
        return;
    }
    let read = read_body(answer.alloc(), units, tries, &spelled.sizes);
    say_read(answer, program, read);
}

/// Where the instructions that are read begin.
pub fn starts(answer: &mut Answer, line: &str) {
    let spelled = code_in(answer, line);
    let (units, tries) = (spelled.units.as_slice(), spelled.tries.as_slice());
    if units.len() > 1000 {
        answer.refuse();
        return;
    }
    match read_code(answer.alloc(), units, tries, &spelled.sizes) {
        Ok((_, starts)) => answer.say_numbers(starts.as_slice()),
        Err(fault) => say_fault(answer, fault),
    }
}

/// Numbers that stay as they are: no table gives another one.
fn same_numbers(alloc: Global) -> Renumber {
    Renumber {
        strings: Vec::new(alloc),
        types: Vec::new(alloc),
        protos: Vec::new(alloc),
        fields: Vec::new(alloc),
        methods: Vec::new(alloc),
    }
}

/// Adds the bytes of a body with a layout.
fn say_code(answer: &mut Answer, body: &Body, layout: &Layout, numbers: &Renumber) {
    let code = write_body(answer.alloc(), body, layout, numbers);
    if let Some(code) = answer.taken(code) {
        answer.say_number("outs ", i128::from(code.outs));
        answer.say(", ");
        answer.say_bytes(code.bytes.as_slice());
    }
}

/// Adds the bytes of a body.
fn say_bytes(answer: &mut Answer, body: &Body) {
    let numbers = same_numbers(answer.alloc());
    match lay_out(answer.alloc(), body, &numbers) {
        Ok(layout) => say_code(answer, body, &layout, &numbers),
        Err(LayFault::NoMemory) => answer.note(true),
        Err(_) => answer.refuse(),
    }
}

/// The bytes of the first method's code.
pub fn written(answer: &mut Answer, program: &Program) {
    match first_body(program) {
        Some(body) => say_bytes(answer, body),
        None => answer.refuse(),
    }
}
