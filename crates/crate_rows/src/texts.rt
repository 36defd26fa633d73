//! Numbers and texts of a file.

use dex_base::{
    BaseFault, Descriptor, adler, compare_units, read_sleb, read_text, read_u16, read_u32,
    read_uleb, split_descriptor, write_sleb, write_text, write_u16, write_u32, write_uleb,
};
use program_text::Answer;

/// Adds a fault as it is said.
fn say_fault(answer: &mut Answer, fault: BaseFault) {
    match fault {
        BaseFault::NoMemory => answer.note(true),
        fault => answer.say_text(&fault),
    }
}

/// Adds a number that was read, and where it ends if that is not where it begins, or the fault.
fn say_read(answer: &mut Answer, read: Result<(i64, usize), BaseFault>, at: usize) {
    match read {
        Ok((number, next)) => {
            answer.say_number("", i128::from(number));
            if next != at {
                answer.say(" up to ");
                answer.say_value(&next);
            }
        }
        Err(fault) => say_fault(answer, fault),
    }
}

/// A number that is read and where it ends, or the fault.
fn read_number(answer: &mut Answer, name: &str, digits: &str, at: usize) {
    let bytes = answer.bytes(digits);
    let bytes = bytes.as_slice();
    let read = match name {
        "uleb" => read_uleb(bytes, at).map(|(number, next)| (i64::from(number), next)),
        "sleb" => read_sleb(bytes, at).map(|(number, next)| (i64::from(number), next)),
        "u16" => read_u16(bytes, at).map(|number| (i64::from(number), at)),
        _ => read_u32(bytes, at).map(|number| (i64::from(number), at)),
    };
    say_read(answer, read, at);
}

/// The bytes of a number behind `ff`.
fn write_number(answer: &mut Answer, name: &str, number: i64) {
    let mut out = Vec::new(answer.alloc());
    let begun = out.push(0xff).is_err();
    let signed = i32::try_from(number).unwrap_or(0);
    let unsigned = u32::try_from(number).unwrap_or(0);
    let written = match name {
        "write-sleb" => write_sleb(&mut out, signed),
        "write-uleb" => write_uleb(&mut out, unsigned),
        "write-u32" => write_u32(&mut out, unsigned),
        _ => write_u16(&mut out, u16::try_from(number).unwrap_or(0)),
    };
    answer.note(begun || written.is_err());
    answer.say_bytes(out.as_slice());
}

/// The bytes of a text behind `ff`.
fn written_text(answer: &mut Answer, word: &str) {
    let mut out = Vec::new(answer.alloc());
    let text = answer.text_of(word);
    let is_lost = out.push(0xff).is_err() || write_text(&mut out, &text).is_err();
    answer.note(is_lost);
    answer.say_bytes(out.as_slice());
}

/// Adds a text of so many units that is read, and where it ends, or the fault.
fn read_units(answer: &mut Answer, digits: &str, at: usize, count: u32) {
    let bytes = answer.bytes(digits);
    match read_text(answer.alloc(), bytes.as_slice(), at, count) {
        Ok((text, next)) => {
            for unit in text.units() {
                answer.say_bytes(&unit.to_be_bytes());
                answer.say(" ");
            }
            answer.say("up to ");
            answer.say_value(&next);
        }
        Err(fault) => say_fault(answer, fault),
    }
}

/// What a descriptor says.
fn descriptor(answer: &mut Answer, word: &str) {
    let text = answer.text_of(word);
    match split_descriptor(&text) {
        Ok(Descriptor::Void) => answer.say("void"),
        Ok(Descriptor::Primitive(letter)) => {
            answer.say("primitive ");
            answer.say_bytes(&[letter]);
        }
        Ok(Descriptor::Class) => answer.say("class"),
        Ok(Descriptor::Array { depth }) => {
            answer.say("array of depth ");
            answer.say_value(&depth);
        }
        Err(fault) => say_fault(answer, fault),
    }
}

/// How two texts are ordered.
fn compare(answer: &mut Answer, a: &str, b: &str) {
    let a = answer.text_of(a);
    let b = answer.text_of(b);
    answer.say_value(&compare_units(&a, &b));
}

/// The answer to a line on numbers or texts; it answers whether it is such a line.
pub fn answer(answer: &mut Answer, first: &str, second: &str, third: &str, fourth: &str) -> bool {
    match first {
        "uleb" | "sleb" | "u16" | "u32" => {
            let at = answer.place(third);
            read_number(answer, first, second, at);
        }
        "text" => {
            let at = answer.place(third);
            let count = answer.number(fourth);
            read_units(answer, second, at, count);
        }
        "adler" => answer.say_bytes(&adler(second.as_bytes()).to_be_bytes()),
        "write-text" => written_text(answer, second),
        "compare" => compare(answer, second, third),
        "descriptor" => descriptor(answer, second),
        "write-uleb" | "write-sleb" | "write-u16" | "write-u32" => {
            let number = second.parse::<i64>().unwrap_or(0);
            write_number(answer, first, number);
        }
        _ => return false,
    }
    true
}
