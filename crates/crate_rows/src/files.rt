//! Files that are read and written.

use dex_read::{DexFault, read_dex};
use dex_write::write_dex;
use program_model::Program;
use program_text::Answer;

/// Adds how many bytes a file has, its first eight bytes, and the bytes at these places.
fn say_file(answer: &mut Answer, file: &[u8], places: &str) {
    let places = answer.numbers(places);
    answer.say_value(&file.len());
    answer.say(" bytes, ");
    answer.say_bytes(file.get(..8).unwrap_or(&[]));
    answer.say(", ");
    answer.begin_list();
    for place in places.as_slice() {
        answer.next();
        let byte = file.get(*place as usize).copied().unwrap_or(0);
        answer.say_number("", i128::from(byte));
    }
    answer.end_list();
}

/// How many bytes the file of a program has, its first eight bytes, and the bytes at these places.
pub fn written(answer: &mut Answer, program: &Program, places: &str) {
    let file = write_dex(answer.alloc(), program);
    if let Some(file) = answer.taken(file) {
        say_file(answer, file.as_slice(), places);
    }
}

/// The fault of a file of so many bytes that begins with some bytes, and has zeros behind them.
pub fn fault(answer: &mut Answer, line: &str) {
    let (digits, size) = answer.split(line, " ");
    let mut file = answer.bytes(digits);
    let size = answer.place(size);
    answer.note(file.resize(size, 0).is_err());
    match read_dex(answer.alloc(), file.as_slice()) {
        Ok(_) => answer.say("read"),
        Err(DexFault::NoMemory) => answer.note(true),
        Err(fault) => answer.say_value(&fault),
    }
}
