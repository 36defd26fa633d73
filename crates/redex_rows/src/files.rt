//! Files from text, and changed files.

use dex_base::{adler, write_u32};
use dex_read::{DexFault, read_dex};
use dex_write::write_dex;
use program_text::{Answer, print, program_of};

/// Where the checksum stands, and where what it is of begins.
const CHECKSUM: usize = 8;

const SUMMED: usize = 12;

/// The bytes of words: hexadecimal digits, and `+N` for N zeros.
pub fn raw(answer: &mut Answer, words: &str) -> Vec<u8> {
    let mut file = Vec::new(answer.alloc());
    for word in words.split_whitespace() {
        match word.strip_prefix('+') {
            Some(count) => {
                let size = file.len().saturating_add(answer.place(count));
                answer.note(file.resize(size, 0).is_err());
            }
            None => {
                let bytes = answer.bytes(word);
                answer.note(file.extend_from_slice(bytes.as_slice()).is_err());
            }
        }
    }
    file
}

/// The file of a program's text.
fn written(answer: &mut Answer, text: &str) -> Vec<u8> {
    let program = program_of(answer, text);
    let file = write_dex(answer.alloc(), &program);
    match answer.taken(file) {
        Some(file) => file,
        None => Vec::new(answer.alloc()),
    }
}

/// The file of a program's text, or that of words of digits.
pub fn file_of(answer: &mut Answer, text: &str) -> Vec<u8> {
    if text.starts_with("  ") {
        raw(answer, text)
    } else {
        written(answer, text)
    }
}

/// Says in lines what the output is: the classes of the program that it spells, or its bytes where it spells none.
pub fn say_file(answer: &mut Answer, file: &[u8]) {
    match read_dex(answer.alloc(), file) {
        Ok(program) => {
            answer.say("out has these classes\n");
            print(answer, &program);
        }
        Err(DexFault::NoMemory) => answer.note(true),
        Err(_) => {
            answer.say("out has the bytes (");
            answer.say_bytes(file);
            answer.say(")\n");
        }
    }
}

/// The file with these bytes over those from a place on.
pub fn changed(answer: &mut Answer, file: &[u8], at: usize, over: &[u8]) -> Vec<u8> {
    let (front, rest) = file.split_at(at.min(file.len()));
    let rest = rest.get(over.len()..).unwrap_or(&[]);
    let mut result = Vec::new(answer.alloc());
    for part in [front, over, rest] {
        answer.note(result.extend_from_slice(part).is_err());
    }
    result
}

/// The file with its checksum made right (Dalvik executable format, "header_item").
pub fn summed(answer: &mut Answer, file: &[u8]) -> Vec<u8> {
    let mut sum = Vec::new(answer.alloc());
    let added = write_u32(&mut sum, adler(file.get(SUMMED..).unwrap_or(&[])));
    answer.note(added.is_err());
    changed(answer, file, CHECKSUM, sum.as_slice())
}
