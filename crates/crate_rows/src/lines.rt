//! Tables of source lines.

ghost use Rattle.std.specs.Prelude.{◌<◌, ◌^◌, IsTrue};
ghost use Rattle.std.specs.List.{AllByRecursion};
ghost use Rattle.line_tables.specs.Text.{AscendsFrom};

use line_tables::{read_lines, write_lines};
use program_text::Answer;

/// Whether the starts ascend strictly from one on.
fn ascend(low: u32, starts: &[u32]) -> bool
    ensures { IsTrue result → AscendsFrom low starts.now }
{
    match starts {
        [] => true,
        [first, rest @ ..] => low <= *first && *first < 0x8000_0000 && ascend(*first + 1, rest),
    }
}

/// Whether there are no lines past the greatest.
fn are_low(lines: &[u32]) -> bool
    ensures { IsTrue result → AllByRecursion (λ x. x < 2 ^ 31) lines.now }
{
    match lines {
        [] => true,
        [first, rest @ ..] => *first < 0x8000_0000 && are_low(rest),
    }
}

/// Adds the bytes of a table behind `ff`.
fn say_written(answer: &mut Answer, lines: &[u32], starts: &[u32], parameters: u32) {
    let are_fine = ascend(0, starts) && are_low(lines);
    if !are_fine || lines.len() != starts.len() {
        answer.refuse();
        return;
    }
    let mut out = Vec::new(answer.alloc());
    let is_lost = out.push(0xff).is_err()
        || write_lines(&mut out, lines, starts, parameters).is_err();
    answer.note(is_lost);
    answer.say_bytes(out.as_slice());
}

/// The bytes of a table behind `ff`: lines, starts and how many parameters there are.
pub fn write(answer: &mut Answer, lines: &str, starts: &str, parameters: &str) {
    let lines = answer.numbers(lines);
    let starts = answer.numbers(starts);
    let parameters = answer.number(parameters);
    say_written(answer, lines.as_slice(), starts.as_slice(), parameters);
}

/// Adds the lines that bytes from the second one on give to starts, and how many opcodes are read, of at most so many.
fn say_read(answer: &mut Answer, bytes: &[u8], starts: &[u32], most: u32) {
    let read = read_lines(answer.alloc(), bytes, 1, starts, most);
    if let Some(read) = answer.taken(read) {
        answer.say_number("", i128::from(read.opcodes));
        match &read.lines {
            Some(lines) => {
                answer.say(" opcodes, lines ");
                answer.say_numbers(lines.as_slice());
            }
            None => answer.say(" opcodes, no lines"),
        }
    }
}

/// The lines that bytes from the second one on give to starts, and how many opcodes are read, of at most so many.
pub fn read(answer: &mut Answer, digits: &str, starts: &str, most: &str) {
    let bytes = answer.bytes(digits);
    let starts = answer.numbers(starts);
    let most = answer.number(most);
    say_read(answer, bytes.as_slice(), starts.as_slice(), most);
}
