//! Runs on many changed files.

use crate::desk::{Desk, copied};
use crate::files::{changed, summed};
use program_text::Answer;

/// Adds what a run answers on a beginning of so many bytes, in a line of its own.
fn say_cut(answer: &mut Answer, length: usize, cut: &str) {
    if !answer.text().is_empty() {
        answer.say("\n");
    }
    answer.say("from ");
    answer.say_value(&length);
    answer.say(" on it ");
    answer.say(cut);
}

/// What a run answers on each shorter beginning of the file, said once for all lengths, one behind the other, for which it is
/// the same.
pub fn each_cut(answer: &mut Answer, desk: &mut Desk, words: &str) {
    let file = copied(answer, desk.held("in"));
    let mut one = Answer::new(answer.alloc());
    let mut last = Answer::new(answer.alloc());
    for length in 0..file.len() {
        desk.put(answer, "in", file.as_slice().get(..length).unwrap_or(&[]));
        one.clear();
        desk.run(&mut one, words);
        if one.text() != last.text() {
            say_cut(answer, length, one.text());
            last.clear();
            last.say(one.text());
        }
    }
    answer.note(one.lacks_memory() || last.lacks_memory());
}

/// Whether a run was done, or was refused for the file or a limit and left the output.
fn is_harmless(answer: &str) -> bool {
    let is_refused = answer.starts_with("ends with 3") || answer.starts_with("ends with 4");
    answer.starts_with("ends with 0") || is_refused && !answer.contains("\nout ")
}

/// Whether the run on the file with a byte in place of another one and its checksum made right is harmless.
fn is_turn_harmless(
    answer: &mut Answer,
    desk: &mut Desk,
    words: &str,
    file: &[u8],
    at: usize,
    byte: u8,
) -> bool {
    let turned = changed(answer, file, at, &[byte]);
    let turned = summed(answer, turned.as_slice());
    desk.put(answer, "in", turned.as_slice());
    let mut one = Answer::new(answer.alloc());
    desk.run(&mut one, words);
    answer.note(one.lacks_memory());
    is_harmless(one.text())
}

/// How many runs are harmless of those on the file with one bit turned and its checksum made right.
pub fn each_turn(answer: &mut Answer, desk: &mut Desk, words: &str) {
    let file = copied(answer, desk.held("in"));
    let mut harmless: u32 = 0;
    let mut all: u32 = 0;
    for (at, byte) in file.as_slice().iter().enumerate().skip(32) {
        for bit in [0x01, 0x80] {
            all = all.saturating_add(1);
            if is_turn_harmless(answer, desk, words, file.as_slice(), at, *byte ^ bit) {
                harmless = harmless.saturating_add(1);
            }
        }
    }
    answer.say_number("", i128::from(harmless));
    answer.say_number(" of ", i128::from(all));
    answer.say(" are done, or refused and leave out");
}
