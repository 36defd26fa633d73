//! What lies ready for the runs of a row.

use crate::files::{file_of, say_file};
use crate::forgetful::Forgetful;
use program_text::Answer;
use redex_cli::run;
use redex_outside::{Adviser, BudgetAdviser, Fail, MemoryNotes, MemoryShelf, PrefixAdviser};
use std::alloc::Global;

/// The shelf, which call of the next run's notes fails, and whether its adviser finds no memory.
#[derive(Drop)]
pub struct Desk {
    shelf: MemoryShelf,
    pub saying: Option<Fail>,
    pub is_forgetful: bool,
}

/// The list of this one, or the empty one.
fn list_of(answer: &mut Answer, fail: Option<Fail>) -> Vec<Fail> {
    let mut fails = Vec::new(answer.alloc());
    if let Some(fail) = fail {
        answer.note(fails.push(fail).is_err());
    }
    fails
}

/// The words of a line.
fn words_of(answer: &mut Answer, words: &str) -> Vec<String> {
    let mut list = Vec::new(answer.alloc());
    for word in words.split_whitespace() {
        let made = String::from_str(answer.alloc(), word);
        if let Some(word) = answer.taken(made) {
            answer.note(list.push(word).is_err());
        }
    }
    list
}

/// A copy of bytes.
pub fn copied(answer: &mut Answer, bytes: &[u8]) -> Vec<u8> {
    let mut copy = Vec::new(answer.alloc());
    answer.note(copy.extend_from_slice(bytes).is_err());
    copy
}

/// An adviser in a box.
fn boxed<A: Drop>(answer: &mut Answer, adviser: A) -> Option<Box<A>> {
    match Box::new(answer.alloc(), adviser) {
        Ok(boxed) => Some(boxed),
        Err(_) => {
            answer.note(true);
            None
        }
    }
}

impl Desk {
    /// An empty desk.
    pub fn new(alloc: Global) -> Desk {
        Desk {
            shelf: MemoryShelf::new(alloc, Vec::new(alloc)),
            saying: None,
            is_forgetful: false,
        }
    }

    /// Begins a row about a program, on a shelf that may fail.
    pub fn begin(&mut self, answer: &mut Answer, text: &str, fail: Option<Fail>) {
        let fails = list_of(answer, fail);
        let file = file_of(answer, text);
        self.shelf = MemoryShelf::new(answer.alloc(), fails);
        self.put(answer, "in", file.as_slice());
        self.put(answer, "out", b"old");
    }

    /// What the shelf holds under a name, the empty list where that is nothing.
    pub fn held(&self, name: &str) -> &[u8] {
        self.shelf.bytes(name).unwrap_or(b"")
    }

    /// Puts bytes under a name.
    pub fn put(&mut self, answer: &mut Answer, name: &str, bytes: &[u8]) {
        let added = self.shelf.add(answer.alloc(), name, bytes);
        answer.note(added.is_err());
    }

    /// Adds a line to what a name holds.
    pub fn add_line(&mut self, answer: &mut Answer, name: &str, line: &str) {
        let mut text = copied(answer, self.held(name));
        if self.shelf.bytes(name).is_some() {
            answer.note(text.push(b'\n').is_err());
        }
        answer.note(text.extend_from_slice(line.as_bytes()).is_err());
        self.put(answer, name, text.as_slice());
    }

    /// Runs these words with these advisers, and says the status and what was said, in whole lines.
    fn run_with(&mut self, answer: &mut Answer, words: &[String], advisers: Vec<Box<dyn Adviser>>) {
        let fails = list_of(answer, self.saying);
        let mut notes = MemoryNotes::new(answer.alloc(), fails);
        let status = run(answer.alloc(), words, &mut self.shelf, &mut notes, advisers);
        answer.say_number("ends with ", i128::from(status.code()));
        answer.say("\n");
        answer.say_ascii(notes.bytes());
        if !answer.text().ends_with('\n') {
            answer.say(" without an end\n");
        }
    }

    /// Runs these words.
    fn run_words(&mut self, answer: &mut Answer, words: &[String]) {
        let alloc = answer.alloc();
        let mut advisers: Vec<Box<dyn Adviser>> = Vec::new(alloc);
        if self.is_forgetful {
            if let Some(adviser) = boxed(answer, Forgetful) {
                answer.note(advisers.push(adviser).is_err());
            }
        }
        if let Some(adviser) = boxed(answer, PrefixAdviser::new(alloc)) {
            answer.note(advisers.push(adviser).is_err());
        }
        if let Some(adviser) = boxed(answer, BudgetAdviser::new()) {
            answer.note(advisers.push(adviser).is_err());
        }
        self.run_with(answer, words, advisers);
        self.saying = None;
        self.is_forgetful = false;
    }

    /// Says what the output holds, nothing where that is what it held before.
    fn say_out(&self, answer: &mut Answer, before: &[u8]) {
        let after = self.held("out");
        if after != before {
            if after == self.held("in") {
                answer.say("out is in\n");
            } else {
                say_file(answer, after);
            }
        }
    }

    /// Runs these words, and says the status, what was said, and what the output holds where that has changed.
    pub fn run(&mut self, answer: &mut Answer, words: &str) {
        let list = words_of(answer, words);
        let before = copied(answer, self.held("out"));
        self.run_words(answer, list.as_slice());
        self.say_out(answer, before.as_slice());
        answer.cut_end(0);
    }
}
