//! Rows between which programs stand.

use crate::answer::Answer;
use std::alloc::{AllocError, Global};
use std::mem::replace;

/// The lines of the program that was given last, whether the lines behind it have begun, and what was written.
#[derive(Drop)]
pub struct Page {
    alloc: Global,
    program: String,
    has_ended: bool,
    written: String,
    lacks_memory: bool,
}

impl Page {
    /// A page of nothing.
    pub fn new(alloc: Global) -> Page {
        Page {
            alloc,
            program: String::new(alloc),
            has_ended: true,
            written: String::new(alloc),
            lacks_memory: false,
        }
    }

    /// The lines of the program.
    pub fn program(&self) -> &str {
        self.program.as_str()
    }

    /// Adds a line to the program, of which it is the first where other lines stand before it.
    fn add(&mut self, line: &str) {
        if self.has_ended {
            self.program.clear();
            self.has_ended = false;
        }
        let is_lost = self.program.push_str(line).is_err() || self.program.push_str("\n").is_err();
        self.lacks_memory = self.lacks_memory || is_lost;
    }

    /// Writes a text.
    fn write(&mut self, text: &str) {
        let is_lost = self.written.push_str(text).is_err();
        self.lacks_memory = self.lacks_memory || is_lost;
    }

    /// Writes a line.
    pub fn write_line(&mut self, line: &str) {
        self.write(line);
        self.write("\n");
    }

    /// Takes a line, and answers whether it asks something: lines that begin with a blank, `class` or `version` are those
    /// of a program, one behind the other, and empty lines and those that begin with `#` are remarks, which are written.
    pub fn takes(&mut self, line: &str) -> bool {
        if line.starts_with(' ') || line.starts_with("class ") || line.starts_with("version ") {
            self.add(line);
            return false;
        }
        self.has_ended = true;
        if line.is_empty() || line.starts_with('#') {
            self.write_line(line);
            return false;
        }
        true
    }

    /// Writes a line with its answer behind it.
    pub fn tell(&mut self, line: &str, answer: &Answer) {
        self.lacks_memory = self.lacks_memory || answer.lacks_memory();
        self.write(line);
        self.write(" => ");
        self.write(answer.text());
        self.write_line(if answer.is_wrong() {
            "is not understood"
        } else {
            ""
        });
    }

    /// All that was written since this was asked last, unless memory ran out.
    pub fn written(&mut self) -> Result<String, AllocError> {
        if self.lacks_memory {
            Err(AllocError)
        } else {
            Ok(replace(&mut self.written, String::new(self.alloc)))
        }
    }
}
