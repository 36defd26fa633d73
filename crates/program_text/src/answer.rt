//! An answer as it is made.

use dex_base::Text;
use std::alloc::{AllocError, Global};
use std::fmt::{Debug, Display};

/// A text that grows, and what was wrong with the line that asks for it. Where memory runs out or a word can't be read,
/// this is remembered and told at the end alone, so that what adds to the text has no way out of its own: each such way
/// has to be proved.
#[derive(Drop)]
pub struct Answer {
    alloc: Global,
    text: String,
    list: usize,
    lacks_memory: bool,
    is_wrong: bool,
}

impl Answer {
    /// Nothing is said yet.
    pub fn new(alloc: Global) -> Answer {
        Answer {
            alloc,
            text: String::new(alloc),
            list: 0,
            lacks_memory: false,
            is_wrong: false,
        }
    }

    /// Where memory comes from.
    pub fn alloc(&self) -> Global {
        self.alloc
    }

    /// What was said.
    pub fn text(&self) -> &str {
        self.text.as_str()
    }

    /// Whether memory ran out.
    pub fn lacks_memory(&self) -> bool {
        self.lacks_memory
    }

    /// Whether words were not understood.
    pub fn is_wrong(&self) -> bool {
        self.is_wrong
    }

    /// Begins again with nothing said.
    pub fn clear(&mut self) {
        self.text.clear();
        self.list = 0;
        self.is_wrong = false;
    }

    /// Remembers whether memory ran out.
    pub fn note(&mut self, is_lost: bool) {
        self.lacks_memory = self.lacks_memory || is_lost;
    }

    /// Remembers that words are not understood.
    pub fn refuse(&mut self) {
        self.is_wrong = true;
    }

    /// Remembers that words are not understood, where that is so.
    pub fn refuse_where(&mut self, is_wrong: bool) {
        self.is_wrong = self.is_wrong || is_wrong;
    }

    /// What was made, none where memory ran out, which is remembered.
    pub fn taken<T: Drop>(&mut self, made: Result<T, AllocError>) -> Option<T> {
        match made {
            Ok(value) => Some(value),
            Err(_) => {
                self.lacks_memory = true;
                None
            }
        }
    }

    /// Adds a text.
    pub fn say(&mut self, text: &str) {
        let is_lost = self.text.push_str(text).is_err();
        self.note(is_lost);
    }

    /// Adds a text and a number in decimals behind it.
    pub fn say_number(&mut self, text: &str, number: i128) {
        let is_lost = write!(self.text, "{text}{number}").is_err();
        self.note(is_lost);
    }

    /// Adds a unit: one that is blank or no printed ASCII, and the backslash, is `\` and four hexadecimal digits.
    pub fn say_unit(&mut self, unit: u16) {
        let added = match u8::try_from(unit) {
            Ok(byte @ (0x21..=0x5b | 0x5d..=0x7e)) => self.text.push(char::from(byte)),
            _ => write!(self.text, "\\{unit:04x}"),
        };
        self.note(added.is_err());
    }

    /// Adds a value as it is shown to who writes programs.
    pub fn say_value<T: Debug>(&mut self, value: &T) {
        let is_lost = write!(self.text, "{value:?}").is_err();
        self.note(is_lost);
    }

    /// Adds a value as it is shown to who uses the program.
    pub fn say_text<T: Display>(&mut self, value: &T) {
        let is_lost = write!(self.text, "{value}").is_err();
        self.note(is_lost);
    }

    /// Adds `true` or `false`.
    pub fn say_whether(&mut self, is_so: bool) {
        self.say(if is_so { "true" } else { "false" });
    }

    /// Adds bytes as hexadecimal digits.
    pub fn say_bytes(&mut self, bytes: &[u8]) {
        for byte in bytes {
            let is_lost = write!(self.text, "{byte:02x}").is_err();
            self.note(is_lost);
        }
    }

    /// Adds bytes of ASCII.
    pub fn say_ascii(&mut self, bytes: &[u8]) {
        for byte in bytes {
            let is_lost = self.text.push(char::from(*byte)).is_err();
            self.note(is_lost);
        }
    }

    /// Begins a list.
    pub fn begin_list(&mut self) {
        self.list = self.text.len();
    }

    /// Begins an item of the list, between blanks.
    pub fn next(&mut self) {
        if self.text.len() > self.list {
            self.say(" ");
        }
    }

    /// Adds a text as an item of the list.
    pub fn list(&mut self, text: &str) {
        self.next();
        self.say(text);
    }

    /// Ends the list, with `nothing` where it is empty.
    pub fn end_list(&mut self) {
        if self.text.len() == self.list {
            self.say("nothing");
        }
    }

    /// Adds numbers between blanks, or `nothing`.
    pub fn say_numbers(&mut self, numbers: &[u32]) {
        self.begin_list();
        for number in numbers {
            self.next();
            self.say_number("", i128::from(*number));
        }
        self.end_list();
    }

    /// Takes the end of the last line away from what was said behind a place.
    pub fn cut_end(&mut self, place: usize) {
        if self.text.len() > place && self.text.ends_with('\n') {
            self.text.pop();
        }
    }

    /// The number of 32 bits that a word spells.
    pub fn number(&mut self, word: &str) -> u32 {
        match word.parse::<u32>() {
            Ok(number) => number,
            Err(_) => {
                self.is_wrong = true;
                0
            }
        }
    }

    /// The place in a list that a word spells.
    pub fn place(&mut self, word: &str) -> usize {
        match word.parse::<usize>() {
            Ok(place) => place,
            Err(_) => {
                self.is_wrong = true;
                0
            }
        }
    }

    /// The two texts around the first mark.
    pub fn split<'a>(&mut self, text: &'a str, mark: &str) -> (&'a str, &'a str) {
        match text.split_once(mark) {
            Some(both) => both,
            None => {
                self.is_wrong = true;
                ("", "")
            }
        }
    }

    /// The numbers of a list with commas.
    pub fn numbers(&mut self, list: &str) -> Vec<u32> {
        let mut found = Vec::new(self.alloc);
        for word in list.split(',') {
            if !word.is_empty() {
                let number = self.number(word);
                self.note(found.push(number).is_err());
            }
        }
        found
    }

    /// What a hexadecimal digit stands for.
    fn digit(&mut self, byte: u8) -> u8 {
        match byte {
            b'0'..=b'9' => byte - b'0',
            b'a'..=b'f' => byte - b'a' + 10,
            _ => {
                self.is_wrong = true;
                0
            }
        }
    }

    /// The bytes of hexadecimal digits, two of which are one.
    pub fn bytes(&mut self, digits: &str) -> Vec<u8> {
        let mut found = Vec::new(self.alloc);
        let mut byte: u8 = 0;
        let mut is_second = false;
        for one in digits.as_bytes() {
            byte = byte.wrapping_mul(16) | self.digit(*one);
            if is_second {
                self.note(found.push(byte).is_err());
            }
            is_second = !is_second;
        }
        found
    }

    /// The bytes of a text in which `|` stands for the end of a line.
    pub fn lines(&mut self, text: &str) -> Vec<u8> {
        let mut bytes = Vec::new(self.alloc);
        for byte in text.as_bytes() {
            let byte = if *byte == b'|' { b'\n' } else { *byte };
            self.note(bytes.push(byte).is_err());
        }
        bytes
    }

    /// The units of a word, in which a backslash and four hexadecimal digits are one.
    pub fn units(&mut self, word: &str) -> Vec<u16> {
        let mut units = Vec::new(self.alloc);
        let mut unit: u16 = 0;
        let mut digits: u8 = 0;
        for byte in word.as_bytes() {
            if digits > 0 {
                unit = unit.wrapping_mul(16) | u16::from(self.digit(*byte));
                digits -= 1;
            } else if *byte == b'\\' {
                unit = 0;
                digits = 4;
            } else {
                unit = u16::from(*byte);
            }
            if digits == 0 {
                self.note(units.push(unit).is_err());
            }
        }
        units
    }

    /// The text of a word's units.
    pub fn text_of(&mut self, word: &str) -> Text {
        Text::from_vec(self.units(word))
    }
}
