//! The loops over what is opened.

use program_text::Answer;
use redex_outside::{FetchFault, read_all, write_all};
use std::io;
use std::io::{ErrorKind, Read};

/// Gives one byte, and then fails.
#[derive(Drop)]
struct Breaking {
    given: bool,
}

impl Read for Breaking {
    fn read(&mut self, buf: &mut [u8]) -> io::Result<usize> {
        if self.given || buf.is_empty() {
            return Err(io::Error::from(ErrorKind::ConnectionReset));
        }
        self.given = true;
        buf[0] = 7;
        Ok(1)
    }
}

/// Adds how many bytes were read, whether they are the wanted ones, or the fault.
fn say_read(answer: &mut Answer, read: Result<Vec<u8>, FetchFault>, wanted: &[u8]) {
    match read {
        Ok(bytes) => {
            if bytes.as_slice() == wanted {
                answer.say("all ");
                answer.say_value(&bytes.len());
                answer.say(" bytes");
            } else {
                answer.say("other bytes");
            }
        }
        Err(FetchFault::NoMemory) => answer.note(true),
        Err(fault) => answer.say_value(&fault),
    }
}

/// The two numbers of a line.
fn two(answer: &mut Answer, line: &str) -> (usize, usize) {
    let (first, second) = answer.split(line, " ");
    (answer.place(first), answer.place(second))
}

/// What is read of five bytes, of which so many are expected, up to a limit.
pub fn read(answer: &mut Answer, line: &str) {
    let (expected, limit) = two(answer, line);
    let read = read_all(answer.alloc(), &mut b"input".as_slice(), expected, limit);
    say_read(answer, read, b"input");
}

/// What is read where the second read fails.
pub fn broken(answer: &mut Answer, line: &str) {
    let (expected, limit) = two(answer, line);
    let mut breaking = Breaking { given: false };
    let read = read_all(answer.alloc(), &mut breaking, expected, limit);
    say_read(answer, read, &[7]);
}

/// What is read of 100,000 bytes.
pub fn long(answer: &mut Answer, line: &str) {
    let (expected, limit) = two(answer, line);
    let mut long = Vec::new(answer.alloc());
    answer.note(long.resize(100_000, 3).is_err());
    let read = read_all(answer.alloc(), &mut long.as_slice(), expected, limit);
    say_read(answer, read, long.as_slice());
}

/// Whether a text is written into room for four bytes, and what is there then.
pub fn write(answer: &mut Answer, text: &str) {
    let mut room = [0; 4];
    let mut space = room.as_mut_slice();
    let is_written = write_all(&mut space, text.as_bytes()).is_ok();
    answer.say_whether(is_written);
    answer.say(", ");
    answer.say_bytes(&room);
}
