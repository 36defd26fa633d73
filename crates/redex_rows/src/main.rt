//! Worked rows: whole runs of the program over a shelf and notes in memory. The file `stdin` has programs as text and
//! lines below them; this program writes each of these lines with its answer behind it, and `stdout` has what must come.
//! That stands there by hand, worked out from the rules of the passes (docs/DEFINITIONS.md), the format's documents and an
//! independent reader and writer of the format, never taken from what this program says.
//!
//! A line begins with one of these words:
//!
//! - `row:` and a sentence begin a row: the shelf then holds the program above it, written as a file, under `in`, and `old`
//!   under `out`. In place of a program the bytes of a file may stand, as hexadecimal digits, and `+N` for N zeros.
//! - `rules` and `script` add a line to what the shelf holds under that name; the last one has no end.
//! - `library NAME` puts the program above it under that name, written as a file.
//! - `bytes NAME` puts bytes there, `cut N` leaves the first N of `in`, `over N` puts bytes over those of `in` from N on,
//!   and `sum` makes its checksum right.
//! - `fails N KEPT` begins the row anew, on a shelf whose call N, from 0, fails and keeps so many bytes, or `none`;
//!   `notes-fail N KEPT` says so of the notes of the next run, and `forgets` gives that one an adviser without memory.
//! - `redex` and words are a run. The answer is the status of its end, what it says, and then what `out` holds, where that
//!   has changed: the program that is read back from it, or its bytes where they spell none.
//! - `each-cut` and words are that run on each shorter beginning of `in`, and `each-turn` on `in` with bit 0 or bit 7 of
//!   each byte from 32 on turned and the checksum made right.
//! - `show NAME N M` shows the bytes of a name from N up to M: from 8 to 32 the checksum and the signature.
#![tactic(auto)]

mod desk;
mod files;
mod forgetful;
mod lines;
mod many;

use crate::desk::Desk;
use crate::lines::asks;
use program_text::{Answer, Page};
use std::io;

fn main(rt: HostRuntime) -> io::Result<()> {
    let alloc = rt.alloc();
    let text = io::read_to_string(alloc, rt.stdin())?;
    let mut page = Page::new(alloc);
    let mut desk = Desk::new(alloc);
    for line in text.lines() {
        if page.takes(line) {
            let mut said = Answer::new(alloc);
            if asks(&mut said, &mut desk, page.program(), line) {
                page.tell(line, &said);
            } else {
                page.write_line(line);
            }
        }
    }
    rt.print(page.written()?)
}
