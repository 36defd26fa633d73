//! Rows of the crates: what their public calls answer on small inputs. The file `stdin` has a line for each, with programs as
//! text above the lines that ask about them; this program writes each line with its answer behind it, and `stdout` has what
//! must come. It stands there by hand, from the format's documents, from a sentence of the command line's usage, of the
//! rules' grammar, or of the profile (docs/DEFINITIONS.md).
//!
//! A line `section NAME` says what the rows behind it ask:
//!
//! - `base`: the numbers and texts of a file, the words of the command line, domains, the layout of bodies, lines, the flow
//!   of a body, shelves, notes and advisers. Bytes are hexadecimal digits, texts as in programs, lists of numbers have
//!   commas. What is written stands behind a byte `ff`, which must be there still.
//! - `layers`: rules, programs, scripts, bodies and files. Bytes are two hexadecimal digits each, units four, and in texts of
//!   rules and scripts `|` ends a line. Ill typed bodies stand each beside a typed one that differs from it in one point.
//! - `live`: what the classes of small programs are to each other, what is reached in them, what is removed, and how many
//!   rounds that takes. A line that asks begins with one of the words of `live_asks`, and names classes, fields and methods.
//!   What is kept is named by itself, `?` before a member keeps it where its class is live, `CLASS<OWNER` keeps a class
//!   where its owner is, and `noshrink` and `nooptimise` forbid to remove and to rewrite.
//! - `visits`: how often the solvers follow edges.
//!
//! With three words, a shape, a solver and a number of edges, it prints that line of `visits` alone. bench/visits runs it so
//! at many more edges, with a clock.
#![tactic(auto)]

mod advisers;
mod base_asks;
mod bodies;
mod code;
mod counting;
mod domains_asked;
mod edges;
mod files;
mod flows;
mod forming;
mod graph;
mod kept;
mod layer_asks;
mod lines;
mod live;
mod live_asks;
mod machine;
mod maps_asked;
mod matching;
mod pools;
mod rules;
mod shapes;
mod shelves;
mod texts;
mod typing;
mod visits;

use program_text::{Answer, Page};
use std::alloc::AllocError;
use std::{env, io};

/// What the rows of a section ask.
#[derive(Clone, Copy, PartialEq, Eq)]
enum Section {
    Base,
    Layers,
    Live,
    Visits,
}

impl Section {
    /// The section of a name.
    fn named(name: &str) -> Section {
        match name {
            "layers" => Section::Layers,
            "live" => Section::Live,
            "visits" => Section::Visits,
            _ => Section::Base,
        }
    }
}

/// Writes a line that asks something, with its answer.
fn tell(rt: &HostRuntime, section: Section, page: &mut Page, line: &str) -> Result<(), AllocError> {
    if section == Section::Visits {
        let said = visits::answer(rt.alloc(), line)?;
        page.write_line(said.as_str());
        return Ok(());
    }
    let mut said = Answer::new(rt.alloc());
    match section {
        Section::Base => base_asks::answer(rt, &mut said, page.program(), line),
        Section::Layers => layer_asks::answer(&mut said, page.program(), line),
        _ => live_asks::answer(&mut said, page.program(), line),
    }
    page.tell(line, &said);
    Ok(())
}

/// Writes all lines of the input, those that ask with their answers.
fn rows(rt: &HostRuntime) -> io::Result<()> {
    let alloc = rt.alloc();
    let text = io::read_to_string(alloc, rt.stdin())?;
    let mut page = Page::new(alloc);
    let mut section = Section::Base;
    for line in text.lines() {
        if let Some(name) = line.strip_prefix("section ") {
            // (a section begins without a program)
            section = Section::named(name);
            page = Page::new(alloc);
            page.write_line(line);
        } else if page.takes(line) {
            tell(rt, section, &mut page, line)?;
        }
        rt.print(page.written()?)?;
    }
    Ok(())
}

fn main(rt: HostRuntime) -> io::Result<()> {
    let words: Vec<String> = env::args(&rt)?.skip(1).collect(rt.alloc())?;
    match words.as_slice() {
        [shape, solver, about] => {
            let about = about.parse::<u32>().unwrap_or(visits::FEW);
            let line = visits::line_of(rt.alloc(), shape.as_str(), solver.as_str(), about)?;
            println!(rt; "{line}")?;
            Ok(())
        }
        _ => rows(&rt),
    }
}
