//! Shelves and notes.

use program_text::Answer;
use redex_outside::{
    Fail, FetchFault, FileShelf, MemoryNotes, MemoryShelf, NoteFault, Notes, PutFault, Shelf,
    StdNotes, SureShelf,
};
use std::rt::{Env, Files};
use std::{env, fs};

/// Adds bytes of ASCII between quotes.
fn say_quoted(answer: &mut Answer, bytes: &[u8]) {
    answer.list("\"");
    answer.say_ascii(bytes);
    answer.say("\"");
}

/// Adds what a fetch gives.
fn say_fetched(answer: &mut Answer, fetched: Result<Vec<u8>, FetchFault>) {
    match fetched {
        Ok(bytes) => say_quoted(answer, bytes.as_slice()),
        Err(FetchFault::NoMemory) => answer.note(true),
        Err(fault) => {
            answer.next();
            answer.say_value(&fault);
        }
    }
}

/// Adds what a put gives.
fn say_put(answer: &mut Answer, put: Result<(), PutFault>) {
    match put {
        Ok(()) => answer.list("put"),
        Err(PutFault::NoMemory) => answer.note(true),
        Err(fault) => {
            answer.next();
            answer.say_value(&fault);
        }
    }
}

/// Adds what a shelf answers to `fetch:NAME:LIMIT` or `put:NAME:TEXT`.
fn say_call<S: Shelf>(answer: &mut Answer, shelf: &mut S, word: &str) {
    let alloc = answer.alloc();
    let (act, rest) = answer.split(word, ":");
    let (name, last) = answer.split(rest, ":");
    if act == "fetch" {
        let limit = answer.place(last);
        say_fetched(answer, shelf.fetch(alloc, name, limit));
    } else {
        say_put(answer, shelf.put(alloc, name, last.as_bytes()));
    }
}

/// Adds what is held under a name, if anything is.
fn say_held(answer: &mut Answer, bytes: Option<&[u8]>) {
    match bytes {
        Some(bytes) => say_quoted(answer, bytes),
        None => answer.list("none"),
    }
}

/// The call that fails, by its number from 0, and how many bytes are kept then.
fn fails(answer: &mut Answer, call: &str, kept: &str) -> Vec<Fail> {
    let kept = if kept == "none" {
        None
    } else {
        Some(answer.place(kept))
    };
    let call = u64::from(answer.number(call));
    let mut fails = Vec::new(answer.alloc());
    answer.note(fails.push(Fail { call, kept }).is_err());
    fails
}

/// Puts something on a shelf.
fn add(answer: &mut Answer, shelf: &mut MemoryShelf, name: &str, bytes: &[u8]) {
    let added = shelf.add(answer.alloc(), name, bytes);
    answer.note(added.is_err());
}

/// What a shelf in memory answers that holds `rules`, `in` and `out`, and one of whose calls fails: the line has that call,
/// how many bytes it keeps, and then calls; `held:NAME` asks what is held.
pub fn memory(answer: &mut Answer, line: &str) {
    let mut words = line.split(' ');
    let call = words.next().unwrap_or("");
    let fails = fails(answer, call, words.next().unwrap_or(""));
    let mut shelf = MemoryShelf::new(answer.alloc(), fails);
    add(answer, &mut shelf, "rules", b"-keep class A");
    add(answer, &mut shelf, "in", b"input");
    add(answer, &mut shelf, "out", b"old");
    for word in words {
        match word.strip_prefix("held:") {
            Some(name) => say_held(answer, shelf.bytes(name)),
            None => say_call(answer, &mut shelf, word),
        }
    }
}

/// What a sure shelf answers; `add:NAME:TEXT` puts something on it.
pub fn sure(answer: &mut Answer, line: &str) {
    let alloc = answer.alloc();
    let mut shelf = SureShelf::new(alloc);
    for word in line.split(' ') {
        if let Some(added) = word.strip_prefix("add:") {
            let (name, text) = answer.split(added, ":");
            answer.note(shelf.add(alloc, name, text.as_bytes()).is_err());
        } else if let Some(name) = word.strip_prefix("held:") {
            say_held(answer, shelf.bytes(name));
        } else {
            say_call(answer, &mut shelf, word);
        }
    }
}

/// The name of a file that isn't there yet, in the folder for such files.
fn new_file(rt: &(impl Files + Env + AllocGlobal), answer: &mut Answer) -> String {
    let alloc = rt.alloc();
    let mut name = String::new(alloc);
    match env::temp_dir(rt) {
        Ok(path) => answer.note(name.push_str(path.to_str().unwrap_or("")).is_err()),
        Err(_) => answer.refuse(),
    }
    answer.note(name.push_str("/redex_crate_rows").is_err());
    let _ = fs::remove_file(rt, name.as_str());
    name
}

/// The word with a name in place of `FILE`.
fn named(answer: &mut Answer, word: &str, name: &str) -> String {
    let mut said = String::new(answer.alloc());
    let (act, rest) = word.split_once("FILE").unwrap_or((word, ""));
    answer.note(said.push_str(act).is_err());
    if act != word {
        answer.note(said.push_str(name).is_err() || said.push_str(rest).is_err());
    }
    said
}

/// What a shelf of files answers, where `FILE` stands for a file that isn't there yet.
pub fn files(rt: &(impl Files + Env + AllocGlobal), answer: &mut Answer, line: &str) {
    let name = new_file(rt, answer);
    let mut shelf = FileShelf::new(rt);
    for word in line.split(' ') {
        let said = named(answer, word, name.as_str());
        say_call(answer, &mut shelf, said.as_str());
    }
    let _ = fs::remove_file(rt, name.as_str());
}

/// Adds what is said of a note.
fn say_noted(answer: &mut Answer, noted: Result<(), NoteFault>) {
    match noted {
        Ok(()) => answer.list("said"),
        Err(NoteFault::NoMemory) => answer.note(true),
        Err(fault) => {
            answer.next();
            answer.say_value(&fault);
        }
    }
}

/// What notes in memory answer, one of whose calls fails, and what was said in all.
pub fn notes(answer: &mut Answer, line: &str) {
    let alloc = answer.alloc();
    let mut words = line.split(' ');
    let call = words.next().unwrap_or("");
    let fails = fails(answer, call, words.next().unwrap_or(""));
    let mut notes = MemoryNotes::new(alloc, fails);
    for word in words {
        say_noted(answer, notes.say(alloc, word.as_bytes()));
    }
    say_quoted(answer, notes.bytes());
}

/// Says a line on standard output.
pub fn standard(rt: &(impl Print + AllocGlobal), answer: &mut Answer, line: &str) {
    let alloc = rt.alloc();
    let mut said = String::new(alloc);
    answer.note(said.push_str(line).is_err() || said.push_str("\n").is_err());
    let mut notes = StdNotes::new(rt);
    say_noted(answer, notes.say(alloc, said.as_str().as_bytes()));
}
