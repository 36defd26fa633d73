//! Layouts of bodies, and what instructions take, read and write.

use program_model::{Body, Insn, Renumber, Test};
use program_text::{Answer, first_body, program_of};
use relax::{LayFault, Layout, lay_out};
use seq::Seq;
use std::alloc::{AllocError, Global};

/// New numbers of the strings; all others stay as they are, since no table gives another one.
fn new_strings(alloc: Global, strings: Vec<u32>) -> Renumber {
    Renumber {
        strings,
        types: Vec::new(alloc),
        protos: Vec::new(alloc),
        fields: Vec::new(alloc),
        methods: Vec::new(alloc),
    }
}

/// The layout of a body with new numbers of its strings, none where there is a fault, which is said.
fn laid_out(answer: &mut Answer, body: &Body, strings: &str) -> Option<Layout> {
    let strings = answer.numbers(strings);
    let numbers = new_strings(answer.alloc(), strings);
    match lay_out(answer.alloc(), body, &numbers) {
        Ok(layout) => Some(layout),
        Err(LayFault::NoMemory) => {
            answer.note(true);
            None
        }
        Err(fault) => {
            answer.say_text(&fault);
            None
        }
    }
}

/// Where the instructions and the payloads of a body begin, and how many units it has.
fn say_layout(answer: &mut Answer, body: &Body, strings: &str) {
    if let Some(layout) = laid_out(answer, body, strings) {
        answer.say("starts ");
        answer.say_numbers(layout.starts.as_slice());
        answer.say(", payloads ");
        answer.say_numbers(layout.payloads.as_slice());
        answer.say_number(", size ", i128::from(layout.size));
    }
}

/// The layout of the first method of a program, whose strings have these new numbers.
pub fn layout(answer: &mut Answer, text: &str, strings: &str) {
    let program = program_of(answer, text);
    match first_body(&program) {
        Some(body) => say_layout(answer, body, strings),
        None => answer.refuse(),
    }
}

/// The instruction, so many nops behind it, and a return.
fn over_nops(alloc: Global, first: Insn, nops: u32) -> Result<Seq<Insn>, AllocError> {
    let mut insns = Seq::new(alloc);
    insns.push(first)?;
    for _ in 0..nops {
        insns.push(Insn::Nop)?;
    }
    insns.push(Insn::ReturnVoid)?;
    Ok(insns)
}

/// How many units the first instruction takes over so many nops, and where the last one begins.
fn say_over(answer: &mut Answer, first: Insn, nops: u32) {
    let made = over_nops(answer.alloc(), first, nops);
    if let Some(insns) = answer.taken(made) {
        let body = Body {
            registers: 1,
            ins: 0,
            insns,
            regions: Seq::new(answer.alloc()),
        };
        if let Some(layout) = laid_out(answer, &body, "") {
            let units = layout.starts.get(1).copied().unwrap_or(0);
            let last = layout.starts.last().copied().unwrap_or(0);
            answer.say_number("takes ", i128::from(units));
            answer.say_number(" units, goes to ", i128::from(last));
            answer.say_number(", size ", i128::from(layout.size));
        }
    }
}

/// A goto over so many nops.
pub fn goto_over(answer: &mut Answer, nops: &str) {
    let nops = answer.number(nops);
    let goto = Insn::Goto {
        target: nops.saturating_add(1),
    };
    say_over(answer, goto, nops);
}

/// A conditional branch over so many nops.
pub fn if_over(answer: &mut Answer, nops: &str) {
    let nops = answer.number(nops);
    let branch = Insn::IfZero {
        test: Test::Eq,
        a: 0,
        target: nops.saturating_add(1),
    };
    say_over(answer, branch, nops);
}

/// Adds the registers below 300 that are read, or written.
fn say_registers(answer: &mut Answer, insn: &Insn, are_read: bool) {
    answer.begin_list();
    for register in 0..300 {
        let holds = if are_read {
            insn.reads(register)
        } else {
            insn.writes(register)
        };
        if holds {
            answer.next();
            answer.say_number("", i128::from(register));
        }
    }
    answer.end_list();
}

/// What an instruction takes over a distance, reads and writes.
fn say_insn(answer: &mut Answer, insn: &Insn, distance: i64) {
    answer.say_number("", i128::from(insn.units(distance)));
    answer.say(if insn.encodable() {
        " units, has a spelling, reads "
    } else {
        " units, has none, reads "
    });
    say_registers(answer, insn, true);
    answer.say(", writes ");
    say_registers(answer, insn, false);
    answer.say(if insn.may_throw() {
        ", may throw, "
    } else {
        ", throws nothing, "
    });
    answer.say(if insn.continues() { "goes on" } else { "ends" });
}

/// The same for the first instruction of the first method of a program.
fn say_first(answer: &mut Answer, text: &str, distance: i64) {
    let program = program_of(answer, text);
    match first_body(&program).and_then(|body| body.insns.items.first()) {
        Some(insn) => say_insn(answer, insn, distance),
        None => answer.refuse(),
    }
}

/// What an instruction takes over a distance, reads and writes: the line has the distance, and the instruction behind it.
pub fn insn(answer: &mut Answer, line: &str) {
    let (distance, said) = answer.split(line, " ");
    let distance = distance.parse::<i64>().unwrap_or(0);
    let mut text = Answer::new(answer.alloc());
    text.say("class LA;\nmethod m()V static\nregisters 1\n:here\n");
    text.say(said);
    answer.note(text.lacks_memory());
    say_first(answer, text.text(), distance);
}
