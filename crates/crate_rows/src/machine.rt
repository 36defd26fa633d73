//! Scripts, events, operators on numbers, and the workload.

use dalvik_defs::{Event, FloatOp, FloatRow, Floats, Shown};
use dalvik_numbers::{FloatTable, binary, literal};
use program_model::{BinaryOp, Insn, LiteralOp, Program, count_cells};
use program_text::{Answer, first_body, print, program_of};
use redex_gen::generate;
use script_text::{ScriptFault, read_script, write_events};
use seq::Seq;
use text_defs::Play;

/// Adds what a script says.
fn say_play(answer: &mut Answer, play: &Play) {
    answer.say("types ");
    answer.say_value(&play.framework.rows.len());
    answer.say(", floats ");
    answer.say_value(&play.floats.rows.len());
    answer.say(", ");
    answer.say_value(&play.moves);
}

/// What is read of a script, or its fault.
fn read(answer: &mut Answer, text: &[u8]) {
    if text.len() > 2_000_000 {
        answer.refuse();
        return;
    }
    match read_script(answer.alloc(), text) {
        Ok(play) => say_play(answer, &play),
        Err(ScriptFault::NoMemory) => answer.note(true),
        Err(fault) => answer.say_value(&fault),
    }
}

/// What is read of a script in which `|` ends a line.
pub fn script(answer: &mut Answer, text: &str) {
    let bytes = answer.lines(text);
    read(answer, bytes.as_slice());
}

/// What is read of a script of 1,048,576 bytes that are the same.
pub fn long_line(answer: &mut Answer, word: &str) {
    let byte = u8::try_from(answer.number(word)).unwrap_or(0);
    let mut line = Vec::new(answer.alloc());
    answer.note(line.resize(1_048_576, byte).is_err());
    read(answer, line.as_slice());
}

/// Adds the lines of events, with `|` for the end of each.
fn say_events(answer: &mut Answer, events: &[Event]) {
    let written = write_events(answer.alloc(), events);
    if let Some(written) = answer.taken(written) {
        for byte in written.as_slice() {
            let byte = if *byte == b'\n' { b'|' } else { *byte };
            answer.say_ascii(&[byte]);
        }
    }
}

/// The lines of the events: the object 10 of a class whose name has a blank is made, a call answers the wide 255, and the
/// object 10 is thrown.
pub fn events(answer: &mut Answer) {
    let kind = answer.text_of("LA\\0020B;");
    let events = [
        Event::Make {
            value: Shown::First { number: 10, kind },
        },
        Event::Result {
            value: Some(Shown::Wide(255)),
        },
        Event::Uncaught {
            value: Shown::Again(10),
        },
    ];
    say_events(answer, events.as_slice());
}

/// The operation of a program's first instruction, which has three registers.
fn operation_of(program: &Program) -> Option<BinaryOp> {
    match first_body(program)?.insns.items.first()? {
        Insn::Binary { op, .. } => Some(*op),
        _ => None,
    }
}

/// The operation of a mnemonic.
fn operation(answer: &mut Answer, mnemonic: &str) -> Option<BinaryOp> {
    let mut text = Answer::new(answer.alloc());
    text.say("class LA;\nmethod m()V\nregisters 1\n");
    text.say(mnemonic);
    text.say(" v0 v0 v0");
    answer.note(text.lacks_memory());
    let program = program_of(answer, text.text());
    operation_of(&program)
}

/// A table with two rows for the sum of the floats 1 and 2, which answer 7 and 8.
fn two_rows(answer: &mut Answer) -> Option<FloatTable> {
    let mut rows = Seq::new(answer.alloc());
    for result in [7, 8] {
        let row = FloatRow {
            op: FloatOp::AddFloat,
            a: 1,
            b: 2,
            result,
        };
        answer.note(rows.push(row).is_err());
    }
    let table = FloatTable::new(answer.alloc(), &Floats { rows });
    answer.taken(table)
}

/// What an operation on two numbers answers over that table.
pub fn operator(answer: &mut Answer, line: &str) {
    let mut words = line.split_whitespace();
    let op = operation(answer, words.next().unwrap_or(""));
    let a = answer.number(words.next().unwrap_or(""));
    let b = answer.number(words.next().unwrap_or(""));
    let table = two_rows(answer);
    match (op, &table) {
        (Some(op), Some(table)) => {
            answer.say_value(&binary(table, op, u64::from(a), u64::from(b)));
        }
        _ => answer.refuse(),
    }
}

/// What a literal answers from which a number is taken.
pub fn reversed(answer: &mut Answer, line: &str) {
    let (a, value) = answer.split(line, " ");
    let value = i16::try_from(answer.number(value)).unwrap_or(0);
    let a = answer.number(a);
    answer.say_value(&literal(LiteralOp::RsubInt, a, value));
}

/// Adds the cells and the text of a program.
fn say_workload(answer: &mut Answer, program: &Program) {
    answer.say_number("", i128::from(count_cells(program)));
    answer.say(" cells\n");
    print(answer, program);
    answer.cut_end(0);
}

/// The cells and the text of the workload of so many classes.
pub fn workload(answer: &mut Answer, word: &str) {
    let classes = answer.number(word);
    if classes > 2000 {
        answer.refuse();
        return;
    }
    let made = generate(answer.alloc(), classes);
    if let Some(program) = answer.taken(made) {
        say_workload(answer, &program);
    }
}
