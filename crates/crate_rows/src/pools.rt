//! The tables of a file, values and annotations.

use dex_base::{Text, write_u32};
use dex_pools::{
    Interner, PoolFault, Pools, read_annotations, read_pools, read_value, write_annotation,
    write_value,
};
use program_model::{
    Class, EncValue, FieldName, Flags, Mark, MethodName, Program, Renumber, Version,
};
use program_text::Answer;
use seq::Seq;

/// Adds a fault as it is said.
fn say_fault(answer: &mut Answer, fault: PoolFault) {
    match fault {
        PoolFault::NoMemory => answer.note(true),
        fault => answer.say_value(&fault),
    }
}

/// Adds numbers as words.
fn push_words(answer: &mut Answer, out: &mut Vec<u8>, list: &str) {
    let numbers = answer.numbers(list);
    for word in numbers.as_slice() {
        answer.note(write_u32(out, *word).is_err());
    }
}

/// A header whose tables have these sizes and offsets, with these words and bytes behind it.
fn file(answer: &mut Answer, line: &str) -> Vec<u8> {
    let mut pieces = line.split(' ');
    let mut out = Vec::new(answer.alloc());
    push_words(answer, &mut out, "0,0,0,0,0,0,0,0,0,0,0,0,0,0");
    push_words(answer, &mut out, pieces.next().unwrap_or(""));
    push_words(answer, &mut out, "0,0,0,0");
    push_words(answer, &mut out, pieces.next().unwrap_or(""));
    let rest = answer.bytes(pieces.next().unwrap_or(""));
    answer.note(out.extend_from_slice(rest.as_slice()).is_err());
    out
}

/// Adds how many strings tables have, and what else.
fn say_tables(answer: &mut Answer, pools: &Pools) {
    answer.say_value(&pools.strings.len());
    answer.say(" strings, ");
    answer.say_value(&pools.types);
    answer.say(", ");
    answer.say_value(&pools.protos);
    answer.say(", ");
    answer.say_value(&pools.fields);
    answer.say(", ");
    answer.say_value(&pools.methods);
}

/// What is read of the tables of such a file.
pub fn tables(answer: &mut Answer, line: &str) {
    let file = file(answer, line);
    match read_pools(answer.alloc(), file.as_slice()) {
        Ok(pools) => say_tables(answer, &pools),
        Err(fault) => say_fault(answer, fault),
    }
}

/// These words as strings.
fn strings_of(answer: &mut Answer, words: &str) -> Seq<Text> {
    let mut strings = Seq::new(answer.alloc());
    for word in words.split_whitespace() {
        let text = answer.text_of(word);
        answer.note(strings.push(text).is_err());
    }
    strings
}

/// Four fields.
fn four_fields(answer: &mut Answer) -> Seq<FieldName> {
    let mut fields = Seq::new(answer.alloc());
    for name in 0..4 {
        let field = FieldName {
            class: 0,
            kind: 1,
            name,
        };
        answer.note(fields.push(field).is_err());
    }
    fields
}

/// Four methods.
fn four_methods(answer: &mut Answer) -> Seq<MethodName> {
    let mut methods = Seq::new(answer.alloc());
    for name in 0..4 {
        let method = MethodName {
            class: 0,
            proto: 0,
            name,
        };
        answer.note(methods.push(method).is_err());
    }
    methods
}

/// Tables with four entries each.
fn four_of_each(answer: &mut Answer) -> Pools {
    Pools {
        strings: strings_of(answer, "A B C D"),
        types: Seq::of_vec(answer.numbers("0,1,2,3")),
        protos: Seq::new(answer.alloc()),
        fields: four_fields(answer),
        methods: four_methods(answer),
    }
}

/// Another number for each of four entries.
fn renumber(answer: &mut Answer) -> Renumber {
    let numbers = "3,2,1,300";
    Renumber {
        strings: answer.numbers(numbers),
        types: answer.numbers(numbers),
        protos: answer.numbers(numbers),
        fields: answer.numbers(numbers),
        methods: answer.numbers(numbers),
    }
}

/// Adds how a value is written under other numbers.
fn say_written(answer: &mut Answer, value: &EncValue) {
    let numbers = renumber(answer);
    let mut out = Vec::new(answer.alloc());
    answer.note(write_value(&mut out, value, &numbers).is_err());
    answer.say(", written ");
    answer.say_bytes(out.as_slice());
}

/// Adds a value that was read, where it ends, and how it is written under other numbers.
fn say_value(answer: &mut Answer, value: &EncValue, next: usize) {
    if next <= 100 {
        answer.say_value(value);
        answer.say(" ");
    }
    answer.say("up to ");
    answer.say_value(&next);
    if next <= 100 {
        say_written(answer, value);
    }
}

/// The value that bytes spell over these tables, where it ends, and how it is written under other numbers.
fn value(answer: &mut Answer, bytes: &[u8]) {
    let pools = four_of_each(answer);
    match read_value(answer.alloc(), bytes, 0, &pools, 1000) {
        Ok((value, next)) => say_value(answer, &value, next),
        Err(fault) => say_fault(answer, fault),
    }
}

/// The value that hexadecimal digits spell.
pub fn value_of(answer: &mut Answer, digits: &str) {
    let bytes = answer.bytes(digits);
    value(answer, bytes.as_slice());
}

/// So many arrays in one another, and null in the last.
pub fn nested(answer: &mut Answer, arrays: &str) {
    let mut bytes = Vec::new(answer.alloc());
    for _ in 0..answer.number(arrays) {
        answer.note(bytes.extend_from_slice(&[0x1c, 1]).is_err());
    }
    answer.note(bytes.push(0x1e).is_err());
    value(answer, bytes.as_slice());
}

/// Adds how many annotations there are, and how they are written under other numbers.
fn say_marks(answer: &mut Answer, marks: &[Mark]) {
    let numbers = renumber(answer);
    let mut out = Vec::new(answer.alloc());
    for mark in marks {
        answer.note(write_annotation(&mut out, mark, &numbers).is_err());
    }
    answer.say_value(&marks.len());
    answer.say(", written ");
    answer.say_bytes(out.as_slice());
}

/// The annotations of the set at the first byte, of at most so many entries, written under other numbers.
pub fn marks(answer: &mut Answer, line: &str) {
    let (digits, most) = answer.split(line, " ");
    let most = answer.number(most);
    let bytes = answer.bytes(digits);
    let pools = four_of_each(answer);
    match read_annotations(answer.alloc(), bytes.as_slice(), 0, &pools, most) {
        Ok(marks) => say_marks(answer, marks.as_slice()),
        Err(fault) => say_fault(answer, fault),
    }
}

/// The numbers of so many entries.
fn numbers_below(answer: &mut Answer, count: usize) -> Seq<u32> {
    let mut numbers = Seq::new(answer.alloc());
    let mut number: u32 = 0;
    for _ in 0..count {
        answer.note(numbers.push(number).is_err());
        number = number.saturating_add(1);
    }
    numbers
}

/// A class of the first type, under the second.
fn one_class(answer: &mut Answer) -> Seq<Class> {
    let alloc = answer.alloc();
    let mut classes = Seq::new(alloc);
    let class = Class {
        name: 0,
        flags: Flags::PUBLIC,
        superclass: 1,
        interfaces: Seq::new(alloc),
        source: None,
        marks: Seq::new(alloc),
        fields: Seq::new(alloc),
        methods: Seq::new(alloc),
    };
    answer.note(classes.push(class).is_err());
    classes
}

/// A program whose strings are these words, each of them a type, and whose only class is the first of them, under the
/// second.
fn class_of(answer: &mut Answer, words: &str) -> Program {
    let strings = strings_of(answer, words);
    let types = numbers_below(answer, strings.len());
    Program {
        strings,
        types,
        protos: Seq::new(answer.alloc()),
        fields: Seq::new(answer.alloc()),
        methods: Seq::new(answer.alloc()),
        classes: one_class(answer),
        version: Version::V035,
    }
}

/// Adds the numbers that used entries get, 4294967295 for one that is gone, and their order.
fn say_interned(answer: &mut Answer, interner: &Interner) {
    answer.say("strings ");
    answer.say_numbers(interner.numbers().strings.as_slice());
    answer.say(", types ");
    answer.say_numbers(interner.numbers().types.as_slice());
    answer.say(", in the order ");
    answer.say_numbers(interner.order().types.as_slice());
}

/// The numbers that the used entries of such a program get, 4294967295 for one that is gone, and their order.
pub fn used(answer: &mut Answer, words: &str) {
    let program = class_of(answer, words);
    let interner = Interner::collect(answer.alloc(), &program);
    if let Some(interner) = answer.taken(interner) {
        say_interned(answer, &interner);
    }
}
