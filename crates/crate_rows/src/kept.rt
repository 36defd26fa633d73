//! What a line keeps.

use program_model::{ClassIf, Outside, Program};
use program_text::{Answer, find_field, find_method, find_type};
use seq::Seq;
use std::alloc::Global;

/// An outside that keeps nothing, and lets a program be shrunk and optimised.
fn nothing(alloc: Global) -> Outside {
    Outside {
        classes: Seq::new(alloc),
        methods: Seq::new(alloc),
        fields: Seq::new(alloc),
        methods_if: Seq::new(alloc),
        fields_if: Seq::new(alloc),
        classes_if: Seq::new(alloc),
        shrink: true,
        optimise: true,
        silent: Seq::new(alloc),
        shut: Seq::new(alloc),
    }
}

/// What a word of a line says.
#[derive(Clone, Copy)]
enum Said<'a> {
    Class(&'a str),
    ClassIf(&'a str, &'a str),
    Member(&'a str),
    MemberIf(&'a str),
    Silent(&'a str),
    Shut(&'a str),
    NoShrink,
    NoOptimise,
}

/// Reads a word that names no member.
fn read_class(word: &str) -> Said<'_> {
    if word == "noshrink" {
        return Said::NoShrink;
    }
    if word == "nooptimise" {
        return Said::NoOptimise;
    }
    match word.split_once('<') {
        Some((class, owner)) => Said::ClassIf(class, owner),
        None => Said::Class(word),
    }
}

/// Reads a word.
fn read(word: &str) -> Said<'_> {
    if let Some(member) = word.strip_prefix('?') {
        return Said::MemberIf(member);
    }
    if let Some(method) = word.strip_prefix("silent:") {
        return Said::Silent(method);
    }
    if let Some(method) = word.strip_prefix("shut:") {
        return Said::Shut(method);
    }
    if word.contains("->") {
        return Said::Member(word);
    }
    read_class(word)
}

/// Adds a number to a list.
fn push(answer: &mut Answer, list: &mut Seq<u32>, number: u32) {
    answer.note(list.push(number).is_err());
}

/// Adds the number of a member: a method's name has its parameters.
fn push_member(
    answer: &mut Answer,
    program: &Program,
    word: &str,
    fields: &mut Seq<u32>,
    methods: &mut Seq<u32>,
) {
    if word.contains('(') {
        let number = find_method(answer, program, word);
        push(answer, methods, number);
    } else {
        let number = find_field(answer, program, word);
        push(answer, fields, number);
    }
}

/// Keeps a class where its owner is live.
fn push_class_if(
    answer: &mut Answer,
    program: &Program,
    class: &str,
    owner: &str,
    classes: &mut Seq<ClassIf>,
) {
    let one = ClassIf {
        class: find_type(answer, program, class),
        owner: find_type(answer, program, owner),
    };
    answer.note(classes.push(one).is_err());
}

/// Keeps a class or forbids something.
fn keep_class(answer: &mut Answer, program: &Program, outside: &mut Outside, said: &Said<'_>) {
    match said {
        Said::Class(class) => {
            let number = find_type(answer, program, class);
            push(answer, &mut outside.classes, number);
        }
        Said::ClassIf(class, owner) => {
            push_class_if(answer, program, class, owner, &mut outside.classes_if);
        }
        Said::NoShrink => outside.shrink = false,
        _ => outside.optimise = false,
    }
}

/// Keeps what a word says.
fn keep(answer: &mut Answer, program: &Program, outside: &mut Outside, word: &str) {
    match read(word) {
        Said::Member(member) => push_member(
            answer,
            program,
            member,
            &mut outside.fields,
            &mut outside.methods,
        ),
        Said::MemberIf(member) => push_member(
            answer,
            program,
            member,
            &mut outside.fields_if,
            &mut outside.methods_if,
        ),
        Said::Silent(method) => {
            let number = find_method(answer, program, method);
            push(answer, &mut outside.silent, number);
        }
        Said::Shut(method) => {
            let number = find_method(answer, program, method);
            push(answer, &mut outside.shut, number);
        }
        said => keep_class(answer, program, outside, &said),
    }
}

/// What the words of a line behind its first keep.
pub fn kept(answer: &mut Answer, program: &Program, line: &str) -> Outside {
    let mut outside = nothing(answer.alloc());
    for word in line.split_whitespace().skip(1) {
        keep(answer, program, &mut outside, word);
    }
    outside
}
