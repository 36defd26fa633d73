//! What is reached in a program and what is left of it.

use crate::graph::say_defined;
use call_graph::{Edge, LiveSet, callees, live_members};
use hierarchy::Hierarchy;
use pipeline::{Outcome, optimise};
use program_model::{Changed, MethodAt, Outside, Program};
use program_text::{Answer, print, say_field, say_method, say_type};
use reach::{apply, close};
use redex_outside::Panel;

/// Whether a number is marked.
fn is_on(marks: &[bool], number: u32) -> bool {
    marks.get(number as usize).copied().unwrap_or(false)
}

/// Adds the marked types, with `!` behind those of which objects are made.
fn list_types(answer: &mut Answer, program: &Program, marks: &[bool], made: &[bool]) {
    let mut number: u32 = 0;
    for mark in marks {
        if *mark {
            answer.next();
            say_type(answer, program, number);
            answer.say(if is_on(made, number) { "!" } else { "" });
        }
        number = number.saturating_add(1);
    }
}

/// Adds the marked fields.
fn list_fields(answer: &mut Answer, program: &Program, marks: &[bool]) {
    let mut number: u32 = 0;
    for mark in marks {
        if *mark {
            answer.next();
            say_field(answer, program, number);
        }
        number = number.saturating_add(1);
    }
}

/// Adds the marked methods.
fn list_methods(answer: &mut Answer, program: &Program, marks: &[bool]) {
    let mut number: u32 = 0;
    for mark in marks {
        if *mark {
            answer.next();
            say_method(answer, program, number);
        }
        number = number.saturating_add(1);
    }
}

/// What is live: classes, fields and methods by number, with `!` behind a class of which objects are made. What the live
/// members are is said where call_graph is; here only their names are printed.
pub fn members(answer: &mut Answer, program: &Program, tables: &Hierarchy, outside: &Outside) {
    let live = live_members(answer.alloc(), program, tables, outside);
    if let Some(live) = answer.taken(live) {
        answer.begin_list();
        list_types(
            answer,
            program,
            live.classes.as_slice(),
            live.made.as_slice(),
        );
        list_fields(answer, program, live.fields.as_slice());
        list_methods(answer, program, live.methods.as_slice());
        answer.end_list();
    }
}

/// Adds calls, each target behind its position.
fn say_calls(answer: &mut Answer, program: &Program, calls: &[Edge]) {
    answer.begin_list();
    for edge in calls {
        answer.next();
        answer.say_number("", i128::from(edge.position));
        answer.say(":");
        say_defined(answer, program, edge.target);
    }
    answer.end_list();
}

/// Adds what the first method of the first class may call where this is live.
fn say_first(answer: &mut Answer, program: &Program, tables: &Hierarchy, live: &LiveSet) {
    let first = MethodAt { class: 0, place: 0 };
    let calls = callees(answer.alloc(), program, tables, live, first);
    if let Some(calls) = answer.taken(calls) {
        say_calls(answer, program, calls.as_slice());
    }
}

/// What the first method of the first class may call, each behind the position of the call.
pub fn calls(answer: &mut Answer, program: &Program, tables: &Hierarchy, outside: &Outside) {
    let live = live_members(answer.alloc(), program, tables, outside);
    if let Some(live) = answer.taken(live) {
        say_first(answer, program, tables, &live);
    }
}

/// Adds the types with these numbers.
fn list_kinds(answer: &mut Answer, program: &Program, kinds: &[u32]) {
    for kind in kinds {
        answer.next();
        say_type(answer, program, *kind);
    }
}

/// Adds the fields with these numbers, and then the methods.
fn list_numbers(answer: &mut Answer, program: &Program, fields: &[u32], methods: &[u32]) {
    for field in fields {
        answer.next();
        say_field(answer, program, *field);
    }
    for method in methods {
        answer.next();
        say_method(answer, program, *method);
    }
}

/// Adds what an outside keeps, what it forbids, and what it says is silent.
fn say_outside(answer: &mut Answer, program: &Program, outside: &Outside) {
    answer.begin_list();
    list_kinds(answer, program, outside.classes.as_slice());
    let (fields, methods) = (outside.fields.as_slice(), outside.methods.as_slice());
    list_numbers(answer, program, fields, methods);
    if !outside.shrink {
        answer.list("noshrink");
    }
    if !outside.optimise {
        answer.list("nooptimise");
    }
    if !outside.silent.is_empty() {
        answer.list("silent");
    }
    list_numbers(answer, program, &[], outside.silent.as_slice());
    answer.end_list();
}

/// What is kept without conditions.
pub fn closed(answer: &mut Answer, program: &Program, tables: &Hierarchy, outside: &Outside) {
    let closed = close(answer.alloc(), program, tables, outside);
    if let Some(closed) = answer.taken(closed) {
        say_outside(answer, program, &closed);
    }
}

/// Adds how much changed, and the program that is left where it isn't the one before.
fn say_changed(answer: &mut Answer, before: &Program, changed: &Changed) {
    answer.say_number("", i128::from(changed.count));
    if changed.program == *before {
        answer.say(", and the program is the same");
        return;
    }
    answer.say(", and what is left is\n");
    let place = answer.text().len();
    print(answer, &changed.program);
    answer.cut_end(place);
}

/// How many classes and members go, and the program that is left.
pub fn left(answer: &mut Answer, program: &Program, tables: &Hierarchy, outside: &Outside) {
    let copy: Result<_, _> = program.clone();
    if let Some(copy) = answer.taken(copy) {
        let changed = apply(answer.alloc(), copy, tables, outside);
        if let Some(changed) = answer.taken(changed) {
            say_changed(answer, program, &changed);
        }
    }
}

/// Adds how many rounds the optimisation took, what it removed, and how many methods are spared.
fn say_outcome(answer: &mut Answer, outcome: &Outcome) {
    answer.say_number("rounds ", i128::from(outcome.rounds));
    answer.say_number(", members ", i128::from(outcome.removed_members));
    answer.say_number(", instructions ", i128::from(outcome.removed_instructions));
    answer.say_number(", spared ", i128::from(outcome.spared));
}

/// How many rounds the optimisation takes with no adviser, what it removes, and how many methods are spared.
pub fn rounds(answer: &mut Answer, program: &Program, outside: &Outside) {
    let alloc = answer.alloc();
    let copy: Result<_, _> = program.clone();
    if let Some(copy) = answer.taken(copy) {
        let mut panel = Panel::new(alloc, Vec::new(alloc));
        let outcome = optimise(alloc, copy, outside, &mut panel);
        if let Some(outcome) = answer.taken(outcome) {
            say_outcome(answer, &outcome);
        }
    }
}
