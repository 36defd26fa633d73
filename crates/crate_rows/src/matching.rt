//! What rules match and keep.

ghost use Rattle.std.specs.Prelude.{◌≡◌, ◌&&◌, nat_lt, length};

use hierarchy::Hierarchy;
use keep_rules::{outside_of, read_rules};
use program_model::{Outside, Program};
use program_text::{Answer, say_field, say_method, say_type};
use rule_text::Rules;

/// Whether each table of numbers, and the list of classes, has fewer than a hundred entries, as the rows have it.
fn is_small(program: &Program) -> bool
    ensures { result ≡ (nat_lt (length program.now.types) 100 && nat_lt (length program.now.fields) 100 && nat_lt (length program.now.methods) 100 && nat_lt (length program.now.classes) 100) }
{
    program.types.len() < 100
        && program.fields.len() < 100
        && program.methods.len() < 100
        && program.classes.len() < 100
}

/// Adds the classes with these numbers.
fn list_classes(answer: &mut Answer, program: &Program, classes: &[u32]) {
    for class in classes {
        answer.next();
        say_type(answer, program, *class);
    }
}

/// Adds the members with these numbers behind a word, if there are any.
fn list_members(
    answer: &mut Answer,
    program: &Program,
    word: &str,
    fields: &[u32],
    methods: &[u32],
) {
    if !(fields.is_empty() && methods.is_empty()) && !word.is_empty() {
        answer.list(word);
    }
    for field in fields {
        answer.next();
        say_field(answer, program, *field);
    }
    for method in methods {
        answer.next();
        say_method(answer, program, *method);
    }
}

/// Adds what is kept on a condition: classes, fields and methods.
fn list_conditional(answer: &mut Answer, program: &Program, outside: &Outside) {
    for one in outside.classes_if.as_slice() {
        answer.next();
        say_type(answer, program, one.class);
        answer.say(" if ");
        say_type(answer, program, one.owner);
    }
    let (fields, methods) = (outside.fields_if.as_slice(), outside.methods_if.as_slice());
    list_members(answer, program, "if", fields, methods);
}

/// Adds what an outside has, in words.
fn say_outside(answer: &mut Answer, program: &Program, outside: &Outside) {
    answer.begin_list();
    list_classes(answer, program, outside.classes.as_slice());
    let (fields, methods) = (outside.fields.as_slice(), outside.methods.as_slice());
    list_members(answer, program, "", fields, methods);
    list_conditional(answer, program, outside);
    list_members(answer, program, "silent", &[], outside.silent.as_slice());
    list_members(answer, program, "shut", &[], outside.shut.as_slice());
    if !outside.shrink {
        answer.list("noshrink");
    }
    if !outside.optimise {
        answer.list("nooptimise");
    }
    answer.end_list();
}

/// Adds what rules keep of a program.
fn say_kept(answer: &mut Answer, program: &Program, rules: &Rules) {
    if !is_small(program) {
        answer.refuse();
        return;
    }
    let Ok(hierarchy) = Hierarchy::build(answer.alloc(), program) else {
        answer.refuse();
        return;
    };
    match outside_of(answer.alloc(), rules, program, &hierarchy) {
        Ok(outside) => say_outside(answer, program, &outside),
        Err(_) => answer.note(true),
    }
}

/// Adds what the rules of a short text keep of a program.
fn say_matched(answer: &mut Answer, program: &Program, text: &[u8]) {
    if text.len() > 1000 {
        answer.refuse();
        return;
    }
    match read_rules(answer.alloc(), text) {
        Ok(rules) => say_kept(answer, program, &rules),
        Err(_) => answer.refuse(),
    }
}

/// What rules keep of a program: classes, fields and methods, the same on a condition behind `if`, silent and shut methods
/// behind these words, and what is forbidden.
pub fn kept(answer: &mut Answer, program: &Program, rules: &str) {
    let text = answer.lines(rules);
    say_matched(answer, program, text.as_slice());
}
