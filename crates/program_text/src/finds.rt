//! The numbers of what a text names.

use crate::answer::Answer;
use crate::printer::{say_field, say_method, say_type};
use program_model::{Body, Program};

/// The number that was found, which there has to be.
fn found_in(answer: &mut Answer, spelled: &Answer, found: Option<u32>) -> u32 {
    answer.note(spelled.lacks_memory());
    answer.refuse_where(found.is_none());
    found.unwrap_or(0)
}

/// The number of a type with this text.
pub fn find_type(answer: &mut Answer, program: &Program, text: &str) -> u32 {
    let mut spelled = Answer::new(answer.alloc());
    let mut found = None;
    let mut number: u32 = 0;
    for _ in program.types.as_slice() {
        spelled.clear();
        say_type(&mut spelled, program, number);
        if spelled.text() == text {
            found = Some(number);
        }
        number = number.saturating_add(1);
    }
    found_in(answer, &spelled, found)
}

/// The number of a field with this text, `CLASS->NAME:TYPE`.
pub fn find_field(answer: &mut Answer, program: &Program, text: &str) -> u32 {
    let mut spelled = Answer::new(answer.alloc());
    let mut found = None;
    let mut number: u32 = 0;
    for _ in program.fields.as_slice() {
        spelled.clear();
        say_field(&mut spelled, program, number);
        if spelled.text() == text {
            found = Some(number);
        }
        number = number.saturating_add(1);
    }
    found_in(answer, &spelled, found)
}

/// The number of a method with this text, `CLASS->NAME(PARAMETERS)RESULT`.
pub fn find_method(answer: &mut Answer, program: &Program, text: &str) -> u32 {
    let mut spelled = Answer::new(answer.alloc());
    let mut found = None;
    let mut number: u32 = 0;
    for _ in program.methods.as_slice() {
        spelled.clear();
        say_method(&mut spelled, program, number);
        if spelled.text() == text {
            found = Some(number);
        }
        number = number.saturating_add(1);
    }
    found_in(answer, &spelled, found)
}

/// The place of the class of a type with this text.
pub fn find_class(answer: &mut Answer, program: &Program, text: &str) -> u32 {
    let kind = find_type(answer, program, text);
    let mut found = None;
    let mut place: u32 = 0;
    for class in program.classes.as_slice() {
        if class.name == kind {
            found = Some(place);
        }
        place = place.saturating_add(1);
    }
    answer.refuse_where(found.is_none());
    found.unwrap_or(0)
}

/// The code of the first method of a program, if there is any.
pub fn first_body(program: &Program) -> Option<&Body> {
    let class = program.classes.items.first()?;
    let method = class.methods.items.first()?;
    method.body.as_ref()
}
