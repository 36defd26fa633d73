//! What the classes of a program are to each other.

use hierarchy::{Hierarchy, HierarchyFault};
use program_model::{MethodAt, Program};
use program_text::{Answer, find_class, find_method, say_method, say_type};

/// Adds a class by its place.
fn say_class(answer: &mut Answer, program: &Program, place: u32) {
    match program.classes.items.get(place as usize) {
        Some(class) => say_type(answer, program, class.name),
        None => answer.say("?"),
    }
}

/// Adds a method by its place.
pub fn say_defined(answer: &mut Answer, program: &Program, at: MethodAt) {
    let class = program.classes.items.get(at.class as usize);
    match class.and_then(|class| class.methods.items.get(at.place as usize)) {
        Some(method) => say_method(answer, program, method.name),
        None => answer.say("?"),
    }
}

/// Adds why the classes make no hierarchy.
pub fn say_fault(answer: &mut Answer, program: &Program, fault: HierarchyFault) {
    match fault {
        HierarchyFault::NoMemory => answer.note(true),
        HierarchyFault::Cycle { class } => {
            answer.say_number("cycle at ", i128::from(class));
            answer.say(" ");
            say_class(answer, program, class);
        }
        HierarchyFault::Twice { class } => {
            answer.say_number("twice at ", i128::from(class));
            answer.say(" ");
            say_class(answer, program, class);
        }
        HierarchyFault::SplitOverride { class, method } => {
            answer.say_number("split at ", i128::from(class));
            answer.say(" ");
            say_method(answer, program, method);
        }
    }
}

/// The other classes under a class, in file order.
pub fn subclasses(answer: &mut Answer, program: &Program, tables: &Hierarchy, word: &str) {
    let place = find_class(answer, program, word);
    let under = tables.own_subclasses(answer.alloc(), place);
    if let Some(under) = answer.taken(under) {
        answer.begin_list();
        for class in under.as_slice() {
            answer.next();
            say_class(answer, program, *class);
        }
        answer.end_list();
    }
}

/// Whether the one class is under the other.
pub fn under(answer: &mut Answer, program: &Program, tables: &Hierarchy, lower: &str, upper: &str) {
    let lower = find_class(answer, program, lower);
    let upper = find_class(answer, program, upper);
    answer.say_whether(tables.is_under(lower, upper));
}

/// The method to which a name resolves.
pub fn resolved(answer: &mut Answer, program: &Program, tables: &Hierarchy, word: &str) {
    let number = find_method(answer, program, word);
    match tables.resolve_method(program, number) {
        Some(at) => say_defined(answer, program, at),
        None => answer.say("nothing"),
    }
}

/// Adds the methods that override one.
fn say_overriders(answer: &mut Answer, program: &Program, tables: &Hierarchy, at: MethodAt) {
    let over = tables.overriders(answer.alloc(), program, at);
    if let Some(over) = answer.taken(over) {
        answer.begin_list();
        for one in over.as_slice() {
            answer.next();
            say_defined(answer, program, *one);
        }
        answer.end_list();
    }
}

/// The methods that override the one to which a name resolves.
pub fn overriders(answer: &mut Answer, program: &Program, tables: &Hierarchy, word: &str) {
    let number = find_method(answer, program, word);
    match tables.resolve_method(program, number) {
        Some(at) => say_overriders(answer, program, tables, at),
        None => answer.refuse(),
    }
}

/// Whether nothing runs where a class is initialised.
pub fn trivial(answer: &mut Answer, program: &Program, tables: &Hierarchy, word: &str) {
    let class = find_class(answer, program, word);
    answer.say_whether(tables.trivially_initialised(program, class));
}
