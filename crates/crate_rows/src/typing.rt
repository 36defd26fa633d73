//! Bodies that are typed, and those that are not.

use hierarchy::Hierarchy;
use program_model::{Program, well_formed};
use program_text::{Answer, say_method};
use verify::{TypeFault, verify_all};

/// Adds where a body is refused.
fn say_fault(answer: &mut Answer, program: &Program, fault: TypeFault) {
    match fault {
        TypeFault::NoMemory => answer.note(true),
        TypeFault::IllTyped {
            method,
            position,
            register,
        } => {
            say_method(answer, program, method);
            answer.say_number(" at ", i128::from(position));
            answer.say_number(", register ", i128::from(register));
        }
    }
}

/// What the verifier says of a program.
pub fn say_typing(answer: &mut Answer, program: &Program) {
    if !well_formed(program) {
        answer.say("ill formed");
        return;
    }
    let Ok(hierarchy) = Hierarchy::build(answer.alloc(), program) else {
        answer.say("no hierarchy");
        return;
    };
    match verify_all(answer.alloc(), program, &hierarchy) {
        Ok(()) => answer.say("typed"),
        Err(fault) => say_fault(answer, program, fault),
    }
}
