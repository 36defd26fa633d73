//! How many members and instructions a program has.

ghost use Rattle.std.specs.Prelude.{◌≡◌, sum_by};
ghost use Rattle.program_model.specs.Cells.{capped};
ghost use Rattle.pipeline.specs.Counts.{class_members, members_of, method_insns, class_insns, insns_of};

use program_model::{Class, Method, Program};

/// How many fields and methods a class defines.
fn count_class_members(class: &Class) -> u64
    ensures { result ≡ capped (class_members class.now) }
{
    (class.fields.len() as u64).saturating_add(class.methods.len() as u64)
}

/// How many fields and methods the classes define. The greatest number of 64 bits stands for all above it. It takes no
/// memory.
pub fn count_members(program: &Program) -> u64
    ensures { result ≡ capped (members_of program.now) }
{
    let mut total: u64 = 0;
    for class in program.classes.as_slice() {
        total = total.saturating_add(count_class_members(class));
    }
    total
}

/// How many instructions a method has, none where it has no code.
fn count_method_insns(method: &Method) -> u64
    ensures { result ≡ method_insns method.now }
{
    match &method.body {
        Some(body) => body.insns.len() as u64,
        None => 0,
    }
}

/// How many instructions the methods of a class have.
fn count_class_insns(class: &Class) -> u64
    ensures { result ≡ capped (class_insns class.now) }
{
    let mut total: u64 = 0;
    for method in class.methods.as_slice() {
        total = total.saturating_add(count_method_insns(method));
    }
    total
}

/// How many instructions the bodies have. The greatest number of 64 bits stands for all above it. It takes no memory.
pub fn count_instructions(program: &Program) -> u64
    ensures { result ≡ capped (insns_of program.now) }
{
    let mut total: u64 = 0;
    for class in program.classes.as_slice() {
        total = total.saturating_add(count_class_insns(class));
    }
    total
}
