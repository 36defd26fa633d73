//! What a program defines under a number. Each look-up goes through the lists: whoever asks often makes a table.

ghost use Rattle.std.specs.Prelude.{◌≡◌, ◌<◌, ◌^◌, length, All, IfSome, nat_eq, position};
ghost use Rattle.std.specs.Option.{option_copied};
ghost use Rattle.program_model.specs.Lookups.{class_place, method_from, method_place, insn_at};

use crate::program::{Class, Method, MethodAt, Program};
use insn_set::Insn;

/// The place of the first class that defines the type.
fn class_index(classes: &[Class], kind: u32) -> Option<usize>
    ensures value { result ≡ position (λ class. nat_eq class.name kind) classes.now }
    ensures inside { IfSome result (λ place. place < length classes.now) }
{
    classes.iter().position(|class| class.name == kind)
}

/// The place in `classes` of the first class that defines the type. It takes no memory.
pub fn class_at(program: &Program, kind: u32) -> Option<u32>
    requires { length program.now.classes < 2 ^ 32 }
    ensures { result ≡ class_place program.now kind }
{
    match class_index(program.classes.as_slice(), kind) {
        Some(place) => Some(place as u32),
        None => None,
    }
}

/// The place of a method's number among the methods of a class.
fn method_index(methods: &[Method], method: u32) -> Option<usize>
    ensures value { result ≡ position (λ m. nat_eq m.name method) methods.now }
    ensures inside { IfSome result (λ place. place < length methods.now) }
{
    methods.iter().position(|one| one.name == method)
}

/// Where the first definition of the method stands. It takes no memory.
pub fn method_named(program: &Program, method: u32) -> Option<MethodAt>
    requires classes { length program.now.classes < 2 ^ 32 }
    requires methods { All (λ class. length class.methods < 2 ^ 32) program.now.classes }
    ensures { result ≡ method_place program.now method }
{
    for (place, class) in program.classes.as_slice().iter().enumerate() {
        if let Some(found) = method_index(class.methods.as_slice(), method) {
            return Some(MethodAt {
                class: place as u32,
                place: found as u32,
            });
        }
    }
    None
}

/// The instruction at a position of a method, none where there is no such position. It takes no memory.
pub fn instruction(program: &Program, method: MethodAt, position: u32) -> Option<&Insn>
    ensures { option_copied result ≡ insn_at program.now method position }
{
    let class = program.classes.items.get(method.class as usize)?;
    let method = class.methods.items.get(method.place as usize)?;
    let body = method.body.as_ref()?;
    body.insns.items.get(position as usize)
}
