//! Which bodies changed since the passes on bodies came to them last.
//!
//! Where these passes leave a body as it was, and nothing changes it before they come again, they leave it so once more. So they look
//! only at the methods whose bodies stand before them otherwise than when they came last, be it in the same round or in the one
//! before. That is told by a print of each body, a sum of 64 bits, in which a get of a static field also tells whether it initialises the
//! field's class. Two bodies may have the same print: then the second one is looked at in the last round, which looks at all.

ghost use Rattle.std.specs.Prelude.{◌≡◌, true, false, IfOk, slice_index_or};
ghost use Rattle.pipeline.specs.Passes.{AreWithin};

use crate::marks::{is_on, mark};
use hierarchy::Hierarchy;
use insn_set::Insn;
use program_model::{Admitted, Body, Class, Method, Program, Region};
use std::alloc::{AllocError, Global};

/// A print with one more number. The factor is odd, and its bits are those of the golden ratio.
fn mixed(print: u64, number: u64) -> u64 {
    (print ^ number).wrapping_mul(0x9e37_79b9_7f4a_7c15)
}

/// A print with a register and a number.
fn with_one(print: u64, register: u16, number: u32) -> u64 {
    mixed(mixed(print, u64::from(register)), u64::from(number))
}

/// A print with two registers and a number.
fn with_two(print: u64, first: u16, second: u16, number: u32) -> u64 {
    with_one(mixed(print, u64::from(first)), second, number)
}

/// A print with a list of registers.
fn with_words(print: u64, words: &[u16]) -> u64 {
    let mut print = print;
    for word in words {
        print = mixed(print, u64::from(*word));
    }
    print
}

/// A print with a list of numbers.
fn with_numbers(print: u64, numbers: &[u32]) -> u64 {
    let mut print = print;
    for number in numbers {
        print = mixed(print, u64::from(*number));
    }
    print
}

/// Whether a get of the field is known to run no code.
fn is_quiet(program: &Program, graph: &Option<Hierarchy>, field: u32) -> bool {
    match graph {
        Some(hierarchy) => match hierarchy.resolve_field(program, field) {
            Some((class, _)) => hierarchy.trivially_initialised(program, class),
            None => false,
        },
        None => false,
    }
}

/// The print of an instruction that names no more than one register. Forms that no pass makes of one another are told apart by what
/// they name alone.
fn short_print(insn: &Insn) -> u64 {
    match insn {
        Insn::Goto { target } => with_one(1, 0, *target),
        Insn::Const { to, value } => with_one(2, *to, value.cast_unsigned()),
        Insn::ConstWide { to, value } => mixed(mixed(3, u64::from(*to)), value.cast_unsigned()),
        Insn::MoveResult { to, .. } | Insn::MoveException { to } => with_one(4, *to, 0),
        Insn::Return { from: on, .. }
        | Insn::MonitorEnter { on }
        | Insn::MonitorExit { on }
        | Insn::FillArray { on, .. }
        | Insn::Throw { on } => with_one(5, *on, 0),
        Insn::ConstString { to, string: number }
        | Insn::ConstClass { to, kind: number }
        | Insn::NewInstance { to, kind: number } => with_one(6, *to, *number),
        Insn::CheckCast { on, kind } => with_one(7, *on, *kind),
        Insn::StaticPut { from, field, .. } => with_one(8, *from, *field),
        Insn::IfZero { a, target, .. } => with_one(9, *a, *target),
        Insn::PackedSwitch { on, targets, .. } | Insn::SparseSwitch { on, targets, .. } => {
            with_numbers(with_one(10, *on, 0), targets.as_slice())
        }
        _ => 0,
    }
}

/// The print of an instruction that names something by its number beside two registers or a list of them, or of one that
/// names no more than one register.
fn named_print(insn: &Insn) -> u64 {
    match insn {
        Insn::InstanceOf {
            to,
            from,
            kind: number,
        }
        | Insn::NewArray {
            to,
            size: from,
            kind: number,
        }
        | Insn::InstanceGet {
            to,
            on: from,
            field: number,
            ..
        }
        | Insn::InstancePut {
            from: to,
            on: from,
            field: number,
            ..
        } => { with_two(12, *to, *from, *number) }
        Insn::FilledNewArray { kind: number, args }
        | Insn::Invoke {
            method: number,
            args,
            ..
        } => { with_words(with_one(16, 0, *number), args.as_slice()) }
        _ => short_print(insn),
    }
}

/// The print of an instruction.
fn insn_print(insn: &Insn) -> u64 {
    match insn {
        Insn::Move { to, from, .. }
        | Insn::ArrayLength { to, from }
        | Insn::Unary { to, from, .. } => with_two(11, *to, *from, 0),
        Insn::Cmp { to, a, b, .. }
        | Insn::Binary { to, a, b, .. }
        | Insn::ArrayGet {
            to,
            array: a,
            index: b,
            ..
        }
        | Insn::ArrayPut {
            from: to,
            array: a,
            index: b,
            ..
        } => { with_two(mixed(13, u64::from(*to)), *a, *b, 0) }
        Insn::Literal { to, a, value, .. } => {
            with_two(14, *to, *a, i32::from(*value).cast_unsigned())
        }
        Insn::If { a, b, target, .. } => with_two(15, *a, *b, *target),
        _ => named_print(insn),
    }
}

/// The print of an instruction of a program with this class graph.
fn print_in(program: &Program, graph: &Option<Hierarchy>, insn: &Insn) -> u64 {
    match insn {
        Insn::StaticGet { to, field, .. } => {
            let quiet = is_quiet(program, graph, *field);
            mixed(with_one(17, *to, *field), u64::from(quiet))
        }
        _ => insn_print(insn),
    }
}

/// A print with those of instructions.
fn with_insns(print: u64, program: &Program, graph: &Option<Hierarchy>, insns: &[Insn]) -> u64 {
    let mut print = print;
    for insn in insns {
        print = mixed(print, print_in(program, graph, insn));
    }
    print
}

/// A print with what regions cover.
fn with_regions(print: u64, regions: &[Region]) -> u64 {
    let mut print = print;
    for region in regions {
        print = mixed(mixed(print, u64::from(region.first)), u64::from(region.end));
    }
    print
}

/// The print of a body.
fn body_print(program: &Program, graph: &Option<Hierarchy>, body: &Body) -> u64 {
    let print = with_regions(u64::from(body.registers), body.regions.as_slice());
    with_insns(print, program, graph, body.insns.as_slice())
}

/// Notes the print of a body, and tells whether it is another one than before.
fn is_new(prints: &mut [u64], method: u32, print: u64) -> bool {
    match prints.get_mut(method as usize) {
        Some(old) => {
            let new = *old != print;
            *old = print;
            new
        }
        None => true,
    }
}

/// Marks a method that may be rewritten where its body isn't what it was.
#[tactic(auto, using(crate::proofs::Looking::marked_within))]
fn look_at_body(marks: &mut [bool], prints: &mut [u64], admitted: &[bool], method: u32, print: u64)
    requires within { AreWithin marks.old admitted.now }
    requires admitted { slice_index_or admitted.now method false ≡ true }
    ensures { AreWithin marks.new admitted.now }
{
    if is_new(prints, method, print) {
        mark(marks, method);
    }
}

/// Marks the method where it may be rewritten and its body isn't what it was.
fn look_at_method(
    marks: &mut [bool],
    prints: &mut [u64],
    admitted: &[bool],
    program: &Program,
    graph: &Option<Hierarchy>,
    method: &Method,
)
    requires { AreWithin marks.old admitted.now }
    ensures { AreWithin marks.new admitted.now }
{
    if !is_on(admitted, method.name) {
        return;
    }
    if let Some(body) = &method.body {
        let print = body_print(program, graph, body);
        look_at_body(marks, prints, admitted, method.name, print);
    }
}

/// Marks the methods of a class that may be rewritten and whose bodies aren't what they were.
fn look_at_class(
    marks: &mut [bool],
    prints: &mut [u64],
    admitted: &[bool],
    program: &Program,
    graph: &Option<Hierarchy>,
    class: &Class,
)
    requires { AreWithin marks.old admitted.now }
    ensures { AreWithin marks.new admitted.now }
{
    for method in class.methods.as_slice() {
        look_at_method(marks, prints, admitted, program, graph, method);
    }
}

/// Which methods may be rewritten and have other bodies than when this was asked last, by the prints of that time, which are then those
/// of this one. The only error is want of memory.
#[tactic(auto, using(crate::proofs::Looking::none_within))]
pub fn changed_bodies(
    alloc: Global,
    program: &Program,
    graph: &Option<Hierarchy>,
    prints: &mut [u64],
    admitted: &Admitted,
) -> Result<Admitted, AllocError>
    ensures { IfOk result (λ marks. AreWithin marks.methods.items admitted.now.methods.items) }
{
    let mut marks = vec![in alloc; false; admitted.methods.len()]?;
    for class in program.classes.as_slice() {
        look_at_class(
            marks.as_mut_slice(),
            prints,
            admitted.methods.as_slice(),
            program,
            graph,
            class,
        );
    }
    Ok(Admitted { methods: marks })
}
