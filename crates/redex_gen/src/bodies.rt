//! The classes of the workload and the bodies of their methods.

ghost use Rattle.std.specs.Prelude.{◌≡◌, ◌+◌, ◌*◌, ◌<◌, ◌≤◌, length, IfOk};

use crate::names::{OBJECT, class_type, dead_of, methods, protos, run_of, strings, types};
use program_model::{
    BinaryOp, Body, Class, Flags, Insn, InvokeKind, Method, Program, Slot, Test, Version,
};
use seq::{Seq, Words};
use std::alloc::{AllocError, Global};

/// `return v0`, with one register.
fn dead_body(alloc: Global) -> Result<Body, AllocError> {
    let mut insns = Seq::new(alloc);
    insns.push(Insn::Return {
        slot: Slot::Word,
        from: 0,
    })?;
    Ok(Body {
        registers: 1,
        ins: 1,
        insns,
        regions: Seq::new(alloc),
    })
}

/// The call of `run` of the class with this place, with v2, and its result into v2.
fn push_call(insns: &mut Seq<Insn>, alloc: Global, callee: u32) -> Result<(), AllocError>
    requires { callee ≤ 2000 }
{
    let args = Words::of_slice(alloc, &[2])?;
    insns.push(Insn::Invoke {
        kind: InvokeKind::Static,
        method: run_of(callee),
        args,
    })?;
    insns.push(Insn::MoveResult {
        slot: Slot::Word,
        to: 2,
    })
}

/// v2 is the sum of two constants and the argument. A class with an odd place tests a constant before the argument is
/// added.
fn push_sum(insns: &mut Seq<Insn>, is_odd: bool, end: u32) -> Result<(), AllocError> {
    insns.push(Insn::Const { to: 0, value: 2 })?;
    insns.push(Insn::Const { to: 1, value: 3 })?;
    insns.push(Insn::Binary {
        op: BinaryOp::AddInt,
        to: 2,
        a: 0,
        b: 1,
    })?;
    if is_odd {
        insns.push(Insn::IfZero {
            test: Test::Eq,
            a: 0,
            target: end,
        })?;
    }
    insns.push(Insn::Binary {
        op: BinaryOp::AddInt,
        to: 2,
        a: 2,
        b: 3,
    })
}

/// The body of `run` of the class with this place, which calls that of the next class where there is one.
fn run_body(alloc: Global, place: u32, classes: u32) -> Result<Body, AllocError>
    requires place { place < classes }
    requires few { classes ≤ 2000 }
{
    let is_odd = place % 2 == 1;
    let calls = place + 1 < classes;
    let end = 4 + if is_odd { 1 } else { 0 } + if calls { 2 } else { 0 };
    let mut insns = Seq::new(alloc);
    push_sum(&mut insns, is_odd, end)?;
    if calls {
        push_call(&mut insns, alloc, place + 1)?;
    }
    insns.push(Insn::Return {
        slot: Slot::Word,
        from: 2,
    })?;
    Ok(Body {
        registers: 4,
        ins: 1,
        insns,
        regions: Seq::new(alloc),
    })
}

/// A public static method with this body.
fn static_method(alloc: Global, name: u32, body: Body) -> Method {
    Method {
        name,
        flags: Flags(0x9),
        marks: Seq::new(alloc),
        parameter_marks: Seq::new(alloc),
        body: Some(body),
        lines: Seq::new(alloc),
    }
}

/// The class with this place.
fn class(alloc: Global, place: u32, classes: u32) -> Result<Class, AllocError>
    requires place { place < classes }
    requires few { classes ≤ 2000 }
{
    let mut methods = Seq::new(alloc);
    methods.push(static_method(alloc, dead_of(place), dead_body(alloc)?))?;
    methods.push(static_method(alloc, run_of(place), run_body(alloc, place, classes)?))?;
    Ok(Class {
        name: class_type(place),
        flags: Flags(0x1),
        superclass: OBJECT,
        interfaces: Seq::new(alloc),
        source: None,
        marks: Seq::new(alloc),
        fields: Seq::new(alloc),
        methods,
    })
}

/// The program of so many classes `LW0;`, `LW1;` and so on, each with the public static methods `dead` and `run` of
/// proto `(I)I`. `dead` returns its argument. `run` adds two constants and the argument, behind a branch in a class with
/// an odd place, and hands the sum to `run` of the next class, if there is one. The only error is want of memory.
pub fn generate(alloc: Global, number: u32) -> Result<Program, AllocError>
    requires { number ≤ 2000 }
    ensures classes { IfOk result (λ program. length program.classes ≡ number) }
    ensures methods { IfOk result (λ program. length program.methods ≡ 2 * number) }
    ensures types { IfOk result (λ program. length program.types ≡ number + 2) }
{
    let mut classes = Seq::new(alloc);
    for place in 0..number {
        classes.push(class(alloc, place, number)?)?;
    }
    Ok(Program {
        strings: strings(alloc, number)?,
        types: types(alloc, number)?,
        protos: protos(alloc)?,
        fields: Seq::new(alloc),
        methods: methods(alloc, number)?,
        classes,
        version: Version::V035,
    })
}
