//! Copies of instructions. Each function copies a group of forms and hands the others on.

ghost use Rattle.std.specs.Prelude.{◌≡◌, IfOk, IsTrue};
ghost use Rattle.insn_set.specs.Copies.{after_branches, after_fields, after_arrays, after_objects, after_constants};

use crate::form::Insn;
use seq::Exact;
use std::alloc::AllocError;

/// A copy of an operation on numbers.
fn copied_number(insn: &Insn) -> Result<Insn, AllocError>
    requires { IsTrue (after_branches insn.now) }
    ensures { IfOk result (λ copy. copy ≡ insn.now) }
{
    match insn {
        Insn::Cmp { op, to, a, b } => Ok(Insn::Cmp {
            op: *op,
            to: *to,
            a: *a,
            b: *b,
        }),
        Insn::Unary { op, to, from } => Ok(Insn::Unary {
            op: *op,
            to: *to,
            from: *from,
        }),
        Insn::Binary { op, to, a, b } => Ok(Insn::Binary {
            op: *op,
            to: *to,
            a: *a,
            b: *b,
        }),
        Insn::Literal { op, to, a, value } => Ok(Insn::Literal {
            op: *op,
            to: *to,
            a: *a,
            value: *value,
        }),
        _ => unreachable!(),
    }
}

/// A copy of a branch, or of a form behind the branches.
fn copied_branch(insn: &Insn) -> Result<Insn, AllocError>
    requires { IsTrue (after_fields insn.now) }
    ensures { IfOk result (λ copy. copy ≡ insn.now) }
{
    match insn {
        Insn::Goto { target } => Ok(Insn::Goto { target: *target }),
        Insn::PackedSwitch { on, first, targets } => Ok(Insn::PackedSwitch {
            on: *on,
            first: *first,
            targets: targets.clone()?,
        }),
        Insn::SparseSwitch { on, keys, targets } => Ok(Insn::SparseSwitch {
            on: *on,
            keys: keys.clone()?,
            targets: targets.clone()?,
        }),
        Insn::If { test, a, b, target } => Ok(Insn::If {
            test: *test,
            a: *a,
            b: *b,
            target: *target,
        }),
        Insn::IfZero { test, a, target } => Ok(Insn::IfZero {
            test: *test,
            a: *a,
            target: *target,
        }),
        _ => copied_number(insn),
    }
}

/// A copy of a get or a put of a field, or of a form behind these.
fn copied_field(insn: &Insn) -> Result<Insn, AllocError>
    requires { IsTrue (after_arrays insn.now) }
    ensures { IfOk result (λ copy. copy ≡ insn.now) }
{
    match insn {
        Insn::InstanceGet {
            item,
            to,
            on,
            field,
        } => Ok(Insn::InstanceGet {
            item: *item,
            to: *to,
            on: *on,
            field: *field,
        }),
        Insn::InstancePut {
            item,
            from,
            on,
            field,
        } => Ok(Insn::InstancePut {
            item: *item,
            from: *from,
            on: *on,
            field: *field,
        }),
        Insn::StaticGet { item, to, field } => Ok(Insn::StaticGet {
            item: *item,
            to: *to,
            field: *field,
        }),
        Insn::StaticPut { item, from, field } => Ok(Insn::StaticPut {
            item: *item,
            from: *from,
            field: *field,
        }),
        _ => copied_branch(insn),
    }
}

/// A copy of an operation on an array, or of a form behind these.
fn copied_array(insn: &Insn) -> Result<Insn, AllocError>
    requires { IsTrue (after_objects insn.now) }
    ensures { IfOk result (λ copy. copy ≡ insn.now) }
{
    match insn {
        Insn::NewArray { to, size, kind } => Ok(Insn::NewArray {
            to: *to,
            size: *size,
            kind: *kind,
        }),
        Insn::FillArray { on, width, items } => Ok(Insn::FillArray {
            on: *on,
            width: *width,
            items: items.clone()?,
        }),
        Insn::ArrayGet {
            item,
            to,
            array,
            index,
        } => Ok(Insn::ArrayGet {
            item: *item,
            to: *to,
            array: *array,
            index: *index,
        }),
        Insn::ArrayPut {
            item,
            from,
            array,
            index,
        } => Ok(Insn::ArrayPut {
            item: *item,
            from: *from,
            array: *array,
            index: *index,
        }),
        _ => copied_field(insn),
    }
}

/// A copy of an operation on an object or of a call, or of a form behind these.
fn copied_object(insn: &Insn) -> Result<Insn, AllocError>
    requires { IsTrue (after_constants insn.now) }
    ensures { IfOk result (λ copy. copy ≡ insn.now) }
{
    match insn {
        Insn::MonitorEnter { on } => Ok(Insn::MonitorEnter { on: *on }),
        Insn::MonitorExit { on } => Ok(Insn::MonitorExit { on: *on }),
        Insn::CheckCast { on, kind } => Ok(Insn::CheckCast {
            on: *on,
            kind: *kind,
        }),
        Insn::InstanceOf { to, from, kind } => Ok(Insn::InstanceOf {
            to: *to,
            from: *from,
            kind: *kind,
        }),
        Insn::ArrayLength { to, from } => Ok(Insn::ArrayLength {
            to: *to,
            from: *from,
        }),
        Insn::NewInstance { to, kind } => Ok(Insn::NewInstance {
            to: *to,
            kind: *kind,
        }),
        Insn::FilledNewArray { kind, args } => Ok(Insn::FilledNewArray {
            kind: *kind,
            args: args.clone()?,
        }),
        Insn::Throw { on } => Ok(Insn::Throw { on: *on }),
        Insn::Invoke { kind, method, args } => Ok(Insn::Invoke {
            kind: *kind,
            method: *method,
            args: args.clone()?,
        }),
        _ => copied_array(insn),
    }
}

impl Exact for Insn {
    ghost exact = { λ x y h. h };
}

impl Clone for Insn {
    ghost use Rattle.std.specs.Prelude.{◌≡◌};

    ghost is_clone = { λ a b. b ≡ a };

    fn clone(&self) -> Result<Self, AllocError> {
        match self {
            Insn::Nop => Ok(Insn::Nop),
            Insn::Move { slot, to, from } => Ok(Insn::Move {
                slot: *slot,
                to: *to,
                from: *from,
            }),
            Insn::MoveResult { slot, to } => Ok(Insn::MoveResult {
                slot: *slot,
                to: *to,
            }),
            Insn::MoveException { to } => Ok(Insn::MoveException { to: *to }),
            Insn::ReturnVoid => Ok(Insn::ReturnVoid),
            Insn::Return { slot, from } => Ok(Insn::Return {
                slot: *slot,
                from: *from,
            }),
            Insn::Const { to, value } => Ok(Insn::Const {
                to: *to,
                value: *value,
            }),
            Insn::ConstWide { to, value } => Ok(Insn::ConstWide {
                to: *to,
                value: *value,
            }),
            Insn::ConstString { to, string } => Ok(Insn::ConstString {
                to: *to,
                string: *string,
            }),
            Insn::ConstClass { to, kind } => Ok(Insn::ConstClass {
                to: *to,
                kind: *kind,
            }),
            _ => copied_object(self),
        }
    }
}
