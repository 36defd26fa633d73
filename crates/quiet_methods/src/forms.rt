//! Which forms are quiet.

ghost use Rattle.std.specs.Prelude.{◌≡◌, length};
ghost use Rattle.std.specs.Option.{option_copied};
ghost use Rattle.insn_set.specs.Flow.{targets_of};
ghost use Rattle.program_model.specs.Lookups.{method_at};
ghost use Rattle.hierarchy.specs.Shapes.{IsResolved};
ghost use Rattle.domains.specs.Values.{known_of, known_wide_of};
ghost use Rattle.value_ops.specs.Left.{is_nothing};
ghost use Rattle.quiet_methods.specs.Forms.{quiet_if, gets_quietly, method_demand, found_demand, call_demand, is_other_than_zero, is_no_zero, never_throws, is_plain, form_demand, demand};

use class_criteria::starts_quietly;
use dom_frame::Frame;
use domains::{Nullness, Value};
use hierarchy::Hierarchy;
use insn_set::{BinaryOp, Insn, InvokeKind};
use program_model::{Method, MethodAt, Program};

/// What a form asks for so that its method is quiet: nothing, that the method of a number is quiet, or what can't be.
#[derive(Clone, Copy, PartialEq, Eq, Debug, Drop)]
pub(crate) enum Demand {
    Nothing,
    Call(u32),
    Loud,
}

/// What the search for quiet methods asks: the program and the hierarchy of its classes.
#[derive(Clone, Copy)]
pub(crate) struct Search<'a> {
    pub(crate) program: &'a Program,
    pub(crate) hierarchy: &'a Hierarchy,
}

/// A demand for nothing, where a test passes.
fn quiet_if(holds: bool) -> Demand
    ensures { result ≡ quiet_if holds }
{
    if holds { Demand::Nothing } else { Demand::Loud }
}

/// Whether a value holds of nothing.
pub(crate) fn is_nothing(value: &Value) -> bool
    ensures { result ≡ is_nothing value.now }
{
    matches!(value.nullness(), Nullness::Bottom)
}

/// The word, where the value holds of it and of nothing else.
fn known_of(value: &Value) -> Option<u32>
    ensures { result ≡ known_of value.now }
{
    if value.has_no_object() {
        value.word().known()
    } else {
        None
    }
}

/// The wide number, where the value holds of it and of nothing else.
fn known_wide_of(value: &Value) -> Option<u64>
    ensures { result ≡ known_wide_of value.now }
{
    if value.has_no_object() {
        value.word().known_wide()
    } else {
        None
    }
}

/// Whether a word is known, and isn't 0.
fn is_word_other_than_zero(word: Option<u32>) -> bool
    ensures { result ≡ is_other_than_zero word }
{
    match word {
        Some(word) => word != 0,
        None => false,
    }
}

/// Whether a wide number is known, and isn't 0.
fn is_wide_other_than_zero(number: Option<u64>) -> bool
    ensures { result ≡ is_other_than_zero number }
{
    match number {
        Some(number) => number != 0,
        None => false,
    }
}

/// Whether a value holds of one number alone, other than 0, or of nothing.
fn is_no_zero(value: &Value) -> bool
    ensures { result ≡ is_no_zero value.now }
{
    is_nothing(value)
        || (is_word_other_than_zero(known_of(value))
            || is_wide_other_than_zero(known_wide_of(value)))
}

/// Whether an operation never throws whose second operand has a value.
fn never_throws(op: BinaryOp, divisor: &Value) -> bool
    ensures { result ≡ never_throws op divisor.now }
{
    !op.divides() || is_no_zero(divisor)
}

/// Whether a form does nothing but write a register, go on elsewhere or return, whatever its operands.
fn is_plain(insn: &Insn) -> bool
    ensures { result ≡ is_plain insn.now }
{
    matches!(
        insn,
        Insn::Nop
            | Insn::Move { .. }
            | Insn::MoveResult { .. }
            | Insn::MoveException { .. }
            | Insn::Const { .. }
            | Insn::ConstWide { .. }
            | Insn::ConstString { .. }
            | Insn::ConstClass { .. }
            | Insn::InstanceOf { .. }
            | Insn::Cmp { .. }
            | Insn::Unary { .. }
            | Insn::Goto { .. }
            | Insn::If { .. }
            | Insn::IfZero { .. }
            | Insn::PackedSwitch { .. }
            | Insn::SparseSwitch { .. }
            | Insn::Return { .. }
            | Insn::ReturnVoid
    )
}

/// How many targets a form has.
pub(crate) fn count_targets(insn: &Insn) -> usize
    ensures { result ≡ length (targets_of insn.now) }
{
    match insn {
        Insn::Goto { .. } | Insn::If { .. } | Insn::IfZero { .. } => 1,
        Insn::PackedSwitch { targets, .. } | Insn::SparseSwitch { targets, .. } => targets.len(),
        _ => 0,
    }
}

/// The method at a place.
fn method_in(program: &Program, at: MethodAt) -> Option<&Method>
    ensures { option_copied result ≡ method_at program.now at }
{
    match program.classes.as_slice().get(at.class as usize) {
        Some(class) => class.methods.as_slice().get(at.place as usize),
        None => None,
    }
}

/// What the call of a method asks for, where its class runs code when it is initialised or doesn't.
fn method_demand(starts: bool, method: Option<&Method>) -> Demand
    ensures { result ≡ method_demand starts (option_copied method.entry) }
{
    match method {
        Some(method) => {
            if starts && method.body.is_some() {
                Demand::Call(method.name)
            } else {
                Demand::Loud
            }
        }
        None => Demand::Loud,
    }
}

impl Search<'_> {
    /// Whether a get of a static field runs no code.
    fn gets_quietly(&self, field: u32) -> bool
        ensures { IsResolved self.now.program.now self.now.hierarchy.now → result ≡ gets_quietly self.now.program.now field }
    {
        match self.hierarchy.resolve_field(self.program, field) {
            Some((class, _)) => starts_quietly(self.program, self.hierarchy, class),
            None => false,
        }
    }

    /// What a call asks for that finds a method.
    fn found_demand(&self, found: Option<MethodAt>) -> Demand
        ensures { IsResolved self.now.program.now self.now.hierarchy.now → result ≡ found_demand self.now.program.now found }
    {
        match found {
            Some(at) => method_demand(
                starts_quietly(self.program, self.hierarchy, at.class),
                method_in(self.program, at),
            ),
            None => Demand::Loud,
        }
    }

    /// What a call asks for.
    fn call_demand(&self, kind: InvokeKind, method: u32) -> Demand
        ensures { IsResolved self.now.program.now self.now.hierarchy.now → result ≡ call_demand self.now.program.now kind method }
    {
        match kind {
            InvokeKind::Static => {
                self.found_demand(self.hierarchy.find_static(self.program, method))
            }
            _ => Demand::Loud,
        }
    }

    /// What a form asks for, whose targets are few enough.
    fn form_demand(&self, frame: &Frame, insn: &Insn) -> Demand
        ensures { IsResolved self.now.program.now self.now.hierarchy.now → result ≡ form_demand self.now.program.now frame.now.registers insn.now }
    {
        match insn {
            Insn::Binary { op, b, .. } => { quiet_if(never_throws(*op, frame.get(u32::from(*b)))) }
            Insn::Literal { op, value, .. } => quiet_if(!op.divides() || *value != 0),
            Insn::StaticGet { field, .. } => quiet_if(self.gets_quietly(*field)),
            Insn::Invoke { kind, method, .. } => self.call_demand(*kind, *method),
            _ => quiet_if(is_plain(insn)),
        }
    }

    /// What a form asks for so that its method is quiet, where its registers are known so far.
    pub(crate) fn demand(&self, frame: &Frame, insn: &Insn) -> Demand
        ensures { IsResolved self.now.program.now self.now.hierarchy.now → result ≡ demand self.now.program.now frame.now.registers insn.now }
    {
        if count_targets(insn) < 4294967296 {
            self.form_demand(frame, insn)
        } else {
            Demand::Loud
        }
    }
}
