//! What the facts say of an instruction.

ghost use Rattle.std.specs.Prelude.{◌≡◌, IfOk};
ghost use Rattle.std.specs.Option.{option_copied};
ghost use Rattle.domains.specs.Values.{known_of, known_wide_of};
ghost use Rattle.value_ops.specs.Left.{is_nothing};
ghost use Rattle.facts.specs.Lent.{frame_at};
ghost use Rattle.const_prop.specs.Allowed.{insn_before};
ghost use Rattle.const_prop.specs.Asked.{IsKnown};
ghost use Rattle.const_prop.specs.Given.{given, number_at};
ghost use Rattle.const_prop.specs.Known.{zero_number, only_number, number_of, word_of, is_other_than_zero, never_throws};
ghost use Rattle.const_prop.specs.Known.{is_impossible, target_of, way_on, known_way, is_closed, refined_way, way_from, way_in, way_by};
ghost use Rattle.const_prop.specs.Known.{is_pure, is_always_pure, number_in, number_nowhere, number_by};

use crate::choices::{Way, is_choice, way_of};
use crate::numbers::{Number, result_of};
use crate::results::Results;
use dom_frame::{Frame, after, refine_branch};
use domains::{Nullness, Value};
use insn_set::{BinaryOp, Insn};
use program_model::Body;
use std::alloc::{AllocError, Global};

/// The method that is asked about: the place of its class, its number and its body.
#[derive(Clone, Copy)]
pub(crate) struct Code<'a> {
    pub(crate) class: u32,
    pub(crate) method: u32,
    pub(crate) body: &'a Body,
}

/// Whether a value holds of nothing.
fn is_nothing(value: &Value) -> bool
    ensures { result ≡ is_nothing value.now }
{
    matches!(value.nullness(), Nullness::Bottom)
}

/// The number 0 in one register, or in two.
fn zero(wide: bool) -> Number
    ensures { result ≡ zero_number wide }
{
    if wide {
        Number::Wide(0)
    } else {
        Number::Word(0)
    }
}

/// The word, where the value holds of it and of nothing else.
fn known_of(value: &Value) -> Option<u32>
    ensures { result ≡ known_of value.now }
{
    if value.has_no_object() {
        value.word().known()
    } else {
        None
    }
}

/// The wide number, where the value holds of it and of nothing else.
fn known_wide_of(value: &Value) -> Option<u64>
    ensures { result ≡ known_wide_of value.now }
{
    if value.has_no_object() {
        value.word().known_wide()
    } else {
        None
    }
}

/// The only number of which a value holds.
fn only_number(value: &Value, wide: bool) -> Option<Number>
    ensures { result ≡ only_number wide value.now }
{
    if wide {
        match known_wide_of(value) {
            Some(number) => Some(Number::Wide(number)),
            None => None,
        }
    } else {
        match known_of(value) {
            Some(word) => Some(Number::Word(word)),
            None => None,
        }
    }
}

/// The only number of which a value holds, or 0 where it holds of nothing.
fn number_of(value: &Value, wide: bool) -> Option<Number>
    ensures { result ≡ number_of value.now wide }
{
    if is_nothing(value) {
        Some(zero(wide))
    } else {
        only_number(value, wide)
    }
}

/// The only word of which a value holds, or 0 where it holds of nothing.
fn word_of(value: &Value) -> Option<u32>
    ensures { result ≡ word_of value.now }
{
    match number_of(value, false) {
        Some(Number::Word(word)) => Some(word),
        _ => None,
    }
}

/// Whether a number is known, and isn't 0.
fn is_other_than_zero(number: Option<Number>) -> bool
    ensures { result ≡ is_other_than_zero number }
{
    match number {
        Some(Number::Word(word)) => word != 0,
        Some(Number::Wide(number)) => number != 0,
        None => false,
    }
}

/// Whether an operation never throws whose second operand has a value.
fn never_throws(op: BinaryOp, divisor: &Value) -> bool
    ensures { result ≡ never_throws op divisor.now }
{
    if op.divides() {
        is_nothing(divisor) || is_other_than_zero(number_of(divisor, op.second_is_wide()))
    } else {
        true
    }
}

/// Whether nothing is known to be in a register that a branch reads, so that no run comes there.
fn is_impossible(frame: &Frame, insn: &Insn) -> bool
    ensures { result ≡ is_impossible frame.now.registers insn.now }
{
    match insn {
        Insn::If { a, b, .. } => {
            is_nothing(frame.get(u32::from(*a))) || is_nothing(frame.get(u32::from(*b)))
        }
        Insn::IfZero { a, .. } => is_nothing(frame.get(u32::from(*a))),
        Insn::PackedSwitch { on, .. } | Insn::SparseSwitch { on, .. } => {
            is_nothing(frame.get(u32::from(*on)))
        }
        _ => false,
    }
}

/// The target of a conditional branch.
fn target_of(insn: &Insn) -> Option<u32>
    ensures { result ≡ target_of insn.now }
{
    match insn {
        Insn::If { target, .. } | Insn::IfZero { target, .. } => Some(*target),
        _ => None,
    }
}

/// The way of a branch whose operands are known words.
fn way_on(insn: &Insn, a: Option<u32>, b: Option<u32>) -> Way
    ensures { result ≡ way_on insn.now a b }
{
    match (a, b) {
        (Some(a), Some(b)) => way_of(insn, a, b),
        _ => Way::Open,
    }
}

/// The way of a branch by what its operands hold.
fn known_way(frame: &Frame, insn: &Insn) -> Way
    ensures { result ≡ known_way frame.now.registers insn.now }
{
    match insn {
        Insn::If { a, b, .. } => {
            let first = word_of(frame.get(u32::from(*a)));
            way_on(insn, first, word_of(frame.get(u32::from(*b))))
        }
        Insn::IfZero { a, .. } => way_on(insn, word_of(frame.get(u32::from(*a))), Some(0)),
        Insn::PackedSwitch { on, .. } | Insn::SparseSwitch { on, .. } => {
            way_on(insn, word_of(frame.get(u32::from(*on))), Some(0))
        }
        _ => Way::Open,
    }
}

/// Whether the test of a conditional branch can't answer so.
fn is_closed(alloc: Global, frame: &Frame, insn: &Insn, taken: bool) -> Result<bool, AllocError>
    ensures { IfOk result (λ closed. closed ≡ is_closed taken frame.now.registers insn.now) }
{
    let left = refine_branch(alloc, frame, insn, taken)?;
    Ok(is_impossible(&left, insn))
}

/// The way of a conditional branch with a target, where one side is impossible.
fn refined_way(
    alloc: Global,
    frame: &Frame,
    insn: &Insn,
    target: Option<u32>,
) -> Result<Way, AllocError>
    ensures { IfOk result (λ way. way ≡ refined_way frame.now.registers insn.now target) }
{
    let target = match target {
        Some(target) => target,
        None => return Ok(Way::Open),
    };
    if is_closed(alloc, frame, insn, true)? {
        return Ok(Way::Next);
    }
    if is_closed(alloc, frame, insn, false)? {
        return Ok(Way::To(target));
    }
    Ok(Way::Open)
}

/// Where a branch goes on that a run may come to.
fn way_from(alloc: Global, frame: &Frame, insn: &Insn) -> Result<Way, AllocError>
    ensures { IfOk result (λ way. way ≡ way_from frame.now.registers insn.now) }
{
    if is_impossible(frame, insn) {
        return Ok(Way::Next);
    }
    match known_way(frame, insn) {
        Way::Open => refined_way(alloc, frame, insn, target_of(insn)),
        way => Ok(way),
    }
}

/// Where a branch goes on in the frame at its position: at the next one where no run comes there.
fn way_in(alloc: Global, frame: Option<&Frame>, insn: &Insn) -> Result<Way, AllocError>
    ensures { IfOk result (λ way. way ≡ way_in (option_copied frame.entry) insn.now) }
{
    match frame {
        Some(frame) => way_from(alloc, frame, insn),
        None => Ok(Way::Next),
    }
}

impl Results<'_> {
    /// Where the branch at a position goes on.
    pub(crate) fn way(
        &self,
        alloc: Global,
        code: &Code<'_>,
        position: u32,
        insn: &Insn,
    ) -> Result<Way, AllocError>
        ensures { IfOk result (λ way. way ≡ way_by (frame_at self.now.facts.now.frames.items code.now.method position) insn.now) }
    {
        if is_choice(insn) {
            way_in(alloc, self.facts.at(code.method, position), insn)
        } else {
            Ok(Way::Open)
        }
    }

    /// Whether an instruction that writes a register does nothing else: a division may throw.
    fn is_always_pure(&self, insn: &Insn) -> bool
        ensures { IsKnown self.now → result ≡ is_always_pure self.now.program.now insn.now }
    {
        match insn {
            Insn::StaticGet { field, .. } => self.is_quiet_field(*field),
            Insn::Literal { op, value, .. } => !op.divides() || *value != 0,
            _ => true,
        }
    }

    /// Whether an instruction does nothing but write a register, where a run comes there.
    fn is_pure(&self, frame: &Frame, insn: &Insn) -> bool
        ensures { IsKnown self.now → result ≡ is_pure self.now.program.now frame.now.registers insn.now }
    {
        match insn {
            Insn::Binary { op, b, .. } => never_throws(*op, frame.get(u32::from(*b))),
            _ => self.is_always_pure(insn),
        }
    }

    /// What an instruction behind another one brings from elsewhere.
    fn given(
        &self,
        alloc: Global,
        caller: u32,
        before: Option<&Insn>,
        insn: &Insn,
    ) -> Result<Value, AllocError>
        ensures { IsKnown self.now → IfOk result (λ v. v ≡ given self.now.program.now self.now.facts.now caller (option_copied before.entry) insn.now) }
    {
        match insn {
            Insn::MoveResult { .. } => self.behind(alloc, caller, before),
            Insn::StaticGet { field, .. } => self.of_field(alloc, *field),
            _ => Ok(Value::any()),
        }
    }

    /// The number that an instruction writes into a register, or a pair of them, where a run comes there.
    fn number_in(
        &self,
        alloc: Global,
        frame: &Frame,
        insn: &Insn,
        given: &Value,
        written: Option<(u16, bool)>,
    ) -> Result<Option<Number>, AllocError>
        ensures { IsKnown self.now → IfOk result (λ number. number ≡ number_in self.now.program.now given.now frame.now.registers insn.now written) }
    {
        let (to, wide) = match written {
            Some(written) => written,
            None => return Ok(None),
        };
        if !self.is_pure(frame, insn) {
            return Ok(None);
        }
        let behind = after(alloc, &self.classes, frame, insn, given)?;
        Ok(number_of(behind.get(u32::from(to)), wide))
    }

    /// The number that an instruction writes where no run comes: 0, if it does nothing else.
    fn number_nowhere(&self, insn: &Insn, written: Option<(u16, bool)>) -> Option<Number>
        ensures { IsKnown self.now → result ≡ number_nowhere self.now.program.now insn.now written }
    {
        let (_, wide) = written?;
        if self.is_always_pure(insn) {
            Some(zero(wide))
        } else {
            None
        }
    }

    /// The number that an instruction writes in the frame at its position.
    fn number_by(
        &self,
        alloc: Global,
        frame: Option<&Frame>,
        insn: &Insn,
        given: &Value,
    ) -> Result<Option<Number>, AllocError>
        ensures { IsKnown self.now → IfOk result (λ number. number ≡ number_by self.now.program.now given.now (option_copied frame.entry) insn.now) }
    {
        match frame {
            Some(frame) => self.number_in(alloc, frame, insn, given, result_of(insn)),
            None => Ok(self.number_nowhere(insn, result_of(insn))),
        }
    }

    /// The number that an instruction at a position, behind another one, writes.
    pub(crate) fn number(
        &self,
        alloc: Global,
        code: &Code<'_>,
        position: u32,
        before: Option<&Insn>,
        insn: &Insn,
    ) -> Result<Option<Number>, AllocError>
        ensures { IsKnown self.now → IfOk result (λ k. k ≡ number_at self.now.program.now self.now.facts.now code.now.class code.now.method (option_copied before.entry) position insn.now) }
    {
        let given = self.given(alloc, code.class, before, insn)?;
        self.number_by(alloc, self.facts.at(code.method, position), insn, &given)
    }
}

impl<'a> Code<'a> {
    /// The instruction in front of a position.
    pub(crate) fn before(&self, position: u32) -> Option<&'a Insn>
        ensures { option_copied result ≡ insn_before self.now.body.now.insns position }
    {
        match position.checked_sub(1) {
            Some(before) => self.body.insns.as_slice().get(before as usize),
            None => None,
        }
    }
}
