//! The registers as an environment.

ghost use Rattle.std.specs.Prelude.{◌≡◌, ◌<◌, IfOk, OnOk, OnErr};
ghost use Rattle.std.specs.FinMap as finite;
ghost use Rattle.std.specs.Option.{unwrap_or};
ghost use Rattle.domains.specs.Values.{least_value};
ghost use Rattle.program_model.specs.declared.program.Program.{Program};
ghost use Rattle.dom_frame.specs.Classes.{AreClasses};
ghost use Rattle.dom_frame.specs.Registers.{Registers, value_at, filled as filled_with};
ghost use Rattle.dom_frame.specs.Steps.{after as steps_to, branched};

use crate::branches::branch;
use crate::classes::Classes;
use crate::registers::filled;
use crate::steps::step;
use domains::Value;
use insn_set::Insn;
use pat_map::PatMap;
use std::alloc::{AllocError, Global};

/// A value for each register. A register without one is of nothing, and where no register has one nothing is reached.
///
/// What is read of a register without a value is lent from `low`.
#[derive(Drop)]
pub struct Frame {
    pub registers: PatMap<Value>,
    low: Value,
    ghost lowest: { low ≡ least_value },
}

impl Frame {
    /// These registers.
    pub fn of(registers: PatMap<Value>) -> Frame
        ensures { result.registers ≡ registers }
    {
        Frame {
            registers,
            low: Value::none(),
        }
    }

    /// The frame of what isn't reached.
    pub fn unreached() -> Frame
        ensures { result.registers ≡ finite.empty }
    {
        Frame::of(PatMap::empty())
    }

    /// The same value in each register below the size. The only error is want of memory.
    pub fn filled(alloc: Global, size: u32, value: &Value) -> Result<Frame, AllocError>
        ensures { IfOk result (λ f. f.registers ≡ filled_with size value.now) }
    {
        Ok(Frame::of(filled(alloc, size, value)?))
    }

    /// The value of a register, that of nothing where it has none. It takes no memory.
    pub fn get(&self, register: u32) -> &Value
        ensures { result.now ≡ value_at self.now.registers register }
    {
        match self.registers.get(register) {
            Some(value) => value,
            None => &self.low,
        }
    }

    /// Puts a value into a register. After want of memory, the only error, the frame is as it was.
    pub fn set(&mut self, alloc: Global, register: u32, value: Value) -> Result<(), AllocError>
        ensures ok { OnOk result (self.new.registers ≡ finite.insert self.old.registers register value) }
        ensures err { OnErr result (self.new.registers ≡ self.old.registers) }
    {
        let changed = self.registers.set(alloc, register, value)?;
        self.registers = changed;
        Ok(())
    }
}

/// The frame of some registers, or of what isn't reached.
fn frame_of(registers: Option<PatMap<Value>>) -> Frame
    ensures { result.registers ≡ unwrap_or registers finite.empty }
{
    match registers {
        Some(registers) => Frame::of(registers),
        None => Frame::unreached(),
    }
}

/// The frame behind an instruction, as [`step`] says, that of what isn't reached where nothing goes on. The only error is
/// want of memory.
pub fn after(
    alloc: Global,
    classes: &Classes,
    frame: &Frame,
    insn: &Insn,
    given: &Value,
) -> Result<Frame, AllocError>
    ensures { (p : Program) → AreClasses p classes.now → IfOk result (λ f. f.registers ≡ unwrap_or (steps_to p insn.now given.now frame.now.registers) finite.empty) }
{
    Ok(frame_of(step(alloc, classes, &frame.registers, insn, given)?))
}

/// The frame of a handler of what an instruction throws: a register that it writes it has not written. The only error is
/// want of memory.
pub fn after_throw(frame: &Frame) -> Result<Frame, AllocError>
    ensures { IfOk result (λ f. f.registers ≡ frame.now.registers) }
{
    Ok(Frame::of(frame.registers.share()?))
}

/// The frame where the test of a conditional branch passes, or doesn't, as [`branch`] says, that of what isn't reached where
/// it can't answer so. The only error is want of memory.
pub fn refine_branch(
    alloc: Global,
    frame: &Frame,
    insn: &Insn,
    taken: bool,
) -> Result<Frame, AllocError>
    ensures { IfOk result (λ f. f.registers ≡ unwrap_or (branched taken insn.now frame.now.registers) finite.empty) }
{
    Ok(frame_of(branch(alloc, &frame.registers, insn, taken)?))
}
