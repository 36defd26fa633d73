//! Where a form can go on, and whether it may throw.

ghost use Rattle.std.specs.Prelude.{◌≡◌, ◌<◌, ◌^◌, length, slice_get};
ghost use Rattle.insn_set.specs.Flow.{divides, divides_by_literal, throws, goes_on, targets_of};

use crate::form::Insn;
use crate::ops::{BinaryOp, LiteralOp};

impl BinaryOp {
    /// Whether it is a division or a remainder of int or long, which throws where the divisor is 0.
    pub fn divides(self) -> bool
        ensures { result ≡ divides self }
    {
        matches!(
            self,
            BinaryOp::DivInt | BinaryOp::RemInt | BinaryOp::DivLong | BinaryOp::RemLong
        )
    }
}

impl LiteralOp {
    /// Whether it is a division or a remainder.
    pub fn divides(self) -> bool
        ensures { result ≡ divides_by_literal self }
    {
        matches!(self, LiteralOp::DivInt | LiteralOp::RemInt)
    }
}

impl Insn {
    /// Whether some value of its operands makes the instruction throw. It takes no memory.
    pub fn may_throw(&self) -> bool
        ensures { result ≡ throws self.now }
    {
        match self {
            Insn::MonitorEnter { .. }
            | Insn::MonitorExit { .. }
            | Insn::CheckCast { .. }
            | Insn::ArrayLength { .. }
            | Insn::NewInstance { .. }
            | Insn::NewArray { .. }
            | Insn::FillArray { .. }
            | Insn::Throw { .. }
            | Insn::ArrayGet { .. }
            | Insn::ArrayPut { .. }
            | Insn::InstanceGet { .. }
            | Insn::InstancePut { .. }
            | Insn::StaticGet { .. }
            | Insn::StaticPut { .. }
            | Insn::Invoke { .. } => true,
            Insn::Binary { op, .. } => op.divides(),
            Insn::Literal { op, .. } => op.divides(),
            _ => false,
        }
    }

    /// Whether the next position can follow. It takes no memory.
    pub fn continues(&self) -> bool
        ensures { result ≡ goes_on self.now }
    {
        !matches!(
            self,
            Insn::ReturnVoid | Insn::Return { .. } | Insn::Throw { .. } | Insn::Goto { .. }
        )
    }

    /// How many positions a branch can go to, one for each entry of a switch's table. It takes no memory.
    pub fn target_count(&self) -> u32
        requires { length (targets_of self.now) < 2 ^ 32 }
        ensures { result ≡ length (targets_of self.now) }
    {
        match self {
            Insn::Goto { .. } | Insn::If { .. } | Insn::IfZero { .. } => 1,
            Insn::PackedSwitch { targets, .. } | Insn::SparseSwitch { targets, .. } => {
                targets.len() as u32
            }
            _ => 0,
        }
    }

    /// The position that a branch can go to, for a place below the count. It takes no memory.
    pub fn target(&self, place: u32) -> u32
        requires { place < length (targets_of self.now) }
        ensures { slice_get (targets_of self.now) place ≡ Some result }
    {
        match self {
            Insn::Goto { target } | Insn::If { target, .. } | Insn::IfZero { target, .. } =>
                *target,
            Insn::PackedSwitch { targets, .. } | Insn::SparseSwitch { targets, .. } => {
                targets.items[place as usize]
            }
            _ => 0,
        }
    }
}
