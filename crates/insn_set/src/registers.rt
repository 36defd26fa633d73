//! The registers that a form reads and writes.

ghost use Rattle.std.specs.Prelude.{◌≡◌, nat_eq};
ghost use Rattle.std.specs.List.{list_any};
ghost use Rattle.insn_set.specs.Registers.{in_operand, number_reads, memory_reads, reads_of, writes_of};

use crate::form::Insn;

/// Whether the register is that of an operand, or the second one of a wide operand.
fn in_operand_at(wide: bool, at: u16, register: u32) -> bool
    ensures { result ≡ in_operand wide at register }
{
    let at = u32::from(at);
    if wide {
        register == at || register == at + 1
    } else {
        register == at
    }
}

/// Whether the register is one of the words.
fn is_among(words: &[u16], register: u32) -> bool
    ensures { result ≡ list_any (λ a. nat_eq a register) words.now }
{
    words.iter().any(|word| u32::from(*word) == register)
}

/// Whether a test of numbers or an operation on numbers reads the register.
fn number_reads(insn: &Insn, register: u32) -> bool
    ensures { result ≡ number_reads insn.now register }
{
    match insn {
        Insn::Cmp { op, a, b, .. } => {
            in_operand_at(op.compares_wide(), *a, register)
                || in_operand_at(op.compares_wide(), *b, register)
        }
        Insn::If { a, b, .. } => register == u32::from(*a) || register == u32::from(*b),
        Insn::IfZero { a, .. } | Insn::Literal { a, .. } => register == u32::from(*a),
        Insn::Unary { op, from, .. } => in_operand_at(op.reads_wide(), *from, register),
        Insn::Binary { op, a, b, .. } => {
            in_operand_at(op.is_wide(), *a, register)
                || in_operand_at(op.second_is_wide(), *b, register)
        }
        _ => false,
    }
}

/// Whether an operation on an array, or a get or a put of a field, reads the register, or an operation on numbers does.
fn memory_reads(insn: &Insn, register: u32) -> bool
    ensures { result ≡ memory_reads insn.now register }
{
    match insn {
        Insn::ArrayLength { from, .. } => register == u32::from(*from),
        Insn::NewArray { size, .. } => register == u32::from(*size),
        Insn::FillArray { on, .. } | Insn::InstanceGet { on, .. } => register == u32::from(*on),
        Insn::ArrayGet { array, index, .. } => {
            register == u32::from(*array) || register == u32::from(*index)
        }
        Insn::ArrayPut {
            item,
            from,
            array,
            index,
        } => {
            in_operand_at(item.is_wide(), *from, register)
                || register == u32::from(*array)
                || register == u32::from(*index)
        }
        Insn::InstancePut { item, from, on, .. } => {
            in_operand_at(item.is_wide(), *from, register) || register == u32::from(*on)
        }
        Insn::StaticPut { item, from, .. } => in_operand_at(item.is_wide(), *from, register),
        _ => number_reads(insn, register),
    }
}

impl Insn {
    /// Whether the instruction reads the register. It takes no memory.
    pub fn reads(&self, register: u32) -> bool
        ensures { result ≡ reads_of self.now register }
    {
        match self {
            Insn::Move { slot, from, .. } | Insn::Return { slot, from } => in_operand_at(
                slot.is_wide(),
                *from,
                register,
            ),
            Insn::MonitorEnter { on }
            | Insn::MonitorExit { on }
            | Insn::CheckCast { on, .. }
            | Insn::Throw { on }
            | Insn::PackedSwitch { on, .. }
            | Insn::SparseSwitch { on, .. } => register == u32::from(*on),
            Insn::InstanceOf { from, .. } => register == u32::from(*from),
            Insn::FilledNewArray { args, .. } | Insn::Invoke { args, .. } => is_among(
                args.as_slice(),
                register,
            ),
            _ => memory_reads(self, register),
        }
    }

    /// Whether the instruction writes the register. A cast writes none. It takes no memory.
    pub fn writes(&self, register: u32) -> bool
        ensures { result ≡ writes_of self.now register }
    {
        match self {
            Insn::Move { slot, to, .. } | Insn::MoveResult { slot, to } => in_operand_at(
                slot.is_wide(),
                *to,
                register,
            ),
            Insn::MoveException { to }
            | Insn::Const { to, .. }
            | Insn::ConstString { to, .. }
            | Insn::ConstClass { to, .. }
            | Insn::InstanceOf { to, .. }
            | Insn::ArrayLength { to, .. }
            | Insn::NewInstance { to, .. }
            | Insn::NewArray { to, .. }
            | Insn::Cmp { to, .. }
            | Insn::Literal { to, .. } => register == u32::from(*to),
            Insn::ConstWide { to, .. } => in_operand_at(true, *to, register),
            Insn::ArrayGet { item, to, .. }
            | Insn::InstanceGet { item, to, .. }
            | Insn::StaticGet { item, to, .. } => in_operand_at(item.is_wide(), *to, register),
            Insn::Unary { op, to, .. } => in_operand_at(op.writes_wide(), *to, register),
            Insn::Binary { op, to, .. } => in_operand_at(op.is_wide(), *to, register),
            _ => false,
        }
    }
}
