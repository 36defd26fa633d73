//! What the registers and numbers of an instruction have to be (Dalvik bytecode, "Summary of bytecode set"). Registers are
//! looked at by the groups in which forms are copied (`Copies` of insn_set), each of which hands the forms behind it on.

ghost use Rattle.std.specs.Prelude.{◌≡◌, IsTrue};
ghost use Rattle.insn_set.specs.Copies.{after_fields, after_objects};
ghost use Rattle.program_model.specs.OperandRules.{has_room, are_registers, registers_fit, numbers_fit};

use crate::program::Program;
use crate::texts::{has_field, has_method, has_string, has_type};
use insn_set::Insn;

/// Whether an operand's register is below the count, and where it is wide, also the next one.
fn has_room(wide: bool, register: u16, count: u16) -> bool
    ensures { result ≡ has_room wide register count }
{
    if wide {
        u32::from(register) + 1 < u32::from(count)
    } else {
        register < count
    }
}

/// Whether the words are registers.
fn are_registers(words: &[u16], count: u16) -> bool
    ensures { result ≡ are_registers words.now count }
{
    words.iter().all(|word| *word < count)
}

/// Whether each register of a branch, or of an operation on numbers, is below the count. A goto has none.
#[tactic(auto, unfolding(crate::specs::OperandRules::registers_fit))]
fn branch_registers(insn: &Insn, count: u16) -> bool
    requires { IsTrue (after_fields insn.now) }
    ensures { result ≡ registers_fit insn.now count }
{
    match insn {
        Insn::PackedSwitch { on, .. } | Insn::SparseSwitch { on, .. } => *on < count,
        Insn::If { a, b, .. } => *a < count && *b < count,
        Insn::IfZero { a, .. } => *a < count,
        Insn::Cmp { op, to, a, b } => {
            *to < count
                && (has_room(op.compares_wide(), *a, count)
                    && has_room(op.compares_wide(), *b, count))
        }
        Insn::Unary { op, to, from } => {
            has_room(op.writes_wide(), *to, count) && has_room(op.reads_wide(), *from, count)
        }
        Insn::Binary { op, to, a, b } => {
            has_room(op.is_wide(), *to, count)
                && (has_room(op.is_wide(), *a, count) && has_room(op.second_is_wide(), *b, count))
        }
        Insn::Literal { to, a, .. } => *to < count && *a < count,
        _ => true,
    }
}

/// Whether each register of an operation on an array or of a get or a put of a field is below the count, or of a form
/// behind these.
#[tactic(auto, unfolding(crate::specs::OperandRules::registers_fit))]
fn memory_registers(insn: &Insn, count: u16) -> bool
    requires { IsTrue (after_objects insn.now) }
    ensures { result ≡ registers_fit insn.now count }
{
    match insn {
        Insn::NewArray { to, size, .. } => *to < count && *size < count,
        Insn::FillArray { on, .. } => *on < count,
        Insn::ArrayGet {
            item,
            to,
            array,
            index,
        } => has_room(item.is_wide(), *to, count) && (*array < count && *index < count),
        Insn::ArrayPut {
            item,
            from,
            array,
            index,
        } => has_room(item.is_wide(), *from, count) && (*array < count && *index < count),
        Insn::InstanceGet { item, to, on, .. } => has_room(item.is_wide(), *to, count)
            && *on < count,
        Insn::InstancePut { item, from, on, .. } => {
            has_room(item.is_wide(), *from, count) && *on < count
        }
        Insn::StaticGet { item, to, .. } => has_room(item.is_wide(), *to, count),
        Insn::StaticPut { item, from, .. } => has_room(item.is_wide(), *from, count),
        _ => branch_registers(insn, count),
    }
}

/// Whether each register that an instruction reads or writes is below the count.
#[tactic(auto, unfolding(crate::specs::OperandRules::registers_fit))]
pub(crate) fn registers_fit(insn: &Insn, count: u16) -> bool
    ensures { result ≡ registers_fit insn.now count }
{
    match insn {
        Insn::Nop | Insn::ReturnVoid => true,
        Insn::Move { slot, to, from } => {
            has_room(slot.is_wide(), *to, count) && has_room(slot.is_wide(), *from, count)
        }
        Insn::MoveResult { slot, to } => has_room(slot.is_wide(), *to, count),
        Insn::Return { slot, from } => has_room(slot.is_wide(), *from, count),
        Insn::ConstWide { to, .. } => has_room(true, *to, count),
        Insn::MoveException { to }
        | Insn::Const { to, .. }
        | Insn::ConstString { to, .. }
        | Insn::ConstClass { to, .. }
        | Insn::NewInstance { to, .. } => *to < count,
        Insn::MonitorEnter { on }
        | Insn::MonitorExit { on }
        | Insn::CheckCast { on, .. }
        | Insn::Throw { on } => *on < count,
        Insn::InstanceOf { to, from, .. } | Insn::ArrayLength { to, from } => {
            *to < count && *from < count
        }
        Insn::FilledNewArray { args, .. } | Insn::Invoke { args, .. } => are_registers(
            args.as_slice(),
            count,
        ),
        _ => memory_registers(insn, count),
    }
}

/// Whether what an instruction names is an entry of its table.
#[tactic(auto, unfolding(crate::specs::OperandRules::numbers_fit))]
pub(crate) fn numbers_fit(program: &Program, insn: &Insn) -> bool
    ensures { result ≡ numbers_fit insn.now program.now }
{
    match insn {
        Insn::ConstString { string, .. } => has_string(program, *string),
        Insn::ConstClass { kind, .. }
        | Insn::CheckCast { kind, .. }
        | Insn::InstanceOf { kind, .. }
        | Insn::NewInstance { kind, .. }
        | Insn::NewArray { kind, .. }
        | Insn::FilledNewArray { kind, .. } => has_type(program, *kind),
        Insn::InstanceGet { field, .. }
        | Insn::InstancePut { field, .. }
        | Insn::StaticGet { field, .. }
        | Insn::StaticPut { field, .. } => has_field(program, *field),
        Insn::Invoke { method, .. } => has_method(program, *method),
        _ => true,
    }
}
