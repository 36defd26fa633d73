//! What the numbers of an instruction have to be: registers of the body, entries of the tables, positions. Registers are
//! looked at by the groups in which forms are copied (`Copies` of insn_set), each of which hands the forms behind it on.

ghost use Rattle.std.specs.Prelude.{◌≡◌, nat_lt, length, not, position, IsTrue};
ghost use Rattle.std.specs.List.{list_all};
ghost use Rattle.insn_set.specs.Copies.{after_fields, after_objects};
ghost use Rattle.code_read.specs.Checks.{has_room, are_registers, registers_inside, numbers_inside, operands_inside, targets_inside};

use crate::sizes::Sizes;
use insn_set::Insn;

/// Whether an operand's register is below the count, and where it is wide, also the next one.
fn fits(wide: bool, register: u16, count: u16) -> bool
    ensures { result ≡ has_room wide register count }
{
    if wide {
        u32::from(register) + 1 < u32::from(count)
    } else {
        register < count
    }
}

/// Whether the words are registers.
fn all_fit(words: &[u16], count: u16) -> bool
    ensures { result ≡ are_registers words.now count }
{
    words.iter().all(|word| *word < count)
}

/// Whether each register of a branch, or of an operation on numbers, is below the count. A goto has none.
fn branch_registers(insn: &Insn, count: u16) -> bool
    requires { IsTrue (after_fields insn.now) }
    ensures { result ≡ registers_inside insn.now count }
{
    match insn {
        Insn::PackedSwitch { on, .. } | Insn::SparseSwitch { on, .. } => *on < count,
        Insn::If { a, b, .. } => *a < count && *b < count,
        Insn::IfZero { a, .. } => *a < count,
        Insn::Cmp { op, to, a, b } => {
            *to < count
                && (fits(op.compares_wide(), *a, count) && fits(op.compares_wide(), *b, count))
        }
        Insn::Unary { op, to, from } => {
            fits(op.writes_wide(), *to, count) && fits(op.reads_wide(), *from, count)
        }
        Insn::Binary { op, to, a, b } => {
            fits(op.is_wide(), *to, count)
                && (fits(op.is_wide(), *a, count) && fits(op.second_is_wide(), *b, count))
        }
        Insn::Literal { to, a, .. } => *to < count && *a < count,
        _ => true,
    }
}

/// Whether each register of an operation on an array or of a get or a put of a field is below the count, or of a form
/// behind these.
fn memory_registers(insn: &Insn, count: u16) -> bool
    requires { IsTrue (after_objects insn.now) }
    ensures { result ≡ registers_inside insn.now count }
{
    match insn {
        Insn::NewArray { to, size, .. } => *to < count && *size < count,
        Insn::FillArray { on, .. } => *on < count,
        Insn::ArrayGet {
            item,
            to,
            array,
            index,
        } => fits(item.is_wide(), *to, count) && (*array < count && *index < count),
        Insn::ArrayPut {
            item,
            from,
            array,
            index,
        } => fits(item.is_wide(), *from, count) && (*array < count && *index < count),
        Insn::InstanceGet { item, to, on, .. } => fits(item.is_wide(), *to, count) && *on < count,
        Insn::InstancePut { item, from, on, .. } => {
            fits(item.is_wide(), *from, count) && *on < count
        }
        Insn::StaticGet { item, to, .. } => fits(item.is_wide(), *to, count),
        Insn::StaticPut { item, from, .. } => fits(item.is_wide(), *from, count),
        _ => branch_registers(insn, count),
    }
}

/// Whether each register that an instruction reads or writes is below the count.
fn has_registers(insn: &Insn, count: u16) -> bool
    ensures { result ≡ registers_inside insn.now count }
{
    match insn {
        Insn::Nop | Insn::ReturnVoid => true,
        Insn::Move { slot, to, from } => {
            fits(slot.is_wide(), *to, count) && fits(slot.is_wide(), *from, count)
        }
        Insn::MoveResult { slot, to } => fits(slot.is_wide(), *to, count),
        Insn::Return { slot, from } => fits(slot.is_wide(), *from, count),
        Insn::ConstWide { to, .. } => fits(true, *to, count),
        Insn::MoveException { to }
        | Insn::Const { to, .. }
        | Insn::ConstString { to, .. }
        | Insn::ConstClass { to, .. }
        | Insn::NewInstance { to, .. } => *to < count,
        Insn::MonitorEnter { on }
        | Insn::MonitorExit { on }
        | Insn::CheckCast { on, .. }
        | Insn::Throw { on } => *on < count,
        Insn::InstanceOf { to, from, .. } | Insn::ArrayLength { to, from } => {
            *to < count && *from < count
        }
        Insn::FilledNewArray { args, .. } | Insn::Invoke { args, .. } => all_fit(
            args.as_slice(),
            count,
        ),
        _ => memory_registers(insn, count),
    }
}

/// Whether the table that an instruction names an entry of has that entry.
fn has_entry(insn: &Insn, sizes: &Sizes) -> bool
    ensures { result ≡ numbers_inside insn.now sizes.now }
{
    match insn {
        Insn::ConstString { string, .. } => *string < sizes.strings,
        Insn::ConstClass { kind, .. }
        | Insn::CheckCast { kind, .. }
        | Insn::InstanceOf { kind, .. }
        | Insn::NewInstance { kind, .. }
        | Insn::NewArray { kind, .. }
        | Insn::FilledNewArray { kind, .. } => *kind < sizes.types,
        Insn::InstanceGet { field, .. }
        | Insn::InstancePut { field, .. }
        | Insn::StaticGet { field, .. }
        | Insn::StaticPut { field, .. } => *field < sizes.fields,
        Insn::Invoke { method, .. } => *method < sizes.methods,
        _ => true,
    }
}

/// Whether the registers of an instruction and what it names are there.
pub(crate) fn fits_sizes(insn: &Insn, sizes: &Sizes) -> bool
    ensures { result ≡ operands_inside sizes.now insn.now }
{
    has_registers(insn, sizes.registers) && has_entry(insn, sizes)
}

/// Whether the numbers are below the count.
fn all_below(numbers: &[u32], count: u32) -> bool
    ensures { result ≡ list_all (λ n. nat_lt n count) numbers.now }
{
    numbers.iter().all(|number| *number < count)
}

/// Whether what a branch goes to are positions, of which there are so many.
pub(crate) fn stays_inside(insn: &Insn, count: u32) -> bool
    ensures { result ≡ targets_inside count insn.now }
{
    match insn {
        Insn::Goto { target } | Insn::If { target, .. } | Insn::IfZero { target, .. } => {
            *target < count
        }
        Insn::PackedSwitch { targets, .. } | Insn::SparseSwitch { targets, .. } => {
            all_below(targets.as_slice(), count)
        }
        _ => true,
    }
}

/// The position of the first branch that goes to no position.
pub(crate) fn first_outside(insns: &[Insn], count: u32) -> Option<usize>
    ensures { result ≡ position (λ insn. not (targets_inside count insn)) insns.now }
{
    insns.iter().position(|insn| !stays_inside(insn, count))
}
