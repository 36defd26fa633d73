//! Instructions with other registers.

ghost use Rattle.std.specs.Prelude.{◌≡◌, ℕ, map, IfOk, IsTrue, OnOk, OnErr};
ghost use Rattle.insn_set.specs.Copies.{after_fields, after_objects};
ghost use Rattle.insn_regs.specs.Remade.{operands_of, remade};

use insn_set::Insn;
use seq::Words;
use std::alloc::{AllocError, Global};

/// Which register stands for which.
pub trait Renaming {
    /// The register that stands for a register.
    ghost renamed: { Self → ℕ → ℕ };

    /// The register that stands for this one. It takes no memory.
    fn at(&self, register: u16) -> u16
        ensures { result ≡ renamed self.now register };
}

/// The registers that stand for these.
fn renamed_words<R: Renaming>(
    alloc: Global,
    words: &[u16],
    renaming: &R,
) -> Result<Words, AllocError>
    ensures { IfOk result (λ w. w ≡ map (R.renamed renaming.now) words.now) }
{
    let registers: Vec<u16> = words.iter().map(|word| renaming.at(*word)).collect(alloc)?;
    Words::of_slice(alloc, registers.as_slice())
}

/// Puts the registers that stand for them in place of those that a branch or an operation on numbers reads. A goto reads
/// none.
fn rename_branch_reads<R: Renaming>(insn: &mut Insn, renaming: &R)
    requires { IsTrue (after_fields insn.old) }
    ensures { insn.new ≡ remade (R.renamed renaming.now) (λ r. r) insn.old }
{
    match insn {
        Insn::PackedSwitch { on, .. } => *on = renaming.at(*on),
        Insn::SparseSwitch { on, .. } => *on = renaming.at(*on),
        Insn::Cmp { a, b, .. } => {
            *a = renaming.at(*a);
            *b = renaming.at(*b);
        }
        Insn::If { a, b, .. } => {
            *a = renaming.at(*a);
            *b = renaming.at(*b);
        }
        Insn::Binary { a, b, .. } => {
            *a = renaming.at(*a);
            *b = renaming.at(*b);
        }
        Insn::IfZero { a, .. } => *a = renaming.at(*a),
        Insn::Literal { a, .. } => *a = renaming.at(*a),
        Insn::Unary { from, .. } => *from = renaming.at(*from),
        _ => {}
    }
}

/// Puts the registers that stand for them in place of those that an operation on an array, or a get or a put of a field,
/// reads, or a form behind these.
fn rename_memory_reads<R: Renaming>(insn: &mut Insn, renaming: &R)
    requires { IsTrue (after_objects insn.old) }
    ensures { insn.new ≡ remade (R.renamed renaming.now) (λ r. r) insn.old }
{
    match insn {
        Insn::NewArray { size, .. } => *size = renaming.at(*size),
        Insn::FillArray { on, .. } => *on = renaming.at(*on),
        Insn::ArrayGet { array, index, .. } => {
            *array = renaming.at(*array);
            *index = renaming.at(*index);
        }
        Insn::ArrayPut {
            from,
            array,
            index,
            ..
        } => {
            *from = renaming.at(*from);
            *array = renaming.at(*array);
            *index = renaming.at(*index);
        }
        Insn::InstanceGet { on, .. } => *on = renaming.at(*on),
        Insn::InstancePut { from, on, .. } => {
            *from = renaming.at(*from);
            *on = renaming.at(*on);
        }
        Insn::StaticGet { .. } => {}
        Insn::StaticPut { from, .. } => *from = renaming.at(*from),
        _ => rename_branch_reads(insn, renaming),
    }
}

/// Puts the registers that stand for them in place of those that an instruction reads. The register of a cast counts as
/// read. Where there is no memory, the instruction stays as it was.
pub fn rename_reads<R: Renaming>(
    alloc: Global,
    insn: &mut Insn,
    renaming: &R,
) -> Result<(), AllocError>
    ensures ok { OnOk result (insn.new ≡ remade (R.renamed renaming.now) (λ r. r) insn.old) }
    ensures err { OnErr result (insn.new ≡ insn.old) }
{
    match insn {
        Insn::Nop | Insn::MoveResult { .. } | Insn::MoveException { .. } | Insn::ReturnVoid => {}
        Insn::Const { .. } | Insn::ConstWide { .. } => {}
        Insn::ConstString { .. } | Insn::ConstClass { .. } | Insn::NewInstance { .. } => {}
        Insn::Move { from, .. } => *from = renaming.at(*from),
        Insn::Return { from, .. } => *from = renaming.at(*from),
        Insn::InstanceOf { from, .. } => *from = renaming.at(*from),
        Insn::ArrayLength { from, .. } => *from = renaming.at(*from),
        Insn::MonitorEnter { on } => *on = renaming.at(*on),
        Insn::MonitorExit { on } => *on = renaming.at(*on),
        Insn::CheckCast { on, .. } => *on = renaming.at(*on),
        Insn::Throw { on } => *on = renaming.at(*on),
        Insn::FilledNewArray { args, .. } => *args = renamed_words(
            alloc,
            args.as_slice(),
            renaming,
        )?,
        Insn::Invoke { args, .. } => *args = renamed_words(alloc, args.as_slice(), renaming)?,
        _ => rename_memory_reads(insn, renaming),
    }
    Ok(())
}

/// Puts the registers that stand for them in place of those that an instruction writes. It takes no memory.
pub fn rename_writes<R: Renaming>(insn: &mut Insn, renaming: &R)
    ensures { insn.new ≡ remade (λ r. r) (R.renamed renaming.now) insn.old }
{
    match insn {
        Insn::Move { to, .. } => *to = renaming.at(*to),
        Insn::MoveResult { to, .. } => *to = renaming.at(*to),
        Insn::MoveException { to } => *to = renaming.at(*to),
        Insn::Const { to, .. } => *to = renaming.at(*to),
        Insn::ConstWide { to, .. } => *to = renaming.at(*to),
        Insn::ConstString { to, .. } => *to = renaming.at(*to),
        Insn::ConstClass { to, .. } => *to = renaming.at(*to),
        Insn::InstanceOf { to, .. } => *to = renaming.at(*to),
        Insn::ArrayLength { to, .. } => *to = renaming.at(*to),
        Insn::NewInstance { to, .. } => *to = renaming.at(*to),
        Insn::NewArray { to, .. } => *to = renaming.at(*to),
        Insn::Cmp { to, .. } => *to = renaming.at(*to),
        Insn::ArrayGet { to, .. } => *to = renaming.at(*to),
        Insn::InstanceGet { to, .. } => *to = renaming.at(*to),
        Insn::StaticGet { to, .. } => *to = renaming.at(*to),
        Insn::Unary { to, .. } => *to = renaming.at(*to),
        Insn::Binary { to, .. } => *to = renaming.at(*to),
        Insn::Literal { to, .. } => *to = renaming.at(*to),
        _ => {}
    }
}

/// The registers that an instruction reads, of a pair the first one, in the order of its operands. The only error is want
/// of memory.
pub fn operands(alloc: Global, insn: &Insn) -> Result<Vec<u16>, AllocError>
    ensures { IfOk result (λ v. v.items ≡ operands_of insn.now) }
{
    match insn {
        Insn::Move { from, .. }
        | Insn::Return { from, .. }
        | Insn::InstanceOf { from, .. }
        | Insn::ArrayLength { from, .. }
        | Insn::StaticPut { from, .. }
        | Insn::Unary { from, .. } => Vec::from_slice(alloc, &[*from]),
        Insn::MonitorEnter { on }
        | Insn::MonitorExit { on }
        | Insn::CheckCast { on, .. }
        | Insn::FillArray { on, .. }
        | Insn::Throw { on }
        | Insn::PackedSwitch { on, .. }
        | Insn::SparseSwitch { on, .. }
        | Insn::InstanceGet { on, .. } => Vec::from_slice(alloc, &[*on]),
        Insn::NewArray { size, .. } => Vec::from_slice(alloc, &[*size]),
        Insn::FilledNewArray { args, .. } | Insn::Invoke { args, .. } => {
            Vec::from_slice(alloc, args.as_slice())
        }
        Insn::Cmp { a, b, .. } | Insn::If { a, b, .. } | Insn::Binary { a, b, .. } => {
            Vec::from_slice(alloc, &[*a, *b])
        }
        Insn::IfZero { a, .. } | Insn::Literal { a, .. } => Vec::from_slice(alloc, &[*a]),
        Insn::ArrayGet { array, index, .. } => Vec::from_slice(alloc, &[*array, *index]),
        Insn::ArrayPut {
            from,
            array,
            index,
            ..
        } => Vec::from_slice(alloc, &[*from, *array, *index]),
        Insn::InstancePut { from, on, .. } => Vec::from_slice(alloc, &[*from, *on]),
        _ => Ok(Vec::new(alloc)),
    }
}
