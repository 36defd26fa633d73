//! Registers below 64 as the bits of a word.

ghost use Rattle.std.specs.Prelude.{◌≡◌, ◌||◌, false, nat_eq};
ghost use Rattle.std.specs.List.{list_any};
ghost use Rattle.insn_set.specs.Registers.{in_operand, number_reads, memory_reads, reads_of, writes_of};
ghost use Rattle.live_regs.specs.Words.{has, IsMask, word_at, has_any};

use insn_set::Insn;

/// Whether a word has a register.
#[tactic(auto, using(crate::proofs::Masks::has_inside, crate::proofs::Masks::has_outside))]
pub fn has(word: u64, register: u32) -> bool
    ensures { result ≡ has word register }
{
    if register < 64 {
        (word >> register) & 1 == 1
    } else {
        false
    }
}

/// The word at a place, one without registers past the end.
pub(crate) fn word_at(words: &[u64], place: usize) -> u64
    ensures { result ≡ word_at words.now place }
{
    match words.get(place) {
        Some(word) => *word,
        None => 0,
    }
}

/// What the words at some places have together.
pub(crate) fn together(words: &[u64], places: &[u32]) -> u64
    ensures { IsMask (λ r. has_any words.now r places.now) result }
{
    let mut word = 0;
    for place in places {
        word |= word_at(words, *place as usize);
    }
    word
}

/// The word of one register, one without registers where it isn't below 64.
#[tactic(auto, using(crate::proofs::Masks::one_inside, crate::proofs::Masks::one_outside))]
fn one(register: u32) -> u64
    ensures { IsMask (λ r. nat_eq r register) result }
{
    if register < 64 { 1u64 << register } else { 0 }
}

/// The word of an operand, with the second register of a wide one.
#[tactic(auto, using(crate::proofs::Masks::wide_is, crate::proofs::Masks::narrow_is))]
fn operand(wide: bool, at: u16) -> u64
    ensures { IsMask (in_operand wide at) result }
{
    let at = u32::from(at);
    if wide { one(at) | one(at + 1) } else { one(at) }
}

/// The word of two operands.
#[tactic(auto, using(crate::proofs::Masks::either_is))]
fn either(wide: bool, at: u16, next_wide: bool, next: u16) -> u64
    ensures { IsMask (λ r. in_operand wide at r || in_operand next_wide next r) result }
{
    operand(wide, at) | operand(next_wide, next)
}

/// The word of an operand and two registers.
#[tactic(auto, using(crate::proofs::Masks::third_is))]
fn three(wide: bool, at: u16, next: u16, last: u16) -> u64
    ensures { IsMask (λ r. (in_operand wide at r || nat_eq r next) || nat_eq r last) result }
{
    either(wide, at, false, next) | operand(false, last)
}

/// The word of the registers of a call.
fn all(registers: &[u16]) -> u64
    ensures { IsMask (λ r. list_any (λ a. nat_eq a r) registers.now) result }
{
    let mut word = 0;
    for register in registers {
        word |= operand(false, *register);
    }
    word
}

/// The word without registers.
#[tactic(auto, using(crate::proofs::Masks::none_is))]
fn none() -> u64
    ensures { IsMask (λ r. false) result }
{
    0
}

/// The registers below 64 that a test of numbers or an operation on numbers reads.
fn number_word(insn: &Insn) -> u64
    ensures { IsMask (number_reads insn.now) result }
{
    match insn {
        Insn::Cmp { op, a, b, .. } => either(op.compares_wide(), *a, op.compares_wide(), *b),
        Insn::If { a, b, .. } => either(false, *a, false, *b),
        Insn::IfZero { a, .. } | Insn::Literal { a, .. } => operand(false, *a),
        Insn::Unary { op, from, .. } => operand(op.reads_wide(), *from),
        Insn::Binary { op, a, b, .. } => either(op.is_wide(), *a, op.second_is_wide(), *b),
        _ => none(),
    }
}

/// The registers below 64 that an operation on an array, a get or a put of a field, or an operation on numbers reads.
fn memory_word(insn: &Insn) -> u64
    ensures { IsMask (memory_reads insn.now) result }
{
    match insn {
        Insn::ArrayLength { from, .. } => operand(false, *from),
        Insn::NewArray { size, .. } => operand(false, *size),
        Insn::FillArray { on, .. } | Insn::InstanceGet { on, .. } => operand(false, *on),
        Insn::ArrayGet { array, index, .. } => either(false, *array, false, *index),
        Insn::ArrayPut {
            item,
            from,
            array,
            index,
        } => three(item.is_wide(), *from, *array, *index),
        Insn::InstancePut { item, from, on, .. } => either(item.is_wide(), *from, false, *on),
        Insn::StaticPut { item, from, .. } => operand(item.is_wide(), *from),
        _ => number_word(insn),
    }
}

/// The registers below 64 that an instruction reads. It takes no memory.
pub(crate) fn read_word(insn: &Insn) -> u64
    ensures { IsMask (reads_of insn.now) result }
{
    match insn {
        Insn::Move { slot, from, .. } | Insn::Return { slot, from } => {
            operand(slot.is_wide(), *from)
        }
        Insn::MonitorEnter { on }
        | Insn::MonitorExit { on }
        | Insn::CheckCast { on, .. }
        | Insn::Throw { on }
        | Insn::PackedSwitch { on, .. }
        | Insn::SparseSwitch { on, .. } => operand(false, *on),
        Insn::InstanceOf { from, .. } => operand(false, *from),
        Insn::FilledNewArray { args, .. } | Insn::Invoke { args, .. } => all(args.as_slice()),
        _ => memory_word(insn),
    }
}

/// The registers below 64 that an instruction writes. It takes no memory.
pub fn write_word(insn: &Insn) -> u64
    ensures { IsMask (writes_of insn.now) result }
{
    match insn {
        Insn::Move { slot, to, .. } | Insn::MoveResult { slot, to } => {
            operand(slot.is_wide(), *to)
        }
        Insn::MoveException { to }
        | Insn::Const { to, .. }
        | Insn::ConstString { to, .. }
        | Insn::ConstClass { to, .. }
        | Insn::InstanceOf { to, .. }
        | Insn::ArrayLength { to, .. }
        | Insn::NewInstance { to, .. }
        | Insn::NewArray { to, .. }
        | Insn::Cmp { to, .. }
        | Insn::Literal { to, .. } => operand(false, *to),
        Insn::ConstWide { to, .. } => operand(true, *to),
        Insn::ArrayGet { item, to, .. }
        | Insn::InstanceGet { item, to, .. }
        | Insn::StaticGet { item, to, .. } => operand(item.is_wide(), *to),
        Insn::Unary { op, to, .. } => operand(op.writes_wide(), *to),
        Insn::Binary { op, to, .. } => operand(op.is_wide(), *to),
        _ => none(),
    }
}
