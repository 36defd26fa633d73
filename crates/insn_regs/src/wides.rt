//! Which operands are wide, those of calls too.

ghost use Rattle.std.specs.Prelude.{◌≡◌, ◌++◌, ◌&&◌, [], true, not, map, drop, nat_eq, slice_get, slice_index_or, IfOk, OnOk};
ghost use Rattle.std.specs.List.{list_any};
ghost use Rattle.insn_set.specs.Registers.{in_operand, reads_of};
ghost use Rattle.program_model.specs.Texts.{letter_of};
ghost use Rattle.insn_regs.specs.Wides.{is_wide_type, parameters_in, widths_in, widths_of, wide_arguments, first_wide, behind_argument, wide_passed, first_if, wides_read, reads_as};

use insn_set::{Insn, InvokeKind, Slot};
use program_model::{MethodName, Program};
use seq::Seq;
use std::alloc::{AllocError, Global};

/// The unit that a type's descriptor begins with, 0 where there is none.
#[tactic(auto, unfolding(program_model::specs::Texts::type_text, program_model::specs::Texts::letter_of))]
fn letter_of(program: &Program, kind: u32) -> u16
    ensures { result ≡ letter_of program.now kind }
{
    match program.types.items.get(kind as usize) {
        Some(string) => match program.strings.items.get(*string as usize) {
            Some(text) => match text.units() {
                [first, ..] => *first,
                [] => 0,
            },
            None => 0,
        },
        None => 0,
    }
}

/// Whether a value of the type takes two registers: `J` or `D`.
fn is_wide_type(program: &Program, kind: u32) -> bool
    ensures { result ≡ is_wide_type program.now kind }
{
    let letter = letter_of(program, kind);
    letter == 74 || letter == 68
}

/// The types of a proto's parameters, none where there is no such proto.
fn parameters_in(program: &Program, proto: u32) -> &[u32]
    ensures { result.now ≡ parameters_in (slice_get program.now.protos proto) }
{
    match program.protos.items.get(proto as usize) {
        Some(proto) => proto.parameters.as_slice(),
        None => &[],
    }
}

/// Whether the receiver that a method may have is wide, and each of its parameters.
fn widths_in(alloc: Global, program: &Program, method: &MethodName) -> Result<Seq<bool>, AllocError>
    ensures { IfOk result (λ widths. widths ≡ widths_in program.now method.now) }
{
    let mut widths = Vec::new(alloc);
    widths.push(is_wide_type(program, method.class))?;
    for kind in parameters_in(program, method.proto) {
        widths.push(is_wide_type(program, *kind))?;
    }
    Ok(Seq::of_vec(widths))
}

/// For each method number, whether the receiver that it may have is wide, and each of its parameters.
pub fn widths_of(alloc: Global, program: &Program) -> Result<Vec<Seq<bool>>, AllocError>
    ensures { IfOk result (λ widths. widths.items ≡ widths_of program.now) }
{
    let mut widths = Vec::with_capacity(alloc, program.methods.len())?;
    for method in program.methods.as_slice() {
        widths.push(widths_in(alloc, program, method)?)?;
    }
    Ok(widths)
}

/// All but the first.
fn behind<T>(items: &[T]) -> &[T]
    ensures { result.now ≡ drop 1 items.now }
{
    match items {
        [_, rest @ ..] => rest,
        [] => items,
    }
}

/// Adds the first register of an argument where it is wide, and answers the registers behind the argument.
fn add_argument<'a>(
    wide: bool,
    words: &'a [u16],
    found: &mut Vec<u16>,
) -> Result<&'a [u16], AllocError>
    ensures found { OnOk result (found.new.items ≡ found.old.items ++ first_wide wide words.now) }
    ensures rest { IfOk result (λ rest. rest.now ≡ behind_argument wide words.now) }
{
    if !wide {
        return Ok(behind(words));
    }
    if let Some(word) = words.first() {
        found.push(*word)?;
    }
    Ok(behind(behind(words)))
}

/// Adds the first registers of the wide ones of some arguments.
fn add_wide_arguments(
    widths: &[bool],
    words: &[u16],
    found: &mut Vec<u16>,
) -> Result<(), AllocError>
    ensures { OnOk result (found.new.items ≡ found.old.items ++ wide_arguments widths.now words.now) }
{
    let mut rest = words;
    for wide in widths {
        rest = add_argument(*wide, rest, found)?;
    }
    Ok(())
}

/// Adds the register of an operand where it is wide.
fn add_if(wide: bool, register: u16, found: &mut Vec<u16>) -> Result<(), AllocError>
    ensures { OnOk result (found.new.items ≡ found.old.items ++ first_if wide register) }
{
    if wide {
        found.push(register)?;
    }
    Ok(())
}

/// The widths of a method's arguments, none where there is no such method.
fn row(widths: &[Seq<bool>], method: u32) -> &[bool]
    ensures { result.now ≡ slice_index_or widths.now method [] }
{
    match widths.get(method as usize) {
        Some(row) => row.as_slice(),
        None => &[],
    }
}

/// Adds the first registers of the wide arguments of a call.
fn add_wide_passed(
    kind: InvokeKind,
    widths: &[bool],
    words: &[u16],
    found: &mut Vec<u16>,
) -> Result<(), AllocError>
    ensures { OnOk result (found.new.items ≡ found.old.items ++ wide_passed kind widths.now words.now) }
{
    match kind {
        InvokeKind::Static => add_wide_arguments(behind(widths), words, found),
        _ => add_wide_arguments(widths, words, found),
    }
}

/// The first registers of the wide operands that an instruction reads, by the widths of all methods' arguments. The only
/// error is want of memory.
pub fn wides_read(alloc: Global, widths: &[Seq<bool>], insn: &Insn) -> Result<Vec<u16>, AllocError>
    ensures { IfOk result (λ v. v.items ≡ wides_read widths.now insn.now) }
{
    let mut found = Vec::new(alloc);
    match insn {
        Insn::Move { slot, from, .. } | Insn::Return { slot, from } => {
            add_if(slot.is_wide(), *from, &mut found)?;
        }
        Insn::Cmp { op, a, b, .. } => {
            add_if(op.compares_wide(), *a, &mut found)?;
            add_if(op.compares_wide(), *b, &mut found)?;
        }
        Insn::ArrayPut { item, from, .. }
        | Insn::InstancePut { item, from, .. }
        | Insn::StaticPut { item, from, .. } => add_if(item.is_wide(), *from, &mut found)?,
        Insn::Invoke { kind, method, args } => {
            add_wide_passed(*kind, row(widths, *method), args.as_slice(), &mut found)?;
        }
        Insn::Unary { op, from, .. } => add_if(op.reads_wide(), *from, &mut found)?,
        Insn::Binary { op, a, b, .. } => {
            add_if(op.is_wide(), *a, &mut found)?;
            add_if(op.second_is_wide(), *b, &mut found)?;
        }
        _ => {}
    }
    Ok(found)
}

/// Whether the register is one of these.
fn is_among(registers: &[u16], register: u16) -> bool
    ensures { result ≡ list_any (nat_eq register) registers.now }
{
    registers.iter().any(|one| register == *one)
}

/// Whether the register is the first or the second one of a pair.
fn is_in_pair(firsts: &[u16], register: u16) -> bool
    ensures { result ≡ list_any (λ at. in_operand true at register) firsts.now }
{
    let register = u32::from(register);
    firsts.iter().any(|at| {
        let at = u32::from(*at);
        register == at || register == at + 1
    })
}

/// Whether an instruction reads a register that is in none of its pairs.
fn reads_alone(insn: &Insn, firsts: &[u16], register: u16) -> bool
    ensures { result ≡ (reads_of insn.now register && not (list_any (λ at. in_operand true at register) firsts.now)) }
{
    insn.reads(u32::from(register)) && !is_in_pair(firsts, register)
}

/// Whether an instruction reads an operand as wide as the slot that begins at the register. The only error is want of
/// memory.
pub fn reads_as(
    alloc: Global,
    widths: &[Seq<bool>],
    slot: Slot,
    insn: &Insn,
    register: u16,
) -> Result<bool, AllocError>
    ensures { IfOk result (λ r. r ≡ reads_as widths.now slot insn.now register) }
{
    let wides = wides_read(alloc, widths, insn)?;
    if slot.is_wide() {
        Ok(is_among(wides.as_slice(), register))
    } else {
        Ok(reads_alone(insn, wides.as_slice(), register))
    }
}
