//! Whether a call passes what the method takes that it finds, and takes what it gives. Where a typed program has a call that
//! a walk reaches, this is so; elsewhere there may be others, for which no body would stand.

ghost use Rattle.std.specs.Prelude.{◌≡◌, ◌+◌, slice_get};
ghost use Rattle.std.specs.Option.{option_copied};
ghost use Rattle.program_model.specs.MemberRules.{has_flag};
ghost use Rattle.program_model.specs.Texts.{letter_of, is_void, is_wide};
ghost use Rattle.splice.specs.Callees.{taken_by};
ghost use Rattle.splice.specs.Moves.{parameters_of};
ghost use Rattle.inline_calls.specs.Candidates.{second_behind, arg_behind, args_fit, args_behind, passes_args, result_of, takes_result, is_agreeing};

use crate::texts::type_units;
use insn_set::{Insn, InvokeKind, Slot};
use program_model::{Body, Flags, Method, Program};
use splice::taken_behind;

/// The unit that a type's descriptor begins with, 0 where there is none.
#[tactic(auto, unfolding(program_model::specs::Texts::letter_of))]
fn letter_of(program: &Program, kind: u32) -> u16
    ensures { result ≡ letter_of program.now kind }
{
    match type_units(program, kind) {
        [first, ..] => *first,
        [] => 0,
    }
}

/// Whether a type is long or double.
fn is_wide(program: &Program, kind: u32) -> bool
    ensures { result ≡ is_wide (letter_of program.now kind) }
{
    let letter = letter_of(program, kind);
    letter == 74 || letter == 68
}

/// Whether a type is void.
fn is_void(program: &Program, kind: u32) -> bool
    ensures { result ≡ is_void (letter_of program.now kind) }
{
    letter_of(program, kind) == 86
}

/// What stands behind the second register of a wide argument, if it follows the first.
fn second_behind(first: u16, args: &[u16]) -> Option<&[u16]>
    ensures { option_copied result ≡ second_behind first args.now }
{
    match args {
        [second, behind @ ..] if u32::from(*second) == u32::from(first) + 1 => Some(behind),
        _ => None,
    }
}

/// What stands behind the registers of an argument.
fn arg_behind(wide: bool, args: &[u16]) -> Option<&[u16]>
    ensures { option_copied result ≡ arg_behind wide args.now }
{
    match args {
        [first, behind @ ..] => {
            if wide {
                second_behind(*first, behind)
            } else {
                Some(behind)
            }
        }
        [] => None,
    }
}

/// Whether registers are those of arguments of these types, and no more.
fn args_fit(program: &Program, kinds: &[u32], args: &[u16]) -> bool
    ensures { result ≡ args_fit program.now kinds.now args.now }
{
    let mut rest = args;
    for kind in kinds {
        match arg_behind(is_wide(program, *kind), rest) {
            Some(behind) => rest = behind,
            None => return false,
        }
    }
    rest.is_empty()
}

/// What a call passes behind a receiver, where it is static just as the method is.
fn args_behind(is_static: bool, insn: &Insn) -> Option<&[u16]>
    ensures { option_copied result ≡ args_behind is_static insn.now }
{
    match insn {
        Insn::Invoke {
            kind: InvokeKind::Static,
            args,
            ..
        } if is_static => Some(args.as_slice()),
        Insn::Invoke {
            kind: InvokeKind::Direct,
            args,
            ..
        } if !is_static => arg_behind(false, args.as_slice()),
        _ => None,
    }
}

/// The types of the parameters of a method.
fn parameters_of(program: &Program, method: u32) -> &[u32]
    ensures { result.now ≡ parameters_of program.now method }
{
    let name = match program.methods.as_slice().get(method as usize) {
        Some(name) => name,
        None => return &[],
    };
    match program.protos.as_slice().get(name.proto as usize) {
        Some(proto) => proto.parameters.as_slice(),
        None => &[],
    }
}

/// The type that a method gives, the greatest number where it names none.
fn result_of(program: &Program, method: u32) -> u32
    ensures { result ≡ result_of program.now method }
{
    let name = match program.methods.as_slice().get(method as usize) {
        Some(name) => name,
        None => return u32::MAX,
    };
    match program.protos.as_slice().get(name.proto as usize) {
        Some(proto) => proto.result,
        None => u32::MAX,
    }
}

/// Whether such arguments are those that a method takes behind a receiver.
fn passes_args(program: &Program, method: &Method, args: Option<&[u16]>) -> bool
    ensures { result ≡ passes_args program.now method.now (option_copied args.entry) }
{
    match args {
        Some(args) => args_fit(program, parameters_of(program, method.name), args),
        None => false,
    }
}

/// Whether a result that is taken is one that a method gives, and as wide.
fn takes_result(program: &Program, method: &Method, taken: Option<(Slot, u16)>) -> bool
    ensures { result ≡ takes_result program.now method.now taken }
{
    match taken {
        Some((slot, _to)) => {
            let kind = result_of(program, method.name);
            !is_void(program, kind) && slot.is_wide() == is_wide(program, kind)
        }
        None => true,
    }
}

/// Whether a call passes what a method takes, and takes what it gives.
pub fn is_agreeing(
    program: &Program,
    body: &Body,
    position: usize,
    insn: &Insn,
    method: &Method,
) -> bool
    ensures { result ≡ is_agreeing program.now body.now position insn.now method.now }
{
    passes_args(
        program,
        method,
        args_behind(method.flags.has(Flags::STATIC), insn),
    ) && takes_result(
        program,
        method,
        taken_behind(body.insns.as_slice(), position),
    )
}
