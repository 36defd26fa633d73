//! The numbers of code.

ghost use Rattle.std.specs.Prelude.{◌<◌, ◌^◌, FitsSigned};
ghost use Rattle.std.specs.Int.{w32};
ghost use Rattle.std.specs.List.{AllByRecursion};
ghost use Rattle.widths.specs.Code.{InWidth, WideBody, WideCode};

use insn_set::Insn;
use program_model::Body;

/// Reads registers, or the units of a text.
#[tactic(auto, using(crate::proofs::More::more))]
pub(crate) fn read_units(units: &[u16])
    ensures { AllByRecursion (λ a. a < 65536) units.now }
{
    for unit in units {
        let _unit = *unit;
    }
}

/// Reads the items of an array.
#[tactic(auto, using(crate::proofs::More::more))]
fn read_items(items: &[u64])
    ensures { AllByRecursion (λ n. n < 2 ^ 64) items.now }
{
    for item in items {
        let _item = *item;
    }
}

/// Reads the keys of a switch.
#[tactic(auto, using(crate::proofs::More::more))]
fn read_keys(keys: &[i32])
    ensures { AllByRecursion (FitsSigned w32) keys.now }
{
    for key in keys {
        let _key = *key;
    }
}

/// Reads the numbers of an instruction.
fn read_insn(insn: &Insn)
    ensures { InWidth insn.now }
{
    match insn {
        Insn::Move { to, from, .. } => {
            let _to = *to;
            let _from = *from;
        }
        Insn::Const { value, .. } => {
            let _value = *value;
        }
        Insn::ConstWide { value, .. } => {
            let _value = *value;
        }
        Insn::FilledNewArray { args, .. } | Insn::Invoke { args, .. } => {
            read_units(args.as_slice())
        }
        Insn::FillArray { items, .. } => read_items(items.as_slice()),
        Insn::PackedSwitch { first, .. } => {
            let _first = *first;
        }
        Insn::SparseSwitch { keys, .. } => read_keys(keys.as_slice()),
        Insn::Literal { value, .. } => {
            let _value = *value;
        }
        _ => {}
    }
}

/// Reads those of instructions.
#[tactic(auto, using(crate::proofs::More::more))]
fn read_insns(insns: &[Insn])
    ensures { AllByRecursion InWidth insns.now }
{
    for insn in insns {
        read_insn(insn);
    }
}

/// Reads those of a body.
fn read_body(body: &Body)
    ensures { WideBody body.now }
{
    let _registers = body.registers;
    let _ins = body.ins;
    read_insns(body.insns.as_slice())
}

/// Reads those of a body, if there is one.
pub(crate) fn read_code(body: &Option<Body>)
    ensures { WideCode body.now }
{
    match body {
        Some(body) => read_body(body),
        None => {}
    }
}
