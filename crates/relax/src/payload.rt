//! Where the payloads stand (Dalvik bytecode, "packed-switch-payload", "sparse-switch-payload" and
//! "fill-array-data-payload").

ghost use Rattle.std.specs.Prelude.{◌≡◌, ◌++◌, IfOk, min};
ghost use Rattle.program_model.specs.Cells.{capped};
ghost use Rattle.relax.specs.Payloads.{units_behind, even_place, capped_place, payload_places, payload_end};

use program_model::Insn;
use std::alloc::{AllocError, Global};

/// How many units the instruction's payload has, 0 where it has none. It takes no memory.
pub fn payload_units(insn: &Insn) -> u64
    ensures { result ≡ units_behind insn.now }
{
    match insn {
        Insn::PackedSwitch { targets, .. } => {
            (targets.len() as u64).saturating_mul(2).saturating_add(4)
        }
        Insn::SparseSwitch { targets, .. } => {
            (targets.len() as u64).saturating_mul(4).saturating_add(2)
        }
        Insn::FillArray { width, items, .. } => {
            let bytes = (items.len() as u64).saturating_mul(u64::from(*width));
            bytes.saturating_add(1) / 2 + 4
        }
        _ => 0,
    }
}

/// The place itself where it is even, else the next one.
fn even_place(at: u64) -> u64
    ensures { result ≡ even_place at }
{
    at.saturating_add(at % 2)
}

/// The place in 32 bits, the greatest number of these for every place past it.
pub(crate) fn capped_place(at: u64) -> u32
    ensures { result ≡ capped_place at }
{
    if at < 0xffff_ffff {
        at as u32
    } else {
        0xffff_ffff
    }
}

/// Where each payload begins, and where the last one ends, the code ending at `end`.
pub(crate) fn payloads_of(
    alloc: Global,
    insns: &[Insn],
    end: u64,
) -> Result<(Vec<u32>, u64), AllocError>
    ensures places { IfOk result (λ r. r.0.items ≡ payload_places end insns.now) }
    ensures end { IfOk result (λ r. r.1 ≡ payload_end end insns.now) }
{
    let mut places = Vec::new(alloc);
    let mut at = end;
    for insn in insns {
        let units = payload_units(insn);
        if units > 0 {
            at = even_place(at);
            places.push(capped_place(at))?;
            at = at.saturating_add(units);
        }
    }
    Ok((places, at))
}
