//! The steps between the positions of a body.

ghost use Rattle.std.specs.Prelude.{◌≡◌, ◌-◌, ◌<◌, ◌^◌, ◌++◌, ◌∷◌, [], length, drop, slice_get, IfOk, OnOk};
ghost use Rattle.body_graph.specs.Walks.{onward};

use insn_set::Insn;
use program_model::Body;
use seq::Seq;
use std::alloc::{AllocError, Global};

/// For each position, where a walk goes in one step, the part of it where the instruction doesn't throw, and the other
/// part; and which positions some walk from the entry comes to.
#[derive(Drop)]
pub(crate) struct Steps {
    pub(crate) rows: Vec<Seq<u32>>,
    pub(crate) fronts: Vec<Seq<u32>>,
    pub(crate) backs: Vec<Seq<u32>>,
    pub(crate) reached: Vec<bool>,
}

/// Where an instruction goes that doesn't throw: to the next position, and to its targets.
pub(crate) fn onward(alloc: Global, insn: &Insn, position: u32) -> Result<Vec<u32>, AllocError>
    requires { position < 2 ^ 32 - 1 }
    ensures { IfOk result (λ found. found.items ≡ onward insn.now position) }
{
    let mut found = Vec::new(alloc);
    if insn.continues() {
        found.push(position + 1)?;
    }
    match insn {
        Insn::Goto { target } | Insn::If { target, .. } | Insn::IfZero { target, .. } => {
            found.push(*target)?;
        }
        Insn::PackedSwitch { targets, .. } | Insn::SparseSwitch { targets, .. } => {
            found.extend_from_slice(targets.as_slice())?;
        }
        _ => {}
    }
    Ok(found)
}

/// The instruction at a position.
pub(crate) fn insn_at(body: &Body, position: u32) -> &Insn
    requires { position < length body.now.insns }
    ensures { slice_get body.now.insns position ≡ Some result.now }
{
    &body.insns.as_slice()[position as usize]
}

/// What stands behind so many items.
pub(crate) fn behind(items: &[u32], count: usize) -> &[u32]
    ensures { result.now ≡ drop count items.now }
{
    if count <= items.len() {
        &items[count..]
    } else {
        &[]
    }
}

/// Adds a row.
pub(crate) fn push_row(rows: &mut Vec<Seq<u32>>, row: Vec<u32>) -> Result<(), AllocError>
    ensures { OnOk result (rows.new.items ≡ rows.old.items ++ row.items ∷ []) }
{
    rows.push(Seq::of_vec(row))?;
    Ok(())
}
