//! The steps of a body, found.

ghost use Rattle.std.specs.Prelude.{◌≡◌, ◌+◌, ◌<◌, ◌^◌, ℕ, true, length, IfOk, OnOk};
ghost use Rattle.copy_prop.specs.Searches.{AreRows, AreSteps};

use crate::steps::{Steps, behind, insn_at, onward, push_row};
use body_graph::reached;
use flow_cfg::successors;
use program_model::Body;
use std::alloc::{AllocError, Global};

/// Adds the steps from a position to those from the positions before it.
fn add_rows(alloc: Global, body: &Body, position: u32, steps: &mut Steps) -> Result<(), AllocError>
    requires few { length body.now.insns + 1 < 2 ^ 32 }
    requires position { position < length body.now.insns }
    requires rows { AreRows body.now position steps.old.rows.items steps.old.fronts.items steps.old.backs.items }
    ensures reached { OnOk result (steps.new.reached ≡ steps.old.reached) }
    ensures rows { OnOk result (AreRows body.now (position + 1) steps.new.rows.items steps.new.fronts.items steps.new.backs.items) }
{
    let insn = insn_at(body, position);
    let row = successors(alloc, body, position)?;
    let front = onward(alloc, insn, position)?;
    let goes = front.as_slice();
    let back = Vec::from_slice(alloc, behind(row.as_slice(), goes.len()))?;
    push_row(&mut steps.rows, row)?;
    push_row(&mut steps.fronts, front)?;
    push_row(&mut steps.backs, back)?;
    Ok(())
}

/// The steps between the positions of a body, and which ones a walk comes to. The only error is want of memory.
pub(crate) fn steps_of(alloc: Global, body: &Body) -> Result<Steps, AllocError>
    requires few { length body.now.insns + 1 < 2 ^ 32 }
    requires regions { length body.now.insns + length body.now.regions < 2 ^ 32 }
    ensures { IfOk result (AreSteps body.now) }
{
    let mut steps = Steps {
        rows: Vec::new(alloc),
        fronts: Vec::new(alloc),
        backs: Vec::new(alloc),
        reached: reached(alloc, body)?,
    };
    for position in 0..body.insns.len() as u32 {
        add_rows(alloc, body, position, &mut steps)?;
    }
    Ok(steps)
}
