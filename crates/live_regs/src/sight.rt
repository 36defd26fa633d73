//! Which registers are live before each position.

ghost use Rattle.std.specs.Prelude.{◌≡◌, ◌↔◌, ℕ, ◌+◌, ◌<◌, ◌^◌, true, [], length, slice_index_or, IfOk};
ghost use Rattle.body_graph.specs.Walks.{IsRead};
ghost use Rattle.body_graph.specs.Graph.{node_row};
ghost use Rattle.walk_marks.specs.Walks.{AreTurned, row_of, is_on};
ghost use Rattle.live_regs.specs.Liveness.{AreMarks, IsBack, ReadIt};
ghost use Rattle.live_regs.specs.Live.{is_live};

use crate::gate::Unwritten;
use crate::readers::readers_of;
use crate::sweeps::words_by_sweeps;
use crate::table::Live;
use body_graph::rows;
use program_model::Body;
use seq::Seq;
use std::alloc::{AllocError, Global};
use walk_marks::{marked, turned};

/// The positions before which a register is live that these read.
fn live_before(
    alloc: Global,
    body: &Body,
    back: &[Seq<u32>],
    readers: &[u32],
    register: u32,
) -> Result<Seq<bool>, AllocError>
    requires long { length back.now ≡ length body.now.insns + length body.now.regions }
    requires turned { IsBack body.now back.now }
    requires readers { ReadIt body.now register readers.now }
    ensures { IfOk result (AreMarks body.now register) }
{
    if readers.is_empty() {
        return Ok(Seq::new(alloc));
    }
    let gate = Unwritten { body, register };
    let mut marks = marked(alloc, back, readers, &gate)?;
    marks.truncate(body.insns.len());
    Ok(Seq::of_vec(marks))
}

/// For each register the positions before which it is live, found for one register after the other.
fn marks_by_walks(alloc: Global, body: &Body) -> Result<Vec<Seq<bool>>, AllocError>
    requires { length body.now.insns + length body.now.regions < 2 ^ 32 }
    ensures { IfOk result (λ v. (r : ℕ) → r < body.now.registers → AreMarks body.now r (slice_index_or v.items r [])) }
{
    let forth = rows(alloc, body)?;
    let back = turned(alloc, &forth, forth.len())?;
    let readers = readers_of(alloc, body)?;
    let mut marks = Vec::with_capacity(alloc, readers.len())?;
    for register in 0..body.registers {
        let of = readers[register as usize].as_slice();
        marks.push(live_before(alloc, body, &back, of, u32::from(register))?)?;
    }
    Ok(marks)
}

/// The registers that are live before each position of a body. The only error is want of memory.
pub fn live(alloc: Global, body: &Body) -> Result<Live, AllocError>
    requires { length body.now.insns + length body.now.regions < 2 ^ 32 }
    ensures { IfOk result (λ live. (n r : ℕ) → r < body.now.registers → (is_live live n r ≡ true) ↔ IsRead body.now r n) }
{
    if let Some(words) = words_by_sweeps(alloc, body)? {
        let marks = Vec::new(alloc);
        return Ok(Live { words, marks });
    }
    let marks = marks_by_walks(alloc, body)?;
    let words = Vec::new(alloc);
    Ok(Live { words, marks })
}
