//! Which positions of a body are to go.

ghost use Rattle.std.specs.Prelude.{◌≡◌, ◌+◌, ◌<◌, ◌^◌, length, IfOk};
ghost use Rattle.walk_marks.specs.Walks.{is_on};
ghost use Rattle.thin_pass.specs.Wishing.{AreWished};
ghost use Rattle.squeeze.specs.Skipping.{passes, wish_for, AreSkips};

use body_edit::Fate;
use body_graph::reached;
use insn_set::Insn;
use program_model::Body;
use std::alloc::{AllocError, Global};

/// Whether an instruction is a nop, or a goto to the next position.
fn passes(insn: &Insn, position: u32) -> bool
    requires { position + 1 < 2 ^ 32 }
    ensures { result ≡ passes position insn.now }
{
    match insn {
        Insn::Nop => true,
        Insn::Goto { target } => *target == position + 1,
        _ => false,
    }
}

/// What is wished for a position.
fn wish(insn: &Insn, position: u32, reached: bool) -> Fate
    requires { position + 1 < 2 ^ 32 }
    ensures { result ≡ wish_for reached position insn.now }
{
    if !reached || passes(insn, position) {
        return Fate::Goes;
    }
    Fate::Stays
}

/// What is wished for the positions of a body, given which are reached.
fn wishes_by(alloc: Global, insns: &[Insn], reached: &[bool]) -> Result<Vec<Fate>, AllocError>
    requires long { length reached.now ≡ length insns.now }
    requires small { length insns.now < 2 ^ 32 }
    ensures { IfOk result (λ v. AreWished (λ n i. wish_for (is_on reached.now n) n i) insns.now v.items) }
{
    let mut wishes = Vec::with_capacity(alloc, insns.len())?;
    for position in 0..insns.len() {
        wishes.push(wish(&insns[position], position as u32, reached[position]))?;
    }
    Ok(wishes)
}

/// Of the positions of a body those are to go that no walk from the entry comes to, the nops, and the gotos to the next
/// position. The only error is want of memory.
pub fn wishes(alloc: Global, body: &Body) -> Result<Vec<Fate>, AllocError>
    requires { length body.now.insns + length body.now.regions < 2 ^ 32 }
    ensures { IfOk result (λ v. AreSkips body.now v.items) }
{
    let marks = reached(alloc, body)?;
    let wishes = wishes_by(alloc, body.insns.as_slice(), &marks)?;
    Ok(wishes)
}
