//! Where a read of a register is seen from.

ghost use Rattle.std.specs.Prelude.{◌≡◌, ℕ, Bool, not, ◌&&◌, nat_lt, length, slice_get};
ghost use Rattle.live_regs.specs.Liveness.{writes_at, sees};

use insn_set::Insn;
use program_model::Body;
use walk_marks::Gate;

/// Whether the instruction at a position writes a register.
fn writes_at(insns: &[Insn], position: u32, register: u32) -> bool
    ensures { result ≡ writes_at register (slice_get insns.now position) }
{
    match insns.get(position as usize) {
        Some(insn) => insn.writes(register),
        None => false,
    }
}

/// The edges of a body's graph, turned round, along which a read of a register is seen: all but those from a position to
/// one before it that writes the register.
#[derive(Drop)]
pub(crate) struct Unwritten<'a> {
    pub(crate) body: &'a Body,
    pub(crate) register: u32,
}

impl Gate for Unwritten<'_> {
    ghost lets = { λ g from to. sees g.body.now g.register from to };

    fn is_open(&self, from: u32, to: u32) -> bool {
        let insns = self.body.insns.as_slice();
        from as usize >= insns.len() || !writes_at(insns, to, self.register)
    }
}
