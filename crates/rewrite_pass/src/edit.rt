//! What is written over an instruction.

use insn_set::Insn;

/// A position of a body, and the instruction that is written there.
#[derive(Drop)]
pub struct Edit {
    pub position: u32,
    pub insn: Insn,
}
