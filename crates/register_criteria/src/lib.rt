//! The tests by which passes choose, on the registers of a body.
//!
//! Each is one sentence of a pass's definition: where a register is live behind a pure form ([`is_live_after`]), whether
//! registers meet at a position ([`is_hit`]), which register a wide ties to the next one ([`add_wide`]), how many registers are
//! no arguments ([`locals`]), and whether an instruction writes a register of a copy ([`writes_copy`]). They stand here, and not
//! in their passes, so that an edit of one is tried over a short proof: each answers exactly what the pass's own definition
//! says.
#![tactic(auto)]

mod copies;
mod live;
mod room;

pub use copies::writes_copy;
pub use live::{is_hit, is_live_after};
pub use room::{add_wide, locals};
