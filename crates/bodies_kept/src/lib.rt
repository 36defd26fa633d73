//! What passes on bodies leave of a well-formed and typed program is kept: of passes that thin bodies (thin_bridge), squeezing
//! (squeeze_bridge) and the removal of dead code (dead_bridge), and of copy propagation and compaction (copy_bridge,
//! compact_bridge), for which a program with other bodies is a change of the program (change_bridge), an instruction with other
//! registers has the form with other registers (operand_bridge), and typings are made again (kept_bridge, copy_kinds, copy_kept).
//! They keep what a table of shut methods owes (shut_bridge), and methods that may not be rewritten stay whole (stay_law). It
//! declares no types of its own; its functions have an empty body, and their contracts are the laws.
#![tactic(auto)]

pub mod change_bridge;
pub mod compact_bridge;
pub mod copy_bridge;
pub mod copy_kept;
pub mod copy_kinds;
pub mod dead_bridge;
pub mod kept_bridge;
pub mod operand_bridge;
pub mod shut_bridge;
pub mod squeeze_bridge;
pub mod stay_law;
pub mod thin_bridge;
