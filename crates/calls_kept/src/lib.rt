//! What the passes on calls leave of a well-formed and typed program is kept: what `devirt` leaves, whose calls name what their
//! receivers find (rebind_bridge, rebind_kept), what `quiet_code` leaves, in which calls and divisions that do nothing are nops
//! (quiet_bridge, quiet_kept), and what `inline_calls` leaves, in which copies of bodies stand at calls (splice_bridge,
//! inline_bridge, inline_kept). It declares no types of its own; its functions have an empty body, and their contracts are the
//! laws.
#![tactic(auto)]

pub mod inline_bridge;
pub mod inline_kept;
pub mod quiet_bridge;
pub mod quiet_kept;
pub mod rebind_bridge;
pub mod rebind_kept;
pub mod splice_bridge;
