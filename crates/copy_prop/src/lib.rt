//! Copy propagation: a read of what a Move has copied reads the original.
//!
//! A read at a position is stale where every walk to it comes from one Move, and no register of the copy was written or
//! cast since. Then the instruction can read the original instead, where that is encodable and no longer. This is worth it
//! where the original has the lower number, or where the Move is idle afterwards, since each read behind it reads the
//! original (`specs/Stale.antt`; the instructions are those of Dalvik bytecode, "Summary of bytecode set").
//!
//! The meaning stays, since at such a read both registers hold the same value. Where [`apply`] changes nothing, no read in
//! an admitted method is stale; [`has_stale`] tells this without a change.
#![tactic(auto)]

mod copied;
mod looking;
mod moves;
mod pass;
mod reading;
mod searches;
mod stale;
mod steps;
mod walking;

pub use looking::has_stale;
pub use pass::apply;
