//! What may be reached: the live members of a program, and the methods that a call may find.
//!
//! [`live_members`] marks the least sets of classes, made classes, fields and methods that the kept members need, each
//! set as long as its table, and [`callees`] lists what the calls of a method may find. Both are safe and end on every
//! program, hierarchy and outside.
#![tactic(auto)]

mod above;
mod at;
mod bases;
mod calls;
mod common;
mod facts;
mod follow;
mod lists;
mod live_set;
mod marks;
mod named;
mod notes;
mod objects;
mod rules;
mod supers;
mod tables;

pub use calls::{Edge, callees};
pub use live_set::{LiveSet, live_members};
