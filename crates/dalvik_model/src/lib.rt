//! The abstract machine of DEX programs: what a program shows to the framework under a script of framework moves.
//!
//! [`run`] answers the events of so many steps, [`Machine`] makes one step at a time. A step is one instruction, one move
//! of the framework, or one start or end of a class. The definitions of `dalvik_defs` run on names; here everything is a
//! number, from tables that are made once, and each function has the shape of the definition that it follows: `act` says
//! what a form does in its frame, `happens` what comes of it on the stack, `moves` what the framework does. Where there is
//! no memory for a step, nothing has happened: a step takes its memory before it changes anything.
#![tactic(auto)]

mod happens;
mod machine;

pub use dalvik_defs::{
    Event, FloatOp, FloatRow, Floats, Framework, FrameworkType, Given, Move, Shown,
};
pub use machine::{Machine, run};
