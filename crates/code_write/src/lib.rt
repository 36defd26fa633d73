//! The code of a method as a code item spells it: each instruction in the first spelling with room, the payloads at
//! even units behind the code, the ranges under handlers and each different list of handlers once.
//!
//! [`write_body`] answers the bytes that `code_item` of `specs/Items.antt` gives for the body, the new numbers and where
//! things stand.
#![tactic(auto)]

mod bytes;
mod fields;
mod handlers;
mod insn;
mod item;
mod lists;
mod opcode;
mod payload;
mod places;
mod tries;
mod units;

pub use item::{CodeBytes, write_body, write_body_with};
