//! What goes up and down the stack (Dalvik bytecode, "invoke-kind", "return", "throw"): entries and results, thrown
//! objects, classes that are initialised, calls, new objects, monitors and fields. Each call takes the memory that it needs
//! before it changes the state, so a refusal has done nothing.
#![tactic(auto)]

mod asking;
mod calling;
mod fields;
mod objects;
mod stack;
mod starting;
mod throwing;

pub use calling::calls;
pub use fields::{
    Reading, Writing, field_room, instance_value, put_instance, put_ready, put_static, reads,
    static_value, writes,
};
pub use objects::{locks, makes, makes_shown, unlocks};
pub use stack::{enters, entry_frame, gives, shows_given};
pub use starting::{Readied, ends, initialises, readies};
pub use throwing::{Flight, Thrown, land, plan, throws};
