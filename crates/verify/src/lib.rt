//! The verifier: whether each body of a program is well typed, and what kind of value each register holds at each
//! position (this project's profile; the forms are those of Dalvik bytecode, "Summary of bytecode set").
//!
//! [`typings`] answers for one method the least table that gives each position that the entry reaches a kind for each
//! register, so that every read is allowed; where there is none, it answers the place where the least flow breaks.
//! [`verify_all`] asks the same of every method with code, in class and method order.
//!
//! The kinds are numbers of the program: all that is asked of a text is asked once for each type, proto and method,
//! when the tables are made, and no text is compared at an instruction.
#![tactic(auto)]

mod after;
mod arrivals;
mod building;
mod calls;
mod chains;
mod checks;
mod demands;
mod fault;
mod fits;
mod flow;
mod frames;
mod joins;
mod kinds;
mod laws;
mod listing;
mod methods;
mod named;
mod operands;
mod raising;
mod setting;
mod shapes;
mod sound;
mod tables;
mod typed;
mod wrong;

pub use checks::{typings, verify_all};
pub use fault::TypeFault;
pub use kinds::Kind;
pub use laws::{chains_law, joins_law, monotone_law, short_law, types_law, writes_law};
pub use typed::{Typings, Verifier};
