//! Calls of small methods of the caller's own class, with the body of the method in their place.
//!
//! It looks for sites: static and direct calls in admitted methods that find a short method with code and without regions
//! in the class of the caller, at which neither a class is initialised nor a receiver may be null, and which pass what the
//! method takes and take what it gives (`specs/Candidates.antt`). Each call that a walk reaches in a typed program does the
//! last; a call of dead code that doesn't is no site, since no body stands for it. Each site is asked about, if the caller
//! with it and with the earlier accepted ones is short, lays out and is typed, and the program keeps its cells
//! (`specs/Rooms.antt`). Where all advisers say yes, the call becomes a move for each argument and a copy of the method's
//! instructions (`splice`). The meaning stays, since entering and leaving a method shows nothing. No accepted site is left as
//! a call; what is copied may hold calls that would be sites themselves.
//!
//! The contract of `apply` pins the result (`specs/Accepting.antt`, `specs/Plans.antt`): position by position what is asked,
//! with which names and numbers, and what is chosen then; from this each admitted body with code, its lines and origins; and all
//! else stays. `count` is how many of the asks every adviser answered with yes, and where it is 0 the program is the same.
//! `answers` grew by one answer of each adviser for each ask, and those of one adviser are what it would have replied at the
//! beginning to these asks in order (`specs/Asked.antt`). After want of memory the first of these asks were made, and no other.
//! That the meaning stays is the law of inlining (`inline_law`), and inline_kept has it of this pass.
#![tactic(auto)]

mod agreeing;
mod asking;
mod caller;
mod done;
mod editing;
mod found;
mod laws;
mod lists;
mod pass;
mod room;
mod site;
mod texts;

pub use caller::{Accepted, Inliner};
pub use done::Done;
pub use editing::Edit;
pub use laws::candidates_law;
pub use pass::apply;
pub use site::{Caller, Known};
