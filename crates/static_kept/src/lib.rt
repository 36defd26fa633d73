//! What `staticise` leaves of a well-formed program is well-formed (static_formed), and of a typed one kept for the outside of its
//! facts (static_kept): its plan is read (static_choice), and what certified facts know as not null holds no null (static_facts).
//! `along` says what passes owe one after another, some of which make methods static. It declares no types of its own; its
//! functions have an empty body, and their contracts are the laws.
#![tactic(auto)]

pub mod along;
pub mod static_choice;
pub mod static_facts;
pub mod static_formed;
pub mod static_kept;
