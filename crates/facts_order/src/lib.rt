//! The tests by which a table of facts is certified, on values.
//!
//! A value is at or below another one where that holds of all that the first one holds of ([`is_below`], [`is_any`]). On it
//! stand the three tests of `facts_check` that tell of calls, fields and answers: what is passed is known of the parameter
//! ([`is_passed`]), a field that is kept may hold anything ([`is_open_field`]), and what a method gives is known of the answer
//! ([`is_answered`]). They stand here so that an edit of one is tried over a short proof.
#![tactic(auto)]

mod answers;
mod order;

pub use answers::{is_answered, is_open_field, is_passed};
pub use order::{is_any, is_below, value_at};
