//! What an analysis knows of the content of a register, as domains.
//!
//! Each domain is an order of values that describe contents: [`Word`] knows one number of either width, [`Interval`] a
//! range of signed words, [`Nullness`] whether a content is the word 0, which null is, and [`ClassSet`] the exact
//! classes of an object. [`Value`] joins the four. One value is at or below another exactly where the other describes
//! all that it describes, so that `leq` answers what the descriptions say, and nothing of how they are kept.
#![tactic(auto)]

mod class_sets;
mod laws;
mod nulls;
mod numbers;
mod ranges;
mod values;

pub use class_sets::ClassSet;
pub use laws::at_most_law;
pub use nulls::Nullness;
pub use numbers::Word;
pub use ranges::Interval;
pub use values::Value;
