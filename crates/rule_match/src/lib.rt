//! Which names the patterns of keep rules match: [`matches`] answers for a pattern that was read of a word what the
//! word's pieces match (`rule_text`'s `specs/Glob.antt` and `specs/Pieces.antt`), in time of the product of their lengths.
#![tactic(auto)]

mod glob;

pub use glob::{is_plain, is_star, matches, matches_pieces};
