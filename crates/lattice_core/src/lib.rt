//! Orders with a least element and upper bounds, and those whose ascents end.
//!
//! A [`Lattice`] compares and joins the values that an analysis computes. A [`Domain`] is one whose values can't be
//! widened for ever: each widening that rises spends some of the value's rank. Their laws are part of the traits, so
//! that a solver over any domain rests on them alone. [`Flat`] knows one value or any, [`Lifted`] adds a value for what
//! isn't reached, [`Pair`] has two values side by side, and [`Env`] one for each place.
#![tactic(auto)]

mod flat_values;
mod lifting;
mod order;
mod pairs;
mod places;

pub use flat_values::Flat;
pub use lifting::Lifted;
pub use order::{Domain, Lattice};
pub use pairs::Pair;
pub use places::Env;
