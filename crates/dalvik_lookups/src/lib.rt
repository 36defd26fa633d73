//! What a program's names find, by numbers: tables that a run of the machine makes once.
//!
//! [`Lookups`] has a number for each type and each text that the program, the framework's rows or a script name, what is
//! under what, and what the framework may reach. Its tables are those of the program (`IsRight`, in `specs/Tables.antt`),
//! and what a number stands for is said in `specs/Views.antt`. [`Memo`] keeps what virtual and super calls and subtype
//! tests have found, by method number and by type, so that a call in a loop looks nothing up again. [`Play`] is a move of
//! a script in which all names are numbers.
#![tactic(auto)]

mod declared;
mod finds;
mod graph;
mod keepers;
pub mod known;
mod listing;
mod lookups;
mod marks;
mod memo;
mod naming;
mod outer;
mod plays;
mod slots;
mod starts;
mod texts;
mod types;

pub use finds::Search;
pub use graph::Above;
pub use lookups::Lookups;
pub use memo::Memo;
pub use plays::{FieldAt, Gift, Play};
pub use types::{Kind, Sort, Types};
