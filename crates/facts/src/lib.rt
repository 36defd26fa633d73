//! What an analysis of a whole program answers: of each register at each position, of parameters, results and fields, and
//! which methods do nothing that anyone could see.
//!
//! An analysis fills the tables of [`Facts`], and a pass asks them by number ([`Facts::at`], [`Facts::parameter`],
//! [`Facts::result`], [`Facts::field`], [`Facts::quiet`]). So passes stand on what is answered and not on how it was found.
//! Nothing here says that an answer is right: who makes the tables answers for what they say.
//!
//! Proved is that each question reads the table that it names, at the number that it is asked at, and what it answers where
//! the table has no entry there (`specs/Lent.antt`): no run comes, anything is possible, or the method isn't quiet.
#![tactic(auto)]

mod facts;

pub use facts::Facts;
