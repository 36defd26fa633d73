//! What the code of reach leaves of a program is what the law of removal speaks of. The functions of this crate have an
//! empty body, and their contracts are the laws.
//!
//! `laws` says that what marks on numbers leave of a program is what is left of it by the names of the marked numbers.
//! `closed` says, record by record, that in both versions the names of the marked numbers keep what a closed family
//! keeps, where the marks have what the contract of `live_members` promises: they fit the tables, and they are closed
//! under what follows. With all records `closed_law` has the closed family, and `reach_law` that what the marks leave
//! shows the same. `accepted` puts these together for programs that the hierarchy and the verifier accept:
//! `accepted_reach_law` has for premises what the contracts of `Hierarchy::build`, `verify_all` and `live_members` say.
//!
//! What stands as a premise of the others:
//!
//! - `kept_law` asks that marked members are of classes of the program (`AreDefined`), so that their classes are live;
//!   `owners_law` has this without the premise for the classes that the program defines. `closed_law` and `reach_law`
//!   don't ask it, since they leave out the other members (`within`, in `specs/Names.antt`), of which nothing is left.
//! - The table of shut methods holds what it says (`ShutsHold`), which it does where it is empty, and the program is
//!   typed.
#![tactic(auto)]

pub mod accepted;
pub mod closed;
pub mod laws;
