//! A fault that is answered stands in the file: laws alone, on the readers' functions on bytes and `HasFault` of dex_defs,
//! of all that is read but code. `specs/` says which fault of the file is named by one that is answered; a passed limit is
//! none.
#![tactic(auto)]

pub mod laws;
