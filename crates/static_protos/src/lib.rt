//! The protos of methods that are made static, and the tables with them.
//!
//! A method that is made static gets its class in front of its parameters, so it needs a proto and a short form that may stand in no
//! table yet (Dalvik executable format, "proto_id_item", "ShortyDescriptor"). Methods come in class and method order, and what is
//! appended for earlier ones counts: a method gets its proto where no method of the table has its name and that proto, and where the
//! tables and the program keep the limits of files.
//!
//! [`grow`] gives for marked methods just what `specs/Tables.antt` and `specs/Growing.antt` say: what is appended to the strings and
//! to the protos, and the new proto of each method number. Texts, protos and names are looked up in sets that are made once.
#![tactic(auto)]

mod growth;
mod items;
mod letters;
mod tables;

pub use growth::{Growth, grow};
pub use tables::Wanted;
