//! Methods made static: a method that can do without its receiver takes it as its first parameter.
//!
//! A method is loose where it may be static (`loose_methods`), and the tables have room for its new proto, which has its class in front
//! of its parameters (`static_protos`). It becomes static under the same number, with that proto, and stands among the direct methods;
//! its calls become static calls of that number with the same registers (Dalvik executable format, "proto_id_item"; Dalvik bytecode,
//! "invoke-kind").
//!
//! The meaning stays, since each such call found this method with an object that isn't null, and a static call of it passes the
//! same registers to the same code and initialises nothing that runs code. Methods are judged in class and method order, and
//! the protos and strings that are appended for earlier ones count.
//!
//! [`apply`] ensures just that, by number: `specs/Judging.antt` says which methods are made static and what the tables get for each,
//! `specs/Loosened.antt` the program that comes, and `specs/Left.antt` that nothing loose is left where `count` is 0, and that else
//! fewer methods have a receiver.
#![tactic(auto)]

pub mod laws;
mod loosening;
mod pass;

pub use pass::apply;
