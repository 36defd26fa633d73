//! What a program means. `specs/` has the abstract machine: a program by its names, what it finds, the state, what
//! each instruction does, what the framework may do, and what is shown; docs/DEFINITIONS.md has a line for each
//! definition. This crate declares the types that the definitions share with code: named programs, the rows of the
//! framework, the moves of a script, and events. Its functions have an empty body, and their contracts are examples
//! and laws of the machine.
#![tactic(auto)]

pub mod call_examples;
mod encoded;
mod events;
pub mod examples;
pub mod form_examples;
mod forms;
pub mod laws;
mod names;
mod program;
mod script;
mod state;
mod tables;

pub use encoded::{NamedElement, NamedMark, NamedNote, NamedValue};
pub use events::{Event, Shown};
pub use forms::Form;
pub use names::{FieldKey, MethodKey, Signature};
pub use program::{
    NamedBody, NamedClass, NamedField, NamedHandler, NamedMethod, NamedProgram, NamedRegion,
};
pub use script::{Given, Move};
pub use state::{Frame, Value, Waiting};
pub use tables::{FloatOp, FloatRow, Floats, Framework, FrameworkType};
