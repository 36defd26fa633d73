//! Framework classes as a DEX file of stubs declares them, and which methods of a program the framework cannot call back
//! by what it declares.
//!
//! [`read_library`] answers the classes and virtual methods that the bytes of the file spell, or the fault for which they
//! are refused as an input would be. [`narrow`] adds the list of shut methods to an outside. A virtual method is shut
//! where nothing that the framework declares above a class that finds it, nothing that is kept there and no call of the
//! program names it: the framework enters declared methods alone, so it never enters this one. Shut methods are kept no
//! longer for the framework's sake, and those that the program does not call either go.
//!
//! Proved of `read_library`: exactly what is read, and each fault; and of `narrow`: the list of shut methods has just those
//! of the definition (`specs/Shut.antt`), ascending, and all else is handed on. The code goes by tables (`specs/Marking.antt`,
//! `specs/Meeting.antt`), and lemmas say that the marks which the tables come to are those of the definition.
#![tactic(auto)]

mod called;
mod declared;
mod entered;
mod found;
mod library;
mod listed;
mod loose;
mod marks;
mod narrowing;
mod open;
mod others;
mod reading;
mod spelled;
mod texts;

pub use library::{Library, LibraryClass, LibraryMethod};
pub use narrowing::narrow;
pub use reading::read_library;
