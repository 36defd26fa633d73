//! Rebinding of calls: a virtual or interface call names the one method that all its receivers find.
//!
//! The receivers of a call are the objects that the facts of the whole program allow in its first register, where these know
//! their exact classes, or else the objects of all classes of the program under the class that the typing gives that register
//! (`verify`). Where all of them find one method with code, the call names that method by its own number. It becomes a virtual
//! call where that method's class is no interface, and else an interface call (Dalvik bytecode, "invoke-kind").
//!
//! The meaning stays, since each receiver finds the same method by both names, and null throws as before. The receiver's kind fits
//! the new class, so that the call stays typed, and the caller may reach the method: it and its class are public, or the class
//! is of the caller's package. A call that names a method with code of an interface goes to another interface only where that
//! one is under it.
//!
//! [`apply`] ensures that just those calls change, and become just that, which the receivers' finding allows by the facts or by
//! the typing of a method (`specs/Rebound.antt`, over `Binding` and `Reach`), that all else stays, that the calls then weigh less
//! (`specs/Measure.antt`), and that no call is left that is bindable by the kind of its receiver where nothing changed
//! (`specs/Left.antt`). Whether the facts are right is not said here.
#![tactic(auto)]

mod access;
mod binding;
mod falling;
mod pass;

pub use pass::{apply, no_facts};
