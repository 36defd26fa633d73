//! Calls and divisions that do nothing become nops.
//!
//! A call of a quiet method shows nothing, changes nothing, doesn't throw and ends. It does nothing at all where initialising
//! the method's class runs no code, no instruction takes its result, and its receiver, if it has one, is known not to be null.
//! A virtual call is such a one where all objects of the class that it names find one quiet method. A division or a remainder
//! does nothing where its divisor is known other than 0 and no walk onward reads its result before that is written again
//! (Dalvik bytecode, "binop"). Both become nops, which a later pass takes out. A call of a constructor stays, because its
//! object would stay uninitialised.
//!
//! Which methods are quiet the pass asks of `quiet_methods`, by the registers that the facts know at each position. What calls
//! of a method number find is told once for all of them, before any body is looked at.
//!
//! [`apply`] ensures that just the calls and divisions become nops that do nothing by these facts, that all else stays, and that
//! none is left where nothing changed (`specs/Calls.antt`, `Idle`, `Quieted`, by number). Whether the facts are right is not said
//! here.
#![tactic(auto)]

mod calls;
mod divisions;
mod pass;
mod told;

pub use pass::apply;
