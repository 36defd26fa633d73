//! Which methods may do without their receivers.
//!
//! A method may be static where it has code and a receiver, is no constructor and isn't kept, its class is no interface and is
//! initialised without code, nothing in the program or the framework overrides it, is overridden by it or reaches it in another
//! way than by calls, no annotation and no first value names it, and each call that names it or may find it stands in a method that
//! may be rewritten, names it through its class or one under that, finds it alone, and has a receiver that the facts know as not
//! null (Dalvik executable format, "access_flags Definitions"; Dalvik bytecode, "invoke-kind").
//!
//! [`find`] marks just these methods, by number: `specs/Loose.antt` says what keeps a method from being static, `specs/Candidates.antt`
//! which methods may be. Whether the tables have room for their new protos is left to who makes them static.
//!
//! The code goes over the classes once for the methods that other methods let be static, over the annotations and first values, and
//! over all calls, which take the marks of the others; what virtual and interface calls of a method number find is looked up once.
#![tactic(auto)]

mod calls;
mod candidates;
mod mentions;
mod sieve;
mod table;
mod texts;

pub use sieve::find;
