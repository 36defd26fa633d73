//! Where `devirt` has nothing left to write, no call of an admitted method is bindable by name, as `pass_defs` says it: what the
//! pass asks by number of a call, its typing and the classes under its receiver's is what the definition asks by name. The
//! functions of this crate have an empty body, and their contracts are the laws (`specs/Bound.antt`).
//!
//! The first law speaks of receivers that have the kind of a class which is no interface. A join of two classes may give a
//! receiver the kind of an interface, where both have that one among their superclasses; the pass binds no call by such a kind.
//! The second law says that there is none where no class has an interface as its superclass.
#![tactic(auto)]

pub mod bound_law;
