//! The classes of a program by number: definitions alone. A class is named by its place among the program's classes, a
//! method by its class and its place there, and a name of a method or a field by its numbers. `specs/` says what stands
//! above a class, what a class defines, what a name resolves to and what a call finds, and when the classes make no
//! hierarchy.
#![tactic(auto)]

mod examples;
