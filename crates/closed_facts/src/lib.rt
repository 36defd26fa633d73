//! When a table of facts about the runs of a program is closed, by number: definitions alone.
//!
//! `specs/Closed.antt` puts them together. What the framework enters and what each needed class runs first is entered
//! (`Entries`), fields hold what is put into them (`Fields`), what a reached position leaves comes to wherever it goes on
//! (`Edges`, `Flows`), and what a call passes comes to each method that it may enter (`Calls`). Only live methods are
//! reached. The steps of instructions are those of `dom_frame`, what names find is told by `class_defs`, and what objects
//! find by the tables of `call_targets` (`Found`). They say by number what the law of coverage asks of a table by names.
#![tactic(auto)]
