//! What is written for a well-formed program, code apart, is what a valid file has: its tables (written_tables), values and
//! annotations wherever their texts stand (written_values), the order of its classes (written_order), and class_defs, class data,
//! directories and first values where they are named, so that the file is valid where classes are spelled and their code stands
//! (written_classes). It declares no types of its own; its functions have an empty body, and their contracts are the laws.
//!
//! The parts of the classes of a written file, and where they are named: members in order, sets, directories, and first values,
//! whose texts are those of the written program.
//!
//! The annotations of a written file: they are used ones of a well-formed program, in order, fit by their new numbers, and can be
//! read where they stand, and so can their sets.
#![tactic(auto)]

pub mod written_classes;
pub mod written_order;
pub mod written_tables;
pub mod written_values;
