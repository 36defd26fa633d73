//! The code of a written file: each body is written as the code item that a valid file has there (written_codes), and with its code
//! the whole file is valid and its classes are spelled (written_spelled). It declares no types of its own; its functions have an
//! empty body, and their contracts are the laws.
//!
//! The code of a written body: the units of each instruction's shortest spelling are read as the instruction, with new numbers,
//! wherever they stand; a body's units are swept into its instructions and its payloads, and are those of the definition. Its
//! handler lists are written once each, the shorter ones first, and named by the offset at which they stand; and where the text of
//! its code item stands, so do its frame, its try items and its handler lists.
#![tactic(auto)]

pub mod written_codes;
pub mod written_spelled;
