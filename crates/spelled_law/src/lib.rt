//! A program that is read of a file is the one that its bytes spell, and they spell no other. Laws alone, on those of
//! `code_laws` and `file_laws`: what is read of values, annotations, first values, directories and whole classes stands
//! in the bytes, and so does the whole file ([`laws::read_law`]); and each relation of dex_defs that makes up `Spells`
//! holds of one thing at a place ([`laws::one_program_law`]). [`laws::reads_spelled`] says both of bytes in memory.
#![tactic(auto)]

pub mod laws;
