//! What the readers give and what the bytes spell are one: laws that tie the reading functions of `dex_pools`, `code_read` and
//! `dex_read` to the relations of `dex_defs`, those of code (code_laws) and those of all else (file_laws), which build on them. It
//! declares no types of its own; its functions have an empty body, and their contracts are the laws.
#![tactic(auto)]

pub mod code_laws;
pub mod file_laws;
