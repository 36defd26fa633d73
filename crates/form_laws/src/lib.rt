//! Laws of forms, and of programs whose bodies have other forms at the same positions: what a form depends on and what it changes
//! (form_law), rewriting in place for any claims on registers (place_law), and its cases: reads of originals in place of copies
//! (copy_law), other registers (pack_law), and forms that are replaced by others that do the same in every state that a run reaches
//! (fold_law). It declares no types of its own; its functions have an empty body, and their contracts are the laws.
#![tactic(auto)]

pub mod copy_law;
pub mod fold_law;
pub mod form_law;
pub mod pack_law;
pub mod place_law;
