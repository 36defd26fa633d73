//! What keep rules in ProGuard's language mean: definitions alone. Which rules a text spells, which fault stands in one
//! that spells none, what rules match and keep of a program by its names, and how conditions are closed. `examples`
//! has small texts and programs of which the definitions compute.
#![tactic(auto)]

mod examples;
