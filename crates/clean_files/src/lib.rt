//! No fault stands where a file is read: laws alone, above those of the faults that are answered. What was found good at each place
//! that a fault may name contradicts the fault there, since the bytes fix every place.
#![tactic(auto)]

pub mod laws;
