//! The least layout of a body: how many units each instruction takes in its shortest spelling with room for its
//! distances, where each begins, and where the payloads stand behind the code. No sizes with room are smaller.
#![tactic(auto)]

mod far;
mod fault;
mod layout;
mod payload;
mod sizes;
mod step;

pub use fault::LayFault;
pub use layout::{Layout, lay_out};
pub use payload::payload_units;
pub use step::new_number;
