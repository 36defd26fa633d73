//! What the layers of the file stand on: numbers, texts, descriptors and the checksum.
//!
//! Each reader gives what a function on lists gives at that place, as `uleb_at`, and a law of `laws` ties that function
//! to the format: what is read stands there, what stands there is read, whatever follows it, and a fault has its cause in
//! the bytes. `specs/` has one module for each kind, `specs/Reading.antt` puts readings together, and
//! `specs/Decides.antt` says what such a law is; the lemmas for layers above are in `proofs/Decides.antt`,
//! `proofs/Chained.antt` and `proofs/Loop.antt`.
#![tactic(auto)]

mod checksum;
mod descriptor;
mod fault;
mod laws;
mod leb;
mod mutf8;
mod text;
mod word;

pub use checksum::adler;
pub use descriptor::{Descriptor, split_descriptor};
pub use fault::BaseFault;
pub use leb::{read_sleb, read_uleb, write_sleb, write_uleb};
pub use mutf8::{read_text, write_text};
pub use text::{Text, compare_units};
pub use word::{read_u16, read_u32, write_u16, write_u32};
