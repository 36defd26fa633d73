//! The state of the abstract machine, by numbers (Dalvik bytecode, "General Design"): values, frames, the heap, the
//! stack, and what a run reads.
//!
//! A type, a text, a class, a method and a field are numbers of `dalvik_lookups`' tables; an object is its number on the
//! heap. Beside the state stand what an instruction does in its frame (`Effect`), the values that the framework gives in
//! one move (`Gifts`), how values are shown (`Draft`: what needs memory is made before anything changes), and which moves
//! of the framework are legal.
#![tactic(auto, using(crate::proofs::Heaps::spot_at, crate::proofs::Heaps::spots_more, crate::proofs::Heaps::spots_long))]

mod datum;
mod effect;
mod frame;
mod gifts;
mod items;
mod laws;
mod legal;
mod shows;
mod state;
mod top;
mod world;

pub use datum::Datum;
pub use effect::Effect;
pub use frame::{Frame, read_register, write_register};
pub use gifts::{Gifts, Taken, fits, may_throw};
pub use items::{length_word, stored, values_of, zero_of, zeros};
pub use laws::top_law;
pub use legal::{all_fit, on_fits, receiver_ok};
pub use shows::{Draft, Drafts, drafted, drafted_option, show, show_option};
pub use state::{State, Status, Tables, Waiting};
pub use world::{Cell, Exposed, Thing, World};
