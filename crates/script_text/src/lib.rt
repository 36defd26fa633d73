//! Scripts and events as texts: [`read_script`] answers the play that a text spells, or the first line outside the
//! grammar, and [`write_events`] the lines of events. What a text spells and how an event is written are definitions
//! of `text_defs`, which the contracts cite whole; [`push_escaped`] writes a name or a type as those lines have it.
#![tactic(auto)]

mod digits;
mod escapes;
mod events;
mod floats;
mod known;
mod moves;
mod names;
mod pieces;
mod rows;
mod script;
mod values;
mod words;

pub use events::{push_escaped, write_events};
pub use script::read_script;
pub use text_defs::{Play, ScriptFault};
