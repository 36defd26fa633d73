//! The top call: reads the words, fetches what they name, and optimises, lists or generates.
//!
//! [`run`] alone knows the order of refusals and the texts that are said. It answers `Usage` exactly where the words
//! spell no command, `ReadFault` and `WriteFault` only where a count of the outside rose, and changes no name of the
//! shelf but the output's. `specs/Ends.antt` says it whole: why a run ends as it does, what the names hold
//! then (`specs/Stays.antt`) and what was said (`specs/Said.antt`, with the lines of `specs/FaultLines.antt`). Which
//! programs a run goes on with stands in `specs/Accepted.antt`, what each command's result is in `specs/Finished.antt`,
//! that of `live` in `specs/Lists.antt` and of `trace` in `specs/Traces.antt`, by the tables of `specs/Tables.antt`, and what
//! each has fetched in `specs/Commands.antt`.
#![tactic(auto)]

mod check_line;
mod command;
mod fault_lines;
mod fetching;
mod live_list;
mod status;
mod summary;
mod top;
mod work;

pub use program_model::{Counted, LimitFault};
pub use status::{InputFault, Status};
pub use top::run;
pub use verify::TypeFault;
