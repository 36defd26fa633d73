//! What a run reaches outside itself: a shelf of files, notes for what it says, and advisers that are asked what may
//! be rewritten.
//!
//! Each is a trait whose clauses speak of its meanings: what a name holds and what was said, where that is told; how
//! often the outside has failed; what an adviser would reply to the turns that come. A fault is answered only where
//! its count rose, so code that is generic over a shelf and notes is proved from these clauses alone. There are
//! shelves and notes in memory, those of the runtime (the trusted edge), two advisers, and a panel of advisers.
#![tactic(auto)]

mod adviser;
mod budget_adviser;
mod edge;
mod fail;
mod file_shelf;
mod memory_notes;
mod memory_shelf;
mod names;
mod notes;
mod panel;
mod prefix_adviser;
mod shelf;
mod std_notes;
mod sure_shelf;

pub use adviser::{Adviser, Ask, Key};
pub use budget_adviser::BudgetAdviser;
pub use edge::{read_all, write_all};
pub use fail::Fail;
pub use file_shelf::FileShelf;
pub use memory_notes::MemoryNotes;
pub use memory_shelf::MemoryShelf;
pub use notes::{NoteFault, Notes};
pub use panel::Panel;
pub use prefix_adviser::PrefixAdviser;
pub use shelf::{FetchFault, PutFault, Shelf};
pub use std_notes::StdNotes;
pub use sure_shelf::SureShelf;
