//! What an instruction does, before the stack and the framework are looked at.

use crate::datum::Datum;
use program_model::{InvokeKind, Item};

/// What an instruction does: it has gone on in its frame; it throws a new object of one of the known types or an object
/// that there is; it ends the frame; or it calls, makes, reads, writes or locks something. There may be no step.
#[derive(Clone, Copy, Drop)]
pub enum Effect<'a> {
    Goes,
    Faults(usize),
    Throws(Datum),
    Gives(Option<Datum>),
    Calls {
        kind: InvokeKind,
        method: u32,
        args: &'a [u16],
    },
    Makes {
        to: u16,
        kind: u32,
    },
    Reads {
        item: Item,
        to: u16,
        field: u32,
        on: Option<Datum>,
    },
    Writes {
        field: u32,
        on: Option<Datum>,
        value: Datum,
    },
    Locks(Datum),
    Unlocks(Datum),
    Stuck,
}
