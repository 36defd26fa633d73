//! What is shown to the framework.

use dex_base::Text;
use insn_set::InvokeKind;
use seq::Seq;

/// A value in an event: null, a word, a wide, an object by its place, with its type where it is printed for the first
/// time, a text, or a class.
#[derive(Drop)]
pub enum Shown {
    Null,
    Word(u32),
    Wide(u64),
    First { number: u64, kind: Text },
    Again(u64),
    Literal(Text),
    Class(Text),
}

/// What the framework sees: a call of it, an object made, a field of it read or written, a monitor entered or left, the
/// end of a method that it entered, and the answer to a read of its own.
#[derive(Drop)]
pub enum Event {
    Call {
        kind: InvokeKind,
        class: Text,
        name: Text,
        proto: Text,
        values: Seq<Shown>,
    },
    Make {
        value: Shown,
    },
    Get {
        class: Text,
        name: Text,
        kind: Text,
        on: Option<Shown>,
    },
    Put {
        class: Text,
        name: Text,
        kind: Text,
        on: Option<Shown>,
        value: Shown,
    },
    Lock {
        value: Shown,
    },
    Unlock {
        value: Shown,
    },
    Result {
        value: Option<Shown>,
    },
    Uncaught {
        value: Shown,
    },
    Answer {
        value: Shown,
    },
}
