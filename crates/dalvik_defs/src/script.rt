//! What the framework does: the moves of a script.

use dex_base::Text;
use seq::Seq;

/// A value that the framework gives: null, a word, a wide, an object that was exposed, by its place, a new object of
/// a framework type, a new array by its item type, a text, or a class.
#[derive(Debug, Drop)]
pub enum Given {
    Null,
    Word(u32),
    Wide(u64),
    Exposed(u32),
    New(Text),
    Array { item: Text, size: u32 },
    Literal(Text),
    Class(Text),
}

/// A move of the framework: it enters a method, makes an object, answers the innermost open call or field read, reads
/// or writes a kept field, or reads, writes or measures an exposed array.
#[derive(Debug, Drop)]
pub enum Move {
    Enter {
        class: Text,
        name: Text,
        proto: Text,
        values: Seq<Given>,
    },
    Make {
        class: Text,
    },
    Return {
        value: Option<Given>,
    },
    Throw {
        value: Given,
    },
    Get {
        class: Text,
        name: Text,
        kind: Text,
        on: Option<Given>,
    },
    Put {
        class: Text,
        name: Text,
        kind: Text,
        on: Option<Given>,
        value: Given,
    },
    ArrayGet {
        on: Given,
        place: u32,
    },
    ArrayPut {
        on: Given,
        place: u32,
        value: Given,
    },
    ArrayLength {
        on: Given,
    },
}
