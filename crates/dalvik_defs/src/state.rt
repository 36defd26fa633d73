//! Values of registers, and the frames of the stack.

use crate::names::MethodKey;
use crate::script::Move;
use dex_base::Text;
use seq::Seq;

/// What a register holds: a word, half of a wide, or a reference to an object by its number, to a text, or to a class.
/// Each half of a wide keeps the whole number, and the low half stands for it where one place holds a wide. Null is the
/// word 0.
#[derive(Clone, PartialEq, Eq, Debug, Drop)]
pub enum Value {
    Word(u32),
    Low(u64),
    High(u64),
    Object(u64),
    Literal(Text),
    Class(Text),
}

/// A method that runs: its name, the position, the registers, the result of the last call or filled array, and the
/// object that was caught last.
#[derive(Drop)]
pub struct Frame {
    pub method: MethodKey,
    pub position: u32,
    pub registers: Seq<Value>,
    pub result: Value,
    pub caught: Value,
}

/// What stands on the stack: a method; a class that is being initialised, with the classes that come before it; a class
/// whose initialiser has run, or that has none; or the framework, with the type of the answer that it owes, none where
/// nothing is open, and with the move that it makes again once the class that the move needs is initialised.
#[derive(Drop)]
pub enum Waiting {
    Method {
        frame: Frame,
    },
    Initialiser {
        class: Text,
        above: Seq<Text>,
    },
    Ending {
        class: Text,
    },
    Outside {
        owes: Option<Text>,
        pending: Option<Move>,
    },
}
