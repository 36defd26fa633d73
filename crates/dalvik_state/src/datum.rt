//! What a register holds.

ghost use Rattle.std.specs.Prelude.{◌≡◌, ◌%◌, ◌^◌, cond};
ghost use Rattle.dalvik_state.specs.Frames.{is_null_in, number_in, same_in};

use std::hash::Hash;

/// A word, half of a wide, or a reference to an object by its number, to a text or to a class by the number of its text.
/// Each half of a wide keeps the whole number, and the low half stands for it where one place holds a wide. Null is the
/// word 0.
#[derive(Clone, Copy, PartialEq, Eq, Hash, Drop)]
pub enum Datum {
    Word(u32),
    Low(u64),
    High(u64),
    Object(u64),
    Literal(usize),
    Class(usize),
}

impl Datum {
    /// Null.
    pub const NULL: Datum = Datum::Word(0);

    /// The number, 0 of a reference.
    pub fn number(self) -> u64
        ensures { result ≡ number_in self }
    {
        match self {
            Datum::Word(word) => u64::from(word),
            Datum::Low(wide) | Datum::High(wide) => wide,
            _ => 0,
        }
    }

    /// The low 32 bits of the number.
    pub fn word(self) -> u32
        ensures { result ≡ number_in self % 2 ^ 32 }
    {
        (self.number() % 4294967296) as u32
    }

    /// Whether it is null.
    pub fn is_null(self) -> bool
        ensures { result ≡ is_null_in self }
    {
        match self {
            Datum::Word(word) => word == 0,
            _ => false,
        }
    }

    /// Whether another value is the same word, half of a wide or reference.
    pub fn is(self, other: Datum) -> bool
        ensures { result ≡ same_in self other }
    {
        match (self, other) {
            (Datum::Word(a), Datum::Word(b)) => a == b,
            (Datum::Low(a), Datum::Low(b)) => a == b,
            (Datum::High(a), Datum::High(b)) => a == b,
            (Datum::Object(a), Datum::Object(b)) => a == b,
            (Datum::Literal(a), Datum::Literal(b)) => a == b,
            (Datum::Class(a), Datum::Class(b)) => a == b,
            _ => false,
        }
    }

    /// 1 or 0.
    pub fn truth(holds: bool) -> Datum
        ensures { result ≡ cond holds (Datum.Word 1) (Datum.Word 0) }
    {
        if holds {
            Datum::Word(1)
        } else {
            Datum::Word(0)
        }
    }
}
