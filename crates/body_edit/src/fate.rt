//! What becomes of a position.

ghost use Rattle.std.specs.Prelude.{◌≡◌, ◌↔◌, ◌+◌, ◌<◌, ◌^◌, true};
ghost use Rattle.body_edit.specs.Fates.{fate_of, is_left, counted};

/// What becomes of a position: its instruction stays, becomes a nop, or goes.
#[derive(Clone, Copy, PartialEq, Eq, Debug)]
pub enum Fate {
    Stays,
    Empties,
    Goes,
}

impl Fate {
    /// Whether an instruction is left at the position.
    pub fn is_left(self) -> bool
        ensures { result ≡ is_left (fate_of self) }
    {
        match self {
            Fate::Stays | Fate::Empties => true,
            Fate::Goes => false,
        }
    }

    /// A count of the positions that go, with this one.
    pub(crate) fn counted(self, gone: u32) -> u32
        requires { gone + 1 < 2 ^ 32 }
        ensures { result ≡ counted gone (fate_of self) }
    {
        match self {
            Fate::Stays | Fate::Empties => gone,
            Fate::Goes => gone + 1,
        }
    }
}
