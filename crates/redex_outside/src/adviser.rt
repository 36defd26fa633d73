//! Who is asked whether a method or a call may be rewritten.

ghost use Rattle.std.specs.Prelude.{List, Bool, OnOk, OnErr};
ghost use Rattle.redex_outside.specs.Turns.{Turn, Told};
ghost use Rattle.redex_outside.specs.Voices.{HasTaken, SameVoice, HasAnswered, OneForEach};

use dex_base::Text;
use std::alloc::{AllocError, Global};

/// What an adviser is told.
#[derive(Clone, Copy, Debug, PartialEq, Eq)]
pub enum Key {
    /// A prefix of class descriptors whose methods are to be spared.
    Spare,
    /// How many methods may be rewritten.
    AtMost,
}

/// A method, or a call of one.
#[derive(Debug, Drop)]
pub struct Ask {
    /// The descriptor of its class.
    pub class: Text,
    /// Its name.
    pub name: Text,
    /// The text of its proto.
    pub proto: Text,
    /// How many instructions it has, at a call those of the method that is called.
    pub instructions: u32,
    /// The position of a call, or None for a method.
    pub site: Option<u32>,
}

/// Is asked whether a method or a call may be rewritten. A turn is one `tell` that succeeds or one `weigh`.
pub trait Adviser: Drop {
    /// The answers that it would give, from now on, to the `weigh` turns of a list of turns.
    ghost replies: { Self → List Turn → List Bool };

    /// Tells it something. A refusal, for want of memory, changes nothing.
    fn tell(&mut self, alloc: Global, key: Key, number: u32, text: &str) -> Result<(), AllocError>
        ensures told { OnOk result (HasTaken (Told key number text.now) (replies self.old) (replies self.new)) }
        ensures refused { OnErr result (SameVoice (replies self.old) (replies self.new)) }
        ensures one_for_each { OneForEach (replies self.old) };

    /// Answers whether it may be rewritten. What comes behind this turn does not count. This takes no memory.
    fn weigh(&mut self, ask: &Ask) -> bool
        ensures answered { HasAnswered ask.now (replies self.old) result (replies self.new) }
        ensures one_for_each { OneForEach (replies self.old) };
}
