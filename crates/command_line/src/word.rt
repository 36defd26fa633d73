//! One word of a command line.

ghost use Rattle.std.specs.Prelude.{◌≡◌, IfOk};

use std::alloc::{AllocError, Global};
use std::fmt;
use std::marker::Model;

/// A text, which contracts see as its UTF-8 bytes.
#[derive(Drop)]
pub struct Word {
    text: String,
}

impl Model for Word {
    ghost use Rattle.std.specs.Prelude.{List, ℕ};
    ghost use Rattle.std.specs.String.{string_bytes};

    ghost Value = { List ℕ };

    ghost view = { λ word. string_bytes word.text };
}

impl Word {
    /// A copy of this text. The only error is want of memory.
    pub fn from_str(alloc: Global, text: &str) -> Result<Word, AllocError>
        ensures { IfOk result (λ word. word ≡ text.now) }
    {
        Ok(Word {
            text: String::from_str(alloc, text)?,
        })
    }

    /// The text.
    pub fn as_str(&self) -> &str
        ensures { result.now ≡ self.now }
    {
        self.text.as_str()
    }
}

impl PartialEq for Word {
    ghost use Rattle.std.specs.Prelude.{nat_eq};
    ghost use Rattle.std.specs.Cmp.Lexicographic.{pointwise, nat_list_eq_equiv};
    ghost use Rattle.std.specs.Cmp.{partial_equiv_from_equiv};

    ghost eq = { pointwise nat_eq };

    ghost laws = { partial_equiv_from_equiv nat_list_eq_equiv };

    fn eq(&self, other: &Self) -> bool {
        self.text.as_bytes() == other.text.as_bytes()
    }
}

impl Eq for Word {
    ghost use Rattle.std.specs.Cmp.Lexicographic.{nat_list_eq_equiv};

    ghost laws = { nat_list_eq_equiv };
}

impl fmt::Debug for Word {
    fn fmt<W: fmt::Write>(&self, f: &mut fmt::Formatter<W>) -> fmt::Result {
        self.text.fmt(f)
    }
}
