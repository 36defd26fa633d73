//! Text as UTF-16 units, any of which may be half of a surrogate pair or stand alone.

ghost use Rattle.std.specs.Prelude.{◌≡◌, IfOk};
ghost use Rattle.std.specs.Ordering.{nat_cmp};
ghost use Rattle.std.specs.Cmp.Lexicographic.{slice_cmp};

use seq::Exact;
use std::alloc::{AllocError, Global};
use std::cmp::Ordering;
use std::fmt;
use std::marker::Model;

/// A list of UTF-16 units.
#[derive(Drop)]
pub struct Text {
    units: Vec<u16>,
}

impl Model for Text {
    ghost use Rattle.std.specs.Prelude.{List, ℕ};

    ghost Value = { List ℕ };

    ghost view = { λ text. text.units.items };
}

impl Text {
    /// A text of these units. The only error is want of memory.
    pub fn from_units(alloc: Global, units: &[u16]) -> Result<Text, AllocError>
        ensures { IfOk result (λ text. text ≡ units.now) }
    {
        Ok(Text {
            units: Vec::from_slice(alloc, units)?,
        })
    }

    /// A text of these units, which are moved.
    pub fn from_vec(units: Vec<u16>) -> Text
        ensures { result ≡ units.items }
    {
        Text { units }
    }

    /// The UTF-16 units.
    pub fn units(&self) -> &[u16]
        ensures { result.now ≡ self.now }
    {
        self.units.as_slice()
    }
}

/// The order of the first units that differ, or of the lengths where one text begins the other: the order of the
/// string table (Dalvik executable format, "string_ids").
pub fn compare_units(a: &Text, b: &Text) -> Ordering
    ensures { result ≡ slice_cmp nat_cmp a.now b.now }
{
    a.units().cmp(&b.units())
}

impl Clone for Text {
    ghost use Rattle.std.specs.Prelude.{◌≡◌};

    ghost is_clone = { λ a b. b ≡ a };

    fn clone(&self) -> Result<Self, AllocError> {
        Text::from_units(*self.units.allocator(), self.units.as_slice())
    }
}

impl Exact for Text {
    ghost exact = { λ x y h. h };
}

impl PartialEq for Text {
    ghost use Rattle.std.specs.Prelude.{nat_eq};
    ghost use Rattle.std.specs.Cmp.Lexicographic.{pointwise, nat_list_eq_equiv};
    ghost use Rattle.std.specs.Cmp.{partial_equiv_from_equiv};

    ghost eq = { pointwise nat_eq };

    ghost laws = { partial_equiv_from_equiv nat_list_eq_equiv };

    fn eq(&self, other: &Self) -> bool {
        self.units == other.units
    }
}

impl Eq for Text {
    ghost use Rattle.std.specs.Cmp.Lexicographic.{nat_list_eq_equiv};

    ghost laws = { nat_list_eq_equiv };
}

impl fmt::Debug for Text {
    fn fmt<W: fmt::Write>(&self, f: &mut fmt::Formatter<W>) -> fmt::Result {
        f.debug_list().entries(self.units()).finish()
    }
}
