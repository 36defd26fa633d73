//! What forms ask of single registers.

ghost use Rattle.std.specs.Prelude.{◌≡◌};
ghost use Rattle.verify.specs.Frames.{kinds_of};
ghost use Rattle.verify.specs.Demands.{unless, lower, is_number_or_pair, is_movable, is_result, is_equality, is_tested, is_like, is_tested_with, is_item, is_any_array, same_item};
ghost use Rattle.verify.specs.Reads.{is_array_of, is_array_filled, is_of_type, is_holder, is_constructed};

use crate::frames::Frame;
use crate::kinds::Kind;
use crate::setting::Setting;
use crate::shapes::has_width;
use insn_set::{Item, Slot, Test};

/// The register, unless its read is allowed.
pub fn unless(allowed: bool, register: u16) -> Option<u32>
    ensures { result ≡ unless allowed register }
{
    if allowed {
        None
    } else {
        Some(u32::from(register))
    }
}

/// The lower of two registers.
pub fn lower(a: Option<u32>, b: Option<u32>) -> Option<u32>
    ensures { result ≡ lower a b }
{
    match a {
        Some(one) => match b {
            Some(other) => Some(one.min(other)),
            None => a,
        },
        None => b,
    }
}

/// Whether a register holds a number of one register, or of two.
pub fn is_number_or_pair(wide: bool, frame: &Frame, register: u16) -> bool
    ensures { result ≡ is_number_or_pair wide (kinds_of frame.now).registers register }
{
    if wide {
        frame.is_pair(register)
    } else {
        frame.of(register).is_number()
    }
}

/// Whether a move may read a register.
pub fn is_movable(slot: Slot, frame: &Frame, register: u16) -> bool
    ensures { result ≡ is_movable slot (kinds_of frame.now).registers register }
{
    match slot {
        Slot::Wide => frame.is_pair(register),
        _ => frame.of(register).is_moved(),
    }
}

/// Whether the place of the last result has what a move of it asks.
pub fn is_result(slot: Slot, kind: Kind) -> bool
    ensures { result ≡ is_result slot kind }
{
    match slot {
        Slot::Word => kind.is_number(),
        Slot::Wide => kind.is_same(Kind::WideLow),
        Slot::Object => kind.is_initialised(),
    }
}

/// Whether a test is for equality.
pub fn is_equality(test: Test) -> bool
    ensures { result ≡ is_equality test }
{
    matches!(test, Test::Eq | Test::Ne)
}

/// Whether a test may read a kind as its first operand: one for equality takes numbers and references alike.
pub fn is_tested(test: Test, kind: Kind) -> bool
    ensures { result ≡ is_tested test kind }
{
    kind.is_number() || (is_equality(test) && kind.is_initialised())
}

/// Whether a test may read a kind as its second operand: it is of the sort of the first, which may be both.
pub fn is_tested_with(test: Test, first: Kind, kind: Kind) -> bool
    ensures { result ≡ is_tested_with test first kind }
{
    if is_equality(test) {
        is_like(first, kind)
    } else {
        kind.is_number()
    }
}

/// Whether a kind is of the sort of another one, which may be a number and a reference at once.
fn is_like(first: Kind, kind: Kind) -> bool
    ensures { result ≡ is_like first kind }
{
    match first {
        Kind::Zero => kind.is_number() || kind.is_initialised(),
        Kind::Word => kind.is_number(),
        _ => kind.is_initialised(),
    }
}

/// Whether two items are stored in the same way.
fn is_same_item(a: Item, b: Item) -> bool
    ensures { result ≡ same_item a b }
{
    match a {
        Item::Plain => matches!(b, Item::Plain),
        Item::Wide => matches!(b, Item::Wide),
        Item::Object => matches!(b, Item::Object),
        Item::Boolean => matches!(b, Item::Boolean),
        Item::Byte => matches!(b, Item::Byte),
        Item::Char => matches!(b, Item::Char),
        Item::Short => matches!(b, Item::Short),
    }
}

/// Whether a register holds what is put into an array.
pub fn is_item(item: Item, frame: &Frame, register: u16) -> bool
    ensures { result ≡ is_item item (kinds_of frame.now).registers register }
{
    match item {
        Item::Wide => frame.is_pair(register),
        Item::Object => frame.of(register).is_initialised(),
        _ => frame.of(register).is_number(),
    }
}

/// Whether a kind is null or an array.
pub fn is_any_array(kind: Kind) -> bool
    ensures { result ≡ is_any_array kind }
{
    matches!(kind, Kind::Zero | Kind::Null | Kind::Array { .. })
}

impl Setting<'_> {
    /// Whether a kind is null or an array of such items.
    pub fn is_array_of(&self, kind: Kind, item: Item) -> bool
        ensures { result ≡ is_array_of self.now kind item }
    {
        match kind {
            Kind::Zero | Kind::Null => true,
            Kind::Array {
                depth,
                item: element,
            } => is_same_item(self.tables.stored_item(depth, element), item),
            _ => false,
        }
    }

    /// Whether a kind is null or an array whose primitive items have so many bytes.
    pub fn is_array_filled(&self, kind: Kind, width: u8) -> bool
        ensures { result ≡ is_array_filled self.now kind width }
    {
        match kind {
            Kind::Zero | Kind::Null => true,
            Kind::Array { depth, item } => has_width(width, self.tables.stored_item(depth, item)),
            _ => false,
        }
    }

    /// Whether a register holds a value of a type.
    pub fn is_of_type(&self, frame: &Frame, register: u16, into: u32) -> bool
        ensures { result ≡ is_of_type self.now (kinds_of frame.now).registers register into }
    {
        if self.tables.shape(into).is_wide() {
            frame.is_pair(register)
        } else {
            self.tables.fits(frame.of(register), into)
        }
    }

    /// Whether a kind may be the receiver of a put to a field.
    pub fn is_holder(&self, kind: Kind, field: u32) -> bool
        ensures { result ≡ is_holder self.now kind field }
    {
        match kind {
            Kind::FreshThis => self.defines_field(field),
            _ => self.tables.fits_holder(kind, self.field_class(field)),
        }
    }

    /// Whether a kind may be the receiver of a constructor of a class.
    pub fn is_constructed(&self, kind: Kind, class: u32) -> bool
        ensures { result ≡ is_constructed self.now kind class }
    {
        match kind {
            Kind::Fresh { class: made, .. } => made == class,
            Kind::FreshThis => class == self.kind || class == self.superclass,
            _ => false,
        }
    }
}
