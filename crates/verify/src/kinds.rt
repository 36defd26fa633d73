//! The kinds of what registers hold.

ghost use Rattle.std.specs.Prelude.{◌≡◌};
ghost use Rattle.verify.specs.Kinds.{same_number, same_kind, is_number, is_initialised, is_null, is_moved, number_kind};

/// What is known of the value in a register.
///
/// `Zero` is the constant 0, a word and null at once. `WideLow` and `WideHigh` are the halves of a wide value. `Fresh` is
/// an object that `new-instance` made at a position and that no constructor was called on; its `class` is a type number.
/// `FreshThis` is the receiver of a constructor before another constructor was called on it. `Program` is an object of
/// the program class at a place in `classes`, which is no interface, or of a class under it. `Array` is an array of so
/// many dimensions: `item` is the least type number whose type, without its brackets, is that of the items, and none
/// stands for `Ljava/lang/Object;` where no type of the program is so. `Reference` is any object on which a constructor
/// was called. What is `Program`, `Array` or `Reference` may also be null. Nothing may read what is `Undefined`.
#[derive(Clone, Copy, PartialEq, Eq, Drop)]
pub enum Kind {
    Undefined,
    Word,
    Zero,
    WideLow,
    WideHigh,
    Fresh { class: u32, position: u32 },
    FreshThis,
    Null,
    Program { class: u32 },
    Array { depth: u32, item: Option<u32> },
    Reference,
}

/// Whether two items of arrays are the same.
pub(crate) fn is_same_number(a: Option<u32>, b: Option<u32>) -> bool
    ensures { result ≡ same_number a b }
{
    match a {
        Some(one) => match b {
            Some(other) => one == other,
            None => false,
        },
        None => match b {
            Some(_) => false,
            None => true,
        },
    }
}

impl Kind {
    /// Whether it is the same kind.
    pub(crate) fn is_same(self, other: Kind) -> bool
        ensures { result ≡ same_kind self other }
    {
        match self {
            Kind::Undefined => matches!(other, Kind::Undefined),
            Kind::Word => matches!(other, Kind::Word),
            Kind::Zero => matches!(other, Kind::Zero),
            Kind::WideLow => matches!(other, Kind::WideLow),
            Kind::WideHigh => matches!(other, Kind::WideHigh),
            Kind::Fresh { class, position } => match other {
                Kind::Fresh {
                    class: made,
                    position: at,
                } => class == made && position == at,
                _ => false,
            },
            Kind::FreshThis => matches!(other, Kind::FreshThis),
            Kind::Null => matches!(other, Kind::Null),
            Kind::Program { class } => match other {
                Kind::Program { class: second } => class == second,
                _ => false,
            },
            Kind::Array { depth, item } => match other {
                Kind::Array {
                    depth: second,
                    item: another,
                } => depth == second && is_same_number(item, another),
                _ => false,
            },
            Kind::Reference => matches!(other, Kind::Reference),
        }
    }

    /// Whether it is a word. It takes no memory.
    pub fn is_number(self) -> bool
        ensures { result ≡ is_number self }
    {
        matches!(self, Kind::Zero | Kind::Word)
    }

    /// Whether it is null, or an object on which a constructor was called. An array has at least one dimension. It takes
    /// no memory.
    pub fn is_initialised(self) -> bool
        ensures { result ≡ is_initialised self }
    {
        match self {
            Kind::Zero | Kind::Null | Kind::Program { .. } | Kind::Reference => true,
            Kind::Array { depth, .. } => depth > 0,
            _ => false,
        }
    }

    /// Whether it is null, or the constant 0.
    pub(crate) fn is_null(self) -> bool
        ensures { result ≡ is_null self }
    {
        matches!(self, Kind::Zero | Kind::Null)
    }

    /// Whether a move of one register may read it: neither undefined nor half of a wide.
    pub(crate) fn is_moved(self) -> bool
        ensures { result ≡ is_moved self }
    {
        !matches!(self, Kind::Undefined | Kind::WideLow | Kind::WideHigh)
    }
}

/// The kind of a number that takes one register, or two.
pub(crate) fn number_kind(wide: bool) -> Kind
    ensures { result ≡ number_kind wide }
{
    if wide { Kind::WideLow } else { Kind::Word }
}
