//! What a type descriptor says (Dalvik executable format, "TypeDescriptor").

ghost use Rattle.std.specs.Prelude.{◌≡◌, ◌≤◌, length, drop};
ghost use Rattle.verify.specs.Descriptors.{brackets, without_brackets, shape_of_text};
ghost use Rattle.verify.specs.Shapes.{is_void, is_word, is_wide, is_reference, is_array, is_plain, is_program_interface, place_of, stored, has_width};

use insn_set::Item;

/// A type as the verifier sees it. `Int` is `I`, `Word` every other primitive type of one register, by the form that
/// stores it. `Class` is a class type, with the place of the program class that defines it and whether that is no
/// interface. `Array` has so many dimensions, and `item` is the least type number whose type without its brackets is
/// that of the items. `Void` is `V`, and whatever is no type.
#[derive(Clone, Copy, PartialEq, Eq, Drop)]
pub enum Shape {
    Void,
    Int,
    Word(Item),
    Wide,
    Class { place: Option<u32>, plain: bool },
    Array { depth: u32, item: u32 },
}

impl Shape {
    /// Whether it is `V`.
    pub fn is_void(self) -> bool
        ensures { result ≡ is_void self }
    {
        matches!(self, Shape::Void)
    }

    /// Whether it is a primitive type of one register.
    pub fn is_word(self) -> bool
        ensures { result ≡ is_word self }
    {
        matches!(self, Shape::Int | Shape::Word(_))
    }

    /// Whether it is `J` or `D`.
    pub fn is_wide(self) -> bool
        ensures { result ≡ is_wide self }
    {
        matches!(self, Shape::Wide)
    }

    /// Whether it is a class type or an array type.
    pub fn is_reference(self) -> bool
        ensures { result ≡ is_reference self }
    {
        matches!(self, Shape::Class { .. } | Shape::Array { .. })
    }

    /// Whether it is an array type.
    pub fn is_array(self) -> bool
        ensures { result ≡ is_array self }
    {
        matches!(self, Shape::Array { .. })
    }

    /// Whether it is a class type that a program class defines, which is no interface.
    pub fn is_plain(self) -> bool
        ensures { result ≡ is_plain self }
    {
        match self {
            Shape::Class { plain, .. } => plain,
            _ => false,
        }
    }

    /// Whether it is a class type that a program interface defines.
    pub fn is_program_interface(self) -> bool
        ensures { result ≡ is_program_interface self }
    {
        match self {
            Shape::Class { place, plain } => place.is_some() && !plain,
            _ => false,
        }
    }

    /// The place of the program class that defines it.
    pub fn place(self) -> Option<u32>
        ensures { result ≡ place_of self }
    {
        match self {
            Shape::Class { place, .. } => place,
            _ => None,
        }
    }

    /// How an item of this type is stored.
    pub fn stored(self) -> Item
        ensures { result ≡ stored self }
    {
        match self {
            Shape::Word(item) => item,
            Shape::Wide => Item::Wide,
            Shape::Class { .. } | Shape::Array { .. } => Item::Object,
            _ => Item::Plain,
        }
    }
}

/// Whether an item is primitive and takes so many bytes in the table that fills an array.
pub fn has_width(width: u8, item: Item) -> bool
    ensures { result ≡ has_width width item }
{
    match item {
        Item::Plain => width == 4,
        Item::Wide => width == 8,
        Item::Object => false,
        Item::Boolean | Item::Byte => width == 1,
        Item::Char | Item::Short => width == 2,
    }
}

/// How many brackets a descriptor begins with.
pub fn depth_of(units: &[u16]) -> usize
    ensures within { result ≤ length units.now }
    ensures count { result ≡ brackets units.now }
    ensures rest { drop result units.now ≡ without_brackets units.now }
{
    let mut depth: usize = 0;
    for unit in units {
        if *unit != 91 {
            return depth;
        }
        depth += 1;
    }
    depth
}

/// A descriptor without its brackets.
pub fn without_brackets(units: &[u16]) -> &[u16]
    ensures { result.now ≡ without_brackets units.now }
{
    let depth = depth_of(units);
    &units[depth..]
}

/// The shape of a type without brackets, which a program class may define.
pub fn base_shape(units: &[u16], place: Option<u32>, plain: bool) -> Shape
    ensures { result ≡ shape_of_text units.now place plain }
{
    match units.first() {
        None => Shape::Void,
        Some(unit) => match *unit {
            66 => Shape::Word(Item::Byte),
            67 => Shape::Word(Item::Char),
            68 | 74 => Shape::Wide,
            70 => Shape::Word(Item::Plain),
            73 => Shape::Int,
            76 => Shape::Class { place, plain },
            83 => Shape::Word(Item::Short),
            90 => Shape::Word(Item::Boolean),
            _ => Shape::Void,
        },
    }
}
