//! Descriptors of types.

ghost use Rattle.std.specs.Prelude.{◌≡◌};
ghost use Rattle.dex_base.specs.Descriptor.{is_primitive, is_alone, of_depth, behind_bracket, in_name, behind_character, next_spot, descriptor_of};

use crate::fault::BaseFault;
use crate::text::Text;

/// What a descriptor says of its type.
#[derive(Clone, Copy, Debug, PartialEq, Eq)]
pub enum Descriptor {
    /// No value: `V`.
    Void,
    /// A primitive type, by its letter, which is one of `BCDFIJSZ`.
    Primitive(u8),
    /// A class, as `Ljava/lang/Object;`.
    Class,
    /// An array of so many dimensions.
    Array { depth: u8 },
}

/// Where in a descriptor a text is, behind some of its units. `depth` is the number of brackets.
#[derive(Clone, Copy, Debug)]
enum Spot {
    /// Behind the brackets.
    Element { depth: u8 },
    /// Where a name begins.
    Name { depth: u8 },
    /// Behind a character of a name.
    Inside { depth: u8 },
    /// Inside a character, behind the first half of a surrogate pair.
    Low { depth: u8 },
    /// Behind the whole descriptor.
    End { kind: Descriptor },
}

/// Whether the unit is the letter of a primitive type.
fn is_primitive(unit: u16) -> bool
    ensures { result ≡ is_primitive unit }
{
    matches!(unit, 66 | 67 | 68 | 70 | 73 | 74 | 83 | 90)
}

/// Whether the unit is a character of a name by itself.
#[tactic(auto, unfolding(crate::specs::Descriptor::is_alone))]
fn is_alone(unit: u16) -> bool
    ensures { result ≡ is_alone unit }
{
    matches!(
        unit,
        0x41..=0x5a
            | 0x61..=0x7a
            | 0x30..=0x39
            | 0x24
            | 0x2d
            | 0x5f
            | 0xa1..=0x1fff
            | 0x2010..=0x2027
            | 0x2030..=0xd7ff
            | 0xe000..=0xffef
    )
}

/// A type that is no array, behind so many brackets.
fn of_depth(depth: u8, kind: Descriptor) -> Descriptor
    ensures { result ≡ of_depth depth kind }
{
    if depth == 0 {
        kind
    } else {
        Descriptor::Array { depth }
    }
}

/// Behind the brackets and one more unit.
fn behind_bracket(depth: u8, unit: u16) -> Option<Spot>
    ensures { result ≡ behind_bracket depth unit }
{
    if unit == 91 && depth < 255 {
        Some(Spot::Element { depth: depth + 1 })
    } else if unit == 76 {
        Some(Spot::Name { depth })
    } else if is_primitive(unit) {
        Some(Spot::End {
            kind: of_depth(depth, Descriptor::Primitive(unit as u8)),
        })
    } else if unit == 86 && depth == 0 {
        Some(Spot::End {
            kind: Descriptor::Void,
        })
    } else {
        None
    }
}

/// Behind a unit with which a character of a name begins.
fn in_name(depth: u8, unit: u16) -> Option<Spot>
    ensures { result ≡ in_name depth unit }
{
    if is_alone(unit) {
        Some(Spot::Inside { depth })
    } else if matches!(unit, 0xd800..=0xdbff) {
        Some(Spot::Low { depth })
    } else {
        None
    }
}

/// Behind a character of a name and one more unit.
fn behind_character(depth: u8, unit: u16) -> Option<Spot>
    ensures { result ≡ behind_character depth unit }
{
    match unit {
        47 => Some(Spot::Name { depth }),
        59 => Some(Spot::End {
            kind: of_depth(depth, Descriptor::Class),
        }),
        _ => in_name(depth, unit),
    }
}

/// Behind one more unit; none where that can't continue a descriptor.
#[tactic(auto, unfolding(crate::specs::Descriptor::next_spot))]
fn next_spot(spot: Spot, unit: u16) -> Option<Spot>
    ensures { result ≡ next_spot spot unit }
{
    match spot {
        Spot::Element { depth } => behind_bracket(depth, unit),
        Spot::Name { depth } => in_name(depth, unit),
        Spot::Inside { depth } => behind_character(depth, unit),
        Spot::Low { depth } if matches!(unit, 0xdc00..=0xdfff) => Some(Spot::Inside { depth }),
        _ => None,
    }
}

/// Which type the whole text describes: `V`, or at most 255 brackets and behind them the letter of a primitive type
/// or `L`, names with one `/` between two, and `;`. The only fault is `BadDescriptor` at the first unit that
/// can't continue a descriptor, or at the text's length where it ends too early. No memory is taken (Dalvik
/// executable format, "TypeDescriptor").
#[tactic(auto, unfolding(crate::specs::Descriptor::descriptor_of))]
pub fn split_descriptor(text: &Text) -> Result<Descriptor, BaseFault>
    ensures gives { result ≡ descriptor_of text.now }
{
    let units = text.units();
    let mut spot = Spot::Element { depth: 0 };
    for (at, unit) in units.iter().enumerate() {
        match next_spot(spot, *unit) {
            Some(next) => spot = next,
            None => return Err(BaseFault::BadDescriptor { at }),
        }
    }
    match spot {
        Spot::End { kind } => Ok(kind),
        _ => Err(BaseFault::BadDescriptor { at: units.len() }),
    }
}
