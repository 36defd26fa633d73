//! Places as numbers of 32 bits.

ghost use Rattle.std.specs.Prelude.{◌≡◌};
ghost use Rattle.class_places.specs.Words.{word_of};

/// The number that stands for no place.
pub const NONE: u32 = u32::MAX;

/// A place as a number of 32 bits, the greatest of them where it is too great.
pub fn word(place: usize) -> u32
    ensures { result ≡ word_of place }
{
    if place < 4294967296 {
        place as u32
    } else {
        NONE
    }
}
