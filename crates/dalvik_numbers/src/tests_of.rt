//! The tests of the conditional branches on two words.

ghost use Rattle.std.specs.Prelude.{◌≡◌, false, int_lt, int_le};
ghost use Rattle.dalvik_defs.specs.Arith.{signed};

/// Whether a word is less than another, both signed.
pub fn is_before(a: u32, b: u32) -> bool
    ensures { result ≡ int_lt (signed false a) (signed false b) }
{
    a.cast_signed() < b.cast_signed()
}

/// Whether a word is at most another, both signed.
pub fn is_not_behind(a: u32, b: u32) -> bool
    ensures { result ≡ int_le (signed false a) (signed false b) }
{
    a.cast_signed() <= b.cast_signed()
}
