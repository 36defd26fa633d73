//! What small items keep of a word.

ghost use Rattle.std.specs.Prelude.{◌≡◌, ◌%◌, ◌^◌};
ghost use Rattle.std.specs.Int.{w8, w16};
ghost use Rattle.dalvik_defs.specs.Arith.{low_signed};

/// The low 8 bits with their sign.
pub fn cut_byte(word: u32) -> u32
    ensures { result ≡ low_signed w8 8 word }
{
    i32::from(((word % 256) as u8).cast_signed()).cast_unsigned()
}

/// The low 16 bits with their sign.
pub fn cut_short(word: u32) -> u32
    ensures { result ≡ low_signed w16 16 word }
{
    i32::from(((word % 65536) as u16).cast_signed()).cast_unsigned()
}

/// The low 16 bits without sign.
pub fn cut_char(word: u32) -> u32
    ensures { result ≡ word % 2 ^ 16 }
{
    word % 65536
}
