//! Arithmetic on int and long.

ghost use Rattle.std.specs.Prelude.{◌≡◌, ◌<◌, ◌%◌, true, false};
ghost use Rattle.std.specs.Int.RustNames.{int_div, int_rem};
ghost use Rattle.dalvik_defs.specs.Arith.{answer, half_down, signed, unsigned};
ghost use Rattle.dalvik_numbers.specs.Kinds.{kind_of};

/// The operations on two numbers of one width.
#[derive(Clone, Copy, PartialEq, Eq, Debug, Drop)]
pub enum Arith {
    Add,
    Sub,
    Mul,
    Div,
    Rem,
    And,
    Or,
    Xor,
    Shl,
    Shr,
    Ushr,
}

/// A signed quotient, rounded to zero; the least number divided by -1 is itself.
fn quotient_word(a: u32, b: u32) -> u32
    requires { 0 < b }
    ensures { result ≡ unsigned false (int_div (signed false a) (signed false b)) }
{
    a.cast_signed()
        .wrapping_div(b.cast_signed())
        .cast_unsigned()
}

/// The remainder, which has the sign of the first number.
fn remainder_word(a: u32, b: u32) -> u32
    requires { 0 < b }
    ensures { result ≡ unsigned false (int_rem (signed false a) (signed false b)) }
{
    a.cast_signed()
        .wrapping_rem(b.cast_signed())
        .cast_unsigned()
}

/// A signed number shifted right, by the low five bits.
fn half_word(a: u32, b: u32) -> u32
    ensures { result ≡ unsigned false (half_down (signed false a) (b % 32)) }
{
    a.cast_signed().wrapping_shr(b).cast_unsigned()
}

/// What an operation answers on two words, none where it divides by 0.
pub fn on_words(kind: Arith, a: u32, b: u32) -> Option<u32>
    ensures { result ≡ answer (kind_of kind) false a b }
{
    match kind {
        Arith::Add => Some(a.wrapping_add(b)),
        Arith::Sub => Some(a.wrapping_sub(b)),
        Arith::Mul => Some(a.wrapping_mul(b)),
        Arith::Div => {
            if b == 0 {
                None
            } else {
                Some(quotient_word(a, b))
            }
        }
        Arith::Rem => {
            if b == 0 {
                None
            } else {
                Some(remainder_word(a, b))
            }
        }
        Arith::And => Some(a & b),
        Arith::Or => Some(a | b),
        Arith::Xor => Some(a ^ b),
        Arith::Shl => Some(a.wrapping_shl(b)),
        Arith::Shr => Some(half_word(a, b)),
        Arith::Ushr => Some(a.wrapping_shr(b)),
    }
}

/// A signed quotient, rounded to zero; the least number divided by -1 is itself.
fn quotient_wide(a: u64, b: u64) -> u64
    requires { 0 < b }
    ensures { result ≡ unsigned true (int_div (signed true a) (signed true b)) }
{
    a.cast_signed()
        .wrapping_div(b.cast_signed())
        .cast_unsigned()
}

/// The remainder, which has the sign of the first number.
fn remainder_wide(a: u64, b: u64) -> u64
    requires { 0 < b }
    ensures { result ≡ unsigned true (int_rem (signed true a) (signed true b)) }
{
    a.cast_signed()
        .wrapping_rem(b.cast_signed())
        .cast_unsigned()
}

/// A signed number shifted right, by the low six bits.
fn half_wide(a: u64, b: u32) -> u64
    ensures { result ≡ unsigned true (half_down (signed true a) (b % 64)) }
{
    a.cast_signed().wrapping_shr(b).cast_unsigned()
}

/// The low six bits of a number, by which a wide is shifted.
fn shift_of(b: u64) -> u32
    ensures { result ≡ b % 64 }
{
    (b % 64) as u32
}

/// What an operation answers on two wides, none where it divides by 0.
pub fn on_wides(kind: Arith, a: u64, b: u64) -> Option<u64>
    ensures { result ≡ answer (kind_of kind) true a b }
{
    match kind {
        Arith::Add => Some(a.wrapping_add(b)),
        Arith::Sub => Some(a.wrapping_sub(b)),
        Arith::Mul => Some(a.wrapping_mul(b)),
        Arith::Div => {
            if b == 0 {
                None
            } else {
                Some(quotient_wide(a, b))
            }
        }
        Arith::Rem => {
            if b == 0 {
                None
            } else {
                Some(remainder_wide(a, b))
            }
        }
        Arith::And => Some(a & b),
        Arith::Or => Some(a | b),
        Arith::Xor => Some(a ^ b),
        Arith::Shl => Some(a.wrapping_shl(shift_of(b))),
        Arith::Shr => Some(half_wide(a, shift_of(b))),
        Arith::Ushr => Some(a.wrapping_shr(shift_of(b))),
    }
}
