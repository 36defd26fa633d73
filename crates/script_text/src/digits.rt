//! Numbers of scripts.

ghost use Rattle.std.specs.Prelude.{◌≡◌, ◌≤◌, ◌<◌, ◌^◌, IsTrue, IfSome, length, min};
ghost use Rattle.std.specs.Char.{digit_value};
ghost use Rattle.std.specs.List.{list_all};
ghost use Rattle.std.specs.Str.Parse.{digits_value};
ghost use Rattle.text_defs.specs.Digits.{is_decimal_digit, is_hex_digit, is_number, hex_number, place_of};

fn is_hex_digit(c: u8) -> bool
    ensures { result ≡ is_hex_digit c }
{
    matches!(c, b'0'..=b'9' | b'a'..=b'f')
}

fn is_decimal_digit(c: u8) -> bool
    ensures { result ≡ is_decimal_digit c }
{
    matches!(c, b'0'..=b'9')
}

/// What a digit in base 16 says.
fn digit_value(c: u8) -> u8
    requires { IsTrue (is_hex_digit c) }
    ensures value { result ≡ digit_value c }
    ensures below { result < 16 }
{
    if c <= b'9' { c - b'0' } else { c - b'a' + 10 }
}

fn all_hex_digits(text: &[u8]) -> bool
    ensures { result ≡ list_all is_hex_digit text.now }
{
    text.iter().all(|c| is_hex_digit(*c))
}

fn all_decimal_digits(text: &[u8]) -> bool
    ensures { result ≡ list_all is_decimal_digit text.now }
{
    text.iter().all(|c| is_decimal_digit(*c))
}

/// What at most 16 digits in base 16 say.
#[tactic(auto, using(crate::proofs::DigitLemmas::digit_at, crate::proofs::DigitLemmas::hex_fits))]
fn hex_value(text: &[u8]) -> u64
    requires short { length text.now ≤ 16 }
    requires digits { IsTrue (list_all is_hex_digit text.now) }
    ensures { result ≡ digits_value 16 text.now }
{
    let mut value: u64 = 0;
    for c in text {
        value = value * 16 + u64::from(digit_value(*c));
    }
    value
}

/// The number that just so many digits in base 16 write, in lower case.
#[tactic(auto, using(crate::proofs::DigitLemmas::hex_below))]
pub fn hex_number(places: usize, text: &[u8]) -> Option<u64>
    requires { places ≤ 16 }
    ensures value { result ≡ hex_number places text.now }
    ensures below { IfSome result (λ n. n < 16 ^ places) }
{
    if text.len() != places || !all_hex_digits(text) {
        return None;
    }
    Some(hex_value(text))
}

/// Whether the text is a decimal number, without leading zeros.
fn is_number(text: &[u8]) -> bool
    ensures { result ≡ is_number text.now }
{
    match text {
        [] => false,
        [b'0', _, ..] => false,
        _ => all_decimal_digits(text),
    }
}

fn saturated(number: u64) -> u64
    ensures { result ≡ min number 4294967295 }
{
    number.min(4_294_967_295)
}

/// What decimal digits say, or the greatest number of 32 bits where that is less.
#[tactic(auto, using(crate::proofs::DigitLemmas::digit_at))]
fn decimal_place(text: &[u8]) -> u32
    requires { IsTrue (list_all is_decimal_digit text.now) }
    ensures { result ≡ min (digits_value 10 text.now) 4294967295 }
{
    let mut place: u64 = 0;
    for c in text {
        place = saturated(place * 10 + u64::from(*c - b'0'));
    }
    place as u32
}

/// The place that a decimal number names; a number above the greatest of 32 bits is read as that one.
pub fn read_place(text: &[u8]) -> Option<u32>
    ensures { result ≡ place_of text.now }
{
    if !is_number(text) {
        return None;
    }
    Some(decimal_place(text))
}
