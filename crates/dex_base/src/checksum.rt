//! Adler-32.

ghost use Rattle.std.specs.Prelude.{◌≡◌, ◌+◌, ◌%◌, ◌<◌, ◌≤◌, length, sum};
ghost use Rattle.dex_base.specs.Adler.{running_sums, adler_of};

/// The largest prime below 2^16.
const MODULUS: u64 = 65521;

/// How many bytes are summed before the sums are reduced.
const PART: usize = 65536;

/// Both sums behind a part of the bytes.
fn sums_behind(first: u64, second: u64, part: &[u8]) -> (u64, u64)
    requires first_low { first < 65521 }
    requires second_low { second < 65521 }
    requires few { length part.now ≤ 65536 }
    ensures first { result.0 ≡ (first + sum part.now) % 65521 }
    ensures second { result.1 ≡ (second + sum (running_sums first part.now)) % 65521 }
{
    let mut s1 = first;
    let mut s2 = second;
    for byte in part {
        s1 += u64::from(*byte);
        s2 += s1;
    }
    (s1 % MODULUS, s2 % MODULUS)
}

/// The Adler-32 checksum of RFC 1950. No memory is taken.
pub fn adler(bytes: &[u8]) -> u32
    ensures { result ≡ adler_of bytes.now }
{
    let mut sums = (1, 0);
    let mut rest = bytes;
    while rest.len() > PART {
        let (part, behind) = rest.split_at(PART);
        sums = sums_behind(sums.0, sums.1, part);
        rest = behind;
    }
    let (s1, s2) = sums_behind(sums.0, sums.1, rest);
    (s2 * 65536 + s1) as u32
}
