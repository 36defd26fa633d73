//! The fields of an instruction, by its format (Dalvik bytecode, "Instruction formats").

ghost use Rattle.std.specs.Prelude.{◌≡◌, ◌+◌, ◌*◌};
ghost use Rattle.code_read.specs.Fields.{in_one, in_two, in_three, in_five, fields_in};

use insn_set::Format;

/// The fields of an instruction, by the letters of its format. `wide` is the number that has more than 16 bits, and
/// of a call by nibbles the fifth register, G; its `c` is the unit with the other four. A field that the format lacks
/// is 0.
#[derive(Clone, Copy, Drop)]
pub struct Fields {
    pub a: u16,
    pub b: u16,
    pub c: u16,
    pub wide: u64,
}

/// Fields of 16 bits or less.
fn narrow(a: u16, b: u16, c: u16) -> Fields
    ensures { result ≡ record { a = a; b = b; c = c; wide = 0 } }
{
    Fields { a, b, c, wide: 0 }
}

/// The fields in one unit.
fn fields_in_one(format: Format, u: u16) -> Fields
    ensures { result ≡ in_one format u }
{
    match format {
        Format::F10x => narrow(0, 0, 0),
        Format::F12x | Format::F11n => narrow(u / 256 % 16, u / 4096, 0),
        _ => narrow(u / 256, 0, 0),
    }
}

/// The fields in two units.
fn fields_in_two(format: Format, u: u16, v: u16) -> Fields
    ensures { result ≡ in_two format u v }
{
    match format {
        Format::F20t => narrow(v, 0, 0),
        Format::F23x | Format::F22b => narrow(u / 256, v % 256, v / 256),
        Format::F22t | Format::F22s | Format::F22c => narrow(u / 256 % 16, u / 4096, v),
        _ => narrow(u / 256, v, 0),
    }
}

/// The number of 32 bits in two units, the lower first.
fn joined(low: u16, high: u16) -> u64
    ensures { result ≡ low + 65536 * high }
{
    u64::from(low) + 65536 * u64::from(high)
}

/// The fields in three units.
fn fields_in_three(format: Format, u: u16, v: u16, w: u16) -> Fields
    ensures { result ≡ in_three format u v w }
{
    match format {
        Format::F30t => Fields {
            a: 0,
            b: 0,
            c: 0,
            wide: joined(v, w),
        },
        Format::F32x => narrow(v, w, 0),
        Format::F35c => Fields {
            a: u / 4096,
            b: v,
            c: w,
            wide: u64::from(u / 256 % 16),
        },
        Format::F3rc => narrow(u / 256, v, w),
        _ => Fields {
            a: u / 256,
            b: 0,
            c: 0,
            wide: joined(v, w),
        },
    }
}

/// The fields in five units.
fn fields_in_five(u: u16, v: u16, w: u16, x: u16, y: u16) -> Fields
    ensures { result ≡ in_five u v w x y }
{
    Fields {
        a: u / 256,
        b: 0,
        c: 0,
        wide: joined(v, w) + 0x1_0000_0000 * joined(x, y),
    }
}

/// The fields of the instruction of this format at the front, none where the units end before.
pub fn fields_of(format: Format, units: &[u16]) -> Option<Fields>
    ensures { result ≡ fields_in format units.now }
{
    match (format.units(), units) {
        (1, [u, ..]) => Some(fields_in_one(format, *u)),
        (2, [u, v, ..]) => Some(fields_in_two(format, *u, *v)),
        (3, [u, v, w, ..]) => Some(fields_in_three(format, *u, *v, *w)),
        (5, [u, v, w, x, y, ..]) => Some(fields_in_five(*u, *v, *w, *x, *y)),
        _ => None,
    }
}
