//! How the fields lie in the units of a format (Dalvik bytecode, "Instruction formats").

ghost use Rattle.std.specs.Prelude.{◌≡◌, ◌+◌, ◌*◌, ◌%◌, ◌/◌, ◌++◌, ◌^◌, ◌<◌, OnOk};
ghost use Rattle.code_write.specs.Units.{unit_bytes, byte_unit, nibble_unit, low, high, units_in};

use crate::bytes::push_units;
use crate::fields::Fields;
use insn_set::Format;
use std::alloc::AllocError;

/// A unit of the opcode and a byte.
fn byte_unit(op: u8, a: u32) -> u16
    ensures { result ≡ byte_unit op a }
{
    u16::from(op) + 256 * (a % 256) as u16
}

/// A unit of the opcode and two nibbles, the lower one first.
fn nibble_unit(op: u8, low: u32, high: u32) -> u16
    ensures { result ≡ nibble_unit op low high }
{
    u16::from(op) + 256 * (low % 16) as u16 + 4096 * (high % 16) as u16
}

/// The lower half of 32 bits.
pub(crate) fn low(number: u32) -> u16
    ensures { result ≡ low number }
{
    (number % 0x1_0000) as u16
}

/// The upper half of 32 bits.
pub(crate) fn high(number: u32) -> u16
    ensures { result ≡ high number }
{
    (number / 0x1_0000) as u16
}

/// A quarter of 64 bits.
fn quarter(number: u64, divisor: u64) -> u16
    requires { 0 < divisor }
    ensures { result ≡ number / divisor % 65536 }
{
    (number / divisor % 0x1_0000) as u16
}

/// Adds the units of the fields in the format.
pub(crate) fn push_fields(
    out: &mut Vec<u8>,
    format: Format,
    op: u8,
    fields: &Fields,
) -> Result<(), AllocError>
    ensures { OnOk result (out.new.items ≡ out.old.items ++ unit_bytes (units_in format op fields.now)) }
{
    let Fields { a, b, c, long } = *fields;
    match format {
        Format::F10x => push_units(out, &[u16::from(op)]),
        Format::F12x | Format::F11n => push_units(out, &[nibble_unit(op, a, b)]),
        Format::F11x | Format::F10t => push_units(out, &[byte_unit(op, a)]),
        Format::F20t => push_units(out, &[u16::from(op), low(b)]),
        Format::F22x | Format::F21t | Format::F21s | Format::F21h | Format::F21c => {
            push_units(out, &[byte_unit(op, a), low(b)])
        }
        Format::F23x | Format::F22b => {
            push_units(out, &[byte_unit(op, a), byte_unit((b % 256) as u8, c)])
        }
        Format::F22t | Format::F22s | Format::F22c => {
            push_units(out, &[nibble_unit(op, a, b), low(c)])
        }
        Format::F30t => push_units(out, &[u16::from(op), low(b), high(b)]),
        Format::F32x => push_units(out, &[u16::from(op), low(a), low(b)]),
        Format::F31i | Format::F31t | Format::F31c => {
            push_units(out, &[byte_unit(op, a), low(b), high(b)])
        }
        Format::F35c => push_units(out, &[nibble_unit(op, c, a), low(b), quarter(long, 1)]),
        Format::F3rc => push_units(out, &[byte_unit(op, a), low(b), low(c)]),
        Format::F51l => push_units(
            out,
            &[
                byte_unit(op, a),
                quarter(long, 1),
                quarter(long, 0x1_0000),
                quarter(long, 0x1_0000_0000),
                quarter(long, 0x1_0000_0000_0000),
            ],
        ),
    }
}
