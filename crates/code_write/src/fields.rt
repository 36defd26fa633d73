//! The fields of an instruction: its registers, and its literal, its number or its distance.

ghost use Rattle.std.specs.Prelude.{◌≡◌, ◌%◌, length};
ghost use Rattle.std.specs.Int.{w16, w32, w64, cast_unsigned};
ghost use Rattle.code_write.specs.Fields.{word_at, const_field, wide_field, call_fields, binary_fields, number_fields, memory_fields, object_fields, fields_of};

use insn_set::Format;
use program_model::{Insn, Renumber};
use relax::new_number;

/// What the units hold besides the opcode. `a`, `b` and `c` are those of the format's picture from the left, `long` is
/// a literal of 64 bits or the last four nibbles of a call.
#[derive(Clone, Copy, Drop)]
pub(crate) struct Fields {
    pub(crate) a: u32,
    pub(crate) b: u32,
    pub(crate) c: u32,
    pub(crate) long: u64,
}

/// Three small fields.
fn three(a: u32, b: u32, c: u32) -> Fields
    ensures { result ≡ record { a = a; b = b; c = c; long = 0 } }
{
    Fields { a, b, c, long: 0 }
}

/// A register and a number.
fn pair(a: u16, b: u32) -> Fields
    ensures { result ≡ record { a = a; b = b; c = 0; long = 0 } }
{
    three(u32::from(a), b, 0)
}

/// Two registers and a number.
fn two(a: u16, b: u16, c: u32) -> Fields
    ensures { result ≡ record { a = a; b = b; c = c; long = 0 } }
{
    three(u32::from(a), u32::from(b), c)
}

/// The literal of a word, of which 21h has the upper half alone.
fn const_field(format: Format, value: i32) -> u32
    ensures { result ≡ const_field format value }
{
    match format {
        Format::F21h => value.cast_unsigned() / 0x1_0000,
        _ => value.cast_unsigned(),
    }
}

/// The literal of a wide, of which 21h has the upper quarter alone.
fn wide_field(format: Format, value: i64) -> u32
    ensures { result ≡ wide_field format value }
{
    match format {
        Format::F21h => (value.cast_unsigned() / 0x1_0000_0000_0000) as u32,
        _ => (value.cast_unsigned() % 0x1_0000_0000) as u32,
    }
}

/// A register of a call, 0 where it has fewer.
fn word_at(words: &[u16], place: usize) -> u16
    ensures { result ≡ word_at words.now place }
{
    match words.get(place) {
        Some(word) => *word,
        None => 0,
    }
}

/// A register of a call as a nibble.
fn nibble_at(words: &[u16], place: usize) -> u64
    ensures { result ≡ word_at words.now place % 16 }
{
    u64::from(word_at(words, place) % 16)
}

/// The fields of a call: how many registers, the number, the fifth register and the others; or how many, the number and
/// the first register.
fn call_fields(format: Format, number: u32, words: &[u16]) -> Fields
    ensures { result ≡ call_fields format number words.now }
{
    let count = (words.len() % 256) as u32;
    match format {
        Format::F35c => Fields {
            a: count,
            b: number,
            c: u32::from(word_at(words, 4)),
            long: nibble_at(words, 0)
                + 16 * nibble_at(words, 1)
                + 256 * nibble_at(words, 2)
                + 4096 * nibble_at(words, 3),
        },
        _ => three(count, number, u32::from(word_at(words, 0))),
    }
}

/// The fields of an operation on two registers: three registers, or the two where the first is written.
fn binary_fields(format: Format, to: u16, a: u16, b: u16) -> Fields
    ensures { result ≡ binary_fields format to a b }
{
    match format {
        Format::F23x => two(to, a, u32::from(b)),
        _ => two(to, b, 0),
    }
}

/// The fields of a test of numbers or of an operation on numbers. `far` is how far the branch goes, in 32 bits. The other
/// forms left have none.
fn number_fields(insn: &Insn, format: Format, far: u32) -> Fields
    ensures { result ≡ number_fields insn.now format far }
{
    match insn {
        Insn::Cmp { to, a, b, .. } => two(*to, *a, u32::from(*b)),
        Insn::If { a, b, .. } => two(*a, *b, far),
        Insn::IfZero { a, .. } => pair(*a, far),
        Insn::Unary { to, from, .. } => two(*to, *from, 0),
        Insn::Binary { to, a, b, .. } => binary_fields(format, *to, *a, *b),
        Insn::Literal { to, a, value, .. } => two(*to, *a, u32::from(value.cast_unsigned())),
        _ => three(0, 0, 0),
    }
}

/// The fields of an operation on an array, or of a get or a put of a field, or of an operation on numbers. `far` is how far
/// the branch goes, or the payload lies, in 32 bits. Numbers are new.
fn memory_fields(insn: &Insn, format: Format, numbers: &Renumber, far: u32) -> Fields
    ensures { result ≡ memory_fields insn.now format numbers.now far }
{
    match insn {
        Insn::ArrayLength { to, from } => two(*to, *from, 0),
        Insn::NewArray { to, size, kind } => two(*to, *size, new_number(&numbers.types, *kind)),
        Insn::FillArray { on, .. } => pair(*on, far),
        Insn::ArrayGet {
            to,
            array,
            index,
            ..
        } => two(*to, *array, u32::from(*index)),
        Insn::ArrayPut {
            from,
            array,
            index,
            ..
        } => two(*from, *array, u32::from(*index)),
        Insn::InstanceGet { to, on, field, .. } => {
            two(*to, *on, new_number(&numbers.fields, *field))
        }
        Insn::InstancePut {
            from,
            on,
            field,
            ..
        } => two(*from, *on, new_number(&numbers.fields, *field)),
        Insn::StaticGet { to, field, .. } => pair(*to, new_number(&numbers.fields, *field)),
        Insn::StaticPut { from, field, .. } => pair(*from, new_number(&numbers.fields, *field)),
        _ => number_fields(insn, format, far),
    }
}

/// The fields of an operation on an object, of a call or of a switch, or of a form behind these. `far` is how far the branch
/// goes, or the payload lies, in 32 bits. Numbers are new.
fn object_fields(insn: &Insn, format: Format, numbers: &Renumber, far: u32) -> Fields
    ensures { result ≡ object_fields insn.now format numbers.now far }
{
    match insn {
        Insn::MonitorEnter { on } | Insn::MonitorExit { on } | Insn::Throw { on } => pair(*on, 0),
        Insn::CheckCast { on, kind } => pair(*on, new_number(&numbers.types, *kind)),
        Insn::InstanceOf { to, from, kind } => {
            two(*to, *from, new_number(&numbers.types, *kind))
        }
        Insn::NewInstance { to, kind } => pair(*to, new_number(&numbers.types, *kind)),
        Insn::FilledNewArray { kind, args } => {
            call_fields(format, new_number(&numbers.types, *kind), args.as_slice())
        }
        Insn::Invoke { method, args, .. } => {
            call_fields(
                format,
                new_number(&numbers.methods, *method),
                args.as_slice(),
            )
        }
        Insn::Goto { .. } => three(far, far, 0),
        Insn::PackedSwitch { on, .. } | Insn::SparseSwitch { on, .. } => pair(*on, far),
        _ => memory_fields(insn, format, numbers, far),
    }
}

/// The fields of the instruction. `far` is how far the branch goes, or the payload lies, in 32 bits. Numbers are new.
pub(crate) fn fields_of(insn: &Insn, format: Format, numbers: &Renumber, far: u32) -> Fields
    ensures { result ≡ fields_of insn.now format numbers.now far }
{
    match insn {
        Insn::Move { to, from, .. } => two(*to, *from, 0),
        Insn::MoveResult { to, .. } | Insn::MoveException { to } => pair(*to, 0),
        Insn::Return { from, .. } => pair(*from, 0),
        Insn::Const { to, value } => pair(*to, const_field(format, *value)),
        Insn::ConstWide { to, value } => Fields {
            a: u32::from(*to),
            b: wide_field(format, *value),
            c: 0,
            long: value.cast_unsigned(),
        },
        Insn::ConstString { to, string } => pair(*to, new_number(&numbers.strings, *string)),
        Insn::ConstClass { to, kind } => pair(*to, new_number(&numbers.types, *kind)),
        _ => object_fields(insn, format, numbers, far),
    }
}
