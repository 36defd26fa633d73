//! The shortest spelling of a form, and which forms have one.

ghost use Rattle.std.specs.Prelude.{◌≡◌, ◌+◌, ◌<◌, ◌&&◌, nat_eq, nat_lt, pos, length, drop, ℤ};
ghost use Rattle.std.specs.List.{list_all, zip};
ghost use Rattle.insn_set.specs.Spelling.{within, fits_nibble, fits_byte, fits_short, fits_int, is_multiple, are_adjacent, fit_nibbles, fit_call, takes_short, fits_width, is_width, keys_ascend, shortest_goto, shortest_move, shortest_const, shortest_wide, shortest_string, shortest_call, shortest_binary, shortest_literal, shortest, units_of, number_encodable, memory_encodable, is_encodable};

use crate::form::Insn;
use crate::format::Format;
use crate::ops::LiteralOp;
use seq::Seq;

/// Whether the number is from `low` to `high`.
fn is_within(low: i64, high: i64, number: i64) -> bool
    ensures { result ≡ within low high number }
{
    low <= number && number <= high
}

/// Whether the number has room in 8 signed bits.
fn is_byte(number: i64) -> bool
    ensures { result ≡ fits_byte number }
{
    is_within(-128, 127, number)
}

/// Whether the number has room in 16 signed bits.
fn is_short(number: i64) -> bool
    ensures { result ≡ fits_short number }
{
    is_within(-32768, 32767, number)
}

/// Whether each register is the one behind the register before it.
fn adjacent(words: &[u16]) -> bool
    ensures { result ≡ are_adjacent words.now }
{
    words
        .iter()
        .zip(words.iter().skip(1))
        .all(|(word, next)| u32::from(*next) == u32::from(*word) + 1)
}

/// Whether each register has room in a nibble.
fn all_nibbles(words: &[u16]) -> bool
    ensures { result ≡ list_all (λ r. nat_lt r 16) words.now }
{
    words.iter().all(|word| *word < 16)
}

/// Whether a call's registers have room in five nibbles.
fn in_nibbles(words: &[u16]) -> bool
    ensures { result ≡ fit_nibbles words.now }
{
    words.len() <= 5 && all_nibbles(words)
}

/// Whether a call's registers have a spelling.
fn in_call(words: &[u16]) -> bool
    ensures { result ≡ fit_call words.now }
{
    in_nibbles(words) || (words.len() < 256 && adjacent(words))
}

/// Whether an array's item has room in so many bytes.
fn in_width(width: u8, item: u64) -> bool
    ensures { result ≡ fits_width width item }
{
    match width {
        1 => item < 0x100,
        2 => item < 0x1_0000,
        4 => item < 0x1_0000_0000,
        _ => width == 8,
    }
}

/// Whether each of an array's items has room in so many bytes.
fn all_in_width(width: u8, items: &[u64]) -> bool
    ensures { result ≡ list_all (λ item. fits_width width item) items.now }
{
    items.iter().all(|item| in_width(width, *item))
}

/// Whether an array's items may have so many bytes.
fn is_item_width(width: u8) -> bool
    ensures { result ≡ is_width width }
{
    (width == 1 || width == 2) || (width == 4 || width == 8)
}

/// Whether an array's items have a spelling.
fn in_array(width: u8, items: &[u64]) -> bool
    ensures { result ≡ (is_width width && (nat_lt (length items.now) 4294967296 && list_all (λ item. fits_width width item) items.now)) }
{
    is_item_width(width) && (items.len() < 0x1_0000_0000 && all_in_width(width, items))
}

/// Whether the keys of a switch ascend.
fn ascend(keys: &[i32]) -> bool
    ensures { result ≡ keys_ascend keys.now }
{
    keys.iter()
        .zip(keys.iter().skip(1))
        .all(|(key, next)| *key < *next)
}

impl LiteralOp {
    /// Whether it has a spelling with a literal of 16 bits. A shift has none.
    pub fn takes_short(self) -> bool
        ensures { result ≡ takes_short self }
    {
        !matches!(
            self,
            LiteralOp::ShlInt | LiteralOp::ShrInt | LiteralOp::UshrInt
        )
    }
}

/// The shortest goto over a distance. Only the longest one may go to itself.
fn goto_format(distance: i64) -> Format
    ensures { result ≡ shortest_goto distance }
{
    if distance == 0 {
        Format::F30t
    } else if is_byte(distance) {
        Format::F10t
    } else if is_short(distance) {
        Format::F20t
    } else {
        Format::F30t
    }
}

/// The shortest move.
fn move_format(to: u16, from: u16) -> Format
    ensures { result ≡ shortest_move to from }
{
    if to < 16 && from < 16 {
        Format::F12x
    } else if to < 256 {
        Format::F22x
    } else {
        Format::F32x
    }
}

/// The shortest constant word.
fn const_format(to: u16, value: i32) -> Format
    ensures { result ≡ shortest_const to value }
{
    let number = i64::from(value);
    if to < 16 && is_within(-8, 7, number) {
        Format::F11n
    } else if is_short(number) {
        Format::F21s
    } else if value % 0x1_0000 == 0 {
        Format::F21h
    } else {
        Format::F31i
    }
}

/// The shortest constant wide.
fn wide_format(value: i64) -> Format
    ensures { result ≡ shortest_wide value }
{
    if is_short(value) {
        Format::F21s
    } else if value % 0x1_0000_0000_0000 == 0 {
        Format::F21h
    } else if is_within(-0x8000_0000, 0x7fff_ffff, value) {
        Format::F31i
    } else {
        Format::F51l
    }
}

/// The shortest constant string.
fn string_format(string: u32) -> Format
    ensures { result ≡ shortest_string string }
{
    if string < 0x1_0000 {
        Format::F21c
    } else {
        Format::F31c
    }
}

/// The shortest call or filled array.
fn call_format(words: &[u16]) -> Format
    ensures { result ≡ shortest_call words.now }
{
    if in_nibbles(words) {
        Format::F35c
    } else {
        Format::F3rc
    }
}

/// The shortest operation on two registers: that on two registers of which the first is written, where it serves.
fn binary_format(to: u16, a: u16, b: u16) -> Format
    ensures { result ≡ shortest_binary to a b }
{
    if to == a && (to < 16 && b < 16) {
        Format::F12x
    } else {
        Format::F23x
    }
}

/// The shortest operation with a literal.
fn literal_format(to: u16, a: u16, value: i16) -> Format
    ensures { result ≡ shortest_literal to a value }
{
    if to < 256 && (a < 256 && is_byte(i64::from(value))) {
        Format::F22b
    } else {
        Format::F22s
    }
}

/// Whether a sparse switch's keys and targets have a spelling.
fn in_sparse(keys: &Seq<i32>, targets: &Seq<u32>) -> bool
    ensures { result ≡ (nat_lt (length targets.now) 65536 && (nat_eq (length keys.now) (length targets.now) && keys_ascend keys.now)) }
{
    targets.len() < 65536 && (keys.len() == targets.len() && ascend(keys.as_slice()))
}

/// Whether a test of numbers or an operation on numbers has a spelling. The other forms left, as a goto, have one.
fn number_encodable(insn: &Insn) -> bool
    ensures { result ≡ number_encodable insn.now }
{
    match insn {
        Insn::Cmp { to, a, b, .. } | Insn::Binary { to, a, b, .. } => {
            *to < 256 && (*a < 256 && *b < 256)
        }
        Insn::If { a, b, .. } => *a < 16 && *b < 16,
        Insn::IfZero { a, .. } => *a < 256,
        Insn::Unary { to, from, .. } => *to < 16 && *from < 16,
        Insn::Literal { op, to, a, value } => {
            (*to < 256 && (*a < 256 && is_byte(i64::from(*value))))
                || (*to < 16 && (*a < 16 && op.takes_short()))
        }
        _ => true,
    }
}

/// Whether an operation on an array, or a get or a put of a field, has a spelling, or an operation on numbers has.
fn memory_encodable(insn: &Insn) -> bool
    ensures { result ≡ memory_encodable insn.now }
{
    match insn {
        Insn::ArrayLength { to, from } => *to < 16 && *from < 16,
        Insn::NewArray { to, size, .. } => *to < 16 && *size < 16,
        Insn::FillArray { on, width, items } => *on < 256 && in_array(*width, items.as_slice()),
        Insn::ArrayGet {
            to,
            array,
            index,
            ..
        } => *to < 256 && (*array < 256 && *index < 256),
        Insn::ArrayPut {
            from,
            array,
            index,
            ..
        } => { *from < 256 && (*array < 256 && *index < 256) }
        Insn::InstanceGet { to, on, .. } => *to < 16 && *on < 16,
        Insn::InstancePut { from, on, .. } => *from < 16 && *on < 16,
        Insn::StaticGet { to, .. } => *to < 256,
        Insn::StaticPut { from, .. } => *from < 256,
        _ => number_encodable(insn),
    }
}

impl Insn {
    /// The format of the shortest spelling that has room for the instruction, where one has. `distance` is how many
    /// units a branch goes, forwards if it is positive, and counts for a goto alone. It takes no memory.
    pub fn shortest(&self, distance: i64) -> Format
        ensures { result ≡ shortest self.now distance }
    {
        match self {
            Insn::Nop | Insn::ReturnVoid => Format::F10x,
            Insn::Move { to, from, .. } => move_format(*to, *from),
            Insn::Const { to, value } => const_format(*to, *value),
            Insn::ConstWide { value, .. } => wide_format(*value),
            Insn::ConstString { string, .. } => string_format(*string),
            Insn::FilledNewArray { args, .. } | Insn::Invoke { args, .. } => call_format(
                args.as_slice(),
            ),
            Insn::Goto { .. } => goto_format(distance),
            Insn::Binary { to, a, b, .. } => binary_format(*to, *a, *b),
            Insn::Literal { to, a, value, .. } => literal_format(*to, *a, *value),
            Insn::MoveResult { .. }
            | Insn::MoveException { .. }
            | Insn::Return { .. }
            | Insn::MonitorEnter { .. }
            | Insn::MonitorExit { .. }
            | Insn::Throw { .. } => Format::F11x,
            Insn::InstanceOf { .. }
            | Insn::NewArray { .. }
            | Insn::InstanceGet { .. }
            | Insn::InstancePut { .. } => Format::F22c,
            Insn::ArrayLength { .. } | Insn::Unary { .. } => Format::F12x,
            Insn::FillArray { .. } | Insn::PackedSwitch { .. } | Insn::SparseSwitch { .. } => {
                Format::F31t
            }
            Insn::Cmp { .. } | Insn::ArrayGet { .. } | Insn::ArrayPut { .. } => Format::F23x,
            Insn::If { .. } => Format::F22t,
            Insn::IfZero { .. } => Format::F21t,
            Insn::ConstClass { .. }
            | Insn::CheckCast { .. }
            | Insn::NewInstance { .. }
            | Insn::StaticGet { .. }
            | Insn::StaticPut { .. } => Format::F21c,
        }
    }

    /// How many units the shortest spelling has, for a distance as of `shortest`. It takes no memory.
    pub fn units(&self, distance: i64) -> u32
        ensures { result ≡ units_of self.now distance }
    {
        self.shortest(distance).units()
    }

    /// Whether some spelling has room for the registers, the literal, the width and the values of the items and the
    /// counts, and the keys of a sparse switch ascend, one for each target. It takes no memory.
    pub fn encodable(&self) -> bool
        ensures { result ≡ is_encodable self.now }
    {
        match self {
            Insn::MoveResult { to, .. }
            | Insn::MoveException { to }
            | Insn::Const { to, .. }
            | Insn::ConstWide { to, .. }
            | Insn::ConstString { to, .. }
            | Insn::ConstClass { to, .. }
            | Insn::NewInstance { to, .. } => *to < 256,
            Insn::Return { from, .. } => *from < 256,
            Insn::MonitorEnter { on }
            | Insn::MonitorExit { on }
            | Insn::CheckCast { on, .. }
            | Insn::Throw { on } => *on < 256,
            Insn::InstanceOf { to, from, .. } => *to < 16 && *from < 16,
            Insn::PackedSwitch { on, targets, .. } => *on < 256 && targets.len() < 65536,
            Insn::SparseSwitch { on, keys, targets } => *on < 256 && in_sparse(keys, targets),
            Insn::FilledNewArray { args, .. } | Insn::Invoke { args, .. } => in_call(
                args.as_slice(),
            ),
            _ => memory_encodable(self),
        }
    }
}
