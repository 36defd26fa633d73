//! The kinds of all registers at a position, and how a write changes them.

ghost use Rattle.std.specs.Prelude.{◌≡◌, ◌≤◌, map, slice_set, IfOk};
ghost use Rattle.verify.specs.Kinds.{replaced, forgotten};
ghost use Rattle.verify.specs.Frames.{kinds_of, kind_at, is_pair, cleared, split, written_one, written_pair, written_kinds, written, replace, forget, all_undefined};

use crate::kinds::Kind;
use std::alloc::{AllocError, Global};

/// A kind for each register, for the place of the last result, for that of the caught object, and in a constructor for
/// the receiver's own place, which no form reads, writes or moves.
#[derive(Drop)]
pub struct Frame {
    pub registers: Vec<Kind>,
    pub result: Kind,
    pub caught: Kind,
    pub receiver: Kind,
}

/// The other kind where a kind is the old one.
fn replaced(kind: Kind, old: Kind, new: Kind) -> Kind
    ensures { result ≡ replaced old new kind }
{
    if kind.is_same(old) { new } else { kind }
}

/// Undefined for what was made at a position and never initialised.
fn forgotten(kind: Kind, made: u32) -> Kind
    ensures { result ≡ forgotten made kind }
{
    match kind {
        Kind::Fresh { position, .. } => {
            if position == made {
                Kind::Undefined
            } else {
                kind
            }
        }
        _ => kind,
    }
}

/// The kind of a register, undefined past the last one.
fn kind_at(kinds: &[Kind], register: u32) -> Kind
    ensures { result ≡ kind_at kinds.now register }
{
    match kinds.get(register as usize) {
        Some(kind) => *kind,
        None => Kind::Undefined,
    }
}

/// Sets the kind of a register, unless it is past the last one.
fn put(kinds: &mut [Kind], register: u32, kind: Kind)
    ensures { kinds.new ≡ slice_set kinds.old register kind }
{
    let at = register as usize;
    if at < kinds.len() {
        kinds[at] = kind;
    }
}

/// Makes a register undefined that holds this half of a wide value.
fn clear(kinds: &mut [Kind], register: u32, half: Kind)
    ensures { kinds.new ≡ cleared register half kinds.old }
{
    if kind_at(kinds, register).is_same(half) {
        put(kinds, register, Kind::Undefined);
    }
}

/// Makes the other half of a wide value undefined, where the register holds one half: a high half stands behind its low
/// half alone.
fn split(kinds: &mut [Kind], register: u32)
    requires { register ≤ 65536 }
    ensures { kinds.new ≡ split register kinds.old }
{
    clear(kinds, register + 1, Kind::WideHigh);
    clear(kinds, register.saturating_sub(1), Kind::WideLow);
}

/// Writes one register.
fn write_one(kinds: &mut [Kind], register: u16, kind: Kind)
    ensures { kinds.new ≡ written_one register kind kinds.old }
{
    split(kinds, u32::from(register));
    put(kinds, u32::from(register), kind);
}

/// Writes both halves of a wide value.
fn write_pair(kinds: &mut [Kind], register: u16)
    ensures { kinds.new ≡ written_pair register kinds.old }
{
    let low = u32::from(register);
    split(kinds, low);
    split(kinds, low + 1);
    put(kinds, low, Kind::WideLow);
    put(kinds, low + 1, Kind::WideHigh);
}

/// Writes a register; the low half stands for both halves of a wide value.
fn write_kinds(kinds: &mut [Kind], register: u16, kind: Kind)
    ensures { kinds.new ≡ written_kinds register kind kinds.old }
{
    match kind {
        Kind::WideLow => write_pair(kinds, register),
        _ => write_one(kinds, register, kind),
    }
}

/// Gives each register of a kind another one.
fn replace_all(kinds: &mut [Kind], old: Kind, new: Kind)
    ensures { kinds.new ≡ map (replaced old new) kinds.old }
{
    for cell in kinds.iter_mut() {
        *cell = replaced(*cell, old, new);
    }
}

/// Makes each register undefined that holds what was made at the position and never initialised.
fn forget_all(kinds: &mut [Kind], position: u32)
    ensures { kinds.new ≡ map (forgotten position) kinds.old }
{
    for cell in kinds.iter_mut() {
        *cell = forgotten(*cell, position);
    }
}

impl Frame {
    /// A frame of so many registers that says nothing.
    pub fn undefined(alloc: Global, registers: u16) -> Result<Frame, AllocError>
        ensures { IfOk result (λ f. kinds_of f ≡ all_undefined registers) }
    {
        Ok(Frame {
            registers: vec![in alloc; Kind::Undefined; registers as usize]?,
            result: Kind::Undefined,
            caught: Kind::Undefined,
            receiver: Kind::Undefined,
        })
    }

    /// The same frame once more.
    pub fn copy(&self, alloc: Global) -> Result<Frame, AllocError>
        ensures { IfOk result (λ f. kinds_of f ≡ kinds_of self.now) }
    {
        Ok(Frame {
            registers: Vec::from_slice(alloc, self.registers.as_slice())?,
            result: self.result,
            caught: self.caught,
            receiver: self.receiver,
        })
    }

    /// The kind of a register, undefined past the last one.
    pub fn at(&self, register: u32) -> Kind
        ensures { result ≡ kind_at (kinds_of self.now).registers register }
    {
        kind_at(self.registers.as_slice(), register)
    }

    /// The kind of the register that an operand names.
    pub fn of(&self, register: u16) -> Kind
        ensures { result ≡ kind_at (kinds_of self.now).registers register }
    {
        kind_at(self.registers.as_slice(), u32::from(register))
    }

    /// Whether the register and the next one hold the halves of a wide value.
    pub fn is_pair(&self, register: u16) -> bool
        ensures { result ≡ is_pair (kinds_of self.now).registers register }
    {
        let low = u32::from(register);
        self.at(low).is_same(Kind::WideLow) && self.at(low + 1).is_same(Kind::WideHigh)
    }

    /// Sets the kind of a register, unless it is past the last one.
    pub fn put(&mut self, register: u32, kind: Kind)
        ensures { kinds_of self.new ≡ record (kinds_of self.old) { registers = slice_set (kinds_of self.old).registers register kind } }
    {
        put(self.registers.as_mut_slice(), register, kind);
    }

    /// Writes a register; the low half stands for both halves of a wide value.
    pub fn write(&mut self, register: u16, kind: Kind)
        ensures { kinds_of self.new ≡ written register kind (kinds_of self.old) }
    {
        write_kinds(self.registers.as_mut_slice(), register, kind);
    }

    /// Gives each register of a kind another one, and the receiver's own place too.
    pub fn replace(&mut self, old: Kind, new: Kind)
        ensures { kinds_of self.new ≡ replace old new (kinds_of self.old) }
    {
        replace_all(self.registers.as_mut_slice(), old, new);
        self.receiver = replaced(self.receiver, old, new);
    }

    /// Makes each register undefined that holds what was made at the position and never initialised.
    pub fn forget(&mut self, position: u32)
        ensures { kinds_of self.new ≡ forget position (kinds_of self.old) }
    {
        forget_all(self.registers.as_mut_slice(), position);
    }

    /// Leaves a result in its place.
    pub fn leave(&mut self, kind: Kind)
        ensures { kinds_of self.new ≡ record (kinds_of self.old) { result = kind } }
    {
        self.result = kind;
    }
}
