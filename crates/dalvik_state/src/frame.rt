//! A method that runs.

ghost use Rattle.std.specs.Prelude.{◌≡◌, ◌+◌, ◌<◌, ◌^◌, slice_get, slice_set};
ghost use Rattle.std.specs.Option.{option_copied};
ghost use Rattle.dalvik_state.specs.Frames.{cell, with_item, with_slot, with_wide, GoesOn, Handles, IsWritten, IsMoved};

use crate::datum::Datum;
use program_model::{Body, Insn, Item, MethodAt, Slot};

/// A method that runs: where it is defined, its number and its body, the position, the registers, the result of the
/// last call or filled array, and the object that was caught last.
#[derive(Drop)]
pub struct Frame<'a> {
    pub at: MethodAt,
    pub method: u32,
    pub body: &'a Body,
    pub position: usize,
    pub registers: Vec<Datum>,
    pub result: Datum,
    pub caught: Datum,
}

/// What a register holds, 0 past the end.
pub fn read_register(registers: &[Datum], register: usize) -> Datum
    ensures { result ≡ cell registers.now register }
{
    match registers.get(register) {
        Some(datum) => *datum,
        None => Datum::NULL,
    }
}

/// Writes a register, unless it is past the end.
pub fn write_register(registers: &mut [Datum], register: usize, datum: Datum)
    ensures { registers.new ≡ slice_set registers.old register datum }
{
    if register < registers.len() {
        registers[register] = datum;
    }
}

/// Writes what an item of an array or a field held.
fn write_item(registers: &mut [Datum], item: Item, register: u16, datum: Datum)
    ensures { registers.new ≡ with_item item registers.old register datum }
{
    let first = register as usize;
    match item {
        Item::Wide => {
            write_register(registers, first, Datum::Low(datum.number()));
            write_register(registers, first + 1, Datum::High(datum.number()));
        }
        _ => write_register(registers, first, datum),
    }
}

impl<'a> Frame<'a> {
    /// The instruction at the position.
    pub fn insn(&self) -> Option<&'a Insn>
        ensures { option_copied result ≡ slice_get self.now.body.now.insns self.now.position }
    {
        self.body.insns.as_slice().get(self.position)
    }

    /// What a register holds.
    pub fn get(&self, register: u16) -> Datum
        ensures { result ≡ cell self.now.registers.items register }
    {
        read_register(self.registers.as_slice(), register as usize)
    }

    /// What the register behind one holds.
    pub fn get_second(&self, register: u16) -> Datum
        ensures { result ≡ cell self.now.registers.items (register + 1) }
    {
        read_register(self.registers.as_slice(), register as usize + 1)
    }

    /// Writes a register.
    pub fn set(&mut self, register: u16, datum: Datum)
        ensures { IsWritten self.old self.new (slice_set self.old.registers.items register datum) }
    {
        write_register(self.registers.as_mut_slice(), register as usize, datum);
    }

    /// Writes a wide, in two halves.
    pub fn set_wide(&mut self, register: u16, wide: u64)
        ensures { IsWritten self.old self.new (with_wide self.old.registers.items register wide) }
    {
        self.set_pair(register, Datum::Low(wide), Datum::High(wide));
    }

    /// Writes a register and the one behind it.
    pub fn set_pair(&mut self, register: u16, low: Datum, high: Datum)
        ensures { IsWritten self.old self.new (slice_set (slice_set self.old.registers.items register low) (register + 1) high) }
    {
        let first = register as usize;
        write_register(self.registers.as_mut_slice(), first, low);
        write_register(self.registers.as_mut_slice(), first + 1, high);
    }

    /// Writes what one place held.
    pub fn set_slot(&mut self, slot: Slot, register: u16, datum: Datum)
        ensures { IsWritten self.old self.new (with_slot slot self.old.registers.items register datum) }
    {
        match slot {
            Slot::Wide => self.set_wide(register, datum.number()),
            Slot::Word | Slot::Object => self.set(register, datum),
        }
    }

    /// Writes what an item of an array or a field held.
    pub fn set_item(&mut self, item: Item, register: u16, datum: Datum)
        ensures { IsWritten self.old self.new (with_item item self.old.registers.items register datum) }
    {
        match item {
            Item::Wide => self.set_wide(register, datum.number()),
            _ => self.set(register, datum),
        }
    }

    /// Goes to the next position.
    pub fn next(&mut self)
        ensures { self.old.position < 2 ^ 63 → IsMoved self.old self.new (self.old.position + 1) }
    {
        self.position = self.position.saturating_add(1);
    }

    /// Goes to the next position with what an item of an array or a field held in a register.
    pub fn next_with(&mut self, item: Item, register: u16, datum: Datum)
        ensures { GoesOn self.old self.new (with_item item self.old.registers.items register datum) }
    {
        write_item(self.registers.as_mut_slice(), item, register, datum);
        self.position = self.position.saturating_add(1);
    }

    /// Goes to the next position, and nothing else changes.
    pub fn next_alone(&mut self)
        ensures { GoesOn self.old self.new self.old.registers.items }
    {
        self.position = self.position.saturating_add(1);
    }

    /// Goes to a handler with what it catches.
    pub fn handle(&mut self, position: u32, caught: Datum)
        ensures { Handles self.old self.new position caught }
    {
        self.position = position as usize;
        self.caught = caught;
    }

    /// Goes to a position.
    pub fn go(&mut self, target: u32)
        ensures { IsMoved self.old self.new target }
    {
        self.position = target as usize;
    }
}
