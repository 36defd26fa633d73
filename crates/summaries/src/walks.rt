//! The registers of a walk, which it writes in place.
//!
//! A map of registers shares what two of them have in common, so one more value in it makes several nodes. A walk goes over
//! many positions before it comes to a node, where its registers are compared with those that are known there. So it keeps
//! what it writes in a list, and makes a map of it only where more is known at a node than before.

use crate::rows::behind;
use domains::{Nullness, Value};
use lattice_core::{Domain, Lattice};
use pat_map::{MapValue, PatMap};
use std::alloc::{AllocError, Global};

/// The registers where a walk is, so many as `count`: those of `base`, but for those in `written`, whose values stand in
/// `values`. All others have none there.
#[derive(Drop)]
pub(crate) struct Walk {
    base: PatMap<Value>,
    values: Vec<Option<Value>>,
    written: Vec<u32>,
    count: u32,
}

/// The value of a register as it is known at a node, raised by what comes there; none where it doesn't rise.
fn raised(
    alloc: Global,
    known: Option<&Value>,
    newer: Option<&Value>,
    widens: bool,
) -> Result<Option<Value>, AllocError> {
    let Some(value) = newer else {
        return Ok(None);
    };
    let Some(own) = known else {
        return Ok(Some(value.same()));
    };
    if value.leq(own) {
        return Ok(None);
    }
    if widens {
        Ok(Some(own.widen(alloc, value)?))
    } else {
        Ok(Some(own.join(alloc, value)?))
    }
}

/// Whether a register of a map surely has a value.
fn has(registers: &PatMap<Value>, register: u32, value: &Value) -> bool {
    match registers.get(register) {
        Some(own) => own.is_same(value),
        None => false,
    }
}

/// Lets a map that has become of another one, if it has, have a value at a register.
fn set_in(
    alloc: Global,
    known: &PatMap<Value>,
    risen: &mut Option<PatMap<Value>>,
    register: u32,
    value: Value,
) -> Result<(), AllocError> {
    let next = match &*risen {
        Some(registers) => registers.set(alloc, register, value)?,
        None => known.set(alloc, register, value)?,
    };
    *risen = Some(next);
    Ok(())
}

/// As many places as there are registers, at least.
fn widen_to(values: &mut Vec<Option<Value>>, count: usize) -> Result<(), AllocError> {
    for _ in values.len()..count {
        values.push(None)?;
    }
    Ok(())
}

impl Walk {
    /// A walk of no registers.
    pub(crate) fn new(alloc: Global) -> Walk {
        Walk {
            base: PatMap::empty(),
            values: Vec::new(alloc),
            written: Vec::new(alloc),
            count: 0,
        }
    }

    /// Lets no register be written.
    fn clear(&mut self) {
        for register in self.written.as_slice() {
            if let Some(own) = self.values.get_mut(*register as usize) {
                *own = None;
            }
        }
        self.written.clear();
    }

    /// Lets a walk begin with so many registers of a map.
    pub(crate) fn begin(&mut self, registers: PatMap<Value>, count: u32) -> Result<(), AllocError> {
        self.clear();
        self.base = registers;
        self.count = count;
        widen_to(&mut self.values, count as usize)
    }

    /// Lets a walk go on with other registers of the same body.
    pub(crate) fn resume(&mut self, registers: PatMap<Value>) {
        self.clear();
        self.base = registers;
    }

    /// The value of a register, if it has one.
    pub(crate) fn get(&self, register: u32) -> Option<&Value> {
        match self.values.as_slice().get(register as usize) {
            Some(Some(value)) => Some(value),
            _ => self.base.get(register),
        }
    }

    /// The same, that of nothing where it has none.
    pub(crate) fn value_at(&self, register: u16) -> Value {
        match self.get(u32::from(register)) {
            Some(value) => value.same(),
            None => Value::none(),
        }
    }

    /// Whether a register surely has an object.
    pub(crate) fn has_object(&self, register: u16) -> bool {
        match self.get(u32::from(register)) {
            Some(value) => matches!(value.nullness(), Nullness::NotNull),
            None => false,
        }
    }

    /// Puts a value into a register of the body.
    pub(crate) fn put(&mut self, register: u32, value: Value) -> Result<(), AllocError> {
        let Some(own) = self.values.get_mut(register as usize) else {
            return Ok(());
        };
        let first = own.is_none();
        *own = Some(value);
        if first {
            self.written.push(register)?;
        }
        Ok(())
    }

    /// Puts a value into a register, or a wide one into two.
    pub(crate) fn put_sized(
        &mut self,
        wide: bool,
        to: u16,
        value: Value,
    ) -> Result<(), AllocError> {
        self.put(u32::from(to), value)?;
        if wide {
            self.put(behind(u32::from(to), 1), Value::any())
        } else {
            Ok(())
        }
    }

    /// A map of the registers.
    fn made(&self, alloc: Global) -> Result<PatMap<Value>, AllocError> {
        let mut registers = self.base.share()?;
        for register in self.written.as_slice() {
            if let Some(value) = self.get(*register) {
                if !has(&self.base, *register, value) {
                    registers = registers.set(alloc, *register, value.same())?;
                }
            }
        }
        Ok(registers)
    }

    /// The registers as a map.
    pub(crate) fn map(&mut self, alloc: Global) -> Result<PatMap<Value>, AllocError> {
        if !self.written.is_empty() {
            let registers = self.made(alloc)?;
            self.resume(registers);
        }
        self.base.share()
    }

    /// What is known at a node, raised by these registers; none where nothing rises.
    pub(crate) fn raise(
        &self,
        alloc: Global,
        known: &PatMap<Value>,
        widens: bool,
    ) -> Result<Option<PatMap<Value>>, AllocError> {
        let mut risen: Option<PatMap<Value>> = None;
        for register in 0..self.count {
            if let Some(more) = raised(alloc, known.get(register), self.get(register), widens)? {
                set_in(alloc, known, &mut risen, register, more)?;
            }
        }
        Ok(risen)
    }
}
