//! Numbers that wait to be looked at, each of them once.

use crate::rows::is_on;
use std::alloc::{AllocError, Global};

/// Numbers that wait, and which of them do.
#[derive(Drop)]
pub(crate) struct Waits {
    marks: Vec<bool>,
    stack: Vec<u32>,
}

impl Waits {
    /// No number below a count waits.
    pub(crate) fn new(alloc: Global, count: usize) -> Result<Waits, AllocError> {
        Ok(Waits {
            marks: vec![in alloc; false; count]?,
            stack: Vec::new(alloc),
        })
    }

    /// Lets a number wait, unless it does.
    pub(crate) fn add(&mut self, number: u32) -> Result<(), AllocError> {
        if is_on(&self.marks, number) {
            return Ok(());
        }
        if let Some(mark) = self.marks.get_mut(number as usize) {
            *mark = true;
            self.stack.push(number)?;
        }
        Ok(())
    }

    /// A number that has waited, and does no more.
    pub(crate) fn take(&mut self) -> Option<u32> {
        let number = self.stack.pop()?;
        if let Some(mark) = self.marks.get_mut(number as usize) {
            *mark = false;
        }
        Some(number)
    }

    /// A number that has waited, and never will again.
    pub(crate) fn take_for_good(&mut self) -> Option<u32> {
        self.stack.pop()
    }

    /// Which numbers wait or will never wait again.
    pub(crate) fn marks(&self) -> &[bool] {
        self.marks.as_slice()
    }
}
