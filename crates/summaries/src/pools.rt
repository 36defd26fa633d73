//! What virtual and interface calls pass, by the number of the call.

use crate::cells::Cell;
use crate::walks::Walk;
use seq::Seq;
use std::alloc::{AllocError, Global};

/// What the calls of a number pass, word by word, and whether a run comes to one of them.
#[derive(Drop)]
pub(crate) struct Pool {
    pub(crate) reached: bool,
    pub(crate) words: Seq<Cell>,
}

/// The pools of all calls.
#[derive(Drop)]
pub(crate) struct Passing {
    pub(crate) all: Vec<Pool>,
}

/// Raises a cell by the value of a register.
pub(crate) fn raise_by(
    alloc: Global,
    cell: &mut Cell,
    walk: &Walk,
    register: u16,
) -> Result<bool, AllocError> {
    match walk.get(u32::from(register)) {
        Some(value) => cell.raise(alloc, value),
        None => Ok(false),
    }
}

impl Pool {
    /// Raises a word by the value of a register, and answers whether it rose.
    fn raise(
        &mut self,
        alloc: Global,
        place: usize,
        walk: &Walk,
        register: u16,
    ) -> Result<bool, AllocError> {
        if place >= self.words.items.len() {
            self.words.items.push(Cell::new())?;
        }
        match self.words.items.get_mut(place) {
            Some(cell) => raise_by(alloc, cell, walk, register),
            None => Ok(false),
        }
    }

    /// Lets a run come to a call with these arguments, and answers whether anything rose.
    fn pass(&mut self, alloc: Global, args: &[u16], walk: &Walk) -> Result<bool, AllocError> {
        let mut rose = !self.reached;
        self.reached = true;
        for place in 0..args.len() {
            let risen = self.raise(alloc, place, walk, args[place])?;
            rose |= risen;
        }
        Ok(rose)
    }
}

impl Passing {
    /// Nothing is passed by any of so many calls.
    pub(crate) fn new(alloc: Global, calls: usize) -> Result<Passing, AllocError> {
        let mut all = Vec::with_capacity(alloc, calls)?;
        for _ in 0..calls {
            all.push(Pool {
                reached: false,
                words: Seq::new(alloc),
            })?;
        }
        Ok(Passing { all })
    }

    /// Lets a run come to a call with these arguments, and answers whether anything rose.
    pub(crate) fn pass(
        &mut self,
        alloc: Global,
        call: u32,
        args: &[u16],
        walk: &Walk,
    ) -> Result<bool, AllocError> {
        match self.all.get_mut(call as usize) {
            Some(pool) => pool.pass(alloc, args, walk),
            None => Ok(false),
        }
    }

    /// What the calls of a number pass.
    pub(crate) fn words(&self, call: u32) -> &[Cell] {
        match self.all.as_slice().get(call as usize) {
            Some(pool) => pool.words.as_slice(),
            None => &[],
        }
    }
}
