//! The bodies that may run.

use crate::rows::{NONE, word};
use call_graph::LiveSet;
use domains::Value;
use pat_map::PatMap;
use program_model::{Body, Class, Method, Program};
use std::alloc::{AllocError, Global};

/// A body that may run: its method's number, the place of its class, and where its positions and its parameter words begin
/// in the tables of all of them. `free` has anything in each register that is no parameter.
#[derive(Drop)]
pub(crate) struct Code<'a> {
    pub(crate) number: u32,
    pub(crate) class: u32,
    pub(crate) body: &'a Body,
    pub(crate) first: u32,
    pub(crate) first_word: u32,
    pub(crate) free: PatMap<Value>,
}

/// All bodies that may run, and how many positions and parameter words they have together. `code_of` has the place of the
/// body of each method number, 4,294,967,295 where it has none that may run.
#[derive(Drop)]
pub(crate) struct Codes<'a> {
    pub(crate) all: Vec<Code<'a>>,
    pub(crate) code_of: Vec<u32>,
    pub(crate) positions: u32,
    pub(crate) words: u32,
}

impl<'a> Codes<'a> {
    /// The body of a method number, by its place.
    pub(crate) fn code_of(&self, method: u32) -> u32 {
        match self.code_of.as_slice().get(method as usize) {
            Some(place) => *place,
            None => NONE,
        }
    }

    /// The body at a place.
    pub(crate) fn at(&self, place: u32) -> Option<&Code<'a>> {
        self.all.as_slice().get(place as usize)
    }
}

/// Maps with anything at each number below a count, each of which is made once.
#[derive(Drop)]
struct Blanks {
    made: Vec<PatMap<Value>>,
}

impl Blanks {
    /// Makes the maps up to a count.
    fn reach(&mut self, alloc: Global, count: u32) -> Result<(), AllocError> {
        let first = word(self.made.len());
        for key in first..count.saturating_add(1) {
            let next = match self.made.as_slice().last() {
                Some(map) => map.set(alloc, key.saturating_sub(1), Value::any())?,
                None => PatMap::empty(),
            };
            self.made.push(next)?;
        }
        Ok(())
    }

    /// The map for a count.
    fn at(&mut self, alloc: Global, count: u32) -> Result<PatMap<Value>, AllocError> {
        self.reach(alloc, count)?;
        match self.made.as_slice().get(count as usize) {
            Some(map) => map.share(),
            None => Ok(PatMap::empty()),
        }
    }
}

/// The bodies as they are collected.
#[derive(Drop)]
struct Collection<'a> {
    codes: Codes<'a>,
    blanks: Blanks,
}

impl<'a> Collection<'a> {
    /// Adds the body of a method.
    fn add(
        &mut self,
        alloc: Global,
        class: u32,
        number: u32,
        body: &'a Body,
    ) -> Result<(), AllocError> {
        let free = body.registers.saturating_sub(body.ins);
        let code = Code {
            number,
            class,
            body,
            first: self.codes.positions,
            first_word: self.codes.words,
            free: self.blanks.at(alloc, u32::from(free))?,
        };
        let place = word(self.codes.all.len());
        if let Some(entry) = self.codes.code_of.get_mut(number as usize) {
            *entry = place;
        }
        let (positions, words) = (self.codes.positions, self.codes.words);
        self.codes.positions = positions.saturating_add(word(body.insns.len()));
        self.codes.words = words.saturating_add(u32::from(body.ins));
        self.codes.all.push(code)?;
        Ok(())
    }

    /// Adds the body of a method that is live.
    fn add_method(
        &mut self,
        alloc: Global,
        live: &LiveSet,
        class: u32,
        method: &'a Method,
    ) -> Result<(), AllocError> {
        if live.methods.as_slice().get(method.name as usize) != Some(&true) {
            return Ok(());
        }
        match &method.body {
            Some(body) => self.add(alloc, class, method.name, body),
            None => Ok(()),
        }
    }

    /// Adds the bodies of a class.
    fn add_class(
        &mut self,
        alloc: Global,
        live: &LiveSet,
        place: u32,
        class: &'a Class,
    ) -> Result<(), AllocError> {
        for method in class.methods.as_slice() {
            self.add_method(alloc, live, place, method)?;
        }
        Ok(())
    }
}

/// All bodies that may run.
pub(crate) fn make_codes<'a>(
    alloc: Global,
    program: &'a Program,
    live: &LiveSet,
) -> Result<Codes<'a>, AllocError> {
    let mut collection = Collection {
        codes: Codes {
            all: Vec::new(alloc),
            code_of: vec![in alloc; NONE; program.methods.len()]?,
            positions: 0,
            words: 0,
        },
        blanks: Blanks {
            made: Vec::new(alloc),
        },
    };
    let classes = program.classes.as_slice();
    for place in 0..classes.len() {
        collection.add_class(alloc, live, word(place), &classes[place])?;
    }
    let Collection { codes, .. } = collection;
    Ok(codes)
}
