//! The strong components of the classes, by Tarjan's algorithm.

use crate::links::Links;
use crate::table::{NONE, count_at, is_on, put, turn, word};
use std::alloc::{AllocError, Global};

/// The search for the strong components. `levels` is the number of each class's component, `closed` how many components are
/// complete. `reached` is the number under which a class was reached, and
/// `low` the least number that it is known to lead to. `path` are the reached classes whose component isn't complete,
/// of which `open` is a table; `trail` are the classes whose rows are being gone over, and `next` is where in its row
/// each one is.
#[derive(Drop)]
struct Search {
    reached: Vec<u32>,
    low: Vec<u32>,
    next: Vec<u32>,
    open: Vec<bool>,
    levels: Vec<u32>,
    path: Vec<u32>,
    trail: Vec<u32>,
    count: u32,
    closed: u32,
}

impl Search {
    fn new(alloc: Global, classes: usize) -> Result<Search, AllocError> {
        Ok(Search {
            reached: vec![in alloc; NONE; classes]?,
            low: vec![in alloc; NONE; classes]?,
            next: vec![in alloc; 0u32; classes]?,
            open: vec![in alloc; false; classes]?,
            levels: vec![in alloc; 0u32; classes]?,
            path: Vec::new(alloc),
            trail: Vec::new(alloc),
            count: 0,
            closed: 0,
        })
    }

    /// Reaches a class.
    fn reach(&mut self, class: u32) -> Result<(), AllocError> {
        put(self.reached.as_mut_slice(), class, self.count);
        put(self.low.as_mut_slice(), class, self.count);
        self.count = self.count.saturating_add(1);
        turn(self.open.as_mut_slice(), class, true);
        self.path.push(class)?;
        self.trail.push(class)?;
        Ok(())
    }

    /// Notes that a class leads to one with this number.
    fn lower(&mut self, class: u32, number: u32) {
        if number < count_at(self.low.as_slice(), class) {
            put(self.low.as_mut_slice(), class, number);
        }
    }

    /// Goes from a class to another one directly below it.
    fn follow(&mut self, class: u32, other: u32) -> Result<(), AllocError> {
        let number = count_at(self.reached.as_slice(), other);
        if number == NONE {
            return self.reach(other);
        }
        if is_on(self.open.as_slice(), other) {
            self.lower(class, number);
        }
        Ok(())
    }

    /// Takes the component that begins at a class off the path.
    fn close(&mut self, class: u32) {
        for _ in 0..self.path.len() {
            match self.path.pop() {
                Some(one) => {
                    turn(self.open.as_mut_slice(), one, false);
                    put(self.levels.as_mut_slice(), one, self.closed);
                    if one == class {
                        break;
                    }
                }
                None => break,
            }
        }
        self.closed = self.closed.saturating_add(1);
    }

    /// Leaves a class whose row is done.
    fn leave(&mut self, class: u32) {
        self.trail.pop();
        let low = count_at(self.low.as_slice(), class);
        if low == count_at(self.reached.as_slice(), class) {
            self.close(class);
        }
        if let Some(parent) = self.trail.last() {
            let parent = *parent;
            self.lower(parent, low);
        }
    }

    /// One step: on along the row of the last class of the trail, or back from it. Answers whether there was one.
    fn step(&mut self, below: &Links) -> Result<bool, AllocError> {
        let class = match self.trail.last() {
            Some(class) => *class,
            None => return Ok(false),
        };
        let at = count_at(self.next.as_slice(), class);
        match below.row(class).get(at as usize) {
            Some(other) => {
                put(self.next.as_mut_slice(), class, at.saturating_add(1));
                self.follow(class, *other)?;
            }
            None => self.leave(class),
        }
        Ok(true)
    }

    /// Goes over all classes that a class leads to.
    fn run(&mut self, root: u32, below: &Links) -> Result<(), AllocError> {
        if count_at(self.reached.as_slice(), root) != NONE {
            return Ok(());
        }
        self.reach(root)?;
        let most = below
            .size()
            .saturating_add(self.reached.len())
            .saturating_add(1);
        for _ in 0..most {
            if !self.step(below)? {
                break;
            }
        }
        Ok(())
    }
}

/// For each class the number of its strong component, where the classes below one have the same number or lower ones.
/// `below` has the classes directly below each.
pub fn levels_of_components(alloc: Global, below: &Links) -> Result<Vec<u32>, AllocError> {
    let mut search = Search::new(alloc, below.rows.len())?;
    for place in 0..word(below.rows.len()) {
        search.run(place, below)?;
    }
    Ok(search.levels)
}
