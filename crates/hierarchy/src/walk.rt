//! Walks over classes that take each class once.

ghost use Rattle.std.specs.Prelude.{◌≡◌, ◌<◌, ◌&&◌, ◌∷◌, ◌++◌, [], true, not, length, nat_lt, slice_set, slice_index_or, Contains, ℕ, false, cond, Some, None, MatchOption, IfNone, IfOk, OnOk, flat_map};
ghost use Rattle.class_defs.specs.Finding.{beside};
ghost use Rattle.hierarchy.specs.Tables.{row_of};
ghost use Rattle.hierarchy.specs.Walking.{is_seen, waits, IsFair, IsClear, Enters, Visits};

use crate::links::Links;
use crate::table::{is_on, turn};
use std::alloc::{AllocError, Global};

/// What a walk has seen, and the classes that it still has to go to. It is made once and serves many walks.
#[derive(Drop)]
pub struct Walk {
    seen: Vec<bool>,
    list: Vec<u32>,
    waiting: Vec<u32>,
}

/// Clears the marks of these classes.
fn forget(seen: &mut [bool], list: &[u32])
    ensures size { length seen.new ≡ length seen.old }
    ensures cleared { ((c : ℕ) → slice_index_or seen.old c false ≡ true → Contains list.now c) → (c : ℕ) → slice_index_or seen.new c false ≡ true → ⊥ }
{
    for class in list {
        turn(seen, *class, false);
    }
}

impl Walk {
    /// A walk over so many classes.
    pub fn new(alloc: Global, classes: usize) -> Result<Walk, AllocError>
        ensures clear { IfOk result (λ w. IsClear classes w) }
        ensures fair { IfOk result (λ w. IsFair w) }
    {
        Ok(Walk {
            seen: vec![in alloc; false; classes]?,
            list: Vec::new(alloc),
            waiting: Vec::new(alloc),
        })
    }

    /// Begins anew: nothing is seen, and nothing waits. It costs as much as the last walk has seen.
    pub fn clear(&mut self)
        ensures clear { IsFair self.old → IsClear (length self.old.seen.items) self.new }
        ensures fair { IsFair self.old → IsFair self.new }
        ensures size { length self.new.seen.items ≡ length self.old.seen.items }
    {
        forget(self.seen.as_mut_slice(), self.list.as_slice());
        self.list.clear();
        self.waiting.clear();
    }

    /// Lets a class wait, before all that wait.
    pub fn push(&mut self, class: u32) -> Result<(), AllocError>
        ensures waits { OnOk result (waits self.new ≡ class ∷ waits self.old) }
        ensures seen { self.new.seen ≡ self.old.seen }
        ensures list { self.new.list ≡ self.old.list }
    {
        self.waiting.push(class)?;
        Ok(())
    }

    /// Lets the classes wait, before all that wait, the first of them first.
    pub fn push_all(&mut self, classes: &[u32]) -> Result<(), AllocError>
        ensures waits { OnOk result (waits self.new ≡ classes.now ++ waits self.old) }
        ensures seen { self.new.seen ≡ self.old.seen }
        ensures list { self.new.list ≡ self.old.list }
    {
        for at in (0..classes.len()).rev() {
            self.push(classes[at])?;
        }
        Ok(())
    }

    /// Lets the rows of these places wait, before all that wait, that of the first place first.
    pub(crate) fn push_rows(&mut self, rows: &Links, places: &[u32]) -> Result<(), AllocError>
        ensures waits { OnOk result (waits self.new ≡ flat_map (row_of rows.now.rows) places.now ++ waits self.old) }
        ensures seen { self.new.seen ≡ self.old.seen }
        ensures list { self.new.list ≡ self.old.list }
    {
        for at in (0..places.len()).rev() {
            self.push_all(rows.row(places[at]))?;
        }
        Ok(())
    }

    /// Where the walk takes its memory from.
    pub(crate) fn allocator(&self) -> Global {
        *self.waiting.allocator()
    }

    /// The class that waits first, which waits no longer.
    pub fn pop(&mut self) -> Option<u32>
        ensures waits { MatchOption result (waits self.old ≡ []) (λ class. waits self.old ≡ class ∷ waits self.new) }
        ensures none { IfNone result (waits self.new ≡ []) }
        ensures seen { self.new.seen ≡ self.old.seen }
        ensures list { self.new.list ≡ self.old.list }
    {
        self.waiting.pop()
    }

    /// Whether the walk has seen the class.
    pub fn has_seen(&self, class: u32) -> bool
        ensures { result ≡ is_seen self.now class }
    {
        is_on(self.seen.as_slice(), class)
    }

    /// Sees a class of those that there are, and answers whether it wasn't seen before.
    pub fn see(&mut self, class: u32) -> Result<bool, AllocError>
        ensures met { IfOk result (λ b. b ≡ (nat_lt class (length self.old.seen.items) && not (is_seen self.old class))) }
        ensures seen { IfOk result (λ b. self.new.seen.items ≡ cond b (slice_set self.old.seen.items class true) self.old.seen.items) }
        ensures waits { OnOk result (waits self.new ≡ waits self.old) }
        ensures fair { IsFair self.old → IsFair self.new }
        ensures size { length self.new.seen.items ≡ length self.old.seen.items }
    {
        if class as usize >= self.seen.len() || is_on(self.seen.as_slice(), class) {
            return Ok(false);
        }
        self.list.push(class)?;
        turn(self.seen.as_mut_slice(), class, true);
        Ok(true)
    }

    /// Lets the classes directly above one wait: those of its list, and behind them its superclass.
    pub(crate) fn push_above(&mut self, list: &[u32], above: Option<u32>) -> Result<(), AllocError>
        ensures waits { OnOk result (waits self.new ≡ (list.now ++ beside above) ++ waits self.old) }
        ensures seen { self.new.seen ≡ self.old.seen }
        ensures list { self.new.list ≡ self.old.list }
    {
        if let Some(superclass) = above {
            self.push(superclass)?;
        }
        self.push_all(list)
    }

    /// Sees a class and lets those directly above it wait, unless it was seen before; answers whether it wasn't.
    pub(crate) fn open(
        &mut self,
        class: u32,
        list: &[u32],
        above: Option<u32>,
    ) -> Result<bool, AllocError>
        ensures enters { IfOk result (λ b. Enters self.old.seen.items (waits self.old) class (list.now ++ beside above) self.new.seen.items (waits self.new) b) }
        ensures fair { IsFair self.old → IsFair self.new }
        ensures size { length self.new.seen.items ≡ length self.old.seen.items }
    {
        if !self.see(class)? {
            return Ok(false);
        }
        self.push_above(list, above)?;
        Ok(true)
    }

    /// Goes to a class where `found` is the place of what is looked for: answers it, or lets the classes directly above
    /// it wait. A class that was seen before is passed over.
    pub(crate) fn visit(
        &mut self,
        class: u32,
        found: Option<u32>,
        list: &[u32],
        above: Option<u32>,
    ) -> Result<Option<u32>, AllocError>
        ensures visits { IfOk result (λ r. Visits self.old.seen.items (waits self.old) class found (list.now ++ beside above) self.new.seen.items (waits self.new) r) }
        ensures fair { IsFair self.old → IsFair self.new }
        ensures size { length self.new.seen.items ≡ length self.old.seen.items }
    {
        if !self.see(class)? {
            return Ok(None);
        }
        match found {
            Some(place) => Ok(Some(place)),
            None => {
                self.push_above(list, above)?;
                Ok(None)
            }
        }
    }
}
