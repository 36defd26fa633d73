//! An order of the classes in which each stands behind those above it, by a walk in depth.

ghost use Rattle.std.specs.Prelude.{◌≡◌, ◌<◌, ◌^◌, ◌∷◌, ◌++◌, [], Some, None, true, length, map, slice_index_or, IfOk, OnOk, IfNone, MatchOption, ℕ};
ghost use Rattle.hierarchy.specs.Climbing.{todo, IsNew, Comes, Leaves, Follows, IsOrder, HasCircle, ups};
ghost use Rattle.hierarchy.specs.Tables.{row_of, read_at};
ghost use Rattle.class_defs.specs.Finding.{beside};
ghost use Rattle.hierarchy.specs.declared.order.Task.TheVariants.{Come, Leave};

use crate::links::Links;
use crate::table::{is_on, read, turn, word};
use std::alloc::{AllocError, Global};

/// What a walk has to do yet: to come to a class, or to leave one when all that stand above it are done.
#[derive(Clone, Copy, PartialEq, Eq, Drop)]
pub enum Task {
    Come(u32),
    Leave(u32),
}

/// A walk in depth from classes to those above them: which classes it has come to, which it has left, these in order, and
/// what it has to do yet.
#[derive(Drop)]
pub struct Climb {
    seen: Vec<bool>,
    left: Vec<bool>,
    order: Vec<u32>,
    tasks: Vec<Task>,
}

impl Climb {
    /// A walk over so many classes that has nothing to do.
    fn new(alloc: Global, classes: usize) -> Result<Climb, AllocError>
        ensures { IfOk result (λ c. IsNew classes c) }
    {
        Ok(Climb {
            seen: vec![in alloc; false; classes]?,
            left: vec![in alloc; false; classes]?,
            order: Vec::new(alloc),
            tasks: Vec::new(alloc),
        })
    }

    /// Has this done before all else.
    fn push(&mut self, task: Task) -> Result<(), AllocError>
        ensures todo { OnOk result (todo self.new ≡ task ∷ todo self.old) }
        ensures seen { self.new.seen ≡ self.old.seen }
        ensures left { self.new.left ≡ self.old.left }
        ensures order { self.new.order ≡ self.old.order }
    {
        self.tasks.push(task)?;
        Ok(())
    }

    /// Has the walk come to these classes before all else, to the first of them first.
    fn push_all(&mut self, classes: &[u32]) -> Result<(), AllocError>
        ensures todo { OnOk result (todo self.new ≡ map (λ c. Come c) classes.now ++ todo self.old) }
        ensures seen { self.new.seen ≡ self.old.seen }
        ensures left { self.new.left ≡ self.old.left }
        ensures order { self.new.order ≡ self.old.order }
    {
        for at in (0..classes.len()).rev() {
            self.push(Task::Come(classes[at]))?;
        }
        Ok(())
    }

    /// What is to be done first, which is no longer to be done.
    fn pop(&mut self) -> Option<Task>
        ensures todo { MatchOption result (todo self.old ≡ []) (λ task. todo self.old ≡ task ∷ todo self.new) }
        ensures none { IfNone result (todo self.new ≡ []) }
        ensures seen { self.new.seen ≡ self.old.seen }
        ensures left { self.new.left ≡ self.old.left }
        ensures order { self.new.order ≡ self.old.order }
    {
        self.tasks.pop()
    }

    /// Whether the walk has left the class, or there is none.
    fn has_left(&self, class: u32) -> bool
        ensures { result ≡ slice_index_or self.now.left.items class true }
    {
        match self.left.as_slice().get(class as usize) {
            Some(left) => *left,
            None => true,
        }
    }

    /// Has the walk go to the classes directly above one, those of its list and its superclass.
    fn push_above(&mut self, list: &[u32], above: Option<u32>) -> Result<(), AllocError>
        ensures todo { OnOk result (todo self.new ≡ map (λ c. Come c) (list.now ++ beside above) ++ todo self.old) }
        ensures seen { self.new.seen ≡ self.old.seen }
        ensures left { self.new.left ≡ self.old.left }
        ensures order { self.new.order ≡ self.old.order }
    {
        if let Some(superclass) = above {
            self.push(Task::Come(superclass))?;
        }
        self.push_all(list)
    }

    /// Comes to a class, which is left behind those above it. Answers whether the walk hasn't come round to it.
    fn come(&mut self, class: u32, list: &[u32], above: Option<u32>) -> Result<bool, AllocError>
        ensures { IfOk result (λ on. Comes self.old class (list.now ++ beside above) self.new on) }
    {
        if self.has_left(class) {
            return Ok(true);
        }
        if is_on(self.seen.as_slice(), class) {
            return Ok(false);
        }
        turn(self.seen.as_mut_slice(), class, true);
        self.push(Task::Leave(class))?;
        self.push_above(list, above)?;
        Ok(true)
    }

    /// Leaves a class.
    fn leave(&mut self, class: u32) -> Result<(), AllocError>
        ensures { OnOk result (Leaves self.old class self.new) }
    {
        if self.has_left(class) {
            return Ok(());
        }
        self.order.push(class)?;
        turn(self.left.as_mut_slice(), class, true);
        Ok(())
    }

    /// Does a task. Answers whether the walk hasn't come round to a class.
    fn follow(&mut self, task: Task, supers: &[u32], lists: &Links) -> Result<bool, AllocError>
        ensures { IfOk result (λ on. Follows (ups supers.now lists.now.rows) self.old task self.new on) }
    {
        match task {
            Task::Come(class) => self.come(class, lists.row(class), read(supers, class)),
            Task::Leave(class) => {
                self.leave(class)?;
                Ok(true)
            }
        }
    }
}

/// The classes in an order in which each stands behind those above it, if there is one.
pub fn in_order(
    alloc: Global,
    supers: &[u32],
    lists: &Links,
) -> Result<Option<Vec<u32>>, AllocError>
    ensures { length supers.now < 2 ^ 32 → IfOk result (λ r. MatchOption r (HasCircle supers.now lists.now.rows) (λ order. IsOrder supers.now lists.now.rows order.items)) }
{
    let mut climb = Climb::new(alloc, supers.len())?;
    for class in 0..word(supers.len()) {
        climb.push(Task::Come(class))?;
    }
    while let Some(task) = climb.pop() {
        if !climb.follow(task, supers, lists)? {
            return Ok(None);
        }
    }
    Ok(Some(climb.order))
}
