//! What the framework may name.

ghost use Rattle.std.specs.Prelude.{◌≡◌, ◌<◌, ◌||◌, ℕ, false, length, nat_eq, IfOk};
ghost use Rattle.std.specs.List.{list_any};
ghost use Rattle.call_targets.specs.Outsiders.{AreKept};
ghost use Rattle.call_targets.specs.Targeted.{is_on};

use crate::table::turn_on;
use program_model::{ClassIf, Outside, Program};
use std::alloc::{AllocError, Global};

/// The kept classes by type, and the kept and the shut methods by number. What is kept under a condition counts as kept.
#[derive(Drop)]
pub(crate) struct Kept {
    pub(crate) classes: Vec<bool>,
    pub(crate) methods: Vec<bool>,
    pub(crate) shut: Vec<bool>,
}

/// Marks the numbers of a list.
fn mark_all(marks: &mut [bool], numbers: &[u32])
    ensures long { length marks.new ≡ length marks.old }
    ensures marked { (n : ℕ) → n < length marks.old → is_on marks.new n ≡ (is_on marks.old n || list_any (nat_eq n) numbers.now) }
{
    for number in numbers {
        turn_on(marks, *number);
    }
}

/// Marks the classes that are kept where others are live.
fn mark_classes(marks: &mut [bool], conditions: &[ClassIf])
    ensures long { length marks.new ≡ length marks.old }
    ensures marked { (n : ℕ) → n < length marks.old → is_on marks.new n ≡ (is_on marks.old n || list_any (λ c. nat_eq n c.class) conditions.now) }
{
    for one in conditions {
        turn_on(marks, one.class);
    }
}

/// Whether a number is marked.
pub(crate) fn is_on(marks: &[bool], number: u32) -> bool
    ensures { result ≡ is_on marks.now number }
{
    match marks.get(number as usize) {
        Some(mark) => *mark,
        None => false,
    }
}

impl Kept {
    pub(crate) fn new(
        alloc: Global,
        program: &Program,
        outside: &Outside,
    ) -> Result<Kept, AllocError>
        ensures { IfOk result (λ k. AreKept program.now outside.now k) }
    {
        let mut classes = vec![in alloc; false; program.types.len()]?;
        mark_all(&mut classes, outside.classes.as_slice());
        mark_classes(&mut classes, outside.classes_if.as_slice());
        let mut methods = vec![in alloc; false; program.methods.len()]?;
        mark_all(&mut methods, outside.methods.as_slice());
        mark_all(&mut methods, outside.methods_if.as_slice());
        let mut shut = vec![in alloc; false; program.methods.len()]?;
        mark_all(&mut shut, outside.shut.as_slice());
        Ok(Kept {
            classes,
            methods,
            shut,
        })
    }

    /// Whether a class is kept, by its type.
    pub(crate) fn keeps_class(&self, kind: u32) -> bool
        ensures { result ≡ is_on self.now.classes.items kind }
    {
        is_on(&self.classes, kind)
    }

    /// Whether a method is kept.
    pub(crate) fn keeps_method(&self, number: u32) -> bool
        ensures { result ≡ is_on self.now.methods.items number }
    {
        is_on(&self.methods, number)
    }

    /// Whether a method is shut.
    pub(crate) fn is_shut(&self, number: u32) -> bool
        ensures { result ≡ is_on self.now.shut.items number }
    {
        is_on(&self.shut, number)
    }
}
