//! The exact classes that an object can have.

ghost use Rattle.std.specs.Prelude.{◌≡◌, ◌≤◌, ◌<◌, false, [], ◌∷◌, length, Option, slice_index, IsTrue, ◌↔◌};
ghost use Rattle.std.specs.List.{list_all};
ghost use Rattle.std.specs.Bool.{OnTrue, OnFalse};
ghost use Rattle.std.specs.Option.{option_copied, option_map};
ghost use Rattle.lattice_core.specs.Laws.{IsUpper, IsWidened};
ghost use Rattle.domains.specs.Datum.{Within};
ghost use Rattle.domains.specs.ClassSets.{Ascends, IsKept, is_no_set, has, at_most_eight, inserted, merged, place_in, set_holds, set_joined, set_rank, set_leq};

use arrayvec::ArrayVec;
use lattice_core::{Domain, Lattice};
use std::alloc::{AllocError, Global};
use std::marker::Model;

/// At most eight classes of the program, one of which is the exact class of an object, or any class.
///
/// A class is its place in the program. More than eight classes are any. The set speaks of objects alone, and allows
/// null beside them.
#[derive(Drop)]
pub struct ClassSet {
    classes: Option<ArrayVec<u32, 8>>,
}

impl Model for ClassSet {
    ghost use Rattle.std.specs.Prelude.{Option, List, ℕ};
    ghost use Rattle.std.specs.Option.{option_map};
    ghost use Rattle.domains.specs.ClassSets.{IsKept};

    ghost Value = { Option (List ℕ) };

    ghost view = { λ s. option_map (λ v. v.items) s.classes };

    ghost invariant = { λ s. IsKept (option_map (λ v. v.items) s.classes) };
}

impl ClassSet {
    /// The set of no class.
    pub fn none() -> Self
        ensures { result ≡ Some [] }
    {
        ClassSet {
            classes: Some(ArrayVec::new()),
        }
    }

    /// The set of this class alone.
    pub fn exactly(class: u32) -> Self
        ensures { result ≡ Some (class ∷ []) }
    {
        let mut classes = ArrayVec::new();
        classes.push(class);
        ClassSet {
            classes: Some(classes),
        }
    }

    /// The set of these classes, which ascend.
    pub fn these(classes: ArrayVec<u32, 8>) -> Self
        requires { Ascends 0 classes.items }
        ensures { result ≡ Some classes.items }
    {
        ClassSet {
            classes: Some(classes),
        }
    }

    /// The same set once more. It takes no memory.
    pub fn same(&self) -> Self
        ensures { result ≡ self.now }
    {
        match &self.classes {
            Some(classes) => ClassSet {
                classes: Some(copied(classes.as_slice())),
            },
            None => ClassSet::any(),
        }
    }

    /// Whether both sets are the same.
    pub(crate) fn is_same(&self, other: &ClassSet) -> bool
        ensures { IsTrue result → self.now ≡ other.now }
    {
        match (self.classes(), other.classes()) {
            (None, None) => true,
            (Some(few), Some(more)) => few == more,
            _ => false,
        }
    }

    /// Any class, of the program or not.
    pub fn any() -> Self
        ensures { result ≡ None }
    {
        ClassSet { classes: None }
    }

    /// Whether it holds of no object.
    pub fn is_empty(&self) -> bool
        ensures { result ≡ is_no_set self.now }
    {
        match &self.classes {
            Some(classes) => classes.is_empty(),
            None => false,
        }
    }

    /// The classes in ascending order, or none where it is any class.
    pub fn classes(&self) -> Option<&[u32]>
        ensures is { option_copied result ≡ self.now }
        ensures kept { IsKept self.now }
    {
        match &self.classes {
            Some(classes) => Some(classes.as_slice()),
            None => None,
        }
    }
}

impl Lattice for ClassSet {
    ghost use Rattle.std.specs.Prelude.{ℕ, Some};
    ghost use Rattle.domains.specs.Datum.{Within};
    ghost use Rattle.domains.specs.ClassSets.{set_holds, set_joined, no_class};

    ghost Meaning = { Option ℕ };

    ghost least = { Some [] };

    ghost below = { Within set_holds };

    ghost joined = { set_joined };

    ghost holds = { set_holds };

    ghost least_below = { λ x c h. absurd (no_class c h) };

    ghost reflexive = { λ x c h. h };

    ghost transitive = { λ x y z f g c h. g c (f c h) };

    ghost grows = { λ x y c f h. f c h };

    ghost of_nothing = { no_class };

    fn bottom(alloc: Global) -> Self {
        ClassSet::none()
    }

    fn leq(&self, other: &Self) -> bool {
        is_within(self, other)
    }

    fn join(&self, alloc: Global, other: &Self) -> Result<Self, AllocError> {
        Ok(either(self, other))
    }

    fn copy(&self, alloc: Global) -> Result<Self, AllocError> {
        Ok(self.same())
    }
}

impl Domain for ClassSet {
    ghost use Rattle.domains.specs.ClassSets.{set_joined, set_rank};

    const EXACT: bool = false;

    ghost EXACT = { false };

    ghost rank = { set_rank };

    ghost widened = { set_joined };

    ghost join_least = { λ x y z e. absurd (Prim.cc) };

    fn widen(&self, alloc: Global, newer: &Self) -> Result<Self, AllocError> {
        Ok(either(self, newer))
    }
}

/// Whether each class of `a` is in `b`.
fn is_within(a: &ClassSet, b: &ClassSet) -> bool
    ensures { result ≡ set_leq a.now b.now }
{
    match (a.classes(), b.classes()) {
        (_, None) => true,
        (None, Some(_)) => false,
        (Some(few), Some(more)) => are_all_in(few, more),
    }
}

/// Whether each class of `few` is in `more`.
fn are_all_in(few: &[u32], more: &[u32]) -> bool
    ensures { result ≡ list_all (has more.now) few.now }
{
    few.iter().all(|class| has_class(more, *class))
}

/// Whether a class is in a list.
fn has_class(classes: &[u32], class: u32) -> bool
    ensures { result ≡ has classes.now class }
{
    classes.contains(&class)
}

/// The classes of both, or any where these are more than eight.
fn either(a: &ClassSet, b: &ClassSet) -> ClassSet
    ensures is { result ≡ set_joined a.now b.now }
    ensures over { IsUpper (Within set_holds) a.now b.now result }
    ensures falls { IsWidened (Within set_holds) set_rank false (set_joined a.now b.now) a.now result }
{
    match (&a.classes, &b.classes) {
        (Some(few), Some(more)) => ClassSet {
            classes: union(few.as_slice(), more.as_slice()),
        },
        _ => ClassSet::any(),
    }
}

/// The classes of two ascending lists, or none where these are more than eight.
fn union(a: &[u32], b: &[u32]) -> Option<ArrayVec<u32, 8>>
    requires { length a.now ≤ 8 }
    ensures { option_map (λ v. v.items) result ≡ at_most_eight (merged a.now b.now) }
{
    let mut classes = copied(a);
    for class in b {
        if !insert(&mut classes, *class) {
            return None;
        }
    }
    Some(classes)
}

/// These classes, of which there are at most eight.
fn copied(classes: &[u32]) -> ArrayVec<u32, 8>
    requires { length classes.now ≤ 8 }
    ensures { result.items ≡ classes.now }
{
    let mut copy = ArrayVec::new();
    let _ = copy.try_extend_from_slice(classes);
    copy
}

/// Puts a class in its place in an ascending list, once. Where there is no room for it, the answer is false.
fn insert(classes: &mut ArrayVec<u32, 8>, class: u32) -> bool
    ensures room { length classes.new.items ≤ 8 }
    ensures put { OnTrue result (classes.new.items ≡ inserted classes.old.items class) }
    ensures full { OnFalse result (8 < length (inserted classes.old.items class)) }
{
    let place = place_of(classes.as_slice(), class);
    if stands_at(classes.as_slice(), place, class) {
        return true;
    }
    if classes.is_full() {
        return false;
    }
    classes.insert(place, class);
    true
}

/// How many classes of an ascending list are below this one.
fn place_of(classes: &[u32], class: u32) -> usize
    ensures is { result ≡ place_in classes.now class }
    ensures within { result ≤ length classes.now }
{
    classes.iter().take_while(|x| **x < class).count()
}

/// Whether a class stands at a place.
fn stands_at(classes: &[u32], place: usize, class: u32) -> bool
    ensures { IsTrue result ↔ ((place < length classes.now) × (slice_index classes.now place ≡ class)) }
{
    place < classes.len() && classes[place] == class
}
