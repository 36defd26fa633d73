//! What look-ups have found, and the marks of their walks.

ghost use Rattle.std.specs.Prelude.{◌≡◌, ℕ, Some, None, length, replicate, slice_get, slice_set, IfOk, IfSome, vec_len};
ghost use Rattle.hierarchy.specs.Walking.{IsFair};
ghost use Rattle.dalvik_lookups.specs.declared.finds.Search.TheVariants.{Nothing};
ghost use Rattle.dalvik_lookups.specs.Walks.{IsClean, KeepsUnder, Rests};

use crate::finds::Search;
use crate::marks::Marks;
use hierarchy::{Hierarchy, Walk};
use program_model::MethodAt;
use std::alloc::{AllocError, Global};

/// What a call of a method number found last, and in which class.
#[derive(Clone, Copy, PartialEq, Eq, Drop)]
struct Recent {
    class: Option<u32>,
    found: Search,
}

/// Whether a type is under another one: the lower type that was asked about last, and the answer.
#[derive(Clone, Copy, PartialEq, Eq, Drop)]
pub struct Asked {
    lower: usize,
    answer: bool,
}

/// For each method number what a virtual or interface call and a super call of it found last; for each type which type
/// was last asked whether it is under this one, and the answer; and what walks up need.
#[derive(Drop)]
pub struct Memo {
    virtual_calls: Vec<Recent>,
    super_calls: Vec<Recent>,
    under: Vec<Option<Asked>>,
    pub(crate) marks: Marks,
    pub(crate) walk: Walk,
    pub(crate) found: Vec<MethodAt>,
}

/// What was found, if it was at this class.
fn found_at(recent: Recent, class: u32) -> Option<Search>
    ensures { IfSome result (λ found. recent ≡ record { class = Some class; found = found }) }
{
    match recent.class {
        Some(own) => {
            if own == class {
                Some(recent.found)
            } else {
                None
            }
        }
        None => None,
    }
}

/// What was found last in the class, if this was the class.
fn recent_at(calls: &[Recent], class: u32, method: u32) -> Option<Search>
    ensures { IfSome result (λ found. slice_get calls.now method ≡ Some (record { class = Some class; found = found })) }
{
    match calls.get(method as usize) {
        Some(recent) => found_at(*recent, class),
        None => None,
    }
}

/// Keeps what was found.
fn keep(calls: &mut [Recent], class: u32, method: u32, found: Search)
    ensures { calls.new ≡ slice_set calls.old method (record { class = Some class; found = found }) }
{
    if (method as usize) < calls.len() {
        calls[method as usize] = Recent {
            class: Some(class),
            found,
        };
    }
}

/// The answer, if it is about this type.
fn answer_of(last: Option<Asked>, lower: usize) -> Option<bool>
    ensures { IfSome result (λ answer. last ≡ Some (record { lower = lower; answer = answer })) }
{
    match last {
        Some(asked) => {
            if asked.lower == lower {
                Some(asked.answer)
            } else {
                None
            }
        }
        None => None,
    }
}

/// Nothing has been asked of so many types.
fn nothing_asked(alloc: Global, types: usize) -> Result<Vec<Option<Asked>>, AllocError>
    ensures { IfOk result (λ under. (u : ℕ) (a : Asked) → slice_get under.items u ≡ Some (Some a) → ⊥) }
{
    let mut under = Vec::new(alloc);
    for _ in 0..types {
        under.push(None)?;
    }
    Ok(under)
}

impl Memo {
    /// Nothing has been asked yet. There are so many method numbers and types.
    pub fn new(
        alloc: Global,
        hierarchy: &Hierarchy,
        methods: usize,
        types: usize,
    ) -> Result<Memo, AllocError>
        ensures size { IfOk result (λ m. vec_len m.marks.marks ≡ types) }
        ensures clean { IfOk result (λ m. IsClean m.marks) }
        ensures under { IfOk result (λ m. (u : ℕ) (a : Asked) → slice_get m.under.items u ≡ Some (Some a) → ⊥) }
        ensures fair { IfOk result (λ m. IsFair m.walk) }
        ensures long { IfOk result (λ m. length m.walk.seen.items ≡ vec_len hierarchy.now.shape.supers) }
        ensures virtuals { IfOk result (λ m. m.virtual_calls.items ≡ replicate methods (record { class = None; found = Nothing })) }
        ensures supers { IfOk result (λ m. m.super_calls.items ≡ replicate methods (record { class = None; found = Nothing })) }
    {
        let none = Recent {
            class: None,
            found: Search::Nothing,
        };
        Ok(Memo {
            virtual_calls: vec![in alloc; none; methods]?,
            super_calls: vec![in alloc; none; methods]?,
            under: nothing_asked(alloc, types)?,
            marks: Marks::new(alloc, types)?,
            walk: hierarchy.walk(alloc)?,
            found: Vec::new(alloc),
        })
    }

    /// What a virtual or interface call of the method found last, if it was at this class.
    pub(crate) fn virtual_at(&self, class: u32, method: u32) -> Option<Search>
        ensures { IfSome result (λ found. slice_get self.now.virtual_calls.items method ≡ Some (record { class = Some class; found = found })) }
    {
        recent_at(self.virtual_calls.as_slice(), class, method)
    }

    /// Keeps what a virtual or interface call found.
    pub(crate) fn keep_virtual(&mut self, class: u32, method: u32, found: Search)
        ensures calls { self.new.virtual_calls.items ≡ slice_set self.old.virtual_calls.items method (record { class = Some class; found = found }) }
        ensures supers { self.new.super_calls ≡ self.old.super_calls }
        ensures rest { Rests self.old self.new }
    {
        keep(self.virtual_calls.as_mut_slice(), class, method, found);
    }

    /// What a super call of the method found last, if it was in this class.
    pub(crate) fn super_at(&self, class: u32, method: u32) -> Option<Search>
        ensures { IfSome result (λ found. slice_get self.now.super_calls.items method ≡ Some (record { class = Some class; found = found })) }
    {
        recent_at(self.super_calls.as_slice(), class, method)
    }

    /// Keeps what a super call found.
    pub(crate) fn keep_super(&mut self, class: u32, method: u32, found: Search)
        ensures calls { self.new.super_calls.items ≡ slice_set self.old.super_calls.items method (record { class = Some class; found = found }) }
        ensures virtuals { self.new.virtual_calls ≡ self.old.virtual_calls }
        ensures rest { Rests self.old self.new }
    {
        keep(self.super_calls.as_mut_slice(), class, method, found);
    }

    /// The answer whether a type is under another, if this was asked last of the other.
    pub(crate) fn under_at(&self, lower: usize, upper: usize) -> Option<bool>
        ensures { IfSome result (λ answer. slice_get self.now.under.items upper ≡ Some (Some (record { lower = lower; answer = answer }))) }
    {
        match self.under.as_slice().get(upper) {
            Some(last) => answer_of(*last, lower),
            None => None,
        }
    }

    /// Keeps whether a type is under another.
    pub(crate) fn keep_under(&mut self, lower: usize, upper: usize, answer: bool)
        ensures { KeepsUnder self.old self.new lower upper answer }
    {
        if upper < self.under.len() {
            self.under[upper] = Some(Asked { lower, answer });
        }
    }
}
