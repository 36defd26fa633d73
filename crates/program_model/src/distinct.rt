//! Lists without two equal entries.

ghost use Rattle.std.specs.Prelude.{◌≡◌};
ghost use Rattle.std.specs.List.{list_any};
ghost use Rattle.std.specs.Ordering.{nat_cmp};
ghost use Rattle.std.specs.Option.{option_copied};
ghost use Rattle.std.specs.Cmp.Lexicographic.{slice_cmp};
ghost use Rattle.program_model.specs.Distinct.{same_entry, is_behind, all_differ};

use crate::pools::{FieldName, MethodName, Proto};
use crate::program::{Field, Method};
use dex_base::{Text, compare_units};
use std::cmp::Ordering;

/// What stands in a table or a class under a key that no other entry has.
pub(crate) trait Entry {
    ghost use Rattle.std.specs.Prelude.{List, ℕ};

    ghost key: { Self → List ℕ };

    /// The order of two entries in their table, which is that of their keys.
    fn order(&self, other: &Self) -> Ordering
        ensures { result ≡ slice_cmp nat_cmp (key self.now) (key other.now) };
}

impl Entry for Text {
    ghost use Rattle.program_model.specs.Distinct.{text_key};

    ghost key = { text_key };

    fn order(&self, other: &Self) -> Ordering {
        compare_units(self, other)
    }
}

impl Entry for u32 {
    ghost use Rattle.program_model.specs.Distinct.{type_key};

    ghost key = { type_key };

    fn order(&self, other: &Self) -> Ordering {
        [*self].cmp(&[*other])
    }
}

impl Entry for Proto {
    ghost use Rattle.program_model.specs.Distinct.{proto_key};

    ghost key = { proto_key };

    fn order(&self, other: &Self) -> Ordering {
        match self.result.cmp(&other.result) {
            Ordering::Equal => self.parameters.as_slice().cmp(&other.parameters.as_slice()),
            apart => apart,
        }
    }
}

impl Entry for FieldName {
    ghost use Rattle.program_model.specs.Distinct.{field_key};

    ghost key = { field_key };

    fn order(&self, other: &Self) -> Ordering {
        [self.class, self.name, self.kind].cmp(&[other.class, other.name, other.kind])
    }
}

impl Entry for MethodName {
    ghost use Rattle.program_model.specs.Distinct.{method_key};

    ghost key = { method_key };

    fn order(&self, other: &Self) -> Ordering {
        [self.class, self.name, self.proto].cmp(&[other.class, other.name, other.proto])
    }
}

impl Entry for Field {
    ghost use Rattle.program_model.specs.Distinct.{own_field_key};

    ghost key = { own_field_key };

    fn order(&self, other: &Self) -> Ordering {
        [self.name].cmp(&[other.name])
    }
}

impl Entry for Method {
    ghost use Rattle.program_model.specs.Distinct.{own_method_key};

    ghost key = { own_method_key };

    fn order(&self, other: &Self) -> Ordering {
        [self.name].cmp(&[other.name])
    }
}

/// Whether two entries are the same.
#[tactic(auto, using(crate::proofs::Apart::tied_is_same))]
fn is_same<T: Entry>(one: &T, other: &T) -> bool
    ensures { result ≡ same_entry T.key one.now other.now }
{
    one.order(other).is_eq()
}

/// Whether an entry is the same as one of these.
fn is_among<T: Entry>(before: &[T], item: &T) -> bool
    ensures { result ≡ list_any (λ y. same_entry T.key y item.now) before.now }
{
    before.iter().any(|other| is_same(other, item))
}

/// Whether an entry comes behind the other, if there is one, in the order of the table.
fn is_behind<T: Entry>(greatest: Option<&T>, item: &T) -> bool
    ensures { result ≡ is_behind T.key (option_copied greatest.entry) item.now }
{
    match greatest {
        Some(other) => other.order(item).is_lt(),
        None => true,
    }
}

/// Whether no two entries are the same. An entry that comes behind all before it in the order of the table is none of
/// them; only one that does not is compared with each, so a table in order is gone through once. It takes no memory.
pub(crate) fn all_differ<T: Entry>(items: &[T]) -> bool
    ensures { result ≡ all_differ T.key items.now }
{
    let mut greatest: Option<&T> = None;
    for (place, item) in items.iter().enumerate() {
        if is_behind(greatest, item) {
            greatest = Some(item);
        } else if is_among(&items[..place], item) {
            return false;
        }
    }
    true
}
