//! The least kind at or above two kinds, and how far a kind can still rise.

ghost use Rattle.std.specs.Prelude.{◌≡◌, Some};
ghost use Rattle.verify.specs.Flow.{rank_of_place, rank_of_array, rank};
ghost use Rattle.verify.specs.Joins.{joined, joined_references, joined_class, joined_array, joined_arrays, nearest_item, is_flat, joined_deep, joined_null};

use crate::kinds::{Kind, is_same_number};
use crate::tables::Tables;

/// Null and something else on which a constructor was called.
fn join_null(other: Kind) -> Kind
    ensures { result ≡ joined_null other }
{
    match other {
        Kind::Zero => Kind::Null,
        _ => other,
    }
}

impl Tables {
    /// The kind that two kinds have in common.
    pub fn join(&self, a: Kind, b: Kind) -> Kind
        ensures { result ≡ joined self.now a b }
    {
        if a.is_same(b) {
            return a;
        }
        if a.is_number() && b.is_number() {
            return Kind::Word;
        }
        if a.is_initialised() && b.is_initialised() {
            return self.join_references(a, b);
        }
        Kind::Undefined
    }

    /// Two unlike references on which constructors were called.
    fn join_references(&self, a: Kind, b: Kind) -> Kind
        ensures { result ≡ joined_references self.now a b }
    {
        match a {
            Kind::Zero => b,
            Kind::Null => join_null(b),
            Kind::Program { class } => self.join_class(class, b),
            Kind::Array { depth, item } => self.join_array(depth, item, b),
            _ => Kind::Reference,
        }
    }

    /// A program class and something else.
    fn join_class(&self, class: u32, other: Kind) -> Kind
        ensures { result ≡ joined_class self.now class other }
    {
        match other {
            Kind::Zero | Kind::Null => Kind::Program { class },
            Kind::Program { class: second } => match self.chains.nearest(class, second) {
                Some(above) => Kind::Program { class: above },
                None => Kind::Reference,
            },
            _ => Kind::Reference,
        }
    }

    /// An array and something else.
    fn join_array(&self, depth: u32, item: Option<u32>, other: Kind) -> Kind
        ensures { result ≡ joined_array self.now depth item other }
    {
        match other {
            Kind::Zero | Kind::Null => Kind::Array { depth, item },
            Kind::Array {
                depth: second,
                item: another,
            } => self.join_arrays(depth, item, second, another),
            _ => Kind::Reference,
        }
    }

    /// Two arrays.
    fn join_arrays(&self, depth: u32, item: Option<u32>, second: u32, another: Option<u32>) -> Kind
        ensures { result ≡ joined_arrays self.now depth item second another }
    {
        if depth != second {
            return self.join_deep(depth, item, second, another);
        }
        match self.nearest_item(item, another) {
            Some(class) => Kind::Array {
                depth,
                item: self.item_of_class(class),
            },
            None => self.join_deep(depth, item, second, another),
        }
    }

    /// The nearest program class above the items of two arrays.
    fn nearest_item(&self, item: Option<u32>, another: Option<u32>) -> Option<u32>
        ensures { result ≡ nearest_item self.now item another }
    {
        match self.item_shape(item).place() {
            Some(first) => match self.item_shape(another).place() {
                Some(second) => self.chains.nearest(first, second),
                None => None,
            },
            None => None,
        }
    }

    /// Whether it is an array of one dimension with primitive items.
    fn is_flat(&self, depth: u32, item: Option<u32>) -> bool
        ensures { result ≡ is_flat self.now depth item }
    {
        depth == 1 && !self.item_shape(item).is_reference()
    }

    /// Two arrays with nothing nearer in common than arrays of objects.
    fn join_deep(&self, depth: u32, item: Option<u32>, second: u32, another: Option<u32>) -> Kind
        ensures { result ≡ joined_deep self.now depth item second another }
    {
        if self.is_flat(depth, item) || self.is_flat(second, another) {
            Kind::Reference
        } else {
            Kind::Array {
                depth: 1,
                item: self.object,
            }
        }
    }

    /// The rank of an array whose items have this program class. The item that stands for the class has the lower one
    /// of the two ranks of its depth.
    fn rank_of_class(&self, item: Option<u32>, class: u32) -> u32
        ensures { result ≡ rank_of_place self.now item (Some class) }
    {
        let depth = self.chains.depth(class);
        let lower = if is_same_number(item, self.item_of_class(class)) {
            4
        } else {
            5
        };
        depth.saturating_add(depth).saturating_add(lower)
    }

    /// The rank of an array: that of arrays of objects is the least.
    fn rank_of_array(&self, depth: u32, item: Option<u32>) -> u32
        ensures { result ≡ rank_of_array self.now depth item }
    {
        if depth == 1 && is_same_number(item, self.object) {
            return 2;
        }
        match self.item_shape(item).place() {
            Some(class) => self.rank_of_class(item, class),
            None => 3,
        }
    }

    /// A number that falls where a kind rises: what a kind rises to by a join has a lower one. Null and the constant 0
    /// have the greatest two, which no class reaches, since a program has fewer classes.
    pub fn rank(&self, kind: Kind) -> u32
        ensures { result ≡ rank self.now kind }
    {
        match kind {
            Kind::Undefined => 0,
            Kind::Word
            | Kind::WideLow
            | Kind::WideHigh
            | Kind::Fresh { .. }
            | Kind::FreshThis
            | Kind::Reference => 1,
            Kind::Program { class } => self.chains.depth(class).saturating_add(2),
            Kind::Array { depth, item } => self.rank_of_array(depth, item),
            Kind::Null => u32::MAX - 1,
            Kind::Zero => u32::MAX,
        }
    }
}
