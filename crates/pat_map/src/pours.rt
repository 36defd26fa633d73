//! One tree poured into another, key by key. The tree stays as it is where no value changes, and shares what doesn't.

ghost use Rattle.std.specs.Prelude.{◌≡◌, ◌<◌, ℕ, IfOk, IsTrue};
ghost use Rattle.std.specs.Option.{option_copied};
ghost use Rattle.lattice_core.specs.Laws.{IsUpper};
ghost use Rattle.pat_map.specs.Trees.{at, IsTree, with_other};
ghost use Rattle.pat_map.specs.TreeLaws.{Sets, Joins};
ghost use Rattle.pat_map.specs.Pours.{Becomes, PutsMaybe, MadeIf, Made, WidensTo};

use crate::nodes::{Node, find, put};
use lattice_core::{Domain, Lattice};
use std::alloc::{AllocError, Global};
use std::rc::Rc;

/// A domain whose values a map keeps: their ranks have a bound, and two of them can be told apart.
pub trait MapValue: Domain {
    /// Above the rank of each value.
    ghost most: { ℕ };

    /// Whether two values are surely the same. It takes no memory.
    fn is_same(&self, other: &Self) -> bool
        ensures { IsTrue result → self.now ≡ other.now };

    ghost bounded: { (x : Self) → Self.rank x < most };
}

/// The tree with this value at a key, or as it is.
fn put_maybe<V: Drop>(
    alloc: Global,
    tree: Rc<Node<V>>,
    key: u32,
    value: Option<V>,
) -> Result<Rc<Node<V>>, AllocError>
    requires { IsTree tree.value }
    ensures tree { IfOk result (λ t. IsTree t.value) }
    ensures puts { IfOk result (λ t. PutsMaybe key value tree.value t.value) }
{
    match value {
        Some(value) => put(alloc, &tree, key, value, &mut 0),
        None => Ok(tree),
    }
}

/// The join of a value with a newer one, none where it is the value itself.
fn joined<V: MapValue>(alloc: Global, own: Option<&V>, newer: &V) -> Result<Option<V>, AllocError>
    ensures is { IfOk result (λ o. Becomes (with_other V.joined (option_copied own.entry) newer.now) (option_copied own.entry) o) }
    ensures made { IfOk result (λ o. MadeIf (IsUpper V.below) V.joined (option_copied own.entry) (Some newer.now)) }
{
    match own {
        Some(value) => {
            let both = value.join(alloc, newer)?;
            if both.is_same(value) {
                Ok(None)
            } else {
                Ok(Some(both))
            }
        }
        None => Ok(Some(newer.copy(alloc)?)),
    }
}

/// The widening of a value by a newer one, none where it is the value itself.
fn widened<V: MapValue>(alloc: Global, own: Option<&V>, newer: &V) -> Result<Option<V>, AllocError>
    ensures is { IfOk result (λ o. Becomes (with_other V.widened (option_copied own.entry) newer.now) (option_copied own.entry) o) }
    ensures made { IfOk result (λ o. MadeIf (WidensTo V.below V.rank V.EXACT V.joined) V.widened (option_copied own.entry) (Some newer.now)) }
{
    match own {
        Some(value) => {
            let both = value.widen(alloc, newer)?;
            if both.is_same(value) {
                Ok(None)
            } else {
                Ok(Some(both))
            }
        }
        None => Ok(Some(newer.copy(alloc)?)),
    }
}

/// The tree in which the value at a key is joined with a newer one.
fn join_at<V: MapValue>(
    alloc: Global,
    tree: Rc<Node<V>>,
    key: u32,
    newer: &V,
) -> Result<Rc<Node<V>>, AllocError>
    requires { IsTree tree.value }
    ensures tree { IfOk result (λ t. IsTree t.value) }
    ensures sets { IfOk result (λ t. Sets key (with_other V.joined (at tree.value key) newer.now) tree.value t.value) }
    ensures made { IfOk result (λ t. MadeIf (IsUpper V.below) V.joined (at tree.value key) (Some newer.now)) }
{
    let value = joined(alloc, find(&tree, key), newer)?;
    put_maybe(alloc, tree, key, value)
}

/// The tree in which the value at a key is widened by a newer one.
fn widen_at<V: MapValue>(
    alloc: Global,
    tree: Rc<Node<V>>,
    key: u32,
    newer: &V,
) -> Result<Rc<Node<V>>, AllocError>
    requires { IsTree tree.value }
    ensures tree { IfOk result (λ t. IsTree t.value) }
    ensures sets { IfOk result (λ t. Sets key (with_other V.widened (at tree.value key) newer.now) tree.value t.value) }
    ensures made { IfOk result (λ t. MadeIf (WidensTo V.below V.rank V.EXACT V.joined) V.widened (at tree.value key) (Some newer.now)) }
{
    let value = widened(alloc, find(&tree, key), newer)?;
    put_maybe(alloc, tree, key, value)
}

/// The tree with the keys of both, with the join of both values at a key of both.
pub(crate) fn pour_joins<V: MapValue>(
    alloc: Global,
    tree: Rc<Node<V>>,
    newer: &Node<V>,
) -> Result<Rc<Node<V>>, AllocError>
    requires tree { IsTree tree.value }
    requires newer { IsTree newer.now }
    ensures tree { IfOk result (λ t. IsTree t.value) }
    ensures joins { IfOk result (λ t. Joins V.joined tree.value newer.now t.value) }
    ensures made { IfOk result (λ t. Made (IsUpper V.below) V.joined tree.value newer.now) }
{
    match newer {
        Node::Leaf { key, value } => join_at(alloc, tree, *key, value),
        Node::Branch { low, high, .. } => {
            let first = pour_joins(alloc, tree, low)?;
            pour_joins(alloc, first, high)
        }
    }
}

/// The tree with the keys of both, where a value at a key of both is widened by the newer one.
pub(crate) fn pour_widens<V: MapValue>(
    alloc: Global,
    tree: Rc<Node<V>>,
    newer: &Node<V>,
) -> Result<Rc<Node<V>>, AllocError>
    requires tree { IsTree tree.value }
    requires newer { IsTree newer.now }
    ensures tree { IfOk result (λ t. IsTree t.value) }
    ensures joins { IfOk result (λ t. Joins V.widened tree.value newer.now t.value) }
    ensures made { IfOk result (λ t. Made (WidensTo V.below V.rank V.EXACT V.joined) V.widened tree.value newer.now) }
{
    match newer {
        Node::Leaf { key, value } => widen_at(alloc, tree, *key, value),
        Node::Branch { low, high, .. } => {
            let first = pour_widens(alloc, tree, low)?;
            pour_widens(alloc, first, high)
        }
    }
}
