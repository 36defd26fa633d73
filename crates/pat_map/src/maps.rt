//! The map over its tree.

ghost use Rattle.std.specs.Prelude.{◌≡◌, ◌↔◌, IfOk, IsTrue};
ghost use Rattle.std.specs.Option.{option_copied};
ghost use Rattle.std.specs.FinMap as finite;
ghost use Rattle.pat_map.specs.Trees.{IsBelow, union};

use crate::nodes::{self, Node};
use lattice_core::Lattice;
use std::alloc::{AllocError, Global};
use std::marker::Model;
use std::rc::Rc;

/// A finite map from words to values that is never changed: what changes a key answers a new map, which shares all
/// nodes but those on the way to the key with the old one.
#[derive(Drop)]
pub struct PatMap<V> {
    pub(crate) root: Option<Rc<Node<V>>>,
}

impl<V> Model for PatMap<V> {
    ghost use Rattle.std.specs.Prelude.{IfSome};
    ghost use Rattle.std.specs.Option.{option_map};
    ghost use Rattle.std.specs.Coded.{coded_ℕ};
    ghost use Rattle.std.specs.Ordering.{nat_cmp};
    ghost use Rattle.std.specs.FinMap as finite;
    ghost use Rattle.pat_map.specs.Trees.{IsTree, map_from};

    ghost Value = { finite.FinMap nat_cmp V };

    ghost coded = { finite.code coded_ℕ V.code };

    ghost view = { λ m. map_from (option_map (λ r. r.value) m.root) };

    ghost invariant = { λ m. IfSome m.root (λ r. IsTree r.value) };
}

impl<V: Lattice> PatMap<V> {
    /// The map without keys.
    pub fn empty() -> PatMap<V>
        ensures { result ≡ finite.empty }
    {
        PatMap { root: None }
    }

    /// The value at a key. It takes no memory.
    pub fn get(&self, key: u32) -> Option<&V>
        ensures { option_copied result ≡ finite.get self.now key }
    {
        match &self.root {
            Some(tree) => nodes::find(tree, key),
            None => None,
        }
    }

    /// The same map once more, which shares all nodes with this one. The only error is want of memory.
    pub fn share(&self) -> Result<PatMap<V>, AllocError>
        ensures { IfOk result (λ m. m ≡ self.now) }
    {
        match &self.root {
            Some(tree) => Ok(PatMap {
                root: Some(tree.clone()?),
            }),
            None => Ok(PatMap::empty()),
        }
    }

    /// The map with this value at a key. The only error is want of memory.
    pub fn set(&self, alloc: Global, key: u32, value: V) -> Result<PatMap<V>, AllocError>
        ensures { IfOk result (λ m. m ≡ finite.insert self.now key value) }
    {
        self.set_counting(alloc, key, value, &mut 0)
    }

    /// The map with this value at a key. The nodes that are made are counted in `made`. The only error is want of memory.
    pub fn set_counting(
        &self,
        alloc: Global,
        key: u32,
        value: V,
        made: &mut u32,
    ) -> Result<PatMap<V>, AllocError>
        ensures { IfOk result (λ m. m ≡ finite.insert self.now key value) }
    {
        match &self.root {
            Some(tree) => Ok(PatMap {
                root: Some(nodes::put(alloc, tree, key, value, made)?),
            }),
            None => Ok(PatMap {
                root: Some(nodes::leaf(alloc, key, value)?),
            }),
        }
    }

    /// The keys of both maps, with the join of both values at a key of both. The only error is want of memory.
    pub fn union_with(&self, alloc: Global, other: &PatMap<V>) -> Result<PatMap<V>, AllocError>
        ensures { IfOk result (λ m. m ≡ union V.joined self.now other.now) }
    {
        match (&self.root, &other.root) {
            (_, None) => self.share(),
            (None, _) => other.share(),
            (Some(tree), Some(more)) => Ok(PatMap {
                root: Some(nodes::join_all(alloc, tree, more)?),
            }),
        }
    }

    /// Whether each key of this map is in the other, with a value at or above its own. It takes no memory.
    pub fn leq_with(&self, other: &PatMap<V>) -> bool
        ensures { IsTrue result ↔ IsBelow V.below self.now other.now }
    {
        match (&self.root, &other.root) {
            (None, _) => true,
            (Some(_), None) => false,
            (Some(tree), Some(more)) => nodes::is_below(tree, more),
        }
    }
}
