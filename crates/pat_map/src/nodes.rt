//! The nodes of a tree, and what is found and put there.

ghost use Rattle.std.specs.Prelude.{◌≡◌, ◌==◌, ◌+◌, ◌/◌, ◌%◌, ◌^◌, ◌<◌, ◌≤◌, ◌↔◌, ℕ, Some, IfOk, IsTrue};
ghost use Rattle.std.specs.Option.{option_copied};
ghost use Rattle.pat_map.specs.declared.nodes.Node.{Leaf, Node};
ghost use Rattle.pat_map.specs.Trees.{at, Inside, Fits, IsTree, IsBranch, BelowAt, one_of, with_other, with_newer};
ghost use Rattle.pat_map.specs.Placings.{IsPlaced};
ghost use Rattle.pat_map.specs.TreeLaws.{Sets, Joins, Below};

use lattice_core::Lattice;
use std::alloc::{AllocError, Global};
use std::rc::Rc;

/// A tree with at least one key.
///
/// The keys of a branch are alike but for their lowest bits: without its lowest `bit + 1` bits each is `block`. Those
/// with the bit of number `bit` are under `high`, the others under `low`, and neither is empty.
#[derive(Drop)]
pub(crate) enum Node<V> {
    Leaf {
        key: u32,
        value: V,
    },
    Branch {
        bit: u32,
        block: u32,
        low: Rc<Node<V>>,
        high: Rc<Node<V>>,
    },
}

/// A key without its lowest bits.
pub(crate) fn block_at(key: u32, size: u32) -> u32
    requires { size ≤ 32 }
    ensures { result ≡ key / 2 ^ size }
{
    (u64::from(key) >> size) as u32
}

/// Whether a key hasn't the bit of this number.
pub(crate) fn is_low(key: u32, bit: u32) -> bool
    requires { bit < 32 }
    ensures { result ≡ ((key / 2 ^ bit) % 2 == 0) }
{
    (key >> bit) % 2 == 0
}

/// The value at a key.
pub(crate) fn find<V>(tree: &Node<V>, key: u32) -> Option<&V>
    requires { IsTree tree.now }
    ensures { option_copied result ≡ at tree.now key }
{
    match tree {
        Node::Leaf { key: own, value } => if key == *own { Some(value) } else { None },
        Node::Branch { bit, low, high, .. } => {
            if is_low(key, *bit) {
                find(low, key)
            } else {
                find(high, key)
            }
        }
    }
}

/// Two trees as one, whose keys without their lowest `size` bits are `a` and `b`.
pub(crate) fn link<V: Drop>(
    alloc: Global,
    first: Rc<Node<V>>,
    second: Rc<Node<V>>,
    size: u32,
    a: u32,
    b: u32,
) -> Result<Rc<Node<V>>, AllocError>
    requires size { size ≤ 32 }
    requires apart { a ≡ b → ⊥ }
    requires a_fits { Fits size a }
    requires b_fits { Fits size b }
    requires first { Inside size a first.value }
    requires second { Inside size b second.value }
    requires tree { IsTree first.value }
    requires other_tree { IsTree second.value }
    ensures tree { IfOk result (λ t. IsTree t.value) }
    ensures joins { IfOk result (λ t. (k : ℕ) → at t.value k ≡ one_of (at first.value k) (at second.value k)) }
{
    let mut bit = size;
    let mut a = a;
    let mut b = b;
    while a / 2 != b / 2 {
        a /= 2;
        b /= 2;
        bit += 1;
    }
    if a < b {
        branch(alloc, bit, a / 2, first, second)
    } else {
        branch(alloc, bit, a / 2, second, first)
    }
}

/// A node over two trees.
pub(crate) fn branch<V: Drop>(
    alloc: Global,
    bit: u32,
    block: u32,
    low: Rc<Node<V>>,
    high: Rc<Node<V>>,
) -> Result<Rc<Node<V>>, AllocError>
    ensures { IfOk result (λ t. IsBranch bit block low.value high.value t.value) }
{
    Ok(Rc::new(
        alloc,
        Node::Branch {
            bit,
            block,
            low,
            high,
        },
    )?)
}

/// A tree of one key.
pub(crate) fn leaf<V: Drop>(alloc: Global, key: u32, value: V) -> Result<Rc<Node<V>>, AllocError>
    ensures { IfOk result (λ t. t.value ≡ Leaf key value) }
{
    Ok(Rc::new(alloc, Node::Leaf { key, value })?)
}

/// The same tree with a value at a key. The nodes that are made are counted in `made`, and all others are shared.
pub(crate) fn put<V: Drop>(
    alloc: Global,
    tree: &Rc<Node<V>>,
    key: u32,
    value: V,
    made: &mut u32,
) -> Result<Rc<Node<V>>, AllocError>
    requires { IsTree tree.now.value }
    ensures tree { IfOk result (λ t. IsTree t.value) }
    ensures sets { IfOk result (λ t. Sets key value tree.now.value t.value) }
{
    *made = made.saturating_add(1);
    match &**tree {
        Node::Leaf { key: own, .. } => {
            let new = leaf(alloc, key, value)?;
            if key == *own {
                return Ok(new);
            }
            *made = made.saturating_add(1);
            link(alloc, tree.clone()?, new, 0, *own, key)
        }
        Node::Branch {
            bit,
            block,
            low,
            high,
        } => {
            let own = block_at(key, *bit + 1);
            if own != *block {
                let new = leaf(alloc, key, value)?;
                *made = made.saturating_add(1);
                return link(alloc, tree.clone()?, new, *bit + 1, *block, own);
            }
            if is_low(key, *bit) {
                let half = put(alloc, low, key, value, made)?;
                branch(alloc, *bit, *block, half, high.clone()?)
            } else {
                let half = put(alloc, high, key, value, made)?;
                branch(alloc, *bit, *block, low.clone()?, half)
            }
        }
    }
}

/// How the block of one branch lies to that of another: they are one block, the other's lies in a half of the first, the
/// first one lies in a half of the other's, or they are apart in blocks of `size` bits.
#[derive(Clone, Copy)]
pub(crate) enum Placing {
    Same,
    Low,
    High,
    UnderLow,
    UnderHigh,
    Apart { size: u32, own: u32, theirs: u32 },
}

/// How a block lies to a smaller one.
fn holding(bit: u32, block: u32, other_bit: u32, other_block: u32) -> Placing
    requires bit { bit < 32 }
    requires other_bit { other_bit < bit }
    ensures { IsPlaced bit block other_bit other_block result }
{
    let half = block_at(other_block, bit - (other_bit + 1));
    if half / 2 != block {
        Placing::Apart {
            size: bit + 1,
            own: block,
            theirs: half / 2,
        }
    } else if half % 2 == 0 {
        Placing::Low
    } else {
        Placing::High
    }
}

/// How a block lies to a greater one.
fn held(bit: u32, block: u32, other_bit: u32, other_block: u32) -> Placing
    requires other_bit { other_bit < 32 }
    requires bit { bit < other_bit }
    ensures { IsPlaced bit block other_bit other_block result }
{
    let half = block_at(block, other_bit - (bit + 1));
    if half / 2 != other_block {
        Placing::Apart {
            size: other_bit + 1,
            own: half / 2,
            theirs: other_block,
        }
    } else if half % 2 == 0 {
        Placing::UnderLow
    } else {
        Placing::UnderHigh
    }
}

/// How the block of one branch lies to that of another.
fn place_blocks(bit: u32, block: u32, other_bit: u32, other_block: u32) -> Placing
    requires bit { bit < 32 }
    requires other_bit { other_bit < 32 }
    ensures { IsPlaced bit block other_bit other_block result }
{
    if other_bit < bit {
        holding(bit, block, other_bit, other_block)
    } else if bit < other_bit {
        held(bit, block, other_bit, other_block)
    } else if block == other_block {
        Placing::Same
    } else {
        Placing::Apart {
            size: bit + 1,
            own: block,
            theirs: other_block,
        }
    }
}

/// A branch with another lower half. A leaf has none.
fn with_low<V: Drop>(
    alloc: Global,
    tree: &Rc<Node<V>>,
    half: Rc<Node<V>>,
) -> Result<Rc<Node<V>>, AllocError>
    ensures { (bit : ℕ) (block : ℕ) (low : Node V) (high : Node V) → IsBranch bit block low high tree.now.value → IfOk result (λ t. IsBranch bit block half.value high t.value) }
{
    match &**tree {
        Node::Branch {
            bit,
            block,
            high,
            ..
        } => branch(alloc, *bit, *block, half, high.clone()?),
        Node::Leaf { .. } => Ok(half),
    }
}

/// A branch with another upper half. A leaf has none.
fn with_high<V: Drop>(
    alloc: Global,
    tree: &Rc<Node<V>>,
    half: Rc<Node<V>>,
) -> Result<Rc<Node<V>>, AllocError>
    ensures { (bit : ℕ) (block : ℕ) (low : Node V) (high : Node V) → IsBranch bit block low high tree.now.value → IfOk result (λ t. IsBranch bit block low half.value t.value) }
{
    match &**tree {
        Node::Branch {
            bit,
            block,
            low,
            ..
        } => branch(alloc, *bit, *block, low.clone()?, half),
        Node::Leaf { .. } => Ok(half),
    }
}

/// A tree with the keys of both, with the join of both values at a key of both. Halves of the one that the other has no
/// key of are shared.
pub(crate) fn join_all<V: Lattice>(
    alloc: Global,
    tree: &Rc<Node<V>>,
    other: &Rc<Node<V>>,
) -> Result<Rc<Node<V>>, AllocError>
    requires tree { IsTree tree.now.value }
    requires other { IsTree other.now.value }
    ensures tree { IfOk result (λ t. IsTree t.value) }
    ensures joins { IfOk result (λ t. Joins V.joined tree.now.value other.now.value t.value) }
{
    match &**other {
        Node::Leaf { key, value } => {
            let joined = joined_with(alloc, find(tree, *key), value)?;
            put(alloc, tree, *key, joined, &mut 0)
        }
        Node::Branch {
            bit: other_bit,
            block: other_block,
            low: other_low,
            high: other_high,
        } => match &**tree {
            Node::Leaf { key, value } => {
                let joined = joined_under(alloc, value, find(other, *key))?;
                put(alloc, other, *key, joined, &mut 0)
            }
            Node::Branch {
                bit,
                block,
                low,
                high,
            } => match place_blocks(*bit, *block, *other_bit, *other_block) {
                Placing::Same => {
                    let lower = join_all(alloc, low, other_low)?;
                    let upper = join_all(alloc, high, other_high)?;
                    branch(alloc, *bit, *block, lower, upper)
                }
                Placing::Low => with_low(alloc, tree, join_all(alloc, low, other)?),
                Placing::High => with_high(alloc, tree, join_all(alloc, high, other)?),
                Placing::UnderLow => with_low(alloc, other, join_all(alloc, tree, other_low)?),
                Placing::UnderHigh => with_high(alloc, other, join_all(alloc, tree, other_high)?),
                Placing::Apart { size, own, theirs } => {
                    link(alloc, tree.clone()?, other.clone()?, size, own, theirs)
                }
            },
        },
    }
}

/// The join of a value with a newer one where there is one.
fn joined_under<V: Lattice>(alloc: Global, own: &V, newer: Option<&V>) -> Result<V, AllocError>
    ensures { IfOk result (λ v. v ≡ with_newer V.joined own.now (option_copied newer.entry)) }
{
    match newer {
        Some(value) => own.join(alloc, value),
        None => own.copy(alloc),
    }
}

/// The join of a value with a newer one, or the newer one where there is no other.
fn joined_with<V: Lattice>(alloc: Global, own: Option<&V>, newer: &V) -> Result<V, AllocError>
    ensures { IfOk result (λ v. v ≡ with_other V.joined (option_copied own.entry) newer.now) }
{
    match own {
        Some(value) => value.join(alloc, newer),
        None => newer.copy(alloc),
    }
}

/// Whether each key of a tree is in another, with a value at or above its own.
pub(crate) fn is_below<V: Lattice>(tree: &Node<V>, other: &Node<V>) -> bool
    requires tree { IsTree tree.now }
    requires other { IsTree other.now }
    ensures { IsTrue result ↔ Below V.below tree.now other.now }
{
    match tree {
        Node::Leaf { key, value } => is_matched(value, find(other, *key)),
        Node::Branch { low, high, .. } => is_below(low, other) && is_below(high, other),
    }
}

/// Whether there is another value, at or above this one.
fn is_matched<V: Lattice>(value: &V, other: Option<&V>) -> bool
    ensures { IsTrue result ↔ BelowAt V.below (Some value.now) (option_copied other.entry) }
{
    match other {
        Some(more) => value.leq(more),
        None => false,
    }
}
