//! Graphs of several shapes. Each has a path through all nodes in order, and edges beside it.

ghost use Rattle.std.specs.Prelude.{◌^◌, ◌<◌};

use std::alloc::{AllocError, Global};

/// The greatest number of edges that is asked for.
const MOST: u32 = 100_000_000;

/// The shape of a graph.
#[derive(Clone, Copy, PartialEq, Eq)]
pub enum Shape {
    /// A path.
    Chain,
    /// A path whose nodes are numbered from its end.
    Backwards,
    /// Loops that hold loops, eight deep, one such nest behind the other.
    Nests,
    /// One nest of loops, as deep as half the path is long.
    Deep,
    /// Small loops with two ways in, one behind the other.
    Twins,
    /// One loop with two ways in.
    Ring,
}

impl Shape {
    pub const ALL: [Shape; 6] = [
        Shape::Chain,
        Shape::Backwards,
        Shape::Nests,
        Shape::Deep,
        Shape::Twins,
        Shape::Ring,
    ];

    /// Its name.
    pub fn name(self) -> &'static str {
        match self {
            Shape::Chain => "chain",
            Shape::Backwards => "backwards",
            Shape::Nests => "nests",
            Shape::Deep => "deep",
            Shape::Twins => "twins",
            Shape::Ring => "ring",
        }
    }

    /// The shape of a name, a chain where there is none.
    pub fn named(name: &str) -> Shape {
        for shape in Shape::ALL {
            if shape.name() == name {
                return shape;
            }
        }
        Shape::Chain
    }
}

/// A path through so many nodes.
fn path(alloc: Global, nodes: u32) -> Result<Vec<(u32, u32)>, AllocError> {
    let mut edges = Vec::new(alloc);
    for node in 1..nodes {
        edges.push((node - 1, node))?;
    }
    Ok(edges)
}

/// A path from the entry to the last node, and from there down to node 1.
fn backwards(alloc: Global, nodes: u32) -> Result<Vec<(u32, u32)>, AllocError> {
    let mut edges = Vec::new(alloc);
    edges.push((0, nodes.saturating_sub(1)))?;
    for node in 2..nodes {
        edges.push((node, node - 1))?;
    }
    Ok(edges)
}

/// Adds the edges back of a nest whose middle node is this one: from the node so many places behind the middle to the
/// one as far before it.
fn add_nest(edges: &mut Vec<(u32, u32)>, middle: u32, depth: u32) -> Result<(), AllocError> {
    for level in 0..depth {
        let front = middle.saturating_sub(1).saturating_sub(level);
        edges.push((middle.saturating_add(level), front))?;
    }
    Ok(())
}

/// Nests of loops, one behind the other.
fn nests(alloc: Global, depth: u32, count: u32) -> Result<Vec<(u32, u32)>, AllocError> {
    let mut edges = path(alloc, count.saturating_mul(depth).saturating_mul(2))?;
    let mut middle = depth;
    for _ in 0..count {
        add_nest(&mut edges, middle, depth)?;
        middle = middle.saturating_add(depth).saturating_add(depth);
    }
    Ok(edges)
}

/// Loops of two nodes, each of which is entered from the node before them, one behind the other.
fn twins(alloc: Global, count: u32) -> Result<Vec<(u32, u32)>, AllocError>
    requires { count < 2 ^ 28 }
{
    let mut edges = path(alloc, count * 4)?;
    for block in 0..count {
        edges.push((block * 4, block * 4 + 2))?;
        edges.push((block * 4 + 2, block * 4 + 1))?;
    }
    Ok(edges)
}

/// A loop of all nodes but the first, which is entered at its first node and in the middle.
fn ring(alloc: Global, nodes: u32) -> Result<Vec<(u32, u32)>, AllocError> {
    let mut edges = path(alloc, nodes)?;
    edges.push((0, nodes / 2))?;
    edges.push((nodes.saturating_sub(1), 1))?;
    Ok(edges)
}

/// The edges of a graph of this shape with about so many edges, 100,000,000 at most.
pub fn edges_of(alloc: Global, shape: Shape, about: u32) -> Result<Vec<(u32, u32)>, AllocError> {
    let about = about.min(MOST);
    match shape {
        Shape::Chain => path(alloc, about + 1),
        Shape::Backwards => backwards(alloc, about + 1),
        Shape::Nests => nests(alloc, 8, about / 24),
        Shape::Deep => nests(alloc, about / 3, 1),
        Shape::Twins => twins(alloc, about / 6),
        Shape::Ring => ring(alloc, about),
    }
}
