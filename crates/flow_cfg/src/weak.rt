//! Weak topological orders.

ghost use Rattle.std.specs.Prelude.{◌≡◌, ◌<◌, length, IfOk, All};
ghost use Rattle.flow_cfg.specs.Listing.{ListsOnce};
ghost use Rattle.flow_cfg.specs.Parts.{part_nodes, part_ends, AreEnds, Nest, Follows, AreCaused, AreTight};

use crate::ends::ends_of;
use crate::listing::{each_once, places_of};
use crate::visit::visited;
use std::alloc::{AllocError, Global};

/// A node of an order, and the place before which the part that it heads ends. A node that heads no part of more nodes
/// ends behind its own place.
#[derive(Clone, Copy, PartialEq, Eq, Debug)]
pub struct Part {
    pub node: u32,
    pub end: u32,
}

/// The nodes with the ends of their parts.
fn parts_of(alloc: Global, order: &[u32], ends: &[u32]) -> Result<Vec<Part>, AllocError>
    requires { length ends.now ≡ length order.now }
    ensures nodes { IfOk result (λ v. part_nodes v.items ≡ order.now) }
    ensures ends { IfOk result (λ v. part_ends v.items ≡ ends.now) }
{
    let mut parts = Vec::with_capacity(alloc, order.len())?;
    for place in 0..order.len() {
        parts.push(Part {
            node: order[place],
            end: ends[place],
        })?;
    }
    Ok(parts)
}

/// A weak topological order of all nodes of a graph. Each edge between nodes goes forwards to a node that heads no part with its
/// source, or to the head of a part that holds its source, and parts nest. A part of more than one node is there for an edge to
/// its head from a node in it, and its last node has an edge back into it. The order is that of a search that begins at
/// the entry, so what the entry reaches stands behind the nodes that it doesn't reach. Every place is in the part that it
/// heads, so an edge from a node to itself asks for nothing. Below 32 components one within the other, nodes stand in the
/// order in which the search came to them. The only error is want of memory.
pub fn weak_order(
    alloc: Global,
    nodes: u32,
    edges: &[(u32, u32)],
    entry: u32,
) -> Result<Vec<Part>, AllocError>
    ensures nodes { IfOk result (λ parts. ListsOnce nodes (part_nodes parts.items)) }
    ensures ends { IfOk result (λ parts. AreEnds (part_ends parts.items)) }
    ensures nest { IfOk result (λ parts. Nest (part_ends parts.items)) }
    ensures edges { IfOk result (λ parts. All (Follows (part_nodes parts.items) (part_ends parts.items)) edges.now) }
    ensures caused { IfOk result (λ parts. AreCaused (part_nodes parts.items) (part_ends parts.items) edges.now) }
    ensures tight { IfOk result (λ parts. AreTight (part_nodes parts.items) (part_ends parts.items) edges.now) }
{
    let visited = visited(alloc, nodes, edges, entry)?;
    let order = each_once(alloc, nodes, &visited)?;
    let places = places_of(alloc, &order)?;
    let ends = ends_of(alloc, &places, edges)?;
    parts_of(alloc, &order, &ends)
}
