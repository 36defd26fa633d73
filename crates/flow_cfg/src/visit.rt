//! The visit of a graph that finds the strongly connected components, the components in these without their heads, and
//! so on.

ghost use Rattle.std.specs.Prelude.{◌≡◌};

use std::alloc::{AllocError, Global};

/// The number of a node that stands in the order, or heads a component that is being listed.
const DONE: u64 = u64::MAX;

/// How many components may be listed one within the other. The nodes of a component at this depth are listed in the order
/// in which the visit came to them, so that each edge is followed at most once more often than this.
const DEEPEST: u32 = 32;

/// The edges that leave each node, as chains through the table of edges. A place past the table ends a chain.
#[derive(Drop)]
struct Chains {
    firsts: Vec<usize>,
    nexts: Vec<usize>,
}

/// Chains each edge to the next one that leaves the same node.
fn chains_of(alloc: Global, nodes: u32, edges: &[(u32, u32)]) -> Result<Chains, AllocError> {
    let mut firsts = vec![in alloc; edges.len(); nodes as usize]?;
    let mut nexts = vec![in alloc; edges.len(); edges.len()]?;
    for place in (0..edges.len()).rev() {
        let (from, _) = edges[place];
        if let Some(first) = firsts.get_mut(from as usize) {
            nexts[place] = *first;
            *first = place;
        }
    }
    Ok(Chains { firsts, nexts })
}

/// A node that is being visited: the next edge out of it, when the visit came to it, the first node that is known to be
/// reached from it, whether an edge leads back to that one, and whether the node heads a component that is being listed.
#[derive(Clone, Copy)]
struct Stop {
    node: u32,
    edge: usize,
    came: u64,
    lowest: u64,
    is_loop: bool,
    is_head: bool,
}

/// Where a visit is. `numbers` says when it came to each node, 0 where it has yet to come. `path` leads to where it is,
/// `unsettled` has the nodes whose component isn't known yet, and `order` what is listed so far, the last node first.
/// `depth` says how many components are being listed, one within the other.
#[derive(Drop)]
struct Visit<'a> {
    edges: &'a [(u32, u32)],
    chains: Chains,
    clock: u64,
    numbers: Vec<u64>,
    path: Vec<Stop>,
    unsettled: Vec<u32>,
    order: Vec<u32>,
    depth: u32,
}

impl<'a> Visit<'a> {
    /// When the visit came to a node.
    fn number(&self, node: u32) -> u64 {
        self.numbers.get(node as usize).copied().unwrap_or(DONE)
    }

    /// Gives a node another number.
    fn set_number(&mut self, node: u32, number: u64)
        ensures { self.new.unsettled ≡ self.old.unsettled }
    {
        if let Some(place) = self.numbers.get_mut(node as usize) {
            *place = number;
        }
    }

    /// The first edge out of a node.
    fn first_edge(&self, node: u32) -> usize {
        self.chains
            .firsts
            .get(node as usize)
            .copied()
            .unwrap_or(usize::MAX)
    }

    /// The edge behind one in its chain.
    fn next_edge(&self, edge: usize) -> usize {
        self.chains.nexts.get(edge).copied().unwrap_or(usize::MAX)
    }

    /// Comes to a node for the first time.
    fn enter(&mut self, node: u32) -> Result<(), AllocError> {
        self.clock = self.clock.saturating_add(1);
        let came = self.clock;
        self.set_number(node, came);
        self.unsettled.push(node)?;
        let edge = self.first_edge(node);
        self.path.push(Stop {
            node,
            edge,
            came,
            lowest: came,
            is_loop: false,
            is_head: false,
        })?;
        Ok(())
    }

    /// Follows an edge out of a stop.
    fn follow(&mut self, mut stop: Stop, target: u32) -> Result<(), AllocError> {
        stop.edge = self.next_edge(stop.edge);
        let number = self.number(target);
        if number == 0 {
            self.path.push(stop)?;
            return self.enter(target);
        }
        self.path.push(lowered(stop, number))?;
        Ok(())
    }

    /// Hands what a node reaches to the one that the visit came from.
    fn hand_back(&mut self, lowest: u64) {
        if let Some(stop) = self.path.last_mut() {
            *stop = lowered(*stop, lowest);
        }
    }

    /// Forgets the nodes of a component behind its head, so that they are visited anew.
    fn reopen(&mut self, head: u32) {
        while let Some(node) = self.unsettled.pop() {
            if node == head {
                return;
            }
            self.set_number(node, 0);
        }
    }

    /// Lists the nodes of a component and its head, each behind those that the visit came to before it.
    fn list(&mut self, head: u32) -> Result<(), AllocError> {
        while let Some(node) = self.unsettled.pop() {
            self.set_number(node, DONE);
            self.order.push(node)?;
            if node == head {
                return Ok(());
            }
        }
        Ok(())
    }

    /// Begins to list a component behind its head.
    fn open_part(&mut self, mut head: Stop) -> Result<(), AllocError> {
        self.reopen(head.node);
        self.depth = self.depth.saturating_add(1);
        head.is_head = true;
        head.edge = self.first_edge(head.node);
        self.path.push(head)?;
        Ok(())
    }

    /// Goes back from a stop all of whose edges are followed.
    fn leave(&mut self, stop: Stop) -> Result<(), AllocError> {
        if stop.is_head {
            self.depth = self.depth.saturating_sub(1);
            self.order.push(stop.node)?;
            return Ok(());
        }
        if stop.lowest != stop.came {
            self.hand_back(stop.lowest);
            return Ok(());
        }
        self.set_number(stop.node, DONE);
        if stop.is_loop && self.depth < DEEPEST {
            return self.open_part(stop);
        }
        self.list(stop.node)
    }

    /// Visits what a node reaches, unless the visit came to it before.
    fn visit_from(&mut self, root: u32) -> Result<(), AllocError> {
        if self.number(root) != 0 {
            return Ok(());
        }
        self.enter(root)?;
        for _ in 0..u64::MAX {
            let stop = match self.path.pop() {
                Some(stop) => stop,
                None => break,
            };
            match self.edges.get(stop.edge) {
                Some((_, target)) => self.follow(stop, *target)?,
                None => self.leave(stop)?,
            }
        }
        Ok(())
    }
}

/// A stop that reaches a node with this number.
fn lowered(mut stop: Stop, number: u64) -> Stop {
    if !stop.is_head && number <= stop.lowest {
        stop.lowest = number;
        stop.is_loop = true;
    }
    stop
}

/// The nodes in the order of a visit that begins at the entry and goes on at each node that it doesn't reach, with the
/// heads of components before the rest of these.
pub(crate) fn visited(
    alloc: Global,
    nodes: u32,
    edges: &[(u32, u32)],
    entry: u32,
) -> Result<Vec<u32>, AllocError> {
    let mut visit = Visit {
        edges,
        chains: chains_of(alloc, nodes, edges)?,
        clock: 0,
        numbers: vec![in alloc; 0; nodes as usize]?,
        path: Vec::new(alloc),
        unsettled: Vec::new(alloc),
        order: Vec::new(alloc),
        depth: 0,
    };
    visit.visit_from(entry)?;
    for node in 0..nodes {
        visit.visit_from(node)?;
    }
    let mut order = visit.order;
    order.reverse();
    Ok(order)
}
