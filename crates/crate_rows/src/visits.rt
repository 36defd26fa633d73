//! How often the solvers follow edges: graphs of six shapes, each solved by the worklist and along a weak order.
//!
//! A row is a shape and a solver, at a thousand edges, or how many nodes a change of a map with so many keys makes.

ghost use Rattle.std.specs.Prelude.{◌≡◌, IfOk};
ghost use Rattle.flow_cfg.specs.Parts.{part_nodes, part_ends};

use crate::counting::Counting;
use crate::shapes::{Shape, edges_of};
use fixpoint::{solve, solve_along};
use flow_cfg::{Part, weak_order};
use lattice_core::Flat;
use pat_map::PatMap;
use std::alloc::{AllocError, Global};

/// How many edges a graph has about where no number is given.
pub const FEW: u32 = 1_000;

/// Which solver goes over a graph.
#[derive(Clone, Copy, PartialEq, Eq)]
enum Solver {
    Worklist,
    Along,
}

/// The nodes of an order.
fn nodes_of(alloc: Global, parts: &[Part]) -> Result<Vec<u32>, AllocError>
    ensures { IfOk result (λ v. v.items ≡ part_nodes parts.now) }
{
    parts.iter().map(|part| part.node).collect(alloc)
}

/// Where the parts of an order end.
fn ends_of(alloc: Global, parts: &[Part]) -> Result<Vec<u32>, AllocError>
    ensures { IfOk result (λ v. v.items ≡ part_ends parts.now) }
{
    parts.iter().map(|part| part.end).collect(alloc)
}

/// Solves along the weak order of the flow's graph.
fn along(alloc: Global, flow: &Counting) -> Result<(), AllocError> {
    let parts = weak_order(alloc, flow.count, flow.edges.as_slice(), 0)?;
    let nodes = nodes_of(alloc, &parts)?;
    let ends = ends_of(alloc, &parts)?;
    solve_along(alloc, flow, nodes.as_slice(), ends.as_slice())?;
    Ok(())
}

/// How many edges a graph of a shape has, and how many a solver follows in it.
fn followed(
    alloc: Global,
    shape: Shape,
    solver: Solver,
    about: u32,
) -> Result<(usize, u64), AllocError> {
    let flow = Counting::new(edges_of(alloc, shape, about)?);
    if solver == Solver::Worklist {
        solve(alloc, &flow)?;
    } else {
        along(alloc, &flow)?;
    }
    Ok((flow.edges.len(), flow.followed.get()))
}

/// The line of one shape and one solver, at about so many edges.
pub fn line_of(alloc: Global, shape: &str, solver: &str, about: u32) -> Result<String, AllocError> {
    let shape = Shape::named(shape);
    let (solver, how) = if solver == "along" {
        (Solver::Along, "along")
    } else {
        (Solver::Worklist, "worklist")
    };
    let (edges, count) = followed(alloc, shape, solver, about)?;
    let name = shape.name();
    format!(in alloc; "{name} {how} {edges} {count}")
}

/// How many nodes one change of a map with so many keys makes.
fn nodes_made(alloc: Global, keys: u32) -> Result<u32, AllocError> {
    let mut map = PatMap::empty();
    for key in 0..keys {
        map = map.set(alloc, key, Flat::Known(key))?;
    }
    let mut made = 0;
    map.set_counting(alloc, keys / 2, Flat::Any, &mut made)?;
    Ok(made)
}

/// A row with what it asks for behind it.
pub fn answer(alloc: Global, line: &str) -> Result<String, AllocError> {
    let (first, second) = line.split_once(' ').unwrap_or((line, ""));
    if first == "map" {
        let keys = second.parse::<u32>().unwrap_or(0);
        let made = nodes_made(alloc, keys)?;
        format!(in alloc; "map {keys} {made}")
    } else {
        line_of(alloc, first, second, FEW)
    }
}
