//! A graph with its edges turned round.

ghost use Rattle.std.specs.Prelude.{◌≡◌, ℕ, ◌<◌, ◌^◌, [], length, IfOk, OnOk, Contains};
ghost use Rattle.walk_marks.specs.Steps.{Adds};
ghost use Rattle.walk_marks.specs.Walks.{AreTurned, row_of};

use seq::Seq;
use std::alloc::{AllocError, Global};

/// Adds an edge to a node, unless there is no such node.
fn add_edge(rows: &mut Vec<Seq<u32>>, from: u32, to: u32) -> Result<(), AllocError>
    ensures { OnOk result (Adds (λ n. n ≡ from) to rows.old.items rows.new.items) }
{
    let place = from as usize;
    if place < rows.len() {
        rows[place].items.push(to)?;
    }
    Ok(())
}

/// Adds an edge from each node of a row.
fn add_edges(rows: &mut Vec<Seq<u32>>, row: &[u32], to: u32) -> Result<(), AllocError>
    ensures { OnOk result (Adds (Contains row.now) to rows.old.items rows.new.items) }
{
    for from in row {
        add_edge(rows, *from, to)?;
    }
    Ok(())
}

/// So many rows without an edge.
fn no_rows(alloc: Global, count: usize) -> Result<Vec<Seq<u32>>, AllocError>
    ensures long { IfOk result (λ v. length v.items ≡ count) }
    ensures empty { IfOk result (λ v. (n : ℕ) → row_of v.items n ≡ []) }
{
    let mut rows = Vec::with_capacity(alloc, count)?;
    for _ in 0..count {
        rows.push(Seq::new(alloc))?;
    }
    Ok(rows)
}

/// For each number below a count, the rows in which it stands: the graph with each edge turned round. A number that isn't
/// below the count is left out. The only error is want of memory.
pub fn turned(alloc: Global, rows: &[Seq<u32>], count: usize) -> Result<Vec<Seq<u32>>, AllocError>
    requires { length rows.now < 2 ^ 32 }
    ensures long { IfOk result (λ v. length v.items ≡ count) }
    ensures turned { IfOk result (λ v. AreTurned rows.now count v.items) }
{
    let mut back = no_rows(alloc, count)?;
    for to in 0..rows.len() {
        add_edges(&mut back, rows[to].as_slice(), to as u32)?;
    }
    Ok(back)
}
