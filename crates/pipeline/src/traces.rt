//! Where the positions of a program come from, when one pass has followed another.

ghost use Rattle.std.specs.Prelude.{◌≡◌, ◌+◌, map, nat_eq};
ghost use Rattle.program_model.specs.Cells.{capped};
ghost use Rattle.pipeline.specs.Changes.{no_changes, total_of};
ghost use Rattle.pipeline.specs.Origins.{origin_by, row_at, AreAfter, Follow};
ghost use Rattle.pipeline.specs.Rounds.{first_of};

use program_model::{Changed, Origin, Program};
use seq::Seq;
use std::alloc::Global;

/// A program, and where its positions come from: for each method number an origin for each position, and no list at all
/// where no position has moved.
#[derive(Drop)]
pub struct Traced {
    pub program: Program,
    pub origins: Seq<Seq<Origin>>,
}

/// A program no position of which has moved.
pub fn unmoved(alloc: Global, program: Program) -> Traced
    ensures { result ≡ first_of program }
{
    Traced {
        program,
        origins: Seq::new(alloc),
    }
}

/// How much passes took away, receivers of methods among it, over how many instructions they wrote what is known of them, how many calls they let name what
/// these find, how many instructions they let read originals in place of copies, and in how many bodies they gave registers
/// other numbers.
#[derive(Clone, Copy, Drop)]
pub struct Changes {
    pub removed: u64,
    pub folded: u64,
    pub rebound: u64,
    pub reread: u64,
    pub renamed: u64,
}

impl Changes {
    /// No changes.
    pub fn none() -> Changes
        ensures { result ≡ no_changes }
    {
        Changes {
            removed: 0,
            folded: 0,
            rebound: 0,
            reread: 0,
            renamed: 0,
        }
    }

    /// So much was taken away.
    pub fn removed(count: u64) -> Changes
        ensures { result ≡ record no_changes { removed = count } }
    {
        Changes {
            removed: count,
            ..Changes::none()
        }
    }

    /// Over so many instructions was written what is known of them.
    pub fn folded(count: u64) -> Changes
        ensures { result ≡ record no_changes { folded = count } }
    {
        Changes {
            folded: count,
            ..Changes::none()
        }
    }

    /// So many calls name what they find.
    pub fn rebound(count: u64) -> Changes
        ensures { result ≡ record no_changes { rebound = count } }
    {
        Changes {
            rebound: count,
            ..Changes::none()
        }
    }

    /// So many instructions read originals.
    pub fn reread(count: u64) -> Changes
        ensures { result ≡ record no_changes { reread = count } }
    {
        Changes {
            reread: count,
            ..Changes::none()
        }
    }

    /// In so many bodies registers got other numbers.
    pub fn renamed(count: u64) -> Changes
        ensures { result ≡ record no_changes { renamed = count } }
    {
        Changes {
            renamed: count,
            ..Changes::none()
        }
    }

    /// Whether nothing was changed.
    pub fn is_none(&self) -> bool
        ensures { result ≡ nat_eq (total_of self.now) 0 }
    {
        self.removed == 0
            && self.folded == 0
            && self.rebound == 0
            && self.reread == 0
            && self.renamed == 0
    }
}

/// What passes left, and what they changed.
#[derive(Drop)]
pub struct Passed {
    pub traced: Traced,
    pub changes: Changes,
}

/// The origins of a method's positions, none where there is no list.
fn row_of(rows: &[Seq<Origin>], method: usize) -> &[Origin]
    ensures { result.now ≡ row_at rows.now method }
{
    match rows.get(method) {
        Some(row) => row.as_slice(),
        None => &[],
    }
}

/// Replaces an origin by the origin that its position had before.
fn trace(old: &[Origin], origin: &mut Origin)
    ensures { origin.new ≡ origin_by old.now origin.old }
{
    if let Some(first) = old.get(origin.position as usize) {
        *origin = Origin {
            method: first.method,
            position: first.position,
        };
    }
}

/// The same for the origins of a list.
fn trace_all(old: &[Origin], origins: &mut [Origin])
    ensures { origins.new ≡ map (origin_by old.now) origins.old }
{
    for origin in origins.iter_mut() {
        trace(old, origin);
    }
}

/// The same for the list of a method.
fn trace_row(old: &[Origin], row: &mut Seq<Origin>)
    ensures { row.new ≡ map (origin_by old.now) row.old }
{
    trace_all(old, row.items.as_mut_slice());
}

/// The same for the lists of all methods.
fn trace_rows(old: &[Seq<Origin>], rows: &mut [Seq<Origin>])
    ensures { AreAfter old.now rows.old rows.new }
{
    for method in 0..rows.len() {
        trace_row(row_of(old, method), &mut rows[method]);
    }
}

/// The origins after a pass that gives these, where those before it were the old ones.
fn origins_after(old: Seq<Seq<Origin>>, new: Seq<Seq<Origin>>) -> Seq<Seq<Origin>>
    ensures { Follow old new result }
{
    if new.is_empty() {
        return old;
    }
    let mut rows = new;
    trace_rows(old.as_slice(), rows.items.as_mut_slice());
    rows
}

/// What a pass left of a program with these changes, by the origins that the program had.
pub fn left_by(old: Seq<Seq<Origin>>, changed: Changed, changes: Changes) -> Passed
    ensures program { result.traced.program ≡ changed.program }
    ensures changes { result.changes ≡ changes }
    ensures origins { Follow old changed.origins result.traced.origins }
{
    let origins = origins_after(old, changed.origins);
    Passed {
        traced: Traced {
            program: changed.program,
            origins,
        },
        changes,
    }
}

/// What passes left when the last of them left this, where those before it had made these changes.
pub fn and_then(before: Changes, last: Passed) -> Passed
    ensures traced { result.traced ≡ last.traced }
    ensures removed { result.changes.removed ≡ capped (before.removed + last.changes.removed) }
    ensures folded { result.changes.folded ≡ capped (before.folded + last.changes.folded) }
    ensures rebound { result.changes.rebound ≡ capped (before.rebound + last.changes.rebound) }
    ensures reread { result.changes.reread ≡ capped (before.reread + last.changes.reread) }
    ensures renamed { result.changes.renamed ≡ capped (before.renamed + last.changes.renamed) }
{
    let more = last.changes;
    Passed {
        traced: last.traced,
        changes: Changes {
            removed: before.removed.saturating_add(more.removed),
            folded: before.folded.saturating_add(more.folded),
            rebound: before.rebound.saturating_add(more.rebound),
            reread: before.reread.saturating_add(more.reread),
            renamed: before.renamed.saturating_add(more.renamed),
        },
    }
}
