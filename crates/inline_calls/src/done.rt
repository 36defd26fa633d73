//! What was done so far.

ghost use Rattle.std.specs.Prelude.{◌≡◌, [], length, replicate, Some, IfOk};
ghost use Rattle.inline_calls.specs.Plans.{nothing_done, noted, edit_of, origins_if};

use crate::caller::Accepted;
use crate::editing::Edit;
use crate::room::cells_with;
use crate::site::Caller;
use program_model::{Origin, Program, count_cells};
use seq::Seq;
use splice::Spliced;
use std::alloc::{AllocError, Global};

/// The cells of the program with the new bodies so far, how many calls are inlined in them, and where the instructions of each
/// method come from, by method number.
#[derive(Drop)]
pub struct Done {
    pub cells: u64,
    pub count: u64,
    pub origins: Seq<Seq<Origin>>,
}

/// So many empty lists.
fn no_origins(alloc: Global, count: usize) -> Result<Vec<Seq<Origin>>, AllocError>
    ensures { IfOk result (λ v. v.items ≡ replicate count []) }
{
    let mut origins = Vec::with_capacity(alloc, count)?;
    for _ in 0..count {
        origins.push(Seq::new(alloc))?;
    }
    Ok(origins)
}

/// The origins where so many calls are inlined, none at all where these are none.
pub fn origins_if(alloc: Global, count: u64, origins: Seq<Seq<Origin>>) -> Seq<Seq<Origin>>
    ensures { result ≡ origins_if count origins }
{
    if count == 0 { Seq::new(alloc) } else { origins }
}

impl Done {
    /// Nothing done.
    pub fn nothing(alloc: Global, program: &Program) -> Result<Done, AllocError>
        ensures { IfOk result (λ done. done ≡ nothing_done program.now) }
    {
        let origins = no_origins(alloc, program.methods.len())?;
        Ok(Done {
            cells: count_cells(program),
            count: 0,
            origins: Seq::of_vec(origins),
        })
    }

    /// Notes the new body of a caller, which has copies in place of so many calls.
    fn note_one(&mut self, caller: Caller<'_>, spliced: Spliced, count: u64) -> Edit
        ensures edit { Some result ≡ edit_of (Some spliced) }
        ensures done { self.new ≡ noted caller.entry (Some spliced) count self.old }
    {
        let Spliced {
            body,
            lines,
            origins,
        } = spliced;
        self.cells = cells_with(self.cells, caller.body, &body);
        self.count = self.count.saturating_add(count);
        if let Some(row) = self.origins.items.get_mut(caller.method.name as usize) {
            *row = origins;
        }
        Edit { body, lines }
    }

    /// Notes what was accepted of a caller, and gives its new body if it has one.
    pub fn note(&mut self, caller: Caller<'_>, accepted: Accepted<'_>) -> Option<Edit>
        ensures edit { result ≡ edit_of accepted.entry.spliced }
        ensures done { self.new ≡ noted caller.entry accepted.entry.spliced accepted.entry.count self.old }
    {
        let Accepted { spliced, count, .. } = accepted;
        match spliced {
            Some(spliced) => Some(self.note_one(caller, spliced, count)),
            None => None,
        }
    }
}
