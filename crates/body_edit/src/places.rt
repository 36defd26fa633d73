//! Where positions go.

ghost use Rattle.std.specs.Prelude.{◌≡◌, ℕ, ◌<◌, ◌^◌, length, IfOk};
ghost use Rattle.pass_defs.specs.Thinned.{place};
ghost use Rattle.body_edit.specs.Fates.{fates_of};
ghost use Rattle.body_edit.specs.Places.{gone_from, total_from, place_in};

use crate::fate::Fate;
use std::alloc::{AllocError, Global};

/// How many positions go before each position, and how many in all.
#[derive(Debug, Drop)]
pub struct Places {
    pub gone: Vec<u32>,
    pub total: u32,
}

impl Places {
    /// Where a position goes: as many stand before it as stay or become nops. A number past the end goes as far up as the end.
    pub fn of(&self, position: u32) -> u32
        ensures { result ≡ place_in self.now position }
    {
        match self.gone.get(position as usize) {
            Some(gone) => position.saturating_sub(*gone),
            None => position.saturating_sub(self.total),
        }
    }
}

/// Counts the positions that go.
fn count_gone(alloc: Global, fates: &[Fate]) -> Result<Places, AllocError>
    requires { length fates.now < 2 ^ 32 }
    ensures gone { IfOk result (λ t. t.gone.items ≡ gone_from 0 (fates_of fates.now)) }
    ensures total { IfOk result (λ t. t.total ≡ total_from 0 (fates_of fates.now)) }
{
    let mut gone = Vec::new(alloc);
    let mut total = 0;
    for fate in fates {
        gone.push(total)?;
        total = fate.counted(total);
    }
    Ok(Places { gone, total })
}

/// The places of the positions of a body with these fates. The only error is want of memory.
pub fn places_of(alloc: Global, fates: &[Fate]) -> Result<Places, AllocError>
    requires { length fates.now < 2 ^ 32 }
    ensures { IfOk result (λ t. place_in t ≡ place (fates_of fates.now)) }
{
    let places = count_gone(alloc, fates)?;
    Ok(places)
}
