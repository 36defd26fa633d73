//! Runs of tied registers.

ghost use Rattle.std.specs.Prelude.{◌≡◌, ◌+◌, ◌<◌, ℕ, suc, false};
ghost use Rattle.compact.specs.Ties.{has_some};
ghost use Rattle.compact.specs.Placed.{IsRun, IsFloor};

use crate::ties::has_some;
use seq::Seq;

/// The first of the registers that are tied up to the arguments; all registers from there on keep their distance to the
/// end.
pub(crate) fn floor_of(ties: &[Seq<u32>], locals: u16) -> u16
    ensures { IsFloor ties.now locals result }
{
    let mut floor = locals;
    while floor > 0 && has_some(ties, floor as usize - 1) {
        floor -= 1;
    }
    floor
}

/// How many registers are tied together from one on.
pub(crate) fn run_from(ties: &[Seq<u32>], at: u16, floor: u16) -> u16
    requires at { at < floor }
    requires ends { (s : ℕ) → suc s ≡ floor → has_some ties.now s ≡ false }
    ensures { IsRun ties.now at floor result }
{
    let mut size: u16 = 1;
    while size < floor - at && has_some(ties, at as usize + size as usize - 1) {
        size += 1;
    }
    size
}
