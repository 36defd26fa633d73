//! Comparing registers.

ghost use Rattle.std.specs.Prelude.{◌≡◌, true};
ghost use Rattle.closed_facts.specs.Tables.{AreBelow};

use domains::Value;
use pat_map::PatMap;

/// Whether each register is at or below another's.
#[tactic(auto, using(crate::proofs::Orders::are_below))]
pub(crate) fn are_below(registers: &PatMap<Value>, others: &PatMap<Value>) -> bool
    ensures { result ≡ true → AreBelow registers.now others.now }
{
    registers.leq_with(others)
}
