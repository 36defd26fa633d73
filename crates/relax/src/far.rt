//! Conditional branches that go too far.

ghost use Rattle.std.specs.Prelude.{◌≡◌, ◌+◌, ◌<◌, ◌≤◌, ℕ, length, slice_index};
ghost use Rattle.relax.specs.Sizes.{start};
ghost use Rattle.relax.specs.Far.{spans_far, is_far, first_far};

use crate::sizes::start_at;
use program_model::Insn;

/// Whether so many units are more than a conditional branch can go.
fn spans_far(from: u64, to: u64) -> bool
    ensures { result ≡ spans_far from to }
{
    to.saturating_sub(from) > 32767 || from.saturating_sub(to) > 32768
}

/// Whether the instruction at `at` is a conditional branch that goes too far.
fn is_far(insn: &Insn, at: usize, starts: &[u64], sizes: &[u32]) -> bool
    requires at { at < length sizes.now }
    requires long { length starts.now ≡ length sizes.now + 1 }
    requires each { (k : ℕ) → k ≤ length sizes.now → slice_index starts.now k ≡ start sizes.now k }
    ensures { result ≡ is_far sizes.now at insn.now }
{
    match insn {
        Insn::If { target, .. } | Insn::IfZero { target, .. } => spans_far(
            starts[at],
            start_at(starts, sizes, *target),
        ),
        _ => false,
    }
}

/// The first conditional branch that goes too far.
pub(crate) fn first_far(insns: &[Insn], starts: &[u64], sizes: &[u32]) -> Option<usize>
    requires same { length insns.now ≡ length sizes.now }
    requires long { length starts.now ≡ length sizes.now + 1 }
    requires each { (k : ℕ) → k ≤ length sizes.now → slice_index starts.now k ≡ start sizes.now k }
    ensures { result ≡ first_far sizes.now 0 insns.now }
{
    for at in 0..insns.len() {
        if is_far(&insns[at], at, starts, sizes) {
            return Some(at);
        }
    }
    None
}
