//! The least sizes that have room.

ghost use Rattle.std.specs.Prelude.{◌≡◌, ◌+◌, ◌<◌, ◌≤◌, ◌^◌, ◌↔◌, ℕ, List, length, slice_index, IfOk, IsTrue, All};
ghost use Rattle.relax.specs.Steps.{IsSmall};
ghost use Rattle.relax.specs.Sizes.{start, forward, backward, need, grown, firsts, IsLeast};

use crate::step::Step;
use std::alloc::{AllocError, Global};

/// Where each position begins, and behind them where the code ends.
pub(crate) fn starts_of(alloc: Global, sizes: &[u32]) -> Result<Vec<u64>, AllocError>
    requires { All (λ s. s ≤ 5) sizes.now }
    ensures long { IfOk result (λ v. length v.items ≡ length sizes.now + 1) }
    ensures each { IfOk result (λ v. (k : ℕ) → k ≤ length sizes.now → slice_index v.items k ≡ start sizes.now k) }
{
    let mut starts = Vec::new(alloc);
    let mut at: u64 = 0;
    for size in sizes {
        starts.push(at)?;
        at += u64::from(*size);
    }
    starts.push(at)?;
    Ok(starts)
}

/// Where a position begins. Every position past the last one stands for the end of the code.
pub(crate) fn start_at(starts: &[u64], sizes: &[u32], position: u32) -> u64
    requires long { length starts.now ≡ length sizes.now + 1 }
    requires each { (k : ℕ) → k ≤ length sizes.now → slice_index starts.now k ≡ start sizes.now k }
    ensures { result ≡ start sizes.now position }
{
    let position = position as usize;
    if position < sizes.len() {
        starts[position]
    } else {
        starts[sizes.len()]
    }
}

/// The units of a goto so far forwards.
fn forward(far: u64) -> u32
    ensures { result ≡ forward far }
{
    if far <= 127 {
        1
    } else if far <= 32767 {
        2
    } else {
        3
    }
}

/// The units of a goto so far backwards.
fn backward(far: u64) -> u32
    ensures { result ≡ backward far }
{
    if far <= 128 {
        1
    } else if far <= 32768 {
        2
    } else {
        3
    }
}

/// The units of the shortest spelling of what stands at `at` that has room.
fn need_of(step: Step, at: usize, starts: &[u64], sizes: &[u32]) -> u32
    requires at { at < length sizes.now }
    requires long { length starts.now ≡ length sizes.now + 1 }
    requires each { (k : ℕ) → k ≤ length sizes.now → slice_index starts.now k ≡ start sizes.now k }
    ensures { result ≡ need sizes.now at step }
{
    match step {
        Step::Fixed { units } => units,
        Step::Jump { target } => {
            let from = starts[at];
            let to = start_at(starts, sizes, target);
            if target as usize == at {
                3
            } else if at < target as usize {
                forward(to.saturating_sub(from))
            } else {
                backward(from.saturating_sub(to))
            }
        }
    }
}

/// One round: each position gets room for what it needs now.
fn grow(
    alloc: Global,
    steps: &[Step],
    starts: &[u64],
    sizes: &[u32],
) -> Result<Vec<u32>, AllocError>
    requires same { length steps.now ≡ length sizes.now }
    requires long { length starts.now ≡ length sizes.now + 1 }
    requires each { (k : ℕ) → k ≤ length sizes.now → slice_index starts.now k ≡ start sizes.now k }
    ensures { IfOk result (λ v. v.items ≡ grown sizes.now 0 steps.now sizes.now) }
{
    let mut next = Vec::new(alloc);
    for i in 0..steps.len() {
        next.push(sizes[i].max(need_of(steps[i], i, starts, sizes)))?;
    }
    Ok(next)
}

/// A zero for each step.
fn first_sizes(alloc: Global, steps: &[Step]) -> Result<Vec<u32>, AllocError>
    ensures { IfOk result (λ v. v.items ≡ firsts steps.now) }
{
    Ok(vec![in alloc; 0; steps.len()]?)
}

fn same(a: &[u32], b: &[u32]) -> bool
    ensures { IsTrue result ↔ (a.now ≡ b.now) }
{
    a == b
}

/// The least sizes that have room. In each round some goto gets longer, which each does twice at most.
pub(crate) fn least_sizes(alloc: Global, steps: &[Step]) -> Result<Vec<u32>, AllocError>
    requires { All IsSmall steps.now }
    ensures least { IfOk result (λ v. IsLeast steps.now v.items) }
    ensures small { IfOk result (λ v. All (λ s. s ≤ 5) v.items) }
    ensures long { IfOk result (λ v. length v.items ≡ length steps.now) }
{
    let mut sizes = first_sizes(alloc, steps)?;
    let mut settled = false;
    while !settled {
        let starts = starts_of(alloc, &sizes)?;
        let next = grow(alloc, steps, &starts, &sizes)?;
        settled = same(&next, &sizes);
        sizes = next;
    }
    Ok(sizes)
}
