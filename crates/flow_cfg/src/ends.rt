//! Where the parts of an order end.

ghost use Rattle.std.specs.Prelude.{◌≡◌, ℕ, ◌+◌, ◌<◌, ◌≤◌, ◌^◌, length, IfOk, slice_index, All};
ghost use Rattle.flow_cfg.specs.Parts.{AreEnds, NestFrom, Nest, IsHeld, NoSmaller, HaveCauses, AreCausedSo, IsGrownFor, IsSetFor, StayAlone, HasSource, HaveSources};

use std::alloc::{AllocError, Global};

/// An end behind each place.
fn single_ends(alloc: Global, places: &[u32]) -> Result<Vec<u32>, AllocError>
    requires { length places.now < 2 ^ 32 }
    ensures long { IfOk result (λ v. length v.items ≡ length places.now) }
    ensures ends { IfOk result (λ v. AreEnds v.items) }
    ensures single { IfOk result (λ v. (i : ℕ) → i < length v.items → slice_index v.items i ≡ i + 1) }
{
    let mut ends = Vec::with_capacity(alloc, places.len())?;
    let mut end = 0;
    for _ in places {
        end += 1;
        ends.push(end)?;
    }
    Ok(ends)
}

/// Lets the part at a place hold a place that stands behind it.
fn hold(ends: &mut [u32], head: u32, place: u32)
    requires small { length ends.old < 2 ^ 32 }
    requires head { head < length ends.old }
    requires place { place < length ends.old }
    requires ends { AreEnds ends.old }
    ensures ends { AreEnds ends.new }
    ensures grown { NoSmaller ends.old ends.new }
    ensures held { head ≤ place → place < slice_index ends.new head }
    ensures caused { IsSetFor head place ends.old ends.new }
{
    if head <= place && ends[head as usize] <= place {
        ends[head as usize] = place + 1;
    }
}

/// Lets the part at the target of an edge hold the edge's source, unless the edge goes forwards or isn't between nodes.
fn hold_edge(ends: &mut [u32], places: &[u32], from: u32, to: u32)
    requires small { length places.now < 2 ^ 32 }
    requires long { length ends.old ≡ length places.now }
    requires places { All (λ p. p < length places.now) places.now }
    requires ends { AreEnds ends.old }
    ensures ends { AreEnds ends.new }
    ensures grown { NoSmaller ends.old ends.new }
    ensures held { IsHeld places.now ends.new (from, to) }
    ensures caused { IsGrownFor places.now (from, to) ends.old ends.new }
{
    let from = from as usize;
    let to = to as usize;
    if from < places.len() && to < places.len() {
        hold(ends, places[to], places[from]);
    }
}

/// The least ends with which each edge that doesn't go forwards goes to the head of a part that holds its source.
fn holding_ends(alloc: Global, places: &[u32], edges: &[(u32, u32)]) -> Result<Vec<u32>, AllocError>
    requires small { length places.now < 2 ^ 32 }
    requires places { All (λ p. p < length places.now) places.now }
    ensures long { IfOk result (λ v. length v.items ≡ length places.now) }
    ensures ends { IfOk result (λ v. AreEnds v.items) }
    ensures held { IfOk result (λ v. All (IsHeld places.now v.items) edges.now) }
    ensures caused { IfOk result (λ v. HaveCauses places.now v.items edges.now (length edges.now)) }
{
    let mut ends = single_ends(alloc, places)?;
    for (from, to) in edges {
        hold_edge(ends.as_mut_slice(), places, *from, *to);
    }
    Ok(ends)
}

/// The least end of the part at a place with which it holds each part that begins in it.
fn whole_end(ends: &[u32], head: usize) -> u32
    requires head { head < length ends.now }
    requires ends { AreEnds ends.now }
    requires nest { NestFrom ends.now (head + 1) }
    ensures grown { slice_index ends.now head ≤ result }
    ensures within { result ≤ length ends.now }
    ensures holds { (i : ℕ) → head < i → i < result → slice_index ends.now i ≤ result }
    ensures alone { slice_index ends.now head ≡ head + 1 → result ≡ head + 1 }
    ensures source { HasSource ends.now head result }
{
    let mut end = ends[head];
    let mut place = head + 1;
    while place < end as usize {
        end = end.max(ends[place]);
        place = ends[place] as usize;
    }
    end
}

/// Lets each part hold the parts that begin in it. The parts behind a place are nested before it is looked at, so a part
/// is passed over only for the part that holds it directly.
fn nest(ends: &mut [u32])
    requires { AreEnds ends.old }
    ensures ends { AreEnds ends.new }
    ensures grown { NoSmaller ends.old ends.new }
    ensures nest { Nest ends.new }
    ensures alone { StayAlone ends.old ends.new }
    ensures sources { HaveSources ends.old ends.new }
{
    for head in (0..ends.len()).rev() {
        ends[head] = whole_end(ends, head);
    }
}

/// The least ends with which parts nest and each edge that doesn't go forwards goes to the head of a part that holds its
/// source.
pub(crate) fn ends_of(
    alloc: Global,
    places: &[u32],
    edges: &[(u32, u32)],
) -> Result<Vec<u32>, AllocError>
    requires small { length places.now < 2 ^ 32 }
    requires places { All (λ p. p < length places.now) places.now }
    ensures long { IfOk result (λ v. length v.items ≡ length places.now) }
    ensures ends { IfOk result (λ v. AreEnds v.items) }
    ensures nest { IfOk result (λ v. Nest v.items) }
    ensures held { IfOk result (λ v. All (IsHeld places.now v.items) edges.now) }
    ensures caused { IfOk result (λ v. AreCausedSo places.now v.items edges.now) }
{
    let mut ends = holding_ends(alloc, places, edges)?;
    nest(ends.as_mut_slice());
    Ok(ends)
}
