//! Values, which may hold values.

ghost use Rattle.std.specs.Prelude.{◌≡◌, ◌+◌, ◌<◌, ◌≤◌, ◌^◌, ℕ, All, length, IfOk, OnOk, IsTrue, vec_len};
ghost use Rattle.dex_base.specs.Reading.{Gives};
ghost use Rattle.dex_pools.specs.Fault.{is_free};
ghost use Rattle.dex_pools.specs.Run.{run};
ghost use Rattle.dex_pools.specs.Value.{is_within, most_argument, counted, array_in, element_in, note_in, of_kind, value_in, value_at};
ghost use Rattle.dex_pools.specs.ValueRange.{ValueInRange, ElementInRange, NoteInRange};

use crate::fault::{PoolFault, Table};
use crate::items::take_counted;
use crate::order::ascends;
use crate::scalar::{TableSizes, byte_of, is_within, number_index_of, scalar_of};
use crate::word::number_of;
use program_model::{Counted, Element, EncValue, Note};
use seq::Seq;
use std::alloc::Global;

/// The value at `at`, in which values may lie so deep, itself counted, and the place behind it. `left` is what the
/// entries read before leave of the items.
#[cycle(values)]
pub fn value_of(
    alloc: Global,
    bytes: &[u8],
    sizes: TableSizes,
    at: usize,
    depth: u32,
    left: &mut u32,
) -> Result<(EncValue, usize), PoolFault>
    ensures gives { Gives is_free (λ r. (r.0, (r.1, left.new))) result (value_at depth bytes.now sizes (at, left.old)) }
    ensures range { IfOk result (λ r. ValueInRange sizes r.0) }
    ensures behind { IfOk result (λ r. at < r.1) }
    ensures inside { IfOk result (λ r. r.1 ≤ length bytes.now) }
{
    if depth == 0 {
        return Err(PoolFault::Deep { at });
    }
    tagged_of(alloc, bytes, sizes, at, depth - 1, left)
}

/// The value at `at`, in which values may lie so deep, itself not counted.
#[cycle(values)]
#[tactic(auto, unfolding(crate::specs::Value::value_in))]
fn tagged_of(
    alloc: Global,
    bytes: &[u8],
    sizes: TableSizes,
    at: usize,
    depth: u32,
    left: &mut u32,
) -> Result<(EncValue, usize), PoolFault>
    ensures gives { Gives is_free (λ r. (r.0, (r.1, left.new))) result (value_in (value_at depth bytes.now sizes) bytes.now sizes (at, left.old)) }
    ensures range { IfOk result (λ r. ValueInRange sizes r.0) }
    ensures behind { IfOk result (λ r. at < r.1) }
    ensures inside { IfOk result (λ r. r.1 ≤ length bytes.now) }
{
    let tag = byte_of(bytes, at)?;
    let kind = tag % 32;
    let argument = tag / 32;
    if !is_within(kind, argument) {
        return Err(PoolFault::BadValue { at });
    }
    kind_of(alloc, bytes, sizes, at, kind, argument, depth, left)
}

/// The value of this type and argument, whose first byte stands at `at`.
#[cycle(values)]
#[tactic(auto, using(crate::proofs::Ranges::array_fits))]
fn kind_of(
    alloc: Global,
    bytes: &[u8],
    sizes: TableSizes,
    at: usize,
    kind: u8,
    argument: u8,
    depth: u32,
    left: &mut u32,
) -> Result<(EncValue, usize), PoolFault>
    requires place { at < length bytes.now }
    requires within { IsTrue (is_within argument (most_argument kind)) }
    ensures gives { Gives is_free (λ r. (r.0, (r.1, left.new))) result (of_kind (value_at depth bytes.now sizes) bytes.now sizes (at, left.old) kind argument) }
    ensures range { IfOk result (λ r. ValueInRange sizes r.0) }
    ensures behind { IfOk result (λ r. at < r.1) }
    ensures inside { IfOk result (λ r. r.1 ≤ length bytes.now) }
{
    match kind {
        0x1c => {
            let (values, next) = array_of(alloc, bytes, sizes, at + 1, depth, left)?;
            Ok((EncValue::Array(Seq::of_vec(values)), next))
        }
        0x1d => {
            let (note, next) = note_of(alloc, bytes, sizes, at + 1, depth, left)?;
            Ok((EncValue::Annotation(note), next))
        }
        0x1e => Ok((EncValue::Null, at + 1)),
        0x1f => Ok((EncValue::Bool(argument == 1), at + 1)),
        _ => {
            let count = argument as usize + 1;
            let value = scalar_of(bytes, sizes, at, kind, count)?;
            Ok((value, at + 1 + count))
        }
    }
}

/// The values of the array at `at`.
#[cycle(values)]
#[tactic(auto, unfolding(crate::specs::Value::array_in))]
fn array_of(
    alloc: Global,
    bytes: &[u8],
    sizes: TableSizes,
    at: usize,
    depth: u32,
    left: &mut u32,
) -> Result<(Vec<EncValue>, usize), PoolFault>
    ensures gives { Gives is_free (λ r. (r.0.items, (r.1, left.new))) result (array_in (value_at depth bytes.now sizes) bytes.now (at, left.old)) }
    ensures range { IfOk result (λ r. All (ValueInRange sizes) r.0.items) }
    ensures behind { IfOk result (λ r. at < r.1) }
    ensures inside { IfOk result (λ r. r.1 ≤ length bytes.now) }
{
    let (count, next) = number_of(bytes, at)?;
    values_of(alloc, bytes, sizes, next, count, depth, left)
}

/// So many values one behind another, each of which is counted.
#[cycle(values)]
fn values_of(
    alloc: Global,
    bytes: &[u8],
    sizes: TableSizes,
    at: usize,
    count: u32,
    depth: u32,
    left: &mut u32,
) -> Result<(Vec<EncValue>, usize), PoolFault>
    requires { at ≤ length bytes.now }
    ensures gives { Gives is_free (λ r. (r.0.items, (r.1, left.new))) result (run (counted (value_at depth bytes.now sizes)) 0 count (at, left.old)) }
    ensures range { IfOk result (λ r. All (ValueInRange sizes) r.0.items) }
    ensures behind { IfOk result (λ r. at ≤ r.1) }
    ensures inside { IfOk result (λ r. r.1 ≤ length bytes.now) }
{
    let mut found = Vec::new(alloc);
    let mut place = at;
    'values: for _ in 0..count {
        let (value, next) = counted_of(alloc, bytes, sizes, place, depth, left)?;
        found.push(value)?;
        place = next;
    }
    Ok((found, place))
}

/// An entry of an array, which is counted.
#[cycle(values)]
fn counted_of(
    alloc: Global,
    bytes: &[u8],
    sizes: TableSizes,
    at: usize,
    depth: u32,
    left: &mut u32,
) -> Result<(EncValue, usize), PoolFault>
    ensures gives { (i : ℕ) → Gives is_free (λ r. (r.0, (r.1, left.new))) result (counted (value_at depth bytes.now sizes) i (at, left.old)) }
    ensures range { IfOk result (λ r. ValueInRange sizes r.0) }
    ensures behind { IfOk result (λ r. at < r.1) }
    ensures inside { IfOk result (λ r. r.1 ≤ length bytes.now) }
{
    take_counted(Counted::Items, 1, left)?;
    value_of(alloc, bytes, sizes, at, depth, left)
}

/// The annotation at `at`, which has no visibility, and the place behind it.
#[cycle(values)]
#[tactic(auto, using(crate::proofs::Ranges::note_fits_lem), unfolding(crate::specs::Value::note_in))]
pub fn note_of(
    alloc: Global,
    bytes: &[u8],
    sizes: TableSizes,
    at: usize,
    depth: u32,
    left: &mut u32,
) -> Result<(Note, usize), PoolFault>
    ensures gives { Gives is_free (λ r. (r.0, (r.1, left.new))) result (note_in (value_at depth bytes.now sizes) bytes.now sizes (at, left.old)) }
    ensures range { IfOk result (λ r. NoteInRange sizes r.0) }
    ensures behind { IfOk result (λ r. at < r.1) }
    ensures inside { IfOk result (λ r. r.1 ≤ length bytes.now) }
{
    let (class, next) = number_index_of(bytes, at, sizes.types)?;
    let (count, next) = number_of(bytes, next)?;
    let (elements, next) = elements_of(alloc, bytes, sizes, next, count, depth, left)?;
    ascends(&elements, Table::Members)?;
    let elements = Seq::of_vec(elements);
    Ok((Note { class, elements }, next))
}

/// So many elements one behind another.
#[cycle(values)]
fn elements_of(
    alloc: Global,
    bytes: &[u8],
    sizes: TableSizes,
    at: usize,
    count: u32,
    depth: u32,
    left: &mut u32,
) -> Result<(Vec<Element>, usize), PoolFault>
    requires { at ≤ length bytes.now }
    ensures gives { Gives is_free (λ r. (r.0.items, (r.1, left.new))) result (run (element_in (value_at depth bytes.now sizes) bytes.now sizes) 0 count (at, left.old)) }
    ensures numbered { IfOk result (λ r. vec_len r.0 < 2 ^ 32) }
    ensures range { IfOk result (λ r. All (ElementInRange sizes) r.0.items) }
    ensures behind { IfOk result (λ r. at ≤ r.1) }
    ensures inside { IfOk result (λ r. r.1 ≤ length bytes.now) }
{
    let mut found = Vec::new(alloc);
    let mut place = at;
    'elements: for _ in 0..count {
        let (element, next) = element_of(alloc, bytes, sizes, place, depth, left)?;
        found.push(element)?;
        place = next;
    }
    Ok((found, place))
}

/// The element at `at`, which is counted.
#[cycle(values)]
#[tactic(auto, unfolding(crate::specs::Value::element_in))]
fn element_of(
    alloc: Global,
    bytes: &[u8],
    sizes: TableSizes,
    at: usize,
    depth: u32,
    left: &mut u32,
) -> Result<(Element, usize), PoolFault>
    ensures gives { (i : ℕ) → Gives is_free (λ r. (r.0, (r.1, left.new))) result (element_in (value_at depth bytes.now sizes) bytes.now sizes i (at, left.old)) }
    ensures range { IfOk result (λ r. ElementInRange sizes r.0) }
    ensures behind { IfOk result (λ r. at < r.1) }
    ensures inside { IfOk result (λ r. r.1 ≤ length bytes.now) }
{
    take_counted(Counted::Items, 1, left)?;
    let (name, next) = number_index_of(bytes, at, sizes.strings)?;
    let (value, next) = value_of(alloc, bytes, sizes, next, depth, left)?;
    Ok((Element { name, value }, next))
}
