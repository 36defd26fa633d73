//! The readings of the layers below, with their faults as a file's.

ghost use Rattle.std.specs.Prelude.{◌≡◌, ◌+◌, ◌*◌, ◌<◌, ◌≤◌, List, ℕ, length, drop, IfOk, OnOk, IfErr};
ghost use Rattle.dex_base.specs.Reading.{Gives, raise};
ghost use Rattle.program_model.specs.declared.limits.Counted.TheVariants.{Items};
ghost use Rattle.dex_pools.specs.Items.{spend, type_list_at};
ghost use Rattle.dex_pools.specs.Marks.{marks_at, parameters_marks_at};
ghost use Rattle.dex_pools.specs.PoolTables.{pools_at};
ghost use Rattle.dex_pools.specs.Value.{whole_value_at};
ghost use Rattle.dex_read.specs.Counts.{CountsInFile};
ghost use Rattle.dex_read.specs.Faults.{is_free, of_pool};
ghost use Rattle.dex_read.specs.Word.{half_at, word_at, number_at};

use crate::fault::DexFault;
use dex_base::{read_u16, read_u32, read_uleb};
use dex_pools::{
    Pools, TableSizes, read_annotations_counted, read_parameter_annotations, read_pools_counted,
    read_type_list, read_value_counted, take_counted,
};
use program_model::{Counted, EncValue, Mark};
use seq::Seq;
use std::alloc::Global;

/// The bytes from `at` on; none where they end before.
pub fn rest_of(bytes: &[u8], at: usize) -> &[u8]
    ensures { result.now ≡ drop at bytes.now }
{
    if at <= bytes.len() { &bytes[at..] } else { &[] }
}

/// The number in the two bytes at `at`.
pub fn half_of(bytes: &[u8], at: usize) -> Result<u16, DexFault>
    ensures gives { Gives is_free (λ n. n) result (half_at bytes.now at) }
    ensures counts { IfErr result CountsInFile }
    ensures inside { OnOk result (at + 2 ≤ length bytes.now) }
{
    Ok(read_u16(bytes, at)?)
}

/// The number in the four bytes at `at`.
pub fn word_of(bytes: &[u8], at: usize) -> Result<u32, DexFault>
    ensures gives { Gives is_free (λ n. n) result (word_at bytes.now at) }
    ensures counts { IfErr result CountsInFile }
    ensures inside { OnOk result (at + 4 ≤ length bytes.now) }
{
    Ok(read_u32(bytes, at)?)
}

/// The number in LEB128 at `at`, and the place behind it.
pub fn number_of(bytes: &[u8], at: usize) -> Result<(u32, usize), DexFault>
    ensures gives { Gives is_free (λ n. n) result (number_at bytes.now at) }
    ensures counts { IfErr result CountsInFile }
    ensures behind { IfOk result (λ read. at < read.1) }
    ensures inside { IfOk result (λ read. read.1 ≤ length bytes.now) }
{
    Ok(read_uleb(bytes, at)?)
}

/// Takes so many from what is left of the items.
pub fn take_items(count: u32, left: &mut u32) -> Result<(), DexFault>
    ensures gives { Gives is_free (λ u. left.new) result (raise of_pool (spend Items count left.old)) }
    ensures counts { IfErr result CountsInFile }
{
    Ok(take_counted(Counted::Items, count, left)?)
}

/// The list of types at `at`.
pub fn types_of(
    alloc: Global,
    bytes: &[u8],
    at: usize,
    size: u32,
    left: &mut u32,
) -> Result<Vec<u32>, DexFault>
    ensures gives { Gives is_free (λ v. (v.items, left.new)) result (raise of_pool (type_list_at bytes.now at size left.old)) }
    ensures counts { IfErr result CountsInFile }
{
    Ok(read_type_list(alloc, bytes, at, size, left)?)
}

/// The value at `at`, and the place behind it.
pub fn value_of(
    alloc: Global,
    bytes: &[u8],
    at: usize,
    sizes: TableSizes,
    left: &mut u32,
) -> Result<(EncValue, usize), DexFault>
    ensures gives { Gives is_free (λ r. (r.0, (r.1, left.new))) result (raise of_pool (whole_value_at bytes.now sizes (at, left.old))) }
    ensures counts { IfErr result CountsInFile }
    ensures inside { IfOk result (λ r. r.1 ≤ length bytes.now) }
{
    Ok(read_value_counted(alloc, bytes, at, sizes, left)?)
}

/// The set of annotations at `at`.
pub fn marks_of(
    alloc: Global,
    bytes: &[u8],
    at: usize,
    sizes: TableSizes,
    left: &mut u32,
) -> Result<Vec<Mark>, DexFault>
    ensures gives { Gives is_free (λ v. (v.items, left.new)) result (raise of_pool (marks_at bytes.now sizes at left.old)) }
    ensures counts { IfErr result CountsInFile }
{
    Ok(read_annotations_counted(alloc, bytes, at, sizes, left)?)
}

/// The sets of annotations of parameters that the list at `at` names.
pub fn parameter_marks_of(
    alloc: Global,
    bytes: &[u8],
    at: usize,
    sizes: TableSizes,
    left: &mut u32,
) -> Result<Vec<Seq<Mark>>, DexFault>
    ensures gives { Gives is_free (λ v. (v.items, left.new)) result (raise of_pool (parameters_marks_at bytes.now sizes at left.old)) }
    ensures counts { IfErr result CountsInFile }
{
    Ok(read_parameter_annotations(alloc, bytes, at, sizes, left)?)
}

/// The tables that the header names.
pub fn pools_of(alloc: Global, bytes: &[u8], left: &mut u32) -> Result<Pools, DexFault>
    ensures gives { Gives is_free (λ pools. (pools, left.new)) result (raise of_pool (pools_at bytes.now left.old)) }
    ensures counts { IfErr result CountsInFile }
{
    Ok(read_pools_counted(alloc, bytes, left)?)
}
