//! Entries of lists, which are counted, and lists of types.

ghost use Rattle.std.specs.Prelude.{◌≡◌, ◌+◌, ◌-◌, ◌*◌, ◌<◌, ◌≤◌, ◌^◌, All, length, IfOk, OnOk, vec_len};
ghost use Rattle.dex_base.specs.Reading.{Gives};
ghost use Rattle.dex_pools.specs.Fault.{is_free};
ghost use Rattle.dex_pools.specs.Run.{run};
ghost use Rattle.dex_pools.specs.Items.{spend, count_at, listed_at, type_list_at};

use crate::fault::PoolFault;
use crate::word::{half_index_of, word_of};
use program_model::{Counted, LimitFault};
use std::alloc::Global;

/// Takes so many from what is left of the quantity. The fault is `Limit` where fewer are left, with the number that is
/// one past the limit.
#[tactic(auto, unfolding(crate::specs::Items::spend))]
pub fn take_counted(counted: Counted, count: u32, left: &mut u32) -> Result<(), PoolFault>
    ensures gives { Gives is_free (λ u. left.new) result (spend counted count left.old) }
{
    let has = *left;
    if has < count {
        return Err(PoolFault::Limit(LimitFault {
            counted,
            number: counted.limit() + 1,
        }));
    }
    *left = has - count;
    Ok(())
}

/// The count in the four bytes at `at`, behind which so many entries of `width` bytes stand; `Short` where they pass
/// the end.
#[tactic(auto, unfolding(crate::specs::Items::count_at))]
pub fn count_of(bytes: &[u8], at: usize, width: usize) -> Result<u32, PoolFault>
    requires { width < 2 ^ 16 }
    ensures gives { Gives is_free (λ n. n) result (count_at bytes.now at width) }
    ensures inside { IfOk result (λ count. at + 4 + width * count ≤ length bytes.now) }
{
    let count = word_of(bytes, at)?;
    if width * count as usize > bytes.len() - (at + 4) {
        return Err(PoolFault::Short { at });
    }
    Ok(count)
}

/// The entry at `i` of the list of types at `at`.
#[tactic(auto, unfolding(crate::specs::Items::listed_at))]
fn listed_of(bytes: &[u8], at: usize, size: u32, i: u32, left: &mut u32) -> Result<u32, PoolFault>
    requires { at + 4 + 2 * i ≤ length bytes.now }
    ensures gives { Gives is_free (λ n. (n, left.new)) result (listed_at bytes.now at size i left.old) }
    ensures below { IfOk result (λ n. n < size) }
{
    take_counted(Counted::Items, 1, left)?;
    half_index_of(bytes, at + 4 + 2 * i as usize, size)
}

/// So many entries of the list of types at `at`.
fn listed_types(
    alloc: Global,
    bytes: &[u8],
    at: usize,
    size: u32,
    count: u32,
    left: &mut u32,
) -> Result<Vec<u32>, PoolFault>
    requires { at + 4 + 2 * count ≤ length bytes.now }
    ensures gives { Gives is_free (λ v. (v.items, left.new)) result (run (listed_at bytes.now at size) 0 count left.old) }
    ensures below { IfOk result (λ v. All (λ n. n < size) v.items) }
{
    let mut found = Vec::new(alloc);
    for i in 0..count {
        let kind = listed_of(bytes, at, size, i, left)?;
        found.push(kind)?;
    }
    Ok(found)
}

/// The list of types at `at`, each below `size`. `left` is what the entries read before leave of the items, and falls
/// by one for each entry. Faults are `Short` at `at` where the list passes the end, `Index` at the entry and `Limit`
/// (Dalvik executable format, "type_list").
#[tactic(auto, unfolding(crate::specs::Items::type_list_at))]
pub fn read_type_list(
    alloc: Global,
    bytes: &[u8],
    at: usize,
    size: u32,
    left: &mut u32,
) -> Result<Vec<u32>, PoolFault>
    ensures gives { Gives is_free (λ v. (v.items, left.new)) result (type_list_at bytes.now at size left.old) }
    ensures below { IfOk result (λ v. All (λ n. n < size) v.items) }
{
    let count = count_of(bytes, at, 2)?;
    listed_types(alloc, bytes, at, size, count, left)
}
