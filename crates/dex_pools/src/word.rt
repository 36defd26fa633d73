//! Numbers and indexes at places of the file.

ghost use Rattle.std.specs.Prelude.{◌≡◌, ◌+◌, ◌<◌, ◌≤◌, length, OnOk, IfOk};
ghost use Rattle.dex_base.specs.Reading.{Gives};
ghost use Rattle.dex_pools.specs.Fault.{is_free};
ghost use Rattle.dex_pools.specs.Word.{half_at, word_at, number_at, index_at, half_index_at};

use crate::fault::PoolFault;
use dex_base::{read_u16, read_u32, read_uleb};

/// The number in the two bytes at `at`.
pub fn half_of(bytes: &[u8], at: usize) -> Result<u16, PoolFault>
    ensures gives { Gives is_free (λ n. n) result (half_at bytes.now at) }
    ensures inside { OnOk result (at + 2 ≤ length bytes.now) }
{
    Ok(read_u16(bytes, at)?)
}

/// The number in the four bytes at `at`.
pub fn word_of(bytes: &[u8], at: usize) -> Result<u32, PoolFault>
    ensures gives { Gives is_free (λ n. n) result (word_at bytes.now at) }
    ensures inside { OnOk result (at + 4 ≤ length bytes.now) }
{
    Ok(read_u32(bytes, at)?)
}

/// The number in LEB128 at `at`, and the place behind it.
pub fn number_of(bytes: &[u8], at: usize) -> Result<(u32, usize), PoolFault>
    ensures gives { Gives is_free (λ n. n) result (number_at bytes.now at) }
    ensures behind { IfOk result (λ read. at < read.1) }
    ensures inside { IfOk result (λ read. read.1 ≤ length bytes.now) }
{
    Ok(read_uleb(bytes, at)?)
}

/// The index in the four bytes at `at`, which has to be below `size`.
#[tactic(auto, unfolding(crate::specs::Word::index_at))]
pub fn index_of(bytes: &[u8], at: usize, size: u32) -> Result<u32, PoolFault>
    ensures gives { Gives is_free (λ n. n) result (index_at bytes.now at size) }
    ensures inside { OnOk result (at + 4 ≤ length bytes.now) }
    ensures below { IfOk result (λ n. n < size) }
{
    let value = word_of(bytes, at)?;
    if value < size {
        Ok(value)
    } else {
        Err(PoolFault::Index { at, value, size })
    }
}

/// The index in the two bytes at `at`, which has to be below `size`.
#[tactic(auto, unfolding(crate::specs::Word::half_index_at))]
pub fn half_index_of(bytes: &[u8], at: usize, size: u32) -> Result<u32, PoolFault>
    ensures gives { Gives is_free (λ n. n) result (half_index_at bytes.now at size) }
    ensures inside { OnOk result (at + 2 ≤ length bytes.now) }
    ensures below { IfOk result (λ n. n < size) }
{
    let value = u32::from(half_of(bytes, at)?);
    if value < size {
        Ok(value)
    } else {
        Err(PoolFault::Index { at, value, size })
    }
}
