//! The header (Dalvik executable format, "header_item").

ghost use Rattle.std.specs.Prelude.{◌≡◌, ◌+◌, ◌≤◌, ◌<◌, ℕ, length, OnOk, IfErr, IsTrue};
ghost use Rattle.dex_base.specs.Reading.{Gives};
ghost use Rattle.dex_read.specs.Counts.{CountsInFile, is_in_file};
ghost use Rattle.dex_read.specs.Faults.{is_free};
ghost use Rattle.dex_read.specs.Header.{need_at, past, version_at, fixed_at, sum_at, size_at, header_at};

use crate::below::{rest_of, word_of};
use crate::fault::DexFault;
use dex_base::adler;
use program_model::{Counted, LimitFault, Version};

/// How many bytes the header has.
const HEADER: usize = 112;

/// The value at 40 of a file whose numbers are little-endian.
const ENDIAN: u32 = 0x1234_5678;

/// That so many bytes stand from `at` on; otherwise the item that begins there passes the end.
#[tactic(auto, unfolding(crate::specs::Header::need_at))]
pub fn need(bytes: &[u8], at: usize, count: usize) -> Result<(), DexFault>
    ensures gives { Gives is_free (λ u. u) result (need_at bytes.now at count) }
    ensures room { OnOk result (at + count ≤ length bytes.now) }
    ensures counts { IfErr result CountsInFile }
{
    if at <= bytes.len() && count <= bytes.len() - at {
        Ok(())
    } else {
        Err(DexFault::Short { at })
    }
}

/// A limit that is passed, by one.
pub fn passed(counted: Counted) -> DexFault
    requires { IsTrue (is_in_file counted) }
    ensures past { result ≡ past counted }
    ensures counts { CountsInFile result }
{
    DexFault::Limit(LimitFault {
        counted,
        number: counted.limit() + 1,
    })
}

/// The version that the first eight bytes name.
#[tactic(auto, unfolding(crate::specs::Header::version_at))]
fn version_of(bytes: &[u8]) -> Result<Version, DexFault>
    ensures gives { Gives is_free (λ v. v) result (version_at bytes.now) }
    ensures counts { IfErr result CountsInFile }
{
    if bytes.starts_with(b"dex\n035\0") {
        Ok(Version::V035)
    } else if bytes.starts_with(b"dex\n037\0") {
        Ok(Version::V037)
    } else {
        Err(DexFault::Magic)
    }
}

/// That a field of the header has its only value.
#[tactic(auto, unfolding(crate::specs::Header::fixed_at))]
fn check_field(bytes: &[u8], at: usize, wanted: usize) -> Result<(), DexFault>
    ensures gives { Gives is_free (λ u. u) result (fixed_at bytes.now at wanted) }
    ensures counts { IfErr result CountsInFile }
{
    let value = word_of(bytes, at)?;
    if value as usize == wanted {
        Ok(())
    } else {
        Err(DexFault::Header { at })
    }
}

/// That the number at 8 is the Adler-32 of all bytes behind it.
#[tactic(auto, unfolding(crate::specs::Header::sum_at))]
fn check_sum(bytes: &[u8]) -> Result<(), DexFault>
    requires { 12 ≤ length bytes.now }
    ensures gives { Gives is_free (λ u. u) result (sum_at bytes.now) }
    ensures counts { IfErr result CountsInFile }
{
    let stored = word_of(bytes, 8)?;
    let computed = adler(rest_of(bytes, 12));
    if stored == computed {
        Ok(())
    } else {
        Err(DexFault::Checksum { stored, computed })
    }
}

/// That a table whose size stands at `at` has no more entries than its limit.
#[tactic(auto, unfolding(crate::specs::Header::size_at))]
fn check_size(bytes: &[u8], at: usize, counted: Counted) -> Result<(), DexFault>
    requires { IsTrue (is_in_file counted) }
    ensures gives { Gives is_free (λ u. u) result (size_at bytes.now at counted) }
    ensures counts { IfErr result CountsInFile }
{
    let size = word_of(bytes, at)?;
    if u64::from(size) <= counted.limit() {
        Ok(())
    } else {
        Err(passed(counted))
    }
}

/// The version of the file, where the header has no fault and no table passes its limit. The faults come in the order
/// of the fields: fewer than 112 bytes, the magic, the size of the file, of the header, the order of bytes, the link
/// section, the checksum, and then the sizes of the tables.
#[tactic(auto, unfolding(crate::specs::Header::header_at))]
pub fn read_header(bytes: &[u8]) -> Result<Version, DexFault>
    ensures gives { Gives is_free (λ v. v) result (header_at bytes.now) }
    ensures counts { IfErr result CountsInFile }
{
    need(bytes, 0, HEADER)?;
    let version = version_of(bytes)?;
    check_field(bytes, 32, bytes.len())?;
    check_field(bytes, 36, HEADER)?;
    check_field(bytes, 40, ENDIAN as usize)?;
    check_field(bytes, 44, 0)?;
    check_sum(bytes)?;
    check_size(bytes, 64, Counted::Types)?;
    check_size(bytes, 72, Counted::Protos)?;
    check_size(bytes, 80, Counted::Fields)?;
    check_size(bytes, 88, Counted::Methods)?;
    Ok(version)
}
