//! The loops over what the runtime opens. They go by what a reader has left and by what a writer holds, where those
//! are known.

ghost use Rattle.std.specs.Prelude.{◌≡◌, ◌<◌, ◌≤◌, ◌+◌, ◌^◌, ℕ, List, take, drop, length, vec_len, IfOk, IsErrOf, OnOk, OnErr};
ghost use Rattle.std.specs.Io.KnownBytes.{Appends, Consumes, IsAtEnd};

use crate::shelf::FetchFault;
use std::alloc::{AllocError, Global};
use std::io;
use std::io::{ErrorKind, Read, Write};

/// The least room for the first read, in bytes.
const PIECE: usize = 8 * 1024;

/// How long the buffer is to be for the next read: as long as the file is expected to be and one byte more, for the
/// read that finds its end, then twice as long each time, and never longer than one byte past the limit.
fn next_room(filled: usize, expected: usize, limit: usize) -> usize
    requires within { filled ≤ limit }
    requires small { filled < 2 ^ 63 }
    ensures more { filled < result }
    ensures most { result ≤ limit + 1 }
{
    expected
        .max(filled + filled)
        .saturating_add(1)
        .max(PIECE)
        .min(limit.saturating_add(1))
}

/// Makes the buffer so long, and no longer.
fn make_room(bytes: &mut Vec<u8>, room: usize) -> Result<(), AllocError>
    requires { vec_len bytes.old < room }
    ensures len { OnOk result (vec_len bytes.new ≡ room) }
    ensures most { vec_len bytes.new ≤ room }
    ensures kept { vec_len bytes.old ≤ vec_len bytes.new }
    ensures front { take (vec_len bytes.old) bytes.new.items ≡ bytes.old.items }
{
    bytes.reserve_exact(room - bytes.len())?;
    bytes.resize(room, 0)
}

/// One read into the buffer from `at` on.
fn read_at<F: Read>(file: &mut F, bytes: &mut [u8], at: usize) -> io::Result<usize>
    requires { at < length bytes.old }
    ensures front { take at bytes.new ≡ take at bytes.old }
    ensures fits { IfOk result (λ n. at + n ≤ length bytes.new) }
    ensures ok { IfOk result (λ n. Consumes (F.remaining file.old) (F.remaining file.new) (take n (drop at bytes.new))) }
    ensures end { IfOk result (λ n. n ≡ 0 → IsAtEnd (F.remaining file.new)) }
{
    file.read(&mut bytes[at..])
}

/// One read behind what is filled, for which it makes room where there is none. 0 means that the file has ended.
fn read_more<F: Read>(
    file: &mut F,
    bytes: &mut Vec<u8>,
    filled: usize,
    expected: usize,
    limit: usize,
) -> Result<usize, FetchFault>
    requires filled { filled ≤ vec_len bytes.old }
    requires within { filled ≤ limit }
    requires most { vec_len bytes.old ≤ limit + 1 }
    ensures front { take filled bytes.new.items ≡ take filled bytes.old.items }
    ensures fits { IfOk result (λ n. filled + n ≤ vec_len bytes.new) }
    ensures kept { filled ≤ vec_len bytes.new }
    ensures most { vec_len bytes.new ≤ limit + 1 }
    ensures bytes { IfOk result (λ n. Consumes (F.remaining file.old) (F.remaining file.new) (take n (drop filled bytes.new.items))) }
    ensures end { IfOk result (λ n. n ≡ 0 → IsAtEnd (F.remaining file.new)) }
    ensures no_limit { (taken : ℕ) → IsErrOf result (FetchFault.TooLong taken) → ⊥ }
{
    if filled == bytes.len() {
        make_room(bytes, next_room(filled, expected, limit))?;
    }
    match read_at(file, bytes.as_mut_slice(), filled) {
        Ok(n) => Ok(n),
        Err(_) => Err(FetchFault::Failed),
    }
}

/// Reads to the end of a file that is expected to be so long. Where it has more bytes than the limit, it takes one
/// more than those.
pub fn read_all<F: Read>(
    alloc: Global,
    file: &mut F,
    expected: usize,
    limit: usize,
) -> Result<Vec<u8>, FetchFault>
    ensures bytes { IfOk result (λ bytes. Consumes (F.remaining file.old) (F.remaining file.new) bytes.items) }
    ensures end { OnOk result (IsAtEnd (F.remaining file.new)) }
    ensures limit { IfOk result (λ bytes. vec_len bytes ≤ limit) }
    ensures taken { (taken : ℕ) → IsErrOf result (FetchFault.TooLong taken) → taken ≡ limit + 1 }
    ensures too_long { (taken : ℕ) → IsErrOf result (FetchFault.TooLong taken) → (bytes : List ℕ) × Consumes (F.remaining file.old) (F.remaining file.new) bytes × (length bytes ≡ limit + 1) }
{
    let mut bytes = Vec::new(alloc);
    let mut filled = 0;
    while filled <= limit {
        match read_more(file, &mut bytes, filled, expected, limit) {
            Ok(0) => {
                bytes.truncate(filled);
                return Ok(bytes);
            }
            Ok(n) => filled += n,
            Err(fault) => return Err(fault),
        }
    }
    Err(FetchFault::TooLong { taken: filled })
}

/// Writes all bytes. A write that takes nothing is an error.
pub fn write_all<W: Write>(to: &mut W, bytes: &[u8]) -> io::Result<()>
    ensures ok { OnOk result (Appends (W.contents to.old) (W.contents to.new) bytes.now) }
    ensures err { OnErr result ((kept : ℕ) × Appends (W.contents to.old) (W.contents to.new) (take kept bytes.now)) }
{
    let mut rest = bytes;
    while !rest.is_empty() {
        match to.write(rest) {
            Ok(0) => return Err(io::Error::from(ErrorKind::WriteZero)),
            Ok(n) => rest = &rest[n..],
            Err(fault) => return Err(fault),
        }
    }
    Ok(())
}
