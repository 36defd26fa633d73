//! Bytes cut at a byte, and the front of a word.

ghost use Rattle.std.specs.Prelude.{◌≡◌, ◌==◌, IfOk, map, option_map};
ghost use Rattle.std.specs.List.{slice_split};
ghost use Rattle.text_defs.specs.Words.{behind};

use std::alloc::{AllocError, Global};

/// What stands between the bytes `at`. The only error is want of memory.
pub fn pieces(alloc: Global, bytes: &[u8], at: u8) -> Result<Vec<&[u8]>, AllocError>
    ensures { IfOk result (λ pieces. map (λ piece. piece.now) pieces.items ≡ slice_split (λ c. c == at) bytes.now) }
{
    bytes.split(|c| *c == at).collect(alloc)
}

/// What stands behind the front of a word.
pub fn behind<'a>(front: &[u8], word: &'a [u8]) -> Option<&'a [u8]>
    ensures { option_map (λ rest. rest.now) result ≡ behind front.now word.now }
{
    word.strip_prefix(front)
}
