//! Numbers of fixed width, little-endian.

ghost use Rattle.std.specs.Prelude.{◌≡◌, ◌+◌, ◌≤◌, ◌++◌, length, IsOk, OnOk, OnErr};
ghost use Rattle.std.specs.Int.{w16, w32, to_le_bytes};
ghost use Rattle.dex_base.specs.Word.{u16_at, u32_at};

use crate::fault::BaseFault;
use byteorder::{ByteOrder, LittleEndian};
use std::alloc::AllocError;

/// The number in the two bytes at `at`, little-endian. The only fault is `Short` at `at`, where the bytes end
/// before. No memory is taken.
#[tactic(auto, unfolding(crate::specs::Word::u16_at))]
pub fn read_u16(bytes: &[u8], at: usize) -> Result<u16, BaseFault>
    ensures gives { result ≡ u16_at bytes.now at }
    ensures inside { OnOk result (at + 2 ≤ length bytes.now) }
{
    if at > bytes.len() || bytes.len() - at < 2 {
        return Err(BaseFault::Short { at });
    }
    Ok(LittleEndian::read_u16(&bytes[at..at + 2]))
}

/// The number in the four bytes at `at`, little-endian. The only fault is `Short` at `at`, where the bytes end
/// before. No memory is taken.
#[tactic(auto, unfolding(crate::specs::Word::u32_at))]
pub fn read_u32(bytes: &[u8], at: usize) -> Result<u32, BaseFault>
    ensures gives { result ≡ u32_at bytes.now at }
    ensures inside { OnOk result (at + 4 ≤ length bytes.now) }
{
    if at > bytes.len() || bytes.len() - at < 4 {
        return Err(BaseFault::Short { at });
    }
    Ok(LittleEndian::read_u32(&bytes[at..at + 4]))
}

/// Adds the two bytes of the number at the end, little-endian. The only error is want of memory.
pub fn write_u16(out: &mut Vec<u8>, v: u16) -> Result<(), AllocError>
    ensures ok { OnOk result (out.new.items ≡ out.old.items ++ to_le_bytes w16 v) }
    ensures err { OnErr result (out.new.items ≡ out.old.items) }
{
    let mut two = [0; 2];
    LittleEndian::write_u16(&mut two, v);
    out.extend_from_slice(&two)
}

/// Adds the four bytes of the number at the end, little-endian. The only error is want of memory.
pub fn write_u32(out: &mut Vec<u8>, v: u32) -> Result<(), AllocError>
    ensures ok { OnOk result (out.new.items ≡ out.old.items ++ to_le_bytes w32 v) }
    ensures err { OnErr result (out.new.items ≡ out.old.items) }
{
    let mut four = [0; 4];
    LittleEndian::write_u32(&mut four, v);
    out.extend_from_slice(&four)
}
