//! The opcodes of a debug item.

ghost use Rattle.std.specs.Prelude.{◌≡◌, ◌<◌, ◌≤◌, ◌^◌, ◌+◌, length, pos, IfSome};
ghost use Rattle.line_tables.specs.Item.{skip_at, effect_at, opcode_at, moved_by};

use dex_base::{BaseFault, read_sleb, read_uleb};

/// The highest line and the highest address.
pub const HIGHEST: u32 = 0x7fff_ffff;

/// What becomes of the item behind an opcode.
#[derive(Clone, Copy, Debug)]
pub enum Kind {
    /// It goes on.
    Step,
    /// It has an entry here, and goes on.
    Entry,
    /// It ends.
    End,
}

/// What an opcode does: what it adds to the address and to the line, and what becomes of the item.
#[derive(Clone, Copy, Debug)]
pub struct Effect {
    pub address: u32,
    pub line: i32,
    pub kind: Kind,
}

/// The place behind so many numbers.
pub fn skip(bytes: &[u8], at: usize, count: u32) -> Result<usize, BaseFault>
    ensures { result ≡ skip_at bytes.now count at }
{
    let mut next = at;
    for _ in 0..count {
        let (_, behind) = read_uleb(bytes, next)?;
        next = behind;
    }
    Ok(next)
}

/// An opcode without effect on address and line.
fn still(kind: Kind) -> Effect
    ensures { result ≡ record { address = 0; line = pos 0; kind = kind } }
{
    Effect {
        address: 0,
        line: 0,
        kind,
    }
}

/// What the opcode does whose operands begin at `at`, and the place behind them.
#[tactic(auto, unfolding(crate::specs::Item::effect_at))]
fn effect_of(bytes: &[u8], code: u8, at: usize) -> Result<(Effect, usize), BaseFault>
    ensures { result ≡ effect_at bytes.now code at }
{
    match code {
        0 => Ok((still(Kind::End), at)),
        1 => {
            let (address, behind) = read_uleb(bytes, at)?;
            Ok((
                Effect {
                    address,
                    ..still(Kind::Step)
                },
                behind,
            ))
        }
        2 => {
            let (line, behind) = read_sleb(bytes, at)?;
            Ok((
                Effect {
                    line,
                    ..still(Kind::Step)
                },
                behind,
            ))
        }
        3 => Ok((still(Kind::Step), skip(bytes, at, 3)?)),
        4 => Ok((still(Kind::Step), skip(bytes, at, 4)?)),
        5 | 6 | 9 => Ok((still(Kind::Step), skip(bytes, at, 1)?)),
        7 | 8 => Ok((still(Kind::Step), at)),
        _ => {
            let step = code - 10;
            Ok((
                Effect {
                    address: u32::from(step / 15),
                    line: i32::from(step % 15) - 4,
                    kind: Kind::Entry,
                },
                at,
            ))
        }
    }
}

/// What the opcode at `at` does, and the place behind it.
#[tactic(auto, unfolding(crate::specs::Item::opcode_at))]
pub fn read_opcode(bytes: &[u8], at: usize) -> Result<(Effect, usize), BaseFault>
    ensures { result ≡ opcode_at bytes.now at }
{
    if at >= bytes.len() {
        return Err(BaseFault::Short { at });
    }
    effect_of(bytes, bytes[at], at + 1)
}

/// The address and the line behind an opcode, where they stay from 0 to the highest.
#[tactic(auto, unfolding(crate::specs::Item::moved_by))]
pub fn moved(address: u32, line: u32, effect: &Effect) -> Option<(u32, u32)>
    requires address_low { address < 2 ^ 31 }
    requires line_low { line < 2 ^ 31 }
    ensures gives { result ≡ moved_by address line effect.now }
    ensures low { IfSome result (λ there. (there.0 < 2 ^ 31) × (there.1 < 2 ^ 31)) }
{
    let address = u64::from(address) + u64::from(effect.address);
    let line = i64::from(line) + i64::from(effect.line);
    if address <= u64::from(HIGHEST) && 0 <= line && line <= i64::from(HIGHEST) {
        Some((address as u32, line as u32))
    } else {
        None
    }
}
