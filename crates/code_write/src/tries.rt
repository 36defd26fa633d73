//! The ranges under handlers (Dalvik executable format, "try_item").

ghost use Rattle.std.specs.Prelude.{◌≡◌, ◌++◌, ◌<◌, length, IfOk, OnOk};
ghost use Rattle.code_write.specs.Tries.{short, try_units, tries_text};
ghost use Rattle.code_write.specs.Units.{unit_bytes};

use crate::bytes::push_units;
use crate::insn::place_at;
use crate::units::{high, low};
use program_model::Region;
use std::alloc::AllocError;

/// A number in 16 bits, the greatest one of these for every greater one.
fn short(number: u32) -> u16
    ensures { result ≡ short number }
{
    if number < 0xffff {
        number as u16
    } else {
        0xffff
    }
}

/// An offset in 16 bits, likewise.
fn short_offset(offset: usize) -> u16
    ensures { result ≡ short offset }
{
    offset.min(0xffff) as u16
}

/// Adds where the region begins, how many units it has, and where its list of handlers begins.
fn push_try(
    out: &mut Vec<u8>,
    region: &Region,
    starts: &[u32],
    end: u32,
    offset: usize,
) -> Result<(), AllocError>
    ensures { OnOk result (out.new.items ≡ out.old.items ++ unit_bytes (try_units starts.now end region.now offset)) }
{
    let first = place_at(starts, end, region.first as usize);
    let behind = place_at(starts, end, region.end as usize);
    push_units(
        out,
        &[
            low(first),
            high(first),
            short(behind.saturating_sub(first)),
            short_offset(offset),
        ],
    )
}

/// Adds the ranges of the regions.
pub(crate) fn push_tries(
    out: &mut Vec<u8>,
    regions: &[Region],
    starts: &[u32],
    end: u32,
    offsets: &[usize],
) -> Result<(), AllocError>
    requires { length offsets.now ≡ length regions.now }
    ensures { OnOk result (out.new.items ≡ out.old.items ++ tries_text starts.now end regions.now offsets.now) }
{
    for place in 0..regions.len() {
        push_try(out, &regions[place], starts, end, offsets[place])?;
    }
    Ok(())
}
