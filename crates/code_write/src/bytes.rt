//! Units as bytes.

ghost use Rattle.std.specs.Prelude.{◌≡◌, ◌++◌, OnOk};
ghost use Rattle.code_write.specs.Units.{unit_bytes, pad_to_even};

use dex_base::write_u16;
use std::alloc::AllocError;

/// Adds the units, each as two bytes, little-endian.
pub(crate) fn push_units(out: &mut Vec<u8>, units: &[u16]) -> Result<(), AllocError>
    ensures { OnOk result (out.new.items ≡ out.old.items ++ unit_bytes units.now) }
{
    for unit in units {
        write_u16(out, *unit)?;
    }
    Ok(())
}

/// Adds a zero unit where the bytes end at an odd unit.
pub(crate) fn push_pad(out: &mut Vec<u8>) -> Result<(), AllocError>
    ensures { OnOk result (out.new.items ≡ pad_to_even out.old.items) }
{
    if out.len() % 4 >= 2 {
        push_units(out, &[0])?;
    }
    Ok(())
}
