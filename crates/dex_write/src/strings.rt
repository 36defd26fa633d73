//! Texts (Dalvik executable format, "string_data_item").

ghost use Rattle.std.specs.Prelude.{◌≡◌, ◌++◌, IfOk, OnOk, slice_get};
ghost use Rattle.dex_write.specs.Numbers.{Placed};
ghost use Rattle.dex_write.specs.Data.{string_in, string_texts};

use crate::numbers::{Items, offset_of, word_of};
use dex_base::{Text, write_text, write_uleb};
use seq::Seq;
use std::alloc::{AllocError, Global};

/// Adds the string of a number.
fn push_string(out: &mut Vec<u8>, strings: &[Text], old: u32) -> Result<(), AllocError>
    ensures { OnOk result (out.new.items ≡ out.old.items ++ string_in (slice_get strings.now old)) }
{
    let Some(text) = strings.get(old as usize) else {
        return Ok(());
    };
    write_uleb(out, word_of(text.units().len())?)?;
    write_text(out, text)
}

/// The strings of these numbers.
pub fn all_strings(
    alloc: Global,
    strings: &[Text],
    order: &[u32],
    base: u32,
) -> Result<Items, AllocError>
    ensures { IfOk result (Placed base (string_texts strings.now order.now)) }
{
    let mut bytes = Vec::new(alloc);
    let mut offsets = Vec::with_capacity(alloc, order.len())?;
    for old in order {
        let begin = bytes.len();
        push_string(&mut bytes, strings, *old)?;
        offsets.push(offset_of(base, begin, bytes.len())?)?;
    }
    Ok(Items {
        bytes: Seq::of_vec(bytes),
        offsets: Seq::of_vec(offsets),
    })
}
