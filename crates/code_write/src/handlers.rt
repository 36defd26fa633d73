//! The lists of handlers (Dalvik executable format, "encoded_catch_handler_list").

ghost use Rattle.std.specs.Prelude.{◌≡◌, ◌++◌, length, IfOk, OnOk};
ghost use Rattle.std.specs.List.{flat_map};
ghost use Rattle.code_write.specs.Handlers.{list_size, pair_text, rest_text, handlers_text};

use crate::insn::place_at;
use dex_base::{write_sleb, write_uleb};
use program_model::{Handler, Region, Renumber};
use relax::new_number;
use std::alloc::{AllocError, Global};

/// How many handlers, with the sign turned where there is a catch-all.
fn list_size(count: usize, has_rest: bool) -> i32
    ensures { result ≡ list_size count has_rest }
{
    let size = count.min(0x7fff_ffff) as i32;
    if has_rest { 0 - size } else { size }
}

/// Adds the handlers' types and addresses.
fn push_pairs(
    out: &mut Vec<u8>,
    handlers: &[Handler],
    types: &[u32],
    starts: &[u32],
    end: u32,
) -> Result<(), AllocError>
    ensures { OnOk result (out.new.items ≡ out.old.items ++ flat_map (pair_text types.now starts.now end) handlers.now) }
{
    for handler in handlers {
        write_uleb(out, new_number(types, handler.kind))?;
        write_uleb(out, place_at(starts, end, handler.position as usize))?;
    }
    Ok(())
}

/// Adds the address of the catch-all, where there is one.
fn push_rest(
    out: &mut Vec<u8>,
    rest: Option<u32>,
    starts: &[u32],
    end: u32,
) -> Result<(), AllocError>
    ensures { OnOk result (out.new.items ≡ out.old.items ++ rest_text starts.now end rest) }
{
    match rest {
        Some(position) => write_uleb(out, place_at(starts, end, position as usize)),
        None => Ok(()),
    }
}

/// The list of the region's handlers: how many, a type and an address each, and the address of the catch-all.
pub(crate) fn handlers_of(
    alloc: Global,
    region: &Region,
    numbers: &Renumber,
    starts: &[u32],
    end: u32,
) -> Result<Vec<u8>, AllocError>
    ensures { IfOk result (λ v. v.items ≡ handlers_text numbers.now starts.now end region.now) }
{
    let mut out = Vec::new(alloc);
    let handlers = region.handlers.as_slice();
    write_sleb(&mut out, list_size(handlers.len(), region.rest.is_some()))?;
    push_pairs(&mut out, handlers, &numbers.types, starts, end)?;
    push_rest(&mut out, region.rest, starts, end)?;
    Ok(out)
}
