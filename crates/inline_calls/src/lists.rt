//! Whether the lists of handlers of a body have room.

ghost use Rattle.std.specs.Prelude.{◌≡◌, ◌++◌, length, IfOk, OnOk};
ghost use Rattle.std.specs.List.{flat_map};
ghost use Rattle.program_model.specs.Cells.{capped};
ghost use Rattle.code_write.specs.Code.{place_at};
ghost use Rattle.code_write.specs.Handlers.{list_size, pair_text, rest_text, handlers_text};
ghost use Rattle.code_write.specs.Lists.{lists_in, list_in, with_list, count_text};
ghost use Rattle.inline_calls.specs.Crowded.{different_lists, bytes_before, lists_fit};

use dex_base::{write_sleb, write_uleb};
use indexmap::IndexSet;
use program_model::{Handler, Region, Renumber};
use relax::new_number;
use std::alloc::{AllocError, Global};

/// How many bytes behind the first one of their count a list may begin.
const MOST_BYTES: usize = 65_535;

/// Where a position begins, `end` where there is no such position.
fn place_at(starts: &[u32], end: u32, position: u32) -> u32
    ensures { result ≡ place_at starts.now end position }
{
    match starts.get(position as usize) {
        Some(start) => *start,
        None => end,
    }
}

/// How many handlers, with the sign turned where there is a catch-all.
fn list_size(count: usize, has_rest: bool) -> i32
    ensures { result ≡ list_size count has_rest }
{
    let size = count.min(0x7fff_ffff) as i32;
    if has_rest { 0 - size } else { size }
}

/// Adds the handlers' types and addresses.
fn push_pairs(
    out: &mut Vec<u8>,
    handlers: &[Handler],
    types: &[u32],
    starts: &[u32],
    end: u32,
) -> Result<(), AllocError>
    ensures { OnOk result (out.new.items ≡ out.old.items ++ flat_map (pair_text types.now starts.now end) handlers.now) }
{
    for handler in handlers {
        write_uleb(out, new_number(types, handler.kind))?;
        write_uleb(out, place_at(starts, end, handler.position))?;
    }
    Ok(())
}

/// Adds the address of the catch-all, where there is one.
fn push_rest(
    out: &mut Vec<u8>,
    rest: Option<u32>,
    starts: &[u32],
    end: u32,
) -> Result<(), AllocError>
    ensures { OnOk result (out.new.items ≡ out.old.items ++ rest_text starts.now end rest) }
{
    match rest {
        Some(position) => write_uleb(out, place_at(starts, end, position)),
        None => Ok(()),
    }
}

/// The list of a region's handlers: how many, a type and an address each, and the address of the catch-all.
fn list_of(
    alloc: Global,
    region: &Region,
    numbers: &Renumber,
    starts: &[u32],
    end: u32,
) -> Result<Vec<u8>, AllocError>
    ensures { IfOk result (λ v. v.items ≡ handlers_text numbers.now starts.now end region.now) }
{
    let mut out = Vec::new(alloc);
    let handlers = region.handlers.as_slice();
    write_sleb(&mut out, list_size(handlers.len(), region.rest.is_some()))?;
    push_pairs(&mut out, handlers, &numbers.types, starts, end)?;
    push_rest(&mut out, region.rest, starts, end)?;
    Ok(out)
}

/// Notes a list, unless it is known.
fn note_list(known: &mut IndexSet<Vec<u8>>, list: Vec<u8>) -> Result<(), AllocError>
    ensures { OnOk result (lists_in known.new.keys ≡ with_list (lists_in known.old.keys) list.items) }
{
    let (_index, _) = known.insert_full(list)?;
    Ok(())
}

/// Each different list once.
fn different_lists(
    alloc: Global,
    regions: &[Region],
    numbers: &Renumber,
    starts: &[u32],
    end: u32,
) -> Result<IndexSet<Vec<u8>>, AllocError>
    ensures { IfOk result (λ known. lists_in known.keys ≡ different_lists numbers.now starts.now end regions.now) }
{
    let mut known = IndexSet::new(alloc);
    for region in regions {
        note_list(&mut known, list_of(alloc, region, numbers, starts, end)?)?;
    }
    Ok(known)
}

/// How long a list is, 0 where there is none with this index.
fn length_at(known: &IndexSet<Vec<u8>>, index: usize) -> usize
    ensures { result ≡ length (list_in (lists_in known.now.keys) index) }
{
    match known.get_index(index) {
        Some(list) => list.as_slice().len(),
        None => 0,
    }
}

/// How many bytes the lists have without the longest one.
fn bytes_before(known: &IndexSet<Vec<u8>>) -> usize
    ensures { result ≡ capped (bytes_before 0 (lists_in known.now.keys)) }
{
    let mut bytes: usize = 0;
    let mut longest: usize = 0;
    for index in 0..known.len() {
        let length = length_at(known, index);
        bytes = bytes.saturating_add(longest.min(length));
        longest = longest.max(length);
    }
    bytes
}

/// How many bytes the count of the lists has.
fn count_bytes(alloc: Global, known: &IndexSet<Vec<u8>>) -> Result<usize, AllocError>
    ensures { IfOk result (λ bytes. bytes ≡ length (count_text (lists_in known.now.keys))) }
{
    let mut text = Vec::new(alloc);
    write_uleb(&mut text, known.len().min(0xffff_ffff) as u32)?;
    Ok(text.len())
}

/// Whether each list of handlers begins where 16 bits can say it, in a body whose positions begin at these units, and whose
/// code ends at this one.
pub fn lists_fit(
    alloc: Global,
    regions: &[Region],
    numbers: &Renumber,
    starts: &[u32],
    end: u32,
) -> Result<bool, AllocError>
    ensures { IfOk result (λ fit. fit ≡ lists_fit numbers.now starts.now end regions.now) }
{
    let known = different_lists(alloc, regions, numbers, starts, end)?;
    let count = count_bytes(alloc, &known)?;
    Ok(count.saturating_add(bytes_before(&known)) <= MOST_BYTES)
}
