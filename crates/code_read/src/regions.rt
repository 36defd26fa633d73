//! The regions of a body and their handlers (Dalvik executable format, "try_item").

ghost use Rattle.std.specs.Prelude.{◌≡◌, ◌+◌, ◌*◌, ◌<◌, ◌≤◌, ℕ, length, drop, IsTrue, ◌^◌, IfOk, IfSome, ◌==◌, slice_get, nat_le};
ghost use Rattle.std.specs.List.{list_all, list_any};
ghost use Rattle.dex_base.specs.Reading.{Gives};
ghost use Rattle.code_read.specs.Fault.{is_free};
ghost use Rattle.code_read.specs.Handlers.{has_list, caught_at, caught_count};
ghost use Rattle.code_read.specs.Positions.{rises_in, begins_with};
ghost use Rattle.code_read.specs.Regions.{region_inside, are_apart, try_at, names_up_to, first_of, end_of, lies_right, with_handlers, region_of, region_at, regions_from, regions_of};
ghost use Rattle.code_read.specs.Seen.{seen};

use crate::fault::CodeFault;
use crate::handlers::{Caught, caught_at, list_offsets};
use crate::limits::passed;
use crate::places::Places;
use crate::positions::count_before;
use crate::sizes::Sizes;
use crate::try_items::{TryItem, behind_items, greatest_offset, try_at};
use program_model::{Counted, Handler, Region};
use seq::Seq;
use std::alloc::{AllocError, Global};

/// The positions that a region covers.
#[derive(Clone, Copy, Drop)]
struct Cover {
    first: u32,
    end: u32,
}

/// So many try items, the bytes from the count of the handler lists on, and the offsets at which the lists begin, up to
/// the greatest that the items name.
#[derive(Drop)]
struct Lists<'a> {
    tries: &'a [u8],
    count: u16,
    bytes: &'a [u8],
    most: u16,
    offsets: Vec<u16>,
    ghost behind: { bytes.now ≡ drop (8 * count) tries.now },
    ghost named: { (k : ℕ) → k < count → IsTrue (names_up_to most (try_at tries.now (8 * k))) },
    ghost same: { (o : ℕ) → o ≤ most → list_any (λ a. a == o) offsets.items ≡ has_list bytes.now o },
    ghost rise: { IsTrue (rises_in 0 65536 offsets.items) },
}

/// The handler lists behind so many try items.
fn lists_of(alloc: Global, tries: &[u8], count: u16) -> Result<Lists<'_>, AllocError>
    ensures tries { IfOk result (λ l. l.tries.now ≡ tries.now) }
    ensures count { IfOk result (λ l. l.count ≡ count) }
{
    let bytes = behind_items(tries, count);
    let most = greatest_offset(tries, count);
    let offsets = list_offsets(alloc, bytes, most)?;
    Ok(Lists {
        tries,
        count,
        bytes,
        most,
        offsets,
    })
}

/// Whether one of the lists begins at the offset, which is that of a try item.
fn has_list(lists: &Lists, offset: u16) -> bool
    requires { offset ≤ lists.now.most }
    ensures { result ≡ has_list lists.now.bytes.now offset }
{
    lists.offsets.as_slice().binary_search(&offset).is_ok()
}

/// The positions whose first unit a try item covers.
fn cover_of(places: &Places, item: TryItem) -> Cover
    ensures first { result.first ≡ first_of (seen places.now) item }
    ensures end { result.end ≡ end_of (seen places.now) item }
    ensures inside { result.end ≤ length places.now.starts.items }
{
    let start = u64::from(item.start);
    Cover {
        first: count_before(places, start),
        end: count_before(places, start + u64::from(item.count)),
    }
}

/// Whether a position begins with the unit.
fn begins_with(places: &Places, position: u32, unit: u32) -> bool
    ensures { result ≡ begins_with (slice_get places.now.starts.items position) unit }
{
    match places.starts.as_slice().get(position as usize) {
        Some(start) => *start == unit,
        None => false,
    }
}

/// Whether a try item begins at the first of the positions that it covers, ends among the units, and lies behind the
/// region before, which ends at position `from`.
fn lies_right(places: &Places, item: TryItem, first: u32, from: u32) -> bool
    requires { first ≡ first_of (seen places.now) item }
    ensures is { result ≡ lies_right (seen places.now) item from }
    ensures behind { IsTrue result → from ≤ first }
{
    let end = u64::from(item.start) + u64::from(item.count);
    begins_with(places, first, item.start) && (end <= places.units.len() as u64 && from <= first)
}

/// How many handlers a region has with its catch-all.
fn count_of(handlers: &Seq<Handler>, rest: Option<u32>) -> u32
    requires { caught_count handlers.now rest < 2 ^ 32 }
    ensures { result ≡ caught_count handlers.now rest }
{
    match rest {
        Some(_) => handlers.len() as u32 + 1,
        None => handlers.len() as u32,
    }
}

/// Whether a region's handlers with its catch-all are at most so many.
fn has_room(handlers: &Seq<Handler>, rest: Option<u32>, left: u32) -> bool
    ensures { result ≡ nat_le (caught_count handlers.now rest) left }
{
    match rest {
        Some(_) => (handlers.len() as u64) < u64::from(left),
        None => handlers.len() as u64 <= u64::from(left),
    }
}

/// The region with this cover and the handlers of the list at the offset. `Handler` where the list is not whole or out
/// of range, `Limit` where it has more handlers than are left.
fn with_handlers(
    alloc: Global,
    lists: &Lists,
    places: &Places,
    types: u32,
    offset: u16,
    place: u16,
    cover: Cover,
    left: u32,
) -> Result<Option<Region>, CodeFault>
    requires some { cover.first < cover.end }
    requires inside { cover.end ≤ length places.now.starts.items }
    ensures gives { Gives is_free (λ r. r) result (with_handlers place cover.first cover.end left (caught_at lists.now.bytes.now places.now.starts.items types offset)) }
    ensures inside { IfOk result (λ kept. IfSome kept (λ r. IsTrue (region_inside types (length places.now.starts.items) r))) }
    ensures first { IfOk result (λ kept. IfSome kept (λ r. r.first ≡ cover.first)) }
    ensures needed { IfOk result (λ kept. IfSome kept (λ r. caught_count r.handlers r.rest ≤ left)) }
{
    let Some(caught) = caught_at(alloc, lists.bytes, offset as usize, places, types)? else {
        return Err(CodeFault::Handler {
            place: u32::from(place),
        });
    };
    if !has_room(&caught.handlers, caught.rest, left) {
        return Err(passed(Counted::Items));
    }
    Ok(Some(Region {
        first: cover.first,
        end: cover.end,
        handlers: caught.handlers,
        rest: caught.rest,
    }))
}

/// The region of a try item, none where it covers no position. The region before it ends at position `from`, and so
/// many handlers are left.
fn region_of(
    alloc: Global,
    lists: &Lists,
    places: &Places,
    types: u32,
    item: TryItem,
    place: u16,
    from: u32,
    left: u32,
) -> Result<Option<Region>, CodeFault>
    requires { item.offset ≤ lists.now.most }
    ensures gives { Gives is_free (λ r. r) result (region_of lists.now.bytes.now types (seen places.now) place from left (Some item)) }
    ensures inside { IfOk result (λ kept. IfSome kept (λ r. IsTrue (region_inside types (length places.now.starts.items) r))) }
    ensures behind { IfOk result (λ kept. IfSome kept (λ r. from ≤ r.first)) }
    ensures needed { IfOk result (λ kept. IfSome kept (λ r. caught_count r.handlers r.rest ≤ left)) }
{
    let cover = cover_of(places, item);
    if cover.first >= cover.end {
        return Ok(None);
    }
    if !lies_right(places, item, cover.first, from) {
        return Err(CodeFault::Region {
            place: u32::from(place),
        });
    }
    if !has_list(lists, item.offset) {
        return Err(CodeFault::Handler {
            place: u32::from(place),
        });
    }
    with_handlers(alloc, lists, places, types, item.offset, place, cover, left)
}

/// The region of the try item of this place.
#[tactic(auto, unfolding(crate::specs::Regions::region_at))]
fn region_at(
    alloc: Global,
    lists: &Lists,
    places: &Places,
    types: u32,
    place: u16,
    from: u32,
    left: u32,
) -> Result<Option<Region>, CodeFault>
    requires { place < lists.now.count }
    ensures gives { Gives is_free (λ r. r) result (region_at lists.now.tries.now lists.now.bytes.now types (seen places.now) place from left) }
    ensures inside { IfOk result (λ kept. IfSome kept (λ r. IsTrue (region_inside types (length places.now.starts.items) r))) }
    ensures behind { IfOk result (λ kept. IfSome kept (λ r. from ≤ r.first)) }
    ensures needed { IfOk result (λ kept. IfSome kept (λ r. caught_count r.handlers r.rest ≤ left)) }
{
    match try_at(lists.tries, 8 * place as usize) {
        Some(item) => region_of(alloc, lists, places, types, item, place, from, left),
        None => Err(CodeFault::Region {
            place: u32::from(place),
        }),
    }
}

/// The regions of so many try items, without those that cover no position.
fn regions_in(
    alloc: Global,
    lists: &Lists,
    places: &Places,
    types: u32,
    items: u32,
) -> Result<Vec<Region>, CodeFault>
    ensures gives { Gives is_free (λ v. v.items) result (regions_from lists.now.tries.now lists.now.bytes.now types (seen places.now) lists.now.count 0 0 items) }
    ensures inside { IfOk result (λ regions. IsTrue (list_all (region_inside types (length places.now.starts.items)) regions.items)) }
    ensures apart { IfOk result (λ regions. IsTrue (are_apart 0 regions.items)) }
{
    let mut regions = Vec::new(alloc);
    let mut left = items;
    let mut from = 0;
    for place in 0..lists.count {
        let kept = region_at(alloc, lists, places, types, place, from, left)?;
        match kept {
            Some(region) => {
                left -= count_of(&region.handlers, region.rest);
                from = region.end;
                regions.push(region)?;
            }
            None => continue,
        }
    }
    Ok(regions)
}

/// The regions that the try items spell, without those that cover no position. The faults come in the order of the
/// items, of one item first `Region`, then `Handler`, then `Limit`.
#[tactic(auto, unfolding(crate::specs::Regions::regions_of))]
pub(crate) fn regions_of(
    alloc: Global,
    tries: &[u8],
    sizes: &Sizes,
    places: &Places,
) -> Result<Vec<Region>, CodeFault>
    ensures gives { Gives is_free (λ v. v.items) result (regions_of tries.now sizes.now (seen places.now)) }
    ensures inside { IfOk result (λ regions. IsTrue (list_all (region_inside sizes.now.types (length places.now.starts.items)) regions.items)) }
    ensures apart { IfOk result (λ regions. IsTrue (are_apart 0 regions.items)) }
{
    if sizes.tries == 0 {
        return Ok(Vec::new(alloc));
    }
    let lists = lists_of(alloc, tries, sizes.tries)?;
    regions_in(alloc, &lists, places, sizes.types, sizes.items)
}
