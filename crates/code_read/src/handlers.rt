//! Handler lists (Dalvik executable format, "encoded_catch_handler_list").

ghost use Rattle.std.specs.Prelude.{◌≡◌, ◌+◌, ◌<◌, ◌≤◌, ◌^◌, ℕ, length, IsTrue, IfOk, IfSome, MatchOption, ◌==◌, Some, None};
ghost use Rattle.std.specs.List.{list_all, list_any};
ghost use Rattle.code_read.specs.Handlers.{number_at, size_at, has_rest, skip_numbers, numbers_behind, list_end, lists_in, lists_from, address_at, handler_at, handlers_at, rest_at, caught_at};
ghost use Rattle.code_read.specs.Positions.{rises_in};
ghost use Rattle.code_read.specs.Regions.{handler_inside, rest_inside};

use crate::places::Places;
use crate::positions::position_at;
use dex_base::{read_sleb, read_uleb};
use program_model::Handler;
use seq::Seq;
use std::alloc::{AllocError, Global};

/// The handlers of a region, and its catch-all.
#[derive(Drop)]
pub(crate) struct Caught {
    pub handlers: Seq<Handler>,
    pub rest: Option<u32>,
}

/// The number at `at` and the place behind it, none where there is none.
fn number_at(bytes: &[u8], at: usize) -> Option<(u32, usize)>
    ensures is { result ≡ number_at bytes.now at }
    ensures behind { IfSome result (λ read. at < read.1) }
    ensures inside { IfSome result (λ read. read.1 ≤ length bytes.now) }
{
    match read_uleb(bytes, at) {
        Ok(read) => Some(read),
        Err(_) => None,
    }
}

/// The size of a list, the place behind it, none where there is none.
fn size_at(bytes: &[u8], at: usize) -> Option<(i32, usize)>
    ensures is { result ≡ size_at bytes.now at }
    ensures behind { IfSome result (λ read. at < read.1) }
    ensures inside { IfSome result (λ read. read.1 ≤ length bytes.now) }
{
    match read_sleb(bytes, at) {
        Ok(read) => Some(read),
        Err(_) => None,
    }
}

/// Whether a catch-all stands behind a size.
fn has_rest(size: i32) -> bool
    ensures { result ≡ has_rest size }
{
    size <= 0
}

/// The place behind so many numbers.
fn skip_numbers(bytes: &[u8], from: usize, count: u64) -> Option<usize>
    ensures { result ≡ skip_numbers bytes.now count from }
{
    let mut at = from;
    let mut left = count;
    while left > 0 {
        match number_at(bytes, at) {
            Some((_, next)) => {
                at = next;
                left -= 1;
            }
            None => return None,
        }
    }
    Some(at)
}

/// How many numbers stand behind the size of a list.
fn numbers_behind(size: i32) -> u64
    ensures { result ≡ numbers_behind size }
{
    let rest = if has_rest(size) { 1 } else { 0 };
    2 * u64::from(size.unsigned_abs()) + rest
}

/// The place behind the list at `at`, none where it is not whole.
#[tactic(auto, unfolding(crate::specs::Handlers::list_end))]
fn list_end(bytes: &[u8], at: usize) -> Option<usize>
    ensures { result ≡ list_end bytes.now at }
{
    match size_at(bytes, at) {
        Some((size, next)) => skip_numbers(bytes, next, numbers_behind(size)),
        None => None,
    }
}

/// The offsets, up to `most`, at which so many lists begin that stand one behind another. The last may not be whole.
fn offsets_from(
    alloc: Global,
    bytes: &[u8],
    first: usize,
    count: u32,
    most: u16,
) -> Result<Vec<u16>, AllocError>
    ensures same { IfOk result (λ v. (o : ℕ) → o ≤ most → list_any (λ a. a == o) v.items ≡ list_any (λ a. a == o) (lists_from count bytes.now first)) }
    ensures rise { IfOk result (λ v. IsTrue (rises_in 0 65536 v.items)) }
{
    let mut offsets = Vec::new(alloc);
    let mut at = first;
    let mut left = count;
    while left > 0 {
        if at > most as usize {
            return Ok(offsets);
        }
        offsets.push(at as u16)?;
        match list_end(bytes, at) {
            Some(next) => {
                at = next;
                left -= 1;
            }
            None => return Ok(offsets),
        }
    }
    Ok(offsets)
}

/// The offsets, up to `most`, at which the lists begin that stand one behind another from the count on, as many as it
/// says. The last may not be whole.
#[tactic(auto, unfolding(crate::specs::Handlers::lists_in))]
pub(crate) fn list_offsets(alloc: Global, bytes: &[u8], most: u16) -> Result<Vec<u16>, AllocError>
    ensures same { IfOk result (λ v. (o : ℕ) → o ≤ most → list_any (λ a. a == o) v.items ≡ list_any (λ a. a == o) (lists_in bytes.now)) }
    ensures rise { IfOk result (λ v. IsTrue (rises_in 0 65536 v.items)) }
{
    match number_at(bytes, 0) {
        Some((count, first)) => offsets_from(alloc, bytes, first, count, most),
        None => Ok(Vec::new(alloc)),
    }
}

/// The position that begins with the unit of the address at `at`, and the place behind the address.
#[tactic(auto, unfolding(crate::specs::Handlers::address_at))]
fn address_at(bytes: &[u8], at: usize, places: &Places) -> Option<(u32, usize)>
    ensures is { result ≡ address_at bytes.now places.now.starts.items at }
    ensures inside { IfSome result (λ read. read.0 < length places.now.starts.items) }
{
    match number_at(bytes, at) {
        Some((unit, next)) => match position_at(places, u64::from(unit)) {
            Some(position) => Some((position, next)),
            None => None,
        },
        None => None,
    }
}

/// The handler at `at`, and the place behind it, none where its type or its address is out of range.
#[tactic(auto, unfolding(crate::specs::Handlers::handler_at))]
fn handler_at(bytes: &[u8], at: usize, places: &Places, types: u32) -> Option<(Handler, usize)>
    ensures is { result ≡ handler_at bytes.now places.now.starts.items types at }
    ensures inside { IfSome result (λ read. IsTrue (handler_inside types (length places.now.starts.items) read.0)) }
{
    match number_at(bytes, at) {
        Some((kind, next)) => match address_at(bytes, next, places) {
            Some((position, behind)) => {
                if kind < types {
                    Some((Handler { kind, position }, behind))
                } else {
                    None
                }
            }
            None => None,
        },
        None => None,
    }
}

/// The catch-all at `at`, where there is one; none where its address is out of range.
fn rest_at(bytes: &[u8], at: usize, has_rest: bool, places: &Places) -> Option<Option<u32>>
    ensures is { result ≡ rest_at bytes.now places.now.starts.items has_rest at }
    ensures inside { IfSome result (λ rest. IsTrue (rest_inside (length places.now.starts.items) rest)) }
{
    if has_rest {
        match address_at(bytes, at, places) {
            Some((position, _)) => Some(Some(position)),
            None => None,
        }
    } else {
        Some(None)
    }
}

/// So many handlers, and the place behind them.
fn handlers_at(
    alloc: Global,
    bytes: &[u8],
    from: usize,
    count: u32,
    places: &Places,
    types: u32,
) -> Result<Option<(Vec<Handler>, usize)>, AllocError>
    ensures is { IfOk result (λ read. MatchOption read (handlers_at bytes.now places.now.starts.items types count from ≡ None) (λ r. handlers_at bytes.now places.now.starts.items types count from ≡ Some (r.0.items, r.1))) }
    ensures inside { IfOk result (λ read. IfSome read (λ r. IsTrue (list_all (handler_inside types (length places.now.starts.items)) r.0.items))) }
{
    let mut handlers = Vec::new(alloc);
    let mut at = from;
    let mut left = count;
    while left > 0 {
        match handler_at(bytes, at, places, types) {
            Some((handler, next)) => {
                handlers.push(handler)?;
                at = next;
                left -= 1;
            }
            None => return Ok(None),
        }
    }
    Ok(Some((handlers, at)))
}

/// The list at `at`, none where it is not whole or out of range. What it takes of memory is bounded by the bytes.
#[tactic(auto, unfolding(crate::specs::Handlers::caught_at))]
pub(crate) fn caught_at(
    alloc: Global,
    bytes: &[u8],
    at: usize,
    places: &Places,
    types: u32,
) -> Result<Option<Caught>, AllocError>
    ensures is { IfOk result (λ read. MatchOption read (caught_at bytes.now places.now.starts.items types at ≡ None) (λ c. caught_at bytes.now places.now.starts.items types at ≡ Some (c.handlers, c.rest))) }
    ensures handlers { IfOk result (λ read. IfSome read (λ c. IsTrue (list_all (handler_inside types (length places.now.starts.items)) c.handlers))) }
    ensures rest { IfOk result (λ read. IfSome read (λ c. IsTrue (rest_inside (length places.now.starts.items) c.rest))) }
{
    let Some((size, next)) = size_at(bytes, at) else {
        return Ok(None);
    };
    let count = size.unsigned_abs();
    let Some((handlers, end)) = handlers_at(alloc, bytes, next, count, places, types)? else {
        return Ok(None);
    };
    match rest_at(bytes, end, has_rest(size), places) {
        Some(rest) => Ok(Some(Caught {
            handlers: Seq::of_vec(handlers),
            rest,
        })),
        None => Ok(None),
    }
}
