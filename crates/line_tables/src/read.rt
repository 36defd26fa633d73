//! Reading the lines of a debug item.

ghost use Rattle.std.specs.Prelude.{◌≡◌, ◌<◌, ◌≤◌, ◌^◌, ◌+◌, ◌++◌, length, drop, replicate, IfOk, IfSome, OnOk, OnErr, Some, None};
ghost use Rattle.line_tables.specs.Item.{begin_at, count_below, lines_at, one_more, there, turn_to, turn_at, walk, StaysLow, read_as};
ghost use Rattle.std.specs.List.{AllByRecursion};
ghost use Rattle.line_tables.specs.Text.{Lined};
ghost use Rattle.line_tables.specs.Seen.{seen};

use crate::opcode::{HIGHEST, Kind, moved, read_opcode, skip};
use dex_base::{BaseFault, read_uleb};
use std::alloc::{AllocError, Global};

/// Where reading is: the place of the next opcode, and the address and the line there.
#[derive(Clone, Copy, Debug)]
pub struct Spot {
    pub place: usize,
    pub address: u32,
    pub line: u32,
}

/// What was read of a debug item.
#[derive(Debug, Drop)]
pub struct LinesRead {
    /// One line for each start, 0 before the first entry; none where the item can't be read.
    pub lines: Option<Vec<u32>>,
    /// How many opcodes were read.
    pub opcodes: u64,
}

/// What becomes of reading at an opcode.
#[derive(Clone, Copy, Debug)]
pub enum Turn {
    /// It can't go on.
    Breaks,
    /// The item ends.
    IsOver,
    /// It goes on.
    GoesTo(Spot),
    /// It goes on behind an entry.
    EntersAt(Spot),
}

/// The line and the place with which the item at `at` begins.
#[tactic(auto, unfolding(crate::specs::Item::begin_at))]
fn begin_of(bytes: &[u8], at: usize) -> Result<(u32, usize), BaseFault>
    ensures { result ≡ begin_at bytes.now at }
{
    let (line, behind) = read_uleb(bytes, at)?;
    let (names, first) = read_uleb(bytes, behind)?;
    let place = skip(bytes, first, names)?;
    Ok((line, place))
}

/// The turn behind an opcode that makes this of the item, where reading is then at this spot.
fn turn_to(kind: Kind, next: Spot) -> Turn
    ensures { result ≡ turn_to kind next.place (there next) }
{
    match kind {
        Kind::End => Turn::IsOver,
        Kind::Step => Turn::GoesTo(next),
        Kind::Entry if next.line == 0 => Turn::Breaks,
        Kind::Entry => Turn::EntersAt(next),
    }
}

/// The turn at this spot.
#[tactic(auto, unfolding(crate::specs::Item::turn_at))]
fn turn_of(bytes: &[u8], spot: &Spot) -> Turn
    requires address_low { spot.now.address < 2 ^ 31 }
    requires line_low { spot.now.line < 2 ^ 31 }
    ensures gives { result ≡ turn_at bytes.now spot.now }
    ensures low { StaysLow result }
{
    let Ok((effect, place)) = read_opcode(bytes, spot.place) else {
        return Turn::Breaks;
    };
    if matches!(effect.kind, Kind::End) {
        return Turn::IsOver;
    }
    match moved(spot.address, spot.line, &effect) {
        None => Turn::Breaks,
        Some((address, line)) => turn_to(
            effect.kind,
            Spot {
                place,
                address,
                line,
            },
        ),
    }
}

/// How many positions begin before the address, of starts that ascend.
fn count_below(starts: &[u32], address: u32) -> usize
    ensures value { result ≡ count_below address starts.now }
    ensures within { result ≤ length starts.now }
{
    let mut count = 0;
    while count < starts.len() && starts[count] < address {
        count += 1;
    }
    count
}

/// Adds the line so many times.
fn repeat(lines: &mut Vec<u32>, line: u32, count: usize) -> Result<(), AllocError>
    ensures ok { OnOk result (lines.new.items ≡ lines.old.items ++ replicate count line) }
{
    for _ in 0..count {
        lines.push(line)?;
    }
    Ok(())
}

/// What an item is read as that gives these lines, with so many opcodes.
fn readable(lines: Vec<u32>, opcodes: u64) -> LinesRead
    ensures { seen result ≡ read_as (Some lines.items) opcodes }
{
    LinesRead {
        lines: Some(lines),
        opcodes,
    }
}

/// What an item is read as that can't be read, with so many opcodes.
fn unreadable(opcodes: u64) -> LinesRead
    ensures { seen result ≡ read_as None opcodes }
{
    LinesRead {
        lines: None,
        opcodes,
    }
}

/// One, where there is one opcode more.
fn one_more(bytes: &[u8], spot: &Spot) -> u64
    ensures { result ≡ one_more bytes.now spot.now }
{
    if spot.place < bytes.len() { 1 } else { 0 }
}

/// What is read from the first spot on, of at most so many opcodes.
fn walk(
    alloc: Global,
    bytes: &[u8],
    starts: &[u32],
    most: u32,
    first: Spot,
) -> Result<LinesRead, AllocError>
    requires address_low { first.address < 2 ^ 31 }
    requires line_low { first.line < 2 ^ 31 }
    ensures { IfOk result (λ read. seen read ≡ walk most bytes.now 0 starts.now first) }
{
    let mut lines = Vec::with_capacity(alloc, starts.len())?;
    let mut line = 0;
    let mut spot = first;
    for done in 0..most {
        match turn_of(bytes, &spot) {
            Turn::Breaks => return Ok(unreadable(u64::from(done) + one_more(bytes, &spot))),
            Turn::IsOver => {
                let count = starts.len() - lines.len();
                repeat(&mut lines, line, count)?;
                return Ok(readable(lines, u64::from(done) + 1));
            }
            Turn::GoesTo(next) => spot = next,
            Turn::EntersAt(next) => {
                let count = count_below(&starts[lines.len()..], next.address);
                repeat(&mut lines, line, count)?;
                if lines.len() == starts.len() {
                    return Ok(readable(lines, u64::from(done) + 1));
                }
                line = next.line;
                spot = next;
            }
        }
    }
    Ok(unreadable(u64::from(most) + one_more(bytes, &spot)))
}

/// What the item at `at` is read as.
#[tactic(auto, unfolding(crate::specs::Item::lines_at))]
fn item_of(
    alloc: Global,
    bytes: &[u8],
    at: usize,
    starts: &[u32],
    most: u32,
) -> Result<LinesRead, AllocError>
    ensures { IfOk result (λ read. seen read ≡ lines_at bytes.now at starts.now most) }
{
    match begin_of(bytes, at) {
        Ok((line, place)) if line <= HIGHEST => walk(
            alloc,
            bytes,
            starts,
            most,
            Spot {
                place,
                address: 0,
                line,
            },
        ),
        _ => Ok(unreadable(0)),
    }
}

/// The lines that the debug item at `at` gives to the positions that begin at `starts`, in code units, which ascend
/// strictly: each has the line of the last entry at or before it, and 0 before the first one. Reading ends with the item,
/// or at the first entry past the last start. There are no lines where the bytes end too early, a number has a fifth byte
/// with its top bit set, the address or the line leaves 0 to 2,147,483,647, an entry has line 0, or more than `most`
/// opcodes are read; no more than one opcode past `most` is read. The only error is want of memory (Dalvik executable
/// format, "debug_info_item").
pub fn read_lines(
    alloc: Global,
    bytes: &[u8],
    at: usize,
    starts: &[u32],
    most: u32,
) -> Result<LinesRead, AllocError>
    ensures gives { IfOk result (λ read. seen read ≡ lines_at bytes.now at starts.now most) }
    ensures few { IfOk result (λ read. read.opcodes ≤ most + 1) }
    ensures counted { IfOk result (λ read. IfSome read.lines (λ lines. length lines.items ≡ length starts.now)) }
    ensures low { IfOk result (λ read. IfSome read.lines (λ lines. AllByRecursion (λ x. x < 2 ^ 31) lines.items)) }
    // No 0 stands behind a line.
    ensures lined { IfOk result (λ read. IfSome read.lines (λ lines. Lined 0 lines.items)) }
{
    item_of(alloc, bytes, at, starts, most)
}
