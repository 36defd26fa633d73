//! Numbers of 32 bits, and places in the file.

ghost use Rattle.std.specs.Prelude.{◌≡◌, ◌+◌, ◌++◌, replicate, take, drop, IfOk, OnOk};
ghost use Rattle.dex_write.specs.Numbers.{words, gap, up, offset_of, at_place, count_some};

use dex_base::write_u32;
use seq::Seq;
use std::alloc::{AllocError, Global};

/// Items one behind another, and where each stands, 0 for one without bytes.
#[derive(Drop)]
pub struct Items {
    pub bytes: Seq<u8>,
    pub offsets: Seq<u32>,
}

/// The number in 32 bits. One that has no room is answered as want of memory: no file is that large.
pub fn word_of(number: usize) -> Result<u32, AllocError>
    ensures { IfOk result (λ word. word ≡ number) }
{
    if number > 0xffff_ffff {
        return Err(AllocError);
    }
    Ok(number as u32)
}

/// The place so far behind another.
pub fn behind(at: u32, count: usize) -> Result<u32, AllocError>
    ensures { IfOk result (λ place. place ≡ at + count) }
{
    let at = at as usize;
    if count > 0xffff_ffff - at {
        return Err(AllocError);
    }
    Ok((at + count) as u32)
}

/// How far the next multiple of four is.
pub fn gap(at: u32) -> usize
    ensures { result ≡ gap at }
{
    ((4 - at % 4) % 4) as usize
}

/// The next multiple of four.
pub fn up(at: u32) -> Result<u32, AllocError>
    ensures { IfOk result (λ place. place ≡ up at) }
{
    behind(at, gap(at))
}

/// Where an item stands whose bytes begin and end at these places behind `base`; 0 where it has none.
pub fn offset_of(base: u32, begin: usize, end: usize) -> Result<u32, AllocError>
    ensures { IfOk result (λ offset. offset ≡ offset_of base begin end) }
{
    if begin == end {
        return Ok(0);
    }
    behind(base, begin)
}

/// The entry of a list, 0 where there is none.
pub fn at_place(list: &[u32], place: usize) -> u32
    ensures { result ≡ at_place list.now place }
{
    match list.get(place) {
        Some(entry) => *entry,
        None => 0,
    }
}

/// The first items, as many as there are up to `count`, and those behind them.
pub fn split<T>(items: &[T], count: usize) -> (&[T], &[T])
    ensures front { result.0.now ≡ take count items.now }
    ensures back { result.1.now ≡ drop count items.now }
{
    items.split_at(count.min(items.len()))
}

/// Adds so many zero bytes.
pub fn push_zeros(out: &mut Vec<u8>, count: usize) -> Result<(), AllocError>
    ensures { OnOk result (out.new.items ≡ out.old.items ++ replicate count 0) }
{
    for _ in 0..count {
        out.push(0)?;
    }
    Ok(())
}

/// Adds the numbers.
#[tactic(auto, unfolding(crate::specs::Numbers::words))]
pub fn push_words(out: &mut Vec<u8>, numbers: &[u32]) -> Result<(), AllocError>
    ensures { OnOk result (out.new.items ≡ out.old.items ++ words numbers.now) }
{
    for number in numbers {
        write_u32(out, *number)?;
    }
    Ok(())
}

/// How many offsets are not 0.
pub fn count_some(offsets: &[u32]) -> Result<u32, AllocError>
    ensures { IfOk result (λ count. count ≡ count_some offsets.now) }
{
    word_of(offsets.iter().filter(|offset| 0 < **offset).count())
}

/// The numbers as bytes.
pub fn bytes_of(alloc: Global, numbers: &[u32]) -> Result<Vec<u8>, AllocError>
    ensures { IfOk result (λ v. v.items ≡ words numbers.now) }
{
    let mut out = Vec::with_capacity(alloc, numbers.len().saturating_mul(4))?;
    push_words(&mut out, numbers)?;
    Ok(out)
}
