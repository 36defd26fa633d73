//! Which registers meet.

ghost use Rattle.std.specs.Prelude.{◌≡◌, ◌↔◌, ◌+◌, ◌<◌, ◌^◌, ℕ, true, length, slice_get, IfOk, IfSome};
ghost use Rattle.std.specs.List.{list_any};
ghost use Rattle.body_graph.specs.Walks.{IsRead};
ghost use Rattle.walk_marks.specs.Walks.{row_of, is_on};
ghost use Rattle.live_regs.specs.Live.{is_live, has_words};
ghost use Rattle.live_regs.specs.Liveness.{writes_at};
ghost use Rattle.live_regs.specs.Words.{IsMask};
ghost use Rattle.compact.specs.Ties.{AreWriters};
ghost use Rattle.compact.specs.Clashes.{is_hit, hits_of, AreUsed, IsClash};

use crate::used::names_of;
use crate::writers::writers_of;
use insn_set::Insn;
use live_regs::{Live, has, live, write_word};
use program_model::Body;
use register_criteria::is_hit;
use seq::Seq;
use std::alloc::{AllocError, Global};
use walk_marks::turned;

/// For each register those that are live behind a position that writes it, or that it writes too, and the same turned
/// round.
#[derive(Drop)]
pub(crate) struct Clash {
    pub(crate) rows: Vec<Seq<u32>>,
    pub(crate) back: Vec<Seq<u32>>,
}

/// Whether a register is live behind one of the positions, or written there.
fn is_any_hit(live: &Live, insns: &[Insn], register: u32, writers: &[u32]) -> bool
    ensures { result ≡ list_any (is_hit live.now insns.now register) writers.now }
{
    writers
        .iter()
        .any(|position| is_hit(live, insns, register, *position))
}

/// The registers below 64 that the instruction at a position writes, as the bits of a word.
#[tactic(auto, using(live_regs::proofs::Masks::none_is))]
fn written_word(insns: &[Insn], position: u32) -> u64
    ensures { IsMask (λ s. writes_at s (slice_get insns.now position)) result }
{
    match insns.get(position as usize) {
        Some(insn) => write_word(insn),
        None => 0,
    }
}

/// The registers below 64 that are live behind a position, or written there.
fn hit_word(live: &Live, insns: &[Insn], position: u32) -> u64
    requires { has_words live.now ≡ true }
    ensures { IsMask (λ s. is_hit live.now insns.now s position) result }
{
    live.word(position.saturating_add(1)) | written_word(insns, position)
}

/// The registers below 64 that are live behind one of the positions, or written there.
fn hits_word(live: &Live, insns: &[Insn], writers: &[u32]) -> u64
    requires { has_words live.now ≡ true }
    ensures { IsMask (λ s. list_any (is_hit live.now insns.now s) writers.now) result }
{
    let mut word = 0;
    for position in writers {
        word |= hit_word(live, insns, *position);
    }
    word
}

/// The same where what is live is at hand as words.
fn hits_by_words(live: &Live, insns: &[Insn], writers: &[u32]) -> Option<u64>
    ensures { IfSome result (λ word. IsMask (λ s. list_any (is_hit live.now insns.now s) writers.now) word) }
{
    if live.has_words() {
        Some(hits_word(live, insns, writers))
    } else {
        None
    }
}

/// Whether a register is among those of a word, where there is one, or else live behind one of the positions or written
/// there.
fn is_among(live: &Live, insns: &[Insn], register: u32, writers: &[u32], word: Option<u64>) -> bool
    requires { IfSome word (λ word. IsMask (λ s. list_any (is_hit live.now insns.now s) writers.now) word) }
    ensures { result ≡ list_any (is_hit live.now insns.now register) writers.now }
{
    if let Some(word) = word {
        if register < 64 {
            return has(word, register);
        }
    }
    is_any_hit(live, insns, register, writers)
}

/// Those of some registers that are hit at these positions.
fn hits(
    alloc: Global,
    live: &Live,
    insns: &[Insn],
    names: &[u16],
    writers: &[u32],
) -> Result<Seq<u32>, AllocError>
    ensures { IfOk result (λ row. row ≡ hits_of live.now insns.now names.now writers.now) }
{
    let mut row = Vec::new(alloc);
    if writers.is_empty() {
        return Ok(Seq::of_vec(row));
    }
    let word = hits_by_words(live, insns, writers);
    for name in names {
        if is_among(live, insns, u32::from(*name), writers, word) {
            row.push(u32::from(*name))?;
        }
    }
    Ok(Seq::of_vec(row))
}

/// What is hit where each register is written.
fn hit_rows(
    alloc: Global,
    live: &Live,
    insns: &[Insn],
    names: &[u16],
    writers: &[Seq<u32>],
) -> Result<Vec<Seq<u32>>, AllocError>
    ensures long { IfOk result (λ v. length v.items ≡ length writers.now) }
    ensures rows { IfOk result (λ v. (r : ℕ) → r < length writers.now → row_of v.items r ≡ hits_of live.now insns.now names.now (row_of writers.now r)) }
{
    let mut rows = Vec::with_capacity(alloc, writers.len())?;
    for register in 0..writers.len() {
        rows.push(hits(alloc, live, insns, names, writers[register].as_slice())?)?;
    }
    Ok(rows)
}

/// Which registers of a body meet.
pub(crate) fn clash_of(alloc: Global, body: &Body, used: &[bool]) -> Result<Clash, AllocError>
    requires few { length body.now.insns + 1 < 2 ^ 32 }
    requires regions { length body.now.insns + length body.now.regions < 2 ^ 32 }
    requires used { AreUsed body.now used.now }
    requires narrow { length used.now < 65536 }
    ensures { IfOk result (IsClash body.now) }
{
    let live = live(alloc, body)?;
    let writers = writers_of(alloc, body)?;
    let names = names_of(alloc, used)?;
    let insns = body.insns.as_slice();
    let rows = hit_rows(alloc, &live, insns, names.as_slice(), writers.as_slice())?;
    let back = turned(alloc, &rows, rows.len())?;
    Ok(Clash { rows, back })
}
