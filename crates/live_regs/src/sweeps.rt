//! Sweeps over a body that fill the words of its positions and regions, until none changes.

ghost use Rattle.std.specs.Prelude.{◌≡◌, ℕ, ◌+◌, ◌<◌, ◌^◌, ◌||◌, ◌&&◌, not, length, true, false, slice_set, IfOk, IfSome};
ghost use Rattle.std.specs.List.{list_any};
ghost use Rattle.insn_set.specs.Registers.{reads_of, writes_of};
ghost use Rattle.insn_set.specs.Flow.{targets_of};
ghost use Rattle.flow_cfg.specs.Walks.{handlers_in};
ghost use Rattle.body_graph.specs.Walks.{onward};
ghost use Rattle.live_regs.specs.Words.{has, word_at, IsMask, has_any};
ghost use Rattle.live_regs.specs.Sweeps.{flows, IsPut, AreSoFar, AreCovers, HaveFlowed, HaveCaught, AreWords, AreLiveWords};

use crate::words::{read_word, together, word_at, write_word};
use body_graph::covers_of;
use insn_set::Insn;
use program_model::{Body, Handler, Region};
use std::alloc::{AllocError, Global};

/// How many sweeps there are at most. Each brings what is read behind one more branch backwards, or in one more handler.
const SWEEPS: u32 = 16;

/// Puts a word at a place, and answers whether that changes it.
fn put(words: &mut Vec<u64>, place: usize, word: u64) -> bool
    requires { place < length words.old.items }
    ensures is { words.new.items ≡ slice_set words.old.items place word }
    ensures same { result ≡ false → words.new.items ≡ words.old.items }
{
    if words[place] == word {
        return false;
    }
    words[place] = word;
    true
}

/// Whether one of two holds.
fn either(one: bool, other: bool) -> bool
    ensures { result ≡ (one || other) }
{
    one || other
}

/// What is live at the targets of a branch.
fn targets_word(words: &[u64], insn: &Insn) -> u64
    ensures { IsMask (λ r. has_any words.now r (targets_of insn.now)) result }
{
    match insn {
        Insn::Goto { target } | Insn::If { target, .. } | Insn::IfZero { target, .. } => {
            together(words, &[*target])
        }
        Insn::PackedSwitch { targets, .. } | Insn::SparseSwitch { targets, .. } => {
            together(words, targets.as_slice())
        }
        _ => together(words, &[]),
    }
}

/// What is live where a walk goes from a position without a throw.
#[tactic(auto, using(crate::proofs::Masks::onward_next, crate::proofs::Masks::onward_last))]
fn onward_word(words: &[u64], insn: &Insn, position: usize) -> u64
    requires { position + 1 < 2 ^ 32 }
    ensures { IsMask (λ r. has_any words.now r (onward insn.now position)) result }
{
    let targets = targets_word(words, insn);
    if insn.continues() {
        word_at(words, position + 1) | targets
    } else {
        targets
    }
}

/// What flows to a position without a throw.
#[tactic(auto, using(crate::proofs::Masks::kept_is))]
fn kept_word(words: &[u64], insn: &Insn, position: usize) -> u64
    requires { position + 1 < 2 ^ 32 }
    ensures { IsMask (λ r. reads_of insn.now r || (has_any words.now r (onward insn.now position) && not (writes_of insn.now r))) result }
{
    read_word(insn) | (onward_word(words, insn, position) & !write_word(insn))
}

/// What flows to a position, where this is live at the handlers of its region.
#[tactic(auto, using(crate::proofs::Masks::flow_thrown, crate::proofs::Masks::flow_kept))]
fn flow_word(words: &[u64], insn: &Insn, position: usize, caught: &[u64], region: u32) -> u64
    requires { position + 1 < 2 ^ 32 }
    ensures { IsMask (flows words.now caught.now region position insn.now) result }
{
    let kept = kept_word(words, insn, position);
    if insn.may_throw() {
        kept | word_at(caught, region as usize)
    } else {
        kept
    }
}

/// Puts what flows to a position, and answers whether that changes its word.
fn flow(words: &mut Vec<u64>, insn: &Insn, position: usize, caught: &[u64], region: u32) -> bool
    requires small { position + 1 < 2 ^ 32 }
    requires inside { position < length words.old.items }
    ensures { IsPut (flows words.old.items caught.now region position insn.now) position words.old.items words.new.items result }
{
    let word = flow_word(words.as_slice(), insn, position, caught, region);
    put(words, position, word)
}

/// Sweeps over the positions, from the last one to the first, and answers whether a word changes.
fn sweep_positions(body: &Body, covers: &[u32], caught: &[u64], words: &mut Vec<u64>) -> bool
    requires small { length body.now.insns < 2 ^ 32 }
    requires covers { AreCovers body.now covers.now }
    requires so_far { AreSoFar body.now caught.now words.old.items }
    ensures so_far { AreSoFar body.now caught.now words.new.items }
    ensures same { result ≡ false → words.new.items ≡ words.old.items }
    ensures flowed { result ≡ false → HaveFlowed body.now words.new.items caught.now }
{
    let insns = body.insns.as_slice();
    let mut changed = false;
    for position in (0..insns.len()).rev() {
        let moved = flow(words, &insns[position], position, caught, covers[position]);
        changed = either(changed, moved);
    }
    changed
}

/// What is live at the handlers of a region but its catch-all.
fn caught_word(words: &[u64], handlers: &[Handler]) -> u64
    ensures { IsMask (λ r. list_any (λ h. has (word_at words.now h.position) r) handlers.now) result }
{
    let mut word = 0;
    for handler in handlers {
        word |= word_at(words, handler.position as usize);
    }
    word
}

/// What is live at the handlers of a region.
#[tactic(auto, using(crate::proofs::Masks::rest_some, crate::proofs::Masks::rest_none))]
fn handlers_word(words: &[u64], region: &Region) -> u64
    ensures { IsMask (λ r. has_any words.now r (handlers_in region.now)) result }
{
    let word = caught_word(words, region.handlers.as_slice());
    match region.rest {
        Some(position) => word | word_at(words, position as usize),
        None => word,
    }
}

/// Puts what is live at the handlers of a region, and answers whether that changes its word.
fn catch(caught: &mut Vec<u64>, words: &[u64], region: &Region, place: usize) -> bool
    requires { place < length caught.old.items }
    ensures { IsPut (λ r. has_any words.now r (handlers_in region.now)) place caught.old.items caught.new.items result }
{
    let word = handlers_word(words, region);
    put(caught, place, word)
}

/// Sweeps over the regions, and answers whether a word changes.
fn sweep_regions(body: &Body, words: &[u64], caught: &mut Vec<u64>) -> bool
    requires { AreSoFar body.now caught.old.items words.now }
    ensures so_far { AreSoFar body.now caught.new.items words.now }
    ensures caught { result ≡ false → HaveCaught body.now words.now caught.new.items }
{
    let regions = body.regions.as_slice();
    let mut changed = false;
    for place in 0..regions.len() {
        let moved = catch(caught, words, &regions[place], place);
        changed = either(changed, moved);
    }
    changed
}

/// One sweep over the regions and one over the positions. It answers whether a word changes.
fn sweep(body: &Body, covers: &[u32], caught: &mut Vec<u64>, words: &mut Vec<u64>) -> bool
    requires small { length body.now.insns < 2 ^ 32 }
    requires covers { AreCovers body.now covers.now }
    requires so_far { AreSoFar body.now caught.old.items words.old.items }
    ensures so_far { AreSoFar body.now caught.new.items words.new.items }
    ensures words { result ≡ false → AreWords body.now words.new.items }
{
    let regions = sweep_regions(body, words.as_slice(), caught);
    let positions = sweep_positions(body, covers, caught.as_slice(), words);
    either(regions, positions)
}

/// Sweeps until no word changes, and answers whether it came to that.
fn settle(body: &Body, covers: &[u32], caught: &mut Vec<u64>, words: &mut Vec<u64>) -> bool
    requires small { length body.now.insns < 2 ^ 32 }
    requires covers { AreCovers body.now covers.now }
    requires so_far { AreSoFar body.now caught.old.items words.old.items }
    ensures { result ≡ true → AreWords body.now words.new.items }
{
    for _ in 0..SWEEPS {
        if !sweep(body, covers, caught, words) {
            return true;
        }
    }
    false
}

/// What is live before each position, as words, or nothing where a body has more than 64 registers, or where so many sweeps
/// don't come to an end. The only error is want of memory.
pub(crate) fn words_by_sweeps(alloc: Global, body: &Body) -> Result<Option<Vec<u64>>, AllocError>
    requires { length body.now.insns + length body.now.regions < 2 ^ 32 }
    ensures { IfOk result (λ found. IfSome found (λ words. AreLiveWords body.now words.items)) }
{
    if body.registers > 64 {
        return Ok(None);
    }
    let covers = covers_of(alloc, body)?;
    let mut caught = vec![in alloc; 0u64; body.regions.len()]?;
    let mut words = vec![in alloc; 0u64; body.insns.len()]?;
    if settle(body, &covers, &mut caught, &mut words) {
        return Ok(Some(words));
    }
    Ok(None)
}
