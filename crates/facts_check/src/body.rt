//! The frames of a body.

ghost use Rattle.std.specs.Prelude.{◌≡◌, true, ℕ, ◌+◌, ◌-◌, ◌<◌, ◌^◌, length, List, Option, Some, None, IfOk, IfSome, slice_get, slice_index_or};
ghost use Rattle.std.specs.Option.{option_copied};
ghost use Rattle.dom_frame.specs.Registers.{Registers, value_at};
ghost use Rattle.domains.specs.Values.{any_value};
ghost use Rattle.closed_facts.specs.Tables.{IsBelow, AreBelow, Arrives, parameter_at};
ghost use Rattle.closed_facts.specs.Entries.{BeginsAt};
ghost use Rattle.facts_check.specs.declared.starts.Start.TheVariants.{Comes};
ghost use Rattle.facts_check.specs.Known.{AreKnown};
ghost use Rattle.facts_check.specs.Bodies.{registers_in, registers_of, insn_before, IsArrived, IsStep, IsFilling, IsFilled, AreFrames};
ghost use Rattle.facts_check.specs.Tables.{ComesBelow, TakesParameters, LeavesFree, BeginsWhere};

use crate::fields::is_on;
use crate::known::Known;
use crate::order::are_below;
use crate::positions::{Site, placed};
use crate::starts::Start;
use dom_frame::Frame;
use domains::Value;
use facts_order::{is_any, is_below, value_at};
use pat_map::PatMap;
use program_model::{Body, Insn};
use std::alloc::{AllocError, Global};

/// Whether what is handed on to a position, if anything is, is known there.
fn comes_below(next: Option<&PatMap<Value>>, known: &PatMap<Value>) -> bool
    ensures { result ≡ true → ComesBelow (option_copied next.entry) known.now }
{
    match next {
        Some(registers) => are_below(registers, known),
        None => true,
    }
}

/// What comes to a position by what is known there and what is handed on to it; none where that isn't known.
#[tactic(auto, using(crate::proofs::Filling::arrives_known, crate::proofs::Filling::arrives_idle, crate::proofs::Filling::arrives_inside, crate::proofs::Filling::arrives_past))]
fn arrived(
    start: Option<&Start>,
    next: Option<PatMap<Value>>,
) -> Result<Option<Option<PatMap<Value>>>, AllocError>
    ensures { IfOk result (λ o. IfSome o (λ here. IsArrived (option_copied start.entry) next here)) }
{
    match start {
        Some(Start::Comes(known)) => {
            if comes_below(next.as_ref(), known) {
                Ok(Some(Some(known.share()?)))
            } else {
                Ok(None)
            }
        }
        Some(Start::Idle) => {
            if next.is_none() {
                Ok(Some(None))
            } else {
                Ok(None)
            }
        }
        Some(Start::Inside) | None => Ok(Some(next)),
    }
}

/// The instruction in front of a position.
fn insn_before(insns: &[Insn], position: usize) -> Option<&Insn>
    ensures { option_copied result ≡ insn_before insns.now position }
{
    if position == 0 {
        None
    } else {
        insns.get(position - 1)
    }
}

/// What a position hands on to the next one.
#[tactic(auto, using(crate::proofs::Filling::step_placed))]
fn handed_on(
    alloc: Global,
    known: &Known<'_>,
    site: &Site<'_>,
    position: usize,
    here: Option<&PatMap<Value>>,
) -> Result<Option<Option<PatMap<Value>>>, AllocError>
    requires short { position < 2 ^ 32 }
    ensures { AreKnown known.now
        → IfOk result (λ o. IfSome o (λ next. IsStep known.now site.now.class site.now.number site.now.body.now site.now.starts.now position (option_copied here.entry) next)) }
{
    let insns = site.body.insns.as_slice();
    match insns.get(position) {
        Some(insn) => placed(
            alloc,
            known,
            site,
            position as u32,
            insn_before(insns, position),
            insn,
            here,
        ),
        None => Ok(None),
    }
}

/// The frame of some registers.
fn frame_of(registers: Option<PatMap<Value>>) -> Option<Frame>
    ensures { registers_in result ≡ registers }
{
    match registers {
        Some(registers) => Some(Frame::of(registers)),
        None => None,
    }
}

/// What is known of a position.
fn start_at(starts: &[Start], position: usize) -> Option<&Start>
    ensures { option_copied result ≡ slice_get starts.now position }
{
    starts.get(position)
}

/// Fills in the frame of a position, and answers what the position hands on; none where what comes there isn't known, or
/// what leaves it.
fn fill_at(
    alloc: Global,
    known: &Known<'_>,
    site: &Site<'_>,
    position: usize,
    next: Option<PatMap<Value>>,
    frames: &mut Vec<Option<Frame>>,
) -> Result<Option<Option<PatMap<Value>>>, AllocError>
    requires { position < 2 ^ 32 }
    ensures { AreKnown known.now
        → IsFilling known.now site.now.class site.now.number site.now.body.now site.now.starts.now frames.old.items position next
        → IfOk result (λ o. IfSome o (λ after. IsFilling known.now site.now.class site.now.number site.now.body.now site.now.starts.now
        frames.new.items (position + 1) after)) }
{
    let Some(here) = arrived(start_at(site.starts, position), next)? else {
        return Ok(None);
    };
    let Some(after) = handed_on(alloc, known, site, position, here.as_ref())? else {
        return Ok(None);
    };
    frames.push(frame_of(here))?;
    Ok(Some(after))
}

/// The frames of a body from what is known where its blocks begin; none where that isn't closed.
#[tactic(auto, using(crate::proofs::Filling::none_filled))]
fn walk(
    alloc: Global,
    known: &Known<'_>,
    site: &Site<'_>,
) -> Result<Option<Vec<Option<Frame>>>, AllocError>
    ensures { AreKnown known.now
        → IfOk result (λ o. IfSome o (λ frames. IsFilled known.now site.now.class site.now.number site.now.body.now site.now.starts.now frames.items)) }
{
    let count = site.body.insns.len();
    if count >= 4294967296 || site.starts.len() != count {
        return Ok(None);
    }
    let mut frames = Vec::with_capacity(alloc, count)?;
    let mut next: Option<PatMap<Value>> = None;
    for position in 0..count {
        let Some(after) = fill_at(alloc, known, site, position, next, &mut frames)? else {
            return Ok(None);
        };
        next = after;
    }
    if next.is_some() {
        return Ok(None);
    }
    Ok(Some(frames))
}

/// Whether the last registers are at or above the parameters of a method.
fn takes_parameters(
    known: &Known<'_>,
    number: u32,
    free: u16,
    ins: u16,
    registers: &PatMap<Value>,
) -> bool
    ensures { result ≡ true → TakesParameters known.now number free ins registers.now }
{
    for word in 0..ins {
        let value = value_at(registers, u32::from(free) + u32::from(word));
        if !is_below(known.facts.parameter(number, u32::from(word)), &value) {
            return false;
        }
    }
    true
}

/// Whether the first registers may be anything.
fn leaves_free(free: u16, registers: &PatMap<Value>) -> bool
    ensures { result ≡ true → LeavesFree free registers.now }
{
    for register in 0..free {
        if !is_any(&value_at(registers, u32::from(register))) {
            return false;
        }
    }
    true
}

/// Whether the registers at an entry are at or above what a call leaves there.
fn begins_at(known: &Known<'_>, number: u32, body: &Body, registers: &PatMap<Value>) -> bool
    ensures { result ≡ true → BeginsAt known.now.facts.now number body.now registers.now }
{
    let free = body.registers.saturating_sub(body.ins);
    takes_parameters(known, number, free, body.ins, registers) && leaves_free(free, registers)
}

/// The same, where a run comes to the entry.
fn begins(known: &Known<'_>, number: u32, body: &Body, frames: &[Option<Frame>]) -> bool
    ensures { result ≡ true → BeginsWhere known.now.facts.now number body.now (registers_of frames.now 0) }
{
    match frames.first() {
        Some(Some(frame)) => begins_at(known, number, body, &frame.registers),
        _ => true,
    }
}

/// The frames of the code of a method from what is known where its blocks begin; none where that isn't closed, or the
/// method isn't live.
#[tactic(auto, using(crate::proofs::Filling::filled_frames))]
pub(crate) fn fill_body(
    alloc: Global,
    known: &Known<'_>,
    site: &Site<'_>,
) -> Result<Option<Vec<Option<Frame>>>, AllocError>
    ensures { AreKnown known.now → IfOk result (λ o. IfSome o (λ frames. AreFrames known.now site.now.class site.now.number site.now.body.now frames.items)) }
{
    if !is_on(&known.live.methods, site.number) {
        return Ok(None);
    }
    match walk(alloc, known, site)? {
        Some(frames) => {
            if begins(known, site.number, site.body, &frames) {
                Ok(Some(frames))
            } else {
                Ok(None)
            }
        }
        None => Ok(None),
    }
}
