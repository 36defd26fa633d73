//! Which divisions do nothing.

ghost use Rattle.std.specs.Prelude.{◌≡◌, ◌<◌, ◌^◌, true, length, IfOk};
ghost use Rattle.std.specs.List.{list_any};
ghost use Rattle.std.specs.Option.{option_copied};
ghost use Rattle.domains.specs.Values.{known_of, known_wide_of};
ghost use Rattle.value_ops.specs.Left.{is_nothing};
ghost use Rattle.insn_set.specs.Flow.{divides};
ghost use Rattle.live_regs.specs.Live.{is_live};
ghost use Rattle.quiet_methods.specs.Forms.{is_other_than_zero, is_no_zero};
ghost use Rattle.quiet_code.specs.Idle.{divides_well, unread_by, unread_at, division_at};

use dom_frame::Frame;
use domains::{Nullness, Value};
use flow_cfg::successors;
use insn_set::BinaryOp;
use live_regs::Live;
use program_model::Body;
use std::alloc::{AllocError, Global};

/// A division or a remainder of registers: its operation, its result and its divisor.
#[derive(Clone, Copy)]
pub(crate) struct Division {
    pub(crate) op: BinaryOp,
    pub(crate) to: u16,
    pub(crate) divisor: u16,
}

/// Whether a value holds of nothing.
fn is_nothing(value: &Value) -> bool
    ensures { result ≡ is_nothing value.now }
{
    matches!(value.nullness(), Nullness::Bottom)
}

/// The word, where the value holds of it and of nothing else.
fn known_of(value: &Value) -> Option<u32>
    ensures { result ≡ known_of value.now }
{
    if value.has_no_object() {
        value.word().known()
    } else {
        None
    }
}

/// The wide number, where the value holds of it and of nothing else.
fn known_wide_of(value: &Value) -> Option<u64>
    ensures { result ≡ known_wide_of value.now }
{
    if value.has_no_object() {
        value.word().known_wide()
    } else {
        None
    }
}

/// Whether a word is known, and isn't 0.
fn is_word_other_than_zero(word: Option<u32>) -> bool
    ensures { result ≡ is_other_than_zero word }
{
    match word {
        Some(word) => word != 0,
        None => false,
    }
}

/// Whether a wide number is known, and isn't 0.
fn is_wide_other_than_zero(number: Option<u64>) -> bool
    ensures { result ≡ is_other_than_zero number }
{
    match number {
        Some(number) => number != 0,
        None => false,
    }
}

/// Whether a value holds of one number alone, other than 0, or of nothing.
fn is_no_zero(value: &Value) -> bool
    ensures { result ≡ is_no_zero value.now }
{
    is_nothing(value)
        || (is_word_other_than_zero(known_of(value))
            || is_wide_other_than_zero(known_wide_of(value)))
}

/// Whether a register is known other than 0, or no run comes to the position.
fn divides_well(frame: Option<&Frame>, divisor: u16) -> bool
    ensures { result ≡ divides_well (option_copied frame.entry) divisor }
{
    match frame {
        Some(frame) => is_no_zero(frame.get(u32::from(divisor))),
        None => true,
    }
}

/// Whether a register is live at one of some positions.
fn is_live_at(live: &Live, positions: &[u32], register: u32) -> bool
    ensures { result ≡ list_any (λ m. is_live live.now m register) positions.now }
{
    positions
        .iter()
        .any(|position| live.before(*position, register))
}

/// Whether registers of a body are live at none of some positions: this one, and where it is wide the next one too.
fn is_unread_at(live: &Live, positions: &[u32], registers: u16, wide: bool, to: u16) -> bool
    ensures { result ≡ unread_by (λ r. list_any (λ m. is_live live.now m r) positions.now) registers wide to }
{
    let to = u32::from(to);
    if wide {
        return to + 1 < u32::from(registers)
            && !is_live_at(live, positions, to)
            && !is_live_at(live, positions, to + 1);
    }
    to < u32::from(registers) && !is_live_at(live, positions, to)
}

/// Whether no walk onward from a position reads registers of the body before they are written, as far as it is known what is
/// read later.
fn is_unread(
    alloc: Global,
    body: &Body,
    live: &Option<Live>,
    position: u32,
    wide: bool,
    to: u16,
) -> Result<bool, AllocError>
    requires { length body.now.insns < 2 ^ 32 }
    ensures { IfOk result (λ unread. unread ≡ unread_at live.now body.now position wide to) }
{
    match live {
        Some(live) => {
            let next = successors(alloc, body, position)?;
            Ok(is_unread_at(live, &next, body.registers, wide, to))
        }
        None => Ok(false),
    }
}

/// Whether a division at a position does nothing, where these registers are known.
pub(crate) fn is_idle_division(
    alloc: Global,
    frame: Option<&Frame>,
    body: &Body,
    live: &Option<Live>,
    position: u32,
    division: Division,
) -> Result<bool, AllocError>
    requires { length body.now.insns < 2 ^ 32 }
    ensures may { IfOk result (λ idle. idle ≡ true → divides division.op ≡ true) }
    ensures is { IfOk result (λ idle. idle ≡ division_at (option_copied frame.entry) live.now body.now position division.op division.to division.divisor) }
{
    let Division { op, to, divisor } = division;
    if !op.divides() || !divides_well(frame, divisor) {
        return Ok(false);
    }
    is_unread(alloc, body, live, position, op.is_wide(), to)
}
