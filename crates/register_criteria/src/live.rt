//! Where registers are live.

ghost use Rattle.std.specs.Prelude.{◌≡◌, ◌+◌, ◌<◌, ◌^◌, slice_get};
ghost use Rattle.std.specs.List.{list_any};
ghost use Rattle.flow_cfg.specs.Walks.{handlers_in};
ghost use Rattle.live_regs.specs.Live.{is_live};
ghost use Rattle.live_regs.specs.Liveness.{writes_at};
ghost use Rattle.register_criteria.specs.Live.{is_live_caught, is_live_after, is_hit};

use insn_set::Insn;
use live_regs::Live;
use program_model::{Body, Handler, Region};

/// Whether a register is live at one of some handlers.
fn is_live_handled(live: &Live, handlers: &[Handler], register: u32) -> bool
    ensures { result ≡ list_any (λ h. is_live live.now h.position register) handlers.now }
{
    handlers
        .iter()
        .any(|handler| live.before(handler.position, register))
}

/// Whether a register is live at a handler of a region.
fn is_live_in(live: &Live, region: &Region, register: u32) -> bool
    ensures { result ≡ list_any (λ n. is_live live.now n register) (handlers_in region.now) }
{
    let handled = is_live_handled(live, region.handlers.as_slice(), register);
    match region.rest {
        Some(position) => handled || live.before(position, register),
        None => handled,
    }
}

/// Whether a register is live at a handler of the region at a place.
fn is_live_caught(live: &Live, regions: &[Region], region: u32, register: u32) -> bool
    ensures { result ≡ is_live_caught live.now register (slice_get regions.now region) }
{
    match regions.get(region as usize) {
        Some(one) => is_live_in(live, one, register),
        None => false,
    }
}

/// Whether a register is live where a pure form goes: at the next position, and at the handlers of its region where it may
/// throw.
pub fn is_live_after(
    live: &Live,
    body: &Body,
    insn: &Insn,
    position: u32,
    region: u32,
    register: u32,
) -> bool
    requires { position + 1 < 2 ^ 32 }
    ensures { result ≡ is_live_after live.now body.now region position insn.now register }
{
    live.before(position + 1, register)
        || insn.may_throw() && is_live_caught(live, body.regions.as_slice(), region, register)
}

/// Whether the instruction at a position writes a register.
fn writes_at(insns: &[Insn], position: u32, register: u32) -> bool
    ensures { result ≡ writes_at register (slice_get insns.now position) }
{
    match insns.get(position as usize) {
        Some(insn) => insn.writes(register),
        None => false,
    }
}

/// Whether a register is live behind a position, or written there.
pub fn is_hit(live: &Live, insns: &[Insn], register: u32, position: u32) -> bool
    ensures { result ≡ is_hit live.now insns.now register position }
{
    live.before(position.saturating_add(1), register) || writes_at(insns, position, register)
}
