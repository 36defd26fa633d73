//! Which calls do nothing, told once by method number.

ghost use Rattle.std.specs.Prelude.{◌≡◌, Bool, List, true, length, min, IfOk};
ghost use Rattle.std.specs.Option.{option_copied};
ghost use Rattle.program_model.specs.declared.program.Program.{Program};
ghost use Rattle.hierarchy.specs.Shapes.{IsResolved};
ghost use Rattle.quiet_code.specs.Calls.{is_no_null, holds_object, has_object, is_idle_call};
ghost use Rattle.quiet_code.specs.Quiet.{is_direct_call};
ghost use Rattle.quiet_code.specs.Told.{idle_of, idles_upto, AreTold, told_at, is_idle_by};

use crate::calls::Search;
use dom_frame::Frame;
use domains::Nullness;
use insn_set::InvokeKind;
use seq::Words;
use std::alloc::{AllocError, Global};

/// Which calls of a method number do nothing, on an object where they have one: static, direct and virtual ones.
#[derive(Clone, Copy, Drop)]
pub(crate) struct Idle {
    pub(crate) as_static: bool,
    pub(crate) as_direct: bool,
    pub(crate) as_virtual: bool,
}

/// A place as a number of 32 bits, the greatest one where it is past that.
fn word(place: usize) -> u32
    ensures { result ≡ min place 4294967295 }
{
    if place < 0xffff_ffff {
        place as u32
    } else {
        0xffff_ffff
    }
}

impl Search<'_> {
    /// Which calls of a method number do nothing on an object.
    fn idle_of(&self, method: u32) -> Idle
        ensures { IsResolved self.now.program.now self.now.hierarchy.now → result ≡ idle_of self.now.program.now self.now.quiet.now method }
    {
        Idle {
            as_static: self.is_quiet_named(true, method),
            as_direct: self.is_quiet_named(false, method),
            as_virtual: self.is_quiet_virtual(method),
        }
    }

    /// The same for each method number.
    pub(crate) fn idles(&self, alloc: Global) -> Result<Vec<Idle>, AllocError>
        ensures { IsResolved self.now.program.now self.now.hierarchy.now → IfOk result (λ v. AreTold self.now.program.now self.now.quiet.now v.items) }
    {
        let count = self.program.methods.len();
        let mut idles = Vec::with_capacity(alloc, count)?;
        for place in 0..count {
            idles.push(self.idle_of(word(place)))?;
        }
        Ok(idles)
    }
}

/// Whether what is no null has this nullness.
fn is_no_null(nullness: Nullness) -> bool
    ensures { result ≡ is_no_null nullness }
{
    match nullness {
        Nullness::Bottom | Nullness::NotNull => true,
        Nullness::Null | Nullness::Any => false,
    }
}

/// Whether a register isn't null, or no run comes to the position.
fn holds_object(frame: Option<&Frame>, register: u16) -> bool
    ensures { result ≡ holds_object (option_copied frame.entry) register }
{
    match frame {
        Some(frame) => is_no_null(frame.get(u32::from(register)).nullness()),
        None => true,
    }
}

/// Whether the first of a call's registers isn't null, or no run comes to the position.
fn has_object(frame: Option<&Frame>, args: &[u16]) -> bool
    ensures { result ≡ has_object (option_copied frame.entry) args.now }
{
    match args {
        [] => false,
        [register, ..] => holds_object(frame, *register),
    }
}

/// What is told of a method number, that none of its calls does nothing where it is past the end.
fn told_at(idles: &[Idle], method: u32) -> Idle
    ensures { result ≡ told_at idles.now method }
{
    match idles.get(method as usize) {
        Some(idle) => *idle,
        None => Idle {
            as_static: false,
            as_direct: false,
            as_virtual: false,
        },
    }
}

/// Whether a call does nothing, by what is told of its method number.
fn is_idle_by(idle: Idle, frame: Option<&Frame>, kind: InvokeKind, args: &[u16]) -> bool
    ensures may { result ≡ true → is_direct_call kind ≡ true }
    ensures is { result ≡ is_idle_by idle (option_copied frame.entry) kind args.now }
{
    match kind {
        InvokeKind::Static => idle.as_static,
        InvokeKind::Direct => has_object(frame, args) && idle.as_direct,
        InvokeKind::Virtual => has_object(frame, args) && idle.as_virtual,
        InvokeKind::Super | InvokeKind::Interface => false,
    }
}

/// Whether a call does nothing, where these registers are known and this is told of the method numbers.
#[tactic(auto, using(crate::proofs::Known::idle_is))]
pub(crate) fn is_idle_call(
    idles: &[Idle],
    frame: Option<&Frame>,
    kind: InvokeKind,
    method: u32,
    args: &Words,
) -> bool
    ensures may { result ≡ true → is_direct_call kind ≡ true }
    ensures is { (p : Program) (quiet : List Bool) → AreTold p quiet idles.now → result ≡ is_idle_call p quiet (option_copied frame.entry) kind method args.now }
{
    is_idle_by(told_at(idles, method), frame, kind, args.as_slice())
}
