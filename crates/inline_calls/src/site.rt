//! Which calls are sites by themselves: what is called, and what is known at the call.

ghost use Rattle.std.specs.Prelude.{◌≡◌, true, false, Some, IfSome, IfNone, MatchOption, slice_get};
ghost use Rattle.std.specs.List.{list_any};
ghost use Rattle.hierarchy.specs.Shapes.{IsOf};
ghost use Rattle.program_model.specs.Lookups.{method_at};
ghost use Rattle.inline_calls.specs.Candidates.{found_by, covers_alone, result_stands_alone, is_small, has_registers, is_plain, is_beside, is_suited, KnowsReceiver, receiver_in, EntersAtOnce, IsCandidate, IsUnsuited};
ghost use Rattle.splice.specs.declared.callee.Callee.{Callee};

use crate::agreeing::is_agreeing;
use crate::found::{method_at, word};
use crate::texts::{is_constructor_name, name_units};
use facts::Facts;
use hierarchy::Hierarchy;
use insn_set::{Insn, InvokeKind};
use program_model::{Body, Class, Flags, Method, MethodAt, Program, Region};
use splice::{Callee, taken_behind};

/// How many instructions a method that is inlined has at most.
const MOST_INSNS: usize = 16;

/// How many registers a caller and a method that is inlined have together at most.
const MOST_REGISTERS: u32 = 16;

/// A program with what is known of it.
#[derive(Drop)]
pub struct Known<'p> {
    pub program: &'p Program,
    pub hierarchy: &'p Hierarchy,
    pub facts: &'p Facts,
}

/// A method with code, by its place and its class.
#[derive(Clone, Copy)]
pub struct Caller<'p> {
    pub at: MethodAt,
    pub class: &'p Class,
    pub method: &'p Method,
    pub body: &'p Body,
}

/// Whether a region covers a position and no other.
fn covers_alone(region: &Region, position: u32) -> bool
    ensures { result ≡ covers_alone position region.now }
{
    region.first == position && region.end == position.saturating_add(1)
}

/// Whether some region covers a position and no other.
fn stands_alone(regions: &[Region], position: u32) -> bool
    ensures { result ≡ list_any (covers_alone position) regions.now }
{
    regions.iter().any(|region| covers_alone(region, position))
}

/// Whether a move-result stands behind a position that is all that some region covers.
fn result_stands_alone(body: &Body, position: usize) -> bool
    ensures { result ≡ result_stands_alone body.now position }
{
    taken_behind(body.insns.as_slice(), position).is_some()
        && stands_alone(body.regions.as_slice(), word(position).saturating_add(1))
}

/// Whether a body is short enough to be copied, and has no regions.
fn is_small(body: &Body) -> bool
    ensures { result ≡ is_small body.now }
{
    body.insns.len() <= MOST_INSNS && body.regions.is_empty()
}

/// Whether a caller has room for the registers of a method that it calls.
fn has_registers(caller: &Body, callee: &Body) -> bool
    ensures { result ≡ has_registers caller.now callee.now }
{
    u32::from(caller.registers) + u32::from(callee.registers) <= MOST_REGISTERS
}

/// Whether a place is that of another method of the same class.
fn is_beside(at: MethodAt, found: MethodAt) -> bool
    ensures { result ≡ is_beside at found }
{
    found.class == at.class && found.place != at.place
}

/// Whether a method is no constructor.
fn is_plain(program: &Program, method: &Method) -> bool
    ensures { result ≡ is_plain program.now method.now }
{
    !is_constructor_name(name_units(program, method.name))
}

/// Whether a method is another plain one of the caller's class, which is short enough to be copied at a position.
fn is_suited(
    program: &Program,
    caller: Caller<'_>,
    position: usize,
    place: MethodAt,
    callee: Callee<'_>,
) -> bool
    ensures { result ≡ is_suited program.now caller.entry position place callee.entry.method.now callee.entry.body.now }
{
    is_beside(caller.at, place)
        && is_plain(program, callee.method)
        && is_small(callee.body)
        && has_registers(caller.body, callee.body)
        && !result_stands_alone(caller.body, position)
}

/// The register of a call's receiver, 65,535 where it passes none.
fn receiver_in(insn: &Insn) -> u16
    ensures { result ≡ receiver_in insn.now }
{
    match insn {
        Insn::Invoke { args, .. } => match args.as_slice() {
            [receiver, ..] => *receiver,
            [] => u16::MAX,
        },
        _ => u16::MAX,
    }
}

/// Whether the facts know that a register holds no null at a position of a method.
fn knows_receiver(facts: &Facts, method: u32, position: u32, register: u16) -> bool
    ensures known { result ≡ true → KnowsReceiver facts.now method position register }
    ensures unknown { result ≡ false → KnowsReceiver facts.now method position register → ⊥ }
{
    match facts.at(method, position) {
        Some(frame) => frame.get(u32::from(register)).not_null(),
        None => false,
    }
}

impl<'p> Known<'p> {
    /// The program method that a static or direct call finds.
    fn found(&self, insn: &Insn) -> Option<MethodAt>
        ensures { IsOf self.now.program.now self.now.hierarchy.now → result ≡ found_by self.now.program.now insn.now }
    {
        match insn {
            Insn::Invoke {
                kind: InvokeKind::Static | InvokeKind::Direct,
                method,
                ..
            } => self.hierarchy.find_static(self.program, *method),
            _ => None,
        }
    }

    /// Whether a call enters the method that it finds at once: initialising the class runs no code, or the receiver is not
    /// null.
    fn enters(
        &self,
        caller: &Method,
        position: usize,
        insn: &Insn,
        callee: &Method,
        class: u32,
    ) -> bool
        ensures enters { result ≡ true → EntersAtOnce self.now caller.now position insn.now callee.now class }
        ensures late { result ≡ false → EntersAtOnce self.now caller.now position insn.now callee.now class → ⊥ }
    {
        if callee.flags.has(Flags::STATIC) {
            self.hierarchy.trivially_initialised(self.program, class)
        } else {
            knows_receiver(self.facts, caller.name, word(position), receiver_in(insn))
        }
    }

    /// The method with code at a place.
    fn callee_at(&self, at: MethodAt) -> Option<Callee<'p>>
        ensures method { IfSome result (λ y. method_at self.now.program.now at ≡ Some y.method.now) }
        ensures code { IfSome result (λ y. y.method.now.body ≡ Some y.body.now) }
        ensures none { IfNone result ((y : Callee) → method_at self.now.program.now at ≡ Some y.method.now → y.method.now.body ≡ Some y.body.now → ⊥) }
    {
        let method = match method_at(self.program, at) {
            Some(method) => method,
            None => return None,
        };
        match &method.body {
            Some(body) => Some(Callee { method, body }),
            None => None,
        }
    }

    /// The method that may be copied in place of the instruction at a position of a caller, by what is called and by what
    /// is known there.
    pub fn candidate(&self, caller: Caller<'_>, position: usize, insn: &Insn) -> Option<Callee<'p>>
        requires { slice_get caller.body.now.insns position ≡ Some insn.now }
        ensures { MatchOption result (IsUnsuited self.now caller.entry position) (IsCandidate self.now caller.entry position) }
    {
        let place = match self.found(insn) {
            Some(place) => place,
            None => return None,
        };
        let callee = match self.callee_at(place) {
            Some(callee) => callee,
            None => return None,
        };
        if !is_suited(self.program, caller, position, place, callee) {
            return None;
        }
        if !is_agreeing(self.program, caller.body, position, insn, callee.method) {
            return None;
        }
        if self.enters(caller.method, position, insn, callee.method, place.class) {
            Some(callee)
        } else {
            None
        }
    }
}
