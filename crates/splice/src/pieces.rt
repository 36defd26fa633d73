//! The instructions of a new body, with the line and the origin of each.

ghost use Rattle.std.specs.Prelude.{◌≡◌, ◌+◌, ◌++◌, ◌∷◌, [], map, IfOk, OnOk, is_some, slice_get};
ghost use Rattle.pass_defs.specs.Inlined.{copied_line};
ghost use Rattle.splice.specs.Shifted.{place_in};
ghost use Rattle.splice.specs.Callees.{chosen_at, taken_by};
ghost use Rattle.splice.specs.Places.{inner_places};
ghost use Rattle.splice.specs.Pieces.{line_at, piece_of, returned, copied_insns, copies_from, moved_pieces, copied_pieces, call_pieces, kept_pieces, pieces_at, pieces_from, first_place};

use crate::callee::{Callee, args_of, chosen_at, is_dropped, taken_behind};
use crate::copying::{copied, kept};
use crate::moves::moves_of;
use crate::places::{inner_places, word};
use body_edit::{copied_line, place_in};
use insn_set::{Insn, Slot};
use program_model::{Method, Origin, Program};
use std::alloc::{AllocError, Global};

/// An instruction of a new body, its line, 0 for none, and where it comes from.
#[derive(Drop)]
pub(crate) struct Piece {
    pub(crate) insn: Insn,
    pub(crate) line: u32,
    pub(crate) origin: Origin,
}

/// The line of a position of a method, 0 where it has none.
fn line_at(method: &Method, position: usize) -> u32
    ensures { result ≡ line_at method.now position }
{
    match method.lines.items.get(position) {
        Some(line) => *line,
        None => 0,
    }
}

/// An instruction that comes from a position of a method.
fn piece_of(method: &Method, position: usize, line: u32, insn: Insn) -> Piece
    ensures { result ≡ piece_of method.now position line insn }
{
    Piece {
        insn,
        line,
        origin: Origin {
            method: method.name,
            position: word(position),
        },
    }
}

/// Where a copy ends, what takes the result, and how much higher the registers of the caller are.
#[derive(Clone, Copy)]
struct Spot {
    shift: u16,
    taken: Option<(Slot, u16)>,
    end: u32,
    line: u32,
}

/// What stands in a copy for a return.
fn returned(alloc: Global, spot: Spot, from: u16) -> Result<Vec<Insn>, AllocError>
    ensures { IfOk result (λ insns. insns.items ≡ returned spot.shift spot.taken spot.end from) }
{
    let mut insns = Vec::new(alloc);
    match spot.taken {
        Some((slot, to)) => {
            let to = to.saturating_add(spot.shift);
            insns.push(Insn::Move { slot, to, from })?;
            insns.push(Insn::Goto { target: spot.end })?;
            Ok(insns)
        }
        None => {
            insns.push(Insn::Goto { target: spot.end })?;
            Ok(insns)
        }
    }
}

/// One instruction as a list.
fn one(alloc: Global, insn: Insn) -> Result<Vec<Insn>, AllocError>
    ensures { IfOk result (λ insns. insns.items ≡ insn ∷ []) }
{
    let mut insns = Vec::new(alloc);
    insns.push(insn)?;
    Ok(insns)
}

/// What stands in a copy for an instruction of a method.
fn copied_insns(
    alloc: Global,
    spot: Spot,
    insn: &Insn,
    places: &[u32],
) -> Result<Vec<Insn>, AllocError>
    ensures { IfOk result (λ insns. insns.items ≡ copied_insns spot.shift spot.taken spot.end (place_in places.now) insn.now) }
{
    match insn {
        Insn::Return { from, .. } => returned(alloc, spot, *from),
        Insn::ReturnVoid => one(alloc, Insn::Goto { target: spot.end }),
        _ => one(alloc, copied(alloc, insn, places)?),
    }
}

/// Adds instructions that come from a position of a method.
fn push_all(
    pieces: &mut Vec<Piece>,
    method: &Method,
    position: usize,
    line: u32,
    insns: Vec<Insn>,
) -> Result<(), AllocError>
    ensures { OnOk result (pieces.new.items ≡ pieces.old.items ++ map (piece_of method.now position line) insns.items) }
{
    for insn in insns {
        pieces.push(piece_of(method, position, line, insn))?;
    }
    Ok(())
}

/// Adds what stands in a copy for the instruction at a position of a method.
fn push_copy(
    alloc: Global,
    spot: Spot,
    method: &Method,
    position: usize,
    insn: &Insn,
    places: &[u32],
    pieces: &mut Vec<Piece>,
) -> Result<(), AllocError>
    ensures { OnOk result (pieces.new.items ≡ pieces.old.items ++ map (piece_of method.now position (copied_line spot.line (line_at method.now position))) (copied_insns spot.shift spot.taken spot.end (place_in places.now) insn.now)) }
{
    let insns = copied_insns(alloc, spot, insn, places)?;
    let line = copied_line(spot.line, line_at(method, position));
    push_all(pieces, method, position, line, insns)
}

/// Adds the copies of all instructions of a method.
fn push_copies(
    alloc: Global,
    spot: Spot,
    callee: Callee<'_>,
    places: &[u32],
    pieces: &mut Vec<Piece>,
) -> Result<(), AllocError>
    ensures { OnOk result (pieces.new.items ≡ pieces.old.items ++ copies_from spot.shift spot.taken spot.end (place_in places.now) callee.entry.method.now spot.line 0 callee.entry.body.now.insns) }
{
    let insns = callee.body.insns.as_slice();
    for (position, insn) in insns.iter().enumerate() {
        push_copy(alloc, spot, callee.method, position, insn, places, pieces)?;
    }
    Ok(())
}

/// A caller with the methods that are copied at its positions, how much higher its registers are, and where its positions begin.
#[derive(Drop)]
pub(crate) struct Room<'p> {
    pub(crate) program: &'p Program,
    pub(crate) caller: &'p Method,
    pub(crate) insns: &'p [Insn],
    pub(crate) chosen: &'p [Option<Callee<'p>>],
    pub(crate) shift: u16,
    pub(crate) places: &'p [u32],
}

impl Room<'_> {
    /// Adds a copy that begins at a place, without the moves before it.
    fn push_body(
        &self,
        alloc: Global,
        callee: Callee<'_>,
        position: usize,
        first: u32,
        pieces: &mut Vec<Piece>,
    ) -> Result<(), AllocError>
        ensures { OnOk result (pieces.new.items ≡ pieces.old.items ++ copied_pieces self.now.program.now self.now.caller.now self.now.insns.now self.now.chosen.now self.now.shift self.now.places.now position callee.entry (taken_by (slice_get self.now.insns.now (position + 1))) first) }
    {
        let taken = taken_behind(self.insns, position);
        let spot = Spot {
            shift: self.shift,
            taken,
            end: place_in(self.places, word(position.saturating_add(1))),
            line: line_at(self.caller, position),
        };
        let insns = callee.body.insns.as_slice();
        let places = inner_places(alloc, first, taken.is_some(), insns)?;
        push_copies(alloc, spot, callee, places.as_slice(), pieces)
    }

    /// Adds what stands in place of a call.
    fn push_call(
        &self,
        alloc: Global,
        callee: Callee<'_>,
        position: usize,
        insn: &Insn,
        pieces: &mut Vec<Piece>,
    ) -> Result<(), AllocError>
        ensures { OnOk result (pieces.new.items ≡ pieces.old.items ++ call_pieces self.now.program.now self.now.caller.now self.now.insns.now self.now.chosen.now self.now.shift self.now.places.now position callee.entry insn.now) }
    {
        let moves = moves_of(alloc, self.program, self.shift, callee, args_of(insn))?;
        let first = place_in(self.places, word(position)).saturating_add(word(moves.len()));
        let line = line_at(self.caller, position);
        push_all(pieces, self.caller, position, line, moves)?;
        self.push_body(alloc, callee, position, first, pieces)
    }

    /// Adds an instruction that stays, unless it is a move-result that goes.
    fn push_kept(
        &self,
        alloc: Global,
        position: usize,
        insn: &Insn,
        pieces: &mut Vec<Piece>,
    ) -> Result<(), AllocError>
        ensures { OnOk result (pieces.new.items ≡ pieces.old.items ++ kept_pieces self.now.program.now self.now.caller.now self.now.insns.now self.now.chosen.now self.now.shift self.now.places.now position insn.now) }
    {
        if is_dropped(self.chosen, self.insns, position) {
            return Ok(());
        }
        let insn = kept(alloc, insn, self.shift, self.places)?;
        let line = line_at(self.caller, position);
        pieces.push(piece_of(self.caller, position, line, insn))?;
        Ok(())
    }

    /// Adds what stands in place of an instruction.
    fn push_at(
        &self,
        alloc: Global,
        position: usize,
        insn: &Insn,
        pieces: &mut Vec<Piece>,
    ) -> Result<(), AllocError>
        ensures { OnOk result (pieces.new.items ≡ pieces.old.items ++ pieces_at self.now.program.now self.now.caller.now self.now.insns.now self.now.chosen.now self.now.shift self.now.places.now position insn.now (chosen_at self.now.chosen.now position)) }
    {
        match chosen_at(self.chosen, position) {
            Some(callee) => self.push_call(alloc, callee, position, insn, pieces),
            None => self.push_kept(alloc, position, insn, pieces),
        }
    }

    /// All instructions of the new body.
    pub(crate) fn pieces(&self, alloc: Global) -> Result<Vec<Piece>, AllocError>
        ensures { IfOk result (λ pieces. pieces.items ≡ pieces_from self.now.program.now self.now.caller.now self.now.insns.now self.now.chosen.now self.now.shift self.now.places.now 0 self.now.insns.now) }
    {
        let insns = self.insns;
        let mut pieces = Vec::new(alloc);
        for (position, insn) in insns.iter().enumerate() {
            self.push_at(alloc, position, insn, &mut pieces)?;
        }
        Ok(pieces)
    }
}
