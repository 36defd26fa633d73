//! The new body of a caller.

ghost use Rattle.std.specs.Prelude.{◌≡◌, map, not, nat_eq, IfOk};
ghost use Rattle.std.specs.List.{list_any};
ghost use Rattle.splice.specs.Pieces.{lines_of, spliced};

use crate::callee::{Callee, greatest};
use crate::copying::move_regions;
use crate::pieces::{Piece, Room};
use crate::places::places_of;
use insn_set::Insn;
use program_model::{Body, Method, Origin, Program};
use seq::Seq;
use std::alloc::{AllocError, Global};

/// A new body, the line of each of its positions, and where each comes from. There are no lines where no position has one.
#[derive(Drop)]
pub struct Spliced {
    pub body: Body,
    pub lines: Seq<u32>,
    pub origins: Seq<Origin>,
}

/// A caller with its code, and the method that is to be copied at each of its positions. What is chosen has to be a call.
#[derive(Drop)]
pub struct Plan<'p> {
    pub program: &'p Program,
    pub caller: &'p Method,
    pub body: &'p Body,
    pub chosen: &'p [Option<Callee<'p>>],
}

/// Instructions, lines and origins apart.
#[derive(Drop)]
struct Parts {
    insns: Vec<Insn>,
    lines: Vec<u32>,
    origins: Vec<Origin>,
}

/// Takes the parts of instructions apart.
fn parts_of(alloc: Global, pieces: Vec<Piece>) -> Result<Parts, AllocError>
    ensures insns { IfOk result (λ parts. parts.insns.items ≡ map (λ q. q.insn) pieces.items) }
    ensures lines { IfOk result (λ parts. parts.lines.items ≡ map (λ q. q.line) pieces.items) }
    ensures origins { IfOk result (λ parts. parts.origins.items ≡ map (λ q. q.origin) pieces.items) }
{
    let mut parts = Parts {
        insns: Vec::new(alloc),
        lines: Vec::new(alloc),
        origins: Vec::new(alloc),
    };
    for piece in pieces {
        let Piece { insn, line, origin } = piece;
        parts.insns.push(insn)?;
        parts.lines.push(line)?;
        parts.origins.push(origin)?;
    }
    Ok(parts)
}

/// Whether some line is among these.
fn is_any(lines: &[u32]) -> bool
    ensures { result ≡ list_any (λ line. not (nat_eq line 0)) lines.now }
{
    lines.iter().any(|line| *line != 0)
}

/// The lines, or none where no line is among them.
fn lines_of(alloc: Global, lines: Vec<u32>) -> Vec<u32>
    ensures { result.items ≡ lines_of lines.items }
{
    if is_any(lines.as_slice()) {
        lines
    } else {
        Vec::new(alloc)
    }
}

impl Plan<'_> {
    /// The caller with copies of the chosen methods in place of its calls. The only error is want of memory.
    pub fn spliced(&self, alloc: Global) -> Result<Spliced, AllocError>
        ensures { IfOk result (λ new. new ≡ spliced self.now.program.now self.now.caller.now self.now.body.now self.now.chosen.now) }
    {
        let insns = self.body.insns.as_slice();
        let shift = greatest(self.chosen);
        let places = places_of(alloc, self.program, self.chosen, shift, insns)?;
        let room = Room {
            program: self.program,
            caller: self.caller,
            insns,
            chosen: self.chosen,
            shift,
            places: places.as_slice(),
        };
        let pieces = room.pieces(alloc)?;
        let parts = parts_of(alloc, pieces)?;
        let mut regions = self.body.regions.clone()?;
        move_regions(regions.items.as_mut_slice(), places.as_slice());
        Ok(Spliced {
            body: Body {
                registers: self.body.registers.saturating_add(shift),
                ins: self.body.ins,
                insns: Seq::of_vec(parts.insns),
                regions,
            },
            lines: Seq::of_vec(lines_of(alloc, parts.lines)),
            origins: Seq::of_vec(parts.origins),
        })
    }
}
