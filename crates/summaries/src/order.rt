//! In which order bodies are walked through first: behind those that they call, as far as calls don't lead back, and those
//! that put something into fields before others. So what a body reads is mostly known when it is walked through.

use crate::codes::{Code, Codes};
use crate::rows::{NONE, Rows, behind, is_on, rows_of};
use crate::sites::{Site, Sites};
use call_targets::call_number;
use program_model::{Insn, InvokeKind};
use std::alloc::{AllocError, Global};

/// Of how many bodies at most that a call on an object may find each is looked at.
const FEW: usize = 4;

/// A body, and which of those that it calls comes next.
#[derive(Clone, Copy, Drop)]
struct Stop {
    place: u32,
    next: usize,
}

/// The bodies that each body calls, those that were come to, the way to where the visit is, and the order so far.
#[derive(Drop)]
struct Visit {
    calls: Rows,
    seen: Vec<bool>,
    path: Vec<Stop>,
    order: Vec<u32>,
}

/// Adds those bodies of a list that a body calls, if they are few.
fn add_few(place: u32, found: &[u32], pairs: &mut Vec<(u32, u32)>) -> Result<(), AllocError> {
    if found.len() > FEW {
        return Ok(());
    }
    for callee in found {
        pairs.push((place, *callee))?;
    }
    Ok(())
}

/// Adds the bodies that an instruction calls.
fn add_called(
    found: &Rows,
    place: u32,
    site: Site,
    insn: &Insn,
    pairs: &mut Vec<(u32, u32)>,
) -> Result<(), AllocError> {
    match insn {
        Insn::Invoke { kind, method, .. } => match kind {
            InvokeKind::Virtual => add_few(place, found.row(call_number(*method, false)), pairs),
            InvokeKind::Interface => add_few(place, found.row(call_number(*method, true)), pairs),
            _ => {
                if site.writes != NONE {
                    pairs.push((place, site.writes))?;
                }
                Ok(())
            }
        },
        _ => Ok(()),
    }
}

/// Adds the bodies that a body calls.
fn add_calls(
    sites: &Sites,
    found: &Rows,
    place: u32,
    code: &Code<'_>,
    pairs: &mut Vec<(u32, u32)>,
) -> Result<(), AllocError> {
    let mut position = 0u32;
    for insn in code.body.insns.as_slice() {
        add_called(found, place, sites.at(code, position), insn, pairs)?;
        position = behind(position, 1);
    }
    Ok(())
}

/// The bodies that each body calls.
fn calls_of(
    alloc: Global,
    codes: &Codes<'_>,
    sites: &Sites,
    found: &Rows,
) -> Result<Rows, AllocError> {
    let mut pairs = Vec::new(alloc);
    let mut place = 0u32;
    for code in codes.all.as_slice() {
        add_calls(sites, found, place, code, &mut pairs)?;
        place = behind(place, 1);
    }
    rows_of(alloc, codes.all.len(), &pairs)
}

/// Whether an instruction puts something into a field.
fn puts(insn: &Insn) -> bool {
    matches!(insn, Insn::InstancePut { .. } | Insn::StaticPut { .. })
}

impl Visit {
    /// Comes to a body, unless it was come to.
    fn open(&mut self, place: u32) -> Result<(), AllocError> {
        if is_on(&self.seen, place) {
            return Ok(());
        }
        if let Some(seen) = self.seen.get_mut(place as usize) {
            *seen = true;
            self.path.push(Stop { place, next: 0 })?;
        }
        Ok(())
    }

    /// Goes one step on, and answers whether there was one to go.
    fn step(&mut self) -> Result<bool, AllocError> {
        let Some(stop) = self.path.pop() else {
            return Ok(false);
        };
        let called = self.calls.row(stop.place).get(stop.next).copied();
        match called {
            Some(callee) => {
                self.path.push(Stop {
                    place: stop.place,
                    next: stop.next.saturating_add(1),
                })?;
                self.open(callee)?;
            }
            None => self.order.push(stop.place)?,
        }
        Ok(true)
    }

    /// Lists a body behind those that it calls.
    fn visit(&mut self, place: u32) -> Result<(), AllocError> {
        self.open(place)?;
        for _ in 0..u64::MAX {
            if !self.step()? {
                break;
            }
        }
        Ok(())
    }
}

/// All bodies, in the order in which they are walked through first.
pub(crate) fn order_of(
    alloc: Global,
    codes: &Codes<'_>,
    sites: &Sites,
    found: &Rows,
) -> Result<Vec<u32>, AllocError> {
    let mut visit = Visit {
        calls: calls_of(alloc, codes, sites, found)?,
        seen: vec![in alloc; false; codes.all.len()]?,
        path: Vec::new(alloc),
        order: Vec::with_capacity(alloc, codes.all.len())?,
    };
    let mut place = 0u32;
    for code in codes.all.as_slice() {
        if code.body.insns.as_slice().iter().any(|insn| puts(insn)) {
            visit.visit(place)?;
        }
        place = behind(place, 1);
    }
    let mut rest = 0u32;
    for _ in codes.all.as_slice() {
        visit.visit(rest)?;
        rest = behind(rest, 1);
    }
    let Visit { order, .. } = visit;
    Ok(order)
}
