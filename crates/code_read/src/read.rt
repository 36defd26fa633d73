//! A body from its units and try items.

ghost use Rattle.std.specs.Prelude.{◌≡◌, ◌-◌, ◌<◌, ◌≤◌, ◌^◌, length, All, IsTrue, IfOk, slice_get, slice_index, Err};
ghost use Rattle.std.specs.List.{list_all};
ghost use Rattle.dex_base.specs.Reading.{Gives};
ghost use Rattle.code_read.specs.Checks.{operands_inside, targets_inside};
ghost use Rattle.code_read.specs.Code.{check_targets, check_last, check_flow, check_places, placed, body_at, body_of, code_of};
ghost use Rattle.code_read.specs.Fault.{is_free};
ghost use Rattle.code_read.specs.declared.fault.CodeFault.TheVariants.{NoMemory};
ghost use Rattle.code_read.specs.Order.{ends, all_placed};
ghost use Rattle.code_read.specs.Regions.{region_inside, are_apart, regions_of};
ghost use Rattle.code_read.specs.Seen.{seen};

use crate::checks::first_outside;
use crate::decode::{check_payloads, insns_of};
use crate::fault::CodeFault;
use crate::order::{ends_well, first_gap, first_misplaced};
use crate::places::Places;
use crate::positions::places_in;
use crate::regions::regions_of;
use crate::sizes::Sizes;
use insn_set::Insn;
use program_model::{Body, Region};
use seq::Seq;
use std::alloc::Global;

/// The first unit of a position; 0 where there is no such position.
fn start_of(starts: &[u32], place: usize) -> u32
    ensures { result ≡ slice_index starts.now place }
{
    match starts.get(place) {
        Some(start) => *start,
        None => 0,
    }
}

/// That each branch goes to positions, else `Target`.
fn check_targets(starts: &[u32], insns: &[Insn]) -> Result<(), CodeFault>
    requires { length insns.now < 2 ^ 32 }
    ensures is { result ≡ check_targets starts.now insns.now }
    ensures inside { IfOk result (λ _. IsTrue (list_all (λ insn. targets_inside (length insns.now) insn) insns.now)) }
{
    match first_outside(insns, insns.len() as u32) {
        Some(place) => Err(CodeFault::Target {
            unit: start_of(starts, place),
        }),
        None => Ok(()),
    }
}

/// That there is a last instruction, and it does not continue, else `FallsOff`.
fn check_last(starts: &[u32], insns: &[Insn]) -> Result<(), CodeFault>
    ensures is { result ≡ check_last starts.now insns.now }
    ensures last { IfOk result (λ _. IsTrue (ends (slice_get insns.now (length insns.now - 1)))) }
{
    if ends_well(insns) {
        Ok(())
    } else {
        Err(CodeFault::FallsOff {
            unit: start_of(starts, insns.len().saturating_sub(1)),
        })
    }
}

/// That no instruction continues into none, else `FallsOff`.
fn check_flow(units: &[u16], starts: &[u32], insns: &[Insn]) -> Result<(), CodeFault>
    ensures is { result ≡ check_flow units.now starts.now insns.now }
    ensures last { IfOk result (λ _. IsTrue (ends (slice_get insns.now (length insns.now - 1)))) }
{
    match first_gap(units, starts, insns) {
        Some(place) => Err(CodeFault::FallsOff {
            unit: start_of(starts, place),
        }),
        None => check_last(starts, insns),
    }
}

/// That each move-result and move-exception may stand where it does, else `Misplaced`. Where the regions are not known,
/// it goes by branches and the instruction before it alone.
fn check_places(
    alloc: Global,
    starts: &[u32],
    insns: &[Insn],
    regions: &[Region],
    known: bool,
) -> Result<(), CodeFault>
    ensures gives { Gives is_free (λ u. u) result (check_places starts.now insns.now regions.now known) }
    ensures placed { IsTrue known → IfOk result (λ _. IsTrue (all_placed insns.now regions.now)) }
{
    let found = first_misplaced(alloc, insns, regions, known)?;
    match found {
        Some(place) => Err(CodeFault::Misplaced {
            unit: start_of(starts, place),
        }),
        None => Ok(()),
    }
}

/// The fault of a body whose regions have this fault: `Misplaced` where a move-result or a move-exception may not stand
/// where it does whatever the handlers are, else that of the regions.
fn fault_before(
    alloc: Global,
    starts: &[u32],
    insns: &[Insn],
    fault: CodeFault,
) -> Result<Vec<Region>, CodeFault>
    ensures gives { Gives is_free (λ v. v.items) result (placed starts.now insns.now (Err fault)) }
    ensures free { IsTrue (is_free fault) → result ≡ Err NoMemory }
{
    match fault {
        CodeFault::NoMemory => Err(CodeFault::NoMemory),
        fault => {
            check_places(alloc, starts, insns, &[], false)?;
            Err(fault)
        }
    }
}

/// The regions of the instructions, among which each move-result and move-exception may stand where it does.
fn placed_regions(
    alloc: Global,
    tries: &[u8],
    sizes: &Sizes,
    places: &Places,
    insns: &[Insn],
) -> Result<Vec<Region>, CodeFault>
    ensures gives { Gives is_free (λ v. v.items) result (placed places.now.starts.items insns.now (regions_of tries.now sizes.now (seen places.now))) }
    ensures inside { IfOk result (λ regions. IsTrue (list_all (region_inside sizes.now.types (length places.now.starts.items)) regions.items)) }
    ensures apart { IfOk result (λ regions. IsTrue (are_apart 0 regions.items)) }
    ensures placed { IfOk result (λ regions. IsTrue (all_placed insns.now regions.items)) }
{
    match regions_of(alloc, tries, sizes, places) {
        Ok(regions) => {
            check_places(
                alloc,
                places.starts.as_slice(),
                insns,
                regions.as_slice(),
                true,
            )?;
            Ok(regions)
        }
        Err(fault) => fault_before(alloc, places.starts.as_slice(), insns, fault),
    }
}

/// The body whose instructions and payloads begin at these places.
#[tactic(auto, unfolding(crate::specs::Code::body_at))]
fn body_at(alloc: Global, tries: &[u8], sizes: &Sizes, places: &Places) -> Result<Body, CodeFault>
    ensures gives { Gives is_free (λ body. body) result (body_at tries.now sizes.now (seen places.now)) }
    ensures registers { IfOk result (λ body. body.registers ≡ sizes.now.registers) }
    ensures ins { IfOk result (λ body. body.ins ≡ sizes.now.ins) }
    ensures starts { IfOk result (λ body. length places.now.starts.items ≡ length body.insns) }
    ensures operands { IfOk result (λ body. IsTrue (list_all (operands_inside sizes.now) body.insns)) }
    ensures targets { IfOk result (λ body. IsTrue (list_all (targets_inside (length body.insns)) body.insns)) }
    ensures last { IfOk result (λ body. IsTrue (ends (slice_get body.insns (length body.insns - 1)))) }
    ensures regions { IfOk result (λ body. IsTrue (list_all (region_inside sizes.now.types (length body.insns)) body.regions)) }
    ensures apart { IfOk result (λ body. IsTrue (are_apart 0 body.regions)) }
    ensures placed { IfOk result (λ body. IsTrue (all_placed body.insns body.regions)) }
{
    let starts = places.starts.as_slice();
    check_payloads(places)?;
    let insns = insns_of(alloc, places, sizes)?;
    check_targets(starts, insns.as_slice())?;
    check_flow(places.units, starts, insns.as_slice())?;
    let regions = placed_regions(alloc, tries, sizes, places, insns.as_slice())?;
    Ok(Body {
        registers: sizes.registers,
        ins: sizes.ins,
        insns: Seq::of_vec(insns),
        regions: Seq::of_vec(regions),
    })
}

/// The body that the units and the try items spell, and the first unit of each of its positions.
///
/// `tries` holds `sizes.tries` try items and the handler lists behind them. The faults are those of [`read_body`].
#[tactic(auto, unfolding(crate::specs::Code::code_of))]
pub fn read_code(
    alloc: Global,
    units: &[u16],
    tries: &[u8],
    sizes: &Sizes,
) -> Result<(Body, Vec<u32>), CodeFault>
    requires { length units.now < 2 ^ 32 }
    ensures gives { Gives is_free (λ r. (r.0, r.1.items)) result (code_of units.now tries.now sizes.now) }
    ensures registers { IfOk result (λ r. r.0.registers ≡ sizes.now.registers) }
    ensures ins { IfOk result (λ r. r.0.ins ≡ sizes.now.ins) }
    // There is one start for each position.
    ensures starts { IfOk result (λ r. length r.1.items ≡ length r.0.insns) }
    ensures few { IfOk result (λ r. length r.0.insns ≤ length units.now) }
    // Registers and numbers of tables are in range.
    ensures operands { IfOk result (λ r. IsTrue (list_all (operands_inside sizes.now) r.0.insns)) }
    // Branches go to positions.
    ensures targets { IfOk result (λ r. IsTrue (list_all (targets_inside (length r.0.insns)) r.0.insns)) }
    // There is a last instruction, and it does not continue.
    ensures last { IfOk result (λ r. IsTrue (ends (slice_get r.0.insns (length r.0.insns - 1)))) }
    // Regions cover positions, and their handlers are positions.
    ensures regions { IfOk result (λ r. IsTrue (list_all (region_inside sizes.now.types (length r.0.insns)) r.0.regions)) }
    ensures apart { IfOk result (λ r. IsTrue (are_apart 0 r.0.regions)) }
    // Each move-result and move-exception stands where it may.
    ensures placed { IfOk result (λ r. IsTrue (all_placed r.0.insns r.0.regions)) }
{
    let places = places_in(alloc, units)?;
    let body = body_at(alloc, tries, sizes, &places)?;
    let Places { starts, .. } = places;
    Ok((body, starts))
}

/// The body that the units and the try items spell (Dalvik bytecode, and Dalvik executable format, "code_item").
///
/// `tries` holds `sizes.tries` try items, eight bytes each, and the handler lists behind them; `sizes` says what the
/// numbers are compared with. `Opcode` and `Cut` come in the order of the units. Where there is none of them, the
/// first `Payload` is answered, else the first `Operand`, `Target`, `FallsOff` or `Misplaced`, in this order, each by
/// position. Else each region's `Region`, `Handler` or `Limit` comes in the order of the list; a region that covers
/// no position has none and is left out. `Limit` is also answered where the tables of switches and arrays have more
/// entries than a program may have cells.
#[tactic(auto, unfolding(crate::specs::Code::body_of))]
pub fn read_body(
    alloc: Global,
    units: &[u16],
    tries: &[u8],
    sizes: &Sizes,
) -> Result<Body, CodeFault>
    requires { length units.now < 2 ^ 32 }
    // What is read, and each fault with its unit or place, are those of the definition.
    ensures gives { Gives is_free (λ body. body) result (body_of units.now tries.now sizes.now) }
    ensures registers { IfOk result (λ body. body.registers ≡ sizes.now.registers) }
    ensures ins { IfOk result (λ body. body.ins ≡ sizes.now.ins) }
    ensures few { IfOk result (λ body. length body.insns ≤ length units.now) }
    // Registers and numbers of tables are in range.
    ensures operands { IfOk result (λ body. IsTrue (list_all (operands_inside sizes.now) body.insns)) }
    // Branches go to positions.
    ensures targets { IfOk result (λ body. IsTrue (list_all (targets_inside (length body.insns)) body.insns)) }
    // There is a last instruction, and it does not continue.
    ensures last { IfOk result (λ body. IsTrue (ends (slice_get body.insns (length body.insns - 1)))) }
    // Regions cover positions, lie one behind another, and their handlers are positions.
    ensures regions { IfOk result (λ body. IsTrue (list_all (region_inside sizes.now.types (length body.insns)) body.regions)) }
    ensures apart { IfOk result (λ body. IsTrue (are_apart 0 body.regions)) }
    // Each move-result and move-exception stands where it may.
    ensures placed { IfOk result (λ body. IsTrue (all_placed body.insns body.regions)) }
{
    let places = places_in(alloc, units)?;
    body_at(alloc, tries, sizes, &places)
}
