//! The whole code item (Dalvik executable format, "code_item").

ghost use Rattle.std.specs.Prelude.{◌≡◌, ◌++◌, ◌∷◌, [], max, length, IfOk, OnOk};
ghost use Rattle.code_write.specs.Code.{spots_of};
ghost use Rattle.code_write.specs.Units.{unit_bytes};
ghost use Rattle.code_write.specs.Items.{words_passed, outs_of, header_units, code_end, gap_behind, tail_text, code_item, IsTail, IsItem};

use crate::bytes::{push_pad, push_units};
use crate::insn::push_code;
use crate::lists::lists_of;
use crate::payload::push_payloads;
use crate::tries::push_tries;
use crate::units::{high, low};
use program_model::{Body, Insn, Region, Renumber};
use relax::Layout;
use std::alloc::{AllocError, Global};

/// A code item, and the most words that a call in it passes.
#[derive(Drop)]
pub struct CodeBytes {
    pub bytes: Vec<u8>,
    pub outs: u16,
}

/// How many words the instruction passes to a method.
fn words_passed(insn: &Insn) -> u16
    ensures { result ≡ words_passed insn.now }
{
    match insn {
        Insn::Invoke { args, .. } => args.as_slice().len().min(0xffff) as u16,
        _ => 0,
    }
}

/// The most words that an instruction passes.
fn outs_of(insns: &[Insn]) -> u16
    ensures { result ≡ outs_of insns.now }
{
    let mut most: u16 = 0;
    for insn in insns {
        most = most.max(words_passed(insn));
    }
    most
}

/// Adds the fields before the units.
fn push_header(
    out: &mut Vec<u8>,
    body: &Body,
    outs: u16,
    size: u32,
    debug: u32,
) -> Result<(), AllocError>
    ensures { OnOk result (out.new.items ≡ out.old.items ++ unit_bytes (header_units body.now outs size debug)) }
{
    let tries = body.regions.len().min(0xffff) as u16;
    push_units(
        out,
        &[
            body.registers,
            body.ins,
            outs,
            tries,
            low(debug),
            high(debug),
            low(size),
            high(size),
        ],
    )
}

/// Where the code ends that begins behind the 16 bytes of the header, in units.
fn code_end(bytes: usize) -> u32
    ensures { result ≡ code_end bytes }
{
    (bytes.saturating_sub(16) / 2).min(0xffff_ffff) as u32
}

/// The ranges under handlers and the handlers' lists; nothing where no region has any.
fn tail_of(
    alloc: Global,
    regions: &[Region],
    layout: &Layout,
    end: u32,
    numbers: &Renumber,
) -> Result<Vec<u8>, AllocError>
    ensures is { IfOk result (λ v. v.items ≡ tail_text numbers.now (spots_of layout.now) end regions.now) }
    ensures stand { IfOk result (λ v. IsTail numbers.now (spots_of layout.now) end regions.now v.items) }
{
    let mut tail = Vec::new(alloc);
    if regions.is_empty() {
        return Ok(tail);
    }
    let lists = lists_of(alloc, regions, numbers, &layout.starts, end)?;
    push_tries(&mut tail, regions, &layout.starts, end, &lists.offsets)?;
    tail.extend_from_slice(&lists.text)?;
    Ok(tail)
}

/// Adds a zero unit where there are regions and the bytes end at an odd unit.
fn push_gap(out: &mut Vec<u8>, regions: usize) -> Result<(), AllocError>
    ensures { OnOk result (out.new.items ≡ gap_behind regions out.old.items) }
{
    if regions > 0 { push_pad(out) } else { Ok(()) }
}

/// The code item of the body in this layout, which is to be its least one, with the new numbers of strings, types,
/// fields and methods: the header, in which the offset of the debug item is `debug`, the instructions, each in the first
/// spelling with room, the payloads, each at an even unit, and where there are regions a zero unit up to an even one, a
/// range for each region and each different list of handlers once, those of fewer bytes first and equally long ones by
/// first use. The only error is want of memory.
#[tactic(auto, unfolding(crate::specs::Items::code_item))]
pub fn write_body_with(
    alloc: Global,
    body: &Body,
    layout: &Layout,
    numbers: &Renumber,
    debug: u32,
) -> Result<CodeBytes, AllocError>
    ensures is { IfOk result (λ code. code.bytes.items ≡ code_item numbers.now body.now (spots_of layout.now) debug) }
    ensures stand { IfOk result (IsItem numbers.now body.now (spots_of layout.now) debug) }
{
    let insns = body.insns.as_slice();
    let regions = body.regions.as_slice();
    let outs = outs_of(insns);
    let mut bytes = Vec::new(alloc);
    push_header(&mut bytes, body, outs, layout.size, debug)?;
    push_code(&mut bytes, insns, layout, numbers)?;
    let end = code_end(bytes.len());
    push_payloads(&mut bytes, insns, layout)?;
    let tail = tail_of(alloc, regions, layout, end, numbers)?;
    push_gap(&mut bytes, regions.len())?;
    bytes.extend_from_slice(&tail)?;
    Ok(CodeBytes { bytes, outs })
}

/// The code item of the body as `write_body_with` writes it, without a debug item.
pub fn write_body(
    alloc: Global,
    body: &Body,
    layout: &Layout,
    numbers: &Renumber,
) -> Result<CodeBytes, AllocError>
    ensures is { IfOk result (λ code. code.bytes.items ≡ code_item numbers.now body.now (spots_of layout.now) 0) }
    ensures stand { IfOk result (IsItem numbers.now body.now (spots_of layout.now) 0) }
{
    write_body_with(alloc, body, layout, numbers, 0)
}
