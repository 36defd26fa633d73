//! The code of methods, and their lines (Dalvik executable format, "code_item", "debug_info_item").

ghost use Rattle.std.specs.Prelude.{◌≡◌, ◌+◌, ◌<◌, ◌^◌, ◌++◌, ◌∷◌, [], length, map, take, drop, IsTrue, IfOk, OnOk, slice_get};
ghost use Rattle.std.specs.List.{AllByRecursion, flat_map};
ghost use Rattle.line_tables.specs.Text.{AscendsFrom};
ghost use Rattle.program_model.specs.MemberRules.{proto_of};
ghost use Rattle.code_write.specs.Code.{spots_of};
ghost use Rattle.code_write.specs.Items.{code_item};
ghost use Rattle.dex_write.specs.Plans.{plan_in, spot_of};
ghost use Rattle.dex_write.specs.Codes.{ascend, are_low, parameters_in, lines_text, IsCoded, IsCodedIn, IsPart, code_offset, code_behind, codes_behind, debug_offset, with_debug, code_text, codes_text, lines_behind, count_codes, count_lines, parts_of};

use crate::numbers::{behind, gap, push_words, push_zeros, split, up, word_of};
use crate::ordered::{MethodPart, Numbered, Ordered};
use code_write::write_body;
use line_tables::write_lines;
use program_model::{Body, Class, Method, Program, Renumber};
use relax::{LayFault, Layout, lay_out};
use seq::Seq;
use std::alloc::{AllocError, Global};

/// How many parameters a method's proto has.
fn parameters_of(program: &Program, method: u32) -> Result<u32, AllocError>
    ensures { IfOk result (λ count. count ≡ parameters_in (proto_of program.now method)) }
{
    let Some(name) = program.methods.items.get(method as usize) else {
        return Ok(0);
    };
    match program.protos.items.get(name.proto as usize) {
        Some(proto) => word_of(proto.parameters.len()),
        None => Ok(0),
    }
}

/// Whether the places ascend strictly and are below 2^31.
fn ascend(starts: &[u32]) -> bool
    ensures is { result ≡ ascend 0 starts.now }
    ensures ascends { IsTrue result → AscendsFrom 0 starts.now }
{
    let mut low = 0;
    for start in starts {
        if *start < low || *start >= 1 << 31 {
            return false;
        }
        low = *start + 1;
    }
    true
}

/// Whether the lines are below 2^31.
fn are_low(lines: &[u32]) -> bool
    ensures is { result ≡ are_low lines.now }
    ensures low { IsTrue result → AllByRecursion (λ x. x < 2 ^ 31) lines.now }
{
    for line in lines {
        if *line >= 1 << 31 {
            return false;
        }
    }
    true
}

/// The debug item of a method's lines, empty where it has none. Lines that no debug item can give are left out; a
/// well-formed program has none.
fn lines_of(
    alloc: Global,
    lines: &[u32],
    starts: &[u32],
    parameters: u32,
) -> Result<Vec<u8>, AllocError>
    ensures { IfOk result (λ v. v.items ≡ lines_text parameters lines.now starts.now) }
{
    let mut out = Vec::new(alloc);
    if !lines.is_empty() && lines.len() == starts.len() && ascend(starts) && are_low(lines) {
        write_lines(&mut out, lines, starts, parameters)?;
    }
    Ok(out)
}

/// A method's code item and debug item.
#[derive(Drop)]
struct Code {
    code: Vec<u8>,
    lines: Vec<u8>,
}

/// No code and no lines.
fn no_code(alloc: Global) -> Code
    ensures code { result.code.items ≡ [] }
    ensures lines { result.lines.items ≡ [] }
{
    Code {
        code: Vec::new(alloc),
        lines: Vec::new(alloc),
    }
}

/// The code of a method whose body has this layout.
fn laid_code(
    alloc: Global,
    program: &Program,
    method: &Method,
    body: &Body,
    layout: &Layout,
    numbers: &Renumber,
) -> Result<Code, AllocError>
    ensures code { IfOk result (λ c. c.code.items ≡ code_item numbers.now body.now (spots_of layout.now) 0) }
    ensures lines { IfOk result (λ c. c.lines.items ≡ lines_text (parameters_in (proto_of program.now method.now.name)) method.now.lines layout.now.starts.items) }
{
    let parameters = parameters_of(program, method.name)?;
    let lines = lines_of(alloc, method.lines.as_slice(), &layout.starts, parameters)?;
    let code = write_body(alloc, body, layout, numbers)?.bytes;
    Ok(Code { code, lines })
}

/// The code of a method. A body that has no layout is left out; a well-formed program that lays out has none.
fn code_of(
    alloc: Global,
    program: &Program,
    method: &Method,
    numbers: &Renumber,
) -> Result<Code, AllocError>
    ensures { IfOk result (λ c. IsCoded program.now numbers.now method.now c.code.items c.lines.items) }
{
    let Some(body) = &method.body else {
        return Ok(no_code(alloc));
    };
    match lay_out(alloc, body, numbers) {
        Ok(layout) => laid_code(alloc, program, method, body, &layout, numbers),
        Err(LayFault::NoMemory) => Err(AllocError),
        Err(LayFault::FarBranch { .. }) => Ok(no_code(alloc)),
    }
}

/// The code of the method at a place of a class.
fn code_at(
    alloc: Global,
    program: &Program,
    class: &Class,
    place: u32,
    numbers: &Renumber,
) -> Result<Code, AllocError>
    ensures { IfOk result (λ c. IsCodedIn program.now numbers.now (slice_get class.now.methods place) c.code.items c.lines.items) }
{
    match class.methods.items.get(place as usize) {
        Some(method) => code_of(alloc, program, method, numbers),
        None => Ok(no_code(alloc)),
    }
}

/// The method at a place with its code.
fn part_at(
    alloc: Global,
    program: &Program,
    class: &Class,
    spot: Numbered,
    numbers: &Renumber,
) -> Result<MethodPart, AllocError>
    ensures spot { IfOk result (λ part. spot_of part ≡ spot) }
    ensures coded { IfOk result (IsPart program.now numbers.now class.now) }
{
    let Code { code, lines } = code_at(alloc, program, class, spot.1, numbers)?;
    Ok(MethodPart {
        number: spot.0,
        place: spot.1,
        code: Seq::of_vec(code),
        lines: Seq::of_vec(lines),
    })
}

/// Adds the methods at these places with their code.
pub fn push_parts(
    alloc: Global,
    parts: &mut Vec<MethodPart>,
    program: &Program,
    class: &Class,
    places: &[Numbered],
    numbers: &Renumber,
) -> Result<(), AllocError>
    ensures spots { OnOk result (map spot_of parts.new.items ≡ map spot_of parts.old.items ++ places.now) }
    ensures coded { OnOk result (AllByRecursion (IsPart program.now numbers.now class.now) parts.old.items → AllByRecursion (IsPart program.now numbers.now class.now) parts.new.items) }
{
    for spot in places {
        parts.push(part_at(alloc, program, class, *spot, numbers)?)?;
    }
    Ok(())
}

/// Where a method's code stands that comes behind `at`, 0 where it has none.
pub fn code_offset(at: u32, part: &MethodPart) -> Result<u32, AllocError>
    ensures { IfOk result (λ offset. offset ≡ code_offset at part.now) }
{
    if part.code.is_empty() { Ok(0) } else { up(at) }
}

/// The place behind a method's code that comes behind `at`.
pub fn code_behind(at: u32, part: &MethodPart) -> Result<u32, AllocError>
    ensures { IfOk result (λ place. place ≡ code_behind at part.now) }
{
    if part.code.is_empty() {
        return Ok(at);
    }
    behind(up(at)?, part.code.len())
}

/// The place behind the code of these methods.
pub fn codes_behind(at: u32, parts: &[MethodPart]) -> Result<u32, AllocError>
    ensures { IfOk result (λ place. place ≡ codes_behind at parts.now) }
{
    let mut next = at;
    for part in parts {
        next = code_behind(next, part)?;
    }
    Ok(next)
}

/// Where a method's debug item stands that comes from `at` on, 0 where it has none.
fn debug_offset(at: u32, part: &MethodPart) -> u32
    ensures { result ≡ debug_offset at part.now }
{
    if part.lines.is_empty() { 0 } else { at }
}

/// Adds a code item with the offset of its debug item.
#[tactic(auto, unfolding(crate::specs::Codes::with_debug))]
fn push_with_debug(out: &mut Vec<u8>, code: &[u8], debug: u32) -> Result<(), AllocError>
    ensures { OnOk result (out.new.items ≡ out.old.items ++ with_debug debug code.now) }
{
    let (front, _) = split(code, 8);
    let (_, rest) = split(code, 12);
    out.extend_from_slice(front)?;
    push_words(out, &[debug])?;
    out.extend_from_slice(rest)
}

/// Adds the code of a method behind `at`, at the next multiple of four.
fn push_code(out: &mut Vec<u8>, part: &MethodPart, at: u32, debug: u32) -> Result<(), AllocError>
    ensures { OnOk result (out.new.items ≡ out.old.items ++ code_text at debug part.now) }
{
    if part.code.is_empty() {
        return Ok(());
    }
    push_zeros(out, gap(at))?;
    push_with_debug(out, part.code.as_slice(), debug)
}

/// The places behind code items and debug items.
#[derive(Clone, Copy, Drop)]
pub struct Ends {
    pub code: u32,
    pub lines: u32,
}

/// Adds the code of methods behind `from.code`, their debug items standing from `from.lines` on.
fn push_codes(out: &mut Vec<u8>, parts: &[MethodPart], from: Ends) -> Result<Ends, AllocError>
    ensures text { OnOk result (out.new.items ≡ out.old.items ++ codes_text from.code from.lines parts.now) }
    ensures code { IfOk result (λ ends. ends.code ≡ codes_behind from.code parts.now) }
    ensures lines { IfOk result (λ ends. ends.lines ≡ lines_behind from.lines parts.now) }
{
    let mut code = from.code;
    let mut lines = from.lines;
    for part in parts {
        push_code(out, part, code, debug_offset(lines, part))?;
        code = code_behind(code, part)?;
        lines = behind(lines, part.lines.len())?;
    }
    Ok(Ends { code, lines })
}

/// The code of all classes behind `from.code`, their debug items standing from `from.lines` on.
pub fn all_codes(alloc: Global, order: &[Ordered], from: Ends) -> Result<Vec<u8>, AllocError>
    ensures { IfOk result (λ v. v.items ≡ codes_text from.code from.lines (parts_of (map plan_in order.now))) }
{
    let mut out = Vec::new(alloc);
    let mut ends = from;
    for ordered in order {
        ends = push_codes(&mut out, ordered.methods.as_slice(), ends)?;
    }
    Ok(out)
}

/// The place behind the code of all classes.
pub fn all_behind(at: u32, order: &[Ordered]) -> Result<u32, AllocError>
    ensures { IfOk result (λ place. place ≡ codes_behind at (parts_of (map plan_in order.now))) }
{
    let mut next = at;
    for ordered in order {
        next = codes_behind(next, ordered.methods.as_slice())?;
    }
    Ok(next)
}

/// Adds the debug items of methods.
fn push_lines(out: &mut Vec<u8>, parts: &[MethodPart]) -> Result<(), AllocError>
    ensures { OnOk result (out.new.items ≡ out.old.items ++ flat_map (λ m. m.lines) parts.now) }
{
    for part in parts {
        out.extend_from_slice(part.lines.as_slice())?;
    }
    Ok(())
}

/// The debug items of all classes.
pub fn all_lines(alloc: Global, order: &[Ordered]) -> Result<Vec<u8>, AllocError>
    ensures { IfOk result (λ v. v.items ≡ flat_map (λ m. m.lines) (parts_of (map plan_in order.now))) }
{
    let mut out = Vec::new(alloc);
    for ordered in order {
        push_lines(&mut out, ordered.methods.as_slice())?;
    }
    Ok(out)
}

/// How many of these methods have code.
fn count_coded(parts: &[MethodPart]) -> usize
    ensures { result ≡ count_codes parts.now }
{
    parts.iter().filter(|part| 0 < part.code.len()).count()
}

/// How many of these methods have lines.
fn count_lined(parts: &[MethodPart]) -> usize
    ensures { result ≡ count_lines parts.now }
{
    parts.iter().filter(|part| 0 < part.lines.len()).count()
}

/// How many of the methods have code, and how many have lines.
pub fn count_codes(order: &[Ordered]) -> Result<Ends, AllocError>
    ensures code { IfOk result (λ ends. ends.code ≡ count_codes (parts_of (map plan_in order.now))) }
    ensures lines { IfOk result (λ ends. ends.lines ≡ count_lines (parts_of (map plan_in order.now))) }
{
    let mut code = 0;
    let mut lines = 0;
    for ordered in order {
        let parts = ordered.methods.as_slice();
        code = behind(code, count_coded(parts))?;
        lines = behind(lines, count_lined(parts))?;
    }
    Ok(Ends { code, lines })
}
