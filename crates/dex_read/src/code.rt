//! The code of a method (Dalvik executable format, "code_item").

ghost use Rattle.std.specs.Prelude.{◌+◌, ◌-◌, ◌*◌, ◌^◌, ◌≤◌, ◌<◌, ◌≡◌, length, drop, sum_by, slice_get, vec_len, IfOk, OnOk, Some, option_map, nat_eq, not, IfErr, IsTrue};
ghost use Rattle.std.specs.List.{list_any};
ghost use Rattle.std.specs.Option.{option_copied};
ghost use Rattle.dex_base.specs.Reading.{Gives, raise};
ghost use Rattle.line_tables.specs.Item.{lines_at};
ghost use Rattle.program_model.specs.Cells.{body_cells, capped};
ghost use Rattle.program_model.specs.Items.{body_items, region_items};
ghost use Rattle.program_model.specs.MemberRules.{is_static, proto_of, receiver_words, takes_words, words_of};
ghost use Rattle.code_read.specs.Code.{code_of};
ghost use Rattle.dex_read.specs.Counts.{CountsInFile, is_in_file};
ghost use Rattle.dex_read.specs.Code.{gap, item_at, frame_at, units_at, sizes_for, in_code, of_code, kept_lines, counted_lines, lined_at, cells_with, method_with, body_at, coded_at, method_at};
ghost use Rattle.dex_read.specs.Faults.{is_free};

use crate::below::{half_of, rest_of, word_of};
use crate::class_data::Listed;
use crate::fault::DexFault;
use crate::header::{need, passed};
use crate::members::{Budget, Source};
use code_read::{CodeFault, Sizes, read_code};
use line_tables::read_lines;
use program_model::{Body, Counted, Flags, Method, Proto, Region, count_body_cells};
use seq::Seq;
use std::alloc::Global;

/// The fixed part of a code item, and where its other parts begin.
#[derive(Clone, Copy, Drop)]
pub struct CodeItem {
    pub registers: u16,
    pub ins: u16,
    pub tries: u16,
    pub debug: u32,
    pub size: u32,
    pub units_at: usize,
    pub tries_at: usize,
}

/// How many bytes stand before the try items of an odd number of units.
fn gap(tries: u16, size: u32) -> usize
    ensures { result ≡ gap tries size }
{
    if tries > 0 && size % 2 == 1 { 2 } else { 0 }
}

/// The code item at `at`, which does not pass the end up to its try items.
#[tactic(auto, unfolding(crate::specs::Code::item_at))]
fn item_of(bytes: &[u8], at: usize) -> Result<CodeItem, DexFault>
    requires { at < 2 ^ 32 }
    ensures gives { Gives is_free (λ item. item) result (item_at bytes.now at) }
    ensures units { IfOk result (λ item. item.units_at + 2 * item.size ≤ length bytes.now) }
    ensures tries { IfOk result (λ item. item.tries_at ≤ length bytes.now) }
    ensures counts { IfErr result CountsInFile }
{
    need(bytes, at, 16)?;
    let registers = half_of(bytes, at)?;
    let ins = half_of(bytes, at + 2)?;
    let tries = half_of(bytes, at + 6)?;
    let debug = word_of(bytes, at + 8)?;
    let size = word_of(bytes, at + 12)?;
    let before_tries = 16 + 2 * size as usize + gap(tries, size);
    need(bytes, at, before_tries + 8 * usize::from(tries))?;
    Ok(CodeItem {
        registers,
        ins,
        tries,
        debug,
        size,
        units_at: at + 16,
        tries_at: at + before_tries,
    })
}

/// The units at a place, into a list that held others.
#[tactic(auto, unfolding(crate::specs::Code::units_at))]
fn units_of(bytes: &[u8], at: usize, count: u32, units: &mut Vec<u16>) -> Result<(), DexFault>
    requires { at + 2 * count ≤ length bytes.now }
    ensures gives { Gives is_free (λ u. units.new.items) result (units_at bytes.now at count) }
    ensures count { OnOk result (vec_len units.new ≡ count) }
    ensures counts { IfErr result CountsInFile }
{
    units.clear();
    units.reserve(count as usize)?;
    for i in 0..count {
        let unit = half_of(bytes, at + 2 * i as usize)?;
        units.push(unit)?;
    }
    Ok(())
}

/// How many registers a parameter of the type takes.
fn words_of(source: &Source, kind: u32) -> u64
    ensures { result ≡ words_of source.now.program.now kind }
{
    let letter = source.letter(kind);
    if letter == 74 || letter == 68 { 2 } else { 1 }
}

/// How many registers parameters take, the greatest number of 64 bits standing for all above it.
fn count_words(source: &Source, parameters: &[u32]) -> u64
    ensures { result ≡ capped (sum_by (words_of source.now.program.now) parameters.now) }
{
    let mut total: u64 = 0;
    for kind in parameters {
        total = total.saturating_add(words_of(source, *kind));
    }
    total
}

/// How many registers the receiver takes.
fn receiver_words(flags: Flags) -> u64
    ensures { result ≡ receiver_words flags }
{
    if flags.has(Flags::STATIC) { 0 } else { 1 }
}

/// How many registers the receiver and the parameters of a method take.
fn frame_words(source: &Source, flags: Flags, parameters: &[u32]) -> u64
    ensures { result ≡ capped (receiver_words flags + sum_by (words_of source.now.program.now) parameters.now) }
{
    receiver_words(flags).saturating_add(count_words(source, parameters))
}

/// The proto of a method.
fn proto_of<'a>(source: &Source<'a>, method: u32) -> Option<&'a Proto>
    ensures { option_copied result ≡ proto_of source.now.program.now method }
{
    let program = source.program;
    let name = program.methods.items.get(method as usize)?;
    program.protos.items.get(name.proto as usize)
}

/// Whether the receiver and the parameters of the method take so many registers.
#[tactic(auto, using(program_model::proofs::Capped::same_as_capped))]
fn takes_words(source: &Source, flags: Flags, method: u32, words: u16) -> bool
    ensures { result ≡ takes_words source.now.program.now flags (proto_of source.now.program.now method) words }
{
    match proto_of(source, method) {
        Some(proto) => u64::from(words) == frame_words(source, flags, proto.parameters.as_slice()),
        None => false,
    }
}

/// That the arguments are those of the method's proto, and do not pass its registers.
#[tactic(auto, unfolding(crate::specs::Code::frame_at))]
fn check_frame(source: &Source, entry: Listed, item: CodeItem) -> Result<(), DexFault>
    ensures gives { Gives is_free (λ u. u) result (frame_at source.now.program.now entry item) }
    ensures counts { IfErr result CountsInFile }
{
    if takes_words(source, entry.flags, entry.number, item.ins) && item.ins <= item.registers {
        Ok(())
    } else {
        Err(DexFault::FrameSize {
            method: entry.number,
        })
    }
}

/// What the registers and numbers of the code are compared with.
fn sizes_for(source: &Source, item: CodeItem, left: u32) -> Sizes
    ensures { result ≡ sizes_for source.now.program.now item left }
{
    Sizes {
        registers: item.registers,
        ins: item.ins,
        tries: item.tries,
        strings: source.sizes.strings,
        types: source.sizes.types,
        fields: source.sizes.fields,
        methods: source.sizes.methods,
        items: left,
    }
}

/// The quantities that code counts.
fn in_code(counted: Counted) -> Counted
    ensures code { result ≡ in_code counted }
    ensures inside { IsTrue (is_in_file result) }
{
    match counted {
        Counted::Cells => Counted::Cells,
        _ => Counted::Items,
    }
}

/// A fault in a method's code. Want of memory and a passed limit, which is one of cells or of items, are handed on as
/// such.
fn code_fault(method: u32, fault: CodeFault) -> DexFault
    ensures code { result ≡ of_code method fault }
    ensures counts { CountsInFile result }
{
    match fault {
        CodeFault::NoMemory => DexFault::NoMemory,
        CodeFault::Limit(limit) => passed(in_code(limit.counted)),
        fault => DexFault::Code { method, fault },
    }
}

/// The body of a method, and where its instructions begin. `units` is a list to work in.
#[tactic(auto, unfolding(crate::specs::Code::body_at))]
fn body_of(
    alloc: Global,
    source: &Source,
    method: u32,
    item: CodeItem,
    left: u32,
    units: &mut Vec<u16>,
) -> Result<(Body, Vec<u32>), DexFault>
    requires units { item.units_at + 2 * item.size ≤ length source.now.bytes.now }
    requires tries { item.tries_at ≤ length source.now.bytes.now }
    ensures gives { Gives is_free (λ r. (r.0, r.1.items)) result (body_at source.now.bytes.now source.now.program.now method item left) }
    ensures counts { IfErr result CountsInFile }
{
    units_of(source.bytes, item.units_at, item.size, units)?;
    let sizes = sizes_for(source, item, left);
    match read_code(alloc, units, rest_of(source.bytes, item.tries_at), &sizes) {
        Ok(read) => Ok(read),
        Err(fault) => Err(code_fault(method, fault)),
    }
}

/// The handlers of a region with its catch-all. The greatest number of 64 bits stands for all above it.
fn count_region(region: &Region) -> u64
    ensures { result ≡ capped (region_items region.now) }
{
    let rest = match region.rest {
        Some(_) => 1,
        None => 0,
    };
    (region.handlers.len() as u64).saturating_add(rest)
}

/// The handlers of regions.
fn count_regions(regions: &[Region]) -> u64
    ensures { result ≡ capped (sum_by region_items regions.now) }
{
    let mut total: u64 = 0;
    for region in regions {
        total = total.saturating_add(count_region(region));
    }
    total
}

/// What the handlers of a body leave of the items.
fn behind_handlers(left: u32, body: &Body) -> u32
    ensures { result ≡ left - body_items (Some body.now) }
{
    let handlers = count_regions(body.regions.as_slice());
    if handlers < u64::from(left) {
        left - handlers as u32
    } else {
        0
    }
}

/// Whether some position has a line.
fn has_line(lines: &[u32]) -> bool
    ensures { result ≡ list_any (λ line. not (nat_eq line 0)) lines.now }
{
    lines.iter().any(|line| *line != 0)
}

/// The lines that a debug item gave, none where no position has one.
fn kept_lines(alloc: Global, lines: Option<Vec<u32>>) -> Seq<u32>
    ensures { result ≡ kept_lines (option_map (λ v. v.items) lines) }
{
    match lines {
        Some(lines) => {
            if has_line(&lines) {
                Seq::of_vec(lines)
            } else {
                Seq::new(alloc)
            }
        }
        None => Seq::new(alloc),
    }
}

/// The lines of the positions that begin at `starts`, as the debug item at `at` gives them; none where it gives none.
/// Each opcode of it is an item.
#[tactic(auto, unfolding(crate::specs::Code::lined_at))]
fn lined_of(
    alloc: Global,
    bytes: &[u8],
    at: u32,
    starts: &[u32],
    left: &mut u32,
) -> Result<Seq<u32>, DexFault>
    ensures gives { Gives is_free (λ lines. (lines, left.new)) result (lined_at bytes.now at starts.now left.old) }
    ensures counts { IfErr result CountsInFile }
{
    if at == 0 {
        return Ok(Seq::new(alloc));
    }
    let most = *left;
    let read = read_lines(alloc, bytes, at as usize, starts, most)?;
    if read.opcodes > u64::from(most) {
        return Err(passed(Counted::Items));
    }
    *left = most - read.opcodes as u32;
    Ok(kept_lines(alloc, read.lines))
}

/// The cells with those of one more body.
#[tactic(auto, using(program_model::proofs::Capped::within_cap), unfolding(crate::specs::Code::cells_with))]
fn cells_with(body: &Body, cells: u64) -> Result<u64, DexFault>
    ensures gives { Gives is_free (λ n. n) result (cells_with body.now cells) }
    ensures counts { IfErr result CountsInFile }
{
    let total = cells.saturating_add(count_body_cells(body));
    if total <= Counted::Cells.limit() {
        Ok(total)
    } else {
        Err(passed(Counted::Cells))
    }
}

/// A method without annotations.
fn method_with(alloc: Global, entry: Listed, body: Option<Body>, lines: Seq<u32>) -> Method
    ensures { result ≡ method_with entry body lines }
{
    Method {
        name: entry.number,
        flags: entry.flags,
        marks: Seq::new(alloc),
        parameter_marks: Seq::new(alloc),
        body,
        lines,
    }
}

/// The method whose entry names its code. `units` is a list to work in.
#[tactic(auto, unfolding(crate::specs::Code::coded_at))]
fn coded_of(
    alloc: Global,
    source: &Source,
    entry: Listed,
    budget: &mut Budget,
    units: &mut Vec<u16>,
) -> Result<Method, DexFault>
    ensures gives { Gives is_free (λ m. (m, budget.new)) result (coded_at source.now.bytes.now source.now.program.now entry budget.old) }
    ensures counts { IfErr result CountsInFile }
{
    let item = item_of(source.bytes, entry.code as usize)?;
    check_frame(source, entry, item)?;
    let (body, starts) = body_of(alloc, source, entry.number, item, budget.items, units)?;
    let mut left = behind_handlers(budget.items, &body);
    let lines = lined_of(alloc, source.bytes, item.debug, &starts, &mut left)?;
    let cells = cells_with(&body, budget.cells)?;
    *budget = Budget { items: left, cells };
    Ok(method_with(alloc, entry, Some(body), lines))
}

/// The method of an entry, without its annotations. `units` is a list to work in.
pub fn method_of(
    alloc: Global,
    source: &Source,
    entry: Listed,
    budget: &mut Budget,
    units: &mut Vec<u16>,
) -> Result<Method, DexFault>
    ensures gives { Gives is_free (λ m. (m, budget.new)) result (method_at source.now.bytes.now source.now.program.now entry budget.old) }
    ensures counts { IfErr result CountsInFile }
{
    if entry.code == 0 {
        Ok(method_with(alloc, entry, None, Seq::new(alloc)))
    } else {
        coded_of(alloc, source, entry, budget, units)
    }
}
