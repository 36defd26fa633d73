//! The whole writer: which items stand where.

ghost use Rattle.std.specs.Prelude.{◌≡◌, ◌<◌, ◌^◌, ◌++◌, length, map, true, false, slice_get, option_copied, IfOk, OnOk};
ghost use Rattle.std.specs.List.{AllByRecursion, flat_map};
ghost use Rattle.dex_write.specs.Plans.{plan_in, ordered_fields, ordered_methods, spot_of};
ghost use Rattle.dex_write.specs.Codes.{IsPart, IsPlan};
ghost use Rattle.dex_write.specs.File.{IsSealed};
ghost use Rattle.dex_write.specs.Lists.{lists_at};
ghost use Rattle.dex_write.specs.Runs.{end_behind};
ghost use Rattle.dex_write.specs.Places.{placed_items, words_end, words_behind, words_run, codes_end, places_behind, refs_behind, sets_behind, directories_behind, data_behind, strings_behind, front_of, codes_run, lines_run, refs_run, marks_behind, firsts_behind, back_of, counts_of, file_with, parts_in, runs_in, parts_at, runs_at, file_for};
ghost use Rattle.dex_write.specs.Order.{classes_at};
ghost use Rattle.dex_write.specs.Written.{ArePlans, AreOnlyPlans, MorePlans, IsWrittenBy, IsWritten};

use crate::class_order::written_order;
use crate::classes::{all_data, all_firsts};
use crate::codes::{Ends, all_behind, all_codes, all_lines, count_codes, push_parts};
use crate::file::{Counts, file_of, starts_of};
use crate::lists::{Lists, lists_at};
use crate::marks::{MarkBytes, mark_bytes};
use crate::numbers::{Items, bytes_of, count_some, up, word_of};
use crate::ordered::{MethodPart, Numbered, Ordered, fields_of, methods_of};
use crate::run::{Kind, Run, end_behind};
use crate::sets::{
    directories, ends_at, lists_of, offsets_at, parameter_offsets, ref_counts, set_counts,
};
use crate::strings::all_strings;
use crate::tables::{ClassOffsets, table_words};
use dex_pools::Interner;
use program_model::{Class, Program, Renumber};
use seq::Seq;
use std::alloc::{AllocError, Global};
use widths::read_numbers;

/// The fields of a class in order, and how many of them are static.
fn fields_in_order(
    alloc: Global,
    numbers: &Renumber,
    class: &Class,
) -> Result<(Vec<Numbered>, usize), AllocError>
    ensures fields { IfOk result (λ f. f.0.items ≡ ordered_fields numbers.now class.now true ++ ordered_fields numbers.now class.now false) }
    ensures statics { IfOk result (λ f. f.1 ≡ length (ordered_fields numbers.now class.now true)) }
{
    let mut fields = fields_of(alloc, class, numbers, true)?;
    let statics = fields.len();
    fields.extend_from_slice(&fields_of(alloc, class, numbers, false)?)?;
    Ok((fields, statics))
}

/// Adds the methods of a class that are direct, or those that are not, by new number and with their code. The result is how many
/// these are.
fn push_methods(
    alloc: Global,
    methods: &mut Vec<MethodPart>,
    program: &Program,
    numbers: &Renumber,
    class: &Class,
    are_direct: bool,
) -> Result<usize, AllocError>
    ensures count { IfOk result (λ count. count ≡ length (ordered_methods numbers.now program.now class.now are_direct)) }
    ensures spots { OnOk result (map spot_of methods.new.items ≡ map spot_of methods.old.items ++ ordered_methods numbers.now program.now class.now are_direct) }
    ensures coded { OnOk result (AllByRecursion (IsPart program.now numbers.now class.now) methods.old.items → AllByRecursion (IsPart program.now numbers.now class.now) methods.new.items) }
{
    let places = methods_of(alloc, program, class, numbers, are_direct)?;
    push_parts(alloc, methods, program, class, &places, numbers)?;
    Ok(places.len())
}

/// The methods of a class in order with their code, and how many of them are direct.
fn methods_in_order(
    alloc: Global,
    program: &Program,
    numbers: &Renumber,
    class: &Class,
) -> Result<(Vec<MethodPart>, usize), AllocError>
    ensures spots { IfOk result (λ m. map spot_of m.0.items ≡ ordered_methods numbers.now program.now class.now true ++ ordered_methods numbers.now program.now class.now false) }
    ensures coded { IfOk result (λ m. AllByRecursion (IsPart program.now numbers.now class.now) m.0.items) }
    ensures directs { IfOk result (λ m. m.1 ≡ length (ordered_methods numbers.now program.now class.now true)) }
{
    let mut methods = Vec::with_capacity(alloc, class.methods.len())?;
    let directs = push_methods(alloc, &mut methods, program, numbers, class, true)?;
    push_methods(alloc, &mut methods, program, numbers, class, false)?;
    Ok((methods, directs))
}

/// A class with its members in order and the code of its methods.
fn order_class<'a>(
    alloc: Global,
    program: &Program,
    numbers: &Renumber,
    class: &'a Class,
) -> Result<Ordered<'a>, AllocError>
    ensures { IfOk result (λ o. IsPlan program.now numbers.now class.now (plan_in o)) }
{
    let (fields, statics) = fields_in_order(alloc, numbers, class)?;
    let (methods, directs) = methods_in_order(alloc, program, numbers, class)?;
    Ok(Ordered {
        class,
        statics,
        fields: Seq::of_vec(fields),
        directs,
        methods: Seq::of_vec(methods),
    })
}

/// The class at a place.
fn class_at(program: &Program, place: u32) -> Option<&Class>
    ensures { option_copied result ≡ slice_get program.now.classes place }
{
    program.classes.items.get(place as usize)
}

/// Adds the class at a place, where there is one.
fn push_class<'a>(
    alloc: Global,
    order: &mut Vec<Ordered<'a>>,
    program: &'a Program,
    numbers: &Renumber,
    place: u32,
) -> Result<(), AllocError>
    ensures { OnOk result (MorePlans program.now numbers.now (classes_at program.now place) (map plan_in order.old.items) (map plan_in order.new.items)) }
{
    if let Some(class) = class_at(program, place) {
        order.push(order_class(alloc, program, numbers, class)?)?;
    }
    Ok(())
}

/// The classes at these places.
fn order_classes<'a>(
    alloc: Global,
    program: &'a Program,
    numbers: &Renumber,
    places: &[u32],
) -> Result<Vec<Ordered<'a>>, AllocError>
    ensures are { IfOk result (λ v. ArePlans program.now numbers.now (flat_map (classes_at program.now) places.now) (map plan_in v.items)) }
    ensures only { IfOk result (λ v. AreOnlyPlans program.now numbers.now (flat_map (classes_at program.now) places.now) (map plan_in v.items)) }
{
    let mut order = Vec::with_capacity(alloc, places.len())?;
    for place in places {
        push_class(alloc, &mut order, program, numbers, *place)?;
    }
    Ok(order)
}

/// How many entries the tables have.
fn counts_of(interner: &Interner, order: &[Ordered]) -> Result<Counts, AllocError>
    ensures { IfOk result (λ counts. counts ≡ counts_of interner.now (map plan_in order.now)) }
{
    let used = interner.order();
    Ok(Counts {
        strings: word_of(used.strings.len())?,
        types: word_of(used.types.len())?,
        protos: word_of(used.protos.len())?,
        fields: word_of(used.fields.len())?,
        methods: word_of(used.methods.len())?,
        classes: word_of(order.len())?,
    })
}

/// A run of items, the offset of each, 0 for one without bytes, and where the run ends.
#[derive(Drop)]
struct Placed {
    run: Run,
    offsets: Seq<u32>,
    end: u32,
}

/// The run of items that stand from `at` on, where the runs before it end at `before`.
fn place_items(kind: Kind, before: u32, at: u32, items: Items) -> Result<Placed, AllocError>
    ensures { IfOk result (λ placed. placed ≡ placed_items kind before at items) }
{
    let Items { bytes, offsets } = items;
    let run = Run {
        kind,
        count: count_some(offsets.as_slice())?,
        at,
        bytes,
    };
    let end = end_behind(before, &run)?;
    Ok(Placed { run, offsets, end })
}

/// How many entries the lists of four-byte entries of one kind have, where each stands, and where they begin and end.
#[derive(Drop)]
struct Words {
    counts: Seq<u32>,
    offsets: Seq<u32>,
    at: u32,
    end: u32,
}

/// Where lists of so many entries end that stand behind runs that end at `before`.
fn words_end(before: u32, counts: &[u32]) -> Result<u32, AllocError>
    ensures { IfOk result (λ end. end ≡ words_end before counts.now) }
{
    if count_some(counts)? == 0 {
        return Ok(before);
    }
    ends_at(up(before)?, counts)
}

/// Lists of so many entries behind runs that end at `before`.
#[tactic(auto, unfolding(crate::specs::Places::words_behind))]
fn words_behind(alloc: Global, before: u32, counts: Vec<u32>) -> Result<Words, AllocError>
    ensures { IfOk result (λ words. words ≡ words_behind before counts.items) }
{
    let at = up(before)?;
    let offsets = offsets_at(alloc, at, &counts)?;
    let end = words_end(before, &counts)?;
    Ok(Words {
        counts: Seq::of_vec(counts),
        offsets: Seq::of_vec(offsets),
        at,
        end,
    })
}

/// The run of these lists, whose entries are so far behind `base`.
#[tactic(auto, unfolding(crate::specs::Places::words_run))]
fn words_run(
    alloc: Global,
    kind: Kind,
    words: &Words,
    entries: &[u32],
    base: u32,
) -> Result<Run, AllocError>
    ensures { IfOk result (λ run. run ≡ words_run kind words.now entries.now base) }
{
    let numbers = lists_of(alloc, words.counts.as_slice(), entries, base)?;
    Ok(Run {
        kind,
        count: count_some(words.counts.as_slice())?,
        at: words.at,
        bytes: Seq::of_vec(bytes_of(alloc, &numbers)?),
    })
}

/// Where the code items begin and end, how many there are, and how many debug items.
#[derive(Drop)]
struct CodePlaces {
    at: u32,
    end: u32,
    counts: Ends,
}

/// Where the code ends behind runs that end at `before`.
fn codes_end(before: u32, count: u32, order: &[Ordered]) -> Result<u32, AllocError>
    ensures { IfOk result (λ end. end ≡ codes_end before count (map plan_in order.now)) }
{
    if count == 0 {
        return Ok(before);
    }
    all_behind(up(before)?, order)
}

/// The places of the code behind runs that end at `before`.
#[tactic(auto, unfolding(crate::specs::Places::places_behind))]
fn codes_behind(before: u32, order: &[Ordered]) -> Result<CodePlaces, AllocError>
    ensures { IfOk result (λ places. places ≡ places_behind before (map plan_in order.now)) }
{
    let at = up(before)?;
    let counts = count_codes(order)?;
    let end = codes_end(before, counts.code, order)?;
    Ok(CodePlaces { at, end, counts })
}

/// The runs up to the strings. Code and sets have their places here, and their bytes once those behind them have
/// theirs.
#[derive(Drop)]
struct Front {
    lists: Lists,
    refs: Words,
    sets: Words,
    code: CodePlaces,
    directories: Placed,
    data: Placed,
    strings: Placed,
}

/// The lists of sets of the methods' parameters, behind runs that end at `before`.
fn refs_behind(alloc: Global, order: &[Ordered], before: u32) -> Result<Words, AllocError>
    ensures { IfOk result (λ words. words ≡ refs_behind before (map plan_in order.now)) }
{
    words_behind(alloc, before, ref_counts(alloc, order)?)
}

/// The sets of annotations, behind runs that end at `before`.
fn sets_behind(alloc: Global, order: &[Ordered], before: u32) -> Result<Words, AllocError>
    ensures { IfOk result (λ words. words ≡ sets_behind before (map plan_in order.now)) }
{
    words_behind(alloc, before, set_counts(alloc, order)?)
}

/// The directories, behind runs that end at `before`.
#[tactic(auto, unfolding(crate::specs::Places::directories_behind))]
fn directories_behind(
    alloc: Global,
    order: &[Ordered],
    sets: &Words,
    refs: &Words,
    before: u32,
) -> Result<Placed, AllocError>
    ensures { IfOk result (λ placed. placed ≡ directories_behind before (map plan_in order.now) sets.now refs.now) }
{
    let at = up(before)?;
    let items = directories(
        alloc,
        order,
        sets.offsets.as_slice(),
        refs.offsets.as_slice(),
        at,
    )?;
    place_items(Kind::AnnotationsDirectory, before, at, items)
}

/// The class data from `at` on, of classes whose code comes behind `code_at`.
#[tactic(auto, unfolding(crate::specs::Places::data_behind))]
fn data_at(alloc: Global, order: &[Ordered], code_at: u32, at: u32) -> Result<Placed, AllocError>
    ensures { IfOk result (λ placed. placed ≡ data_behind at (map plan_in order.now) code_at) }
{
    let items = all_data(alloc, order, code_at, at)?;
    place_items(Kind::ClassData, at, at, items)
}

/// The strings from `at` on.
#[tactic(auto, unfolding(crate::specs::Places::strings_behind))]
fn strings_at(
    alloc: Global,
    program: &Program,
    interner: &Interner,
    at: u32,
) -> Result<Placed, AllocError>
    ensures { IfOk result (λ placed. placed ≡ strings_behind at program.now interner.now) }
{
    let used = &interner.order().strings;
    let items = all_strings(alloc, program.strings.as_slice(), used, at)?;
    place_items(Kind::StringData, at, at, items)
}

/// Where lists of words stand, and where code stands.
#[derive(Drop)]
struct Middle {
    refs: Words,
    sets: Words,
    code: CodePlaces,
}

/// Where lists of words and code stand behind runs that end at `before`.
fn middle_of(alloc: Global, order: &[Ordered], before: u32) -> Result<Middle, AllocError>
    ensures refs { IfOk result (λ middle. middle.refs ≡ refs_behind before (map plan_in order.now)) }
    ensures sets { IfOk result (λ middle. middle.sets ≡ sets_behind middle.refs.end (map plan_in order.now)) }
    ensures code { IfOk result (λ middle. middle.code ≡ places_behind middle.sets.end (map plan_in order.now)) }
{
    let refs = refs_behind(alloc, order, before)?;
    let sets = sets_behind(alloc, order, refs.end)?;
    let code = codes_behind(sets.end, order)?;
    Ok(Middle { refs, sets, code })
}

/// The type lists, where lists of words stand, and where code stands.
#[derive(Drop)]
struct Early {
    lists: Lists,
    refs: Words,
    sets: Words,
    code: CodePlaces,
}

/// What stands in front of the directories, the first run at `at`.
fn early_of(
    alloc: Global,
    program: &Program,
    interner: &Interner,
    order: &[Ordered],
    at: u32,
) -> Result<Early, AllocError>
    ensures lists { IfOk result (λ early. early.lists ≡ lists_at program.now interner.now (map plan_in order.now) at) }
    ensures refs { IfOk result (λ early. early.refs ≡ refs_behind (end_behind at early.lists.run) (map plan_in order.now)) }
    ensures sets { IfOk result (λ early. early.sets ≡ sets_behind early.refs.end (map plan_in order.now)) }
    ensures code { IfOk result (λ early. early.code ≡ places_behind early.sets.end (map plan_in order.now)) }
{
    let lists = lists_at(alloc, program, interner, order, at)?;
    let middle = middle_of(alloc, order, end_behind(at, &lists.run)?)?;
    Ok(Early {
        lists,
        refs: middle.refs,
        sets: middle.sets,
        code: middle.code,
    })
}

/// The directories, the class data and the strings.
#[derive(Drop)]
struct Late {
    directories: Placed,
    class_data: Placed,
    strings: Placed,
}

/// What stands behind the code, up to the strings.
fn late_of(
    alloc: Global,
    program: &Program,
    interner: &Interner,
    order: &[Ordered],
    early: &Early,
) -> Result<Late, AllocError>
    ensures directories { IfOk result (λ late. late.directories ≡ directories_behind early.now.code.end (map plan_in order.now) early.now.sets early.now.refs) }
    ensures class_data { IfOk result (λ late. late.class_data ≡ data_behind late.directories.end (map plan_in order.now) early.now.code.at) }
    ensures strings { IfOk result (λ late. late.strings ≡ strings_behind late.class_data.end program.now interner.now) }
{
    let directories = directories_behind(alloc, order, &early.sets, &early.refs, early.code.end)?;
    let class_data = data_at(alloc, order, early.code.at, directories.end)?;
    let strings = strings_at(alloc, program, interner, class_data.end)?;
    Ok(Late {
        directories,
        class_data,
        strings,
    })
}

/// The runs up to the strings, the first of which stands at `at`.
#[tactic(auto, unfolding(crate::specs::Places::front_of))]
fn front_of(
    alloc: Global,
    program: &Program,
    interner: &Interner,
    order: &[Ordered],
    at: u32,
) -> Result<Front, AllocError>
    ensures { IfOk result (λ front. front ≡ front_of program.now interner.now (map plan_in order.now) at) }
{
    let early = early_of(alloc, program, interner, order, at)?;
    let late = late_of(alloc, program, interner, order, &early)?;
    Ok(Front {
        lists: early.lists,
        refs: early.refs,
        sets: early.sets,
        code: early.code,
        directories: late.directories,
        data: late.class_data,
        strings: late.strings,
    })
}

/// The run of code items, whose debug items stand from `lines_at` on.
#[tactic(auto, unfolding(crate::specs::Places::codes_run))]
fn codes_run(
    alloc: Global,
    order: &[Ordered],
    code: &CodePlaces,
    lines_at: u32,
) -> Result<Run, AllocError>
    ensures { IfOk result (λ run. run ≡ codes_run (map plan_in order.now) code.now lines_at) }
{
    let from = Ends {
        code: code.at,
        lines: lines_at,
    };
    Ok(Run {
        kind: Kind::CodeItem,
        count: code.counts.code,
        at: code.at,
        bytes: Seq::of_vec(all_codes(alloc, order, from)?),
    })
}

/// The run of debug items from `at` on.
#[tactic(auto, unfolding(crate::specs::Places::lines_run))]
fn lines_run(alloc: Global, order: &[Ordered], count: u32, at: u32) -> Result<Run, AllocError>
    ensures { IfOk result (λ run. run ≡ lines_run (map plan_in order.now) count at) }
{
    Ok(Run {
        kind: Kind::DebugInfo,
        count,
        at,
        bytes: Seq::of_vec(all_lines(alloc, order)?),
    })
}

/// The runs behind the strings, and those before them that wait for their places.
#[derive(Drop)]
struct Back {
    lines: Run,
    codes: Run,
    refs: Run,
    sets: Run,
    marks: Run,
    firsts: Placed,
}

/// The run of lists of sets.
#[tactic(auto, unfolding(crate::specs::Places::refs_run))]
fn refs_run(alloc: Global, order: &[Ordered], refs: &Words, sets: &Words) -> Result<Run, AllocError>
    ensures { IfOk result (λ run. run ≡ refs_run (map plan_in order.now) refs.now sets.now) }
{
    let entries = parameter_offsets(alloc, order, sets.offsets.as_slice())?;
    words_run(alloc, Kind::AnnotationSetRefList, refs, &entries, 0)
}

/// The run of sets, and that of annotations behind it.
#[derive(Drop)]
struct Marks {
    sets: Run,
    marks: Run,
}

/// The run of sets, and that of annotations from `at` on.
#[tactic(auto, unfolding(crate::specs::Places::marks_behind))]
fn marks_at(
    alloc: Global,
    order: &[Ordered],
    numbers: &Renumber,
    sets: &Words,
    at: u32,
) -> Result<Marks, AllocError>
    ensures { IfOk result (λ marks. marks ≡ marks_behind numbers.now (map plan_in order.now) sets.now at) }
{
    let MarkBytes { bytes, starts } = mark_bytes(alloc, order, numbers)?;
    let sets = words_run(alloc, Kind::AnnotationSet, sets, &starts, at)?;
    let marks = Run {
        kind: Kind::Annotation,
        count: word_of(starts.len())?,
        at,
        bytes: Seq::of_vec(bytes),
    };
    Ok(Marks { sets, marks })
}

/// The first values from `at` on.
#[tactic(auto, unfolding(crate::specs::Places::firsts_behind))]
fn firsts_at(
    alloc: Global,
    program: &Program,
    order: &[Ordered],
    numbers: &Renumber,
    at: u32,
) -> Result<Placed, AllocError>
    ensures { IfOk result (λ placed. placed ≡ firsts_behind at program.now numbers.now (map plan_in order.now)) }
{
    let items = all_firsts(alloc, program, order, numbers, at)?;
    place_items(Kind::EncodedArray, at, at, items)
}

/// The run of debug items, and those behind it.
#[derive(Drop)]
struct Rear {
    lines: Run,
    marks: Marks,
    firsts: Placed,
}

/// The run of debug items, which stands behind the strings, and those behind it.
fn rear_of(
    alloc: Global,
    program: &Program,
    numbers: &Renumber,
    order: &[Ordered],
    front: &Front,
) -> Result<Rear, AllocError>
    ensures lines { IfOk result (λ rear. rear.lines ≡ lines_run (map plan_in order.now) front.now.code.counts.lines front.now.strings.end) }
    ensures marks { IfOk result (λ rear. rear.marks ≡ marks_behind numbers.now (map plan_in order.now) front.now.sets (end_behind front.now.strings.end rear.lines)) }
    ensures firsts { IfOk result (λ rear. rear.firsts ≡ firsts_behind (end_behind (end_behind front.now.strings.end rear.lines) rear.marks.marks) program.now numbers.now (map plan_in order.now)) }
{
    let lines_at = front.strings.end;
    let lines = lines_run(alloc, order, front.code.counts.lines, lines_at)?;
    let at = end_behind(lines_at, &lines)?;
    let marks = marks_at(alloc, order, numbers, &front.sets, at)?;
    let end = end_behind(at, &marks.marks)?;
    let firsts = firsts_at(alloc, program, order, numbers, end)?;
    Ok(Rear {
        lines,
        marks,
        firsts,
    })
}

/// The runs behind the strings.
#[tactic(auto, unfolding(crate::specs::Places::back_of))]
fn back_of(
    alloc: Global,
    program: &Program,
    numbers: &Renumber,
    order: &[Ordered],
    front: &Front,
) -> Result<Back, AllocError>
    ensures { IfOk result (λ back. back ≡ back_of program.now numbers.now (map plan_in order.now) front.now) }
{
    let codes = codes_run(alloc, order, &front.code, front.strings.end)?;
    let refs = refs_run(alloc, order, &front.refs, &front.sets)?;
    let rear = rear_of(alloc, program, numbers, order, front)?;
    Ok(Back {
        lines: rear.lines,
        codes,
        refs,
        sets: rear.marks.sets,
        marks: rear.marks.marks,
        firsts: rear.firsts,
    })
}

/// The offsets of strings, of the protos' parameters, and of what classes have.
#[derive(Drop)]
struct Parts {
    strings: Seq<u32>,
    parameters: Seq<u32>,
    offsets: ClassOffsets,
}

/// The file of these offsets and runs.
fn file_with(
    alloc: Global,
    program: &Program,
    interner: &Interner,
    order: &[Ordered],
    parts: &Parts,
    runs: &[Run],
) -> Result<Vec<u8>, AllocError>
    ensures is { IfOk result (λ v. v.items ≡ file_with program.now interner.now (map plan_in order.now) parts.now runs.now) }
    ensures sealed { IfOk result (λ v. IsSealed program.now.version v.items) }
    ensures few { IfOk result (λ v. length v.items < 2 ^ 32) }
{
    let counts = counts_of(interner, order)?;
    let tables = table_words(
        alloc,
        program,
        interner,
        order,
        parts.strings.as_slice(),
        parts.parameters.as_slice(),
        &parts.offsets,
    )?;
    file_of(alloc, program.version, counts, &tables, runs)
}

/// The run and the offsets of its items.
fn apart(placed: Placed) -> (Run, Seq<u32>)
    ensures run { result.0 ≡ placed.run }
    ensures offsets { result.1 ≡ placed.offsets }
{
    let Placed { run, offsets, .. } = placed;
    (run, offsets)
}

/// The runs in order, and the offsets of what they hold.
#[derive(Drop)]
struct Whole {
    parts: Parts,
    runs: [Run; 10],
}

/// The runs and the offsets of both parts.
fn joined(front: Front, back: Back) -> Whole
    ensures parts { result.parts ≡ parts_in front back }
    ensures runs { result.runs ≡ runs_in front back }
{
    let (directories, directory_offsets) = apart(front.directories);
    let (data, data_offsets) = apart(front.data);
    let (strings, string_offsets) = apart(front.strings);
    let (firsts, first_offsets) = apart(back.firsts);
    let parts = Parts {
        strings: string_offsets,
        parameters: front.lists.parameters,
        offsets: ClassOffsets {
            interfaces: front.lists.interfaces,
            directories: directory_offsets,
            data: data_offsets,
            firsts: first_offsets,
        },
    };
    let runs = [
        front.lists.run,
        back.refs,
        back.sets,
        back.codes,
        directories,
        data,
        strings,
        back.lines,
        back.marks,
        firsts,
    ];
    Whole { parts, runs }
}

/// The runs in order, the first of which stands at `at`, and the offsets of what they hold.
fn whole_at(
    alloc: Global,
    program: &Program,
    interner: &Interner,
    order: &[Ordered],
    at: u32,
) -> Result<Whole, AllocError>
    ensures parts { IfOk result (λ whole. whole.parts ≡ parts_at program.now interner.now (map plan_in order.now) at) }
    ensures runs { IfOk result (λ whole. whole.runs ≡ runs_at program.now interner.now (map plan_in order.now) at) }
{
    let front = front_of(alloc, program, interner, order, at)?;
    let back = back_of(alloc, program, interner.numbers(), order, &front)?;
    Ok(joined(front, back))
}

/// The file of a program whose classes are these.
#[tactic(auto, unfolding(crate::specs::Places::file_for))]
fn file_for(
    alloc: Global,
    program: &Program,
    interner: &Interner,
    order: &[Ordered],
) -> Result<Vec<u8>, AllocError>
    ensures is { IfOk result (λ v. v.items ≡ file_for program.now interner.now (map plan_in order.now)) }
    ensures sealed { IfOk result (λ v. IsSealed program.now.version v.items) }
    ensures few { IfOk result (λ v. length v.items < 2 ^ 32) }
{
    let counts = counts_of(interner, order)?;
    let whole = whole_at(alloc, program, interner, order, starts_of(counts)?.data)?;
    file_with(alloc, program, interner, order, &whole.parts, &whole.runs)
}

/// The file of a program that uses these entries.
fn file_in(alloc: Global, program: &Program, interner: &Interner) -> Result<Vec<u8>, AllocError>
    ensures { IfOk result (λ v. IsWrittenBy program.now interner.now v.items) }
{
    let places = written_order(alloc, program)?;
    let order = order_classes(alloc, program, interner.numbers(), &places)?;
    file_for(alloc, program, interner, order.as_slice())
}

/// A valid file that spells the program, with the entries that it uses in order and the classes behind those above
/// them (Dalvik executable format, versions 035 and 037). The only error is want of memory; a file that 32 bits do not
/// count is answered so too.
///
/// The bytes are those that `specs/Written.antt` says of any program; they are a valid file where the program is a
/// well-formed one whose bodies lay out.
pub fn write_dex(alloc: Global, program: &Program) -> Result<Vec<u8>, AllocError>
    ensures is { IfOk result (λ v. IsWritten program.now v.items) }
    ensures sealed { IfOk result (λ v. IsSealed program.now.version v.items) }
{
    read_numbers(program);
    let interner = Interner::collect(alloc, program)?;
    file_in(alloc, program, &interner)
}
