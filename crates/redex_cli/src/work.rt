//! What the commands do between fetching and putting: values in, a value or a status out.

ghost use Rattle.std.specs.Prelude.{◌≡◌, ◌<◌, ◌≤◌, ◌^◌, ◌∷◌, [], ℕ, List, true, None, Option, Ok, length, map, slice_index, vec_len, string_bytes, IfOk, IfErr, OnOk};
ghost use Rattle.dalvik_defs.specs.Naming.{named};
ghost use Rattle.dalvik_defs.specs.Outer.{outer_of};
ghost use Rattle.dalvik_defs.specs.Step.{shows};
ghost use Rattle.dex_base.specs.Reading.{FailsIf, Gives};
ghost use Rattle.dex_read.specs.Counts.{CountsInFile};
ghost use Rattle.dex_read.specs.Faults.{is_free};
ghost use Rattle.dex_read.specs.File.{program_at};
ghost use Rattle.dex_read.specs.Kept.{KeepsLimits};
ghost use Rattle.hierarchy.specs.Shapes.{IsCause, IsResolved};
ghost use Rattle.if_text.specs.Faults.{IsIfFault};
ghost use Rattle.if_text.specs.Readings.{IsIfReading};
ghost use Rattle.program_model.specs.ProgramRules.{is_well_formed};
ghost use Rattle.redex_outside.specs.Panels.{HasRun};
ghost use Rattle.stub_library.specs.Stubs.{library_at};
ghost use Rattle.text_defs.specs.Plays.{play_of};
ghost use Rattle.redex_cli.specs.Accepted.{IsAccepted, IsOfBytes};
ghost use Rattle.redex_cli.specs.Files.{AreRead, BytesRefused, FileRefused, HasGraphFault, HasTypeFault, LibraryRefused};
ghost use Rattle.redex_cli.specs.Finished.{AreTold, Checks, Finished, IsWorkload, LeavesBy, Shrunk, program_text, sizes_in, turn_told};
ghost use Rattle.redex_cli.specs.Refusals.{IsLibraryRefusal, LibraryEnds, MadeRefused, ReadRefused, TraceRefused, WorkRefused};
ghost use Rattle.redex_cli.specs.Lists.{ListsFile};
ghost use Rattle.redex_cli.specs.Tables.{IsTableBy, IsTableFor, IsTableWith};
ghost use Rattle.redex_cli.specs.Traces.{Traces, TracesFile};
ghost use Rattle.redex_cli.specs.declared.fetching.Inputs.{Inputs};

use crate::check_line::check_line;
use crate::fetching::Inputs;
use crate::live_list::live_list;
use crate::status::{InputFault, Status};
use crate::summary::{Sizes, sizes_of, summary};
use call_graph::live_members;
use command_line::Tell;
use dalvik_model::{Event, run};
use dex_read::{DexFault, read_dex};
use dex_write::write_dex;
use hierarchy::{Hierarchy, HierarchyFault};
use if_rules::{IfRules, RuleFault, outside_of, read_rules};
use pipeline::{Outcome, optimise, optimise_inlined};
use program_model::{Outside, Program};
use reach::close;
use read_laws::programs::reads_well_formed;
use redex_gen::generate;
use redex_outside::{Adviser, Key, Panel};
use script_text::{Play, ScriptFault, read_script, write_events};
use seq::Seq;
use std::alloc::{AllocError, Global};
use stub_library::{narrow, read_library};
use verify::{TypeFault, verify_all};

/// The rules of the workload, which keep what its first class, that of number zero, has as `run`.
const WORKLOAD_RULES: &[u8] = b"-keep class ?0 { public static int run(int); }\n";

/// A fault of the rules as a status.
#[tactic(auto, using(crate::proofs::FinishedLemmas::no_memory, crate::proofs::FinishedLemmas::bad_rules))]
fn rules_status(fault: RuleFault) -> Status
    ensures refused { (inputs : Inputs) → IsIfFault inputs.rules fault → WorkRefused inputs result }
    ensures file { (inputs : Inputs) → BytesRefused inputs result }
{
    match fault {
        RuleFault::NoMemory => Status::NoMemory,
        RuleFault::Syntax { .. }
        | RuleFault::Option { .. }
        | RuleFault::NotUtf8 { .. }
        | RuleFault::TooMany { .. } => Status::BadRules(fault),
    }
}

/// A fault of the file as a status.
fn dex_status(fault: DexFault) -> Status
    requires { CountsInFile fault }
    ensures refused { ReadRefused result }
    ensures file { (bytes : List ℕ) → FailsIf (is_free fault) fault (program_at bytes) → FileRefused bytes result }
{
    match fault {
        DexFault::NoMemory => Status::NoMemory,
        DexFault::Limit(limit) => Status::Limit(limit),
        DexFault::Short { .. }
        | DexFault::Magic
        | DexFault::Header { .. }
        | DexFault::Checksum { .. }
        | DexFault::Pool(_)
        | DexFault::Code { .. }
        | DexFault::Member { .. }
        | DexFault::Root { .. }
        | DexFault::FrameSize { .. } => Status::BadDex(InputFault::Dex(fault)),
    }
}

/// A fault of the library as a status.
fn library_status(fault: DexFault) -> Status
    requires { CountsInFile fault }
    ensures refused { IsLibraryRefusal result }
    ensures library { (bytes : List ℕ) → FailsIf (is_free fault) fault (library_at bytes) → LibraryRefused bytes result }
{
    match fault {
        DexFault::NoMemory => Status::NoMemory,
        DexFault::Limit(limit) => Status::Limit(limit),
        DexFault::Short { .. }
        | DexFault::Magic
        | DexFault::Header { .. }
        | DexFault::Checksum { .. }
        | DexFault::Pool(_)
        | DexFault::Code { .. }
        | DexFault::Member { .. }
        | DexFault::Root { .. }
        | DexFault::FrameSize { .. } => Status::BadDex(InputFault::Library(fault)),
    }
}

/// A fault of the class graph as a status.
fn hierarchy_status(fault: HierarchyFault) -> Status
    ensures refused { ReadRefused result }
    ensures file { (bytes : List ℕ) → HasGraphFault bytes fault → FileRefused bytes result }
{
    match fault {
        HierarchyFault::NoMemory => Status::NoMemory,
        HierarchyFault::Cycle { .. }
        | HierarchyFault::Twice { .. }
        | HierarchyFault::SplitOverride { .. } => Status::BadDex(InputFault::Hierarchy(fault)),
    }
}

/// A fault of a method's types as a status.
fn typing_status(fault: TypeFault) -> Status
    ensures refused { ReadRefused result }
    ensures file { (bytes : List ℕ) → HasTypeFault bytes fault → FileRefused bytes result }
{
    match fault {
        TypeFault::NoMemory => Status::NoMemory,
        TypeFault::IllTyped { .. } => Status::BadDex(InputFault::Typing(fault)),
    }
}

/// A program that was read and is well typed, with the graph of its classes.
#[derive(Drop)]
struct Classes {
    program: Program,
    hierarchy: Hierarchy,
}

/// The program that the bytes spell, which is well-formed.
#[tactic(auto, using(crate::proofs::FinishedLemmas::well_formed_if, crate::proofs::FinishedLemmas::read_if))]
fn read_program(alloc: Global, bytes: &[u8]) -> Result<Program, DexFault>
    ensures gives { Gives is_free (λ program. program) result (program_at bytes.now) }
    ensures limits { IfOk result KeepsLimits }
    ensures counts { IfErr result CountsInFile }
    ensures formed { IfOk result (λ program. is_well_formed program ≡ true) }
    ensures read { IfOk result IsOfBytes }
    ensures small { OnOk result ((i : ℕ) → slice_index bytes.now i < 256) }
{
    reads_well_formed(bytes);
    read_dex(alloc, bytes)
}

/// The file, its class graph and its types, in this order. The bytes are let go as soon as they are read.
#[tactic(auto, using(crate::proofs::FinishedLemmas::graph_fault))]
fn read_classes(alloc: Global, file: Seq<u8>) -> Result<Classes, Status>
    ensures limits { IfOk result (λ classes. KeepsLimits classes.program) }
    ensures read { IfOk result (λ classes. program_at file ≡ Ok classes.program) }
    ensures small { OnOk result ((i : ℕ) → slice_index file i < 256) }
    ensures formed { IfOk result (λ classes. is_well_formed classes.program ≡ true) }
    ensures resolved { IfOk result (λ classes. IsResolved classes.program classes.hierarchy) }
    ensures accepted { IfOk result (λ classes. IsAccepted classes.program) }
    ensures refused { IfErr result ReadRefused }
    ensures file { IfErr result (FileRefused file) }
{
    let program = match read_program(alloc, file.as_slice()) {
        Ok(program) => program,
        Err(fault) => return Err(dex_status(fault)),
    };
    drop(file);
    let hierarchy = match Hierarchy::build(alloc, &program) {
        Ok(hierarchy) => hierarchy,
        Err(fault) => return Err(hierarchy_status(fault)),
    };
    match verify_all(alloc, &program, &hierarchy) {
        Ok(()) => Ok(Classes { program, hierarchy }),
        Err(fault) => Err(typing_status(fault)),
    }
}

/// A program that was read, with its hierarchy and the table of what the framework may reach of it.
#[derive(Drop)]
struct Input {
    program: Program,
    hierarchy: Hierarchy,
    outside: Outside,
}

/// What the rules keep of a program, closed: the table of each text from which they may have been read.
fn closed_outside(
    alloc: Global,
    rules: &mut IfRules,
    program: &Program,
    hierarchy: &Hierarchy,
) -> Result<Outside, AllocError>
    requires limits { KeepsLimits program.now }
    requires formed { is_well_formed program.now ≡ true }
    requires resolved { IsResolved program.now hierarchy.now }
    ensures { (text : List ℕ) → IsIfReading text rules.old → IfOk result (IsTableFor text program.now) }
{
    let open = outside_of(alloc, rules, program, hierarchy)?;
    close(alloc, program, hierarchy, &open)
}

/// The closed table without the methods that the library shuts. The bytes are let go as soon as they are read.
fn narrowed_outside(
    alloc: Global,
    library: Seq<u8>,
    program: &Program,
    hierarchy: &Hierarchy,
    closed: Outside,
) -> Result<Outside, Status>
    requires formed { is_well_formed program.now ≡ true }
    requires resolved { IsResolved program.now hierarchy.now }
    ensures table { (rules : List ℕ) → IsTableFor rules program.now closed → IfOk result (IsTableBy rules library program.now) }
    ensures refused { IfErr result IsLibraryRefusal }
    ensures library { IfErr result (LibraryRefused library) }
{
    let stubs = match read_library(alloc, library.as_slice()) {
        Ok(stubs) => stubs,
        Err(fault) => return Err(library_status(fault)),
    };
    drop(library);
    match narrow(alloc, &stubs, program, hierarchy, &closed) {
        Ok(outside) => Ok(outside),
        Err(_) => Err(Status::NoMemory),
    }
}

/// The closed table, without the methods that the library shuts where there is one.
fn table_with(
    alloc: Global,
    library: Option<Seq<u8>>,
    program: &Program,
    hierarchy: &Hierarchy,
    closed: Outside,
) -> Result<Outside, Status>
    requires formed { is_well_formed program.now ≡ true }
    requires resolved { IsResolved program.now hierarchy.now }
    ensures table { (rules : List ℕ) → IsTableFor rules program.now closed → IfOk result (IsTableWith rules library program.now) }
    ensures refused { IfErr result (LibraryEnds library) }
{
    match library {
        None => Ok(closed),
        Some(library) => narrowed_outside(alloc, library, program, hierarchy, closed),
    }
}

/// The rules, the file, its class graph and its types, and the library, in this order. The bytes are let go as soon as they are
/// read.
#[tactic(auto, using(crate::proofs::FinishedLemmas::work_reads, crate::proofs::FinishedLemmas::no_memory, crate::proofs::FinishedLemmas::library_work))]
fn read_input(alloc: Global, inputs: Inputs) -> Result<Input, Status>
    requires { length inputs.rules < 2 ^ 32 }
    ensures program { IfOk result (λ input. program_at inputs.file ≡ Ok input.program) }
    ensures small { OnOk result ((i : ℕ) → slice_index inputs.file i < 256) }
    ensures formed { IfOk result (λ input. is_well_formed input.program ≡ true) }
    ensures resolved { IfOk result (λ input. IsResolved input.program input.hierarchy) }
    ensures accepted { IfOk result (λ input. IsAccepted input.program) }
    ensures table { IfOk result (λ input. IsTableWith inputs.rules inputs.library input.program input.outside) }
    ensures read { OnOk result (AreRead inputs) }
    ensures refused { IfErr result (WorkRefused inputs) }
    ensures bytes { IfErr result (BytesRefused inputs) }
{
    let mut rules = match read_rules(alloc, inputs.rules.as_slice()) {
        Ok(rules) => rules,
        Err(fault) => return Err(rules_status(fault)),
    };
    drop(inputs.rules);
    let Classes { program, hierarchy } = match read_classes(alloc, inputs.file) {
        Ok(classes) => classes,
        Err(status) => return Err(status),
    };
    let closed = match closed_outside(alloc, &mut rules, &program, &hierarchy) {
        Ok(closed) => closed,
        Err(_) => return Err(Status::NoMemory),
    };
    match table_with(alloc, inputs.library, &program, &hierarchy, closed) {
        Ok(outside) => Ok(Input {
            program,
            hierarchy,
            outside,
        }),
        Err(status) => Err(status),
    }
}

/// Tells the advisers one thing that the words say.
fn tell_one(alloc: Global, panel: &mut Panel, tell: &Tell) -> Result<(), AllocError>
    ensures { OnOk result (HasRun (turn_told tell.now ∷ [])
        (map (λ b. (⟦<dyn Adviser as Adviser>⟧ b.vtable).replies b.value) panel.old.advisers.items)
        (map (λ b. (⟦<dyn Adviser as Adviser>⟧ b.vtable).replies b.value) panel.new.advisers.items)
        panel.old.answers.items panel.new.answers.items) }
{
    match tell {
        Tell::Spare(prefix) => panel.tell(alloc, Key::Spare, 0, prefix.as_str()),
        Tell::AtMost(number) => panel.tell(alloc, Key::AtMost, *number, ""),
    }
}

/// Tells the advisers what the words say, in their order.
fn tell_all(alloc: Global, panel: &mut Panel, tells: &[Tell]) -> Result<(), AllocError>
    ensures { OnOk result (HasRun (map turn_told tells.now)
        (map (λ b. (⟦<dyn Adviser as Adviser>⟧ b.vtable).replies b.value) panel.old.advisers.items)
        (map (λ b. (⟦<dyn Adviser as Adviser>⟧ b.vtable).replies b.value) panel.new.advisers.items)
        panel.old.answers.items panel.new.answers.items) }
{
    for tell in tells {
        tell_one(alloc, panel, tell)?;
    }
    Ok(())
}

/// An output file and the summary that is said of it.
#[derive(Drop)]
pub struct Optimised {
    pub bytes: Vec<u8>,
    pub summary: String,
}

/// What is left of a program, with calls inlined before the rounds or without.
#[tactic(auto, using(crate::proofs::FinishedLemmas::leaves, crate::proofs::FinishedLemmas::leaves_inlined))]
fn left_of(
    alloc: Global,
    program: Program,
    outside: &Outside,
    inline: bool,
    panel: &mut Panel,
) -> Result<Outcome, AllocError>
    requires advisers { 0 ≤ vec_len panel.old.advisers }
    requires formed { is_well_formed program ≡ true }
    ensures leaves { IfOk result (λ outcome. LeavesBy inline
        (map (λ b. (⟦<dyn Adviser as Adviser>⟧ b.vtable).replies b.value) panel.old.advisers.items)
        panel.old.answers.items program outside.now outcome.program outcome.rounds outcome.spared) }
    ensures rounds { IfOk result (λ outcome. 1 ≤ outcome.rounds) }
{
    if inline {
        optimise_inlined(alloc, program, outside, panel)
    } else {
        optimise(alloc, program, outside, panel)
    }
}

/// Reads bytes, which so are known to be ones. It does nothing else.
fn read_bytes(bytes: &[u8])
    ensures { (i : ℕ) → slice_index bytes.now i < 256 }
{
    let _bytes = bytes;
}

/// Optimises a program, writes what is left and sums up.
#[tactic(auto, using(crate::proofs::FinishedLemmas::shrunk))]
fn optimise_program(
    alloc: Global,
    program: Program,
    outside: &Outside,
    inline: bool,
    before: Sizes,
    panel: &mut Panel,
) -> Result<Optimised, AllocError>
    requires { is_well_formed program ≡ true }
    ensures { IfOk result (λ optimised. Shrunk inline
        (map (λ b. (⟦<dyn Adviser as Adviser>⟧ b.vtable).replies b.value) panel.old.advisers.items)
        panel.old.answers.items program outside.now before optimised.bytes.items (string_bytes optimised.summary)) }
{
    let outcome = left_of(alloc, program, outside, inline, panel)?;
    let bytes = write_dex(alloc, &outcome.program)?;
    read_bytes(&bytes);
    let after = sizes_of(&outcome.program, bytes.len());
    let summary = summary(alloc, before, after, outcome.rounds, outcome.spared)?;
    Ok(Optimised { bytes, summary })
}

/// A panel of the advisers that were told what the words say.
fn told(alloc: Global, tells: &[Tell], advisers: Vec<Box<dyn Adviser>>) -> Result<Panel, AllocError>
    ensures told { IfOk result (λ panel. AreTold tells.now
        (map (λ b. (⟦<dyn Adviser as Adviser>⟧ b.vtable).replies b.value) advisers.items)
        (map (λ b. (⟦<dyn Adviser as Adviser>⟧ b.vtable).replies b.value) panel.advisers.items)) }
    ensures unasked { IfOk result (λ panel. panel.answers.items ≡ []) }
{
    let mut panel = Panel::new(alloc, advisers);
    tell_all(alloc, &mut panel, tells)?;
    Ok(panel)
}

/// Optimises an input that was read from so many bytes.
fn optimise_input(
    alloc: Global,
    input: Input,
    inline: bool,
    length: usize,
    panel: &mut Panel,
) -> Result<Optimised, AllocError>
    requires { is_well_formed input.program ≡ true }
    ensures { IfOk result (λ optimised. Shrunk inline
        (map (λ b. (⟦<dyn Adviser as Adviser>⟧ b.vtable).replies b.value) panel.old.advisers.items)
        panel.old.answers.items input.program input.outside (sizes_in input.program length) optimised.bytes.items (string_bytes optimised.summary)) }
{
    let before = sizes_of(&input.program, length);
    optimise_program(alloc, input.program, &input.outside, inline, before, panel)
}

/// Optimises a file by its rules, and by its library where there is one.
#[tactic(auto, using(crate::proofs::FinishedLemmas::no_memory))]
pub fn optimise_file(
    alloc: Global,
    inputs: Inputs,
    inline: bool,
    tells: &[Tell],
    advisers: Vec<Box<dyn Adviser>>,
) -> Result<Optimised, Status>
    requires { length inputs.rules < 2 ^ 32 }
    ensures finished { IfOk result (λ optimised. Finished inline
        (map (λ b. (⟦<dyn Adviser as Adviser>⟧ b.vtable).replies b.value) advisers.items)
        tells.now inputs optimised.bytes.items (string_bytes optimised.summary)) }
    ensures read { OnOk result (AreRead inputs) }
    ensures refused { IfErr result (WorkRefused inputs) }
    ensures bytes { IfErr result (BytesRefused inputs) }
{
    let length = inputs.file.len();
    let input = match read_input(alloc, inputs) {
        Ok(input) => input,
        Err(status) => return Err(status),
    };
    let mut panel = match told(alloc, tells, advisers) {
        Ok(panel) => panel,
        Err(_) => return Err(Status::NoMemory),
    };
    match optimise_input(alloc, input, inline, length, &mut panel) {
        Ok(optimised) => Ok(optimised),
        Err(_) => Err(Status::NoMemory),
    }
}

/// The file of the workload of so many classes.
fn workload_file(alloc: Global, count: u32) -> Result<Vec<u8>, AllocError>
    requires { count ≤ 2000 }
{
    write_dex(alloc, &generate(alloc, count)?)
}

/// The rules and the file of the workload of so many classes.
fn workload_inputs(alloc: Global, count: u32) -> Result<Inputs, AllocError>
    requires { count ≤ 2000 }
    ensures short { IfOk result (λ inputs. length inputs.rules < 2 ^ 32) }
    ensures alone { IfOk result (λ inputs. inputs.library ≡ None) }
{
    let file = workload_file(alloc, count)?;
    let rules = Vec::from_slice(alloc, WORKLOAD_RULES)?;
    Ok(Inputs {
        rules: Seq::of_vec(rules),
        file: Seq::of_vec(file),
        library: None,
    })
}

/// Optimises the workload of so many classes, and answers the summary.
#[tactic(auto, using(crate::proofs::FinishedLemmas::is_workload, crate::proofs::FinishedLemmas::made, crate::proofs::FinishedLemmas::none_made))]
pub fn optimise_workload(
    alloc: Global,
    count: u32,
    advisers: Vec<Box<dyn Adviser>>,
) -> Result<String, Status>
    requires { count ≤ 2000 }
    ensures summary { IfOk result (λ text. IsWorkload (map (λ b. (⟦<dyn Adviser as Adviser>⟧ b.vtable).replies b.value) advisers.items) (string_bytes text)) }
    ensures refused { IfErr result MadeRefused }
{
    let inputs = match workload_inputs(alloc, count) {
        Ok(inputs) => inputs,
        Err(_) => return Err(Status::NoMemory),
    };
    match optimise_file(alloc, inputs, false, &[], advisers) {
        Ok(optimised) => Ok(optimised.summary),
        Err(status) => Err(status),
    }
}

/// The live classes and members of an input, as they are said.
#[tactic(auto, using(crate::proofs::FinishedLemmas::lists_file, crate::proofs::FinishedLemmas::no_memory))]
fn live_of(alloc: Global, input: &Input) -> Result<Vec<u8>, Status>
    requires formed { is_well_formed input.now.program ≡ true }
    requires resolved { IsResolved input.now.program input.now.hierarchy }
    ensures lists { (inputs : Inputs) → program_at inputs.file ≡ Ok input.now.program → IsAccepted input.now.program → IsTableWith inputs.rules inputs.library input.now.program input.now.outside
        → IfOk result (λ text. ListsFile inputs text.items) }
    ensures refused { (inputs : Inputs) → IfErr result (WorkRefused inputs) }
    ensures bytes { (inputs : Inputs) → IfErr result (BytesRefused inputs) }
{
    let live = match live_members(alloc, &input.program, &input.hierarchy, &input.outside) {
        Ok(live) => live,
        Err(_) => return Err(Status::NoMemory),
    };
    match live_list(alloc, &input.program, &live) {
        Ok(text) => Ok(text),
        Err(_) => Err(Status::NoMemory),
    }
}

/// The live classes and members of a file by its rules, and by its library where there is one, as they are said.
pub fn list_live(alloc: Global, inputs: Inputs) -> Result<Vec<u8>, Status>
    requires { length inputs.rules < 2 ^ 32 }
    ensures lists { IfOk result (λ text. ListsFile inputs text.items) }
    ensures read { OnOk result (AreRead inputs) }
    ensures refused { IfErr result (WorkRefused inputs) }
    ensures bytes { IfErr result (BytesRefused inputs) }
{
    let input = match read_input(alloc, inputs) {
        Ok(input) => input,
        Err(status) => return Err(status),
    };
    live_of(alloc, &input)
}

/// How many classes, methods and instructions a program has, as they are said.
fn counts_of(alloc: Global, program: &Program) -> Result<Vec<u8>, Status>
    ensures checked { IfOk result (λ text. text.items ≡ program_text program.now) }
    ensures refused { IfErr result ReadRefused }
    ensures file { (bytes : List ℕ) → IfErr result (FileRefused bytes) }
{
    match check_line(alloc, program) {
        Ok(text) => Ok(text.into_bytes()),
        Err(_) => Err(Status::NoMemory),
    }
}

/// How many classes, methods and instructions a well typed file has, as they are said.
#[tactic(auto, using(crate::proofs::FinishedLemmas::checked))]
pub fn check_file(alloc: Global, file: Seq<u8>) -> Result<Vec<u8>, Status>
    ensures checked { IfOk result (λ text. Checks file text.items) }
    ensures refused { IfErr result ReadRefused }
    ensures file { IfErr result (FileRefused file) }
{
    let classes = match read_classes(alloc, file) {
        Ok(classes) => classes,
        Err(status) => return Err(status),
    };
    counts_of(alloc, &classes.program)
}

/// The play that a script spells.
#[tactic(auto, using(crate::proofs::ScriptLemmas::line_refuses, crate::proofs::FinishedLemmas::no_memory, crate::proofs::FinishedLemmas::bad_script))]
fn read_play(alloc: Global, script: &[u8]) -> Result<Play, Status>
    requires { length script.now < 2 ^ 32 }
    ensures plays { IfOk result (λ play. play_of script.now ≡ Ok play) }
    ensures refused { (inputs : Inputs) → IfErr result (TraceRefused inputs script.now) }
    ensures bytes { (inputs : Inputs) → AreRead inputs → IfErr result (BytesRefused inputs) }
{
    match read_script(alloc, script) {
        Ok(play) => Ok(play),
        Err(ScriptFault::NoMemory) => Err(Status::NoMemory),
        Err(ScriptFault::Line { number }) => Err(Status::BadScript(number)),
    }
}

/// The events of so many steps of an input under a play.
fn events_of(
    alloc: Global,
    input: &Input,
    play: &Play,
    steps: u32,
) -> Result<Vec<Event>, AllocError>
    requires { IsAccepted input.now.program }
    ensures few { IfOk result (λ events. vec_len events ≤ steps) }
    ensures shown { IfOk result (λ events. events.items ≡ shows (named input.now.program) (outer_of input.now.program input.now.outside) play.now.framework play.now.floats play.now.moves steps) }
{
    run(
        alloc,
        &input.program,
        &input.outside,
        &play.framework,
        &play.floats,
        play.moves.as_slice(),
        steps,
    )
}

/// The lines of these events.
#[tactic(auto, using(crate::proofs::Traced::traces))]
fn trace_play(alloc: Global, input: &Input, play: &Play, steps: u32) -> Result<Vec<u8>, AllocError>
    requires { IsAccepted input.now.program }
    ensures { (rules : List ℕ) (library : Option (List ℕ)) → IsTableWith rules library input.now.program input.now.outside
        → IfOk result (λ text. Traces rules library input.now.program play.now steps text.items) }
{
    let events = events_of(alloc, input, play, steps)?;
    write_events(alloc, events.as_slice())
}

/// The events of so many steps of an input under a script, as they are said.
#[tactic(auto, using(crate::proofs::Traced::traces_file, crate::proofs::FinishedLemmas::no_memory))]
fn trace_input(alloc: Global, input: &Input, script: &[u8], steps: u32) -> Result<Vec<u8>, Status>
    requires script { length script.now < 2 ^ 32 }
    requires accepted { IsAccepted input.now.program }
    ensures traced { (inputs : Inputs) → program_at inputs.file ≡ Ok input.now.program → IsTableWith inputs.rules inputs.library input.now.program input.now.outside
        → IfOk result (λ text. TracesFile inputs script.now steps text.items) }
    ensures refused { (inputs : Inputs) → IfErr result (TraceRefused inputs script.now) }
    ensures bytes { (inputs : Inputs) → AreRead inputs → IfErr result (BytesRefused inputs) }
{
    let play = match read_play(alloc, script) {
        Ok(play) => play,
        Err(status) => return Err(status),
    };
    match trace_play(alloc, input, &play, steps) {
        Ok(text) => Ok(text),
        Err(_) => Err(Status::NoMemory),
    }
}

/// The events of so many steps of a file under a script, as they are said.
#[tactic(auto, using(crate::proofs::CommandLemmas::work_traces))]
pub fn trace_file(
    alloc: Global,
    inputs: Inputs,
    script: &[u8],
    steps: u32,
) -> Result<Vec<u8>, Status>
    requires rules { length inputs.rules < 2 ^ 32 }
    requires script { length script.now < 2 ^ 32 }
    ensures traced { IfOk result (λ text. TracesFile inputs script.now steps text.items) }
    ensures read { OnOk result (AreRead inputs) }
    ensures refused { IfErr result (TraceRefused inputs script.now) }
    ensures bytes { IfErr result (BytesRefused inputs) }
{
    let input = match read_input(alloc, inputs) {
        Ok(input) => input,
        Err(status) => return Err(status),
    };
    trace_input(alloc, &input, script, steps)
}
