//! What each command fetches and puts.

ghost use Rattle.std.specs.Prelude.{◌≡◌, ◌≤◌, [], None, Some, IsTrue, IfOk, IfErr, map};
ghost use Rattle.redex_cli.specs.Commands.{CountsWithin, fetches, file_alone, input_files, output_of, trace_files};
ghost use Rattle.redex_cli.specs.FaultLines.{usage_text};
ghost use Rattle.redex_cli.specs.Finished.{FinishedOf, IsChecked, IsOutputOf, IsResult, IsSummary, IsWorkload};
ghost use Rattle.redex_cli.specs.Lists.{IsListed};
ghost use Rattle.redex_cli.specs.Refusals.{Refuses, Gives, MadeRefused};
ghost use Rattle.redex_cli.specs.Traces.{IsTraced};

use crate::fetching::{Kind, fetch, fetch_inputs, fetch_trace, put};
use crate::status::Status;
use crate::work::{check_file, list_live, optimise_file, optimise_workload, trace_file};
use command_line::{CommandWords, OptimiseWords, USAGE, Word};
use redex_outside::{Adviser, Shelf};
use std::alloc::Global;

/// `optimise`: fetches the rules, the file and the library, and puts the output. Its result is the summary.
#[tactic(auto, using(crate::proofs::CommandLemmas::fetch_refuses, crate::proofs::CommandLemmas::inputs_refuse, crate::proofs::CommandLemmas::output_refuses, crate::proofs::CommandLemmas::output_gives))]
fn run_optimise<H: Shelf>(
    alloc: Global,
    words: &OptimiseWords,
    shelf: &mut H,
    advisers: Vec<Box<dyn Adviser>>,
) -> Result<Vec<u8>, Status>
    ensures given { IfOk result (λ text. Gives (input_files words.now.rules words.now.input words.now.library) (Some words.now.output)
        (FinishedOf (map (λ b. (⟦<dyn Adviser as Adviser>⟧ b.vtable).replies b.value) advisers.items) (H.tells shelf.old) (H.held shelf.old) words.now)
        (IsSummary (FinishedOf (map (λ b. (⟦<dyn Adviser as Adviser>⟧ b.vtable).replies b.value) advisers.items)
        (H.tells shelf.old) (H.held shelf.old) words.now))
        (H.tells shelf.old) (H.held shelf.old) (H.held shelf.new) text.items) }
    ensures refused { IfErr result (λ status. Refuses (input_files words.now.rules words.now.input words.now.library) (Some words.now.output)
        (FinishedOf (map (λ b. (⟦<dyn Adviser as Adviser>⟧ b.vtable).replies b.value) advisers.items) (H.tells shelf.old) (H.held shelf.old) words.now)
        (H.tells shelf.old) (H.held shelf.old) (H.held shelf.new) (H.fetch_faults shelf.old) (H.fetch_faults shelf.new) (H.put_faults shelf.old) (H.put_faults shelf.new) status) }
{
    let inputs = match fetch_inputs(alloc, shelf, &words.rules, &words.input, &words.library) {
        Ok(inputs) => inputs,
        Err(status) => return Err(status),
    };
    let optimised = match optimise_file(
        alloc,
        inputs,
        words.inline,
        words.tells.as_slice(),
        advisers,
    ) {
        Ok(optimised) => optimised,
        Err(status) => return Err(status),
    };
    match put(alloc, shelf, &words.output, optimised.bytes.as_slice()) {
        Ok(()) => Ok(optimised.summary.into_bytes()),
        Err(status) => Err(status),
    }
}

/// `live`: fetches the rules, the file and the library. Its result is the list of live classes and members.
#[tactic(auto, using(crate::proofs::CommandLemmas::fetch_refuses, crate::proofs::CommandLemmas::inputs_refuse, crate::proofs::CommandLemmas::live_given))]
fn run_live<H: Shelf>(
    alloc: Global,
    rules: &Word,
    input: &Word,
    library: &Option<Word>,
    shelf: &mut H,
) -> Result<Vec<u8>, Status>
    ensures given { IfOk result (λ text. Gives (input_files rules.now input.now library.now) None (λ _ _. ⊥)
        (IsListed (H.tells shelf.old) (H.held shelf.old) rules.now input.now library.now) (H.tells shelf.old) (H.held shelf.old) (H.held shelf.new) text.items) }
    ensures refused { IfErr result (λ status. Refuses (input_files rules.now input.now library.now) None (λ _ _. ⊥)
        (H.tells shelf.old) (H.held shelf.old) (H.held shelf.new) (H.fetch_faults shelf.old) (H.fetch_faults shelf.new) (H.put_faults shelf.old) (H.put_faults shelf.new) status) }
{
    let inputs = match fetch_inputs(alloc, shelf, rules, input, library) {
        Ok(inputs) => inputs,
        Err(status) => return Err(status),
    };
    match list_live(alloc, inputs) {
        Ok(text) => Ok(text),
        Err(status) => Err(status),
    }
}

/// `trace`: fetches the rules, the file, the library and the script. Its result is the events.
#[tactic(auto, using(crate::proofs::CommandLemmas::fetch_refuses, crate::proofs::CommandLemmas::trace_refuses, crate::proofs::CommandLemmas::trace_given))]
fn run_trace<H: Shelf>(
    alloc: Global,
    rules: &Word,
    input: &Word,
    library: &Option<Word>,
    script: &Word,
    steps: u32,
    shelf: &mut H,
) -> Result<Vec<u8>, Status>
    ensures given { IfOk result (λ text. Gives (trace_files rules.now input.now library.now script.now) None (λ _ _. ⊥)
        (IsTraced (H.tells shelf.old) (H.held shelf.old) rules.now input.now library.now script.now steps)
        (H.tells shelf.old) (H.held shelf.old) (H.held shelf.new) text.items) }
    ensures refused { IfErr result (λ status. Refuses (trace_files rules.now input.now library.now script.now) None (λ _ _. ⊥)
        (H.tells shelf.old) (H.held shelf.old) (H.held shelf.new) (H.fetch_faults shelf.old) (H.fetch_faults shelf.new) (H.put_faults shelf.old) (H.put_faults shelf.new) status) }
{
    let inputs = match fetch_trace(alloc, shelf, rules, input, library, script) {
        Ok(inputs) => inputs,
        Err(status) => return Err(status),
    };
    match trace_file(alloc, inputs.inputs, inputs.script.as_slice(), steps) {
        Ok(text) => Ok(text),
        Err(status) => Err(status),
    }
}

/// `check`: fetches the file. Its result is how much is in it.
#[tactic(auto, using(crate::proofs::CommandLemmas::fetch_refuses, crate::proofs::CommandLemmas::check_gives))]
fn run_check<H: Shelf>(alloc: Global, input: &Word, shelf: &mut H) -> Result<Vec<u8>, Status>
    ensures given { IfOk result (λ text. Gives (file_alone input.now) None (λ _ _. ⊥) (IsChecked (H.tells shelf.old) (H.held shelf.old) input.now)
        (H.tells shelf.old) (H.held shelf.old) (H.held shelf.new) text.items) }
    ensures refused { IfErr result (λ status. Refuses (file_alone input.now) None (λ _ _. ⊥)
        (H.tells shelf.old) (H.held shelf.old) (H.held shelf.new) (H.fetch_faults shelf.old) (H.fetch_faults shelf.new) (H.put_faults shelf.old) (H.put_faults shelf.new) status) }
{
    let file = match fetch(alloc, shelf, input, Kind::File) {
        Ok(file) => file,
        Err(status) => return Err(status),
    };
    match check_file(alloc, file) {
        Ok(text) => Ok(text),
        Err(status) => Err(status),
    }
}

/// No words: the result is the usage text.
#[tactic(auto, using(crate::proofs::FinishedLemmas::none_made))]
fn usage_result(alloc: Global) -> Result<Vec<u8>, Status>
    ensures text { IfOk result (λ text. text.items ≡ usage_text) }
    ensures refused { IfErr result MadeRefused }
{
    match Vec::from_slice(alloc, USAGE.as_bytes()) {
        Ok(text) => Ok(text),
        Err(_) => Err(Status::NoMemory),
    }
}

/// `workload`: its result is the summary. Nothing is fetched or put.
fn run_workload(
    alloc: Global,
    count: u32,
    advisers: Vec<Box<dyn Adviser>>,
) -> Result<Vec<u8>, Status>
    requires { count ≤ 2000 }
    ensures summary { IfOk result (λ text. IsWorkload (map (λ b. (⟦<dyn Adviser as Adviser>⟧ b.vtable).replies b.value) advisers.items) text.items) }
    ensures refused { IfErr result MadeRefused }
{
    match optimise_workload(alloc, count, advisers) {
        Ok(summary) => Ok(summary.into_bytes()),
        Err(status) => Err(status),
    }
}

/// Does what a command asks for, and answers its result, which is still to be said.
#[tactic(auto, using(crate::proofs::CommandLemmas::made_refuses, crate::proofs::CommandLemmas::made_gives))]
pub fn perform<H: Shelf>(
    alloc: Global,
    command: &CommandWords,
    shelf: &mut H,
    advisers: Vec<Box<dyn Adviser>>,
) -> Result<Vec<u8>, Status>
    requires { CountsWithin command.now }
    ensures given { IfOk result (λ text. Gives (fetches command.now) (output_of command.now)
        (IsOutputOf (map (λ b. (⟦<dyn Adviser as Adviser>⟧ b.vtable).replies b.value) advisers.items) (H.tells shelf.old) (H.held shelf.old) command.now)
        (IsResult (map (λ b. (⟦<dyn Adviser as Adviser>⟧ b.vtable).replies b.value) advisers.items) (H.tells shelf.old) (H.held shelf.old) command.now)
        (H.tells shelf.old) (H.held shelf.old) (H.held shelf.new) text.items) }
    ensures refused { IfErr result (λ status. Refuses (fetches command.now) (output_of command.now)
        (IsOutputOf (map (λ b. (⟦<dyn Adviser as Adviser>⟧ b.vtable).replies b.value) advisers.items) (H.tells shelf.old) (H.held shelf.old) command.now)
        (H.tells shelf.old) (H.held shelf.old) (H.held shelf.new) (H.fetch_faults shelf.old) (H.fetch_faults shelf.new) (H.put_faults shelf.old) (H.put_faults shelf.new) status) }
{
    match command {
        CommandWords::Nothing => usage_result(alloc),
        CommandWords::Optimise(words) => run_optimise(alloc, words, shelf, advisers),
        CommandWords::Check { input } => run_check(alloc, input, shelf),
        CommandWords::Live {
            rules,
            input,
            library,
        } => run_live(alloc, rules, input, library, shelf),
        CommandWords::Trace {
            rules,
            input,
            script,
            steps,
            library,
        } => run_trace(alloc, rules, input, library, script, *steps, shelf),
        CommandWords::Workload { count } => run_workload(alloc, *count, advisers),
    }
}
