//! Fetching and putting names.

ghost use Rattle.std.specs.Prelude.{◌≡◌, ◌≤◌, ◌∷◌, [], Some, length, IsTrue, IfOk, IfErr, OnOk};
ghost use Rattle.program_model.specs.Limits.{limit_of};
ghost use Rattle.redex_outside.specs.Counts.{NoneFell};
ghost use Rattle.redex_outside.specs.Held.{OthersSame};
ghost use Rattle.redex_cli.specs.Commands.{counted_as, input_files, rules_and_file, trace_files};
ghost use Rattle.redex_cli.specs.Fetching.{AllWithin, FetchRefused, OnlyFetched, PutRefused};
ghost use Rattle.redex_cli.specs.Files.{AreHeld};

use crate::status::Status;
use command_line::Word;
use program_model::{Counted, LimitFault};
use redex_outside::{FetchFault, PutFault, Shelf};
use seq::Seq;
use std::alloc::Global;

/// What a fetched name is read as.
#[derive(Clone, Copy, Debug, Drop)]
pub enum Kind {
    Rules,
    File,
    Library,
    Script,
}

impl Kind {
    /// What its bytes are counted as.
    fn counted(&self) -> Counted
        ensures { result ≡ counted_as self.now }
    {
        match self {
            Kind::Rules => Counted::RuleBytes,
            Kind::File => Counted::FileBytes,
            Kind::Library => Counted::FileBytes,
            Kind::Script => Counted::ScriptBytes,
        }
    }
}

/// The bytes of the rules, of the file, and of the library where there is one.
#[derive(Drop)]
pub struct Inputs {
    pub rules: Seq<u8>,
    pub file: Seq<u8>,
    pub library: Option<Seq<u8>>,
}

/// The inputs of `trace`, and the bytes of the script.
#[derive(Drop)]
pub struct TraceInputs {
    pub inputs: Inputs,
    pub script: Seq<u8>,
}

/// A fetch that passed its limit, of which so many bytes were taken.
fn too_long(kind: Kind, taken: usize) -> Status
    ensures { result ≡ Status.Limit (record { counted = counted_as kind; number = taken }) }
{
    Status::Limit(LimitFault {
        counted: kind.counted(),
        number: taken as u64,
    })
}

/// The bytes under a name, within the limit of what they are counted as.
#[tactic(auto, using(crate::proofs::FetchLemmas::failed_alone))]
pub fn fetch<H: Shelf>(
    alloc: Global,
    shelf: &mut H,
    name: &Word,
    kind: Kind,
) -> Result<Seq<u8>, Status>
    ensures limit { IfOk result (λ bytes. length bytes ≤ limit_of (counted_as kind)) }
    ensures there { IfOk result (λ bytes. IsTrue (H.tells shelf.old) → H.held shelf.old name.now ≡ Some bytes) }
    ensures within { OnOk result (IsTrue (H.tells shelf.old) → AllWithin (H.held shelf.old) (record { name = name.now; kind = kind } ∷ [])) }
    ensures refused { IfErr result (λ status. FetchRefused (H.tells shelf.old) (H.held shelf.old) (H.fetch_faults shelf.old) (H.fetch_faults shelf.new)
        (record { name = name.now; kind = kind } ∷ []) status) }
    ensures stays { OnlyFetched (H.tells shelf.old) (H.tells shelf.new) (H.held shelf.old) (H.held shelf.new) (H.fetch_faults shelf.old) (H.fetch_faults shelf.new)
        (H.put_faults shelf.old) (H.put_faults shelf.new) }
{
    match shelf.fetch(alloc, name.as_str(), kind.counted().limit() as usize) {
        Ok(bytes) => Ok(Seq::of_vec(bytes)),
        Err(FetchFault::NoMemory) => Err(Status::NoMemory),
        Err(FetchFault::Failed) => Err(Status::ReadFault),
        Err(FetchFault::TooLong { taken }) => Err(too_long(kind, taken)),
    }
}

/// Fetches the rules, then the file.
#[tactic(auto, using(crate::proofs::FetchLemmas::only_fetched, crate::proofs::FetchLemmas::within_both, crate::proofs::FetchLemmas::refused_before, crate::proofs::FetchLemmas::refused_behind))]
fn fetch_pair<H: Shelf>(
    alloc: Global,
    shelf: &mut H,
    rules: &Word,
    input: &Word,
) -> Result<(Seq<u8>, Seq<u8>), Status>
    ensures limit { IfOk result (λ pair. length pair.0 ≤ 1048576) }
    ensures ruling { IfOk result (λ pair. IsTrue (H.tells shelf.old) → H.held shelf.old rules.now ≡ Some pair.0) }
    ensures file { IfOk result (λ pair. IsTrue (H.tells shelf.old) → H.held shelf.old input.now ≡ Some pair.1) }
    ensures within { OnOk result (IsTrue (H.tells shelf.old) → AllWithin (H.held shelf.old) (rules_and_file rules.now input.now)) }
    ensures refused { IfErr result (λ status. FetchRefused (H.tells shelf.old) (H.held shelf.old) (H.fetch_faults shelf.old) (H.fetch_faults shelf.new) (rules_and_file rules.now input.now) status) }
    ensures stays { OnlyFetched (H.tells shelf.old) (H.tells shelf.new) (H.held shelf.old) (H.held shelf.new) (H.fetch_faults shelf.old) (H.fetch_faults shelf.new)
        (H.put_faults shelf.old) (H.put_faults shelf.new) }
{
    let rules = match fetch(alloc, shelf, rules, Kind::Rules) {
        Ok(rules) => rules,
        Err(status) => return Err(status),
    };
    match fetch(alloc, shelf, input, Kind::File) {
        Ok(file) => Ok((rules, file)),
        Err(status) => Err(status),
    }
}

/// Fetches the rules, then the file, then the library where one is named.
#[tactic(auto, using(crate::proofs::FetchLemmas::only_fetched, crate::proofs::FetchLemmas::held_alone, crate::proofs::FetchLemmas::held_behind, crate::proofs::FetchLemmas::inputs_within_alone, crate::proofs::FetchLemmas::inputs_within, crate::proofs::FetchLemmas::inputs_refused_before, crate::proofs::FetchLemmas::inputs_refused))]
pub fn fetch_inputs<H: Shelf>(
    alloc: Global,
    shelf: &mut H,
    rules: &Word,
    input: &Word,
    library: &Option<Word>,
) -> Result<Inputs, Status>
    ensures limit { IfOk result (λ inputs. length inputs.rules ≤ 1048576) }
    ensures are { IfOk result (AreHeld (H.tells shelf.old) (H.held shelf.old) rules.now input.now library.now) }
    ensures within { OnOk result (IsTrue (H.tells shelf.old) → AllWithin (H.held shelf.old) (input_files rules.now input.now library.now)) }
    ensures refused { IfErr result (λ status. FetchRefused (H.tells shelf.old) (H.held shelf.old) (H.fetch_faults shelf.old) (H.fetch_faults shelf.new)
        (input_files rules.now input.now library.now) status) }
    ensures stays { OnlyFetched (H.tells shelf.old) (H.tells shelf.new) (H.held shelf.old) (H.held shelf.new) (H.fetch_faults shelf.old) (H.fetch_faults shelf.new)
        (H.put_faults shelf.old) (H.put_faults shelf.new) }
{
    let (rules, file) = match fetch_pair(alloc, shelf, rules, input) {
        Ok(pair) => pair,
        Err(status) => return Err(status),
    };
    match library {
        None => Ok(Inputs {
            rules,
            file,
            library: None,
        }),
        Some(name) => match fetch(alloc, shelf, name, Kind::Library) {
            Ok(library) => Ok(Inputs {
                rules,
                file,
                library: Some(library),
            }),
            Err(status) => Err(status),
        },
    }
}

/// Fetches the inputs, then the script.
#[tactic(auto, using(crate::proofs::FetchLemmas::only_fetched, crate::proofs::FetchLemmas::trace_within, crate::proofs::FetchLemmas::trace_refused_before, crate::proofs::FetchLemmas::trace_refused))]
pub fn fetch_trace<H: Shelf>(
    alloc: Global,
    shelf: &mut H,
    rules: &Word,
    input: &Word,
    library: &Option<Word>,
    script: &Word,
) -> Result<TraceInputs, Status>
    ensures rules_limit { IfOk result (λ inputs. length inputs.inputs.rules ≤ 1048576) }
    ensures script_limit { IfOk result (λ inputs. length inputs.script ≤ 1048576) }
    ensures are { IfOk result (λ inputs. AreHeld (H.tells shelf.old) (H.held shelf.old) rules.now input.now library.now inputs.inputs) }
    ensures there { IfOk result (λ inputs. IsTrue (H.tells shelf.old) → H.held shelf.old script.now ≡ Some inputs.script) }
    ensures within { OnOk result (IsTrue (H.tells shelf.old) → AllWithin (H.held shelf.old) (trace_files rules.now input.now library.now script.now)) }
    ensures refused { IfErr result (λ status. FetchRefused (H.tells shelf.old) (H.held shelf.old) (H.fetch_faults shelf.old) (H.fetch_faults shelf.new)
        (trace_files rules.now input.now library.now script.now) status) }
    ensures stays { OnlyFetched (H.tells shelf.old) (H.tells shelf.new) (H.held shelf.old) (H.held shelf.new) (H.fetch_faults shelf.old) (H.fetch_faults shelf.new)
        (H.put_faults shelf.old) (H.put_faults shelf.new) }
{
    let inputs = match fetch_inputs(alloc, shelf, rules, input, library) {
        Ok(inputs) => inputs,
        Err(status) => return Err(status),
    };
    match fetch(alloc, shelf, script, Kind::Script) {
        Ok(script) => Ok(TraceInputs { inputs, script }),
        Err(status) => Err(status),
    }
}

/// Puts an output.
pub fn put<H: Shelf>(alloc: Global, shelf: &mut H, name: &Word, bytes: &[u8]) -> Result<(), Status>
    ensures put { OnOk result (IsTrue (H.tells shelf.old) → H.held shelf.new name.now ≡ Some bytes.now) }
    ensures refused { IfErr result (λ status. PutRefused (H.tells shelf.old) (H.put_faults shelf.old name.now) (H.put_faults shelf.new name.now) (H.held shelf.old name.now)
        (H.held shelf.new name.now) bytes.now status) }
    ensures others { IsTrue (H.tells shelf.old) → OthersSame name.now (H.held shelf.old) (H.held shelf.new) }
    ensures tells { H.tells shelf.new ≡ H.tells shelf.old }
    ensures fetch_faults { NoneFell (H.fetch_faults shelf.old) (H.fetch_faults shelf.new) }
{
    match shelf.put(alloc, name.as_str(), bytes) {
        Ok(()) => Ok(()),
        Err(PutFault::NoMemory) => Err(Status::NoMemory),
        Err(PutFault::Failed) => Err(Status::WriteFault),
    }
}
