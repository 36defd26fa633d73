//! The top call.

ghost use Rattle.std.specs.Prelude.{◌≡◌, IsTrue, IfOk, IfErr, map, string_bytes};
ghost use Rattle.program_model.specs.declared.limits.Counted.{Counted};
ghost use Rattle.command_line.specs.Spelling.{Spells};
ghost use Rattle.command_line.specs.declared.command.CommandWords.{CommandWords};
ghost use Rattle.redex_cli.specs.Commands.{CountsWithin, Puts, SpellsNothing};
ghost use Rattle.redex_cli.specs.Ends.{Caused, Delivers, Ends};
ghost use Rattle.redex_cli.specs.Finished.{Results};
ghost use Rattle.redex_cli.specs.Refusals.{EndsTooLong, EndsUnspelled, GivesFor, OutputBy, ReadsAll, RefusesFor, TooLong, WordsRefused};
ghost use Rattle.redex_cli.specs.Said.{Said, SaysResult, SaysStatus, unsaid};
ghost use Rattle.redex_cli.specs.Stays.{Stays};

use crate::command::perform;
use crate::fault_lines::status_line;
use crate::status::Status;
use command_line::{CommandWords, read_words};
use redex_outside::{Adviser, NoteFault, Notes, Shelf};
use std::alloc::Global;

/// The command that the words spell.
#[tactic(auto, using(crate::proofs::WordsLemmas::spelled_within, crate::proofs::WordsLemmas::only_spelled, crate::proofs::WordsLemmas::none_spelled))]
fn asked(alloc: Global, words: &[String]) -> Result<CommandWords, Status>
    ensures found { IfOk result (λ command. Spells (map string_bytes words.now) command) }
    ensures only { IfOk result (λ command. (other : CommandWords) → Spells (map string_bytes words.now) other → other ≡ command) }
    ensures within { IfOk result CountsWithin }
    ensures refused { IfErr result (WordsRefused (map string_bytes words.now)) }
{
    match read_words(alloc, words) {
        Ok(Some(command)) => Ok(command),
        Ok(None) => Err(Status::Usage),
        Err(_) => Err(Status::NoMemory),
    }
}

/// Does what the words ask for, and answers its result, which is still to be said.
#[tactic(auto, using(crate::proofs::WordsLemmas::words_give, crate::proofs::WordsLemmas::words_refuse, crate::proofs::WordsLemmas::early_refuses))]
fn obey<H: Shelf>(
    alloc: Global,
    words: &[String],
    shelf: &mut H,
    advisers: Vec<Box<dyn Adviser>>,
) -> Result<Vec<u8>, Status>
    ensures given { IfOk result (λ text. GivesFor (map string_bytes words.now) (map (λ b. (⟦<dyn Adviser as Adviser>⟧ b.vtable).replies b.value) advisers.items)
        (H.tells shelf.old) (H.held shelf.old) (H.held shelf.new) text.items) }
    ensures refused { IfErr result (λ status. RefusesFor (map string_bytes words.now) (map (λ b. (⟦<dyn Adviser as Adviser>⟧ b.vtable).replies b.value) advisers.items)
        (H.tells shelf.old) (H.held shelf.old) (H.held shelf.new) (H.fetch_faults shelf.old)
        (H.fetch_faults shelf.new) (H.put_faults shelf.old) (H.put_faults shelf.new) status) }
{
    let command = match asked(alloc, words) {
        Ok(command) => command,
        Err(status) => return Err(status),
    };
    match perform(alloc, &command, shelf, advisers) {
        Ok(text) => Ok(text),
        Err(status) => Err(status),
    }
}

/// Says a result.
fn say_result<N: Notes>(alloc: Global, notes: &mut N, text: &[u8]) -> Status
    ensures { SaysResult text.now (N.tells notes.old) (N.faults notes.old) (N.faults notes.new) (N.said notes.old) (N.said notes.new) result }
{
    match notes.say(alloc, text) {
        Ok(()) => Status::Done,
        Err(NoteFault::NoMemory) => Status::NoMemory,
        Err(NoteFault::Failed) => Status::WriteFault,
    }
}

/// A status whose line found no memory: `NoMemory`, unless the output or the notes had failed.
fn unsaid(status: Status) -> Status
    ensures { result ≡ unsaid status }
{
    match status {
        Status::WriteFault => Status::WriteFault,
        _ => Status::NoMemory,
    }
}

/// Says the line of a status.
#[tactic(auto, using(crate::proofs::SaidLemmas::says_nothing, crate::proofs::SaidLemmas::says_line, crate::proofs::SaidLemmas::says_part))]
fn say_status<N: Notes>(alloc: Global, notes: &mut N, status: Status) -> Status
    ensures { SaysStatus status (N.tells notes.old) (N.faults notes.old) (N.faults notes.new) (N.said notes.old) (N.said notes.new) result }
{
    let line = match status_line(alloc, &status) {
        Ok(line) => line,
        Err(_) => return unsaid(status),
    };
    match notes.say(alloc, line.as_bytes()) {
        Ok(()) => status,
        Err(NoteFault::NoMemory) => unsaid(status),
        Err(NoteFault::Failed) => status,
    }
}

/// Does what the words ask for, and says the result or the line of the refusal.
#[tactic(auto, using(crate::proofs::RunLemmas::result_ends, crate::proofs::RunLemmas::status_ends))]
fn answer<H: Shelf, N: Notes>(
    alloc: Global,
    words: &[String],
    shelf: &mut H,
    notes: &mut N,
    advisers: Vec<Box<dyn Adviser>>,
) -> Status
    ensures { Ends (map string_bytes words.now) (map (λ b. (⟦<dyn Adviser as Adviser>⟧ b.vtable).replies b.value) advisers.items)
        (H.tells shelf.old) (H.held shelf.old) (H.held shelf.new) (H.fetch_faults shelf.old) (H.fetch_faults shelf.new)
        (H.put_faults shelf.old) (H.put_faults shelf.new) (N.tells notes.old) (N.said notes.old) (N.said notes.new) (N.faults notes.old) (N.faults notes.new) result }
{
    match obey(alloc, words, shelf, advisers) {
        Ok(text) => say_result(alloc, notes, text.as_slice()),
        Err(status) => say_status(alloc, notes, status),
    }
}

/// Does what the words ask for: fetches the rules and the file that they name, checks, optimises or lists, puts the output and
/// says the result or the line of the fault, by one call each.
///
/// Refusals come in this order: the words; the fetch of the rules, then of the file, of the library and of the script; the
/// rules; the file's header, checksum, limits, tables, classes and bodies; the graph of its classes; the types of its bodies, in
/// class and method order; the library; the script; the put; the saying. The advisers are told what the options say, and are
/// asked about each live method with code when all inputs are found good.
pub fn run<H: Shelf, N: Notes>(
    alloc: Global,
    words: &[String],
    shelf: &mut H,
    notes: &mut N,
    advisers: Vec<Box<dyn Adviser>>,
) -> Status
    // Each status has its cause: `Usage` in the words, `ReadFault` and `WriteFault` in a count that rose, `Limit` of
    // bytes in what the first name holds that holds too much, every other `Limit` and each `BadDex` of the reading in
    // what the bytes of the file or of the library give, `BadDex` of the classes or of the types in the program that the
    // file spells. On a shelf that tells what it holds, what comes before it in the order above is not refused: the names
    // that are fetched before keep their limits, the rules are read before the file, the file is accepted before the
    // library is read, all of them are before the script, and the script is read before the put and the saying.
    ensures cause { Caused (map string_bytes words.now) (H.tells shelf.old) (H.held shelf.old) (H.fetch_faults shelf.old) (H.fetch_faults shelf.new) (H.put_faults shelf.old)
        (H.put_faults shelf.new) (N.faults notes.old) (N.faults notes.new) result }

    // Words that spell no command are `Usage`, and a name that holds too much is its limit.
    ensures unspelled { SpellsNothing (map string_bytes words.now) → EndsUnspelled result }
    ensures too_long { (counted : Counted) → IsTrue (H.tells shelf.old) → TooLong (map string_bytes words.now) (H.held shelf.old) counted → EndsTooLong counted result }

    // Where the run is done, all names that were fetched keep their limits, the rules are read, the file spells a program
    // whose class graph has no fault and whose bodies are well typed, the library declares classes, and the script spells
    // a play.
    ensures read { result ≡ Status.Done → IsTrue (H.tells shelf.old) → ReadsAll (map string_bytes words.now) (H.held shelf.old) }

    // What the names hold, and what was said: of `check` the counts of the program that the file spells, of `live` the list
    // of what is live, of `trace` the lines of what that program shows in so many steps of the play that the script spells
    // (`specs/Finished.antt`). The advisers that were told and asked are these.
    ensures stays { IsTrue (H.tells shelf.old) → Stays (Puts (map string_bytes words.now))
        (OutputBy (map string_bytes words.now) (map (λ b. (⟦<dyn Adviser as Adviser>⟧ b.vtable).replies b.value) advisers.items)
        (H.tells shelf.old) (H.held shelf.old))
        result (H.put_faults shelf.old) (H.put_faults shelf.new) (H.held shelf.old) (H.held shelf.new) }
    ensures said { IsTrue (N.tells notes.old)
        → Said (Results (map string_bytes words.now) (map (λ b. (⟦<dyn Adviser as Adviser>⟧ b.vtable).replies b.value) advisers.items)
        (H.tells shelf.old) (H.held shelf.old)) result (N.faults notes.old) (N.faults notes.new) (N.said notes.old) (N.said notes.new) }
    ensures done { result ≡ Status.Done → IsTrue (H.tells shelf.old) → IsTrue (N.tells notes.old)
        → Delivers (map string_bytes words.now) (map (λ b. (⟦<dyn Adviser as Adviser>⟧ b.vtable).replies b.value) advisers.items)
        (H.tells shelf.old) (H.held shelf.old) (H.held shelf.new) (N.said notes.old) (N.said notes.new) }
{
    answer(alloc, words, shelf, notes, advisers)
}
