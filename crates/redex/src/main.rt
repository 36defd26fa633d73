//! The program: hands its words to the top call, with real files, standard output and two advisers.
#![tactic(auto)]

ghost use Rattle.std.specs.Prelude.{◌≡◌};
ghost use Rattle.std.specs.Process.{exit_status};
ghost use Rattle.redex_cli.specs.Status.{code_of};

use exit_code::exit_code_of;
use redex_cli::{Status, run};
use redex_outside::{Adviser, BudgetAdviser, FileShelf, PrefixAdviser, StdNotes};
use std::env;
use std::io::ErrorKind;
use std::process::ExitCode;

/// The status of a run that finds no memory.
const NO_MEMORY: u8 = 7;

/// The status of a word that can't be had.
const USAGE: u8 = 1;

/// How the process ends after a run.
fn ended(status: &Status) -> ExitCode
    ensures { exit_status result ≡ code_of status.now }
{
    exit_code_of(status.code())
}

fn main(rt: HostRuntime) -> ExitCode {
    let alloc = rt.alloc();
    let mut words = Vec::new(alloc);
    let arguments = match env::args(&rt) {
        Ok(arguments) => arguments,
        Err(error) if error.kind() == ErrorKind::OutOfMemory => return ExitCode::from(NO_MEMORY),
        Err(_) => return ExitCode::from(USAGE),
    };
    for word in arguments.skip(1) {
        if words.push(word).is_err() {
            return ExitCode::from(NO_MEMORY);
        }
    }
    let mut advisers: Vec<Box<dyn Adviser>> = Vec::new(alloc);
    let Ok(prefixes) = Box::new(alloc, PrefixAdviser::new(alloc)) else {
        return ExitCode::from(NO_MEMORY);
    };
    if advisers.push(prefixes).is_err() {
        return ExitCode::from(NO_MEMORY);
    }
    let Ok(budget) = Box::new(alloc, BudgetAdviser::new()) else {
        return ExitCode::from(NO_MEMORY);
    };
    if advisers.push(budget).is_err() {
        return ExitCode::from(NO_MEMORY);
    }
    let mut shelf = FileShelf::new(&rt);
    let mut notes = StdNotes::new(&rt);
    let status = run(alloc, &words, &mut shelf, &mut notes, advisers);
    ended(&status)
}
