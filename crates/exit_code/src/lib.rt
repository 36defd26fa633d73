//! How the process ends after a run: with the run's status as its own.
//!
//! It stands here, and not in the program, so that an edit of it is tried over a proof of seconds.
#![tactic(auto)]

ghost use Rattle.std.specs.Prelude.{◌≡◌};
ghost use Rattle.std.specs.Process.{exit_status};

use std::process::ExitCode;

/// The exit code that the process ends with, for the number of a run's status.
pub fn exit_code_of(status: u8) -> ExitCode
    ensures { exit_status result ≡ status }
{
    ExitCode::from(status)
}
