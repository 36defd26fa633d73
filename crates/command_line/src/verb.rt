//! The commands' names.

ghost use Rattle.std.specs.Prelude.{◌≡◌};
ghost use Rattle.command_line.specs.Reading.{verb_of};

/// What a command does.
#[derive(Clone, Copy)]
pub enum Verb {
    Optimise,
    Check,
    Live,
    Trace,
    Workload,
}

/// The command of this name.
pub fn verb_of(name: &str) -> Option<Verb>
    ensures { result ≡ verb_of name.now }
{
    if name == "optimise" {
        Some(Verb::Optimise)
    } else if name == "check" {
        Some(Verb::Check)
    } else if name == "live" {
        Some(Verb::Live)
    } else if name == "trace" {
        Some(Verb::Trace)
    } else if name == "workload" {
        Some(Verb::Workload)
    } else {
        None
    }
}
