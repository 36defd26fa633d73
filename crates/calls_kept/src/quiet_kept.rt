//! A program in which calls and divisions that do nothing are nops, by certified facts, is kept for the outside of these facts: it
//! is well-formed and typed, has the same tables and the same classes and members but for bodies, shows the same, and keeps what a
//! table of shut methods owes.
//!
//! `specs/Owed.antt` says so of what quiet_code leaves, as the rounds ask it of each pass.

ghost use Rattle.calls_kept.specs.Owed.{QuietedKept, QuietedShut};

/// What is left of a well-formed and typed program once calls and divisions that do nothing by certified facts are nops is kept
/// for the outside of these facts.
#[tactic(auto, using(crate::proofs::QuietKept::quieted_kept))]
pub fn quieted_kept_law()
    ensures { QuietedKept }
{}

/// Whatever the facts are, it keeps what a table of shut methods owes: a nop calls nothing.
#[tactic(auto, using(crate::proofs::QuietShuts::quieted_shut))]
pub fn quieted_shut_law()
    ensures { QuietedShut }
{}
