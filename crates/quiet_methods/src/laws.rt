//! What the marks of quiet methods give.

ghost use Rattle.quiet_methods.specs.Falling.{RanksFall};

/// The levels of methods and the ranks of their positions make one rank, which falls with each step in a quiet method and with
/// each call there.
#[tactic(auto, using(crate::proofs::Falling::ranks_fall))]
pub fn ranks_fall()
    ensures { RanksFall }
{}
