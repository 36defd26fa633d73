//! What a script says: a framework, what float arithmetic answers, and moves.

use dalvik_defs::{FloatRow, Floats, Framework, FrameworkType, Move};
use seq::Seq;

/// What a line of a script says.
#[derive(Drop)]
pub enum ScriptLine {
    /// `type`: a type of the framework.
    Framework(FrameworkType),
    /// `float`: what a float operation answers.
    Float(FloatRow),
    /// Every other line.
    Move(Move),
}

/// The framework, its float table and its moves.
#[derive(Drop)]
pub struct Play {
    pub framework: Framework,
    pub floats: Floats,
    pub moves: Seq<Move>,
}
