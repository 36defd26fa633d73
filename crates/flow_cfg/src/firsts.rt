//! The blocks of the code of a method.

/// The first positions of the blocks, ascending. A block goes on to the position before the next one's first.
#[derive(PartialEq, Eq, Debug, Drop)]
pub struct Blocks {
    pub firsts: Vec<u32>,
}
