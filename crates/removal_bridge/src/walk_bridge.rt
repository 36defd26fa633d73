//! Walks through a body by number are walks through its named body: what is reached, and which registers are read.
//!
//! Analyses speak of a body and its instructions (`body_graph`), what programs mean is said of named bodies and their forms
//! (`pass_defs`). A form reads, writes, throws and goes on as its instruction does, and has the same targets and handlers, so the
//! one may be put in place of the other.

ghost use Rattle.removal_bridge.specs.Bridged.{IsReachedByNumber, IsReadByNumber, IsReadAfterByNumber};

/// Some walk from the entry comes to a position of a body exactly where one does in the named body.
pub fn reached_law()
    ensures { IsReachedByNumber }
{}

/// Some walk from a position of a body reads a register before it is written exactly where one does in the named body.
pub fn read_law()
    ensures { IsReadByNumber }
{}

/// The same of walks onward from a position, also through its handlers.
pub fn read_after_law()
    ensures { IsReadAfterByNumber }
{}
