//! What is known beside the frames.

use call_graph::LiveSet;
use call_targets::Targets;
use dom_frame::Classes;
use domains::Value;
use facts::Facts;
use hierarchy::Hierarchy;
use pat_map::PatMap;
use program_model::{Outside, Program};

/// What virtual and interface calls pass to all methods that they may find, and what they get back from them, by the number
/// of the call, and whether a run may come to such a call.
#[derive(Drop)]
pub struct Pools {
    pub reached: Vec<bool>,
    pub calls: Vec<PatMap<Value>>,
    pub answers: Vec<Value>,
}

/// What a run may come to: methods by number, classes that are initialised by their places, and interfaces in whose
/// lists it looks for more of these.
#[derive(Drop)]
pub struct Marks {
    pub entered: Vec<bool>,
    pub needed: Vec<bool>,
    pub listed: Vec<bool>,
}

/// A program with all that is known of its runs but the frames, of which `facts` has none. `targets` tells of the calls of
/// live methods.
#[derive(Clone, Copy)]
pub struct Known<'a> {
    pub program: &'a Program,
    pub hierarchy: &'a Hierarchy,
    pub classes: Classes<'a>,
    pub outside: &'a Outside,
    pub live: &'a LiveSet,
    pub targets: &'a Targets,
    pub facts: &'a Facts,
    pub pools: &'a Pools,
    pub marks: &'a Marks,
}
