//! What is known where nodes begin.

use crate::codes::Code;
use crate::nodes::Nodes;
use crate::rows::{NONE, behind};
use crate::sites::{Site, Sites};
use facts_check::Start;
use std::alloc::{AllocError, Global};

/// What is known of a position.
fn start_of(nodes: &Nodes<'_>, site: Site) -> Result<Start, AllocError> {
    if site.node == NONE {
        return Ok(Start::Inside);
    }
    match nodes.state(site.node) {
        Some(registers) => Ok(Start::Comes(registers.share()?)),
        None => Ok(Start::Idle),
    }
}

/// What is known of the positions of a body.
pub(crate) fn starts_of(
    alloc: Global,
    sites: &Sites,
    nodes: &Nodes<'_>,
    code: &Code<'_>,
) -> Result<Vec<Start>, AllocError> {
    let mut starts = Vec::with_capacity(alloc, code.body.insns.len())?;
    let mut position = 0u32;
    for _ in code.body.insns.as_slice() {
        starts.push(start_of(nodes, sites.at(code, position))?)?;
        position = behind(position, 1);
    }
    Ok(starts)
}
