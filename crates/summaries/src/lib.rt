//! What is known of every run of a program: of each register at each position, and of parameters, results and fields.
//!
//! [`analyse`] lets what is known spread from where runs begin until nothing rises any more (`spread.rt`), and has it
//! checked. A body is walked through from node to node: nodes stand where its branches and handlers go, and after so many
//! instructions at the latest, and have the registers there (`sites.rt`, `nodes.rt`). A walk does to its registers what the
//! steps of `dom_frame` do, but in place (`walks.rt`, `strides.rt`). What methods share stands in cells: parameter words,
//! results, fields, and what the calls of each number on objects get back (`cells.rt`). An instruction on the way raises the
//! cells that it writes, and takes the value of the one that it reads; a cell that rises lets those nodes wait from which it
//! is read. What calls on objects pass goes through a pool for each number of them to all that they may find (`pools.rt`),
//! which `call_targets` tells. What the framework may enter, need and keep begins with anything (`begin.rt`), first what is
//! called or read by others (`order.rt`).
//!
//! Values rise by joins, and are widened after so many of them, or where registers come from further on: so the search ends
//! soon. The check fills in the frames between nodes, which share all that they have in common.
//!
//! Proved is that the facts which are answered are closed, as `closed_facts` says (`specs/Certified.antt`). What the search
//! found is checked for it (`facts_check`), and where it weren't closed, facts would be answered that say nothing
//! (`unknown.rt`, `vague_facts`). So a fault in the search costs facts, and never makes a wrong one. What this stands on, that
//! the program is well-formed and the hierarchy its own, is a premise of the contract. No clause says that the check passes, or
//! how much the search finds. Which methods do nothing that anyone could see is not asked here: the
//! table of quiet methods stays empty, by which none is known to be quiet (`quiet_code` asks `quiet_methods`).
#![tactic(auto)]

mod analysis;
mod begin;
mod cells;
mod codes;
mod nodes;
mod order;
mod pools;
mod rows;
mod sites;
mod spread;
mod starts;
mod strides;
mod tables;
mod unknown;
mod waits;
mod walks;

pub use analysis::analyse;
pub use facts::Facts;
