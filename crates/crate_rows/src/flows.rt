//! Where bodies go on, and orders of graphs.

use flow_cfg::{blocks, successors, weak_order};
use program_model::Body;
use program_text::{Answer, first_body, program_of};

/// The edge `FROM>TO`.
fn edge(answer: &mut Answer, word: &str) -> (u32, u32) {
    let (from, to) = answer.split(word, ">");
    (answer.number(from), answer.number(to))
}

/// The parts of the order of a graph with so many nodes, each with its node and its end.
pub fn order(answer: &mut Answer, nodes: &str, list: &str) {
    let nodes = answer.number(nodes);
    let mut edges = Vec::new(answer.alloc());
    for word in list.split(',') {
        let edge = edge(answer, word);
        answer.note(edges.push(edge).is_err());
    }
    say_order(answer, nodes, edges.as_slice());
}

/// Adds the parts of an order.
fn say_order(answer: &mut Answer, nodes: u32, edges: &[(u32, u32)]) {
    let parts = weak_order(answer.alloc(), nodes, edges, 0);
    if let Some(parts) = answer.taken(parts) {
        answer.begin_list();
        for part in parts.as_slice() {
            answer.next();
            answer.say_number("", i128::from(part.node));
            answer.say_number("..", i128::from(part.end));
        }
        answer.end_list();
    }
}

/// Adds where a position of a body goes on.
fn say_successors(answer: &mut Answer, body: &Body, position: u32) {
    if body.insns.len() > 1000 {
        answer.refuse();
        return;
    }
    let found = successors(answer.alloc(), body, position);
    if let Some(found) = answer.taken(found) {
        answer.say_numbers(found.as_slice());
    }
}

/// Where a position of the first method goes on.
pub fn successors_at(answer: &mut Answer, text: &str, position: &str) {
    let position = answer.number(position);
    let program = program_of(answer, text);
    match first_body(&program) {
        Some(body) => say_successors(answer, body, position),
        None => answer.refuse(),
    }
}

/// Adds the first positions of the blocks of a body.
fn say_firsts(answer: &mut Answer, body: &Body) {
    if body.insns.len() > 1000 {
        answer.refuse();
        return;
    }
    let found = blocks(answer.alloc(), body);
    if let Some(found) = answer.taken(found) {
        answer.say_numbers(found.firsts.as_slice());
    }
}

/// The first positions of the blocks of the first method.
pub fn firsts(answer: &mut Answer, text: &str) {
    let program = program_of(answer, text);
    match first_body(&program) {
        Some(body) => say_firsts(answer, body),
        None => answer.refuse(),
    }
}
