//! What a walk from the entry comes to.

ghost use Rattle.std.specs.Prelude.{◌≡◌, ◌↔◌, ℕ, ◌+◌, ◌<◌, ◌^◌, Bool, true, length, IfOk};
ghost use Rattle.walk_marks.specs.Walks.{is_on};
ghost use Rattle.body_graph.specs.Walks.{IsReached};

use crate::edges::rows;
use program_model::Body;
use std::alloc::{AllocError, Global};
use walk_marks::{Gate, marked};

/// All edges.
struct Always;

impl Gate for Always {
    ghost lets = { λ g from to. true };

    fn is_open(&self, _from: u32, _to: u32) -> bool {
        true
    }
}

/// Which positions some walk from the entry comes to, also through handlers. The only error is want of memory.
pub fn reached(alloc: Global, body: &Body) -> Result<Vec<bool>, AllocError>
    requires { length body.now.insns + length body.now.regions < 2 ^ 32 }
    ensures long { IfOk result (λ v. length v.items ≡ length body.now.insns) }
    ensures exact { IfOk result (λ v. (n : ℕ) → n < length body.now.insns → (is_on v.items n ≡ true) ↔ IsReached body.now n) }
{
    let rows = rows(alloc, body)?;
    let mut marks = marked(alloc, &rows, &[0], &Always)?;
    marks.truncate(body.insns.len());
    Ok(marks)
}
