//! Where regions begin.

ghost use Rattle.std.specs.Prelude.{◌≡◌, ℕ, ◌<◌, ◌||◌, nat_eq, length, IfOk};
ghost use Rattle.walk_marks.specs.Walks.{is_on};
ghost use Rattle.dead_code.specs.Wishes.{begins};

use program_model::Body;
use std::alloc::{AllocError, Global};

/// Marks a position, if it is one.
#[tactic(auto, using(crate::proofs::Beginning::set_mark, crate::proofs::Beginning::no_mark))]
fn mark(marks: &mut Vec<bool>, position: u32)
    ensures long { length marks.new.items ≡ length marks.old.items }
    ensures marked { (n : ℕ) → n < length marks.old.items → is_on marks.new.items n ≡ (is_on marks.old.items n || nat_eq position n) }
{
    let place = position as usize;
    if place < marks.len() {
        marks[place] = true;
    }
}

/// The positions with which regions begin.
pub(crate) fn begins(alloc: Global, body: &Body) -> Result<Vec<bool>, AllocError>
    ensures long { IfOk result (λ v. length v.items ≡ length body.now.insns) }
    ensures begin { IfOk result (λ v. (n : ℕ) → n < length body.now.insns → is_on v.items n ≡ begins body.now n) }
{
    let mut marks = vec![in alloc; false; body.insns.len()]?;
    for region in body.regions.as_slice() {
        mark(&mut marks, region.first);
    }
    Ok(marks)
}
