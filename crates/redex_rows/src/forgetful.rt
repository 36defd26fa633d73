//! An adviser that finds no memory.

ghost use Rattle.std.specs.Prelude.{Some};
ghost use Rattle.redex_outside.specs.Budgets.{budget_replies};

use redex_outside::{Adviser, Ask, Key};
use std::alloc::{AllocError, Global};

/// Finds no memory for what it is told.
#[derive(Drop)]
pub struct Forgetful;

#[tactic(auto, using(redex_outside::proofs::Replies::budget_one_for_each))]
impl Adviser for Forgetful {
    ghost replies = { λ _. budget_replies (Some 0) 0 };

    fn tell(
        &mut self,
        _alloc: Global,
        _key: Key,
        _number: u32,
        _text: &str,
    ) -> Result<(), AllocError> {
        Err(AllocError)
    }

    fn weigh(&mut self, _ask: &Ask) -> bool {
        false
    }
}
