//! An adviser that says yes so many times.

ghost use Rattle.std.specs.Prelude.{◌≡◌, None, OnOk, IsOk};
ghost use Rattle.redex_outside.specs.Turns.{Told};
ghost use Rattle.redex_outside.specs.Voices.{HasTaken, HasAnswered, OneForEach};
ghost use Rattle.redex_outside.specs.Budgets.{budget_replies};

use crate::adviser::{Adviser, Ask, Key};
use std::alloc::{AllocError, Global};

/// With a budget it says yes while it has given fewer yes answers than the budget, without one always.
#[derive(Drop)]
pub struct BudgetAdviser {
    budget: Option<u32>,
    given: u64,
}

impl BudgetAdviser {
    /// No budget, and no yes given.
    pub fn new() -> BudgetAdviser
        ensures budget { result.budget ≡ None }
        ensures given { result.given ≡ 0 }
    {
        BudgetAdviser {
            budget: None,
            given: 0,
        }
    }
}

#[tactic(auto, using(crate::proofs::Replies::budget_one_for_each))]
impl Adviser for BudgetAdviser {
    ghost replies = { λ adviser. budget_replies adviser.budget adviser.given };

    /// Sets the budget to the number, where it is told `AtMost`. This takes no memory.
    fn tell(&mut self, _alloc: Global, key: Key, number: u32, _text: &str) -> Result<(), AllocError>
        ensures always { IsOk result }
        ensures told { HasTaken (Told key number _text.now) (budget_replies self.old.budget self.old.given) (budget_replies self.new.budget self.new.given) }
        ensures one_for_each { OneForEach (budget_replies self.old.budget self.old.given) }
    {
        if key == Key::AtMost {
            self.budget = Some(number);
        }
        Ok(())
    }

    fn weigh(&mut self, _ask: &Ask) -> bool {
        let yes = match self.budget {
            None => true,
            Some(most) => self.given < u64::from(most),
        };
        if yes {
            self.given = self.given.saturating_add(1);
        }
        yes
    }
}
