//! Several advisers, asked together.

ghost use Rattle.std.specs.Prelude.{◌≡◌, ◌≤◌, ◌+◌, Bool, List, [], ◌∷◌, ◌++◌, OnOk, OnErr, IfOk, map, length, vec_len, vec_capacity};
ghost use Rattle.redex_outside.specs.Turns.{Turn, Told, Weighed};
ghost use Rattle.redex_outside.specs.Voices.{Voice, HasTaken, SameVoice, HasAnswered};
ghost use Rattle.redex_outside.specs.Panels.{AllTold, SomeTold, AskedAll, HasRun};

use crate::adviser::{Adviser, Ask, Key};
use std::alloc::{AllocError, Global};

/// Advisers, and the answers that they have given: one of each adviser for each ask, in order.
#[derive(Drop)]
pub struct Panel {
    /// The advisers, in the order in which they are told and asked.
    pub advisers: Vec<Box<dyn Adviser>>,
    /// Their answers.
    pub answers: Vec<bool>,
}

// Each `requires` below always holds. A function that has one makes no adviser of its own, so a caller in another
// crate that hands the panel on need not know its body.
impl Panel {
    /// These advisers, and no answers.
    pub fn new(alloc: Global, advisers: Vec<Box<dyn Adviser>>) -> Panel
        requires { 0 ≤ vec_len advisers }
        ensures advisers { result.advisers.items ≡ advisers.items }
        ensures answers { result.answers.items ≡ [] }
    {
        Panel {
            advisers,
            answers: Vec::new(alloc),
        }
    }

    /// Tells every adviser in order. After a refusal the earlier ones were told, and no other.
    pub fn tell(
        &mut self,
        alloc: Global,
        key: Key,
        number: u32,
        text: &str,
    ) -> Result<(), AllocError>
        requires { 0 ≤ vec_len self.old.advisers }
        ensures told { OnOk result (AllTold (Told key number text.now) (map (λ b. replies b) self.old.advisers.items) (map (λ b. replies b) self.new.advisers.items)) }
        ensures refused { OnErr result (SomeTold (Told key number text.now) (map (λ b. replies b) self.old.advisers.items) (map (λ b. replies b) self.new.advisers.items)) }
        ensures answers { self.new.answers ≡ self.old.answers }

        // A run of the panel goes on with this turn.
        ensures runs { OnOk result ((turns : List Turn) (olds : List Voice) (before : List Bool)
            → HasRun turns olds (map (λ b. replies b) self.old.advisers.items) before self.old.answers.items
            → HasRun (turns ++ Told key number text.now ∷ []) olds (map (λ b. replies b) self.new.advisers.items) before self.new.answers.items) }
    {
        tell_all(self.advisers.as_mut_slice(), alloc, key, number, text)
    }

    /// Asks every adviser in order, also after a no, and answers whether all said yes. Each answer goes behind
    /// `answers`, for which it makes room first: a refusal leaves all unasked.
    pub fn ask(&mut self, _alloc: Global, ask: &Ask) -> Result<bool, AllocError>
        requires { 0 ≤ vec_len self.old.advisers }
        ensures asked { IfOk result (λ all. AskedAll ask.now (map (λ b. replies b) self.old.advisers.items) (map (λ b. replies b) self.new.advisers.items) self.old.answers.items self.new.answers.items all) }
        ensures unasked { OnErr result (self.new.advisers ≡ self.old.advisers) }
        ensures refused { OnErr result (self.new.answers.items ≡ self.old.answers.items) }

        // A run of the panel goes on with this turn.
        ensures runs { OnOk result ((turns : List Turn) (olds : List Voice) (before : List Bool)
            → HasRun turns olds (map (λ b. replies b) self.old.advisers.items) before self.old.answers.items
            → HasRun (turns ++ Weighed ask.now ∷ []) olds (map (λ b. replies b) self.new.advisers.items) before self.new.answers.items) }
    {
        self.answers.reserve(self.advisers.len())?;
        Ok(weigh_all(self.advisers.as_mut_slice(), &mut self.answers, ask))
    }
}

fn tell_one(
    adviser: &mut Box<dyn Adviser>,
    alloc: Global,
    key: Key,
    number: u32,
    text: &str,
) -> Result<(), AllocError>
    ensures told { OnOk result (HasTaken (Told key number text.now) (replies adviser.old) (replies adviser.new)) }
    ensures refused { OnErr result (SameVoice (replies adviser.old) (replies adviser.new)) }
{
    adviser.tell(alloc, key, number, text)
}

fn tell_all(
    advisers: &mut [Box<dyn Adviser>],
    alloc: Global,
    key: Key,
    number: u32,
    text: &str,
) -> Result<(), AllocError>
    ensures told { OnOk result (AllTold (Told key number text.now) (map (λ b. replies b) advisers.old) (map (λ b. replies b) advisers.new)) }
    ensures runs { OnOk result ((turns : List Turn) (olds : List Voice) (before after : List Bool)
        → HasRun turns olds (map (λ b. replies b) advisers.old) before after
        → HasRun (turns ++ Told key number text.now ∷ []) olds (map (λ b. replies b) advisers.new) before after) }
    ensures refused { OnErr result (SomeTold (Told key number text.now) (map (λ b. replies b) advisers.old) (map (λ b. replies b) advisers.new)) }
{
    for adviser in advisers.iter_mut() {
        tell_one(adviser, alloc, key, number, text)?;
    }
    Ok(())
}

fn weigh_one(adviser: &mut Box<dyn Adviser>, ask: &Ask) -> bool
    ensures { HasAnswered ask.now (replies adviser.old) result (replies adviser.new) }
{
    adviser.weigh(ask)
}

fn weigh_all(advisers: &mut [Box<dyn Adviser>], answers: &mut Vec<bool>, ask: &Ask) -> bool
    requires { vec_len answers.old + length advisers.old ≤ vec_capacity answers.old }
    ensures asked { AskedAll ask.now (map (λ b. replies b) advisers.old) (map (λ b. replies b) advisers.new) answers.old.items answers.new.items result }
    ensures runs { (turns : List Turn) (olds : List Voice) (before : List Bool)
        → HasRun turns olds (map (λ b. replies b) advisers.old) before answers.old.items
        → HasRun (turns ++ Weighed ask.now ∷ []) olds (map (λ b. replies b) advisers.new) before answers.new.items }
{
    let mut all = true;
    for adviser in advisers.iter_mut() {
        let yes = weigh_one(adviser, ask);
        answers.push(yes).unwrap();
        all &= yes;
    }
    all
}
