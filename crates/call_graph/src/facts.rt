//! What is known to be live, and what is known to be called.

ghost use Rattle.std.specs.Prelude.{◌≡◌, ◌+◌, ◌≤◌, IfOk, OnOk, IfNone, OnSome, length, vec_len};
ghost use Rattle.std.specs.Prelude.{true, ◌∷◌, [], IfSome, MatchOption};
ghost use Rattle.call_graph.specs.Facts.{Grows, Sized, weight};
ghost use Rattle.call_graph.specs.Closed.{reached, Waits, Goes, Reaches, IsBlank, Takes, Ends};
ghost use Rattle.call_graph.specs.Least.{IsTaken, WaitsAmong};

use crate::marks::Marks;
use program_model::Program;
use std::alloc::{AllocError, Global};

/// The live classes and the made ones, by type, the live fields and methods by their numbers, and the methods that live
/// virtual and interface calls name.
#[derive(Drop)]
pub struct Facts {
    pub classes: Marks,
    pub made: Marks,
    pub fields: Marks,
    pub methods: Marks,
    pub called: Marks,
}

/// One thing that is known: a number of the table that its variant names.
#[derive(Clone, Copy, Drop)]
pub enum Fact {
    Class(u32),
    Made(u32),
    Field(u32),
    Method(u32),
    Called(u32),
}

/// No facts of a program.
pub fn no_facts(alloc: Global, program: &Program) -> Result<Facts, AllocError>
    ensures sized { IfOk result (Sized program.now) }
    ensures blank { IfOk result (λ f. IsBlank f) }
    ensures idle { IfOk result (λ f. (y : Fact) → Waits f y → ⊥) }
{
    Ok(Facts {
        classes: Marks::new(alloc, program.types.len())?,
        made: Marks::new(alloc, program.types.len())?,
        fields: Marks::new(alloc, program.fields.len())?,
        methods: Marks::new(alloc, program.methods.len())?,
        called: Marks::new(alloc, program.methods.len())?,
    })
}

impl Facts {
    /// Adds a fact, which then waits unless it was known.
    #[tactic(auto, using(crate::proofs::Growth::keeps_same))]
    pub fn add(&mut self, fact: Fact) -> Result<(), AllocError>
        ensures grows { OnOk result (Grows self.old self.new) }
        ensures goes { OnOk result (Goes self.old self.new) }
        ensures known { OnOk result (reached self.new fact ≡ true) }
        ensures from { OnOk result (WaitsAmong self.old self.new (fact ∷ [])) }
    {
        match fact {
            Fact::Class(number) => self.classes.mark(number),
            Fact::Made(number) => self.made.mark(number),
            Fact::Field(number) => self.fields.mark(number),
            Fact::Method(number) => self.methods.mark(number),
            Fact::Called(number) => self.called.mark(number),
        }
    }

    /// Adds facts.
    pub fn add_all(&mut self, facts: &[Fact]) -> Result<(), AllocError>
        ensures grows { OnOk result (Grows self.old self.new) }
        ensures goes { OnOk result (Goes self.old self.new) }
        ensures known { OnOk result (Reaches self.new facts.now) }
        ensures from { OnOk result (WaitsAmong self.old self.new facts.now) }
    {
        for fact in facts {
            self.add(*fact)?;
        }
        Ok(())
    }

    /// Takes a fact that waits.
    pub fn next(&mut self) -> Option<Fact>
        ensures grows { Grows self.old self.new }
        ensures some { OnSome result (weight self.new + 1 ≤ weight self.old) }
        ensures takes { MatchOption result (Ends self.old self.new) (λ x. Takes self.old self.new x) }
        ensures taken { IfSome result (IsTaken self.old self.new) }
        ensures rest { (y : Fact) → Waits self.new y → Waits self.old y }
    {
        if let Some(number) = self.classes.pop() {
            return Some(Fact::Class(number));
        }
        if let Some(number) = self.made.pop() {
            return Some(Fact::Made(number));
        }
        if let Some(number) = self.fields.pop() {
            return Some(Fact::Field(number));
        }
        if let Some(number) = self.methods.pop() {
            return Some(Fact::Method(number));
        }
        match self.called.pop() {
            Some(number) => Some(Fact::Called(number)),
            None => None,
        }
    }
}
