//! What a solver asks of a program, and what it answers.

ghost use Rattle.std.specs.Prelude.{◌≡◌, ℕ, ◌<◌, length, IfOk, slice_index_or};
ghost use Rattle.fixpoint.specs.Graph.{Graph, FlowLaws};

use lattice_core::{Domain, Lattice};
use std::alloc::{AllocError, Global};

/// A graph with a state at each node.
///
/// Its author chooses which states stay at a node. Bottom and every entry stay. Where a state stays at the target of an
/// edge and another at its source, the join and the widening of the first with what the edge makes of the second stay
/// too, and so does the join and the widening with the node's entry.
pub trait Flow {
    type State: Domain;

    /// The laws hold of it.
    ghost sound: { Self → Type 0 };

    /// Its nodes, edges, entries and transfers.
    ghost graph: { Self → Graph Self.State };

    /// A state stays at a node.
    ghost stays: { Self → ℕ → Self.State → Type 0 };

    /// How many nodes there are.
    fn nodes(&self) -> u32
        ensures is { result ≡ (graph self.now).nodes }
        ensures sound { sound self.now };

    /// How many edges there are.
    fn edges(&self) -> u64
        ensures { result ≡ (graph self.now).edges };

    /// The source and the target of the edge at a place below the number of edges.
    fn edge(&self, place: u64) -> (u32, u32)
        requires { place < (graph self.now).edges }
        ensures from { result.0 ≡ (graph self.now).source place }
        ensures to { result.1 ≡ (graph self.now).target place };

    /// The state in which a node begins. The only error is want of memory.
    fn entry(&self, alloc: Global, node: u32) -> Result<Self::State, AllocError>
        requires { node < (graph self.now).nodes }
        ensures { IfOk result (λ s. s ≡ (graph self.now).begun node) };

    /// What an edge makes of the state of its source. The only error is want of memory.
    fn transfer(
        &self,
        alloc: Global,
        edge: u64,
        state: &Self::State,
    ) -> Result<Self::State, AllocError>
        requires { edge < (graph self.now).edges }
        ensures { IfOk result (λ s. s ≡ (graph self.now).moved edge state.now) };

    ghost laws: { (f : Self) → sound f → FlowLaws Self.State.below Self.State.EXACT Self.State.least Self.State.joined Self.State.widened (stays f) (graph f) };
}

/// A state for each node.
#[derive(Drop)]
pub struct Solution<F: Flow> {
    pub states: Vec<F::State>,
}

impl<F: Flow> Solution<F> {
    /// The state of a node.
    pub fn at(&self, node: u32) -> &F::State
        requires { node < length self.now.states.items }
        ensures { result.now ≡ slice_index_or self.now.states.items node F.State.least }
    {
        &self.states[node as usize]
    }
}
