//! Which edges of a graph a walk may take.

ghost use Rattle.std.specs.Prelude.{◌≡◌, ℕ, Bool};

/// A choice of edges.
pub trait Gate {
    /// Whether a walk may go from a node to another one along an edge between them.
    ghost lets: { Self → ℕ → ℕ → Bool };

    /// Whether a walk may go from a node to another one along an edge between them.
    fn is_open(&self, from: u32, to: u32) -> bool
        ensures { result ≡ lets self.now from to };
}
