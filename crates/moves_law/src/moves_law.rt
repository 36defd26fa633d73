//! Through how many Moves what a program reads went, in all: for each instruction that a walk reaches, along one path to it that is
//! chosen by where instructions go alone (`specs/Paths.antt`). Propagation of copies makes this number less with each read that it
//! changes, and other numbers of registers leave it the same.

ghost use Rattle.std.specs.Prelude.{◌≡◌, ◌<◌, ◌≤◌, ℕ, Bool, List, Some};
ghost use Rattle.program_model.specs.declared.body.Body.{Body};
ghost use Rattle.program_model.specs.declared.program.Program.{Program};
ghost use Rattle.body_graph.specs.Walks.{IsReached};
ghost use Rattle.compact.specs.Renamed.{IsCompactedProgram};
ghost use Rattle.copy_prop.specs.Propagated.{IsPropagatedProgram};
ghost use Rattle.moves_law.specs.Histories.{Step, IsPath};
ghost use Rattle.moves_law.specs.Paths.{path_to};
ghost use Rattle.moves_law.specs.Measure.{body_moves, moves_in};
ghost use Rattle.moves_law.specs.Example.{returns_copy, returns_original};

/// What is chosen for a position is a path to it, and there is one to each position that a walk reaches.
pub fn path_law()
    ensures sound { (b : Body) (n : ℕ) (ss : List Step) → path_to b n ≡ Some ss → IsPath b ss n }
    ensures found { (b : Body) (n : ℕ) → IsReached b n → (ss : List Step) × (path_to b n ≡ Some ss) }
{}

/// A copy of a copy is returned: the second Move reads what went through one, the Return what went through two. Where both
/// read the original, nothing that is read went through any.
pub fn example_law()
    ensures copy { body_moves (Some returns_copy) ≡ 3 }
    ensures original { body_moves (Some returns_original) ≡ 0 }
{}

/// Where stale reads read originals, what is read went through no more Moves in all, and through fewer where anything changed.
pub fn propagated_moves_law()
    ensures most { (admitted : List Bool) (p q : Program) → IsPropagatedProgram admitted p q → moves_in q ≤ moves_in p }
    ensures less { (admitted : List Bool) (p q : Program) → IsPropagatedProgram admitted p q → (q ≡ p → ⊥) → moves_in q < moves_in p }
{}

/// In a compacted program what is read went through as many Moves.
pub fn compacted_moves_law()
    ensures { (admitted : List Bool) (p q : Program) → IsCompactedProgram admitted p q → moves_in q ≡ moves_in p }
{}
