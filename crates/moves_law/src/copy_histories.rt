//! Through how many Moves what a register holds went, along a path: where a Move stands for its copy, the copy went through one
//! more than the original. So propagation of copies lowers this number for each read that it changes.

ghost use Rattle.std.specs.Prelude.{◌≡◌, ◌<◌, ◌≤◌, ℕ, suc, Bool, true, false, List, Some, sum_by};
ghost use Rattle.insn_set.specs.declared.ops.Slot.{Slot};
ghost use Rattle.insn_set.specs.declared.form.Insn.{Insn};
ghost use Rattle.insn_regs.specs.Remade.{operands_of};
ghost use Rattle.body_graph.specs.Walks.{insn_at};
ghost use Rattle.program_model.specs.declared.body.Body.{Body};
ghost use Rattle.copy_prop.specs.Stale.{IsCopy, in_copy, overlaps, instead, IsSpoilt};
ghost use Rattle.copy_prop.specs.Propagated.{IsPropagated};
ghost use Rattle.moves_law.specs.Histories.{Step, IsPath, moves, ReadsNoLater};

/// Where a copy isn't spoilt, what it holds went through one Move more than its original, along each path from the entry.
pub fn standing_law()
    ensures { (b : Body) (at : ℕ) (slot : Slot) (to from : ℕ) → IsCopy b at slot to from → overlaps slot to from ≡ false → (ss : List Step) (n : ℕ) → IsPath b ss n
        → (IsSpoilt b at slot to from n → ⊥) → (r : ℕ) → in_copy slot to r ≡ true → moves b ss r ≡ suc (moves b ss (instead slot to from r)) }
{}

/// So in a body that reads such registers no register holds what went through more Moves, along each path from the entry.
pub fn fewer_law()
    ensures { (b d : Body) → ReadsNoLater b d → (ss : List Step) (n : ℕ) → IsPath b ss n → (r : ℕ) → moves d ss r ≤ moves b ss r }
{}

/// A propagated body is such a body, so along each path no register holds what went through more Moves.
pub fn propagated_fewer_law()
    ensures reads { (w : List (List Bool)) (b d : Body) → IsPropagated w b d → ReadsNoLater b d }
    ensures holds { (w : List (List Bool)) (b d : Body) → IsPropagated w b d → (ss : List Step) (n : ℕ) → IsPath b ss n → (r : ℕ) → moves d ss r ≤ moves b ss r }
{}

/// And what an instruction reads that changes went through fewer Moves in all, along each path to it.
pub fn changed_law()
    ensures { (w : List (List Bool)) (b d : Body) → IsPropagated w b d → (n : ℕ) (f g : Insn) → insn_at b n ≡ Some f → insn_at d n ≡ Some g
        → (g ≡ f → ⊥) → (ss : List Step) → IsPath b ss n
        → sum_by (moves b ss) (operands_of g) < sum_by (moves b ss) (operands_of f) }
{}
