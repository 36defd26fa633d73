//! Kinds of copies: in the least typing of a body by numbers a register that holds a copy has the kind of its original, wherever
//! the copy stands, as long as neither was written or cast since the Move.
//!
//! What holds at the entry, is kept along each edge and by joins, holds of the least typing (`proofs/Least.antt`); that a copy has
//! its original's kind is such a property.

ghost use Rattle.std.specs.Prelude.{◌≡◌, ℕ, Some, length};
ghost use Rattle.program_model.specs.declared.body.Body.{Body};
ghost use Rattle.verify.specs.declared.setting.Setting.{Setting};
ghost use Rattle.verify.specs.Flow.{place_at};
ghost use Rattle.verify.specs.Frames.{Kinds};
ghost use Rattle.verify.specs.Meeting.{IsMeeting};
ghost use Rattle.verify.specs.Typings.{IsLeastTyping, Table};
ghost use Rattle.bodies_kept.specs.Alike.{IsNarrow, AreAlike};

/// In the least typing of a body whose instructions use registers that it has, and that calls no constructor of a wide
/// type, originals have the kinds of their copies at each position with kinds.
pub fn alike_law()
    ensures { (s : Setting) (b : Body) (entry : Kinds) (x : Table) → IsMeeting s.tables.now → IsNarrow s b → length entry.registers ≡ b.registers → IsLeastTyping s b entry x
        → (n : ℕ) (a : Kinds) → place_at x n ≡ Some a → AreAlike b n a }
{}
