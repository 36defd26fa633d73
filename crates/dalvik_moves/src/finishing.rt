//! A move that is done.

ghost use Rattle.std.specs.Prelude.{◌≡◌, vec_capacity, vec_len};
ghost use Rattle.dalvik_moves.specs.Moving.{IsDone};

use dalvik_state::State;

/// The move is done: the framework's frame on top waits with none.
pub fn done(state: &mut State<'_>)
    ensures done { IsDone state.old state.new }
    ensures len { vec_len state.new.stack ≡ vec_len state.old.stack }
    ensures capacity { vec_capacity state.new.stack ≡ vec_capacity state.old.stack }
{
    state.set_pending(None);
}
