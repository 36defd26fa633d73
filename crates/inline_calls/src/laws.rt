//! What is chosen of a caller.

ghost use Rattle.std.specs.Prelude.{ℕ, List, Option};
ghost use Rattle.splice.specs.declared.callee.Callee.{Callee};
ghost use Rattle.inline_calls.specs.declared.site.Caller.{Caller};
ghost use Rattle.inline_calls.specs.declared.caller.Inliner.{Inliner};
ghost use Rattle.inline_calls.specs.Accepting.{HasTried};
ghost use Rattle.inline_calls.specs.Asked.{Row};
ghost use Rattle.inline_calls.specs.Candidates.{AreCandidates};

/// A law, with nothing to run: what is chosen at each position of a caller is a candidate there.
pub fn candidates_law()
    ensures { (i : Inliner) (c : Caller) (cells n : ℕ) (rows : List Row) (chosen : List (Option Callee)) → HasTried i c cells n rows chosen → AreCandidates i.known c chosen }
{}
