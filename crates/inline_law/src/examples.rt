//! What the law admits.

ghost use Rattle.inline_law.specs.Sound.{IsSoundCallee};
ghost use Rattle.inline_law.specs.Examples.{caller_key, callee};

/// A method without parameters that hands back 5 may be inlined into another method of its class.
pub fn sound_callee()
    ensures { IsSoundCallee caller_key callee }
{}
