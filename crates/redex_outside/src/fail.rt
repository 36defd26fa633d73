//! Calls that are made to fail.

ghost use Rattle.std.specs.Prelude.{◌≡◌};
ghost use Rattle.redex_outside.specs.Fails.{fail_of};

/// Lets the call of this number fail, counted from 0.
#[derive(Clone, Copy, Debug, PartialEq, Eq)]
pub struct Fail {
    /// The call's number.
    pub call: u64,
    /// How many of the call's bytes are kept all the same. None: it changes nothing.
    pub kept: Option<usize>,
}

/// What the list says of a call, the first entry where there are several.
pub fn fail_at(fails: &[Fail], call: u64) -> Option<Fail>
    ensures { result ≡ fail_of fails.now call }
{
    fails.iter().copied().find(|fail| fail.call == call)
}
