//! Notes on standard output.

ghost use Rattle.std.specs.Prelude.{◌≡◌, ◌<◌, ◌^◌, [], false};
ghost use Rattle.redex_outside.specs.Counts.{raised};

use crate::edge::write_all;
use crate::notes::{NoteFault, Notes};
use std::alloc::Global;
use std::io;

/// Notes that go to the standard output that the runtime reaches. They tell nothing of what was said, and keep a
/// count, which an error of the runtime raises.
#[derive(Drop)]
pub struct StdNotes<'a, R> {
    rt: &'a R,
    faults: u64,
    ghost in_range: { faults < 2 ^ 64 },
}

impl<'a, R> StdNotes<'a, R> {
    /// The standard output of this runtime, and no fault.
    pub fn new(rt: &'a R) -> StdNotes<'a, R>
        ensures { result.faults ≡ 0 }
    {
        StdNotes { rt, faults: 0 }
    }

    /// Counts a failure.
    fn raise(&mut self)
        ensures { self.new.faults ≡ raised self.old.faults }
    {
        self.faults = self.faults.saturating_add(1);
    }
}

impl<R: Print> Notes for StdNotes<'_, R> {
    ghost tells = { λ _. false };

    ghost said = { λ _. [] };

    ghost faults = { λ notes. notes.faults };

    fn say(&mut self, _alloc: Global, bytes: &[u8]) -> Result<(), NoteFault> {
        let mut out = io::writer(self.rt);
        match write_all(&mut out, bytes) {
            Ok(()) => Ok(()),
            Err(_) => {
                self.raise();
                Err(NoteFault::Failed)
            }
        }
    }
}
