//! A shelf of real files.

ghost use Rattle.std.specs.Prelude.{◌≡◌, ◌<◌, ◌≤◌, ◌+◌, ◌^◌, ℕ, false, None, IfOk, IsErrOf, vec_len};
ghost use Rattle.redex_outside.specs.Counts.{raised};

use crate::edge::{read_all, write_all};
use crate::shelf::{FetchFault, PutFault, Shelf};
use std::alloc::Global;
use std::fs::OpenFile;
use std::io::Write;
use std::rt::Files;
use std::{fs, io};

/// A shelf of the files that the runtime reaches. It tells nothing of what they hold, and keeps one count, which an
/// error of the runtime raises.
#[derive(Drop)]
pub struct FileShelf<'a, R> {
    rt: &'a R,
    faults: u64,
    ghost in_range: { faults < 2 ^ 64 },
}

impl<'a, R> FileShelf<'a, R> {
    /// The files that this runtime reaches, and no fault.
    pub fn new(rt: &'a R) -> FileShelf<'a, R>
        ensures { result.faults ≡ 0 }
    {
        FileShelf { rt, faults: 0 }
    }

    /// Counts a failure.
    fn raise(&mut self)
        ensures { self.new.faults ≡ raised self.old.faults }
    {
        self.faults = self.faults.saturating_add(1);
    }
}

/// The bytes of a file. Where the system does not say how long it is, its buffer grows by doubling.
fn fetch_from<R: Files>(
    rt: &R,
    alloc: Global,
    name: &str,
    limit: usize,
) -> Result<Vec<u8>, FetchFault>
    ensures limit { IfOk result (λ bytes. vec_len bytes ≤ limit) }
    ensures taken { (taken : ℕ) → IsErrOf result (FetchFault.TooLong taken) → taken ≡ limit + 1 }
{
    let Ok(mut file) = fs::open(rt, name) else {
        return Err(FetchFault::Failed);
    };
    let Ok(metadata) = file.metadata() else {
        return Err(FetchFault::Failed);
    };
    let expected = usize::try_from(metadata.len()).unwrap_or(0);
    read_all(alloc, &mut file, expected, limit)
}

/// Truncates the file, or makes it, and writes the bytes.
fn put_to<R: Files>(rt: &R, name: &str, bytes: &[u8]) -> io::Result<()> {
    let mut file = fs::create(rt, name)?;
    write_all(&mut file, bytes)?;
    file.flush()
}

impl<R: Files> Shelf for FileShelf<'_, R> {
    ghost tells = { λ _. false };

    ghost held = { λ _ _. None };

    ghost fetch_faults = { λ shelf _. shelf.faults };

    ghost put_faults = { λ shelf _. shelf.faults };

    fn fetch(&mut self, alloc: Global, name: &str, limit: usize) -> Result<Vec<u8>, FetchFault> {
        match fetch_from(self.rt, alloc, name, limit) {
            Err(FetchFault::Failed) => {
                self.raise();
                Err(FetchFault::Failed)
            }
            other => other,
        }
    }

    fn put(&mut self, _alloc: Global, name: &str, bytes: &[u8]) -> Result<(), PutFault> {
        match put_to(self.rt, name, bytes) {
            Ok(()) => Ok(()),
            Err(_) => {
                self.raise();
                Err(PutFault::Failed)
            }
        }
    }
}
