//! Laws of the faults of code that are answered, and of all that are.

ghost use Rattle.std.specs.Prelude.{◌≡◌, ◌<◌, ℕ, List, Result, Err, slice_index};
ghost use Rattle.dex_base.specs.Reading.{Gives};
ghost use Rattle.program_model.specs.declared.program.Program.{Program};
ghost use Rattle.dex_read.specs.Faults.{is_free};
ghost use Rattle.dex_read.specs.File.{program_at};
ghost use Rattle.dex_read.specs.declared.fault.DexFault.{DexFault};
ghost use Rattle.refused_law.specs.Just.{IsJust};
ghost use Rattle.refused_code.specs.Faultless.{IsFaultless, IsReadOrPast, IsReadOrFree};

/// A fault for which a file is refused stands in the file, unless it is a passed limit.
pub fn program_law()
    ensures { (bytes : List ℕ) → ((i : ℕ) → slice_index bytes i < 256) → (e : DexFault) → program_at bytes ≡ Err e → IsJust bytes e }
{}

/// A file in which no fault stands but in its class graph is read, unless it passes a limit: it is never refused for a fault.
/// So `read_dex`, whose result `gives` says, answers the program, a passed limit or want of memory.
pub fn faultless_law()
    ensures reads { (bytes : List ℕ) → ((i : ℕ) → slice_index bytes i < 256) → IsFaultless bytes → IsReadOrPast (program_at bytes) }
    ensures answers { (bytes : List ℕ) → ((i : ℕ) → slice_index bytes i < 256) → IsFaultless bytes
        → (result : Result Program DexFault) → Gives is_free (λ program. program) result (program_at bytes) → IsReadOrFree result }
{}
