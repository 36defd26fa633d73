//! Laws of the limits that are answered.

ghost use Rattle.std.specs.Prelude.{◌≡◌, ◌<◌, ℕ, List, Result, Err, slice_index};
ghost use Rattle.dex_base.specs.Reading.{Gives};
ghost use Rattle.program_model.specs.declared.limits.LimitFault.{LimitFault};
ghost use Rattle.program_model.specs.declared.program.Program.{Program};
ghost use Rattle.dex_defs.specs.Limits.{IsPast};
ghost use Rattle.dex_read.specs.Faults.{is_free};
ghost use Rattle.dex_read.specs.File.{program_at};
ghost use Rattle.dex_read.specs.declared.fault.DexFault.{DexFault};
ghost use Rattle.dex_read.specs.declared.fault.DexFault.TheVariants as dex;
ghost use Rattle.refused_code.specs.Faultless.{IsFaultless};
ghost use Rattle.past_law.specs.Within.{IsWithin, IsRead, IsReadOrWanting};

/// A limit that is answered is passed: one thing more than it stands in the file.
pub fn past_law()
    ensures { (bytes : List ℕ) → ((i : ℕ) → slice_index bytes i < 256) → (fault : LimitFault) → program_at bytes ≡ Err (dex.Limit fault) → IsPast bytes fault }
{}

/// So a file in which no fault stands but in its class graph, and which passes no limit, is read. `read_dex`, whose result
/// `gives` says, answers the program or want of memory.
pub fn within_law()
    ensures reads { (bytes : List ℕ) → ((i : ℕ) → slice_index bytes i < 256) → IsFaultless bytes → IsWithin bytes → IsRead (program_at bytes) }
    ensures answers { (bytes : List ℕ) → ((i : ℕ) → slice_index bytes i < 256) → IsFaultless bytes → IsWithin bytes
        → (result : Result Program DexFault) → Gives is_free (λ program. program) result (program_at bytes) → IsReadOrWanting result }
{}
