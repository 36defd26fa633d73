//! Laws of the limits of files that are read.

ghost use Rattle.std.specs.Prelude.{◌≡◌, ◌<◌, ◌↔◌, ℕ, List, Ok, slice_index};
ghost use Rattle.program_model.specs.declared.limits.Counted.TheVariants.{Items};
ghost use Rattle.program_model.specs.declared.limits.LimitFault.{LimitFault};
ghost use Rattle.program_model.specs.declared.program.Program.{Program};
ghost use Rattle.dex_defs.specs.Limits.{IsPast};
ghost use Rattle.dex_read.specs.File.{program_at};
ghost use Rattle.refused_code.specs.Faultless.{IsFaultless};
ghost use Rattle.past_law.specs.Within.{IsWithin, IsRead};

/// If a file that is read passes a limit, it is that of items: it has no more types, protos, fields, methods, units of text and
/// cells than their limits. Of items nothing is said.
pub fn within_law()
    ensures { (bytes : List ℕ) → ((i : ℕ) → slice_index bytes i < 256) → (p : Program) → program_at bytes ≡ Ok p → (fault : LimitFault) → IsPast bytes fault → fault.counted ≡ Items }
{}

/// So of the files that do not pass the limit of items those are read in which no fault stands but in the class graph, and which
/// pass no limit; and no others.
pub fn exact_within_law()
    ensures { (bytes : List ℕ) → ((i : ℕ) → slice_index bytes i < 256) → ((fault : LimitFault) → fault.counted ≡ Items → IsPast bytes fault → ⊥)
        → IsRead (program_at bytes) ↔ (IsFaultless bytes × IsWithin bytes) }
{}
