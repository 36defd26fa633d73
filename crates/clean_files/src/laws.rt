//! Laws of the files that are read.

ghost use Rattle.std.specs.Prelude.{◌≡◌, ◌<◌, ◌↔◌, ℕ, List, Result, Ok, slice_index};
ghost use Rattle.dex_base.specs.Reading.{Gives};
ghost use Rattle.program_model.specs.declared.program.Program.{Program};
ghost use Rattle.dex_defs.specs.ClassFaults.{HasFault};
ghost use Rattle.dex_defs.specs.Parts.{Fault};
ghost use Rattle.dex_read.specs.Faults.{is_free};
ghost use Rattle.dex_read.specs.File.{program_at};
ghost use Rattle.dex_read.specs.declared.fault.DexFault.{DexFault};
ghost use Rattle.past_law.specs.Within.{IsWithin, IsRead};
ghost use Rattle.refused_code.specs.Faultless.{IsFaultless};
ghost use Rattle.clean_files.specs.OfGraph.{IsOfGraph};

/// No fault stands in a file that is read, but those of its class graph: of its header, tables, members, annotations, values and
/// code.
pub fn clean_law()
    ensures graph { (bytes : List ℕ) → ((i : ℕ) → slice_index bytes i < 256) → (p : Program) → program_at bytes ≡ Ok p → (fault : Fault) → HasFault bytes fault → IsOfGraph bytes fault }
    ensures faultless { (bytes : List ℕ) → ((i : ℕ) → slice_index bytes i < 256) → (p : Program) → program_at bytes ≡ Ok p → IsFaultless bytes }
{}

/// So no such fault stands in the file where `read_dex`, whose result `gives` says, answers a program.
pub fn answered_law()
    ensures { (bytes : List ℕ) → ((i : ℕ) → slice_index bytes i < 256) → (p : Program) (result : Result Program DexFault) → Gives is_free (λ program. program) result (program_at bytes)
        → result ≡ Ok p → IsFaultless bytes }
{}

/// And of the files that pass no limit those are read in which no such fault stands, and no others.
pub fn exact_law()
    ensures { (bytes : List ℕ) → ((i : ℕ) → slice_index bytes i < 256) → IsWithin bytes → IsRead (program_at bytes) ↔ IsFaultless bytes }
{}
