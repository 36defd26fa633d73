//! A program that was read lays out. The sizes with which its instructions stood in the file, each up to where the next one begins,
//! have room for their least spellings; so no distance is greater in the least layout, branches reach and regions are near. The
//! handler lists of a file stand one behind another up to the last one that is named, which begins at an offset of 16 bits, and
//! have no fewer bytes than what is written of them.

ghost use Rattle.std.specs.Prelude.{◌≡◌, ◌<◌, List, ℕ, Ok, slice_index};
ghost use Rattle.program_model.specs.declared.program.Program.{Program};
ghost use Rattle.dex_read.specs.File.{program_at};
ghost use Rattle.dex_defs.specs.LaysOut.{LaysOut};

/// The program that is read of bytes lays out.
pub fn read_lays_out_law()
    ensures { (bytes : List ℕ) (p : Program) → ((i : ℕ) → slice_index bytes i < 256) → program_at bytes ≡ Ok p → LaysOut p }
{}
