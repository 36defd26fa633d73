//! Examples of files and bodies: those of `specs/Examples.antt`.

ghost use Rattle.std.specs.Prelude.{◌≡◌, ◌<◌, ℕ, List, [], ◌∷◌, take, length};
ghost use Rattle.relax.specs.Sizes.{start};
ghost use Rattle.relax.specs.Payloads.{payload_places, payload_end};
ghost use Rattle.code_read.specs.declared.fault.CodeFault.TheVariants as code;
ghost use Rattle.code_read.specs.declared.sizes.Sizes.{Sizes};
ghost use Rattle.dex_pools.specs.declared.fault.Table.TheVariants as table;
ghost use Rattle.program_model.specs.declared.program.Program.{Program};
ghost use Rattle.program_model.specs.declared.flags.Flags.{Flags};
ghost use Rattle.dex_defs.specs.Here.{Here};
ghost use Rattle.dex_defs.specs.Arranged.{IsAt, Lie};
ghost use Rattle.dex_defs.specs.Parts.{Short, Magic, Checksum, Order, Root, BadValue};
ghost use Rattle.dex_defs.specs.Spells.{Spells};
ghost use Rattle.dex_defs.specs.Valid.{ValidFile, IsValidFor, IsSigned};
ghost use Rattle.dex_defs.specs.CodeTexts.{code_text};
ghost use Rattle.dex_defs.specs.CodeFaults.{BadCode};
ghost use Rattle.dex_defs.specs.ClassFaults.{HasFault};
ghost use Rattle.dex_defs.specs.Sweep.{Piece, IsSwept, places_of, instructions};
ghost use Rattle.dex_defs.specs.Instructions.{AreInsns};
ghost use Rattle.dex_defs.specs.LaysOut.{AreSizes, LaysOutBody};
ghost use Rattle.dex_defs.specs.Written.{class_order};
ghost use Rattle.dex_defs.specs.Examples.{lower_first, empty_program, unsigned_file, empty_file, run_program, run_file, escaping_file, caught_body, caught_item, damaged_file, archive_file, unordered_file, rootless_file, value_file, misplaced_item, switch_body, switch_insns, switch_units, switch_sizes};

/// The 140 bytes of the program of nothing spell it, also without a signature.
pub fn the_least_file()
    ensures size { length unsigned_file ≡ 140 }
    ensures spelled { Spells unsigned_file empty_program }
{}

/// With its signature this file is valid.
pub fn an_empty_file_is_valid()
    ensures size { length empty_file ≡ 140 }
    ensures valid { IsValidFor empty_file empty_program }
    ensures signed { IsSigned empty_file }
{}

/// The 408 bytes of a class with a static method are a valid file of it.
pub fn a_class_with_a_method_is_valid()
    ensures size { length run_file ≡ 408 }
    ensures valid { IsValidFor run_file run_program }
    ensures signed { IsSigned run_file }
{}

/// A string that stands out of its turn, over the tail of another one and the map, makes a file invalid.
pub fn an_escaping_string_is_refused()
    ensures size { length escaping_file ≡ 324 }
    ensures refused { (p : Program) → IsValidFor escaping_file p → ⊥ }
{}

/// No two methods have one code item, a method without lines names no debug item, and the unit in front of the try
/// items is zero.
pub fn loose_ends_are_refused()
    ensures shared { (bytes : List ℕ) (from a : ℕ) (offsets : List ℕ) (texts : List (List ℕ)) (to : ℕ) → 0 < a → Lie bytes 4 from (a ∷ a ∷ offsets) texts to → ⊥ }
    ensures wild { (bytes : List ℕ) (align from offset stop : ℕ) → 0 < offset → IsAt bytes align from offset [] stop → ⊥ }
    ensures zero { Here (caught_item 0) 0 (code_text (1 ∷ 1 ∷ 1 ∷ []) ((0x0027 ∷ []) ∷ (0x000d ∷ []) ∷ (0x0027 ∷ []) ∷ []) 0 caught_body) }
    ensures other { Here (caught_item 65535) 0 (code_text (1 ∷ 1 ∷ 1 ∷ []) ((0x0027 ∷ []) ∷ (0x000d ∷ []) ∷ (0x0027 ∷ []) ∷ []) 0 caught_body) → ⊥ }
{}

/// A file that ends inside the header is short.
pub fn a_cut_header_is_short()
    ensures { HasFault (take 111 unsigned_file) (Short 0) }
{}

/// A wrong byte has a wrong checksum, and an archive no magic.
pub fn a_header_is_wrong()
    ensures damaged { HasFault damaged_file (Checksum 0x0f2f0391 0x0f300392) }
    ensures archive { HasFault archive_file Magic }
{}

/// Strings that descend, a class without a superclass and a value of an unknown type are faults of themselves, whatever
/// else the file lacks.
pub fn faults_stand_alone()
    ensures unordered { HasFault unordered_file (Order table.Strings 1) }
    ensures rootless { HasFault rootless_file (Root 0) }
    ensures unknown { HasFault value_file (BadValue 145) }
{}

/// A move-result behind nothing is misplaced, whatever the instructions behind it are.
pub fn a_result_of_nothing_is_misplaced()
    ensures { (sizes : Sizes) → BadCode misplaced_item sizes 0 (code.Misplaced 0) }
{}

/// A switch and the return that it goes to begin at 0 and 3; the table stands at 4, and all ends at 10.
pub fn a_switch_lays_out()
    ensures sizes { AreSizes switch_body switch_sizes }
    ensures second { start switch_sizes 1 ≡ 3 }
    ensures payload { payload_places (start switch_sizes 2) switch_insns ≡ 4 ∷ [] }
    ensures ends { payload_end (start switch_sizes 2) switch_insns ≡ 10 }
    ensures all { LaysOutBody switch_body }
{}

/// Its ten units are swept into the two instructions and the table, and are the body.
pub fn a_switch_is_swept()
    ensures { (pieces : List Piece) × IsSwept switch_units pieces × AreInsns (places_of switch_units pieces) (instructions pieces) switch_insns }
{}

/// A class is written behind its superclass.
pub fn a_superclass_is_written_first()
    ensures { (flags : Flags) → class_order (lower_first flags) ≡ 1 ∷ 0 ∷ [] }
{}

/// A valid file spells its program.
pub fn a_valid_file_is_spelled()
    ensures { (bytes : List ℕ) (file : ValidFile bytes) → Spells bytes file.program }
{}
