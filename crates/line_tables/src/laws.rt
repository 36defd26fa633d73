//! Laws of reading and writing line tables.

ghost use Rattle.std.specs.Prelude.{◌≡◌, List, ℕ, ◌+◌, ◌*◌, ◌^◌, ◌<◌, ◌≤◌, ◌++◌, length, Some};
ghost use Rattle.std.specs.List.{AllByRecursion};
ghost use Rattle.line_tables.specs.Item.{lines_at, read_as};
ghost use Rattle.line_tables.specs.Entries.{item_lines};
ghost use Rattle.line_tables.specs.Text.{AscendsFrom, Lined, item_text};

/// What was written for lines without a 0 behind a line is read again as these lines, whatever follows it, where three
/// opcodes for each position and one more may be read.
pub fn written_law()
    ensures { (front lines starts rest : List ℕ) (parameters most : ℕ) → length lines ≡ length starts → AscendsFrom 0 starts
        → AllByRecursion (λ x. x < 2 ^ 31) lines → Lined 0 lines → parameters < 2 ^ 32 → 3 * length starts + 1 ≤ most
        → (opcodes : ℕ) × (opcodes ≤ 3 * length starts + 1) × (lines_at (front ++ item_text lines starts parameters ++ rest) (length front) starts most ≡ read_as (Some lines) opcodes) }
{}

/// What is read is what the entries of the item say.
pub fn entries_law()
    ensures { (bytes starts : List ℕ) (at most : ℕ) → AscendsFrom 0 starts → lines_at bytes at starts most ≡ item_lines bytes at starts most }
{}
