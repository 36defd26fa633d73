//! What the reader of code gives stands in the units and the bytes: laws that tie the reading functions of `code_read` to the
//! relations of `dex_defs`.

ghost use Rattle.std.specs.Prelude.{◌<◌, ◌^◌, List, ℕ, length, drop};
ghost use Rattle.code_read.specs.Code.{code_of};
ghost use Rattle.code_read.specs.Sweep.{pieces_of};
ghost use Rattle.code_read.specs.declared.sizes.Sizes.{Sizes};
ghost use Rattle.code_read.specs.Regions.{regions_of};
ghost use Rattle.dex_defs.specs.Sweep.{IsSwept, Places};
ghost use Rattle.dex_defs.specs.CodeItems.{Frame, tries_at};
ghost use Rattle.file_laws.specs.Items.{HasItem, IsItemBody};
ghost use Rattle.file_laws.specs.Regions.{AreRegionsAt};
ghost use Rattle.file_laws.specs.Code.{IsBody};
ghost use Rattle.file_laws.specs.Founds.{Founds};

/// The pieces into which units are swept stand there one behind another, and are all of the units.
pub fn sweep_law()
    ensures { (units : List ℕ) → Founds (IsSwept units) (pieces_of units) }
{}

/// The instructions of a body that is read are those of the pieces of its units, one by one, and begin where they begin.
pub fn code_law()
    ensures { (units tries : List ℕ) (sizes : Sizes) → length units < 2 ^ 32 → Founds (IsBody units tries sizes) (code_of units tries sizes) }
{}

/// The regions that are read are those of the try items that cover positions, with the handlers of their lists.
pub fn regions_law()
    ensures { (bytes : List ℕ) (at : ℕ) (sizes : Sizes) (places : Places) → Founds (AreRegionsAt bytes at sizes places) (regions_of (drop at bytes) sizes places) }
{}

/// The body that is read of a code item with these units is the one that it spells: its instructions, its regions and
/// what its frame says.
pub fn item_law()
    ensures { (bytes : List ℕ) (at : ℕ) (f : Frame) (units : List ℕ) (sizes : Sizes) → HasItem bytes at f units sizes → f.size < 2 ^ 32
        → Founds (IsItemBody bytes sizes.types at f) (code_of units (drop (tries_at at f) bytes) sizes) }
{}
