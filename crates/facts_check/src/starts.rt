//! Where the blocks of a body begin.

ghost use Rattle.std.specs.Prelude.{◌≡◌, true, slice_get};
ghost use Rattle.std.specs.Option.{option_copied};
ghost use Rattle.facts_check.specs.Landing.{Lands, LandsIf};

use crate::order::are_below;
use domains::Value;
use pat_map::PatMap;

/// What is known of a position before frames are filled in: nothing, as it is inside a block, that no run comes to the block
/// that begins there, or its registers.
#[derive(Drop)]
pub enum Start {
    Inside,
    Idle,
    Comes(PatMap<Value>),
}

/// Whether a block begins at a position that is known to have these registers, or higher ones.
pub(crate) fn lands(starts: &[Start], target: u32, registers: &PatMap<Value>) -> bool
    ensures { result ≡ true → Lands (slice_get starts.now target) registers.now }
{
    match starts.get(target as usize) {
        Some(Start::Comes(known)) => are_below(registers, known),
        _ => false,
    }
}

/// The same, if there are any registers.
pub(crate) fn lands_if(starts: &[Start], target: u32, registers: Option<&PatMap<Value>>) -> bool
    ensures { result ≡ true → LandsIf (slice_get starts.now target) (option_copied registers.entry) }
{
    match registers {
        Some(registers) => lands(starts, target, registers),
        None => true,
    }
}
