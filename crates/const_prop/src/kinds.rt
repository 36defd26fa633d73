//! Where the kinds of registers allow a constant.

ghost use Rattle.std.specs.Prelude.{◌≡◌, None, slice_get};
ghost use Rattle.std.specs.Option.{option_copied};
ghost use Rattle.verify.specs.Flow.{places_of};
ghost use Rattle.const_prop.specs.Kinds.{is_null, is_wide_number, is_free, is_word, in_kind, in_letter, in_type, letter, letter_of, letter_given, in_result, fits, is_narrow_move, move_fits};

use crate::numbers::Number;
use crate::results::Results;
use insn_set::{Insn, Item, Slot};
use verify::{Kind, Typings};

/// Whether the typing has no state.
fn is_free(kind: Kind) -> bool
    ensures { result ≡ is_free kind }
{
    matches!(kind, Kind::Undefined)
}

/// Whether it is a word, and not the constant 0.
fn is_word(kind: Kind) -> bool
    ensures { result ≡ is_word kind }
{
    matches!(kind, Kind::Word)
}

/// Whether a constant may stand for a value of a kind: null among references and words, every word among words. Where the
/// typing has no state there is nothing to keep.
fn in_kind(kind: Kind, number: Number) -> bool
    ensures { result ≡ in_kind kind number }
{
    match number {
        Number::Word(word) => {
            if word == 0 {
                kind.is_number() || kind.is_initialised() || is_free(kind)
            } else {
                is_word(kind) || is_free(kind)
            }
        }
        Number::Wide(_) => false,
    }
}

/// Whether a number is that of null.
fn is_null(number: Number) -> bool
    ensures { result ≡ is_null number }
{
    match number {
        Number::Word(word) => word == 0,
        Number::Wide(_) => false,
    }
}

/// Whether a number takes two registers.
fn is_wide(number: Number) -> bool
    ensures { result ≡ is_wide_number number }
{
    match number {
        Number::Word(_) => false,
        Number::Wide(_) => true,
    }
}

/// Whether a constant may stand for a value of a type whose descriptor begins with a letter.
fn in_letter(letter: u16, number: Number) -> bool
    ensures { result ≡ in_letter letter number }
{
    if letter == 76 || letter == 91 {
        is_null(number)
    } else if letter == 74 || letter == 68 {
        is_wide(number)
    } else {
        !is_wide(number)
    }
}

/// The same, of a type that may not be there.
fn in_type(letter: Option<u16>, number: Number) -> bool
    ensures { result ≡ in_type letter number }
{
    match letter {
        Some(letter) => in_letter(letter, number),
        None => false,
    }
}

/// Whether an instruction is a move of one register, which the typing has to be asked about.
pub(crate) fn is_narrow_move(insn: &Insn) -> bool
    ensures { result ≡ is_narrow_move insn.now }
{
    matches!(
        insn,
        Insn::Move {
            slot: Slot::Word | Slot::Object,
            ..
        }
    )
}

/// Whether the typing allows a constant in place of a move at a position.
pub(crate) fn move_fits(typings: &Typings, position: u32, insn: &Insn, number: Number) -> bool
    ensures { result ≡ move_fits (places_of typings.now.states.items) position insn.now number }
{
    match insn {
        Insn::Move { from, .. } => in_kind(typings.at(position, u32::from(*from)), number),
        _ => false,
    }
}

/// The first unit of a text.
fn letter(units: &[u16]) -> Option<u16>
    ensures { result ≡ letter units.now }
{
    match units {
        [first, ..] => Some(*first),
        [] => None,
    }
}

impl Results<'_> {
    /// The letter that a type's descriptor begins with.
    fn letter_of(&self, kind: u32) -> Option<u16>
        ensures { result ≡ letter_of self.now.program.now kind }
    {
        let string = self.program.types.as_slice().get(kind as usize)?;
        let text = self.program.strings.as_slice().get(*string as usize)?;
        letter(text.units())
    }

    /// The letter that the descriptor of what a method gives begins with.
    fn letter_given(&self, method: u32) -> Option<u16>
        ensures { result ≡ letter_given self.now.program.now method }
    {
        let name = self.program.methods.as_slice().get(method as usize)?;
        let proto = self.program.protos.as_slice().get(name.proto as usize)?;
        self.letter_of(proto.result)
    }

    /// Whether a constant may stand for the result that an instruction gives.
    fn in_result(&self, insn: Option<&Insn>, number: Number) -> bool
        ensures { result ≡ in_result self.now.program.now (option_copied insn.entry) number }
    {
        match insn {
            Some(Insn::Invoke { method, .. }) => in_type(self.letter_given(*method), number),
            _ => is_null(number),
        }
    }

    /// Whether a constant may stand for what an instruction behind another one writes, as far as the instruction says its
    /// kind. Of a move of one register it doesn't.
    pub(crate) fn fits(&self, before: Option<&Insn>, insn: &Insn, number: Number) -> bool
        ensures { result ≡ fits self.now.program.now (option_copied before.entry) insn.now number }
    {
        match insn {
            Insn::MoveResult { .. } => self.in_result(before, number),
            Insn::MoveException { .. } | Insn::ConstString { .. } | Insn::ConstClass { .. } => {
                is_null(number)
            }
            Insn::StaticGet {
                item: Item::Object,
                ..
            } => is_null(number),
            _ => true,
        }
    }
}
