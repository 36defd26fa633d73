//! An adviser that spares the classes whose descriptors begin with a prefix.

ghost use Rattle.std.specs.Prelude.{◌≡◌, [], IfOk, IsOk, OnOk, OnErr};
ghost use Rattle.std.specs.List.{flat_map};
ghost use Rattle.std.specs.Char.Escape.{encode_utf16};
ghost use Rattle.std.specs.Str.{chars};
ghost use Rattle.redex_outside.specs.Turns.{Told};
ghost use Rattle.redex_outside.specs.Voices.{HasTaken, OneForEach};
ghost use Rattle.redex_outside.specs.Prefixes.{utf16_of, begins_with_one, prefix_replies};

use crate::adviser::{Adviser, Ask, Key};
use dex_base::Text;
use std::alloc::{AllocError, Global};

/// It says no exactly where the class descriptor begins with one of its prefixes, compared in UTF-16 units.
#[derive(Drop)]
pub struct PrefixAdviser {
    prefixes: Vec<Text>,
}

impl PrefixAdviser {
    /// No prefixes.
    pub fn new(alloc: Global) -> PrefixAdviser
        ensures { result.prefixes.items ≡ [] }
    {
        PrefixAdviser {
            prefixes: Vec::new(alloc),
        }
    }
}

/// The characters of a text.
fn characters(alloc: Global, text: &str) -> Result<Vec<char>, AllocError>
    ensures { IfOk result (λ all. all.items ≡ chars text.now) }
{
    text.chars().collect(alloc)
}

/// The UTF-16 units of these characters.
fn units_of(alloc: Global, characters: &[char]) -> Result<Vec<u16>, AllocError>
    ensures { IfOk result (λ units. units.items ≡ flat_map encode_utf16 characters.now) }
{
    let mut units = Vec::new(alloc);
    for character in characters {
        let mut pair = [0; 2];
        units.extend_from_slice(character.encode_utf16(&mut pair))?;
    }
    Ok(units)
}

/// The text in UTF-16 units.
fn utf16(alloc: Global, text: &str) -> Result<Text, AllocError>
    ensures { IfOk result (λ units. units ≡ utf16_of text.now) }
{
    let all = characters(alloc, text)?;
    Ok(Text::from_vec(units_of(alloc, all.as_slice())?))
}

/// Whether the class descriptor begins with one of the prefixes.
fn begins_with_one(prefixes: &[Text], ask: &Ask) -> bool
    ensures { result ≡ begins_with_one prefixes.now ask.now }
{
    prefixes
        .iter()
        .any(|prefix| ask.class.units().starts_with(prefix.units()))
}

#[tactic(auto, using(crate::proofs::Replies::prefix_one_for_each))]
impl Adviser for PrefixAdviser {
    ghost replies = { λ adviser. prefix_replies adviser.prefixes.items };

    /// Adds the text to the prefixes, where it is told `Spare`.
    fn tell(&mut self, alloc: Global, key: Key, _number: u32, text: &str) -> Result<(), AllocError>
        ensures told { OnOk result (HasTaken (Told key _number text.now) (prefix_replies self.old.prefixes.items) (prefix_replies self.new.prefixes.items)) }
        ensures refused { OnErr result (self.new.prefixes.items ≡ self.old.prefixes.items) }
        ensures ignored { key ≡ Key.AtMost → IsOk result }
        ensures one_for_each { OneForEach (prefix_replies self.old.prefixes.items) }
    {
        if key == Key::Spare {
            self.prefixes.push(utf16(alloc, text)?)?;
        }
        Ok(())
    }

    fn weigh(&mut self, ask: &Ask) -> bool {
        !begins_with_one(self.prefixes.as_slice(), ask)
    }
}
