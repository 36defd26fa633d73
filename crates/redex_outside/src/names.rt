//! A table of bytes by name.

ghost use Rattle.std.specs.Prelude.{◌≡◌, ℕ, List, Option, None, Some, OnOk, OnErr, IfOk, option_map};
ghost use Rattle.std.specs.Option.{option_copied};
ghost use Rattle.redex_outside.specs.Held.{AllSame, OthersSame};
ghost use Rattle.redex_outside.specs.Names.{held_in};

use std::alloc::{AllocError, Global};
use std::collections::BTreeMap;

/// Names and the bytes that they hold.
#[derive(Drop)]
pub struct Names {
    table: BTreeMap<String, Vec<u8>>,
}

impl Names {
    /// No name holds anything.
    pub fn new(alloc: Global) -> Names
        ensures { (name : List ℕ) → held_in result name ≡ None }
    {
        Names {
            table: BTreeMap::new(alloc),
        }
    }

    /// The bytes that the name holds.
    pub fn get(&self, name: &str) -> Option<&[u8]>
        ensures { option_copied result ≡ held_in self.now name.now }
    {
        match self.table.get(name) {
            Some(bytes) => Some(bytes.as_slice()),
            None => None,
        }
    }

    /// Makes the name hold the bytes.
    #[tactic(auto, using(std::proofs::lemmas::Map::Text::text_keys))]
    pub fn set(&mut self, alloc: Global, name: &str, bytes: &[u8]) -> Result<(), AllocError>
        ensures bytes { OnOk result (held_in self.new name.now ≡ Some bytes.now) }
        ensures others { OnOk result (OthersSame name.now (held_in self.old) (held_in self.new)) }
        ensures err { OnErr result (AllSame (held_in self.old) (held_in self.new)) }
    {
        let key = String::from_str(alloc, name)?;
        let copy = Vec::from_slice(alloc, bytes)?;
        self.table.insert(key, copy)?;
        Ok(())
    }
}
