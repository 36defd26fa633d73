//! The types that a script may give no row any more.

ghost use Rattle.std.specs.Prelude.{◌≡◌, ◌||◌, ℕ, List, true, false, not, IfOk};
ghost use Rattle.dalvik_defs.specs.Names.{text_eq};
ghost use Rattle.script_text.specs.Named.{has_name};

use std::alloc::{AllocError, Global};
use std::collections::HashSet;

/// Names of types.
#[derive(Drop)]
pub struct TypeNames {
    names: HashSet<Vec<u16>>,
}

impl TypeNames {
    /// No names.
    pub fn new(alloc: Global) -> TypeNames
        ensures { (name : List ℕ) → has_name result name ≡ false }
    {
        TypeNames {
            names: HashSet::new(alloc),
        }
    }

    /// Adds a name, and answers whether it is new.
    pub fn add(&mut self, name: Vec<u16>) -> Result<bool, AllocError>
        ensures added { IfOk result (λ added. added ≡ not (has_name self.old name.items)) }
        ensures names { IfOk result (λ added. added ≡ true → (other : List ℕ) → has_name self.new other ≡ (text_eq other name.items || has_name self.old other)) }
        ensures same { IfOk result (λ added. added ≡ false → (other : List ℕ) → has_name self.new other ≡ has_name self.old other) }
    {
        let added = self.names.insert(name)?;
        Ok(added)
    }
}
