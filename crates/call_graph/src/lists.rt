//! A list of numbers for each number of a table.

ghost use Rattle.std.specs.Prelude.{◌≡◌, ℕ, ◌++◌, ◌∷◌, [], ◌&&◌, nat_eq, nat_lt, cond, length, IfOk, OnOk};
ghost use Rattle.call_graph.specs.Lists.{row_of, size_of};

use std::alloc::{AllocError, Global};

/// A list for each number of a table, empty at first.
#[derive(Drop)]
pub struct Lists {
    rows: Vec<Vec<u32>>,
}

impl Lists {
    /// Empty lists for a table of this size.
    pub fn new(alloc: Global, size: usize) -> Result<Lists, AllocError>
        ensures size { IfOk result (λ lists. size_of lists ≡ size) }
        ensures blank { IfOk result (λ lists. (n : ℕ) → row_of lists n ≡ []) }
    {
        let mut rows = Vec::with_capacity(alloc, size)?;
        for _number in 0..size {
            rows.push(Vec::new(alloc))?;
        }
        Ok(Lists { rows })
    }

    /// Adds to the list of a number, unless that is past the table.
    pub fn add(&mut self, number: u32, item: u32) -> Result<(), AllocError>
        ensures size { OnOk result (size_of self.new ≡ size_of self.old) }
        ensures rows { OnOk result ((n : ℕ) → row_of self.new n ≡ cond (nat_eq n number && nat_lt n (size_of self.old)) (row_of self.old n ++ item ∷ []) (row_of self.old n)) }
    {
        if let Some(row) = self.rows.get_mut(number as usize) {
            row.push(item)?;
        }
        Ok(())
    }

    /// The list of a number, empty past the table.
    pub fn row(&self, number: u32) -> &[u32]
        ensures { result.now ≡ row_of self.now number }
    {
        match self.rows.as_slice().get(number as usize) {
            Some(row) => row.as_slice(),
            None => &[],
        }
    }
}
