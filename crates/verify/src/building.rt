//! How the chains of classes are made.

ghost use Rattle.std.specs.Prelude.{◌≡◌, ◌<◌, ◌≤◌, [], length, Some, IfOk, OnOk};
ghost use Rattle.std.specs.Prelude.{ℕ, ◌+◌, slice_index_or, slice_set, true, None};
ghost use Rattle.hierarchy.specs.Shapes.{IsOf};
ghost use Rattle.verify.specs.Building.{class_above, AreChainsOf, is_done, climbed, depth_under, jump_under, Notes, IsPath, IsSettled, Goes, IsDoneBelow};
ghost use Rattle.verify.specs.Chains.{IsChains, above, longest};
ghost use Rattle.verify.specs.Flow.{greatest};

use crate::chains::Chains;
use crate::tables::word;
use hierarchy::Hierarchy;
use program_model::{Flags, Program};
use std::alloc::{AllocError, Global};

/// The class above a class: its program superclass. None stands above an interface, whose objects are any objects.
fn class_above(program: &Program, hierarchy: &Hierarchy, class: u32) -> Option<u32>
    ensures { IsOf program.now hierarchy.now → result ≡ class_above program.now class }
{
    let is_interface = match program.classes.as_slice().get(class as usize) {
        Some(found) => found.flags.has(Flags::INTERFACE),
        None => false,
    };
    if is_interface {
        None
    } else {
        hierarchy.super_of(class)
    }
}

/// The class above each of so many classes.
fn classes_above(
    alloc: Global,
    program: &Program,
    hierarchy: &Hierarchy,
    classes: u32,
) -> Result<Vec<Option<u32>>, AllocError>
    ensures size { IfOk result (λ supers. length supers.items ≡ classes) }
    ensures is { IsOf program.now hierarchy.now → IfOk result (λ supers. (k : ℕ) → k < classes → slice_index_or supers.items k None ≡ class_above program.now k) }
{
    let mut supers = Vec::new(alloc);
    for class in 0..classes {
        supers.push(class_above(program, hierarchy, class))?;
    }
    Ok(supers)
}

/// Chains of which only the classes above are known.
fn bare(alloc: Global, supers: Vec<Option<u32>>) -> Result<Chains, AllocError>
    ensures supers { IfOk result (λ c. c.supers.items ≡ supers.items) }
    ensures settled { (n : ℕ) (r : ℕ → ℕ) → length supers.items ≡ n → ((k p : ℕ) → slice_index_or supers.items k None ≡ Some p → r p < r k) → ((k : ℕ) → k < n → r k < n)
        → IfOk result (IsSettled n r) }
{
    let count = supers.len();
    let depths = vec![in alloc; 0u32; count]?;
    let jumps = vec![in alloc; 0u32; count]?;
    let done = vec![in alloc; false; count]?;
    Ok(Chains {
        supers,
        depths,
        jumps,
        done,
    })
}

/// Writes a number into a table.
fn set_number(table: &mut Vec<u32>, place: u32, number: u32)
    ensures { table.new.items ≡ slice_set table.old.items place number }
{
    if let Some(cell) = table.get_mut(place as usize) {
        *cell = number;
    }
}

/// Marks a place of a table.
fn set_mark(table: &mut Vec<bool>, place: u32)
    ensures { table.new.items ≡ slice_set table.old.items place true }
{
    if let Some(cell) = table.get_mut(place as usize) {
        *cell = true;
    }
}

impl Chains {
    /// The chains of a program's classes. Those of a hierarchy are sound, since it has no class that is its own ancestor.
    pub fn make(
        alloc: Global,
        program: &Program,
        hierarchy: &Hierarchy,
    ) -> Result<Chains, AllocError>
        ensures sound { IfOk result IsChains }
        ensures short { IfOk result (λ c. length c.supers.items ≤ greatest) }
        ensures made { IsOf program.now hierarchy.now → length program.now.classes < longest → IfOk result (AreChainsOf program.now) }
    {
        let classes = word(program.classes.len());
        let supers = classes_above(alloc, program, hierarchy, classes)?;
        let mut chains = bare(alloc, supers)?;
        chains.settle_all(alloc, classes)?;
        Ok(chains.checked(alloc, classes))
    }

    /// Whether depth and jump of a class are known.
    fn is_done(&self, class: u32) -> bool
        ensures { result ≡ is_done self.now class }
    {
        match self.done.get(class as usize) {
            Some(done) => *done,
            None => true,
        }
    }

    /// Lists a class and those above it that are not done, the lowest first.
    fn climb(&self, class: u32, path: &mut Vec<u32>) -> Result<(), AllocError>
        requires { path.old.items ≡ [] }
        ensures { OnOk result (path.new.items ≡ climbed (length self.now.supers.items) self.now (Some class)) }
    {
        let mut at = Some(class);
        for _ in 0..self.supers.len() {
            let one = match at {
                Some(one) => one,
                None => return Ok(()),
            };
            if self.is_done(one) {
                return Ok(());
            }
            path.push(one)?;
            at = self.above(one);
        }
        Ok(())
    }

    /// Notes what is known of a class.
    fn note(&mut self, class: u32, depth: u32, jump: u32)
        ensures { Notes self.old self.new class depth jump }
    {
        set_number(&mut self.depths, class, depth);
        set_number(&mut self.jumps, class, jump);
        set_mark(&mut self.done, class);
    }

    /// The depth of a class below another one.
    fn depth_under(&self, above: Option<u32>) -> u32
        ensures { result ≡ depth_under self.now above }
    {
        match above {
            Some(above) => self.depth(above).saturating_add(1),
            None => 0,
        }
    }

    /// The jump of a class below another one.
    fn jump_under(&self, class: u32, above: Option<u32>) -> u32
        ensures { result ≡ jump_under self.now class above }
    {
        match above {
            Some(above) => self.jump_over(above),
            None => class,
        }
    }

    /// Does a class that stands below one that is done.
    fn settle_one(&mut self, class: u32)
        ensures { Notes self.old self.new class (depth_under self.old (above self.old class)) (jump_under self.old class (above self.old class)) }
    {
        let above = self.above(class);
        let depth = self.depth_under(above);
        let jump = self.jump_under(class, above);
        self.note(class, depth, jump);
    }

    /// Does all classes of a list, the highest first.
    fn settle(&mut self, path: &mut Vec<u32>)
        ensures goes { (n : ℕ) (r : ℕ → ℕ) → n ≤ greatest → IsSettled n r self.old → IsPath n self.old path.old.items → Goes n r self.old self.new path.old.items [] }
        ensures empty { path.new.items ≡ [] }
        ensures supers { self.new.supers ≡ self.old.supers }
    {
        for _ in 0..path.len() {
            match path.pop() {
                Some(class) => self.settle_one(class),
                None => return,
            }
        }
    }

    /// Does one more class.
    fn settle_above(&mut self, class: u32, path: &mut Vec<u32>) -> Result<(), AllocError>
        requires { path.old.items ≡ [] }
        ensures goes { OnOk result ((n : ℕ) (r : ℕ → ℕ) → n ≤ greatest → class < n → IsDoneBelow n r self.old class → IsDoneBelow n r self.new (class + 1)) }
        ensures empty { OnOk result (path.new.items ≡ []) }
        ensures supers { OnOk result (self.new.supers ≡ self.old.supers) }
    {
        self.climb(class, path)?;
        self.settle(path);
        Ok(())
    }

    /// Does so many classes.
    fn settle_all(&mut self, alloc: Global, classes: u32) -> Result<(), AllocError>
        ensures goes { OnOk result ((r : ℕ → ℕ) → IsSettled classes r self.old → IsDoneBelow classes r self.new classes) }
        ensures supers { OnOk result (self.new.supers ≡ self.old.supers) }
    {
        let mut path = Vec::new(alloc);
        for class in 0..classes {
            self.settle_above(class, &mut path)?;
        }
        Ok(())
    }
}
