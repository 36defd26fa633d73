//! What is initialised when.

ghost use Rattle.std.specs.Prelude.{◌≡◌, ◌<◌, ◌≤◌, ◌^◌, ◌⊎◌, ◌&&◌, ◌∷◌, ◌++◌, [], not, ℕ, true, length, map, nat_lt, cond, slice_get, slice_set, MatchOption, IfOk, OnOk};
ghost use Rattle.program_model.specs.declared.program.Program.{Program};
ghost use Rattle.class_defs.specs.Finding.{beside};
ghost use Rattle.class_defs.specs.Members.{is_interface};
ghost use Rattle.class_defs.specs.Places.{super_place, interface_places};
ghost use Rattle.hierarchy.specs.Shapes.{IsOf};
ghost use Rattle.hierarchy.specs.Walking.{is_seen, IsFair, IsUnseen};
ghost use Rattle.dalvik_lookups.specs.Starting.{is_default, class_default, has_default, only_if, interfaces_before, firsts, interfaces_first, initialised_first};
ghost use Rattle.dalvik_lookups.specs.Rising.{todo, work, Skipped, Opened, Goes};
ghost use Rattle.dalvik_lookups.specs.declared.starts.Visit.TheVariants.{Above};
ghost use Rattle.dalvik_lookups.specs.Tables.{IsRight};
ghost use Rattle.dalvik_lookups.specs.Walks.{IsKept};

use crate::lookups::Lookups;
use crate::memo::Memo;
use crate::outer::is_on;
use hierarchy::{Hierarchy, Walk};
use program_model::{Class, Method, Program, Version};
use std::alloc::{AllocError, Global};

/// Whether a method is virtual and has code.
fn is_default(hierarchy: &Hierarchy, method: &Method) -> bool
    ensures { (p : Program) → IsOf p hierarchy.now → result ≡ is_default p method.now }
{
    hierarchy.is_virtual(method) && method.body.is_some()
}

/// Whether a class has a virtual method with code.
fn has_default(hierarchy: &Hierarchy, class: &Class) -> bool
    ensures { (p : Program) → IsOf p hierarchy.now → result ≡ class_default p class.now }
{
    for method in class.methods.as_slice() {
        if is_default(hierarchy, method) {
            return true;
        }
    }
    false
}

/// For each class whether it has a virtual method with code.
pub(crate) fn defaults(
    alloc: Global,
    program: &Program,
    hierarchy: &Hierarchy,
) -> Result<Vec<bool>, AllocError>
    ensures { IsOf program.now hierarchy.now → IfOk result (λ marks. marks.items ≡ map (class_default program.now) program.now.classes) }
{
    let mut marks = Vec::new(alloc);
    for class in program.classes.as_slice() {
        marks.push(has_default(hierarchy, class))?;
    }
    Ok(marks)
}

/// What a walk over interfaces still has to do with a class: to go up from it, or to list it.
#[derive(Clone, Copy, PartialEq, Eq, Drop)]
enum Visit {
    Above(u32),
    Itself(u32),
}

/// What a walk over interfaces has to do yet, the first of it last.
#[derive(Drop)]
pub struct Rise {
    visits: Vec<Visit>,
}

impl Rise {
    /// Nothing to do.
    fn new(alloc: Global) -> Rise
        ensures { todo result ≡ [] }
    {
        Rise {
            visits: Vec::new(alloc),
        }
    }

    /// Has this done before all else.
    fn push(&mut self, visit: Visit) -> Result<(), AllocError>
        ensures { OnOk result (todo self.new ≡ visit ∷ todo self.old) }
    {
        self.visits.push(visit)?;
        Ok(())
    }

    /// Has the walk go up from these classes before all else, from the first of them first.
    fn push_all(&mut self, classes: &[u32]) -> Result<(), AllocError>
        ensures first { OnOk result (todo self.new ≡ map (λ c. Above c) classes.now ++ todo self.old) }
        ensures short { length classes.now < 2 ^ 63 }
    {
        for at in (0..classes.len()).rev() {
            self.push(Visit::Above(classes[at]))?;
        }
        Ok(())
    }

    /// What is to be done first, which is no longer to be done.
    fn pop(&mut self) -> Option<Visit>
        ensures { MatchOption result (todo self.old ≡ []) (λ visit. todo self.old ≡ visit ∷ todo self.new) }
    {
        self.visits.pop()
    }
}

impl<'a> Lookups<'a> {
    /// Whether a class has a virtual method with code.
    fn has_default(&self, class: u32) -> bool
        ensures { IsRight self.now → result ≡ has_default self.now.program.now (slice_get self.now.program.now.classes class) }
    {
        is_on(self.defaults.as_slice(), class as usize)
    }

    /// Sees an interface, and answers whether it wasn't seen before. Another class isn't seen.
    fn opens(&self, walk: &mut Walk, class: u32) -> Result<bool, AllocError>
        ensures met { IfOk result (λ b. b ≡ (is_interface (slice_get self.now.program.now.classes class) && (nat_lt class (length walk.old.seen.items) && not (is_seen walk.old class)))) }
        ensures seen { IfOk result (λ b. walk.new.seen.items ≡ cond b (slice_set walk.old.seen.items class true) walk.old.seen.items) }
        ensures fair { IsFair walk.old → IsFair walk.new }
        ensures size { length walk.new.seen.items ≡ length walk.old.seen.items }
    {
        if !self.is_interface(class) {
            return Ok(false);
        }
        let new = walk.see(class)?;
        Ok(new)
    }

    /// Lets the interfaces above an interface wait, and itself behind them, unless the walk has been there.
    fn rise(&self, walk: &mut Walk, class: u32, rise: &mut Rise) -> Result<(), AllocError>
        ensures fair { IsFair walk.old → IsFair walk.new }
        ensures size { length walk.new.seen.items ≡ length walk.old.seen.items }
        ensures less { OnOk result (work walk.new.seen.items (todo rise.new) ≤ work walk.old.seen.items (todo rise.old)) }
        ensures rises { IsRight self.now → OnOk result (Skipped self.now.program.now class walk.old.seen.items (todo rise.old) walk.new.seen.items (todo rise.new) ⊎ Opened self.now.program.now class walk.old.seen.items (todo rise.old) walk.new.seen.items (todo rise.new)) }
    {
        if !self.opens(walk, class)? {
            return Ok(());
        }
        rise.push(Visit::Itself(class))?;
        rise.push_all(self.hierarchy.interfaces_of(class))?;
        Ok(())
    }

    /// Lists a class if it has a virtual method with code.
    fn list(&self, class: u32, out: &mut Vec<u32>) -> Result<(), AllocError>
        ensures { IsRight self.now → OnOk result (out.new.items ≡ out.old.items ++ only_if (has_default self.now.program.now (slice_get self.now.program.now.classes class)) class) }
    {
        if self.has_default(class) {
            out.push(class)?;
        }
        Ok(())
    }

    /// Goes one step of a walk over interfaces.
    fn visit(
        &self,
        walk: &mut Walk,
        one: Visit,
        rise: &mut Rise,
        out: &mut Vec<u32>,
    ) -> Result<(), AllocError>
        ensures fair { IsFair walk.old → IsFair walk.new }
        ensures size { length walk.new.seen.items ≡ length walk.old.seen.items }
        ensures less { OnOk result (work walk.new.seen.items (todo rise.new) ≤ work walk.old.seen.items (todo rise.old)) }
        ensures goes { IsRight self.now → OnOk result (Goes self.now.program.now one walk.old.seen.items (todo rise.old) out.old.items walk.new.seen.items (todo rise.new) out.new.items) }
    {
        match one {
            Visit::Above(class) => {
                self.rise(walk, class, rise)?;
                Ok(())
            }
            Visit::Itself(class) => {
                self.list(class, out)?;
                Ok(())
            }
        }
    }

    /// The interfaces with a virtual method with code that a walk comes to, each behind those above it.
    fn list_above(
        &self,
        alloc: Global,
        walk: &mut Walk,
        rise: &mut Rise,
    ) -> Result<Vec<u32>, AllocError>
        ensures fair { IsFair walk.old → IsFair walk.new }
        ensures size { length walk.new.seen.items ≡ length walk.old.seen.items }
        ensures is { (c : ℕ) → IsRight self.now → IsUnseen (length self.now.program.now.classes) walk.old → todo rise.old ≡ map (λ c. Above c) (interface_places self.now.program.now c) ++ [] → IfOk result (λ out. out.items ≡ firsts (interfaces_before (length self.now.program.now.classes) self.now.program.now (interface_places self.now.program.now c))) }
    {
        let mut out = Vec::new(alloc);
        while let Some(one) = rise.pop() {
            self.visit(walk, one, rise, &mut out)?;
        }
        Ok(out)
    }

    /// The interfaces with a virtual method with code above a class, each behind those above it.
    fn interfaces_first(
        &self,
        alloc: Global,
        memo: &mut Memo,
        class: u32,
    ) -> Result<Vec<u32>, AllocError>
        ensures kept { IsKept self.now memo.old → IsKept self.now memo.new }
        ensures is { IsRight self.now → IsKept self.now memo.old → IfOk result (λ out. out.items ≡ firsts (interfaces_before (length self.now.program.now.classes) self.now.program.now (interface_places self.now.program.now class))) }
    {
        let mut rise = Rise::new(alloc);
        memo.walk.clear();
        rise.push_all(self.hierarchy.interfaces_of(class))?;
        let out = self.list_above(alloc, &mut memo.walk, &mut rise)?;
        Ok(out)
    }

    /// The same in version 037, and none in version 035.
    fn interfaces_of_version(
        &self,
        alloc: Global,
        memo: &mut Memo,
        class: u32,
    ) -> Result<Vec<u32>, AllocError>
        ensures kept { IsKept self.now memo.old → IsKept self.now memo.new }
        ensures is { IsRight self.now → IsKept self.now memo.old → IfOk result (λ out. out.items ≡ interfaces_first self.now.program.now class) }
    {
        match self.program.version {
            Version::V035 => Ok(Vec::new(alloc)),
            Version::V037 => {
                let out = self.interfaces_first(alloc, memo, class)?;
                Ok(out)
            }
        }
    }

    /// The program superclass of a class, if there is one.
    fn super_first(&self, alloc: Global, class: u32) -> Result<Vec<u32>, AllocError>
        ensures { IsRight self.now → IfOk result (λ out. out.items ≡ beside (super_place self.now.program.now class)) }
    {
        let mut out = Vec::new(alloc);
        if let Some(above) = self.hierarchy.super_of(class) {
            out.push(above)?;
        }
        Ok(out)
    }

    /// The classes that are initialised before a class, in their order: its program superclass, then in version 037 the
    /// program interfaces above it that have a virtual method with code. Before an interface there are none.
    pub fn initialised_first(
        &self,
        alloc: Global,
        memo: &mut Memo,
        class: u32,
    ) -> Result<Vec<u32>, AllocError>
        ensures kept { IsKept self.now memo.old → IsKept self.now memo.new }
        ensures is { IsRight self.now → IsKept self.now memo.old → IfOk result (λ out. out.items ≡ initialised_first self.now.program.now class) }
    {
        if self.is_interface(class) {
            return Ok(Vec::new(alloc));
        }
        let mut out = self.super_first(alloc, class)?;
        let more = self.interfaces_of_version(alloc, memo, class)?;
        out.extend_from_slice(more.as_slice())?;
        Ok(out)
    }
}
