//! What is asked of a hierarchy.

ghost use Rattle.std.specs.Prelude.{◌≡◌, ◌<◌, ◌++◌, ◌∷◌, [], ℕ, Some, None, length, false, not, nat_eq, cond, flat_map, slice_get, slice_index_or, Contains, IfOk, OnOk};
ghost use Rattle.std.specs.List.{filter_map};
ghost use Rattle.std.specs.List.Sorted.{IsStrictlyIncreasing};
ghost use Rattle.program_model.specs.Lookups.{method_at};
ghost use Rattle.program_model.specs.declared.pools.MethodName.{MethodName};
ghost use Rattle.program_model.specs.declared.program.Method.{Method};
ghost use Rattle.program_model.specs.declared.program.Program.{Program};
ghost use Rattle.class_defs.specs.Finding.{resolves_field, resolves_method, one_or_none};
ghost use Rattle.class_defs.specs.Members.{own_virtual};
ghost use Rattle.class_defs.specs.Starts.{is_trivial};
ghost use Rattle.hierarchy.specs.Naming.{IsKey};
ghost use Rattle.hierarchy.specs.Shapes.{IsOf, IsResolved};
ghost use Rattle.class_defs.specs.Places.{is_under};
ghost use Rattle.hierarchy.specs.Tables.{answer};
ghost use Rattle.hierarchy.specs.Touring.{others_in, subclasses_of};

use crate::build::Hierarchy;
use crate::find::method_at;
use crate::ranges::Range;
use crate::table::{count_at, is_on};
use program_model::{MethodAt, Program};
use std::alloc::{AllocError, Global};

impl Hierarchy {
    /// Whether the class `lower` is the class `upper`, or below it by the program's own lists.
    pub fn is_under(&self, lower: u32, upper: u32) -> bool
        ensures { (p : Program) → IsResolved p self.now → lower < length p.classes → upper < length p.classes → result ≡ is_under p lower upper }
    {
        match self.tour.numbers.as_slice().get(lower as usize) {
            Some(number) => self.tour.ranges.has(upper, *number),
            None => false,
        }
    }

    /// What the name of a field resolves to: the class and the place in its `fields` of the first field of that name
    /// and type in the named class, then its interfaces, then its superclass, each in turn.
    pub fn resolve_field(&self, _program: &Program, field: u32) -> Option<(u32, u32)>
        ensures table { result ≡ answer (slice_get self.now.targets.fields.items field) }
        ensures is { (p : Program) → IsResolved p self.now → result ≡ resolves_field p field }
    {
        match self.targets.fields.as_slice().get(field as usize) {
            Some(target) => *target,
            None => None,
        }
    }

    /// What the name of a method resolves to: the first method of that name and proto along the named class and its
    /// superclasses, then in their interfaces in the order of their lists, each followed by the interfaces above it.
    pub fn resolve_method(&self, _program: &Program, method: u32) -> Option<MethodAt>
        ensures table { result ≡ answer (slice_get self.now.targets.methods.items method) }
        ensures is { (p : Program) → IsResolved p self.now → result ≡ resolves_method p method }
    {
        match self.targets.methods.as_slice().get(method as usize) {
            Some(target) => *target,
            None => None,
        }
    }

    /// Whether initialising the class runs no code: it, its program superclasses and all program interfaces above any of
    /// these by interface lists have no `<clinit>`.
    pub fn trivially_initialised(&self, _program: &Program, class: u32) -> bool
        ensures table { result ≡ slice_index_or self.now.starts.trivial.items class false }
        ensures is { (p : Program) → IsResolved p self.now → class < length p.classes → result ≡ is_trivial p class }
    {
        is_on(self.starts.trivial.as_slice(), class)
    }

    /// The places of the other program classes under the class, in file order.
    pub fn own_subclasses(&self, alloc: Global, class: u32) -> Result<Vec<u32>, AllocError>
        ensures { (p : Program) → IsResolved p self.now → class < length p.classes → IfOk result (λ below. below.items ≡ subclasses_of p class) }
    {
        let others = others(
            alloc,
            self.tour.by_number.as_slice(),
            class,
            self.tour.ranges.row(class),
        )?;
        Ok(in_file_order(others))
    }

    /// The virtual methods with a key that some classes define themselves, class by class.
    fn virtual_among(
        &self,
        alloc: Global,
        program: &Program,
        classes: &[u32],
        key: u32,
    ) -> Result<Vec<MethodAt>, AllocError>
        ensures { (name proto : ℕ) → IsOf program.now self.now → IsKey program.now self.now key name proto → IfOk result (λ found. found.items ≡ filter_map (own_virtual program.now name proto) classes.now) }
    {
        let mut found = Vec::new(alloc);
        for class in classes {
            push_found(self.own_virtual(program, *class, key), &mut found)?;
        }
        Ok(found)
    }

    /// The virtual methods of the method's name and proto in the other program classes under its class, in file order;
    /// none where no method stands at the place.
    pub fn overriders(
        &self,
        alloc: Global,
        program: &Program,
        method: MethodAt,
    ) -> Result<Vec<MethodAt>, AllocError>
        ensures are { (m : Method) (q : MethodName) → IsResolved program.now self.now → method_at program.now method ≡ Some m → slice_get program.now.methods m.name ≡ Some q → IfOk result (λ found. found.items ≡ filter_map (own_virtual program.now q.name q.proto) (subclasses_of program.now method.class)) }
        ensures none { method_at program.now method ≡ None → IfOk result (λ found. found.items ≡ []) }
    {
        let number = match method_at(program, method) {
            Some(defined) => defined.name,
            None => return Ok(Vec::new(alloc)),
        };
        let key = self.key_of_method(number);
        let below = self.own_subclasses(alloc, method.class)?;
        self.virtual_among(alloc, program, below.as_slice(), key)
    }
}

/// Adds a class to a list, unless it is one that is left out.
fn add_other(class: u32, one: u32, out: &mut Vec<u32>) -> Result<(), AllocError>
    ensures { OnOk result (out.new.items ≡ out.old.items ++ cond (not (nat_eq one class)) (one ∷ []) []) }
{
    if one != class {
        out.push(one)?;
    }
    Ok(())
}

/// Adds the classes with the numbers of a range, but for one. `places` has the class with each number.
fn add_others(
    places: &[u32],
    class: u32,
    range: Range,
    out: &mut Vec<u32>,
) -> Result<(), AllocError>
    ensures { OnOk result (out.new.items ≡ out.old.items ++ others_in places.now class range) }
{
    for number in range.first..range.end {
        add_other(class, count_at(places, number), out)?;
    }
    Ok(())
}

/// The classes with the numbers of ranges, range by range, but for one.
fn others(
    alloc: Global,
    places: &[u32],
    class: u32,
    ranges: &[Range],
) -> Result<Vec<u32>, AllocError>
    ensures { IfOk result (λ others. others.items ≡ flat_map (others_in places.now class) ranges.now) }
{
    let mut others = Vec::new(alloc);
    for range in ranges {
        add_others(places, class, *range, &mut others)?;
    }
    Ok(others)
}

/// The classes of a list by their places, each once.
fn in_file_order(mut classes: Vec<u32>) -> Vec<u32>
    ensures rising { IsStrictlyIncreasing result.items }
    ensures kept { (c : ℕ) → Contains classes.items c → Contains result.items c }
    ensures from { (c : ℕ) → Contains result.items c → Contains classes.items c }
{
    classes.sort_unstable();
    classes.dedup();
    classes
}

/// Adds a method where there is one.
fn push_found(one: Option<MethodAt>, found: &mut Vec<MethodAt>) -> Result<(), AllocError>
    ensures { OnOk result (found.new.items ≡ found.old.items ++ one_or_none one) }
{
    match one {
        Some(method) => {
            found.push(method)?;
            Ok(())
        }
        None => Ok(()),
    }
}
