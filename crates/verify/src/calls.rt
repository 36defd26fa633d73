//! What the super calls of a body find.

ghost use Rattle.std.specs.Prelude.{◌≡◌, ◌∷◌, [], true, false, length, Some, IfOk, OnOk, slice_get};
ghost use Rattle.std.specs.List.{list_any};
ghost use Rattle.class_defs.specs.Finding.{finds_from, finds_among, finds_super, finds_super_037};
ghost use Rattle.class_defs.specs.Members.{is_interface};
ghost use Rattle.class_defs.specs.Places.{super_place};
ghost use Rattle.hierarchy.specs.Giving.{search_given};
ghost use Rattle.hierarchy.specs.Shapes.{IsOf};
ghost use Rattle.hierarchy.specs.Walking.{IsFair};
ghost use Rattle.hierarchy.specs.declared.build.Hierarchy.{Hierarchy};
ghost use Rattle.program_model.specs.declared.pools.MethodName.{MethodName};
ghost use Rattle.verify.specs.Supers.{place_found, found_at_place, called_by_kind, super_search, is_super, Finds, Serves};
ghost use Rattle.std.specs.Option.{option_copied};
ghost use Rattle.program_model.specs.Lookups.{class_place, method_at};

use crate::listing::lists_above;
use hierarchy::{Given, Hierarchy, Walk};
use insn_set::{Insn, InvokeKind};
use program_model::{Flags, Method, MethodAt, Program, Version};
use std::alloc::{AllocError, Global};

/// What a super call finds: no program method, or one of the class with this type number.
#[derive(Clone, Copy, PartialEq, Eq, Drop)]
pub enum Search {
    Nothing,
    Finds { class: u32, is_static: bool },
}

/// What look-ups of super calls work with. The walk is made where the first call needs it.
#[derive(Drop)]
pub struct Scratch {
    walk: Option<Walk>,
    found: Vec<MethodAt>,
}

impl Scratch {
    pub fn new(alloc: Global) -> Scratch
        ensures { (h : Hierarchy) → Serves h result.walk }
    {
        Scratch {
            walk: None,
            found: Vec::new(alloc),
        }
    }
}

/// A look-up of super calls over one program.
#[derive(Drop)]
pub struct Calls<'a> {
    pub program: &'a Program,
    pub hierarchy: &'a Hierarchy,
}

/// The method at a place.
pub fn method_at(program: &Program, at: MethodAt) -> Option<&Method>
    ensures { option_copied result ≡ method_at program.now at }
{
    match program.classes.as_slice().get(at.class as usize) {
        Some(class) => class.methods.as_slice().get(at.place as usize),
        None => None,
    }
}

/// What a look-up answers that found the method at a place.
fn search_of(program: &Program, found: Option<MethodAt>) -> Search
    ensures { result ≡ found_at_place program.now found }
{
    let at = match found {
        Some(at) => at,
        None => return Search::Nothing,
    };
    match method_at(program, at) {
        Some(method) => match program.classes.as_slice().get(at.class as usize) {
            Some(class) => Search::Finds {
                class: class.name,
                is_static: method.flags.has(Flags::STATIC),
            },
            None => Search::Nothing,
        },
        None => Search::Nothing,
    }
}

/// Whether the class at a place is an interface.
fn is_interface(program: &Program, class: u32) -> bool
    ensures { result ≡ is_interface (slice_get program.now.classes class) }
{
    match program.classes.as_slice().get(class as usize) {
        Some(found) => found.flags.has(Flags::INTERFACE),
        None => false,
    }
}

/// The method that the candidates of an interface give, if they give one.
fn placed(given: Given) -> Option<MethodAt>
    ensures { result ≡ place_found (search_given given) }
{
    match given {
        Given::One(found) => Some(found),
        Given::Nothing => None,
        Given::Clash => None,
    }
}

impl Calls<'_> {
    /// The first method of the name and proto along the superclasses of the calling class.
    fn find_above(&self, class: u32, method: u32) -> Option<MethodAt>
        ensures { (q : MethodName) → IsOf self.now.program.now self.now.hierarchy.now → slice_get self.now.program.now.methods method ≡ Some q
            → result ≡ finds_from self.now.program.now q.name q.proto (super_place self.now.program.now class) }
    {
        match self.hierarchy.super_of(class) {
            Some(above) => self
                .hierarchy
                .find_from(above, self.hierarchy.key_of_method(method)),
            None => None,
        }
    }

    /// What the candidates of a program interface give.
    fn find_among(
        &self,
        found: &mut Vec<MethodAt>,
        walk: &mut Walk,
        interface: u32,
        method: u32,
    ) -> Result<Option<MethodAt>, AllocError>
        ensures fair { OnOk result (IsFair walk.old → IsFair walk.new) }
        ensures size { OnOk result (length walk.new.seen.items ≡ length walk.old.seen.items) }
        ensures is { (q : MethodName) → IsOf self.now.program.now self.now.hierarchy.now → slice_get self.now.program.now.methods method ≡ Some q → IsFair walk.old
            → length walk.old.seen.items ≡ length self.now.program.now.classes → IfOk result (λ found. found ≡ place_found (finds_among self.now.program.now (interface ∷ []) q.name q.proto)) }
    {
        let key = self.hierarchy.key_of_method(method);
        found.clear();
        self.hierarchy
            .candidates_of(self.program, interface, key, walk, found)?;
        let given = self.hierarchy.given(self.program, found.as_slice(), walk)?;
        Ok(placed(given))
    }

    /// The walk that was made before, or a new one where there is none.
    fn walk_of(&self, alloc: Global, made: Option<Walk>) -> Result<Walk, AllocError>
        ensures { Serves self.now.hierarchy.now made → IfOk result (λ w. Serves self.now.hierarchy.now (Some w)) }
    {
        match made {
            Some(walk) => Ok(walk),
            None => self.hierarchy.walk(alloc),
        }
    }

    /// What a super call of version 037 finds that names a program class.
    fn find_by_class(
        &self,
        found: &mut Vec<MethodAt>,
        walk: &mut Walk,
        class: u32,
        method: u32,
        named: u32,
    ) -> Result<Option<MethodAt>, AllocError>
        ensures fair { OnOk result (IsFair walk.old → IsFair walk.new) }
        ensures size { OnOk result (length walk.new.seen.items ≡ length walk.old.seen.items) }
        ensures is { (q : MethodName) → IsOf self.now.program.now self.now.hierarchy.now → slice_get self.now.program.now.methods method ≡ Some q → IsFair walk.old
            → length walk.old.seen.items ≡ length self.now.program.now.classes → IfOk result (λ found. found ≡ place_found (finds_super_037 self.now.program.now class q (Some named))) }
    {
        if is_interface(self.program, named) {
            let found = self.find_among(found, walk, named, method)?;
            Ok(found)
        } else {
            Ok(self.find_above(class, method))
        }
    }

    /// What a super call of version 037 finds that names a type of the framework.
    fn find_by_kind(
        &self,
        walk: &mut Walk,
        class: u32,
        method: u32,
        kind: u32,
    ) -> Result<Option<MethodAt>, AllocError>
        ensures fair { OnOk result (IsFair walk.old → IsFair walk.new) }
        ensures size { OnOk result (length walk.new.seen.items ≡ length walk.old.seen.items) }
        ensures is { (q : MethodName) → IsOf self.now.program.now self.now.hierarchy.now → slice_get self.now.program.now.methods method ≡ Some q → q.class ≡ kind → IsFair walk.old
            → length walk.old.seen.items ≡ length self.now.program.now.classes → IfOk result (λ found. found ≡ place_found (finds_super_037 self.now.program.now class q None)) }
    {
        if lists_above(self.program, self.hierarchy, class, kind, walk)? {
            Ok(None)
        } else {
            Ok(self.find_above(class, method))
        }
    }

    /// What a super call of version 037 finds.
    fn find_in_037(
        &self,
        found: &mut Vec<MethodAt>,
        walk: &mut Walk,
        class: u32,
        method: u32,
        kind: u32,
    ) -> Result<Option<MethodAt>, AllocError>
        ensures fair { OnOk result (IsFair walk.old → IsFair walk.new) }
        ensures size { OnOk result (length walk.new.seen.items ≡ length walk.old.seen.items) }
        ensures is { (q : MethodName) → IsOf self.now.program.now self.now.hierarchy.now → slice_get self.now.program.now.methods method ≡ Some q → q.class ≡ kind → IsFair walk.old
            → length walk.old.seen.items ≡ length self.now.program.now.classes
            → IfOk result (λ found. found ≡ place_found (finds_super_037 self.now.program.now class q (class_place self.now.program.now q.class))) }
    {
        match self.hierarchy.place_of(kind) {
            Some(named) => {
                let found = self.find_by_class(found, walk, class, method, named)?;
                Ok(found)
            }
            None => self.find_by_kind(walk, class, method, kind),
        }
    }

    /// What a super call of version 037 finds, by a walk that is made where there is none yet.
    fn find_walking(
        &self,
        alloc: Global,
        scratch: &mut Scratch,
        class: u32,
        method: u32,
        kind: u32,
    ) -> Result<Option<MethodAt>, AllocError>
        ensures serves { Serves self.now.hierarchy.now scratch.old.walk → OnOk result (Serves self.now.hierarchy.now scratch.new.walk) }
        ensures is { (q : MethodName) → IsOf self.now.program.now self.now.hierarchy.now → slice_get self.now.program.now.methods method ≡ Some q → q.class ≡ kind
            → Serves self.now.hierarchy.now scratch.old.walk → IfOk result (λ found. found ≡ place_found (finds_super_037 self.now.program.now class q (class_place self.now.program.now q.class))) }
    {
        let mut walk = self.walk_of(alloc, scratch.walk.take())?;
        let found = self.find_in_037(&mut scratch.found, &mut walk, class, method, kind)?;
        scratch.walk = Some(walk);
        Ok(found)
    }

    /// What a super call from a class finds.
    fn find_super(
        &self,
        alloc: Global,
        scratch: &mut Scratch,
        class: u32,
        method: u32,
    ) -> Result<Option<MethodAt>, AllocError>
        ensures serves { Serves self.now.hierarchy.now scratch.old.walk → OnOk result (Serves self.now.hierarchy.now scratch.new.walk) }
        ensures is { IsOf self.now.program.now self.now.hierarchy.now → Serves self.now.hierarchy.now scratch.old.walk
            → IfOk result (λ found. found ≡ place_found (finds_super self.now.program.now class method)) }
    {
        let kind = match self.program.methods.as_slice().get(method as usize) {
            Some(name) => name.class,
            None => return Ok(None),
        };
        match self.program.version {
            Version::V035 => Ok(self.find_above(class, method)),
            Version::V037 => {
                let found = self.find_walking(alloc, scratch, class, method, kind)?;
                Ok(found)
            }
        }
    }

    /// What a call finds, if it is a super call.
    #[tactic(auto, using(crate::proofs::Calling::said_place))]
    fn search_call(
        &self,
        alloc: Global,
        scratch: &mut Scratch,
        class: u32,
        kind: InvokeKind,
        method: u32,
    ) -> Result<Search, AllocError>
        ensures serves { Serves self.now.hierarchy.now scratch.old.walk → OnOk result (Serves self.now.hierarchy.now scratch.new.walk) }
        ensures is { IsOf self.now.program.now self.now.hierarchy.now → Serves self.now.hierarchy.now scratch.old.walk
            → IfOk result (λ found. found ≡ called_by_kind self.now.program.now class kind method) }
    {
        match kind {
            InvokeKind::Super => {
                let found = self.find_super(alloc, scratch, class, method)?;
                Ok(search_of(self.program, found))
            }
            _ => Ok(Search::Nothing),
        }
    }

    /// What an instruction finds, if it is a super call.
    fn search(
        &self,
        alloc: Global,
        scratch: &mut Scratch,
        class: u32,
        insn: &Insn,
    ) -> Result<Search, AllocError>
        ensures serves { Serves self.now.hierarchy.now scratch.old.walk → OnOk result (Serves self.now.hierarchy.now scratch.new.walk) }
        ensures is { IsOf self.now.program.now self.now.hierarchy.now → Serves self.now.hierarchy.now scratch.old.walk
            → IfOk result (λ found. found ≡ super_search self.now.program.now class insn.now) }
    {
        match insn {
            Insn::Invoke { kind, method, .. } => {
                let found = self.search_call(alloc, scratch, class, *kind, *method)?;
                Ok(found)
            }
            _ => Ok(Search::Nothing),
        }
    }

    /// For each position of a body what it finds, where it is a super call.
    fn search_each(
        &self,
        alloc: Global,
        scratch: &mut Scratch,
        class: u32,
        insns: &[Insn],
    ) -> Result<Vec<Search>, AllocError>
        ensures serves { Serves self.now.hierarchy.now scratch.old.walk → OnOk result (Serves self.now.hierarchy.now scratch.new.walk) }
        ensures is { IsOf self.now.program.now self.now.hierarchy.now → Serves self.now.hierarchy.now scratch.old.walk → IfOk result (λ found. Finds self.now.program.now class insns.now found.items) }
    {
        let mut found = Vec::new(alloc);
        for insn in insns {
            found.push(self.search(alloc, scratch, class, insn)?)?;
        }
        Ok(found)
    }

    /// For each position of a body what it finds, where it is a super call; the empty list where there is none.
    pub fn search_all(
        &self,
        alloc: Global,
        scratch: &mut Scratch,
        class: u32,
        insns: &[Insn],
    ) -> Result<Vec<Search>, AllocError>
        ensures serves { Serves self.now.hierarchy.now scratch.old.walk → OnOk result (Serves self.now.hierarchy.now scratch.new.walk) }
        ensures is { IsOf self.now.program.now self.now.hierarchy.now → Serves self.now.hierarchy.now scratch.old.walk → IfOk result (λ found. Finds self.now.program.now class insns.now found.items) }
    {
        if has_super(insns) {
            let found = self.search_each(alloc, scratch, class, insns)?;
            Ok(found)
        } else {
            Ok(Vec::new(alloc))
        }
    }
}

/// Whether it is a super call.
fn is_super(insn: &Insn) -> bool
    ensures { result ≡ is_super insn.now }
{
    match insn {
        Insn::Invoke { kind, .. } => match kind {
            InvokeKind::Super => true,
            _ => false,
        },
        _ => false,
    }
}

/// Whether there is a super call.
fn has_super(insns: &[Insn]) -> bool
    ensures { result ≡ list_any is_super insns.now }
{
    for insn in insns {
        if is_super(insn) {
            return true;
        }
    }
    false
}
