//! What the receivers of a call find.

ghost use Rattle.std.specs.Prelude.{◌≡◌, ◌<◌, ◌^◌, ◌∷◌, false, ℕ, Some, length, slice_get, flat_map, None, IfOk, MatchOption};
ghost use Rattle.std.specs.List.{list_any};
ghost use Rattle.program_model.specs.declared.pools.MethodName.{MethodName};
ghost use Rattle.class_defs.specs.Finding.{finds_at, finds_among};
ghost use Rattle.class_defs.specs.Places.{is_under, interface_places, chain_of};
ghost use Rattle.hierarchy.specs.Naming.{IsKey};
ghost use Rattle.hierarchy.specs.Shapes.{IsResolved};
ghost use Rattle.hierarchy.specs.Tables.{row_of};
ghost use Rattle.receivers.specs.Receiving.{stands_under, only, interface_at, found_by, is_at, all_find, agreed, agreed_on, agreed_under, overrides, is_overridden, handed_down, is_other, has_other, AreShort, IsFinding, IsReady, IsNameOf};

use crate::listed::listed_in;
use crate::straight::is_straight;
use class_criteria::overrides;
use hierarchy::{Given, Hierarchy, Walk};
use program_model::{MethodAt, Program};
use seq::Seq;
use std::alloc::{AllocError, Global};

/// What a virtual or interface call names: a type, and the key of a name and a proto.
#[derive(Clone, Copy)]
pub struct Named {
    pub kind: u32,
    pub key: u32,
}

/// The classes of a program, and what they find. `listed` has for each type number the places of the classes that list it as
/// their superclass or among their interfaces, and `straight` says whether classes list interfaces alone as interfaces.
#[derive(Drop)]
pub struct Finder<'a> {
    pub program: &'a Program,
    pub hierarchy: &'a Hierarchy,
    listed: Seq<Seq<u32>>,
    straight: bool,
}

/// Whether a method that was found, if there is one, is this one.
fn is_at(at: MethodAt, found: Option<MethodAt>) -> bool
    ensures { result ≡ is_at at found }
{
    match found {
        Some(other) => other.class == at.class && other.place == at.place,
        None => false,
    }
}

impl<'a> Finder<'a> {
    /// What the classes of a program find.
    pub fn new(
        alloc: Global,
        program: &'a Program,
        hierarchy: &'a Hierarchy,
    ) -> Result<Finder<'a>, AllocError>
        ensures of { IfOk result (λ f. (f.program.now ≡ program.now) × (f.hierarchy.now ≡ hierarchy.now)) }
        ensures finds { IsResolved program.now hierarchy.now → length program.now.classes < 2 ^ 32 → IfOk result (λ f. IsFinding f) }
    {
        Ok(Finder {
            program,
            hierarchy,
            listed: listed_in(alloc, program.classes.as_slice(), program.types.len())?,
            straight: is_straight(program, hierarchy),
        })
    }

    /// What a method number names, for a virtual or interface call.
    pub fn named(&self, method: u32) -> Option<Named>
        ensures { MatchOption result (slice_get self.now.program.now.methods method ≡ None) (λ n. (q : MethodName) → slice_get self.now.program.now.methods method ≡ Some q
            → (n.kind ≡ q.class) × IsKey self.now.program.now self.now.hierarchy.now n.key q.name q.proto) }
    {
        match self.program.methods.as_slice().get(method as usize) {
            Some(name) => Some(Named {
                kind: name.class,
                key: self.hierarchy.key_of_method(method),
            }),
            None => None,
        }
    }

    /// The places of the classes that list a type.
    fn listers(&self, kind: u32) -> &[u32]
        ensures { result.now ≡ row_of self.now.listed kind }
    {
        match self.listed.as_slice().get(kind as usize) {
            Some(row) => row.as_slice(),
            None => &[],
        }
    }

    /// Whether a class is under one of these.
    fn is_under_one(&self, class: u32, others: &[u32]) -> bool
        ensures { IsFinding self.now → class < length self.now.program.now.classes → ((k x : ℕ) → slice_get others.now k ≡ Some x → x < length self.now.program.now.classes)
            → result ≡ list_any (is_under self.now.program.now class) others.now }
    {
        for other in others {
            if self.hierarchy.is_under(class, *other) {
                return true;
            }
        }
        false
    }

    /// Whether a class is under a type by the program's own lists.
    #[tactic(auto, using(crate::proofs::Stands::rows_above))]
    fn is_under(&self, class: u32, kind: u32) -> bool
        ensures { IsFinding self.now → class < length self.now.program.now.classes → kind < length self.now.program.now.types → result ≡ stands_under self.now.program.now class kind }
    {
        match self.hierarchy.place_of(kind) {
            Some(upper) => self.hierarchy.is_under(class, upper),
            None => self.is_under_one(class, self.listers(kind)),
        }
    }

    /// What the candidates of the interfaces above a class give.
    fn find_candidate(
        &self,
        alloc: Global,
        class: u32,
        key: u32,
        walk: &mut Walk,
    ) -> Result<Option<MethodAt>, AllocError>
        ensures ready { IsReady self.now.program.now walk.old → IsReady self.now.program.now walk.new }
        ensures is { let p = self.now.program.now in IsFinding self.now → IsReady p walk.old → (name proto : ℕ) → IsKey p self.now.hierarchy.now key name proto
            → IfOk result (λ o. o ≡ only (finds_among p (flat_map (interface_places p) (chain_of p (Some class))) name proto)) }
    {
        let mut candidates = Vec::new(alloc);
        self.hierarchy
            .candidates(self.program, class, key, walk, &mut candidates)?;
        match self
            .hierarchy
            .given(self.program, candidates.as_slice(), walk)?
        {
            Given::One(found) => Ok(Some(found)),
            _ => Ok(None),
        }
    }

    /// What an object of a class finds by a name and a proto, whatever the type that a call names.
    fn find_any(
        &self,
        alloc: Global,
        class: u32,
        key: u32,
        walk: &mut Walk,
    ) -> Result<Option<MethodAt>, AllocError>
        ensures ready { IsReady self.now.program.now walk.old → IsReady self.now.program.now walk.new }
        ensures is { let p = self.now.program.now in IsFinding self.now → IsReady p walk.old → (name proto : ℕ) → IsKey p self.now.hierarchy.now key name proto
            → IfOk result (λ o. o ≡ only (finds_at p class name proto)) }
    {
        match self.hierarchy.find_virtual(self.program, class, key) {
            Some(found) => Ok(Some(found)),
            None => self.find_candidate(alloc, class, key, walk),
        }
    }

    /// What an object of a class finds for a call.
    pub fn find(
        &self,
        alloc: Global,
        class: u32,
        named: Named,
        walk: &mut Walk,
    ) -> Result<Option<MethodAt>, AllocError>
        ensures ready { IsReady self.now.program.now walk.old → IsReady self.now.program.now walk.new }
        ensures is { let p = self.now.program.now in IsFinding self.now → IsReady p walk.old → (q : MethodName) → IsNameOf self.now q named → class < length p.classes
            → IfOk result (λ o. o ≡ found_by p q class) }
    {
        if !self.is_under(class, named.kind) {
            return Ok(None);
        }
        self.find_any(alloc, class, named.key, walk)
    }

    /// Whether an object of each of some classes finds this method.
    fn all_find(
        &self,
        alloc: Global,
        classes: &[u32],
        named: Named,
        target: MethodAt,
        walk: &mut Walk,
    ) -> Result<bool, AllocError>
        ensures ready { IsReady self.now.program.now walk.old → IsReady self.now.program.now walk.new }
        ensures is { let p = self.now.program.now in IsFinding self.now → IsReady p walk.old → (q : MethodName) → IsNameOf self.now q named → AreShort p classes.now
            → IfOk result (λ b. b ≡ all_find p q target classes.now) }
    {
        for class in classes {
            let found = self.find(alloc, *class, named, walk)?;
            if !is_at(target, found) {
                return Ok(false);
            }
        }
        Ok(true)
    }

    /// This method, where objects of some classes find it.
    fn agreed_on(
        &self,
        alloc: Global,
        others: &[u32],
        named: Named,
        target: MethodAt,
        walk: &mut Walk,
    ) -> Result<Option<MethodAt>, AllocError>
        ensures ready { IsReady self.now.program.now walk.old → IsReady self.now.program.now walk.new }
        ensures is { let p = self.now.program.now in IsFinding self.now → IsReady p walk.old → (q : MethodName) → IsNameOf self.now q named → AreShort p others.now
            → IfOk result (λ o. o ≡ agreed_on p q others.now (Some target)) }
    {
        if self.all_find(alloc, others, named, target, walk)? {
            Ok(Some(target))
        } else {
            Ok(None)
        }
    }

    /// The method that an object of a class finds, where objects of some others find it too.
    fn agreed(
        &self,
        alloc: Global,
        first: u32,
        others: &[u32],
        named: Named,
        walk: &mut Walk,
    ) -> Result<Option<MethodAt>, AllocError>
        ensures ready { IsReady self.now.program.now walk.old → IsReady self.now.program.now walk.new }
        ensures is { let p = self.now.program.now in IsFinding self.now → IsReady p walk.old → (q : MethodName) → IsNameOf self.now q named → first < length p.classes → AreShort p others.now
            → IfOk result (λ o. o ≡ agreed p q (first ∷ others.now)) }
    {
        let target = match self.find(alloc, first, named, walk)? {
            Some(target) => target,
            None => return Ok(None),
        };
        self.agreed_on(alloc, others, named, target, walk)
    }

    /// The one method that objects of all of some classes find, of which there is at least one.
    pub fn found_by_all(
        &self,
        alloc: Global,
        classes: &[u32],
        named: Named,
        walk: &mut Walk,
    ) -> Result<Option<MethodAt>, AllocError>
        ensures ready { IsReady self.now.program.now walk.old → IsReady self.now.program.now walk.new }
        ensures is { let p = self.now.program.now in IsFinding self.now → IsReady p walk.old → (q : MethodName) → IsNameOf self.now q named → AreShort p classes.now
            → IfOk result (λ o. o ≡ agreed p q classes.now) }
    {
        match classes {
            [] => Ok(None),
            [first, others @ ..] => self.agreed(alloc, *first, others, named, walk),
        }
    }

    /// Whether one of some classes under another one, but the class of a method, defines such a virtual method itself.
    fn is_overridden_by(&self, class: u32, key: u32, target: MethodAt, definers: &[u32]) -> bool
        ensures { let p = self.now.program.now in IsFinding self.now → (q : MethodName) → IsKey p self.now.hierarchy.now key q.name q.proto → class < length p.classes → AreShort p definers.now
            → result ≡ list_any (overrides p q class target) definers.now }
    {
        for definer in definers {
            if overrides(self.program, self.hierarchy, class, key, target, *definer) {
                return true;
            }
        }
        false
    }

    /// Whether a class under another one, but the class of a method, defines such a virtual method itself.
    fn is_overridden(&self, class: u32, key: u32, target: MethodAt) -> bool
        ensures { let p = self.now.program.now in IsFinding self.now → (q : MethodName) → IsKey p self.now.hierarchy.now key q.name q.proto → class < length p.classes
            → result ≡ is_overridden p q class target }
    {
        self.is_overridden_by(class, key, target, self.hierarchy.definers_of(key))
    }

    /// What a class hands down to all classes under it, which have it among their superclasses.
    fn handed_down(&self, class: u32, named: Named, target: MethodAt) -> Option<MethodAt>
        ensures { let p = self.now.program.now in IsFinding self.now → (q : MethodName) → IsNameOf self.now q named → class < length p.classes
            → result ≡ handed_down p q class target }
    {
        if self.is_under(class, named.kind) && !self.is_overridden(class, named.key, target) {
            Some(target)
        } else {
            None
        }
    }

    /// The one method that objects of a class and of all classes under it find, class by class.
    fn found_by_each(
        &self,
        alloc: Global,
        class: u32,
        named: Named,
        walk: &mut Walk,
    ) -> Result<Option<MethodAt>, AllocError>
        ensures ready { IsReady self.now.program.now walk.old → IsReady self.now.program.now walk.new }
        ensures is { let p = self.now.program.now in IsFinding self.now → IsReady p walk.old → (q : MethodName) → IsNameOf self.now q named → class < length p.classes
            → IfOk result (λ o. o ≡ agreed_under p q class) }
    {
        let target = match self.find(alloc, class, named, walk)? {
            Some(target) => target,
            None => return Ok(None),
        };
        let below = self.hierarchy.own_subclasses(alloc, class)?;
        self.agreed_on(alloc, below.as_slice(), named, target, walk)
    }

    /// The one method that objects of a class, which is no interface, and of all classes under it find.
    #[tactic(auto, using(crate::proofs::Handed::handed))]
    pub fn found_under(
        &self,
        alloc: Global,
        class: u32,
        named: Named,
        walk: &mut Walk,
    ) -> Result<Option<MethodAt>, AllocError>
        ensures ready { IsReady self.now.program.now walk.old → IsReady self.now.program.now walk.new }
        ensures is { let p = self.now.program.now in IsFinding self.now → IsReady p walk.old → (q : MethodName) → IsNameOf self.now q named → class < length p.classes → interface_at p class ≡ false
            → IfOk result (λ o. o ≡ agreed_under p q class) }
    {
        if !self.straight {
            return self.found_by_each(alloc, class, named, walk);
        }
        match self.hierarchy.find_virtual(self.program, class, named.key) {
            Some(target) => Ok(self.handed_down(class, named, target)),
            None => self.found_by_each(alloc, class, named, walk),
        }
    }

    /// Whether a class other than the one that a call names defines a method with its key, so that there may be another method
    /// to call.
    pub fn has_other(&self, named: Named) -> bool
        ensures { let p = self.now.program.now in IsFinding self.now → (q : MethodName) → IsNameOf self.now q named → result ≡ has_other p q }
    {
        let own = self.hierarchy.place_of(named.kind);
        is_other_among(own, self.hierarchy.definers_of(named.key))
    }
}

/// Whether one of some classes isn't this one.
fn is_other_among(own: Option<u32>, definers: &[u32]) -> bool
    ensures { result ≡ list_any (is_other own) definers.now }
{
    definers.iter().any(|definer| own != Some(*definer))
}
