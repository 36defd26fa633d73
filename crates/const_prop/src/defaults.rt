//! What objects of a class and of the classes under it find by a key for which the class has no virtual method and inherits
//! none: what each has itself or inherits, or what its interfaces give.

ghost use Rattle.std.specs.Prelude.{◌≡◌, ◌<◌, ℕ, None, Some, fold, flat_map, IfOk};
ghost use Rattle.std.specs.List.{list_any};
ghost use Rattle.program_model.specs.Lookups.{method_at};
ghost use Rattle.class_defs.specs.Finding.{finds_virtual, finds_among, finds_at};
ghost use Rattle.class_defs.specs.Members.{has_code};
ghost use Rattle.class_defs.specs.Places.{chain_of, interface_places};
ghost use Rattle.hierarchy.specs.Giving.{search_given};
ghost use Rattle.hierarchy.specs.Touring.{subclasses_of};
ghost use Rattle.receivers.specs.Receiving.{IsReady};
ghost use Rattle.const_prop.specs.Asked.{IsKnown, IsKeyOf, count_of};
ghost use Rattle.const_prop.specs.Defaults.{is_default, has_default};
ghost use Rattle.const_prop.specs.Given.{search_value, with_class, by_search, by_found};

use crate::results::Results;
use domains::Value;
use hierarchy::{Given, Walk};
use lattice_core::Lattice;
use program_model::MethodAt;
use std::alloc::{AllocError, Global};

impl Results<'_> {
    /// Whether the method at a place has code.
    fn has_code(&self, at: MethodAt) -> bool
        ensures { result ≡ has_code (method_at self.now.program.now at) }
    {
        match self.method_at(at) {
            Some(method) => method.body.is_some(),
            None => false,
        }
    }

    /// Whether a class is an interface that has code for a key.
    fn is_default(&self, key: u32, class: u32) -> bool
        ensures { IsKnown self.now → (name proto : ℕ) → IsKeyOf self.now key name proto → result ≡ is_default self.now.program.now name proto class }
    {
        if !self.is_interface(class) {
            return false;
        }
        match self.hierarchy.own_virtual(self.program, class, key) {
            Some(found) => self.has_code(found),
            None => false,
        }
    }

    /// Whether one of some classes is an interface that has code for a key.
    fn is_one_default(&self, key: u32, classes: &[u32]) -> bool
        ensures { IsKnown self.now → (name proto : ℕ) → IsKeyOf self.now key name proto → result ≡ list_any (is_default self.now.program.now name proto) classes.now }
    {
        for class in classes {
            if self.is_default(key, *class) {
                return true;
            }
        }
        false
    }

    /// Whether a class may find the method of an interface by a key.
    fn has_default(&self, key: u32) -> bool
        ensures { IsKnown self.now → (name proto : ℕ) → IsKeyOf self.now key name proto → result ≡ has_default self.now.program.now name proto }
    {
        if !self.is_037() {
            return false;
        }
        self.is_one_default(key, self.hierarchy.definers_of(key))
    }

    /// What the candidates of the interfaces above a class give.
    fn find_candidate(
        &self,
        alloc: Global,
        class: u32,
        key: u32,
        walk: &mut Walk,
    ) -> Result<Given, AllocError>
        ensures ready { IsReady self.now.program.now walk.old → IsReady self.now.program.now walk.new }
        ensures is { let p = self.now.program.now in IsKnown self.now → IsReady p walk.old → (name proto : ℕ) → IsKeyOf self.now key name proto
            → IfOk result (λ g. search_given g ≡ finds_among p (flat_map (interface_places p) (chain_of p (Some class))) name proto) }
    {
        let mut candidates = Vec::new(alloc);
        self.hierarchy
            .candidates(self.program, class, key, walk, &mut candidates)?;
        self.hierarchy
            .given(self.program, candidates.as_slice(), walk)
    }

    /// What an object of a class finds.
    fn find(
        &self,
        alloc: Global,
        class: u32,
        key: u32,
        walk: &mut Walk,
    ) -> Result<Given, AllocError>
        ensures ready { IsReady self.now.program.now walk.old → IsReady self.now.program.now walk.new }
        ensures is { let p = self.now.program.now in IsKnown self.now → IsReady p walk.old → (name proto : ℕ) → IsKeyOf self.now key name proto
            → IfOk result (λ g. search_given g ≡ finds_at p class name proto) }
    {
        match self.hierarchy.find_virtual(self.program, class, key) {
            Some(found) => Ok(Given::One(found)),
            None => self.find_candidate(alloc, class, key, walk),
        }
    }

    /// What a look-up gives: anything where it finds nothing, and nothing where candidates clash.
    fn of_given(&self, alloc: Global, given: Given) -> Result<Value, AllocError>
        ensures { IfOk result (λ v. v ≡ search_value self.now.program.now self.now.facts.now (search_given given)) }
    {
        match given {
            Given::Nothing => Ok(Value::any()),
            Given::One(found) => self.of_found(alloc, Some(found)),
            Given::Clash => Ok(Value::none()),
        }
    }

    /// What is known with what an object of one class more finds.
    fn with_class(
        &self,
        alloc: Global,
        key: u32,
        known: &Value,
        class: u32,
        walk: &mut Walk,
    ) -> Result<Value, AllocError>
        ensures ready { IsReady self.now.program.now walk.old → IsReady self.now.program.now walk.new }
        ensures is { let p = self.now.program.now in IsKnown self.now → IsReady p walk.old → (name proto : ℕ) → IsKeyOf self.now key name proto
            → IfOk result (λ v. v ≡ with_class p self.now.facts.now name proto known.now class) }
    {
        let given = self.find(alloc, class, key, walk)?;
        let more = self.of_given(alloc, given)?;
        known.join(alloc, &more)
    }

    /// What is known with what objects of some classes find.
    fn with_classes(
        &self,
        alloc: Global,
        key: u32,
        first: Value,
        classes: &[u32],
        walk: &mut Walk,
    ) -> Result<Value, AllocError>
        ensures { let p = self.now.program.now in IsKnown self.now → IsReady p walk.old → (name proto : ℕ) → IsKeyOf self.now key name proto
            → IfOk result (λ v. v ≡ fold (with_class p self.now.facts.now name proto) first classes.now) }
    {
        let mut known = first;
        for class in classes {
            known = self.with_class(alloc, key, &known, *class, walk)?;
        }
        Ok(known)
    }

    /// What is known with what objects of the other classes under one find.
    fn with_subclasses(
        &self,
        alloc: Global,
        class: u32,
        key: u32,
        first: Value,
        walk: &mut Walk,
    ) -> Result<Value, AllocError>
        ensures { let p = self.now.program.now in IsKnown self.now → IsReady p walk.old → (name proto : ℕ) → IsKeyOf self.now key name proto → class < count_of self.now
            → IfOk result (λ v. v ≡ fold (with_class p self.now.facts.now name proto) first (subclasses_of p class)) }
    {
        let below = self.hierarchy.own_subclasses(alloc, class)?;
        self.with_classes(alloc, key, first, below.as_slice(), walk)
    }

    /// What objects of a class and of the others under it find, by what one of the class finds: anything where that is nothing.
    fn by_given(
        &self,
        alloc: Global,
        class: u32,
        key: u32,
        given: Given,
        walk: &mut Walk,
    ) -> Result<Value, AllocError>
        ensures { let p = self.now.program.now in IsKnown self.now → IsReady p walk.old → (name proto : ℕ) → IsKeyOf self.now key name proto → class < count_of self.now
            → IfOk result (λ v. v ≡ by_search p self.now.facts.now name proto (subclasses_of p class) (search_given given)) }
    {
        match given {
            Given::Nothing => Ok(Value::any()),
            Given::One(found) => {
                let first = self.of_found(alloc, Some(found))?;
                self.with_subclasses(alloc, class, key, first, walk)
            }
            Given::Clash => self.with_subclasses(alloc, class, key, Value::none(), walk),
        }
    }

    /// What objects of a class and of the others under it find.
    fn of_classes(&self, alloc: Global, class: u32, key: u32) -> Result<Value, AllocError>
        ensures { let p = self.now.program.now in IsKnown self.now → (name proto : ℕ) → IsKeyOf self.now key name proto → class < count_of self.now
            → IfOk result (λ v. v ≡ by_search p self.now.facts.now name proto (subclasses_of p class) (finds_at p class name proto)) }
    {
        let mut walk = self.hierarchy.walk(alloc)?;
        let given = self.find(alloc, class, key, &mut walk)?;
        self.by_given(alloc, class, key, given, &mut walk)
    }

    /// What a call can give on an object of a class that neither has nor inherits a virtual method for its key, or of a class
    /// under it. The classes are gone through only where one may find the method of an interface: else this one finds nothing.
    pub(crate) fn of_unfound(
        &self,
        alloc: Global,
        class: u32,
        key: u32,
    ) -> Result<Value, AllocError>
        ensures { let p = self.now.program.now in IsKnown self.now → (name proto : ℕ) → IsKeyOf self.now key name proto → class < count_of self.now
            → finds_virtual p name proto class ≡ None → IfOk result (λ v. v ≡ by_found p self.now.facts.now name proto class None) }
    {
        if !self.has_default(key) {
            return Ok(Value::any());
        }
        self.of_classes(alloc, class, key)
    }
}
