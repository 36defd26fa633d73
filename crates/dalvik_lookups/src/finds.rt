//! What a call finds.

ghost use Rattle.std.specs.Prelude.{◌≡◌, ◌∷◌, [], ℕ, Some, None, flat_map, slice_get, IfOk};
ghost use Rattle.program_model.specs.declared.pools.MethodName.{MethodName};
ghost use Rattle.program_model.specs.declared.program.Class.{Class};
ghost use Rattle.class_defs.specs.Finding.{finds_static, finds_at, finds_among, finds_above, finds_super, finds_super_of, finds_super_037, verdict, lowest};
ghost use Rattle.class_defs.specs.Finding as look;
ghost use Rattle.program_model.specs.Lookups.{class_place};
ghost use Rattle.class_defs.specs.Places.{interface_places, chain_of};
ghost use Rattle.hierarchy.specs.Giving as giving;
ghost use Rattle.hierarchy.specs.Naming.{IsKey};
ghost use Rattle.dalvik_lookups.specs.Tables.{search_of, place_named, IsRight};
ghost use Rattle.dalvik_lookups.specs.Views.{type_text, IsKind};
ghost use Rattle.dalvik_lookups.specs.Walks.{search_by, found_at, found_of, IsKept};

use crate::listing::lists_above;
use crate::lookups::Lookups;
use crate::memo::Memo;
use crate::types::Kind;
use hierarchy::Given;
use program_model::{MethodAt, Version};
use std::alloc::{AllocError, Global};

/// What a look-up answers: none, several methods that clash, or one.
#[derive(Clone, Copy, PartialEq, Eq, Drop)]
pub enum Search {
    Nothing,
    Clash,
    Finds(MethodAt),
}

/// A method that was looked for along superclasses.
fn search_of(found: Option<MethodAt>) -> Search
    ensures is { result ≡ search_of found }
    ensures by { result ≡ search_by (look.search_of found) }
{
    match found {
        Some(at) => Search::Finds(at),
        None => Search::Nothing,
    }
}

/// What candidates give.
fn search_given(given: Given) -> Search
    ensures { result ≡ search_by (giving.search_given given) }
{
    match given {
        Given::Nothing => Search::Nothing,
        Given::One(at) => Search::Finds(at),
        Given::Clash => Search::Clash,
    }
}

impl<'a> Lookups<'a> {
    /// What a static or direct call of a method number finds.
    pub fn statically(&self, method: u32) -> Search
        ensures { IsRight self.now → result ≡ search_of (finds_static self.now.program.now method) }
    {
        search_of(self.hierarchy.find_static(self.program, method))
    }

    /// What the candidates give that `memo` has collected.
    fn given(&self, memo: &mut Memo) -> Result<Search, AllocError>
        ensures kept { IsKept self.now memo.old → IsKept self.now memo.new }
        ensures is { IsRight self.now → IsKept self.now memo.old → IfOk result (λ s. s ≡ search_by (verdict (lowest self.now.program.now memo.old.found.items))) }
    {
        let given = self
            .hierarchy
            .given(self.program, memo.found.as_slice(), &mut memo.walk)?;
        Ok(search_given(given))
    }

    /// What the candidates of the interfaces of a class and of its superclasses give.
    fn find_candidate(&self, memo: &mut Memo, class: u32, key: u32) -> Result<Search, AllocError>
        ensures kept { IsKept self.now memo.old → IsKept self.now memo.new }
        ensures is { (name proto : ℕ) → IsRight self.now → IsKept self.now memo.old → IsKey self.now.program.now self.now.hierarchy key name proto → IfOk result (λ s. s ≡ search_by (finds_among self.now.program.now (flat_map (interface_places self.now.program.now) (chain_of self.now.program.now (Some class))) name proto)) }
    {
        memo.found.clear();
        self.hierarchy
            .candidates(self.program, class, key, &mut memo.walk, &mut memo.found)?;
        let found = self.given(memo)?;
        Ok(found)
    }

    /// What a virtual call of a name and proto finds at a receiver's class.
    fn find_at(&self, memo: &mut Memo, class: u32, key: u32) -> Result<Search, AllocError>
        ensures kept { IsKept self.now memo.old → IsKept self.now memo.new }
        ensures is { (name proto : ℕ) → IsRight self.now → IsKept self.now memo.old → IsKey self.now.program.now self.now.hierarchy key name proto → IfOk result (λ s. s ≡ search_by (finds_at self.now.program.now class name proto)) }
    {
        match self.hierarchy.find_virtual(self.program, class, key) {
            Some(at) => Ok(Search::Finds(at)),
            None => {
                let found = self.find_candidate(memo, class, key)?;
                Ok(found)
            }
        }
    }

    /// What a virtual or interface call of a method number finds at a receiver's class, where that is under the class
    /// that the call names.
    fn find_virtually(&self, memo: &mut Memo, class: u32, method: u32) -> Result<Search, AllocError>
        ensures kept { (c : Class) (q : MethodName) → IsRight self.now → IsKept self.now memo.old → slice_get self.now.program.now.classes class ≡ Some c → slice_get self.now.program.now.methods method ≡ Some q → IsKept self.now memo.new }
        ensures is { (c : Class) (q : MethodName) → IsRight self.now → IsKept self.now memo.old → slice_get self.now.program.now.classes class ≡ Some c → slice_get self.now.program.now.methods method ≡ Some q → IfOk result (λ s. s ≡ found_at self.now class q) }
    {
        let receiver = self.kind_of_class(class);
        let named = self.class_of_method(method);
        if self.is_under(memo, receiver, named)? {
            let found = self.find_at(memo, class, self.hierarchy.key_of_method(method))?;
            Ok(found)
        } else {
            Ok(Search::Nothing)
        }
    }

    /// What a virtual or interface call of a method number finds at a class. What the call found last time is kept.
    fn virtually_at(&self, memo: &mut Memo, class: u32, method: u32) -> Result<Search, AllocError>
        ensures kept { (c : Class) (q : MethodName) → IsRight self.now → IsKept self.now memo.old → slice_get self.now.program.now.classes class ≡ Some c → slice_get self.now.program.now.methods method ≡ Some q → IsKept self.now memo.new }
        ensures is { (c : Class) (q : MethodName) → IsRight self.now → IsKept self.now memo.old → slice_get self.now.program.now.classes class ≡ Some c → slice_get self.now.program.now.methods method ≡ Some q → IfOk result (λ s. s ≡ found_at self.now class q) }
    {
        match memo.virtual_at(class, method) {
            Some(found) => Ok(found),
            None => {
                let found = self.find_virtually(memo, class, method)?;
                memo.keep_virtual(class, method, found);
                Ok(found)
            }
        }
    }

    /// What a virtual or interface call of a method number finds at a receiver's type, nothing where no class of the
    /// program has the type.
    pub fn virtually(
        &self,
        memo: &mut Memo,
        receiver: Kind,
        method: u32,
    ) -> Result<Search, AllocError>
        ensures kept { (q : MethodName) → IsRight self.now → IsKept self.now memo.old → IsKind self.now.types receiver → slice_get self.now.program.now.methods method ≡ Some q → IsKept self.now memo.new }
        ensures is { (q : MethodName) → IsRight self.now → IsKept self.now memo.old → IsKind self.now.types receiver → slice_get self.now.program.now.methods method ≡ Some q → IfOk result (λ s. s ≡ found_of self.now (place_named self.now.program.now (type_text self.now.types receiver)) q) }
    {
        match self.class_at(receiver) {
            Some(class) => {
                let found = self.virtually_at(memo, class, method)?;
                Ok(found)
            }
            None => Ok(Search::Nothing),
        }
    }

    /// The first method of a number's name and proto along the superclasses of a class.
    fn find_above(&self, class: u32, method: u32) -> Search
        ensures { IsRight self.now → (q : MethodName) → slice_get self.now.program.now.methods method ≡ Some q → result ≡ search_by (finds_above self.now.program.now class q) }
    {
        match self.hierarchy.super_of(class) {
            Some(above) => search_of(
                self.hierarchy
                    .find_from(above, self.hierarchy.key_of_method(method)),
            ),
            None => Search::Nothing,
        }
    }

    /// What the candidates of one interface give.
    fn find_among(&self, memo: &mut Memo, interface: u32, method: u32) -> Result<Search, AllocError>
        ensures kept { IsKept self.now memo.old → IsKept self.now memo.new }
        ensures is { (q : MethodName) → IsRight self.now → IsKept self.now memo.old → slice_get self.now.program.now.methods method ≡ Some q → IfOk result (λ s. s ≡ search_by (finds_among self.now.program.now (interface ∷ []) q.name q.proto)) }
    {
        memo.found.clear();
        let key = self.hierarchy.key_of_method(method);
        self.hierarchy.candidates_of(
            self.program,
            interface,
            key,
            &mut memo.walk,
            &mut memo.found,
        )?;
        let found = self.given(memo)?;
        Ok(found)
    }

    /// What a super call of version 037 that names no class of the program finds, where `kind` is the type that it names:
    /// nothing if an interface list of the class or above it has the type.
    fn find_super_outside(
        &self,
        memo: &mut Memo,
        class: u32,
        method: u32,
        kind: u32,
    ) -> Result<Search, AllocError>
        ensures kept { IsKept self.now memo.old → IsKept self.now memo.new }
        ensures is { (q : MethodName) → IsRight self.now → IsKept self.now memo.old → slice_get self.now.program.now.methods method ≡ Some q → kind ≡ q.class → IfOk result (λ s. s ≡ search_by (finds_super_037 self.now.program.now class q None)) }
    {
        if lists_above(self.program, &self.hierarchy, class, kind, &mut memo.walk)? {
            Ok(Search::Nothing)
        } else {
            Ok(self.find_above(class, method))
        }
    }

    /// What a super call of version 037 that names a class of the program finds.
    fn find_super_inside(
        &self,
        memo: &mut Memo,
        class: u32,
        method: u32,
        named: u32,
    ) -> Result<Search, AllocError>
        ensures kept { IsKept self.now memo.old → IsKept self.now memo.new }
        ensures is { (q : MethodName) → IsRight self.now → IsKept self.now memo.old → slice_get self.now.program.now.methods method ≡ Some q → IfOk result (λ s. s ≡ search_by (finds_super_037 self.now.program.now class q (Some named))) }
    {
        if self.is_interface(named) {
            let found = self.find_among(memo, named, method)?;
            Ok(found)
        } else {
            Ok(self.find_above(class, method))
        }
    }

    /// What a super call of version 037 finds, where `kind` is the type that it names.
    fn find_super_037(
        &self,
        memo: &mut Memo,
        class: u32,
        method: u32,
        kind: u32,
    ) -> Result<Search, AllocError>
        ensures kept { IsKept self.now memo.old → IsKept self.now memo.new }
        ensures is { (q : MethodName) → IsRight self.now → IsKept self.now memo.old → slice_get self.now.program.now.methods method ≡ Some q → kind ≡ q.class → IfOk result (λ s. s ≡ search_by (finds_super_037 self.now.program.now class q (class_place self.now.program.now q.class))) }
    {
        match self.hierarchy.place_of(kind) {
            Some(named) => {
                let found = self.find_super_inside(memo, class, method, named)?;
                Ok(found)
            }
            None => {
                let found = self.find_super_outside(memo, class, method, kind)?;
                Ok(found)
            }
        }
    }

    /// What a super call of a method number finds in a class, where `kind` is the type that it names.
    fn find_super_of(
        &self,
        memo: &mut Memo,
        class: u32,
        method: u32,
        kind: u32,
    ) -> Result<Search, AllocError>
        ensures kept { IsKept self.now memo.old → IsKept self.now memo.new }
        ensures is { (q : MethodName) → IsRight self.now → IsKept self.now memo.old → slice_get self.now.program.now.methods method ≡ Some q → kind ≡ q.class → IfOk result (λ s. s ≡ search_by (finds_super_of self.now.program.now class (Some q))) }
    {
        match self.program.version {
            Version::V035 => Ok(self.find_above(class, method)),
            Version::V037 => {
                let found = self.find_super_037(memo, class, method, kind)?;
                Ok(found)
            }
        }
    }

    /// What a super call of a method number finds in a class.
    fn find_super(&self, memo: &mut Memo, class: u32, method: u32) -> Result<Search, AllocError>
        ensures kept { IsKept self.now memo.old → IsKept self.now memo.new }
        ensures is { IsRight self.now → IsKept self.now memo.old → IfOk result (λ s. s ≡ search_by (finds_super self.now.program.now class method)) }
    {
        match self.method_name(method) {
            Some(name) => {
                let found = self.find_super_of(memo, class, method, name.class)?;
                Ok(found)
            }
            None => Ok(Search::Nothing),
        }
    }

    /// What a super call of a method number finds in a class. What the call found last time is kept.
    pub fn from_super(&self, memo: &mut Memo, class: u32, method: u32) -> Result<Search, AllocError>
        ensures kept { IsRight self.now → IsKept self.now memo.old → IsKept self.now memo.new }
        ensures is { IsRight self.now → IsKept self.now memo.old → IfOk result (λ s. s ≡ search_by (finds_super self.now.program.now class method)) }
    {
        match memo.super_at(class, method) {
            Some(found) => Ok(found),
            None => {
                let found = self.find_super(memo, class, method)?;
                memo.keep_super(class, method, found);
                Ok(found)
            }
        }
    }
}
