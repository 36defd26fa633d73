//! Kept virtual methods above a class: the framework that calls one on an object enters what the object's class finds.

ghost use Rattle.std.specs.Prelude.{ℕ, ◌≡◌, Some, slice_get, IfOk};
ghost use Rattle.std.specs.List.{list_any};
ghost use Rattle.program_model.specs.declared.pass.Outside.{Outside};
ghost use Rattle.program_model.specs.declared.pools.MethodName.{MethodName};
ghost use Rattle.dalvik_lookups.specs.Tables.{IsRight};
ghost use Rattle.dalvik_lookups.specs.Views.{type_text, IsKind};
ghost use Rattle.dalvik_lookups.specs.Walks.{IsKept};
ghost use Rattle.dalvik_lookups.specs.Reached.{is_kept_at, keeps_virtual, keeps_over, has_keeper, IsOuter, KnowsKey};

use crate::lookups::Lookups;
use crate::memo::Memo;
use crate::types::Kind;
use program_model::MethodAt;
use std::alloc::AllocError;

impl<'a> Lookups<'a> {
    /// Whether the method at a place is kept.
    fn keeps_at(&self, at: Option<MethodAt>) -> bool
        ensures { (o : Outside) → IsOuter self.now.program.now o self.now.outer → result ≡ is_kept_at self.now.program.now o at }
    {
        match at {
            Some(place) => match self.method(place) {
                Some(method) => self.outer.keeps_method(method.name),
                None => false,
            },
            None => false,
        }
    }

    /// Whether the class at a place has a kept virtual method of a key.
    fn keeps_virtual(&self, class: u32, key: u32) -> bool
        ensures { (o : Outside) (name proto : ℕ) → KnowsKey self.now o key name proto → result ≡ keeps_virtual self.now.program.now o name proto class }
    {
        self.keeps_at(self.hierarchy.own_virtual(self.program, class, key))
    }

    /// Whether the class at a place has a kept virtual method of a key, and a type stands under the class.
    fn keeps_over(
        &self,
        memo: &mut Memo,
        lower: Kind,
        class: u32,
        key: u32,
    ) -> Result<bool, AllocError>
        ensures kept { (o : Outside) (name proto : ℕ) → KnowsKey self.now o key name proto → IsKept self.now memo.old → IsKind self.now.types lower → IsKept self.now memo.new }
        ensures is { (o : Outside) (name proto : ℕ) → KnowsKey self.now o key name proto → IsKept self.now memo.old → IsKind self.now.types lower
            → IfOk result (λ b. b ≡ keeps_over self.now.program.now self.now.framework.now o name proto (type_text self.now.types lower) class) }
    {
        if self.keeps_virtual(class, key) {
            self.is_under(memo, lower, self.kind_of_class(class))
        } else {
            Ok(false)
        }
    }

    /// Whether one of these classes has a kept virtual method of a key, and a type stands under it.
    fn keeps_over_any(
        &self,
        memo: &mut Memo,
        lower: Kind,
        classes: &[u32],
        key: u32,
    ) -> Result<bool, AllocError>
        ensures kept { (o : Outside) (name proto : ℕ) → KnowsKey self.now o key name proto → IsKept self.now memo.old → IsKind self.now.types lower → IsKept self.now memo.new }
        ensures is { (o : Outside) (name proto : ℕ) → KnowsKey self.now o key name proto → IsKept self.now memo.old → IsKind self.now.types lower
            → IfOk result (λ b. b ≡ list_any (keeps_over self.now.program.now self.now.framework.now o name proto (type_text self.now.types lower)) classes.now) }
    {
        for class in classes {
            if self.keeps_over(memo, lower, *class, key)? {
                return Ok(true);
            }
        }
        Ok(false)
    }

    /// Whether a type stands under a class with a kept virtual method of the name and the proto of a method number.
    pub fn has_keeper(&self, memo: &mut Memo, lower: Kind, method: u32) -> Result<bool, AllocError>
        ensures kept { (o : Outside) (q : MethodName) → IsRight self.now → IsOuter self.now.program.now o self.now.outer → IsKept self.now memo.old → IsKind self.now.types lower
            → slice_get self.now.program.now.methods method ≡ Some q → IsKept self.now memo.new }
        ensures is { (o : Outside) (q : MethodName) → IsRight self.now → IsOuter self.now.program.now o self.now.outer → IsKept self.now memo.old → IsKind self.now.types lower
            → slice_get self.now.program.now.methods method ≡ Some q → IfOk result (λ b. b ≡ has_keeper self.now.program.now self.now.framework.now o q.name q.proto (type_text self.now.types lower)) }
    {
        let key = self.hierarchy.key_of_method(method);
        let found = self.keeps_over_any(memo, lower, self.hierarchy.definers_of(key), key)?;
        Ok(found)
    }
}
