//! What calls and gets bring, by the facts of what they find.

ghost use Rattle.std.specs.Prelude.{◌≡◌, ◌<◌, ◌∷◌, [], ℕ, Some, fold, IfOk, slice_get};
ghost use Rattle.std.specs.Option.{option_copied};
ghost use Rattle.program_model.specs.Lookups.{method_at};
ghost use Rattle.class_defs.specs.Finding.{candidates, is_037};
ghost use Rattle.class_defs.specs.Members.{is_interface};
ghost use Rattle.class_defs.specs.Places.{super_place};
ghost use Rattle.const_prop.specs.Asked.{IsKnown, IsKeyOf, AreBelow, count_of};
ghost use Rattle.const_prop.specs.Given.{method_value, found_value, with_found, with_definer, by_found, virtual_value, receiver_value, among_value};
ghost use Rattle.const_prop.specs.Given.{above_value, super_value, kind_value, call_value, behind};
ghost use Rattle.const_prop.specs.Known.{field_in, field_value, is_quiet_field};

use dom_frame::Classes;
use domains::Value;
use facts::Facts;
use hierarchy::Hierarchy;
use insn_set::{Insn, InvokeKind};
use lattice_core::Lattice;
use program_model::{Flags, Method, MethodAt, Program, Version};
use std::alloc::{AllocError, Global};

/// What is asked for the values that calls and gets bring.
#[derive(Drop)]
pub(crate) struct Results<'a> {
    pub(crate) program: &'a Program,
    pub(crate) hierarchy: &'a Hierarchy,
    pub(crate) facts: &'a Facts,
    pub(crate) classes: Classes<'a>,
}

impl<'a> Results<'a> {
    /// The method at a place.
    pub(crate) fn method_at(&self, at: MethodAt) -> Option<&'a Method>
        ensures { option_copied result ≡ method_at self.now.program.now at }
    {
        let class = self.program.classes.as_slice().get(at.class as usize)?;
        class.methods.as_slice().get(at.place as usize)
    }

    /// What a method can give: anything where it has no code, or isn't there.
    fn of_method(&self, alloc: Global, method: Option<&Method>) -> Result<Value, AllocError>
        ensures { IfOk result (λ v. v ≡ method_value self.now.program.now self.now.facts.now (option_copied method.entry)) }
    {
        match method {
            Some(method) => match &method.body {
                Some(_) => self.facts.result(method.name).copy(alloc),
                None => Ok(Value::any()),
            },
            None => Ok(Value::any()),
        }
    }

    /// What a method that was found can give: anything where none was.
    pub(crate) fn of_found(
        &self,
        alloc: Global,
        found: Option<MethodAt>,
    ) -> Result<Value, AllocError>
        ensures { IfOk result (λ v. v ≡ found_value self.now.program.now self.now.facts.now found) }
    {
        match found {
            Some(at) => self.of_method(alloc, self.method_at(at)),
            None => Ok(Value::any()),
        }
    }

    /// What is known with what one more method can give.
    fn with_found(&self, alloc: Global, known: &Value, found: MethodAt) -> Result<Value, AllocError>
        ensures { IfOk result (λ v. v ≡ with_found self.now.program.now self.now.facts.now known.now found) }
    {
        let more = self.of_found(alloc, Some(found))?;
        known.join(alloc, &more)
    }

    /// What is known with what a class under another one defines.
    fn with_definer(
        &self,
        alloc: Global,
        class: u32,
        key: u32,
        known: &Value,
        definer: u32,
    ) -> Result<Value, AllocError>
        ensures { IsKnown self.now → (name proto : ℕ) → IsKeyOf self.now key name proto → class < count_of self.now → definer < count_of self.now
            → IfOk result (λ v. v ≡ with_definer self.now.program.now self.now.facts.now name proto class known.now definer) }
    {
        if definer != class && self.hierarchy.is_under(definer, class) {
            match self.hierarchy.own_virtual(self.program, definer, key) {
                Some(found) => self.with_found(alloc, known, found),
                None => known.copy(alloc),
            }
        } else {
            known.copy(alloc)
        }
    }

    /// What is known with what classes under another one define.
    fn with_definers(
        &self,
        alloc: Global,
        class: u32,
        key: u32,
        first: Value,
        definers: &[u32],
    ) -> Result<Value, AllocError>
        ensures { IsKnown self.now → (name proto : ℕ) → IsKeyOf self.now key name proto → class < count_of self.now
            → AreBelow (count_of self.now) definers.now → IfOk result (λ v. v ≡ fold (with_definer self.now.program.now self.now.facts.now name proto class) first definers.now) }
    {
        let mut known = first;
        for definer in definers {
            known = self.with_definer(alloc, class, key, &known, *definer)?;
        }
        Ok(known)
    }

    /// What a call on an object of a class of the program, or of one under it, can give, where the class has or inherits a
    /// virtual method: what this one gives, and what a class under the first one defines. Each class under it finds one of these.
    fn of_inherited(
        &self,
        alloc: Global,
        class: u32,
        key: u32,
        found: MethodAt,
    ) -> Result<Value, AllocError>
        ensures { IsKnown self.now → (name proto : ℕ) → IsKeyOf self.now key name proto → class < count_of self.now
            → IfOk result (λ v. v ≡ by_found self.now.program.now self.now.facts.now name proto class (Some found)) }
    {
        let first = self.of_found(alloc, Some(found))?;
        self.with_definers(alloc, class, key, first, self.hierarchy.definers_of(key))
    }

    /// What a call on an object of a class of the program, or of one under it, can give.
    fn of_virtual(&self, alloc: Global, class: u32, key: u32) -> Result<Value, AllocError>
        ensures { IsKnown self.now → (name proto : ℕ) → IsKeyOf self.now key name proto → class < count_of self.now
            → IfOk result (λ v. v ≡ virtual_value self.now.program.now self.now.facts.now name proto class) }
    {
        match self.hierarchy.find_virtual(self.program, class, key) {
            Some(found) => self.of_inherited(alloc, class, key, found),
            None => self.of_unfound(alloc, class, key),
        }
    }

    /// Whether the class at a place is an interface.
    pub(crate) fn is_interface(&self, class: u32) -> bool
        ensures { result ≡ is_interface (slice_get self.now.program.now.classes class) }
    {
        match self.program.classes.as_slice().get(class as usize) {
            Some(class) => class.flags.has(Flags::INTERFACE),
            None => false,
        }
    }

    /// What a virtual call can give that names a class of the program: anything where this is an interface, as the call may be
    /// made on any object then.
    fn of_receiver(&self, alloc: Global, class: u32, key: u32) -> Result<Value, AllocError>
        ensures { IsKnown self.now → (name proto : ℕ) → IsKeyOf self.now key name proto → class < count_of self.now
            → IfOk result (λ v. v ≡ receiver_value self.now.program.now self.now.facts.now name proto class) }
    {
        if self.is_interface(class) {
            Ok(Value::any())
        } else {
            self.of_virtual(alloc, class, key)
        }
    }

    /// What is known with what some candidates can give.
    fn with_candidates(
        &self,
        alloc: Global,
        first: Value,
        candidates: &[MethodAt],
    ) -> Result<Value, AllocError>
        ensures { IfOk result (λ v. v ≡ fold (with_found self.now.program.now self.now.facts.now) first candidates.now) }
    {
        let mut known = first;
        for candidate in candidates {
            known = self.with_found(alloc, &known, *candidate)?;
        }
        Ok(known)
    }

    /// What some candidates can give, anything where there is none.
    fn of_candidates(&self, alloc: Global, candidates: &[MethodAt]) -> Result<Value, AllocError>
        ensures { IfOk result (λ v. v ≡ among_value self.now.program.now self.now.facts.now candidates.now) }
    {
        match candidates {
            [] => Ok(Value::any()),
            _ => self.with_candidates(alloc, Value::none(), candidates),
        }
    }

    /// What a super call of an interface of the program can give: what one of its candidates gives.
    fn of_interface(&self, alloc: Global, class: u32, key: u32) -> Result<Value, AllocError>
        ensures { IsKnown self.now → (name proto : ℕ) → IsKeyOf self.now key name proto
            → IfOk result (λ v. v ≡ among_value self.now.program.now self.now.facts.now (candidates self.now.program.now (class ∷ []) name proto)) }
    {
        let mut walk = self.hierarchy.walk(alloc)?;
        let mut candidates = Vec::new(alloc);
        self.hierarchy
            .candidates_of(self.program, class, key, &mut walk, &mut candidates)?;
        self.of_candidates(alloc, &candidates)
    }

    /// Whether the program is of version 037.
    pub(crate) fn is_037(&self) -> bool
        ensures { result ≡ is_037 self.now.program.now.version }
    {
        match self.program.version {
            Version::V035 => false,
            Version::V037 => true,
        }
    }

    /// What a call can give that is found from the superclass of a class on.
    fn of_above(&self, alloc: Global, caller: u32, key: u32) -> Result<Value, AllocError>
        ensures { IsKnown self.now → (name proto : ℕ) → IsKeyOf self.now key name proto
            → IfOk result (λ v. v ≡ above_value self.now.program.now self.now.facts.now name proto (super_place self.now.program.now caller)) }
    {
        match self.hierarchy.super_of(caller) {
            Some(above) => self.of_found(alloc, self.hierarchy.find_from(above, key)),
            None => Ok(Value::any()),
        }
    }

    /// What a super call can give, from the superclass of the calling class on.
    fn of_super(
        &self,
        alloc: Global,
        caller: u32,
        class: u32,
        key: u32,
    ) -> Result<Value, AllocError>
        ensures { IsKnown self.now → (name proto : ℕ) → IsKeyOf self.now key name proto
            → IfOk result (λ v. v ≡ super_value self.now.program.now self.now.facts.now caller name proto class) }
    {
        if self.is_interface(class) && self.is_037() {
            self.of_interface(alloc, class, key)
        } else {
            self.of_above(alloc, caller, key)
        }
    }

    /// What a call of a kind can give that names a class of the program.
    fn of_kind(
        &self,
        alloc: Global,
        caller: u32,
        kind: InvokeKind,
        class: u32,
        key: u32,
    ) -> Result<Value, AllocError>
        ensures { IsKnown self.now → (name proto : ℕ) → IsKeyOf self.now key name proto → class < count_of self.now
            → IfOk result (λ v. v ≡ kind_value self.now.program.now self.now.facts.now caller kind name proto class) }
    {
        match kind {
            InvokeKind::Static | InvokeKind::Direct => {
                self.of_found(alloc, self.hierarchy.find_from(class, key))
            }
            InvokeKind::Super => self.of_super(alloc, caller, class, key),
            InvokeKind::Virtual => self.of_receiver(alloc, class, key),
            InvokeKind::Interface => Ok(Value::any()),
        }
    }

    /// What a call in a method of a class can give: anything where it may find a method without code, or none.
    pub(crate) fn of_call(
        &self,
        alloc: Global,
        caller: u32,
        kind: InvokeKind,
        method: u32,
    ) -> Result<Value, AllocError>
        ensures { IsKnown self.now → IfOk result (λ v. v ≡ call_value self.now.program.now self.now.facts.now caller kind method) }
    {
        let name = match self.program.methods.as_slice().get(method as usize) {
            Some(name) => name,
            None => return Ok(Value::any()),
        };
        match self.hierarchy.place_of(name.class) {
            Some(class) => {
                let key = self.hierarchy.key_of_method(method);
                self.of_kind(alloc, caller, kind, class, key)
            }
            None => Ok(Value::any()),
        }
    }

    /// What a move of a result behind an instruction brings.
    pub(crate) fn behind(
        &self,
        alloc: Global,
        caller: u32,
        insn: Option<&Insn>,
    ) -> Result<Value, AllocError>
        ensures { IsKnown self.now → IfOk result (λ v. v ≡ behind self.now.program.now self.now.facts.now caller (option_copied insn.entry)) }
    {
        match insn {
            Some(Insn::Invoke { kind, method, .. }) => self.of_call(alloc, caller, *kind, *method),
            _ => Ok(Value::any()),
        }
    }

    /// What a get brings of a field at a place of a class: anything where there is none.
    fn of_place(&self, alloc: Global, class: u32, place: u32) -> Result<Value, AllocError>
        ensures { IfOk result (λ v. v ≡ field_in self.now.facts.now (slice_get self.now.program.now.classes class) place) }
    {
        match self.program.classes.as_slice().get(class as usize) {
            Some(class) => match class.fields.as_slice().get(place as usize) {
                Some(field) => self.facts.field(field.name).copy(alloc),
                None => Ok(Value::any()),
            },
            None => Ok(Value::any()),
        }
    }

    /// What a get of a field brings: anything where the program defines none.
    pub(crate) fn of_field(&self, alloc: Global, field: u32) -> Result<Value, AllocError>
        ensures { IsKnown self.now → IfOk result (λ v. v ≡ field_value self.now.program.now self.now.facts.now field) }
    {
        match self.hierarchy.resolve_field(self.program, field) {
            Some((class, place)) => self.of_place(alloc, class, place),
            None => Ok(Value::any()),
        }
    }

    /// Whether a field is one of a program class whose initialisation runs no code.
    pub(crate) fn is_quiet_field(&self, field: u32) -> bool
        ensures { IsKnown self.now → result ≡ is_quiet_field self.now.program.now field }
    {
        match self.hierarchy.resolve_field(self.program, field) {
            Some((class, _)) => self.hierarchy.trivially_initialised(self.program, class),
            None => false,
        }
    }
}
