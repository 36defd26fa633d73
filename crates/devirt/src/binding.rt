//! To which method a call is bound.

ghost use Rattle.std.specs.Prelude.{◌≡◌, ◌<◌, true, None, Some, length, nat_lt, IfOk, MatchOption, slice_get};
ghost use Rattle.std.specs.List.{list_all};
ghost use Rattle.std.specs.Option.{option_copied};
ghost use Rattle.program_model.specs.Lookups.{method_at};
ghost use Rattle.program_model.specs.declared.pools.MethodName.{MethodName};
ghost use Rattle.class_defs.specs.Places.{is_under};
ghost use Rattle.hierarchy.specs.Shapes.{IsOf, IsResolved};
ghost use Rattle.verify.specs.Building.{class_above};
ghost use Rattle.receivers.specs.Receiving.{interface_at, is_at, IsFinding, IsNameOf, IsReady};
ghost use Rattle.devirt.specs.Asked.{IsBinding};
ghost use Rattle.devirt.specs.Binding.{kind_for, in_line, is_in_class, receives, default_of, may_rebind, is_same_name, may_call, bound_to, bound_above, are_places, by_places, by_classes, by_class, by_kind, bound_named, bound};

use crate::access::may_reach;
use domains::Value;
use hierarchy::Walk;
use insn_set::InvokeKind;
use program_model::{Class, Flags, Method, MethodAt, MethodName};
use receivers::{Finder, Named};
use std::alloc::{AllocError, Global};
use verify::Kind;

/// A virtual or interface call: the place of the class that it stands in, its kind, the method number that it names, and the
/// kind of its receiver.
#[derive(Clone, Copy)]
pub(crate) struct Call {
    pub(crate) caller: u32,
    pub(crate) kind: InvokeKind,
    pub(crate) method: u32,
    pub(crate) receiver: Kind,
}

/// What a call is bound to.
#[derive(Clone, Copy, PartialEq, Eq, Debug, Drop)]
pub(crate) struct Bound {
    pub(crate) kind: InvokeKind,
    pub(crate) method: u32,
}

/// What the binding of calls asks.
#[derive(Drop)]
pub(crate) struct Binder<'a> {
    pub(crate) finder: Finder<'a>,
}

/// How a method of a class is called.
fn kind_of(interface: bool) -> InvokeKind
    ensures { result ≡ kind_for interface }
{
    if interface {
        InvokeKind::Interface
    } else {
        InvokeKind::Virtual
    }
}

/// Whether a method that was found, if there is one, is this one.
fn is_at(at: MethodAt, found: Option<MethodAt>) -> bool
    ensures { result ≡ is_at at found }
{
    match found {
        Some(other) => other.class == at.class && other.place == at.place,
        None => false,
    }
}

impl<'a> Binder<'a> {
    /// The class at a place.
    pub(crate) fn class_at(&self, place: u32) -> Option<&'a Class>
        ensures { option_copied result ≡ slice_get self.now.finder.program.now.classes place }
    {
        self.finder.program.classes.as_slice().get(place as usize)
    }

    /// The method at a place.
    pub(crate) fn method_at(&self, at: MethodAt) -> Option<&'a Method>
        ensures { option_copied result ≡ method_at self.now.finder.program.now at }
    {
        let class = self.class_at(at.class)?;
        class.methods.as_slice().get(at.place as usize)
    }

    /// Whether the class at a place is an interface.
    pub(crate) fn is_interface(&self, place: u32) -> bool
        ensures { result ≡ interface_at self.now.finder.program.now place }
    {
        match self.class_at(place) {
            Some(class) => class.flags.has(Flags::INTERFACE),
            None => false,
        }
    }

    /// The class directly above one: its superclass, none above an interface.
    fn class_above(&self, class: u32) -> Option<u32>
        ensures { IsOf self.now.finder.program.now self.now.finder.hierarchy.now → result ≡ class_above self.now.finder.program.now class }
    {
        if self.is_interface(class) {
            None
        } else {
            self.finder.hierarchy.super_of(class)
        }
    }

    /// Whether a class is another one, or stands under it by superclasses, none of them above an interface.
    fn in_line(&self, lower: u32, upper: u32) -> bool
        ensures { IsOf self.now.finder.program.now self.now.finder.hierarchy.now → result ≡ in_line self.now.finder.program.now lower upper }
    {
        let mut at = Some(lower);
        for done in 0..self.finder.program.classes.len() {
            let one = match at {
                Some(one) => one,
                None => break,
            };
            if one == upper {
                return true;
            }
            at = self.class_above(one);
        }
        false
    }

    /// Whether an object of a kind is one of a class that is no interface, or null.
    fn is_in_class(&self, kind: Kind, class: u32) -> bool
        ensures { IsOf self.now.finder.program.now self.now.finder.hierarchy.now → result ≡ is_in_class self.now.finder.program.now kind class }
    {
        match kind {
            Kind::Zero | Kind::Null => true,
            Kind::Program { class: lower } => self.in_line(lower, class),
            _ => false,
        }
    }

    /// Whether a receiver of a kind may be that of a call of a class's method: of an interface any object, and else one of
    /// the class.
    fn receives(&self, kind: Kind, class: u32) -> bool
        ensures { IsOf self.now.finder.program.now self.now.finder.hierarchy.now → result ≡ receives self.now.finder.program.now kind class }
    {
        if self.is_interface(class) {
            kind.is_initialised()
        } else {
            self.is_in_class(kind, class)
        }
    }

    /// The interface whose method with code a number names.
    fn default_of(&self, method: u32) -> Option<u32>
        ensures { IsResolved self.now.finder.program.now self.now.finder.hierarchy.now → result ≡ default_of self.now.finder.program.now method }
    {
        let at = self
            .finder
            .hierarchy
            .resolve_method(self.finder.program, method)?;
        let defined = self.method_at(at)?;
        if defined.body.is_some() && self.is_interface(at.class) {
            Some(at.class)
        } else {
            None
        }
    }

    /// Whether a call of a method number may go to a method of a class: from a method with code of an interface to another
    /// interface only where that one is under it.
    fn may_rebind(&self, method: u32, class: u32) -> bool
        ensures { IsResolved self.now.finder.program.now self.now.finder.hierarchy.now → class < length self.now.finder.program.now.classes
            → result ≡ may_rebind self.now.finder.program.now method class }
    {
        if !self.is_interface(class) {
            return true;
        }
        match self.default_of(method) {
            Some(interface) => self.finder.hierarchy.is_under(class, interface),
            None => true,
        }
    }

    /// Whether a method number is of the name and the proto of another one, and of the class that stands at a place.
    fn is_same_name(&self, old: &MethodName, class: u32, method: u32) -> bool
        ensures { IsOf self.now.finder.program.now self.now.finder.hierarchy.now
            → result ≡ is_same_name self.now.finder.program.now old.now class (slice_get self.now.finder.program.now.methods method) }
    {
        match self.finder.program.methods.as_slice().get(method as usize) {
            Some(new) => {
                new.name == old.name
                    && new.proto == old.proto
                    && self.finder.hierarchy.place_of(new.class) == Some(class)
            }
            None => false,
        }
    }

    /// Whether a call may go to a method of a class that its receivers find: it is the class's own and has code, the receiver is
    /// one for it, and the caller may reach it.
    fn may_call(
        &self,
        call: &Call,
        old: &MethodName,
        named: Named,
        target: MethodAt,
        method: &Method,
    ) -> bool
        ensures { IsFinding self.now.finder → IsNameOf self.now.finder old.now named → target.class < length self.now.finder.program.now.classes
            → result ≡ may_call self.now.finder.program.now call.now old.now target method.now }
    {
        let own = self
            .finder
            .hierarchy
            .own_virtual(self.finder.program, target.class, named.key);
        method.body.is_some()
            && is_at(target, own)
            && self.is_same_name(old, target.class, method.name)
            && self.receives(call.receiver, target.class)
            && self.may_rebind(call.method, target.class)
            && may_reach(
                self.finder.program,
                self.class_at(call.caller),
                self.class_at(target.class),
                method,
            )
            && self.falls(call.kind, named, target.class)
    }

    /// How a call goes to a method that its receivers find, where it may and that is another one.
    fn bound_to(
        &self,
        call: &Call,
        old: &MethodName,
        named: Named,
        target: MethodAt,
    ) -> Option<Bound>
        ensures { IsFinding self.now.finder → IsNameOf self.now.finder old.now named → target.class < length self.now.finder.program.now.classes
            → result ≡ bound_to self.now.finder.program.now call.now old.now target }
    {
        let method = self.method_at(target)?;
        if method.name == call.method || !self.may_call(call, old, named, target, method) {
            return None;
        }
        Some(Bound {
            kind: kind_of(self.is_interface(target.class)),
            method: method.name,
        })
    }

    /// Whether a class stands at a place.
    fn is_place(&self, class: u32) -> bool
        ensures { result ≡ nat_lt class (length self.now.finder.program.now.classes) }
    {
        (class as usize) < self.finder.program.classes.len()
    }

    /// Whether classes stand at all of some places.
    fn are_places(&self, classes: &[u32]) -> bool
        ensures { result ≡ are_places self.now.finder.program.now classes.now }
    {
        classes.iter().all(|class| self.is_place(*class))
    }

    /// Whether all of some classes stand under another one.
    fn are_under(&self, classes: &[u32], upper: u32) -> bool
        ensures { let p = self.now.finder.program.now in IsResolved p self.now.finder.hierarchy.now → are_places p classes.now ≡ true → upper < length p.classes
            → result ≡ list_all (λ c. is_under p c upper) classes.now }
    {
        for class in classes {
            if !self.finder.hierarchy.is_under(*class, upper) {
                return false;
            }
        }
        true
    }

    /// How a call goes to a method that some classes find, where all of them stand under the method's.
    fn bound_above(
        &self,
        call: &Call,
        old: &MethodName,
        named: Named,
        classes: &[u32],
        found: Option<MethodAt>,
    ) -> Option<Bound>
        ensures { let p = self.now.finder.program.now in IsFinding self.now.finder → IsNameOf self.now.finder old.now named → are_places p classes.now ≡ true
            → result ≡ bound_above p call.now old.now classes.now found }
    {
        let target = found?;
        if self.is_place(target.class) && self.are_under(classes, target.class) {
            self.bound_to(call, old, named, target)
        } else {
            None
        }
    }

    /// What a call is bound to by the exact classes of its receivers.
    fn by_places(
        &self,
        alloc: Global,
        call: &Call,
        old: &MethodName,
        named: Named,
        classes: &[u32],
        walk: &mut Walk,
    ) -> Result<Option<Bound>, AllocError>
        ensures ready { IsReady self.now.finder.program.now walk.old → IsReady self.now.finder.program.now walk.new }
        ensures is { let p = self.now.finder.program.now in IsFinding self.now.finder → IsNameOf self.now.finder old.now named → IsReady p walk.old
            → IfOk result (λ o. o ≡ by_places p call.now old.now classes.now) }
    {
        if !self.are_places(classes) {
            return Ok(None);
        }
        let found = self.finder.found_by_all(alloc, classes, named, walk)?;
        Ok(self.bound_above(call, old, named, classes, found))
    }

    /// What a call is bound to by the exact classes of its receivers, if these are known.
    fn by_classes(
        &self,
        alloc: Global,
        call: &Call,
        old: &MethodName,
        named: Named,
        classes: Option<&[u32]>,
        walk: &mut Walk,
    ) -> Result<Option<Bound>, AllocError>
        ensures ready { IsReady self.now.finder.program.now walk.old → IsReady self.now.finder.program.now walk.new }
        ensures is { let p = self.now.finder.program.now in IsFinding self.now.finder → IsNameOf self.now.finder old.now named → IsReady p walk.old
            → IfOk result (λ o. o ≡ by_classes p call.now old.now (option_copied classes.entry)) }
    {
        match classes {
            Some(classes) => self.by_places(alloc, call, old, named, classes, walk),
            None => Ok(None),
        }
    }

    /// What a call is bound to by the class of its receivers.
    fn by_class(
        &self,
        alloc: Global,
        call: &Call,
        old: &MethodName,
        named: Named,
        class: u32,
        walk: &mut Walk,
    ) -> Result<Option<Bound>, AllocError>
        ensures ready { IsReady self.now.finder.program.now walk.old → IsReady self.now.finder.program.now walk.new }
        ensures is { let p = self.now.finder.program.now in IsFinding self.now.finder → IsNameOf self.now.finder old.now named → IsReady p walk.old
            → IfOk result (λ o. o ≡ by_class p call.now old.now class) }
    {
        if !self.is_place(class) || self.is_interface(class) {
            return Ok(None);
        }
        let found = self.finder.found_under(alloc, class, named, walk)?;
        Ok(self.bound_above(call, old, named, &[class], found))
    }

    /// What a call is bound to by the kind of its receiver.
    fn by_kind(
        &self,
        alloc: Global,
        call: &Call,
        old: &MethodName,
        named: Named,
        walk: &mut Walk,
    ) -> Result<Option<Bound>, AllocError>
        ensures ready { IsReady self.now.finder.program.now walk.old → IsReady self.now.finder.program.now walk.new }
        ensures is { let p = self.now.finder.program.now in IsFinding self.now.finder → IsNameOf self.now.finder old.now named → IsReady p walk.old
            → IfOk result (λ o. o ≡ by_kind p call.now old.now call.now.receiver) }
    {
        match call.receiver {
            Kind::Program { class } => self.by_class(alloc, call, old, named, class, walk),
            _ => Ok(None),
        }
    }

    /// What a call is bound to, if its receivers find one method, by what is known of them or by their kind.
    fn bound_named(
        &self,
        alloc: Global,
        call: &Call,
        old: &MethodName,
        named: Named,
        classes: Option<&[u32]>,
        walk: &mut Walk,
    ) -> Result<Option<Bound>, AllocError>
        ensures ready { IsReady self.now.finder.program.now walk.old → IsReady self.now.finder.program.now walk.new }
        ensures is { let p = self.now.finder.program.now in IsFinding self.now.finder → IsNameOf self.now.finder old.now named → IsReady p walk.old
            → IfOk result (λ o. o ≡ bound_named p call.now (option_copied classes.entry) (Some old.now)) }
    {
        match self.by_classes(alloc, call, old, named, classes, walk)? {
            Some(bound) => Ok(Some(bound)),
            None => self.by_kind(alloc, call, old, named, walk),
        }
    }

    /// What a method number names, for a virtual or interface call.
    pub(crate) fn named(&self, method: u32) -> Option<Named>
        ensures { let p = self.now.finder.program.now in IsBinding self.now
            → MatchOption result (slice_get p.methods method ≡ None) (λ n. (q : MethodName) → slice_get p.methods method ≡ Some q → IsNameOf self.now.finder q n) }
    {
        self.finder.named(method)
    }

    /// What a call is bound to, where it names an entry of the table of methods.
    pub(crate) fn bound(
        &self,
        alloc: Global,
        call: &Call,
        classes: Option<&[u32]>,
        walk: &mut Walk,
    ) -> Result<Option<Bound>, AllocError>
        ensures ready { IsReady self.now.finder.program.now walk.old → IsReady self.now.finder.program.now walk.new }
        ensures is { let p = self.now.finder.program.now in IsBinding self.now → IsReady p walk.old
            → IfOk result (λ o. o ≡ bound p call.now (option_copied classes.entry)) }
    {
        let old = match self
            .finder
            .program
            .methods
            .as_slice()
            .get(call.method as usize)
        {
            Some(old) => old,
            None => return Ok(None),
        };
        let named = match self.named(call.method) {
            Some(named) => named,
            None => return Ok(None),
        };
        self.bound_named(alloc, call, old, named, classes, walk)
    }
}
