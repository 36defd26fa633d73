//! What calls of a method number find.

ghost use Rattle.std.specs.Prelude.{◌≡◌, ◌<◌, Some, length, slice_get};
ghost use Rattle.std.specs.List.{list_any};
ghost use Rattle.std.specs.Option.{option_copied};
ghost use Rattle.program_model.specs.declared.pools.MethodName.{MethodName};
ghost use Rattle.program_model.specs.Lookups.{class_place, method_at};
ghost use Rattle.hierarchy.specs.Naming.{IsKey};
ghost use Rattle.hierarchy.specs.Shapes.{IsResolved};
ghost use Rattle.receivers.specs.Receiving.{interface_at, overrides, is_overridden, AreShort};
ghost use Rattle.quiet_methods.specs.Quiet.{is_on};
ghost use Rattle.quiet_code.specs.Calls.{is_init, is_constructor, is_called_so, is_quiet_at, is_quiet_target, is_quiet_found, is_quiet_named, is_quiet_for_all, is_quiet_under, is_quiet_virtual};

use class_criteria::{overrides, starts_quietly};
use hierarchy::Hierarchy;
use program_model::{Flags, Method, MethodAt, MethodName, Program};

/// What is asked of calls: the program, the hierarchy of its classes, and which methods are quiet, by number.
#[derive(Clone, Copy)]
pub(crate) struct Search<'a> {
    pub(crate) program: &'a Program,
    pub(crate) hierarchy: &'a Hierarchy,
    pub(crate) quiet: &'a [bool],
}

/// Whether the units are `<init>`.
fn is_init(units: &[u16]) -> bool
    ensures { result ≡ is_init units.now }
{
    let name: [u16; 6] = [60, 105, 110, 105, 116, 62];
    units == name.as_slice()
}

/// Whether a number is marked.
fn is_on(marks: &[bool], number: u32) -> bool
    ensures { result ≡ is_on marks.now number }
{
    match marks.get(number as usize) {
        Some(mark) => *mark,
        None => false,
    }
}

/// Whether a method is static, as a static call wants it, or isn't, as a call on an object does.
fn is_called_so(to_static: bool, method: &Method) -> bool
    ensures { result ≡ is_called_so to_static method.now }
{
    if to_static {
        method.flags.has(Flags::STATIC)
    } else {
        !method.flags.has(Flags::STATIC)
    }
}

/// The method at a place.
fn method_in(program: &Program, at: MethodAt) -> Option<&Method>
    ensures { option_copied result ≡ method_at program.now at }
{
    match program.classes.as_slice().get(at.class as usize) {
        Some(class) => class.methods.as_slice().get(at.place as usize),
        None => None,
    }
}

impl Search<'_> {
    /// Whether a name is that of constructors.
    fn is_constructor(&self, name: &MethodName) -> bool
        ensures { result ≡ is_constructor self.now.program.now name.now }
    {
        match self.program.strings.as_slice().get(name.name as usize) {
            Some(text) => is_init(text.units()),
            None => true,
        }
    }

    /// Whether a method of the class at a place has code and is quiet, and initialising the class runs no code.
    fn is_quiet_at(&self, class: u32, method: &Method) -> bool
        ensures { IsResolved self.now.program.now self.now.hierarchy.now → result ≡ is_quiet_at self.now.program.now self.now.quiet.now class method.now }
    {
        method.body.is_some()
            && is_on(self.quiet, method.name)
            && starts_quietly(self.program, self.hierarchy, class)
    }

    /// Whether a method of the class at a place, if there is one, is such a one, and static or not as a call wants it.
    fn is_quiet_target(&self, to_static: bool, class: u32, method: Option<&Method>) -> bool
        ensures { IsResolved self.now.program.now self.now.hierarchy.now
            → result ≡ is_quiet_target self.now.program.now self.now.quiet.now to_static class (option_copied method.entry) }
    {
        match method {
            Some(method) => is_called_so(to_static, method) && self.is_quiet_at(class, method),
            None => false,
        }
    }

    /// Whether what a call finds by a name does nothing.
    fn is_quiet_found(&self, to_static: bool, name: &MethodName, found: Option<MethodAt>) -> bool
        ensures { IsResolved self.now.program.now self.now.hierarchy.now
            → result ≡ is_quiet_found self.now.program.now self.now.quiet.now to_static name.now found }
    {
        match found {
            Some(at) => {
                (to_static || !self.is_constructor(name))
                    && self.is_quiet_target(to_static, at.class, method_in(self.program, at))
            }
            None => false,
        }
    }

    /// Whether what a static or direct call of a method number finds does nothing.
    pub(crate) fn is_quiet_named(&self, to_static: bool, method: u32) -> bool
        ensures { let p = self.now.program.now in IsResolved p self.now.hierarchy.now
            → result ≡ is_quiet_named p self.now.quiet.now to_static method (slice_get p.methods method) }
    {
        match self.program.methods.as_slice().get(method as usize) {
            Some(name) => self.is_quiet_found(
                to_static,
                name,
                self.hierarchy.find_static(self.program, method),
            ),
            None => false,
        }
    }

    /// Whether the class at a place is an interface.
    fn is_interface(&self, place: u32) -> bool
        ensures { result ≡ interface_at self.now.program.now place }
    {
        match self.program.classes.as_slice().get(place as usize) {
            Some(class) => class.flags.has(Flags::INTERFACE),
            None => false,
        }
    }

    /// Whether one of some classes under another one, but the class of a method, defines such a virtual method itself.
    fn is_overridden_by(&self, class: u32, key: u32, target: MethodAt, definers: &[u32]) -> bool
        ensures { let p = self.now.program.now in IsResolved p self.now.hierarchy.now → (q : MethodName) → IsKey p self.now.hierarchy.now key q.name q.proto
            → class < length p.classes → AreShort p definers.now → result ≡ list_any (overrides p q class target) definers.now }
    {
        for definer in definers {
            if overrides(self.program, self.hierarchy, class, key, target, *definer) {
                return true;
            }
        }
        false
    }

    /// Whether a class under another one, but the class of a method, defines such a virtual method itself.
    fn is_overridden(&self, class: u32, key: u32, target: MethodAt) -> bool
        ensures { let p = self.now.program.now in IsResolved p self.now.hierarchy.now → (q : MethodName) → IsKey p self.now.hierarchy.now key q.name q.proto
            → class < length p.classes → result ≡ is_overridden p q class target }
    {
        self.is_overridden_by(class, key, target, self.hierarchy.definers_of(key))
    }

    /// Whether what a class finds by a name does nothing, and no class under it has another such method.
    fn is_quiet_for_all(
        &self,
        name: &MethodName,
        key: u32,
        class: u32,
        found: Option<MethodAt>,
    ) -> bool
        ensures { let p = self.now.program.now in IsResolved p self.now.hierarchy.now → IsKey p self.now.hierarchy.now key name.now.name name.now.proto
            → class < length p.classes → result ≡ is_quiet_for_all p self.now.quiet.now name.now class found }
    {
        match found {
            Some(at) => {
                self.is_quiet_found(false, name, Some(at)) && !self.is_overridden(class, key, at)
            }
            None => false,
        }
    }

    /// Whether what objects of a class and of all classes under it find does nothing. The class is no interface.
    fn is_quiet_below(&self, name: &MethodName, key: u32, class: u32) -> bool
        ensures { let p = self.now.program.now in IsResolved p self.now.hierarchy.now → IsKey p self.now.hierarchy.now key name.now.name name.now.proto
            → class < length p.classes → result ≡ is_quiet_under p self.now.quiet.now name.now (Some class) }
    {
        !self.is_interface(class)
            && self.is_quiet_for_all(
                name,
                key,
                class,
                self.hierarchy.find_virtual(self.program, class, key),
            )
    }

    /// Whether what all receivers find by a name does nothing.
    fn is_quiet_under(&self, name: &MethodName, key: u32) -> bool
        ensures { let p = self.now.program.now in IsResolved p self.now.hierarchy.now → IsKey p self.now.hierarchy.now key name.now.name name.now.proto
            → result ≡ is_quiet_under p self.now.quiet.now name.now (class_place p name.now.class) }
    {
        match self.hierarchy.place_of(name.class) {
            Some(class) => self.is_quiet_below(name, key, class),
            None => false,
        }
    }

    /// Whether what a virtual call of a method number finds does nothing.
    pub(crate) fn is_quiet_virtual(&self, method: u32) -> bool
        ensures { let p = self.now.program.now in IsResolved p self.now.hierarchy.now
            → result ≡ is_quiet_virtual p self.now.quiet.now (slice_get p.methods method) }
    {
        match self.program.methods.as_slice().get(method as usize) {
            Some(name) => self.is_quiet_under(name, self.hierarchy.key_of_method(method)),
            None => false,
        }
    }
}
