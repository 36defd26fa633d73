//! The classes that are initialised.

ghost use Rattle.std.specs.Prelude.{◌≡◌, ◌&&◌, not, true, ℕ, List, Some, is_some, slice_get};
ghost use Rattle.std.specs.List.{list_any};
ghost use Rattle.program_model.specs.Lookups.{method_at};
ghost use Rattle.program_model.specs.MemberRules.{is_direct};
ghost use Rattle.class_defs.specs.Finding.{is_037};
ghost use Rattle.class_defs.specs.Members.{is_interface};
ghost use Rattle.class_defs.specs.Places.{super_place, interface_places};
ghost use Rattle.class_defs.specs.Starts.{initialiser_place};
ghost use Rattle.facts_check.specs.Known.{AreKnown, is_marked};
ghost use Rattle.facts_check.specs.Tables.{is_needed, AreListed, IsNeededHeld, IsListedHeld, IsStarted, Classes};

use crate::fields::is_on;
use crate::known::Known;
use crate::looks::method_at;
use program_model::{Class, Flags, Method, Version};

/// Whether each of some marks is on.
fn are_on(marks: &[bool], numbers: &[u32]) -> bool
    ensures { result ≡ true → (i n : ℕ) → slice_get numbers.now i ≡ Some n → is_marked marks.now n ≡ true }
{
    for number in numbers {
        if !is_on(marks, *number) {
            return false;
        }
    }
    true
}

/// Whether each class that the framework may need is marked.
fn are_begun(known: &Known<'_>) -> bool
    ensures { result ≡ true → (c : ℕ) → slice_get known.now.targets.now.begun.items c ≡ Some true → is_needed known.now c ≡ true }
{
    let begun = known.targets.begun.as_slice();
    if begun.len() >= 4294967296 {
        return false;
    }
    for class in 0..begun.len() {
        if begun[class] && !is_on(&known.marks.needed, class as u32) {
            return false;
        }
    }
    true
}

/// Whether the superclass of the class at a place is marked, if the program defines it.
fn above_holds(known: &Known<'_>, place: u32) -> bool
    ensures { AreKnown known.now → result ≡ true → (u : ℕ) → super_place known.now.program.now place ≡ Some u → is_needed known.now u ≡ true }
{
    match known.hierarchy.super_of(place) {
        Some(above) => is_on(&known.marks.needed, above),
        None => true,
    }
}

/// Whether the interfaces of the class at a place are listed.
fn lists_hold(known: &Known<'_>, place: u32) -> bool
    ensures { AreKnown known.now → result ≡ true → AreListed known.now (interface_places known.now.program.now place) }
{
    are_on(&known.marks.listed, known.hierarchy.interfaces_of(place))
}

/// Whether interfaces may have methods with code.
fn has_defaults(known: &Known<'_>) -> bool
    ensures { result ≡ is_037 known.now.program.now.version }
{
    match known.program.version {
        Version::V035 => false,
        Version::V037 => true,
    }
}

/// Whether the initialiser of the class at a place is known to be entered, if it has one.
fn initialiser_holds(known: &Known<'_>, place: u32) -> bool
    ensures { AreKnown known.now → result ≡ true → (i : ℕ) (m : Method)
        → initialiser_place known.now.program.now place ≡ Some i
        → method_at known.now.program.now (record { class = place; place = i }) ≡ Some m → is_marked known.now.marks.now.entered.items m.name ≡ true }
{
    match known.hierarchy.initialiser_of(place) {
        Some(at) => match method_at(known.program, at) {
            Some(method) => is_on(&known.marks.entered, method.name),
            None => true,
        },
        None => true,
    }
}

/// Whether a method is a virtual one with code.
fn is_default(known: &Known<'_>, method: &Method) -> bool
    ensures { AreKnown known.now → result ≡ (not (is_direct known.now.program.now method.now) && is_some method.now.body) }
{
    known.hierarchy.is_virtual(method) && method.body.is_some()
}

/// Whether a class has a virtual method with code.
fn has_default(known: &Known<'_>, methods: &[Method]) -> bool
    ensures { AreKnown known.now → result ≡ list_any (λ m. not (is_direct known.now.program.now m) && is_some m.body) methods.now }
{
    for method in methods {
        if is_default(known, method) {
            return true;
        }
    }
    false
}

/// Whether a class is an interface.
fn is_interface(class: &Class) -> bool
    ensures { result ≡ is_interface (Some class.now) }
{
    class.flags.has(Flags::INTERFACE)
}

/// Whether what comes before a marked class is marked, and its initialiser entered.
fn needed_holds(known: &Known<'_>, place: u32, class: &Class) -> bool
    ensures { AreKnown known.now → result ≡ true → IsNeededHeld known.now place class.now }
{
    if !is_on(&known.marks.needed, place) {
        return true;
    }
    if is_interface(class) {
        return initialiser_holds(known, place);
    }
    initialiser_holds(known, place)
        && above_holds(known, place)
        && (!has_defaults(known) || lists_hold(known, place))
}

/// Whether what follows from a listed interface is marked.
fn listed_holds(known: &Known<'_>, place: u32, class: &Class) -> bool
    ensures { AreKnown known.now → result ≡ true → IsListedHeld known.now place class.now }
{
    if !is_on(&known.marks.listed, place) || !is_interface(class) {
        return true;
    }
    lists_hold(known, place)
        && (!has_default(known, class.methods.as_slice()) || is_on(&known.marks.needed, place))
}

/// Whether the marks of the class at a place are closed.
fn class_holds(known: &Known<'_>, place: u32, class: &Class) -> bool
    ensures { AreKnown known.now → result ≡ true → IsStarted known.now place class.now }
{
    needed_holds(known, place, class) && listed_holds(known, place, class)
}

/// Whether the marks of all classes are closed.
fn all_classes(known: &Known<'_>) -> bool
    ensures { AreKnown known.now → result ≡ true → (c : ℕ) (class : Class)
        → slice_get known.now.program.now.classes c ≡ Some class → IsStarted known.now c class }
{
    let classes = known.program.classes.as_slice();
    if classes.len() >= 4294967296 {
        return false;
    }
    for place in 0..classes.len() {
        if !class_holds(known, place as u32, &classes[place]) {
            return false;
        }
    }
    true
}

/// Whether the classes that may be initialised are known to be.
pub(crate) fn classes_hold(known: &Known<'_>) -> bool
    ensures { AreKnown known.now → result ≡ true → Classes known.now }
{
    are_begun(known) && all_classes(known)
}
