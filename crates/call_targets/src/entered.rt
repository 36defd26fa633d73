//! What the framework may enter and need.

ghost use Rattle.std.specs.Prelude.{◌≡◌, ◌<◌, ◌^◌, ◌&&◌, ◌||◌, ◌++◌, ◌∷◌, [], ℕ, true, false, not, flat_map, length, Some, slice_get, cond, nat_eq, is_some, IfOk, OnOk};
ghost use Rattle.program_model.specs.declared.pools.MethodName.{MethodName};
ghost use Rattle.program_model.specs.Lookups.{method_at};
ghost use Rattle.hierarchy.specs.Shapes.{IsOf, IsResolved};
ghost use Rattle.call_graph.specs.Follows.{can_be_made};
ghost use Rattle.call_graph.specs.Objects.{IsReady};
ghost use Rattle.call_targets.specs.Adding.{Adds};
ghost use Rattle.call_targets.specs.Beginning.{is_place, is_entered, static_notes, is_empty, keeps_constructor_by, may_be_made_by, class_notes, all_class_notes};
ghost use Rattle.call_targets.specs.Noting.{enter_notes, answer_notes, found_notes, is_called_back, virtual_notes, method_notes};
ghost use Rattle.call_targets.specs.Targeted.{is_on};

use crate::bound::{Target, found_on};
use crate::kept::Kept;
use crate::looks::{At, word};
use crate::table::{Targets, turn_on};
use hierarchy::Walk;
use program_model::{Class, Flags, Method, MethodAt};
use std::alloc::{AllocError, Global};

/// A made class: its place, and whether a framework type other than `Ljava/lang/Object;` is above it.
#[derive(Clone, Copy)]
pub(crate) struct Made {
    pub(crate) class: u32,
    pub(crate) outer: bool,
}

/// Lets the framework enter a method, where it has code.
fn enter(targets: &mut Targets, method: &Method)
    ensures { Adds (enter_notes method.now) targets.old targets.new }
{
    if method.body.is_some() {
        turn_on(&mut targets.entered, method.name);
    }
}

/// Whether the framework may call a virtual method by its own knowledge of a made class.
fn is_called_back(at: &At<'_>, kept: &Kept, made: Made, number: u32) -> bool
    ensures { IsOf at.now.program.now at.now.hierarchy.now → (q : MethodName) → slice_get at.now.program.now.methods number ≡ Some q
        → result ≡ is_called_back at.now.program.now kept.now made.outer number q }
{
    !kept.is_shut(number)
        && (made.outer
            || at
                .hierarchy
                .is_key_of_object(at.hierarchy.key_of_method(number)))
}

/// Lets the framework enter what is found, whatever it is or where it is the method of a number.
fn enter_answer(at: &At<'_>, any: bool, number: u32, found: MethodAt, targets: &mut Targets)
    ensures { Adds (answer_notes any number (method_at at.now.program.now found)) targets.old targets.new }
{
    if let Some(answer) = at.method_at(found) {
        if any || answer.name == number {
            enter(targets, answer);
        }
    }
}

/// Lets the framework enter what an object of a made class finds for a virtual method of a class above it: whatever it
/// is where that method is kept, and that method itself where it is called back.
fn enter_found(
    alloc: Global,
    at: &At<'_>,
    kept: &Kept,
    made: Made,
    number: u32,
    walk: &mut Walk,
    targets: &mut Targets,
) -> Result<(), AllocError>
    ensures ready { IsReady at.now.program.now walk.old → IsReady at.now.program.now walk.new }
    ensures adds { IsOf at.now.program.now at.now.hierarchy.now → IsReady at.now.program.now walk.old → (q : MethodName) → slice_get at.now.program.now.methods number ≡ Some q
        → OnOk result (Adds (virtual_notes at.now.program.now kept.now made.class made.outer number) targets.old targets.new) }
{
    let keeps = kept.keeps_method(number);
    if keeps || is_called_back(at, kept, made, number) {
        let key = at.hierarchy.key_of_method(number);
        if let Target::One(found) = found_on(alloc, at, made.class, key, walk)? {
            enter_answer(at, keeps, number, found, targets);
        }
    }
    Ok(())
}

/// The same for a method number, nothing past the table.
fn enter_virtual(
    alloc: Global,
    at: &At<'_>,
    kept: &Kept,
    made: Made,
    number: u32,
    walk: &mut Walk,
    targets: &mut Targets,
) -> Result<(), AllocError>
    ensures ready { IsReady at.now.program.now walk.old → IsReady at.now.program.now walk.new }
    ensures adds { IsOf at.now.program.now at.now.hierarchy.now → IsReady at.now.program.now walk.old
        → OnOk result (Adds (virtual_notes at.now.program.now kept.now made.class made.outer number) targets.old targets.new) }
{
    match at.method_name(number) {
        Some(_) => enter_found(alloc, at, kept, made, number, walk, targets),
        None => Ok(()),
    }
}

/// Lets the framework enter a method of a class above a made class, or what answers for it.
fn enter_method(
    alloc: Global,
    at: &At<'_>,
    kept: &Kept,
    made: Made,
    method: &Method,
    walk: &mut Walk,
    targets: &mut Targets,
) -> Result<(), AllocError>
    ensures ready { IsReady at.now.program.now walk.old → IsReady at.now.program.now walk.new }
    ensures adds { IsOf at.now.program.now at.now.hierarchy.now → IsReady at.now.program.now walk.old
        → OnOk result (Adds (method_notes at.now.program.now kept.now made.class made.outer method.now) targets.old targets.new) }
{
    if method.flags.has(Flags::STATIC) {
        return Ok(());
    }
    if kept.keeps_method(method.name) {
        enter(targets, method);
    }
    if at.hierarchy.is_virtual(method) {
        enter_virtual(alloc, at, kept, made, method.name, walk, targets)?;
    }
    Ok(())
}

/// Lets the framework enter methods of a class above a made class.
pub(crate) fn enter_methods(
    alloc: Global,
    at: &At<'_>,
    kept: &Kept,
    made: Made,
    methods: &[Method],
    walk: &mut Walk,
    targets: &mut Targets,
) -> Result<(), AllocError>
    ensures ready { IsReady at.now.program.now walk.old → IsReady at.now.program.now walk.new }
    ensures adds { IsOf at.now.program.now at.now.hierarchy.now → IsReady at.now.program.now walk.old
        → OnOk result (Adds (flat_map (method_notes at.now.program.now kept.now made.class made.outer) methods.now) targets.old targets.new) }
{
    for method in methods {
        enter_method(alloc, at, kept, made, method, walk, targets)?;
    }
    Ok(())
}

/// Whether a method stands at a place of its class.
fn is_place(found: Option<MethodAt>, own: usize) -> bool
    ensures { result ≡ is_place found own }
{
    match found {
        Some(found) => found.place as usize == own,
        None => false,
    }
}

/// Whether a method is one that the framework may enter without an object.
fn is_entered_static(
    kept: &Kept,
    initialiser: Option<MethodAt>,
    own: usize,
    method: &Method,
) -> bool
    ensures { result ≡ is_entered kept.now initialiser own method.now }
{
    method.flags.has(Flags::STATIC)
        && method.body.is_some()
        && kept.keeps_method(method.name)
        && !is_place(initialiser, own)
}

/// Lets the framework enter a static method, where it may, and answers whether it may.
fn enter_static(
    kept: &Kept,
    initialiser: Option<MethodAt>,
    own: usize,
    method: &Method,
    targets: &mut Targets,
) -> bool
    ensures is { result ≡ is_entered kept.now initialiser own method.now }
    ensures adds { Adds (static_notes kept.now initialiser own (method.now ∷ [])) targets.old targets.new }
{
    let enters = is_entered_static(kept, initialiser, own, method);
    if enters {
        turn_on(&mut targets.entered, method.name);
    }
    enters
}

/// Lets the framework enter the kept static methods of a class, and answers whether there are any.
fn enter_statics(
    kept: &Kept,
    initialiser: Option<MethodAt>,
    methods: &[Method],
    targets: &mut Targets,
) -> bool
    ensures is { result ≡ not (is_empty (static_notes kept.now initialiser 0 methods.now)) }
    ensures adds { Adds (static_notes kept.now initialiser 0 methods.now) targets.old targets.new }
{
    let mut any = false;
    for (own, method) in methods.iter().enumerate() {
        if enter_static(kept, initialiser, own, method, targets) {
            any = true;
        }
    }
    any
}

/// Whether a constructor is kept among some methods.
fn keeps_constructor(at: &At<'_>, kept: &Kept, methods: &[Method]) -> bool
    ensures { result ≡ keeps_constructor_by at.now.program.now kept.now methods.now }
{
    for method in methods {
        if kept.keeps_method(method.name) && at.is_constructor(method.name) {
            return true;
        }
    }
    false
}

/// Whether objects of the class can be made: it is neither abstract nor an interface.
fn can_be_made(class: &Class) -> bool
    ensures { result ≡ can_be_made class.now }
{
    !class.flags.has(Flags::ABSTRACT) && !class.flags.has(Flags::INTERFACE)
}

/// Whether the framework may make an object of a class.
fn may_be_made(at: &At<'_>, kept: &Kept, class: &Class) -> bool
    ensures { result ≡ may_be_made_by at.now.program.now kept.now class.now }
{
    can_be_made(class)
        && (kept.keeps_class(class.name) || keeps_constructor(at, kept, class.methods.as_slice()))
}

/// Lets the framework enter the kept static methods of a class, and notes the class where the framework may need it.
fn begin_class(at: &At<'_>, kept: &Kept, place: u32, class: &Class, targets: &mut Targets)
    ensures { IsResolved at.now.program.now at.now.hierarchy.now → Adds (class_notes at.now.program.now kept.now place class.now) targets.old targets.new }
{
    let initialiser = at.hierarchy.initialiser_of(place);
    let enters = enter_statics(kept, initialiser, class.methods.as_slice(), targets);
    if enters || may_be_made(at, kept, class) {
        turn_on(&mut targets.begun, place);
    }
}

/// Lets the framework enter the kept static methods, and notes the classes that it may need.
pub(crate) fn begin(at: &At<'_>, kept: &Kept, targets: &mut Targets)
    ensures { length at.now.program.now.classes < 2 ^ 32 → IsResolved at.now.program.now at.now.hierarchy.now
        → Adds (all_class_notes at.now.program.now kept.now 0 at.now.program.now.classes) targets.old targets.new }
{
    for (place, class) in at.program.classes.as_slice().iter().enumerate() {
        begin_class(at, kept, word(place), class, targets);
    }
}
