//! What the made classes find.

ghost use Rattle.std.specs.Prelude.{◌≡◌, ◌<◌, ◌^◌, true, flat_map, length, slice_get, Some, IfOk, OnOk};
ghost use Rattle.program_model.specs.declared.pass.Outside.{Outside};
ghost use Rattle.program_model.specs.declared.pools.MethodName.{MethodName};
ghost use Rattle.program_model.specs.declared.program.Program.{Program};
ghost use Rattle.call_graph.specs.declared.live_set.LiveSet.{LiveSet};
ghost use Rattle.program_model.specs.Lookups.{method_at};
ghost use Rattle.program_model.specs.ProgramRules.{is_well_formed};
ghost use Rattle.hierarchy.specs.Shapes.{IsOf, IsResolved};
ghost use Rattle.call_graph.specs.Bases.{object_number};
ghost use Rattle.call_graph.specs.Follows.{class_of};
ghost use Rattle.call_graph.specs.Objects.{IsReady};
ghost use Rattle.call_targets.specs.Adding.{Adds, AddsBy};
ghost use Rattle.call_targets.specs.Following.{IsOpen, AreTables, OfClass, OfMade, OfPlaces};
ghost use Rattle.call_targets.specs.Noting.{link_notes, call_notes, methods_of, kind_notes};
ghost use Rattle.call_targets.specs.Targeted.{IsTargeted};

use crate::above::{climb, has_outer};
use crate::bound::{Target, found_on};
use crate::entered::{Made, begin, enter_methods};
use crate::kept::{Kept, is_on};
use crate::leaving::note_leaving;
use crate::looks::{At, object_kind, word};
use crate::marks::Marks;
use crate::named::{Call, Named};
use crate::table::{Link, Targets, each_once, turn_on};
use call_graph::LiveSet;
use hierarchy::{Hierarchy, Walk};
use program_model::{Method, MethodAt, Outside, Program};
use std::alloc::{AllocError, Global};

/// What the search looks up: what the framework may name, the calls of live bodies, and the type `Ljava/lang/Object;`.
#[derive(Drop)]
struct Tables {
    kept: Kept,
    named: Named,
    object: u32,
}

/// What the search walks over.
#[derive(Drop)]
struct Walks {
    classes: Walk,
    kinds: Marks,
}

/// Notes a method that a call finds: a link where it has code.
fn link_method(call: u32, method: &Method, targets: &mut Targets) -> Result<(), AllocError>
    ensures { OnOk result (Adds (link_notes call (Some method.now)) targets.old targets.new) }
{
    if method.body.is_some() {
        targets.links.push(Link {
            call,
            method: method.name,
        })?;
    } else {
        turn_on(&mut targets.leaves, call);
    }
    Ok(())
}

/// Notes what a call finds at a place, where there may be no method.
fn link_found(
    at: &At<'_>,
    call: u32,
    found: MethodAt,
    targets: &mut Targets,
) -> Result<(), AllocError>
    ensures { OnOk result (Adds (link_notes call (method_at at.now.program.now found)) targets.old targets.new) }
{
    match at.method_at(found) {
        Some(method) => {
            link_method(call, method, targets)?;
            Ok(())
        }
        None => {
            turn_on(&mut targets.leaves, call);
            Ok(())
        }
    }
}

/// Notes what an object of a made class finds for a call that names a method of the table.
fn link_named(
    alloc: Global,
    at: &At<'_>,
    class: u32,
    call: Call,
    walk: &mut Walk,
    targets: &mut Targets,
) -> Result<(), AllocError>
    ensures ready { IsReady at.now.program.now walk.old → IsReady at.now.program.now walk.new }
    ensures adds { IsOf at.now.program.now at.now.hierarchy.now → IsReady at.now.program.now walk.old → (q : MethodName) → slice_get at.now.program.now.methods call.method ≡ Some q
        → OnOk result (Adds (call_notes at.now.program.now class call) targets.old targets.new) }
{
    let key = at.hierarchy.key_of_method(call.method);
    match found_on(alloc, at, class, key, walk)? {
        Target::One(found) => {
            link_found(at, call.number, found, targets)?;
            Ok(())
        }
        Target::Nothing => {
            turn_on(&mut targets.leaves, call.number);
            Ok(())
        }
        Target::Clash => Ok(()),
    }
}

/// Notes what an object of a made class finds for a call, nothing past the table.
fn link_call(
    alloc: Global,
    at: &At<'_>,
    class: u32,
    call: Call,
    walk: &mut Walk,
    targets: &mut Targets,
) -> Result<(), AllocError>
    ensures ready { IsReady at.now.program.now walk.old → IsReady at.now.program.now walk.new }
    ensures adds { IsOf at.now.program.now at.now.hierarchy.now → IsReady at.now.program.now walk.old → OnOk result (Adds (call_notes at.now.program.now class call) targets.old targets.new) }
{
    match at.method_name(call.method) {
        Some(_) => link_named(alloc, at, class, call, walk, targets),
        None => Ok(()),
    }
}

/// Notes what an object of a made class finds for these calls.
fn link_calls(
    alloc: Global,
    at: &At<'_>,
    class: u32,
    calls: &[Call],
    walk: &mut Walk,
    targets: &mut Targets,
) -> Result<(), AllocError>
    ensures ready { IsReady at.now.program.now walk.old → IsReady at.now.program.now walk.new }
    ensures adds { IsOf at.now.program.now at.now.hierarchy.now → IsReady at.now.program.now walk.old
        → OnOk result (Adds (flat_map (call_notes at.now.program.now class) calls.now) targets.old targets.new) }
{
    for call in calls {
        link_call(alloc, at, class, *call, walk, targets)?;
    }
    Ok(())
}

/// The methods of the class of a type.
fn methods_of<'a>(at: &At<'a>, kind: u32) -> &'a [Method]
    ensures { IsOf at.now.program.now at.now.hierarchy.now → result.now ≡ methods_of (class_of at.now.program.now kind) }
{
    match at.class_of(kind) {
        Some(class) => class.methods.as_slice(),
        None => &[],
    }
}

/// Notes what is called on a type above a made class, and what the framework may enter of it.
fn follow_kind(
    alloc: Global,
    at: &At<'_>,
    tables: &Tables,
    made: Made,
    kind: u32,
    walk: &mut Walk,
    targets: &mut Targets,
) -> Result<(), AllocError>
    ensures ready { IsReady at.now.program.now walk.old → IsReady at.now.program.now walk.new }
    ensures adds { IsOf at.now.program.now at.now.hierarchy.now → IsReady at.now.program.now walk.old
        → OnOk result (Adds (kind_notes at.now.program.now tables.now.named tables.now.kept made.class made.outer kind) targets.old targets.new) }
{
    link_calls(alloc, at, made.class, tables.named.on(kind), walk, targets)?;
    enter_methods(
        alloc,
        at,
        &tables.kept,
        made,
        methods_of(at, kind),
        walk,
        targets,
    )?;
    Ok(())
}

/// Goes over the types above a made class.
fn follow_kinds(
    alloc: Global,
    at: &At<'_>,
    tables: &Tables,
    made: Made,
    kinds: &[u32],
    walk: &mut Walk,
    targets: &mut Targets,
) -> Result<(), AllocError>
    ensures ready { IsReady at.now.program.now walk.old → IsReady at.now.program.now walk.new }
    ensures adds { IsOf at.now.program.now at.now.hierarchy.now → IsReady at.now.program.now walk.old
        → OnOk result (Adds (flat_map (kind_notes at.now.program.now tables.now.named tables.now.kept made.class made.outer) kinds.now) targets.old targets.new) }
{
    for kind in kinds {
        follow_kind(alloc, at, tables, made, *kind, walk, targets)?;
    }
    Ok(())
}

/// Goes over the types above a class, which is given by its place and its type.
fn follow_class(
    alloc: Global,
    at: &At<'_>,
    tables: &Tables,
    class: (u32, u32),
    walks: &mut Walks,
    targets: &mut Targets,
) -> Result<(), AllocError>
    ensures open_walks { IsOf at.now.program.now at.now.hierarchy.now → IsOpen at.now.program.now walks.old → OnOk result (IsOpen at.now.program.now walks.new) }
    ensures adds { IsOf at.now.program.now at.now.hierarchy.now → tables.now.object ≡ object_number at.now.program.now → IsOpen at.now.program.now walks.old
        → OnOk result (AddsBy (OfClass at.now.program.now tables.now class.0 class.1) targets.old targets.new) }
{
    let (place, kind) = class;
    let kinds = climb(alloc, at, &mut walks.kinds, tables.object, kind)?;
    let made = Made {
        class: place,
        outer: has_outer(at, tables.object, kinds.as_slice()),
    };
    follow_kinds(
        alloc,
        at,
        tables,
        made,
        kinds.as_slice(),
        &mut walks.classes,
        targets,
    )?;
    Ok(())
}

/// Goes over the types above a class, where it is made.
fn follow_place(
    alloc: Global,
    at: &At<'_>,
    tables: &Tables,
    made: &[bool],
    class: (u32, u32),
    walks: &mut Walks,
    targets: &mut Targets,
) -> Result<(), AllocError>
    ensures open_walks { IsOf at.now.program.now at.now.hierarchy.now → IsOpen at.now.program.now walks.old → OnOk result (IsOpen at.now.program.now walks.new) }
    ensures adds { IsOf at.now.program.now at.now.hierarchy.now → tables.now.object ≡ object_number at.now.program.now → IsOpen at.now.program.now walks.old
        → OnOk result (AddsBy (OfMade at.now.program.now tables.now made.now class.0 class.1) targets.old targets.new) }
{
    if is_on(made, class.1) {
        follow_class(alloc, at, tables, class, walks, targets)?;
    }
    Ok(())
}

/// Nothing is walked over.
fn new_walks(alloc: Global, at: &At<'_>) -> Result<Walks, AllocError>
    ensures { IsOf at.now.program.now at.now.hierarchy.now → IfOk result (λ w. IsOpen at.now.program.now w) }
{
    Ok(Walks {
        classes: at.hierarchy.walk(alloc)?,
        kinds: Marks::new(alloc, at.program.types.len())?,
    })
}

/// Goes over the made classes.
fn follow_made(
    alloc: Global,
    at: &At<'_>,
    tables: &Tables,
    made: &[bool],
    targets: &mut Targets,
) -> Result<(), AllocError>
    ensures { IsOf at.now.program.now at.now.hierarchy.now → length at.now.program.now.classes < 2 ^ 32 → tables.now.object ≡ object_number at.now.program.now
        → OnOk result (AddsBy (OfPlaces at.now.program.now tables.now made.now (length at.now.program.now.classes)) targets.old targets.new) }
{
    let mut walks = new_walks(alloc, at)?;
    for (place, class) in at.program.classes.as_slice().iter().enumerate() {
        let one = (word(place), class.name);
        follow_place(alloc, at, tables, made, one, &mut walks, targets)?;
    }
    Ok(())
}

/// What the search looks up of a program.
#[tactic(auto, using(crate::proofs::Few::few_methods, crate::proofs::Few::few_types))]
fn new_tables(
    alloc: Global,
    at: &At<'_>,
    outside: &Outside,
    live: &LiveSet,
) -> Result<Tables, AllocError>
    ensures { is_well_formed at.now.program.now ≡ true → IfOk result (λ t. AreTables at.now.program.now outside.now live.now t) }
{
    Ok(Tables {
        kept: Kept::new(alloc, at.program, outside)?,
        named: Named::new(alloc, at, live)?,
        object: object_kind(at),
    })
}

/// What is noted of a program, where a pair may be noted more than once.
fn search(
    alloc: Global,
    at: &At<'_>,
    outside: &Outside,
    live: &LiveSet,
) -> Result<Targets, AllocError>
    ensures { is_well_formed at.now.program.now ≡ true → IsResolved at.now.program.now at.now.hierarchy.now → IfOk result (λ t. IsTargeted at.now.program.now outside.now live.now t) }
{
    let tables = new_tables(alloc, at, outside, live)?;
    let (methods, classes) = (at.program.methods.len(), at.program.classes.len());
    let mut targets = Targets::new(alloc, methods, classes)?;
    note_leaving(at, &mut targets);
    begin(at, &tables.kept, &mut targets);
    follow_made(alloc, at, &tables, live.made.as_slice(), &mut targets)?;
    Ok(targets)
}

/// The same with the links in order, each once.
fn in_order(found: Targets) -> Targets
    ensures { (p : Program) (o : Outside) (live : LiveSet) → IsTargeted p o live found → IsTargeted p o live result }
{
    let Targets {
        links,
        leaves,
        entered,
        begun,
    } = found;
    Targets {
        links: each_once(links),
        leaves,
        entered,
        begun,
    }
}

/// What virtual and interface calls of live bodies may find on objects of made classes, and what the framework may
/// enter and need. A class is under another by the program's own lists, and each is under `Ljava/lang/Object;`. The only
/// error is want of memory.
pub fn targets(
    alloc: Global,
    program: &Program,
    hierarchy: &Hierarchy,
    outside: &Outside,
    live: &LiveSet,
) -> Result<Targets, AllocError>
    ensures { is_well_formed program.now ≡ true → IsResolved program.now hierarchy.now → IfOk result (λ t. IsTargeted program.now outside.now live.now t) }
{
    let at = At { program, hierarchy };
    Ok(in_order(search(alloc, &at, outside, live)?))
}
