//! What is called on objects.

ghost use Rattle.std.specs.Prelude.{◌≡◌, ◌++◌, ◌∷◌, [], ℕ, true, Some, flat_map, length, IfOk, OnOk, Contains};
ghost use Rattle.program_model.specs.ProgramRules.{is_well_formed};
ghost use Rattle.program_model.specs.Lookups.{class_place};
ghost use Rattle.class_defs.specs.Finding.{finds_virtual};
ghost use Rattle.hierarchy.specs.Naming.{IsKey};
ghost use Rattle.hierarchy.specs.Shapes.{IsResolved};
ghost use Rattle.call_graph.specs.declared.facts.Fact.{Fact};
ghost use Rattle.call_graph.specs.declared.facts.Fact.TheVariants as fact;
ghost use Rattle.program_model.specs.declared.pass.Outside.{Outside};
ghost use Rattle.call_graph.specs.Above.{HasAbove};
ghost use Rattle.call_graph.specs.Least.{AddsOnly, AllReached, AreCommon, AreReached, BothReached, CallsOn, FoundCommon, Inherited, InheritedAmong, InheritedBy, InheritedFrom, IsCommonKey, IsMadeUnder, IsNamed, Reached};
ghost use Rattle.call_graph.specs.Objects.{all_found, class_candidates, answers_to, answer_facts, inherited, open_of, open_facts, AllIn, Inherits, InheritsOf, FindsOpen, HasCommon, CallsBack, IsReady, AreNotes, NotesCall, NotesUnder, NotesMade};
ghost use Rattle.call_graph.specs.Stays.{Stays};

use crate::above::{climb, has_outer};
use crate::at::At;
use crate::facts::Fact;
use crate::follow::add_found;
use crate::notes::Notes;
use crate::supers::add_all_found;
use crate::tables::Tables;
use hierarchy::Walk;
use program_model::{Class, Method, MethodAt, Version};
use std::alloc::{AllocError, Global};

/// Adds the candidates of a class for a key.
fn add_candidates(
    alloc: Global,
    at: &At<'_>,
    class: u32,
    key: u32,
    walk: &mut Walk,
    out: &mut Vec<Fact>,
) -> Result<(), AllocError>
    ensures adds { IsResolved at.now.program.now at.now.hierarchy.now → IsReady at.now.program.now walk.old → (name proto : ℕ)
        → IsKey at.now.program.now at.now.hierarchy.now key name proto
        → OnOk result (out.new.items ≡ out.old.items ++ all_found at.now.program.now (class_candidates at.now.program.now class name proto)) }
    ensures ready { IsReady at.now.program.now walk.old → OnOk result (IsReady at.now.program.now walk.new) }
    ensures stays { OnOk result (Stays out.old.items out.new.items) }
{
    match at.program.version {
        Version::V035 => Ok(()),
        Version::V037 => {
            let mut candidates = Vec::new(alloc);
            at.hierarchy
                .candidates(at.program, class, key, walk, &mut candidates)?;
            add_all_found(at, candidates.as_slice(), out)?;
            Ok(())
        }
    }
}

/// Adds what an object of a class finds for a key, or all its candidates where it finds none along the superclasses.
fn add_answers(
    alloc: Global,
    at: &At<'_>,
    class: u32,
    key: u32,
    walk: &mut Walk,
    out: &mut Vec<Fact>,
) -> Result<(), AllocError>
    ensures stays { OnOk result (Stays out.old.items out.new.items) }
    ensures adds { IsResolved at.now.program.now at.now.hierarchy.now → IsReady at.now.program.now walk.old → (name proto : ℕ)
        → IsKey at.now.program.now at.now.hierarchy.now key name proto → OnOk result (out.new.items ≡ out.old.items ++ all_found at.now.program.now (answers_to at.now.program.now class name proto)) }
    ensures ready { IsReady at.now.program.now walk.old → OnOk result (IsReady at.now.program.now walk.new) }
{
    match at.hierarchy.find_virtual(at.program, class, key) {
        Some(found) => add_found(at, Some(found), out),
        None => add_candidates(alloc, at, class, key, walk, out),
    }
}

/// Adds what objects of a class find for a method number.
fn add_called(
    alloc: Global,
    at: &At<'_>,
    class: u32,
    number: u32,
    walk: &mut Walk,
    out: &mut Vec<Fact>,
) -> Result<(), AllocError>
    ensures stays { OnOk result (Stays out.old.items out.new.items) }
    ensures adds { IsResolved at.now.program.now at.now.hierarchy.now → IsReady at.now.program.now walk.old
        → OnOk result (out.new.items ≡ out.old.items ++ answer_facts at.now.program.now number class) }
    ensures ready { IsReady at.now.program.now walk.old → OnOk result (IsReady at.now.program.now walk.new) }
{
    match at.method_name(number) {
        Some(_) => {
            let key = at.hierarchy.key_of_method(number);
            add_answers(alloc, at, class, key, walk, out)
        }
        None => Ok(()),
    }
}

/// Adds what objects of these classes find for a method number.
fn add_on_all(
    alloc: Global,
    at: &At<'_>,
    classes: &[u32],
    number: u32,
    walk: &mut Walk,
    out: &mut Vec<Fact>,
) -> Result<(), AllocError>
    ensures stays { OnOk result (Stays out.old.items out.new.items) }
    ensures adds { IsResolved at.now.program.now at.now.hierarchy.now → IsReady at.now.program.now walk.old
        → OnOk result (out.new.items ≡ out.old.items ++ flat_map (answer_facts at.now.program.now number) classes.now) }
    ensures ready { IsReady at.now.program.now walk.old → OnOk result (IsReady at.now.program.now walk.new) }
{
    for class in classes {
        add_called(alloc, at, *class, number, walk, out)?;
    }
    Ok(())
}

/// Adds what objects of a class find for these method numbers.
fn add_all_called(
    alloc: Global,
    at: &At<'_>,
    class: u32,
    numbers: &[u32],
    walk: &mut Walk,
    out: &mut Vec<Fact>,
) -> Result<(), AllocError>
    ensures stays { OnOk result (Stays out.old.items out.new.items) }
    ensures adds { IsResolved at.now.program.now at.now.hierarchy.now → IsReady at.now.program.now walk.old
        → OnOk result (out.new.items ≡ out.old.items ++ flat_map (λ n. answer_facts at.now.program.now n class) numbers.now) }
    ensures ready { IsReady at.now.program.now walk.old → OnOk result (IsReady at.now.program.now walk.new) }
{
    for number in numbers {
        add_called(alloc, at, class, *number, walk, out)?;
    }
    Ok(())
}

/// What follows from a virtual or interface call of a method number: what each made class under the named one finds. The
/// call is noted.
pub fn follow_called(
    alloc: Global,
    at: &At<'_>,
    notes: &mut Notes,
    number: u32,
    out: &mut Vec<Fact>,
) -> Result<(), AllocError>
    ensures notes { IsResolved at.now.program.now at.now.hierarchy.now → AreNotes at.now.program.now notes.old
        → OnOk result (NotesCall at.now.program.now notes.old notes.new number out.old.items out.new.items) }
    ensures reached { (o : Outside) (t : Tables) → IsResolved at.now.program.now at.now.hierarchy.now → AreNotes at.now.program.now notes.old → Reached at.now.program.now o t (fact.Called number)
        → AreReached at.now.program.now o t notes.old → AllReached at.now.program.now o t out.old.items → OnOk result (BothReached at.now.program.now o t notes.new out.new.items) }
{
    match at.method_name(number) {
        Some(name) => {
            notes.called_on.add(name.class, number)?;
            add_on_all(
                alloc,
                at,
                notes.made_under.row(name.class),
                number,
                &mut notes.classes,
                out,
            )?;
            Ok(())
        }
        None => Ok(()),
    }
}

/// Notes a made class under a type, and adds what its objects find for all that is called on that type.
fn add_under(
    alloc: Global,
    at: &At<'_>,
    notes: &mut Notes,
    class: u32,
    kind: u32,
    out: &mut Vec<Fact>,
) -> Result<(), AllocError>
    ensures notes { IsResolved at.now.program.now at.now.hierarchy.now → AreNotes at.now.program.now notes.old
        → OnOk result (NotesUnder at.now.program.now notes.old notes.new class (kind ∷ []) out.old.items out.new.items) }
    ensures reached { (o : Outside) (t : Tables) → IsResolved at.now.program.now at.now.hierarchy.now → AreNotes at.now.program.now notes.old → IsMadeUnder at.now.program.now o t class kind
        → AreReached at.now.program.now o t notes.old → AllReached at.now.program.now o t out.old.items → OnOk result (BothReached at.now.program.now o t notes.new out.new.items) }
{
    notes.made_under.add(kind, class)?;
    add_all_called(
        alloc,
        at,
        class,
        notes.called_on.row(kind),
        &mut notes.classes,
        out,
    )?;
    Ok(())
}

/// Notes a made class under these types, and adds what its objects find for all that is called on them.
fn add_under_all(
    alloc: Global,
    at: &At<'_>,
    notes: &mut Notes,
    class: u32,
    kinds: &[u32],
    out: &mut Vec<Fact>,
) -> Result<(), AllocError>
    ensures notes { IsResolved at.now.program.now at.now.hierarchy.now → AreNotes at.now.program.now notes.old
        → OnOk result (NotesUnder at.now.program.now notes.old notes.new class kinds.now out.old.items out.new.items) }
    ensures reached { (o : Outside) (t : Tables) → IsResolved at.now.program.now at.now.hierarchy.now → AreNotes at.now.program.now notes.old
        → ((u : ℕ) → Contains kinds.now u → IsMadeUnder at.now.program.now o t class u)
        → AreReached at.now.program.now o t notes.old → AllReached at.now.program.now o t out.old.items → OnOk result (BothReached at.now.program.now o t notes.new out.new.items) }
{
    for kind in kinds {
        add_under(alloc, at, notes, class, *kind, out)?;
    }
    Ok(())
}

/// Adds a method, unless it is shut.
fn add_unshut(shut: &[bool], method: &Method, out: &mut Vec<Fact>) -> Result<(), AllocError>
    ensures { OnOk result (out.new.items ≡ out.old.items ++ open_of shut.now (Some method.now)) }
{
    match shut.get(method.name as usize) {
        Some(true) => Ok(()),
        _ => {
            out.push(Fact::Method(method.name))?;
            Ok(())
        }
    }
}

/// Adds a method that was found and that the framework may call, unless it is shut.
fn add_open(
    at: &At<'_>,
    shut: &[bool],
    found: Option<MethodAt>,
    out: &mut Vec<Fact>,
) -> Result<(), AllocError>
    ensures { OnOk result (out.new.items ≡ out.old.items ++ open_facts at.now.program.now shut.now found) }
{
    match found {
        Some(place) => match at.method_at(place) {
            Some(method) => add_unshut(shut, method, out),
            None => Ok(()),
        },
        None => Ok(()),
    }
}

/// What the framework may call of a virtual method of a class above a class, by its key: what the class finds; where
/// there is none, the interface's own method, which is a candidate.
fn inherited(at: &At<'_>, class: u32, above: u32, key: u32) -> Option<MethodAt>
    ensures { IsResolved at.now.program.now at.now.hierarchy.now → (name proto : ℕ) → IsKey at.now.program.now at.now.hierarchy.now key name proto
        → result ≡ inherited at.now.program.now class above name proto }
{
    match at.hierarchy.find_virtual(at.program, class, key) {
        Some(found) => Some(found),
        None => match at.program.version {
            Version::V037 => {
                if at.hierarchy.is_key_of_object(key) {
                    None
                } else {
                    at.hierarchy.own_virtual(at.program, above, key)
                }
            }
            Version::V035 => None,
        },
    }
}

/// Adds what the framework may call of a method of a class above a class.
fn add_inherited(
    at: &At<'_>,
    shut: &[bool],
    class: u32,
    above: u32,
    method: &Method,
    out: &mut Vec<Fact>,
) -> Result<(), AllocError>
    ensures stays { OnOk result (Stays out.old.items out.new.items) }
    ensures inherits { IsResolved at.now.program.now at.now.hierarchy.now → OnOk result (Inherits at.now.program.now shut.now class above (method.now ∷ []) out.new.items) }
    ensures only { IsResolved at.now.program.now at.now.hierarchy.now → IsNamed at.now.program.now method.now
        → OnOk result (AddsOnly (InheritedBy at.now.program.now shut.now class above method.now) out.old.items out.new.items) }
{
    if at.hierarchy.is_virtual(method) {
        let key = at.hierarchy.key_of_method(method.name);
        add_open(at, shut, inherited(at, class, above, key), out)?;
    }
    Ok(())
}

/// Adds what the framework may call of the methods of a class above a class.
fn add_inherited_all(
    at: &At<'_>,
    shut: &[bool],
    class: u32,
    above: u32,
    methods: &[Method],
    out: &mut Vec<Fact>,
) -> Result<(), AllocError>
    ensures stays { OnOk result (Stays out.old.items out.new.items) }
    ensures inherits { IsResolved at.now.program.now at.now.hierarchy.now → OnOk result (Inherits at.now.program.now shut.now class above methods.now out.new.items) }
    ensures only { IsResolved at.now.program.now at.now.hierarchy.now → ((m : Method) → Contains methods.now m → IsNamed at.now.program.now m)
        → OnOk result (AddsOnly (InheritedFrom at.now.program.now shut.now class above methods.now) out.old.items out.new.items) }
{
    for method in methods {
        add_inherited(at, shut, class, above, method, out)?;
    }
    Ok(())
}

/// Adds what the framework may call of the methods of the class of a type above a class.
fn add_inherited_of(
    at: &At<'_>,
    shut: &[bool],
    class: u32,
    kind: u32,
    out: &mut Vec<Fact>,
) -> Result<(), AllocError>
    ensures stays { OnOk result (Stays out.old.items out.new.items) }
    ensures inherits { IsResolved at.now.program.now at.now.hierarchy.now → OnOk result (InheritsOf at.now.program.now shut.now class kind out.new.items) }
    ensures only { IsResolved at.now.program.now at.now.hierarchy.now → is_well_formed at.now.program.now ≡ true
        → OnOk result (AddsOnly (Inherited at.now.program.now shut.now class kind) out.old.items out.new.items) }
{
    match at.hierarchy.place_of(kind) {
        Some(above) => match at.class_at(above) {
            Some(defined) => {
                add_inherited_all(at, shut, class, above, defined.methods.as_slice(), out)?;
                Ok(())
            }
            None => Ok(()),
        },
        None => Ok(()),
    }
}

/// Adds what the framework may call of the methods of all classes of these types above a class.
fn add_all_inherited(
    at: &At<'_>,
    shut: &[bool],
    class: u32,
    kinds: &[u32],
    out: &mut Vec<Fact>,
) -> Result<(), AllocError>
    ensures stays { OnOk result (Stays out.old.items out.new.items) }
    ensures inherits { IsResolved at.now.program.now at.now.hierarchy.now → OnOk result ((kind : ℕ) → Contains kinds.now kind → InheritsOf at.now.program.now shut.now class kind out.new.items) }
    ensures only { IsResolved at.now.program.now at.now.hierarchy.now → is_well_formed at.now.program.now ≡ true
        → OnOk result (AddsOnly (InheritedAmong at.now.program.now shut.now class kinds.now) out.old.items out.new.items) }
{
    for kind in kinds {
        add_inherited_of(at, shut, class, *kind, out)?;
    }
    Ok(())
}

/// Adds what a class finds for a key, unless it is shut.
fn add_found_open(
    at: &At<'_>,
    shut: &[bool],
    class: u32,
    key: u32,
    out: &mut Vec<Fact>,
) -> Result<(), AllocError>
    ensures stays { OnOk result (Stays out.old.items out.new.items) }
    ensures common { IsResolved at.now.program.now at.now.hierarchy.now → OnOk result (FindsOpen at.now.program.now at.now.hierarchy.now shut.now class key out.new.items) }
    ensures only { IsResolved at.now.program.now at.now.hierarchy.now → IsCommonKey at.now.program.now at.now.hierarchy.now key
        → OnOk result (AddsOnly (FoundCommon at.now.program.now shut.now class) out.old.items out.new.items) }
{
    add_open(
        at,
        shut,
        at.hierarchy.find_virtual(at.program, class, key),
        out,
    )
}

/// Adds what a class finds for these keys of the methods that each object has.
fn add_common(
    at: &At<'_>,
    keys: &[u32],
    shut: &[bool],
    class: u32,
    out: &mut Vec<Fact>,
) -> Result<(), AllocError>
    ensures stays { OnOk result (Stays out.old.items out.new.items) }
    ensures common { IsResolved at.now.program.now at.now.hierarchy.now
        → OnOk result ((key : ℕ) → Contains keys.now key → FindsOpen at.now.program.now at.now.hierarchy.now shut.now class key out.new.items) }
    ensures only { IsResolved at.now.program.now at.now.hierarchy.now → AreCommon at.now.program.now at.now.hierarchy.now keys.now
        → OnOk result (AddsOnly (FoundCommon at.now.program.now shut.now class) out.old.items out.new.items) }
{
    for key in keys {
        add_found_open(at, shut, class, *key, out)?;
    }
    Ok(())
}

/// Adds what the framework may call on a made class with these types above it: the methods that each object has, and
/// where a framework type other than `Ljava/lang/Object;` is among the types, all its virtual methods.
fn add_callbacks(
    at: &At<'_>,
    tables: &Tables,
    class: u32,
    above: &[u32],
    out: &mut Vec<Fact>,
) -> Result<(), AllocError>
    ensures stays { OnOk result (Stays out.old.items out.new.items) }
    ensures called_back { IsResolved at.now.program.now at.now.hierarchy.now → is_well_formed at.now.program.now ≡ true
        → HasCommon at.now.program.now at.now.hierarchy.now tables.now.of_object.items
        → OnOk result ((kind : ℕ) (y : Fact) → class_place at.now.program.now kind ≡ Some class → HasAbove at.now.program.now kind above.now
        → CallsBack at.now.program.now tables.now.object tables.now.shut.items kind y → Contains out.new.items y) }
    ensures only { IsResolved at.now.program.now at.now.hierarchy.now → is_well_formed at.now.program.now ≡ true → AreCommon at.now.program.now at.now.hierarchy.now tables.now.of_object.items
        → OnOk result (AddsOnly (CallsOn at.now.program.now tables.now.object tables.now.shut.items class above.now) out.old.items out.new.items) }
{
    add_common(
        at,
        tables.of_object.as_slice(),
        tables.shut.as_slice(),
        class,
        out,
    )?;
    if has_outer(at, tables.object, above) {
        add_all_inherited(at, tables.shut.as_slice(), class, above, out)?;
        Ok(())
    } else {
        Ok(())
    }
}

/// What follows from a made class of this type and place: what its objects find for all that is called on the types above
/// it, and what the framework may call. The class is noted under these types.
fn add_made(
    alloc: Global,
    at: &At<'_>,
    tables: &Tables,
    notes: &mut Notes,
    made: (u32, u32),
    out: &mut Vec<Fact>,
) -> Result<(), AllocError>
    ensures notes { IsResolved at.now.program.now at.now.hierarchy.now → is_well_formed at.now.program.now ≡ true → AreNotes at.now.program.now notes.old
        → HasCommon at.now.program.now at.now.hierarchy.now tables.now.of_object.items → class_place at.now.program.now made.0 ≡ Some made.1
        → OnOk result (NotesMade at.now.program.now tables.now notes.old notes.new made.0 out.new.items) }
    ensures reached { (o : Outside) → IsResolved at.now.program.now at.now.hierarchy.now → is_well_formed at.now.program.now ≡ true → AreNotes at.now.program.now notes.old
        → AreCommon at.now.program.now at.now.hierarchy.now tables.now.of_object.items
        → class_place at.now.program.now made.0 ≡ Some made.1 → Reached at.now.program.now o tables.now (fact.Made made.0) → AreReached at.now.program.now o tables.now notes.old
        → AllReached at.now.program.now o tables.now out.old.items
        → OnOk result (BothReached at.now.program.now o tables.now notes.new out.new.items) }
{
    let (kind, class) = made;
    let above = climb(alloc, at, &mut notes.kinds, tables.object, kind)?;
    add_under_all(alloc, at, notes, class, above.as_slice(), out)?;
    add_callbacks(at, tables, class, above.as_slice(), out)?;
    Ok(())
}

/// What follows from a made class of this type.
pub fn follow_made(
    alloc: Global,
    at: &At<'_>,
    tables: &Tables,
    notes: &mut Notes,
    kind: u32,
    out: &mut Vec<Fact>,
) -> Result<(), AllocError>
    ensures notes { IsResolved at.now.program.now at.now.hierarchy.now → is_well_formed at.now.program.now ≡ true → AreNotes at.now.program.now notes.old
        → HasCommon at.now.program.now at.now.hierarchy.now tables.now.of_object.items → OnOk result (NotesMade at.now.program.now tables.now notes.old notes.new kind out.new.items) }
    ensures reached { (o : Outside) → IsResolved at.now.program.now at.now.hierarchy.now → is_well_formed at.now.program.now ≡ true → AreNotes at.now.program.now notes.old
        → AreCommon at.now.program.now at.now.hierarchy.now tables.now.of_object.items
        → Reached at.now.program.now o tables.now (fact.Made kind) → AreReached at.now.program.now o tables.now notes.old → AllReached at.now.program.now o tables.now out.old.items
        → OnOk result (BothReached at.now.program.now o tables.now notes.new out.new.items) }
{
    match at.hierarchy.place_of(kind) {
        Some(class) => add_made(alloc, at, tables, notes, (kind, class), out),
        None => Ok(()),
    }
}
