//! The live members of a program.

ghost use Rattle.std.specs.Prelude.{◌≡◌, true, length, IfOk, vec_len};
ghost use Rattle.call_graph.specs.Facts.{Fits, Sized};
ghost use Rattle.program_model.specs.ProgramRules.{is_well_formed};
ghost use Rattle.call_graph.specs.Objects.{HasCommon};
ghost use Rattle.call_graph.specs.Tables.{AreTables};
ghost use Rattle.call_graph.specs.Closed.{IsClosed, IsClosedSet};
ghost use Rattle.call_graph.specs.Least.{AreCommon, AreKnownReached, IsLeastSet};
ghost use Rattle.hierarchy.specs.Shapes.{IsResolved};

use crate::at::At;
use crate::facts::{Facts, no_facts};
use crate::notes::Notes;
use crate::rules::{begin, follow};
use crate::tables::Tables;
use hierarchy::Hierarchy;
use program_model::{Outside, Program};
use std::alloc::{AllocError, Global};

/// The live classes and the made ones by type number, and the live fields and methods by their numbers.
#[derive(PartialEq, Eq, Debug, Drop)]
pub struct LiveSet {
    pub classes: Vec<bool>,
    pub made: Vec<bool>,
    pub fields: Vec<bool>,
    pub methods: Vec<bool>,
}

/// The marks of facts.
fn marks_of(facts: Facts) -> LiveSet
    ensures fits { (p : Program) → Sized p facts → Fits p result }
    ensures closed { (p : Program) (o : Outside) (t : Tables) → AreTables p o t → Sized p facts → IsClosed p o t facts → IsClosedSet p o result }
    ensures least { (p : Program) (o : Outside) (t : Tables) → AreTables p o t → AreKnownReached p o t facts → IsLeastSet p o result }
{
    let Facts {
        classes,
        made,
        fields,
        methods,
        called: _,
    } = facts;
    LiveSet {
        classes: classes.into_marks(),
        made: made.into_marks(),
        fields: fields.into_marks(),
        methods: methods.into_marks(),
    }
}

/// All facts that follow from what the outside keeps.
fn search(
    alloc: Global,
    program: &Program,
    hierarchy: &Hierarchy,
    outside: &Outside,
    tables: &Tables,
) -> Result<Facts, AllocError>
    ensures sized { IfOk result (Sized program.now) }
    ensures closed { IsResolved program.now hierarchy.now → is_well_formed program.now ≡ true → HasCommon program.now hierarchy.now tables.now.of_object.items
        → IfOk result (λ f. IsClosed program.now outside.now tables.now f) }
    ensures least { IsResolved program.now hierarchy.now → is_well_formed program.now ≡ true → HasCommon program.now hierarchy.now tables.now.of_object.items
        → AreCommon program.now hierarchy.now tables.now.of_object.items → IfOk result (AreKnownReached program.now outside.now tables.now) }
{
    let mut facts = no_facts(alloc, program)?;
    let mut notes = Notes::new(alloc, program, hierarchy)?;
    let mut more = Vec::new(alloc);
    let at = At { program, hierarchy };
    begin(&at, outside, &mut more)?;
    facts.add_all(more.as_slice())?;
    while let Some(fact) = facts.next() {
        more.clear();
        follow(alloc, &at, tables, &mut notes, fact, &mut more)?;
        facts.add_all(more.as_slice())?;
    }
    Ok(facts)
}

/// The least sets of live classes, made classes, fields and methods with these rules.
///
/// - What the outside keeps is live, a conditional member where its class is, and a conditional class where its owner
///   is. The class of a live member is live, and so are the program superclass, the interfaces and the `<clinit>` of a
///   live class; in version 037 also the virtual methods with code of a live interface that has a `<clinit>`.
/// - What the descriptors, annotations and first values of live members name is live, and what live bodies name.
/// - A class that is neither abstract nor an interface is made where it is kept, where a constructor of it is, and where
///   a NewInstance of a live body names it.
/// - What a live static, direct or super call finds is live, and what each made class under the class that a virtual or
///   interface call names finds for it. A kept virtual method counts as called: the framework that calls it on an object
///   enters what the object's class finds.
/// - The framework may call on a made class the methods that each object has, and where the class has a framework
///   ancestor other than `Ljava/lang/Object;`, all its virtual methods, unless they are shut.
///
/// The rules give more than the definition Live in four places. A kept number that is named `<init>` has its class made also
/// where the class doesn't define that constructor. The classes in the descriptor of a member that an annotation or a first value
/// names are live. Where the program itself defines `Ljava/lang/Object;`, what stands above it stands above every class. And in
/// version 037 the framework may call, by a name and proto that a made class under a type of its own doesn't find, the method of
/// every program class above it, also of one that no walk along interfaces alone leads to: a class that an interface list names
/// though it is none, or the superclass of an interface.
///
/// Each set has one entry for each number of its table. The only error is want of memory.
pub fn live_members(
    alloc: Global,
    program: &Program,
    hierarchy: &Hierarchy,
    outside: &Outside,
) -> Result<LiveSet, AllocError>
    ensures fits { IfOk result (Fits program.now) }
    ensures closed { is_well_formed program.now ≡ true → IsResolved program.now hierarchy.now → IfOk result (λ s. IsClosedSet program.now outside.now s) }
    ensures least { is_well_formed program.now ≡ true → IsResolved program.now hierarchy.now → IfOk result (IsLeastSet program.now outside.now) }
{
    let tables = Tables::new(alloc, program, hierarchy, outside)?;
    let facts = search(alloc, program, hierarchy, outside, &tables)?;
    Ok(marks_of(facts))
}
