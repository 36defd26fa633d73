//! All tables of a program, made once.

ghost use Rattle.std.specs.Prelude.{◌≡◌, ◌<◌, ◌^◌, ◌&&◌, ◌||◌, ◌⊎◌, not, ℕ, true, length, map, nat_eq, cond, Some, None, slice_get, slice_set, slice_index_or, IfOk, IfSome, IsSome, OnOk, vec_len, replicate};
ghost use Rattle.std.specs.Option.{option_copied};
ghost use Rattle.program_model.specs.declared.pools.MethodName.{MethodName};
ghost use Rattle.program_model.specs.Lookups as look;
ghost use Rattle.program_model.specs.Lookups.{method_or};
ghost use Rattle.program_model.specs.MemberRules.{is_direct};
ghost use Rattle.program_model.specs.declared.program.Program.{Program};
ghost use Rattle.program_model.specs.ProgramRules.{is_well_formed};
ghost use Rattle.class_defs.specs.Finding.{resolves_field};
ghost use Rattle.class_defs.specs.Members.{is_interface, is_common};
ghost use Rattle.class_defs.specs.Starts.{initialiser_place};
ghost use Rattle.hierarchy.specs.Shapes.{IsCause, IsOf, IsResolved};
ghost use Rattle.dalvik_lookups.specs.Accepting.{IsAccepted};
ghost use Rattle.dalvik_lookups.specs.Facing.{IsFace};
ghost use Rattle.dalvik_lookups.specs.Playing.{ArePlays};
ghost use Rattle.dalvik_lookups.specs.Reached.{constructed_kinds, AreTypeMarks, IsOuter};
ghost use Rattle.dalvik_lookups.specs.Starting.{class_default};
ghost use Rattle.dalvik_defs.specs.Naming.{text_at, type_at, method_at, named};
ghost use Rattle.dalvik_defs.specs.Under.{class_under, is_under};
ghost use Rattle.dalvik_defs.specs.Names.{is_reference, method_eq, object_constructor};
ghost use Rattle.dalvik_lookups.specs.Spelling.{is_constructor};
ghost use Rattle.dalvik_lookups.specs.Walks.{IsKept};
ghost use Rattle.dalvik_lookups.specs.Views.{names_of, name_at, type_text, AreKept, AreTypes, AreTexts, IsKind, IsType, IsText, IsNamed};
ghost use Rattle.dalvik_lookups.specs.Slots.{slots_from, slots_after, slot_of};
ghost use Rattle.dalvik_lookups.specs.Tables.{class_has, kind_in, string_in, text_among, place_of, place_named, AreBelow, KindsMade, StringsMade, ArePlaces, HasNames, AreReady, AreAbove, Grows, IsOver, IsRight};

use crate::declared::Declared;
use crate::graph::{Above, above_all, rows_of};
use crate::known::OBJECT;
use crate::memo::Memo;
use crate::naming::object_constructors;
use crate::outer::{Outer, is_on, outer_of};
use crate::plays::{Play, plays_of};
use crate::slots::{first_slots, slot_at, slot_count};
use crate::starts::defaults;
use crate::texts::Texts;
use crate::types::{Kind, Types};
use dalvik_defs::{Framework, Move};
use dex_base::Text;
use hierarchy::{Hierarchy, HierarchyFault};
use program_model::{Class, Flags, Method, MethodAt, MethodName, Outside, Program};
use std::alloc::{AllocError, Global};

/// Stands in a table for no class.
const NO_CLASS: u32 = u32::MAX;

/// What a run asks of a program, by numbers. `kinds` has the type of each type number, `strings` the text of each string
/// number, `class_of` the place of the class that defines each type, `class_kinds` the type of each class.
#[derive(Drop)]
pub struct Lookups<'a> {
    pub program: &'a Program,
    pub framework: &'a Framework,
    pub types: Types<'a>,
    pub texts: Texts<'a>,
    pub outer: Outer,
    pub(crate) hierarchy: Hierarchy,
    pub(crate) kinds: Vec<Kind>,
    pub(crate) strings: Vec<usize>,
    pub(crate) class_of: Vec<u32>,
    pub(crate) class_kinds: Vec<Kind>,
    pub(crate) above: Above,
    pub(crate) defaults: Vec<bool>,
    pub(crate) slots: Vec<usize>,
    pub(crate) slot_count: usize,
    pub(crate) constructors: Vec<bool>,
}

/// The names of a program by numbers, before the framework and the script are looked at.
#[derive(Drop)]
pub(crate) struct Names<'a> {
    pub types: Types<'a>,
    pub texts: Texts<'a>,
    pub kinds: Vec<Kind>,
    pub strings: Vec<usize>,
    pub class_of: Vec<u32>,
    pub class_kinds: Vec<Kind>,
}

/// The units of a text with a number, none past the table.
pub(crate) fn units_at<'a>(texts: &'a [Text], number: u32) -> &'a [u16]
    ensures { result.now ≡ text_among texts.now number }
{
    match texts.get(number as usize) {
        Some(text) => text.units(),
        None => &[],
    }
}

/// The type of each type number.
fn kinds_of<'a>(
    alloc: Global,
    program: &'a Program,
    types: &mut Types<'a>,
) -> Result<Vec<Kind>, AllocError>
    ensures { AreKept types.old → IfOk result (λ kinds. KindsMade program.now types.old types.new kinds.items (length program.now.types)) }
{
    let mut kinds = Vec::new(alloc);
    for string in program.types.as_slice() {
        kinds.push(types.add(units_at(program.strings.as_slice(), *string))?)?;
    }
    Ok(kinds)
}

/// The text of each string number.
fn strings_of<'a>(
    alloc: Global,
    program: &'a Program,
    texts: &mut Texts<'a>,
) -> Result<Vec<usize>, AllocError>
    ensures { AreTexts texts.old → IfOk result (λ strings. StringsMade program.now texts.new strings.items (length program.now.strings)) }
{
    let mut strings = Vec::new(alloc);
    for string in program.strings.as_slice() {
        strings.push(texts.add(string.units())?)?;
    }
    Ok(strings)
}

/// The type of a number, `Ljava/lang/Object;` past the table.
pub(crate) fn kind_at(kinds: &[Kind], kind: u32) -> Kind
    ensures { result ≡ kind_in kinds.now kind }
{
    match kinds.get(kind as usize) {
        Some(kind) => *kind,
        None => Kind::plain(OBJECT),
    }
}

/// The type of each class.
fn class_kinds(alloc: Global, program: &Program, kinds: &[Kind]) -> Result<Vec<Kind>, AllocError>
    ensures { IfOk result (λ own. own.items ≡ map (λ c. kind_in kinds.now c.name) program.now.classes) }
{
    let mut own = Vec::new(alloc);
    for class in program.classes.as_slice() {
        own.push(kind_at(kinds, class.name))?;
    }
    Ok(own)
}

/// Whether the type is no array and no class has it yet.
fn is_free(places: &[u32], kind: Kind) -> bool
    ensures { result ≡ (nat_eq kind.depth 0 && nat_eq (slice_index_or places.now kind.base 4294967295) 4294967295) }
{
    if kind.is_array() {
        return false;
    }
    match places.get(kind.base) {
        Some(place) => *place == NO_CLASS,
        None => true,
    }
}

/// Writes a place at a type, unless that is past the end.
fn put(places: &mut [u32], base: usize, place: u32)
    ensures { places.new ≡ slice_set places.old base place }
{
    if base < places.len() {
        places[base] = place;
    }
}

/// Notes the place of a class at its type, unless an earlier class has that type.
fn put_class(places: &mut [u32], kind: Kind, place: u32)
    ensures { places.new ≡ cond (nat_eq kind.depth 0 && nat_eq (slice_index_or places.old kind.base 4294967295) 4294967295) (slice_set places.old kind.base place) places.old }
{
    if is_free(places, kind) {
        put(places, kind.base, place);
    }
}

/// Writes the place of each class at its type, where none is written yet.
fn place_all(places: &mut [u32], class_kinds: &[Kind])
    ensures size { length places.new ≡ length places.old }
    ensures placed { (count : ℕ) → places.old ≡ replicate count 4294967295 → length class_kinds.now < 2 ^ 32 → AreBelow count class_kinds.now → ArePlaces class_kinds.now places.new }
{
    let mut place: u32 = 0;
    for kind in class_kinds {
        put_class(places, *kind, place);
        place = place.saturating_add(1);
    }
}

/// The place of the class that defines each of so many types.
fn classes_by_type(
    alloc: Global,
    types: usize,
    class_kinds: &[Kind],
) -> Result<Vec<u32>, AllocError>
    ensures { length class_kinds.now < 2 ^ 32 → AreBelow types class_kinds.now → IfOk result (λ places. ArePlaces class_kinds.now places.items) }
{
    let mut places = vec![in alloc; NO_CLASS; types]?;
    place_all(places.as_mut_slice(), class_kinds);
    Ok(places)
}

/// The place of the class that defines a type.
pub(crate) fn class_in(class_of: &[u32], kind: Kind) -> Option<u32>
    ensures { result ≡ cond (nat_eq kind.depth 0) (place_of (slice_index_or class_of.now kind.base 4294967295)) None }
{
    if kind.is_array() {
        return None;
    }
    match class_of.get(kind.base) {
        Some(place) => {
            if *place == NO_CLASS {
                None
            } else {
                Some(*place)
            }
        }
        None => None,
    }
}

/// The numbers of a program's types and texts, and its classes by type.
#[derive(Drop)]
struct Numbers {
    kinds: Vec<Kind>,
    strings: Vec<usize>,
    class_of: Vec<u32>,
    class_kinds: Vec<Kind>,
}

/// The numbers of a program's types and texts, which are added, and its classes by type.
fn numbers_of<'a>(
    alloc: Global,
    program: &'a Program,
    types: &mut Types<'a>,
    texts: &mut Texts<'a>,
) -> Result<Numbers, AllocError>
    ensures kinds { AreKept types.old → IfOk result (λ made. KindsMade program.now types.old types.new made.kinds.items (length program.now.types)) }
    ensures strings { AreTexts texts.old → IfOk result (λ made. StringsMade program.now texts.new made.strings.items (length program.now.strings)) }
    ensures own { IfOk result (λ made. made.class_kinds.items ≡ map (λ c. kind_in made.kinds.items c.name) program.now.classes) }
    ensures places { AreTypes types.old → length program.now.classes < 2 ^ 32 → IfOk result (λ made. ArePlaces made.class_kinds.items made.class_of.items) }
{
    let kinds = kinds_of(alloc, program, types)?;
    let strings = strings_of(alloc, program, texts)?;
    let class_kinds = class_kinds(alloc, program, kinds.as_slice())?;
    let class_of = classes_by_type(alloc, types.len(), class_kinds.as_slice())?;
    Ok(Numbers {
        kinds,
        strings,
        class_of,
        class_kinds,
    })
}

/// The names of a program by numbers.
fn names_of<'a>(alloc: Global, program: &'a Program) -> Result<Names<'a>, AllocError>
    ensures { length program.now.classes < 2 ^ 32 → IfOk result (λ names. HasNames program.now names) }
{
    let mut types = Types::new(alloc)?;
    let mut texts = Texts::new(alloc);
    let numbers = numbers_of(alloc, program, &mut types, &mut texts)?;
    Ok(Names {
        types,
        texts,
        kinds: numbers.kinds,
        strings: numbers.strings,
        class_of: numbers.class_of,
        class_kinds: numbers.class_kinds,
    })
}

/// What stands directly above each type.
fn above_of<'a>(
    alloc: Global,
    program: &Program,
    framework: &'a Framework,
    names: &mut Names<'a>,
) -> Result<Above, AllocError>
    ensures grows { AreReady names.old → OnOk result (Grows names.old names.new) }
    ensures above { is_well_formed program.now ≡ true → HasNames program.now names.old → IfOk result (λ above. AreAbove program.now framework.now names.new.types above) }
{
    let rows = rows_of(alloc, &mut names.types, framework)?;
    let above = above_all(alloc, program, names, &rows)?;
    Ok(above)
}

/// The names of a program and a script by numbers, and the moves of the script.
#[derive(Drop)]
pub(crate) struct Scripted<'a> {
    pub names: Names<'a>,
    pub plays: Vec<Play>,
}

/// The names of a program, a script and a framework by numbers, the moves of the script, and what stands directly above
/// each type.
#[derive(Drop)]
pub(crate) struct Stood<'a> {
    pub names: Names<'a>,
    pub plays: Vec<Play>,
    pub above: Above,
}

/// What a run asks of classes and methods one by one.
#[derive(Drop)]
pub(crate) struct Marked {
    pub outer: Outer,
    pub defaults: Vec<bool>,
    pub slots: Vec<usize>,
    pub constructors: Vec<bool>,
}

/// The moves of a script by numbers. The names that they name are added.
fn plays_in<'a>(
    alloc: Global,
    program: &Program,
    names: &mut Names<'a>,
    script: &'a [Move],
) -> Result<Vec<Play>, AllocError>
    ensures grows { AreReady names.old → OnOk result (Grows names.old names.new) }
    ensures are { is_well_formed program.now ≡ true → HasNames program.now names.old → IfOk result (λ plays. ArePlays program.now names.new.types names.new.texts script.now plays.items) }
{
    let declared = Declared::new(alloc, program, names)?;
    plays_of(alloc, names, &declared, script)
}

/// The names of a program and a script by numbers, and the moves of the script.
fn script_names<'a>(
    alloc: Global,
    program: &'a Program,
    script: &'a [Move],
) -> Result<Scripted<'a>, AllocError>
    ensures names { length program.now.classes < 2 ^ 32 → IfOk result (λ made. HasNames program.now made.names) }
    ensures plays { is_well_formed program.now ≡ true → IfOk result (λ made. ArePlays program.now made.names.types made.names.texts script.now made.plays.items) }
{
    let mut names = names_of(alloc, program)?;
    let plays = plays_in(alloc, program, &mut names, script)?;
    Ok(Scripted { names, plays })
}

/// The names of a program, a script and a framework by numbers, with what stands directly above each type.
fn names_above<'a>(
    alloc: Global,
    program: &'a Program,
    framework: &'a Framework,
    script: &'a [Move],
) -> Result<Stood<'a>, AllocError>
    ensures names { is_well_formed program.now ≡ true → IfOk result (λ made. HasNames program.now made.names) }
    ensures above { is_well_formed program.now ≡ true → IfOk result (λ made. AreAbove program.now framework.now made.names.types made.above) }
    ensures plays { is_well_formed program.now ≡ true → IfOk result (λ made. ArePlays program.now made.names.types made.names.texts script.now made.plays.items) }
{
    let made = script_names(alloc, program, script)?;
    let mut names = made.names;
    let above = above_of(alloc, program, framework, &mut names)?;
    Ok(Stood {
        names,
        plays: made.plays,
        above,
    })
}

/// What a run asks of classes and methods one by one.
fn marks_of(
    alloc: Global,
    program: &Program,
    outside: &Outside,
    hierarchy: &Hierarchy,
    names: &Names<'_>,
) -> Result<Marked, AllocError>
    ensures slots { IfOk result (λ made. made.slots.items ≡ slots_from 0 program.now.classes) }
    ensures outer { IfOk result (λ made. IsOuter program.now outside.now made.outer) }
    ensures classes { HasNames program.now names.now → IfOk result (λ made. AreTypeMarks program.now names.now.types outside.now.classes made.outer.classes.items) }
    ensures constructed { HasNames program.now names.now → IfOk result (λ made. AreTypeMarks program.now names.now.types (constructed_kinds program.now outside.now.methods) made.outer.constructed.items) }
    ensures constructors { IfOk result (λ made. made.constructors.items ≡ map (is_constructor program.now) program.now.methods) }
    ensures defaults { IsOf program.now hierarchy.now → IfOk result (λ made. made.defaults.items ≡ map (class_default program.now) program.now.classes) }
{
    let defaults = defaults(alloc, program, hierarchy)?;
    let slots = first_slots(alloc, program)?;
    let constructors = object_constructors(alloc, program)?;
    let outer = outer_of(alloc, program, outside, names)?;
    Ok(Marked {
        outer,
        defaults,
        slots,
        constructors,
    })
}

/// All that is made of a program, a script and a framework over the program's hierarchy.
fn parts_of<'a>(
    alloc: Global,
    program: &'a Program,
    outside: &Outside,
    framework: &'a Framework,
    script: &'a [Move],
    hierarchy: &Hierarchy,
) -> Result<(Stood<'a>, Marked), AllocError>
    ensures names { is_well_formed program.now ≡ true → IfOk result (λ made. HasNames program.now made.0.names) }
    ensures above { is_well_formed program.now ≡ true → IfOk result (λ made. AreAbove program.now framework.now made.0.names.types made.0.above) }
    ensures plays { is_well_formed program.now ≡ true → IfOk result (λ made. ArePlays program.now made.0.names.types made.0.names.texts script.now made.0.plays.items) }
    ensures slots { IfOk result (λ made. made.1.slots.items ≡ slots_from 0 program.now.classes) }
    ensures outer { IfOk result (λ made. IsOuter program.now outside.now made.1.outer) }
    ensures classes { is_well_formed program.now ≡ true → IfOk result (λ made. AreTypeMarks program.now made.0.names.types outside.now.classes made.1.outer.classes.items) }
    ensures constructed { is_well_formed program.now ≡ true → IfOk result (λ made. AreTypeMarks program.now made.0.names.types (constructed_kinds program.now outside.now.methods) made.1.outer.constructed.items) }
    ensures constructors { IfOk result (λ made. made.1.constructors.items ≡ map (is_constructor program.now) program.now.methods) }
    ensures defaults { IsOf program.now hierarchy.now → IfOk result (λ made. made.1.defaults.items ≡ map (class_default program.now) program.now.classes) }
{
    let made = names_above(alloc, program, framework, script)?;
    let marked = marks_of(alloc, program, outside, hierarchy, &made.names)?;
    Ok((made, marked))
}

/// The tables of a program over its hierarchy and its names.
fn tables_of<'a>(
    program: &'a Program,
    framework: &'a Framework,
    hierarchy: Hierarchy,
    names: Names<'a>,
    above: Above,
    marked: Marked,
) -> Lookups<'a>
    ensures over { IsOver program.now names.entry result }
    ensures classes { result.hierarchy ≡ hierarchy }
    ensures above { result.above ≡ above }
    ensures framework { result.framework.now ≡ framework.now }
    ensures slots { result.slots ≡ marked.slots }
    ensures constructors { result.constructors ≡ marked.constructors }
    ensures outer { result.outer ≡ marked.outer }
    ensures defaults { result.defaults ≡ marked.defaults }
    ensures count { result.slot_count ≡ slots_after 0 program.now.classes }
{
    Lookups {
        program,
        framework,
        outer: marked.outer,
        hierarchy,
        types: names.types,
        texts: names.texts,
        kinds: names.kinds,
        strings: names.strings,
        class_of: names.class_of,
        class_kinds: names.class_kinds,
        above,
        defaults: marked.defaults,
        slots: marked.slots,
        slot_count: slot_count(program),
        constructors: marked.constructors,
    }
}

/// The tables of a program with this hierarchy, and the moves of a script by numbers.
fn both_of<'a>(
    alloc: Global,
    program: &'a Program,
    outside: &Outside,
    framework: &'a Framework,
    script: &'a [Move],
    hierarchy: Hierarchy,
) -> Result<(Lookups<'a>, Vec<Play>), AllocError>
    ensures program { IfOk result (λ both. both.0.program.now ≡ program.now) }
    ensures framework { IfOk result (λ both. both.0.framework.now ≡ framework.now) }
    ensures outer { IfOk result (λ both. IsOuter program.now outside.now both.0.outer) }
    ensures classes { is_well_formed program.now ≡ true → IfOk result (λ both. AreTypeMarks program.now both.0.types outside.now.classes both.0.outer.classes.items) }
    ensures constructed { is_well_formed program.now ≡ true → IfOk result (λ both. AreTypeMarks program.now both.0.types (constructed_kinds program.now outside.now.methods) both.0.outer.constructed.items) }
    ensures tables { is_well_formed program.now ≡ true → IsResolved program.now hierarchy → IfOk result (λ both. IsRight both.0) }
    ensures plays { is_well_formed program.now ≡ true → IfOk result (λ both. ArePlays program.now both.0.types both.0.texts script.now both.1.items) }
{
    let parts = parts_of(alloc, program, outside, framework, script, &hierarchy)?;
    let made = parts.0;
    let tables = tables_of(
        program, framework, hierarchy, made.names, made.above, parts.1,
    );
    Ok((tables, made.plays))
}

/// Passes want of memory on; every other fault is one of the classes.
fn refuse(fault: HierarchyFault) -> Result<(), AllocError>
    ensures { (p : Program) → IsCause p fault → OnOk result (IsAccepted p → ⊥) }
{
    match fault {
        HierarchyFault::NoMemory => Err(AllocError),
        _ => Ok(()),
    }
}

/// The classes of a program, none just where they have a fault.
fn build(alloc: Global, program: &Program) -> Result<Option<Hierarchy>, AllocError>
    ensures resolved { is_well_formed program.now ≡ true → IfOk result (λ made. IfSome made (λ hierarchy. IsResolved program.now hierarchy)) }
    ensures accepted { is_well_formed program.now ≡ true → IfOk result (λ made. IfSome made (λ _. IsAccepted program.now)) }
    ensures some { is_well_formed program.now ≡ true → IsAccepted program.now → IfOk result (λ made. IsSome made) }
{
    match Hierarchy::build(alloc, program) {
        Ok(hierarchy) => Ok(Some(hierarchy)),
        Err(fault) => {
            refuse(fault)?;
            Ok(None)
        }
    }
}

impl<'a> Lookups<'a> {
    /// The tables of a program and a framework, and the moves of a script by numbers; none just where a class has the
    /// type of an earlier one, is its own ancestor, or has a split override. The only error is want of memory.
    pub fn new(
        alloc: Global,
        program: &'a Program,
        outside: &Outside,
        framework: &'a Framework,
        script: &'a [Move],
    ) -> Result<Option<(Lookups<'a>, Vec<Play>)>, AllocError>
        ensures accepted { is_well_formed program.now ≡ true → IfOk result (λ made. IfSome made (λ _. IsAccepted program.now)) }
        ensures some { is_well_formed program.now ≡ true → IsAccepted program.now → IfOk result (λ made. IsSome made) }
        ensures program { IfOk result (λ made. IfSome made (λ both. both.0.program.now ≡ program.now)) }
        ensures framework { IfOk result (λ made. IfSome made (λ both. both.0.framework.now ≡ framework.now)) }
        ensures outer { IfOk result (λ made. IfSome made (λ both. IsOuter program.now outside.now both.0.outer)) }
        ensures classes { is_well_formed program.now ≡ true → IfOk result (λ made. IfSome made (λ both. AreTypeMarks program.now both.0.types outside.now.classes both.0.outer.classes.items)) }
        ensures constructed { is_well_formed program.now ≡ true → IfOk result (λ made. IfSome made (λ both. AreTypeMarks program.now both.0.types (constructed_kinds program.now outside.now.methods) both.0.outer.constructed.items)) }
        ensures tables { is_well_formed program.now ≡ true → IfOk result (λ made. IfSome made (λ both. IsRight both.0)) }
        ensures face { is_well_formed program.now ≡ true → IfOk result (λ made. IfSome made (λ both. IsFace both.0)) }
        ensures plays { is_well_formed program.now ≡ true → IfOk result (λ made. IfSome made (λ both. ArePlays program.now both.0.types both.0.texts script.now both.1.items)) }
    {
        let hierarchy = match build(alloc, program)? {
            Some(hierarchy) => hierarchy,
            None => return Ok(None),
        };
        let both = both_of(alloc, program, outside, framework, script, hierarchy)?;
        Ok(Some(both))
    }

    /// What look-ups have found, which is nothing yet.
    pub fn memo(&self, alloc: Global) -> Result<Memo, AllocError>
        ensures { IsRight self.now → IfOk result (IsKept self.now) }
    {
        let memo = Memo::new(
            alloc,
            &self.hierarchy,
            self.program.methods.len(),
            self.types.len(),
        )?;
        Ok(memo)
    }

    /// The type of a type number.
    pub fn kind(&self, kind: u32) -> Kind
        ensures table { result ≡ kind_in self.now.kinds.items kind }
        ensures is { IsNamed self.now → kind < length self.now.program.now.types → IsType self.now.types result (type_at self.now.program.now kind) }
    {
        kind_at(self.kinds.as_slice(), kind)
    }

    /// The number of the text of a string number.
    pub fn string(&self, string: u32) -> usize
        ensures table { result ≡ string_in self.now.strings.items string }
        ensures is { IsNamed self.now → string < length self.now.program.now.strings → IsText self.now.texts result (text_at self.now.program.now string) }
    {
        match self.strings.as_slice().get(string as usize) {
            Some(number) => *number,
            None => usize::MAX,
        }
    }

    /// The place of the class that defines a type.
    pub fn class_at(&self, kind: Kind) -> Option<u32>
        ensures { IsRight self.now → IsKind self.now.types kind → result ≡ place_named self.now.program.now (type_text self.now.types kind) }
    {
        class_in(self.class_of.as_slice(), kind)
    }

    /// The type of a class.
    pub fn kind_of_class(&self, class: u32) -> Kind
        ensures { IsRight self.now → (c : Class) → slice_get self.now.program.now.classes class ≡ Some c → IsType self.now.types result (type_at self.now.program.now c.name) }
    {
        kind_at(self.class_kinds.as_slice(), class)
    }

    /// What a method number names.
    pub(crate) fn method_name(&self, method: u32) -> Option<&'a MethodName>
        ensures { option_copied result ≡ slice_get self.now.program.now.methods method }
    {
        self.program.methods.as_slice().get(method as usize)
    }

    /// The type of the class that a method number names.
    pub fn class_of_method(&self, method: u32) -> Kind
        ensures { IsRight self.now → method < length self.now.program.now.methods → IsType self.now.types result (method_at self.now.program.now method).class }
    {
        match self.method_name(method) {
            Some(name) => self.kind(name.class),
            None => Kind::plain(OBJECT),
        }
    }

    /// A class by its place.
    pub fn class(&self, class: u32) -> Option<&'a Class>
        ensures { option_copied result ≡ slice_get self.now.program.now.classes class }
    {
        self.program.classes.as_slice().get(class as usize)
    }

    /// A method by its place.
    pub fn method(&self, at: MethodAt) -> Option<&'a Method>
        ensures { option_copied result ≡ look.method_at self.now.program.now at }
    {
        match self.class(at.class) {
            Some(class) => class.methods.as_slice().get(at.place as usize),
            None => None,
        }
    }

    /// Whether a class has a flag.
    pub fn has_flag(&self, class: u32, flag: Flags) -> bool
        ensures { result ≡ class_has self.now.program.now class flag.0 }
    {
        match self.class(class) {
            Some(defined) => defined.flags.has(flag),
            None => false,
        }
    }

    /// Whether a class is an interface.
    pub(crate) fn is_interface(&self, class: u32) -> bool
        ensures { result ≡ is_interface (slice_get self.now.program.now.classes class) }
    {
        self.has_flag(class, Flags::INTERFACE)
    }

    /// Whether calls find the method by the class of their receiver.
    pub fn is_virtual(&self, method: &Method) -> bool
        ensures { IsRight self.now → result ≡ not (is_direct self.now.program.now method.now) }
    {
        self.hierarchy.is_virtual(method)
    }

    /// Whether a method number is that of the constructor of `Ljava/lang/Object;`.
    pub fn is_object_constructor(&self, method: u32) -> bool
        ensures { IsRight self.now → result ≡ method_eq (method_at self.now.program.now method) object_constructor }
    {
        is_on(self.constructors.as_slice(), method as usize)
    }

    /// Whether every object answers to the method.
    pub fn is_common(&self, method: u32) -> bool
        ensures { (q : MethodName) → IsRight self.now → slice_get self.now.program.now.methods method ≡ Some q → result ≡ is_common self.now.program.now q.name q.proto }
    {
        self.hierarchy
            .is_key_of_object(self.hierarchy.key_of_method(method))
    }

    /// Where a class defines its initialiser: its static method with code that is named `<clinit>`, takes nothing and
    /// gives nothing.
    pub fn initialiser(&self, class: u32) -> Option<MethodAt>
        ensures { IsRight self.now → result ≡ method_or class (initialiser_place self.now.program.now class) None }
    {
        self.hierarchy.initialiser_of(class)
    }

    /// The class and the place in its fields of what the name of a field resolves to.
    pub fn field(&self, field: u32) -> Option<(u32, u32)>
        ensures { IsRight self.now → result ≡ resolves_field self.now.program.now field }
    {
        self.hierarchy.resolve_field(self.program, field)
    }

    /// How many places the fields of all classes have.
    pub fn slot_count(&self) -> usize
        ensures { IsRight self.now → result ≡ slots_after 0 self.now.program.now.classes }
    {
        self.slot_count
    }

    /// The place of a field among the fields of all classes.
    pub fn slot(&self, class: u32, place: u32) -> usize
        ensures { IsRight self.now → result ≡ slot_of self.now.program.now class place }
    {
        slot_at(self.slots.as_slice(), class, place)
    }

    /// Whether a type that is no array is under another one. The last answer for each upper type is kept.
    fn base_under(&self, memo: &mut Memo, lower: usize, upper: usize) -> Result<bool, AllocError>
        ensures kept { IsRight self.now → IsKept self.now memo.old → lower < length (names_of self.now.types) → upper < length (names_of self.now.types) → IsKept self.now memo.new }
        ensures answer { IsRight self.now → IsKept self.now memo.old → lower < length (names_of self.now.types) → upper < length (names_of self.now.types) → IfOk result (λ r. r ≡ class_under (named self.now.program.now) self.now.framework.now (name_at self.now.types lower) (name_at self.now.types upper)) }
    {
        if let Some(answer) = memo.under_at(lower, upper) {
            return Ok(answer);
        }
        let answer = self.above.climbs(&mut memo.marks, lower, upper)?;
        memo.keep_under(lower, upper, answer);
        Ok(answer)
    }

    /// Whether a type is under another one, where not both are arrays.
    fn item_under(&self, memo: &mut Memo, lower: Kind, upper: Kind) -> Result<bool, AllocError>
        ensures kept { IsRight self.now → IsKept self.now memo.old → IsKind self.now.types lower → IsKind self.now.types upper → IsKept self.now memo.new }
        ensures answer { IsRight self.now → IsKept self.now memo.old → IsKind self.now.types lower → IsKind self.now.types upper → (lower.depth ≡ 0) ⊎ (upper.depth ≡ 0) → IfOk result (λ r. r ≡ is_under (named self.now.program.now) self.now.framework.now (type_text self.now.types lower) (type_text self.now.types upper)) }
    {
        if self.types.is_empty_type(lower) {
            return Ok(false);
        }
        if self.types.is_empty_type(upper) {
            return Ok(false);
        }
        if upper.is_array() {
            return Ok(false);
        }
        if lower.is_array() {
            return Ok(Types::is_object(upper));
        }
        let answer = self.base_under(memo, lower.base, upper.base)?;
        Ok(answer)
    }

    /// Whether arrays with so many brackets more than these types may be under one another.
    fn may_stand(&self, shared: usize, low: Kind, high: Kind) -> bool
        ensures { AreTypes self.now.types → result ≡ (nat_eq shared 0 || (is_reference (type_text self.now.types low) && is_reference (type_text self.now.types high))) }
    {
        shared == 0 || (self.types.is_reference(low) && self.types.is_reference(high))
    }

    /// Whether a type is under another: itself, and what stands above it. An array is under `Ljava/lang/Object;` and
    /// under each array of references whose item type is above its own.
    pub fn is_under(&self, memo: &mut Memo, lower: Kind, upper: Kind) -> Result<bool, AllocError>
        ensures kept { IsRight self.now → IsKept self.now memo.old → IsKind self.now.types lower → IsKind self.now.types upper → IsKept self.now memo.new }
        ensures answer { IsRight self.now → IsKept self.now memo.old → IsKind self.now.types lower → IsKind self.now.types upper → IfOk result (λ r. r ≡ is_under (named self.now.program.now) self.now.framework.now (type_text self.now.types lower) (type_text self.now.types upper)) }
    {
        if lower.is_same(upper) {
            let full = !self.types.is_empty_type(lower);
            return Ok(full);
        }
        let shared = lower.shared(upper);
        let low = lower.inside(shared);
        let high = upper.inside(shared);
        if self.may_stand(shared, low, high) {
            let answer = self.item_under(memo, low, high)?;
            Ok(answer)
        } else {
            Ok(false)
        }
    }
}
