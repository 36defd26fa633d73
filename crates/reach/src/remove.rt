//! The removal of classes and members that aren't live.

ghost use Rattle.std.specs.Prelude.{◌≡◌, ◌+◌, ◌-◌, ◌≤◌, ◌<◌, [], ℕ, filter, map, length, sum_by, slice_index_or, true, false, IfOk};
ghost use Rattle.program_model.specs.Cells.{capped};
ghost use Rattle.call_graph.specs.Closed.{IsClosedSet};
ghost use Rattle.call_graph.specs.Least.{IsLeastSet};
ghost use Rattle.call_graph.specs.Facts.{Fits};
ghost use Rattle.hierarchy.specs.Shapes.{IsResolved};
ghost use Rattle.program_model.specs.ProgramRules.{is_well_formed};
ghost use Rattle.reach.specs.Kept.{kept_in, kept_of, live_classes, removed_in, removed_from, size_of};

use call_graph::{LiveSet, live_members};
use criteria::{is_live, is_on};
use hierarchy::Hierarchy;
use program_model::{Changed, Class, Field, Method, Outside, Program};
use seq::Seq;
use std::alloc::{AllocError, Global};

/// Keeps the marked fields.
fn retain_fields(fields: &mut Vec<Field>, marks: &[bool])
    ensures { fields.new.items ≡ filter (λ f. slice_index_or marks.now f.name false) fields.old.items }
{
    fields.retain(|field| is_on(marks, field.name));
}

/// Keeps the marked methods.
fn retain_methods(methods: &mut Vec<Method>, marks: &[bool])
    ensures { methods.new.items ≡ filter (λ m. slice_index_or marks.now m.name false) methods.old.items }
{
    methods.retain(|method| is_live(marks, method.name));
}

/// Keeps the marked classes.
fn retain_classes(classes: &mut Vec<Class>, marks: &[bool])
    ensures { classes.new.items ≡ filter (λ c. slice_index_or marks.now c.name false) classes.old.items }
{
    classes.retain(|class| is_on(marks, class.name));
}

/// Keeps the live members of a class, and counts those that go.
fn keep_members(class: &mut Class, live: &LiveSet) -> u64
    ensures kept { class.new ≡ kept_in live.now class.old }
    ensures count { result ≡ capped (removed_in live.now class.old) }
{
    let fields = class.fields.len();
    let methods = class.methods.len();
    retain_fields(&mut class.fields.items, live.fields.as_slice());
    retain_methods(&mut class.methods.items, live.methods.as_slice());
    let gone = fields.saturating_sub(class.fields.len()) as u64;
    gone.saturating_add(methods.saturating_sub(class.methods.len()) as u64)
}

/// Keeps the live members of the classes, and counts those that go.
fn keep_each(classes: &mut [Class], live: &LiveSet) -> u64
    ensures kept { classes.new ≡ map (kept_in live.now) classes.old }
    ensures count { result ≡ capped (sum_by (removed_in live.now) classes.old) }
{
    let mut gone: u64 = 0;
    for class in classes.iter_mut() {
        gone = gone.saturating_add(keep_members(class, live));
    }
    gone
}

/// Keeps the live classes, and counts those that go.
fn keep_classes(classes: &mut Vec<Class>, live: &LiveSet) -> u64
    ensures kept { classes.new.items ≡ live_classes live.now classes.old.items }
    ensures count { result ≡ length classes.old.items - length (live_classes live.now classes.old.items) }
{
    let before = classes.len();
    retain_classes(classes, live.classes.as_slice());
    before.saturating_sub(classes.len()) as u64
}

/// Keeps the live classes, and the live members of each, and counts what goes.
fn keep_all(program: &mut Program, live: &LiveSet) -> u64
    ensures kept { program.new ≡ kept_of live.now program.old }
    ensures count { result ≡ capped (removed_from live.now program.old) }
{
    let classes = keep_classes(&mut program.classes.items, live);
    classes.saturating_add(keep_each(program.classes.items.as_mut_slice(), live))
}

/// The program with its live classes and members.
fn keep_live(alloc: Global, program: Program, live: &LiveSet) -> Changed
    ensures origins { result.origins ≡ [] }
    ensures kept { result.program ≡ kept_of live.now program }
    ensures falls { size_of result.program ≤ size_of program }
    ensures same { result.count ≡ 0 → result.program ≡ program }
    ensures less { 0 < result.count → size_of result.program < size_of program }
{
    let mut program = program;
    let count = keep_all(&mut program, live);
    Changed {
        program,
        count,
        origins: Seq::new(alloc),
    }
}

/// Takes the classes and members that aren't live out of a program, in place. `count` is how many classes go, and how many
/// members of the others. The pools stay, and no position moves. What is left of a well-formed program is well-formed.
/// The only error is want of memory.
pub fn apply(
    alloc: Global,
    program: Program,
    hierarchy: &Hierarchy,
    outside: &Outside,
) -> Result<Changed, AllocError>
    ensures origins { IfOk result (λ changed. changed.origins ≡ []) }
    ensures kept { IfOk result (λ changed. (s : LiveSet) × Fits program s × (changed.program ≡ kept_of s program)) }
    ensures closed { is_well_formed program ≡ true → IsResolved program hierarchy.now
        → IfOk result (λ changed. (s : LiveSet) × Fits program s × IsClosedSet program outside.now s × IsLeastSet program outside.now s × (changed.program ≡ kept_of s program)) }
    ensures formed { is_well_formed program ≡ true → IfOk result (λ changed. is_well_formed changed.program ≡ true) }
    ensures falls { IfOk result (λ changed. size_of changed.program ≤ size_of program) }
    ensures same { IfOk result (λ changed. changed.count ≡ 0 → changed.program ≡ program) }
    ensures less { IfOk result (λ changed. 0 < changed.count → size_of changed.program < size_of program) }
{
    let live = live_members(alloc, &program, hierarchy, outside)?;
    Ok(keep_live(alloc, program, &live))
}
