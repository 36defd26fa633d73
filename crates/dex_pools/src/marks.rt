//! Sets of annotations, and values by themselves.

ghost use Rattle.std.specs.Prelude.{◌≡◌, ◌+◌, ◌*◌, ◌<◌, ◌≤◌, ◌^◌, List, ℕ, All, length, IfOk, vec_len};
ghost use Rattle.dex_base.specs.Reading.{Gives};
ghost use Rattle.dex_pools.specs.Fault.{is_free};
ghost use Rattle.dex_pools.specs.Fewer.{first};
ghost use Rattle.dex_pools.specs.Run.{run};
ghost use Rattle.dex_pools.specs.Value.{whole_value_at, whole_note_at};
ghost use Rattle.dex_pools.specs.ValueRange.{ValueInRange, NoteInRange, MarkInRange};
ghost use Rattle.dex_pools.specs.Marks.{sizes_of, alone, mark_at, marked_at, marks_at, parameter_at, parameters_marks_at};

use crate::fault::{PoolFault, Table};
use crate::items::{count_of, take_counted};
use crate::order::ascends;
use crate::pools::Pools;
use crate::scalar::{TableSizes, byte_of};
use crate::value::{note_of, value_of};
use crate::word::word_of;
use program_model::{Counted, EncValue, Mark, Note};
use seq::Seq;
use std::alloc::Global;

/// How deep values may nest.
const DEEPEST: u32 = 64;

/// The value at `at`, as [`read_value`] gives it. `left` falls by one for each entry of an array or an annotation.
#[tactic(auto, unfolding(crate::specs::Value::whole_value_at))]
pub fn read_value_counted(
    alloc: Global,
    bytes: &[u8],
    at: usize,
    sizes: TableSizes,
    left: &mut u32,
) -> Result<(EncValue, usize), PoolFault>
    ensures gives { Gives is_free (λ r. (r.0, (r.1, left.new))) result (whole_value_at bytes.now sizes (at, left.old)) }
    ensures range { IfOk result (λ r. ValueInRange sizes r.0) }
    ensures behind { IfOk result (λ r. at < r.1) }
    ensures inside { IfOk result (λ r. r.1 ≤ length bytes.now) }
{
    value_of(alloc, bytes, sizes, at, DEEPEST, left)
}

/// The value at `at`, and the place behind it (Dalvik executable format, "encoded_value").
///
/// `left` is how many entries of lists may still be read; one more is `Limit` with 16,777,217. `BadValue` names a value
/// of no type or with an argument that its type can't have, `Deep` one that lies more than 64 deep, `Short`, `Index` and
/// `LongLeb` the value or the number that passes the end, names no entry or goes on too long, and `Order` the place
/// of an element whose name is not above that of the one before it. The other error is want of memory.
pub fn read_value(
    alloc: Global,
    bytes: &[u8],
    at: usize,
    pools: &Pools,
    left: u32,
) -> Result<(EncValue, usize), PoolFault>
    ensures gives { Gives is_free (λ r. r) result (alone (whole_value_at bytes.now (sizes_of pools.now) (at, left))) }
    ensures range { IfOk result (λ r. ValueInRange (sizes_of pools.now) r.0) }
    ensures behind { IfOk result (λ r. at < r.1) }
    ensures inside { IfOk result (λ r. r.1 ≤ length bytes.now) }
{
    let mut left = left;
    read_value_counted(alloc, bytes, at, pools.sizes(), &mut left)
}

/// The annotation at `at`, which has no visibility, and the place behind it.
#[tactic(auto, unfolding(crate::specs::Value::whole_note_at))]
fn whole_note_of(
    alloc: Global,
    bytes: &[u8],
    sizes: TableSizes,
    at: usize,
    left: &mut u32,
) -> Result<(Note, usize), PoolFault>
    ensures gives { Gives is_free (λ r. (r.0, (r.1, left.new))) result (whole_note_at bytes.now sizes (at, left.old)) }
    ensures range { IfOk result (λ r. NoteInRange sizes r.0) }
{
    note_of(alloc, bytes, sizes, at, DEEPEST, left)
}

/// The annotation at `at`.
#[tactic(auto, unfolding(crate::specs::Marks::mark_at))]
fn mark_of(
    alloc: Global,
    bytes: &[u8],
    sizes: TableSizes,
    at: usize,
    left: &mut u32,
) -> Result<Mark, PoolFault>
    ensures gives { Gives is_free (λ m. (m, left.new)) result (mark_at bytes.now sizes at left.old) }
    ensures range { IfOk result (MarkInRange sizes) }
{
    let visibility = byte_of(bytes, at)?;
    let (note, _) = whole_note_of(alloc, bytes, sizes, at + 1, left)?;
    Ok(Mark { visibility, note })
}

/// The annotation that an entry of the set at `at` names.
#[tactic(auto, unfolding(crate::specs::Marks::marked_at))]
fn marked_of(
    alloc: Global,
    bytes: &[u8],
    sizes: TableSizes,
    at: usize,
    i: u32,
    left: &mut u32,
) -> Result<Mark, PoolFault>
    requires { at + 4 + 4 * i ≤ length bytes.now }
    ensures gives { Gives is_free (λ m. (m, left.new)) result (marked_at bytes.now sizes at i left.old) }
    ensures range { IfOk result (MarkInRange sizes) }
{
    take_counted(Counted::Items, 1, left)?;
    let offset = word_of(bytes, at + 4 + 4 * i as usize)?;
    mark_of(alloc, bytes, sizes, offset as usize, left)
}

/// So many entries of the set at `at`.
fn marked_all(
    alloc: Global,
    bytes: &[u8],
    sizes: TableSizes,
    at: usize,
    count: u32,
    left: &mut u32,
) -> Result<Vec<Mark>, PoolFault>
    requires { at + 4 + 4 * count ≤ length bytes.now }
    ensures gives { Gives is_free (λ v. (v.items, left.new)) result (run (marked_at bytes.now sizes at) 0 count left.old) }
    ensures numbered { IfOk result (λ v. vec_len v < 2 ^ 32) }
    ensures range { IfOk result (λ v. All (MarkInRange sizes) v.items) }
{
    let mut found = Vec::new(alloc);
    for i in 0..count {
        let mark = marked_of(alloc, bytes, sizes, at, i, left)?;
        found.push(mark)?;
    }
    Ok(found)
}

/// The set of annotations at `at`, as [`read_annotations`] gives it. `left` falls by one for each entry of the set, of
/// an annotation or of an array.
#[tactic(auto, unfolding(crate::specs::Marks::marks_at))]
pub fn read_annotations_counted(
    alloc: Global,
    bytes: &[u8],
    at: usize,
    sizes: TableSizes,
    left: &mut u32,
) -> Result<Vec<Mark>, PoolFault>
    ensures gives { Gives is_free (λ v. (v.items, left.new)) result (marks_at bytes.now sizes at left.old) }
    ensures range { IfOk result (λ v. All (MarkInRange sizes) v.items) }
{
    let count = count_of(bytes, at, 4)?;
    let marks = marked_all(alloc, bytes, sizes, at, count, left)?;
    ascends(&marks, Table::Members)?;
    Ok(marks)
}

/// The set of annotations at `at` (Dalvik executable format, "annotation_set_item", "annotation_item").
///
/// `left` is how many entries of lists may still be read; one more is `Limit` with 16,777,217. `Short` names the set or
/// the annotation that passes the end, `Order` the place of an annotation whose type is not above that of the one before
/// it; the other faults are those of [`read_value`]. The other error is want of memory.
pub fn read_annotations(
    alloc: Global,
    bytes: &[u8],
    at: usize,
    pools: &Pools,
    left: u32,
) -> Result<Vec<Mark>, PoolFault>
    ensures gives { Gives is_free (λ v. v.items) result (first (marks_at bytes.now (sizes_of pools.now) at left)) }
    ensures range { IfOk result (λ v. All (MarkInRange (sizes_of pools.now)) v.items) }
{
    let mut left = left;
    read_annotations_counted(alloc, bytes, at, pools.sizes(), &mut left)
}

/// The set that an entry of the list at `at` names; 0 stands for the empty one.
#[tactic(auto, unfolding(crate::specs::Marks::parameter_at))]
fn parameter_of(
    alloc: Global,
    bytes: &[u8],
    sizes: TableSizes,
    at: usize,
    i: u32,
    left: &mut u32,
) -> Result<Seq<Mark>, PoolFault>
    requires { at + 4 + 4 * i ≤ length bytes.now }
    ensures gives { Gives is_free (λ v. (v, left.new)) result (parameter_at bytes.now sizes at i left.old) }
    ensures range { IfOk result (λ v. All (MarkInRange sizes) v) }
{
    take_counted(Counted::Items, 1, left)?;
    let offset = word_of(bytes, at + 4 + 4 * i as usize)?;
    if offset == 0 {
        Ok(Seq::new(alloc))
    } else {
        let marks = read_annotations_counted(alloc, bytes, offset as usize, sizes, left)?;
        Ok(Seq::of_vec(marks))
    }
}

/// So many entries of the list at `at`.
fn parameters_of(
    alloc: Global,
    bytes: &[u8],
    sizes: TableSizes,
    at: usize,
    count: u32,
    left: &mut u32,
) -> Result<Vec<Seq<Mark>>, PoolFault>
    requires { at + 4 + 4 * count ≤ length bytes.now }
    ensures gives { Gives is_free (λ v. (v.items, left.new)) result (run (parameter_at bytes.now sizes at) 0 count left.old) }
    ensures range { IfOk result (λ v. All (All (MarkInRange sizes)) v.items) }
{
    let mut found = Vec::new(alloc);
    for i in 0..count {
        let marks = parameter_of(alloc, bytes, sizes, at, i, left)?;
        found.push(marks)?;
    }
    Ok(found)
}

/// The sets of annotations of a method's first parameters, which the list at `at` names (Dalvik executable format,
/// "annotation_set_ref_list"). `left` falls by one for each entry of the list, of a set, of an annotation or of an array.
/// The faults are those of [`read_annotations`], and `Short` at `at` where the list passes the end.
#[tactic(auto, unfolding(crate::specs::Marks::parameters_marks_at))]
pub fn read_parameter_annotations(
    alloc: Global,
    bytes: &[u8],
    at: usize,
    sizes: TableSizes,
    left: &mut u32,
) -> Result<Vec<Seq<Mark>>, PoolFault>
    ensures gives { Gives is_free (λ v. (v.items, left.new)) result (parameters_marks_at bytes.now sizes at left.old) }
    ensures range { IfOk result (λ v. All (All (MarkInRange sizes)) v.items) }
{
    let count = count_of(bytes, at, 4)?;
    parameters_of(alloc, bytes, sizes, at, count, left)
}
