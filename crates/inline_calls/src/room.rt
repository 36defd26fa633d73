//! Whether a new body has room: it lays out in few units, is typed, and the program keeps its limit of cells.

ghost use Rattle.std.specs.Prelude.{[], ◌≡◌, nat_le, ◌&&◌, true, false, IfOk};
ghost use Rattle.verify.specs.Meeting.{IsMeeting};
ghost use Rattle.inline_calls.specs.Rooms.{cells_with, fits_lists, IsShort, IsLong, IsTypedWith, IsIllTypedWith};

use crate::lists::lists_fit;
use program_model::{Body, Counted, MethodAt, Renumber, count_body_cells};
use relax::{LayFault, Layout, lay_out};
use std::alloc::{AllocError, Global};
use verify::{TypeFault, Verifier};

/// How many units the least layout of a caller has at most.
const MOST_UNITS: u32 = 32_000;

/// No table entry has another number.
pub fn same_numbers(alloc: Global) -> Renumber
    ensures strings { result.strings.items ≡ [] }
    ensures types { result.types.items ≡ [] }
{
    Renumber {
        strings: Vec::new(alloc),
        types: Vec::new(alloc),
        protos: Vec::new(alloc),
        fields: Vec::new(alloc),
        methods: Vec::new(alloc),
    }
}

/// Whether a layout has few units, and room for the lists of handlers.
fn has_room(
    alloc: Global,
    body: &Body,
    numbers: &Renumber,
    layout: &Layout,
) -> Result<bool, AllocError>
    ensures { IfOk result (λ has. has ≡ (nat_le layout.now.size 32000 && fits_lists numbers.now body.now layout.now)) }
{
    if layout.size > MOST_UNITS {
        return Ok(false);
    }
    let regions = body.regions.as_slice();
    let starts = layout.starts.as_slice();
    let fit = lists_fit(alloc, regions, numbers, starts, layout.size)?;
    Ok(fit)
}

/// Whether a body lays out, in few units.
pub fn is_short(alloc: Global, body: &Body, numbers: &Renumber) -> Result<bool, AllocError>
    ensures short { IfOk result (λ short. short ≡ true → IsShort numbers.now body.now) }
    ensures long { IfOk result (λ short. short ≡ false → IsLong numbers.now body.now) }
{
    match lay_out(alloc, body, numbers) {
        Ok(layout) => {
            let has = has_room(alloc, body, numbers, &layout)?;
            Ok(has)
        }
        Err(LayFault::NoMemory) => Err(AllocError),
        Err(LayFault::FarBranch { .. }) => Ok(false),
    }
}

/// Whether a method is well typed with a body in place of its own.
pub fn is_typed(
    alloc: Global,
    verifier: &Verifier,
    method: MethodAt,
    body: &Body,
) -> Result<bool, AllocError>
    requires { IsMeeting verifier.now.tables }
    ensures typed { IfOk result (λ typed. typed ≡ true → IsTypedWith verifier.now method body.now) }
    ensures ill { IfOk result (λ typed. typed ≡ false → IsIllTypedWith verifier.now method body.now) }
{
    match verifier.typings_with(alloc, method, body) {
        Ok(_typings) => Ok(true),
        Err(TypeFault::NoMemory) => Err(AllocError),
        Err(TypeFault::IllTyped { .. }) => Ok(false),
    }
}

/// The cells of a program that has so many, with a body in place of another.
pub fn cells_with(cells: u64, old: &Body, new: &Body) -> u64
    ensures { result ≡ cells_with cells old.now new.now }
{
    cells
        .saturating_sub(count_body_cells(old))
        .saturating_add(count_body_cells(new))
}

/// Whether a program may have so many cells.
pub fn fits_cells(cells: u64) -> bool
    ensures { result ≡ nat_le cells 67108864 }
{
    cells <= Counted::Cells.limit()
}
