//! The least numbers that registers can have.

ghost use Rattle.std.specs.Prelude.{◌≡◌, ◌+◌, ◌<◌, ◌≤◌, ◌++◌, ◌∷◌, [], ℕ, suc, true, false, length, slice_index, slice_get, IfOk, OnOk, Contains, EachIndex};
ghost use Rattle.walk_marks.specs.Walks.{row_of, is_on};
ghost use Rattle.compact.specs.Ties.{has_some};
ghost use Rattle.compact.specs.Placed.{Sets, Bars, BarsRun, IsRun, IsFirstClear, counted, IsTop, Placed};
ghost use Rattle.compact.specs.Clashes.{Meets};

use crate::clash::Clash;
use crate::runs::run_from;
use seq::Seq;
use std::alloc::{AllocError, Global};

/// The numbers of the first registers, and one more than the greatest that a used one has, 0 where there is none.
#[derive(Drop)]
pub(crate) struct Places {
    pub(crate) numbers: Vec<u16>,
    pub(crate) top: u16,
}

/// Marks the number of a register, counted from a distance on.
fn bar_one(marks: &mut Vec<bool>, numbers: &[u16], register: u32, step: u16)
    ensures { Sets (λ x. (register < length numbers.now) × (slice_index numbers.now register ≡ x + step)) marks.old.items marks.new.items }
{
    let register = register as usize;
    if register < numbers.len() && numbers[register] >= step {
        let place = (numbers[register] - step) as usize;
        if place < marks.len() {
            marks[place] = true;
        }
    }
}

/// Marks the numbers of registers, counted from a distance on.
fn bar_all(marks: &mut Vec<bool>, numbers: &[u16], met: &[u32], step: u16)
    ensures { Sets (Bars numbers.now met.now step) marks.old.items marks.new.items }
{
    for register in met {
        bar_one(marks, numbers, *register, step);
    }
}

/// The registers of a row.
fn row(rows: &[Seq<u32>], register: usize) -> &[u32]
    ensures { result.now ≡ row_of rows.now register }
{
    match rows.get(register) {
        Some(row) => row.as_slice(),
        None => &[],
    }
}

/// Marks the numbers at which a run can't begin.
fn bar_run(marks: &mut Vec<bool>, clash: &Clash, numbers: &[u16], size: u16)
    requires { length numbers.now + size < 65536 }
    ensures { Sets (BarsRun clash.now numbers.now (length numbers.now) size) marks.old.items marks.new.items }
{
    for step in 0..size {
        let register = numbers.len() + step as usize;
        bar_all(marks, numbers, row(&clash.rows, register), step);
        bar_all(marks, numbers, row(&clash.back, register), step);
    }
}

/// The first place that isn't marked, the length where all are.
fn first_clear(marks: &[bool]) -> usize
    ensures { IsFirstClear marks.now result }
{
    for (place, mark) in marks.iter().enumerate() {
        if !*mark {
            return place;
        }
    }
    marks.len()
}

/// The least number at which a run meets no register that it conflicts with.
fn least_for(alloc: Global, clash: &Clash, places: &Places, size: u16) -> Result<usize, AllocError>
    requires { length places.now.numbers.items + size < 65536 }
    ensures short { IfOk result (λ x. x ≤ places.now.top) }
    ensures clear { IfOk result (λ x. x < places.now.top → BarsRun clash.now places.now.numbers.items (length places.now.numbers.items) size x → ⊥) }
    ensures least { IfOk result (λ x. (y : ℕ) → y < x → BarsRun clash.now places.now.numbers.items (length places.now.numbers.items) size y) }
{
    let mut marks = vec![in alloc; false; places.top as usize]?;
    bar_run(&mut marks, clash, places.numbers.as_slice(), size);
    Ok(first_clear(marks.as_slice()))
}

/// Gives the next register its number.
fn add_number(places: &mut Places, used: &[bool], number: u16) -> Result<(), AllocError>
    requires { number < 65535 }
    ensures numbers { OnOk result (places.new.numbers.items ≡ places.old.numbers.items ++ number ∷ []) }
    ensures top { OnOk result (IsTop used.now places.old.numbers.items places.old.top → IsTop used.now places.new.numbers.items places.new.top) }
{
    let register = places.numbers.len();
    if register < used.len() && used[register] && places.top <= number {
        places.top = number + 1;
    }
    places.numbers.push(number)?;
    Ok(())
}

/// Gives the registers of a run their numbers, from one on.
fn add_run(places: &mut Places, used: &[bool], number: u16, size: u16) -> Result<(), AllocError>
    requires { number + size < 65536 }
    ensures numbers { OnOk result (places.new.numbers.items ≡ places.old.numbers.items ++ counted number size) }
    ensures top { OnOk result (IsTop used.now places.old.numbers.items places.old.top → IsTop used.now places.new.numbers.items places.new.top) }
{
    for step in 0..size {
        add_number(places, used, number + step)?;
    }
    Ok(())
}

/// Gives the next run of tied registers the least numbers that it can have.
fn place_run(
    alloc: Global,
    clash: &Clash,
    ties: &[Seq<u32>],
    used: &[bool],
    floor: u16,
    places: &mut Places,
) -> Result<(), AllocError>
    requires below { length places.old.numbers.items < floor }
    requires ends { (s : ℕ) → suc s ≡ floor → has_some ties.now s ≡ false }
    requires meets { (r q : ℕ) → r < floor → Meets clash.now r q → is_on used.now q ≡ true }
    requires placed { Placed clash.now ties.now used.now places.old.numbers.items places.old.top }
    ensures within { OnOk result (length places.new.numbers.items ≤ floor) }
    ensures more { OnOk result (length places.old.numbers.items < length places.new.numbers.items) }
    ensures placed { OnOk result (Placed clash.now ties.now used.now places.new.numbers.items places.new.top) }
{
    let size = run_from(ties, places.numbers.len() as u16, floor);
    let number = least_for(alloc, clash, places, size)?;
    add_run(places, used, number as u16, size)?;
    Ok(())
}

/// The numbers of the registers below a floor: each run of tied registers, from the lowest, has the least numbers at which
/// it meets no register that it conflicts with.
pub(crate) fn places_of(
    alloc: Global,
    clash: &Clash,
    ties: &[Seq<u32>],
    used: &[bool],
    floor: u16,
) -> Result<Places, AllocError>
    requires ends { (s : ℕ) → suc s ≡ floor → has_some ties.now s ≡ false }
    requires meets { (r q : ℕ) → r < floor → Meets clash.now r q → is_on used.now q ≡ true }
    ensures long { IfOk result (λ places. length places.numbers.items ≡ floor) }
    ensures placed { IfOk result (λ places. Placed clash.now ties.now used.now places.numbers.items places.top) }
{
    let mut places = Places {
        numbers: Vec::with_capacity(alloc, floor as usize)?,
        top: 0,
    };
    'runs: while places.numbers.len() < floor as usize {
        place_run(alloc, clash, ties, used, floor, &mut places)?;
    }
    Ok(places)
}
