//! Which types stand directly above each one, and walks up from a type.

ghost use Rattle.std.specs.Prelude.{◌≡◌, ◌<◌, ◌∷◌, ◌++◌, [], ℕ, true, None, length, map, nat_eq, position, slice_index_or, OnOk, IfOk, vec_len, Contains};
ghost use Rattle.program_model.specs.ProgramRules.{is_well_formed};
ghost use Rattle.dalvik_defs.specs.Known.{known_rows};
ghost use Rattle.dalvik_lookups.specs.Views.{names_of, AreTypes};
ghost use Rattle.dalvik_lookups.specs.Tables.{row_in, row_at, Stand, AreAbove, GrowsTypes, HasNames};
ghost use Rattle.dalvik_lookups.specs.Walks.{is_on, is_met, Climbs, AllAbove, IsClean, IsInside, IsWalked};
ghost use Rattle.dalvik_lookups.specs.Rows.{is_empty_at, set_empty, outer_number, numbers_listed, above_row, above_outside, above_class, above_numbers, HaveRows};

use crate::known::{OBJECT, ROWS};
use crate::lookups::{Names, class_in, kind_at};
use crate::marks::Marks;
use crate::types::{Kind, Types};
use dalvik_defs::{Framework, FrameworkType};
use program_model::{Class, Program};
use std::alloc::{AllocError, Global};

/// For each type the types directly above it: those of a program class by its own lists, those of another type by its
/// first row. A type without a row stands directly under `Ljava/lang/Object;`.
#[derive(Drop)]
pub struct Above {
    rows: Vec<Vec<usize>>,
}

impl Above {
    /// The types directly above one.
    pub fn row(&self, number: usize) -> &[usize]
        ensures { result.now ≡ row_at self.now number }
    {
        match self.rows.as_slice().get(number) {
            Some(row) => row.as_slice(),
            None => &[],
        }
    }

    /// Marks all types above those that are listed. What is marked is listed also where memory runs out.
    fn walk_up(&self, marks: &mut Marks) -> Result<(), AllocError>
        ensures size { vec_len marks.new.marks ≡ vec_len marks.old.marks }
        ensures listed { ((n : ℕ) → is_on marks.old n ≡ true → Contains marks.old.listed.items n) → (n : ℕ) → is_on marks.new n ≡ true → Contains marks.new.listed.items n }
        ensures walked { ((n : ℕ) → is_on marks.old n ≡ true → Contains marks.old.listed.items n) → IsInside self.now (vec_len marks.old.marks) → (x : ℕ) → x < vec_len marks.old.marks → is_met marks.old x ≡ true → AllAbove self.now x marks.old.listed.items → OnOk result (IsWalked self.now marks.new x) }
    {
        let mut next: usize = 0;
        while let Some(number) = marks.at(next) {
            marks.mark_all(self.row(number))?;
            next += 1;
        }
        Ok(())
    }

    /// Marks a type and all types above it. What is marked is listed also where memory runs out.
    fn walk_from(&self, marks: &mut Marks, lower: usize) -> Result<(), AllocError>
        ensures size { vec_len marks.new.marks ≡ vec_len marks.old.marks }
        ensures listed { IsClean marks.old → (n : ℕ) → is_on marks.new n ≡ true → Contains marks.new.listed.items n }
        ensures walked { IsClean marks.old → IsInside self.now (vec_len marks.old.marks) → lower < vec_len marks.old.marks → OnOk result (IsWalked self.now marks.new lower) }
    {
        marks.mark(lower)?;
        self.walk_up(marks)?;
        Ok(())
    }

    /// Whether a walk up from a type meets another. No mark stays, also where memory runs out.
    pub(crate) fn climbs(
        &self,
        marks: &mut Marks,
        lower: usize,
        upper: usize,
    ) -> Result<bool, AllocError>
        ensures size { vec_len marks.new.marks ≡ vec_len marks.old.marks }
        ensures clean { IsClean marks.old → IsClean marks.new }
        ensures so { IsClean marks.old → IsInside self.now (vec_len marks.old.marks) → lower < vec_len marks.old.marks → IfOk result (λ r. r ≡ true → Climbs self.now lower upper) }
        ensures all { IsClean marks.old → IsInside self.now (vec_len marks.old.marks) → lower < vec_len marks.old.marks → upper < vec_len marks.old.marks → IfOk result (λ r. Climbs self.now lower upper → r ≡ true) }
    {
        let walked = self.walk_from(marks, lower);
        let found = marks.has(upper);
        marks.clear();
        walked?;
        Ok(found)
    }
}

/// Whether nothing stands at a place yet.
fn is_empty_at(places: &[Option<usize>], number: usize) -> bool
    ensures { result ≡ is_empty_at places.now number }
{
    match places.get(number) {
        Some(place) => place.is_none(),
        None => false,
    }
}

/// Sets a place, unless one was set before.
fn set_first(places: &mut [Option<usize>], number: usize, place: usize)
    ensures { places.new ≡ set_empty places.old number place }
{
    if number < places.len() && is_empty_at(places, number) {
        places[number] = Some(place);
    }
}

/// Sets for each of some numbers its first place among them.
fn set_all(places: &mut [Option<usize>], numbers: &[usize])
    ensures size { length places.new ≡ length places.old }
    ensures placed { ((n : ℕ) → slice_index_or places.old n None ≡ None) → (n : ℕ) → n < length places.old → slice_index_or places.new n None ≡ position (nat_eq n) numbers.now }
{
    let mut place: usize = 0;
    for number in numbers {
        set_first(places, *number, place);
        place += 1;
    }
}

/// No places of so many numbers.
fn no_places(alloc: Global, count: usize) -> Result<Vec<Option<usize>>, AllocError>
    ensures size { IfOk result (λ places. length places.items ≡ count) }
    ensures none { IfOk result (λ places. (n : ℕ) → slice_index_or places.items n None ≡ None) }
{
    let mut places = Vec::new(alloc);
    for _ in 0..count {
        places.push(None)?;
    }
    Ok(places)
}

/// The first place of each of so many numbers in a list.
fn first_places(
    alloc: Global,
    count: usize,
    numbers: &[usize],
) -> Result<Vec<Option<usize>>, AllocError>
    ensures { IfOk result (λ places. (n : ℕ) → n < count → slice_index_or places.items n None ≡ position (nat_eq n) numbers.now) }
{
    let mut places = no_places(alloc, count)?;
    set_all(places.as_mut_slice(), numbers);
    Ok(places)
}

/// One number alone.
fn only(alloc: Global, number: usize) -> Result<Vec<usize>, AllocError>
    ensures { IfOk result (λ one. one.items ≡ number ∷ []) }
{
    let mut one = Vec::new(alloc);
    one.push(number)?;
    Ok(one)
}

/// The numbers of the types that rows of the framework name: each row's own, and those above it.
#[derive(Drop)]
pub struct Rows {
    own: Vec<usize>,
    above: Vec<Vec<usize>>,
}

impl Rows {
    /// The rows that the machine knows.
    fn known(alloc: Global) -> Result<Rows, AllocError>
        ensures { IfOk result (λ rows. (t : Types) → AreTypes t → HaveRows (names_of t) rows known_rows) }
    {
        let mut own = Vec::new(alloc);
        let mut above = Vec::new(alloc);
        for (lower, upper) in ROWS {
            own.push(lower)?;
            above.push(only(alloc, upper)?)?;
        }
        Ok(Rows { own, above })
    }

    /// The types that a row names above its own.
    fn above(&self, place: usize) -> &[usize]
        ensures { result.now ≡ row_in self.now.above.items place }
    {
        match self.above.as_slice().get(place) {
            Some(row) => row.as_slice(),
            None => &[],
        }
    }
}

/// The numbers of the types that a row names above its own.
fn numbers_above<'a>(
    alloc: Global,
    types: &mut Types<'a>,
    row: &'a FrameworkType,
) -> Result<Vec<usize>, AllocError>
    ensures grows { AreTypes types.old → OnOk result (GrowsTypes types.old types.new) }
    ensures stand { AreTypes types.old → IfOk result (λ above. Stand (names_of types.new) above.items (row.now.superclass ∷ row.now.interfaces)) }
{
    let mut above = Vec::new(alloc);
    above.push(types.add_whole(row.superclass.units())?)?;
    for interface in row.interfaces.as_slice() {
        above.push(types.add_whole(interface.units())?)?;
    }
    Ok(above)
}

/// The rows of a framework by numbers, behind those that the machine knows.
pub fn rows_of<'a>(
    alloc: Global,
    types: &mut Types<'a>,
    framework: &'a Framework,
) -> Result<Rows, AllocError>
    ensures grows { AreTypes types.old → OnOk result (GrowsTypes types.old types.new) }
    ensures rows { AreTypes types.old → IfOk result (λ rows. HaveRows (names_of types.new) rows (known_rows ++ framework.now.rows)) }
{
    let mut rows = Rows::known(alloc)?;
    for row in framework.rows.as_slice() {
        let number = types.add_whole(row.name.units())?;
        let above = numbers_above(alloc, types, row)?;
        rows.own.push(number)?;
        rows.above.push(above)?;
    }
    Ok(rows)
}

/// The numbers of the types that a class lists. `kinds` has the type of each type number.
fn numbers_listed(alloc: Global, class: &Class, kinds: &[Kind]) -> Result<Vec<usize>, AllocError>
    ensures { IfOk result (λ row. row.items ≡ numbers_listed kinds.now class.now) }
{
    let mut row = Vec::new(alloc);
    row.push(kind_at(kinds, class.superclass).base)?;
    for interface in class.interfaces.as_slice() {
        row.push(kind_at(kinds, *interface).base)?;
    }
    Ok(row)
}

/// What a row's type counts as: a program class counts as `Ljava/lang/Object;`.
fn outer_number(class_of: &[u32], number: usize) -> usize
    ensures { result ≡ outer_number class_of.now number }
{
    match class_in(class_of, Kind::plain(number)) {
        Some(_) => OBJECT,
        None => number,
    }
}

/// What the types of a row count as.
fn outer_numbers(alloc: Global, class_of: &[u32], row: &[usize]) -> Result<Vec<usize>, AllocError>
    ensures { IfOk result (λ out. out.items ≡ map (outer_number class_of.now) row.now) }
{
    let mut out = Vec::new(alloc);
    for number in row {
        out.push(outer_number(class_of, *number))?;
    }
    Ok(out)
}

/// What stands directly above a type with a row at this place, or with none.
fn above_row(
    alloc: Global,
    class_of: &[u32],
    rows: &Rows,
    place: Option<usize>,
) -> Result<Vec<usize>, AllocError>
    ensures { IfOk result (λ out. out.items ≡ above_row class_of.now rows.now.above.items place) }
{
    match place {
        Some(place) => {
            let out = outer_numbers(alloc, class_of, rows.above(place))?;
            Ok(out)
        }
        None => {
            let out = only(alloc, OBJECT)?;
            Ok(out)
        }
    }
}

/// The place of a type's first row.
fn row_place(placed: &[Option<usize>], number: usize) -> Option<usize>
    ensures { result ≡ slice_index_or placed.now number None }
{
    match placed.get(number) {
        Some(place) => *place,
        None => None,
    }
}

/// What stands directly above a type that the program doesn't define: above `Ljava/lang/Object;` nothing, whatever a row
/// of the framework says of it.
fn above_outside(
    alloc: Global,
    class_of: &[u32],
    rows: &Rows,
    placed: &[Option<usize>],
    number: usize,
) -> Result<Vec<usize>, AllocError>
    ensures { IfOk result (λ out. out.items ≡ above_outside class_of.now rows.now.above.items placed.now number) }
{
    if number == OBJECT {
        return Ok(Vec::new(alloc));
    }
    let out = above_row(alloc, class_of, rows, row_place(placed, number))?;
    Ok(out)
}

/// What stands directly above the class at a place.
fn above_class(
    alloc: Global,
    program: &Program,
    kinds: &[Kind],
    place: u32,
) -> Result<Vec<usize>, AllocError>
    ensures { IfOk result (λ out. out.items ≡ above_class program.now kinds.now place) }
{
    match program.classes.as_slice().get(place as usize) {
        Some(class) => {
            let out = numbers_listed(alloc, class, kinds)?;
            Ok(out)
        }
        None => Ok(Vec::new(alloc)),
    }
}

/// What stands directly above a type. `placed` has the place of the first row of each type.
fn above_one(
    alloc: Global,
    program: &Program,
    names: &Names<'_>,
    rows: &Rows,
    placed: &[Option<usize>],
    number: usize,
) -> Result<Vec<usize>, AllocError>
    ensures { IfOk result (λ out. out.items ≡ above_numbers program.now names.now rows.now placed.now number) }
{
    match class_in(names.class_of.as_slice(), Kind::plain(number)) {
        Some(place) => {
            let out = above_class(alloc, program, names.kinds.as_slice(), place)?;
            Ok(out)
        }
        None => {
            let out = above_outside(alloc, names.class_of.as_slice(), rows, placed, number)?;
            Ok(out)
        }
    }
}

/// What stands directly above each type.
pub(crate) fn above_all(
    alloc: Global,
    program: &Program,
    names: &Names<'_>,
    rows: &Rows,
) -> Result<Above, AllocError>
    ensures { is_well_formed program.now ≡ true → HasNames program.now names.now → (f : Framework) → HaveRows (names_of names.now.types) rows.now (known_rows ++ f.rows) → IfOk result (λ above. AreAbove program.now f names.now.types above) }
{
    let count = names.types.len();
    let placed = first_places(alloc, count, rows.own.as_slice())?;
    let mut above = Vec::new(alloc);
    for number in 0..count {
        above.push(above_one(alloc, program, names, rows, placed.as_slice(), number)?)?;
    }
    Ok(Above { rows: above })
}
