//! Tables of numbers by number.

ghost use Rattle.std.specs.Prelude.{◌≡◌, ◌<◌, ◌^◌, length, false, slice_index, slice_index_or, slice_set};
ghost use Rattle.hierarchy.specs.Tables.{read_at};

/// Stands in a table for no number.
pub const NONE: u32 = u32::MAX;

/// A length or a place as a number of 32 bits; past all that a table has, the number that stands for none.
pub fn word(n: usize) -> u32
    ensures { n < 2 ^ 32 → result ≡ n }
{
    if n < NONE as usize { n as u32 } else { NONE }
}

/// The number at a place, where the table has one there.
pub fn read(table: &[u32], place: u32) -> Option<u32>
    ensures { result ≡ read_at table.now place }
{
    match table.get(place as usize) {
        Some(value) => { if *value == NONE { None } else { Some(*value) } }
        None => None,
    }
}

/// The number at a place, 0 past the end.
pub fn count_at(table: &[u32], place: u32) -> u32
    ensures { result ≡ slice_index table.now place }
{
    match table.get(place as usize) {
        Some(value) => *value,
        None => 0,
    }
}

/// Writes a number at a place, unless it is past the end.
pub fn put(table: &mut [u32], place: u32, value: u32)
    ensures { table.new ≡ slice_set table.old place value }
{
    let at = place as usize;
    if at < table.len() {
        table[at] = value;
    }
}

/// Adds to the number at a place, and answers what stood there, 0 past the end.
pub fn add(table: &mut [u32], place: u32, more: u32) -> u32
    ensures { length table.new ≡ length table.old }
{
    match table.get_mut(place as usize) {
        Some(cell) => {
            let before = *cell;
            *cell = before.saturating_add(more);
            before
        }
        None => 0,
    }
}

/// Whether the place is marked.
pub fn is_on(marks: &[bool], place: u32) -> bool
    ensures { result ≡ slice_index_or marks.now place false }
{
    match marks.get(place as usize) {
        Some(mark) => *mark,
        None => false,
    }
}

/// Marks or clears a place, unless it is past the end.
pub fn turn(marks: &mut [bool], place: u32, on: bool)
    ensures { marks.new ≡ slice_set marks.old place on }
{
    let at = place as usize;
    if at < marks.len() {
        marks[at] = on;
    }
}
