//! Where what is copied or stays goes by a table.

ghost use Rattle.std.specs.Prelude.{◌≡◌};
ghost use Rattle.pass_defs.specs.Inlined.{copied_line};
ghost use Rattle.body_edit.specs.Tables.{place_in};

use program_model::Region;

/// Where a position goes by a table; a position past the table stays.
pub fn place_in(places: &[u32], position: u32) -> u32
    ensures { result ≡ place_in places.now position }
{
    match places.get(position as usize) {
        Some(place) => *place,
        None => position,
    }
}

/// Moves the beginning and the end of a region. Its handlers stay.
pub fn move_span(region: &mut Region, places: &[u32])
    ensures { region.new ≡ record region.old { first = place_in places.now region.old.first; end = place_in places.now region.old.end } }
{
    region.first = place_in(places, region.first);
    region.end = place_in(places, region.end);
}

/// The line of a copy of a position: none where the call has none, and that of the call where the copied position has none.
pub fn copied_line(outer: u32, inner: u32) -> u32
    ensures { result ≡ copied_line outer inner }
{
    if inner == 0 {
        outer
    } else if outer == 0 {
        0
    } else {
        inner
    }
}
