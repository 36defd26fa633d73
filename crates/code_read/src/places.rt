//! Positions and the units where they begin.

ghost use Rattle.std.specs.Prelude.{◌≡◌, ◌+◌, ◌<◌, ◌^◌, length, IsTrue};
ghost use Rattle.code_read.specs.Positions.{rises_in, IsCounted};

/// The units of a method, the first unit of each position and of each payload, ascending, and for each unit and the
/// end how many positions begin before it.
#[derive(Drop)]
pub(crate) struct Places<'a> {
    pub units: &'a [u16],
    pub starts: Vec<u32>,
    pub payloads: Vec<u32>,
    pub before: Vec<u32>,
    ghost few: { length units.now < 2 ^ 32 },
    ghost starts_rise: { IsTrue (rises_in 0 (length units.now) starts.items) },
    ghost payloads_rise: { IsTrue (rises_in 0 (length units.now) payloads.items) },
    ghost counted: { IsCounted starts.items before.items },
    ghost covers: { length before.items ≡ length units.now + 1 },
}
