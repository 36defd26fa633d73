//! Frames that are joined into others.

ghost use Rattle.std.specs.Prelude.{◌≡◌};
ghost use Rattle.verify.specs.Frames.{kinds_of};
ghost use Rattle.verify.specs.Flow.{rises, raised, raised_all, rises_any, raised_kinds, rises_kinds};

use crate::frames::Frame;
use crate::kinds::Kind;
use crate::tables::Tables;

/// Joins a kind into another one where that lowers its rank, and answers whether it did.
fn raise(tables: &Tables, cell: &mut Kind, kind: Kind) -> bool
    ensures cell { cell.new ≡ raised tables.now kind cell.old }
    ensures rose { result ≡ rises tables.now kind cell.old }
{
    let old = *cell;
    if old.is_same(kind) {
        return false;
    }
    let joined = tables.join(old, kind);
    if tables.rank(joined) < tables.rank(old) {
        *cell = joined;
        return true;
    }
    false
}

/// Joins the kinds of registers into those of others, and answers whether one rose.
fn raise_all(tables: &Tables, cells: &mut [Kind], kinds: &[Kind]) -> bool
    ensures cells { cells.new ≡ raised_all tables.now kinds.now cells.old }
    ensures rose { result ≡ rises_any tables.now kinds.now cells.old }
{
    let mut rose = false;
    for at in 0..cells.len().min(kinds.len()) {
        let kind = kinds[at];
        rose |= raise(tables, &mut cells[at], kind);
    }
    rose
}

impl Frame {
    /// Joins a frame into this one, and answers whether this one rose.
    pub fn raise(&mut self, tables: &Tables, other: &Frame) -> bool
        ensures frame { kinds_of self.new ≡ raised_kinds tables.now (kinds_of other.now) (kinds_of self.old) }
        ensures rose { result ≡ rises_kinds tables.now (kinds_of other.now) (kinds_of self.old) }
    {
        let registers = raise_all(
            tables,
            self.registers.as_mut_slice(),
            other.registers.as_slice(),
        );
        let result = raise(tables, &mut self.result, other.result);
        let caught = raise(tables, &mut self.caught, other.caught);
        let receiver = raise(tables, &mut self.receiver, other.receiver);
        registers || result || caught || receiver
    }
}
