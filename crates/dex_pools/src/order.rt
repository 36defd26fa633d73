//! Tables whose entries ascend.

ghost use Rattle.std.specs.Prelude.{◌≡◌, ◌<◌, ◌^◌, length};
ghost use Rattle.dex_base.specs.Reading.{Gives};
ghost use Rattle.dex_pools.specs.Fault.{is_free};
ghost use Rattle.dex_pools.specs.Order.{ascends_in, list_below, three_below};

use crate::fault::{PoolFault, Table};
use dex_base::{Text, compare_units};
use program_model::{Element, FieldName, Mark, MethodName, Proto};
use std::cmp::Ordering;

/// What stands in order in a table.
pub trait Placed {
    ghost use Rattle.std.specs.Prelude.{Bool};

    ghost below: { Self → Self → Bool };

    /// Whether the other may stand directly behind.
    fn is_below(&self, next: &Self) -> bool
        ensures { result ≡ below self.now next.now };
}

impl Placed for u32 {
    ghost use Rattle.std.specs.Prelude.{nat_lt};

    ghost below = { λ a b. nat_lt a b };

    fn is_below(&self, next: &Self) -> bool {
        *self < *next
    }
}

/// Whether one list of numbers stands before another.
fn is_list_below(a: &[u32], b: &[u32]) -> bool
    ensures { result ≡ list_below a.now b.now }
{
    matches!(a.cmp(&b), Ordering::Less)
}

/// Whether the first number that differs is the lower one.
fn is_three_below(a: u32, b: u32, c: u32, x: u32, y: u32, z: u32) -> bool
    ensures { result ≡ three_below a b c x y z }
{
    a < x || (a == x && (b < y || (b == y && c < z)))
}

impl Placed for Text {
    ghost use Rattle.dex_pools.specs.Order.{list_below};

    ghost below = { list_below };

    fn is_below(&self, next: &Self) -> bool {
        matches!(compare_units(self, next), Ordering::Less)
    }
}

impl Placed for Proto {
    ghost use Rattle.dex_pools.specs.Order.{proto_below};

    ghost below = { proto_below };

    fn is_below(&self, next: &Self) -> bool {
        self.result < next.result
            || (self.result == next.result
                && is_list_below(self.parameters.as_slice(), next.parameters.as_slice()))
    }
}

impl Placed for FieldName {
    ghost use Rattle.dex_pools.specs.Order.{field_below};

    ghost below = { field_below };

    fn is_below(&self, next: &Self) -> bool {
        is_three_below(
            self.class, self.name, self.kind, next.class, next.name, next.kind,
        )
    }
}

impl Placed for MethodName {
    ghost use Rattle.dex_pools.specs.Order.{method_below};

    ghost below = { method_below };

    fn is_below(&self, next: &Self) -> bool {
        is_three_below(
            self.class, self.name, self.proto, next.class, next.name, next.proto,
        )
    }
}

/// Elements stand in the order of their names.
impl Placed for Element {
    ghost use Rattle.dex_pools.specs.Value.{element_below};

    ghost below = { element_below };

    fn is_below(&self, next: &Self) -> bool {
        self.name < next.name
    }
}

/// Annotations stand in the order of their types.
impl Placed for Mark {
    ghost use Rattle.dex_pools.specs.Marks.{mark_below};

    ghost below = { mark_below };

    fn is_below(&self, next: &Self) -> bool {
        self.note.class < next.note.class
    }
}

/// Each entry is above the one before it; else the fault names the first that is not.
pub fn ascends<T: Placed>(items: &[T], table: Table) -> Result<(), PoolFault>
    requires { length items.now < 2 ^ 32 }
    ensures { Gives is_free (λ u. u) result (ascends_in T.below table items.now) }
{
    let mut before: Option<&T> = None;
    for (place, item) in items.iter().enumerate() {
        if let Some(last) = before
            && !last.is_below(item)
        {
            return Err(PoolFault::Order {
                table,
                place: place as u32,
            });
        }
        before = Some(item);
    }
    Ok(())
}
