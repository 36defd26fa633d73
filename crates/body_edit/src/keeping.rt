//! Lists with an entry for each position.

ghost use Rattle.std.specs.Prelude.{◌≡◌};
ghost use Rattle.pass_defs.specs.Thinned.{left};
ghost use Rattle.body_edit.specs.Fates.{fates_of};

use crate::fate::Fate;

/// Keeps the entries of the positions that are left, in place and in their order. An entry behind the last fate goes.
pub fn keep_left<T: Drop>(items: &mut Vec<T>, fates: &[Fate])
    ensures { items.new.items ≡ left (fates_of fates.now) items.old.items }
{
    let mut kept: usize = 0;
    for position in 0..fates.len().min(items.len()) {
        if fates[position].is_left() {
            items.swap(kept, position);
            kept += 1;
        }
    }
    items.truncate(kept);
}
