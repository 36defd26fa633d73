//! A method whose body is thinned.

ghost use Rattle.std.specs.Prelude.{◌≡◌, ◌<◌, ◌^◌, length, nat_eq, not, OnOk};
ghost use Rattle.std.specs.List.{list_any};
ghost use Rattle.thin_pass.specs.Plans.{changes, changed_in, lines_left, positions_of, method_thinned};

use body_edit::{Fate, keep_left, thin};
use program_model::Method;
use std::alloc::{AllocError, Global};

/// Whether the position doesn't stay as it is.
fn changes(fate: Fate) -> bool
    ensures { result ≡ changes fate }
{
    !matches!(fate, Fate::Stays)
}

/// How many positions change.
pub(crate) fn count_changes(fates: &[Fate]) -> u64
    ensures { result ≡ changed_in fates.now }
{
    fates.iter().filter(|fate| changes(**fate)).count() as u64
}

/// Whether some line is not 0, which is no line.
fn is_any(lines: &[u32]) -> bool
    ensures { result ≡ list_any (λ line. not (nat_eq line 0)) lines.now }
{
    lines.iter().any(|line| *line != 0)
}

/// Keeps the lines of the positions that are left, and none where no line is among them.
fn thin_lines(lines: &mut Vec<u32>, fates: &[Fate])
    ensures { lines.new.items ≡ lines_left fates.now lines.old.items }
{
    keep_left(lines, fates);
    if !is_any(lines) {
        lines.clear();
    }
}

/// Makes the body of a method what its fates leave of it, and its lines too. The only error is want of memory.
pub(crate) fn thin_method(
    alloc: Global,
    method: &mut Method,
    fates: &[Fate],
) -> Result<(), AllocError>
    requires long { length fates.now ≡ positions_of method.old }
    requires small { length fates.now < 2 ^ 32 }
    ensures { OnOk result (method.new ≡ method_thinned fates.now method.old) }
{
    if let Some(body) = &mut method.body {
        thin(alloc, body, fates)?;
        thin_lines(&mut method.lines.items, fates);
    }
    Ok(())
}
