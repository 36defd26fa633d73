//! Whether a program has stale reads.

ghost use Rattle.std.specs.Prelude.{◌≡◌, ◌<◌, ℕ, true, false, [], length, IfOk};
ghost use Rattle.copy_prop.specs.Propagated.{IsPropagated, IsPropagatedMethod, IsPropagatedClass, IsPropagatedProgram, AreSettled, HasSome, HasStaleRead, HasStaleMethod, HasStaleClass, HasStale, row_at};

use crate::copied::Copied;
use crate::pass::is_countable;
use crate::stale::stale_copies;
use criteria::is_admitted;
use insn_regs::widths_of;
use program_model::{Admitted, Body, Class, Method, Program};
use seq::Seq;
use std::alloc::{AllocError, Global};

/// Whether some row has copies.
fn has_copies(table: &[Seq<Copied>]) -> bool
    ensures none { result ≡ false → (n : ℕ) → n < length table.now → row_at table.now n ≡ [] }
    ensures some { result ≡ true → (n : ℕ) × (n < length table.now) × (row_at table.now n ≡ [] → ⊥) }
{
    for row in table {
        if !row.is_empty() {
            return true;
        }
    }
    false
}

/// Whether a read of a body is stale. A body with more positions and regions than 32 bits count has no room in memory. The
/// only error is want of memory.
fn has_stale_read(alloc: Global, widths: &[Seq<bool>], body: &Body) -> Result<bool, AllocError>
    ensures none { IfOk result (λ some. some ≡ false → IsPropagated widths.now body.now body.now) }
    ensures some { IfOk result (λ some. some ≡ true → HasStaleRead widths.now body.now) }
{
    if !is_countable(body) {
        return Err(AllocError);
    }
    let table = stale_copies(alloc, widths, body)?;
    Ok(has_copies(table.as_slice()))
}

/// Whether a method is admitted and a read of it is stale.
fn is_stale_method(
    alloc: Global,
    widths: &[Seq<bool>],
    admitted: &[bool],
    method: &Method,
) -> Result<bool, AllocError>
    ensures none { IfOk result (λ some. some ≡ false → IsPropagatedMethod widths.now admitted.now method.now method.now) }
    ensures some { IfOk result (λ some. some ≡ true → HasStaleMethod widths.now admitted.now method.now) }
{
    if is_admitted(admitted, method.name) {
        if let Some(body) = &method.body {
            return has_stale_read(alloc, widths, body);
        }
    }
    Ok(false)
}

/// Whether a read of some admitted method is stale.
fn has_stale_method(
    alloc: Global,
    widths: &[Seq<bool>],
    admitted: &[bool],
    methods: &[Method],
) -> Result<bool, AllocError>
    ensures none { IfOk result (λ some. some ≡ false → AreSettled (IsPropagatedMethod widths.now admitted.now) (length methods.now) methods.now) }
    ensures some { IfOk result (λ some. some ≡ true → HasSome (HasStaleMethod widths.now admitted.now) methods.now) }
{
    for method in methods {
        if is_stale_method(alloc, widths, admitted, method)? {
            return Ok(true);
        }
    }
    Ok(false)
}

/// The same for the methods of a class.
fn is_stale_class(
    alloc: Global,
    widths: &[Seq<bool>],
    admitted: &[bool],
    class: &Class,
) -> Result<bool, AllocError>
    ensures none { IfOk result (λ some. some ≡ false → IsPropagatedClass widths.now admitted.now class.now class.now) }
    ensures some { IfOk result (λ some. some ≡ true → HasStaleClass widths.now admitted.now class.now) }
{
    has_stale_method(alloc, widths, admitted, class.methods.as_slice())
}

/// The same for the methods of some classes.
fn has_stale_class(
    alloc: Global,
    widths: &[Seq<bool>],
    admitted: &[bool],
    classes: &[Class],
) -> Result<bool, AllocError>
    ensures none { IfOk result (λ some. some ≡ false → AreSettled (IsPropagatedClass widths.now admitted.now) (length classes.now) classes.now) }
    ensures some { IfOk result (λ some. some ≡ true → HasSome (HasStaleClass widths.now admitted.now) classes.now) }
{
    for class in classes {
        if is_stale_class(alloc, widths, admitted, class)? {
            return Ok(true);
        }
    }
    Ok(false)
}

/// Whether a read of some admitted method is stale, so that [`apply`](crate::apply) changes it. The only error is want of
/// memory.
pub fn has_stale(alloc: Global, program: &Program, admitted: &Admitted) -> Result<bool, AllocError>
    ensures none { IfOk result (λ some. some ≡ false → IsPropagatedProgram admitted.now.methods.items program.now program.now) }
    ensures some { IfOk result (λ some. some ≡ true → HasStale admitted.now.methods.items program.now) }
{
    let widths = widths_of(alloc, program)?;
    let marks = admitted.methods.as_slice();
    let classes = program.classes.as_slice();
    let some = has_stale_class(alloc, widths.as_slice(), marks, classes)?;
    Ok(some)
}
