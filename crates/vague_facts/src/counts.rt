//! How many positions the longest body of a number has.

ghost use Rattle.std.specs.Prelude.{◌≡◌, ℕ, max, length, slice_set, slice_index_or, OnOk, IfOk};
ghost use Rattle.vague_facts.specs.Counting.{Rises, IsCounted, CountsBody, CountsTo, CountsClasses};

use program_model::{Body, Class, Method};

/// Raises the count of a number, if there is such a number.
fn raise(counts: &mut [usize], number: u32, count: usize)
    ensures { counts.new ≡ slice_set counts.old number (max (slice_index_or counts.old number 0) count) }
{
    let at = number as usize;
    if at < counts.len() {
        counts[at] = counts[at].max(count);
    }
}

/// Counts the positions of a body.
#[tactic(auto, using(crate::proofs::Counting::raised, crate::proofs::Counting::raised_counts))]
fn count_body(counts: &mut [usize], number: u32, body: &Body)
    ensures rises { Rises counts.old counts.new }
    ensures counted { IsCounted counts.new number body.now }
{
    let _registers = body.registers;
    raise(counts, number, body.insns.len());
}

/// Counts the positions of a method, if it has code.
fn count_method(counts: &mut [usize], method: &Method)
    ensures rises { Rises counts.old counts.new }
    ensures counted { CountsBody counts.new method.now }
{
    if let Some(body) = &method.body {
        count_body(counts, method.name, body);
    }
}

/// Counts the positions of some methods.
fn count_methods(counts: &mut [usize], methods: &[Method])
    ensures rises { Rises counts.old counts.new }
    ensures counted { CountsTo counts.new (length methods.now) methods.now }
{
    for method in methods {
        count_method(counts, method);
    }
}

/// Counts the positions of the methods of some classes.
pub(crate) fn count_classes(counts: &mut [usize], classes: &[Class])
    ensures rises { Rises counts.old counts.new }
    ensures counted { CountsClasses counts.new (length classes.now) classes.now }
{
    for class in classes {
        count_methods(counts, class.methods.as_slice());
    }
}
