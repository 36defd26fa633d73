//! Marks by which all is live.

ghost use Rattle.std.specs.Prelude.{◌≡◌, ℕ, true, length, slice_index_or};
ghost use Rattle.program_model.specs.declared.program.Program.{Program};
ghost use Rattle.call_graph.specs.Facts.{Fits};
ghost use Rattle.vague_facts.specs.Vague.{IsWhole};

use call_graph::LiveSet;

/// As many marks, each of which stands.
fn all_on(mut marks: Vec<bool>) -> Vec<bool>
    ensures long { length result.items ≡ length marks.items }
    ensures on { (n : ℕ) → slice_index_or result.items n true ≡ true }
{
    for at in 0..marks.len() {
        marks[at] = true;
    }
    marks
}

/// The marks of all classes, members and made classes of a program of which others mark some.
pub fn all_live(live: LiveSet) -> LiveSet
    ensures fits { (p : Program) → Fits p live → Fits p result }
    ensures whole { IsWhole result }
{
    let LiveSet {
        classes,
        made,
        fields,
        methods,
    } = live;
    LiveSet {
        classes: all_on(classes),
        made: all_on(made),
        fields: all_on(fields),
        methods: all_on(methods),
    }
}
