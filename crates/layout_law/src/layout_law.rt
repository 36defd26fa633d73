//! Bodies lay out still where their instructions get no longer. A list of sizes that has room lies above a least one, so it is
//! enough that the least sizes of the old body, at the positions that are left, have room for the new one. Then no distance grows:
//! branches reach, regions stay near, and no list of handlers gets longer; equal lists stay equal, as the numbers in them can be
//! read back. Stated of instructions written over others (`specs/Shorter.antt`), and of positions that go (`specs/Circles.antt`).

ghost use Rattle.std.specs.Prelude.{◌≡◌, ℕ, List, length};
ghost use Rattle.program_model.specs.declared.body.Body.{Body};
ghost use Rattle.program_model.specs.declared.pass.Renumber.{Renumber};
ghost use Rattle.relax.specs.declared.step.Step.{Step};
ghost use Rattle.relax.specs.Sizes.{HasRoom, IsLeast, Below};
ghost use Rattle.pass_defs.specs.Thinned.{Fate, body_thinned};
ghost use Rattle.dex_defs.specs.LaysOut.{LaysOutBody};
ghost use Rattle.dex_defs.specs.Written.{new_body};
ghost use Rattle.layout_law.specs.Shorter.{IsShortened};
ghost use Rattle.layout_law.specs.Circles.{NoneCircles};
ghost use Rattle.layout_law.specs.Lower.{NumbersFall};

/// Sizes that have room lie above least ones.
pub fn least_sizes_law()
    ensures { (steps : List Step) (sizes : List ℕ) → HasRoom steps sizes → (least : List ℕ) × IsLeast steps least × Below least sizes }
{}

/// A body lays out that has instructions that are no longer in place of those of one that lays out.
pub fn shortened_law()
    ensures { (b d : Body) → IsShortened b d → LaysOutBody b → LaysOutBody d }
{}

/// A body that lays out does so without some of its positions, where no goto comes to lead to itself.
pub fn thinned_law()
    ensures { (fates : List Fate) (b : Body) → length fates ≡ length b.insns → NoneCircles fates b → LaysOutBody b → LaysOutBody (body_thinned fates b) }
{}

/// It does with new numbers of strings and types, where none of those that it names needs more room.
pub fn renumbered_law()
    ensures { (r : Renumber) (b : Body) → NumbersFall r b → LaysOutBody b → LaysOutBody (new_body r b) }
{}
