//! The headline.

ghost use Rattle.std.specs.Prelude.{ℕ, Bool, true, List};
ghost use Rattle.program_model.specs.declared.pass.Outside.{Outside};
ghost use Rattle.program_model.specs.declared.program.Program.{Program};
ghost use Rattle.dalvik_defs.specs.Naming.{named};
ghost use Rattle.dalvik_defs.specs.Outer.{outer_of};
ghost use Rattle.removal_law.specs.Reach.{ShutsHold};
ghost use Rattle.redex_cli.specs.Accepted.{IsAccepted};
ghost use Rattle.redex_cli.specs.Finished.{LeavesBy};
ghost use Rattle.redex_outside.specs.Held.{Held};
ghost use Rattle.redex_outside.specs.Voices.{Voice};
ghost use Rattle.redex_cli.specs.Refusals.{OutputBy};
ghost use Rattle.headline.specs.Headline.{Headline, KeepsMeaning};

/// What a run of `optimise` puts keeps the meaning of the file, with `--inline` and without, and was made with the advisers that the
/// run was given. The premise is what `run` says of the output's name where the run is done, and where the name's put failed or the
/// saying did (`stays` and `done` of its contract), of a shelf that tells what it holds.
pub fn headline()
    ensures { (words : List (List ℕ)) (voices : List Voice) (held : Held) (output summary : List ℕ) → OutputBy words voices true held output summary
        → Headline words voices held output }
{}

/// What `optimise` leaves of an accepted program, with calls inlined or not, keeps its meaning for any outside whose table of shut
/// methods holds what it says: for what rules alone give, which shuts none, and for one that was narrowed by a library's declarations.
pub fn any_outside()
    ensures { (inline : Bool) (voices : List Voice) (given : List Bool) (program left : Program) (outside : Outside) (rounds spared : ℕ) → IsAccepted program
        → ShutsHold (named program) (outer_of program outside) → LeavesBy inline voices given program outside left rounds spared
        → KeepsMeaning inline voices given program outside left }
{}
