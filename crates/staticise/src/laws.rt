//! What follows from the methods being loose: what those know that join the pass to names.

ghost use Rattle.std.specs.Prelude.{◌≡◌, ℕ, Bool, true, List};
ghost use Rattle.program_model.specs.ProgramRules.{is_well_formed};
ghost use Rattle.program_model.specs.declared.pass.Outside.{Outside};
ghost use Rattle.program_model.specs.declared.program.Program.{Program};
ghost use Rattle.facts.specs.declared.facts.Facts.{Facts};
ghost use Rattle.static_protos.specs.Growing.{AreSound};
ghost use Rattle.staticise.specs.Judging.{judged};
ghost use Rattle.staticise.specs.Made.{AreMade, IsFresh, WasLoose};
ghost use Rattle.staticise.specs.Called.{AreKnown, IsUntouched};

/// Each method that is made static is one of the program that was loose behind the tables of its turn, and its new proto stands in
/// the tables that come; what stood in the tables stands there still.
pub fn made_law()
    ensures { (p : Program) (facts : Facts) (o : Outside) (admitted : List Bool) → AreMade p facts o admitted (judged p facts o admitted) }
{}

/// Each call that names such a method or may find it stands in a method that may be rewritten, is plain, and has a receiver that is
/// known as not null.
pub fn called_law()
    ensures { (p : Program) (facts : Facts) (o : Outside) (admitted : List Bool) → AreKnown p facts admitted (judged p facts o admitted) }
{}

/// No method number of a well-formed program has the name and the new proto of a method that is made static.
pub fn fresh_law()
    ensures { (p : Program) (facts : Facts) (o : Outside) (admitted : List Bool) → is_well_formed p ≡ true → (n : ℕ) (w : WasLoose p facts o admitted n) → IsFresh p w.name w.proto w.class }
{}

/// The code of a method that may not be rewritten stays.
pub fn untouched_law()
    ensures { (p : Program) (facts : Facts) (o : Outside) (admitted : List Bool) → IsUntouched p admitted (judged p facts o admitted) }
{}

/// The tables that come keep the limits of files, have no entry twice, and have the short form of each proto.
pub fn sound_law()
    ensures { (p : Program) (facts : Facts) (o : Outside) (admitted : List Bool) → is_well_formed p ≡ true → AreSound p (judged p facts o admitted) }
{}
