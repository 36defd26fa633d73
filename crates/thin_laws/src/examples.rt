//! A region that goes.

ghost use Rattle.std.specs.Prelude.{◌≡◌, true, [], ◌∷◌};
ghost use Rattle.program_model.specs.BodyRules.{body_fits};
ghost use Rattle.program_model.specs.declared.program.Program.{Program};
ghost use Rattle.pass_defs.specs.Thinned.{Stays, Goes, body_thinned};
ghost use Rattle.thin_laws.specs.Examples.{guarded};

/// A body that returns at once has a handler at its end, for a region that never throws. Without the positions that no walk
/// reaches nothing stands where the handler would come to stand: so the region goes, and the body keeps the rules.
pub fn a_region_goes_with_its_handler()
    ensures before { (p : Program) → body_fits p guarded ≡ true }
    ensures behind { (p : Program) → body_fits p (body_thinned (Stays ∷ Stays ∷ Goes ∷ Goes ∷ []) guarded) ≡ true }
{}
