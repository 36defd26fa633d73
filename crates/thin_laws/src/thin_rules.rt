//! A thinned body keeps the rules of bodies: `specs/Tidy.antt` says under which fates. Its functions have an empty body, and their
//! contracts are the laws and an example.

ghost use Rattle.std.specs.Prelude.{◌≡◌, ℕ, Bool, true, List};
ghost use Rattle.program_model.specs.BodyRules.{body_fits};
ghost use Rattle.program_model.specs.ProgramRules.{is_well_formed};
ghost use Rattle.program_model.specs.declared.body.Body.{Body};
ghost use Rattle.program_model.specs.declared.program.Program.{Program};
ghost use Rattle.pass_defs.specs.Thinned.{Fate, body_thinned};
ghost use Rattle.thin_laws.specs.Tidied.{TidiedProgram};
ghost use Rattle.thin_laws.specs.Tidy.{IsTidy};

/// A body that keeps the rules of bodies keeps them when it is thinned by tidy fates: what goes goes on to what is left, what
/// gives a result that is taken stays, handlers have somewhere to begin, and each caught object has a region that is left.
pub fn thinned_fits_law()
    ensures { (p : Program) (marks : ℕ → Bool) (fates : List Fate) (b : Body) → body_fits p b ≡ true → IsTidy marks fates b → body_fits p (body_thinned fates b) ≡ true }
{}

/// A well-formed program is well-formed with code that is thinned by tidy fates, in all methods or in some.
pub fn thinned_formed_law()
    ensures { (p q : Program) → is_well_formed p ≡ true → TidiedProgram p q → is_well_formed q ≡ true }
{}
