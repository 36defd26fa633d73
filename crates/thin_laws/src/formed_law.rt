//! A well-formed program is well-formed with other code that keeps the rules of bodies and takes no more room: `specs/Recoded.antt`
//! says what such a program is.

ghost use Rattle.std.specs.Prelude.{◌≡◌, true};
ghost use Rattle.program_model.specs.ProgramRules.{is_well_formed};
ghost use Rattle.program_model.specs.declared.program.Program.{Program};
ghost use Rattle.thin_laws.specs.Recoded.{RecodedProgram};

/// A well-formed program is well-formed with other code in some methods that keeps the rules of bodies.
pub fn formed_law()
    ensures { (p q : Program) → is_well_formed p ≡ true → RecodedProgram p q → is_well_formed q ≡ true }
{}
