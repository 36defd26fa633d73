//! A well-formed program is well-formed with code that is rewritten in place: each instruction has other registers, can be spelled,
//! and keeps to the registers of its body, of which there are no more than before. `specs/Rewritten.antt` says what such a program
//! is.

ghost use Rattle.std.specs.Prelude.{◌≡◌, true};
ghost use Rattle.program_model.specs.ProgramRules.{is_well_formed};
ghost use Rattle.program_model.specs.declared.program.Program.{Program};
ghost use Rattle.thin_laws.specs.Rewritten.{RewrittenProgram};

/// A well-formed program is well-formed with other registers in the instructions of some methods.
pub fn rewritten_law()
    ensures { (p q : Program) → is_well_formed p ≡ true → RewrittenProgram p q → is_well_formed q ≡ true }
{}
