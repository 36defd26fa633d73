//! What staticise leaves of a well-formed program is well-formed: what is appended to its tables fits there, a method that is made
//! static has the arguments of its new proto, its calls name methods of the table, methods stand in their order, and the program
//! keeps the limits of files.

ghost use Rattle.std.specs.Prelude.{◌≡◌, ℕ, Bool, true, List};
ghost use Rattle.program_model.specs.ProgramRules.{is_well_formed};
ghost use Rattle.program_model.specs.declared.pass.Changed.{Changed};
ghost use Rattle.program_model.specs.declared.pass.Outside.{Outside};
ghost use Rattle.program_model.specs.declared.program.Program.{Program};
ghost use Rattle.class_defs.specs.ClassGraph.{IsTwice};
ghost use Rattle.facts.specs.declared.facts.Facts.{Facts};
ghost use Rattle.staticise.specs.Loosened.{IsStaticisedBy};

/// What staticise answers of a well-formed program whose classes have types of their own is well-formed.
pub fn static_formed_law()
    ensures { (p : Program) (facts : Facts) (o : Outside) (admitted : List Bool) (c : Changed) → is_well_formed p ≡ true → ((class : ℕ) → IsTwice p class → ⊥)
        → IsStaticisedBy p facts o admitted c → is_well_formed c.program ≡ true }
{}
