//! The laws of silent calls by number.

ghost use Rattle.std.specs.Prelude.{◌≡◌, Bool, true, List};
ghost use Rattle.program_model.specs.declared.program.Program.{Program};
ghost use Rattle.program_model.specs.declared.pass.Outside.{Outside};
ghost use Rattle.program_model.specs.ProgramRules.{is_well_formed};
ghost use Rattle.dalvik_defs.specs.Naming.{named};
ghost use Rattle.dalvik_defs.specs.Outer.{outer_of};
ghost use Rattle.dalvik_defs.specs.Silence as by_name;
ghost use Rattle.hierarchy.specs.Shapes.{IsAcyclic, IsResolved};
ghost use Rattle.hierarchy.specs.Splitting.{NoSplit};
ghost use Rattle.hierarchy.specs.declared.build.Hierarchy.{Hierarchy};
ghost use Rattle.pipeline.specs.Silence.{is_quiet, silenced, IsSilent};
ghost use Rattle.headline.specs.Admitted.{admitted_in};

/// A well-formed program without the silent calls of the methods that some marks admit is, by names, its named program
/// without the silent calls of the methods that an admitted number names.
pub fn silenced_by_number_law()
    ensures { (p : Program) (o : Outside) (admitted : List Bool) → is_well_formed p ≡ true
        → named (silenced (is_quiet p o.silent) admitted p) ≡ by_name.silenced (named p) (outer_of p o) (admitted_in p admitted) }
{}

/// What `silence` leaves of a well-formed program of which a hierarchy was built is, by names, its named program without
/// the silent calls of the methods that an admitted number names. The premises are what `Hierarchy::build` and `silence`
/// say where they give a result. (A program whose class graph has a fault `silence` leaves whole.)
pub fn silence_law()
    ensures { (p q : Program) (h : Hierarchy) (o : Outside) (admitted : List Bool) → is_well_formed p ≡ true → IsResolved p h → IsAcyclic p → NoSplit p
        → IsSilent o.silent admitted p q → named q ≡ by_name.silenced (named p) (outer_of p o) (admitted_in p admitted) }
{}
