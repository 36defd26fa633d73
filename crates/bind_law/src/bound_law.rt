//! No call is left that is bindable by name.

ghost use Rattle.std.specs.Prelude.{◌≡◌, Bool, true, List};
ghost use Rattle.program_model.specs.ProgramRules.{is_well_formed};
ghost use Rattle.program_model.specs.declared.program.Program.{Program};
ghost use Rattle.hierarchy.specs.Shapes.{IsResolved};
ghost use Rattle.hierarchy.specs.declared.build.Hierarchy.{Hierarchy};
ghost use Rattle.facts.specs.declared.facts.Facts.{Facts};
ghost use Rattle.devirt.specs.Left.{NoneLeft};
ghost use Rattle.verify.specs.Methods.{TypesAll};
ghost use Rattle.bind_law.specs.Bound.{IsUpright, NoneBindable, NothingBindable};

/// Where nothing is left to bind by number in the admitted methods of a well-formed program, no call of theirs is bindable by
/// name, by a receiver of the kind of a class that is no interface. The bodies need not be typed: a bindable call stands in one
/// that is.
pub fn none_bindable_law()
    ensures { (p : Program) (h : Hierarchy) (facts : Facts) (admitted : List Bool) → is_well_formed p ≡ true → IsResolved p h → NoneLeft p h facts admitted → NoneBindable p admitted }
{}

/// Where besides no class has an interface as its superclass, and all bodies are typed, no call is bindable by name at all: then
/// no kind in a least typing is that of an interface.
pub fn nothing_bindable_law()
    ensures { (p : Program) (h g : Hierarchy) (facts : Facts) (admitted : List Bool) → is_well_formed p ≡ true → IsResolved p h → IsResolved p g → TypesAll p g → IsUpright p
        → NoneLeft p h facts admitted → NothingBindable p admitted }
{}
