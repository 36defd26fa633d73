//! What the framework declares directly above the classes of a program.

ghost use Rattle.std.specs.Prelude.{◌≡◌, ◌&&◌, ◌++◌, ◌∷◌, [], true, is_none, not, IfOk, OnOk};
ghost use Rattle.std.specs.List.{list_all};
ghost use Rattle.program_model.specs.Lookups.{class_place};
ghost use Rattle.program_model.specs.MemberRules.{is_object};
ghost use Rattle.program_model.specs.Texts.{type_text};
ghost use Rattle.hierarchy.specs.Shapes.{IsOf};
ghost use Rattle.stub_library.specs.Shut.{type_clear};
ghost use Rattle.stub_library.specs.Meeting.{IsDeclared, IsMet, AreMet, MeetsEntry, is_clear};

use crate::declared::{Declared, Met};
use crate::library::Library;
use crate::texts::{is_object, type_units};
use hierarchy::Hierarchy;
use program_model::{Class, Program};
use seq::Seq;
use std::alloc::{AllocError, Global};

/// By the place of a class: `opens` marks the classes with a framework type in their lists above which not all types are
/// known, and `numbers` has the method numbers with a name and proto that is declared above one.
#[derive(Drop)]
pub struct Above {
    pub opens: Vec<bool>,
    pub numbers: Vec<Seq<u32>>,
}

/// Whether a type is the framework's and not `Ljava/lang/Object;`.
pub fn is_framework(program: &Program, hierarchy: &Hierarchy, kind: u32) -> bool
    requires { IsOf program.now hierarchy.now }
    ensures { result ≡ (is_none (class_place program.now kind) && not (is_object (type_text program.now kind))) }
{
    hierarchy.place_of(kind).is_none() && !is_object(type_units(program, kind))
}

impl Met {
    /// Nothing met.
    fn new(alloc: Global) -> Met
        ensures whole { result.whole ≡ true }
        ensures none { result.numbers.items ≡ [] }
    {
        Met {
            whole: true,
            numbers: Vec::new(alloc),
        }
    }
}

/// Meets all on the walk upwards from a type of the framework.
fn meet_type<'a, 's>(
    alloc: Global,
    program: &'a Program,
    hierarchy: &Hierarchy,
    declared: &Declared<'a, 's>,
    kind: u32,
    met: &mut Met,
) -> Result<(), AllocError>
    requires of { IsOf program.now hierarchy.now }
    requires same { declared.now.spelled.now.program.now ≡ program.now }
    requires declared { IsDeclared program.now declared.now.library.now declared.now }
    ensures { OnOk result (MeetsEntry program.now (λ q. type_clear program.now declared.now.library.now q kind) met.old met.new) }
{
    if !is_framework(program, hierarchy, kind) {
        return Ok(());
    }
    declared.meet_all(alloc, type_units(program, kind), met)?;
    Ok(())
}

/// Meets all on the walks upwards from types of the framework.
fn meet_types<'a, 's>(
    alloc: Global,
    program: &'a Program,
    hierarchy: &Hierarchy,
    declared: &Declared<'a, 's>,
    kinds: &[u32],
    met: &mut Met,
) -> Result<(), AllocError>
    requires of { IsOf program.now hierarchy.now }
    requires same { declared.now.spelled.now.program.now ≡ program.now }
    requires declared { IsDeclared program.now declared.now.library.now declared.now }
    ensures { OnOk result (MeetsEntry program.now (λ q. list_all (type_clear program.now declared.now.library.now q) kinds.now) met.old met.new) }
{
    for kind in kinds {
        meet_type(alloc, program, hierarchy, declared, *kind, met)?;
    }
    Ok(())
}

/// What is met above the framework types that a class lists.
fn met_above<'a, 's>(
    alloc: Global,
    program: &'a Program,
    hierarchy: &Hierarchy,
    declared: &Declared<'a, 's>,
    class: &Class,
) -> Result<Met, AllocError>
    requires of { IsOf program.now hierarchy.now }
    requires same { declared.now.spelled.now.program.now ≡ program.now }
    requires declared { IsDeclared program.now declared.now.library.now declared.now }
    ensures { IfOk result (λ met. IsMet program.now declared.now.library.now class.now met.whole met.numbers.items) }
{
    let mut met = Met::new(alloc);
    let above = class.superclass;
    meet_type(alloc, program, hierarchy, declared, above, &mut met)?;
    let kinds = class.interfaces.as_slice();
    meet_types(alloc, program, hierarchy, declared, kinds, &mut met)?;
    Ok(met)
}

impl Above {
    /// No classes.
    fn none(alloc: Global) -> Above
        ensures opens { result.opens.items ≡ [] }
        ensures numbers { result.numbers.items ≡ [] }
    {
        Above {
            opens: Vec::new(alloc),
            numbers: Vec::new(alloc),
        }
    }

    /// Adds what is met above a class.
    fn add(&mut self, met: Met) -> Result<(), AllocError>
        ensures opens { OnOk result (self.new.opens.items ≡ self.old.opens.items ++ not met.whole ∷ []) }
        ensures numbers { OnOk result (self.new.numbers.items ≡ self.old.numbers.items ++ met.numbers.items ∷ []) }
    {
        self.opens.push(!met.whole)?;
        self.numbers.push(Seq::of_vec(met.numbers))?;
        Ok(())
    }

    /// What the framework declares above the classes of a program.
    pub fn of_classes<'a, 's>(
        alloc: Global,
        program: &'a Program,
        hierarchy: &Hierarchy,
        declared: &Declared<'a, 's>,
    ) -> Result<Above, AllocError>
        requires of { IsOf program.now hierarchy.now }
        requires same { declared.now.spelled.now.program.now ≡ program.now }
        requires declared { IsDeclared program.now declared.now.library.now declared.now }
        ensures { IfOk result (λ above. AreMet program.now declared.now.library.now above.opens.items above.numbers.items) }
    {
        let mut above = Above::none(alloc);
        for class in program.classes.as_slice() {
            let met = met_above(alloc, program, hierarchy, declared, class)?;
            above.add(met)?;
        }
        Ok(above)
    }
}
