//! Where the positions of a thinned program come from.

ghost use Rattle.std.specs.Prelude.{◌≡◌, [], length, replicate, IfOk, OnOk};
ghost use Rattle.program_model.specs.Cells.{capped};
ghost use Rattle.thin_pass.specs.Plans.{AreLong, noted, class_origins, all_origins, all_changes, program_origins};

use body_edit::Fate;
use program_model::{Class, Method, Origin, Program};
use seq::Seq;
use std::alloc::{AllocError, Global};

/// Notes where the positions of a method come from.
#[tactic(auto, using(crate::proofs::Noting::noted_set, crate::proofs::Noting::noted_long, crate::proofs::Noting::noted_past))]
fn note(
    alloc: Global,
    origins: &mut Vec<Seq<Origin>>,
    method: u32,
    fates: &[Fate],
) -> Result<(), AllocError>
    ensures { OnOk result (origins.new.items ≡ noted method fates.now origins.old.items) }
{
    let place = method as usize;
    if fates.len() <= u32::MAX as usize && place < origins.len() {
        origins[place] = body_edit::origins(alloc, method, fates)?;
    }
    Ok(())
}

/// Notes where the positions of a class's methods come from.
fn note_class(
    alloc: Global,
    origins: &mut Vec<Seq<Origin>>,
    methods: &[Method],
    plan: &[Seq<Fate>],
) -> Result<(), AllocError>
    requires { length methods.now ≡ length plan.now }
    ensures { OnOk result (origins.new.items ≡ class_origins methods.now plan.now origins.old.items) }
{
    for place in 0..methods.len() {
        note(alloc, origins, methods[place].name, plan[place].as_slice())?;
    }
    Ok(())
}

/// Notes where the positions of the methods of all classes come from.
fn note_all(
    alloc: Global,
    origins: &mut Vec<Seq<Origin>>,
    classes: &[Class],
    plan: &[Seq<Seq<Fate>>],
) -> Result<(), AllocError>
    requires { AreLong classes.now plan.now }
    ensures { OnOk result (origins.new.items ≡ all_origins classes.now plan.now origins.old.items) }
{
    for place in 0..classes.len() {
        let methods = classes[place].methods.as_slice();
        note_class(alloc, origins, methods, plan[place].as_slice())?;
    }
    Ok(())
}

/// So many empty lists.
fn no_origins(alloc: Global, count: usize) -> Result<Vec<Seq<Origin>>, AllocError>
    ensures { IfOk result (λ v. v.items ≡ replicate count []) }
{
    let mut origins = Vec::with_capacity(alloc, count)?;
    for _ in 0..count {
        origins.push(Seq::new(alloc))?;
    }
    Ok(origins)
}

/// Where the positions of all methods come from.
fn origins_by(
    alloc: Global,
    program: &Program,
    plan: &[Seq<Seq<Fate>>],
) -> Result<Seq<Seq<Origin>>, AllocError>
    requires { AreLong program.now.classes plan.now }
    ensures { IfOk result (λ v. v ≡ all_origins program.now.classes plan.now (replicate (length program.now.methods) [])) }
{
    let mut origins = no_origins(alloc, program.methods.len())?;
    note_all(alloc, &mut origins, program.classes.as_slice(), plan)?;
    Ok(Seq::of_vec(origins))
}

/// Where the positions of all methods come from, nothing where no position changed.
#[tactic(auto, using(crate::proofs::Noting::none_changed, crate::proofs::Noting::some_changed))]
pub(crate) fn changed_origins(
    alloc: Global,
    program: &Program,
    plan: &[Seq<Seq<Fate>>],
    count: u64,
) -> Result<Seq<Seq<Origin>>, AllocError>
    requires long { AreLong program.now.classes plan.now }
    requires count { count ≡ capped (all_changes plan.now) }
    ensures { IfOk result (λ v. v ≡ program_origins plan.now program.now) }
{
    if count == 0 {
        return Ok(Seq::new(alloc));
    }
    let origins = origins_by(alloc, program, plan)?;
    Ok(origins)
}
