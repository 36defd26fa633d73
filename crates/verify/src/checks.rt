//! The calls of this crate.

ghost use Rattle.std.specs.Prelude.{◌≡◌, ◌⊎◌, ◌≤◌, length, true, IfOk, IfErr, OnOk};
ghost use Rattle.verify.specs.declared.fault.TypeFault.TheVariants.{NoMemory};
ghost use Rattle.verify.specs.Flow.{greatest, places_of};
ghost use Rattle.verify.specs.Methods.{TypesFor, RefusesFor, TypesAll, RefusesOne};

use crate::fault::TypeFault;
use crate::typed::{Typings, Verifier};
use hierarchy::Hierarchy;
use program_model::{MethodAt, Program};
use std::alloc::Global;

/// The typings of a method of a well-formed program, by the hierarchy of its classes: the least that there are. A method
/// without code has no positions.
///
/// `IllTyped` stands where there are none. It names the first position, and there the lowest register, at which a read
/// isn't allowed in the least flow; register 0 where the position is wrong whatever the registers hold. The least flow is
/// that in which the edges from such a position carry no kinds.
///
/// It makes tables of the whole program: whoever asks of many methods makes a [`Verifier`].
pub fn typings(
    alloc: Global,
    program: &Program,
    hierarchy: &Hierarchy,
    method: MethodAt,
) -> Result<Typings, TypeFault>
    ensures typed { IfOk result (λ x. TypesFor program.now hierarchy.now method (places_of x.states.items)) }
    ensures refused { IfErr result (λ e. (e ≡ NoMemory) ⊎ RefusesFor program.now hierarchy.now method e) }
{
    let verifier = Verifier::make(alloc, program, hierarchy)?;
    match verifier.typings(alloc, method) {
        Ok(typings) => Ok(typings),
        Err(fault) => Err(fault),
    }
}

/// Whether the places of a program's classes have numbers of 32 bits.
fn has_few_classes(program: &Program) -> bool
    ensures { result ≡ true → length program.now.classes ≤ greatest }
{
    program.classes.len() <= u32::MAX as usize
}

/// Whether all methods with code are well typed: else the fault of the first one that isn't, in class and method order.
/// A program with more classes than numbers of 32 bits, which no well-formed one has, is more than memory is asked for.
pub fn verify_all(alloc: Global, program: &Program, hierarchy: &Hierarchy) -> Result<(), TypeFault>
    ensures typed { OnOk result (TypesAll program.now hierarchy.now) }
    ensures refused { IfErr result (λ e. (e ≡ NoMemory) ⊎ RefusesOne program.now hierarchy.now e) }
{
    if !has_few_classes(program) {
        return Err(TypeFault::NoMemory);
    }
    let verifier = Verifier::make(alloc, program, hierarchy)?;
    match verifier.verify_all(alloc) {
        Ok(()) => Ok(()),
        Err(fault) => Err(fault),
    }
}
