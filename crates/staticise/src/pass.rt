//! The pass.

ghost use Rattle.std.specs.Prelude.{◌≡◌, ◌<◌, ◌≤◌, ◌+◌, true, None, is_some, min, nat_eq, slice_index_or, IfOk, IfSome, OnOk};
ghost use Rattle.std.specs.List.{count_by};
ghost use Rattle.program_model.specs.ProgramRules.{is_well_formed};
ghost use Rattle.hierarchy.specs.Shapes.{IsResolved};
ghost use Rattle.static_protos.specs.Growing.{IsGrowth};
ghost use Rattle.static_protos.specs.Tables.{Tables};
ghost use Rattle.staticise.specs.Left.{NoneLeft, receivers_in};
ghost use Rattle.staticise.specs.Loosened.{name_with, names_with, extended_so, IsLoosenedBy, IsStaticisedBy};
ghost use Rattle.staticise.specs.Planned.{IsPlanned};

use crate::loosening::{Loosening, targets};
use facts::Facts;
use hierarchy::Hierarchy;
use loose_methods::find;
use program_model::{Admitted, Changed, MethodName, Outside, Program};
use seq::Seq;
use static_protos::{Growth, grow};
use std::alloc::{AllocError, Global};

/// How many methods are made static.
fn count_given(given: &[Option<u32>]) -> u64
    ensures { result ≡ count_by is_some given.now }
{
    given.iter().filter(|proto| proto.is_some()).count() as u64
}

/// Whether no method is made static.
fn is_none_given(given: &[Option<u32>]) -> bool
    ensures { result ≡ nat_eq (count_by is_some given.now) 0 }
{
    count_given(given) == 0
}

/// What the tables get for the methods of a program that are made static, none where there are none.
fn plan<'a>(
    alloc: Global,
    program: &'a Program,
    hierarchy: &'a Hierarchy,
    facts: &'a Facts,
    outside: &Outside,
    admitted: &'a Admitted,
) -> Result<Option<Growth>, AllocError>
    ensures planned { is_well_formed program.now ≡ true → IsResolved program.now hierarchy.now → IfOk result (IsPlanned program.now facts.now outside.now admitted.now.methods.items) }
    ensures some { IfOk result (λ found. IfSome found (λ g. 0 < count_by is_some g.given.items)) }
{
    let optimise = outside.optimise;
    if !optimise {
        return Ok(None);
    }
    let loose = find(alloc, program, hierarchy, facts, outside, admitted)?;
    let growth = grow(alloc, program, loose.as_slice())?;
    if is_none_given(growth.given.as_slice()) {
        return Ok(None);
    }
    Ok(Some(growth))
}

/// Gives a method number its new proto.
fn give_proto(name: &mut MethodName, proto: Option<u32>)
    ensures { name.new ≡ name_with name.old proto }
{
    if let Some(proto) = proto {
        name.proto = proto;
    }
}

/// The new proto at a place, none past the end.
fn proto_at(protos: &[Option<u32>], place: usize) -> Option<u32>
    ensures { result ≡ slice_index_or protos.now place None }
{
    match protos.get(place) {
        Some(proto) => *proto,
        None => None,
    }
}

/// Gives method numbers their new protos.
fn give_protos(names: &mut [MethodName], protos: &[Option<u32>])
    ensures { names.new ≡ names_with protos.now names.old }
{
    for place in 0..names.len() {
        give_proto(&mut names[place], proto_at(protos, place));
    }
}

/// Appends what the tables get, and gives method numbers their new protos.
fn append(program: &mut Program, growth: Growth) -> Result<(), AllocError>
    ensures { OnOk result (program.new ≡ extended_so growth.strings.items growth.protos.items growth.given.items program.old) }
{
    give_protos(
        program.methods.items.as_mut_slice(),
        growth.given.as_slice(),
    );
    let Growth {
        mut strings,
        mut protos,
        ..
    } = growth;
    program.strings.items.append(&mut strings)?;
    program.protos.items.append(&mut protos)?;
    Ok(())
}

/// Makes the methods of a program static that get new protos.
fn write(
    alloc: Global,
    program: &mut Program,
    hierarchy: &Hierarchy,
    growth: Growth,
) -> Result<(), AllocError>
    ensures { (t : Tables) → is_well_formed program.old ≡ true → IsResolved program.old hierarchy.now → IsGrowth program.old t growth → OnOk result (IsLoosenedBy program.old t program.new) }
{
    let targets = targets(alloc, program, hierarchy, growth.given.as_slice())?;
    let loosening = Loosening {
        hierarchy,
        given: growth.given.as_slice(),
        targets: targets.as_slice(),
    };
    loosening.loosen(alloc, program)?;
    append(program, growth)?;
    Ok(())
}

/// Makes the loose methods of a program static, and their calls, in place. The hierarchy is that of the program's classes, the
/// facts are those of the program, and the outside table is closed. `count` is how many methods are made static, 0 exactly where
/// the program is the same: then no method is loose. Else fewer methods have a receiver. New protos and strings are appended, and
/// lines stay. After want of memory, the only error, the program is lost.
pub fn apply(
    alloc: Global,
    program: Program,
    hierarchy: &Hierarchy,
    facts: &Facts,
    outside: &Outside,
    admitted: &Admitted,
) -> Result<Changed, AllocError>
    ensures staticised { is_well_formed program ≡ true → IsResolved program hierarchy.now → IfOk result (IsStaticisedBy program facts.now outside.now admitted.now.methods.items) }
    ensures none_left { is_well_formed program ≡ true → IsResolved program hierarchy.now
        → IfOk result (λ c. c.count ≡ 0 → NoneLeft program facts.now outside.now admitted.now.methods.items) }
    ensures same { IfOk result (λ changed. changed.count ≡ 0 → changed.program ≡ program) }
    ensures changes { is_well_formed program ≡ true → IsResolved program hierarchy.now → IfOk result (λ c. c.program ≡ program → c.count ≡ 0) }
    ensures falls { is_well_formed program ≡ true → IsResolved program hierarchy.now → IfOk result (λ c. receivers_in c.program + min c.count 1 ≤ receivers_in program) }
{
    let mut program = program;
    let origins = Seq::new(alloc);
    let planned = plan(alloc, &program, hierarchy, facts, outside, admitted)?;
    match planned {
        Some(growth) => {
            let count = count_given(growth.given.as_slice());
            write(alloc, &mut program, hierarchy, growth)?;
            Ok(Changed {
                program,
                count,
                origins,
            })
        }
        None => Ok(Changed {
            program,
            count: 0,
            origins,
        }),
    }
}
