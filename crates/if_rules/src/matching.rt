//! Which classes a class specification matches.

ghost use Rattle.std.specs.Prelude.{◌≡◌, ◌<◌, ◌^◌, true, length, IfOk, OnOk};
ghost use Rattle.program_model.specs.ProgramRules.{is_well_formed};
ghost use Rattle.hierarchy.specs.Shapes.{IsOf};
ghost use Rattle.rule_text.specs.Rules as meant;
ghost use Rattle.rule_text.specs.Related.{IsClassOf};
ghost use Rattle.if_rules.specs.Matching.{AddsPlace, AreMatched};
ghost use Rattle.keep_rules.specs.Sought.{AreStanding};
ghost use Rattle.keep_rules.specs.View.{IsReady};

use hierarchy::Hierarchy;
use keep_rules::{View, class_at, class_matches, classes_under, is_under, view_of};
use program_model::Program;
use rule_text::ClassRule;
use std::alloc::{AllocError, Global};

/// Adds the place of a class, if the specification matches it.
#[tactic(auto, using(crate::proofs::MatchingLemmas::adds_none, crate::proofs::MatchingLemmas::adds_one, crate::proofs::MatchingLemmas::no_class, crate::proofs::MatchingLemmas::no_match))]
fn push_matching(
    rule: &ClassRule,
    program: &Program,
    place: u32,
    under: Option<&[bool]>,
    row: &mut Vec<bool>,
    out: &mut Vec<u32>,
) -> Result<(), AllocError>
    ensures { (k : meant.ClassRule) → IsClassOf rule.now k → AreStanding program.now k.above under.entry → OnOk result (AddsPlace program.now k place out.old.items out.new.items) }
{
    let Some(class) = class_at(program, place) else {
        return Ok(());
    };
    let fits = class_matches(rule, program, class, is_under(under, place), row)?;
    if fits {
        out.push(place)?;
    }
    Ok(())
}

/// The places of the classes that the specification matches.
fn places_matched(
    alloc: Global,
    rule: &ClassRule,
    program: &Program,
    under: Option<&[bool]>,
    row: &mut Vec<bool>,
) -> Result<Vec<u32>, AllocError>
    requires { length program.now.classes < 2 ^ 32 }
    ensures { (k : meant.ClassRule) → IsClassOf rule.now k → AreStanding program.now k.above under.entry → IfOk result (λ out. AreMatched program.now k out.items) }
{
    let mut out = Vec::new(alloc);
    for place in 0..program.classes.len() as u32 {
        push_matching(rule, program, place, under, row, &mut out)?;
    }
    Ok(out)
}

/// The same with tables of the program.
fn places_by(alloc: Global, rule: &ClassRule, view: &View<'_>) -> Result<Vec<u32>, AllocError>
    ensures { (k : meant.ClassRule) → IsReady view.now → IsClassOf rule.now k → IfOk result (λ out. AreMatched view.now.program.now k out.items) }
{
    let mut row = Vec::new(alloc);
    match &rule.above {
        None => places_matched(alloc, rule, view.program, None, &mut row),
        Some(above) => {
            let under = classes_under(alloc, view, above, &mut row)?;
            places_matched(alloc, rule, view.program, Some(under.as_slice()), &mut row)
        }
    }
}

/// The places of the classes that a class specification matches, in the order of the file. The only error is want of memory.
pub fn classes_matched(
    alloc: Global,
    rule: &ClassRule,
    program: &Program,
    hierarchy: &Hierarchy,
) -> Result<Vec<u32>, AllocError>
    requires types { length program.now.types < 2 ^ 32 }
    requires classes { length program.now.classes < 2 ^ 32 }
    requires methods { length program.now.methods < 2 ^ 32 }
    ensures { (k : meant.ClassRule) → is_well_formed program.now ≡ true → IsOf program.now hierarchy.now → IsClassOf rule.now k → IfOk result (λ out. AreMatched program.now k out.items) }
{
    let view = view_of(alloc, program, hierarchy)?;
    places_by(alloc, rule, &view)
}
