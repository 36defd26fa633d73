//! The analysis.

ghost use Rattle.std.specs.Prelude.{◌≡◌, true, length, IfOk, IfSome};
ghost use Rattle.program_model.specs.ProgramRules.{is_well_formed};
ghost use Rattle.hierarchy.specs.Shapes.{IsResolved};
ghost use Rattle.domains.specs.Values.{any_value};
ghost use Rattle.dom_frame.specs.Classes.{AreClasses};
ghost use Rattle.facts_check.specs.Known.{AreKnown};
ghost use Rattle.facts_check.specs.Tables.{AreFilled, Holds};
ghost use Rattle.closed_facts.specs.Closed.{AreClosed};
ghost use Rattle.summaries.specs.Certified.{IsCertified};

use crate::cells::number_cells;
use crate::codes::{Codes, make_codes};
use crate::rows::{NONE, Rows, rows_of};
use crate::sites::{Sites, make_sites};
use crate::spread::{Ground, Spread};
use crate::tables::{Pieces, pieces_of};
use crate::unknown::unknown_facts;
use call_graph::{LiveSet, live_members};
use call_targets::{Link, Targets, targets};
use class_places::{classes_of, places_of};
use dom_frame::{Classes, Frame};
use facts::Facts;
use facts_check::{Known, Start, fill, holds};
use hierarchy::Hierarchy;
use program_model::{Outside, Program};
use seq::Seq;
use std::alloc::{AllocError, Global};

/// The links whose methods have bodies that may run, by call and by body.
#[derive(Drop)]
struct Linked {
    found: Rows,
    callers: Rows,
}

/// The pairs of a call and the place of a body that it may find, or the other way round.
fn pairs_of(
    alloc: Global,
    codes: &Codes<'_>,
    links: &[Link],
    backwards: bool,
) -> Result<Vec<(u32, u32)>, AllocError> {
    let mut pairs = Vec::with_capacity(alloc, links.len())?;
    for link in links {
        let code = codes.code_of(link.method);
        if code != NONE {
            pairs.push(if backwards {
                (code, link.call)
            } else {
                (link.call, code)
            })?;
        }
    }
    Ok(pairs)
}

/// The links of a program by call and by body.
fn links_of(
    alloc: Global,
    program: &Program,
    codes: &Codes<'_>,
    links: &[Link],
) -> Result<Linked, AllocError> {
    let forth = pairs_of(alloc, codes, links, false)?;
    let back = pairs_of(alloc, codes, links, true)?;
    Ok(Linked {
        found: rows_of(alloc, program.methods.len().saturating_mul(2), &forth)?,
        callers: rows_of(alloc, codes.all.len(), &back)?,
    })
}

/// The frames, if what is known is closed.
fn checked(
    alloc: Global,
    known: &Known<'_>,
    starts: &[Seq<Start>],
) -> Result<Option<Vec<Seq<Option<Frame>>>>, AllocError>
    ensures filled { AreKnown known.now → IfOk result (λ o. IfSome o (λ frames. AreFilled known.now frames.items)) }
    ensures holds { AreKnown known.now → IfOk result (λ o. IfSome o (λ frames. Holds known.now frames.items)) }
{
    match fill(alloc, known, starts)? {
        Some(frames) => {
            if holds(known, &frames) {
                Ok(Some(frames))
            } else {
                Ok(None)
            }
        }
        None => Ok(None),
    }
}

/// The facts with their frames.
fn with_frames(facts: Facts, frames: Vec<Seq<Option<Frame>>>) -> Facts
    ensures { result ≡ record facts { frames = frames } }
{
    let Facts {
        parameters,
        results,
        fields,
        quiet,
        any,
        ..
    } = facts;
    Facts {
        frames,
        parameters,
        results,
        fields,
        quiet,
        any,
    }
}

/// What facts are checked against.
#[derive(Clone, Copy)]
struct Bounds<'a> {
    outside: &'a Outside,
    live: &'a LiveSet,
    found: &'a Targets,
}

/// What the search finds.
fn searched(alloc: Global, ground: Ground<'_>, bounds: Bounds<'_>) -> Result<Pieces, AllocError>
    ensures { IfOk result (λ pieces. pieces.facts.any ≡ any_value) }
{
    let mut spread = Spread::new(alloc, ground)?;
    spread.search(alloc, bounds.outside, bounds.found)?;
    pieces_of(alloc, &spread)
}

/// What the search finds by the bodies of a program.
fn searched_in(
    alloc: Global,
    program: &Program,
    classes: Classes<'_>,
    bounds: Bounds<'_>,
    codes: &Codes<'_>,
) -> Result<Pieces, AllocError>
    ensures { IfOk result (λ pieces. pieces.facts.any ≡ any_value) }
{
    let hierarchy = classes.hierarchy;
    let numbering = number_cells(
        codes.words,
        codes.all.len(),
        program.fields.len(),
        program.methods.len(),
    );
    let sites = make_sites(alloc, program, hierarchy, codes, numbering)?;
    let Linked { found, callers } = links_of(alloc, program, codes, bounds.found.links.as_slice())?;
    let ground = Ground {
        program,
        hierarchy,
        classes,
        codes,
        sites: &sites,
        numbering,
        found: &found,
        callers: &callers,
    };
    searched(alloc, ground, bounds)
}

/// What the search finds in a program. What it looked up is let go before anything is checked.
fn searched_of(
    alloc: Global,
    program: &Program,
    classes: Classes<'_>,
    bounds: Bounds<'_>,
) -> Result<Pieces, AllocError>
    ensures { IfOk result (λ pieces. pieces.facts.any ≡ any_value) }
{
    let codes = make_codes(alloc, program, bounds.live)?;
    searched_in(alloc, program, classes, bounds, &codes)
}

/// What the search found as facts, if they are closed.
fn certified(
    alloc: Global,
    program: &Program,
    classes: Classes<'_>,
    bounds: Bounds<'_>,
    pieces: Pieces,
) -> Result<Option<Facts>, AllocError>
    requires { pieces.facts.any ≡ any_value }
    ensures { is_well_formed program.now ≡ true → AreClasses program.now classes.entry
        → IfOk result (λ o. IfSome o (AreClosed program.now bounds.entry.outside.now bounds.entry.live.now bounds.entry.found.now)) }
{
    let Pieces {
        facts,
        pools,
        marks,
        starts,
    } = pieces;
    let known = Known {
        program,
        hierarchy: classes.hierarchy,
        classes,
        outside: bounds.outside,
        live: bounds.live,
        targets: bounds.found,
        facts: &facts,
        pools: &pools,
        marks: &marks,
    };
    let Some(frames) = checked(alloc, &known, &starts)? else {
        return Ok(None);
    };
    Ok(Some(with_frames(facts, frames)))
}

/// What is known of a program by the table of its classes.
fn facts_by(
    alloc: Global,
    program: &Program,
    classes: Classes<'_>,
    outside: &Outside,
) -> Result<Option<Facts>, AllocError>
    ensures { is_well_formed program.now ≡ true → AreClasses program.now classes.entry
        → IfOk result (λ o. IfSome o (IsCertified program.now outside.now)) }
{
    let hierarchy = classes.hierarchy;
    let live = live_members(alloc, program, hierarchy, outside)?;
    let found = targets(alloc, program, hierarchy, outside, &live)?;
    let bounds = Bounds {
        outside,
        live: &live,
        found: &found,
    };
    let pieces = searched_of(alloc, program, classes, bounds)?;
    let facts = certified(alloc, program, classes, bounds, pieces)?;
    Ok(facts)
}

/// What a search finds of the runs of a program, if it is closed.
fn found_facts(
    alloc: Global,
    program: &Program,
    hierarchy: &Hierarchy,
    outside: &Outside,
) -> Result<Option<Facts>, AllocError>
    ensures { is_well_formed program.now ≡ true → IsResolved program.now hierarchy.now → IfOk result (λ o. IfSome o (IsCertified program.now outside.now)) }
{
    let places = places_of(alloc, hierarchy, program.types.len())?;
    let classes = classes_of(program, hierarchy, &places);
    facts_by(alloc, program, classes, outside)
}

/// What is known of every run of a program that the framework begins as the table of the outside allows, by the hierarchy of
/// the program's classes: of each position that a run may come to, and of parameters, results and fields. No method is said
/// to be quiet. What a search finds is answered, which has been checked to be closed; where it weren't, facts are answered that
/// say nothing. The only error is want of memory.
pub fn analyse(
    alloc: Global,
    program: &Program,
    hierarchy: &Hierarchy,
    outside: &Outside,
) -> Result<Facts, AllocError>
    ensures { is_well_formed program.now ≡ true → IsResolved program.now hierarchy.now → IfOk result (IsCertified program.now outside.now) }
{
    let found = found_facts(alloc, program, hierarchy, outside)?;
    match found {
        Some(facts) => Ok(facts),
        None => unknown_facts(alloc, program, hierarchy, outside),
    }
}
