//! Which types a pattern is to be tried on.

ghost use Rattle.std.specs.Prelude.{◌≡◌, List, [], true, false, nat_eq, IfOk, IfSome, IfNone};
ghost use Rattle.std.specs.List.{list_any};
ghost use Rattle.rule_text.specs.Tokens.{Word};
ghost use Rattle.rule_text.specs.Related.{AreEach, IsPatternOf};
ghost use Rattle.rule_defs.specs.Patterns.{is_star};
ghost use Rattle.keep_rules.specs.View.{IsReady};
ghost use Rattle.keep_rules.specs.Tried.{slashed, class_descriptor, HasDescriptor, AreCandidates, FitAmong};

use crate::view::View;
use rule_match::{is_plain, is_star};
use rule_text::NamePattern;
use std::alloc::{AllocError, Global};

/// Types that a pattern may match: one, where it has no wildcard, none, or all.
#[derive(Clone, Copy)]
pub enum Candidates {
    None,
    Type(u32),
    All,
}

/// A unit of a class's name as a descriptor has it.
fn slashed(unit: u16) -> u16
    ensures { result ≡ slashed unit }
{
    if unit == 46 { 47 } else { unit }
}

/// The descriptor of the class that a pattern without wildcards names, none where no class has such a name.
fn descriptor_of(alloc: Global, name: &[u16]) -> Result<Option<Vec<u16>>, AllocError>
    ensures some { IfOk result (λ named. IfSome named (λ units. units.items ≡ class_descriptor name.now)) }
    ensures none { IfOk result (λ named. IfNone named (list_any (nat_eq 47) name.now ≡ true)) }
{
    let mut units = Vec::new(alloc);
    units.push(76)?;
    for unit in name {
        if *unit == 47 {
            return Ok(None);
        }
        units.push(slashed(*unit))?;
    }
    units.push(59)?;
    Ok(Some(units))
}

/// The type of a descriptor.
fn type_named(view: &View<'_>, units: &[u16]) -> Candidates
    ensures { IsReady view.now → HasDescriptor view.now.program.now units.now result }
{
    match view.types.get(&units) {
        Some(kind) => Candidates::Type(*kind),
        None => Candidates::None,
    }
}

/// The types that a pattern without wildcards may match.
fn plain_candidates(
    alloc: Global,
    view: &View<'_>,
    pattern: &NamePattern,
) -> Result<Candidates, AllocError>
    ensures { (w : Word) → IsReady view.now → IsPatternOf pattern.now w → pattern.now.rest.items ≡ [] → is_star w ≡ false
        → IfOk result (AreCandidates view.now.program.now w) }
{
    match descriptor_of(alloc, pattern.head.as_slice())? {
        Some(units) => Ok(type_named(view, units.as_slice())),
        None => Ok(Candidates::None),
    }
}

/// Which types the pattern is to be tried on.
pub fn candidates_of(
    alloc: Global,
    view: &View<'_>,
    pattern: &NamePattern,
) -> Result<Candidates, AllocError>
    ensures { (w : Word) → IsReady view.now → IsPatternOf pattern.now w → IfOk result (AreCandidates view.now.program.now w) }
{
    let star = is_star(pattern);
    if star {
        return Ok(Candidates::All);
    }
    let plain = is_plain(pattern);
    if !plain {
        return Ok(Candidates::All);
    }
    plain_candidates(alloc, view, pattern)
}

/// The types that each of the patterns without wildcards names; none where some pattern has a wildcard, so that all
/// types are to be tried.
pub fn named_types(
    alloc: Global,
    view: &View<'_>,
    patterns: &[NamePattern],
) -> Result<Option<Vec<u32>>, AllocError>
    ensures { (ws : List Word) → IsReady view.now → AreEach IsPatternOf patterns.now ws
        → IfOk result (λ named. IfSome named (λ kinds. FitAmong view.now.program.now ws kinds.items)) }
{
    let mut kinds = Vec::new(alloc);
    for pattern in patterns {
        match candidates_of(alloc, view, pattern)? {
            Candidates::None => {}
            Candidates::Type(kind) => kinds.push(kind)?,
            Candidates::All => return Ok(None),
        }
    }
    Ok(Some(kinds))
}
