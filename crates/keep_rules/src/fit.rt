//! What patterns match: classes, types and arguments.

ghost use Rattle.std.specs.Prelude.{◌≡◌, ◌<◌, ℕ, List, [], ◌∷◌, true, false, length, map, Some, None, IfSome, IfNone, IfOk};
ghost use Rattle.rule_text.specs.Tokens.{Word};
ghost use Rattle.rule_text.specs.Related.{AreEach, IsPatternOf, IsItemOf, IsTypeOf, AreArgumentsOf};
ghost use Rattle.rule_text.specs.Pieces.{ends_in_brackets};
ghost use Rattle.rule_text.specs.Rules as meant;
ghost use Rattle.dalvik_defs.specs.Names.{text_eq, is_array, is_class_type, item_of};
ghost use Rattle.dalvik_defs.specs.Naming.{type_at};
ghost use Rattle.rule_defs.specs.Patterns.{inner, class_name_fits, some_name_fits, is_primitive, item_fits, type_fits, types_fit, arguments_fit};
ghost use Rattle.keep_rules.specs.Fits.{behind_of};

use crate::view::descriptor;
use program_model::Program;
use rule_match::{is_star, matches};
use rule_text::{Arguments, ItemPattern, NamePattern, Named, TypePattern};
use std::alloc::AllocError;

/// Whether the descriptor is that of a class.
fn is_class(descriptor: &[u16]) -> bool
    ensures { result ≡ is_class_type descriptor.now }
{
    matches!(descriptor, [76, ..])
}

/// Whether the descriptor is that of an array.
fn is_array(descriptor: &[u16]) -> bool
    ensures { result ≡ is_array descriptor.now }
{
    matches!(descriptor, [91, ..])
}

/// What stands between the first unit and the last.
#[tactic(auto, using(crate::proofs::FitLemmas::class_inner))]
fn inside(descriptor: &[u16]) -> &[u16]
    ensures { result.now ≡ inner (item_of descriptor.now) }
{
    match descriptor {
        [_, name @ .., _] => name,
        _ => &[],
    }
}

/// The name of a class in its descriptor.
pub fn class_name(descriptor: &[u16]) -> Option<&[u16]>
    ensures some { IfSome result (λ name. (is_class_type descriptor.now ≡ true) × (name.now ≡ inner (item_of descriptor.now))) }
    ensures none { IfNone result (is_class_type descriptor.now ≡ false) }
{
    let class = is_class(descriptor);
    if class {
        Some(inside(descriptor))
    } else {
        None
    }
}

/// Whether the pattern matches the class of this descriptor. `*` alone matches every class.
pub fn class_fits(
    pattern: &NamePattern,
    descriptor: &[u16],
    row: &mut Vec<bool>,
) -> Result<bool, AllocError>
    ensures { (w : Word) → IsPatternOf pattern.now w → IfOk result (λ fits. fits ≡ class_name_fits w descriptor.now) }
{
    let name = match class_name(descriptor) {
        Some(name) => name,
        None => return Ok(false),
    };
    if is_star(pattern) {
        return Ok(true);
    }
    matches(pattern, Named::Class, name, row)
}

/// Whether one of the patterns matches the class.
pub fn some_class_fits(
    patterns: &[NamePattern],
    descriptor: &[u16],
    row: &mut Vec<bool>,
) -> Result<bool, AllocError>
    ensures { (ws : List Word) → AreEach IsPatternOf patterns.now ws → IfOk result (λ fits. fits ≡ some_name_fits ws descriptor.now) }
{
    for pattern in patterns {
        let fits = class_fits(pattern, descriptor, row)?;
        if fits {
            return Ok(true);
        }
    }
    Ok(false)
}

/// What stands behind the first unit.
#[tactic(auto, using(crate::proofs::FitLemmas::behind_is))]
fn behind_first(descriptor: &[u16]) -> &[u16]
    ensures { result.now ≡ item_of descriptor.now }
{
    match descriptor {
        [_, behind @ ..] => behind,
        _ => &[],
    }
}

/// The descriptor behind so many brackets.
#[tactic(auto, using(crate::proofs::FitLemmas::behind_more, crate::proofs::FitLemmas::behind_none))]
fn behind_brackets(descriptor: &[u16], depth: usize) -> Option<&[u16]>
    ensures some { IfSome result (λ item. behind_of depth descriptor.now ≡ Some item.now) }
    ensures none { IfNone result (behind_of depth descriptor.now ≡ None) }
{
    let mut rest = descriptor;
    let mut left = depth;
    while left > 0 {
        let array = is_array(rest);
        if !array {
            return None;
        }
        rest = behind_first(rest);
        left -= 1;
    }
    Some(rest)
}

/// Whether the descriptor is that of a primitive type.
fn is_primitive(descriptor: &[u16]) -> bool
    ensures { result ≡ is_primitive descriptor.now }
{
    matches!(descriptor, [66 | 67 | 68 | 70 | 73 | 74 | 83 | 90])
}

/// Whether the descriptor is the letter alone.
fn is_letter(descriptor: &[u16], letter: u16) -> bool
    ensures { result ≡ text_eq (letter ∷ []) descriptor.now }
{
    matches!(descriptor, [unit] if *unit == letter)
}

/// Whether the pattern matches the item. Wildcards other than `***` match classes alone.
#[tactic(auto, using(crate::proofs::FitLemmas::letter_of))]
fn item_fits(
    item: &ItemPattern,
    descriptor: &[u16],
    row: &mut Vec<bool>,
) -> Result<bool, AllocError>
    ensures { (w : Word) → IsItemOf item.now w → IfOk result (λ fits. fits ≡ item_fits w descriptor.now) }
{
    match item {
        ItemPattern::Any => Ok(true),
        ItemPattern::Primitive => Ok(is_primitive(descriptor)),
        ItemPattern::Letter(letter) => Ok(is_letter(descriptor, *letter)),
        ItemPattern::Class(pattern) => match class_name(descriptor) {
            Some(name) => matches(pattern, Named::Class, name, row),
            None => Ok(false),
        },
    }
}

/// Whether the pattern matches the type of this descriptor.
pub fn type_fits(
    pattern: &TypePattern,
    descriptor: &[u16],
    row: &mut Vec<bool>,
) -> Result<bool, AllocError>
    ensures { (w : Word) → IsTypeOf pattern.now w → IfOk result (λ fits. fits ≡ type_fits w descriptor.now) }
{
    match behind_brackets(descriptor, pattern.depth) {
        Some(item) => item_fits(&pattern.item, item, row),
        None => Ok(false),
    }
}

/// Whether the patterns match the types, one each.
fn types_fit(
    patterns: &[TypePattern],
    program: &Program,
    kinds: &[u32],
    row: &mut Vec<bool>,
) -> Result<bool, AllocError>
    ensures { (ws : List Word) → AreEach IsTypeOf patterns.now ws → IfOk result (λ fits. fits ≡ types_fit ws (map (type_at program.now) kinds.now)) }
{
    if patterns.len() != kinds.len() {
        return Ok(false);
    }
    for place in 0..patterns.len() {
        let fits = type_fits(&patterns[place], descriptor(program, kinds[place]), row)?;
        if !fits {
            return Ok(false);
        }
    }
    Ok(true)
}

/// Whether the patterns match the parameters, one each.
pub fn arguments_fit(
    arguments: &Arguments,
    program: &Program,
    parameters: &[u32],
    row: &mut Vec<bool>,
) -> Result<bool, AllocError>
    ensures { (a : meant.Arguments) → AreArgumentsOf arguments.now a → IfOk result (λ fits. fits ≡ arguments_fit a (map (type_at program.now) parameters.now)) }
{
    match arguments {
        Arguments::Any => Ok(true),
        Arguments::These(patterns) => types_fit(patterns.as_slice(), program, parameters, row),
    }
}
