//! Types as Java writes them.

ghost use Rattle.std.specs.Prelude.{◌≡◌, ◌∷◌, ◌++◌, false, map, nat_eq, IfOk, OnOk};
ghost use Rattle.rule_text.specs.Related.{brackets};
ghost use Rattle.dalvik_defs.specs.Names.{is_array, item_of};
ghost use Rattle.rule_defs.specs.Patterns.{inner};
ghost use Rattle.rule_text.specs.Pieces.{primitives};
ghost use Rattle.if_rules.specs.Matched.{dotted, named_by, java};

use std::alloc::{AllocError, Global};

/// The name of a primitive type, or of void, by its letter; nothing where it has none.
fn primitive_name(letter: u16) -> &'static [u8]
    ensures { result.now ≡ named_by letter primitives }
{
    match letter {
        90 => b"boolean".as_slice(),
        66 => b"byte".as_slice(),
        67 => b"char".as_slice(),
        83 => b"short".as_slice(),
        73 => b"int".as_slice(),
        74 => b"long".as_slice(),
        70 => b"float".as_slice(),
        68 => b"double".as_slice(),
        86 => b"void".as_slice(),
        _ => b"".as_slice(),
    }
}

/// A unit of a class's name with a dot for `/`.
fn dotted(unit: u16) -> u16
    ensures { result ≡ dotted unit }
{
    if unit == 47 { 46 } else { unit }
}

/// Adds the name of a class.
fn push_class(out: &mut Vec<u16>, name: &[u16]) -> Result<(), AllocError>
    ensures { OnOk result (out.new.items ≡ out.old.items ++ map dotted name.now) }
{
    let mut rest = name;
    while let [unit, behind @ ..] = rest {
        out.push(dotted(*unit))?;
        rest = behind;
    }
    Ok(())
}

/// Adds the name of a primitive type.
fn push_name(out: &mut Vec<u16>, name: &[u8]) -> Result<(), AllocError>
    ensures { OnOk result (out.new.items ≡ out.old.items ++ name.now) }
{
    let mut rest = name;
    while let [byte, behind @ ..] = rest {
        out.push(u16::from(*byte))?;
        rest = behind;
    }
    Ok(())
}

/// What stands before the last unit.
#[tactic(auto, using(keep_rules::proofs::FitLemmas::inner_is))]
fn before_last(text: &[u16]) -> &[u16]
    ensures { result.now ≡ inner text.now }
{
    match text {
        [name @ .., _] => name,
        _ => &[],
    }
}

/// What stands behind the first unit.
#[tactic(auto, using(keep_rules::proofs::FitLemmas::behind_is))]
fn behind_first(text: &[u16]) -> &[u16]
    ensures { result.now ≡ item_of text.now }
{
    match text {
        [_, behind @ ..] => behind,
        _ => &[],
    }
}

/// The name of a class in its descriptor.
pub fn inside(descriptor: &[u16]) -> &[u16]
    ensures { result.now ≡ inner (item_of descriptor.now) }
{
    before_last(behind_first(descriptor))
}

/// Whether the descriptor is that of an array.
fn is_array(descriptor: &[u16]) -> bool
    ensures { result ≡ is_array descriptor.now }
{
    matches!(descriptor, [91, ..])
}

/// Adds a class or a primitive type.
fn push_item(out: &mut Vec<u16>, first: u16, behind: &[u16]) -> Result<(), AllocError>
    requires { nat_eq first 91 ≡ false }
    ensures { OnOk result (out.new.items ≡ out.old.items ++ java (first ∷ behind.now)) }
{
    if first == 76 {
        push_class(out, before_last(behind))
    } else {
        push_name(out, primitive_name(first))
    }
}

/// Adds a type that is no array.
#[tactic(auto, using(crate::proofs::Javas::no_bracket))]
fn push_bare(out: &mut Vec<u16>, descriptor: &[u16]) -> Result<(), AllocError>
    requires { is_array descriptor.now ≡ false }
    ensures { OnOk result (out.new.items ≡ out.old.items ++ java descriptor.now) }
{
    match descriptor {
        [first, behind @ ..] => push_item(out, *first, behind),
        [] => Ok(()),
    }
}

/// Adds brackets.
#[tactic(auto, using(crate::proofs::Javas::one_more))]
fn push_brackets(out: &mut Vec<u16>, depth: usize) -> Result<(), AllocError>
    ensures { OnOk result (out.new.items ≡ out.old.items ++ brackets depth) }
{
    for _ in 0..depth {
        out.push(91)?;
        out.push(93)?;
    }
    Ok(())
}

/// The type of a descriptor as Java writes it.
#[tactic(auto, using(crate::proofs::Javas::java_more, crate::proofs::Javas::shorter))]
pub fn java(alloc: Global, descriptor: &[u16]) -> Result<Vec<u16>, AllocError>
    ensures { IfOk result (λ out. out.items ≡ java descriptor.now) }
{
    let mut out = Vec::new(alloc);
    let mut depth: usize = 0;
    let mut rest = descriptor;
    while is_array(rest) {
        depth += 1;
        rest = behind_first(rest);
    }
    push_bare(&mut out, rest)?;
    push_brackets(&mut out, depth)?;
    Ok(out)
}
