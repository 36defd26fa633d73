//! The wildcards of a class specification.

ghost use Rattle.std.specs.Prelude.{◌≡◌, ◌+◌, ◌≤◌, ◌++◌, ℕ, List, Option, [], true, false, not, length, IfOk, OnOk};
ghost use Rattle.std.specs.List.{flat_map};
ghost use Rattle.rule_text.specs.Rules as meant;
ghost use Rattle.rule_text.specs.Tokens.{Word};
ghost use Rattle.rule_text.specs.Related.{AreEach, AreBoth, AreMembersOf, IsAboveOf, IsPatternOf, IsItemOf, IsTypeOf, AreArgumentsOf, IsWhatOf, IsConditionOf, IsMemberOf, IsClassOf};
ghost use Rattle.if_text.specs.Wildcards.{is_wild, wild_count, name_wilds, item_wilds, type_wilds, types_wilds, argument_wilds, what_wilds, blanks, numbered, condition_slots, name_slots, mark_slots, above_slots, line_slots, lines_slots, members_slots, slots, source_in, is_something};
ghost use Rattle.if_text.specs.Slots.{Adds};
ghost use Rattle.if_text.specs.declared.slots.Source.TheVariants as source;

use rule_text::{
    Above, Arguments, ClassRule, Condition, ItemPattern, MemberRule, NamePattern, Piece,
    TypePattern, What,
};
use std::alloc::{AllocError, Global};

/// What a reference names: the wildcard of the class's name or of what the line names that has this place among its own, or none that one may
/// name.
#[derive(Clone, Copy)]
pub enum Source {
    Nothing,
    Name(usize),
    Line(usize),
}

/// A number that no reference has.
const PAST_NUMBERS: u32 = 1000;

/// What the reference with a number names.
pub fn source_in(slots: &[Source], number: u32) -> Source
    ensures { result ≡ source_in slots.now number }
{
    if number == 0 || number >= PAST_NUMBERS {
        return Source::Nothing;
    }
    match slots.get(number as usize - 1) {
        Some(source) => *source,
        None => Source::Nothing,
    }
}

/// Whether a reference names anything.
pub fn is_something(source: Source) -> bool
    ensures { result ≡ is_something source }
{
    !matches!(source, Source::Nothing)
}

/// Whether the piece is a wildcard.
fn is_wild(piece: Piece) -> bool
    ensures { result ≡ is_wild piece }
{
    !matches!(piece, Piece::Exactly(_))
}

/// How many of the pieces are wildcards.
fn wild_count(pieces: &[Piece]) -> usize
    ensures is { result ≡ wild_count pieces.now }
    ensures few { result ≤ length pieces.now }
{
    let mut count: usize = 0;
    let mut rest = pieces;
    while let [piece, behind @ ..] = rest {
        if is_wild(*piece) {
            count += 1;
        }
        rest = behind;
    }
    count
}

/// How many wildcards a name has.
#[tactic(auto, using(crate::proofs::Counts::wilds_of))]
fn name_wilds(name: &NamePattern) -> usize
    ensures { (w : Word) → IsPatternOf name.now w → result ≡ name_wilds w }
{
    wild_count(name.rest.as_slice())
}

/// How many wildcards an item has.
#[tactic(auto, using(crate::proofs::Counts::any_wilds, crate::proofs::Counts::primitive_wilds, crate::proofs::Counts::letter_wilds, crate::proofs::Counts::class_wilds))]
fn item_wilds(item: &ItemPattern) -> usize
    ensures { (w : Word) → IsItemOf item.now w → result ≡ item_wilds w }
{
    match item {
        ItemPattern::Any | ItemPattern::Primitive => 1,
        ItemPattern::Letter(_) => 0,
        ItemPattern::Class(name) => name_wilds(name),
    }
}

/// How many wildcards a type has.
#[tactic(auto, using(crate::proofs::Counts::type_by))]
fn type_wilds(kind: &TypePattern) -> usize
    ensures { (w : Word) → IsTypeOf kind.now w → result ≡ type_wilds w }
{
    item_wilds(&kind.item)
}

/// Adds slots of wildcards that no reference may name.
fn push_blanks(out: &mut Vec<Source>, count: usize) -> Result<(), AllocError>
    ensures { OnOk result (out.new.items ≡ out.old.items ++ blanks count) }
{
    for _ in 0..count {
        out.push(Source::Nothing)?;
    }
    Ok(())
}

/// Adds slots of wildcards of the class's name.
#[tactic(auto, using(crate::proofs::Loops::numbered_more))]
fn push_names(out: &mut Vec<Source>, count: usize) -> Result<(), AllocError>
    ensures { OnOk result (out.new.items ≡ out.old.items ++ numbered (λ i. source.Name i) 0 count) }
{
    for place in 0..count {
        out.push(Source::Name(place))?;
    }
    Ok(())
}

/// Adds slots of wildcards of what a line names, behind those that begin at `start`.
#[tactic(auto, using(crate::proofs::Loops::adds_none, crate::proofs::Loops::adds_next, crate::proofs::Loops::adds_long))]
fn push_lines(out: &mut Vec<Source>, start: usize, count: usize) -> Result<(), AllocError>
    requires { start ≤ length out.old.items }
    ensures long { OnOk result (start ≤ length out.new.items) }
    ensures adds { OnOk result (Adds start count out.old.items out.new.items) }
{
    for _ in 0..count {
        let place = out.len() - start;
        out.push(Source::Line(place))?;
    }
    Ok(())
}

/// Adds the slots of a pattern that no reference may name.
fn push_blank_name(out: &mut Vec<Source>, name: &NamePattern) -> Result<(), AllocError>
    ensures { (w : Word) → IsPatternOf name.now w → OnOk result (out.new.items ≡ out.old.items ++ blanks (name_wilds w)) }
{
    push_blanks(out, name_wilds(name))
}

/// Adds the slots of a condition.
fn push_condition(out: &mut Vec<Source>, condition: &Condition) -> Result<(), AllocError>
    ensures { (c : meant.Condition) → IsConditionOf condition.now c → OnOk result (out.new.items ≡ out.old.items ++ condition_slots c) }
{
    match condition {
        Condition::Mark(name) => push_blank_name(out, name),
        Condition::Access { .. } => Ok(()),
    }
}

/// Adds the slots of conditions.
#[tactic(auto, using(crate::proofs::Loops::left_begin, crate::proofs::Loops::left_more, crate::proofs::Loops::left_end))]
fn push_conditions(out: &mut Vec<Source>, conditions: &[Condition]) -> Result<(), AllocError>
    ensures { (cs : List meant.Condition) → AreEach IsConditionOf conditions.now cs → OnOk result (out.new.items ≡ out.old.items ++ flat_map condition_slots cs) }
{
    let mut rest = conditions;
    while let [condition, behind @ ..] = rest {
        push_condition(out, condition)?;
        rest = behind;
    }
    Ok(())
}

/// Adds the slots of names of which no reference may name one.
#[tactic(auto, using(crate::proofs::Loops::left_begin, crate::proofs::Loops::left_more, crate::proofs::Loops::left_end))]
fn push_blank_names(out: &mut Vec<Source>, names: &[NamePattern]) -> Result<(), AllocError>
    ensures { (ws : List Word) → AreEach IsPatternOf names.now ws → OnOk result (out.new.items ≡ out.old.items ++ flat_map (λ w. blanks (name_wilds w)) ws) }
{
    let mut rest = names;
    while let [name, behind @ ..] = rest {
        push_blank_name(out, name)?;
        rest = behind;
    }
    Ok(())
}

/// Adds the slots of the names of classes.
fn push_class_names(out: &mut Vec<Source>, names: &[NamePattern]) -> Result<(), AllocError>
    ensures { (ws : List Word) → AreEach IsPatternOf names.now ws → OnOk result (out.new.items ≡ out.old.items ++ name_slots ws) }
{
    let one = names.len() == 1;
    if !one {
        return push_blank_names(out, names);
    }
    let name = &names[0];
    push_names(out, name_wilds(name))
}

/// Adds the slots of what is asked of the ancestors.
fn push_ancestor(out: &mut Vec<Source>, above: &Above) -> Result<(), AllocError>
    ensures { (a : meant.Above) → IsAboveOf above.now a → OnOk result (out.new.items ≡ out.old.items ++ (mark_slots a.mark ++ blanks (name_wilds a.name))) }
{
    match &above.mark {
        Some(mark) => push_blank_name(out, mark)?,
        None => {}
    }
    push_blank_name(out, &above.name)
}

/// The same where anything is asked.
fn push_above(out: &mut Vec<Source>, above: &Option<Above>) -> Result<(), AllocError>
    ensures { (a : Option meant.Above) → AreBoth IsAboveOf above.now a → OnOk result (out.new.items ≡ out.old.items ++ above_slots a) }
{
    match above {
        Some(above) => push_ancestor(out, above),
        None => Ok(()),
    }
}

/// Adds the slots of a name in a line.
fn push_line_name(out: &mut Vec<Source>, start: usize, name: &NamePattern) -> Result<(), AllocError>
    requires { start ≤ length out.old.items }
    ensures long { OnOk result (start ≤ length out.new.items) }
    ensures adds { (w : Word) → IsPatternOf name.now w → OnOk result (Adds start (name_wilds w) out.old.items out.new.items) }
{
    push_lines(out, start, name_wilds(name))
}

/// Adds the slots of a type in a line.
fn push_line_type(out: &mut Vec<Source>, start: usize, kind: &TypePattern) -> Result<(), AllocError>
    requires { start ≤ length out.old.items }
    ensures long { OnOk result (start ≤ length out.new.items) }
    ensures adds { (w : Word) → IsTypeOf kind.now w → OnOk result (Adds start (type_wilds w) out.old.items out.new.items) }
{
    push_lines(out, start, type_wilds(kind))
}

/// Adds the slots of the types of arguments.
#[tactic(auto, using(crate::proofs::Loops::types_begin, crate::proofs::Loops::types_more, crate::proofs::Loops::types_end, crate::proofs::Loops::adds_long))]
fn push_line_types(
    out: &mut Vec<Source>,
    start: usize,
    kinds: &[TypePattern],
) -> Result<(), AllocError>
    requires { start ≤ length out.old.items }
    ensures long { OnOk result (start ≤ length out.new.items) }
    ensures adds { (ws : List Word) → AreEach IsTypeOf kinds.now ws → OnOk result (Adds start (types_wilds ws) out.old.items out.new.items) }
{
    let mut rest = kinds;
    while let [kind, behind @ ..] = rest {
        push_line_type(out, start, kind)?;
        rest = behind;
    }
    Ok(())
}

/// Adds the slots of arguments.
fn push_arguments(
    out: &mut Vec<Source>,
    start: usize,
    arguments: &Arguments,
) -> Result<(), AllocError>
    requires { start ≤ length out.old.items }
    ensures long { OnOk result (start ≤ length out.new.items) }
    ensures adds { (a : meant.Arguments) → AreArgumentsOf arguments.now a → OnOk result (Adds start (argument_wilds a) out.old.items out.new.items) }
{
    match arguments {
        Arguments::Any => Ok(()),
        Arguments::These(kinds) => push_line_types(out, start, kinds.as_slice()),
    }
}

/// Adds the slots of a field.
#[tactic(auto, using(crate::proofs::Loops::adds_all, crate::proofs::Loops::adds_long))]
fn push_field(
    out: &mut Vec<Source>,
    start: usize,
    kind: &TypePattern,
    name: &NamePattern,
) -> Result<(), AllocError>
    requires { start ≤ length out.old.items }
    ensures long { OnOk result (start ≤ length out.new.items) }
    ensures adds { (k w : Word) → IsTypeOf kind.now k → IsPatternOf name.now w → OnOk result (Adds start (type_wilds k + name_wilds w) out.old.items out.new.items) }
{
    push_line_type(out, start, kind)?;
    push_line_name(out, start, name)
}

/// Adds the slots of a method behind those of its result.
#[tactic(auto, using(crate::proofs::Loops::adds_all, crate::proofs::Loops::adds_long))]
fn push_method(
    out: &mut Vec<Source>,
    start: usize,
    kind: &TypePattern,
    name: &NamePattern,
    arguments: &Arguments,
) -> Result<(), AllocError>
    requires { start ≤ length out.old.items }
    ensures long { OnOk result (start ≤ length out.new.items) }
    ensures adds { (k w : Word) (a : meant.Arguments) → IsTypeOf kind.now k → IsPatternOf name.now w → AreArgumentsOf arguments.now a
        → OnOk result (Adds start (type_wilds k + (name_wilds w + argument_wilds a)) out.old.items out.new.items) }
{
    push_field(out, start, kind, name)?;
    push_arguments(out, start, arguments)
}

/// Adds the slots of what a line names.
fn push_what(out: &mut Vec<Source>, start: usize, what: &What) -> Result<(), AllocError>
    requires { start ≤ length out.old.items }
    ensures long { OnOk result (start ≤ length out.new.items) }
    ensures adds { (w : meant.What) → IsWhatOf what.now w → OnOk result (Adds start (what_wilds w) out.old.items out.new.items) }
{
    match what {
        What::All | What::Fields | What::Methods => Ok(()),
        What::Init(arguments) => push_arguments(out, start, arguments),
        What::Field { kind, name } => push_field(out, start, kind, name),
        What::Method {
            result,
            name,
            arguments,
        } => push_method(out, start, result, name, arguments),
    }
}

/// Adds the slots of a line.
fn push_line(out: &mut Vec<Source>, line: &MemberRule) -> Result<(), AllocError>
    ensures { (m : meant.MemberRule) → IsMemberOf line.now m → OnOk result (out.new.items ≡ out.old.items ++ line_slots m) }
{
    push_conditions(out, line.conditions.as_slice())?;
    let start = out.len();
    push_what(out, start, &line.what)
}

/// Adds the slots of lines, where there is one alone.
fn push_members(out: &mut Vec<Source>, members: &Option<Vec<MemberRule>>) -> Result<(), AllocError>
    ensures { (ms : Option (List meant.MemberRule)) → AreBoth AreMembersOf members.now ms → OnOk result (out.new.items ≡ out.old.items ++ members_slots ms) }
{
    match members {
        Some(lines) => match lines.as_slice() {
            [line] => push_line(out, line),
            _ => Ok(()),
        },
        None => Ok(()),
    }
}

/// What the references to the wildcards of a class specification name.
pub fn slots_of(alloc: Global, class: &ClassRule) -> Result<Vec<Source>, AllocError>
    ensures { (c : meant.ClassRule) → IsClassOf class.now c → IfOk result (λ out. out.items ≡ slots c) }
{
    let mut out = Vec::new(alloc);
    push_conditions(&mut out, class.conditions.as_slice())?;
    push_class_names(&mut out, class.names.as_slice())?;
    push_above(&mut out, &class.above)?;
    push_members(&mut out, &class.members)?;
    Ok(out)
}
