//! What a keep rule keeps.

ghost use Rattle.std.specs.Prelude.{◌≡◌, ◌<◌, ◌^◌, ◌&&◌, ℕ, List, [], ◌∷◌, Some, true, false, length, slice_get, not, map, IfOk, OnOk};
ghost use Rattle.std.specs.List.{list_any, list_all, flat_map};
ghost use Rattle.program_model.specs.ProgramRules.{is_well_formed};
ghost use Rattle.dalvik_defs.specs.Naming.{named_class, named, type_at};
ghost use Rattle.rule_text.specs.Rules as meant;
ghost use Rattle.rule_text.specs.Related.{AreEach, IsMemberOf, IsClassOf, IsKeepOf};
ghost use Rattle.rule_text.specs.Spelling.{word_eq, modifier_word};
ghost use Rattle.rule_defs.specs.Members.{OfClass};
ghost use Rattle.rule_defs.specs.Kept.{is_of_kind, is_of_rule_kind, is_conditional, is_keeping, is_complete, lines_of, has_modifier, keeps, matches_class, applies, stands_below};
ghost use Rattle.keep_rules.specs.Fits.{has_names, has_field_name, has_method_name, words_hold};
ghost use Rattle.keep_rules.specs.Marks.{is_always};
ghost use Rattle.keep_rules.specs.Grown.{is_always_of, is_describing, lined_field, lined_method, rule_marks, class_there, class_of_kind, GrewMembers, GrewAll};
ghost use Rattle.keep_rules.specs.View.{IsReady};
ghost use Rattle.keep_rules.specs.Sought.{under_test, AreStanding, GrewKept};

use crate::above::classes_under;
use crate::access::{Role, access_fits, marks_fit};
use crate::fit::some_class_fits;
use crate::marks::{Hold, Marks, MemberMarks, is_marked, mark_where};
use crate::members::{has_each_line, some_line_of_field, some_line_of_method};
use crate::names::named_types;
use crate::view::{View, class_at, descriptor};
use program_model::{Class, Field, Flags, Method, Program};
use rule_text::{ClassKind, ClassRule, KeepKind, KeepRule, MemberRule, Modifier};
use std::alloc::{AllocError, Global};

/// Whether the class is of the kind.
#[tactic(auto, using(crate::proofs::AccessLemmas::bits))]
fn is_of_kind(kind: ClassKind, flags: Flags) -> bool
    ensures { result ≡ is_of_kind kind flags.0 }
{
    match kind {
        ClassKind::Class => true,
        ClassKind::Interface => flags.has(Flags::INTERFACE),
        ClassKind::Enum => flags.has(Flags::ENUM),
        ClassKind::Annotation => flags.has(Flags::ANNOTATION),
    }
}

/// Whether the class is of the kind that a rule asks for.
fn is_of_rule_kind(rule: &ClassRule, flags: Flags) -> bool
    ensures { (k : meant.ClassRule) → IsClassOf rule.now k → result ≡ is_of_rule_kind k flags.0 }
{
    let of_kind = is_of_kind(rule.kind, flags);
    of_kind != rule.negated
}

/// Whether the kind and the access words that a rule asks for are those of the class.
fn flags_fit(rule: &ClassRule, flags: Flags) -> bool
    ensures { (k : meant.ClassRule) → IsClassOf rule.now k → result ≡ (is_of_rule_kind k flags.0 && words_hold OfClass flags.0 k.conditions) }
{
    is_of_rule_kind(rule, flags) && access_fits(rule.conditions.as_slice(), Role::Class, flags)
}

/// Whether both hold.
fn both(one: bool, other: bool) -> bool
    ensures { result ≡ (one && other) }
{
    one && other
}

/// Whether the rule matches the class, where `under` says whether it stands below what the rule asks for.
pub fn class_matches(
    rule: &ClassRule,
    program: &Program,
    class: &Class,
    under: bool,
    row: &mut Vec<bool>,
) -> Result<bool, AllocError>
    ensures { (k : meant.ClassRule) → IsClassOf rule.now k → under ≡ stands_below (named program.now) k.above (type_at program.now class.now.name)
        → IfOk result (λ fits. fits ≡ matches_class (named program.now) k (named_class program.now class.now)) }
{
    let fits = both(under, flags_fit(rule, class.flags));
    if !fits {
        return Ok(false);
    }
    let named = some_class_fits(rule.names.as_slice(), descriptor(program, class.name), row)?;
    if !named {
        return Ok(false);
    }
    marks_fit(
        rule.conditions.as_slice(),
        program,
        class.marks.as_slice(),
        row,
    )
}

/// The lines of a rule.
fn lines_of(rule: &ClassRule) -> &[MemberRule]
    ensures { (k : meant.ClassRule) → IsClassOf rule.now k → AreEach IsMemberOf result.now (lines_of k) }
{
    match &rule.members {
        Some(lines) => lines.as_slice(),
        None => &[],
    }
}

/// Whether two modifiers are the same.
fn is_same(one: Modifier, other: Modifier) -> bool
    ensures { result ≡ word_eq (modifier_word one) (modifier_word other) }
{
    match other {
        Modifier::AllowShrinking => matches!(one, Modifier::AllowShrinking),
        Modifier::AllowOptimization => matches!(one, Modifier::AllowOptimization),
        Modifier::AllowObfuscation => matches!(one, Modifier::AllowObfuscation),
        Modifier::IncludeDescriptorClasses => matches!(one, Modifier::IncludeDescriptorClasses),
    }
}

/// Whether the modifier is one of these.
fn has_modifier(modifiers: &[Modifier], wanted: Modifier) -> bool
    ensures { result ≡ has_modifier wanted modifiers.now }
{
    for modifier in modifiers {
        let same = is_same(*modifier, wanted);
        if same {
            return true;
        }
    }
    false
}

/// Whether a rule has the modifier that keeps the classes of descriptors.
fn describes(rule: &KeepRule) -> bool
    ensures { (k : meant.KeepRule) → IsKeepOf rule.now k → result ≡ is_describing k }
{
    has_modifier(
        rule.modifiers.as_slice(),
        Modifier::IncludeDescriptorClasses,
    )
}

/// Whether an option keeps anything: one for names alone doesn't.
fn is_keeping(kind: KeepKind) -> bool
    ensures { result ≡ is_keeping kind }
{
    matches!(
        kind,
        KeepKind::Keep | KeepKind::ClassMembers | KeepKind::ClassesWithMembers
    )
}

/// Whether a rule keeps anything: one for names alone or one that allows shrinking doesn't.
fn keeps(rule: &KeepRule) -> bool
    ensures { (k : meant.KeepRule) → IsKeepOf rule.now k → result ≡ keeps k }
{
    let shrinks = has_modifier(rule.modifiers.as_slice(), Modifier::AllowShrinking);
    is_keeping(rule.kind) && !shrinks
}

/// Keeps the fields of a class that some line matches.
fn keep_fields(
    rule: &KeepRule,
    program: &Program,
    fields: &[Field],
    hold: Hold,
    marks: &mut MemberMarks,
    row: &mut Vec<bool>,
) -> Result<(), AllocError>
    ensures { (k : meant.KeepRule) → IsKeepOf rule.now k → list_all (has_field_name program.now) fields.now ≡ true
        → OnOk result (GrewMembers (is_always hold) (is_describing k) (λ n. list_any (lined_field program.now k n) fields.now) marks.old marks.new) }
{
    let described = describes(rule);
    for field in fields {
        let fits = some_line_of_field(lines_of(&rule.class), program, field, row)?;
        marks.keep_where(fits, field.name, hold, described);
    }
    Ok(())
}

/// Keeps the methods of a class that some line matches.
fn keep_methods(
    rule: &KeepRule,
    program: &Program,
    methods: &[Method],
    hold: Hold,
    marks: &mut MemberMarks,
    row: &mut Vec<bool>,
) -> Result<(), AllocError>
    ensures { (k : meant.KeepRule) → IsKeepOf rule.now k → list_all (has_method_name program.now) methods.now ≡ true
        → OnOk result (GrewMembers (is_always hold) (is_describing k) (λ n. list_any (lined_method program.now k n) methods.now) marks.old marks.new) }
{
    let described = describes(rule);
    for method in methods {
        let fits = some_line_of_method(lines_of(&rule.class), program, method, row)?;
        marks.keep_where(fits, method.name, hold, described);
    }
    Ok(())
}

/// Whether a rule keeps members at all events, or where their class is live.
fn hold_of(kind: KeepKind) -> Hold
    ensures { is_always result ≡ not (is_conditional kind) }
{
    match kind {
        KeepKind::ClassMembers => Hold::Live,
        _ => Hold::Always,
    }
}

/// Whether members are kept at all events.
fn is_always(hold: Hold) -> bool
    ensures { result ≡ is_always hold }
{
    matches!(hold, Hold::Always)
}

/// Whether each line of a rule that asks for it matches some member of the class.
fn is_complete(
    rule: &KeepRule,
    program: &Program,
    class: &Class,
    row: &mut Vec<bool>,
) -> Result<bool, AllocError>
    ensures { (k : meant.KeepRule) → has_names program.now class.now ≡ true → IsKeepOf rule.now k
        → IfOk result (λ complete. complete ≡ is_complete k (named_class program.now class.now)) }
{
    match rule.kind {
        KeepKind::ClassesWithMembers => has_each_line(lines_of(&rule.class), program, class, row),
        _ => Ok(true),
    }
}

/// Keeps the class, if the rule keeps it at all events, and its members that some line matches.
fn keep_members(
    rule: &KeepRule,
    program: &Program,
    class: &Class,
    marks: &mut Marks,
    row: &mut Vec<bool>,
) -> Result<(), AllocError>
    ensures { (k : meant.KeepRule) → IsKeepOf rule.now k → has_names program.now class.now ≡ true → OnOk result (GrewKept program.now k class.now marks.old marks.new) }
{
    let hold = hold_of(rule.kind);
    mark_where(&mut marks.classes, is_always(hold), class.name);
    keep_fields(
        rule,
        program,
        class.fields.as_slice(),
        hold,
        &mut marks.fields,
        row,
    )?;
    keep_methods(
        rule,
        program,
        class.methods.as_slice(),
        hold,
        &mut marks.methods,
        row,
    )?;
    Ok(())
}

/// Keeps what the rule keeps of a class that it matches.
fn keep_class(
    rule: &KeepRule,
    program: &Program,
    class: &Class,
    marks: &mut Marks,
    row: &mut Vec<bool>,
) -> Result<(), AllocError>
    ensures { (k : meant.KeepRule) → IsKeepOf rule.now k → keeps k ≡ true → matches_class (named program.now) k.class (named_class program.now class.now) ≡ true
        → has_names program.now class.now ≡ true → OnOk result (GrewAll (rule_marks program.now k (class.now ∷ [])) marks.old marks.new) }
{
    let complete = is_complete(rule, program, class, row)?;
    if !complete {
        return Ok(());
    }
    keep_members(rule, program, class, marks, row)?;
    Ok(())
}

/// Keeps what the rule keeps of a class, where `under` says whether it stands below what the rule asks for.
fn keep_matching(
    rule: &KeepRule,
    program: &Program,
    class: &Class,
    under: bool,
    marks: &mut Marks,
    row: &mut Vec<bool>,
) -> Result<(), AllocError>
    ensures { (k : meant.KeepRule) → IsKeepOf rule.now k → keeps k ≡ true → under ≡ stands_below (named program.now) k.class.above (type_at program.now class.now.name)
        → has_names program.now class.now ≡ true → OnOk result (GrewAll (rule_marks program.now k (class.now ∷ [])) marks.old marks.new) }
{
    let fits = class_matches(&rule.class, program, class, under, row)?;
    if !fits {
        return Ok(());
    }
    keep_class(rule, program, class, marks, row)
}

/// Whether the class at a place is one of those below what is asked for, if anything is.
pub fn is_under(under: Option<&[bool]>, place: u32) -> bool
    ensures { result ≡ under_test under.entry place }
{
    match under {
        Some(marks) => is_marked(marks, place),
        None => true,
    }
}

/// Keeps what the rule keeps of the class at a place.
fn keep_place(
    rule: &KeepRule,
    program: &Program,
    place: u32,
    under: Option<&[bool]>,
    marks: &mut Marks,
    row: &mut Vec<bool>,
) -> Result<(), AllocError>
    ensures { (k : meant.KeepRule) → is_well_formed program.now ≡ true → IsKeepOf rule.now k → keeps k ≡ true → AreStanding program.now k.class.above under.entry
        → OnOk result (GrewAll (rule_marks program.now k (class_there program.now place)) marks.old marks.new) }
{
    match class_at(program, place) {
        Some(class) => {
            keep_matching(rule, program, class, is_under(under, place), marks, row)?;
            Ok(())
        }
        None => Ok(()),
    }
}

/// Keeps what the rule keeps of the class of a type.
fn keep_kind(
    rule: &KeepRule,
    view: &View<'_>,
    kind: u32,
    under: Option<&[bool]>,
    marks: &mut Marks,
    row: &mut Vec<bool>,
) -> Result<(), AllocError>
    ensures { (k : meant.KeepRule) → IsReady view.now → IsKeepOf rule.now k → keeps k ≡ true → AreStanding view.now.program.now k.class.above under.entry
        → OnOk result (GrewAll (rule_marks view.now.program.now k (class_of_kind view.now.program.now kind)) marks.old marks.new) }
{
    match view.place_of(kind) {
        Some(place) => {
            keep_place(rule, view.program, place, under, marks, row)?;
            Ok(())
        }
        None => Ok(()),
    }
}

/// Keeps what the rule keeps of the classes of some types.
fn keep_kinds(
    rule: &KeepRule,
    view: &View<'_>,
    kinds: &[u32],
    under: Option<&[bool]>,
    marks: &mut Marks,
    row: &mut Vec<bool>,
) -> Result<(), AllocError>
    ensures { (k : meant.KeepRule) → IsReady view.now → IsKeepOf rule.now k → keeps k ≡ true → AreStanding view.now.program.now k.class.above under.entry
        → OnOk result (GrewAll (rule_marks view.now.program.now k (flat_map (class_of_kind view.now.program.now) kinds.now)) marks.old marks.new) }
{
    for kind in kinds {
        keep_kind(rule, view, *kind, under, marks, row)?;
    }
    Ok(())
}

/// Keeps what the rule keeps of all classes.
fn keep_all(
    rule: &KeepRule,
    program: &Program,
    under: Option<&[bool]>,
    marks: &mut Marks,
    row: &mut Vec<bool>,
) -> Result<(), AllocError>
    requires { length program.now.classes < 2 ^ 32 }
    ensures { (k : meant.KeepRule) → is_well_formed program.now ≡ true → IsKeepOf rule.now k → keeps k ≡ true → AreStanding program.now k.class.above under.entry
        → OnOk result (GrewAll (rule_marks program.now k program.now.classes) marks.old marks.new) }
{
    for place in 0..program.classes.len() as u32 {
        keep_place(rule, program, place, under, marks, row)?;
    }
    Ok(())
}

/// Goes through the classes that the rule may match.
fn keep_places(
    alloc: Global,
    rule: &KeepRule,
    view: &View<'_>,
    under: Option<&[bool]>,
    marks: &mut Marks,
    row: &mut Vec<bool>,
) -> Result<(), AllocError>
    ensures { (k : meant.KeepRule) → IsReady view.now → IsKeepOf rule.now k → keeps k ≡ true → AreStanding view.now.program.now k.class.above under.entry
        → OnOk result (GrewAll (rule_marks view.now.program.now k view.now.program.now.classes) marks.old marks.new) }
{
    match named_types(alloc, view, rule.class.names.as_slice())? {
        Some(kinds) => {
            keep_kinds(rule, view, kinds.as_slice(), under, marks, row)?;
            Ok(())
        }
        None => keep_all(rule, view.program, under, marks, row),
    }
}

/// Goes through the classes below what the rule asks for, if it asks for anything.
fn keep_below(
    alloc: Global,
    rule: &KeepRule,
    view: &View<'_>,
    marks: &mut Marks,
    row: &mut Vec<bool>,
) -> Result<(), AllocError>
    ensures { (k : meant.KeepRule) → IsReady view.now → IsKeepOf rule.now k → keeps k ≡ true
        → OnOk result (GrewAll (rule_marks view.now.program.now k view.now.program.now.classes) marks.old marks.new) }
{
    match &rule.class.above {
        None => keep_places(alloc, rule, view, None, marks, row),
        Some(above) => {
            let under = classes_under(alloc, view, above, row)?;
            keep_places(alloc, rule, view, Some(under.as_slice()), marks, row)
        }
    }
}

/// Keeps what a rule keeps.
pub fn keep_by(
    alloc: Global,
    rule: &KeepRule,
    view: &View<'_>,
    marks: &mut Marks,
    row: &mut Vec<bool>,
) -> Result<(), AllocError>
    ensures { (k : meant.KeepRule) → IsReady view.now → IsKeepOf rule.now k → OnOk result (GrewAll (rule_marks view.now.program.now k view.now.program.now.classes) marks.old marks.new) }
{
    let keeping = keeps(rule);
    if !keeping {
        return Ok(());
    }
    keep_below(alloc, rule, view, marks, row)
}
