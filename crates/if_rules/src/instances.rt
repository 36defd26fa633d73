//! The instances that the rules with conditions may have in a program, whatever is live.

ghost use Rattle.std.specs.Prelude.{◌≡◌, ◌<◌, ◌^◌, ◌∷◌, [], List, true, false, length, slice_get, Some, IfOk, OnOk};
ghost use Rattle.std.specs.Option.{option_copied};
ghost use Rattle.hierarchy.specs.Shapes.{IsOf};
ghost use Rattle.program_model.specs.ProgramRules.{is_well_formed};
ghost use Rattle.keep_rules.specs.Fits.{has_names};
ghost use Rattle.if_rules.specs.Matching.{IsMatchedAt};
ghost use Rattle.rule_defs.specs.Kept.{lines_of};
ghost use Rattle.rule_text.specs.Related.{AreEach, IsMemberOf};
ghost use Rattle.rule_text.specs.Rules as meant;
ghost use Rattle.if_text.specs.Items.{IfRule as Meant};
ghost use Rattle.if_text.specs.Readings.{IsIfOf};
ghost use Rattle.if_rules.specs.Filled.{texts_in};
ghost use Rattle.if_rules.specs.Instances.{names_of, uses_line, words_bytes};
ghost use Rattle.if_rules.specs.Lists.{lists_of};
ghost use Rattle.if_rules.specs.Listed.{AreInstances, Grew, IsGiven, OfChoice, OfFields, OfMethods, OfPlace, OfRule, PushesOne};
ghost use Rattle.if_rules.specs.declared.instances.Choice.TheVariants as choice;

use crate::fill::{Texts, filled, uses_line};
use crate::matching::classes_matched;
use crate::texts::{class_texts, descriptor, field_texts, method_texts};
use hierarchy::Hierarchy;
use if_text::IfRule;
use keep_rules::{field_fits, method_fits};
use program_model::{Class, Field, Method, Program};
use rule_text::MemberRule;
use std::alloc::{AllocError, Global};

/// Which members have to be live: for each line some one that it matches, or the method or the field at this place of the class.
#[derive(Clone, Copy)]
pub enum Choice {
    Each,
    Method(usize),
    Field(usize),
}

/// An instance of the rule at a place among those with a condition: the place of its class, which members it asks for, and its text.
#[derive(Drop)]
pub struct Instance {
    pub rule: usize,
    pub class: usize,
    pub choice: Choice,
    pub text: Vec<u8>,
}

/// The rule of which instances are made, and the place of its class.
#[derive(Clone, Copy)]
struct Place<'p> {
    rule: &'p IfRule,
    number: usize,
    class: usize,
}

/// The class at a place.
pub fn class_there(program: &Program, place: usize) -> Option<&Class>
    ensures { option_copied result ≡ slice_get program.now.classes place }
{
    program.classes.as_slice().get(place)
}

/// What the wildcards of the rule's class name matched.
fn names_at(
    alloc: Global,
    at: &Place<'_>,
    program: &Program,
    class: &Class,
    row: &mut Vec<bool>,
) -> Result<Vec<Vec<u16>>, AllocError>
    ensures { (r : Meant) → IsIfOf at.now.rule.now r → IfOk result (λ out. lists_of out.items ≡ names_of program.now r.condition class.now) }
{
    let names = at.rule.condition.names.as_slice();
    class_texts(alloc, names, descriptor(program, class.name), row)
}

/// Adds the instance with these texts.
fn push_instance(
    alloc: Global,
    at: &Place<'_>,
    choice: Choice,
    texts: &Texts,
    out: &mut Vec<Instance>,
) -> Result<(), AllocError>
    ensures { OnOk result (PushesOne at.now.number at.now.class choice (words_bytes at.now.rule.now.slots.items (texts_in texts.now) (lists_of at.now.rule.now.words.items)) out.old.items out.new.items) }
{
    let text = filled(
        alloc,
        at.rule.slots.as_slice(),
        at.rule.words.as_slice(),
        texts,
    )?;
    out.push(Instance {
        rule: at.number,
        class: at.class,
        choice,
        text,
    })?;
    Ok(())
}

/// Adds the instance of a class of which each line is asked for some member.
fn push_each(
    alloc: Global,
    at: &Place<'_>,
    program: &Program,
    class: &Class,
    row: &mut Vec<bool>,
    out: &mut Vec<Instance>,
) -> Result<(), AllocError>
    ensures { (rs : List Meant) (g : IsGiven program.now rs at.now.rule.now at.now.number at.now.class class.now) → uses_line g.rule ≡ false
        → OnOk result (Grew program.now rs (OfChoice at.now.number at.now.class choice.Each) out.old.items out.new.items) }
{
    let name = names_at(alloc, at, program, class, row)?;
    let own = Vec::new(alloc);
    let texts = Texts { name, line: own };
    push_instance(alloc, at, Choice::Each, &texts, out)
}

/// Adds the instance of a method at a place of the class, if the line matches it.
fn push_method(
    alloc: Global,
    at: &Place<'_>,
    line: &MemberRule,
    program: &Program,
    class: &Class,
    method: &Method,
    place: usize,
    row: &mut Vec<bool>,
    out: &mut Vec<Instance>,
) -> Result<(), AllocError>
    ensures { (rs : List Meant) (g : IsGiven program.now rs at.now.rule.now at.now.number at.now.class class.now) (m : meant.MemberRule) → has_names program.now class.now ≡ true
        → uses_line g.rule ≡ true → lines_of g.rule.condition ≡ m ∷ [] → IsMemberOf line.now m → slice_get class.now.methods place ≡ Some method.now
        → OnOk result (Grew program.now rs (OfChoice at.now.number at.now.class (choice.Method place)) out.old.items out.new.items) }
{
    let fits = method_fits(line, program, method, row)?;
    if !fits {
        return Ok(());
    }
    let name = names_at(alloc, at, program, class, row)?;
    let own = method_texts(alloc, &line.what, program, method.name, row)?;
    let texts = Texts { name, line: own };
    push_instance(alloc, at, Choice::Method(place), &texts, out)
}

/// Adds the instance of a field at a place of the class, if the line matches it.
fn push_field(
    alloc: Global,
    at: &Place<'_>,
    line: &MemberRule,
    program: &Program,
    class: &Class,
    field: &Field,
    place: usize,
    row: &mut Vec<bool>,
    out: &mut Vec<Instance>,
) -> Result<(), AllocError>
    ensures { (rs : List Meant) (g : IsGiven program.now rs at.now.rule.now at.now.number at.now.class class.now) (m : meant.MemberRule) → has_names program.now class.now ≡ true
        → uses_line g.rule ≡ true → lines_of g.rule.condition ≡ m ∷ [] → IsMemberOf line.now m → slice_get class.now.fields place ≡ Some field.now
        → OnOk result (Grew program.now rs (OfChoice at.now.number at.now.class (choice.Field place)) out.old.items out.new.items) }
{
    let fits = field_fits(line, program, field, row)?;
    if !fits {
        return Ok(());
    }
    let name = names_at(alloc, at, program, class, row)?;
    let own = field_texts(alloc, &line.what, program, field.name, row)?;
    let texts = Texts { name, line: own };
    push_instance(alloc, at, Choice::Field(place), &texts, out)
}

/// Adds the instances of the methods of the class.
fn push_methods(
    alloc: Global,
    at: &Place<'_>,
    line: &MemberRule,
    program: &Program,
    class: &Class,
    row: &mut Vec<bool>,
    out: &mut Vec<Instance>,
) -> Result<(), AllocError>
    ensures { (rs : List Meant) (g : IsGiven program.now rs at.now.rule.now at.now.number at.now.class class.now) (m : meant.MemberRule) → has_names program.now class.now ≡ true
        → uses_line g.rule ≡ true → lines_of g.rule.condition ≡ m ∷ [] → IsMemberOf line.now m
        → OnOk result (Grew program.now rs (OfMethods at.now.number at.now.class (length class.now.methods)) out.old.items out.new.items) }
{
    let methods = class.methods.as_slice();
    for place in 0..methods.len() {
        let method = &methods[place];
        push_method(alloc, at, line, program, class, method, place, row, out)?;
    }
    Ok(())
}

/// Adds the instances of the fields of the class.
fn push_fields(
    alloc: Global,
    at: &Place<'_>,
    line: &MemberRule,
    program: &Program,
    class: &Class,
    row: &mut Vec<bool>,
    out: &mut Vec<Instance>,
) -> Result<(), AllocError>
    ensures { (rs : List Meant) (g : IsGiven program.now rs at.now.rule.now at.now.number at.now.class class.now) (m : meant.MemberRule) → has_names program.now class.now ≡ true
        → uses_line g.rule ≡ true → lines_of g.rule.condition ≡ m ∷ [] → IsMemberOf line.now m
        → OnOk result (Grew program.now rs (OfFields at.now.number at.now.class (length class.now.fields)) out.old.items out.new.items) }
{
    let fields = class.fields.as_slice();
    for place in 0..fields.len() {
        let field = &fields[place];
        push_field(alloc, at, line, program, class, field, place, row, out)?;
    }
    Ok(())
}

/// The lines of a condition.
pub fn lines_of(rule: &IfRule) -> &[MemberRule]
    ensures { (r : Meant) → IsIfOf rule.now r → AreEach IsMemberOf result.now (lines_of r.condition) }
{
    match &rule.condition.members {
        Some(lines) => lines.as_slice(),
        None => &[],
    }
}

/// Whether a reference of the rule names a wildcard of its line.
fn asks_line(rule: &IfRule) -> bool
    ensures { (r : Meant) → IsIfOf rule.now r → result ≡ uses_line r }
{
    uses_line(rule.slots.as_slice(), rule.words.as_slice())
}

/// Adds the instances of the members that a line matches, where there is one line alone.
fn push_lines(
    alloc: Global,
    at: &Place<'_>,
    lines: &[MemberRule],
    program: &Program,
    class: &Class,
    row: &mut Vec<bool>,
    out: &mut Vec<Instance>,
) -> Result<(), AllocError>
    ensures { (rs : List Meant) (g : IsGiven program.now rs at.now.rule.now at.now.number at.now.class class.now) → has_names program.now class.now ≡ true
        → uses_line g.rule ≡ true → AreEach IsMemberOf lines.now (lines_of g.rule.condition) → OnOk result (Grew program.now rs (OfPlace at.now.number at.now.class) out.old.items out.new.items) }
{
    let one = lines.len() == 1;
    if !one {
        return Ok(());
    }
    let line = &lines[0];
    push_methods(alloc, at, line, program, class, row, out)?;
    push_fields(alloc, at, line, program, class, row, out)
}

/// Adds the instances of a class that the condition matches.
fn push_class(
    alloc: Global,
    at: &Place<'_>,
    program: &Program,
    class: &Class,
    row: &mut Vec<bool>,
    out: &mut Vec<Instance>,
) -> Result<(), AllocError>
    ensures { (rs : List Meant) (g : IsGiven program.now rs at.now.rule.now at.now.number at.now.class class.now) → has_names program.now class.now ≡ true
        → OnOk result (Grew program.now rs (OfPlace at.now.number at.now.class) out.old.items out.new.items) }
{
    let uses = asks_line(at.rule);
    if !uses {
        return push_each(alloc, at, program, class, row, out);
    }
    push_lines(alloc, at, lines_of(at.rule), program, class, row, out)
}

/// Adds the instances of the class at a place.
fn push_place(
    alloc: Global,
    at: &Place<'_>,
    program: &Program,
    row: &mut Vec<bool>,
    out: &mut Vec<Instance>,
) -> Result<(), AllocError>
    ensures { (rs : List Meant) (r : Meant) → is_well_formed program.now ≡ true → slice_get rs at.now.number ≡ Some r → IsIfOf at.now.rule.now r → IsMatchedAt program.now r.condition at.now.class
        → OnOk result (Grew program.now rs (OfPlace at.now.number at.now.class) out.old.items out.new.items) }
{
    match class_there(program, at.class) {
        Some(class) => push_class(alloc, at, program, class, row, out),
        None => Ok(()),
    }
}

/// Adds the instances of a rule.
fn push_rule(
    alloc: Global,
    rule: &IfRule,
    number: usize,
    program: &Program,
    hierarchy: &Hierarchy,
    out: &mut Vec<Instance>,
) -> Result<(), AllocError>
    requires types { length program.now.types < 2 ^ 32 }
    requires classes { length program.now.classes < 2 ^ 32 }
    requires methods { length program.now.methods < 2 ^ 32 }
    ensures { (rs : List Meant) (r : Meant) → is_well_formed program.now ≡ true → IsOf program.now hierarchy.now → slice_get rs number ≡ Some r → IsIfOf rule.now r
        → OnOk result (Grew program.now rs (OfRule number) out.old.items out.new.items) }
{
    let places = classes_matched(alloc, &rule.condition, program, hierarchy)?;
    let mut row = Vec::new(alloc);
    let mut rest = places.as_slice();
    while let [place, behind @ ..] = rest {
        let at = Place {
            rule,
            number,
            class: *place as usize,
        };
        push_place(alloc, &at, program, &mut row, out)?;
        rest = behind;
    }
    Ok(())
}

/// The instances that the rules may have.
pub fn instances_of(
    alloc: Global,
    rules: &[IfRule],
    program: &Program,
    hierarchy: &Hierarchy,
) -> Result<Vec<Instance>, AllocError>
    requires types { length program.now.types < 2 ^ 32 }
    requires classes { length program.now.classes < 2 ^ 32 }
    requires methods { length program.now.methods < 2 ^ 32 }
    ensures { (rs : List Meant) → is_well_formed program.now ≡ true → IsOf program.now hierarchy.now → AreEach IsIfOf rules.now rs → IfOk result (λ out. AreInstances program.now rs out.items) }
{
    let mut out = Vec::new(alloc);
    for number in 0..rules.len() {
        push_rule(alloc, &rules[number], number, program, hierarchy, &mut out)?;
    }
    Ok(out)
}
