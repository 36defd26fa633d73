//! Which instances hold.

ghost use Rattle.std.specs.Prelude.{◌≡◌, ◌&&◌, List, true, false, Some, None, slice_get, IfOk};
ghost use Rattle.std.specs.List.{list_all, list_any};
ghost use Rattle.std.specs.Option.{option_copied};
ghost use Rattle.dalvik_defs.specs.Naming.{named_field, named_method};
ghost use Rattle.keep_rules.specs.Fits.{has_field_name, has_method_name, has_names};
ghost use Rattle.program_model.specs.ProgramRules.{is_well_formed};
ghost use Rattle.rule_defs.specs.Members.{matches_field, matches_method};
ghost use Rattle.rule_text.specs.Related.{AreEach, IsMemberOf};
ghost use Rattle.rule_text.specs.Rules as meant;
ghost use Rattle.if_text.specs.Items.{IfRule as Meant};
ghost use Rattle.if_text.specs.Readings.{IsIfOf};
ghost use Rattle.if_rules.specs.Added.{are_live, holds, holds_at, holds_in, is_met};
ghost use Rattle.if_rules.specs.Instances.{is_on};

use crate::instances::{Choice, Instance, class_there, lines_of};
use call_graph::LiveSet;
use if_text::IfRule;
use keep_rules::{field_fits, method_fits};
use program_model::{Class, Field, Method, Program};
use rule_text::MemberRule;
use std::alloc::AllocError;

/// Whether a number is marked.
fn is_on(marks: &[bool], number: u32) -> bool
    ensures { result ≡ is_on marks.now number }
{
    match marks.get(number as usize) {
        Some(mark) => *mark,
        None => false,
    }
}

/// Whether the method is live and the line matches it.
fn is_live_method(
    line: &MemberRule,
    program: &Program,
    method: &Method,
    marks: &[bool],
    row: &mut Vec<bool>,
) -> Result<bool, AllocError>
    ensures { (m : meant.MemberRule) → has_method_name program.now method.now ≡ true → IsMemberOf line.now m
        → IfOk result (λ is. is ≡ (is_on marks.now method.now.name && matches_method m (named_method program.now method.now))) }
{
    let live = is_on(marks, method.name);
    if !live {
        return Ok(false);
    }
    method_fits(line, program, method, row)
}

/// Whether the field is live and the line matches it.
fn is_live_field(
    line: &MemberRule,
    program: &Program,
    field: &Field,
    marks: &[bool],
    row: &mut Vec<bool>,
) -> Result<bool, AllocError>
    ensures { (m : meant.MemberRule) → has_field_name program.now field.now ≡ true → IsMemberOf line.now m
        → IfOk result (λ is. is ≡ (is_on marks.now field.now.name && matches_field m (named_field program.now field.now))) }
{
    let live = is_on(marks, field.name);
    if !live {
        return Ok(false);
    }
    field_fits(line, program, field, row)
}

/// Whether some live method of the class matches the line.
#[tactic(auto, using(crate::proofs::Lives::any_begin, crate::proofs::Lives::any_found, crate::proofs::Lives::any_passed, crate::proofs::Lives::any_end))]
fn has_method(
    line: &MemberRule,
    program: &Program,
    methods: &[Method],
    marks: &[bool],
    row: &mut Vec<bool>,
) -> Result<bool, AllocError>
    ensures { (m : meant.MemberRule) → list_all (has_method_name program.now) methods.now ≡ true → IsMemberOf line.now m
        → IfOk result (λ has. has ≡ list_any (λ d. is_on marks.now d.name && matches_method m (named_method program.now d)) methods.now) }
{
    let mut rest = methods;
    while let [method, behind @ ..] = rest {
        let found = is_live_method(line, program, method, marks, row)?;
        if found {
            return Ok(true);
        }
        rest = behind;
    }
    Ok(false)
}

/// Whether some live field of the class matches the line.
#[tactic(auto, using(crate::proofs::Lives::any_begin, crate::proofs::Lives::any_found, crate::proofs::Lives::any_passed, crate::proofs::Lives::any_end))]
fn has_field(
    line: &MemberRule,
    program: &Program,
    fields: &[Field],
    marks: &[bool],
    row: &mut Vec<bool>,
) -> Result<bool, AllocError>
    ensures { (m : meant.MemberRule) → list_all (has_field_name program.now) fields.now ≡ true → IsMemberOf line.now m
        → IfOk result (λ has. has ≡ list_any (λ d. is_on marks.now d.name && matches_field m (named_field program.now d)) fields.now) }
{
    let mut rest = fields;
    while let [field, behind @ ..] = rest {
        let found = is_live_field(line, program, field, marks, row)?;
        if found {
            return Ok(true);
        }
        rest = behind;
    }
    Ok(false)
}

/// Whether some live member of the class matches the line.
fn is_met(
    line: &MemberRule,
    program: &Program,
    class: &Class,
    live: &LiveSet,
    row: &mut Vec<bool>,
) -> Result<bool, AllocError>
    ensures { (m : meant.MemberRule) → has_names program.now class.now ≡ true → IsMemberOf line.now m → IfOk result (λ met. met ≡ is_met program.now live.now class.now m) }
{
    let methods = live.methods.as_slice();
    let method = has_method(line, program, class.methods.as_slice(), methods, row)?;
    if method {
        return Ok(true);
    }
    has_field(
        line,
        program,
        class.fields.as_slice(),
        live.fields.as_slice(),
        row,
    )
}

/// Whether some live member of the class matches each line.
#[tactic(auto, using(crate::proofs::Lives::all_begin, crate::proofs::Lives::all_failed, crate::proofs::Lives::all_passed, crate::proofs::Lives::all_end))]
fn are_met(
    lines: &[MemberRule],
    program: &Program,
    class: &Class,
    live: &LiveSet,
    row: &mut Vec<bool>,
) -> Result<bool, AllocError>
    ensures { (ms : List meant.MemberRule) → has_names program.now class.now ≡ true → AreEach IsMemberOf lines.now ms → IfOk result (λ met. met ≡ list_all (is_met program.now live.now class.now) ms) }
{
    let mut rest = lines;
    while let [line, behind @ ..] = rest {
        let met = is_met(line, program, class, live, row)?;
        if !met {
            return Ok(false);
        }
        rest = behind;
    }
    Ok(true)
}

/// Whether the method at a place of the class is live.
fn has_live_method(methods: &[Method], place: usize, live: &LiveSet) -> bool
    ensures { result ≡ elim (slice_get methods.now place) [ Some m ↦ is_on live.now.methods.items m.name | None ↦ false ] }
{
    match methods.get(place) {
        Some(method) => is_on(live.methods.as_slice(), method.name),
        None => false,
    }
}

/// Whether the field at a place of the class is live.
fn has_live_field(fields: &[Field], place: usize, live: &LiveSet) -> bool
    ensures { result ≡ elim (slice_get fields.now place) [ Some f ↦ is_on live.now.fields.items f.name | None ↦ false ] }
{
    match fields.get(place) {
        Some(field) => is_on(live.fields.as_slice(), field.name),
        None => false,
    }
}

/// Whether the members that are asked for are live.
fn has_members(
    rule: &IfRule,
    choice: Choice,
    program: &Program,
    class: &Class,
    live: &LiveSet,
    row: &mut Vec<bool>,
) -> Result<bool, AllocError>
    ensures { (r : Meant) → has_names program.now class.now ≡ true → IsIfOf rule.now r → IfOk result (λ are. are ≡ are_live program.now live.now r class.now choice) }
{
    match choice {
        Choice::Each => are_met(lines_of(rule), program, class, live, row),
        Choice::Method(place) => Ok(has_live_method(class.methods.as_slice(), place, live)),
        Choice::Field(place) => Ok(has_live_field(class.fields.as_slice(), place, live)),
    }
}

/// Whether an instance of a rule in a class holds.
fn holds_in(
    rule: &IfRule,
    choice: Choice,
    program: &Program,
    class: &Class,
    live: &LiveSet,
    row: &mut Vec<bool>,
) -> Result<bool, AllocError>
    ensures { (r : Meant) → has_names program.now class.now ≡ true → IsIfOf rule.now r → IfOk result (λ there. there ≡ holds_in program.now live.now r class.now choice) }
{
    if !is_on(live.classes.as_slice(), class.name) {
        return Ok(false);
    }
    has_members(rule, choice, program, class, live, row)
}

/// The rule at a place.
fn rule_there(rules: &[IfRule], place: usize) -> Option<&IfRule>
    ensures { option_copied result ≡ slice_get rules.now place }
{
    rules.get(place)
}

/// Whether an instance of a rule holds.
fn holds_at(
    rule: &IfRule,
    instance: &Instance,
    program: &Program,
    live: &LiveSet,
    row: &mut Vec<bool>,
) -> Result<bool, AllocError>
    ensures { (r : Meant) → is_well_formed program.now ≡ true → IsIfOf rule.now r → IfOk result (λ there. there ≡ holds_at program.now live.now r instance.now) }
{
    match class_there(program, instance.class) {
        Some(class) => holds_in(rule, instance.choice, program, class, live, row),
        None => Ok(false),
    }
}

/// Whether an instance holds.
pub fn holds(
    rules: &[IfRule],
    instance: &Instance,
    program: &Program,
    live: &LiveSet,
    row: &mut Vec<bool>,
) -> Result<bool, AllocError>
    ensures { (rs : List Meant) → is_well_formed program.now ≡ true → AreEach IsIfOf rules.now rs → IfOk result (λ there. there ≡ holds program.now live.now rs instance.now) }
{
    match rule_there(rules, instance.rule) {
        Some(rule) => holds_at(rule, instance, program, live, row),
        None => Ok(false),
    }
}
