//! Which members a line names.

ghost use Rattle.std.specs.Prelude.{◌≡◌, ◌&&◌, codes, List, true, length, map, nat_lt, slice_get, IfOk};
ghost use Rattle.std.specs.List.{list_any, list_all};
ghost use Rattle.dalvik_defs.specs.Naming.{field_at, method_at, text_at, type_at, signature_at, named_field, named_method, named_class};
ghost use Rattle.rule_text.specs.Rules as meant;
ghost use Rattle.dalvik_defs.specs.Names.{text_eq};
ghost use Rattle.rule_text.specs.Tokens.{Word};
ghost use Rattle.rule_text.specs.Related.{AreArgumentsOf, AreEach, IsPatternOf, IsTypeOf, IsWhatOf, IsMemberOf};
ghost use Rattle.rule_defs.specs.Patterns.{arguments_fit, member_name_fits, type_fits};
ghost use Rattle.rule_defs.specs.Members.{names_method, names_field, matches_method, matches_field};
ghost use Rattle.rule_defs.specs.Kept.{has_match};
ghost use Rattle.keep_rules.specs.Fits.{signature_of, has_signature, has_method_name, has_field_name, has_names};

use crate::access::{Role, conditions_fit};
use crate::fit::{arguments_fit, type_fits};
use crate::view::{descriptor, string_units};
use program_model::{Class, Field, FieldName, Method, MethodName, Program, Proto};
use rule_match::matches;
use rule_text::{Arguments, MemberRule, NamePattern, Named, TypePattern, What};
use std::alloc::AllocError;

/// The units of `<init>`.
const INIT: [u16; 6] = [60, 105, 110, 105, 116, 62];

/// Whether a name is that of constructors.
fn is_constructor(units: &[u16]) -> bool
    ensures { result ≡ text_eq units.now (codes "<init>") }
{
    units == INIT.as_slice()
}

/// Whether a member's name and its type match.
fn name_and_type(
    name: &NamePattern,
    kind: &TypePattern,
    units: &[u16],
    descriptor: &[u16],
    row: &mut Vec<bool>,
) -> Result<bool, AllocError>
    ensures { (n k : Word) → IsPatternOf name.now n → IsTypeOf kind.now k
        → IfOk result (λ both. both ≡ (member_name_fits n units.now && type_fits k descriptor.now)) }
{
    let named = matches(name, Named::Member, units, row)?;
    if !named {
        return Ok(false);
    }
    type_fits(kind, descriptor, row)
}

/// Whether a method's name, result and parameters match.
fn method_spelled(
    name: &NamePattern,
    kind: &TypePattern,
    arguments: &Arguments,
    program: &Program,
    units: &[u16],
    proto: &Proto,
    row: &mut Vec<bool>,
) -> Result<bool, AllocError>
    ensures { (n k : Word) (a : meant.Arguments) → IsPatternOf name.now n → IsTypeOf kind.now k → AreArgumentsOf arguments.now a
        → IfOk result (λ all. all ≡ ((member_name_fits n units.now && type_fits k (type_at program.now proto.now.result)) && arguments_fit a (map (type_at program.now) proto.now.parameters))) }
{
    let named = name_and_type(name, kind, units, descriptor(program, proto.result), row)?;
    if !named {
        return Ok(false);
    }
    arguments_fit(arguments, program, proto.parameters.as_slice(), row)
}

/// Whether a field's name and type match.
fn field_spelled(
    name: &NamePattern,
    kind: &TypePattern,
    program: &Program,
    field: &FieldName,
    row: &mut Vec<bool>,
) -> Result<bool, AllocError>
    ensures { (n k : Word) → IsPatternOf name.now n → IsTypeOf kind.now k
        → IfOk result (λ both. both ≡ (member_name_fits n (text_at program.now field.now.name) && type_fits k (type_at program.now field.now.kind))) }
{
    let units = string_units(program, field.name);
    name_and_type(name, kind, units, descriptor(program, field.kind), row)
}

/// Whether the line names a method of this name, with the result and the parameters of a proto.
fn method_meant(
    what: &What,
    program: &Program,
    name: u32,
    proto: &Proto,
    row: &mut Vec<bool>,
) -> Result<bool, AllocError>
    ensures { (w : meant.What) → IsWhatOf what.now w
        → IfOk result (λ named. named ≡ names_method w (text_at program.now name) (signature_of program.now proto.now)) }
{
    let units = string_units(program, name);
    match what {
        What::All | What::Methods => Ok(true),
        What::Fields | What::Field { .. } => Ok(false),
        What::Init(arguments) => {
            let constructs = is_constructor(units);
            if !constructs {
                return Ok(false);
            }
            arguments_fit(arguments, program, proto.parameters.as_slice(), row)
        }
        What::Method {
            result,
            name,
            arguments,
        } => method_spelled(name, result, arguments, program, units, proto, row),
    }
}

/// Whether the line names a method of this name, result and parameters.
pub fn method_named(
    what: &What,
    program: &Program,
    method: &MethodName,
    row: &mut Vec<bool>,
) -> Result<bool, AllocError>
    ensures { (w : meant.What) → nat_lt method.now.proto (length program.now.protos) ≡ true → IsWhatOf what.now w
        → IfOk result (λ named. named ≡ names_method w (text_at program.now method.now.name) (signature_at program.now method.now.proto)) }
{
    match program.protos.as_slice().get(method.proto as usize) {
        Some(proto) => method_meant(what, program, method.name, proto, row),
        None => Ok(false),
    }
}

/// Whether the line names the method with a number.
fn method_by(
    what: &What,
    program: &Program,
    number: u32,
    row: &mut Vec<bool>,
) -> Result<bool, AllocError>
    ensures { (w : meant.What) → has_signature program.now (slice_get program.now.methods number) ≡ true → IsWhatOf what.now w
        → IfOk result (λ named. named ≡ names_method w (method_at program.now number).name (method_at program.now number).signature) }
{
    match program.methods.as_slice().get(number as usize) {
        Some(method) => method_named(what, program, method, row),
        None => Ok(false),
    }
}

/// Whether the line names the field with a number.
fn field_by(
    what: &What,
    program: &Program,
    number: u32,
    row: &mut Vec<bool>,
) -> Result<bool, AllocError>
    ensures { (w : meant.What) → nat_lt number (length program.now.fields) ≡ true → IsWhatOf what.now w
        → IfOk result (λ named. named ≡ names_field w (field_at program.now number).name (field_at program.now number).kind) }
{
    match program.fields.as_slice().get(number as usize) {
        Some(field) => field_named(what, program, field, row),
        None => Ok(false),
    }
}

/// Whether the line names a field of this name and type.
fn field_named(
    what: &What,
    program: &Program,
    field: &FieldName,
    row: &mut Vec<bool>,
) -> Result<bool, AllocError>
    ensures { (w : meant.What) → IsWhatOf what.now w
        → IfOk result (λ named. named ≡ names_field w (text_at program.now field.now.name) (type_at program.now field.now.kind)) }
{
    match what {
        What::All | What::Fields => Ok(true),
        What::Field { kind, name } => field_spelled(name, kind, program, field, row),
        _ => Ok(false),
    }
}

/// Whether the line matches a method of the program.
pub fn method_fits(
    line: &MemberRule,
    program: &Program,
    method: &Method,
    row: &mut Vec<bool>,
) -> Result<bool, AllocError>
    ensures { (m : meant.MemberRule) → has_method_name program.now method.now ≡ true → IsMemberOf line.now m
        → IfOk result (λ fits. fits ≡ matches_method m (named_method program.now method.now)) }
{
    let marks = method.marks.as_slice();
    let conditions = line.conditions.as_slice();
    let fits = conditions_fit(conditions, Role::Method, method.flags, program, marks, row)?;
    if !fits {
        return Ok(false);
    }
    method_by(&line.what, program, method.name, row)
}

/// Whether the line matches a field of the program.
pub fn field_fits(
    line: &MemberRule,
    program: &Program,
    field: &Field,
    row: &mut Vec<bool>,
) -> Result<bool, AllocError>
    ensures { (m : meant.MemberRule) → has_field_name program.now field.now ≡ true → IsMemberOf line.now m
        → IfOk result (λ fits. fits ≡ matches_field m (named_field program.now field.now)) }
{
    let marks = field.marks.as_slice();
    let conditions = line.conditions.as_slice();
    let fits = conditions_fit(conditions, Role::Field, field.flags, program, marks, row)?;
    if !fits {
        return Ok(false);
    }
    field_by(&line.what, program, field.name, row)
}

/// Whether one of the lines matches the method.
pub fn some_line_of_method(
    lines: &[MemberRule],
    program: &Program,
    method: &Method,
    row: &mut Vec<bool>,
) -> Result<bool, AllocError>
    ensures { (ms : List meant.MemberRule) → has_method_name program.now method.now ≡ true → AreEach IsMemberOf lines.now ms
        → IfOk result (λ fits. fits ≡ list_any (λ m. matches_method m (named_method program.now method.now)) ms) }
{
    for line in lines {
        let fits = method_fits(line, program, method, row)?;
        if fits {
            return Ok(true);
        }
    }
    Ok(false)
}

/// Whether one of the lines matches the field.
pub fn some_line_of_field(
    lines: &[MemberRule],
    program: &Program,
    field: &Field,
    row: &mut Vec<bool>,
) -> Result<bool, AllocError>
    ensures { (ms : List meant.MemberRule) → has_field_name program.now field.now ≡ true → AreEach IsMemberOf lines.now ms
        → IfOk result (λ fits. fits ≡ list_any (λ m. matches_field m (named_field program.now field.now)) ms) }
{
    for line in lines {
        let fits = field_fits(line, program, field, row)?;
        if fits {
            return Ok(true);
        }
    }
    Ok(false)
}

/// Whether one of the methods matches the line.
fn has_method(
    line: &MemberRule,
    program: &Program,
    methods: &[Method],
    row: &mut Vec<bool>,
) -> Result<bool, AllocError>
    ensures { (m : meant.MemberRule) → list_all (has_method_name program.now) methods.now ≡ true → IsMemberOf line.now m
        → IfOk result (λ has. has ≡ list_any (matches_method m) (map (named_method program.now) methods.now)) }
{
    for method in methods {
        let fits = method_fits(line, program, method, row)?;
        if fits {
            return Ok(true);
        }
    }
    Ok(false)
}

/// Whether one of the fields matches the line.
fn has_field(
    line: &MemberRule,
    program: &Program,
    fields: &[Field],
    row: &mut Vec<bool>,
) -> Result<bool, AllocError>
    ensures { (m : meant.MemberRule) → list_all (has_field_name program.now) fields.now ≡ true → IsMemberOf line.now m
        → IfOk result (λ has. has ≡ list_any (matches_field m) (map (named_field program.now) fields.now)) }
{
    for field in fields {
        let fits = field_fits(line, program, field, row)?;
        if fits {
            return Ok(true);
        }
    }
    Ok(false)
}

/// Whether some member of the class matches the line.
fn has_member(
    line: &MemberRule,
    program: &Program,
    class: &Class,
    row: &mut Vec<bool>,
) -> Result<bool, AllocError>
    ensures { (m : meant.MemberRule) → has_names program.now class.now ≡ true → IsMemberOf line.now m
        → IfOk result (λ has. has ≡ has_match (named_class program.now class.now) m) }
{
    Ok(
        has_method(line, program, class.methods.as_slice(), row)?
            || has_field(line, program, class.fields.as_slice(), row)?,
    )
}

/// Whether each line matches some member of the class.
pub fn has_each_line(
    lines: &[MemberRule],
    program: &Program,
    class: &Class,
    row: &mut Vec<bool>,
) -> Result<bool, AllocError>
    ensures { (ms : List meant.MemberRule) → has_names program.now class.now ≡ true → AreEach IsMemberOf lines.now ms
        → IfOk result (λ all. all ≡ list_all (has_match (named_class program.now class.now)) ms) }
{
    for line in lines {
        let has = has_member(line, program, class, row)?;
        if !has {
            return Ok(false);
        }
    }
    Ok(true)
}
