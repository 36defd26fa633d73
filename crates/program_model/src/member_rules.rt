//! What a class and its members have to be (Dalvik executable format, "class_def_item", "class_data_item").

ghost use Rattle.std.specs.Prelude.{◌≡◌, ◌+◌, sum_by, slice_get};
ghost use Rattle.std.specs.List.{list_all};
ghost use Rattle.std.specs.Option.{option_copied};
ghost use Rattle.program_model.specs.Cells.{capped};
ghost use Rattle.program_model.specs.Neighbours.{neighbours};
ghost use Rattle.program_model.specs.ValueRules.{marks_fit};
ghost use Rattle.program_model.specs.MemberRules.{is_static, lacks_code, in_groups, class_of_field, is_class_number, field_letter, first_value_fits, field_fits, fields_in_order, fields_fit, class_of_method, name_of_method, is_direct, words_of, receiver_words, proto_of, takes_words, frame_fits, code_fits, method_fits, methods_in_order, methods_fit, is_class_type, is_object, types_of_class_fit, source_fits, class_fits};

use crate::body::Body;
use crate::body_rules::body_fits;
use crate::distinct::all_differ;
use crate::flags::Flags;
use crate::line_rules::lines_fit;
use crate::pools::Proto;
use crate::program::{Class, Field, Method, Program};
use crate::texts::{
    first_unit, has_string, has_type, is_class, is_wide, letter_of, string_units, type_units,
};
use crate::value::EncValue;
use crate::value_rules::{first_fits, marks_fit};

/// Whether the flags are those of a static member.
fn is_static(flags: Flags) -> bool
    ensures { result ≡ is_static flags }
{
    flags.has(Flags::STATIC)
}

/// Whether the flags are those of a method without code.
fn lacks_code(flags: Flags) -> bool
    ensures { result ≡ lacks_code flags }
{
    flags.has(Flags::ABSTRACT) || flags.has(Flags::NATIVE)
}

/// Whether a member may stand directly before another, by whether each is of the first list and whether the numbers
/// ascend.
fn in_groups(first: bool, second: bool, ascends: bool) -> bool
    ensures { result ≡ in_groups first second ascends }
{
    match (first, second) {
        (true, false) => true,
        (false, true) => false,
        _ => ascends,
    }
}

/// Whether the field is one of the class.
fn is_field_of(program: &Program, class: u32, field: u32) -> bool
    ensures { result ≡ is_class_number (class_of_field (slice_get program.now.fields field)) class }
{
    match program.fields.items.get(field as usize) {
        Some(name) => name.class == class,
        None => false,
    }
}

/// The letter of the field's type, 0 where there is no such field.
fn field_letter(program: &Program, field: u32) -> u16
    ensures { result ≡ field_letter program.now (slice_get program.now.fields field) }
{
    match program.fields.items.get(field as usize) {
        Some(name) => letter_of(program, name.kind),
        None => 0,
    }
}

/// Whether there is no first value, or the field is static and the value one of its type.
fn first_value_fits(program: &Program, flags: Flags, field: u32, first: &Option<EncValue>) -> bool
    ensures { result ≡ first_value_fits program.now flags field first.now }
{
    match first {
        Some(value) => is_static(flags) && first_fits(program, field_letter(program, field), value),
        None => true,
    }
}

/// Whether a field is one of the class, and its first value and annotations are what they have to be.
#[tactic(auto, unfolding(crate::specs::MemberRules::field_fits))]
fn field_fits(program: &Program, class: u32, field: &Field) -> bool
    ensures { result ≡ field_fits program.now class field.now }
{
    is_field_of(program, class, field.name)
        && (first_value_fits(program, field.flags, field.name, &field.first)
            && marks_fit(program, field.marks.as_slice()))
}

/// Whether each field is what it has to be.
fn each_field_fits(program: &Program, class: u32, fields: &[Field]) -> bool
    ensures { result ≡ list_all (field_fits program.now class) fields.now }
{
    fields.iter().all(|field| field_fits(program, class, field))
}

/// Whether a field may stand directly before another.
fn field_precedes(field: &Field, next: &Field) -> bool
    ensures { result ≡ fields_in_order (field.now, next.now) }
{
    in_groups(
        is_static(field.flags),
        is_static(next.flags),
        field.name < next.name,
    )
}

/// Whether static fields come first, and each list ascends.
fn fields_in_order(fields: &[Field]) -> bool
    ensures { result ≡ list_all fields_in_order (neighbours fields.now) }
{
    fields
        .iter()
        .zip(fields.iter().skip(1))
        .all(|(field, next)| field_precedes(field, next))
}

/// Whether the fields of the class are what they have to be.
#[tactic(auto, unfolding(crate::specs::MemberRules::fields_fit))]
fn fields_fit(program: &Program, class: u32, fields: &[Field]) -> bool
    ensures { result ≡ fields_fit program.now class fields.now }
{
    each_field_fits(program, class, fields) && (fields_in_order(fields) && all_differ(fields))
}

/// Whether the method is one of the class.
fn is_method_of(program: &Program, class: u32, method: u32) -> bool
    ensures { result ≡ is_class_number (class_of_method (slice_get program.now.methods method)) class }
{
    match program.methods.items.get(method as usize) {
        Some(name) => name.class == class,
        None => false,
    }
}

/// The units of the method's name, none where there is no such method.
fn method_name_units(program: &Program, method: u32) -> &[u16]
    ensures { result.now ≡ name_of_method program.now (slice_get program.now.methods method) }
{
    match program.methods.items.get(method as usize) {
        Some(name) => string_units(program, name.name),
        None => &[],
    }
}

/// Whether a method is direct: static, private, or named with a leading `<`.
#[tactic(auto, unfolding(crate::specs::MemberRules::is_direct))]
fn is_direct(program: &Program, method: &Method) -> bool
    ensures { result ≡ is_direct program.now method.now }
{
    (is_static(method.flags) || method.flags.has(Flags::PRIVATE))
        || first_unit(method_name_units(program, method.name)) == 60
}

/// How many registers a parameter of the type takes.
fn words_of(program: &Program, kind: u32) -> u64
    ensures { result ≡ words_of program.now kind }
{
    if is_wide(letter_of(program, kind)) {
        2
    } else {
        1
    }
}

/// How many registers parameters take, the greatest number of 64 bits standing for all above it.
fn count_words(program: &Program, parameters: &[u32]) -> u64
    ensures { result ≡ capped (sum_by (words_of program.now) parameters.now) }
{
    let mut total: u64 = 0;
    for kind in parameters {
        total = total.saturating_add(words_of(program, *kind));
    }
    total
}

/// How many registers the receiver takes.
fn receiver_words(flags: Flags) -> u64
    ensures { result ≡ receiver_words flags }
{
    if is_static(flags) { 0 } else { 1 }
}

/// How many registers the receiver and the parameters of a method take.
fn frame_words(program: &Program, flags: Flags, parameters: &[u32]) -> u64
    ensures { result ≡ capped (receiver_words flags + sum_by (words_of program.now) parameters.now) }
{
    receiver_words(flags).saturating_add(count_words(program, parameters))
}

/// The proto of the method.
fn proto_of(program: &Program, method: u32) -> Option<&Proto>
    ensures { option_copied result ≡ proto_of program.now method }
{
    let name = program.methods.items.get(method as usize)?;
    program.protos.items.get(name.proto as usize)
}

/// Whether the receiver and the parameters of the method take so many registers.
#[tactic(auto, using(crate::proofs::Capped::same_as_capped))]
fn takes_words(program: &Program, flags: Flags, method: u32, words: u16) -> bool
    ensures { result ≡ takes_words program.now flags (proto_of program.now method) words }
{
    match proto_of(program, method) {
        Some(proto) => u64::from(words) == frame_words(program, flags, proto.parameters.as_slice()),
        None => false,
    }
}

/// Whether the arguments of the method's body are its receiver and parameters, and it has room for them.
#[tactic(auto, unfolding(crate::specs::MemberRules::frame_fits))]
fn frame_fits(program: &Program, method: &Method, body: &Body) -> bool
    ensures { result ≡ frame_fits program.now method.now body.now }
{
    takes_words(program, method.flags, method.name, body.ins) && body.ins <= body.registers
}

/// Whether a method has a body exactly where it is neither abstract nor native, and the body and its lines are what
/// they have to be.
fn code_fits(program: &Program, method: &Method) -> bool
    ensures { result ≡ code_fits program.now method.now method.now.body }
{
    let lines = method.lines.as_slice();
    match &method.body {
        Some(body) => {
            !lacks_code(method.flags)
                && (frame_fits(program, method, body)
                    && (body_fits(program, body) && lines_fit(body.insns.len(), lines)))
        }
        None => lacks_code(method.flags) && lines_fit(0, lines),
    }
}

/// Whether the annotations of each parameter are what they have to be.
fn parameter_marks_fit(program: &Program, method: &Method) -> bool
    ensures { result ≡ list_all (marks_fit program.now) method.now.parameter_marks }
{
    method
        .parameter_marks
        .as_slice()
        .iter()
        .all(|marks| marks_fit(program, marks.as_slice()))
}

/// Whether a method is one of the class, and its code and annotations are what they have to be.
#[tactic(auto, unfolding(crate::specs::MemberRules::method_fits))]
fn method_fits(program: &Program, class: u32, method: &Method) -> bool
    ensures { result ≡ method_fits program.now class method.now }
{
    (is_method_of(program, class, method.name) && code_fits(program, method))
        && (marks_fit(program, method.marks.as_slice()) && parameter_marks_fit(program, method))
}

/// Whether each method is what it has to be.
fn each_method_fits(program: &Program, class: u32, methods: &[Method]) -> bool
    ensures { result ≡ list_all (method_fits program.now class) methods.now }
{
    methods
        .iter()
        .all(|method| method_fits(program, class, method))
}

/// Whether a method may stand directly before another.
fn method_precedes(program: &Program, method: &Method, next: &Method) -> bool
    ensures { result ≡ methods_in_order program.now (method.now, next.now) }
{
    in_groups(
        is_direct(program, method),
        is_direct(program, next),
        method.name < next.name,
    )
}

/// Whether direct methods come first, and each list ascends.
fn methods_in_order(program: &Program, methods: &[Method]) -> bool
    ensures { result ≡ list_all (methods_in_order program.now) (neighbours methods.now) }
{
    methods
        .iter()
        .zip(methods.iter().skip(1))
        .all(|(method, next)| method_precedes(program, method, next))
}

/// Whether the methods of the class are what they have to be.
#[tactic(auto, unfolding(crate::specs::MemberRules::methods_fit))]
fn methods_fit(program: &Program, class: u32, methods: &[Method]) -> bool
    ensures { result ≡ methods_fit program.now class methods.now }
{
    each_method_fits(program, class, methods)
        && (methods_in_order(program, methods) && all_differ(methods))
}

/// Whether the number is that of a class type.
fn is_class_type(program: &Program, kind: u32) -> bool
    ensures { result ≡ is_class_type program.now kind }
{
    has_type(program, kind) && is_class(letter_of(program, kind))
}

/// Whether each of the numbers is that of a class type.
fn are_class_types(program: &Program, kinds: &[u32]) -> bool
    ensures { result ≡ list_all (is_class_type program.now) kinds.now }
{
    kinds.iter().all(|kind| is_class_type(program, *kind))
}

/// Whether the units are `Ljava/lang/Object;`.
fn is_object(units: &[u16]) -> bool
    ensures { result ≡ is_object units.now }
{
    let object: [u16; 18] = [
        76, 106, 97, 118, 97, 47, 108, 97, 110, 103, 47, 79, 98, 106, 101, 99, 116, 59,
    ];
    units == object.as_slice()
}

/// Whether a class is not the root, and it, its superclass and its interfaces are class types.
#[tactic(auto, unfolding(crate::specs::MemberRules::types_of_class_fit))]
fn types_of_class_fit(program: &Program, class: &Class) -> bool
    ensures { result ≡ types_of_class_fit program.now class.now }
{
    (is_class_type(program, class.name) && !is_object(type_units(program, class.name)))
        && (is_class_type(program, class.superclass)
            && are_class_types(program, class.interfaces.as_slice()))
}

/// Whether the name of a source file, if there is one, is a string.
fn source_fits(program: &Program, source: Option<u32>) -> bool
    ensures { result ≡ source_fits program.now source }
{
    match source {
        Some(string) => has_string(program, string),
        None => true,
    }
}

/// Whether a class and its members are what they have to be.
#[tactic(auto, unfolding(crate::specs::MemberRules::class_fits))]
pub(crate) fn class_fits(program: &Program, class: &Class) -> bool
    ensures { result ≡ class_fits program.now class.now }
{
    (types_of_class_fit(program, class)
        && (source_fits(program, class.source) && marks_fit(program, class.marks.as_slice())))
        && (fields_fit(program, class.name, class.fields.as_slice())
            && methods_fit(program, class.name, class.methods.as_slice()))
}
