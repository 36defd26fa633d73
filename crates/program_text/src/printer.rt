//! Writes programs as text.

use crate::answer::Answer;
use crate::forms::spelled;
use crate::parts::parts_of;
use crate::values::push_flags;
use program_model::{
    Body, Class, EncValue, Field, Flags, Insn, Mark, Method, Program, Region, Version,
};

fn push_string(out: &mut Answer, program: &Program, string: u32) {
    let Some(text) = program.strings.items.get(string as usize) else {
        out.say("?");
        return;
    };
    for unit in text.units() {
        out.say_unit(*unit);
    }
}

/// Adds the text of a type number, `?` where there is none.
pub fn say_type(out: &mut Answer, program: &Program, kind: u32) {
    let string = program.types.items.get(kind as usize).copied();
    push_string(out, program, string.unwrap_or(u32::MAX));
}

/// Adds the text `CLASS->NAME:TYPE` of a field number, `?` where there is none.
pub fn say_field(out: &mut Answer, program: &Program, field: u32) {
    push_field(out, program, field, false);
}

/// Adds `CLASS->NAME:TYPE`, without the class and with a blank in place of the colon where the class is said already.
fn push_field(out: &mut Answer, program: &Program, field: u32, is_own: bool) {
    let Some(name) = program.fields.items.get(field as usize) else {
        out.say("?");
        return;
    };
    if !is_own {
        say_type(out, program, name.class);
        out.say("->");
    }
    push_string(out, program, name.name);
    out.say(if is_own { " " } else { ":" });
    say_type(out, program, name.kind);
}

/// Adds the parameters and the result of a proto.
fn push_proto(out: &mut Answer, program: &Program, proto: u32) {
    let Some(proto) = program.protos.items.get(proto as usize) else {
        out.say("?");
        return;
    };
    out.say("(");
    for kind in proto.parameters.as_slice() {
        say_type(out, program, *kind);
    }
    out.say(")");
    say_type(out, program, proto.result);
}

/// Adds the text `CLASS->NAME(PARAMETERS)RESULT` of a method number, `?` where there is none.
pub fn say_method(out: &mut Answer, program: &Program, method: u32) {
    push_method(out, program, method, false);
}

/// Adds `CLASS->NAME(PARAMETERS)RESULT`, or what is behind the arrow where the class is said already.
fn push_method(out: &mut Answer, program: &Program, method: u32, is_own: bool) {
    let Some(name) = program.methods.items.get(method as usize) else {
        out.say("?");
        return;
    };
    if !is_own {
        say_type(out, program, name.class);
        out.say("->");
    }
    push_string(out, program, name.name);
    push_proto(out, program, name.proto);
}

/// Adds flags and annotations.
fn push_access(out: &mut Answer, program: &Program, flags: Flags, marks: &[Mark]) {
    push_flags(out, flags.0);
    for mark in marks {
        out.say(" @");
        say_type(out, program, mark.note.class);
    }
}

/// A first value that is a number, with the word before it.
fn number_of(value: &EncValue) -> Option<(&'static str, i128)> {
    Some(match value {
        EncValue::Byte(number) => ("byte:", i128::from(*number)),
        EncValue::Short(number) => ("short:", i128::from(*number)),
        EncValue::Char(number) => ("char:", i128::from(*number)),
        EncValue::Int(number) => ("", i128::from(*number)),
        EncValue::Long(number) => ("long:", i128::from(*number)),
        EncValue::Float(bits) => ("float:", i128::from(*bits)),
        EncValue::Double(bits) => ("double:", i128::from(*bits)),
        EncValue::Bool(is_true) => ("bool:", if *is_true { 1 } else { 0 }),
        _ => return None,
    })
}

/// Adds a first value.
fn push_value(out: &mut Answer, program: &Program, value: &EncValue) {
    match number_of(value) {
        Some((word, number)) => out.say_number(word, number),
        None => push_named(out, program, value),
    }
}

/// Adds a first value that names something, or `null`.
fn push_named(out: &mut Answer, program: &Program, value: &EncValue) {
    match value {
        EncValue::Str(string) => {
            out.say("string:");
            push_string(out, program, *string);
        }
        EncValue::Class(kind) => {
            out.say("class:");
            say_type(out, program, *kind);
        }
        EncValue::Field(field) => {
            out.say("field:");
            push_field(out, program, *field, false);
        }
        EncValue::Enum(field) => {
            out.say("enum:");
            push_field(out, program, *field, false);
        }
        EncValue::Method(method) => {
            out.say("method:");
            push_method(out, program, *method, false);
        }
        EncValue::Null => out.say("null"),
        _ => out.say("?"),
    }
}

/// Adds the line of a field.
fn push_field_line(out: &mut Answer, program: &Program, field: &Field) {
    out.say("  field ");
    push_field(out, program, field.name, true);
    push_access(out, program, field.flags, field.marks.as_slice());
    if let Some(value) = &field.first {
        out.say(" = ");
        push_value(out, program, value);
    }
    out.say("\n");
}

/// Adds registers.
fn push_registers(out: &mut Answer, registers: &[u16]) {
    for register in registers {
        out.say_number(" v", i128::from(*register));
    }
}

/// Adds the targets of a switch.
fn push_targets(out: &mut Answer, targets: &[u32]) {
    for target in targets {
        out.say_number(" :", i128::from(*target));
    }
}

/// Adds the items of an array.
fn push_items(out: &mut Answer, items: &[u64]) {
    for item in items {
        out.say_number(" ", i128::from(*item));
    }
}

/// Adds the keys of a switch.
fn push_keys(out: &mut Answer, keys: &[i32]) {
    for key in keys {
        out.say_number(" ", i128::from(*key));
    }
}

/// Adds the registers of a call, and the lists of an array or a switch.
fn push_lists(out: &mut Answer, insn: &Insn) {
    match insn {
        Insn::Invoke { args, .. } | Insn::FilledNewArray { args, .. } => {
            push_registers(out, args.as_slice());
        }
        Insn::FillArray { items, .. } => push_items(out, items.as_slice()),
        Insn::PackedSwitch { targets, .. } => push_targets(out, targets.as_slice()),
        Insn::SparseSwitch { keys, targets, .. } => {
            push_keys(out, keys.as_slice());
            push_targets(out, targets.as_slice());
        }
        _ => {}
    }
}

/// Adds what an instruction names, by the last letter of what its operands are.
fn push_name(out: &mut Answer, program: &Program, kind: u8, name: u32) {
    match kind {
        b's' => push_string(out, program, name),
        b't' => say_type(out, program, name),
        b'f' => push_field(out, program, name, false),
        _ => push_method(out, program, name, false),
    }
}

/// Adds the line of an instruction.
fn push_insn(out: &mut Answer, program: &Program, insn: &Insn) {
    let parts = parts_of(insn);
    let Some((operands, mnemonic)) = spelled(parts.form, parts.operation) else {
        return;
    };
    out.say("    ");
    out.say(mnemonic);
    if let Some(registers) = parts.registers.get(..parts.count) {
        push_registers(out, registers);
    }
    if let Some(number) = parts.number {
        out.say_number(" ", i128::from(number));
    }
    push_lists(out, insn);
    if let Some(label) = parts.label {
        out.say_number(" :", i128::from(label));
    }
    let kind = operands.bytes().last().unwrap_or(b'-');
    if kind != b'-' {
        out.say(" ");
        push_name(out, program, kind, parts.name);
    }
    out.say("\n");
}

/// Whether the instruction goes on to this position by its label or one of its targets.
fn goes_to(insn: &Insn, position: u32) -> bool {
    match insn {
        Insn::Goto { target } | Insn::If { target, .. } | Insn::IfZero { target, .. } => {
            *target == position
        }
        Insn::PackedSwitch { targets, .. } | Insn::SparseSwitch { targets, .. } => {
            targets.as_slice().contains(&position)
        }
        _ => false,
    }
}

/// Whether a region names the position.
fn is_named(region: &Region, position: u32) -> bool {
    region.first == position
        || region.end == position
        || region.rest == Some(position)
        || region
            .handlers
            .as_slice()
            .iter()
            .any(|handler| handler.position == position)
}

/// Adds the label of a position that something names.
fn push_label(out: &mut Answer, body: &Body, position: u32) {
    if body
        .insns
        .as_slice()
        .iter()
        .any(|insn| goes_to(insn, position))
        || body
            .regions
            .as_slice()
            .iter()
            .any(|region| is_named(region, position))
    {
        out.say_number("    :", i128::from(position));
        out.say("\n");
    }
}

/// Adds the line of a region.
fn push_region(out: &mut Answer, program: &Program, region: &Region) {
    out.say_number("    try :", i128::from(region.first));
    out.say_number(" :", i128::from(region.end));
    for handler in region.handlers.as_slice() {
        out.say(" ");
        say_type(out, program, handler.kind);
        out.say_number(" :", i128::from(handler.position));
    }
    if let Some(rest) = region.rest {
        out.say_number(" :", i128::from(rest));
    }
    out.say("\n");
}

/// Adds the lines of code.
fn push_code(out: &mut Answer, program: &Program, body: &Body, lines: &[u32]) {
    out.say_number("    registers ", i128::from(body.registers));
    out.say_number("\n    ins ", i128::from(body.ins));
    out.say("\n");
    let mut position: u32 = 0;
    let mut before = 0;
    for insn in body.insns.as_slice() {
        push_label(out, body, position);
        let line = lines.get(position as usize).copied().unwrap_or(before);
        if line != before {
            out.say_number("    line ", i128::from(line));
            out.say("\n");
            before = line;
        }
        push_insn(out, program, insn);
        position = position.saturating_add(1);
    }
    push_label(out, body, position);
    for region in body.regions.as_slice() {
        push_region(out, program, region);
    }
}

/// Adds the text of a body, whose lines begin with blanks.
pub fn say_body(out: &mut Answer, program: &Program, body: &Body) {
    push_code(out, program, body, &[]);
}

/// Adds the lines of a method.
fn push_method_lines(out: &mut Answer, program: &Program, method: &Method) {
    out.say("  method ");
    push_method(out, program, method.name, true);
    push_access(out, program, method.flags, method.marks.as_slice());
    out.say("\n");
    if let Some(body) = &method.body {
        push_code(out, program, body, method.lines.as_slice());
    }
}

/// Adds the line of a class.
fn push_class_line(out: &mut Answer, program: &Program, class: &Class) {
    out.say("class ");
    say_type(out, program, class.name);
    push_access(out, program, class.flags, class.marks.as_slice());
    out.say(" extends ");
    say_type(out, program, class.superclass);
    if let Some(source) = class.source {
        out.say(" source ");
        push_string(out, program, source);
    }
    if !class.interfaces.is_empty() {
        out.say(" implements");
    }
    for kind in class.interfaces.as_slice() {
        out.say(" ");
        say_type(out, program, *kind);
    }
    out.say("\n");
}

/// Adds the lines of a class.
fn push_class(out: &mut Answer, program: &Program, class: &Class) {
    push_class_line(out, program, class);
    for field in class.fields.as_slice() {
        push_field_line(out, program, field);
    }
    for method in class.methods.as_slice() {
        push_method_lines(out, program, method);
    }
}

/// Adds the text of a program's classes, which spells the program again where its tables are in order and have what the
/// classes name, and no annotation has elements. What has no entry of its table is `?`.
pub fn print(out: &mut Answer, program: &Program) {
    if program.version == Version::V037 {
        out.say("version 037\n");
    }
    for class in program.classes.as_slice() {
        push_class(out, program, class);
    }
}
