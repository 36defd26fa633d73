//! Whether numbers have the bits of their types. A law speaks of numbers without an end, and only code that reads a number
//! knows its type: so each number is read once.

ghost use Rattle.std.specs.Prelude.{◌≡◌, All, IfSome, true};
ghost use Rattle.std.specs.Int.{w32};
ghost use Rattle.std.specs.Int.RustNames.{FitsSigned};
ghost use Rattle.premises.specs.Numbers.{AllHaveWords, ClassHasWords, FieldHasWords, HasWords, MethodHasWords, ValueHasWords};

use program_model::{Class, EncValue, Field, Insn, Method, Program};

/// Reads the keys of a switch.
fn read_keys(keys: &[i32])
    ensures { All (FitsSigned w32) keys.now }
{
    for key in keys {
        let _key = *key;
    }
}

/// Reads the literals and keys of an instruction.
fn read_insn(insn: &Insn)
    ensures { HasWords insn.now }
{
    match insn {
        Insn::Const { value, .. } => {
            let _value = *value;
        }
        Insn::Literal { value, .. } => {
            let _value = *value;
        }
        Insn::PackedSwitch { first, .. } => {
            let _first = *first;
        }
        Insn::SparseSwitch { keys, .. } => read_keys(keys.as_slice()),
        _ => {}
    }
}

/// Reads those of some instructions.
fn read_insns(insns: &[Insn])
    ensures { All HasWords insns.now }
{
    for insn in insns {
        read_insn(insn);
    }
}

/// Reads those of a method's code.
fn read_method(method: &Method)
    ensures { MethodHasWords method.now }
{
    if let Some(body) = &method.body {
        read_insns(body.insns.as_slice());
    }
}

/// Reads those of some methods.
fn read_methods(methods: &[Method])
    ensures { All MethodHasWords methods.now }
{
    for method in methods {
        read_method(method);
    }
}

/// Reads a first value that is a word.
fn read_value(value: &EncValue)
    ensures { ValueHasWords value.now }
{
    match value {
        EncValue::Byte(byte) => {
            let _byte = *byte;
        }
        EncValue::Short(short) => {
            let _short = *short;
        }
        EncValue::Char(unit) => {
            let _unit = *unit;
        }
        EncValue::Int(int) => {
            let _int = *int;
        }
        EncValue::Float(bits) => {
            let _bits = *bits;
        }
        _ => {}
    }
}

/// Reads the first value of a field.
fn read_field(field: &Field)
    ensures { FieldHasWords field.now }
{
    if let Some(value) = &field.first {
        read_value(value);
    }
}

/// Reads the first values of some fields.
fn read_fields(fields: &[Field])
    ensures { All FieldHasWords fields.now }
{
    for field in fields {
        read_field(field);
    }
}

/// Reads the numbers of a class.
fn read_class(class: &Class)
    ensures { ClassHasWords class.now }
{
    read_methods(class.methods.as_slice());
    read_fields(class.fields.as_slice());
}

/// Reads the numbers of some classes.
fn read_classes(classes: &[Class])
    ensures { All ClassHasWords classes.now }
{
    for class in classes {
        read_class(class);
    }
}

/// Whether the literals and keys of all instructions and the first values of all fields have the bits that their types give
/// them. They do in every program, so the answer is always true. It goes over all instructions and first values once, and
/// takes no memory.
pub fn numbers_have_bits(program: &Program) -> bool
    ensures always { result ≡ true }
    ensures all { AllHaveWords program.now }
{
    read_classes(program.classes.as_slice());
    true
}
