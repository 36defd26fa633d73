//! The numbers of members, classes and programs.

ghost use Rattle.std.specs.List.{AllByRecursion};
ghost use Rattle.widths.specs.Widths.{TextInWidth, FieldInWidth, MethodInWidth, ClassInWidth, IsInWidth};

use crate::code::{read_code, read_units};
use crate::values::{read_first, read_marks, read_sets};
use dex_base::Text;
use program_model::{Class, Field, Method, Program};

/// Reads the units of texts.
#[tactic(auto, using(crate::proofs::More::more))]
fn read_texts(texts: &[Text])
    ensures { AllByRecursion TextInWidth texts.now }
{
    for text in texts {
        read_units(text.units());
    }
}

/// Reads the numbers of a field.
fn read_field(field: &Field)
    ensures { FieldInWidth field.now }
{
    let _flags = field.flags.0;
    read_first(&field.first);
    read_marks(field.marks.as_slice())
}

/// Reads those of fields.
#[tactic(auto, using(crate::proofs::More::more))]
fn read_fields(fields: &[Field])
    ensures { AllByRecursion FieldInWidth fields.now }
{
    for field in fields {
        read_field(field);
    }
}

/// Reads those of a method.
fn read_method(method: &Method)
    ensures { MethodInWidth method.now }
{
    let _flags = method.flags.0;
    read_marks(method.marks.as_slice());
    read_sets(method.parameter_marks.as_slice());
    read_code(&method.body)
}

/// Reads those of methods.
#[tactic(auto, using(crate::proofs::More::more))]
fn read_methods(methods: &[Method])
    ensures { AllByRecursion MethodInWidth methods.now }
{
    for method in methods {
        read_method(method);
    }
}

/// Reads those of a class.
fn read_class(class: &Class)
    ensures { ClassInWidth class.now }
{
    let _flags = class.flags.0;
    read_marks(class.marks.as_slice());
    read_fields(class.fields.as_slice());
    read_methods(class.methods.as_slice())
}

/// Reads those of classes.
#[tactic(auto, using(crate::proofs::More::more))]
fn read_classes(classes: &[Class])
    ensures { AllByRecursion ClassInWidth classes.now }
{
    for class in classes {
        read_class(class);
    }
}

/// Reads each number of a program, which so is known to fit its type.
pub fn read_numbers(program: &Program)
    ensures { IsInWidth program.now }
{
    read_texts(program.strings.as_slice());
    read_classes(program.classes.as_slice())
}
