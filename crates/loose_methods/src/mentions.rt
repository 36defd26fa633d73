//! Which methods annotations and first values name.

ghost use Rattle.std.specs.Prelude.{◌≡◌, ◌++◌, ◌&&◌, not, ℕ, flat_map, length, IfOk, OnOk};
ghost use Rattle.loose_methods.specs.Asked.{IsJudged};
ghost use Rattle.std.specs.List.{list_any};
ghost use Rattle.std.specs.Option.{option_copied};
ghost use Rattle.program_model.specs.Lookups.{method_at};
ghost use Rattle.loose_methods.specs.Loose.{number_at, named_by, names_it, is_this};
ghost use Rattle.class_defs.specs.Finding.{resolves_method};
ghost use Rattle.loose_methods.specs.Marking.{is_on};
ghost use Rattle.loose_methods.specs.Mentioned.{value_methods, element_methods, note_methods, marks_methods, first_methods, field_methods, method_methods, class_methods, mentioned, is_mentioned};

use crate::candidates::Judged;
use crate::table::turn;
use program_model::{Class, Element, EncValue, Field, Mark, Method, MethodAt, Note, Program};
use seq::Seq;
use std::alloc::{AllocError, Global};

/// Adds the methods that a value names.
#[cycle(values)]
#[tactic(auto, using(crate::proofs::Named::array_methods, crate::proofs::Named::annotation_methods), unfolding(crate::specs::Mentioned::value_methods))]
fn add_value(out: &mut Vec<u32>, value: &EncValue) -> Result<(), AllocError>
    ensures { OnOk result (out.new.items ≡ out.old.items ++ value_methods value.now) }
{
    match value {
        EncValue::Method(method) => {
            out.push(*method)?;
            Ok(())
        }
        EncValue::Array(values) => add_values(out, values.as_slice()),
        EncValue::Annotation(note) => add_note(out, note),
        _ => Ok(()),
    }
}

/// Adds the methods that values name.
#[cycle(values)]
fn add_values(out: &mut Vec<u32>, values: &[EncValue]) -> Result<(), AllocError>
    ensures { OnOk result (out.new.items ≡ out.old.items ++ flat_map value_methods values.now) }
{
    for value in values {
        add_value(out, value)?;
    }
    Ok(())
}

/// Adds the methods that an element of an annotation names.
#[cycle(values)]
#[tactic(auto, using(crate::proofs::Named::element_methods_are))]
fn add_element(out: &mut Vec<u32>, element: &Element) -> Result<(), AllocError>
    ensures { OnOk result (out.new.items ≡ out.old.items ++ element_methods element.now) }
{
    add_value(out, &element.value)
}

/// Adds the methods that the elements of an annotation name.
#[cycle(values)]
fn add_elements(out: &mut Vec<u32>, elements: &[Element]) -> Result<(), AllocError>
    ensures { OnOk result (out.new.items ≡ out.old.items ++ flat_map element_methods elements.now) }
{
    for element in elements {
        add_element(out, element)?;
    }
    Ok(())
}

/// Adds the methods that an annotation names.
#[cycle(values)]
#[tactic(auto, using(crate::proofs::Named::note_methods_are))]
fn add_note(out: &mut Vec<u32>, note: &Note) -> Result<(), AllocError>
    ensures { OnOk result (out.new.items ≡ out.old.items ++ note_methods note.now) }
{
    add_elements(out, note.elements.as_slice())
}

/// Adds the methods that annotations name.
fn add_marks(out: &mut Vec<u32>, marks: &[Mark]) -> Result<(), AllocError>
    ensures { OnOk result (out.new.items ≡ out.old.items ++ marks_methods marks.now) }
{
    for mark in marks {
        add_note(out, &mark.note)?;
    }
    Ok(())
}

/// Adds the methods that the first value of a field names.
fn add_first(out: &mut Vec<u32>, first: &Option<EncValue>) -> Result<(), AllocError>
    ensures { OnOk result (out.new.items ≡ out.old.items ++ first_methods first.now) }
{
    match first {
        Some(value) => add_value(out, value),
        None => Ok(()),
    }
}

/// Adds the methods that the annotations and the first value of a field name.
fn add_field(out: &mut Vec<u32>, field: &Field) -> Result<(), AllocError>
    ensures { OnOk result (out.new.items ≡ out.old.items ++ field_methods field.now) }
{
    add_marks(out, field.marks.as_slice())?;
    add_first(out, &field.first)
}

/// Adds the methods that fields name.
fn add_fields(out: &mut Vec<u32>, fields: &[Field]) -> Result<(), AllocError>
    ensures { OnOk result (out.new.items ≡ out.old.items ++ flat_map field_methods fields.now) }
{
    for field in fields {
        add_field(out, field)?;
    }
    Ok(())
}

/// Adds the methods that the annotations of parameters name.
fn add_parameters(out: &mut Vec<u32>, lists: &[Seq<Mark>]) -> Result<(), AllocError>
    ensures { OnOk result (out.new.items ≡ out.old.items ++ flat_map marks_methods lists.now) }
{
    for list in lists {
        add_marks(out, list.as_slice())?;
    }
    Ok(())
}

/// Adds the methods that the annotations of a method and of its parameters name.
fn add_method(out: &mut Vec<u32>, method: &Method) -> Result<(), AllocError>
    ensures { OnOk result (out.new.items ≡ out.old.items ++ method_methods method.now) }
{
    add_marks(out, method.marks.as_slice())?;
    add_parameters(out, method.parameter_marks.as_slice())
}

/// Adds the methods that methods name in their annotations.
fn add_methods(out: &mut Vec<u32>, methods: &[Method]) -> Result<(), AllocError>
    ensures { OnOk result (out.new.items ≡ out.old.items ++ flat_map method_methods methods.now) }
{
    for method in methods {
        add_method(out, method)?;
    }
    Ok(())
}

/// Adds the methods that a class names in its annotations and in those of its members.
fn add_class(out: &mut Vec<u32>, class: &Class) -> Result<(), AllocError>
    ensures { OnOk result (out.new.items ≡ out.old.items ++ class_methods class.now) }
{
    add_marks(out, class.marks.as_slice())?;
    add_fields(out, class.fields.as_slice())?;
    add_methods(out, class.methods.as_slice())
}

/// The method numbers that the annotations and first values of a program name.
fn mentioned(alloc: Global, program: &Program) -> Result<Vec<u32>, AllocError>
    ensures { IfOk result (λ numbers. numbers.items ≡ mentioned program.now) }
{
    let mut out = Vec::new(alloc);
    for class in program.classes.as_slice() {
        add_class(&mut out, class)?;
    }
    Ok(out)
}

/// The method at a place.
fn method_at(program: &Program, at: MethodAt) -> Option<&Method>
    ensures { option_copied result ≡ method_at program.now at }
{
    match program.classes.as_slice().get(at.class as usize) {
        Some(class) => class.methods.as_slice().get(at.place as usize),
        None => None,
    }
}

/// Takes the mark of a method number, if there is one.
pub(crate) fn bar(marks: &mut [bool], number: Option<u32>)
    ensures long { length marks.new ≡ length marks.old }
    ensures are { (n : ℕ) → is_on marks.new n ≡ (is_on marks.old n && not (is_this n number)) }
{
    match number {
        Some(number) => turn(marks, number, false),
        None => {}
    }
}

impl Judged<'_> {
    /// The number of the method at a place.
    pub(crate) fn number_at(&self, at: MethodAt) -> Option<u32>
        ensures { result ≡ number_at self.now.program.now at }
    {
        match method_at(self.program, at) {
            Some(method) => Some(method.name),
            None => None,
        }
    }

    /// The method that a number names: the one that it resolves to, or that of this very number.
    pub(crate) fn named(&self, called: u32) -> Option<u32>
        ensures { IsJudged self.now → result ≡ named_by self.now.program.now called (resolves_method self.now.program.now called) }
    {
        match self.hierarchy.resolve_method(self.program, called) {
            Some(at) => self.number_at(at),
            None => Some(called),
        }
    }

    /// Takes the marks of the methods that some numbers name.
    fn bar_named(&self, marks: &mut [bool], numbers: &[u32])
        ensures long { length marks.new ≡ length marks.old }
        ensures are { let p = self.now.program.now in IsJudged self.now → (n : ℕ) → is_on marks.new n ≡ (is_on marks.old n && not (list_any (names_it p n) numbers.now)) }
    {
        for number in numbers {
            bar(marks, self.named(*number));
        }
    }

    /// Takes the marks of the methods that annotations and first values name.
    pub(crate) fn bar_mentioned(&self, alloc: Global, marks: &mut [bool]) -> Result<(), AllocError>
        ensures { let p = self.now.program.now in IsJudged self.now
            → OnOk result ((length marks.new ≡ length marks.old) × ((n : ℕ) → is_on marks.new n ≡ (is_on marks.old n && not (is_mentioned p n)))) }
    {
        let numbers = mentioned(alloc, self.program)?;
        self.bar_named(marks, numbers.as_slice());
        Ok(())
    }
}
