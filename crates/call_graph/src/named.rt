//! What instructions, annotations and values name.

ghost use Rattle.std.specs.Prelude.{◌≡◌, ◌++◌, OnOk};
ghost use Rattle.std.specs.List.{flat_map};
ghost use Rattle.call_graph.specs.Names.{value_names, element_names, note_names, marks_names, first_names, insn_name, insn_names, handler_names, region_names, body_names, code_names, method_names};

use program_model::{
    Body, Element, EncValue, Handler, Insn, InvokeKind, Mark, Method, Note, Region,
};
use seq::Seq;
use std::alloc::AllocError;

/// Something that is named. `Kind` is a type number, `Made` that of a NewInstance, `Field` and `Method` are members that
/// are named, and `Call` is what a call names.
#[derive(Clone, Copy, Drop)]
pub enum Named {
    Kind(u32),
    Made(u32),
    Field(u32),
    Method(u32),
    Call { kind: InvokeKind, method: u32 },
}

/// Adds what a value names.
#[cycle(values)]
#[tactic(auto, using(crate::proofs::Names::array_names, crate::proofs::Names::annotation_names), unfolding(crate::specs::Names::value_names))]
fn add_value(out: &mut Vec<Named>, value: &EncValue) -> Result<(), AllocError>
    ensures { OnOk result (out.new.items ≡ out.old.items ++ value_names value.now) }
{
    match value {
        EncValue::Class(kind) => {
            out.push(Named::Kind(*kind))?;
            Ok(())
        }
        EncValue::Field(field) | EncValue::Enum(field) => {
            out.push(Named::Field(*field))?;
            Ok(())
        }
        EncValue::Method(method) => {
            out.push(Named::Method(*method))?;
            Ok(())
        }
        EncValue::Array(values) => add_values(out, values.as_slice()),
        EncValue::Annotation(note) => add_note(out, note),
        _ => Ok(()),
    }
}

/// Adds what the values name.
#[cycle(values)]
fn add_values(out: &mut Vec<Named>, values: &[EncValue]) -> Result<(), AllocError>
    ensures { OnOk result (out.new.items ≡ out.old.items ++ flat_map value_names values.now) }
{
    for value in values {
        add_value(out, value)?;
    }
    Ok(())
}

/// Adds what an element of an annotation names.
#[cycle(values)]
#[tactic(auto, using(crate::proofs::Names::element_names_are))]
fn add_element(out: &mut Vec<Named>, element: &Element) -> Result<(), AllocError>
    ensures { OnOk result (out.new.items ≡ out.old.items ++ element_names element.now) }
{
    add_value(out, &element.value)
}

/// Adds what the elements of an annotation name.
#[cycle(values)]
fn add_elements(out: &mut Vec<Named>, elements: &[Element]) -> Result<(), AllocError>
    ensures { OnOk result (out.new.items ≡ out.old.items ++ flat_map element_names elements.now) }
{
    for element in elements {
        add_element(out, element)?;
    }
    Ok(())
}

/// Adds what an annotation names, with its type.
#[cycle(values)]
fn add_note(out: &mut Vec<Named>, note: &Note) -> Result<(), AllocError>
    ensures { OnOk result (out.new.items ≡ out.old.items ++ note_names note.now) }
{
    out.push(Named::Kind(note.class))?;
    add_elements(out, note.elements.as_slice())?;
    Ok(())
}

/// Adds what annotations name.
pub fn add_marks(out: &mut Vec<Named>, marks: &[Mark]) -> Result<(), AllocError>
    ensures { OnOk result (out.new.items ≡ out.old.items ++ marks_names marks.now) }
{
    for mark in marks {
        add_note(out, &mark.note)?;
    }
    Ok(())
}

/// Adds what the first value of a field names.
pub fn add_first(out: &mut Vec<Named>, first: &Option<EncValue>) -> Result<(), AllocError>
    ensures { OnOk result (out.new.items ≡ out.old.items ++ first_names first.now) }
{
    match first {
        Some(value) => add_value(out, value),
        None => Ok(()),
    }
}

/// What an instruction names.
fn of_insn(insn: &Insn) -> Option<Named>
    ensures { result ≡ insn_name insn.now }
{
    match insn {
        Insn::ConstClass { kind, .. }
        | Insn::CheckCast { kind, .. }
        | Insn::InstanceOf { kind, .. }
        | Insn::NewArray { kind, .. }
        | Insn::FilledNewArray { kind, .. } => Some(Named::Kind(*kind)),
        Insn::NewInstance { kind, .. } => Some(Named::Made(*kind)),
        Insn::InstanceGet { field, .. }
        | Insn::InstancePut { field, .. }
        | Insn::StaticGet { field, .. }
        | Insn::StaticPut { field, .. } => Some(Named::Field(*field)),
        Insn::Invoke { kind, method, .. } => Some(Named::Call {
            kind: *kind,
            method: *method,
        }),
        _ => None,
    }
}

/// Adds what an instruction names.
fn add_insn(out: &mut Vec<Named>, insn: &Insn) -> Result<(), AllocError>
    ensures { OnOk result (out.new.items ≡ out.old.items ++ insn_names insn.now) }
{
    if let Some(named) = of_insn(insn) {
        out.push(named)?;
    }
    Ok(())
}

/// Adds what instructions name.
fn add_insns(out: &mut Vec<Named>, insns: &[Insn]) -> Result<(), AllocError>
    ensures { OnOk result (out.new.items ≡ out.old.items ++ flat_map insn_names insns.now) }
{
    for insn in insns {
        add_insn(out, insn)?;
    }
    Ok(())
}

/// Adds the type of a handler.
fn add_handler(out: &mut Vec<Named>, handler: &Handler) -> Result<(), AllocError>
    ensures { OnOk result (out.new.items ≡ out.old.items ++ handler_names handler.now) }
{
    out.push(Named::Kind(handler.kind))?;
    Ok(())
}

/// Adds the types of a region's handlers.
fn add_handlers(out: &mut Vec<Named>, handlers: &[Handler]) -> Result<(), AllocError>
    ensures { OnOk result (out.new.items ≡ out.old.items ++ flat_map handler_names handlers.now) }
{
    for handler in handlers {
        add_handler(out, handler)?;
    }
    Ok(())
}

/// Adds the types of the handlers of regions.
fn add_regions(out: &mut Vec<Named>, regions: &[Region]) -> Result<(), AllocError>
    ensures { OnOk result (out.new.items ≡ out.old.items ++ flat_map region_names regions.now) }
{
    for region in regions {
        add_handlers(out, region.handlers.as_slice())?;
    }
    Ok(())
}

/// Adds what a body names.
fn add_body(out: &mut Vec<Named>, body: &Body) -> Result<(), AllocError>
    ensures { OnOk result (out.new.items ≡ out.old.items ++ body_names body.now) }
{
    add_insns(out, body.insns.as_slice())?;
    add_regions(out, body.regions.as_slice())
}

/// Adds what a body names, if there is one.
fn add_code(out: &mut Vec<Named>, body: &Option<Body>) -> Result<(), AllocError>
    ensures { OnOk result (out.new.items ≡ out.old.items ++ code_names body.now) }
{
    match body {
        Some(body) => add_body(out, body),
        None => Ok(()),
    }
}

/// Adds what the annotations of parameters name.
fn add_parameter_marks(out: &mut Vec<Named>, lists: &[Seq<Mark>]) -> Result<(), AllocError>
    ensures { OnOk result (out.new.items ≡ out.old.items ++ flat_map marks_names lists.now) }
{
    for list in lists {
        add_marks(out, list.as_slice())?;
    }
    Ok(())
}

/// Adds what a method's annotations and its body name.
pub fn add_method(out: &mut Vec<Named>, method: &Method) -> Result<(), AllocError>
    ensures { OnOk result (out.new.items ≡ out.old.items ++ method_names method.now) }
{
    add_marks(out, method.marks.as_slice())?;
    add_parameter_marks(out, method.parameter_marks.as_slice())?;
    add_code(out, &method.body)
}
