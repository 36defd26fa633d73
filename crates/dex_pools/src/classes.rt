//! Marks what classes name.

ghost use Rattle.std.specs.Prelude.{◌≡◌};
ghost use Rattle.std.specs.List.{flat_map};
ghost use Rattle.dex_pools.specs.Used.{marked, insn_name, insn_names, handler_names, region_names, body_names, kind_names, marks_names, first_names, code_names, source_names, field_names, method_names, class_names, program_names};

use crate::used::{Named, Used};
use crate::walk::{walk_marks, walk_value};
use program_model::{Body, Class, EncValue, Field, Handler, Insn, Mark, Method, Program, Region};
use seq::Seq;

/// What an instruction names.
fn insn_name(insn: &Insn) -> Option<Named>
    ensures { result ≡ insn_name insn.now }
{
    match insn {
        Insn::ConstString { string, .. } => Some(Named::Text(*string)),
        Insn::ConstClass { kind, .. }
        | Insn::CheckCast { kind, .. }
        | Insn::InstanceOf { kind, .. }
        | Insn::NewInstance { kind, .. }
        | Insn::NewArray { kind, .. }
        | Insn::FilledNewArray { kind, .. } => Some(Named::Kind(*kind)),
        Insn::InstanceGet { field, .. }
        | Insn::InstancePut { field, .. }
        | Insn::StaticGet { field, .. }
        | Insn::StaticPut { field, .. } => Some(Named::Field(*field)),
        Insn::Invoke { method, .. } => Some(Named::Method(*method)),
        _ => None,
    }
}

/// Marks what an instruction names.
fn walk_insn(used: &mut Used, insn: &Insn)
    ensures { used.new ≡ marked used.old (insn_names insn.now) }
{
    if let Some(name) = insn_name(insn) {
        used.mark(name);
    }
}

/// Marks what instructions name.
fn walk_insns(used: &mut Used, insns: &[Insn])
    ensures { used.new ≡ marked used.old (flat_map insn_names insns.now) }
{
    for insn in insns {
        walk_insn(used, insn);
    }
}

/// Marks the type that a handler is for.
fn walk_handler(used: &mut Used, handler: &Handler)
    ensures { used.new ≡ marked used.old (handler_names handler.now) }
{
    used.mark(Named::Kind(handler.kind));
}

/// Marks the types that handlers are for.
fn walk_handlers(used: &mut Used, handlers: &[Handler])
    ensures { used.new ≡ marked used.old (flat_map handler_names handlers.now) }
{
    for handler in handlers {
        walk_handler(used, handler);
    }
}

/// Marks the types that the handlers of a region are for.
fn walk_region(used: &mut Used, region: &Region)
    ensures { used.new ≡ marked used.old (region_names region.now) }
{
    walk_handlers(used, region.handlers.as_slice());
}

/// Marks the types that the handlers of regions are for.
fn walk_regions(used: &mut Used, regions: &[Region])
    ensures { used.new ≡ marked used.old (flat_map region_names regions.now) }
{
    for region in regions {
        walk_region(used, region);
    }
}

/// Marks what a body names.
#[tactic(auto, using(crate::proofs::Names::marked_append), unfolding(crate::specs::Used::body_names))]
fn walk_body(used: &mut Used, body: &Body)
    ensures { used.new ≡ marked used.old (body_names body.now) }
{
    walk_insns(used, body.insns.as_slice());
    walk_regions(used, body.regions.as_slice());
}

/// Marks what a body names, if there is one.
fn walk_code(used: &mut Used, body: &Option<Body>)
    ensures { used.new ≡ marked used.old (code_names body.now) }
{
    if let Some(body) = body {
        walk_body(used, body);
    }
}

/// Marks a type.
fn walk_kind(used: &mut Used, kind: u32)
    ensures { used.new ≡ marked used.old (kind_names kind) }
{
    used.mark(Named::Kind(kind));
}

/// Marks types.
fn walk_kinds(used: &mut Used, kinds: &[u32])
    ensures { used.new ≡ marked used.old (flat_map kind_names kinds.now) }
{
    for kind in kinds {
        walk_kind(used, *kind);
    }
}

/// Marks what a first value names, if there is one.
fn walk_first(used: &mut Used, first: &Option<EncValue>)
    ensures { used.new ≡ marked used.old (first_names first.now) }
{
    if let Some(value) = first {
        walk_value(used, value);
    }
}

/// Marks what a field names.
#[tactic(auto, using(crate::proofs::Names::marked_append), unfolding(crate::specs::Used::field_names))]
fn walk_field(used: &mut Used, field: &Field)
    ensures { used.new ≡ marked used.old (field_names field.now) }
{
    used.mark(Named::Field(field.name));
    walk_first(used, &field.first);
    walk_marks(used, field.marks.as_slice());
}

/// Marks what fields name.
fn walk_fields(used: &mut Used, fields: &[Field])
    ensures { used.new ≡ marked used.old (flat_map field_names fields.now) }
{
    for field in fields {
        walk_field(used, field);
    }
}

/// Marks what the annotations of parameters name.
fn walk_parameters(used: &mut Used, parameters: &[Seq<Mark>])
    ensures { used.new ≡ marked used.old (flat_map marks_names parameters.now) }
{
    for marks in parameters {
        walk_marks(used, marks.as_slice());
    }
}

/// Marks what a method names.
#[tactic(auto, using(crate::proofs::Names::marked_append), unfolding(crate::specs::Used::method_names))]
fn walk_method(used: &mut Used, method: &Method)
    ensures { used.new ≡ marked used.old (method_names method.now) }
{
    used.mark(Named::Method(method.name));
    walk_marks(used, method.marks.as_slice());
    walk_parameters(used, method.parameter_marks.as_slice());
    walk_code(used, &method.body);
}

/// Marks what methods name.
fn walk_methods(used: &mut Used, methods: &[Method])
    ensures { used.new ≡ marked used.old (flat_map method_names methods.now) }
{
    for method in methods {
        walk_method(used, method);
    }
}

/// Marks the name of a source file, if there is one.
fn walk_source(used: &mut Used, source: Option<u32>)
    ensures { used.new ≡ marked used.old (source_names source) }
{
    if let Some(source) = source {
        used.mark(Named::Text(source));
    }
}

/// Marks what a class names.
#[tactic(auto, using(crate::proofs::Names::marked_append), unfolding(crate::specs::Used::class_names))]
fn walk_class(used: &mut Used, class: &Class)
    ensures { used.new ≡ marked used.old (class_names class.now) }
{
    used.mark(Named::Kind(class.name));
    used.mark(Named::Kind(class.superclass));
    walk_kinds(used, class.interfaces.as_slice());
    walk_source(used, class.source);
    walk_marks(used, class.marks.as_slice());
    walk_fields(used, class.fields.as_slice());
    walk_methods(used, class.methods.as_slice());
}

/// Marks what classes name.
fn walk_classes(used: &mut Used, classes: &[Class])
    ensures { used.new ≡ marked used.old (flat_map class_names classes.now) }
{
    for class in classes {
        walk_class(used, class);
    }
}

/// Marks what the classes of a program name.
pub fn walk_program(used: &mut Used, program: &Program)
    ensures { used.new ≡ marked used.old (program_names program.now) }
{
    walk_classes(used, program.classes.as_slice());
}
