//! The methods that a program calls on framework types.

ghost use Rattle.std.specs.Prelude.{◌≡◌, ◌++◌, flat_map, slice_get, IfOk, OnOk};
ghost use Rattle.hierarchy.specs.Shapes.{IsOf};
ghost use Rattle.stub_library.specs.Calling.{called_by, names_outside, keys_of_insn, keys_of_method, keys_of_class, AreCalled};

use crate::marks::marked;
use crate::open::is_framework;
use hierarchy::Hierarchy;
use insn_set::{Insn, InvokeKind};
use program_model::{Class, Method, Program};
use std::alloc::{AllocError, Global};

/// The method that a virtual or interface call names.
fn called_by(insn: &Insn) -> Option<u32>
    ensures { result ≡ called_by insn.now }
{
    match insn {
        Insn::Invoke {
            kind: InvokeKind::Virtual | InvokeKind::Interface,
            method,
            ..
        } => Some(*method),
        _ => None,
    }
}

/// Whether a method number names a method of a framework type other than `Ljava/lang/Object;`.
fn is_outside(program: &Program, hierarchy: &Hierarchy, method: u32) -> bool
    requires { IsOf program.now hierarchy.now }
    ensures { result ≡ names_outside program.now (slice_get program.now.methods method) }
{
    match program.methods.as_slice().get(method as usize) {
        Some(named) => is_framework(program, hierarchy, named.class),
        None => false,
    }
}

/// Adds the key of the framework method that an instruction calls.
fn add_insn(
    program: &Program,
    hierarchy: &Hierarchy,
    insn: &Insn,
    out: &mut Vec<u32>,
) -> Result<(), AllocError>
    requires { IsOf program.now hierarchy.now }
    ensures { OnOk result (out.new.items ≡ out.old.items ++ keys_of_insn program.now hierarchy.now insn.now) }
{
    if let Some(method) = called_by(insn) {
        if is_outside(program, hierarchy, method) {
            out.push(hierarchy.key_of_method(method))?;
        }
    }
    Ok(())
}

/// Adds the keys of the framework methods that instructions call.
fn add_code(
    program: &Program,
    hierarchy: &Hierarchy,
    insns: &[Insn],
    out: &mut Vec<u32>,
) -> Result<(), AllocError>
    requires { IsOf program.now hierarchy.now }
    ensures { OnOk result (out.new.items ≡ out.old.items ++ flat_map (keys_of_insn program.now hierarchy.now) insns.now) }
{
    for insn in insns {
        add_insn(program, hierarchy, insn, out)?;
    }
    Ok(())
}

/// Adds the keys of the framework methods that a method calls.
fn add_method(
    program: &Program,
    hierarchy: &Hierarchy,
    method: &Method,
    out: &mut Vec<u32>,
) -> Result<(), AllocError>
    requires { IsOf program.now hierarchy.now }
    ensures { OnOk result (out.new.items ≡ out.old.items ++ keys_of_method program.now hierarchy.now method.now) }
{
    if let Some(body) = &method.body {
        add_code(program, hierarchy, body.insns.as_slice(), out)?;
    }
    Ok(())
}

/// Adds the keys of the framework methods that methods call.
fn add_methods(
    program: &Program,
    hierarchy: &Hierarchy,
    methods: &[Method],
    out: &mut Vec<u32>,
) -> Result<(), AllocError>
    requires { IsOf program.now hierarchy.now }
    ensures { OnOk result (out.new.items ≡ out.old.items ++ flat_map (keys_of_method program.now hierarchy.now) methods.now) }
{
    for method in methods {
        add_method(program, hierarchy, method, out)?;
    }
    Ok(())
}

/// The keys of the framework methods that the code of classes calls.
fn called_keys(
    alloc: Global,
    program: &Program,
    hierarchy: &Hierarchy,
    classes: &[Class],
) -> Result<Vec<u32>, AllocError>
    requires { IsOf program.now hierarchy.now }
    ensures { IfOk result (λ keys. keys.items ≡ flat_map (keys_of_class program.now hierarchy.now) classes.now) }
{
    let mut keys = Vec::new(alloc);
    for class in classes {
        add_methods(program, hierarchy, class.methods.as_slice(), &mut keys)?;
    }
    Ok(keys)
}

/// For each key whether some virtual or interface call names a method with it on a framework type other than
/// `Ljava/lang/Object;`.
#[tactic(auto, using(crate::proofs::Calls::are_called))]
pub fn called_outside(
    alloc: Global,
    program: &Program,
    hierarchy: &Hierarchy,
) -> Result<Vec<bool>, AllocError>
    requires { IsOf program.now hierarchy.now }
    ensures { IfOk result (λ marks. AreCalled program.now hierarchy.now marks.items) }
{
    let keys = called_keys(alloc, program, hierarchy, program.classes.as_slice())?;
    let marks = marked(alloc, keys.as_slice(), program.methods.len())?;
    Ok(marks)
}
