//! The methods that nothing said of them alone lets the framework enter.

ghost use Rattle.std.specs.Prelude.{◌≡◌, ◌++◌, flat_map, OnOk, IfOk};
ghost use Rattle.hierarchy.specs.Shapes.{IsOf};
ghost use Rattle.stub_library.specs.Loosening as meant;

use crate::marks::{is_on, marked};
use hierarchy::Hierarchy;
use program_model::{Class, Flags, Method, Program, Version};
use std::alloc::{AllocError, Global};

/// Whether the version lets methods of the class be shut: in version 037 those of no interface.
fn is_free(program: &Program, class: &Class) -> bool
    ensures { result ≡ meant.is_free program.now class.now }
{
    match program.version {
        Version::V035 => true,
        Version::V037 => !class.flags.has(Flags::INTERFACE),
    }
}

/// Whether a method of a class may be shut as far as it alone says: it is virtual and not kept, every object need not
/// answer to it, no call names it on the framework, and in version 037 it stands in no interface.
fn is_loose(
    program: &Program,
    hierarchy: &Hierarchy,
    kept: &[bool],
    called: &[bool],
    class: &Class,
    method: &Method,
) -> bool
    requires { IsOf program.now hierarchy.now }
    ensures { result ≡ meant.is_loose_by program.now hierarchy.now kept.now called.now class.now method.now }
{
    let key = hierarchy.key_of_method(method.name);
    hierarchy.is_virtual(method)
        && !is_on(kept, method.name)
        && !hierarchy.is_key_of_object(key)
        && is_free(program, class)
        && !is_on(called, key)
}

/// Adds those methods of a class that may be shut as far as each alone says.
fn add_loose(
    program: &Program,
    hierarchy: &Hierarchy,
    kept: &[bool],
    called: &[bool],
    class: &Class,
    methods: &[Method],
    out: &mut Vec<u32>,
) -> Result<(), AllocError>
    requires { IsOf program.now hierarchy.now }
    ensures { OnOk result (out.new.items ≡ out.old.items ++ meant.loose_among program.now hierarchy.now kept.now called.now class.now methods.now) }
{
    for method in methods {
        if is_loose(program, hierarchy, kept, called, class, method) {
            out.push(method.name)?;
        }
    }
    Ok(())
}

/// Those methods of classes that may be shut as far as each alone says.
fn loose_numbers(
    alloc: Global,
    program: &Program,
    hierarchy: &Hierarchy,
    kept: &[bool],
    called: &[bool],
    classes: &[Class],
) -> Result<Vec<u32>, AllocError>
    requires { IsOf program.now hierarchy.now }
    ensures { IfOk result (λ numbers. numbers.items ≡ flat_map (meant.loose_numbers program.now hierarchy.now kept.now called.now) classes.now) }
{
    let mut numbers = Vec::new(alloc);
    for class in classes {
        let methods = class.methods.as_slice();
        add_loose(
            program,
            hierarchy,
            kept,
            called,
            class,
            methods,
            &mut numbers,
        )?;
    }
    Ok(numbers)
}

/// By method number, the methods that may be shut as far as each alone says.
pub fn loose(
    alloc: Global,
    program: &Program,
    hierarchy: &Hierarchy,
    kept: &[bool],
    called: &[bool],
) -> Result<Vec<bool>, AllocError>
    requires { IsOf program.now hierarchy.now }
    ensures { IfOk result (λ marks. marks.items ≡ meant.loose_marks program.now hierarchy.now kept.now called.now) }
{
    let classes = program.classes.as_slice();
    let numbers = loose_numbers(alloc, program, hierarchy, kept, called, classes)?;
    marked(alloc, numbers.as_slice(), program.methods.len())
}
