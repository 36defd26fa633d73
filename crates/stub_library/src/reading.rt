//! A library from the bytes of a DEX file.

ghost use Rattle.std.specs.Prelude.{◌≡◌, ◌++◌, ◌∷◌, [], ◌==◌, map, filter, cond, slice_get, IfOk, IfErr, OnOk};
ghost use Rattle.dex_base.specs.Reading.{Gives};
ghost use Rattle.dex_read.specs.Counts.{CountsInFile};
ghost use Rattle.dex_read.specs.Faults.{is_free};
ghost use Rattle.program_model.specs.MemberRules.{is_direct};
ghost use Rattle.program_model.specs.Texts.{first_unit, type_text};
ghost use Rattle.stub_library.specs.Stubs.{is_virtual, declared_method, methods_of, class_of, library_of, library_at};

use crate::library::{Library, LibraryClass, LibraryMethod};
use crate::texts::{name_units, proto_units, string_units, type_units};
use dex_base::Text;
use dex_read::{DexFault, read_dex};
use program_model::{Class, Flags, Method, MethodName, Program};
use seq::Seq;
use std::alloc::{AllocError, Global};

/// The first unit, 0 where there is none.
fn first_unit(units: &[u16]) -> u16
    ensures { result ≡ first_unit units.now }
{
    match units.first() {
        Some(unit) => *unit,
        None => 0,
    }
}

/// Whether a method is virtual: neither static, private, nor named with a leading `<`.
#[tactic(auto, unfolding(program_model::specs::MemberRules::is_direct))]
fn is_virtual(program: &Program, method: &Method) -> bool
    ensures { result ≡ is_virtual program.now method.now }
{
    !((method.flags.has(Flags::STATIC) || method.flags.has(Flags::PRIVATE))
        || first_unit(name_units(program, method.name)) == 60)
}

/// The name and the proto of a method of the table.
fn named_method(
    alloc: Global,
    program: &Program,
    named: &MethodName,
) -> Result<LibraryMethod, AllocError>
    ensures { IfOk result (λ method. method ≡ declared_method program.now (Some named.now)) }
{
    Ok(LibraryMethod {
        name: Text::from_units(alloc, string_units(program, named.name))?,
        proto: Text::from_vec(proto_units(alloc, program, named.proto)?),
    })
}

/// The name and the proto of a method number, empty where there is none.
fn declared_method(
    alloc: Global,
    program: &Program,
    number: u32,
) -> Result<LibraryMethod, AllocError>
    ensures { IfOk result (λ method. method ≡ declared_method program.now (slice_get program.now.methods number)) }
{
    match program.methods.items.get(number as usize) {
        Some(named) => Ok(named_method(alloc, program, named)?),
        None => Ok(LibraryMethod {
            name: Text::from_vec(Vec::new(alloc)),
            proto: Text::from_vec(Vec::new(alloc)),
        }),
    }
}

/// Adds what is declared of a method, where it is virtual.
fn push_method(
    alloc: Global,
    program: &Program,
    method: &Method,
    out: &mut Vec<LibraryMethod>,
) -> Result<(), AllocError>
    ensures { OnOk result (out.new.items ≡ out.old.items ++ cond (is_virtual program.now method.now) (declared_method program.now (slice_get program.now.methods method.now.name) ∷ []) []) }
{
    if is_virtual(program, method) {
        out.push(declared_method(alloc, program, method.name)?)?;
    }
    Ok(())
}

/// What is declared of the virtual methods of a class.
fn methods_of(
    alloc: Global,
    program: &Program,
    methods: &[Method],
) -> Result<Vec<LibraryMethod>, AllocError>
    ensures { IfOk result (λ declared. declared.items ≡ methods_of program.now methods.now) }
{
    let mut declared = Vec::new(alloc);
    for method in methods {
        push_method(alloc, program, method, &mut declared)?;
    }
    Ok(declared)
}

/// Adds the descriptors of types.
fn push_types(
    alloc: Global,
    program: &Program,
    kinds: &[u32],
    out: &mut Vec<Text>,
) -> Result<(), AllocError>
    ensures { OnOk result (out.new.items ≡ out.old.items ++ map (type_text program.now) kinds.now) }
{
    for kind in kinds {
        out.push(Text::from_units(alloc, type_units(program, *kind))?)?;
    }
    Ok(())
}

/// The descriptors of the superclass and the interfaces of a class.
fn above_of(alloc: Global, program: &Program, class: &Class) -> Result<Vec<Text>, AllocError>
    ensures { IfOk result (λ above. above.items ≡ type_text program.now class.now.superclass ∷ map (type_text program.now) class.now.interfaces) }
{
    let mut above = Vec::new(alloc);
    above.push(Text::from_units(alloc, type_units(program, class.superclass))?)?;
    push_types(alloc, program, class.interfaces.as_slice(), &mut above)?;
    Ok(above)
}

/// What is declared of a class.
fn class_of(alloc: Global, program: &Program, class: &Class) -> Result<LibraryClass, AllocError>
    ensures { IfOk result (λ declared. declared ≡ class_of program.now class.now) }
{
    Ok(LibraryClass {
        name: Text::from_units(alloc, type_units(program, class.name))?,
        above: Seq::of_vec(above_of(alloc, program, class)?),
        methods: Seq::of_vec(methods_of(alloc, program, class.methods.as_slice())?),
    })
}

/// What is declared of the classes of a program.
fn library_of(alloc: Global, program: &Program) -> Result<Library, AllocError>
    ensures { IfOk result (λ library. library ≡ library_of program.now) }
{
    let mut classes = Vec::new(alloc);
    for class in program.classes.as_slice() {
        classes.push(class_of(alloc, program, class)?)?;
    }
    Ok(Library {
        classes: Seq::of_vec(classes),
    })
}

/// The classes and virtual methods that the bytes of a DEX file declare. The file is read whole, and is refused exactly
/// where `read_dex` refuses it, by the same fault. Its bodies are neither typed nor run.
pub fn read_library(alloc: Global, bytes: &[u8]) -> Result<Library, DexFault>
    ensures gives { Gives is_free (λ library. library) result (library_at bytes.now) }
    ensures counts { IfErr result CountsInFile }
{
    let program = read_dex(alloc, bytes)?;
    Ok(library_of(alloc, &program)?)
}
