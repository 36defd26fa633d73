//! The whole file.

ghost use Rattle.std.specs.Prelude.{◌≡◌, ◌+◌, ◌*◌, ◌^◌, ◌≤◌, ◌<◌, length, min, vec_len, IfOk, IfErr};
ghost use Rattle.dex_base.specs.Reading.{Gives};
ghost use Rattle.dex_pools.specs.Run.{run};
ghost use Rattle.dex_read.specs.Counts.{CountsInFile};
ghost use Rattle.dex_read.specs.Faults.{is_free};
ghost use Rattle.dex_read.specs.File.{class_in, table_at, classes_at, head_at, tables_with, tables_at, program_at};
ghost use Rattle.dex_read.specs.Tables.{sizes_in};
ghost use Rattle.dex_read.specs.Kept.{KeepsLimits};

use crate::below::{pools_of, word_of};
use crate::class_defs::read_class;
use crate::fault::DexFault;
use crate::header::{need, read_header};
use crate::members::{Budget, Source, letters_of};
use crate::standing::check_standing;
use dex_pools::{Pools, TableSizes};
use program_model::{Class, Program, Version};
use seq::Seq;
use std::alloc::Global;

/// How many items a file may have.
const MOST_ITEMS: u32 = 16_777_216;

/// How many bytes a class_def has.
const CLASS_DEF: usize = 32;

/// So many classes of the table at an offset.
fn class_list(
    alloc: Global,
    source: &Source,
    offset: usize,
    count: u32,
    budget: &mut Budget,
) -> Result<Vec<Class>, DexFault>
    requires { offset + 32 * count ≤ length source.now.bytes.now }
    ensures gives { Gives is_free (λ v. (v.items, budget.new)) result (run (class_in source.now.bytes.now source.now.program.now offset) 0 count budget.old) }
    ensures few { IfOk result (λ classes. vec_len classes < 2 ^ 32) }
    ensures counts { IfErr result CountsInFile }
{
    let mut classes = Vec::new(alloc);
    let mut units = Vec::new(alloc);
    for place in 0..count {
        let at = offset + CLASS_DEF * place as usize;
        let class = read_class(alloc, source, at, place, budget, &mut units)?;
        classes.push(class)?;
    }
    Ok(classes)
}

/// So many classes of the table at an offset, which does not pass the end.
#[tactic(auto, unfolding(crate::specs::File::table_at))]
fn table_of(
    alloc: Global,
    source: &Source,
    count: u32,
    offset: u32,
    budget: &mut Budget,
) -> Result<Vec<Class>, DexFault>
    ensures gives { Gives is_free (λ v. (v.items, budget.new)) result (table_at source.now.bytes.now source.now.program.now count offset budget.old) }
    ensures few { IfOk result (λ classes. vec_len classes < 2 ^ 32) }
    ensures counts { IfErr result CountsInFile }
{
    if count == 0 {
        Ok(Vec::new(alloc))
    } else {
        need(source.bytes, offset as usize, CLASS_DEF * count as usize)?;
        class_list(alloc, source, offset as usize, count, budget)
    }
}

/// The classes, whose table the header names at 96.
#[tactic(auto, unfolding(crate::specs::File::classes_at))]
fn classes_of(alloc: Global, source: &Source, budget: Budget) -> Result<Vec<Class>, DexFault>
    ensures gives { Gives is_free (λ v. v.items) result (classes_at source.now.bytes.now source.now.program.now budget) }
    ensures few { IfOk result (λ classes. vec_len classes < 2 ^ 32) }
    ensures counts { IfErr result CountsInFile }
{
    let mut budget = budget;
    let count = word_of(source.bytes, 96)?;
    let offset = word_of(source.bytes, 100)?;
    table_of(alloc, source, count, offset, &mut budget)
}

/// A program that has these tables and no class.
fn tables_with(alloc: Global, version: Version, pools: Pools) -> Program
    ensures { result ≡ tables_with version pools }
{
    let Pools {
        strings,
        types,
        protos,
        fields,
        methods,
    } = pools;
    Program {
        strings,
        types,
        protos,
        fields,
        methods,
        classes: Seq::new(alloc),
        version,
    }
}

/// The tables, and what the parameters of protos leave of the items.
#[tactic(auto, unfolding(crate::specs::File::tables_at))]
fn tables_of(alloc: Global, bytes: &[u8], version: Version) -> Result<(Program, u32), DexFault>
    ensures gives { Gives is_free (λ r. r) result (tables_at bytes.now version) }
    ensures counts { IfErr result CountsInFile }
{
    let mut left = MOST_ITEMS;
    let pools = pools_of(alloc, bytes, &mut left)?;
    Ok((tables_with(alloc, version, pools), left))
}

/// The version and the tables, and what is left of the items.
#[tactic(auto, unfolding(crate::specs::File::head_at))]
fn head_of(alloc: Global, bytes: &[u8]) -> Result<(Program, u32), DexFault>
    ensures gives { Gives is_free (λ r. r) result (head_at bytes.now) }
    ensures counts { IfErr result CountsInFile }
{
    let version = read_header(bytes)?;
    tables_of(alloc, bytes, version)
}

/// A length as a number of 32 bits, the greatest one where it has more.
fn capped(len: usize) -> u32
    ensures { result ≡ min len 4294967295 }
{
    if len < 4_294_967_295 {
        len as u32
    } else {
        4_294_967_295
    }
}

/// How many entries the tables have that values and code may name.
fn sizes_in(program: &Program) -> TableSizes
    ensures { result ≡ sizes_in program.now }
{
    TableSizes {
        strings: capped(program.strings.len()),
        types: capped(program.types.len()),
        fields: capped(program.fields.len()),
        methods: capped(program.methods.len()),
    }
}

/// The classes of the program that has these tables. `left` is what is left of the items.
fn read_classes(
    alloc: Global,
    bytes: &[u8],
    program: &Program,
    left: u32,
) -> Result<Vec<Class>, DexFault>
    ensures gives { Gives is_free (λ v. v.items) result (classes_at bytes.now program.now (record { items = left; cells = 0 })) }
    ensures few { IfOk result (λ classes. vec_len classes < 2 ^ 32) }
    ensures counts { IfErr result CountsInFile }
{
    let letters = letters_of(alloc, program)?;
    let source = Source {
        bytes,
        program,
        sizes: sizes_in(program),
        letters: &letters,
    };
    let budget = Budget {
        items: left,
        cells: 0,
    };
    classes_of(alloc, &source, budget)
}

/// The program with these classes.
fn filled(program: Program, classes: Vec<Class>) -> Program
    ensures { result ≡ record program { classes = classes.items } }
{
    let mut program = program;
    program.classes = Seq::of_vec(classes);
    program
}

/// The program that the bytes spell (Dalvik executable format, versions 035 and 037).
///
/// A fault names what is wrong where it stands. The header comes first, then the checksum, the sizes of the tables,
/// the tables, and the classes in order: each its class_def, its members, their code, its annotations and its first
/// values. Behind all classes comes the first interface that extends or implements a class of the file that is no
/// interface. The map, the signature and the order of the classes are not looked at, and debug information gives
/// lines or none, never a fault. `Limit` comes where the file has more than the counted limits allow.
#[tactic(auto, using(crate::proofs::Keeping::keeps), unfolding(crate::specs::File::program_at))]
pub fn read_dex(alloc: Global, bytes: &[u8]) -> Result<Program, DexFault>
    // The bytes decide the program, or the fault: the first one in this order.
    ensures gives { Gives is_free (λ program. program) result (program_at bytes.now) }
    // What is read keeps its limits.
    ensures limits { IfOk result KeepsLimits }
    // A limit that is passed is one of a quantity inside the file, and is passed by one.
    ensures counts { IfErr result CountsInFile }
{
    let (tables, left) = head_of(alloc, bytes)?;
    let classes = read_classes(alloc, bytes, &tables, left)?;
    let program = filled(tables, classes);
    check_standing(alloc, &program)?;
    Ok(program)
}
