//! How many cells the bodies of a program have.

ghost use Rattle.std.specs.Prelude.{◌≡◌, sum_by};
ghost use Rattle.program_model.specs.Cells.{capped, entries_of, body_cells, method_cells, class_cells, cells_of};

use crate::body::Body;
use crate::program::{Class, Method, Program};
use insn_set::Insn;

/// How many entries the table of a switch or of an array has.
fn table_entries(insn: &Insn) -> u64
    ensures { result ≡ entries_of insn.now }
{
    match insn {
        Insn::FillArray { items, .. } => items.len() as u64,
        Insn::PackedSwitch { targets, .. } | Insn::SparseSwitch { targets, .. } => {
            targets.len() as u64
        }
        _ => 0,
    }
}

/// How many entries the tables of the instructions have.
fn all_entries(insns: &[Insn]) -> u64
    ensures { result ≡ capped (sum_by entries_of insns.now) }
{
    let mut total: u64 = 0;
    for insn in insns {
        total = total.saturating_add(table_entries(insn));
    }
    total
}

/// The cells of one body: its registers and one more for each instruction, and an entry of a table each. The greatest
/// number of 64 bits stands for all above it. It takes no memory.
pub fn count_body_cells(body: &Body) -> u64
    ensures { result ≡ capped (body_cells body.now) }
{
    let rows = (u64::from(body.registers) + 1).saturating_mul(body.insns.len() as u64);
    rows.saturating_add(all_entries(body.insns.as_slice()))
}

/// The cells of a method, none where it has no code.
fn count_method_cells(method: &Method) -> u64
    ensures { result ≡ capped (method_cells method.now) }
{
    match &method.body {
        Some(body) => count_body_cells(body),
        None => 0,
    }
}

/// The cells of a class.
fn count_class_cells(class: &Class) -> u64
    ensures { result ≡ capped (class_cells class.now) }
{
    let mut total: u64 = 0;
    for method in class.methods.as_slice() {
        total = total.saturating_add(count_method_cells(method));
    }
    total
}

/// The cells of a program, as `count_body_cells` counts them, over all bodies. It takes no memory.
pub fn count_cells(program: &Program) -> u64
    ensures { result ≡ capped (cells_of program.now) }
{
    let mut total: u64 = 0;
    for class in program.classes.as_slice() {
        total = total.saturating_add(count_class_cells(class));
    }
    total
}
