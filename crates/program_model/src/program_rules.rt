//! What a program has to be.

ghost use Rattle.std.specs.Prelude.{◌≡◌, nat_le};
ghost use Rattle.std.specs.List.{list_all};
ghost use Rattle.program_model.specs.Cells.{cells_of};
ghost use Rattle.program_model.specs.Items.{items_of};
ghost use Rattle.program_model.specs.MemberRules.{class_fits};
ghost use Rattle.program_model.specs.ProgramRules.{is_well_formed};

use crate::cells::count_cells;
use crate::interface_rules::interfaces_stand_free;
use crate::items::count_items;
use crate::limits::Counted;
use crate::member_rules::class_fits;
use crate::program::Program;
use crate::table_rules::{keeps, tables_fit};

/// Whether the bodies have no more cells than they may.
#[tactic(auto, using(crate::proofs::Capped::within_cap))]
fn has_few_cells(program: &Program) -> bool
    ensures { result ≡ nat_le (cells_of program.now) 67108864 }
{
    keeps(Counted::Cells, count_cells(program))
}

/// Whether the lists have no more items than they may.
#[tactic(auto, using(crate::proofs::Capped::within_cap))]
fn has_few_items(program: &Program) -> bool
    ensures { result ≡ nat_le (items_of program.now) 16777216 }
{
    keeps(Counted::Items, count_items(program))
}

/// Whether each class is what it has to be.
fn classes_fit(program: &Program) -> bool
    ensures { result ≡ list_all (class_fits program.now) program.now.classes }
{
    program
        .classes
        .as_slice()
        .iter()
        .all(|class| class_fits(program, class))
}

/// Whether the program is one that a file can spell, its class graph apart: whether a class is defined twice or is its
/// own ancestor is not looked at.
///
/// Every number is below the size of its table, no table has two equal entries, and tables, texts, cells and items keep
/// their limits. Types are descriptors, shorties are those of their protos, no field is of type `V`. Members stand in
/// order and under their own class; methods have code where they are neither abstract nor native; first values are of
/// their fields' types; annotations ascend and nest 64 deep at most. Frames have room for the arguments; branches and
/// handlers go to positions where they may; regions lie in order and apart; lines are none or one for each position.
///
/// No interface stands on a class of the program that is none.
///
/// A table that ascends is gone through once, and so is a body; an entry out of order is compared with each before it. For
/// each type that an interface stands on, the classes are gone through.
/// It takes no memory (Dalvik executable format, and Dalvik bytecode).
#[tactic(auto, unfolding(crate::specs::ProgramRules::is_well_formed))]
pub fn well_formed(program: &Program) -> bool
    ensures { result ≡ is_well_formed program.now }
{
    tables_fit(program)
        && ((has_few_cells(program) && (has_few_items(program) && interfaces_stand_free(program)))
            && classes_fit(program))
}
