//! What an instruction does in its frame. Reads come before writes, and a form that throws writes no register.

ghost use Rattle.std.specs.Prelude.{ℕ, IfOk, IsTrue, OnErr};
ghost use Rattle.dalvik_defs.specs.declared.tables.Floats.{Floats};
ghost use Rattle.dalvik_numbers.specs.Rows.{IsTable};
ghost use Rattle.dalvik_lookups.specs.Walks.{IsKept};
ghost use Rattle.dalvik_lookups.specs.declared.lookups.Lookups.{Lookups};
ghost use Rattle.dalvik_state.specs.Frames.{IsSame, Leaves};
ghost use Rattle.dalvik_state.specs.Views.{IsFineFrame, names_in};
ghost use Rattle.dalvik_state.specs.Worlds.{LeavesWorld, IsSameWorld, IsShort, spots_of};
ghost use Rattle.dalvik_act.specs.Acted.{ActsUnder, Fits, IsActed, IsActing, IsAsking, IsFineEffect, IsSafeIn, NamesArray};
ghost use Rattle.dalvik_act.specs.Acting.{ActsIn, ActsLocked, ActsNamed, ActsNow, ActsTabled, ActsWith, is_array_form, is_constant, is_exact, is_field, is_field_put, is_get, is_length, is_monitor, is_outward, is_still, is_tested};

use crate::arrays::{act_arrays, act_items};
use crate::numbers::act_numbers;
use crate::plain::{
    act_constants, act_ends, act_monitors, act_moves, act_switches, act_tests, act_types,
    unless_null,
};
use dalvik_lookups::Memo;
use dalvik_state::{Effect, Frame, Tables, World, stored};
use program_model::Insn;
use std::alloc::{AllocError, Global};

/// Fields, calls and new objects, which the program and the framework are asked about.
fn act_outward<'a>(frame: &Frame<'a>, insn: &'a Insn) -> Effect<'a>
    ensures acts { IsTrue (is_outward insn.now) → ActsNow insn.now frame.now result }
    ensures fine { (l : Lookups) (size : ℕ) → Fits l.program.now insn.now → IsFineFrame (names_in l) size frame.now → IsFineEffect l size result }
{
    match insn {
        Insn::NewInstance { to, kind } => Effect::Makes {
            to: *to,
            kind: *kind,
        },
        Insn::Invoke { kind, method, args } => Effect::Calls {
            kind: *kind,
            method: *method,
            args: args.as_slice(),
        },
        _ => act_fields(frame, insn),
    }
}

/// Reads and writes of fields.
fn act_fields<'a>(frame: &Frame<'a>, insn: &'a Insn) -> Effect<'a>
    ensures acts { IsTrue (is_field insn.now) → ActsNow insn.now frame.now result }
    ensures fine { (l : Lookups) (size : ℕ) → Fits l.program.now insn.now → IsFineFrame (names_in l) size frame.now → IsFineEffect l size result }
{
    match insn {
        Insn::InstanceGet {
            item,
            to,
            on,
            field,
        } => {
            let object = frame.get(*on);
            let reads = Effect::Reads {
                item: *item,
                to: *to,
                field: *field,
                on: Some(object),
            };
            unless_null(object, reads)
        }
        Insn::StaticGet { item, to, field } => Effect::Reads {
            item: *item,
            to: *to,
            field: *field,
            on: None,
        },
        _ => act_puts(frame, insn),
    }
}

/// Writes of fields.
fn act_puts<'a>(frame: &Frame<'a>, insn: &'a Insn) -> Effect<'a>
    ensures acts { IsTrue (is_field_put insn.now) → ActsNow insn.now frame.now result }
    ensures fine { (l : Lookups) (size : ℕ) → Fits l.program.now insn.now → IsFineFrame (names_in l) size frame.now → IsFineEffect l size result }
{
    match insn {
        Insn::InstancePut {
            item,
            from,
            on,
            field,
        } => {
            let object = frame.get(*on);
            let writes = Effect::Writes {
                field: *field,
                on: Some(object),
                value: stored(*item, frame.get(*from)),
            };
            unless_null(object, writes)
        }
        Insn::StaticPut { item, from, field } => Effect::Writes {
            field: *field,
            on: None,
            value: stored(*item, frame.get(*from)),
        },
        _ => Effect::Stuck,
    }
}

/// What an instruction does, by its form.
fn act_by_form<'a>(
    alloc: Global,
    tables: &Tables<'a>,
    memo: &mut Memo,
    world: &mut World,
    frame: &mut Frame<'a>,
    insn: &'a Insn,
) -> Result<Effect<'a>, AllocError>
    ensures ok { IfOk result (λ effect. Leaves effect frame.old frame.new) }
    ensures err { OnErr result (IsSame frame.old frame.new) }
    ensures measures { IsTrue (is_length insn.now) → IsShort (spots_of world.old) → IfOk result (ActsWith insn.now world.old world.new frame.old frame.new) }
    ensures acts { IsTrue (is_exact insn.now) → IfOk result (ActsIn tables.now.floats insn.now frame.old frame.new) }
    ensures lost { OnErr result (IsSameWorld world.old world.new) }
    ensures kept { IfOk result (λ effect. LeavesWorld effect world.old world.new) }
    ensures still { IsTrue (is_still insn.now) → IsSameWorld world.old world.new }
    ensures constants { IsTrue (is_constant insn.now) → IfOk result (ActsTabled tables.now insn.now frame.old frame.new) }
    ensures arrays { IsTrue (is_array_form insn.now) → IfOk result (ActsNamed tables.now insn.now world.old world.new frame.old frame.new) }
    ensures gets { IsTrue (is_get insn.now) → IfOk result (ActsWith insn.now world.old world.new frame.old frame.new) }
    ensures tests { IsTrue (is_tested insn.now) → IsAsking tables.now.lookups memo.old world.old frame.old → Fits tables.now.lookups.program.now insn.now
        → IfOk result (ActsUnder tables.now.lookups insn.now world.old world.new frame.old frame.new) }
    ensures safe { IsAsking tables.now.lookups memo.old world.old frame.old → Fits tables.now.lookups.program.now insn.now → NamesArray tables.now.lookups.program.now insn.now
        → IfOk result (IsSafeIn tables.now.lookups world.old world.new frame.old frame.new) }
    ensures memo { IsAsking tables.now.lookups memo.old world.old frame.old → Fits tables.now.lookups.program.now insn.now → IsKept tables.now.lookups memo.new }
    ensures locks { IsTrue (is_monitor insn.now) → IfOk result (ActsLocked insn.now world.old frame.old frame.new) }
{
    match insn {
        Insn::Nop
        | Insn::Move { .. }
        | Insn::MoveResult { .. }
        | Insn::MoveException { .. }
        | Insn::Goto { .. } => Ok(act_moves(frame, insn)),
        Insn::Const { .. }
        | Insn::ConstWide { .. }
        | Insn::ConstString { .. }
        | Insn::ConstClass { .. } => Ok(act_constants(tables, frame, insn)),
        Insn::Cmp { .. } | Insn::Unary { .. } | Insn::Binary { .. } | Insn::Literal { .. } => Ok(
            act_numbers(&tables.floats, frame, insn),
        ),
        Insn::If { .. } | Insn::IfZero { .. } => Ok(act_tests(frame, insn)),
        Insn::PackedSwitch { .. } | Insn::SparseSwitch { .. } => Ok(act_switches(frame, insn)),
        Insn::ReturnVoid | Insn::Return { .. } | Insn::Throw { .. } => Ok(act_ends(frame, insn)),
        Insn::MonitorEnter { .. } | Insn::MonitorExit { .. } => {
            Ok(act_monitors(world, frame, insn))
        }
        Insn::CheckCast { .. } | Insn::InstanceOf { .. } => {
            let effect = act_types(tables, memo, world, frame, insn)?;
            Ok(effect)
        }
        Insn::ArrayLength { .. }
        | Insn::NewArray { .. }
        | Insn::FilledNewArray { .. }
        | Insn::FillArray { .. } => act_arrays(alloc, tables, world, frame, insn),
        Insn::ArrayGet { .. } | Insn::ArrayPut { .. } => {
            act_items(tables, memo, world, frame, insn)
        }
        Insn::NewInstance { .. }
        | Insn::Invoke { .. }
        | Insn::InstanceGet { .. }
        | Insn::InstancePut { .. }
        | Insn::StaticGet { .. }
        | Insn::StaticPut { .. } => Ok(act_outward(frame, insn)),
    }
}

/// What an instruction of a run does in its frame and to the heap: all that a run keeps is kept. What doesn't go on in the
/// frame leaves it as it was, and so does want of memory, the only error.
pub fn act<'a>(
    alloc: Global,
    tables: &Tables<'a>,
    memo: &mut Memo,
    world: &mut World,
    frame: &mut Frame<'a>,
    insn: &'a Insn,
) -> Result<Effect<'a>, AllocError>
    ensures ok { IfOk result (λ effect. Leaves effect frame.old frame.new) }
    ensures err { OnErr result (IsSame frame.old frame.new) }
    ensures lost { OnErr result (IsSameWorld world.old world.new) }
    ensures kept { IfOk result (λ effect. LeavesWorld effect world.old world.new) }
    ensures acted { (floats : Floats) (steps : ℕ) → IsTable tables.now.floats floats → IsActing tables.now.lookups memo.old steps world.old frame.old insn.now
        → IfOk result (IsActed tables.now.lookups floats steps insn.now world.old world.new frame.old frame.new) }
    ensures memo { (steps : ℕ) → IsActing tables.now.lookups memo.old steps world.old frame.old insn.now → IsKept tables.now.lookups memo.new }
{
    act_by_form(alloc, tables, memo, world, frame, insn)
}
