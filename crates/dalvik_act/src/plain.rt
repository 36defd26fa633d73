//! What an instruction does: moves, constants, ends, monitors, types, branches (Dalvik bytecode, "Summary of bytecode
//! set").

ghost use Rattle.std.specs.Prelude.{◌≡◌, ◌<◌, ◌^◌, ◌||◌, ℕ, false, slice_get, IfOk, IsTrue, OnErr};
ghost use Rattle.dalvik_state.specs.Frames.{IsSame, Leaves, is_null_in, number_in};
ghost use Rattle.dalvik_defs.specs.ActPlain.{is_instance, packed_target, switch_target};
ghost use Rattle.dalvik_defs.specs.Arith.{signed};
ghost use Rattle.dalvik_lookups.specs.Facing.{run_face};
ghost use Rattle.dalvik_lookups.specs.Views.{type_text, IsNamed};
ghost use Rattle.dalvik_lookups.specs.Walks.{IsKept};
ghost use Rattle.dalvik_lookups.specs.declared.lookups.Lookups.{Lookups};
ghost use Rattle.dalvik_state.specs.Views.{IsFine, IsFineFrame, names_in, value_of, world_of};
ghost use Rattle.dalvik_act.specs.Acted.{ActsUnder, Fits, IsAsking, IsFineEffect, IsSafe, IsSafely, IsTested};
ghost use Rattle.dalvik_act.specs.Acting.{Acts, ActsFine, ActsLocked, ActsNow, ActsTabled, Does, ExitsIn, IsPlaced, Guards, are_keys, casts_by, is_constant, is_end, is_monitor, is_move, is_switch, is_test, is_type_test, passes_in};

use crate::going::{branches, goes_on, goes_to, moves, sets, sets_slot, sets_wide};
use dalvik_lookups::{Kind, Memo, known};
use dalvik_numbers::{is_before, is_not_behind};
use dalvik_state::{Datum, Effect, Frame, Tables, World};
use program_model::{Insn, Test};
use std::alloc::AllocError;

/// Nop, the moves, goto.
pub fn act_moves<'a>(frame: &mut Frame<'a>, insn: &'a Insn) -> Effect<'a>
    ensures left { Leaves result frame.old frame.new }
    ensures acts { IsTrue (is_move insn.now) → Acts insn.now frame.old frame.new result }
    ensures safe { IsSafely frame.old frame.new result }
{
    match insn {
        Insn::Nop => goes_on(frame),
        Insn::Move { slot, to, from } => moves(frame, *slot, *to, *from),
        Insn::MoveResult { slot, to } => {
            let datum = frame.result;
            sets_slot(frame, *slot, *to, datum)
        }
        Insn::MoveException { to } => {
            let datum = frame.caught;
            sets(frame, *to, datum)
        }
        Insn::Goto { target } => goes_to(frame, Some(*target)),
        _ => Effect::Stuck,
    }
}

/// The constants.
pub fn act_constants<'a>(tables: &Tables<'a>, frame: &mut Frame<'a>, insn: &'a Insn) -> Effect<'a>
    ensures left { Leaves result frame.old frame.new }
    ensures acts { IsTrue (is_constant insn.now) → ActsTabled tables.now insn.now frame.old frame.new result }
    ensures safe { IsNamed tables.now.lookups → IsPlaced tables.now.lookups.program.now insn.now → (size : ℕ) → frame.old.position < 2 ^ 63
        → IsFineFrame (names_in tables.now.lookups) size frame.old → IsSafe tables.now.lookups size frame.old frame.new result }
{
    match insn {
        Insn::Const { to, value } => sets(frame, *to, Datum::Word(value.cast_unsigned())),
        Insn::ConstWide { to, value } => sets_wide(frame, *to, value.cast_unsigned()),
        Insn::ConstString { to, string } => {
            let number = tables.lookups.string(*string);
            sets(frame, *to, Datum::Literal(number))
        }
        Insn::ConstClass { to, kind } => {
            let class = tables.class_constant(*kind);
            sets(frame, *to, class)
        }
        _ => Effect::Stuck,
    }
}

/// What ends a frame: returns and throws.
pub fn act_ends<'a>(frame: &Frame<'a>, insn: &'a Insn) -> Effect<'a>
    ensures acts { IsTrue (is_end insn.now) → ActsNow insn.now frame.now result }
    ensures fine { (l : Lookups) (size : ℕ) → IsFineFrame (names_in l) size frame.now → IsFineEffect l size result }
{
    match insn {
        Insn::ReturnVoid => Effect::Gives(None),
        Insn::Return { slot: _, from } => Effect::Gives(Some(frame.get(*from))),
        Insn::Throw { on } => {
            let datum = frame.get(*on);
            unless_null(datum, Effect::Throws(datum))
        }
        _ => Effect::Stuck,
    }
}

/// The effect, unless the value is null.
pub fn unless_null<'a>(datum: Datum, effect: Effect<'a>) -> Effect<'a>
    ensures acts { Guards datum effect.entry result }
    ensures fine { (l : Lookups) (size : ℕ) → (is_null_in datum ≡ false → IsFineEffect l size effect.entry) → IsFineEffect l size result }
{
    if datum.is_null() {
        Effect::Faults(known::NULL_POINTER)
    } else {
        effect
    }
}

/// Frees a monitor that is held.
fn exits<'a>(world: &World, datum: Datum) -> Effect<'a>
    ensures acts { ExitsIn world.now datum result }
    ensures fine { (l : Lookups) (size : ℕ) → IsFine (names_in l) size datum → is_null_in datum ≡ false → IsFineEffect l size result }
{
    if world.locked(datum) == 0 {
        Effect::Faults(known::BAD_MONITOR)
    } else {
        Effect::Unlocks(datum)
    }
}

/// The monitors.
pub fn act_monitors<'a>(world: &World, frame: &Frame<'a>, insn: &'a Insn) -> Effect<'a>
    ensures acts { IsTrue (is_monitor insn.now) → ActsLocked insn.now world.now frame.now frame.now result }
    ensures fine { (l : Lookups) (size : ℕ) → IsFineFrame (names_in l) size frame.now → IsFineEffect l size result }
{
    match insn {
        Insn::MonitorEnter { on } => {
            let datum = frame.get(*on);
            unless_null(datum, Effect::Locks(datum))
        }
        Insn::MonitorExit { on } => {
            let datum = frame.get(*on);
            unless_null(datum, exits(world, datum))
        }
        _ => Effect::Stuck,
    }
}

/// Whether a value isn't null and of a type under another.
pub fn is_instance(
    tables: &Tables<'_>,
    memo: &mut Memo,
    world: &World,
    datum: Datum,
    kind: Kind,
) -> Result<bool, AllocError>
    ensures answer { IsTested tables.now.lookups memo.old world.now datum kind
        → IfOk result (λ holds. holds ≡ is_instance (run_face tables.now.lookups).under (world_of (names_in tables.now.lookups) world.now) (value_of (names_in tables.now.lookups) datum) (type_text tables.now.lookups.types kind)) }
    ensures kept { IsTested tables.now.lookups memo.old world.now datum kind → IsKept tables.now.lookups memo.new }
{
    if datum.is_null() {
        return Ok(false);
    }
    match world.kind_of(datum) {
        Some(own) => tables.lookups.is_under(memo, own, kind),
        None => Ok(false),
    }
}

/// Whether a value may be cast: it is null or an instance.
fn may_cast(datum: Datum, holds: bool) -> bool
    ensures { result ≡ (is_null_in datum || holds) }
{
    datum.is_null() || holds
}

/// Goes on where a value may be cast.
fn casts<'a>(frame: &mut Frame<'a>, passes: bool) -> Effect<'a>
    ensures left { Leaves result frame.old frame.new }
    ensures does { Does (λ n w f. casts_by passes w f) frame.old frame.new result }
    ensures safe { IsSafely frame.old frame.new result }
{
    if passes {
        goes_on(frame)
    } else {
        Effect::Faults(known::BAD_CAST)
    }
}

/// Casts and tests of types.
pub fn act_types<'a>(
    tables: &Tables<'a>,
    memo: &mut Memo,
    world: &World,
    frame: &mut Frame<'a>,
    insn: &'a Insn,
) -> Result<Effect<'a>, AllocError>
    ensures ok { IfOk result (λ effect. Leaves effect frame.old frame.new) }
    ensures err { OnErr result (IsSame frame.old frame.new) }
    ensures acts { IsTrue (is_type_test insn.now) → IsAsking tables.now.lookups memo.old world.now frame.old → Fits tables.now.lookups.program.now insn.now
        → IfOk result (ActsUnder tables.now.lookups insn.now world.now world.now frame.old frame.new) }
    ensures safe { IfOk result (IsSafely frame.old frame.new) }
    ensures memo { IsAsking tables.now.lookups memo.old world.now frame.old → Fits tables.now.lookups.program.now insn.now → IsKept tables.now.lookups memo.new }
{
    match insn {
        Insn::CheckCast { on, kind } => {
            let datum = frame.get(*on);
            let kind = tables.lookups.kind(*kind);
            let holds = is_instance(tables, memo, world, datum, kind)?;
            Ok(casts(frame, may_cast(datum, holds)))
        }
        Insn::InstanceOf { to, from, kind } => {
            let datum = frame.get(*from);
            let kind = tables.lookups.kind(*kind);
            let holds = is_instance(tables, memo, world, datum, kind)?;
            Ok(sets(frame, *to, Datum::truth(holds)))
        }
        _ => Ok(Effect::Stuck),
    }
}

/// Whether two values pass a test.
fn passes(test: Test, a: Datum, b: Datum) -> bool
    ensures { result ≡ passes_in test a b }
{
    match test {
        Test::Eq => a.is(b),
        Test::Ne => !a.is(b),
        Test::Lt => is_before(a.word(), b.word()),
        Test::Ge => is_not_behind(b.word(), a.word()),
        Test::Gt => is_before(b.word(), a.word()),
        Test::Le => is_not_behind(a.word(), b.word()),
    }
}

/// The target of the operand's distance from the first key, in 32 bits that wrap.
fn packed_target(word: u32, first: i32, targets: &[u32]) -> Option<u32>
    ensures { result ≡ packed_target word first targets.now }
{
    targets
        .get(word.wrapping_sub(first.cast_unsigned()) as usize)
        .copied()
}

/// The target at a place.
fn target_at(targets: &[u32], place: usize) -> Option<u32>
    ensures { result ≡ slice_get targets.now place }
{
    targets.get(place).copied()
}

/// The operand of a switch.
fn key_of(datum: Datum) -> i32
    ensures { result ≡ signed false (number_in datum) }
{
    datum.word().cast_signed()
}

/// The target of the key that is the operand; the keys ascend.
fn sparse_target(key: i32, keys: &[i32], targets: &[u32]) -> Option<u32>
    ensures { IsTrue (are_keys keys.now targets.now) → result ≡ switch_target key keys.now targets.now }
{
    match keys.binary_search(&key) {
        Ok(place) => target_at(targets, place),
        Err(_) => None,
    }
}

/// Branches on a test.
pub fn act_tests<'a>(frame: &mut Frame<'a>, insn: &'a Insn) -> Effect<'a>
    ensures left { Leaves result frame.old frame.new }
    ensures acts { IsTrue (is_test insn.now) → ActsFine insn.now frame.old frame.new result }
    ensures safe { IsSafely frame.old frame.new result }
{
    match insn {
        Insn::If { test, a, b, target } => {
            let holds = passes(*test, frame.get(*a), frame.get(*b));
            branches(frame, holds, *target)
        }
        Insn::IfZero { test, a, target } => {
            let holds = passes(*test, frame.get(*a), Datum::NULL);
            branches(frame, holds, *target)
        }
        _ => Effect::Stuck,
    }
}

/// Switches.
pub fn act_switches<'a>(frame: &mut Frame<'a>, insn: &'a Insn) -> Effect<'a>
    ensures left { Leaves result frame.old frame.new }
    ensures acts { IsTrue (is_switch insn.now) → Acts insn.now frame.old frame.new result }
    ensures safe { IsSafely frame.old frame.new result }
{
    match insn {
        Insn::PackedSwitch { on, first, targets } => {
            let target = packed_target(frame.get(*on).word(), *first, targets.as_slice());
            goes_to(frame, target)
        }
        Insn::SparseSwitch { on, keys, targets } => {
            let key = key_of(frame.get(*on));
            let target = sparse_target(key, keys.as_slice(), targets.as_slice());
            goes_to(frame, target)
        }
        _ => Effect::Stuck,
    }
}
