//! What the framework does when its frame is on top of the stack: the move that waits there, else the next one of the
//! script. A move that isn't legal, or the want of one, ends the run.

ghost use Rattle.std.specs.Prelude.{◌≡◌, ◌-◌, ◌<◌, ◌^◌, ℕ, List, Option, true, None, Ok, Some, length, slice_get, IfOk, OnErr};
ghost use Rattle.std.specs.Option.{option_and_then, option_copied, option_map};
ghost use Rattle.program_model.specs.declared.pass.Outside.{Outside};
ghost use Rattle.dalvik_defs.specs.Moves.{framework_turn, moves};
ghost use Rattle.dalvik_defs.specs.declared.script.Move.{Move};
ghost use Rattle.dalvik_defs.specs.declared.tables.Floats.{Floats};
ghost use Rattle.dalvik_lookups.specs.Playing.{ArePlays, IsPlay};
ghost use Rattle.dalvik_lookups.specs.Views.{type_text};
ghost use Rattle.dalvik_state.specs.Runs.{below_in, bodies_in, classes_in, script_in, setting_in, world_in, IsNext, IsReach, IsRun, IsUndoneWith};
ghost use Rattle.dalvik_state.specs.States.{move_of};
ghost use Rattle.dalvik_state.specs.declared.state.Waiting.TheVariants as waiting;
ghost use Rattle.dalvik_moves.specs.Moving.{play_of, touches_array, IsTurned, IsMoving, IsTaking};

use crate::answering::{answers, answers_by_throwing};
use crate::entering::{enter, make};
use crate::touching::{array_get, array_length, array_put, reads, writes};
use dalvik_defs::Event;
use dalvik_lookups::{Kind, Memo, Play};
use dalvik_state::{State, Tables};
use std::alloc::{AllocError, Global};

/// A move on an array. None other is given.
fn touches_array(
    alloc: Global,
    tables: &Tables<'_>,
    memo: &mut Memo,
    state: &mut State<'_>,
    play: &Play,
) -> Result<Option<Event>, AllocError>
    ensures ok { (o : Outside) (floats : Floats) (script : List Move) (steps : ℕ) (owes : Option Kind) (first : Move) (rest : List Move) → IsMoving tables.now.lookups o memo.old script steps state.old owes first rest → IsPlay tables.now.lookups.program.now tables.now.lookups.types tables.now.lookups.texts first play.now → touches_array play.now ≡ true
        → IfOk result (λ e. IsNext tables.now.lookups steps script memo.new state.new e (moves (setting_in tables.now.lookups o floats) (bodies_in tables.now.lookups) (world_in tables.now.lookups state.old) (classes_in tables.now.lookups state.old) (option_map (type_text tables.now.lookups.types) owes) first (below_in tables.now.lookups script state.old) rest)) }
    ensures err { (o : Outside) (script : List Move) (steps : ℕ) (owes : Option Kind) (first : Move) (rest : List Move) → IsMoving tables.now.lookups o memo.old script steps state.old owes first rest → IsPlay tables.now.lookups.program.now tables.now.lookups.types tables.now.lookups.texts first play.now → OnErr result (IsUndoneWith tables.now.lookups steps memo.new state.old state.new) }
{
    match play {
        Play::ArrayGet { on, place } => array_get(alloc, tables, state, *on, *place),
        Play::ArrayPut { on, place, value } => {
            array_put(alloc, tables, memo, state, *on, *place, *value)
        }
        Play::ArrayLength { on } => array_length(alloc, tables, state, *on),
        _ => Ok(None),
    }
}

/// The move that waits with the framework's frame on top; `owes` is the type of what that frame owes.
fn plays<'a>(
    alloc: Global,
    tables: &Tables<'a>,
    memo: &mut Memo,
    state: &mut State<'a>,
    owes: Option<Kind>,
    play: &Play,
) -> Result<Option<Event>, AllocError>
    ensures ok { (o : Outside) (floats : Floats) (script : List Move) (steps : ℕ) (first : Move) (rest : List Move) → IsMoving tables.now.lookups o memo.old script steps state.old owes first rest → IsPlay tables.now.lookups.program.now tables.now.lookups.types tables.now.lookups.texts first play.now
        → IfOk result (λ e. IsNext tables.now.lookups steps script memo.new state.new e (moves (setting_in tables.now.lookups o floats) (bodies_in tables.now.lookups) (world_in tables.now.lookups state.old) (classes_in tables.now.lookups state.old) (option_map (type_text tables.now.lookups.types) owes) first (below_in tables.now.lookups script state.old) rest)) }
    ensures err { (o : Outside) (script : List Move) (steps : ℕ) (first : Move) (rest : List Move) → IsMoving tables.now.lookups o memo.old script steps state.old owes first rest → IsPlay tables.now.lookups.program.now tables.now.lookups.types tables.now.lookups.texts first play.now → OnErr result (IsUndoneWith tables.now.lookups steps memo.new state.old state.new) }
{
    match play {
        Play::Enter { found, values } => {
            enter(alloc, tables, memo, state, *found, values.as_slice())
        }
        Play::Make { class } => make(alloc, tables, memo, state, *class),
        Play::Return { value } => answers(alloc, tables, memo, state, owes, *value),
        Play::Throw { value } => answers_by_throwing(alloc, tables, memo, state, owes, *value),
        Play::Get { field, on } => reads(alloc, tables, memo, state, *field, *on),
        Play::Put { field, on, value } => {
            writes(alloc, tables, memo, state, *field, *on, *value)
        }
        Play::ArrayGet { .. } | Play::ArrayPut { .. } | Play::ArrayLength { .. } => {
            touches_array(alloc, tables, memo, state, play)
        }
    }
}

/// The play at a place of the script.
fn play_at<'b>(tables: &'b Tables<'_>, place: usize) -> Option<&'b Play>
    ensures { option_copied result ≡ slice_get tables.now.plays.items place }
{
    tables.plays.as_slice().get(place)
}

/// The play of the move that waits with the framework's frame.
fn waiting_play<'b>(tables: &'b Tables<'_>, pending: Option<usize>) -> Option<&'b Play>
    ensures { option_copied result ≡ play_of tables.now.plays.items pending }
{
    match pending {
        Some(place) => play_at(tables, place),
        None => None,
    }
}

/// The framework's frame on top waits with the move at a place of the script, or with none, and another move comes next.
fn set_turn(state: &mut State<'_>, pending: Option<usize>, next: usize)
    ensures { IsTurned pending next state.old state.new }
{
    state.set_pending(pending);
    state.next = next;
}

/// The next move of the script is taken and made. Without memory it comes next as before.
fn takes<'a>(
    alloc: Global,
    tables: &Tables<'a>,
    memo: &mut Memo,
    state: &mut State<'a>,
    owes: Option<Kind>,
    pending: Option<usize>,
    play: &Play,
) -> Result<Option<Event>, AllocError>
    ensures ok { (o : Outside) (floats : Floats) (script : List Move) (steps : ℕ) (first : Move) (rest : List Move) → IsTaking tables.now.lookups o memo.old script steps state.old owes pending first rest → IsPlay tables.now.lookups.program.now tables.now.lookups.types tables.now.lookups.texts first play.now
        → IfOk result (λ e. IsNext tables.now.lookups steps script memo.new state.new e (moves (setting_in tables.now.lookups o floats) (bodies_in tables.now.lookups) (world_in tables.now.lookups state.old) (classes_in tables.now.lookups state.old) (option_map (type_text tables.now.lookups.types) owes) first (below_in tables.now.lookups script state.old) rest)) }
    ensures err { (o : Outside) (script : List Move) (steps : ℕ) (first : Move) (rest : List Move) → IsTaking tables.now.lookups o memo.old script steps state.old owes pending first rest → IsPlay tables.now.lookups.program.now tables.now.lookups.types tables.now.lookups.texts first play.now → OnErr result (IsUndoneWith tables.now.lookups steps memo.new state.old state.new) }
{
    let next = state.next;
    set_turn(state, Some(next), next.saturating_add(1));
    match plays(alloc, tables, memo, state, owes, play) {
        Ok(event) => Ok(event),
        Err(fault) => {
            set_turn(state, pending, next);
            Err(fault)
        }
    }
}

/// The next move of the script, where none waits with the framework's frame on top. Without one the run ends.
fn takes_next<'a>(
    alloc: Global,
    tables: &Tables<'a>,
    memo: &mut Memo,
    state: &mut State<'a>,
    owes: Option<Kind>,
    pending: Option<usize>,
) -> Result<Option<Event>, AllocError>
    ensures silent { slice_get tables.now.plays.items state.old.next ≡ None → result ≡ Ok None }
    ensures ended { slice_get tables.now.plays.items state.old.next ≡ None → state.new.ended ≡ true }
    ensures ok { (o : Outside) (floats : Floats) (script : List Move) (steps : ℕ) → IsRun tables.now.lookups memo.old steps state.old → IsReach tables.now.lookups o → ArePlays tables.now.lookups.program.now tables.now.lookups.types tables.now.lookups.texts script tables.now.plays.items → length tables.now.plays.items < 2 ^ 64 → slice_get state.old.stack.items (length state.old.stack.items - 1) ≡ Some (waiting.Outside owes pending)
        → IfOk result (λ e. IsNext tables.now.lookups steps script memo.new state.new e (framework_turn (setting_in tables.now.lookups o floats) (bodies_in tables.now.lookups) (world_in tables.now.lookups state.old) (classes_in tables.now.lookups state.old) (option_map (type_text tables.now.lookups.types) owes) None (below_in tables.now.lookups script state.old) (script_in script state.old))) }
    ensures err { (o : Outside) (script : List Move) (steps : ℕ) → IsRun tables.now.lookups memo.old steps state.old → IsReach tables.now.lookups o → ArePlays tables.now.lookups.program.now tables.now.lookups.types tables.now.lookups.texts script tables.now.plays.items → length tables.now.plays.items < 2 ^ 64 → slice_get state.old.stack.items (length state.old.stack.items - 1) ≡ Some (waiting.Outside owes pending)
        → OnErr result (IsUndoneWith tables.now.lookups steps memo.new state.old state.new) }
{
    match play_at(tables, state.next) {
        Some(play) => takes(alloc, tables, memo, state, owes, pending, play),
        None => {
            state.end();
            Ok(None)
        }
    }
}

/// The framework's turn, with its frame on top of the stack: it makes the move that waits there, else the next one of the
/// script, and does what that move does by names. Where there is none, the run ends, and nothing is shown. `owes` is the
/// type of what the frame owes, and `pending` the place in the script of the move that waits. The only error is want of
/// memory, and then nothing has been done.
pub fn moves<'a>(
    alloc: Global,
    tables: &Tables<'a>,
    memo: &mut Memo,
    state: &mut State<'a>,
    owes: Option<Kind>,
    pending: Option<usize>,
) -> Result<Option<Event>, AllocError>
    ensures silent { play_of tables.now.plays.items pending ≡ None → slice_get tables.now.plays.items state.old.next ≡ None → result ≡ Ok None }
    ensures ended { play_of tables.now.plays.items pending ≡ None → slice_get tables.now.plays.items state.old.next ≡ None → state.new.ended ≡ true }
    ensures ok { (o : Outside) (floats : Floats) (script : List Move) (steps : ℕ) → IsRun tables.now.lookups memo.old steps state.old → IsReach tables.now.lookups o → ArePlays tables.now.lookups.program.now tables.now.lookups.types tables.now.lookups.texts script tables.now.plays.items → slice_get state.old.stack.items (length state.old.stack.items - 1) ≡ Some (waiting.Outside owes pending)
        → IfOk result (λ e. IsNext tables.now.lookups steps script memo.new state.new e (framework_turn (setting_in tables.now.lookups o floats) (bodies_in tables.now.lookups) (world_in tables.now.lookups state.old) (classes_in tables.now.lookups state.old) (option_map (type_text tables.now.lookups.types) owes) (move_of script pending) (below_in tables.now.lookups script state.old) (script_in script state.old))) }
    ensures err { (o : Outside) (script : List Move) (steps : ℕ) → IsRun tables.now.lookups memo.old steps state.old → IsReach tables.now.lookups o → ArePlays tables.now.lookups.program.now tables.now.lookups.types tables.now.lookups.texts script tables.now.plays.items → slice_get state.old.stack.items (length state.old.stack.items - 1) ≡ Some (waiting.Outside owes pending)
        → OnErr result (IsUndoneWith tables.now.lookups steps memo.new state.old state.new) }
{
    let _count = tables.plays.len();
    match waiting_play(tables, pending) {
        Some(play) => plays(alloc, tables, memo, state, owes, play),
        None => takes_next(alloc, tables, memo, state, owes, pending),
    }
}
