//! Going on in a frame.

ghost use Rattle.std.specs.Prelude.{◌≡◌, ◌<◌, ◌^◌, ℕ};
ghost use Rattle.std.specs.Option.{option_map};
ghost use Rattle.dalvik_defs.specs.ActNumber.{sets_number};
ghost use Rattle.dalvik_defs.specs.ActPlain.{branch, goes_to, move_slot};
ghost use Rattle.dalvik_defs.specs.Effect.{Goes, next, sets, sets_wide, write_item, write_slot};
ghost use Rattle.dalvik_numbers.specs.Kinds.{number_is};
ghost use Rattle.dalvik_state.specs.Frames.{Leaves};
ghost use Rattle.dalvik_lookups.specs.declared.lookups.Lookups.{Lookups};
ghost use Rattle.dalvik_state.specs.Views.{IsFine, IsFineFrame, names_in, value_of};
ghost use Rattle.dalvik_act.specs.Acted.{IsSafe, IsSafely};
ghost use Rattle.dalvik_act.specs.Acting.{Does, gives};

use dalvik_lookups::known;
use dalvik_numbers::Number;
use dalvik_state::{Datum, Effect, Frame};
use program_model::{Item, Slot};

/// Goes on with nothing written.
pub(crate) fn goes_on<'a>(frame: &mut Frame<'a>) -> Effect<'a>
    ensures left { Leaves result frame.old frame.new }
    ensures goes { result ≡ Effect.Goes }
    ensures does { Does (λ n w f. Goes w (next f)) frame.old frame.new result }
    ensures safe { IsSafely frame.old frame.new result }
{
    frame.next();
    Effect::Goes
}

/// Goes on with a register written.
pub(crate) fn sets<'a>(frame: &mut Frame<'a>, to: u16, datum: Datum) -> Effect<'a>
    ensures left { Leaves result frame.old frame.new }
    ensures goes { result ≡ Effect.Goes }
    ensures does { Does (λ n w f. sets w f to (value_of n datum)) frame.old frame.new result }
    ensures safe { (l : Lookups) (size : ℕ) → IsFine (names_in l) size datum → frame.old.position < 2 ^ 63 → IsFineFrame (names_in l) size frame.old → IsSafe l size frame.old frame.new result }
{
    frame.set(to, datum);
    frame.next();
    Effect::Goes
}

/// Goes on with a wide written.
pub(crate) fn sets_wide<'a>(frame: &mut Frame<'a>, to: u16, wide: u64) -> Effect<'a>
    ensures left { Leaves result frame.old frame.new }
    ensures does { Does (λ n w f. sets_wide w f to wide) frame.old frame.new result }
    ensures safe { IsSafely frame.old frame.new result }
{
    frame.set_wide(to, wide);
    frame.next();
    Effect::Goes
}

/// Goes on with what one place held in a register.
pub(crate) fn sets_slot<'a>(frame: &mut Frame<'a>, slot: Slot, to: u16, datum: Datum) -> Effect<'a>
    ensures left { Leaves result frame.old frame.new }
    ensures does { Does (λ n w f. Goes w (next (write_slot slot f to (value_of n datum)))) frame.old frame.new result }
    ensures safe { (l : Lookups) (size : ℕ) → IsFine (names_in l) size datum → frame.old.position < 2 ^ 63 → IsFineFrame (names_in l) size frame.old → IsSafe l size frame.old frame.new result }
{
    frame.set_slot(slot, to, datum);
    frame.next();
    Effect::Goes
}

/// Goes on with what an item of an array or a field held in a register.
pub(crate) fn sets_item<'a>(frame: &mut Frame<'a>, item: Item, to: u16, datum: Datum) -> Effect<'a>
    ensures left { Leaves result frame.old frame.new }
    ensures does { Does (λ n w f. Goes w (next (write_item item f to (value_of n datum)))) frame.old frame.new result }
    ensures safe { (l : Lookups) (size : ℕ) → IsFine (names_in l) size datum → frame.old.position < 2 ^ 63 → IsFineFrame (names_in l) size frame.old → IsSafe l size frame.old frame.new result }
{
    frame.set_item(item, to, datum);
    frame.next();
    Effect::Goes
}

/// Goes to a target, or on where there is none.
pub(crate) fn goes_to<'a>(frame: &mut Frame<'a>, target: Option<u32>) -> Effect<'a>
    ensures left { Leaves result frame.old frame.new }
    ensures does { Does (λ n w f. goes_to target w f) frame.old frame.new result }
    ensures safe { IsSafely frame.old frame.new result }
{
    match target {
        Some(target) => {
            frame.go(target);
            Effect::Goes
        }
        None => goes_on(frame),
    }
}

/// Goes to a target where a test holds, else on.
pub(crate) fn branches<'a>(frame: &mut Frame<'a>, holds: bool, target: u32) -> Effect<'a>
    ensures left { Leaves result frame.old frame.new }
    ensures does { Does (λ n w f. branch holds w f target) frame.old frame.new result }
    ensures safe { IsSafely frame.old frame.new result }
{
    if holds {
        frame.go(target);
        Effect::Goes
    } else {
        goes_on(frame)
    }
}

/// Copies one or two registers, which are read before they are written, and goes on.
pub(crate) fn moves<'a>(frame: &mut Frame<'a>, slot: Slot, to: u16, from: u16) -> Effect<'a>
    ensures left { Leaves result frame.old frame.new }
    ensures does { Does (λ n w f. Goes w (next (move_slot slot f to from))) frame.old frame.new result }
    ensures safe { IsSafely frame.old frame.new result }
{
    let datum = frame.get(from);
    match slot {
        Slot::Wide => moves_pair(frame, to, from),
        Slot::Word | Slot::Object => sets(frame, to, datum),
    }
}

/// Copies two registers and goes on.
fn moves_pair<'a>(frame: &mut Frame<'a>, to: u16, from: u16) -> Effect<'a>
    ensures left { Leaves result frame.old frame.new }
    ensures does { Does (λ n w f. Goes w (next (move_slot Slot.Wide f to from))) frame.old frame.new result }
    ensures safe { IsSafely frame.old frame.new result }
{
    let low = frame.get(from);
    let high = frame.get_second(from);
    frame.set_pair(to, low, high);
    frame.next();
    Effect::Goes
}

/// Goes on with a number written.
fn sets_number<'a>(frame: &mut Frame<'a>, to: u16, number: Number) -> Effect<'a>
    ensures left { Leaves result frame.old frame.new }
    ensures does { Does (λ n w f. sets_number (number_is number) w f to) frame.old frame.new result }
    ensures safe { IsSafely frame.old frame.new result }
{
    match number {
        Number::OneWord(word) => sets(frame, to, Datum::Word(word)),
        Number::OneWide(wide) => sets_wide(frame, to, wide),
    }
}

/// Goes on with a number written; without one a division by 0 throws.
pub(crate) fn gives_number<'a>(frame: &mut Frame<'a>, to: u16, number: Option<Number>) -> Effect<'a>
    ensures left { Leaves result frame.old frame.new }
    ensures does { Does (λ n w f. gives (option_map number_is number) w f to) frame.old frame.new result }
    ensures safe { IsSafely frame.old frame.new result }
{
    match number {
        Some(number) => sets_number(frame, to, number),
        None => Effect::Faults(known::ARITHMETIC_EXCEPTION),
    }
}
