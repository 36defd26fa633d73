//! The framework answers the innermost open call or field read.

ghost use Rattle.std.specs.Prelude.{◌≡◌, [], ℕ, true, List, Option, None, Some, Ok, length, IfOk, OnErr};
ghost use Rattle.std.specs.Option.{option_map};
ghost use Rattle.program_model.specs.declared.pass.Outside.{Outside};
ghost use Rattle.dalvik_defs.specs.Legal.{may_answer};
ghost use Rattle.dalvik_defs.specs.Moves.{answers, throws};
ghost use Rattle.dalvik_defs.specs.Names.{Text};
ghost use Rattle.dalvik_defs.specs.Outer.{outer_of};
ghost use Rattle.dalvik_defs.specs.Stack.{gives, unwinds};
ghost use Rattle.dalvik_defs.specs.declared.script.Given.{Given};
ghost use Rattle.dalvik_defs.specs.declared.script.Move.{Move};
ghost use Rattle.dalvik_defs.specs.declared.tables.Floats.{Floats};
ghost use Rattle.dalvik_lookups.specs.Facing.{run_face};
ghost use Rattle.dalvik_lookups.specs.Playing.{AreBoth, IsGift};
ghost use Rattle.dalvik_lookups.specs.Tables.{IsRight};
ghost use Rattle.dalvik_lookups.specs.Views.{type_text, IsKind};
ghost use Rattle.dalvik_lookups.specs.Walks.{IsKept};
ghost use Rattle.dalvik_lookups.specs.declared.lookups.Lookups.{Lookups};
ghost use Rattle.dalvik_state.specs.Drafts.{given_world};
ghost use Rattle.dalvik_state.specs.Giving.{IsGiven, IsGivenFine, TakesMaybe};
ghost use Rattle.dalvik_state.specs.Runs.{below_in, bodies_in, classes_in, setting_in, world_in, IsEvent, IsNext, IsUndone, IsUndoneWith};
ghost use Rattle.dalvik_state.specs.Views.{names_in, value_of};
ghost use Rattle.dalvik_lookups.specs.declared.memo.Memo.{Memo as OwnMemo};
ghost use Rattle.dalvik_state.specs.States.{below_top};
ghost use Rattle.dalvik_state.specs.declared.gifts.Gifts.{Gifts as OwnGifts};
ghost use Rattle.dalvik_state.specs.declared.world.World.{World as OwnWorld};
ghost use Rattle.dalvik_moves.specs.Moving.{FirstMaybe, IsMoving};
ghost use Rattle.dalvik_steps.specs.Entries.{AreGivenFine};
ghost use Rattle.dalvik_steps.specs.Flights.{HasFlightRoom, IsFlight};

use dalvik_defs::Event;
use dalvik_lookups::{Gift, Kind, Memo};
use dalvik_state::{Datum, Gifts, State, Tables, Taken, fits, may_throw};
use dalvik_steps::{Flight, Thrown, gives, land, plan};
use std::alloc::{AllocError, Global};

/// Whether an answer is right for a call or a read of a type: none of void, else a value that fits.
fn may_answer(
    tables: &Tables<'_>,
    memo: &mut Memo,
    state: &State<'_>,
    gifts: &Gifts,
    kind: Kind,
    answer: Option<(Gift, Taken)>,
) -> Result<bool, AllocError>
    ensures kept { IsRight tables.now.lookups → IsKept tables.now.lookups memo.old → IsGiven tables.now.lookups state.now.world gifts.now → IsKind tables.now.lookups.types kind → IsKept tables.now.lookups memo.new }
    ensures is { (o : Outside) (g : Option Given) → IsRight tables.now.lookups → IsKept tables.now.lookups memo.old → IsKind tables.now.lookups.types kind → FirstMaybe tables.now.lookups o state.now.world gifts.now g answer
        → IfOk result (λ b. b ≡ may_answer (run_face tables.now.lookups) (outer_of tables.now.lookups.program.now o) (world_in tables.now.lookups state.now) (type_text tables.now.lookups.types kind) g) }
{
    match answer {
        None => Ok(tables.lookups.types.is_void(kind)),
        Some(given) => fits(tables, memo, &state.world, gifts, given, kind),
    }
}

/// A given value beside what was taken of it.
#[tactic(auto, using(crate::proofs::Taken::beside_both, crate::proofs::Taken::beside_none, crate::proofs::Taken::beside_lone))]
fn beside(gift: Option<Gift>, taken: Option<Taken>) -> Option<(Gift, Taken)>
    ensures { (l : Lookups) (o : Outside) (w : OwnWorld) (old new : OwnGifts) (g : Option Given) → IsRight l → old.things.items ≡ [] → IsGiven l w old → AreBoth (IsGift l.types l.texts) g gift → TakesMaybe l o w old new g taken → FirstMaybe l o w new g result }
{
    match gift {
        Some(gift) => match taken {
            Some(taken) => Some((gift, taken)),
            None => None,
        },
        None => None,
    }
}

/// The value of what was taken.
fn datum_of(answer: Option<(Gift, Taken)>) -> Option<Datum>
    ensures { result ≡ option_map (λ t. t.1.datum) answer }
{
    match answer {
        Some((_, taken)) => Some(taken.datum),
        None => None,
    }
}

/// A legal answer is given to what waits for it.
fn answers_legally<'a>(
    alloc: Global,
    tables: &Tables<'a>,
    state: &mut State<'a>,
    gifts: Gifts,
    kind: Kind,
    value: Option<Datum>,
) -> Result<Option<Event>, AllocError>
    ensures ok { (o : Outside) (memo : OwnMemo) (script : List Move) (steps : ℕ) (owes : Option Kind) (first : Move) (rest : List Move) → IsMoving tables.now.lookups o memo script steps state.old owes first rest → IsGiven tables.now.lookups state.old.world gifts → AreGivenFine tables.now.lookups state.old.world gifts value
        → IfOk result (λ e. IsEvent tables.now.lookups steps script state.new e (gives (bodies_in tables.now.lookups) (type_text tables.now.lookups.types kind) (given_world (names_in tables.now.lookups) state.old.world gifts) (classes_in tables.now.lookups state.old) (option_map (value_of (names_in tables.now.lookups)) value) (below_in tables.now.lookups script state.old) rest)) }
    ensures err { (o : Outside) (memo : OwnMemo) (script : List Move) (steps : ℕ) (owes : Option Kind) (first : Move) (rest : List Move) → IsMoving tables.now.lookups o memo script steps state.old owes first rest → OnErr result (IsUndone tables.now.lookups steps state.old state.new) }
{
    gives(alloc, tables, state, gifts, kind, value)
}

/// The framework returns from what it owes, which is of a type.
fn answers_owed<'a>(
    alloc: Global,
    tables: &Tables<'a>,
    memo: &mut Memo,
    state: &mut State<'a>,
    kind: Kind,
    gift: Option<Gift>,
) -> Result<Option<Event>, AllocError>
    ensures ok { (o : Outside) (floats : Floats) (script : List Move) (steps : ℕ) (first : Move) (rest : List Move) (g : Option Given) → IsMoving tables.now.lookups o memo.old script steps state.old (Some kind) first rest → AreBoth (IsGift tables.now.lookups.types tables.now.lookups.texts) g gift
        → IfOk result (λ e. IsNext tables.now.lookups steps script memo.new state.new e (answers (setting_in tables.now.lookups o floats) (bodies_in tables.now.lookups) (world_in tables.now.lookups state.old) (classes_in tables.now.lookups state.old) (Some (type_text tables.now.lookups.types kind)) g (below_in tables.now.lookups script state.old) rest)) }
    ensures err { (o : Outside) (script : List Move) (steps : ℕ) (first : Move) (rest : List Move) (g : Option Given) → IsMoving tables.now.lookups o memo.old script steps state.old (Some kind) first rest → AreBoth (IsGift tables.now.lookups.types tables.now.lookups.texts) g gift → OnErr result (IsUndoneWith tables.now.lookups steps memo.new state.old state.new) }
{
    let mut gifts = Gifts::new(alloc);
    let taken = gifts.take_option(alloc, tables, &state.world, gift)?;
    let answer = beside(gift, taken);
    let legal = may_answer(tables, memo, state, &gifts, kind, answer)?;
    if legal {
        let value = datum_of(answer);
        answers_legally(alloc, tables, state, gifts, kind, value)
    } else {
        state.end();
        Ok(None)
    }
}

/// The framework returns from what it owes. Where it owes nothing, the run ends, and nothing is shown.
pub fn answers<'a>(
    alloc: Global,
    tables: &Tables<'a>,
    memo: &mut Memo,
    state: &mut State<'a>,
    owes: Option<Kind>,
    gift: Option<Gift>,
) -> Result<Option<Event>, AllocError>
    ensures silent { owes ≡ None → result ≡ Ok None }
    ensures ended { owes ≡ None → state.new.ended ≡ true }
    ensures ok { (o : Outside) (floats : Floats) (script : List Move) (steps : ℕ) (first : Move) (rest : List Move) (g : Option Given) → IsMoving tables.now.lookups o memo.old script steps state.old owes first rest → AreBoth (IsGift tables.now.lookups.types tables.now.lookups.texts) g gift
        → IfOk result (λ e. IsNext tables.now.lookups steps script memo.new state.new e (answers (setting_in tables.now.lookups o floats) (bodies_in tables.now.lookups) (world_in tables.now.lookups state.old) (classes_in tables.now.lookups state.old) (option_map (type_text tables.now.lookups.types) owes) g (below_in tables.now.lookups script state.old) rest)) }
    ensures err { (o : Outside) (script : List Move) (steps : ℕ) (first : Move) (rest : List Move) (g : Option Given) → IsMoving tables.now.lookups o memo.old script steps state.old owes first rest → AreBoth (IsGift tables.now.lookups.types tables.now.lookups.texts) g gift → OnErr result (IsUndoneWith tables.now.lookups steps memo.new state.old state.new) }
{
    match owes {
        Some(kind) => answers_owed(alloc, tables, memo, state, kind, gift),
        None => {
            state.end();
            Ok(None)
        }
    }
}

/// What is thrown goes down the stack below the framework's frame, as planned.
fn throws_planned(state: &mut State<'_>, gifts: Gifts, flight: Flight) -> Option<Event>
    ensures { (l : Lookups) (o : Outside) (memo : OwnMemo) (script : List Move) (steps : ℕ) (owes : Option Kind) (first : Move) (rest : List Move) (d : Datum) → IsMoving l o memo script steps state.old owes first rest → IsGiven l state.old.world gifts → IsGivenFine l state.old.world gifts d
        → IsFlight l (given_world (names_in l) state.old.world gifts) (below_top state.old.stack.items) (Thrown.Value d) flight → HasFlightRoom state.old.world (length gifts.things.items) flight
        → IsEvent l steps script state.new result (unwinds (run_face l) (bodies_in l) (given_world (names_in l) state.old.world gifts) (classes_in l state.old) (value_of (names_in l) d) (below_in l script state.old) rest) }
{
    gifts.give(&mut state.world);
    state.stack.pop();
    land(state, flight)
}

/// What may be thrown goes down the stack below the framework's frame.
fn throws_legally(
    alloc: Global,
    tables: &Tables<'_>,
    memo: &mut Memo,
    state: &mut State<'_>,
    gifts: Gifts,
    datum: Datum,
) -> Result<Option<Event>, AllocError>
    ensures ok { (o : Outside) (script : List Move) (steps : ℕ) (owes : Option Kind) (first : Move) (rest : List Move) → IsMoving tables.now.lookups o memo.old script steps state.old owes first rest → IsGiven tables.now.lookups state.old.world gifts → IsGivenFine tables.now.lookups state.old.world gifts datum
        → IfOk result (λ e. IsNext tables.now.lookups steps script memo.new state.new e (unwinds (run_face tables.now.lookups) (bodies_in tables.now.lookups) (given_world (names_in tables.now.lookups) state.old.world gifts) (classes_in tables.now.lookups state.old) (value_of (names_in tables.now.lookups) datum) (below_in tables.now.lookups script state.old) rest)) }
    ensures err { (o : Outside) (script : List Move) (steps : ℕ) (owes : Option Kind) (first : Move) (rest : List Move) → IsMoving tables.now.lookups o memo.old script steps state.old owes first rest → IsGiven tables.now.lookups state.old.world gifts → IsGivenFine tables.now.lookups state.old.world gifts datum → OnErr result (IsUndoneWith tables.now.lookups steps memo.new state.old state.new) }
{
    let below = state.stack.len().saturating_sub(1);
    let thrown = Thrown::Value(datum);
    let flight = plan(alloc, tables, memo, state, &gifts, below, thrown)?;
    Ok(throws_planned(state, gifts, flight))
}

/// The framework throws a value from what it owes, if the value may be thrown.
fn throws_owed(
    alloc: Global,
    tables: &Tables<'_>,
    memo: &mut Memo,
    state: &mut State<'_>,
    gift: Gift,
) -> Result<Option<Event>, AllocError>
    ensures ok { (o : Outside) (floats : Floats) (script : List Move) (steps : ℕ) (owes : Option Kind) (first : Move) (rest : List Move) (kind : Text) (g : Given) → IsMoving tables.now.lookups o memo.old script steps state.old owes first rest → IsGift tables.now.lookups.types tables.now.lookups.texts g gift
        → IfOk result (λ e. IsNext tables.now.lookups steps script memo.new state.new e (throws (setting_in tables.now.lookups o floats) (bodies_in tables.now.lookups) (world_in tables.now.lookups state.old) (classes_in tables.now.lookups state.old) (Some kind) g (below_in tables.now.lookups script state.old) rest)) }
    ensures err { (o : Outside) (script : List Move) (steps : ℕ) (owes : Option Kind) (first : Move) (rest : List Move) (g : Given) → IsMoving tables.now.lookups o memo.old script steps state.old owes first rest → IsGift tables.now.lookups.types tables.now.lookups.texts g gift → OnErr result (IsUndoneWith tables.now.lookups steps memo.new state.old state.new) }
{
    let mut gifts = Gifts::new(alloc);
    let taken = gifts.take(alloc, tables, &state.world, gift)?;
    let legal = may_throw(tables, memo, &state.world, &gifts, (gift, taken))?;
    if legal {
        throws_legally(alloc, tables, memo, state, gifts, taken.datum)
    } else {
        state.end();
        Ok(None)
    }
}

/// The framework throws from what it owes. Where it owes nothing, the run ends, and nothing is shown.
pub fn answers_by_throwing(
    alloc: Global,
    tables: &Tables<'_>,
    memo: &mut Memo,
    state: &mut State<'_>,
    owes: Option<Kind>,
    gift: Gift,
) -> Result<Option<Event>, AllocError>
    ensures silent { owes ≡ None → result ≡ Ok None }
    ensures ended { owes ≡ None → state.new.ended ≡ true }
    ensures ok { (o : Outside) (floats : Floats) (script : List Move) (steps : ℕ) (first : Move) (rest : List Move) (g : Given) → IsMoving tables.now.lookups o memo.old script steps state.old owes first rest → IsGift tables.now.lookups.types tables.now.lookups.texts g gift
        → IfOk result (λ e. IsNext tables.now.lookups steps script memo.new state.new e (throws (setting_in tables.now.lookups o floats) (bodies_in tables.now.lookups) (world_in tables.now.lookups state.old) (classes_in tables.now.lookups state.old) (option_map (type_text tables.now.lookups.types) owes) g (below_in tables.now.lookups script state.old) rest)) }
    ensures err { (o : Outside) (script : List Move) (steps : ℕ) (first : Move) (rest : List Move) (g : Given) → IsMoving tables.now.lookups o memo.old script steps state.old owes first rest → IsGift tables.now.lookups.types tables.now.lookups.texts g gift → OnErr result (IsUndoneWith tables.now.lookups steps memo.new state.old state.new) }
{
    match owes {
        Some(_) => throws_owed(alloc, tables, memo, state, gift),
        None => {
            state.end();
            Ok(None)
        }
    }
}
