//! The framework reads and writes kept fields and exposed arrays.

ghost use Rattle.std.specs.Prelude.{◌≡◌, ◌<◌, ℕ, true, List, Option, None, Some, length, slice_set, IfOk, OnErr, OnOk};
ghost use Rattle.std.specs.Option.{option_map};
ghost use Rattle.program_model.specs.declared.pass.Outside.{Outside};
ghost use Rattle.dalvik_defs.specs.Items.{item_of_type, stored};
ghost use Rattle.dalvik_defs.specs.Legal.{on_fits};
ghost use Rattle.dalvik_defs.specs.Moves.{array_get, array_length, array_put, field_value, goes, key_of, reads, shows_value, with_field, writes, writes_item};
ghost use Rattle.dalvik_defs.specs.Names.{Text};
ghost use Rattle.dalvik_defs.specs.Outer.{outer_of};
ghost use Rattle.dalvik_defs.specs.State.{put_thing, quiet, Items, On};
ghost use Rattle.dalvik_defs.specs.declared.names.FieldKey.{FieldKey};
ghost use Rattle.dalvik_defs.specs.declared.script.Given.{Given};
ghost use Rattle.dalvik_defs.specs.declared.script.Move.{Move};
ghost use Rattle.dalvik_defs.specs.declared.tables.Floats.{Floats};
ghost use Rattle.dalvik_lookups.specs.Facing.{run_face};
ghost use Rattle.dalvik_lookups.specs.Playing.{AreBoth, IsField, IsGift};
ghost use Rattle.dalvik_lookups.specs.Tables.{IsRight};
ghost use Rattle.dalvik_lookups.specs.Views.{type_text};
ghost use Rattle.dalvik_lookups.specs.declared.lookups.Lookups.{Lookups as OwnLookups};
ghost use Rattle.dalvik_lookups.specs.declared.memo.Memo.{Memo as OwnMemo};
ghost use Rattle.dalvik_state.specs.Drafts.{given_world};
ghost use Rattle.dalvik_state.specs.Giving.{AreGiven, IsGiven, IsGivenFine};
ghost use Rattle.dalvik_state.specs.Runs.{classes_in, setting_in, world_in, IsEvent, IsNext, IsReach, IsUndone, IsUndoneWith};
ghost use Rattle.dalvik_state.specs.States.{HasRoom, HasSpace, IsSound};
ghost use Rattle.dalvik_state.specs.Views.{names_in, value_of, values_of, world_of, IsFine};
ghost use Rattle.dalvik_state.specs.Worlds.{Array, shape_at, spots_of};
ghost use Rattle.dalvik_steps.specs.Entries.{AreGivenFine};
ghost use Rattle.dalvik_steps.specs.Reaching.{FineMaybe, HasFieldRoom, IsPut, IsShuffled};
ghost use Rattle.program_model.specs.declared.program.Field.{Field as OwnField};
ghost use Rattle.dalvik_moves.specs.Touching.{is_new, kind_there, HasRoomFor, IsGot};
ghost use Rattle.dalvik_moves.specs.Moving.{exposed_in, freed_in, item_in, length_in, IsKeptField, IsMoving, KeptMaybe};

use crate::finishing::done;
use dalvik_defs::{Event, Shown};
use dalvik_lookups::{FieldAt, Gift, Kind, Memo, known};
use dalvik_state::{
    Datum, Gifts, State, Tables, Taken, Thing, World, fits, length_word, on_fits, stored, zero_of,
};
use dalvik_steps::{field_room, instance_value, put_ready, put_static, shows_given, static_value};
use program_model::Field;
use std::alloc::{AllocError, Global};
use std::collections::HashMap;
use std::mem::replace;

/// What is shown is an answer.
fn answer_of(shown: Option<Shown>) -> Option<Event>
    ensures { result ≡ option_map (λ s. Event.Answer s) shown }
{
    match shown {
        Some(value) => Some(Event::Answer { value }),
        None => None,
    }
}

/// Shows a value of a type that there is as an answer.
fn shows_answer(
    alloc: Global,
    tables: &Tables<'_>,
    state: &mut State<'_>,
    gifts: Gifts,
    kind: Kind,
    datum: Datum,
) -> Result<Option<Event>, AllocError>
    ensures ok { (o : Outside) (memo : OwnMemo) (script : List Move) (steps : ℕ) (owes : Option Kind) (first : Move) (rest : List Move) → IsMoving tables.now.lookups o memo script steps state.old owes first rest → IsGiven tables.now.lookups state.old.world gifts → IsGivenFine tables.now.lookups state.old.world gifts datum
        → IfOk result (λ e. IsEvent tables.now.lookups steps script state.new e (shows_value (given_world (names_in tables.now.lookups) state.old.world gifts) (classes_in tables.now.lookups state.old) (type_text tables.now.lookups.types kind) (Some (value_of (names_in tables.now.lookups) datum)) (freed_in tables.now.lookups script state.old) rest)) }
    ensures err { (o : Outside) (memo : OwnMemo) (script : List Move) (steps : ℕ) (owes : Option Kind) (first : Move) (rest : List Move) → IsMoving tables.now.lookups o memo script steps state.old owes first rest → OnErr result (IsUndone tables.now.lookups steps state.old state.new) }
{
    let shown = shows_given(alloc, tables, &mut state.world, gifts, kind, Some(datum))?;
    done(state);
    Ok(answer_of(shown))
}

/// Shows a value of a type as an answer; without one the run ends.
fn shows_value(
    alloc: Global,
    tables: &Tables<'_>,
    state: &mut State<'_>,
    gifts: Gifts,
    kind: Kind,
    value: Option<Datum>,
) -> Result<Option<Event>, AllocError>
    ensures ok { (o : Outside) (memo : OwnMemo) (script : List Move) (steps : ℕ) (owes : Option Kind) (first : Move) (rest : List Move) → IsMoving tables.now.lookups o memo script steps state.old owes first rest → IsGiven tables.now.lookups state.old.world gifts → AreGivenFine tables.now.lookups state.old.world gifts value
        → IfOk result (λ e. IsEvent tables.now.lookups steps script state.new e (shows_value (given_world (names_in tables.now.lookups) state.old.world gifts) (classes_in tables.now.lookups state.old) (type_text tables.now.lookups.types kind) (option_map (value_of (names_in tables.now.lookups)) value) (freed_in tables.now.lookups script state.old) rest)) }
    ensures err { (o : Outside) (memo : OwnMemo) (script : List Move) (steps : ℕ) (owes : Option Kind) (first : Move) (rest : List Move) → IsMoving tables.now.lookups o memo script steps state.old owes first rest → OnErr result (IsUndone tables.now.lookups steps state.old state.new) }
{
    match value {
        Some(datum) => shows_answer(alloc, tables, state, gifts, kind, datum),
        None => {
            state.end();
            Ok(None)
        }
    }
}

/// What a field holds.
fn field_value(tables: &Tables<'_>, world: &World, at: FieldAt, on: Option<Taken>) -> Option<Datum>
    ensures named { (o : Outside) (k : FieldKey) (field : OwnField) → IsRight tables.now.lookups → (kept : IsKeptField tables.now.lookups o k at field) → option_map (value_of (names_in tables.now.lookups)) result ≡ field_value (world_of (names_in tables.now.lookups) world.now) k kept.place (option_map (λ t. value_of (names_in tables.now.lookups) t.datum) on) }
    ensures fine { (o : Outside) (k : FieldKey) (field : OwnField) → IsRight tables.now.lookups → IsSound tables.now.lookups world.now → IsKeptField tables.now.lookups o k at field → FineMaybe (names_in tables.now.lookups) (length (spots_of world.now)) result }
{
    match on {
        None => Some(static_value(tables, world, at.class, at.place, at.kind)),
        Some(taken) => {
            let slot = tables.lookups.slot(at.class, at.place);
            instance_value(tables, world, taken.datum, slot, at.kind)
        }
    }
}

/// Whether a move gives a new object of a class.
fn is_new(on: Option<Gift>) -> bool
    ensures { result ≡ is_new on }
{
    match on {
        Some(Gift::New(_)) => true,
        _ => false,
    }
}

/// What a field holds, of an object that may be new: that one's is zero or null.
fn held_value(
    tables: &Tables<'_>,
    world: &World,
    at: FieldAt,
    on: Option<Gift>,
    taken: Option<Taken>,
) -> Option<Datum>
    ensures named { (o : Outside) (k : FieldKey) (field : OwnField) (g : Option Given) (all : Gifts) → IsRight tables.now.lookups → (kept : IsKeptField tables.now.lookups o k at field) → AreBoth (IsGift tables.now.lookups.types tables.now.lookups.texts) g on → IsGot tables.now.lookups o world.now g all taken
        → option_map (value_of (names_in tables.now.lookups)) result ≡ field_value (given_world (names_in tables.now.lookups) world.now all) k kept.place (option_map (λ t. value_of (names_in tables.now.lookups) t.datum) taken) }
    ensures fine { (o : Outside) (k : FieldKey) (field : OwnField) (all : Gifts) → IsRight tables.now.lookups → IsSound tables.now.lookups world.now → IsKeptField tables.now.lookups o k at field → AreGivenFine tables.now.lookups world.now all result }
{
    if is_new(on) {
        Some(zero_of(tables, at.kind))
    } else {
        field_value(tables, world, at, taken)
    }
}

/// The field at a place of a class, if it is kept.
fn kept_at<'a>(tables: &Tables<'a>, at: FieldAt) -> Option<(FieldAt, &'a Field)>
    ensures { (o : Outside) (class name kind : Text) → IsRight tables.now.lookups → IsReach tables.now.lookups o → IsField tables.now.lookups.program.now tables.now.lookups.types class name kind (Some at) → KeptMaybe tables.now.lookups o (key_of class name kind) (option_map (λ r. (r.0, r.1.now)) result) }
{
    match tables.field_at(at.class, at.place) {
        Some(field) => {
            if tables.lookups.outer.keeps_field(field.name) {
                Some((at, field))
            } else {
                None
            }
        }
        None => None,
    }
}

/// A field that a move names, if it is kept.
fn kept_field<'a>(tables: &Tables<'a>, at: Option<FieldAt>) -> Option<(FieldAt, &'a Field)>
    ensures { (o : Outside) (class name kind : Text) → IsRight tables.now.lookups → IsReach tables.now.lookups o → IsField tables.now.lookups.program.now tables.now.lookups.types class name kind at → KeptMaybe tables.now.lookups o (key_of class name kind) (option_map (λ r. (r.0, r.1.now)) result) }
{
    match at {
        Some(at) => kept_at(tables, at),
        None => None,
    }
}

/// The framework reads a field that is kept.
fn reads_kept(
    alloc: Global,
    tables: &Tables<'_>,
    memo: &mut Memo,
    state: &mut State<'_>,
    found: (FieldAt, &Field),
    on: Option<Gift>,
) -> Result<Option<Event>, AllocError>
    ensures ok { (o : Outside) (floats : Floats) (script : List Move) (steps : ℕ) (owes : Option Kind) (first : Move) (rest : List Move) (k : FieldKey) (g : Option Given) → IsMoving tables.now.lookups o memo.old script steps state.old owes first rest → IsKeptField tables.now.lookups o k found.entry.0 found.entry.1.now → AreBoth (IsGift tables.now.lookups.types tables.now.lookups.texts) g on
        → IfOk result (λ e. IsNext tables.now.lookups steps script memo.new state.new e (reads (setting_in tables.now.lookups o floats) (world_in tables.now.lookups state.old) (classes_in tables.now.lookups state.old) k ((run_face tables.now.lookups).own_field k) g (freed_in tables.now.lookups script state.old) rest)) }
    ensures err { (o : Outside) (script : List Move) (steps : ℕ) (owes : Option Kind) (first : Move) (rest : List Move) (k : FieldKey) (g : Option Given) → IsMoving tables.now.lookups o memo.old script steps state.old owes first rest → IsKeptField tables.now.lookups o k found.entry.0 found.entry.1.now → AreBoth (IsGift tables.now.lookups.types tables.now.lookups.texts) g on
        → OnErr result (IsUndoneWith tables.now.lookups steps memo.new state.old state.new) }
{
    let mut gifts = Gifts::new(alloc);
    let taken = gifts.take_option(alloc, tables, &state.world, on)?;
    let legal = on_fits(tables, memo, &state.world, &gifts, taken, found)?;
    if legal {
        let value = held_value(tables, &state.world, found.0, on, taken);
        shows_value(alloc, tables, state, gifts, found.0.kind, value)
    } else {
        state.end();
        Ok(None)
    }
}

/// The framework reads a field.
pub fn reads(
    alloc: Global,
    tables: &Tables<'_>,
    memo: &mut Memo,
    state: &mut State<'_>,
    at: Option<FieldAt>,
    on: Option<Gift>,
) -> Result<Option<Event>, AllocError>
    ensures ok { (o : Outside) (floats : Floats) (script : List Move) (steps : ℕ) (owes : Option Kind) (first : Move) (rest : List Move) (class name kind : Text) (g : Option Given) → IsMoving tables.now.lookups o memo.old script steps state.old owes first rest → IsField tables.now.lookups.program.now tables.now.lookups.types class name kind at → AreBoth (IsGift tables.now.lookups.types tables.now.lookups.texts) g on
        → IfOk result (λ e. IsNext tables.now.lookups steps script memo.new state.new e (reads (setting_in tables.now.lookups o floats) (world_in tables.now.lookups state.old) (classes_in tables.now.lookups state.old) (key_of class name kind) ((run_face tables.now.lookups).own_field (key_of class name kind)) g (freed_in tables.now.lookups script state.old) rest)) }
    ensures err { (o : Outside) (script : List Move) (steps : ℕ) (owes : Option Kind) (first : Move) (rest : List Move) (class name kind : Text) (g : Option Given) → IsMoving tables.now.lookups o memo.old script steps state.old owes first rest → IsField tables.now.lookups.program.now tables.now.lookups.types class name kind at → AreBoth (IsGift tables.now.lookups.types tables.now.lookups.texts) g on
        → OnErr result (IsUndoneWith tables.now.lookups steps memo.new state.old state.new) }
{
    match kept_field(tables, at) {
        Some(found) => reads_kept(alloc, tables, memo, state, found, on),
        None => {
            state.end();
            Ok(None)
        }
    }
}

/// Writes a field for which there is room, and answers whether there is one.
fn put_field(
    tables: &Tables<'_>,
    world: &mut World,
    at: FieldAt,
    on: Option<Taken>,
    datum: Datum,
) -> bool
    ensures { (o : Outside) (k : FieldKey) (field : OwnField) → IsRight tables.now.lookups → HasFieldRoom world.old → IsSound tables.now.lookups world.old → IsKeptField tables.now.lookups o k at field → IsFine (names_in tables.now.lookups) (length (spots_of world.old)) datum
        → IsPut tables.now.lookups world.old world.new result (with_field (world_of (names_in tables.now.lookups) world.old) k (option_map (λ t. value_of (names_in tables.now.lookups) t.datum) on) (value_of (names_in tables.now.lookups) datum)) }
{
    match on {
        None => {
            put_static(tables, world, at.class, at.place, datum);
            true
        }
        Some(taken) => {
            let slot = tables.lookups.slot(at.class, at.place);
            put_ready(world, taken.datum, slot, datum)
        }
    }
}

/// Makes room for the objects of a move, and for a field that is written.
fn makes_room(world: &mut World, gifts: &Gifts) -> Result<(), AllocError>
    ensures same { IsShuffled world.old world.new }
    ensures room { OnOk result (HasRoomFor world.new gifts.now) }
{
    field_room(world)?;
    gifts.reserve(world, 0)
}

/// Puts the objects of a move on the heap; there is room for them. The fields are laid aside meanwhile, with their room.
fn gives(alloc: Global, world: &mut World, gifts: Gifts)
    ensures given { (l : OwnLookups) → IsGiven l world.old gifts → HasRoomFor world.old gifts → AreGiven l gifts world.old world.new }
    ensures fields { world.new.fields ≡ world.old.fields }
{
    let fields = replace(&mut world.fields, HashMap::new(alloc));
    gifts.give(world);
    world.fields = fields;
}

/// Puts the objects of a move on the heap and writes a field, which ends the move, or the run where there is none; there
/// is room for all of it.
fn writes_ready(
    alloc: Global,
    tables: &Tables<'_>,
    state: &mut State<'_>,
    gifts: Gifts,
    to: (FieldAt, Option<Taken>),
    datum: Datum,
)
    ensures { (o : Outside) (memo : OwnMemo) (script : List Move) (steps : ℕ) (owes : Option Kind) (first : Move) (rest : List Move) (k : FieldKey) (field : OwnField) → IsMoving tables.now.lookups o memo script steps state.old owes first rest → IsKeptField tables.now.lookups o k to.0 field → HasRoomFor state.old.world gifts → IsGiven tables.now.lookups state.old.world gifts → IsGivenFine tables.now.lookups state.old.world gifts datum
        → IsEvent tables.now.lookups steps script state.new None (goes (with_field (given_world (names_in tables.now.lookups) state.old.world gifts) k (option_map (λ t. value_of (names_in tables.now.lookups) t.datum) to.1) (value_of (names_in tables.now.lookups) datum)) (classes_in tables.now.lookups state.old) (freed_in tables.now.lookups script state.old) rest) }
{
    gives(alloc, &mut state.world, gifts);
    if put_field(tables, &mut state.world, to.0, to.1, datum) {
        done(state);
    } else {
        state.end();
    }
}

/// Writes what a field stores of a value that fits it.
fn writes_field(
    alloc: Global,
    tables: &Tables<'_>,
    state: &mut State<'_>,
    gifts: Gifts,
    to: (FieldAt, Option<Taken>),
    datum: Datum,
) -> Result<(), AllocError>
    ensures ok { (o : Outside) (memo : OwnMemo) (script : List Move) (steps : ℕ) (owes : Option Kind) (first : Move) (rest : List Move) (k : FieldKey) (field : OwnField) → IsMoving tables.now.lookups o memo script steps state.old owes first rest → IsKeptField tables.now.lookups o k to.0 field → IsGiven tables.now.lookups state.old.world gifts → IsGivenFine tables.now.lookups state.old.world gifts datum
        → OnOk result (IsEvent tables.now.lookups steps script state.new None (goes (with_field (given_world (names_in tables.now.lookups) state.old.world gifts) k (option_map (λ t. value_of (names_in tables.now.lookups) t.datum) to.1) (stored (item_of_type k.kind) (value_of (names_in tables.now.lookups) datum))) (classes_in tables.now.lookups state.old) (freed_in tables.now.lookups script state.old) rest)) }
    ensures err { (o : Outside) (memo : OwnMemo) (script : List Move) (steps : ℕ) (owes : Option Kind) (first : Move) (rest : List Move) → IsMoving tables.now.lookups o memo script steps state.old owes first rest → OnErr result (IsUndone tables.now.lookups steps state.old state.new) }
{
    let cut = stored(tables.lookups.types.item(to.0.kind), datum);
    makes_room(&mut state.world, &gifts)?;
    writes_ready(alloc, tables, state, gifts, to, cut);
    Ok(())
}

/// Writes a field that is kept on an object that fits it, if the value fits too.
fn writes_on(
    alloc: Global,
    tables: &Tables<'_>,
    memo: &mut Memo,
    state: &mut State<'_>,
    gifts: Gifts,
    to: (FieldAt, Option<Taken>),
    value: Gift,
) -> Result<Option<Event>, AllocError>
    ensures ok { (o : Outside) (floats : Floats) (script : List Move) (steps : ℕ) (owes : Option Kind) (first : Move) (rest : List Move) (k : FieldKey) (field : OwnField) (g : Option Given) (what : Given) → IsMoving tables.now.lookups o memo.old script steps state.old owes first rest → (kept : IsKeptField tables.now.lookups o k to.0 field) → IsGot tables.now.lookups o state.old.world g gifts to.1 → IsGift tables.now.lookups.types tables.now.lookups.texts what value
        → on_fits (run_face tables.now.lookups) (outer_of tables.now.lookups.program.now o) (world_in tables.now.lookups state.old) (given_world (names_in tables.now.lookups) state.old.world gifts) k kept.place g (option_map (λ t. value_of (names_in tables.now.lookups) t.datum) to.1) ≡ true
        → IfOk result (λ e. IsNext tables.now.lookups steps script memo.new state.new e (writes (setting_in tables.now.lookups o floats) (world_in tables.now.lookups state.old) (classes_in tables.now.lookups state.old) k ((run_face tables.now.lookups).own_field k) g what (freed_in tables.now.lookups script state.old) rest)) }
    ensures err { (o : Outside) (script : List Move) (steps : ℕ) (owes : Option Kind) (first : Move) (rest : List Move) (k : FieldKey) (field : OwnField) (g : Option Given) (what : Given) → IsMoving tables.now.lookups o memo.old script steps state.old owes first rest → IsKeptField tables.now.lookups o k to.0 field → IsGot tables.now.lookups o state.old.world g gifts to.1 → IsGift tables.now.lookups.types tables.now.lookups.texts what value
        → OnErr result (IsUndoneWith tables.now.lookups steps memo.new state.old state.new) }
{
    let mut gifts = gifts;
    let given = gifts.take(alloc, tables, &state.world, value)?;
    let legal = fits(
        tables,
        memo,
        &state.world,
        &gifts,
        (value, given),
        to.0.kind,
    )?;
    if legal {
        writes_field(alloc, tables, state, gifts, to, given.datum)?;
        Ok(None)
    } else {
        state.end();
        Ok(None)
    }
}

/// The framework writes a field that is kept.
fn writes_kept(
    alloc: Global,
    tables: &Tables<'_>,
    memo: &mut Memo,
    state: &mut State<'_>,
    found: (FieldAt, &Field),
    on: Option<Gift>,
    value: Gift,
) -> Result<Option<Event>, AllocError>
    ensures ok { (o : Outside) (floats : Floats) (script : List Move) (steps : ℕ) (owes : Option Kind) (first : Move) (rest : List Move) (k : FieldKey) (g : Option Given) (what : Given) → IsMoving tables.now.lookups o memo.old script steps state.old owes first rest → IsKeptField tables.now.lookups o k found.entry.0 found.entry.1.now → AreBoth (IsGift tables.now.lookups.types tables.now.lookups.texts) g on → IsGift tables.now.lookups.types tables.now.lookups.texts what value
        → IfOk result (λ e. IsNext tables.now.lookups steps script memo.new state.new e (writes (setting_in tables.now.lookups o floats) (world_in tables.now.lookups state.old) (classes_in tables.now.lookups state.old) k ((run_face tables.now.lookups).own_field k) g what (freed_in tables.now.lookups script state.old) rest)) }
    ensures err { (o : Outside) (script : List Move) (steps : ℕ) (owes : Option Kind) (first : Move) (rest : List Move) (k : FieldKey) (g : Option Given) (what : Given) → IsMoving tables.now.lookups o memo.old script steps state.old owes first rest → IsKeptField tables.now.lookups o k found.entry.0 found.entry.1.now → AreBoth (IsGift tables.now.lookups.types tables.now.lookups.texts) g on → IsGift tables.now.lookups.types tables.now.lookups.texts what value
        → OnErr result (IsUndoneWith tables.now.lookups steps memo.new state.old state.new) }
{
    let mut gifts = Gifts::new(alloc);
    let taken = gifts.take_option(alloc, tables, &state.world, on)?;
    let legal = on_fits(tables, memo, &state.world, &gifts, taken, found)?;
    if legal {
        writes_on(alloc, tables, memo, state, gifts, (found.0, taken), value)
    } else {
        state.end();
        Ok(None)
    }
}

/// The framework writes a field.
pub fn writes(
    alloc: Global,
    tables: &Tables<'_>,
    memo: &mut Memo,
    state: &mut State<'_>,
    at: Option<FieldAt>,
    on: Option<Gift>,
    value: Gift,
) -> Result<Option<Event>, AllocError>
    ensures ok { (o : Outside) (floats : Floats) (script : List Move) (steps : ℕ) (owes : Option Kind) (first : Move) (rest : List Move) (class name kind : Text) (g : Option Given) (what : Given) → IsMoving tables.now.lookups o memo.old script steps state.old owes first rest → IsField tables.now.lookups.program.now tables.now.lookups.types class name kind at → AreBoth (IsGift tables.now.lookups.types tables.now.lookups.texts) g on → IsGift tables.now.lookups.types tables.now.lookups.texts what value
        → IfOk result (λ e. IsNext tables.now.lookups steps script memo.new state.new e (writes (setting_in tables.now.lookups o floats) (world_in tables.now.lookups state.old) (classes_in tables.now.lookups state.old) (key_of class name kind) ((run_face tables.now.lookups).own_field (key_of class name kind)) g what (freed_in tables.now.lookups script state.old) rest)) }
    ensures err { (o : Outside) (script : List Move) (steps : ℕ) (owes : Option Kind) (first : Move) (rest : List Move) (class name kind : Text) (g : Option Given) (what : Given) → IsMoving tables.now.lookups o memo.old script steps state.old owes first rest → IsField tables.now.lookups.program.now tables.now.lookups.types class name kind at → AreBoth (IsGift tables.now.lookups.types tables.now.lookups.texts) g on → IsGift tables.now.lookups.types tables.now.lookups.texts what value
        → OnErr result (IsUndoneWith tables.now.lookups steps memo.new state.old state.new) }
{
    match kept_field(tables, at) {
        Some(found) => writes_kept(alloc, tables, memo, state, found, on, value),
        None => {
            state.end();
            Ok(None)
        }
    }
}

/// The exposed object that a value names by its place.
fn exposed(state: &State<'_>, gift: Gift) -> Datum
    ensures { result ≡ exposed_in state.now.world gift }
{
    match gift {
        Gift::Exposed(place) => match state.world.exposed.as_slice().get(place as usize) {
            Some(one) => Datum::Object(one.number),
            None => Datum::NULL,
        },
        _ => Datum::NULL,
    }
}

/// The item type of an array, and its item at a place.
fn item_of(world: &World, array: Datum, place: u32) -> Option<(Kind, Option<Datum>)>
    ensures { result ≡ item_in place (shape_at (spots_of world.now) array) }
{
    match world.thing(array) {
        Some(Thing::Items { kind, items }) => {
            Some((*kind, items.as_slice().get(place as usize).copied()))
        }
        _ => None,
    }
}

/// The framework reads an item of an exposed array.
pub fn array_get(
    alloc: Global,
    tables: &Tables<'_>,
    state: &mut State<'_>,
    on: Gift,
    place: u32,
) -> Result<Option<Event>, AllocError>
    ensures ok { (o : Outside) (memo : OwnMemo) (script : List Move) (steps : ℕ) (owes : Option Kind) (first : Move) (rest : List Move) (g : Given) → IsMoving tables.now.lookups o memo script steps state.old owes first rest → IsGift tables.now.lookups.types tables.now.lookups.texts g on
        → IfOk result (λ e. IsEvent tables.now.lookups steps script state.new e (array_get (world_in tables.now.lookups state.old) (classes_in tables.now.lookups state.old) g place (freed_in tables.now.lookups script state.old) rest)) }
    ensures err { (o : Outside) (memo : OwnMemo) (script : List Move) (steps : ℕ) (owes : Option Kind) (first : Move) (rest : List Move) → IsMoving tables.now.lookups o memo script steps state.old owes first rest → OnErr result (IsUndone tables.now.lookups steps state.old state.new) }
{
    let array = exposed(state, on);
    match item_of(&state.world, array, place) {
        Some((kind, value)) => { shows_value(alloc, tables, state, Gifts::new(alloc), kind, value) }
        None => {
            state.end();
            Ok(None)
        }
    }
}

/// Puts the objects of a move on the heap and writes an item that is there; the move is done. There is room for them.
fn put_item(state: &mut State<'_>, gifts: Gifts, array: Datum, place: u32, datum: Datum)
    ensures { (l : OwnLookups) (o : Outside) (memo : OwnMemo) (script : List Move) (steps : ℕ) (owes : Option Kind) (first : Move) (rest : List Move) (kind : Kind) (items : List Datum) → IsMoving l o memo script steps state.old owes first rest → HasRoom state.old.world (length gifts.things.items) → HasSpace state.old.world (length gifts.things.items) → IsGiven l state.old.world gifts → IsGivenFine l state.old.world gifts datum → shape_at (spots_of state.old.world) array ≡ Some (Array kind items)
        → IsEvent l steps script state.new None (quiet (On (put_thing (given_world (names_in l) state.old.world gifts) (value_of (names_in l) array) (Items (type_text l.types kind) (slice_set (values_of (names_in l) items) place (value_of (names_in l) datum)))) (classes_in l state.old) (freed_in l script state.old) rest)) }
{
    gifts.give(&mut state.world);
    state.world.put_item(array, place as usize, datum);
    done(state);
}

/// Writes what an item that is there stores of a value that fits it.
fn puts_item(
    tables: &Tables<'_>,
    state: &mut State<'_>,
    gifts: Gifts,
    at: (Datum, u32, Kind),
    datum: Datum,
) -> Result<(), AllocError>
    ensures ok { (o : Outside) (memo : OwnMemo) (script : List Move) (steps : ℕ) (owes : Option Kind) (first : Move) (rest : List Move) (items : List Datum) → IsMoving tables.now.lookups o memo script steps state.old owes first rest → IsGiven tables.now.lookups state.old.world gifts → IsGivenFine tables.now.lookups state.old.world gifts datum → shape_at (spots_of state.old.world) at.0 ≡ Some (Array at.2 items)
        → OnOk result (IsEvent tables.now.lookups steps script state.new None (quiet (On (put_thing (given_world (names_in tables.now.lookups) state.old.world gifts) (value_of (names_in tables.now.lookups) at.0) (Items (type_text tables.now.lookups.types at.2) (slice_set (values_of (names_in tables.now.lookups) items) at.1 (stored (item_of_type (type_text tables.now.lookups.types at.2)) (value_of (names_in tables.now.lookups) datum))))) (classes_in tables.now.lookups state.old) (freed_in tables.now.lookups script state.old) rest))) }
    ensures err { (o : Outside) (memo : OwnMemo) (script : List Move) (steps : ℕ) (owes : Option Kind) (first : Move) (rest : List Move) → IsMoving tables.now.lookups o memo script steps state.old owes first rest → OnErr result (IsUndone tables.now.lookups steps state.old state.new) }
{
    let (array, place, kind) = at;
    gifts.reserve(&mut state.world, 0)?;
    let cut = stored(tables.lookups.types.item(kind), datum);
    put_item(state, gifts, array, place, cut);
    Ok(())
}

/// Writes an item of an array that is there, if the value fits.
fn puts_fitting(
    alloc: Global,
    tables: &Tables<'_>,
    memo: &mut Memo,
    state: &mut State<'_>,
    at: (Datum, u32, Kind),
    value: Gift,
) -> Result<Option<Event>, AllocError>
    ensures ok { (o : Outside) (floats : Floats) (script : List Move) (steps : ℕ) (owes : Option Kind) (first : Move) (rest : List Move) (what : Given) (items : List Datum) → IsMoving tables.now.lookups o memo.old script steps state.old owes first rest → IsGift tables.now.lookups.types tables.now.lookups.texts what value → shape_at (spots_of state.old.world) at.0 ≡ Some (Array at.2 items) → at.1 < length items
        → IfOk result (λ e. IsNext tables.now.lookups steps script memo.new state.new e (writes_item (setting_in tables.now.lookups o floats) (world_in tables.now.lookups state.old) (classes_in tables.now.lookups state.old) (value_of (names_in tables.now.lookups) at.0) (Some (Items (type_text tables.now.lookups.types at.2) (values_of (names_in tables.now.lookups) items))) at.1 what (freed_in tables.now.lookups script state.old) rest)) }
    ensures err { (o : Outside) (script : List Move) (steps : ℕ) (owes : Option Kind) (first : Move) (rest : List Move) (what : Given) (items : List Datum) → IsMoving tables.now.lookups o memo.old script steps state.old owes first rest → IsGift tables.now.lookups.types tables.now.lookups.texts what value → shape_at (spots_of state.old.world) at.0 ≡ Some (Array at.2 items) → OnErr result (IsUndoneWith tables.now.lookups steps memo.new state.old state.new) }
{
    let mut gifts = Gifts::new(alloc);
    let given = gifts.take(alloc, tables, &state.world, value)?;
    let legal = fits(tables, memo, &state.world, &gifts, (value, given), at.2)?;
    if legal {
        puts_item(tables, state, gifts, at, given.datum)?;
        Ok(None)
    } else {
        state.end();
        Ok(None)
    }
}

/// The item type of an array that has an item at a place.
fn kind_there(item: Option<(Kind, Option<Datum>)>) -> Option<Kind>
    ensures { result ≡ kind_there item }
{
    match item {
        Some((kind, Some(_))) => Some(kind),
        _ => None,
    }
}

/// The framework writes an item of an exposed array.
pub fn array_put(
    alloc: Global,
    tables: &Tables<'_>,
    memo: &mut Memo,
    state: &mut State<'_>,
    on: Gift,
    place: u32,
    value: Gift,
) -> Result<Option<Event>, AllocError>
    ensures ok { (o : Outside) (floats : Floats) (script : List Move) (steps : ℕ) (owes : Option Kind) (first : Move) (rest : List Move) (g what : Given) → IsMoving tables.now.lookups o memo.old script steps state.old owes first rest → IsGift tables.now.lookups.types tables.now.lookups.texts g on → IsGift tables.now.lookups.types tables.now.lookups.texts what value
        → IfOk result (λ e. IsNext tables.now.lookups steps script memo.new state.new e (array_put (setting_in tables.now.lookups o floats) (world_in tables.now.lookups state.old) (classes_in tables.now.lookups state.old) g place what (freed_in tables.now.lookups script state.old) rest)) }
    ensures err { (o : Outside) (script : List Move) (steps : ℕ) (owes : Option Kind) (first : Move) (rest : List Move) (g what : Given) → IsMoving tables.now.lookups o memo.old script steps state.old owes first rest → IsGift tables.now.lookups.types tables.now.lookups.texts g on → IsGift tables.now.lookups.types tables.now.lookups.texts what value → OnErr result (IsUndoneWith tables.now.lookups steps memo.new state.old state.new) }
{
    let array = exposed(state, on);
    match kind_there(item_of(&state.world, array, place)) {
        Some(kind) => puts_fitting(alloc, tables, memo, state, (array, place, kind), value),
        None => {
            state.end();
            Ok(None)
        }
    }
}

/// The length of an array, none of another thing.
fn length_of(world: &World, array: Datum) -> Option<Datum>
    ensures { result ≡ length_in (shape_at (spots_of world.now) array) }
{
    match world.thing(array) {
        Some(Thing::Items { items, .. }) => Some(Datum::Word(length_word(items.len()))),
        _ => None,
    }
}

/// The framework measures an exposed array.
pub fn array_length(
    alloc: Global,
    tables: &Tables<'_>,
    state: &mut State<'_>,
    on: Gift,
) -> Result<Option<Event>, AllocError>
    ensures ok { (o : Outside) (memo : OwnMemo) (script : List Move) (steps : ℕ) (owes : Option Kind) (first : Move) (rest : List Move) (g : Given) → IsMoving tables.now.lookups o memo script steps state.old owes first rest → IsGift tables.now.lookups.types tables.now.lookups.texts g on
        → IfOk result (λ e. IsEvent tables.now.lookups steps script state.new e (array_length (world_in tables.now.lookups state.old) (classes_in tables.now.lookups state.old) g (freed_in tables.now.lookups script state.old) rest)) }
    ensures err { (o : Outside) (memo : OwnMemo) (script : List Move) (steps : ℕ) (owes : Option Kind) (first : Move) (rest : List Move) → IsMoving tables.now.lookups o memo script steps state.old owes first rest → OnErr result (IsUndone tables.now.lookups steps state.old state.new) }
{
    let length = length_of(&state.world, exposed(state, on));
    let kind = Kind::plain(known::INT);
    shows_value(alloc, tables, state, Gifts::new(alloc), kind, length)
}
