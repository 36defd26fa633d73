//! Fields (Dalvik bytecode, "iget", "iput", "sget", "sput"; Dalvik executable format, "encoded_value").

ghost use Rattle.std.specs.Prelude.{◌≡◌, ◌<◌, ◌^◌, ℕ, List, Option, Some, None, length, slice_get, slice_set, IfOk, IsOk, OnErr, OnOk};
ghost use Rattle.std.specs.Int.{w32, cast_unsigned};
ghost use Rattle.std.specs.Map.{lookup};
ghost use Rattle.std.specs.Option.{option_and_then, option_copied, option_map};
ghost use Rattle.program_model.specs.declared.pass.Outside.{Outside};
ghost use Rattle.dalvik_defs.specs.Effect.{next};
ghost use Rattle.dalvik_defs.specs.Face.{Place};
ghost use Rattle.dalvik_defs.specs.Fields.{first_of, first_value, instance_value, key_at, static_value, with_instance, with_static};
ghost use Rattle.dalvik_defs.specs.Naming.{field_at, text_at, value_of as named_value};
ghost use Rattle.dalvik_defs.specs.Outcome.{reads, reads_instance, reads_out, reads_static, reads_value, writes, writes_instance, writes_out, writes_static, Stays};
ghost use Rattle.dalvik_defs.specs.State.{thing_at};
ghost use Rattle.dalvik_defs.specs.declared.state.Value.{Value};
ghost use Rattle.dalvik_defs.specs.declared.names.FieldKey.{FieldKey};
ghost use Rattle.dalvik_defs.specs.declared.script.Move.{Move};
ghost use Rattle.dalvik_defs.specs.declared.state.Value.TheVariants as value;
ghost use Rattle.dalvik_defs.specs.declared.tables.Floats.{Floats};
ghost use Rattle.dalvik_lookups.specs.Facing.{run_face};
ghost use Rattle.dalvik_lookups.specs.Slots.{slot_of};
ghost use Rattle.dalvik_lookups.specs.Tables.{IsRight};
ghost use Rattle.dalvik_lookups.specs.Views.{type_text};
ghost use Rattle.dalvik_lookups.specs.declared.lookups.Lookups.{Lookups};
ghost use Rattle.dalvik_state.specs.Drafts.{AreDrafts, IsDraft};
ghost use Rattle.dalvik_state.specs.Runs.{comes_of, need_in, world_in, IsEvent, IsNext, IsRun, IsUndoneWith};
ghost use Rattle.dalvik_state.specs.States.{top_frame, HasPlaces, HasRoom, IsFineKind, IsSound};
ghost use Rattle.dalvik_state.specs.Views.{frame_of, is_at, names_in, value_of, world_of, IsFine};
ghost use Rattle.dalvik_state.specs.Worlds.{spots_of};
ghost use Rattle.dalvik_state.specs.declared.frame.Frame.{Frame};
ghost use Rattle.dalvik_steps.specs.Reaching.{first_or_zero, object_in, AreTextsOf, FineMaybe, FirstThere, HasFieldRoom, IsFieldOf, IsFirst, IsPut, IsReading, IsReserved, IsShuffled, IsStep, IsUnwritten, IsWriting, PutsField, Rewrites};

use crate::asking::{asks, reserve};
use crate::starting::{Readied, readies};
use dalvik_defs::Event;
use dalvik_lookups::{Kind, Memo, known};
use dalvik_state::{
    Datum, Draft, Gifts, State, Tables, Thing, World, drafted, drafted_option, show, show_option,
    zero_of,
};
use dex_base::Text;
use program_model::{EncValue, Field, FieldName, Item};
use std::alloc::{AllocError, Global};

/// A text of the program as a value.
fn text_value(tables: &Tables<'_>, string: u32) -> Datum
    ensures named { IsRight tables.now.lookups → string < length tables.now.lookups.program.now.strings → value_of (names_in tables.now.lookups) result ≡ value.Literal (text_at tables.now.lookups.program.now string) }
    ensures fine { (size : ℕ) → IsRight tables.now.lookups → string < length tables.now.lookups.program.now.strings → IsFine (names_in tables.now.lookups) size result }
{
    Datum::Literal(tables.lookups.string(string))
}

/// A byte as a word.
fn byte_word(number: &i8) -> u32
    ensures { result ≡ cast_unsigned w32 number.now }
{
    let value = *number;
    i32::from(value).cast_unsigned()
}

/// A short as a word.
fn short_word(number: &i16) -> u32
    ensures { result ≡ cast_unsigned w32 number.now }
{
    let value = *number;
    i32::from(value).cast_unsigned()
}

/// A first value; those that fit no field are 0.
#[tactic(auto, using(crate::proofs::Firsts::class_named, crate::proofs::Firsts::class_fine))]
fn first_value(tables: &Tables<'_>, value: &EncValue) -> Datum
    ensures named { IsRight tables.now.lookups → IsFirst tables.now.lookups.program.now value.now → value_of (names_in tables.now.lookups) result ≡ first_value (named_value tables.now.lookups.program.now value.now) }
    ensures fine { (size : ℕ) → IsRight tables.now.lookups → IsFirst tables.now.lookups.program.now value.now → IsFine (names_in tables.now.lookups) size result }
{
    match value {
        EncValue::Byte(number) => Datum::Word(byte_word(number)),
        EncValue::Short(number) => Datum::Word(short_word(number)),
        EncValue::Char(number) => Datum::Word(u32::from(*number)),
        EncValue::Int(number) => Datum::Word(number.cast_unsigned()),
        EncValue::Long(number) => Datum::Low(number.cast_unsigned()),
        EncValue::Float(bits) => Datum::Word(*bits),
        EncValue::Double(bits) => Datum::Low(*bits),
        EncValue::Str(string) => text_value(tables, *string),
        EncValue::Class(kind) => tables.class_constant(*kind),
        EncValue::Bool(holds) => Datum::truth(*holds),
        _ => Datum::NULL,
    }
}

/// The first value that a field of a type is given, or zero or null.
fn given_first(tables: &Tables<'_>, field: &Field, kind: Kind) -> Datum
    ensures named { IsRight tables.now.lookups → FirstThere tables.now.lookups.program.now field.now.first → value_of (names_in tables.now.lookups) result ≡ first_or_zero (option_map (named_value tables.now.lookups.program.now) field.now.first) (type_text tables.now.lookups.types kind) }
    ensures fine { (size : ℕ) → IsRight tables.now.lookups → FirstThere tables.now.lookups.program.now field.now.first → IsFine (names_in tables.now.lookups) size result }
{
    match &field.first {
        Some(value) => first_value(tables, value),
        None => zero_of(tables, kind),
    }
}

/// What a static field holds before it is written: its declared first value, or zero or null.
fn first_of(tables: &Tables<'_>, class: u32, place: u32, kind: Kind) -> Datum
    ensures named { (k : FieldKey) (at : Place) → IsRight tables.now.lookups → IsFieldOf tables.now.lookups k at class place → type_text tables.now.lookups.types kind ≡ k.kind → value_of (names_in tables.now.lookups) result ≡ first_of k at }
    ensures fine { (k : FieldKey) (at : Place) (size : ℕ) → IsRight tables.now.lookups → IsFieldOf tables.now.lookups k at class place → IsFine (names_in tables.now.lookups) size result }
{
    match tables.field_at(class, place) {
        Some(field) => given_first(tables, field, kind),
        None => zero_of(tables, kind),
    }
}

/// What was written to a static field.
fn written_static(world: &World, slot: usize) -> Option<Datum>
    ensures { result ≡ option_and_then (λ (d : Option Datum). d) (slice_get world.now.statics.items slot) }
{
    match world.statics.as_slice().get(slot) {
        Some(written) => *written,
        None => None,
    }
}

/// What a static field holds.
pub fn static_value(tables: &Tables<'_>, world: &World, class: u32, place: u32, kind: Kind) -> Datum
    ensures named { (k : FieldKey) (at : Place) → IsRight tables.now.lookups → IsFieldOf tables.now.lookups k at class place → type_text tables.now.lookups.types kind ≡ k.kind → value_of (names_in tables.now.lookups) result ≡ static_value (world_of (names_in tables.now.lookups) world.now) k at }
    ensures fine { (k : FieldKey) (at : Place) → IsRight tables.now.lookups → IsSound tables.now.lookups world.now → IsFieldOf tables.now.lookups k at class place → IsFine (names_in tables.now.lookups) (length (spots_of world.now)) result }
{
    match written_static(world, tables.lookups.slot(class, place)) {
        Some(datum) => datum,
        None => first_of(tables, class, place, kind),
    }
}

/// Writes a static field at its place, unless there is no such place.
fn write_static(statics: &mut Vec<Option<Datum>>, slot: usize, datum: Datum)
    ensures { statics.new.items ≡ slice_set statics.old.items slot (Some datum) }
{
    if slot < statics.len() {
        statics[slot] = Some(datum);
    }
}

/// Writes a static field.
#[tactic(auto, using(crate::proofs::Written::static_written))]
pub fn put_static(tables: &Tables<'_>, world: &mut World, class: u32, place: u32, datum: Datum)
    ensures { (k : FieldKey) (at : Place) → IsRight tables.now.lookups → IsSound tables.now.lookups world.old → IsFieldOf tables.now.lookups k at class place → IsFine (names_in tables.now.lookups) (length (spots_of world.old)) datum
        → Rewrites tables.now.lookups world.old world.new (with_static (world_of (names_in tables.now.lookups) world.old) (key_at k at) (value_of (names_in tables.now.lookups) datum)) }
{
    let slot = tables.lookups.slot(class, place);
    write_static(&mut world.statics, slot, datum);
}

/// The number of an object that has fields.
fn object_number(world: &World, on: Datum) -> Option<u64>
    ensures { result ≡ object_in (spots_of world.now) on }
{
    match on {
        Datum::Object(number) => match world.thing(on) {
            Some(Thing::Instance(_)) => Some(number),
            _ => None,
        },
        _ => None,
    }
}

/// What was written to a field of an object.
fn written_field(world: &World, number: u64, slot: usize) -> Option<Datum>
    ensures { result ≡ lookup (is_at number slot) world.now.fields.entries }
{
    world.fields.get(&(number, slot)).copied()
}

/// What a field of an object holds; another thing has no fields.
pub fn instance_value(
    tables: &Tables<'_>,
    world: &World,
    on: Datum,
    slot: usize,
    kind: Kind,
) -> Option<Datum>
    ensures named { (k : FieldKey) (at : Place) (class index : ℕ) → IsRight tables.now.lookups → IsFieldOf tables.now.lookups k at class index → slot ≡ slot_of tables.now.lookups.program.now class index → type_text tables.now.lookups.types kind ≡ k.kind → option_map (value_of (names_in tables.now.lookups)) result ≡ instance_value k at (thing_at (world_of (names_in tables.now.lookups) world.now) (value_of (names_in tables.now.lookups) on)) }
    ensures fine { IsRight tables.now.lookups → IsSound tables.now.lookups world.now → FineMaybe (names_in tables.now.lookups) (length (spots_of world.now)) result }
{
    match object_number(world, on) {
        Some(number) => match written_field(world, number, slot) {
            Some(datum) => Some(datum),
            None => Some(zero_of(tables, kind)),
        },
        None => None,
    }
}

/// Makes room for one field more that is written. Nothing that is there changes, whether there is memory or not.
pub fn field_room(world: &mut World) -> Result<(), AllocError>
    ensures same { IsShuffled world.old world.new }
    ensures room { OnOk result (HasFieldRoom world.new) }
{
    world.fields.reserve(1)?;
    Ok(())
}

/// Writes a field of an object at its place.
fn write_field(world: &mut World, number: u64, slot: usize, datum: Datum) -> Result<(), AllocError>
    ensures put { OnOk result (PutsField world.old world.new number slot datum) }
    ensures room { HasFieldRoom world.old → IsOk result }
    ensures err { OnErr result (IsUnwritten world.old world.new) }
{
    world.fields.insert((number, slot), datum)?;
    Ok(())
}

/// Writes a field of an object, and answers whether it is one.
pub fn put_instance(
    world: &mut World,
    on: Datum,
    slot: usize,
    datum: Datum,
) -> Result<bool, AllocError>
    ensures put { (l : Lookups) (k : FieldKey) (at : Place) (class index : ℕ) → IsRight l → IsSound l world.old → IsFieldOf l k at class index → slot ≡ slot_of l.program.now class index → IsFine (names_in l) (length (spots_of world.old)) datum
        → IfOk result (λ b. IsPut l world.old world.new b (with_instance (world_of (names_in l) world.old) (key_at k at) (value_of (names_in l) on) (value_of (names_in l) datum) (thing_at (world_of (names_in l) world.old) (value_of (names_in l) on)))) }
    ensures room { HasFieldRoom world.old → IsOk result }
    ensures err { OnErr result (IsUnwritten world.old world.new) }
{
    match object_number(world, on) {
        Some(number) => {
            write_field(world, number, slot, datum)?;
            Ok(true)
        }
        None => Ok(false),
    }
}

/// Writes a field of an object, and answers whether it is one. There is room for one field more, so no memory is wanted.
pub fn put_ready(world: &mut World, on: Datum, slot: usize, datum: Datum) -> bool
    ensures { (l : Lookups) (k : FieldKey) (at : Place) (class index : ℕ) → HasFieldRoom world.old → IsRight l → IsSound l world.old → IsFieldOf l k at class index → slot ≡ slot_of l.program.now class index → IsFine (names_in l) (length (spots_of world.old)) datum
        → IsPut l world.old world.new result (with_instance (world_of (names_in l) world.old) (key_at k at) (value_of (names_in l) on) (value_of (names_in l) datum) (thing_at (world_of (names_in l) world.old) (value_of (names_in l) on))) }
{
    match put_instance(world, on, slot, datum) {
        Ok(is_there) => is_there,
        Err(_) => false,
    }
}

/// A field number's class, its name's number, and its type.
fn field_name<'a>(tables: &Tables<'a>, field: u32) -> Option<&'a FieldName>
    ensures { option_copied result ≡ slice_get tables.now.lookups.program.now.fields field }
{
    tables.lookups.program.fields.as_slice().get(field as usize)
}

/// The type of a field number.
fn field_kind(tables: &Tables<'_>, field: u32) -> Kind
    ensures named { IsRight tables.now.lookups → field < length tables.now.lookups.program.now.fields → type_text tables.now.lookups.types result ≡ (field_at tables.now.lookups.program.now field).kind }
    ensures fine { IsRight tables.now.lookups → field < length tables.now.lookups.program.now.fields → IsFineKind tables.now.lookups result }
{
    match field_name(tables, field) {
        Some(name) => tables.lookups.kind(name.kind),
        None => Kind::plain(known::OBJECT),
    }
}

/// The type of a field number's class.
fn field_class(tables: &Tables<'_>, field: u32) -> Kind
    ensures { IsRight tables.now.lookups → field < length tables.now.lookups.program.now.fields → type_text tables.now.lookups.types result ≡ (field_at tables.now.lookups.program.now field).class }
{
    match field_name(tables, field) {
        Some(name) => tables.lookups.kind(name.class),
        None => Kind::plain(known::OBJECT),
    }
}

/// What an instruction reads a field into, and from which object.
#[derive(Clone, Copy, Drop)]
pub struct Reading {
    pub item: Item,
    pub to: u16,
    pub field: u32,
    pub on: Option<Datum>,
}

/// Writes what was read and goes on; what has no fields ends the run.
#[tactic(auto, using(crate::proofs::FieldReads::value_read, crate::proofs::FieldReads::value_none))]
fn reads_value(state: &mut State<'_>, reading: Reading, value: Option<Datum>)
    ensures { (l : Lookups) (o : Outside) (floats : Floats) (script : List Move) (steps : ℕ) (f : Frame) → IsStep l steps state.old f → FineMaybe (names_in l) (length (spots_of state.old.world)) value
        → IsEvent l steps script state.new None (comes_of l o floats script state.old f (reads_value reading.item reading.to (option_map (value_of (names_in l)) value) (world_in l state.old) (frame_of (names_in l) f))) }
{
    match value {
        Some(datum) => state.go_on_with(reading.item, reading.to, datum),
        None => state.end(),
    }
}

/// The texts of a field's class, of its name and of its type.
#[derive(Drop)]
struct FieldTexts {
    class: Text,
    name: Text,
    kind: Text,
}

/// The texts of a field by its number.
fn field_texts(alloc: Global, tables: &Tables<'_>, field: u32) -> Result<FieldTexts, AllocError>
    ensures { IsRight tables.now.lookups → field < length tables.now.lookups.program.now.fields → IfOk result (AreTextsOf tables.now.lookups.program.now field) }
{
    let class = tables.lookups.kind_text(alloc, field_class(tables, field))?;
    let name = tables.lookups.field_text(alloc, field)?;
    let kind = tables.lookups.kind_text(alloc, field_kind(tables, field))?;
    Ok(FieldTexts { class, name, kind })
}

/// What is shown of the object that a field is read or written of.
fn draft_on(
    alloc: Global,
    tables: &Tables<'_>,
    world: &World,
    field: u32,
    on: Option<Datum>,
) -> Result<Option<Draft>, AllocError>
    ensures { IsRight tables.now.lookups → IsSound tables.now.lookups world.now → field < length tables.now.lookups.program.now.fields → FineMaybe (names_in tables.now.lookups) (length (spots_of world.now)) on → IfOk result (λ d. AreDrafts (world_of (names_in tables.now.lookups) world.now) (field_at tables.now.lookups.program.now field).class (option_map (value_of (names_in tables.now.lookups)) on) d) }
{
    let none = Gifts::new(alloc);
    let draft = drafted_option(alloc, tables, world, &none, field_class(tables, field), on)?;
    Ok(draft)
}

/// What is shown of the value that is written to a field.
fn draft_value(
    alloc: Global,
    tables: &Tables<'_>,
    world: &World,
    field: u32,
    value: Datum,
) -> Result<Draft, AllocError>
    ensures { IsRight tables.now.lookups → IsSound tables.now.lookups world.now → field < length tables.now.lookups.program.now.fields → IsFine (names_in tables.now.lookups) (length (spots_of world.now)) value → IfOk result (λ d. IsDraft (world_of (names_in tables.now.lookups) world.now) (field_at tables.now.lookups.program.now field).kind (value_of (names_in tables.now.lookups) value) d) }
{
    let none = Gifts::new(alloc);
    let draft = drafted(
        alloc,
        tables,
        world,
        &none,
        field_kind(tables, field),
        value,
    )?;
    Ok(draft)
}

/// The framework is shown that a field of it is read, and owes the value; there is room for both.
fn asks_value(
    state: &mut State<'_>,
    texts: FieldTexts,
    draft: Option<Draft>,
    kind: Kind,
) -> Option<Event>
    ensures { (l : Lookups) (o : Outside) (floats : Floats) (script : List Move) (steps : ℕ) (f : Frame) (field : ℕ) (on : Option Value) → IsStep l steps state.old f → HasRoom state.old.world 1 → HasPlaces state.old 1 → AreTextsOf l.program.now field texts → AreDrafts (world_in l state.old) (field_at l.program.now field).class on draft → type_text l.types kind ≡ (field_at l.program.now field).kind → IsFineKind l kind
        → IsEvent l steps script state.new result (comes_of l o floats script state.old f (reads_out (field_at l.program.now field) on (world_in l state.old))) }
{
    let on = show_option(&mut state.world, draft);
    asks(state, kind);
    let FieldTexts { class, name, kind } = texts;
    Some(Event::Get {
        class,
        name,
        kind,
        on,
    })
}

/// A field of the framework is read by it, which owes the value.
fn reads_out<'a>(
    alloc: Global,
    tables: &Tables<'a>,
    state: &mut State<'a>,
    reading: Reading,
) -> Result<Option<Event>, AllocError>
    ensures ok { (o : Outside) (floats : Floats) (script : List Move) (steps : ℕ) (f : Frame) → IsStep tables.now.lookups steps state.old f → IsReading tables.now.lookups state.old reading
        → IfOk result (λ e. IsEvent tables.now.lookups steps script state.new e (comes_of tables.now.lookups o floats script state.old f (reads_out (field_at tables.now.lookups.program.now reading.field) (option_map (value_of (names_in tables.now.lookups)) reading.on) (world_in tables.now.lookups state.old)))) }
    ensures err { OnErr result (IsReserved state.old state.new) }
{
    let texts = field_texts(alloc, tables, reading.field)?;
    let draft = draft_on(alloc, tables, &state.world, reading.field, reading.on)?;
    reserve(state, 1)?;
    Ok(asks_value(state, texts, draft, field_kind(tables, reading.field)))
}

/// Reads a static field of the program, whose class is initialised first.
fn reads_static<'a>(
    alloc: Global,
    tables: &Tables<'a>,
    memo: &mut Memo,
    state: &mut State<'a>,
    reading: Reading,
    at: (u32, u32),
) -> Result<Option<Event>, AllocError>
    ensures ok { (o : Outside) (floats : Floats) (script : List Move) (steps : ℕ) (f : Frame) (place : Place) → IsRun tables.now.lookups memo.old steps state.old → top_frame state.old.stack.items ≡ Some f → IsReading tables.now.lookups state.old reading → IsFieldOf tables.now.lookups (field_at tables.now.lookups.program.now reading.field) place at.0 at.1
        → IfOk result (λ e. IsNext tables.now.lookups steps script memo.new state.new e (comes_of tables.now.lookups o floats script state.old f (reads_static (need_in tables.now.lookups state.old) reading.item reading.to (field_at tables.now.lookups.program.now reading.field) (world_in tables.now.lookups state.old) (frame_of (names_in tables.now.lookups) f) (Some place)))) }
    ensures err { (steps : ℕ) (place : Place) → IsRun tables.now.lookups memo.old steps state.old → IsFieldOf tables.now.lookups (field_at tables.now.lookups.program.now reading.field) place at.0 at.1 → OnErr result (IsUndoneWith tables.now.lookups steps memo.new state.old state.new) }
{
    let (class, place) = at;
    match readies(alloc, tables, memo, state, class)? {
        Readied::Ready => {
            let kind = field_kind(tables, reading.field);
            let datum = static_value(tables, &state.world, class, place, kind);
            reads_value(state, reading, Some(datum));
            Ok(None)
        }
        Readied::Started => Ok(None),
        Readied::Failed(event) => Ok(event),
    }
}

/// Reads a field of an object.
fn reads_instance(
    tables: &Tables<'_>,
    state: &mut State<'_>,
    reading: Reading,
    on: Datum,
    at: (u32, u32),
)
    ensures { (o : Outside) (floats : Floats) (script : List Move) (steps : ℕ) (f : Frame) (place : Place) → IsStep tables.now.lookups steps state.old f → reading.field < length tables.now.lookups.program.now.fields → IsFieldOf tables.now.lookups (field_at tables.now.lookups.program.now reading.field) place at.0 at.1
        → IsEvent tables.now.lookups steps script state.new None (comes_of tables.now.lookups o floats script state.old f (reads_instance reading.item reading.to (field_at tables.now.lookups.program.now reading.field) (value_of (names_in tables.now.lookups) on) (world_in tables.now.lookups state.old) (frame_of (names_in tables.now.lookups) f) (Some place))) }
{
    let (class, place) = at;
    let slot = tables.lookups.slot(class, place);
    let kind = field_kind(tables, reading.field);
    let value = instance_value(tables, &state.world, on, slot, kind);
    reads_value(state, reading, value);
}

/// Reads a field that the program defines.
fn reads_found<'a>(
    alloc: Global,
    tables: &Tables<'a>,
    memo: &mut Memo,
    state: &mut State<'a>,
    reading: Reading,
    at: (u32, u32),
) -> Result<Option<Event>, AllocError>
    ensures ok { (o : Outside) (floats : Floats) (script : List Move) (steps : ℕ) (f : Frame) (place : Place) → IsRun tables.now.lookups memo.old steps state.old → top_frame state.old.stack.items ≡ Some f → IsReading tables.now.lookups state.old reading → IsFieldOf tables.now.lookups (field_at tables.now.lookups.program.now reading.field) place at.0 at.1 → (run_face tables.now.lookups).field (field_at tables.now.lookups.program.now reading.field) ≡ Some place
        → IfOk result (λ e. IsNext tables.now.lookups steps script memo.new state.new e (comes_of tables.now.lookups o floats script state.old f (reads (run_face tables.now.lookups) (need_in tables.now.lookups state.old) reading.item reading.to (field_at tables.now.lookups.program.now reading.field) (option_map (value_of (names_in tables.now.lookups)) reading.on) (world_in tables.now.lookups state.old) (frame_of (names_in tables.now.lookups) f)))) }
    ensures err { (steps : ℕ) (f : Frame) (place : Place) → IsRun tables.now.lookups memo.old steps state.old → top_frame state.old.stack.items ≡ Some f → IsFieldOf tables.now.lookups (field_at tables.now.lookups.program.now reading.field) place at.0 at.1 → OnErr result (IsUndoneWith tables.now.lookups steps memo.new state.old state.new) }
{
    match reading.on {
        None => reads_static(alloc, tables, memo, state, reading, at),
        Some(on) => {
            reads_instance(tables, state, reading, on, at);
            Ok(None)
        }
    }
}

/// Reads a field for the frame on top of the stack.
pub fn reads<'a>(
    alloc: Global,
    tables: &Tables<'a>,
    memo: &mut Memo,
    state: &mut State<'a>,
    reading: Reading,
) -> Result<Option<Event>, AllocError>
    ensures ok { (o : Outside) (floats : Floats) (script : List Move) (steps : ℕ) (f : Frame) → IsRun tables.now.lookups memo.old steps state.old → top_frame state.old.stack.items ≡ Some f → IsReading tables.now.lookups state.old reading
        → IfOk result (λ e. IsNext tables.now.lookups steps script memo.new state.new e (comes_of tables.now.lookups o floats script state.old f (reads (run_face tables.now.lookups) (need_in tables.now.lookups state.old) reading.item reading.to (field_at tables.now.lookups.program.now reading.field) (option_map (value_of (names_in tables.now.lookups)) reading.on) (world_in tables.now.lookups state.old) (frame_of (names_in tables.now.lookups) f)))) }
    ensures err { (steps : ℕ) (f : Frame) → IsRun tables.now.lookups memo.old steps state.old → top_frame state.old.stack.items ≡ Some f → IsReading tables.now.lookups state.old reading → OnErr result (IsUndoneWith tables.now.lookups steps memo.new state.old state.new) }
{
    match tables.lookups.field(reading.field) {
        Some(at) => reads_found(alloc, tables, memo, state, reading, at),
        None => reads_out(alloc, tables, state, reading),
    }
}

/// What an instruction writes into a field, and of which object.
#[derive(Clone, Copy, Drop)]
pub struct Writing {
    pub field: u32,
    pub on: Option<Datum>,
    pub value: Datum,
}

/// The framework is shown that a field of it is written, and the frame on top goes on; there is room for both objects.
fn shows_written(
    state: &mut State<'_>,
    texts: FieldTexts,
    on: Option<Draft>,
    value: Draft,
) -> Option<Event>
    ensures { (l : Lookups) (o : Outside) (floats : Floats) (script : List Move) (steps : ℕ) (f : Frame) (field : ℕ) (holder : Option Value) (v : Value) → IsStep l steps state.old f → HasRoom state.old.world 2 → AreTextsOf l.program.now field texts → AreDrafts (world_in l state.old) (field_at l.program.now field).class holder on → IsDraft (world_in l state.old) (field_at l.program.now field).kind v value
        → IsEvent l steps script state.new result (comes_of l o floats script state.old f (writes_out (field_at l.program.now field) holder v (world_in l state.old) (frame_of (names_in l) f))) }
{
    let on = show_option(&mut state.world, on);
    let value = show(&mut state.world, value);
    state.go_on();
    let FieldTexts { class, name, kind } = texts;
    Some(Event::Put {
        class,
        name,
        kind,
        on,
        value,
    })
}

/// A field of the framework is written, which is shown.
fn writes_out<'a>(
    alloc: Global,
    tables: &Tables<'a>,
    state: &mut State<'a>,
    writing: Writing,
) -> Result<Option<Event>, AllocError>
    ensures ok { (o : Outside) (floats : Floats) (script : List Move) (steps : ℕ) (f : Frame) → IsStep tables.now.lookups steps state.old f → IsWriting tables.now.lookups state.old writing
        → IfOk result (λ e. IsEvent tables.now.lookups steps script state.new e (comes_of tables.now.lookups o floats script state.old f (writes_out (field_at tables.now.lookups.program.now writing.field) (option_map (value_of (names_in tables.now.lookups)) writing.on) (value_of (names_in tables.now.lookups) writing.value) (world_in tables.now.lookups state.old) (frame_of (names_in tables.now.lookups) f)))) }
    ensures err { OnErr result (IsReserved state.old state.new) }
{
    let texts = field_texts(alloc, tables, writing.field)?;
    let on = draft_on(alloc, tables, &state.world, writing.field, writing.on)?;
    let value = draft_value(alloc, tables, &state.world, writing.field, writing.value)?;
    reserve(state, 2)?;
    Ok(shows_written(state, texts, on, value))
}

/// Writes a static field of a class that is ready, and goes on.
fn writes_ready(tables: &Tables<'_>, state: &mut State<'_>, writing: Writing, at: (u32, u32))
    ensures { (o : Outside) (floats : Floats) (script : List Move) (steps : ℕ) (f : Frame) (place : Place) → IsStep tables.now.lookups steps state.old f → IsWriting tables.now.lookups state.old writing → IsFieldOf tables.now.lookups (field_at tables.now.lookups.program.now writing.field) place at.0 at.1
        → IsEvent tables.now.lookups steps script state.new None (comes_of tables.now.lookups o floats script state.old f (Stays (with_static (world_in tables.now.lookups state.old) (key_at (field_at tables.now.lookups.program.now writing.field) place) (value_of (names_in tables.now.lookups) writing.value)) (next (frame_of (names_in tables.now.lookups) f)) None)) }
{
    let (class, place) = at;
    put_static(tables, &mut state.world, class, place, writing.value);
    state.go_on();
}

/// Writes a static field of the program, whose class is initialised first.
fn writes_static<'a>(
    alloc: Global,
    tables: &Tables<'a>,
    memo: &mut Memo,
    state: &mut State<'a>,
    writing: Writing,
    at: (u32, u32),
) -> Result<Option<Event>, AllocError>
    ensures ok { (o : Outside) (floats : Floats) (script : List Move) (steps : ℕ) (f : Frame) (place : Place) → IsRun tables.now.lookups memo.old steps state.old → top_frame state.old.stack.items ≡ Some f → IsWriting tables.now.lookups state.old writing → IsFieldOf tables.now.lookups (field_at tables.now.lookups.program.now writing.field) place at.0 at.1
        → IfOk result (λ e. IsNext tables.now.lookups steps script memo.new state.new e (comes_of tables.now.lookups o floats script state.old f (writes_static (need_in tables.now.lookups state.old) (field_at tables.now.lookups.program.now writing.field) (value_of (names_in tables.now.lookups) writing.value) (world_in tables.now.lookups state.old) (frame_of (names_in tables.now.lookups) f) (Some place)))) }
    ensures err { (steps : ℕ) (place : Place) → IsRun tables.now.lookups memo.old steps state.old → IsFieldOf tables.now.lookups (field_at tables.now.lookups.program.now writing.field) place at.0 at.1 → OnErr result (IsUndoneWith tables.now.lookups steps memo.new state.old state.new) }
{
    match readies(alloc, tables, memo, state, at.0)? {
        Readied::Ready => {
            writes_ready(tables, state, writing, at);
            Ok(None)
        }
        Readied::Started => Ok(None),
        Readied::Failed(event) => Ok(event),
    }
}

/// Writes a field of an object, and goes on; another thing has no fields, and ends the run.
fn writes_instance(
    tables: &Tables<'_>,
    state: &mut State<'_>,
    writing: Writing,
    on: Datum,
    at: (u32, u32),
) -> Result<(), AllocError>
    ensures ok { (o : Outside) (floats : Floats) (script : List Move) (steps : ℕ) (f : Frame) (place : Place) → IsStep tables.now.lookups steps state.old f → IsWriting tables.now.lookups state.old writing → IsFieldOf tables.now.lookups (field_at tables.now.lookups.program.now writing.field) place at.0 at.1
        → OnOk result (IsEvent tables.now.lookups steps script state.new None (comes_of tables.now.lookups o floats script state.old f (writes_instance (field_at tables.now.lookups.program.now writing.field) (value_of (names_in tables.now.lookups) on) (value_of (names_in tables.now.lookups) writing.value) (world_in tables.now.lookups state.old) (frame_of (names_in tables.now.lookups) f) (Some place)))) }
    ensures err { OnErr result (IsReserved state.old state.new) }
{
    let (class, place) = at;
    let slot = tables.lookups.slot(class, place);
    if put_instance(&mut state.world, on, slot, writing.value)? {
        state.go_on();
    } else {
        state.end();
    }
    Ok(())
}

/// Writes a field that the program defines.
fn writes_found<'a>(
    alloc: Global,
    tables: &Tables<'a>,
    memo: &mut Memo,
    state: &mut State<'a>,
    writing: Writing,
    at: (u32, u32),
) -> Result<Option<Event>, AllocError>
    ensures ok { (o : Outside) (floats : Floats) (script : List Move) (steps : ℕ) (f : Frame) (place : Place) → IsRun tables.now.lookups memo.old steps state.old → top_frame state.old.stack.items ≡ Some f → IsWriting tables.now.lookups state.old writing → IsFieldOf tables.now.lookups (field_at tables.now.lookups.program.now writing.field) place at.0 at.1 → (run_face tables.now.lookups).field (field_at tables.now.lookups.program.now writing.field) ≡ Some place
        → IfOk result (λ e. IsNext tables.now.lookups steps script memo.new state.new e (comes_of tables.now.lookups o floats script state.old f (writes (run_face tables.now.lookups) (need_in tables.now.lookups state.old) (field_at tables.now.lookups.program.now writing.field) (option_map (value_of (names_in tables.now.lookups)) writing.on) (value_of (names_in tables.now.lookups) writing.value) (world_in tables.now.lookups state.old) (frame_of (names_in tables.now.lookups) f)))) }
    ensures err { (steps : ℕ) (f : Frame) (place : Place) → IsRun tables.now.lookups memo.old steps state.old → top_frame state.old.stack.items ≡ Some f → IsFieldOf tables.now.lookups (field_at tables.now.lookups.program.now writing.field) place at.0 at.1 → OnErr result (IsUndoneWith tables.now.lookups steps memo.new state.old state.new) }
{
    match writing.on {
        None => writes_static(alloc, tables, memo, state, writing, at),
        Some(on) => {
            writes_instance(tables, state, writing, on, at)?;
            Ok(None)
        }
    }
}

/// Writes a field for the frame on top of the stack.
pub fn writes<'a>(
    alloc: Global,
    tables: &Tables<'a>,
    memo: &mut Memo,
    state: &mut State<'a>,
    writing: Writing,
) -> Result<Option<Event>, AllocError>
    ensures ok { (o : Outside) (floats : Floats) (script : List Move) (steps : ℕ) (f : Frame) → IsRun tables.now.lookups memo.old steps state.old → top_frame state.old.stack.items ≡ Some f → IsWriting tables.now.lookups state.old writing
        → IfOk result (λ e. IsNext tables.now.lookups steps script memo.new state.new e (comes_of tables.now.lookups o floats script state.old f (writes (run_face tables.now.lookups) (need_in tables.now.lookups state.old) (field_at tables.now.lookups.program.now writing.field) (option_map (value_of (names_in tables.now.lookups)) writing.on) (value_of (names_in tables.now.lookups) writing.value) (world_in tables.now.lookups state.old) (frame_of (names_in tables.now.lookups) f)))) }
    ensures err { (steps : ℕ) (f : Frame) → IsRun tables.now.lookups memo.old steps state.old → top_frame state.old.stack.items ≡ Some f → IsWriting tables.now.lookups state.old writing → OnErr result (IsUndoneWith tables.now.lookups steps memo.new state.old state.new) }
{
    match tables.lookups.field(writing.field) {
        Some(at) => writes_found(alloc, tables, memo, state, writing, at),
        None => writes_out(alloc, tables, state, writing),
    }
}
