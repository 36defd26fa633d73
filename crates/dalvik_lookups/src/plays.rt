//! The moves of a script, all names being numbers.

ghost use Rattle.std.specs.Prelude.{◌≡◌, ◌<◌, ◌^◌, true, IfOk, OnOk};
ghost use Rattle.std.specs.Option.{option_map};
ghost use Rattle.program_model.specs.declared.program.Program.{Program};
ghost use Rattle.program_model.specs.ProgramRules.{is_well_formed};
ghost use Rattle.dalvik_defs.specs.declared.script.Given.TheVariants as giving;
ghost use Rattle.dalvik_defs.specs.declared.script.Move.TheVariants as moves;
ghost use Rattle.dalvik_lookups.specs.Playing.{AreEach, AreBoth, IsGift, IsField, IsPlay, ArePlays, Knows, field_of_kind};
ghost use Rattle.dalvik_lookups.specs.Views.{IsType, IsText};
ghost use Rattle.dalvik_lookups.specs.Declaring.{declared_method};
ghost use Rattle.dalvik_lookups.specs.Tables.{HasNames, AreReady, Grows};

use crate::declared::Declared;
use crate::lookups::{Names, class_in};
use crate::types::Kind;
use dalvik_defs::{Given, Move};
use dex_base::Text;
use program_model::MethodAt;
use seq::Seq;
use std::alloc::{AllocError, Global};

/// A value that the framework gives.
#[derive(Clone, Copy, PartialEq, Eq, Drop)]
pub enum Gift {
    Null,
    Word(u32),
    Wide(u64),
    Exposed(u32),
    New(Kind),
    Array { item: Kind, size: u32 },
    Literal(usize),
    Class(usize),
}

/// A field of a class by the places of both, and its type.
#[derive(Clone, Copy, PartialEq, Eq, Drop)]
pub struct FieldAt {
    pub class: u32,
    pub place: u32,
    pub kind: Kind,
}

/// A move of the framework. What it names is none where the program doesn't define it.
#[derive(Drop)]
pub enum Play {
    Enter {
        found: Option<MethodAt>,
        values: Vec<Gift>,
    },
    Make {
        class: Option<u32>,
    },
    Return {
        value: Option<Gift>,
    },
    Throw {
        value: Gift,
    },
    Get {
        field: Option<FieldAt>,
        on: Option<Gift>,
    },
    Put {
        field: Option<FieldAt>,
        on: Option<Gift>,
        value: Gift,
    },
    ArrayGet {
        on: Gift,
        place: u32,
    },
    ArrayPut {
        on: Gift,
        place: u32,
        value: Gift,
    },
    ArrayLength {
        on: Gift,
    },
}

/// A type that a script names.
fn add_type<'a>(names: &mut Names<'a>, units: &'a [u16]) -> Result<Kind, AllocError>
    ensures grows { AreReady names.old → OnOk result (Grows names.old names.new) }
    ensures is { AreReady names.old → IfOk result (λ k. IsType names.new.types k units.now) }
    ensures deep { AreReady names.old → IfOk result (λ k. k.depth < 2 ^ 63) }
{
    names.types.add(units)
}

/// A text that a script names.
fn add_text<'a>(names: &mut Names<'a>, units: &'a [u16]) -> Result<usize, AllocError>
    ensures grows { AreReady names.old → OnOk result (Grows names.old names.new) }
    ensures is { AreReady names.old → IfOk result (λ n. IsText names.new.texts n units.now) }
{
    names.texts.add(units)
}

/// A new object of a type.
fn new_of<'a>(names: &mut Names<'a>, named: &'a Text) -> Result<Gift, AllocError>
    ensures grows { AreReady names.old → OnOk result (Grows names.old names.new) }
    ensures is { AreReady names.old → IfOk result (IsGift names.new.types names.new.texts (giving.New named.now)) }
{
    let kind = add_type(names, named.units())?;
    Ok(Gift::New(kind))
}

/// A new array of items of a type.
fn array_of<'a>(names: &mut Names<'a>, named: &'a Text, size: u32) -> Result<Gift, AllocError>
    ensures grows { AreReady names.old → OnOk result (Grows names.old names.new) }
    ensures is { AreReady names.old → IfOk result (IsGift names.new.types names.new.texts (giving.Array named.now size)) }
{
    let item = add_type(names, named.units())?;
    Ok(Gift::Array { item, size })
}

/// A string.
fn literal_of<'a>(names: &mut Names<'a>, text: &'a Text) -> Result<Gift, AllocError>
    ensures grows { AreReady names.old → OnOk result (Grows names.old names.new) }
    ensures is { AreReady names.old → IfOk result (IsGift names.new.types names.new.texts (giving.Literal text.now)) }
{
    let number = add_text(names, text.units())?;
    Ok(Gift::Literal(number))
}

/// The class object of a type.
fn class_of<'a>(names: &mut Names<'a>, named: &'a Text) -> Result<Gift, AllocError>
    ensures grows { AreReady names.old → OnOk result (Grows names.old names.new) }
    ensures is { AreReady names.old → IfOk result (IsGift names.new.types names.new.texts (giving.Class named.now)) }
{
    let number = add_text(names, named.units())?;
    Ok(Gift::Class(number))
}

/// A given value by numbers.
fn gift_of<'a>(names: &mut Names<'a>, given: &'a Given) -> Result<Gift, AllocError>
    ensures grows { AreReady names.old → OnOk result (Grows names.old names.new) }
    ensures is { AreReady names.old → IfOk result (IsGift names.new.types names.new.texts given.now) }
{
    match given {
        Given::Null => Ok(Gift::Null),
        Given::Word(word) => Ok(Gift::Word(*word)),
        Given::Wide(wide) => Ok(Gift::Wide(*wide)),
        Given::Exposed(place) => Ok(Gift::Exposed(*place)),
        Given::New(kind) => new_of(names, kind),
        Given::Array { item, size } => array_of(names, item, *size),
        Given::Literal(text) => literal_of(names, text),
        Given::Class(kind) => class_of(names, kind),
    }
}

/// A given value that may be none.
fn option_of<'a>(
    names: &mut Names<'a>,
    given: &'a Option<Given>,
) -> Result<Option<Gift>, AllocError>
    ensures grows { AreReady names.old → OnOk result (Grows names.old names.new) }
    ensures is { AreReady names.old → IfOk result (AreBoth (IsGift names.new.types names.new.texts) given.now) }
{
    match given {
        Some(value) => {
            let gift = gift_of(names, value)?;
            Ok(Some(gift))
        }
        None => Ok(None),
    }
}

/// Given values.
fn gifts_of<'a>(
    alloc: Global,
    names: &mut Names<'a>,
    values: &'a [Given],
) -> Result<Vec<Gift>, AllocError>
    ensures grows { AreReady names.old → OnOk result (Grows names.old names.new) }
    ensures is { AreReady names.old → IfOk result (λ gifts. AreEach (IsGift names.new.types names.new.texts) values.now gifts.items) }
{
    let mut gifts = Vec::new(alloc);
    for value in values {
        gifts.push(gift_of(names, value)?)?;
    }
    Ok(gifts)
}

/// A field that was found, with its type.
fn with_kind(found: Option<(u32, u32)>, kind: Kind) -> Option<FieldAt>
    ensures { result ≡ option_map (field_of_kind kind) found }
{
    match found {
        Some((class, place)) => Some(FieldAt { class, place, kind }),
        None => None,
    }
}

/// A field that a move names.
fn field_of<'a>(
    names: &mut Names<'a>,
    declared: &Declared,
    class: &'a Text,
    name: &'a Text,
    kind: &'a Text,
) -> Result<Option<FieldAt>, AllocError>
    ensures grows { AreReady names.old → OnOk result (Grows names.old names.new) }
    ensures is { (p : Program) → Knows p names.old declared.now → IfOk result (IsField p names.new.types class.now name.now kind.now) }
{
    let owner = add_type(names, class.units())?;
    let text = add_text(names, name.units())?;
    let of = add_type(names, kind.units())?;
    Ok(with_kind(declared.field(names, owner, text, of), of))
}

/// A method that a move names.
fn method_of<'a>(
    names: &mut Names<'a>,
    declared: &Declared,
    class: &'a Text,
    name: &'a Text,
    proto: &'a Text,
) -> Result<Option<MethodAt>, AllocError>
    ensures grows { AreReady names.old → OnOk result (Grows names.old names.new) }
    ensures is { (p : Program) → Knows p names.old declared.now → IfOk result (λ found. found ≡ declared_method p class.now name.now proto.now) }
{
    let owner = add_type(names, class.units())?;
    let text = add_text(names, name.units())?;
    Ok(declared.method(names, owner, text, proto.units()))
}

/// A method that a move enters, with its values.
fn enter_of<'a>(
    alloc: Global,
    names: &mut Names<'a>,
    declared: &Declared,
    class: &'a Text,
    name: &'a Text,
    proto: &'a Text,
    values: &'a Seq<Given>,
) -> Result<Play, AllocError>
    ensures grows { AreReady names.old → OnOk result (Grows names.old names.new) }
    ensures is { (p : Program) → Knows p names.old declared.now → IfOk result (IsPlay p names.new.types names.new.texts (moves.Enter class.now name.now proto.now values.now)) }
{
    let found = method_of(names, declared, class, name, proto)?;
    let values = gifts_of(alloc, names, values.as_slice())?;
    Ok(Play::Enter { found, values })
}

/// A class that a move makes an object of.
fn make_of<'a>(names: &mut Names<'a>, class: &'a Text) -> Result<Play, AllocError>
    ensures grows { AreReady names.old → OnOk result (Grows names.old names.new) }
    ensures is { (p : Program) → is_well_formed p ≡ true → HasNames p names.old → IfOk result (IsPlay p names.new.types names.new.texts (moves.Make class.now)) }
{
    let kind = add_type(names, class.units())?;
    Ok(Play::Make {
        class: class_in(names.class_of.as_slice(), kind),
    })
}

/// An answer.
fn return_of<'a>(names: &mut Names<'a>, value: &'a Option<Given>) -> Result<Play, AllocError>
    ensures grows { AreReady names.old → OnOk result (Grows names.old names.new) }
    ensures is { (p : Program) → AreReady names.old → IfOk result (IsPlay p names.new.types names.new.texts (moves.Return value.now)) }
{
    let value = option_of(names, value)?;
    Ok(Play::Return { value })
}

/// An object that is thrown.
fn throw_of<'a>(names: &mut Names<'a>, value: &'a Given) -> Result<Play, AllocError>
    ensures grows { AreReady names.old → OnOk result (Grows names.old names.new) }
    ensures is { (p : Program) → AreReady names.old → IfOk result (IsPlay p names.new.types names.new.texts (moves.Throw value.now)) }
{
    let value = gift_of(names, value)?;
    Ok(Play::Throw { value })
}

/// A read of a field.
fn get_of<'a>(
    names: &mut Names<'a>,
    declared: &Declared,
    class: &'a Text,
    name: &'a Text,
    kind: &'a Text,
    on: &'a Option<Given>,
) -> Result<Play, AllocError>
    ensures grows { AreReady names.old → OnOk result (Grows names.old names.new) }
    ensures is { (p : Program) → Knows p names.old declared.now → IfOk result (IsPlay p names.new.types names.new.texts (moves.Get class.now name.now kind.now on.now)) }
{
    let field = field_of(names, declared, class, name, kind)?;
    let on = option_of(names, on)?;
    Ok(Play::Get { field, on })
}

/// A write of a field.
fn put_of<'a>(
    names: &mut Names<'a>,
    declared: &Declared,
    class: &'a Text,
    name: &'a Text,
    kind: &'a Text,
    on: &'a Option<Given>,
    value: &'a Given,
) -> Result<Play, AllocError>
    ensures grows { AreReady names.old → OnOk result (Grows names.old names.new) }
    ensures is { (p : Program) → Knows p names.old declared.now → IfOk result (IsPlay p names.new.types names.new.texts (moves.Put class.now name.now kind.now on.now value.now)) }
{
    let field = field_of(names, declared, class, name, kind)?;
    let on = option_of(names, on)?;
    let value = gift_of(names, value)?;
    Ok(Play::Put { field, on, value })
}

/// A read of an array's item.
fn array_get_of<'a>(names: &mut Names<'a>, on: &'a Given, place: u32) -> Result<Play, AllocError>
    ensures grows { AreReady names.old → OnOk result (Grows names.old names.new) }
    ensures is { (p : Program) → AreReady names.old → IfOk result (IsPlay p names.new.types names.new.texts (moves.ArrayGet on.now place)) }
{
    let on = gift_of(names, on)?;
    Ok(Play::ArrayGet { on, place })
}

/// A write of an array's item.
fn array_put_of<'a>(
    names: &mut Names<'a>,
    on: &'a Given,
    place: u32,
    value: &'a Given,
) -> Result<Play, AllocError>
    ensures grows { AreReady names.old → OnOk result (Grows names.old names.new) }
    ensures is { (p : Program) → AreReady names.old → IfOk result (IsPlay p names.new.types names.new.texts (moves.ArrayPut on.now place value.now)) }
{
    let on = gift_of(names, on)?;
    let value = gift_of(names, value)?;
    Ok(Play::ArrayPut { on, place, value })
}

/// A question for an array's length.
fn array_length_of<'a>(names: &mut Names<'a>, on: &'a Given) -> Result<Play, AllocError>
    ensures grows { AreReady names.old → OnOk result (Grows names.old names.new) }
    ensures is { (p : Program) → AreReady names.old → IfOk result (IsPlay p names.new.types names.new.texts (moves.ArrayLength on.now)) }
{
    let on = gift_of(names, on)?;
    Ok(Play::ArrayLength { on })
}

/// A move by numbers.
fn play_of<'a>(
    alloc: Global,
    names: &mut Names<'a>,
    declared: &Declared,
    one: &'a Move,
) -> Result<Play, AllocError>
    ensures grows { AreReady names.old → OnOk result (Grows names.old names.new) }
    ensures is { (p : Program) → Knows p names.old declared.now → IfOk result (IsPlay p names.new.types names.new.texts one.now) }
{
    match one {
        Move::Enter {
            class,
            name,
            proto,
            values,
        } => enter_of(alloc, names, declared, class, name, proto, values),
        Move::Make { class } => make_of(names, class),
        Move::Return { value } => return_of(names, value),
        Move::Throw { value } => throw_of(names, value),
        Move::Get {
            class,
            name,
            kind,
            on,
        } => get_of(names, declared, class, name, kind, on),
        Move::Put {
            class,
            name,
            kind,
            on,
            value,
        } => put_of(names, declared, class, name, kind, on, value),
        Move::ArrayGet { on, place } => array_get_of(names, on, *place),
        Move::ArrayPut { on, place, value } => array_put_of(names, on, *place, value),
        Move::ArrayLength { on } => array_length_of(names, on),
    }
}

/// The moves of a script by numbers.
pub(crate) fn plays_of<'a>(
    alloc: Global,
    names: &mut Names<'a>,
    declared: &Declared,
    script: &'a [Move],
) -> Result<Vec<Play>, AllocError>
    ensures grows { AreReady names.old → OnOk result (Grows names.old names.new) }
    ensures are { (p : Program) → Knows p names.old declared.now → IfOk result (λ plays. ArePlays p names.new.types names.new.texts script.now plays.items) }
{
    let mut plays = Vec::new(alloc);
    for one in script {
        plays.push(play_of(alloc, names, declared, one)?)?;
    }
    Ok(plays)
}
