//! The values that the framework gives in one move.

ghost use Rattle.std.specs.Prelude.{◌≡◌, ◌≤◌, ◌+◌, ◌++◌, ◌∷◌, ◌||◌, [], ℕ, true, length, is_none, slice_get, IfOk, OnOk, Option};
ghost use Rattle.std.specs.Option.{option_map};
ghost use Rattle.program_model.specs.declared.pass.Outside.{Outside};
ghost use Rattle.dalvik_defs.specs.Face.{is_plain_class};
ghost use Rattle.dalvik_defs.specs.Names.{is_array, is_wide, is_word};
ghost use Rattle.dalvik_defs.specs.Gives.{fits, is_on, may_give, may_throw, reference_fits, value_fits};
ghost use Rattle.dalvik_defs.specs.Outer.{outer_of};
ghost use Rattle.dalvik_defs.specs.State.{World as NamedWorld};
ghost use Rattle.dalvik_defs.specs.declared.script.Given.{Given};
ghost use Rattle.dalvik_defs.specs.declared.script.Given.TheVariants as giving;
ghost use Rattle.dalvik_lookups.specs.Facing.{run_face};
ghost use Rattle.dalvik_lookups.specs.Playing.{AreBoth, IsGift};
ghost use Rattle.dalvik_lookups.specs.Tables.{place_named, IsRight};
ghost use Rattle.dalvik_lookups.specs.Views.{type_text, AreTypes, IsKind};
ghost use Rattle.dalvik_lookups.specs.Walks.{IsKept};
ghost use Rattle.dalvik_lookups.specs.declared.lookups.Lookups.{Lookups};
ghost use Rattle.dalvik_state.specs.Drafts.{gift_spots, given_exposed, given_spots, given_world};
ghost use Rattle.dalvik_state.specs.Giving.{kept_or_free, own_taken, AreGiven, IsGiven, IsGivenFine, Takes, TakesMaybe};
ghost use Rattle.dalvik_state.specs.Runs.{IsReach};
ghost use Rattle.dalvik_state.specs.States.{HasRoom, HasSpace, IsFineKind};
ghost use Rattle.dalvik_state.specs.Views.{names_in, value_of};
ghost use Rattle.dalvik_state.specs.Worlds.{kind_in, spots_of, IsExposed};

use crate::datum::Datum;
use crate::items::zeros;
use crate::state::Tables;
use crate::world::{Cell, Exposed, Thing, World};
use dalvik_lookups::{Gift, Kind, Memo, known};
use std::alloc::{AllocError, Global};

/// The new objects of a move, which are to follow those of the heap and the exposed ones, in order.
#[derive(Drop)]
pub struct Gifts {
    things: Vec<Thing>,
}

/// A given value, and whether it may be given.
#[derive(Clone, Copy, Drop)]
pub struct Taken {
    pub datum: Datum,
    pub allowed: bool,
}

/// The number of the exposed object with a place.
fn number_of(world: &World, place: u32) -> Option<u64>
    ensures { result ≡ option_map (λ e. e.number) (slice_get world.now.exposed.items place) }
{
    match world.exposed.as_slice().get(place as usize) {
        Some(one) => Some(one.number),
        None => None,
    }
}

/// Whether a type is primitive.
fn is_primitive(tables: &Tables<'_>, kind: Kind) -> bool
    ensures { AreTypes tables.now.lookups.types → result ≡ (is_word (type_text tables.now.lookups.types kind) || is_wide (type_text tables.now.lookups.types kind)) }
{
    tables.lookups.types.is_word(kind) || tables.lookups.types.is_wide(kind)
}

/// Whether the program doesn't define a type.
fn is_free(tables: &Tables<'_>, kind: Kind) -> bool
    ensures { IsRight tables.now.lookups → IsKind tables.now.lookups.types kind → result ≡ is_none (place_named tables.now.lookups.program.now (type_text tables.now.lookups.types kind)) }
{
    match tables.lookups.class_at(kind) {
        Some(_) => false,
        None => true,
    }
}

/// Whether a class is kept, or the program doesn't define it.
fn is_kept_or_free(tables: &Tables<'_>, kind: Kind) -> bool
    ensures { (o : Outside) → IsRight tables.now.lookups → IsReach tables.now.lookups o → IsKind tables.now.lookups.types kind → result ≡ kept_or_free tables.now.lookups o (type_text tables.now.lookups.types kind) }
{
    tables.lookups.outer.keeps_class(kind) || is_free(tables, kind)
}

impl Taken {
    /// A value that may be given.
    fn allowed(datum: Datum) -> Taken
        ensures { result ≡ record { datum = datum; allowed = true } }
    {
        Taken {
            datum,
            allowed: true,
        }
    }
}

impl Gifts {
    /// No objects.
    pub fn new(alloc: Global) -> Gifts
        ensures { result.things.items ≡ [] }
    {
        Gifts {
            things: Vec::new(alloc),
        }
    }

    /// The number that an object at a place among these will have.
    fn number_at(&self, world: &World, place: usize) -> u64
        ensures { place ≤ length self.now.things.items → result ≡ length (spots_of world.now) + place }
    {
        let _count = self.things.as_slice().len();
        world.next_number().saturating_add(place as u64)
    }

    /// Adds an object, and answers the reference that it will have.
    fn add(&mut self, world: &World, thing: Thing) -> Result<Datum, AllocError>
        ensures datum { IfOk result (λ d. d ≡ Datum.Object (length (spots_of world.now) + length self.old.things.items)) }
        ensures things { OnOk result (self.new.things.items ≡ self.old.things.items ++ thing ∷ []) }
    {
        let number = self.number_at(world, self.things.len());
        self.things.push(thing)?;
        Ok(Datum::Object(number))
    }

    /// The object of these that is exposed at a place behind what was exposed before.
    fn own_exposed(&self, world: &World, own: usize) -> Taken
        ensures { result ≡ own_taken (length (spots_of world.now)) (length self.now.things.items) own }
    {
        if own < self.things.len() {
            Taken {
                datum: Datum::Object(self.number_at(world, own)),
                allowed: true,
            }
        } else {
            Taken {
                datum: Datum::NULL,
                allowed: false,
            }
        }
    }

    /// The exposed object with a place, which may be one of these.
    fn exposed(&self, world: &World, place: u32) -> Taken
        ensures { (l : Lookups) (o : Outside) → IsGiven l world.now self.now → Takes l o world.now self.now self.now (giving.Exposed place) result }
    {
        match number_of(world, place) {
            Some(number) => Taken {
                datum: Datum::Object(number),
                allowed: true,
            },
            None => self.own_exposed(world, (place as usize).saturating_sub(world.exposed.len())),
        }
    }

    /// Whether an object of a type may be given: of a class that the program doesn't define.
    fn may_give_new(tables: &Tables<'_>, kind: Kind) -> bool
        ensures { (o : Outside) (w : NamedWorld) → IsRight tables.now.lookups → IsKind tables.now.lookups.types kind → result ≡ may_give (run_face tables.now.lookups) (outer_of tables.now.lookups.program.now o) w (giving.New (type_text tables.now.lookups.types kind)) }
    {
        tables.lookups.types.is_class_type(kind) && is_free(tables, kind)
    }

    /// Whether an array of such items may be given: of a primitive type, of a kept class, or of a class that the program
    /// doesn't define.
    fn may_give_array(tables: &Tables<'_>, item: Kind) -> bool
        ensures { (o : Outside) (w : NamedWorld) (size : ℕ) → IsRight tables.now.lookups → IsReach tables.now.lookups o → IsKind tables.now.lookups.types item → result ≡ may_give (run_face tables.now.lookups) (outer_of tables.now.lookups.program.now o) w (giving.Array (type_text tables.now.lookups.types item) size) }
    {
        let base = Kind::plain(item.base);
        if is_primitive(tables, base) {
            return true;
        }
        tables.lookups.types.is_class_type(base) && is_kept_or_free(tables, base)
    }

    /// Takes a new object of a class.
    fn take_new(
        &mut self,
        tables: &Tables<'_>,
        world: &World,
        kind: Kind,
    ) -> Result<Taken, AllocError>
        ensures { (o : Outside) → IsRight tables.now.lookups → IsGiven tables.now.lookups world.now self.old → IsFineKind tables.now.lookups kind → IfOk result (Takes tables.now.lookups o world.now self.old self.new (giving.New (type_text tables.now.lookups.types kind))) }
    {
        let allowed = Gifts::may_give_new(tables, kind);
        let datum = self.add(world, Thing::Instance(kind))?;
        Ok(Taken { datum, allowed })
    }

    /// Takes a new array.
    fn take_array(
        &mut self,
        alloc: Global,
        tables: &Tables<'_>,
        world: &World,
        item: Kind,
        size: u32,
    ) -> Result<Taken, AllocError>
        ensures { (o : Outside) → IsRight tables.now.lookups → IsReach tables.now.lookups o → IsGiven tables.now.lookups world.now self.old → IsFineKind tables.now.lookups item → IfOk result (Takes tables.now.lookups o world.now self.old self.new (giving.Array (type_text tables.now.lookups.types item) size)) }
    {
        let allowed = Gifts::may_give_array(tables, item);
        let thing = zeros(alloc, tables, item, size)?;
        let datum = self.add(world, thing)?;
        Ok(Taken { datum, allowed })
    }

    /// Takes a value that the framework gives.
    pub fn take(
        &mut self,
        alloc: Global,
        tables: &Tables<'_>,
        world: &World,
        gift: Gift,
    ) -> Result<Taken, AllocError>
        ensures { (o : Outside) (g : Given) → IsRight tables.now.lookups → IsReach tables.now.lookups o → IsGiven tables.now.lookups world.now self.old → IsGift tables.now.lookups.types tables.now.lookups.texts g gift → IfOk result (Takes tables.now.lookups o world.now self.old self.new g) }
    {
        match gift {
            Gift::Null => Ok(Taken::allowed(Datum::NULL)),
            Gift::Word(word) => Ok(Taken::allowed(Datum::Word(word))),
            Gift::Wide(wide) => Ok(Taken::allowed(Datum::Low(wide))),
            Gift::Exposed(place) => Ok(self.exposed(world, place)),
            Gift::New(kind) => self.take_new(tables, world, kind),
            Gift::Array { item, size } => self.take_array(alloc, tables, world, item, size),
            Gift::Literal(text) => Ok(Taken::allowed(Datum::Literal(text))),
            Gift::Class(text) => Ok(Taken::allowed(Datum::Class(text))),
        }
    }

    /// Takes a value that may be none.
    pub fn take_option(
        &mut self,
        alloc: Global,
        tables: &Tables<'_>,
        world: &World,
        gift: Option<Gift>,
    ) -> Result<Option<Taken>, AllocError>
        ensures { (o : Outside) (g : Option Given) → IsRight tables.now.lookups → IsReach tables.now.lookups o → IsGiven tables.now.lookups world.now self.old → AreBoth (IsGift tables.now.lookups.types tables.now.lookups.texts) g gift → IfOk result (TakesMaybe tables.now.lookups o world.now self.old self.new g) }
    {
        match gift {
            Some(gift) => {
                let taken = self.take(alloc, tables, world, gift)?;
                Ok(Some(taken))
            }
            None => Ok(None),
        }
    }

    /// The type of what a value refers to, which may be one of these objects.
    pub fn kind_of(&self, world: &World, datum: Datum) -> Option<Kind>
        ensures { result ≡ kind_in (gift_spots world.now self.now) datum }
    {
        match datum {
            Datum::Object(number) => {
                match self
                    .things
                    .as_slice()
                    .get(number.saturating_sub(world.next_number()) as usize)
                {
                    Some(thing) if number >= world.next_number() => Some(thing.kind()),
                    _ => world.kind_of(datum),
                }
            }
            _ => world.kind_of(datum),
        }
    }

    /// Whether a value isn't null and of a type under another.
    pub fn is_on(
        &self,
        tables: &Tables<'_>,
        memo: &mut Memo,
        world: &World,
        datum: Datum,
        kind: Kind,
    ) -> Result<bool, AllocError>
        ensures kept { IsRight tables.now.lookups → IsKept tables.now.lookups memo.old → IsGiven tables.now.lookups world.now self.now → IsKind tables.now.lookups.types kind → IsKept tables.now.lookups memo.new }
        ensures is { IsRight tables.now.lookups → IsKept tables.now.lookups memo.old → IsGiven tables.now.lookups world.now self.now → IsGivenFine tables.now.lookups world.now self.now datum → IsKind tables.now.lookups.types kind → IfOk result (λ b. b ≡ is_on (run_face tables.now.lookups) (given_world (names_in tables.now.lookups) world.now self.now) (value_of (names_in tables.now.lookups) datum) (type_text tables.now.lookups.types kind)) }
    {
        match self.kind_of(world, datum) {
            Some(own) => tables.lookups.is_under(memo, own, kind),
            None => Ok(false),
        }
    }

    /// How many objects there are.
    pub fn len(&self) -> usize
        ensures { result ≡ length self.now.things.items }
    {
        self.things.len()
    }

    /// Makes room for the objects, and for so many more.
    pub fn reserve(&self, world: &mut World, more: usize) -> Result<(), AllocError>
        ensures same { IsExposed world.old world.new (spots_of world.old) world.old.exposed.items }
        ensures room { OnOk result (HasRoom world.new (length self.now.things.items + more)) }
        ensures space { OnOk result (HasSpace world.new (length self.now.things.items + more)) }
    {
        let count = match self.things.len().checked_add(more) {
            Some(count) => count,
            None => return Err(AllocError),
        };
        world.heap.reserve(count)?;
        world.exposed.reserve(count)?;
        Ok(())
    }

    /// Puts the objects on the heap and gives them their places; there is room for them.
    pub fn give(self, world: &mut World)
        ensures given { (l : Lookups) → IsGiven l world.old self → HasRoom world.old (length self.things.items) → HasSpace world.old (length self.things.items) → AreGiven l self world.old world.new }
        ensures room { (count : ℕ) → HasRoom world.old (length self.things.items + count) → HasRoom world.new count }
        ensures space { (count : ℕ) → HasSpace world.old (length self.things.items + count) → HasSpace world.new count }
    {
        let Gifts { things } = self;
        for thing in things {
            give_one(world, thing);
        }
    }
}

/// Puts an object on the heap, and exposes it there.
#[tactic(auto, using(crate::proofs::Room::room_less, crate::proofs::Room::space_less))]
fn give_one(world: &mut World, thing: Thing)
    ensures given { HasRoom world.old 1 → HasSpace world.old 1 → IsExposed world.old world.new (given_spots (spots_of world.old) world.old.exposed.items thing) (given_exposed (spots_of world.old) world.old.exposed.items) }
    ensures room { (count : ℕ) → HasRoom world.old (count + 1) → HasRoom world.new count }
    ensures space { (count : ℕ) → HasSpace world.old (count + 1) → HasSpace world.new count }
{
    let place = Some(world.exposed.len());
    let number = world.next_number();
    let _ = world.heap.push(Cell { thing, place });
    let _ = world.exposed.push(Exposed {
        number,
        printed: false,
    });
}

/// Whether a type is that of a program class that is no interface, or of an array.
fn is_strict(tables: &Tables<'_>, kind: Kind) -> bool
    ensures { IsRight tables.now.lookups → IsKind tables.now.lookups.types kind → result ≡ (is_plain_class (run_face tables.now.lookups) (type_text tables.now.lookups.types kind) || is_array (type_text tables.now.lookups.types kind)) }
{
    tables.is_plain_class(kind) || kind.is_array()
}

/// Whether an object fits a type: it is under it where that is of a program class that is no interface, or of an array.
fn reference_fits(
    tables: &Tables<'_>,
    memo: &mut Memo,
    world: &World,
    gifts: &Gifts,
    datum: Datum,
    kind: Kind,
) -> Result<bool, AllocError>
    ensures kept { IsRight tables.now.lookups → IsKept tables.now.lookups memo.old → IsGiven tables.now.lookups world.now gifts.now → IsKind tables.now.lookups.types kind → IsKept tables.now.lookups memo.new }
    ensures is { IsRight tables.now.lookups → IsKept tables.now.lookups memo.old → IsGiven tables.now.lookups world.now gifts.now → IsGivenFine tables.now.lookups world.now gifts.now datum → IsKind tables.now.lookups.types kind → IfOk result (λ b. b ≡ reference_fits (run_face tables.now.lookups) (given_world (names_in tables.now.lookups) world.now gifts.now) (value_of (names_in tables.now.lookups) datum) (type_text tables.now.lookups.types kind)) }
{
    if is_strict(tables, kind) {
        gifts.is_on(tables, memo, world, datum, kind)
    } else {
        Ok(tables.lookups.types.is_reference(kind))
    }
}

/// Whether a given value fits a type: a word or a wide of the right width; null or an object for a reference.
fn value_fits(
    tables: &Tables<'_>,
    memo: &mut Memo,
    world: &World,
    gifts: &Gifts,
    given: (Gift, Datum),
    kind: Kind,
) -> Result<bool, AllocError>
    ensures kept { IsRight tables.now.lookups → IsKept tables.now.lookups memo.old → IsGiven tables.now.lookups world.now gifts.now → IsKind tables.now.lookups.types kind → IsKept tables.now.lookups memo.new }
    ensures is { (g : Given) → IsRight tables.now.lookups → IsKept tables.now.lookups memo.old → IsGiven tables.now.lookups world.now gifts.now → IsGivenFine tables.now.lookups world.now gifts.now given.1 → IsGift tables.now.lookups.types tables.now.lookups.texts g given.0 → IsKind tables.now.lookups.types kind → IfOk result (λ b. b ≡ value_fits (run_face tables.now.lookups) (given_world (names_in tables.now.lookups) world.now gifts.now) g (value_of (names_in tables.now.lookups) given.1) (type_text tables.now.lookups.types kind)) }
{
    let types = &tables.lookups.types;
    match given.0 {
        Gift::Null => Ok(types.is_reference(kind)),
        Gift::Word(_) => Ok(types.is_word(kind)),
        Gift::Wide(_) => Ok(types.is_wide(kind)),
        Gift::Exposed(_) | Gift::New(_) | Gift::Array { .. } | Gift::Literal(_) | Gift::Class(_) =>
            { reference_fits(tables, memo, world, gifts, given.1, kind) }
    }
}

/// Whether a value may be given, and fits a type.
pub fn fits(
    tables: &Tables<'_>,
    memo: &mut Memo,
    world: &World,
    gifts: &Gifts,
    given: (Gift, Taken),
    kind: Kind,
) -> Result<bool, AllocError>
    ensures kept { IsRight tables.now.lookups → IsKept tables.now.lookups memo.old → IsGiven tables.now.lookups world.now gifts.now → IsKind tables.now.lookups.types kind → IsKept tables.now.lookups memo.new }
    ensures is { (o : Outside) (before : NamedWorld) (g : Given) → IsRight tables.now.lookups → IsKept tables.now.lookups memo.old → IsGiven tables.now.lookups world.now gifts.now → IsGivenFine tables.now.lookups world.now gifts.now given.1.datum → IsGift tables.now.lookups.types tables.now.lookups.texts g given.0 → given.1.allowed ≡ may_give (run_face tables.now.lookups) (outer_of tables.now.lookups.program.now o) before g → IsKind tables.now.lookups.types kind
        → IfOk result (λ b. b ≡ fits (run_face tables.now.lookups) (outer_of tables.now.lookups.program.now o) before (given_world (names_in tables.now.lookups) world.now gifts.now) g (value_of (names_in tables.now.lookups) given.1.datum) (type_text tables.now.lookups.types kind)) }
{
    let (gift, taken) = given;
    let allowed = taken.allowed;
    if allowed {
        value_fits(tables, memo, world, gifts, (gift, taken.datum), kind)
    } else {
        Ok(false)
    }
}

/// Whether a value may be given, fits `Ljava/lang/Throwable;`, and is of a type under it.
pub fn may_throw(
    tables: &Tables<'_>,
    memo: &mut Memo,
    world: &World,
    gifts: &Gifts,
    given: (Gift, Taken),
) -> Result<bool, AllocError>
    ensures kept { IsRight tables.now.lookups → IsKept tables.now.lookups memo.old → IsGiven tables.now.lookups world.now gifts.now → IsKept tables.now.lookups memo.new }
    ensures is { (o : Outside) (before : NamedWorld) (g : Given) → IsRight tables.now.lookups → IsKept tables.now.lookups memo.old → IsGiven tables.now.lookups world.now gifts.now → IsGivenFine tables.now.lookups world.now gifts.now given.1.datum → IsGift tables.now.lookups.types tables.now.lookups.texts g given.0 → given.1.allowed ≡ may_give (run_face tables.now.lookups) (outer_of tables.now.lookups.program.now o) before g
        → IfOk result (λ b. b ≡ may_throw (run_face tables.now.lookups) (outer_of tables.now.lookups.program.now o) before (given_world (names_in tables.now.lookups) world.now gifts.now) g (value_of (names_in tables.now.lookups) given.1.datum)) }
{
    let kind = Kind::plain(known::THROWABLE);
    let fit = fits(tables, memo, world, gifts, given, kind)?;
    if fit {
        gifts.is_on(tables, memo, world, given.1.datum, kind)
    } else {
        Ok(false)
    }
}
