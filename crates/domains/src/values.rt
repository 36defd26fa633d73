//! All that is known of the content of a register.

ghost use Rattle.std.specs.Prelude.{◌≡◌, ◌≤◌, ℕ, length, ◌↔◌, IsTrue, Contains, Option, Some, None, IfSome, false, ◌==◌, if◌then◌else◌};
ghost use Rattle.domains.specs.declared.nulls.Nullness.TheVariants.{Bottom, Null, NotNull, Any};
ghost use Rattle.domains.specs.Reducing.{any_number, known_value, reduced, with_number as numbers};
ghost use Rattle.std.specs.Option.{option_copied};
ghost use Rattle.domains.specs.Datum.{Datum, Plain, Single, Double, Object};
ghost use Rattle.domains.specs.ClassSets.{Ascends, is_no_set, set_holds};
ghost use Rattle.domains.specs.Values.{value_holds, HoldsOnly, HoldAlike, least_value, constant_value, wide_value, objects_value, any_value, IsReduced};

use crate::class_sets::ClassSet;
use crate::nulls::Nullness;
use crate::numbers::Word;
use crate::ranges::Interval;
use lattice_core::{Domain, Lattice};
use pat_map::MapValue;
use std::alloc::{AllocError, Global};
use std::marker::Model;

/// A word or a wide number, an interval of words, nullness and classes, which hold together.
///
/// A value holds of a word that its word part, its interval and its nullness allow, of a wide number that its word part
/// and its nullness allow, and of an object that its classes and its nullness allow. It is kept reduced: no part allows
/// what the others rule out, as far as that part can say it.
#[derive(Drop)]
pub struct Value {
    word: Word,
    interval: Interval,
    nullness: Nullness,
    classes: ClassSet,
}

impl Model for Value {
    ghost use Rattle.domains.specs.Values.{Parts, IsReduced};

    ghost Value = { Parts };

    ghost view = { λ v. record { word = v.word; interval = v.interval; nullness = v.nullness; classes = v.classes } };

    ghost invariant = { λ v. IsReduced (record { word = v.word; interval = v.interval; nullness = v.nullness; classes = v.classes }) };
}

impl Value {
    /// The value of one word of 32 bits, which may be null.
    pub fn constant(word: u32) -> Value
        ensures is { result ≡ constant_value word }
        ensures alone { HoldsOnly result (Plain (Single word)) }
    {
        Value {
            word: Word::Known(word),
            interval: Interval::of_word(word.cast_signed()),
            nullness: nullness_of(word),
            classes: ClassSet::none(),
        }
    }

    /// The value of one wide number of 64 bits.
    pub fn wide(number: u64) -> Value
        ensures is { result ≡ wide_value number }
        ensures alone { HoldsOnly result (Plain (Double number)) }
    {
        Value {
            word: Word::KnownWide(number),
            interval: Interval::empty(),
            nullness: Nullness::NotNull,
            classes: ClassSet::none(),
        }
    }

    /// The value of objects of these exact classes, and of nothing else.
    pub fn objects(classes: ClassSet) -> Value
        ensures is { result ≡ objects_value classes }
        ensures held { (d : Datum) → value_holds result d ↔ ((c : Option ℕ) × (d ≡ Object c) × set_holds classes c) }
    {
        let nullness = presence(&classes);
        Value {
            word: Word::Bottom,
            interval: Interval::empty(),
            nullness,
            classes,
        }
    }

    /// The value that holds of what all four parts hold of together.
    pub fn of(word: Word, interval: Interval, nullness: Nullness, classes: ClassSet) -> Value
        ensures is { result ≡ reduced (record { word = word; interval = interval; nullness = nullness; classes = classes }) }
        ensures alike { HoldAlike result (record { word = word; interval = interval; nullness = nullness; classes = classes }) }
    {
        match nullness {
            Nullness::Bottom => nothing(),
            Nullness::Null => {
                if word.has_zero() && interval.has(0) {
                    Value::constant(0)
                } else {
                    nothing()
                }
            }
            Nullness::NotNull => with_number(false, word, interval, classes),
            Nullness::Any => with_number(true, word, interval, classes),
        }
    }

    /// The value that holds of what this word, interval and nullness hold of together with the classes of this value.
    pub fn with_parts(&self, word: Word, interval: Interval, nullness: Nullness) -> Value
        ensures is { result ≡ reduced (record { word = word; interval = interval; nullness = nullness; classes = self.now.classes }) }
    {
        Value::of(word, interval, nullness, self.classes.same())
    }

    /// The value that holds of what this one holds of, but of objects of these classes alone.
    pub fn with_classes(&self, classes: ClassSet) -> Value
        ensures is { result ≡ reduced (record self.now { classes = classes }) }
    {
        Value::of(self.word, self.interval, self.nullness, classes)
    }

    /// The same value once more. It takes no memory.
    pub fn same(&self) -> Value
        ensures { result ≡ self.now }
    {
        Value {
            word: self.word,
            interval: self.interval,
            nullness: self.nullness,
            classes: self.classes.same(),
        }
    }

    /// The value that holds of nothing.
    pub fn none() -> Value
        ensures { result ≡ least_value }
    {
        nothing()
    }

    /// The value of which nothing is known.
    pub fn any() -> Value
        ensures is { result ≡ any_value }
    {
        Value {
            word: Word::Any,
            interval: Interval::full(),
            nullness: Nullness::Any,
            classes: ClassSet::any(),
        }
    }

    /// The word, where the value holds of this one and of nothing else.
    pub fn known(&self) -> Option<u32>
        ensures { (w : ℕ) → (result ≡ Some w) ↔ HoldsOnly self.now (Plain (Single w)) }
    {
        if self.classes.is_empty() {
            self.word.known()
        } else {
            None
        }
    }

    /// The wide number, where the value holds of this one and of nothing else.
    pub fn known_wide(&self) -> Option<u64>
        ensures { (d : ℕ) → (result ≡ Some d) ↔ HoldsOnly self.now (Plain (Double d)) }
    {
        if self.classes.is_empty() {
            self.word.known_wide()
        } else {
            None
        }
    }

    /// The classes of the program of which the value holds of an object, in ascending order, or none where it holds of
    /// objects of any class.
    pub fn classes(&self) -> Option<&[u32]>
        ensures listed { IfSome result (λ xs. (c : ℕ) → Contains xs.now c ↔ value_holds self.now (Object (Some c))) }
        ensures any { (result ≡ None) ↔ value_holds self.now (Object None) }
        ensures ascending { IfSome result (λ xs. Ascends 0 xs.now) }
        ensures few { IfSome result (λ xs. length xs.now ≤ 8) }
        ensures is { option_copied result ≡ self.now.classes }
    {
        self.classes.classes()
    }

    /// Whether the value doesn't hold of the word 0, which null is.
    pub fn not_null(&self) -> bool
        ensures { IsTrue result ↔ (value_holds self.now (Plain (Single 0)) → ⊥) }
    {
        matches!(self.nullness, Nullness::Bottom | Nullness::NotNull)
    }

    /// Whether it holds of no object.
    pub fn has_no_object(&self) -> bool
        ensures { result ≡ is_no_set self.now.classes }
    {
        self.classes.is_empty()
    }

    /// What is known of it as a number.
    pub fn word(&self) -> Word
        ensures is { result ≡ self.now.word }
        ensures reduced { IsReduced self.now }
    {
        self.word
    }

    /// The words that it can be.
    pub fn interval(&self) -> Interval
        ensures { result ≡ self.now.interval }
    {
        self.interval
    }

    /// Whether it can be null, and anything else.
    pub fn nullness(&self) -> Nullness
        ensures { result ≡ self.now.nullness }
    {
        self.nullness
    }
}

impl Lattice for Value {
    ghost use Rattle.domains.specs.Datum.{Datum, Within};
    ghost use Rattle.domains.specs.Values.{value_holds, least_value, value_joined};
    ghost use Rattle.domains.specs.ValueLaws.{of_nothing_at_all};

    ghost Meaning = { Datum };

    ghost least = { least_value };

    ghost below = { Within value_holds };

    ghost joined = { value_joined };

    ghost holds = { value_holds };

    ghost least_below = { λ x d h. absurd (of_nothing_at_all d h) };

    ghost reflexive = { λ x d h. h };

    ghost transitive = { λ x y z f g d h. g d (f d h) };

    ghost grows = { λ x y d f h. f d h };

    ghost of_nothing = { of_nothing_at_all };

    fn bottom(alloc: Global) -> Self {
        nothing()
    }

    fn leq(&self, other: &Self) -> bool {
        self.word.leq(&other.word)
            && self.interval.leq(&other.interval)
            && self.nullness.leq(&other.nullness)
            && self.classes.leq(&other.classes)
    }

    fn join(&self, alloc: Global, other: &Self) -> Result<Self, AllocError> {
        Ok(Value {
            word: self.word.join(alloc, &other.word)?,
            interval: self.interval.join(alloc, &other.interval)?,
            nullness: self.nullness.join(alloc, &other.nullness)?,
            classes: self.classes.join(alloc, &other.classes)?,
        })
    }

    fn copy(&self, alloc: Global) -> Result<Self, AllocError> {
        Ok(self.same())
    }
}

impl Domain for Value {
    ghost use Rattle.domains.specs.Values.{value_rank, value_widened};

    const EXACT: bool = false;

    ghost EXACT = { false };

    ghost rank = { value_rank };

    ghost widened = { value_widened };

    ghost join_least = { λ x y z e. absurd (Prim.cc) };

    fn widen(&self, alloc: Global, newer: &Self) -> Result<Self, AllocError> {
        Ok(Value {
            word: self.word.widen(alloc, &newer.word)?,
            interval: self.interval.widen(alloc, &newer.interval)?,
            nullness: self.nullness.widen(alloc, &newer.nullness)?,
            classes: self.classes.widen(alloc, &newer.classes)?,
        })
    }
}

impl MapValue for Value {
    ghost use Rattle.domains.specs.Bounded.{rank_below};

    ghost most = { 20 };

    ghost bounded = { rank_below };

    fn is_same(&self, other: &Self) -> bool {
        self.word.is_same(other.word)
            && self.interval.is_same(other.interval)
            && self.nullness.is_same(other.nullness)
            && self.classes.is_same(&other.classes)
    }
}

/// Whether a word is the word 0.
fn nullness_of(word: u32) -> Nullness
    ensures { result ≡ (if word == 0 then Null else NotNull) }
{
    if word == 0 {
        Nullness::Null
    } else {
        Nullness::NotNull
    }
}

/// Whether there is an object of these classes, none of which is null.
fn presence(classes: &ClassSet) -> Nullness
    ensures { result ≡ (if is_no_set classes.now then Bottom else NotNull) }
{
    if classes.is_empty() {
        Nullness::Bottom
    } else {
        Nullness::NotNull
    }
}

/// The value that holds of nothing.
fn nothing() -> Value
    ensures { result ≡ least_value }
{
    Value {
        word: Word::Bottom,
        interval: Interval::empty(),
        nullness: Nullness::Bottom,
        classes: ClassSet::none(),
    }
}

/// Numbers and objects, where all but the word 0 are allowed, and that too where `zero`.
fn with_number(zero: bool, word: Word, interval: Interval, classes: ClassSet) -> Value
    ensures { result ≡ numbers zero word interval classes }
{
    match word {
        Word::Bottom => Value::objects(classes),
        Word::Known(own) => {
            if interval.has(own.cast_signed()) && (zero || own != 0) {
                known_with(own, classes)
            } else {
                Value::objects(classes)
            }
        }
        Word::KnownWide(number) => Value {
            word: Word::KnownWide(number),
            interval: Interval::empty(),
            nullness: Nullness::NotNull,
            classes,
        },
        Word::Any => any_with(zero, interval, classes),
    }
}

/// One word, and objects.
fn known_with(word: u32, classes: ClassSet) -> Value
    ensures { result ≡ known_value word classes }
{
    let nullness = nullness_with(word, classes.is_empty());
    Value {
        word: Word::Known(word),
        interval: Interval::of_word(word.cast_signed()),
        nullness,
        classes,
    }
}

/// Whether a word is the word 0, where it may stand alone or beside objects.
fn nullness_with(word: u32, alone: bool) -> Nullness
    ensures { result ≡ (if word == 0 then (if alone then Null else Any) else NotNull) }
{
    if word != 0 {
        Nullness::NotNull
    } else if alone {
        Nullness::Null
    } else {
        Nullness::Any
    }
}

/// Any number, the words in an interval, and objects.
fn any_with(zero: bool, interval: Interval, classes: ClassSet) -> Value
    ensures { result ≡ any_number zero interval classes }
{
    if zero {
        Value {
            word: Word::Any,
            interval,
            nullness: with_zero(interval.has(0)),
            classes,
        }
    } else {
        Value {
            word: Word::Any,
            interval: interval.without_zero(),
            nullness: Nullness::NotNull,
            classes,
        }
    }
}

/// Whether what is not null can be null too.
fn with_zero(zero: bool) -> Nullness
    ensures { result ≡ (if zero then Any else NotNull) }
{
    if zero {
        Nullness::Any
    } else {
        Nullness::NotNull
    }
}
