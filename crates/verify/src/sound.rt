//! Whether tables keep what the joins of kinds rest on.

ghost use Rattle.std.specs.Prelude.{◌≡◌, length, true, false, IfNone, IfSome};
ghost use Rattle.verify.specs.Chains.{above, IsChains};
ghost use Rattle.verify.specs.Meeting.{IsMeeting, is_settled_class, is_primitive, is_settled, stands, stands_too, is_base, BasesBelow, ClassesBelow, has_objects, AreSound};
ghost use Rattle.verify.specs.Types.{shape_in};

use crate::chains::Chains;
use crate::kinds::is_same_number;
use crate::shapes::Shape;
use crate::tables::{Tables, shape_at, word};
use insn_set::Item;
use std::alloc::Global;

/// Whether items are stored as a primitive type is.
fn is_primitive(item: Item) -> bool
    ensures { result ≡ is_primitive item }
{
    !matches!(item, Item::Object)
}

impl Tables {
    /// The tables as they are, where the joins of kinds are least upper bounds by them, as they are by those of a
    /// well-formed program: each of its classes is defined once, and none is its own ancestor or `Ljava/lang/Object;`.
    /// Else tables in which no type is known.
    pub fn checked(self, alloc: Global) -> Tables
        requires { IsChains self.chains }
        ensures meets { IsMeeting result }
        ensures kept { AreSound self → result ≡ self }
    {
        if self.is_sound() {
            self
        } else {
            Tables::bare(alloc)
        }
    }

    /// Tables in which no type is known.
    fn bare(alloc: Global) -> Tables
        ensures { IsMeeting result }
    {
        Tables {
            chains: Chains::alone(alloc),
            classes: Vec::new(alloc),
            shapes: Vec::new(alloc),
            bases: Vec::new(alloc),
            items: Vec::new(alloc),
            object: None,
            words: Vec::new(alloc),
            constructors: Vec::new(alloc),
        }
    }

    /// Whether the joins of kinds are least upper bounds by these tables.
    fn is_sound(&self) -> bool
        ensures sound { result ≡ true → IsChains self.now.chains → IsMeeting self.now }
        ensures kept { AreSound self.now → result ≡ true }
    {
        self.are_sound(word(self.bases.len()), word(self.chains.count()))
    }

    /// The same, by so many types and classes.
    fn are_sound(&self, bases: u32, classes: u32) -> bool
        ensures sound { result ≡ true → IsChains self.now.chains → IsMeeting self.now }
        ensures kept { length self.now.bases.items ≡ bases → length self.now.chains.supers.items ≡ classes → AreSound self.now → result ≡ true }
    {
        let known = self.bases.len();
        let count = self.chains.count();
        if known != bases as usize || count != classes as usize || !self.has_objects() {
            return false;
        }
        if let Some(_) = self.first_base(bases) {
            return false;
        }
        match self.first_class(classes) {
            Some(_) => false,
            None => true,
        }
    }

    /// The first of so many types without brackets that is a class for which no item stands, or no such class.
    fn first_base(&self, count: u32) -> Option<u32>
        ensures none { IfNone result (BasesBelow self.now count) }
        ensures some { IfSome result (λ kind. is_base self.now (shape_in self.now.bases.items kind) ≡ false) }
    {
        for kind in 0..count {
            if !self.is_base(shape_at(self.bases.as_slice(), kind)) {
                return Some(kind);
            }
        }
        None
    }

    /// The first of so many classes with a class above it that no item stands for.
    fn first_class(&self, count: u32) -> Option<u32>
        ensures none { IfNone result (ClassesBelow self.now count) }
        ensures some { IfSome result (λ class. stands_too self.now (above self.now.chains class) ≡ false) }
    {
        for class in 0..count {
            if !self.stands_too(self.chains.above(class)) {
                return Some(class);
            }
        }
        None
    }

    /// Whether the item that stands for a class says so.
    fn stands(&self, class: u32) -> bool
        ensures { result ≡ stands self.now class }
    {
        is_same_number(
            self.item_shape(self.item_of_class(class)).place(),
            Some(class),
        )
    }

    /// The same of a class that there may be.
    fn stands_too(&self, class: Option<u32>) -> bool
        ensures { result ≡ stands_too self.now class }
    {
        match class {
            Some(class) => self.stands(class),
            None => true,
        }
    }

    /// Whether the item that stands for a class is an interface where the class is, which then has no class above it.
    fn is_settled_class(&self, class: u32, plain: bool) -> bool
        ensures { result ≡ is_settled_class self.now class plain }
    {
        let stands = self.item_shape(self.item_of_class(class)).is_plain();
        if plain {
            stands
        } else {
            !stands && is_same_number(self.chains.above(class), None)
        }
    }

    /// The same of a type without brackets, which is no array.
    fn is_settled(&self, base: Shape) -> bool
        ensures { result ≡ is_settled self.now base }
    {
        match base {
            Shape::Class { place, plain } => match place {
                Some(class) => self.is_settled_class(class, plain),
                None => !plain,
            },
            Shape::Array { .. } => false,
            Shape::Word(item) => is_primitive(item),
            _ => true,
        }
    }

    /// Whether an item stands for the class that a type without brackets is, and says of it what that says.
    fn is_base(&self, base: Shape) -> bool
        ensures { result ≡ is_base self.now base }
    {
        self.stands_too(base.place()) && self.is_settled(base)
    }

    /// Whether the item of arrays of objects is no program class.
    fn has_objects(&self) -> bool
        ensures { result ≡ has_objects self.now }
    {
        let shape = self.item_shape(self.object);
        is_same_number(shape.place(), None) && shape.is_reference()
    }
}
