//! Which kinds fit a type.

ghost use Rattle.std.specs.Prelude.{◌≡◌};
ghost use Rattle.verify.specs.Fits.{is_below_class, class_fits, reference_fits, item_fits, array_fits, fits_array, fits_class, fits_shape, fits, fits_holder, stored_item, is_fillable_item, is_fillable, fits_item};

use crate::kinds::{Kind, is_same_number};
use crate::shapes::Shape;
use crate::tables::Tables;
use insn_set::Item;

impl Tables {
    /// Whether a kind is a program class or one under it, or null.
    fn is_below_class(&self, kind: Kind, class: u32) -> bool
        ensures { result ≡ is_below_class self.now kind class }
    {
        match kind {
            Kind::Zero | Kind::Null => true,
            Kind::Program { class: lower } => self.chains.is_in_chain(lower, class),
            _ => false,
        }
    }

    /// Whether an item is a program class under this one, both no interfaces.
    fn class_fits(&self, item: Shape, class: u32) -> bool
        ensures { result ≡ class_fits self.now item class }
    {
        match item {
            Shape::Class { place, plain } => match place {
                Some(lower) => plain && self.chains.is_in_chain(lower, class),
                None => false,
            },
            _ => false,
        }
    }

    /// Whether an item that is a reference fits another one.
    fn reference_fits(&self, item: Shape, upper: Shape) -> bool
        ensures { result ≡ reference_fits self.now item upper }
    {
        match upper {
            Shape::Class { place, plain } => match place {
                Some(class) => !plain || self.class_fits(item, class),
                None => true,
            },
            _ => true,
        }
    }

    /// Whether items that are references fit items of another type.
    fn item_fits(&self, item: Shape, upper: Shape) -> bool
        ensures { result ≡ item_fits self.now item upper }
    {
        item.is_reference() && upper.is_reference() && self.reference_fits(item, upper)
    }

    /// Whether an array fits an array type.
    fn array_fits(&self, depth: u32, item: Option<u32>, most: u32, upper: u32) -> bool
        ensures { result ≡ array_fits self.now depth item most upper }
    {
        let above = self.item_shape(Some(upper));
        if depth == most {
            is_same_number(item, Some(upper)) || self.item_fits(self.item_shape(item), above)
        } else {
            most < depth && above.is_reference() && !above.is_plain()
        }
    }

    /// Whether a kind fits an array type.
    fn fits_array(&self, kind: Kind, most: u32, upper: u32) -> bool
        ensures { result ≡ fits_array self.now kind most upper }
    {
        match kind {
            Kind::Zero | Kind::Null => true,
            Kind::Array { depth, item } => self.array_fits(depth, item, most, upper),
            _ => false,
        }
    }

    /// Whether a value fits a class type.
    fn fits_class(&self, kind: Kind, place: Option<u32>, plain: bool) -> bool
        ensures { result ≡ fits_class self.now kind place plain }
    {
        match place {
            Some(class) => {
                if plain {
                    self.is_below_class(kind, class)
                } else {
                    kind.is_initialised()
                }
            }
            None => kind.is_initialised(),
        }
    }

    /// Whether a value that isn't wide fits what a type is.
    fn fits_shape(&self, kind: Kind, shape: Shape) -> bool
        ensures { result ≡ fits_shape self.now kind shape }
    {
        match shape {
            Shape::Int | Shape::Word(_) => kind.is_number(),
            Shape::Array { depth, item } => self.fits_array(kind, depth, item),
            Shape::Class { place, plain } => self.fits_class(kind, place, plain),
            _ => kind.is_initialised(),
        }
    }

    /// Whether a value that isn't wide fits a type.
    pub fn fits(&self, kind: Kind, into: u32) -> bool
        ensures { result ≡ fits self.now kind into }
    {
        self.fits_shape(kind, self.shape(into))
    }

    /// Whether a value may be the receiver of a get or a put of a field that this class names. No kind but null's is under
    /// a program interface.
    pub fn fits_holder(&self, kind: Kind, class: u32) -> bool
        ensures { result ≡ fits_holder self.now kind class }
    {
        self.fits(kind, class) && (!self.shape(class).is_program_interface() || kind.is_null())
    }

    /// How the items of an array are stored.
    pub fn stored_item(&self, depth: u32, item: Option<u32>) -> Item
        ensures { result ≡ stored_item self.now depth item }
    {
        if depth > 1 {
            Item::Object
        } else {
            self.item_shape(item).stored()
        }
    }

    /// Whether the items of a type are ints or references, so that a new array can be made of registers.
    pub fn is_fillable(&self, kind: u32) -> bool
        ensures { result ≡ is_fillable self.now kind }
    {
        match self.shape(kind) {
            Shape::Array { depth, item } => {
                depth > 1 || is_fillable_item(self.item_shape(Some(item)))
            }
            _ => false,
        }
    }

    /// Whether a value that isn't wide fits the items of an array type.
    pub fn fits_item(&self, kind: Kind, array: u32) -> bool
        ensures { result ≡ fits_item self.now kind array }
    {
        match self.shape(array) {
            Shape::Array { depth, item } => {
                if depth > 1 {
                    self.fits_array(kind, depth - 1, item)
                } else {
                    self.fits_shape(kind, self.item_shape(Some(item)))
                }
            }
            _ => false,
        }
    }
}

/// Whether an item is an int or a class.
fn is_fillable_item(shape: Shape) -> bool
    ensures { result ≡ is_fillable_item shape }
{
    matches!(shape, Shape::Int | Shape::Class { .. })
}
