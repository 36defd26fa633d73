//! What the verifier looks up by type, proto and method number, made once for a program.

ghost use Rattle.std.specs.Prelude.{◌≡◌, true, min, map, sum_by, codes, slice_index, IfOk};
ghost use Rattle.class_defs.specs.Members.{string_is};
ghost use Rattle.hierarchy.specs.Shapes.{IsOf};
ghost use Rattle.program_model.specs.ProgramRules.{is_well_formed};
ghost use Rattle.verify.specs.Building.{AreChainsOf};
ghost use Rattle.program_model.specs.MemberRules.{words_of};
ghost use Rattle.program_model.specs.Texts.{string_text};
ghost use Rattle.verify.specs.Descriptors.{same_text, short, width_in, shape_named, base_shape, without_brackets, item_number, item_named, object_text, AreNamed, AreTypesOf};
ghost use Rattle.verify.specs.Flow.{greatest};
ghost use Rattle.verify.specs.Meeting.{IsMeeting};
ghost use Rattle.verify.specs.Types.{shape_in, shape_of, item_shape, item_of_class, kind_of_class, kind_of_shape, kind_of, reference_kind, cast_kind, kind_of_item, proto_words, is_constructor};

use crate::chains::Chains;
use crate::kinds::Kind;
use crate::named::{Named, units_of};
use crate::shapes::Shape;
use hierarchy::Hierarchy;
use program_model::{Class, Program, Proto};
use std::alloc::{AllocError, Global};

/// The tables of a program. `shapes` has what each type is, `bases` what it is without its brackets and `items` the
/// least type number of the same base. `object` is the one with the base `Ljava/lang/Object;`. `words` has for each
/// proto how many registers its parameters take, and `constructors` for each method whether its name is `<init>`.
#[derive(Drop)]
pub struct Tables {
    pub chains: Chains,
    pub classes: Vec<u32>,
    pub shapes: Vec<Shape>,
    pub bases: Vec<Shape>,
    pub items: Vec<u32>,
    pub object: Option<u32>,
    pub words: Vec<u32>,
    pub constructors: Vec<bool>,
}

/// A length or a place as a number of 32 bits.
pub fn word(n: usize) -> u32
    ensures { result ≡ min n greatest }
{
    if n < u32::MAX as usize {
        n as u32
    } else {
        u32::MAX
    }
}

/// The number at a place, 0 past the end.
fn number_at(numbers: &[u32], place: u32) -> u32
    ensures { result ≡ slice_index numbers.now place }
{
    match numbers.get(place as usize) {
        Some(number) => *number,
        None => 0,
    }
}

/// The shape at a place.
pub fn shape_at(shapes: &[Shape], place: u32) -> Shape
    ensures { result ≡ shape_in shapes.now place }
{
    match shapes.get(place as usize) {
        Some(shape) => *shape,
        None => Shape::Void,
    }
}

/// How many registers a value of a type takes.
fn width_at(shapes: &[Shape], kind: u32) -> u32
    ensures { result ≡ width_in shapes.now kind }
{
    if shape_at(shapes, kind).is_wide() {
        2
    } else {
        1
    }
}

/// How many registers values of these types take.
fn words_of(shapes: &[Shape], kinds: &[u32]) -> u32
    ensures { result ≡ short (sum_by (width_in shapes.now) kinds.now) }
{
    let mut words: u32 = 0;
    for kind in kinds {
        words = words.saturating_add(width_at(shapes, *kind));
    }
    words
}

/// How many registers the parameters of each proto take.
fn proto_words(alloc: Global, protos: &[Proto], shapes: &[Shape]) -> Result<Vec<u32>, AllocError>
    ensures { IfOk result (λ words. words.items ≡ map (λ q. short (sum_by (width_in shapes.now) q.parameters)) protos.now) }
{
    let mut words = Vec::new(alloc);
    for proto in protos {
        words.push(words_of(shapes, proto.parameters.as_slice()))?;
    }
    Ok(words)
}

/// Whether the units are `<init>`.
fn is_init(units: &[u16]) -> bool
    ensures { result ≡ same_text units.now (codes "<init>") }
{
    let name: [u16; 6] = [60, 105, 110, 105, 116, 62];
    units == name.as_slice()
}

/// For each method number whether its name is `<init>`.
fn constructors(alloc: Global, program: &Program) -> Result<Vec<bool>, AllocError>
    ensures { IfOk result (λ marks. marks.items ≡ map (λ m. string_is program.now m.name (codes "<init>")) program.now.methods) }
{
    let mut marks = Vec::new(alloc);
    for method in program.methods.as_slice() {
        marks.push(is_init(units_of(program, method.name)))?;
    }
    Ok(marks)
}

/// The type number of each class.
fn class_names(alloc: Global, classes: &[Class]) -> Result<Vec<u32>, AllocError>
    ensures { IfOk result (λ names. names.items ≡ map (λ c. c.name) classes.now) }
{
    let mut names = Vec::new(alloc);
    for class in classes {
        names.push(class.name)?;
    }
    Ok(names)
}

/// The kind of a class type.
fn kind_of_class(place: Option<u32>, plain: bool) -> Kind
    ensures { result ≡ kind_of_class place plain }
{
    match place {
        Some(class) => {
            if plain {
                Kind::Program { class }
            } else {
                Kind::Reference
            }
        }
        None => Kind::Reference,
    }
}

/// What the types of a program are by their texts, and how many registers the parameters of each proto take.
#[derive(Drop)]
struct TypeTables {
    shapes: Vec<Shape>,
    bases: Vec<Shape>,
    items: Vec<u32>,
    object: Option<u32>,
    words: Vec<u32>,
}

/// The tables of the types of a program whose types have these names.
fn types_named(
    alloc: Global,
    program: &Program,
    named: &Named<'_>,
) -> Result<TypeTables, AllocError>
    requires { AreNamed program.now named.now }
    ensures shapes { IfOk result (λ t. t.shapes.items ≡ map (λ s. shape_named program.now (string_text program.now s)) program.now.types) }
    ensures bases { IfOk result (λ t. t.bases.items ≡ map (λ s. base_shape program.now (without_brackets (string_text program.now s))) program.now.types) }
    ensures items { IfOk result (λ t. t.items.items ≡ map (λ s. item_number program.now (without_brackets (string_text program.now s))) program.now.types) }
    ensures object { IfOk result (λ t. t.object ≡ item_named program.now object_text) }
    ensures words { IfOk result (λ t. t.words.items ≡ map (λ q. short (sum_by (words_of program.now) q.parameters)) program.now.protos) }
{
    let shapes = named.shapes(alloc, program)?;
    let words = proto_words(alloc, program.protos.as_slice(), shapes.as_slice())?;
    let bases = named.bases(alloc, program)?;
    let items = named.items(alloc, program)?;
    Ok(TypeTables {
        shapes,
        bases,
        items,
        object: named.object(program),
        words,
    })
}

/// The tables of the types of a program.
fn types_of(alloc: Global, program: &Program) -> Result<TypeTables, AllocError>
    ensures shapes { IfOk result (λ t. t.shapes.items ≡ map (λ s. shape_named program.now (string_text program.now s)) program.now.types) }
    ensures bases { IfOk result (λ t. t.bases.items ≡ map (λ s. base_shape program.now (without_brackets (string_text program.now s))) program.now.types) }
    ensures items { IfOk result (λ t. t.items.items ≡ map (λ s. item_number program.now (without_brackets (string_text program.now s))) program.now.types) }
    ensures object { IfOk result (λ t. t.object ≡ item_named program.now object_text) }
    ensures words { IfOk result (λ t. t.words.items ≡ map (λ q. short (sum_by (words_of program.now) q.parameters)) program.now.protos) }
{
    let named = Named::make(alloc, program)?;
    types_named(alloc, program, &named)
}

/// The names of the classes, and which methods are constructors.
#[derive(Drop)]
struct NameTables {
    classes: Vec<u32>,
    constructors: Vec<bool>,
}

/// The tables of the names of a program.
fn names_of(alloc: Global, program: &Program) -> Result<NameTables, AllocError>
    ensures classes { IfOk result (λ t. t.classes.items ≡ map (λ c. c.name) program.now.classes) }
    ensures constructors { IfOk result (λ t. t.constructors.items ≡ map (λ m. string_is program.now m.name (codes "<init>")) program.now.methods) }
{
    let classes = class_names(alloc, program.classes.as_slice())?;
    let constructors = constructors(alloc, program)?;
    Ok(NameTables {
        classes,
        constructors,
    })
}

impl Tables {
    /// The tables of a program. The only error is want of memory.
    pub fn make(
        alloc: Global,
        program: &Program,
        hierarchy: &Hierarchy,
    ) -> Result<Tables, AllocError>
        ensures meets { IfOk result IsMeeting }
        ensures chains { is_well_formed program.now ≡ true → IsOf program.now hierarchy.now → IfOk result (λ t. AreChainsOf program.now t.chains) }
        ensures types { is_well_formed program.now ≡ true → IsOf program.now hierarchy.now → IfOk result (AreTypesOf program.now) }
    {
        let types = types_of(alloc, program)?;
        let names = names_of(alloc, program)?;
        let chains = Chains::make(alloc, program, hierarchy)?;
        let tables = Tables {
            chains,
            classes: names.classes,
            shapes: types.shapes,
            bases: types.bases,
            items: types.items,
            object: types.object,
            words: types.words,
            constructors: names.constructors,
        };
        Ok(tables.checked(alloc))
    }

    /// What a type is.
    pub fn shape(&self, kind: u32) -> Shape
        ensures { result ≡ shape_of self.now kind }
    {
        shape_at(self.shapes.as_slice(), kind)
    }

    /// What the items of an array are, without their brackets.
    pub fn item_shape(&self, item: Option<u32>) -> Shape
        ensures { result ≡ item_shape self.now item }
    {
        match item {
            Some(kind) => shape_at(self.bases.as_slice(), kind),
            None => Shape::Class {
                place: None,
                plain: false,
            },
        }
    }

    /// The item of arrays of a program class.
    pub fn item_of_class(&self, class: u32) -> Option<u32>
        ensures { result ≡ item_of_class self.now class }
    {
        match self.classes.as_slice().get(class as usize) {
            Some(kind) => match self.items.as_slice().get(*kind as usize) {
                Some(item) => Some(*item),
                None => None,
            },
            None => None,
        }
    }

    /// The kind of what a shape says.
    fn kind_of_shape(&self, shape: Shape) -> Kind
        ensures { result ≡ kind_of_shape shape }
    {
        match shape {
            Shape::Void => Kind::Undefined,
            Shape::Int | Shape::Word(_) => Kind::Word,
            Shape::Wide => Kind::WideLow,
            Shape::Class { place, plain } => kind_of_class(place, plain),
            Shape::Array { depth, item } => Kind::Array {
                depth,
                item: Some(item),
            },
        }
    }

    /// The kind of a type; the low half stands for both halves of a wide.
    pub fn kind_of(&self, kind: u32) -> Kind
        ensures { result ≡ kind_of self.now kind }
    {
        self.kind_of_shape(self.shape(kind))
    }

    /// The kind of an object of what a shape says, where that is a class or an array; any object where it is neither.
    fn reference_kind(&self, shape: Shape) -> Kind
        ensures { result ≡ reference_kind shape }
    {
        match shape {
            Shape::Class { .. } | Shape::Array { .. } => self.kind_of_shape(shape),
            _ => Kind::Reference,
        }
    }

    /// The kind of an object that is cast to a type. Null alone can be cast to a type that is no class and no array.
    pub fn cast_kind(&self, kind: u32) -> Kind
        ensures { result ≡ cast_kind self.now kind }
    {
        self.reference_kind(self.shape(kind))
    }

    /// The kind of an item of an array.
    pub fn kind_of_item(&self, depth: u32, item: Option<u32>) -> Kind
        ensures { result ≡ kind_of_item self.now depth item }
    {
        if depth > 1 {
            Kind::Array {
                depth: depth - 1,
                item,
            }
        } else {
            self.kind_of_shape(self.item_shape(item))
        }
    }

    /// How many registers the parameters of a proto take.
    pub fn proto_words(&self, proto: u32) -> u32
        ensures { result ≡ proto_words self.now proto }
    {
        number_at(self.words.as_slice(), proto)
    }

    /// Whether the name of a method number is `<init>`.
    pub fn is_constructor(&self, method: u32) -> bool
        ensures { result ≡ is_constructor self.now method }
    {
        match self.constructors.as_slice().get(method as usize) {
            Some(mark) => *mark,
            None => false,
        }
    }
}
