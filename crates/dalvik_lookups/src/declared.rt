//! The members that classes define, by their names: what a script's moves name.

ghost use Rattle.std.specs.Prelude.{◌≡◌, ◌<◌, ◌^◌, ℕ, true, Some, None, length, map, slice_get, IfOk, IfSome, OnOk};
ghost use Rattle.std.specs.Option.{option_or, option_map};
ghost use Rattle.program_model.specs.declared.program.Program.{Program};
ghost use Rattle.program_model.specs.ProgramRules.{is_well_formed};
ghost use Rattle.dalvik_defs.specs.Names.{Text, proto_text};
ghost use Rattle.dalvik_lookups.specs.Spelling.{signature_of};
ghost use Rattle.dalvik_lookups.specs.Declaring.{Key, no_key, found_in, one_at, index_of_row, method_key, field_key, method_row, field_row, method_place, field_place, declared_method, declared_field, method_of, spellings_of, AreFew, AddedSpelling, SpellingsMade, IsIndex, IsDeclared};
ghost use Rattle.dalvik_lookups.specs.Tables.{string_in, HasNames};
ghost use Rattle.dalvik_lookups.specs.Views.{IsText, IsType, StandOnce};

use crate::lookups::{Names, class_in, kind_at};
use crate::naming::spell;
use crate::types::Kind;
use indexmap::{IndexMap, IndexSet};
use program_model::{Class, Field, Method, MethodAt, Program, Proto};
use std::alloc::{AllocError, Global};

/// What a member is found by in its class: the number of its name, and the depth and the base of a field's type, or 0 and
/// the number of what a method's proto spells.
type Key = (usize, (usize, usize));

/// What protos spell, by number.
#[derive(Drop)]
pub struct Spellings {
    numbers: IndexSet<Vec<u16>>,
}

impl Spellings {
    /// No spellings.
    fn new(alloc: Global) -> Spellings
        ensures { StandOnce (spellings_of result) }
    {
        Spellings {
            numbers: IndexSet::new(alloc),
        }
    }

    /// The number of a spelling.
    fn add(&mut self, units: Vec<u16>) -> Result<usize, AllocError>
        ensures { StandOnce (spellings_of self.old) → IfOk result (λ n. AddedSpelling self.old self.new units.items n) }
    {
        let (number, _added) = self.numbers.insert_full(units)?;
        Ok(number)
    }

    /// The number of a spelling that there is.
    fn number(&self, units: &[u16]) -> Option<usize>
        ensures found { IfSome result (λ n. slice_get (spellings_of self.now) n ≡ Some units.now) }
        ensures absent { result ≡ None → (n : ℕ) → slice_get (spellings_of self.now) n ≡ Some units.now → ⊥ }
    {
        self.numbers.get_index_of(units)
    }
}

/// The place of the first member with each key of each class among the fields or the methods of the class.
#[derive(Drop)]
pub struct Index {
    places: IndexMap<(u32, Key), u32>,
}

/// A place as a number of 32 bits, the greatest past those.
fn word(place: usize) -> u32
    ensures { place < 2 ^ 32 → result ≡ place }
{
    if place < u32::MAX as usize {
        place as u32
    } else {
        u32::MAX
    }
}

impl Index {
    /// No members.
    fn new(alloc: Global) -> Index
        ensures { (class : ℕ) (key : Key) → found_in result class key ≡ None }
    {
        Index {
            places: IndexMap::new(alloc),
        }
    }

    /// The place of the first member of a class that has the key.
    fn find(&self, class: u32, key: Key) -> Option<u32>
        ensures { result ≡ found_in self.now class key }
    {
        self.places.get(&(class, key)).copied()
    }

    /// Adds a member, unless the class has one with the key.
    fn add(&mut self, class: u32, key: Key, place: u32) -> Result<(), AllocError>
        ensures { OnOk result ((c : ℕ) (k : Key) → found_in self.new c k ≡ option_or (found_in self.old c k) (one_at class key place c k)) }
    {
        match self.find(class, key) {
            Some(_) => Ok(()),
            None => {
                self.places.insert((class, key), place)?;
                Ok(())
            }
        }
    }

    /// Adds the members of a class, which have these keys.
    fn add_class(&mut self, class: u32, keys: &[Key]) -> Result<(), AllocError>
        ensures { length keys.now < 2 ^ 32 → OnOk result ((c : ℕ) (k : Key) → found_in self.new c k ≡ option_or (found_in self.old c k) (index_of_row class keys.now c k)) }
    {
        for (place, key) in keys.iter().enumerate() {
            self.add(class, *key, word(place))?;
        }
        Ok(())
    }
}

/// What a proto spells.
fn spelling(alloc: Global, program: &Program, proto: &Proto) -> Result<Vec<u16>, AllocError>
    ensures { IfOk result (λ units. units.items ≡ proto_text (signature_of program.now proto.now)) }
{
    let mut units = Vec::new(alloc);
    spell(program, proto, &mut units)?;
    Ok(units)
}

/// The number of what each proto spells.
fn proto_numbers(
    alloc: Global,
    program: &Program,
    spellings: &mut Spellings,
) -> Result<Vec<usize>, AllocError>
    ensures { StandOnce (spellings_of spellings.old) → IfOk result (λ protos. SpellingsMade program.now spellings.new protos.items (length program.now.protos)) }
{
    let mut protos = Vec::new(alloc);
    for proto in program.protos.as_slice() {
        protos.push(spellings.add(spelling(alloc, program, proto)?)?)?;
    }
    Ok(protos)
}

/// The entry of a table of numbers, a number that nothing has past the end.
fn number_at(numbers: &[usize], place: u32) -> usize
    ensures { result ≡ string_in numbers.now place }
{
    match numbers.get(place as usize) {
        Some(number) => *number,
        None => usize::MAX,
    }
}

/// What a method is found by.
fn method_key(program: &Program, strings: &[usize], protos: &[usize], method: &Method) -> Key
    ensures { result ≡ method_key program.now strings.now protos.now method.now }
{
    match program.methods.as_slice().get(method.name as usize) {
        Some(name) => {
            let spelled = (0, number_at(protos, name.proto));
            (number_at(strings, name.name), spelled)
        }
        None => (usize::MAX, (usize::MAX, usize::MAX)),
    }
}

/// What a field is found by.
fn field_key(program: &Program, strings: &[usize], kinds: &[Kind], field: &Field) -> Key
    ensures { result ≡ field_key program.now strings.now kinds.now field.now }
{
    match program.fields.as_slice().get(field.name as usize) {
        Some(name) => {
            let kind = kind_at(kinds, name.kind);
            (number_at(strings, name.name), (kind.depth, kind.base))
        }
        None => (usize::MAX, (usize::MAX, usize::MAX)),
    }
}

/// What the methods of a class are found by.
fn keys_of_methods(
    alloc: Global,
    program: &Program,
    strings: &[usize],
    protos: &[usize],
    class: &Class,
) -> Result<Vec<Key>, AllocError>
    ensures { IfOk result (λ keys. keys.items ≡ method_row program.now strings.now protos.now class.now) }
{
    let mut keys = Vec::new(alloc);
    for method in class.methods.as_slice() {
        keys.push(method_key(program, strings, protos, method))?;
    }
    Ok(keys)
}

/// What the fields of a class are found by.
fn keys_of_fields(
    alloc: Global,
    program: &Program,
    strings: &[usize],
    kinds: &[Kind],
    class: &Class,
) -> Result<Vec<Key>, AllocError>
    ensures { IfOk result (λ keys. keys.items ≡ field_row program.now strings.now kinds.now class.now) }
{
    let mut keys = Vec::new(alloc);
    for field in class.fields.as_slice() {
        keys.push(field_key(program, strings, kinds, field))?;
    }
    Ok(keys)
}

/// The methods of the classes.
fn index_methods(
    alloc: Global,
    program: &Program,
    strings: &[usize],
    protos: &[usize],
) -> Result<Index, AllocError>
    ensures { AreFew (λ c. c.methods) program.now.classes → IfOk result (IsIndex (map (method_row program.now strings.now protos.now) program.now.classes)) }
{
    let mut index = Index::new(alloc);
    for (place, class) in program.classes.as_slice().iter().enumerate() {
        let keys = keys_of_methods(alloc, program, strings, protos, class)?;
        index.add_class(word(place), keys.as_slice())?;
    }
    Ok(index)
}

/// The fields of the classes.
fn index_fields(
    alloc: Global,
    program: &Program,
    strings: &[usize],
    kinds: &[Kind],
) -> Result<Index, AllocError>
    ensures { AreFew (λ c. c.fields) program.now.classes → IfOk result (IsIndex (map (field_row program.now strings.now kinds.now) program.now.classes)) }
{
    let mut index = Index::new(alloc);
    for (place, class) in program.classes.as_slice().iter().enumerate() {
        let keys = keys_of_fields(alloc, program, strings, kinds, class)?;
        index.add_class(word(place), keys.as_slice())?;
    }
    Ok(index)
}

/// The first method of each class by the numbers of its name and of its proto's spelling, and the first field of each
/// class by the number of its name and its type.
#[derive(Drop)]
pub struct Declared {
    spellings: Spellings,
    methods: Index,
    fields: Index,
}

/// The method at a place of a class.
fn method_of(class: u32, place: Option<u32>) -> Option<MethodAt>
    ensures { result ≡ option_map (method_of class) place }
{
    match place {
        Some(place) => Some(MethodAt { class, place }),
        None => None,
    }
}

/// The field at a place of a class, by the places of both.
fn field_of(class: u32, place: Option<u32>) -> Option<(u32, u32)>
    ensures { result ≡ option_map (λ n. (class, n)) place }
{
    match place {
        Some(place) => Some((class, place)),
        None => None,
    }
}

impl Declared {
    /// The members of a program's classes.
    pub(crate) fn new(
        alloc: Global,
        program: &Program,
        names: &Names<'_>,
    ) -> Result<Declared, AllocError>
        ensures { is_well_formed program.now ≡ true → IfOk result (IsDeclared program.now names.now.strings.items names.now.kinds.items) }
    {
        let mut spellings = Spellings::new(alloc);
        let protos = proto_numbers(alloc, program, &mut spellings)?;
        let strings = names.strings.as_slice();
        let methods = index_methods(alloc, program, strings, protos.as_slice())?;
        let fields = index_fields(alloc, program, strings, names.kinds.as_slice())?;
        Ok(Declared {
            spellings,
            methods,
            fields,
        })
    }

    /// The place of the method that a class itself defines, by its name and the spelling of its proto.
    fn method_in(&self, class: u32, name: usize, proto: &[u16]) -> Option<u32>
        ensures { (p : Program) (names : Names) (n : Text) → is_well_formed p ≡ true → HasNames p names → IsDeclared p names.strings.items names.kinds.items self.now → IsText names.texts name n → result ≡ method_place p class n proto.now }
    {
        match self.spellings.number(proto) {
            Some(spelled) => self.methods.find(class, (name, (0, spelled))),
            None => None,
        }
    }

    /// The place of the field that a class itself defines, by its name and its type.
    fn field_in(&self, class: u32, name: usize, of: Kind) -> Option<u32>
        ensures { (p : Program) (names : Names) (n k : Text) → is_well_formed p ≡ true → HasNames p names → IsDeclared p names.strings.items names.kinds.items self.now → IsText names.texts name n → IsType names.types of k → result ≡ field_place p class n k }
    {
        self.fields.find(class, (name, (of.depth, of.base)))
    }

    /// The method that the class of a type itself defines, by its name and the spelling of its proto.
    pub(crate) fn method(
        &self,
        names: &Names<'_>,
        kind: Kind,
        name: usize,
        proto: &[u16],
    ) -> Option<MethodAt>
        ensures { (p : Program) (t n : Text) → is_well_formed p ≡ true → HasNames p names.now → IsDeclared p names.now.strings.items names.now.kinds.items self.now → IsType names.now.types kind t → IsText names.now.texts name n → result ≡ declared_method p t n proto.now }
    {
        match class_in(names.class_of.as_slice(), kind) {
            Some(class) => method_of(class, self.method_in(class, name, proto)),
            None => None,
        }
    }

    /// The field that the class of a type itself defines, by its name and its type: the class and the place.
    pub(crate) fn field(
        &self,
        names: &Names<'_>,
        kind: Kind,
        name: usize,
        of: Kind,
    ) -> Option<(u32, u32)>
        ensures { (p : Program) (t n k : Text) → is_well_formed p ≡ true → HasNames p names.now → IsDeclared p names.now.strings.items names.now.kinds.items self.now → IsType names.now.types kind t → IsText names.now.texts name n → IsType names.now.types of k → result ≡ declared_field p t n k }
    {
        match class_in(names.class_of.as_slice(), kind) {
            Some(class) => field_of(class, self.field_in(class, name, of)),
            None => None,
        }
    }
}
