//! The tables of a program while its text is read: what is named is gathered, put in order, and then found by number.

use dex_base::Text;
use program_model::{FieldName, MethodName, Program, Proto};
use seq::Seq;
use std::alloc::{AllocError, Global};
use std::collections::BTreeMap;

/// Numbers by keys whose order is that of the table.
type Numbers = BTreeMap<Vec<u16>, u32>;

/// The tables, and whether memory ran out, which is remembered and told at the end alone: so what names something has no
/// way out of its own. The key of a proto is its result and its parameters, that of a member its class, its name, a
/// zero, and its type or proto: descriptors begin none of one another, so that keys stand in the order of the file
/// format.
#[derive(Drop)]
pub struct Names {
    alloc: Global,
    lacks_memory: bool,
    strings: Numbers,
    types: Numbers,
    protos: Numbers,
    fields: Numbers,
    methods: Numbers,
}

/// A proto's number, and how many registers its arguments take.
#[derive(Clone, Copy)]
pub struct ProtoOf {
    pub number: u32,
    pub words: u16,
}

/// How a type stands in a shorty.
fn short_unit(descriptor: &[u16]) -> u16 {
    match descriptor.first() {
        Some(unit) if *unit != u16::from(b'[') => *unit,
        _ => u16::from(b'L'),
    }
}

/// How many registers a type in a shorty takes.
fn words_of(unit: u16) -> u16 {
    if unit == u16::from(b'J') || unit == u16::from(b'D') {
        2
    } else {
        1
    }
}

/// Numbers keys in their order.
fn put_in_order(numbers: &mut Numbers) {
    let mut place: u32 = 0;
    for number in numbers.values_mut() {
        *number = place;
        place = place.saturating_add(1);
    }
}

/// A key of these parts.
fn key_of(alloc: Global, parts: &[&[u16]]) -> Result<Vec<u16>, AllocError> {
    let mut key = Vec::new(alloc);
    for part in parts {
        key.extend_from_slice(part)?;
    }
    Ok(key)
}

/// The number of the key of these parts, 0 for one that is new.
fn number_of(alloc: Global, numbers: &mut Numbers, parts: &[&[u16]]) -> Result<u32, AllocError> {
    let key = key_of(alloc, parts)?;
    Ok(*numbers.entry(key)?.or_insert(0))
}

/// The parameters of a proto: the numbers of their types, how they stand in the shorty, and how many registers they take.
#[derive(Drop)]
struct Parameters {
    kinds: Seq<u32>,
    shorty: Vec<u16>,
    words: u16,
}

impl Names {
    /// Tables of nothing.
    pub fn new(alloc: Global) -> Names {
        Names {
            alloc,
            lacks_memory: false,
            strings: BTreeMap::new(alloc),
            types: BTreeMap::new(alloc),
            protos: BTreeMap::new(alloc),
            fields: BTreeMap::new(alloc),
            methods: BTreeMap::new(alloc),
        }
    }

    /// Whether memory ran out since the tables were made.
    pub fn lacks_memory(&self) -> bool {
        self.lacks_memory
    }

    /// Remembers whether memory ran out.
    fn note(&mut self, is_lost: bool) {
        self.lacks_memory = self.lacks_memory || is_lost;
    }

    /// The number, 0 where memory ran out, which is remembered.
    fn noted(&mut self, number: Result<u32, AllocError>) -> u32 {
        match number {
            Ok(number) => number,
            Err(_) => {
                self.lacks_memory = true;
                0
            }
        }
    }

    /// Numbers all that was named.
    pub fn number(&mut self) {
        put_in_order(&mut self.strings);
        put_in_order(&mut self.types);
        put_in_order(&mut self.protos);
        put_in_order(&mut self.fields);
        put_in_order(&mut self.methods);
    }

    /// Puts the strings and types into a program.
    fn begin_types(&self, program: &mut Program) -> Result<(), AllocError> {
        for key in self.strings.keys() {
            program.strings.push(Text::from_vec(key.clone()?))?;
        }
        for key in self.types.keys() {
            let string = self.strings.get(key).copied().unwrap_or(0);
            program.types.push(string)?;
        }
        Ok(())
    }

    /// Puts the strings and types into a program, and room for the entries of the other tables.
    pub fn begin(&self, program: &mut Program) -> Result<(), AllocError> {
        self.begin_types(program)?;
        for _ in 0..self.protos.len() {
            program.protos.push(Proto {
                shorty: 0,
                result: 0,
                parameters: Seq::new(self.alloc),
            })?;
        }
        for _ in 0..self.fields.len() {
            program.fields.push(FieldName {
                class: 0,
                kind: 0,
                name: 0,
            })?;
        }
        for _ in 0..self.methods.len() {
            program.methods.push(MethodName {
                class: 0,
                proto: 0,
                name: 0,
            })?;
        }
        Ok(())
    }

    /// The number of a string.
    pub fn string(&mut self, units: &[u16]) -> u32 {
        let number = number_of(self.alloc, &mut self.strings, &[units]);
        self.noted(number)
    }

    /// The number of a type.
    pub fn kind(&mut self, units: &[u16]) -> u32 {
        self.string(units);
        let number = number_of(self.alloc, &mut self.types, &[units]);
        self.noted(number)
    }

    /// Adds a parameter by its descriptor.
    fn add_parameter(&mut self, descriptor: &[u16], found: &mut Parameters) {
        let unit = short_unit(descriptor);
        let kind = self.kind(descriptor);
        let is_lost = found.shorty.push(unit).is_err() || found.kinds.push(kind).is_err();
        self.note(is_lost);
        found.words = found.words.saturating_add(words_of(unit));
    }

    /// Adds the parameters by their descriptors, which stand side by side, and the last of which may be cut.
    fn add_parameters(&mut self, units: &[u16], found: &mut Parameters) {
        let mut begin = 0;
        let mut end: usize = 0;
        let mut is_class = false;
        for unit in units {
            end = end.saturating_add(1);
            is_class = is_class || *unit == u16::from(b'L');
            if *unit == u16::from(b';') || !(is_class || *unit == u16::from(b'[')) {
                self.add_parameter(units.get(begin..end).unwrap_or(&[]), found);
                begin = end;
                is_class = false;
            }
        }
        if begin < end {
            self.add_parameter(units.get(begin..end).unwrap_or(&[]), found);
        }
    }

    /// A proto by its parameters, side by side, and its result.
    fn proto(&mut self, program: &mut Program, parameters: &[u16], answer: &[u16]) -> ProtoOf {
        let number = number_of(self.alloc, &mut self.protos, &[answer, parameters]);
        let number = self.noted(number);
        let mut found = Parameters {
            kinds: Seq::new(self.alloc),
            shorty: Vec::new(self.alloc),
            words: 0,
        };
        let is_lost = found.shorty.push(short_unit(answer)).is_err();
        self.note(is_lost);
        self.add_parameters(parameters, &mut found);
        let Parameters {
            kinds,
            shorty,
            words,
        } = found;
        let shorty = self.string(shorty.as_slice());
        let result = self.kind(answer);
        if let Some(place) = program.protos.items.get_mut(number as usize) {
            place.shorty = shorty;
            place.result = result;
            place.parameters = kinds;
        }
        ProtoOf { number, words }
    }

    /// The number of a field by its class, its name and its type.
    pub fn field(
        &mut self,
        program: &mut Program,
        class: &[u16],
        name: &[u16],
        kind: &[u16],
    ) -> u32 {
        let entry = FieldName {
            class: self.kind(class),
            kind: self.kind(kind),
            name: self.string(name),
        };
        let number = number_of(self.alloc, &mut self.fields, &[class, name, &[0], kind]);
        let number = self.noted(number);
        if let Some(place) = program.fields.items.get_mut(number as usize) {
            *place = entry;
        }
        number
    }

    /// The number of a method by its class, its name, its parameters and its result, and how many registers its
    /// arguments take.
    pub fn method(
        &mut self,
        program: &mut Program,
        class: &[u16],
        name: &[u16],
        proto: (&[u16], &[u16]),
    ) -> ProtoOf {
        let (parameters, answer) = proto;
        let of_proto = self.proto(program, parameters, answer);
        let entry = MethodName {
            class: self.kind(class),
            proto: of_proto.number,
            name: self.string(name),
        };
        let number = number_of(
            self.alloc,
            &mut self.methods,
            &[class, name, &[0], answer, parameters],
        );
        let number = self.noted(number);
        if let Some(place) = program.methods.items.get_mut(number as usize) {
            *place = entry;
        }
        ProtoOf {
            number,
            words: of_proto.words,
        }
    }
}
