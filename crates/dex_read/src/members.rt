//! What is read with a file at hand: the bytes, the tables, and what is left of the limits.

ghost use Rattle.std.specs.Prelude.{◌≡◌, ◌<◌, ◌≤◌, ◌==◌, ◌||◌, length, map, slice_get, IfOk};
ghost use Rattle.program_model.specs.Texts.{first_unit, letter_of, string_text};
ghost use Rattle.program_model.specs.MemberRules.{class_of_field, class_of_method, field_letter, is_class_number, name_of_method};
ghost use Rattle.dex_read.specs.Tables.{letters_in, sizes_in};

use dex_base::Text;
use dex_pools::TableSizes;
use program_model::Program;
use std::alloc::{AllocError, Global};

/// A file and the program of its tables, which has no class yet. `letters` has the first unit of each type's text.
#[derive(Drop)]
pub struct Source<'a> {
    pub bytes: &'a [u8],
    pub program: &'a Program,
    pub sizes: TableSizes,
    pub letters: &'a [u16],
    ghost sized: { sizes ≡ sizes_in program.now },
    ghost lettered: { letters.now ≡ letters_in program.now },
}

/// What is left of the limits that are counted: items, and the cells of the bodies read so far.
#[derive(Clone, Copy, Drop)]
pub struct Budget {
    pub items: u32,
    pub cells: u64,
}

/// The class whose parts are read: its place among the class_defs and its type.
#[derive(Clone, Copy, Drop)]
pub struct Owner {
    pub place: u32,
    pub kind: u32,
}

/// The first unit of a text, 0 where it has none.
fn first_unit(text: &Text) -> u16
    ensures { result ≡ first_unit text.now }
{
    match text.units() {
        [first, ..] => *first,
        [] => 0,
    }
}

/// The first unit of a string, 0 where there is none.
fn first_of_string(program: &Program, string: u32) -> u16
    ensures { result ≡ first_unit (string_text program.now string) }
{
    match program.strings.items.get(string as usize) {
        Some(text) => first_unit(text),
        None => 0,
    }
}

/// The first unit of each type's text.
pub fn letters_of(alloc: Global, program: &Program) -> Result<Vec<u16>, AllocError>
    ensures { IfOk result (λ v. v.items ≡ letters_in program.now) }
{
    program
        .types
        .as_slice()
        .iter()
        .map(|string| first_of_string(program, *string))
        .collect(alloc)
}

impl Source<'_> {
    /// The first unit of a type's text, 0 where there is no such type.
    #[tactic(auto, using(crate::proofs::Letters::letter_is, crate::proofs::Letters::letter_past))]
    pub fn letter(&self, kind: u32) -> u16
        ensures { result ≡ letter_of self.now.program.now kind }
    {
        let place = kind as usize;
        if place < self.letters.len() {
            self.letters[place]
        } else {
            0
        }
    }

    /// The letter of a field's type, 0 where there is no such field.
    pub fn field_letter(&self, field: u32) -> u16
        ensures { result ≡ field_letter self.now.program.now (slice_get self.now.program.now.fields field) }
    {
        let program = self.program;
        match program.fields.items.get(field as usize) {
            Some(name) => self.letter(name.kind),
            None => 0,
        }
    }
}

/// Whether the field is one of the class.
pub fn is_field_of(program: &Program, class: u32, field: u32) -> bool
    ensures { result ≡ is_class_number (class_of_field (slice_get program.now.fields field)) class }
{
    match program.fields.items.get(field as usize) {
        Some(name) => name.class == class,
        None => false,
    }
}

/// Whether the method is one of the class.
pub fn is_method_of(program: &Program, class: u32, method: u32) -> bool
    ensures { result ≡ is_class_number (class_of_method (slice_get program.now.methods method)) class }
{
    match program.methods.items.get(method as usize) {
        Some(name) => name.class == class,
        None => false,
    }
}

/// Whether the method's name begins with `<`.
pub fn is_special(program: &Program, method: u32) -> bool
    ensures { result ≡ (first_unit (name_of_method program.now (slice_get program.now.methods method)) == 60) }
{
    match program.methods.items.get(method as usize) {
        Some(name) => first_of_string(program, name.name) == 60,
        None => false,
    }
}
