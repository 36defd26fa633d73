//! The methods of a program by the texts of their names and protos.

ghost use Rattle.std.specs.Prelude.{◌≡◌, ◌++◌, ◌∷◌, [], ◌+◌, ◌<◌, ℕ, List, length, flat_map, slice_get, IfOk, OnOk};
ghost use Rattle.program_model.specs.MemberRules.{name_of_method};
ghost use Rattle.hierarchy.specs.Naming.{IsNamed};
ghost use Rattle.hierarchy.specs.Shapes.{IsOf};
ghost use Rattle.stub_library.specs.Listing.{AreListed};
ghost use Rattle.stub_library.specs.Spelling.{IsSpelled, SpelledTo, proto_of_number, spelled_one, spelled_as};

use crate::listed::Listed;
use crate::marks::{is_on, no_marks, turn, word};
use crate::texts::{name_units, proto_units};
use hierarchy::Hierarchy;
use program_model::Program;
use std::alloc::{AllocError, Global};

/// One method number for each name and proto of a program's methods, and the places of these numbers by the names' texts.
#[derive(Drop)]
pub struct Spelled<'a> {
    program: &'a Program,
    numbers: Vec<u32>,
    names: Listed<'a>,
}

/// The units of the proto of a method number, none where there is no such method.
fn proto_of(alloc: Global, program: &Program, method: u32) -> Result<Vec<u16>, AllocError>
    ensures { IfOk result (λ units. units.items ≡ proto_of_number program.now method) }
{
    match program.methods.as_slice().get(method as usize) {
        Some(named) => Ok(proto_units(alloc, program, named.proto)?),
        None => Ok(Vec::new(alloc)),
    }
}

impl<'a> Spelled<'a> {
    /// Adds a method number.
    fn add(&mut self, number: u32) -> Result<(), AllocError>
        ensures program { OnOk result (self.new.program ≡ self.old.program) }
        ensures numbers { OnOk result (self.new.numbers.items ≡ self.old.numbers.items ++ number ∷ []) }
        ensures names { OnOk result ((texts : ℕ → List ℕ) (n : ℕ) → AreListed texts n self.old.names
            → texts n ≡ name_of_method self.old.program.now (slice_get self.old.program.now.methods number) → AreListed texts (n + 1) self.new.names) }
    {
        self.numbers.push(number)?;
        self.names.add(name_units(self.program, number))?;
        Ok(())
    }

    /// Adds a method number, unless one with its name and proto is there.
    fn add_new(
        &mut self,
        hierarchy: &Hierarchy,
        seen: &mut [bool],
        number: u32,
    ) -> Result<(), AllocError>
        requires named { IsNamed self.old.program.now hierarchy.now.named }
        requires within { number < length self.old.program.now.methods }
        requires so_far { SpelledTo self.old.program.now hierarchy.now seen.old self.old number }
        ensures { OnOk result (SpelledTo self.old.program.now hierarchy.now seen.new self.new (number + 1)) }
    {
        let key = hierarchy.key_of_method(number);
        if is_on(seen, key) {
            return Ok(());
        }
        turn(seen, key, true);
        self.add(number)?;
        Ok(())
    }

    /// Adds all method numbers, one for each name and proto.
    fn add_all(
        &mut self,
        hierarchy: &Hierarchy,
        count: u32,
        seen: &mut [bool],
    ) -> Result<(), AllocError>
        requires counted { count ≡ length self.old.program.now.methods }
        requires named { IsNamed self.old.program.now hierarchy.now.named }
        requires none { SpelledTo self.old.program.now hierarchy.now seen.old self.old 0 }
        ensures { OnOk result (IsSpelled self.old.program.now self.new) }
    {
        for number in 0..count {
            self.add_new(hierarchy, seen, number)?;
        }
        Ok(())
    }

    /// No methods.
    fn none(alloc: Global, program: &'a Program) -> Spelled<'a>
        ensures program { result.program.now ≡ program.now }
        ensures numbers { result.numbers.items ≡ [] }
        ensures names { (texts : ℕ → List ℕ) → AreListed texts 0 result.names }
    {
        Spelled {
            program,
            numbers: Vec::new(alloc),
            names: Listed::new(alloc),
        }
    }

    /// The methods of a program by the texts of their names and protos.
    pub fn of(
        alloc: Global,
        program: &'a Program,
        hierarchy: &Hierarchy,
    ) -> Result<Spelled<'a>, AllocError>
        requires { IsOf program.now hierarchy.now }
        ensures is { IfOk result (IsSpelled program.now) }
        ensures program { IfOk result (λ spelled. spelled.program.now ≡ program.now) }
    {
        let count = program.methods.len();
        let mut seen = no_marks(alloc, count)?;
        let mut spelled = Spelled::none(alloc, program);
        spelled.add_all(hierarchy, word(count), seen.as_mut_slice())?;
        Ok(spelled)
    }

    /// Adds the number at a place, where its proto has the text.
    fn add_named(
        &self,
        alloc: Global,
        place: usize,
        proto: &[u16],
        out: &mut Vec<u32>,
    ) -> Result<(), AllocError>
        ensures { OnOk result (out.new.items ≡ out.old.items ++ spelled_one self.now.program.now self.now.numbers.items proto.now place) }
    {
        if let Some(number) = self.numbers.get(place) {
            if proto_of(alloc, self.program, *number)?.as_slice() == proto {
                out.push(*number)?;
            }
        }
        Ok(())
    }

    /// Adds the numbers at places, where their protos have the text.
    fn add_places(
        &self,
        alloc: Global,
        places: &[usize],
        proto: &[u16],
        out: &mut Vec<u32>,
    ) -> Result<(), AllocError>
        ensures { OnOk result (out.new.items ≡ out.old.items ++ flat_map (spelled_one self.now.program.now self.now.numbers.items proto.now) places.now) }
    {
        for place in places {
            self.add_named(alloc, *place, proto, out)?;
        }
        Ok(())
    }

    /// Adds the method numbers with these texts as name and proto, one for each name and proto.
    pub fn named(
        &self,
        alloc: Global,
        name: &[u16],
        proto: &[u16],
        out: &mut Vec<u32>,
    ) -> Result<(), AllocError>
        requires { IsSpelled self.now.program.now self.now }
        ensures { OnOk result (out.new.items ≡ out.old.items ++ spelled_as self.now.program.now self.now.numbers.items name.now proto.now) }
    {
        let places = self.names.all(alloc, name)?;
        self.add_places(alloc, places.as_slice(), proto, out)?;
        Ok(())
    }
}
