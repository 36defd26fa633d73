//! What a library declares at and above its types.

ghost use Rattle.std.specs.Prelude.{◌≡◌, ◌+◌, ◌++◌, ◌&&◌, ◌||◌, ◌∷◌, [], ℕ, List, true, Some, length, flat_map, slice_get, IfOk, OnOk};
ghost use Rattle.std.specs.List.{list_all};
ghost use Rattle.stub_library.specs.Shut.{walk_clear, above_of};
ghost use Rattle.stub_library.specs.Listing.{AreListed};
ghost use Rattle.stub_library.specs.Spelling.{IsSpelled};
ghost use Rattle.stub_library.specs.Meeting.{Adds, Meets, IsDeclared, DeclaredTo, is_seen, local_clear, texts_of, class_above, has_any, row_or_none, declared_among, rows_at, above_by};

use crate::library::{Library, LibraryClass, LibraryMethod};
use crate::listed::Listed;
use crate::spelled::Spelled;
use crate::texts::is_object;
use dex_base::Text;
use indexmap::IndexSet;
use seq::Seq;
use std::alloc::{AllocError, Global};

/// The declarations of a library by the types' texts, and for each the numbers of the program's methods with the name and
/// proto of a virtual method that it declares.
#[derive(Drop)]
pub struct Declared<'a, 's> {
    library: &'a Library,
    spelled: &'s Spelled<'a>,
    classes: Listed<'a>,
    numbers: Vec<Seq<u32>>,
}

/// What is met on walks upwards: whether all types are declared, and the numbers of the methods.
#[derive(Drop)]
pub struct Met {
    pub whole: bool,
    pub numbers: Vec<u32>,
}

/// The numbers of the program's methods with the name and proto of a method that the class declares.
fn numbers_of(
    alloc: Global,
    spelled: &Spelled,
    methods: &[LibraryMethod],
) -> Result<Vec<u32>, AllocError>
    requires { IsSpelled spelled.now.program.now spelled.now }
    ensures { IfOk result (λ numbers. numbers.items ≡ declared_among spelled.now.program.now spelled.now.numbers.items methods.now) }
{
    let mut numbers = Vec::new(alloc);
    for method in methods {
        spelled.named(
            alloc,
            method.name.units(),
            method.proto.units(),
            &mut numbers,
        )?;
    }
    Ok(numbers)
}

/// Adds a text, unless it was seen.
fn add_unseen<'a>(
    text: &'a [u16],
    seen: &mut IndexSet<&'a [u16]>,
    next: &mut Vec<&'a [u16]>,
) -> Result<(), AllocError>
    ensures { OnOk result (Adds (text.now ∷ []) (is_seen seen.old) (is_seen seen.new) (texts_of next.old.items) (texts_of next.new.items)) }
{
    let is_new = seen.insert(text)?;
    if !is_new {
        return Ok(());
    }
    next.push(text)?;
    Ok(())
}

/// Adds texts that weren't seen, each once.
fn add_all_unseen<'a>(
    texts: &'a [Text],
    seen: &mut IndexSet<&'a [u16]>,
    next: &mut Vec<&'a [u16]>,
) -> Result<(), AllocError>
    ensures { OnOk result (Adds texts.now (is_seen seen.old) (is_seen seen.new) (texts_of next.old.items) (texts_of next.new.items)) }
{
    for text in texts {
        add_unseen(text.units(), seen, next)?;
    }
    Ok(())
}

/// Whether there are declarations.
fn has_any(places: &[usize]) -> bool
    ensures { result ≡ has_any places.now }
{
    match places {
        [] => false,
        [_first, ..] => true,
    }
}

/// Whether all types that were met are known, after one more.
fn all_known(whole: bool, is_object: bool, is_declared: bool) -> bool
    ensures { result ≡ (whole && (is_object || is_declared)) }
{
    whole && (is_object || is_declared)
}

/// Whether no texts are left.
fn is_done(level: &[&[u16]]) -> bool
    ensures { result ≡ true → level.now ≡ [] }
{
    match level {
        [] => true,
        [_first, ..] => false,
    }
}

impl<'a, 's> Declared<'a, 's> {
    /// Adds a declaration.
    fn add(&mut self, alloc: Global, class: &'a LibraryClass) -> Result<(), AllocError>
        requires { IsSpelled self.old.spelled.now.program.now self.old.spelled.now }
        ensures same { OnOk result (self.new.spelled ≡ self.old.spelled) }
        ensures more { (done : ℕ) → DeclaredTo self.old.spelled.now.program.now self.old.library.now self.old done → slice_get self.old.library.now.classes done ≡ Some class.now
            → OnOk result (DeclaredTo self.old.spelled.now.program.now self.old.library.now self.new (done + 1)) }
    {
        self.classes.add(class.name.units())?;
        let numbers = numbers_of(alloc, self.spelled, class.methods.as_slice())?;
        self.numbers.push(Seq::of_vec(numbers))?;
        Ok(())
    }

    /// No declarations.
    fn none(alloc: Global, library: &'a Library, spelled: &'s Spelled<'a>) -> Declared<'a, 's>
        ensures library { result.library.now ≡ library.now }
        ensures spelled { result.spelled.now ≡ spelled.now }
        ensures classes { (texts : ℕ → List ℕ) → AreListed texts 0 result.classes }
        ensures numbers { result.numbers.items ≡ [] }
    {
        Declared {
            library,
            spelled,
            classes: Listed::new(alloc),
            numbers: Vec::new(alloc),
        }
    }

    /// What a library declares of the methods of a program.
    pub fn of_library(
        alloc: Global,
        library: &'a Library,
        spelled: &'s Spelled<'a>,
    ) -> Result<Declared<'a, 's>, AllocError>
        requires { IsSpelled spelled.now.program.now spelled.now }
        ensures is { IfOk result (IsDeclared spelled.now.program.now library.now) }
        ensures spelled { IfOk result (λ declared. declared.spelled.now ≡ spelled.now) }
    {
        let mut declared = Declared::none(alloc, library, spelled);
        for class in library.classes.as_slice() {
            declared.add(alloc, class)?;
        }
        Ok(declared)
    }

    /// Adds the methods of a declaration.
    fn add_row(&self, place: usize, out: &mut Vec<u32>) -> Result<(), AllocError>
        ensures { OnOk result (out.new.items ≡ out.old.items ++ row_or_none (slice_get self.now.numbers.items place)) }
    {
        if let Some(numbers) = self.numbers.get(place) {
            out.extend_from_slice(numbers.as_slice())?;
        }
        Ok(())
    }

    /// Adds the methods of some declarations.
    fn add_methods(&self, places: &[usize], out: &mut Vec<u32>) -> Result<(), AllocError>
        ensures { OnOk result (out.new.items ≡ out.old.items ++ rows_at self.now.numbers.items places.now) }
    {
        for place in places {
            self.add_row(*place, out)?;
        }
        Ok(())
    }

    /// Adds what stands directly above by a declaration and wasn't seen.
    fn add_above(
        &self,
        place: usize,
        seen: &mut IndexSet<&'a [u16]>,
        next: &mut Vec<&'a [u16]>,
    ) -> Result<(), AllocError>
        ensures { OnOk result (Adds (class_above (slice_get self.now.library.now.classes place)) (is_seen seen.old) (is_seen seen.new) (texts_of next.old.items) (texts_of next.new.items)) }
    {
        match self.library.classes.as_slice().get(place) {
            Some(class) => {
                add_all_unseen(class.above.as_slice(), seen, next)?;
                Ok(())
            }
            None => Ok(()),
        }
    }

    /// Adds what stands directly above by some declarations and wasn't seen.
    fn add_all_above(
        &self,
        places: &[usize],
        seen: &mut IndexSet<&'a [u16]>,
        next: &mut Vec<&'a [u16]>,
    ) -> Result<(), AllocError>
        ensures { OnOk result (Adds (above_by self.now.library.now places.now) (is_seen seen.old) (is_seen seen.new) (texts_of next.old.items) (texts_of next.new.items)) }
    {
        for place in places {
            self.add_above(*place, seen, next)?;
        }
        Ok(())
    }

    /// Meets a type.
    fn meet(
        &self,
        alloc: Global,
        text: &[u16],
        met: &mut Met,
        seen: &mut IndexSet<&'a [u16]>,
        next: &mut Vec<&'a [u16]>,
    ) -> Result<(), AllocError>
        requires { IsDeclared self.now.spelled.now.program.now self.now.library.now self.now }
        ensures meets { OnOk result (Meets self.now.spelled.now.program.now (λ n q. local_clear self.now.library.now n q text.now) met.old met.new) }
        ensures adds { OnOk result (Adds (above_of self.now.library.now text.now) (is_seen seen.old) (is_seen seen.new) (texts_of next.old.items) (texts_of next.new.items)) }
    {
        let places = self.classes.all(alloc, text)?;
        let places = places.as_slice();
        let is_declared = has_any(places);
        met.whole = all_known(met.whole, is_object(text), is_declared);
        self.add_methods(places, &mut met.numbers)?;
        self.add_all_above(places, seen, next)?;
        Ok(())
    }

    /// Meets the types of a level.
    fn meet_level(
        &self,
        alloc: Global,
        level: &[&'a [u16]],
        met: &mut Met,
        seen: &mut IndexSet<&'a [u16]>,
        next: &mut Vec<&'a [u16]>,
    ) -> Result<(), AllocError>
        requires { IsDeclared self.now.spelled.now.program.now self.now.library.now self.now }
        ensures meets { OnOk result (Meets self.now.spelled.now.program.now (λ n q. list_all (local_clear self.now.library.now n q) (texts_of level.now)) met.old met.new) }
        ensures adds { OnOk result (Adds (flat_map (above_of self.now.library.now) (texts_of level.now)) (is_seen seen.old) (is_seen seen.new) (texts_of next.old.items) (texts_of next.new.items)) }
    {
        for text in level {
            self.meet(alloc, *text, met, seen, next)?;
        }
        Ok(())
    }

    /// Meets all types on the walk upwards from a type, level by level.
    pub fn meet_all(&self, alloc: Global, text: &'a [u16], met: &mut Met) -> Result<(), AllocError>
        requires { IsDeclared self.now.spelled.now.program.now self.now.library.now self.now }
        ensures { OnOk result (Meets self.now.spelled.now.program.now (λ n q. walk_clear (length self.now.library.now.classes + 2) self.now.library.now n q text.now) met.old met.new) }
    {
        let mut seen = IndexSet::new(alloc);
        seen.insert(text)?;
        let mut level = Vec::new(alloc);
        level.push(text)?;
        for done in 0..self.library.classes.len() + 2 {
            let here = level.as_slice();
            if is_done(here) {
                return Ok(());
            }
            let mut next = Vec::new(alloc);
            self.meet_level(alloc, here, met, &mut seen, &mut next)?;
            level = next;
        }
        Ok(())
    }
}
