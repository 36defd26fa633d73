//! Which methods nothing but calls of their class reaches.

ghost use Rattle.std.specs.Prelude.{◌≡◌, ◌<◌, ◌&&◌, ℕ, Some, true, cond, length, slice_get, slice_set, IfOk, OnOk};
ghost use Rattle.std.specs.List.{list_any};
ghost use Rattle.std.specs.Option.{option_copied};
ghost use Rattle.program_model.specs.declared.pools.MethodName.{MethodName};
ghost use Rattle.program_model.specs.declared.program.Class.{Class};
ghost use Rattle.class_defs.specs.Places.{is_under};
ghost use Rattle.hierarchy.specs.Naming.{IsKey};
ghost use Rattle.receivers.specs.Receiving.{interface_at};
ghost use Rattle.loose_methods.specs.Loose.{is_outer, is_outward, has_outward, is_alone, lists_outer};
ghost use Rattle.loose_methods.specs.Candidates.{is_plain_class, takes_receiver, is_kept};
ghost use Rattle.loose_methods.specs.Marking.{IsTable, AreUnder, keeps_from, tested};
ghost use Rattle.loose_methods.specs.Asked.{IsJudged, MarksOutward, Outwards, MarksClass, CandidatesTo, AreCandidates};

use crate::table::{is_any_on, is_on, no_marks, turn, turn_all, word};
use crate::texts::{is_constructor_name, is_object, type_units};
use hierarchy::Hierarchy;
use program_model::{Class, Flags, Method, MethodName, Outside, Program};
use std::alloc::{AllocError, Global};

/// The classes and methods that are judged.
#[derive(Clone, Copy)]
pub(crate) struct Judged<'a> {
    pub(crate) program: &'a Program,
    pub(crate) hierarchy: &'a Hierarchy,
}

/// A class whose methods are judged: its place, the classes under it, it among them, and whether one of these has an ancestor
/// of the framework.
#[derive(Clone, Copy)]
struct Place<'b> {
    class: u32,
    under: &'b [u32],
    outward: bool,
}

impl<'a> Judged<'a> {
    /// The entry of a method number.
    pub(crate) fn name_at(&self, number: u32) -> Option<&'a MethodName>
        ensures { option_copied result ≡ slice_get self.now.program.now.methods number }
    {
        self.program.methods.as_slice().get(number as usize)
    }

    /// Whether the class at a place is an interface.
    pub(crate) fn is_interface(&self, place: u32) -> bool
        ensures { result ≡ interface_at self.now.program.now place }
    {
        match self.program.classes.as_slice().get(place as usize) {
            Some(class) => class.flags.has(Flags::INTERFACE),
            None => false,
        }
    }

    /// Whether a type is one of the framework other than the class above all.
    fn is_outer(&self, kind: u32) -> bool
        ensures { IsJudged self.now → result ≡ is_outer self.now.program.now kind }
    {
        match self.hierarchy.place_of(kind) {
            Some(_) => false,
            None => !is_object(type_units(self.program, kind)),
        }
    }

    /// Whether one of some types is one of the framework other than the class above all.
    fn is_any_outer(&self, kinds: &[u32]) -> bool
        ensures { IsJudged self.now → result ≡ list_any (is_outer self.now.program.now) kinds.now }
    {
        for kind in kinds {
            if self.is_outer(*kind) {
                return true;
            }
        }
        false
    }

    /// Whether a class lists a type of the framework other than the class above all.
    fn lists_outer(&self, class: &Class) -> bool
        ensures { IsJudged self.now → result ≡ lists_outer self.now.program.now (Some class.now) }
    {
        if self.is_outer(class.superclass) {
            return true;
        }
        self.is_any_outer(class.interfaces.as_slice())
    }

    /// The classes under the class at a place, it among them.
    pub(crate) fn under(&self, alloc: Global, place: u32) -> Result<Vec<u32>, AllocError>
        ensures { IsJudged self.now → place < length self.now.program.now.classes → IfOk result (λ under. AreUnder self.now.program.now place under.items) }
    {
        let mut under = self.hierarchy.own_subclasses(alloc, place)?;
        under.push(place)?;
        Ok(under)
    }

    /// Marks the class at a place and those under it, if it lists a type of the framework.
    fn mark_outward(
        &self,
        alloc: Global,
        place: u32,
        class: &Class,
        marks: &mut [bool],
    ) -> Result<(), AllocError>
        ensures { IsJudged self.now → slice_get self.now.program.now.classes place ≡ Some class.now → OnOk result (MarksOutward self.now.program.now place marks.old marks.new) }
    {
        if !self.lists_outer(class) {
            return Ok(());
        }
        let under = self.under(alloc, place)?;
        turn_all(marks, under.as_slice());
        Ok(())
    }

    /// Marks each class that lists a type of the framework, and those under it.
    fn mark_outwards(
        &self,
        alloc: Global,
        classes: &[Class],
        marks: &mut [bool],
    ) -> Result<(), AllocError>
        ensures { let p = self.now.program.now in IsJudged self.now → classes.now ≡ p.classes → Outwards p 0 marks.old → OnOk result (Outwards p (length p.classes) marks.new) }
    {
        for (place, class) in classes.iter().enumerate() {
            self.mark_outward(alloc, word(place), class, marks)?;
        }
        Ok(())
    }

    /// Marks the classes with an ancestor of the framework.
    fn outward(&self, alloc: Global) -> Result<Vec<bool>, AllocError>
        ensures { IsJudged self.now → IfOk result (λ marks. IsTable (length self.now.program.now.classes) (is_outward self.now.program.now) marks.items) }
    {
        let mut marks = no_marks(alloc, self.program.classes.len())?;
        self.mark_outwards(alloc, self.program.classes.as_slice(), marks.as_mut_slice())?;
        Ok(marks)
    }

    /// Whether one of some classes is under another one.
    fn is_any_under(&self, classes: &[u32], upper: u32) -> bool
        ensures { let p = self.now.program.now in IsJudged self.now → ((k c : ℕ) → slice_get classes.now k ≡ Some c → c < length p.classes) → upper < length p.classes
            → result ≡ list_any (λ d. is_under p d upper) classes.now }
    {
        for class in classes {
            if self.hierarchy.is_under(*class, upper) {
                return true;
            }
        }
        false
    }

    /// Whether a class that defines a method with a key keeps the one of a class from being alone, if it stands above a class under
    /// that.
    fn keeps_from(&self, class: u32, key: u32, definer: u32) -> bool
        ensures { (q : MethodName) → IsJudged self.now → IsKey self.now.program.now self.now.hierarchy.now key q.name q.proto → result ≡ keeps_from self.now.program.now q class definer }
    {
        if self.is_interface(definer) {
            return true;
        }
        if definer == class {
            return false;
        }
        self.hierarchy
            .own_virtual(self.program, definer, key)
            .is_some()
    }

    /// Whether it keeps that one from being alone, and stands above a class under that.
    fn is_kept_by(&self, place: &Place<'_>, key: u32, definer: u32) -> bool
        ensures { let p = self.now.program.now in (q : MethodName) → IsJudged self.now → IsKey p self.now.hierarchy.now key q.name q.proto → AreUnder p place.now.class place.now.under.now
            → definer < length p.classes → result ≡ (keeps_from p q place.now.class definer && list_any (λ d. is_under p d definer) place.now.under.now) }
    {
        if !self.keeps_from(place.class, key, definer) {
            return false;
        }
        self.is_any_under(place.under, definer)
    }

    /// Whether one of some classes that define a method with a key keeps the one of a class from being alone.
    fn is_kept_from(&self, place: &Place<'_>, key: u32, definers: &[u32]) -> bool
        ensures { let p = self.now.program.now in (q : MethodName) → IsJudged self.now → IsKey p self.now.hierarchy.now key q.name q.proto → AreUnder p place.now.class place.now.under.now
            → ((k c : ℕ) → slice_get definers.now k ≡ Some c → c < length p.classes)
            → result ≡ list_any (λ u. keeps_from p q place.now.class u && list_any (λ d. is_under p d u) place.now.under.now) definers.now }
    {
        for definer in definers {
            if self.is_kept_by(place, key, *definer) {
                return true;
            }
        }
        false
    }

    /// Whether nothing overrides a virtual method of a class, is overridden by it, or stands above it in an interface or in the
    /// framework.
    fn is_alone(&self, place: &Place<'_>, key: u32) -> bool
        ensures { let p = self.now.program.now in (q : MethodName) → IsJudged self.now → IsKey p self.now.hierarchy.now key q.name q.proto → AreUnder p place.now.class place.now.under.now
            → place.now.outward ≡ has_outward p place.now.class → result ≡ is_alone p q place.now.class }
    {
        let outward = place.outward;
        if outward {
            return false;
        }
        if self.hierarchy.is_key_of_object(key) {
            return false;
        }
        !self.is_kept_from(place, key, self.hierarchy.definers_of(key))
    }

    /// Whether a method has code and a receiver and is no constructor.
    fn takes_receiver(&self, name: &MethodName, method: &Method) -> bool
        ensures { result ≡ takes_receiver self.now.program.now name.now method.now }
    {
        method.body.is_some()
            && !method.flags.has(Flags::STATIC)
            && !is_constructor_name(self.program, name.name)
    }

    /// Whether a method of a class, with this entry of the table of methods, may be static as far as other methods go.
    fn is_candidate_named(
        &self,
        kept: &[bool],
        place: &Place<'_>,
        name: &MethodName,
        method: &Method,
    ) -> bool
        ensures { let p = self.now.program.now in IsJudged self.now → slice_get p.methods method.now.name ≡ Some name.now → AreUnder p place.now.class place.now.under.now
            → place.now.outward ≡ has_outward p place.now.class
            → result ≡ tested p kept.now place.now.class name.now method.now }
    {
        if !self.takes_receiver(name, method) {
            return false;
        }
        if is_on(kept, method.name) {
            return false;
        }
        if !self.hierarchy.is_virtual(method) {
            return true;
        }
        self.is_alone(place, self.hierarchy.key_of_method(method.name))
    }

    /// Whether a method of a class may be static as far as other methods go.
    fn is_candidate(&self, kept: &[bool], place: &Place<'_>, method: &Method) -> bool
        ensures { let p = self.now.program.now in (q : MethodName) → IsJudged self.now → slice_get p.methods method.now.name ≡ Some q → AreUnder p place.now.class place.now.under.now
            → place.now.outward ≡ has_outward p place.now.class
            → result ≡ tested p kept.now place.now.class q method.now }
    {
        match self.name_at(method.name) {
            Some(name) => self.is_candidate_named(kept, place, name, method),
            None => false,
        }
    }

    /// Marks a method of a class, if it may be static as far as other methods go.
    fn mark_method(&self, kept: &[bool], place: &Place<'_>, method: &Method, marks: &mut [bool])
        ensures { let p = self.now.program.now in (q : MethodName) → IsJudged self.now → slice_get p.methods method.now.name ≡ Some q → AreUnder p place.now.class place.now.under.now
            → place.now.outward ≡ has_outward p place.now.class → marks.new ≡ cond (tested p kept.now place.now.class q method.now) (slice_set marks.old method.now.name true) marks.old }
    {
        if !self.is_candidate(kept, place, method) {
            return;
        }
        turn(marks, method.name, true);
    }

    /// Marks the methods of a class that may be static as far as other methods go.
    fn mark_methods(&self, kept: &[bool], place: &Place<'_>, methods: &[Method], marks: &mut [bool])
        ensures { let p = self.now.program.now in (o : Outside) (k : Class) → IsJudged self.now → slice_get p.classes place.now.class ≡ Some k → k.methods ≡ methods.now
            → is_plain_class p place.now.class k ≡ true → AreUnder p place.now.class place.now.under.now → place.now.outward ≡ has_outward p place.now.class
            → IsTable (length p.methods) (is_kept o) kept.now → length marks.old ≡ length p.methods → MarksClass p o place.now.class marks.old marks.new }
    {
        for method in methods {
            self.mark_method(kept, place, method, marks);
        }
    }

    /// Marks the methods of the class at a place that may be static as far as other methods go. Of an interface, and of a class whose
    /// initialisation runs code, there are none.
    fn mark_class(
        &self,
        alloc: Global,
        kept: &[bool],
        outward: &[bool],
        place: u32,
        class: &Class,
        marks: &mut [bool],
    ) -> Result<(), AllocError>
        ensures { let p = self.now.program.now in (o : Outside) → IsJudged self.now → slice_get p.classes place ≡ Some class.now → IsTable (length p.methods) (is_kept o) kept.now
            → IsTable (length p.classes) (is_outward p) outward.now → length marks.old ≡ length p.methods → OnOk result (MarksClass p o place marks.old marks.new) }
    {
        if class.flags.has(Flags::INTERFACE) {
            return Ok(());
        }
        if !self.hierarchy.trivially_initialised(self.program, place) {
            return Ok(());
        }
        let under = self.under(alloc, place)?;
        let at = Place {
            class: place,
            under: under.as_slice(),
            outward: is_any_on(outward, under.as_slice()),
        };
        self.mark_methods(kept, &at, class.methods.as_slice(), marks);
        Ok(())
    }

    /// Marks by number the methods of classes that may be static as far as other methods go. `kept` marks those that are kept, and
    /// `outward` the classes with an ancestor of the framework.
    fn mark_classes(
        &self,
        alloc: Global,
        kept: &[bool],
        outward: &[bool],
        classes: &[Class],
        marks: &mut [bool],
    ) -> Result<(), AllocError>
        ensures { let p = self.now.program.now in (o : Outside) → IsJudged self.now → IsTable (length p.methods) (is_kept o) kept.now → IsTable (length p.classes) (is_outward p) outward.now
            → classes.now ≡ p.classes → CandidatesTo p o 0 marks.old → OnOk result (CandidatesTo p o (length p.classes) marks.new) }
    {
        for (place, class) in classes.iter().enumerate() {
            self.mark_class(alloc, kept, outward, word(place), class, marks)?;
        }
        Ok(())
    }

    /// Marks by number the methods that aren't kept and may be static as far as other methods go. Their class is no interface,
    /// and initialising it runs no code.
    pub(crate) fn candidates(
        &self,
        alloc: Global,
        outside: &Outside,
    ) -> Result<Vec<bool>, AllocError>
        ensures { IsJudged self.now → IfOk result (λ marks. AreCandidates self.now.program.now outside.now marks.items) }
    {
        let mut kept = no_marks(alloc, self.program.methods.len())?;
        turn_all(&mut kept, outside.methods.as_slice());
        let outward = self.outward(alloc)?;
        let mut marks = no_marks(alloc, self.program.methods.len())?;
        self.mark_classes(
            alloc,
            kept.as_slice(),
            outward.as_slice(),
            self.program.classes.as_slice(),
            marks.as_mut_slice(),
        )?;
        Ok(marks)
    }
}
