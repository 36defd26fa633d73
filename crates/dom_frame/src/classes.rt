//! What a step reads of a program.

ghost use Rattle.std.specs.Prelude.{◌≡◌, ◌<◌, ◌≤◌, ◌⊎◌, ◌++◌, ◌∷◌, [], filter, length};
ghost use Rattle.domains.specs.ClassSets.{Ascends};
ghost use Rattle.program_model.specs.declared.program.Program.{Program};
ghost use Rattle.program_model.specs.Lookups.{class_place};
ghost use Rattle.value_ops.specs.Left.{of_class};
ghost use Rattle.dom_frame.specs.Classes.{AreClasses, place_in, stands_under, cast_under, cast_value};

use arrayvec::ArrayVec;
use domains::{ClassSet, Value};
use hierarchy::Hierarchy;
use value_ops::of_class;

/// The classes of a program: the place of the class that defines each type by type number, how many there are, and how
/// they stand to each other.
#[derive(Clone, Copy)]
pub struct Classes<'a> {
    pub places: &'a [Option<u32>],
    pub count: u32,
    pub hierarchy: &'a Hierarchy,
}

impl Classes<'_> {
    /// The place of the class that defines a type.
    fn place_of(&self, kind: u32) -> Option<u32>
        ensures { result ≡ place_in self.now.places.now kind }
    {
        match self.places.get(kind as usize) {
            Some(place) => *place,
            None => None,
        }
    }

    /// Whether a class stands under another, both by their places.
    fn is_under(&self, class: u32, upper: u32) -> bool
        ensures { (p : Program) → AreClasses p self.now → upper < length p.classes → result ≡ stands_under p upper class }
    {
        class < self.count && self.hierarchy.is_under(class, upper)
    }

    /// Adds a class to others where it stands under one.
    fn keep(&self, kept: &mut ArrayVec<u32, 8>, class: u32, upper: u32)
        requires { length kept.old.items < 8 }
        ensures either { (kept.new.items ≡ kept.old.items ++ class ∷ []) ⊎ (kept.new.items ≡ kept.old.items) }
        ensures are { (p : Program) → AreClasses p self.now → upper < length p.classes → kept.new.items ≡ kept.old.items ++ filter (stands_under p upper) (class ∷ []) }
    {
        if self.is_under(class, upper) {
            kept.push(class);
        }
    }

    /// Those of some classes that stand under one, of at most eight.
    fn kept(&self, classes: &[u32], upper: u32) -> ArrayVec<u32, 8>
        requires few { length classes.now ≤ 8 }
        requires ascending { Ascends 0 classes.now }
        ensures ascending { Ascends 0 result.items }
        ensures are { (p : Program) → AreClasses p self.now → upper < length p.classes → result.items ≡ filter (stands_under p upper) classes.now }
    {
        let mut kept = ArrayVec::new();
        for class in classes {
            self.keep(&mut kept, *class, upper);
        }
        kept
    }

    /// A new object of a type.
    pub(crate) fn made(&self, kind: u32) -> Value
        ensures { (p : Program) → AreClasses p self.now → result ≡ of_class (class_place p kind) }
    {
        of_class(self.place_of(kind))
    }

    /// What is left of a value that was cast to a type.
    pub(crate) fn cast(&self, value: &Value, kind: u32) -> Value
        ensures { (p : Program) → AreClasses p self.now → result ≡ cast_value p kind value.now }
    {
        match (self.place_of(kind), value.classes()) {
            (Some(upper), Some(classes)) => {
                value.with_classes(ClassSet::these(self.kept(classes, upper)))
            }
            (Some(_), None) => value.with_classes(ClassSet::any()),
            (None, _) => value.same(),
        }
    }
}
