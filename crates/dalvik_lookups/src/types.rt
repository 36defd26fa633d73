//! Numbers for types (Dalvik executable format, "TypeDescriptor").

ghost use Rattle.std.specs.Prelude.{◌≡◌, ◌+◌, ◌-◌, ◌*◌, ◌<◌, ◌≤◌, ◌^◌, ◌++◌, ◌∷◌, ◌⊎◌, ℕ, true, false, not, length, drop, min, replicate, nat_eq, slice_get, slice_index_or, Some, None, map, fold, IfOk, IfSome, OnOk};
ghost use Rattle.dalvik_defs.specs.Names as name;
ghost use Rattle.dalvik_defs.specs.Names.{Text, text_eq, object_type};
ghost use Rattle.dalvik_defs.specs.Items.{item_of_type};
ghost use Rattle.dalvik_lookups.specs.Views.{names_of, insert_text, name_at, type_text, sort_of, AreKept, AreTypes, IsKind, Added, AddedType};

use crate::known::{NAMES, OBJECT};
use indexmap::IndexSet;
use insn_set::Item;
use std::alloc::{AllocError, Global};

/// What the first unit of a descriptor says of its values.
#[derive(Clone, Copy, PartialEq, Eq, Drop)]
pub enum Sort {
    Class,
    Wide,
    Void,
    Boolean,
    Byte,
    Char,
    Short,
    Word,
    Array,
    Other,
    Empty,
}

/// A type: the number of its descriptor without brackets, and how many brackets there are.
#[derive(Clone, Copy, PartialEq, Eq, Drop)]
pub struct Kind {
    pub depth: usize,
    pub base: usize,
}

impl Kind {
    /// The type with this number, which is no array.
    pub fn plain(base: usize) -> Kind
        ensures { result ≡ record { depth = 0; base = base } }
    {
        Kind { depth: 0, base }
    }

    /// The type of an array of such items.
    pub fn array_of(self) -> Kind
        ensures is { result ≡ record { depth = min (self.depth + 1) 18446744073709551615; base = self.base } }
        ensures base { result.base ≡ self.base }
        ensures depth { self.depth < 2 ^ 64 - 1 → result.depth ≡ self.depth + 1 }
        ensures text { self.depth < 2 ^ 64 - 1 → (t : Types) → type_text t result ≡ name.array_of (type_text t self) }
        ensures kind { (t : Types) → IsKind t self → IsKind t result }
    {
        Kind {
            depth: self.depth.saturating_add(1),
            base: self.base,
        }
    }

    /// The type of an array's items.
    pub fn item_of(self) -> Kind
        ensures base { result.base ≡ self.base }
        ensures depth { result.depth ≡ self.depth - 1 }
        ensures text { 0 < self.depth → (t : Types) → type_text t result ≡ name.item_of (type_text t self) }
        ensures kind { (t : Types) → IsKind t self → IsKind t result }
    {
        Kind {
            depth: self.depth.saturating_sub(1),
            base: self.base,
        }
    }

    /// The type without so many of its brackets.
    pub(crate) fn inside(self, count: usize) -> Kind
        ensures base { result.base ≡ self.base }
        ensures depth { result.depth ≡ self.depth - count }
        ensures kind { (t : Types) → IsKind t self → IsKind t result }
    {
        Kind {
            depth: self.depth.saturating_sub(count),
            base: self.base,
        }
    }

    /// How many brackets it has together with another type.
    pub(crate) fn shared(self, other: Kind) -> usize
        ensures within { result ≤ self.depth }
        ensures other { result ≤ other.depth }
        ensures all { (self.depth - result ≡ 0) ⊎ (other.depth - result ≡ 0) }
    {
        if self.depth < other.depth {
            self.depth
        } else {
            other.depth
        }
    }

    /// Whether it is another type.
    pub(crate) fn is_same(self, other: Kind) -> bool
        ensures same { result ≡ true → self ≡ other }
        ensures other { result ≡ false → self ≡ other → ⊥ }
    {
        self.depth == other.depth && self.base == other.base
    }

    /// Whether it is an array.
    pub fn is_array(self) -> bool
        ensures depth { result ≡ not (nat_eq self.depth 0) }
        ensures text { (t : Types) → IsKind t self → result ≡ name.is_array (type_text t self) }
    {
        self.depth != 0
    }
}

/// What the first unit of a descriptor says.
fn sort_of(units: &[u16]) -> Sort
    ensures { result ≡ sort_of units.now }
{
    match units.first() {
        None => Sort::Empty,
        Some(unit) => match *unit {
            66 => Sort::Byte,
            67 => Sort::Char,
            68 | 74 => Sort::Wide,
            70 | 73 => Sort::Word,
            76 => Sort::Class,
            83 => Sort::Short,
            86 => Sort::Void,
            90 => Sort::Boolean,
            91 => Sort::Array,
            _ => Sort::Other,
        },
    }
}

/// Descriptors by number, and what each says.
#[derive(Drop)]
pub struct Types<'a> {
    names: IndexSet<&'a [u16]>,
    sorts: Vec<Sort>,
}

/// How many brackets a descriptor begins with.
fn depth_of(units: &[u16]) -> usize
    ensures within { result ≤ length units.now }
    ensures brackets { units.now ≡ replicate result 91 ++ drop result units.now }
    ensures bare { name.is_array (drop result units.now) ≡ false }
    ensures deep { result < 2 ^ 63 }
{
    let mut depth: usize = 0;
    for unit in units {
        if *unit != 91 {
            return depth;
        }
        depth += 1;
    }
    depth
}

/// The units behind so many.
fn behind(units: &[u16], count: usize) -> &[u16]
    ensures { count ≤ length units.now → result.now ≡ drop count units.now }
{
    match units.get(count..) {
        Some(rest) => rest,
        None => &[],
    }
}

impl<'a> Types<'a> {
    /// The types that the machine itself knows, under their numbers.
    pub fn new(alloc: Global) -> Result<Types<'a>, AllocError>
        ensures { IfOk result AreTypes }
    {
        let mut types = Types {
            names: IndexSet::new(alloc),
            sorts: Vec::new(alloc),
        };
        types.add_all(&NAMES)?;
        Ok(types)
    }

    /// Adds descriptors, brackets and all.
    fn add_all(&mut self, names: &[&'static [u16]]) -> Result<(), AllocError>
        ensures kept { AreKept self.old → OnOk result (AreKept self.new) }
        ensures names { OnOk result (names_of self.new ≡ fold insert_text (names_of self.old) (map (λ u. u.now) names.now)) }
    {
        for name in names {
            self.add_whole(*name)?;
        }
        Ok(())
    }

    /// The number of a descriptor, brackets and all.
    pub fn add_whole(&mut self, units: &'a [u16]) -> Result<usize, AllocError>
        ensures added { AreKept self.old → IfOk result (λ n. Added self.old self.new units.now n) }
        ensures names { OnOk result (names_of self.new ≡ insert_text (names_of self.old) units.now) }
    {
        let (number, added) = self.names.insert_full(units)?;
        if added {
            self.sorts.push(sort_of(units))?;
        }
        Ok(number)
    }

    /// A type by its descriptor.
    pub fn add(&mut self, units: &'a [u16]) -> Result<Kind, AllocError>
        ensures { AreKept self.old → IfOk result (λ k. AddedType self.old self.new units.now k) }
    {
        let depth = depth_of(units);
        let base = self.add_whole(behind(units, depth))?;
        Ok(Kind { depth, base })
    }

    /// How many descriptors there are.
    pub fn len(&self) -> usize
        ensures { result ≡ length (names_of self.now) }
    {
        self.names.len()
    }

    /// The descriptor with a number, empty where there is none.
    pub fn name(&self, number: usize) -> &[u16]
        ensures { result.now ≡ name_at self.now number }
    {
        match self.names.get_index(number) {
            Some(units) => *units,
            None => &[],
        }
    }

    /// The number of a descriptor that the table has.
    pub fn find(&self, units: &[u16]) -> Option<usize>
        ensures found { IfSome result (λ n. slice_get (names_of self.now) n ≡ Some units.now) }
        ensures absent { result ≡ None → (n : ℕ) → slice_get (names_of self.now) n ≡ Some units.now → ⊥ }
    {
        self.names.get_index_of(&units)
    }

    /// What the descriptor with a number says.
    fn sort(&self, number: usize) -> Sort
        ensures { AreTypes self.now → result ≡ sort_of (name_at self.now number) }
    {
        match self.sorts.as_slice().get(number) {
            Some(sort) => *sort,
            None => Sort::Empty,
        }
    }

    /// What the descriptor of a type says.
    pub fn sort_at(&self, kind: Kind) -> Sort
        ensures { AreTypes self.now → result ≡ sort_of (type_text self.now kind) }
    {
        if kind.is_array() {
            Sort::Array
        } else {
            self.sort(kind.base)
        }
    }

    /// Whether the type's values are references.
    pub fn is_reference(&self, kind: Kind) -> bool
        ensures { AreTypes self.now → result ≡ name.is_reference (type_text self.now kind) }
    {
        match self.sort_at(kind) {
            Sort::Class | Sort::Array => true,
            _ => false,
        }
    }

    /// Whether the type is that of a class or an interface.
    pub fn is_class_type(&self, kind: Kind) -> bool
        ensures { AreTypes self.now → result ≡ name.is_class_type (type_text self.now kind) }
    {
        match self.sort_at(kind) {
            Sort::Class => true,
            _ => false,
        }
    }

    /// Whether the type's values take two registers.
    pub fn is_wide(&self, kind: Kind) -> bool
        ensures { AreTypes self.now → result ≡ name.is_wide (type_text self.now kind) }
    {
        match self.sort_at(kind) {
            Sort::Wide => true,
            _ => false,
        }
    }

    /// Whether the type is that of no result.
    pub fn is_void(&self, kind: Kind) -> bool
        ensures { AreTypes self.now → result ≡ name.is_void (type_text self.now kind) }
    {
        match self.sort_at(kind) {
            Sort::Void => true,
            _ => false,
        }
    }

    /// Whether the type is primitive and its values take one register.
    pub fn is_word(&self, kind: Kind) -> bool
        ensures { AreTypes self.now → result ≡ name.is_word (type_text self.now kind) }
    {
        match self.sort_at(kind) {
            Sort::Boolean | Sort::Byte | Sort::Char | Sort::Short | Sort::Word => true,
            _ => false,
        }
    }

    /// Whether the type has an empty descriptor.
    pub fn is_empty_type(&self, kind: Kind) -> bool
        ensures { AreTypes self.now → result ≡ nat_eq (length (type_text self.now kind)) 0 }
    {
        match self.sort_at(kind) {
            Sort::Empty => true,
            _ => false,
        }
    }

    /// How items of the type are stored.
    pub fn item(&self, kind: Kind) -> Item
        ensures { AreTypes self.now → result ≡ item_of_type (type_text self.now kind) }
    {
        match self.sort_at(kind) {
            Sort::Class | Sort::Array => Item::Object,
            Sort::Wide => Item::Wide,
            Sort::Boolean => Item::Boolean,
            Sort::Byte => Item::Byte,
            Sort::Char => Item::Char,
            Sort::Short => Item::Short,
            _ => Item::Plain,
        }
    }

    /// Whether the type is `Ljava/lang/Object;`.
    pub fn is_object(kind: Kind) -> bool
        ensures { (t : Types) → AreTypes t → IsKind t kind → result ≡ text_eq (type_text t kind) object_type }
    {
        !kind.is_array() && kind.base == OBJECT
    }

    /// Appends the descriptor of a type.
    pub fn spell(&self, kind: Kind, out: &mut Vec<u16>) -> Result<(), AllocError>
        ensures { OnOk result (out.new.items ≡ out.old.items ++ type_text self.now kind) }
    {
        for _ in 0..kind.depth {
            out.push(91)?;
        }
        out.extend_from_slice(self.name(kind.base))?;
        Ok(())
    }
}
