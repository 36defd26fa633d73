//! What calls find.

ghost use Rattle.std.specs.Prelude.{◌≡◌, ◌&&◌, false, slice_index_or};
ghost use Rattle.std.specs.List.{list_all};
ghost use Rattle.std.specs.Option.{option_copied};
ghost use Rattle.program_model.specs.Lookups.{method_at};
ghost use Rattle.hierarchy.specs.Tables.{read_at, row_of};
ghost use Rattle.hierarchy.specs.Giving.{is_waiting, search_given, verdict_more};
ghost use Rattle.hierarchy.specs.Shapes.{IsOf, IsResolved};
ghost use Rattle.program_model.specs.Lookups.{method_or};
ghost use Rattle.class_defs.specs.Starts.{initialiser_place};
ghost use Rattle.std.specs.Prelude.{None};
ghost use Rattle.program_model.specs.Lookups.{class_place};
ghost use Rattle.program_model.specs.declared.program.Program.{Program};
ghost use Rattle.class_defs.specs.Places.{super_place, interface_places, chain_of};
ghost use Rattle.std.specs.Prelude.{ℕ, Some, IfOk, OnOk, slice_get, vec_len, not, cond, length, filter, flat_map, [], ◌∷◌, ◌++◌, nat_lt, true};
ghost use Rattle.hierarchy.specs.Walking.{is_seen, waits, IsClear, IsFair, IsUnseen, Visits, Takes, own_candidate, above_interface};
ghost use Rattle.program_model.specs.MemberRules.{is_direct};
ghost use Rattle.program_model.specs.declared.pools.MethodName.{MethodName};
ghost use Rattle.class_defs.specs.Members.{own_method, own_virtual, virtual_only, is_common, is_interface, has_code};
ghost use Rattle.class_defs.specs.Finding.{is_037, beside, finds_from, finds_static, finds_virtual, one_or_none, without_repeats, candidates_from, candidates, is_lowest, lowest, verdict};
ghost use Rattle.hierarchy.specs.Membership.{key_at};
ghost use Rattle.hierarchy.specs.Naming.{IsKey, definers_of};

use crate::build::Hierarchy;
use crate::members::{is_virtual, key_of};
use crate::table::{is_on, read};
use crate::walk::Walk;
use program_model::{Flags, Method, MethodAt, Program, Version};
use std::alloc::{AllocError, Global};

/// What the candidates of interfaces give: no method with code, just one that stands in no interface above another
/// candidate's, or several, which clash.
#[derive(Clone, Copy, PartialEq, Eq, Drop)]
pub enum Given {
    Nothing,
    One(MethodAt),
    Clash,
}

/// The method at a place, none past the end.
pub fn method_at(program: &Program, at: MethodAt) -> Option<&Method>
    ensures { option_copied result ≡ method_at program.now at }
{
    match program.classes.as_slice().get(at.class as usize) {
        Some(class) => class.methods.as_slice().get(at.place as usize),
        None => None,
    }
}

impl Hierarchy {
    /// The place of the class that defines a type.
    pub fn place_of(&self, kind: u32) -> Option<u32>
        ensures table { result ≡ read_at self.now.shape.places.items kind }
        ensures is { (p : Program) → IsOf p self.now → result ≡ class_place p kind }
    {
        read(self.shape.places.as_slice(), kind)
    }

    /// The place of the program superclass of a class.
    pub fn super_of(&self, class: u32) -> Option<u32>
        ensures table { result ≡ read_at self.now.shape.supers.items class }
        ensures is { (p : Program) → IsOf p self.now → result ≡ super_place p class }
    {
        read(self.shape.supers.as_slice(), class)
    }

    /// The places of the program interfaces that a class lists, in its order.
    pub fn interfaces_of(&self, class: u32) -> &[u32]
        ensures { (p : Program) → IsOf p self.now → result.now ≡ interface_places p class }
    {
        self.shape.lists.row(class)
    }

    /// The places of a class and of its program superclasses, the class first.
    pub fn chain(&self, alloc: Global, class: u32) -> Result<Vec<u32>, AllocError>
        ensures { (p : Program) → IsOf p self.now → IfOk result (λ chain. chain.items ≡ chain_of p (Some class)) }
    {
        let mut chain = Vec::new(alloc);
        let mut at = Some(class);
        for done in 0..self.shape.supers.len() {
            let one = match at {
                Some(one) => one,
                None => break,
            };
            chain.push(one)?;
            at = self.super_of(one);
        }
        Ok(chain)
    }

    /// A number for the name and proto of a method number, the same for all of the same name and proto.
    pub fn key_of_method(&self, method: u32) -> u32
        ensures table { result ≡ key_at self.now.named.method_keys.keys.items method }
        ensures is { (p : Program) (q : MethodName) → slice_get p.methods method ≡ Some q → IsKey p self.now result q.name q.proto }
    {
        key_of(self.named.method_keys.keys.as_slice(), method)
    }

    /// Whether the key is of one of `equals`, `hashCode`, `toString`, `clone` and `finalize` by the protos of
    /// `Ljava/lang/Object;`.
    pub fn is_key_of_object(&self, key: u32) -> bool
        ensures table { result ≡ slice_index_or self.now.named.of_object.items key false }
        ensures is { (p : Program) (name proto : ℕ) → IsOf p self.now → IsKey p self.now key name proto → result ≡ is_common p name proto }
    {
        is_on(self.named.of_object.as_slice(), key)
    }

    /// Whether a defined method is virtual: neither static, private, nor named with a leading `<`.
    pub fn is_virtual(&self, method: &Method) -> bool
        ensures { (p : Program) → IsOf p self.now → result ≡ not (is_direct p method.now) }
    {
        is_virtual(method, self.named.special.as_slice())
    }

    /// Where the class defines its initialiser: the first of its methods that is named `<clinit>`, takes nothing and gives
    /// nothing, where it is static and has code.
    pub fn initialiser_of(&self, class: u32) -> Option<MethodAt>
        ensures { (p : Program) → IsResolved p self.now → result ≡ method_or class (initialiser_place p class) None }
    {
        match read(self.starts.initialisers.as_slice(), class) {
            Some(place) => Some(MethodAt { class, place }),
            None => None,
        }
    }

    /// The method with the key that the class itself defines.
    pub fn own_method(&self, class: u32, key: u32) -> Option<MethodAt>
        ensures { (p : Program) (name proto : ℕ) → IsOf p self.now → IsKey p self.now key name proto → result ≡ own_method p name proto class }
    {
        match self.named.methods.find(class, key) {
            Some(place) => Some(MethodAt { class, place }),
            None => None,
        }
    }

    /// The virtual method with the key that the class itself defines.
    pub fn own_virtual(&self, program: &Program, class: u32, key: u32) -> Option<MethodAt>
        ensures { (name proto : ℕ) → IsOf program.now self.now → IsKey program.now self.now key name proto → result ≡ own_virtual program.now name proto class }
    {
        match self.own_method(class, key) {
            Some(found) => self.virtual_only(program, found),
            None => None,
        }
    }

    /// The method at a place where it is virtual.
    fn virtual_only(&self, program: &Program, found: MethodAt) -> Option<MethodAt>
        ensures { IsOf program.now self.now → result ≡ virtual_only program.now (Some found) }
    {
        match method_at(program, found) {
            Some(method) => {
                if self.is_virtual(method) {
                    Some(found)
                } else {
                    None
                }
            }
            None => None,
        }
    }

    /// The classes that define a method with the key, in file order.
    pub fn definers_of(&self, key: u32) -> &[u32]
        ensures { (p : Program) (name proto : ℕ) → IsOf p self.now → IsKey p self.now key name proto → result.now ≡ definers_of p name proto }
    {
        self.named.definers.row(key)
    }

    /// The first method with the key along a class and its program superclasses.
    pub fn find_from(&self, class: u32, key: u32) -> Option<MethodAt>
        ensures { (p : Program) (name proto : ℕ) → IsOf p self.now → IsKey p self.now key name proto → result ≡ finds_from p name proto (Some class) }
    {
        let mut at = Some(class);
        for done in 0..self.shape.supers.len() {
            let one = match at {
                Some(one) => one,
                None => break,
            };
            match self.own_method(one, key) {
                Some(found) => return Some(found),
                None => at = self.super_of(one),
            }
        }
        None
    }

    /// What a static or direct call of a method number finds: the first method of its name and proto along the named
    /// class and its program superclasses.
    pub fn find_static(&self, program: &Program, method: u32) -> Option<MethodAt>
        ensures { IsOf program.now self.now → result ≡ finds_static program.now method }
    {
        match program.methods.as_slice().get(method as usize) {
            Some(name) => match self.place_of(name.class) {
                Some(class) => self.find_from(class, self.key_of_method(method)),
                None => None,
            },
            None => None,
        }
    }

    /// The first virtual method with the key along a class and its program superclasses. Where there is none, what the
    /// candidates give decides.
    pub fn find_virtual(&self, program: &Program, class: u32, key: u32) -> Option<MethodAt>
        ensures { (name proto : ℕ) → IsOf program.now self.now → IsKey program.now self.now key name proto → result ≡ finds_virtual program.now name proto class }
    {
        let mut at = Some(class);
        for done in 0..self.shape.supers.len() {
            let one = match at {
                Some(one) => one,
                None => break,
            };
            match self.own_virtual(program, one, key) {
                Some(found) => return Some(found),
                None => at = self.super_of(one),
            }
        }
        None
    }

    /// A walk over the classes of this hierarchy.
    pub fn walk(&self, alloc: Global) -> Result<Walk, AllocError>
        ensures clear { IfOk result (λ w. IsClear (vec_len self.now.shape.supers) w) }
        ensures fair { IfOk result (λ w. IsFair w) }
    {
        Walk::new(alloc, self.shape.supers.len())
    }

    /// Whether there are candidates for the key: in version 037, and for none of the five methods that the framework
    /// may call on every object.
    fn has_candidates(&self, program: &Program, key: u32) -> bool
        ensures { (name proto : ℕ) → IsOf program.now self.now → IsKey program.now self.now key name proto → result ≡ (is_037 program.now.version && not (is_common program.now name proto)) }
    {
        match program.version {
            Version::V035 => false,
            Version::V037 => !self.is_key_of_object(key),
        }
    }

    /// The interfaces that an interface lists, none where the class is none.
    fn above_interface(&self, program: &Program, class: u32) -> &[u32]
        ensures { result.now ≡ cond (is_interface (slice_get program.now.classes class)) (row_of self.now.shape.lists.rows class) [] }
    {
        if is_interface(program, class) {
            self.shape.lists.row(class)
        } else {
            &[]
        }
    }

    /// The virtual method with the key that a class defines, where it is an interface.
    fn own_candidate(&self, program: &Program, class: u32, key: u32) -> Option<MethodAt>
        ensures { (name proto : ℕ) → IsOf program.now self.now → IsKey program.now self.now key name proto → result ≡ own_candidate program.now name proto class }
    {
        if is_interface(program, class) {
            self.own_virtual(program, class, key)
        } else {
            None
        }
    }

    /// Adds the candidate for the key that a class gives.
    fn add_candidate(
        &self,
        program: &Program,
        class: u32,
        key: u32,
        out: &mut Vec<MethodAt>,
    ) -> Result<(), AllocError>
        ensures { (name proto : ℕ) → IsOf program.now self.now → IsKey program.now self.now key name proto → OnOk result (out.new.items ≡ out.old.items ++ one_or_none (own_candidate program.now name proto class)) }
    {
        match self.own_candidate(program, class, key) {
            Some(found) => {
                out.push(found)?;
                Ok(())
            }
            None => Ok(()),
        }
    }

    /// Adds the candidate for the key that a class gives, and lets the interfaces above it wait, unless it was seen
    /// before.
    fn collect_at(
        &self,
        program: &Program,
        class: u32,
        key: u32,
        walk: &mut Walk,
        out: &mut Vec<MethodAt>,
    ) -> Result<(), AllocError>
        ensures fair { IsFair walk.old → IsFair walk.new }
        ensures size { length walk.new.seen.items ≡ length walk.old.seen.items }
        ensures visits { OnOk result (Visits walk.old.seen.items (waits walk.old) class None (cond (is_interface (slice_get program.now.classes class)) (row_of self.now.shape.lists.rows class) [] ++ []) walk.new.seen.items (waits walk.new) None) }
        ensures takes { (name proto : ℕ) → IsOf program.now self.now → IsKey program.now self.now key name proto → OnOk result (Takes (one_or_none (own_candidate program.now name proto class)) walk.old.seen.items (waits walk.old) class (above_interface program.now class) walk.new.seen.items (waits walk.new) out.old.items out.new.items) }
    {
        if walk.open(class, self.above_interface(program, class), None)? {
            self.add_candidate(program, class, key, out)?;
        }
        Ok(())
    }

    /// Adds the candidates for the key in the interfaces that wait, and in all above them.
    fn collect(
        &self,
        program: &Program,
        key: u32,
        walk: &mut Walk,
        out: &mut Vec<MethodAt>,
    ) -> Result<(), AllocError>
        ensures fair { IsFair walk.old → IsFair walk.new }
        ensures size { length walk.new.seen.items ≡ length walk.old.seen.items }
        ensures is { (name proto : ℕ) → IsOf program.now self.now → IsKey program.now self.now key name proto → IsUnseen (length program.now.classes) walk.old → OnOk result (out.new.items ≡ out.old.items ++ without_repeats (candidates_from (length program.now.classes) program.now name proto (waits walk.old))) }
    {
        while let Some(one) = walk.pop() {
            self.collect_at(program, one, key, walk, out)?;
        }
        Ok(())
    }

    /// Lets the interfaces wait that a class and its program superclasses list, those of the class first.
    fn push_lists(&self, class: u32, walk: &mut Walk) -> Result<(), AllocError>
        ensures waits { (p : Program) → IsOf p self.now → OnOk result (waits walk.new ≡ flat_map (interface_places p) (chain_of p (Some class)) ++ waits walk.old) }
        ensures seen { walk.new.seen ≡ walk.old.seen }
        ensures list { walk.new.list ≡ walk.old.list }
    {
        let chain = self.chain(walk.allocator(), class)?;
        walk.push_rows(&self.shape.lists, chain.as_slice())
    }

    /// Adds the candidates for the key of the interfaces that a class and its program superclasses list: the virtual
    /// methods of that name and proto in these and in all interfaces above them, each interface followed by those above
    /// it, where a class without the flag of interfaces counts for none. In version 035, and for the five methods that
    /// the framework may call on every object, there are none.
    pub fn candidates(
        &self,
        program: &Program,
        class: u32,
        key: u32,
        walk: &mut Walk,
        out: &mut Vec<MethodAt>,
    ) -> Result<(), AllocError>
        ensures fair { IsFair walk.old → IsFair walk.new }
        ensures size { length walk.new.seen.items ≡ length walk.old.seen.items }
        ensures is { (name proto : ℕ) → IsOf program.now self.now → IsKey program.now self.now key name proto → IsFair walk.old → length walk.old.seen.items ≡ length program.now.classes → OnOk result (out.new.items ≡ out.old.items ++ candidates program.now (flat_map (interface_places program.now) (chain_of program.now (Some class))) name proto) }
    {
        if !self.has_candidates(program, key) {
            return Ok(());
        }
        walk.clear();
        self.push_lists(class, walk)?;
        self.collect(program, key, walk, out)
    }

    /// Adds the candidates for the key of one interface: its own virtual method, and those of the interfaces above it.
    pub fn candidates_of(
        &self,
        program: &Program,
        interface: u32,
        key: u32,
        walk: &mut Walk,
        out: &mut Vec<MethodAt>,
    ) -> Result<(), AllocError>
        ensures fair { IsFair walk.old → IsFair walk.new }
        ensures size { length walk.new.seen.items ≡ length walk.old.seen.items }
        ensures is { (name proto : ℕ) → IsOf program.now self.now → IsKey program.now self.now key name proto → IsFair walk.old → length walk.old.seen.items ≡ length program.now.classes → OnOk result (out.new.items ≡ out.old.items ++ candidates program.now (interface ∷ []) name proto) }
    {
        if !self.has_candidates(program, key) {
            return Ok(());
        }
        walk.clear();
        walk.push(interface)?;
        self.collect(program, key, walk, out)
    }

    /// Lets the classes directly above a class wait.
    fn push_ups(&self, class: u32, walk: &mut Walk) -> Result<(), AllocError>
        ensures waits { OnOk result (waits walk.new ≡ (row_of self.now.shape.lists.rows class ++ beside (read_at self.now.shape.supers.items class)) ++ waits walk.old) }
        ensures seen { walk.new.seen ≡ walk.old.seen }
        ensures list { walk.new.list ≡ walk.old.list }
    {
        walk.push_above(self.shape.lists.row(class), self.super_of(class))
    }

    /// Lets the classes directly above those of some candidates wait.
    fn push_above(&self, candidates: &[MethodAt], walk: &mut Walk) -> Result<(), AllocError>
        ensures waits { OnOk result (waits walk.new ≡ flat_map (λ f. row_of self.now.shape.lists.rows f.class ++ beside (read_at self.now.shape.supers.items f.class)) candidates.now ++ waits walk.old) }
        ensures seen { walk.new.seen ≡ walk.old.seen }
        ensures list { walk.new.list ≡ walk.old.list }
    {
        for at in (0..candidates.len()).rev() {
            self.push_ups(candidates[at].class, walk)?;
        }
        Ok(())
    }

    /// Sees the classes that wait, and all above them.
    fn see_waiting(&self, walk: &mut Walk) -> Result<(), AllocError>
        ensures fair { IsFair walk.old → IsFair walk.new }
        ensures size { length walk.new.seen.items ≡ length walk.old.seen.items }
        ensures is { (p : Program) → IsOf p self.now → IsUnseen (length p.classes) walk.old → list_all (λ u. nat_lt u (length p.classes)) (waits walk.old) ≡ true → OnOk result ((c : ℕ) → is_seen walk.new c ≡ is_waiting p (waits walk.old) c) }
    {
        while let Some(one) = walk.pop() {
            walk.open(one, self.shape.lists.row(one), self.super_of(one))?;
        }
        Ok(())
    }

    /// Sees all classes that stand above one of the candidates' interfaces, by superclasses and interfaces.
    fn see_above(&self, candidates: &[MethodAt], walk: &mut Walk) -> Result<(), AllocError>
        ensures fair { IsFair walk.old → IsFair walk.new }
        ensures size { length walk.new.seen.items ≡ length walk.old.seen.items }
        ensures is { (p : Program) → IsOf p self.now → IsFair walk.old → length walk.old.seen.items ≡ length p.classes → OnOk result ((f : MethodAt) → not (is_seen walk.new f.class) ≡ is_lowest p candidates.now f) }
    {
        walk.clear();
        self.push_above(candidates, walk)?;
        self.see_waiting(walk)
    }

    /// What candidates give: the one with code that stands in no interface above another candidate's.
    pub fn given(
        &self,
        program: &Program,
        candidates: &[MethodAt],
        walk: &mut Walk,
    ) -> Result<Given, AllocError>
        ensures fair { IsFair walk.old → IsFair walk.new }
        ensures size { length walk.new.seen.items ≡ length walk.old.seen.items }
        ensures is { IsOf program.now self.now → IsFair walk.old → length walk.old.seen.items ≡ length program.now.classes → IfOk result (λ given. search_given given ≡ verdict (lowest program.now candidates.now)) }
    {
        self.see_above(candidates, walk)?;
        Ok(given_unseen(program, candidates, walk))
    }
}

/// What the candidates give that have code and whose classes aren't seen.
fn given_unseen(program: &Program, candidates: &[MethodAt], walk: &Walk) -> Given
    ensures { search_given result ≡ verdict (filter (λ f. has_code (method_at program.now f) && not (is_seen walk.now f.class)) candidates.now) }
{
    let mut given = Given::Nothing;
    for candidate in candidates {
        let counts = has_code(program, *candidate) && !walk.has_seen(candidate.class);
        given = given_more(given, *candidate, counts);
    }
    given
}

/// What is given with one candidate more, where it counts.
fn given_more(given: Given, candidate: MethodAt, counts: bool) -> Given
    ensures { search_given result ≡ cond counts (verdict_more (search_given given) candidate) (search_given given) }
{
    if !counts {
        return given;
    }
    match given {
        Given::Nothing => Given::One(candidate),
        _ => Given::Clash,
    }
}

/// Whether the class at a place is an interface.
fn is_interface(program: &Program, class: u32) -> bool
    ensures { result ≡ is_interface (slice_get program.now.classes class) }
{
    match program.classes.as_slice().get(class as usize) {
        Some(class) => class.flags.has(Flags::INTERFACE),
        None => false,
    }
}

/// Whether the method has code.
fn has_code(program: &Program, at: MethodAt) -> bool
    ensures { result ≡ has_code (method_at program.now at) }
{
    match method_at(program, at) {
        Some(method) => method.body.is_some(),
        None => false,
    }
}
