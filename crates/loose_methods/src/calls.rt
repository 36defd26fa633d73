//! Which methods calls leave loose.

ghost use Rattle.std.specs.Prelude.{◌≡◌, ◌<◌, ◌^◌, ◌&&◌, ◌||◌, ℕ, Some, not, true, false, length, slice_get, slice_index_or, flat_map, IfOk, OnOk};
ghost use Rattle.std.specs.List.{list_any, list_all};
ghost use Rattle.insn_set.specs.declared.ops.InvokeKind.TheVariants as invoke;
ghost use Rattle.program_model.specs.declared.pools.MethodName.{MethodName};
ghost use Rattle.program_model.specs.declared.pass.Outside.{Outside};
ghost use Rattle.program_model.specs.declared.program.Class.{Class};
ghost use Rattle.call_targets.specs.Bound.{target_found};
ghost use Rattle.class_defs.specs.Finding.{Search, finds_static, finds_super, finds_virtual};
ghost use Rattle.class_defs.specs.Members.{own_virtual};
ghost use Rattle.program_model.specs.Lookups.{class_place};
ghost use Rattle.hierarchy.specs.Naming.{IsKey};
ghost use Rattle.receivers.specs.Receiving.{is_at};
ghost use Rattle.loose_methods.specs.Loose.{is_not_null, number_at, number_found, is_this, names_it, is_it, is_plain_call, concerns};
ghost use Rattle.loose_methods.specs.Loose.{knows_not_null, has_receiver, allows, all_allow, code_allows, methods_allow, classes_allow, calls_allow};
ghost use Rattle.loose_methods.specs.Marking.{is_on, IsCandidate};
ghost use Rattle.loose_methods.specs.Asked.{IsJudged};
ghost use Rattle.loose_methods.specs.Sifting.{number_searched, is_met_by, find_met, is_found, is_clear, HasCandidates, Keeps, KeepsUnfound, KeepsPlain};
ghost use Rattle.loose_methods.specs.Sifting.{IsSifted, Sifts, unfound_in, same_some, allows_so, allows_entry, IsShortCode, AreShortCodes};

use crate::candidates::Judged;
use crate::mentions::bar;
use crate::table::{has_mark, is_on, no_marks, turn, word};
use crate::texts::{is_object, type_units};
use call_targets::{Target, bound_target};
use domains::Nullness;
use facts::Facts;
use insn_set::{Insn, InvokeKind};
use program_model::{Admitted, Class, Method, MethodAt, MethodName};
use seq::Words;
use std::alloc::{AllocError, Global};

/// What calls are looked at with.
#[derive(Clone, Copy)]
struct Sifter<'a> {
    judged: Judged<'a>,
    facts: &'a Facts,
    admitted: &'a [bool],
}

/// The methods that no call keeps from being loose so far, by number, and the method numbers of which the virtual and the
/// interface calls were looked at.
#[derive(Drop)]
struct Marks {
    loose: Vec<bool>,
    virtual_calls: Vec<bool>,
    interface_calls: Vec<bool>,
}

/// A method that calls stand in: the place of its class and its number.
#[derive(Clone, Copy)]
struct MethodIn {
    class: u32,
    number: u32,
}

/// A call: the place of the class that it stands in, how it calls which method number, and whether it is safe: it stands in a method
/// that may be rewritten, and has a receiver that is known as not null.
#[derive(Clone, Copy)]
struct Call {
    caller: u32,
    kind: InvokeKind,
    called: u32,
    safe: bool,
}

/// Whether a method that was found, if there is one, is this one.
fn is_at(at: MethodAt, found: Option<MethodAt>) -> bool
    ensures { result ≡ is_at at found }
{
    match found {
        Some(other) => other.class == at.class && other.place == at.place,
        None => false,
    }
}

/// Whether there are two numbers, which are the same.
fn is_same(one: Option<u32>, other: Option<u32>) -> bool
    ensures { result ≡ same_some one other }
{
    match (one, other) {
        (Some(one), Some(other)) => one == other,
        _ => false,
    }
}

/// Whether a value is known as not null, or is none.
fn is_not_null(nullness: Nullness) -> bool
    ensures { result ≡ is_not_null nullness }
{
    match nullness {
        Nullness::Bottom => true,
        Nullness::NotNull => true,
        _ => false,
    }
}

impl Marks {
    /// Takes the mark of a method number, if there is one.
    fn bar(&mut self, number: Option<u32>)
        ensures are { (n : ℕ) → is_on self.new.loose.items n ≡ (is_on self.old.loose.items n && not (is_this n number)) }
        ensures long { length self.new.loose.items ≡ length self.old.loose.items }
        ensures rest { self.new ≡ record self.old { loose = self.new.loose } }
    {
        bar(&mut self.loose, number);
    }
}

impl<'a> Judged<'a> {
    /// The number of what a static or direct call finds.
    fn found_static(&self, called: u32) -> Option<u32>
        ensures { IsJudged self.now → result ≡ number_found self.now.program.now (finds_static self.now.program.now called) }
    {
        match self.hierarchy.find_static(self.program, called) {
            Some(at) => self.number_at(at),
            None => None,
        }
    }

    /// The number of a target.
    fn number_bound(&self, target: Target) -> Option<u32>
        ensures { (s : Search) → target ≡ target_found s → result ≡ number_searched self.now.program.now s }
    {
        match target {
            Target::One(at) => self.number_at(at),
            Target::Nothing => None,
            Target::Clash => None,
        }
    }

    /// The number of what a super call in a class finds.
    fn found_super(
        &self,
        alloc: Global,
        caller: u32,
        called: u32,
    ) -> Result<Option<u32>, AllocError>
        ensures { IsJudged self.now → IfOk result (λ o. o ≡ number_searched self.now.program.now (finds_super self.now.program.now caller called)) }
    {
        let target = bound_target(
            alloc,
            self.program,
            self.hierarchy,
            caller,
            InvokeKind::Super,
            called,
        )?;
        Ok(self.number_bound(target))
    }

    /// Whether a call on a type may be made on an object of a class, where that has no ancestor of the framework.
    fn is_met_by(&self, kind: u32, class: u32) -> bool
        ensures { IsJudged self.now → class < length self.now.program.now.classes → result ≡ is_met_by self.now.program.now kind class }
    {
        match self.hierarchy.place_of(kind) {
            Some(upper) => self.hierarchy.is_under(class, upper),
            None => is_object(type_units(self.program, kind)),
        }
    }

    /// Whether an object of a class on which a call may be made finds a method.
    fn finds_met(&self, class: u32, kind: u32, key: u32, at: MethodAt) -> bool
        ensures { let p = self.now.program.now in (q : MethodName) → IsJudged self.now → IsKey p self.now.hierarchy.now key q.name q.proto → kind ≡ q.class
            → class < length p.classes → result ≡ find_met p q at class }
    {
        if !self.is_met_by(kind, class) {
            return false;
        }
        is_at(at, self.hierarchy.find_virtual(self.program, class, key))
    }

    /// Whether an object of one of some classes on which a call may be made finds a method.
    fn find_met(&self, under: &[u32], kind: u32, key: u32, at: MethodAt) -> bool
        ensures { let p = self.now.program.now in (q : MethodName) → IsJudged self.now → IsKey p self.now.hierarchy.now key q.name q.proto → kind ≡ q.class
            → ((k c : ℕ) → slice_get under.now k ≡ Some c → c < length p.classes) → result ≡ list_any (find_met p q at) under.now }
    {
        for class in under {
            if self.finds_met(*class, kind, key, at) {
                return true;
            }
        }
        false
    }

    /// Whether objects of all of some classes find a method.
    fn find_all(&self, under: &[u32], key: u32, at: MethodAt) -> bool
        ensures { let p = self.now.program.now in (q : MethodName) → IsJudged self.now → IsKey p self.now.hierarchy.now key q.name q.proto
            → result ≡ list_all (λ d. is_at at (finds_virtual p q.name q.proto d)) under.now }
    {
        for class in under {
            if !is_at(at, self.hierarchy.find_virtual(self.program, *class, key)) {
                return false;
            }
        }
        true
    }

    /// Whether a virtual call that names a candidate through the class at a place, under the candidate's, finds it alone.
    fn is_plain_under(
        &self,
        alloc: Global,
        upper: u32,
        called: u32,
        at: MethodAt,
    ) -> Result<bool, AllocError>
        ensures { let p = self.now.program.now in (q : MethodName) → IsJudged self.now → slice_get p.methods called ≡ Some q → finds_static p called ≡ Some at → class_place p q.class ≡ Some upper
            → (o : Outside) (n : ℕ) → IsCandidate p o n → is_it p n at ≡ true → IfOk result (λ b. b ≡ is_plain_call p n 0 invoke.Virtual called q) }
    {
        if self.is_interface(upper) {
            return Ok(false);
        }
        let under = self.under(alloc, upper)?;
        Ok(self.find_all(under.as_slice(), self.hierarchy.key_of_method(called), at))
    }

    /// Whether a virtual call that names a candidate through its class or one under that finds it alone.
    fn is_plain_virtual(
        &self,
        alloc: Global,
        called: u32,
        name: &MethodName,
        at: MethodAt,
    ) -> Result<bool, AllocError>
        ensures { let p = self.now.program.now in IsJudged self.now → slice_get p.methods called ≡ Some name.now → finds_static p called ≡ Some at
            → (o : Outside) (n : ℕ) → IsCandidate p o n → is_it p n at ≡ true → IfOk result (λ b. b ≡ is_plain_call p n 0 invoke.Virtual called name.now) }
    {
        match self.hierarchy.place_of(name.class) {
            Some(upper) => self.is_plain_under(alloc, upper, called, at),
            None => Ok(false),
        }
    }

    /// Whether a virtual call that finds the method of a number at a place, if it is marked, finds it alone.
    fn keeps_number(
        &self,
        alloc: Global,
        loose: &[bool],
        called: u32,
        name: &MethodName,
        at: MethodAt,
        number: u32,
    ) -> Result<bool, AllocError>
        ensures { let p = self.now.program.now in (o : Outside) → IsJudged self.now → slice_get p.methods called ≡ Some name.now → HasCandidates p o loose.now
            → finds_static p called ≡ Some at → number_at p at ≡ Some number → IfOk result (λ b. KeepsPlain p loose.now called name.now b) }
    {
        if !is_on(loose, number) {
            return Ok(false);
        }
        let plain = self.is_plain_virtual(alloc, called, name, at)?;
        Ok(plain)
    }

    /// Whether a virtual call that finds the method at a place, if it is marked, finds it alone.
    fn keeps_at(
        &self,
        alloc: Global,
        loose: &[bool],
        called: u32,
        name: &MethodName,
        at: MethodAt,
    ) -> Result<bool, AllocError>
        ensures { let p = self.now.program.now in (o : Outside) → IsJudged self.now → slice_get p.methods called ≡ Some name.now → HasCandidates p o loose.now
            → finds_static p called ≡ Some at → IfOk result (λ b. KeepsPlain p loose.now called name.now b) }
    {
        match self.number_at(at) {
            Some(number) => self.keeps_number(alloc, loose, called, name, at, number),
            None => Ok(false),
        }
    }

    /// Whether a virtual call of a method number names a marked method and finds it alone.
    fn keeps_plain(
        &self,
        alloc: Global,
        loose: &[bool],
        called: u32,
        name: &MethodName,
    ) -> Result<bool, AllocError>
        ensures { let p = self.now.program.now in (o : Outside) → IsJudged self.now → slice_get p.methods called ≡ Some name.now → HasCandidates p o loose.now
            → IfOk result (λ b. KeepsPlain p loose.now called name.now b) }
    {
        match self.hierarchy.find_static(self.program, called) {
            Some(at) => self.keeps_at(alloc, loose, called, name, at),
            None => Ok(false),
        }
    }

    /// Takes the mark of the virtual method of a number at a place, if an object of a class under its class on which a call on a type
    /// may be made finds it.
    fn bar_number(
        &self,
        alloc: Global,
        loose: &mut [bool],
        kind: u32,
        key: u32,
        at: MethodAt,
        number: u32,
    ) -> Result<(), AllocError>
        ensures { let p = self.now.program.now in (o : Outside) (q : MethodName) → IsJudged self.now → IsKey p self.now.hierarchy.now key q.name q.proto → kind ≡ q.class
            → own_virtual p q.name q.proto at.class ≡ Some at → at.class < length p.classes → HasCandidates p o loose.old → number_at p at ≡ Some number
            → OnOk result (KeepsUnfound p q at.class loose.old loose.new) }
    {
        if !is_on(loose, number) {
            return Ok(());
        }
        let under = self.under(alloc, at.class)?;
        if !self.find_met(under.as_slice(), kind, key, at) {
            return Ok(());
        }
        bar(loose, Some(number));
        Ok(())
    }

    /// Takes the mark of the virtual method at a place, if an object of a class under its class on which a call on a type may be made
    /// finds it.
    fn bar_own(
        &self,
        alloc: Global,
        loose: &mut [bool],
        kind: u32,
        key: u32,
        at: MethodAt,
    ) -> Result<(), AllocError>
        ensures { let p = self.now.program.now in (o : Outside) (q : MethodName) → IsJudged self.now → IsKey p self.now.hierarchy.now key q.name q.proto → kind ≡ q.class
            → own_virtual p q.name q.proto at.class ≡ Some at → at.class < length p.classes → HasCandidates p o loose.old
            → OnOk result (KeepsUnfound p q at.class loose.old loose.new) }
    {
        match self.number_at(at) {
            Some(number) => {
                self.bar_number(alloc, loose, kind, key, at, number)?;
                Ok(())
            }
            None => Ok(()),
        }
    }

    /// The same for the one that a class defines with a key.
    fn bar_defined(
        &self,
        alloc: Global,
        loose: &mut [bool],
        kind: u32,
        key: u32,
        class: u32,
    ) -> Result<(), AllocError>
        ensures { let p = self.now.program.now in (o : Outside) (q : MethodName) → IsJudged self.now → IsKey p self.now.hierarchy.now key q.name q.proto → kind ≡ q.class
            → class < length p.classes → HasCandidates p o loose.old → OnOk result (KeepsUnfound p q class loose.old loose.new) }
    {
        match self.hierarchy.own_virtual(self.program, class, key) {
            Some(at) => {
                self.bar_own(alloc, loose, kind, key, at)?;
                Ok(())
            }
            None => Ok(()),
        }
    }

    /// The same for those that classes define with a key.
    fn bar_definers(
        &self,
        alloc: Global,
        loose: &mut [bool],
        kind: u32,
        key: u32,
        classes: &[u32],
    ) -> Result<(), AllocError>
        ensures { let p = self.now.program.now in (o : Outside) (q : MethodName) → IsJudged self.now → IsKey p self.now.hierarchy.now key q.name q.proto → kind ≡ q.class
            → ((k c : ℕ) → slice_get classes.now k ≡ Some c → c < length p.classes) → HasCandidates p o loose.old → OnOk result (Keeps (unfound_in p q classes.now) loose.old loose.new) }
    {
        for class in classes {
            self.bar_defined(alloc, loose, kind, key, *class)?;
        }
        Ok(())
    }

    /// Takes the marks of the methods that virtual or interface calls of a method number may find.
    fn bar_found(
        &self,
        alloc: Global,
        loose: &mut [bool],
        called: u32,
        name: &MethodName,
    ) -> Result<(), AllocError>
        ensures { let p = self.now.program.now in (o : Outside) → IsJudged self.now → slice_get p.methods called ≡ Some name.now → HasCandidates p o loose.old
            → OnOk result (Keeps (λ n. not (is_found p n name.now)) loose.old loose.new) }
    {
        let key = self.hierarchy.key_of_method(called);
        self.bar_definers(
            alloc,
            loose,
            name.class,
            key,
            self.hierarchy.definers_of(key),
        )?;
        Ok(())
    }

    /// Takes the marks of the methods that a method number names, or that virtual or interface calls of it may find.
    fn bar_concerned(
        &self,
        alloc: Global,
        loose: &mut [bool],
        called: u32,
        name: &MethodName,
    ) -> Result<(), AllocError>
        ensures { let p = self.now.program.now in (o : Outside) → IsJudged self.now → slice_get p.methods called ≡ Some name.now → HasCandidates p o loose.old
            → OnOk result (Keeps (λ n. not (concerns p n 0 invoke.Interface called name.now)) loose.old loose.new) }
    {
        bar(loose, self.named(called));
        self.bar_found(alloc, loose, called, name)?;
        Ok(())
    }

    /// Takes the marks of the methods that virtual calls of a method number keep from being loose in whatever method they stand.
    fn sift_virtual(
        &self,
        alloc: Global,
        loose: &mut [bool],
        called: u32,
        name: &MethodName,
    ) -> Result<(), AllocError>
        ensures { let p = self.now.program.now in (o : Outside) → IsJudged self.now → slice_get p.methods called ≡ Some name.now → HasCandidates p o loose.old
            → OnOk result (Keeps (λ n. is_clear p n called name.now) loose.old loose.new) }
    {
        let plain = self.keeps_plain(alloc, loose, called, name)?;
        if plain {
            return Ok(());
        }
        self.bar_concerned(alloc, loose, called, name)?;
        Ok(())
    }
}

impl Sifter<'_> {
    /// Whether the facts know that a call's receiver isn't null. Where no run comes to the call, it is.
    fn knows_not_null(&self, method: u32, position: u32, register: u32) -> bool
        ensures { result ≡ knows_not_null self.now.facts.now method position register }
    {
        match self.facts.at(method, position) {
            Some(frame) => is_not_null(frame.get(register).nullness()),
            None => true,
        }
    }

    /// Whether a call has a receiver that the facts know as not null.
    fn has_receiver(&self, method: u32, position: u32, kind: InvokeKind, args: &Words) -> bool
        ensures { result ≡ has_receiver self.now.facts.now method position kind args.now }
    {
        match kind {
            InvokeKind::Static => false,
            _ => match args.as_slice().first() {
                Some(register) => self.knows_not_null(method, position, u32::from(*register)),
                None => false,
            },
        }
    }

    /// Whether a call stands in a method that may be rewritten, and has a receiver that is known as not null.
    fn is_safe(&self, method: u32, position: u32, kind: InvokeKind, args: &Words) -> bool
        ensures { result ≡ (slice_index_or self.now.admitted.now method false && has_receiver self.now.facts.now method position kind args.now) }
    {
        if !is_on(self.admitted, method) {
            return false;
        }
        self.has_receiver(method, position, kind, args)
    }

    /// Looks at a static call.
    fn judge_static(&self, marks: &mut Marks, called: u32)
        ensures { let p = self.now.judged.program.now in (o : Outside) (q : MethodName) (caller : ℕ) → IsJudged self.now.judged → slice_get p.methods called ≡ Some q → IsSifted p o marks.old
            → Sifts p o (allows_so p caller invoke.Static called q false) marks.old marks.new }
    {
        marks.bar(self.judged.named(called));
        marks.bar(self.judged.found_static(called));
    }

    /// Whether a call that finds one method leaves it loose: it names that one through its class or one under that, and is safe.
    fn keeps_found(&self, call: &Call, found: Option<u32>) -> bool
        ensures { let p = self.now.judged.program.now in IsJudged self.now.judged → result ≡ (call.now.safe && same_some found (number_found p (finds_static p call.now.called))) }
    {
        if !call.safe {
            return false;
        }
        is_same(found, self.judged.found_static(call.called))
    }

    /// Looks at a call that finds one method. Any other one that it names or finds isn't left loose.
    fn judge_found(&self, marks: &mut Marks, call: &Call, found: Option<u32>)
        ensures direct { let p = self.now.judged.program.now in (o : Outside) (q : MethodName) → IsJudged self.now.judged → slice_get p.methods call.now.called ≡ Some q → IsSifted p o marks.old
            → found ≡ number_found p (finds_static p call.now.called) → Sifts p o (allows_so p call.now.caller invoke.Direct call.now.called q call.now.safe) marks.old marks.new }
        ensures above { let p = self.now.judged.program.now in (o : Outside) (q : MethodName) → IsJudged self.now.judged → slice_get p.methods call.now.called ≡ Some q → IsSifted p o marks.old
            → found ≡ number_searched p (finds_super p call.now.caller call.now.called) → Sifts p o (allows_so p call.now.caller invoke.Super call.now.called q call.now.safe) marks.old marks.new }
    {
        if self.keeps_found(call, found) {
            return;
        }
        marks.bar(self.judged.named(call.called));
        marks.bar(found);
    }

    /// Looks at an interface call, which may always find a method of the framework.
    fn judge_interface(
        &self,
        alloc: Global,
        marks: &mut Marks,
        call: &Call,
        name: &MethodName,
    ) -> Result<(), AllocError>
        ensures { let p = self.now.judged.program.now in (o : Outside) → IsJudged self.now.judged → slice_get p.methods call.now.called ≡ Some name.now → IsSifted p o marks.old
            → OnOk result (Sifts p o (allows_so p call.now.caller invoke.Interface call.now.called name.now call.now.safe) marks.old marks.new) }
    {
        if is_on(&marks.interface_calls, call.called) {
            return Ok(());
        }
        self.judged
            .bar_concerned(alloc, &mut marks.loose, call.called, name)?;
        turn(&mut marks.interface_calls, call.called, true);
        Ok(())
    }

    /// Looks at all virtual calls of a method number at once, unless that was done.
    fn sift_once(
        &self,
        alloc: Global,
        marks: &mut Marks,
        called: u32,
        name: &MethodName,
    ) -> Result<(), AllocError>
        ensures { let p = self.now.judged.program.now in (o : Outside) → IsJudged self.now.judged → slice_get p.methods called ≡ Some name.now → IsSifted p o marks.old
            → OnOk result (Sifts p o (λ n. is_clear p n called name.now) marks.old marks.new) }
    {
        if is_on(&marks.virtual_calls, called) {
            return Ok(());
        }
        self.judged
            .sift_virtual(alloc, &mut marks.loose, called, name)?;
        turn(&mut marks.virtual_calls, called, true);
        Ok(())
    }

    /// Takes the mark of the method that a number names, unless its calls are safe.
    fn bar_unsafe(&self, marks: &mut Marks, called: u32, safe: bool)
        ensures { let p = self.now.judged.program.now in (o : Outside) → IsJudged self.now.judged → IsSifted p o marks.old
            → Sifts p o (λ n. safe || not (names_it p n called)) marks.old marks.new }
    {
        if safe {
            return;
        }
        marks.bar(self.judged.named(called));
    }

    /// Looks at a virtual call.
    fn judge_virtual(
        &self,
        alloc: Global,
        marks: &mut Marks,
        call: &Call,
        name: &MethodName,
    ) -> Result<(), AllocError>
        ensures { let p = self.now.judged.program.now in (o : Outside) → IsJudged self.now.judged → slice_get p.methods call.now.called ≡ Some name.now → IsSifted p o marks.old
            → OnOk result (Sifts p o (allows_so p call.now.caller invoke.Virtual call.now.called name.now call.now.safe) marks.old marks.new) }
    {
        self.sift_once(alloc, marks, call.called, name)?;
        self.bar_unsafe(marks, call.called, call.safe);
        Ok(())
    }

    /// Looks at a super call.
    fn judge_super(&self, alloc: Global, marks: &mut Marks, call: &Call) -> Result<(), AllocError>
        ensures { let p = self.now.judged.program.now in (o : Outside) (q : MethodName) → IsJudged self.now.judged → slice_get p.methods call.now.called ≡ Some q → IsSifted p o marks.old
            → OnOk result (Sifts p o (allows_so p call.now.caller invoke.Super call.now.called q call.now.safe) marks.old marks.new) }
    {
        let found = self.judged.found_super(alloc, call.caller, call.called)?;
        self.judge_found(marks, call, found);
        Ok(())
    }

    /// Looks at a call of a method number with this entry of the table of methods.
    fn judge_named(
        &self,
        alloc: Global,
        marks: &mut Marks,
        call: &Call,
        name: &MethodName,
    ) -> Result<(), AllocError>
        ensures { let p = self.now.judged.program.now in (o : Outside) → IsJudged self.now.judged → slice_get p.methods call.now.called ≡ Some name.now → IsSifted p o marks.old
            → (call.now.kind ≡ invoke.Static → call.now.safe ≡ false)
            → OnOk result (Sifts p o (allows_so p call.now.caller call.now.kind call.now.called name.now call.now.safe) marks.old marks.new) }
    {
        match call.kind {
            InvokeKind::Static => {
                self.judge_static(marks, call.called);
                Ok(())
            }
            InvokeKind::Direct => {
                self.judge_found(marks, call, self.judged.found_static(call.called));
                Ok(())
            }
            InvokeKind::Super => {
                self.judge_super(alloc, marks, call)?;
                Ok(())
            }
            InvokeKind::Virtual => {
                self.judge_virtual(alloc, marks, call, name)?;
                Ok(())
            }
            InvokeKind::Interface => {
                self.judge_interface(alloc, marks, call, name)?;
                Ok(())
            }
        }
    }

    /// Looks at a call.
    fn judge(&self, alloc: Global, marks: &mut Marks, call: &Call) -> Result<(), AllocError>
        ensures { let p = self.now.judged.program.now in (o : Outside) → IsJudged self.now.judged → IsSifted p o marks.old → (call.now.kind ≡ invoke.Static → call.now.safe ≡ false)
            → OnOk result (Sifts p o (allows_entry p call.now.caller call.now.kind call.now.called (slice_get p.methods call.now.called) call.now.safe) marks.old marks.new) }
    {
        match self.judged.name_at(call.called) {
            Some(name) => {
                self.judge_named(alloc, marks, call, name)?;
                Ok(())
            }
            None => Ok(()),
        }
    }

    /// Looks at an instruction at a position of a method in the class at a place.
    fn judge_insn(
        &self,
        alloc: Global,
        marks: &mut Marks,
        at: MethodIn,
        position: u32,
        insn: &Insn,
    ) -> Result<(), AllocError>
        ensures { let p = self.now.judged.program.now in (o : Outside) → IsJudged self.now.judged → IsSifted p o marks.old
            → OnOk result (Sifts p o (λ n. allows p self.now.facts.now self.now.admitted.now n at.class at.number position insn.now) marks.old marks.new) }
    {
        match insn {
            Insn::Invoke { kind, method, args } => {
                let call = Call {
                    caller: at.class,
                    kind: *kind,
                    called: *method,
                    safe: self.is_safe(at.number, position, *kind, args),
                };
                self.judge(alloc, marks, &call)?;
                Ok(())
            }
            _ => Ok(()),
        }
    }

    /// Looks at the instructions of a method in the class at a place.
    fn judge_insns(
        &self,
        alloc: Global,
        marks: &mut Marks,
        at: MethodIn,
        insns: &[Insn],
    ) -> Result<(), AllocError>
        ensures { let p = self.now.judged.program.now in (o : Outside) → IsJudged self.now.judged → IsSifted p o marks.old → length insns.now < 2 ^ 32
            → OnOk result (Sifts p o (λ n. all_allow p self.now.facts.now self.now.admitted.now n at.class at.number 0 insns.now) marks.old marks.new) }
    {
        for (position, insn) in insns.iter().enumerate() {
            self.judge_insn(alloc, marks, at, word(position), insn)?;
        }
        Ok(())
    }

    /// Looks at the calls of a method in the class at a place.
    fn judge_method(
        &self,
        alloc: Global,
        marks: &mut Marks,
        class: u32,
        method: &Method,
    ) -> Result<(), AllocError>
        ensures { let p = self.now.judged.program.now in (o : Outside) → IsJudged self.now.judged → IsSifted p o marks.old → IsShortCode method.now.body
            → OnOk result (Sifts p o (λ n. code_allows p self.now.facts.now self.now.admitted.now n class method.now.name method.now.body) marks.old marks.new) }
    {
        let at = MethodIn {
            class,
            number: method.name,
        };
        match &method.body {
            Some(body) => {
                self.judge_insns(alloc, marks, at, body.insns.as_slice())?;
                Ok(())
            }
            None => Ok(()),
        }
    }

    /// Looks at the calls of methods of the class at a place.
    fn judge_methods(
        &self,
        alloc: Global,
        marks: &mut Marks,
        class: u32,
        methods: &[Method],
    ) -> Result<(), AllocError>
        ensures { let p = self.now.judged.program.now in (o : Outside) → IsJudged self.now.judged → IsSifted p o marks.old → AreShortCodes methods.now
            → OnOk result (Sifts p o (λ n. methods_allow p self.now.facts.now self.now.admitted.now n class methods.now) marks.old marks.new) }
    {
        for method in methods {
            self.judge_method(alloc, marks, class, method)?;
        }
        Ok(())
    }

    /// Looks at all calls of some classes.
    fn judge_classes(
        &self,
        alloc: Global,
        marks: &mut Marks,
        classes: &[Class],
    ) -> Result<(), AllocError>
        ensures { let p = self.now.judged.program.now in (o : Outside) → IsJudged self.now.judged → IsSifted p o marks.old → length classes.now < 2 ^ 32
            → ((i : ℕ) (k : Class) → slice_get classes.now i ≡ Some k → AreShortCodes k.methods)
            → OnOk result (Sifts p o (λ n. classes_allow p self.now.facts.now self.now.admitted.now n 0 classes.now) marks.old marks.new) }
    {
        for (class, one) in classes.iter().enumerate() {
            self.judge_methods(alloc, marks, word(class), one.methods.as_slice())?;
        }
        Ok(())
    }
}

/// The marks of the methods that no call keeps from being loose, of these.
pub(crate) fn sift<'a>(
    alloc: Global,
    judged: &Judged<'a>,
    facts: &'a Facts,
    admitted: &'a Admitted,
    loose: Vec<bool>,
) -> Result<Vec<bool>, AllocError>
    ensures { let p = judged.now.program.now in (o : Outside) → IsJudged judged.now → HasCandidates p o loose.items
        → IfOk result (λ marks. Keeps (calls_allow p facts.now admitted.now.methods.items) loose.items marks.items) }
{
    if !has_mark(&loose) {
        return Ok(loose);
    }
    let count = judged.program.methods.len();
    let sifter = Sifter {
        judged: *judged,
        facts,
        admitted: admitted.methods.as_slice(),
    };
    let virtual_calls = no_marks(alloc, count)?;
    let interface_calls = no_marks(alloc, count)?;
    let mut marks = Marks {
        loose,
        virtual_calls,
        interface_calls,
    };
    sifter.judge_classes(alloc, &mut marks, judged.program.classes.as_slice())?;
    Ok(marks.loose)
}
