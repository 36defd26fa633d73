//! Methods that become static, and their calls.

ghost use Rattle.std.specs.Prelude.{◌≡◌, ◌<◌, ◌^◌, ℕ, Some, None, true, cond, map, slice_get, IfOk, OnOk};
ghost use Rattle.std.specs.List.Sorted.{IsPermutation};
ghost use Rattle.std.specs.Option.{option_copied};
ghost use Rattle.program_model.specs.Lookups.{method_at};
ghost use Rattle.program_model.specs.ProgramRules.{is_well_formed};
ghost use Rattle.program_model.specs.declared.program.Class.{Class};
ghost use Rattle.hierarchy.specs.Shapes.{IsOf, IsResolved};
ghost use Rattle.program_model.specs.declared.program.Program.{Program};
ghost use Rattle.staticise.specs.Loosened.{is_given, given_at, target_at, target_of, insn_loosened, body_loosened, self_loosened, method_loosened, IsLoosenedClass, AreEach};
ghost use Rattle.staticise.specs.Ordering.{order_of, AreTargets, IsOrdered, AreOwn};

use hierarchy::Hierarchy;
use insn_set::{Insn, InvokeKind};
use program_model::{Body, Class, Flags, Method, MethodAt, Program};
use seq::Seq;
use std::alloc::{AllocError, Global};

/// What becomes of a program: the new proto of each method number that is made static, and for each method number the one of
/// these that it resolves to.
#[derive(Clone, Copy)]
pub(crate) struct Loosening<'a> {
    pub(crate) hierarchy: &'a Hierarchy,
    pub(crate) given: &'a [Option<u32>],
    pub(crate) targets: &'a [Option<u32>],
}

/// A place as a number of 32 bits.
fn word(place: usize) -> u32
    ensures { place < 2 ^ 32 → result ≡ place }
{
    if place < 0xffff_ffff {
        place as u32
    } else {
        0xffff_ffff
    }
}

/// The new proto of a method number, none where it isn't made static.
fn given_at(given: &[Option<u32>], method: u32) -> Option<u32>
    ensures { result ≡ given_at given.now method }
{
    match given.get(method as usize) {
        Some(proto) => *proto,
        None => None,
    }
}

/// A number, where it is that of a method that is made static.
fn if_given(given: &[Option<u32>], number: u32) -> Option<u32>
    ensures { result ≡ cond (is_given given.now number) (Some number) None }
{
    match given_at(given, number) {
        Some(_) => Some(number),
        None => None,
    }
}

impl Loosening<'_> {
    /// The method made static that a number resolves to.
    fn target(&self, method: u32) -> Option<u32>
        ensures { (p : Program) → AreTargets p self.now.given.now self.now.targets.now → result ≡ target_of p self.now.given.now method }
    {
        match self.targets.get(method as usize) {
            Some(target) => *target,
            None => None,
        }
    }

    /// Makes a call of a method that is made static a static one of its number.
    fn loosen_insn(&self, insn: &mut Insn)
        ensures { (p : Program) → AreTargets p self.now.given.now self.now.targets.now → insn.new ≡ insn_loosened p self.now.given.now insn.old }
    {
        if let Insn::Invoke { kind, method, .. } = insn {
            if let Some(target) = self.target(*method) {
                *kind = InvokeKind::Static;
                *method = target;
            }
        }
    }

    /// Makes the calls among instructions static.
    fn loosen_insns(&self, insns: &mut [Insn])
        ensures { (p : Program) → AreTargets p self.now.given.now self.now.targets.now → insns.new ≡ map (insn_loosened p self.now.given.now) insns.old }
    {
        for insn in insns.iter_mut() {
            self.loosen_insn(insn);
        }
    }

    /// Makes a method static, if it is one of these.
    fn loosen_self(&self, alloc: Global, method: &mut Method) -> Result<(), AllocError>
        ensures { OnOk result (method.new ≡ self_loosened self.now.given.now method.old) }
    {
        if given_at(self.given, method.name).is_none() {
            return Ok(());
        }
        if !method.parameter_marks.is_empty() {
            method.parameter_marks.items.insert(0, Seq::new(alloc))?;
        }
        method.flags = Flags(method.flags.0 | Flags::STATIC.0);
        Ok(())
    }

    /// Makes the calls in a body static.
    fn loosen_body(&self, body: &mut Body)
        ensures { (p : Program) → AreTargets p self.now.given.now self.now.targets.now → body.new ≡ body_loosened p self.now.given.now body.old }
    {
        self.loosen_insns(body.insns.items.as_mut_slice());
    }

    /// Makes a method static, if it is one of these, and its calls.
    fn loosen_method(&self, alloc: Global, method: &mut Method) -> Result<(), AllocError>
        ensures { (p : Program) → AreTargets p self.now.given.now self.now.targets.now → OnOk result (method.new ≡ method_loosened p self.now.given.now method.old) }
    {
        self.loosen_self(alloc, method)?;
        if let Some(body) = &mut method.body {
            self.loosen_body(body);
        }
        Ok(())
    }

    /// Makes the methods of a class static that are to be, and their calls.
    fn loosen_methods(&self, alloc: Global, methods: &mut [Method]) -> Result<(), AllocError>
        ensures { (p : Program) → AreTargets p self.now.given.now self.now.targets.now → OnOk result (methods.new ≡ map (method_loosened p self.now.given.now) methods.old) }
    {
        for method in methods.iter_mut() {
            self.loosen_method(alloc, method)?;
        }
        Ok(())
    }

    /// Where a method stands: direct methods before virtual ones, and each group by number.
    fn order_of(&self, method: &Method) -> u64
        ensures { (p : Program) → IsOf p self.now.hierarchy.now → result ≡ order_of p method.now }
    {
        let group: u64 = if self.hierarchy.is_virtual(method) {
            0x1_0000_0000
        } else {
            0
        };
        group + u64::from(method.name)
    }

    /// Lets direct methods stand before virtual ones, each group by number.
    fn order(&self, methods: &mut [Method])
        ensures permutation { IsPermutation methods.old methods.new }
        ensures ordered { (p : Program) → IsOf p self.now.hierarchy.now → AreOwn methods.old → IsOrdered p methods.new }
    {
        methods.sort_unstable_by_key(|method| self.order_of(method));
    }

    /// Makes the methods of a class static that are to be, and all calls in it.
    fn loosen_all(&self, alloc: Global, methods: &mut [Method]) -> Result<(), AllocError>
        ensures permutation { (p : Program) → AreTargets p self.now.given.now self.now.targets.now → OnOk result (IsPermutation (map (method_loosened p self.now.given.now) methods.old) methods.new) }
        ensures ordered { (p : Program) → AreTargets p self.now.given.now self.now.targets.now → IsOf p self.now.hierarchy.now → AreOwn methods.old → OnOk result (IsOrdered p methods.new) }
    {
        self.loosen_methods(alloc, methods)?;
        self.order(methods);
        Ok(())
    }

    /// The same for a class.
    fn loosen_class(&self, alloc: Global, class: &mut Class) -> Result<(), AllocError>
        ensures { (p : Program) → AreTargets p self.now.given.now self.now.targets.now → IsOf p self.now.hierarchy.now → AreOwn class.old.methods
            → OnOk result (IsLoosenedClass p self.now.given.now class.old class.new) }
    {
        self.loosen_all(alloc, class.methods.items.as_mut_slice())?;
        Ok(())
    }

    /// Makes methods of classes static, and all their calls.
    fn loosen_classes(&self, alloc: Global, classes: &mut [Class]) -> Result<(), AllocError>
        ensures { (p : Program) → AreTargets p self.now.given.now self.now.targets.now → IsOf p self.now.hierarchy.now
            → ((k : ℕ) (c : Class) → slice_get classes.old k ≡ Some c → AreOwn c.methods) → OnOk result (AreEach (IsLoosenedClass p self.now.given.now) classes.old classes.new) }
    {
        for place in 0..classes.len() {
            self.loosen_class(alloc, &mut classes[place])?;
        }
        Ok(())
    }

    /// Makes methods of a program static, and all their calls.
    pub(crate) fn loosen(&self, alloc: Global, program: &mut Program) -> Result<(), AllocError>
        ensures rest { OnOk result (program.new ≡ record program.old { classes = program.new.classes }) }
        ensures classes { is_well_formed program.old ≡ true → AreTargets program.old self.now.given.now self.now.targets.now → IsOf program.old self.now.hierarchy.now
            → OnOk result (AreEach (IsLoosenedClass program.old self.now.given.now) program.old.classes program.new.classes) }
    {
        self.loosen_classes(alloc, program.classes.items.as_mut_slice())?;
        Ok(())
    }
}

/// The method at a place.
fn method_at(program: &Program, at: MethodAt) -> Option<&Method>
    ensures { option_copied result ≡ method_at program.now at }
{
    match program.classes.as_slice().get(at.class as usize) {
        Some(class) => class.methods.as_slice().get(at.place as usize),
        None => None,
    }
}

/// The number of the method made static that stands at a place.
fn target_at(program: &Program, given: &[Option<u32>], at: MethodAt) -> Option<u32>
    ensures { result ≡ target_at program.now given.now (Some at) }
{
    match method_at(program, at) {
        Some(method) => if_given(given, method.name),
        None => None,
    }
}

/// The method made static that a number resolves to.
fn target_of(
    program: &Program,
    hierarchy: &Hierarchy,
    given: &[Option<u32>],
    method: u32,
) -> Option<u32>
    ensures { IsResolved program.now hierarchy.now → result ≡ target_of program.now given.now method }
{
    match hierarchy.resolve_method(program, method) {
        Some(at) => target_at(program, given, at),
        None => None,
    }
}

/// For each method number the method made static that it resolves to.
pub(crate) fn targets(
    alloc: Global,
    program: &Program,
    hierarchy: &Hierarchy,
    given: &[Option<u32>],
) -> Result<Vec<Option<u32>>, AllocError>
    ensures { is_well_formed program.now ≡ true → IsResolved program.now hierarchy.now → IfOk result (λ targets. AreTargets program.now given.now targets.items) }
{
    let mut targets = Vec::new(alloc);
    for method in 0..program.methods.len() {
        targets.push(target_of(program, hierarchy, given, word(method)))?;
    }
    Ok(targets)
}
