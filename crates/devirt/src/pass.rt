//! The pass.

ghost use Rattle.std.specs.Prelude.{◌≡◌, ◌≤◌, ◌+◌, ◌++◌, [], true, All, length, min, Some, IfOk, IfSome, OnOk, slice_get};
ghost use Rattle.std.specs.List.{list_any};
ghost use Rattle.std.specs.Option.{option_copied};
ghost use Rattle.program_model.specs.ProgramRules.{is_well_formed};
ghost use Rattle.program_model.specs.declared.body.Body.{Body};
ghost use Rattle.hierarchy.specs.Shapes.{IsResolved};
ghost use Rattle.verify.specs.Flow.{places_of};
ghost use Rattle.verify.specs.Meeting.{IsMeeting};
ghost use Rattle.rewrite_pass.specs.Plans.{IsPlan, IsRewrittenBy};
ghost use Rattle.receivers.specs.Receiving.{IsReady, has_other, is_straight};
ghost use Rattle.devirt.specs.Asked.{IsBinding, IsAsked, IsJudgedBy, table_of, ReboundWell};
ghost use Rattle.devirt.specs.Left.{NoneLeft};
ghost use Rattle.devirt.specs.Measure.{is_virtual_call, calls_in};
ghost use Rattle.devirt.specs.Rebound.{IsCallWith, IsRecalled, IsRecalledAt, called, classes_at, rebound_call, rebound_at, edit_at, edits_from, is_open_name, is_open, is_any_open, typed_edits, IsRebindingPlan, IsReboundBy};

use crate::binding::{Binder, Bound, Call};
use domains::Value;
use facts::Facts;
use hierarchy::{Hierarchy, Walk};
use insn_set::{Insn, InvokeKind};
use program_model::{Admitted, Body, Changed, Method, MethodAt, MethodName, Program};
use receivers::Finder;
use rewrite_pass::{Edit, Rewriting, plan_program, write_plan};
use seq::{Seq, Words};
use std::alloc::{AllocError, Global};
use verify::{TypeFault, Typings, Verifier, short_law};

/// What the pass asks.
#[derive(Drop)]
struct Rebinding<'a> {
    binder: Binder<'a>,
    facts: &'a Facts,
    verifier: Verifier<'a>,
}

/// A method whose calls are looked at: the place of its class, its number and its typing.
#[derive(Clone, Copy)]
struct Code<'b> {
    class: u32,
    method: u32,
    typings: &'b Typings,
}

/// A call at a position: its kind and the method number that it names.
#[derive(Clone, Copy)]
struct NamedCall {
    position: u32,
    kind: InvokeKind,
    method: u32,
}

/// A place as a number of 32 bits.
fn word(place: usize) -> u32
    ensures { result ≡ min place 4294967295 }
{
    if place < 0xffff_ffff {
        place as u32
    } else {
        0xffff_ffff
    }
}

/// Whether it is a virtual or an interface call.
fn is_virtual_call(kind: InvokeKind) -> bool
    ensures { result ≡ is_virtual_call kind }
{
    match kind {
        InvokeKind::Virtual | InvokeKind::Interface => true,
        _ => false,
    }
}

/// A call of what one is bound to, with the same registers.
fn called(bound: Option<Bound>, args: &Words) -> Result<Option<Insn>, AllocError>
    ensures { IfOk result (λ o. o ≡ called bound args.now) }
{
    match bound {
        Some(bound) => Ok(Some(Insn::Invoke {
            kind: bound.kind,
            method: bound.method,
            args: args.clone()?,
        })),
        None => Ok(None),
    }
}

/// Adds an instruction that is written at a position, if there is one.
fn add_edit(position: u32, found: Option<Insn>, edits: &mut Vec<Edit>) -> Result<(), AllocError>
    ensures { OnOk result (edits.new.items ≡ edits.old.items ++ edit_at position found) }
{
    match found {
        Some(insn) => {
            edits.push(Edit { position, insn })?;
            Ok(())
        }
        None => Ok(()),
    }
}

impl Rebinding<'_> {
    /// The classes that the facts list in a register at a position of a method, if they do.
    fn classes_at(&self, method: u32, position: u32, register: u32) -> Option<&[u32]>
        ensures { option_copied result ≡ classes_at self.now.facts.now method position register }
    {
        match self.facts.at(method, position) {
            Some(frame) => frame.get(register).classes(),
            None => None,
        }
    }

    /// What is written over a virtual or interface call at a position.
    fn rebound_call(
        &self,
        alloc: Global,
        code: &Code<'_>,
        call: NamedCall,
        args: &Words,
        walk: &mut Walk,
    ) -> Result<Option<Insn>, AllocError>
        ensures ready { IsReady self.now.binder.finder.program.now walk.old → IsReady self.now.binder.finder.program.now walk.new }
        ensures calls { IfOk result (λ o. IfSome o (IsCallWith args.now)) }
        ensures is { let p = self.now.binder.finder.program.now in IsBinding self.now.binder → IsReady p walk.old
            → IfOk result (λ o. o ≡ rebound_call p self.now.facts.now code.now.class code.now.method (places_of code.now.typings.now.states.items) call.position call.kind call.method args.now) }
    {
        let register = match args.as_slice().first() {
            Some(register) => u32::from(*register),
            None => return Ok(None),
        };
        let asked = Call {
            caller: code.class,
            kind: call.kind,
            method: call.method,
            receiver: code.typings.at(call.position, register),
        };
        let classes = self.classes_at(code.method, call.position, register);
        called(self.binder.bound(alloc, &asked, classes, walk)?, args)
    }

    /// What is written over the instruction at a position.
    fn rebound(
        &self,
        alloc: Global,
        code: &Code<'_>,
        position: u32,
        insn: &Insn,
        walk: &mut Walk,
    ) -> Result<Option<Insn>, AllocError>
        ensures ready { IsReady self.now.binder.finder.program.now walk.old → IsReady self.now.binder.finder.program.now walk.new }
        ensures calls { IfOk result (λ o. IfSome o (IsRecalled insn.now)) }
        ensures is { let p = self.now.binder.finder.program.now in IsBinding self.now.binder → IsReady p walk.old
            → IfOk result (λ o. o ≡ rebound_at p self.now.facts.now code.now.class code.now.method (places_of code.now.typings.now.states.items) position insn.now) }
    {
        match insn {
            Insn::Invoke { kind, method, args } => {
                if !is_virtual_call(*kind) {
                    return Ok(None);
                }
                let call = NamedCall {
                    position,
                    kind: *kind,
                    method: *method,
                };
                self.rebound_call(alloc, code, call, args, walk)
            }
            _ => Ok(None),
        }
    }

    /// Adds what is written over the instruction at a position.
    fn add_rebound(
        &self,
        alloc: Global,
        code: &Code<'_>,
        position: u32,
        insn: &Insn,
        walk: &mut Walk,
        edits: &mut Vec<Edit>,
    ) -> Result<(), AllocError>
        ensures ready { IsReady self.now.binder.finder.program.now walk.old → IsReady self.now.binder.finder.program.now walk.new }
        ensures calls { (b : Body) → slice_get b.insns position ≡ Some insn.now → All (IsRecalledAt b) edits.old.items → OnOk result (All (IsRecalledAt b) edits.new.items) }
        ensures is { let p = self.now.binder.finder.program.now in IsBinding self.now.binder → IsReady p walk.old
            → OnOk result (edits.new.items ≡ edits.old.items ++ edit_at position
            (rebound_at p self.now.facts.now code.now.class code.now.method (places_of code.now.typings.now.states.items) position insn.now)) }
    {
        let found = self.rebound(alloc, code, position, insn, walk)?;
        add_edit(position, found, edits)
    }

    /// What is written over some instructions.
    fn edits_among(
        &self,
        alloc: Global,
        code: &Code<'_>,
        insns: &[Insn],
        walk: &mut Walk,
    ) -> Result<Vec<Edit>, AllocError>
        ensures calls { length insns.now ≤ 4294967295 → (b : Body) → b.insns ≡ insns.now → IfOk result (λ v. All (IsRecalledAt b) v.items) }
        ensures is { let p = self.now.binder.finder.program.now in length insns.now ≤ 4294967295 → IsBinding self.now.binder → IsReady p walk.old
            → IfOk result (λ v. v.items ≡ edits_from p self.now.facts.now code.now.class code.now.method (places_of code.now.typings.now.states.items) 0 insns.now) }
    {
        let mut edits = Vec::new(alloc);
        for place in 0..insns.len() {
            self.add_rebound(alloc, code, word(place), &insns[place], walk, &mut edits)?;
        }
        Ok(edits)
    }

    /// What is written over the instructions of a body.
    fn edits_of(
        &self,
        alloc: Global,
        code: &Code<'_>,
        body: &Body,
        walk: &mut Walk,
    ) -> Result<Vec<Edit>, AllocError>
        ensures calls { IfOk result (λ v. All (IsRecalledAt body.now) v.items) }
        ensures is { let p = self.now.binder.finder.program.now in IsBinding self.now.binder → IsReady p walk.old
            → IfOk result (λ v. v.items ≡ typed_edits p self.now.facts.now code.now.class code.now.method body.now (Some (places_of code.now.typings.now.states.items))) }
    {
        if body.insns.len() > 0xffff_ffff {
            return Ok(Vec::new(alloc));
        }
        self.edits_among(alloc, code, body.insns.as_slice(), walk)
    }

    /// Whether for a call of a method number, which has this entry, there may be another method.
    fn is_open_entry(&self, old: &MethodName, method: u32) -> bool
        ensures { let p = self.now.binder.finder.program.now in IsBinding self.now.binder → slice_get p.methods method ≡ Some old.now → result ≡ has_other p old.now }
    {
        match self.binder.named(method) {
            Some(named) => self.binder.finder.has_other(named),
            None => false,
        }
    }

    /// Whether a method number is that of a call for which there may be another method.
    fn is_open_name(&self, method: u32) -> bool
        ensures { let p = self.now.binder.finder.program.now in IsBinding self.now.binder → result ≡ is_open_name p (slice_get p.methods method) }
    {
        match self
            .binder
            .finder
            .program
            .methods
            .as_slice()
            .get(method as usize)
        {
            Some(old) => self.is_open_entry(old, method),
            None => false,
        }
    }

    /// Whether an instruction is a call for which there may be another method.
    fn is_open(&self, insn: &Insn) -> bool
        ensures { IsBinding self.now.binder → result ≡ is_open self.now.binder.finder.program.now insn.now }
    {
        match insn {
            Insn::Invoke { kind, method, .. } => is_virtual_call(*kind)
                && self.is_open_name(*method),
            _ => false,
        }
    }

    /// Whether one of some instructions is a call for which there may be another method.
    fn is_one_open(&self, insns: &[Insn]) -> bool
        ensures { IsBinding self.now.binder → result ≡ list_any (is_open self.now.binder.finder.program.now) insns.now }
    {
        for insn in insns {
            if self.is_open(insn) {
                return true;
            }
        }
        false
    }

    /// Whether a body has a call for which there may be another method.
    fn is_any_open(&self, body: &Body) -> bool
        ensures { IsBinding self.now.binder → result ≡ is_any_open self.now.binder.finder.program.now body.now }
    {
        self.is_one_open(body.insns.as_slice())
    }

    /// The typing of a method, none of one that isn't typed.
    fn typings(&self, alloc: Global, at: MethodAt) -> Result<Option<Typings>, AllocError>
        requires { IsMeeting self.now.verifier.tables }
        ensures { IfOk result (λ o. IsJudgedBy self.now.verifier at (table_of o)) }
    {
        match self.verifier.typings(alloc, at) {
            Ok(typings) => Ok(Some(typings)),
            Err(TypeFault::NoMemory) => Err(AllocError),
            Err(TypeFault::IllTyped { .. }) => Ok(None),
        }
    }

    /// What is written over the body of a method by its typing, nothing where it has none.
    fn typed_edits(
        &self,
        alloc: Global,
        at: MethodAt,
        method: &Method,
        body: &Body,
        typings: Option<&Typings>,
    ) -> Result<Vec<Edit>, AllocError>
        ensures calls { IfOk result (λ v. All (IsRecalledAt body.now) v.items) }
        ensures is { let p = self.now.binder.finder.program.now in IsBinding self.now.binder
            → IfOk result (λ v. v.items ≡ typed_edits p self.now.facts.now at.class method.now.name body.now (table_of (option_copied typings.entry))) }
    {
        let typings = match typings {
            Some(typings) => typings,
            None => return Ok(Vec::new(alloc)),
        };
        let code = Code {
            class: at.class,
            method: method.name,
            typings,
        };
        let mut walk = self.binder.finder.hierarchy.walk(alloc)?;
        self.edits_of(alloc, &code, body, &mut walk)
    }
}

impl Rewriting for Rebinding<'_> {
    ghost ready = { IsAsked };

    ghost writes = { λ s at m b es. ReboundWell s.binder.finder.program.now s.binder.finder.hierarchy.now s.facts.now at m b es };

    fn edits(
        &self,
        alloc: Global,
        at: MethodAt,
        method: &Method,
        body: &Body,
    ) -> Result<Vec<Edit>, AllocError> {
        if !self.is_any_open(body) {
            return Ok(Vec::new(alloc));
        }
        let typings = self.typings(alloc, at)?;
        self.typed_edits(alloc, at, method, body, typings.as_ref())
    }
}

/// What the pass writes over the admitted bodies of a program.
fn plan<'a>(
    alloc: Global,
    program: &'a Program,
    hierarchy: &'a Hierarchy,
    facts: &'a Facts,
    admitted: &Admitted,
) -> Result<Seq<Seq<Seq<Edit>>>, AllocError>
    ensures becomes { IfOk result (IsPlan (λ at m b es. All (IsRecalledAt b) es) admitted.now.methods.items program.now.classes) }
    ensures rebound { is_well_formed program.now ≡ true → IsResolved program.now hierarchy.now → IfOk result (IsRebindingPlan program.now hierarchy.now facts.now admitted.now.methods.items) }
{
    let pass = Rebinding {
        binder: Binder {
            finder: Finder::new(alloc, program, hierarchy)?,
        },
        facts,
        verifier: Verifier::make(alloc, program, hierarchy)?,
    };
    plan_program(alloc, program, &pass, admitted)
}

/// Lets the virtual and interface calls in the admitted bodies of a program name the one method with code that all their
/// receivers find, in place: those that the facts allow in the first register, or the objects of all classes under its kind.
/// The hierarchy is that of the program's classes, and the facts are those of the program; where the facts have no frames, the
/// kinds alone decide. `count` is how many calls name another method, 0 exactly where the program is the same: then no call is
/// bindable by the kind of its receiver, and the facts bind none. Else the calls weigh less. All else stays, lines too. After
/// want of memory, the only error, the program is lost.
pub fn apply(
    alloc: Global,
    program: Program,
    hierarchy: &Hierarchy,
    facts: &Facts,
    admitted: &Admitted,
) -> Result<Changed, AllocError>
    ensures becomes { IfOk result (IsRewrittenBy (λ at m b es. All (IsRecalledAt b) es) admitted.now.methods.items program) }
    ensures rebound { is_well_formed program ≡ true → IsResolved program hierarchy.now → IfOk result (IsReboundBy program hierarchy.now facts.now admitted.now.methods.items) }
    ensures none_left { is_well_formed program ≡ true → IsResolved program hierarchy.now → is_straight program ≡ true
        → IfOk result (λ c. c.count ≡ 0 → NoneLeft program hierarchy.now facts.now admitted.now.methods.items) }
    ensures same { IfOk result (λ changed. changed.count ≡ 0 → changed.program ≡ program) }
    ensures falls { is_well_formed program ≡ true → IsResolved program hierarchy.now → IfOk result (λ c. calls_in c.program + min c.count 1 ≤ calls_in program) }
{
    short_law();
    let plan = plan(alloc, &program, hierarchy, facts, admitted)?;
    let changed = write_plan(alloc, program, plan.as_slice())?;
    Ok(changed)
}

/// Facts that say nothing: they have no frame anywhere, so that the kinds of receivers alone decide what calls are bound to.
/// It takes no memory.
pub fn no_facts(alloc: Global) -> Facts
    ensures { result.frames.items ≡ [] }
{
    Facts {
        frames: Vec::new(alloc),
        parameters: Vec::new(alloc),
        results: Vec::new(alloc),
        fields: Vec::new(alloc),
        quiet: Vec::new(alloc),
        any: Value::any(),
    }
}
