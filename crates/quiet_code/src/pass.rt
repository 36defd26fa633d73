//! The pass.

ghost use Rattle.std.specs.Prelude.{◌≡◌, ◌+◌, ◌<◌, ◌^◌, ◌++◌, true, length, slice_get, IfOk, OnOk};
ghost use Rattle.std.specs.List.{list_any};
ghost use Rattle.insn_set.specs.declared.form.Insn.TheVariants as forms;
ghost use Rattle.program_model.specs.ProgramRules.{is_well_formed};
ghost use Rattle.hierarchy.specs.Shapes.{IsResolved};
ghost use Rattle.facts.specs.Lent.{frame_at};
ghost use Rattle.rewrite_pass.specs.Plans.{IsPlan, IsRewrittenBy};
ghost use Rattle.thin_pass.specs.Weights.{weight_of};
ghost use Rattle.quiet_code.specs.Quiet.{is_direct_call, may_go, AreDropped, nop_if};
ghost use Rattle.quiet_code.specs.Idle.{is_division, is_small, takes_result, does_nothing, does_nothing_at, LiveIn};
ghost use Rattle.quiet_code.specs.Quieted.{nops_upto, NopsWell, IsQuietPlan, IsQuieted};
ghost use Rattle.quiet_code.specs.Told.{IsAsked};

use crate::calls::Search;
use crate::divisions::{Division, is_idle_division};
use crate::told::{Idle, is_idle_call};
use facts::Facts;
use hierarchy::Hierarchy;
use insn_set::{Insn, InvokeKind};
use live_regs::{Live, live};
use program_model::{Admitted, Body, Changed, Method, MethodAt, Program};
use quiet_methods::quiet_methods;
use rewrite_pass::{Edit, Rewriting, plan_program, write_plan};
use seq::{Seq, Words};
use std::alloc::{AllocError, Global};

/// What the pass asks: the program and its hierarchy, which calls of each method number do nothing, and the facts.
#[derive(Clone, Copy)]
struct Dropping<'a> {
    search: Search<'a>,
    idles: &'a [Idle],
    facts: &'a Facts,
}

/// The method that is asked about: its number, its body, and what is read later, where that is asked.
#[derive(Clone, Copy)]
struct Code<'b> {
    method: u32,
    body: &'b Body,
    live: &'b Option<Live>,
}

/// A call: its kind, and the method number that it names.
#[derive(Clone, Copy)]
struct Call {
    kind: InvokeKind,
    method: u32,
}

/// Whether an instruction, if there is one, takes the result of a call.
fn takes_result(insns: &[Insn], place: usize) -> bool
    ensures { result ≡ takes_result (slice_get insns.now place) }
{
    match insns.get(place) {
        Some(Insn::MoveResult { .. }) => true,
        _ => false,
    }
}

/// Adds a nop at a position, where it does nothing.
fn add_nop(quiet: bool, position: u32, edits: &mut Vec<Edit>) -> Result<(), AllocError>
    ensures { OnOk result (edits.new.items ≡ edits.old.items ++ nop_if quiet position) }
{
    if quiet {
        edits.push(Edit {
            position,
            insn: Insn::Nop,
        })?;
    }
    Ok(())
}

impl Dropping<'_> {
    /// Whether a call at a position does nothing.
    fn is_idle_call(&self, code: &Code<'_>, position: u32, call: Call, args: &Words) -> bool
        requires { IsAsked self.now }
        ensures may { result ≡ true → is_direct_call call.kind ≡ true }
        ensures is { let s = self.now.search in IsResolved s.program.now s.hierarchy.now
            → result ≡ does_nothing s.program.now s.quiet.now (frame_at self.now.facts.now.frames.items code.now.method position) code.now.live.now code.now.body.now position (forms.Invoke call.kind call.method args.now) }
    {
        !takes_result(code.body.insns.as_slice(), position as usize + 1)
            && is_idle_call(
                self.idles,
                self.facts.at(code.method, position),
                call.kind,
                call.method,
                args,
            )
    }

    /// Whether an instruction at a position does nothing.
    fn is_idle(
        &self,
        alloc: Global,
        code: &Code<'_>,
        position: u32,
        insn: &Insn,
    ) -> Result<bool, AllocError>
        requires asked { IsAsked self.now }
        requires short { length code.now.body.now.insns < 2 ^ 32 }
        ensures may { IfOk result (λ idle. idle ≡ true → may_go insn.now ≡ true) }
        ensures is { let s = self.now.search in IsResolved s.program.now s.hierarchy.now
            → IfOk result (λ idle. idle ≡ does_nothing s.program.now s.quiet.now (frame_at self.now.facts.now.frames.items code.now.method position) code.now.live.now code.now.body.now position insn.now) }
    {
        match insn {
            Insn::Invoke { kind, method, args } => {
                let call = Call {
                    kind: *kind,
                    method: *method,
                };
                Ok(self.is_idle_call(code, position, call, args))
            }
            Insn::Binary { op, to, b, .. } => {
                let division = Division {
                    op: *op,
                    to: *to,
                    divisor: *b,
                };
                let frame = self.facts.at(code.method, position);
                is_idle_division(alloc, frame, code.body, code.live, position, division)
            }
            _ => Ok(false),
        }
    }

    /// The nops that are written over the instructions of a body.
    fn nops(&self, alloc: Global, code: &Code<'_>) -> Result<Vec<Edit>, AllocError>
        requires asked { IsAsked self.now }
        requires short { length code.now.body.now.insns < 2 ^ 32 }
        ensures dropped { IfOk result (λ v. AreDropped code.now.body.now v.items) }
        ensures nops { let s = self.now.search in IsResolved s.program.now s.hierarchy.now
            → IfOk result (λ v. v.items ≡ nops_upto (λ n. does_nothing_at s.program.now s.quiet.now (frame_at self.now.facts.now.frames.items code.now.method) code.now.live.now code.now.body.now n (slice_get code.now.body.now.insns n)) (length code.now.body.now.insns)) }
    {
        let mut edits = Vec::new(alloc);
        let insns = code.body.insns.as_slice();
        for place in 0..insns.len() {
            let position = place as u32;
            let idle = self.is_idle(alloc, code, position, &insns[place])?;
            add_nop(idle, position, &mut edits)?;
        }
        Ok(edits)
    }
}

/// Whether an instruction is a division of registers.
fn is_division(insn: &Insn) -> bool
    ensures { result ≡ is_division insn.now }
{
    match insn {
        Insn::Binary { op, .. } => op.divides(),
        _ => false,
    }
}

/// Whether one of some instructions is a division of registers.
fn has_division(insns: &[Insn]) -> bool
    ensures { result ≡ list_any is_division insns.now }
{
    insns.iter().any(is_division)
}

/// What is read later in a body, where it has a division.
fn live_if(alloc: Global, body: &Body) -> Result<Option<Live>, AllocError>
    requires { length body.now.insns + length body.now.regions < 2 ^ 32 }
    ensures { IfOk result (LiveIn body.now) }
{
    if has_division(body.insns.as_slice()) {
        Ok(Some(live(alloc, body)?))
    } else {
        Ok(None)
    }
}

/// Whether 32 bits number all positions and regions of a body.
fn is_small(body: &Body) -> bool
    ensures is { result ≡ is_small body.now }
    ensures few { result ≡ true → length body.now.insns + length body.now.regions < 2 ^ 32 }
{
    let positions = body.insns.len();
    positions <= u32::MAX as usize && body.regions.len() <= u32::MAX as usize - positions
}

impl Rewriting for Dropping<'_> {
    ghost ready = { IsAsked };

    ghost writes = { λ s at m b es. NopsWell s.search.program.now s.search.hierarchy.now s.search.quiet.now s.facts.now.frames.items m b es };

    fn edits(
        &self,
        alloc: Global,
        at: MethodAt,
        method: &Method,
        body: &Body,
    ) -> Result<Vec<Edit>, AllocError> {
        if !is_small(body) {
            return Ok(Vec::new(alloc));
        }
        let later = live_if(alloc, body)?;
        let code = Code {
            method: method.name,
            body,
            live: &later,
        };
        self.nops(alloc, &code)
    }
}

/// What the pass writes over the admitted bodies of a program, where these methods are quiet.
fn plan_with<'a>(
    alloc: Global,
    program: &'a Program,
    hierarchy: &'a Hierarchy,
    facts: &'a Facts,
    quiet: &'a [bool],
    admitted: &Admitted,
) -> Result<Seq<Seq<Seq<Edit>>>, AllocError>
    ensures { IfOk result (IsPlan (λ at m b es. NopsWell program.now hierarchy.now quiet.now facts.now.frames.items m b es) admitted.now.methods.items program.now.classes) }
{
    let search = Search {
        program,
        hierarchy,
        quiet,
    };
    let idles = search.idles(alloc)?;
    let pass = Dropping {
        search,
        idles: idles.as_slice(),
        facts,
    };
    plan_program(alloc, program, &pass, admitted)
}

/// What the pass writes over the admitted bodies of a program.
fn plan(
    alloc: Global,
    program: &Program,
    hierarchy: &Hierarchy,
    facts: &Facts,
    admitted: &Admitted,
) -> Result<Seq<Seq<Seq<Edit>>>, AllocError>
    ensures dropped { IfOk result (IsPlan (λ at m b es. AreDropped b es) admitted.now.methods.items program.now.classes) }
    ensures quieted { is_well_formed program.now ≡ true → IsResolved program.now hierarchy.now → IfOk result (IsQuietPlan program.now facts.now admitted.now.methods.items) }
{
    let quiet = quiet_methods(alloc, program, hierarchy, &facts.frames)?;
    plan_with(alloc, program, hierarchy, facts, &quiet, admitted)
}

/// Writes nops over the calls and divisions in the admitted bodies of a program that do nothing, in place: over just these. A
/// call does nothing that finds a quiet method, whose result isn't taken, and whose receiver, where it has one, isn't null;
/// and a division, whose divisor is known other than 0 and whose result no walk onward reads. Quiet are the methods that are so
/// by the registers that the facts know ([`quiet_methods`]). The hierarchy is that of the program's classes, and the facts are
/// those of the program. `count` is how many become nops, 0 exactly where the program is the same: then nothing in these bodies
/// does nothing. A program that isn't the same weighs less: a nop weighs 1 and every other instruction 2. All else stays, lines
/// too. A body with 4,294,967,296 positions and regions or more is left alone. After want of memory, the only error, the program
/// is lost.
pub fn apply(
    alloc: Global,
    program: Program,
    hierarchy: &Hierarchy,
    facts: &Facts,
    admitted: &Admitted,
) -> Result<Changed, AllocError>
    ensures dropped { IfOk result (IsRewrittenBy (λ at m b es. AreDropped b es) admitted.now.methods.items program) }
    ensures quieted { is_well_formed program ≡ true → IsResolved program hierarchy.now → IfOk result (IsQuieted program facts.now admitted.now.methods.items) }
    ensures same { IfOk result (λ changed. changed.count ≡ 0 → changed.program ≡ program) }
    ensures less { IfOk result (λ changed. 0 < changed.count → weight_of changed.program < weight_of program) }
{
    let plan = plan(alloc, &program, hierarchy, facts, admitted)?;
    let changed = write_plan(alloc, program, plan.as_slice())?;
    Ok(changed)
}
