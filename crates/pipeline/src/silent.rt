//! Silent calls become nops (ProGuard manual, "-assumenosideeffects").

ghost use Rattle.std.specs.Prelude.{◌⊎◌, ◌≡◌, ◌+◌, true, map, slice_get, slice_set, IfOk, IfSome, MatchOption};
ghost use Rattle.insn_set.specs.declared.form.Insn.TheVariants as form;
ghost use Rattle.pipeline.specs.Silence.{calls, takes_result, holds_at, marked, is_silent_at, silenced_at, silenced_insns, silenced_body, silenced_method, silenced_class, silenced, ArePartOf, AreQuiet, IsSilenced, IsSilent, noted};
ghost use Rattle.hierarchy.specs.Shapes.{IsOf};
ghost use Rattle.program_model.specs.ProgramRules.{is_well_formed};
ghost use Rattle.pipeline.specs.Graph.{HasGraphFault, IsGraph};

use crate::graph::hierarchy_of;
use crate::marks::{is_on, mark};
use hierarchy::Hierarchy;
use insn_set::{Insn, InvokeKind};
use program_model::{Admitted, Body, Class, Method, Outside, Program};
use std::alloc::{AllocError, Global};

/// Whether an instruction is a static call of a marked method.
fn calls_marked(insn: &Insn, marks: &[bool]) -> bool
    ensures { result ≡ calls (marked marks.now) insn.now }
{
    match insn {
        Insn::Invoke {
            kind: InvokeKind::Static,
            method,
            ..
        } => is_on(marks, *method),
        _ => false,
    }
}

/// Whether an instruction takes the result of the call before it.
fn takes_result(insn: &Insn) -> bool
    ensures { result ≡ takes_result insn.now }
{
    matches!(insn, Insn::MoveResult { .. })
}

/// Whether the instruction behind a position takes its result.
fn is_taken(insns: &[Insn], position: usize) -> bool
    ensures { result ≡ holds_at takes_result (slice_get insns.now (position + 1)) }
{
    match insns.get(position.saturating_add(1)) {
        Some(insn) => takes_result(insn),
        None => false,
    }
}

/// Whether a silent call stands at a position.
fn is_silent_at(insns: &[Insn], position: usize, marks: &[bool]) -> bool
    ensures { result ≡ is_silent_at (marked marks.now) insns.now position }
{
    match insns.get(position) {
        Some(insn) => calls_marked(insn, marks) && !is_taken(insns, position),
        None => false,
    }
}

/// Makes the instruction at a position a nop.
fn put_nop(insns: &mut [Insn], position: usize)
    ensures { insns.new ≡ slice_set insns.old position form.Nop }
{
    if position < insns.len() {
        insns[position] = Insn::Nop;
    }
}

/// Makes the call at a position a nop where it is silent.
#[tactic(auto, using(crate::proofs::Silencing::silenced_is, crate::proofs::Silencing::silenced_not))]
fn silence_at(insns: &mut [Insn], position: usize, marks: &[bool])
    ensures { insns.new ≡ silenced_at (marked marks.now) position insns.old }
{
    if is_silent_at(insns, position, marks) {
        put_nop(insns, position);
    }
}

/// Makes each silent call a nop.
fn silence_insns(insns: &mut [Insn], marks: &[bool])
    ensures { insns.new ≡ silenced_insns (marked marks.now) insns.old }
{
    for position in 0..insns.len() {
        silence_at(insns, position, marks);
    }
}

/// Makes each silent call of a body a nop.
fn silence_body(body: &mut Body, marks: &[bool])
    ensures { body.new ≡ silenced_body (marked marks.now) body.old }
{
    silence_insns(body.insns.items.as_mut_slice(), marks);
}

/// Makes each silent call of a method a nop, where the method is admitted.
fn silence_method(method: &mut Method, marks: &[bool], admitted: &[bool])
    ensures { method.new ≡ silenced_method (marked marks.now) admitted.now method.old }
{
    if is_on(admitted, method.name) {
        if let Some(body) = &mut method.body {
            silence_body(body, marks);
        }
    }
}

/// Makes each silent call of the admitted methods a nop.
fn silence_methods(methods: &mut [Method], marks: &[bool], admitted: &[bool])
    ensures { methods.new ≡ map (silenced_method (marked marks.now) admitted.now) methods.old }
{
    for method in methods.iter_mut() {
        silence_method(method, marks, admitted);
    }
}

/// Makes each silent call of the class's admitted methods a nop.
fn silence_class(class: &mut Class, marks: &[bool], admitted: &[bool])
    ensures { class.new ≡ silenced_class (marked marks.now) admitted.now class.old }
{
    silence_methods(class.methods.items.as_mut_slice(), marks, admitted);
}

/// Makes each silent call of the classes' admitted methods a nop.
fn silence_classes(classes: &mut [Class], marks: &[bool], admitted: &[bool])
    ensures { classes.new ≡ map (silenced_class (marked marks.now) admitted.now) classes.old }
{
    for class in classes.iter_mut() {
        silence_class(class, marks, admitted);
    }
}

/// The program with each static call of a marked method a nop, where its result isn't taken and its method is admitted.
fn silence_marked(program: Program, marks: &[bool], admitted: &[bool]) -> Program
    ensures { result ≡ silenced (marked marks.now) admitted.now program }
{
    let mut program = program;
    silence_classes(program.classes.items.as_mut_slice(), marks, admitted);
    program
}

/// Marks a method where a static call of it finds no method of the program.
fn note(marks: &mut Vec<bool>, program: &Program, hierarchy: &Hierarchy, method: u32)
    ensures some { (marks.new.items ≡ marks.old.items) ⊎ (marks.new.items ≡ slice_set marks.old.items method true) }
    ensures exact { IsOf program.now hierarchy.now → marks.new.items ≡ noted program.now method marks.old.items }
{
    if hierarchy.find_static(program, method).is_none() {
        mark(marks.as_mut_slice(), method);
    }
}

/// Which of the methods a silent call may name, for each method number: those of `silent` whose static call finds no
/// method of the program.
#[tactic(auto, using(crate::proofs::Silencing::noting_none, crate::proofs::Silencing::noting_more, crate::proofs::Silencing::noting_ends))]
fn quiet_methods(
    alloc: Global,
    program: &Program,
    hierarchy: &Hierarchy,
    silent: &[u32],
) -> Result<Vec<bool>, AllocError>
    ensures part { IfOk result (λ marks. ArePartOf silent.now marks.items) }
    ensures exact { IsOf program.now hierarchy.now → IfOk result (λ marks. AreQuiet program.now silent.now marks.items) }
{
    let mut marks = vec![in alloc; false; program.methods.len()]?;
    for method in silent {
        note(&mut marks, program, hierarchy, *method);
    }
    Ok(marks)
}

/// Which methods a silent call may name, by a class graph, and nothing where it has a fault.
fn marks_by(
    alloc: Global,
    program: &Program,
    graph: &Option<Hierarchy>,
    outside: &Outside,
) -> Result<Option<Vec<bool>>, AllocError>
    ensures part { IfOk result (λ found. IfSome found (λ marks. ArePartOf outside.now.silent marks.items)) }
    ensures exact { is_well_formed program.now ≡ true → IsGraph program.now graph.now
        → IfOk result (λ found. MatchOption found (HasGraphFault program.now) (λ marks. AreQuiet program.now outside.now.silent marks.items)) }
{
    match graph {
        Some(hierarchy) => {
            let marks = quiet_methods(alloc, program, hierarchy, outside.silent.as_slice())?;
            Ok(Some(marks))
        }
        None => Ok(None),
    }
}

/// Which methods a silent call may name, and nothing where the class graph has a fault.
fn silent_marks(
    alloc: Global,
    program: &Program,
    outside: &Outside,
) -> Result<Option<Vec<bool>>, AllocError>
    ensures part { IfOk result (λ found. IfSome found (λ marks. ArePartOf outside.now.silent marks.items)) }
    ensures exact { is_well_formed program.now ≡ true → IfOk result (λ found. MatchOption found (HasGraphFault program.now) (λ marks. AreQuiet program.now outside.now.silent marks.items)) }
{
    let graph = hierarchy_of(alloc, program)?;
    marks_by(alloc, program, &graph, outside)
}

/// The program with each static call of a marked method a nop, where its result isn't taken and its method is admitted; without
/// marks it is the same.
fn silence_by(program: Program, marks: &Option<Vec<bool>>, admitted: &Admitted) -> Program
    ensures { MatchOption marks.now (result ≡ program) (λ marks. result ≡ silenced (marked marks.items) admitted.now.methods.items program) }
{
    match marks {
        Some(marks) => silence_marked(program, marks, &admitted.methods),
        None => program,
    }
}

/// The program with each silent call of the admitted methods a nop at its position. A call is silent where it is static,
/// names one of the outside's silent methods, finds no method of the program, and no instruction takes its result. All
/// else stays, and a well-formed program is well-formed still. The only error is want of memory.
#[tactic(auto, using(crate::proofs::Silencing::stays_whole, crate::proofs::Silencing::none_is_silent))]
pub fn silence(
    alloc: Global,
    program: Program,
    outside: &Outside,
    admitted: &Admitted,
) -> Result<Program, AllocError>
    ensures part { IfOk result (λ p. IsSilenced outside.now.silent admitted.now.methods.items program p) }
    ensures exact { is_well_formed program ≡ true → IfOk result (λ p. IsSilent outside.now.silent admitted.now.methods.items program p) }
    ensures formed { is_well_formed program ≡ true → IfOk result (λ p. is_well_formed p ≡ true) }
{
    if outside.silent.is_empty() {
        return Ok(program);
    }
    let marks = silent_marks(alloc, &program, outside)?;
    Ok(silence_by(program, &marks, admitted))
}
