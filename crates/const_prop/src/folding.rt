//! The pass.

ghost use Rattle.std.specs.Prelude.{◌≡◌, ◌<◌, ◌++◌, ◌∷◌, [], true, All, min, length, IfOk, OnOk, IfSome};
ghost use Rattle.std.specs.List.{list_any};
ghost use Rattle.std.specs.Option.{option_copied};
ghost use Rattle.program_model.specs.ProgramRules.{is_well_formed};
ghost use Rattle.hierarchy.specs.Shapes.{IsResolved};
ghost use Rattle.class_places.specs.Known.{ArePlaces};
ghost use Rattle.verify.specs.Meeting.{IsMeeting};
ghost use Rattle.verify.specs.Methods.{IsFor};
ghost use Rattle.rewrite_pass.specs.Plans.{IsPlan, IsRewrittenBy};
ghost use Rattle.const_prop.specs.Asked.{IsKnown};
ghost use Rattle.const_prop.specs.Folded.{IsFold, IsFound, IsFoundAt};
ghost use Rattle.const_prop.specs.Folds.{constant_at, fold_at, folds_of, is_asked, is_typed, edits_of, table_of, IsJudgedBy, FoldsWell, IsFoldPlan, IsFoldedBy, NoneLeft};
ghost use Rattle.const_prop.specs.Kinds.{typing_fits};
ghost use Rattle.const_prop.specs.Measure.{open_forms};

use crate::asking::Code;
use crate::choices::chosen;
use crate::kinds::{is_narrow_move, move_fits};
use crate::numbers::{Number, constant_for};
use crate::results::Results;
use class_places::places_of;
use dom_frame::Classes;
use facts::Facts;
use hierarchy::Hierarchy;
use insn_set::Insn;
use program_model::{Admitted, Body, Changed, Method, MethodAt, Program};
use rewrite_pass::{Edit, Rewriting, plan_program, write_plan};
use seq::Seq;
use std::alloc::{AllocError, Global};
use verify::{TypeFault, Typings, Verifier};

/// What the pass asks.
#[derive(Drop)]
struct Folding<'a> {
    results: Results<'a>,
    verifier: Verifier<'a>,
}

/// A position at which a number is known, and the constant for it.
#[derive(Drop)]
struct Fold {
    position: u32,
    insn: Insn,
    number: Option<Number>,
}

/// A place as a number of 32 bits.
fn word(place: usize) -> u32
    ensures { result ≡ min place 4294967295 }
{
    if place < 0xffff_ffff {
        place as u32
    } else {
        0xffff_ffff
    }
}

impl Results<'_> {
    /// The constant of a number that is written over an instruction at a position, behind another one, where one fits.
    #[tactic(auto, using(crate::proofs::Found::constant_found))]
    fn constant(
        &self,
        position: u32,
        before: Option<&Insn>,
        insn: &Insn,
        number: Option<Number>,
    ) -> Option<Fold>
        ensures found { IfSome result (IsFoundAt position insn.now) }
        ensures is { result ≡ constant_at self.now.program.now (option_copied before.entry) position insn.now number }
    {
        let number = number?;
        if !self.fits(before, insn, number) {
            return None;
        }
        let constant = constant_for(insn, number)?;
        Some(Fold {
            position,
            insn: constant,
            number: Some(number),
        })
    }

    /// What is written over an instruction, where the typing allows it.
    fn fold(
        &self,
        alloc: Global,
        code: &Code<'_>,
        position: u32,
        insn: &Insn,
    ) -> Result<Option<Fold>, AllocError>
        ensures found { IfOk result (λ found. IfSome found (IsFoundAt position insn.now)) }
        ensures is { let s = self.now in IsKnown s → position < 4294967295
            → IfOk result (λ o. o ≡ fold_at s.program.now s.facts.now code.now.class code.now.method code.now.body.now.insns position insn.now) }
    {
        let way = self.way(alloc, code, position, insn)?;
        if let Some(branch) = chosen(insn, position.saturating_add(1), way) {
            return Ok(Some(Fold {
                position,
                insn: branch,
                number: None,
            }));
        }
        let before = code.before(position);
        let number = self.number(alloc, code, position, before, insn)?;
        Ok(self.constant(position, before, insn, number))
    }

    /// What is written over the instructions of a body, where the typing allows it.
    fn folds(&self, alloc: Global, code: &Code<'_>) -> Result<Vec<Fold>, AllocError>
        ensures found { IfOk result (λ v. All (IsFound code.now.body.now) v.items) }
        ensures are { IsKnown self.now → IfOk result (λ v. v.items ≡ folds_of self.now.program.now self.now.facts.now code.now.class code.now.method code.now.body.now) }
    {
        let mut folds = Vec::new(alloc);
        if code.body.insns.len() > 0xffff_ffff {
            return Ok(folds);
        }
        for (place, insn) in code.body.insns.as_slice().iter().enumerate() {
            if let Some(fold) = self.fold(alloc, code, word(place), insn)? {
                folds.push(fold)?;
            }
        }
        Ok(folds)
    }
}

/// Whether the typing has to be asked about what is written over an instruction.
fn is_asked(body: &Body, fold: &Fold) -> bool
    ensures { result ≡ is_asked body.now fold.now }
{
    match body.insns.as_slice().get(fold.position as usize) {
        Some(insn) => is_narrow_move(insn),
        None => false,
    }
}

/// Whether the typing has to be asked about what is written over one of the instructions.
fn is_any_asked(body: &Body, folds: &[Fold]) -> bool
    ensures { result ≡ list_any (is_asked body.now) folds.now }
{
    folds.iter().any(|fold| is_asked(body, fold))
}

/// Whether the typing, if there is one, allows a number, if there is one, for what an instruction writes.
fn typing_fits(
    typings: Option<&Typings>,
    position: u32,
    insn: &Insn,
    number: Option<Number>,
) -> bool
    ensures { result ≡ typing_fits (table_of (option_copied typings.entry)) position insn.now number }
{
    match (typings, number) {
        (Some(typings), Some(number)) => move_fits(typings, position, insn, number),
        _ => false,
    }
}

/// Whether the typing allows what is written over an instruction.
fn is_typed(typings: Option<&Typings>, body: &Body, fold: &Fold) -> bool
    ensures { result ≡ is_typed (table_of (option_copied typings.entry)) body.now fold.now }
{
    let insn = match body.insns.as_slice().get(fold.position as usize) {
        Some(insn) => insn,
        None => return false,
    };
    if is_narrow_move(insn) {
        typing_fits(typings, fold.position, insn, fold.number)
    } else {
        true
    }
}

/// Adds what is written over an instruction, where the typing allows it.
fn add_typed(
    typings: Option<&Typings>,
    body: &Body,
    fold: &Fold,
    edits: &mut Vec<Edit>,
) -> Result<(), AllocError>
    ensures { OnOk result (edits.new.items ≡ edits.old.items ++ edits_of (table_of (option_copied typings.entry)) body.now (fold.now ∷ [])) }
{
    if is_typed(typings, body, fold) {
        edits.push(Edit {
            position: fold.position,
            insn: fold.insn.clone()?,
        })?;
    }
    Ok(())
}

/// What is written over the instructions of a body, without what the typing doesn't allow.
fn typed(
    alloc: Global,
    typings: Option<&Typings>,
    body: &Body,
    folds: &[Fold],
) -> Result<Vec<Edit>, AllocError>
    ensures { IfOk result (λ v. v.items ≡ edits_of (table_of (option_copied typings.entry)) body.now folds.now) }
{
    let mut edits = Vec::with_capacity(alloc, folds.len())?;
    for fold in folds {
        add_typed(typings, body, fold, &mut edits)?;
    }
    Ok(edits)
}

impl Folding<'_> {
    /// The typing of a method where it has to be asked. A method without one, which no typed program has, keeps its moves.
    fn typings(
        &self,
        alloc: Global,
        at: MethodAt,
        asked: bool,
    ) -> Result<Option<Typings>, AllocError>
        requires { IsMeeting self.now.verifier.tables }
        ensures { IfOk result (λ o. asked ≡ true → IsJudgedBy self.now.verifier at (table_of o)) }
    {
        if !asked {
            return Ok(None);
        }
        match self.verifier.typings(alloc, at) {
            Ok(typings) => Ok(Some(typings)),
            Err(TypeFault::NoMemory) => Err(AllocError),
            Err(TypeFault::IllTyped { .. }) => Ok(None),
        }
    }
}

impl Rewriting for Folding<'_> {
    ghost ready = { λ s. IsFor s.results.program.now s.results.hierarchy.now s.verifier };

    ghost writes = { λ s at m b es. FoldsWell s.results.program.now s.results.hierarchy.now s.results.facts.now s.results.classes at m b es };

    fn edits(
        &self,
        alloc: Global,
        at: MethodAt,
        method: &Method,
        body: &Body,
    ) -> Result<Vec<Edit>, AllocError> {
        let code = Code {
            class: at.class,
            method: method.name,
            body,
        };
        let folds = self.results.folds(alloc, &code)?;
        let asked = is_any_asked(body, &folds);
        let typings = self.typings(alloc, at, asked)?;
        typed(alloc, typings.as_ref(), body, &folds)
    }
}

/// What the pass writes over the admitted bodies of a program, where `places` has the place of each type's class.
fn plan_with<'a>(
    alloc: Global,
    program: &'a Program,
    hierarchy: &'a Hierarchy,
    facts: &'a Facts,
    places: &'a [Option<u32>],
    admitted: &Admitted,
) -> Result<Seq<Seq<Seq<Edit>>>, AllocError>
    requires { ArePlaces hierarchy.now (length program.now.types) places.now }
    ensures becomes { IfOk result (IsPlan (λ at m b es. All (IsFold b) es) admitted.now.methods.items program.now.classes) }
    ensures folded { is_well_formed program.now ≡ true → IsResolved program.now hierarchy.now → IfOk result (IsFoldPlan program.now hierarchy.now facts.now admitted.now.methods.items) }
{
    let classes = Classes {
        places,
        count: class_places::word(program.classes.len()),
        hierarchy,
    };
    let pass = Folding {
        results: Results {
            program,
            hierarchy,
            facts,
            classes,
        },
        verifier: Verifier::make(alloc, program, hierarchy)?,
    };
    plan_program(alloc, program, &pass, admitted)
}

/// What the pass writes over the admitted bodies of a program.
fn plan(
    alloc: Global,
    program: &Program,
    hierarchy: &Hierarchy,
    facts: &Facts,
    admitted: &Admitted,
) -> Result<Seq<Seq<Seq<Edit>>>, AllocError>
    ensures becomes { IfOk result (IsPlan (λ at m b es. All (IsFold b) es) admitted.now.methods.items program.now.classes) }
    ensures folded { is_well_formed program.now ≡ true → IsResolved program.now hierarchy.now → IfOk result (IsFoldPlan program.now hierarchy.now facts.now admitted.now.methods.items) }
{
    let places = places_of(alloc, hierarchy, program.types.len())?;
    plan_with(alloc, program, hierarchy, facts, &places, admitted)
}

/// Writes constants over the instructions of the admitted bodies of a program whose results the facts know, and gotos and
/// nops over its branches whose outcomes they know, in place: at each position where the facts and the kinds of registers
/// allow it, and at no other one. The hierarchy is that of the program's classes, and the facts are those of the program.
/// `count` is how many instructions are written over, 0 exactly where the program is the same: then the facts and the kinds
/// allow nothing more. Else fewer instructions are left other than constants, gotos and nops. All else stays, lines too.
/// After want of memory, the only error, the program is lost.
pub fn apply(
    alloc: Global,
    program: Program,
    hierarchy: &Hierarchy,
    facts: &Facts,
    admitted: &Admitted,
) -> Result<Changed, AllocError>
    ensures becomes { IfOk result (IsRewrittenBy (λ at m b es. All (IsFold b) es) admitted.now.methods.items program) }
    ensures folded { is_well_formed program ≡ true → IsResolved program hierarchy.now → IfOk result (IsFoldedBy program hierarchy.now facts.now admitted.now.methods.items) }
    ensures none_left { is_well_formed program ≡ true → IsResolved program hierarchy.now → IfOk result (λ c. c.count ≡ 0 → NoneLeft program hierarchy.now facts.now admitted.now.methods.items) }
    ensures same { IfOk result (λ changed. changed.count ≡ 0 → changed.program ≡ program) }
    ensures less { IfOk result (λ changed. 0 < changed.count → open_forms changed.program < open_forms program) }
{
    let plan = plan(alloc, &program, hierarchy, facts, admitted)?;
    let changed = write_plan(alloc, program, plan.as_slice())?;
    Ok(changed)
}
