//! The frames of facts that say nothing.

ghost use Rattle.std.specs.Prelude.{◌≡◌, ℕ, ◌<◌, true, List, [], length, slice_index_or, IfOk};
ghost use Rattle.program_model.specs.ProgramRules.{is_well_formed};
ghost use Rattle.dom_frame.specs.Registers.{Registers};
ghost use Rattle.vague_facts.specs.Vague.{anything, IsVague};
ghost use Rattle.vague_facts.specs.Counting.{CountsClasses, ComesTo, AreFrames};

use crate::counts::count_classes;
use dom_frame::Frame;
use domains::Value;
use facts::Facts;
use pat_map::PatMap;
use program_model::Program;
use seq::Seq;
use std::alloc::{AllocError, Global};

/// So many frames of the same registers.
#[tactic(auto, using(crate::proofs::Framing::no_frames, crate::proofs::Framing::one_frame))]
fn frames_of(
    alloc: Global,
    count: usize,
    registers: &PatMap<Value>,
) -> Result<Vec<Option<Frame>>, AllocError>
    ensures { IfOk result (λ frames. AreFrames registers.now count frames.items) }
{
    let mut frames = Vec::with_capacity(alloc, count)?;
    for _ in 0..count {
        frames.push(Some(Frame::of(registers.share()?)))?;
    }
    Ok(frames)
}

/// For each of some counts so many frames of the same registers.
fn all_frames(
    alloc: Global,
    counts: &[usize],
    registers: &PatMap<Value>,
) -> Result<Vec<Seq<Option<Frame>>>, AllocError>
    ensures { IfOk result (λ frames. (n : ℕ) → n < length counts.now → ComesTo registers.now (slice_index_or counts.now n 0) (slice_index_or frames.items n [])) }
{
    let mut frames = Vec::with_capacity(alloc, counts.len())?;
    for count in counts {
        frames.push(Seq::of_vec(frames_of(alloc, *count, registers)?))?;
    }
    Ok(frames)
}

/// For each of some counts so many frames with anything in each of so many registers.
fn frames_by(
    alloc: Global,
    counts: &[usize],
    size: u32,
) -> Result<Vec<Seq<Option<Frame>>>, AllocError>
    ensures { IfOk result (λ frames. (n : ℕ) → n < length counts.now → ComesTo (anything size) (slice_index_or counts.now n 0) (slice_index_or frames.items n [])) }
{
    let whole = Frame::filled(alloc, size, &Value::any())?;
    all_frames(alloc, counts, &whole.registers)
}

/// Facts by which a run may come to each position of each body of a program with anything in its registers, and which say
/// nothing else. The only error is want of memory.
pub fn vague(alloc: Global, program: &Program) -> Result<Facts, AllocError>
    ensures { is_well_formed program.now ≡ true → IfOk result (IsVague program.now) }
{
    let mut counts = vec![in alloc; 0usize; program.methods.len()]?;
    count_classes(&mut counts, program.classes.as_slice());
    let frames = frames_by(alloc, &counts, 65535)?;
    Ok(Facts {
        frames,
        parameters: Vec::new(alloc),
        results: Vec::new(alloc),
        fields: Vec::new(alloc),
        quiet: Vec::new(alloc),
        any: Value::any(),
    })
}
