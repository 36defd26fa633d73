//! What is kept so far, as marks by number.

ghost use Rattle.std.specs.Prelude.{◌≡◌, ◌&&◌, ℕ, true, false, not, nat_eq, slice_set, slice_index_or, if◌then◌else◌, IfOk, replicate, length};
ghost use Rattle.keep_rules.specs.Marks.{is_always, numbers_of};
ghost use Rattle.keep_rules.specs.Table.{has};
ghost use Rattle.keep_rules.specs.Grown.{Part, Slot, Grew, GrewMembers, IsClear, marks_in, marks_of, size_of};

use program_model::Program;
use seq::Seq;
use std::alloc::{AllocError, Global};

/// Members that are kept, that are kept where their class is live, and those of either whose descriptor's classes are
/// kept with them.
#[derive(Drop)]
pub struct MemberMarks {
    pub kept: Vec<bool>,
    pub live: Vec<bool>,
    pub described: Vec<bool>,
    pub described_live: Vec<bool>,
}

/// Marks by type, field and method number.
#[derive(Drop)]
pub struct Marks {
    pub classes: Vec<bool>,
    pub fields: MemberMarks,
    pub methods: MemberMarks,
    pub silent: Vec<bool>,
}

/// Whether members are kept at all events, or where their class is live.
#[derive(Clone, Copy)]
pub enum Hold {
    Always,
    Live,
}

/// No marks.
pub fn unmarked(alloc: Global, size: usize) -> Result<Vec<bool>, AllocError>
    ensures { IfOk result (λ marks. marks.items ≡ replicate size false) }
{
    let mut marks = Vec::new(alloc);
    marks.resize(size, false)?;
    Ok(marks)
}

/// Marks a number.
pub fn mark(marks: &mut Vec<bool>, number: u32)
    ensures { marks.new.items ≡ slice_set marks.old.items number true }
{
    if let Some(slot) = marks.get_mut(number as usize) {
        *slot = true;
    }
}

/// Marks a number, if it is wanted.
pub fn mark_where(marks: &mut Vec<bool>, wanted: bool, number: u32)
    ensures { marks.new.items ≡ (if wanted then slice_set marks.old.items number true else marks.old.items) }
{
    if wanted {
        mark(marks, number);
    }
}

/// Whether a number is marked.
pub fn is_marked(marks: &[bool], number: u32) -> bool
    ensures { result ≡ slice_index_or marks.now number false }
{
    marks.get(number as usize).copied().unwrap_or(false)
}

impl MemberMarks {
    /// No marks.
    fn new(alloc: Global, size: usize) -> Result<MemberMarks, AllocError>
        ensures { IfOk result (λ marks. (s : Part) → IsClear size (marks_in s marks)) }
    {
        Ok(MemberMarks {
            kept: unmarked(alloc, size)?,
            live: unmarked(alloc, size)?,
            described: unmarked(alloc, size)?,
            described_live: unmarked(alloc, size)?,
        })
    }

    /// Marks a member, and its descriptor where that is wanted.
    pub fn keep(&mut self, number: u32, hold: Hold, described: bool)
        ensures kept { self.new.kept.items ≡ (if is_always hold then slice_set self.old.kept.items number true else self.old.kept.items) }
        ensures live { self.new.live.items ≡ (if is_always hold then self.old.live.items else slice_set self.old.live.items number true) }
        ensures described { self.new.described.items ≡ (if is_always hold && described then slice_set self.old.described.items number true else self.old.described.items) }
        ensures described_live { self.new.described_live.items ≡ (if not (is_always hold) && described then slice_set self.old.described_live.items number true else self.old.described_live.items) }
    {
        match hold {
            Hold::Always => {
                mark(&mut self.kept, number);
                if described {
                    mark(&mut self.described, number);
                }
            }
            Hold::Live => {
                mark(&mut self.live, number);
                if described {
                    mark(&mut self.described_live, number);
                }
            }
        }
    }
}

impl MemberMarks {
    /// Marks a member, and its descriptor where that is wanted, if it is to be kept.
    pub fn keep_where(&mut self, wanted: bool, number: u32, hold: Hold, described: bool)
        ensures { GrewMembers (is_always hold) described (λ n. nat_eq n number && wanted) self.old self.new }
    {
        if wanted {
            self.keep(number, hold, described);
        }
    }
}

impl Marks {
    /// No marks.
    pub fn new(alloc: Global, program: &Program) -> Result<Marks, AllocError>
        ensures { IfOk result (λ marks. (s : Slot) → IsClear (size_of program.now s) (marks_of s marks)) }
    {
        Ok(Marks {
            classes: unmarked(alloc, program.types.len())?,
            fields: MemberMarks::new(alloc, program.fields.len())?,
            methods: MemberMarks::new(alloc, program.methods.len())?,
            silent: unmarked(alloc, program.methods.len())?,
        })
    }
}

/// Marks each of the numbers.
pub fn mark_each(marks: &mut Vec<bool>, numbers: &[u32])
    ensures { Grew (has numbers.now) marks.old.items marks.new.items }
{
    for number in numbers {
        mark(marks, *number);
    }
}

/// The marked numbers below the size, which ascend.
pub fn numbers(alloc: Global, marks: &[bool], size: u32) -> Result<Seq<u32>, AllocError>
    ensures { IfOk result (λ numbers. numbers ≡ numbers_of marks.now size) }
{
    let mut numbers = Seq::new(alloc);
    for number in 0..size {
        if is_marked(marks, number) {
            numbers.push(number)?;
        }
    }
    Ok(numbers)
}
