//! Which methods are quiet.

ghost use Rattle.std.specs.Prelude.{◌≡◌, ◌<◌, ◌^◌, ◌++◌, ◌∷◌, List, length, map, slice_set, false, is_some, replicate, IfOk, OnOk, [], Some};
ghost use Rattle.program_model.specs.declared.program.Method.{Method};
ghost use Rattle.hierarchy.specs.Shapes.{IsResolved};
ghost use Rattle.quiet_methods.specs.Quiet.{frames_of, AreQuiet};
ghost use Rattle.quiet_methods.specs.Owning.{AreOwns, methods_of, no_node};

use crate::bodies::Own;
use crate::forms::Search;
use crate::ranks::{Node, settle};
use dom_frame::Frame;
use hierarchy::Hierarchy;
use program_model::{Body, Class, Method, Program};
use seq::Seq;
use std::alloc::{AllocError, Global};

/// What is known of the code of each method number by itself.
#[derive(Drop)]
struct Owns {
    nodes: Vec<Node>,
    ranks: Vec<Seq<Option<u32>>>,
}

/// The frames of a method, none where it has no entry.
fn frames_of(frames: &[Seq<Option<Frame>>], number: u32) -> &[Option<Frame>]
    ensures { result.now ≡ frames_of frames.now number }
{
    match frames.get(number as usize) {
        Some(frames) => frames.as_slice(),
        None => &[],
    }
}

/// So many nodes that may have no rank.
fn no_nodes(alloc: Global, count: usize) -> Result<Vec<Node>, AllocError>
    ensures { IfOk result (λ v. v.items ≡ replicate count no_node) }
{
    let mut nodes = Vec::with_capacity(alloc, count)?;
    for _ in 0..count {
        nodes.push(Node {
            may: false,
            needs: Seq::new(alloc),
        })?;
    }
    Ok(nodes)
}

/// So many empty lists of ranks.
fn no_ranks(alloc: Global, count: usize) -> Result<Vec<Seq<Option<u32>>>, AllocError>
    ensures { IfOk result (λ v. length v.items ≡ count) }
{
    let mut ranks = Vec::with_capacity(alloc, count)?;
    for _ in 0..count {
        ranks.push(Seq::new(alloc))?;
    }
    Ok(ranks)
}

impl Owns {
    /// Notes what is known of the code of a number, which the tables have.
    fn note(&mut self, place: usize, own: Own)
        requires { (place < length self.now.nodes.items) × (place < length self.now.ranks.items) }
        ensures nodes { self.new.nodes.items ≡ slice_set self.old.nodes.items place own.node }
        ensures ranks { self.new.ranks.items ≡ slice_set self.old.ranks.items place own.ranks }
    {
        let Own { node, ranks } = own;
        self.nodes[place] = node;
        self.ranks[place] = ranks;
    }
}

impl Search<'_> {
    /// Notes what is known of a method's code.
    fn note_body(
        &self,
        alloc: Global,
        frames: &[Seq<Option<Frame>>],
        number: u32,
        body: &Body,
        owns: &mut Owns,
    ) -> Result<(), AllocError>
        ensures { (done : List Method) (m : Method) → IsResolved self.now.program.now self.now.hierarchy.now → m.body ≡ Some body.now → m.name ≡ number
            → AreOwns self.now.program.now frames.now done owns.old.nodes.items owns.old.ranks.items → OnOk result (AreOwns self.now.program.now frames.now (done ++ m ∷ []) owns.new.nodes.items owns.new.ranks.items) }
    {
        let place = number as usize;
        if place >= owns.nodes.len() || place >= owns.ranks.len() {
            return Ok(());
        }
        let own = self.judge(alloc, body.insns.as_slice(), frames_of(frames, number))?;
        owns.note(place, own);
        Ok(())
    }

    /// Notes what is known of a method's code, if it has any.
    fn note_method(
        &self,
        alloc: Global,
        frames: &[Seq<Option<Frame>>],
        method: &Method,
        owns: &mut Owns,
    ) -> Result<(), AllocError>
        ensures { (done : List Method) → IsResolved self.now.program.now self.now.hierarchy.now
            → AreOwns self.now.program.now frames.now done owns.old.nodes.items owns.old.ranks.items → OnOk result (AreOwns self.now.program.now frames.now (done ++ method.now ∷ []) owns.new.nodes.items owns.new.ranks.items) }
    {
        match &method.body {
            Some(body) => self.note_body(alloc, frames, method.name, body, owns),
            None => Ok(()),
        }
    }

    /// Notes what is known of the code of some methods.
    fn note_methods(
        &self,
        alloc: Global,
        frames: &[Seq<Option<Frame>>],
        methods: &[Method],
        owns: &mut Owns,
    ) -> Result<(), AllocError>
        ensures { (done : List Method) → IsResolved self.now.program.now self.now.hierarchy.now
            → AreOwns self.now.program.now frames.now done owns.old.nodes.items owns.old.ranks.items → OnOk result (AreOwns self.now.program.now frames.now (done ++ methods.now) owns.new.nodes.items owns.new.ranks.items) }
    {
        for method in methods {
            self.note_method(alloc, frames, method, owns)?;
        }
        Ok(())
    }

    /// Notes what is known of the code of some classes.
    fn note_classes(
        &self,
        alloc: Global,
        frames: &[Seq<Option<Frame>>],
        classes: &[Class],
        owns: &mut Owns,
    ) -> Result<(), AllocError>
        ensures { IsResolved self.now.program.now self.now.hierarchy.now → AreOwns self.now.program.now frames.now [] owns.old.nodes.items owns.old.ranks.items
            → OnOk result (AreOwns self.now.program.now frames.now (methods_of classes.now) owns.new.nodes.items owns.new.ranks.items) }
    {
        for class in classes {
            self.note_methods(alloc, frames, class.methods.as_slice(), owns)?;
        }
        Ok(())
    }

    /// What is known of all code of the program.
    fn judge_all(&self, alloc: Global, frames: &[Seq<Option<Frame>>]) -> Result<Owns, AllocError>
        ensures { IsResolved self.now.program.now self.now.hierarchy.now
            → IfOk result (λ o. AreOwns self.now.program.now frames.now (methods_of self.now.program.now.classes) o.nodes.items o.ranks.items) }
    {
        let count = self.program.methods.len();
        let mut owns = Owns {
            nodes: no_nodes(alloc, count)?,
            ranks: no_ranks(alloc, count)?,
        };
        self.note_classes(alloc, frames, self.program.classes.as_slice(), &mut owns)?;
        Ok(owns)
    }
}

/// Which nodes have ranks.
fn marks_of(alloc: Global, ranks: &[Option<u32>]) -> Result<Vec<bool>, AllocError>
    ensures { IfOk result (λ v. v.items ≡ map is_some ranks.now) }
{
    let mut marks = Vec::with_capacity(alloc, ranks.len())?;
    for rank in ranks {
        marks.push(rank.is_some())?;
    }
    Ok(marks)
}

/// No marks.
fn no_marks(alloc: Global, count: usize) -> Result<Vec<bool>, AllocError>
    ensures { IfOk result (λ v. v.items ≡ replicate count false) }
{
    Ok(vec![in alloc; false; count]?)
}

/// Which methods are quiet, by number. The hierarchy is that of the program's classes, and `frames` has for each method and each
/// position of its code the registers before the instruction, none where no run comes. The only error is want of memory.
pub fn quiet_methods(
    alloc: Global,
    program: &Program,
    hierarchy: &Hierarchy,
    frames: &[Seq<Option<Frame>>],
) -> Result<Vec<bool>, AllocError>
    ensures { IsResolved program.now hierarchy.now → length program.now.methods < 2 ^ 32 → IfOk result (λ v. AreQuiet program.now frames.now v.items) }
{
    let search = Search { program, hierarchy };
    let owns = search.judge_all(alloc, frames)?;
    if owns.nodes.len() >= 4294967296 {
        return no_marks(alloc, owns.nodes.len());
    }
    let levels = settle(alloc, &owns.nodes)?;
    marks_of(alloc, &levels)
}
