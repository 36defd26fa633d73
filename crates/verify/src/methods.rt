//! The kinds with which the code of a method begins.

ghost use Rattle.std.specs.Prelude.{◌≡◌, length, IfOk};
ghost use Rattle.verify.specs.Entry.{put_parameter, behind_parameter, begun_from, begun_with, begun};
ghost use Rattle.verify.specs.Frames.{kinds_of};
ghost use Rattle.verify.specs.Types.{kind_of};

use crate::frames::Frame;
use crate::kinds::Kind;
use crate::setting::Setting;
use program_model::Body;
use std::alloc::{AllocError, Global};

/// How the parameters of a method are passed: whether there is a receiver, of which kind, and the parameters' types.
#[derive(Drop)]
pub struct Passed<'a> {
    pub receiver: Option<Kind>,
    pub kinds: &'a [u32],
}

/// Writes the kind of one parameter.
fn put_parameter(frame: &mut Frame, at: u32, kind: Kind)
    ensures { kinds_of frame.new ≡ record (kinds_of frame.old) { registers = put_parameter kind at (kinds_of frame.old).registers } }
{
    frame.put(at, kind);
    if let Kind::WideLow = kind {
        frame.put(at.saturating_add(1), Kind::WideHigh);
    }
}

/// The register behind a parameter.
fn behind_parameter(kind: Kind, at: u32) -> u32
    ensures { result ≡ behind_parameter kind at }
{
    match kind {
        Kind::WideLow => at.saturating_add(1).saturating_add(1),
        _ => at.saturating_add(1),
    }
}

impl Setting<'_> {
    /// Writes the kinds of the parameters, one behind the other.
    fn begin_parameters(&self, frame: &mut Frame, first: u32, kinds: &[u32])
        ensures { kinds_of frame.new ≡ record (kinds_of frame.old) { registers = begun_from self.now.tables.now kinds.now first (kinds_of frame.old).registers } }
    {
        let mut at = first;
        for kind in kinds {
            let kind = self.tables.kind_of(*kind);
            put_parameter(frame, at, kind);
            at = behind_parameter(kind, at);
        }
    }

    /// Writes the kinds of the receiver and of the parameters.
    fn begin_passed(&self, frame: &mut Frame, first: u32, passed: &Passed<'_>)
        ensures { kinds_of frame.new ≡ record (kinds_of frame.old) { registers = begun_with self.now.tables.now passed.now.receiver passed.now.kinds.now first (kinds_of frame.old).registers } }
    {
        match passed.receiver {
            Some(kind) => {
                frame.put(first, kind);
                self.begin_parameters(frame, first.saturating_add(1), passed.kinds);
            }
            None => self.begin_parameters(frame, first, passed.kinds),
        }
    }

    /// The frame with which a body begins: the arguments stand in the last registers, all others are undefined.
    #[tactic(auto, using(crate::proofs::Entries::begun_long))]
    pub fn begin(
        &self,
        alloc: Global,
        body: &Body,
        passed: &Passed<'_>,
    ) -> Result<Frame, AllocError>
        ensures frame { IfOk result (λ f. kinds_of f ≡ begun self.now body.now passed.now.receiver passed.now.kinds.now) }
        ensures wide { IfOk result (λ f. length (kinds_of f).registers ≡ body.now.registers) }
    {
        let mut frame = Frame::undefined(alloc, body.registers)?;
        let first = u32::from(body.registers.saturating_sub(body.ins));
        self.begin_passed(&mut frame, first, passed);
        if self.constructs {
            frame.receiver = Kind::FreshThis;
        }
        Ok(frame)
    }
}
