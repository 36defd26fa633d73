//! Runs of items of one kind, as the map lists them (Dalvik executable format, "map_list").

ghost use Rattle.std.specs.Prelude.{◌≡◌, ◌++◌, length, IfOk, OnOk};
ghost use Rattle.dex_write.specs.Runs.{kind_code, end_behind, run_text, runs_text, map_row, run_rows};

use crate::numbers::{behind, push_zeros};
use seq::Seq;
use std::alloc::AllocError;

/// The kinds of items, in the order in which they stand in the file.
#[derive(Clone, Copy, Drop)]
pub enum Kind {
    TypeList,
    AnnotationSetRefList,
    AnnotationSet,
    CodeItem,
    AnnotationsDirectory,
    ClassData,
    StringData,
    DebugInfo,
    Annotation,
    EncodedArray,
    MapList,
}

impl Kind {
    /// The code by which the map names the kind (Dalvik executable format, "Type Codes").
    pub fn code(self) -> u32
        ensures { result ≡ kind_code self }
    {
        match self {
            Kind::MapList => 0x1000,
            Kind::TypeList => 0x1001,
            Kind::AnnotationSetRefList => 0x1002,
            Kind::AnnotationSet => 0x1003,
            Kind::ClassData => 0x2000,
            Kind::CodeItem => 0x2001,
            Kind::StringData => 0x2002,
            Kind::DebugInfo => 0x2003,
            Kind::Annotation => 0x2004,
            Kind::EncodedArray => 0x2005,
            Kind::AnnotationsDirectory => 0x2006,
        }
    }
}

/// Items of one kind, one behind another: how many there are, where the first one begins, and their bytes.
#[derive(Drop)]
pub struct Run {
    pub kind: Kind,
    pub count: u32,
    pub at: u32,
    pub bytes: Seq<u8>,
}

/// Where a run ends that stands behind a place; the place itself where it has no items.
pub fn end_behind(at: u32, run: &Run) -> Result<u32, AllocError>
    ensures { IfOk result (λ end. end ≡ end_behind at run.now) }
{
    if run.count == 0 {
        return Ok(at);
    }
    behind(run.at, run.bytes.len())
}

/// Adds a run that stands behind a place.
fn push_run(out: &mut Vec<u8>, at: u32, run: &Run) -> Result<(), AllocError>
    ensures { OnOk result (out.new.items ≡ out.old.items ++ run_text at run.now) }
{
    if run.count == 0 {
        return Ok(());
    }
    push_zeros(out, run.at.saturating_sub(at) as usize)?;
    out.extend_from_slice(run.bytes.as_slice())
}

/// Adds the runs, the first of which stands behind a place.
pub fn push_runs(out: &mut Vec<u8>, from: u32, runs: &[Run]) -> Result<(), AllocError>
    ensures { OnOk result (out.new.items ≡ out.old.items ++ runs_text from runs.now) }
{
    let mut at = from;
    for run in runs {
        push_run(out, at, run)?;
        at = end_behind(at, run)?;
    }
    Ok(())
}

/// Adds an entry of the map, where the run has items.
pub fn push_row(rows: &mut Vec<u32>, code: u32, count: u32, at: u32) -> Result<(), AllocError>
    ensures { OnOk result (rows.new.items ≡ rows.old.items ++ map_row code count at) }
{
    if count == 0 {
        return Ok(());
    }
    rows.extend_from_slice(&[code, count, at])
}

/// Adds the entries of the runs.
pub fn push_run_rows(rows: &mut Vec<u32>, runs: &[Run]) -> Result<(), AllocError>
    ensures { OnOk result (rows.new.items ≡ rows.old.items ++ run_rows runs.now) }
{
    for run in runs {
        push_row(rows, run.kind.code(), run.count, run.at)?;
    }
    Ok(())
}
