//! The whole file, from its tables and its runs of items (Dalvik executable format, "header_item", "map_list"; FIPS
//! 180-4; RFC 1950).

ghost use Rattle.std.specs.Prelude.{◌≡◌, ◌≤◌, ◌<◌, ◌^◌, ◌+◌, ◌-◌, ◌*◌, ◌/◌, ◌++◌, ◌∷◌, [], length, replicate, IfOk, OnOk};
ghost use Rattle.sha1.specs.Sha1.{sha1};
ghost use Rattle.dex_write.specs.Numbers.{words};
ghost use Rattle.dex_write.specs.Runs.{runs_text};
ghost use Rattle.dex_write.specs.File.{types_at, protos_at, fields_at, methods_at, classes_at, data_at, table_offset, front_pairs, back_pairs, table_rows, map_rows, map_words, magic_of, header_words, ends_behind, body_text, file_text, IsSealed};

use crate::numbers::{behind, push_words, push_zeros, up, word_of};
use crate::run::{Kind, Run, end_behind, push_row, push_run_rows, push_runs};
use dex_base::adler;
use program_model::Version;
use sha1::Sha1;
use std::alloc::{AllocError, Global};

/// How many entries the tables have.
#[derive(Clone, Copy, Drop)]
pub struct Counts {
    pub strings: u32,
    pub types: u32,
    pub protos: u32,
    pub fields: u32,
    pub methods: u32,
    pub classes: u32,
}

/// Where the tables begin, one behind another behind the header, and where the data behind them does.
#[derive(Clone, Copy, Drop)]
pub struct Starts {
    pub types: u32,
    pub protos: u32,
    pub fields: u32,
    pub methods: u32,
    pub classes: u32,
    pub data: u32,
}

/// The place behind a table of so many entries of so many bytes.
fn behind_table(at: u32, count: u32, width: usize) -> Result<u32, AllocError>
    requires { width ≤ 32 }
    ensures { IfOk result (λ place. place ≡ at + width * count) }
{
    behind(at, width * count as usize)
}

/// Where the tables of so many entries begin, and the data.
pub fn starts_of(counts: Counts) -> Result<Starts, AllocError>
    ensures types { IfOk result (λ s. s.types ≡ types_at counts) }
    ensures protos { IfOk result (λ s. s.protos ≡ protos_at counts) }
    ensures fields { IfOk result (λ s. s.fields ≡ fields_at counts) }
    ensures methods { IfOk result (λ s. s.methods ≡ methods_at counts) }
    ensures classes { IfOk result (λ s. s.classes ≡ classes_at counts) }
    ensures data { IfOk result (λ s. s.data ≡ data_at counts) }
{
    let types = behind_table(112, counts.strings, 4)?;
    let protos = behind_table(types, counts.types, 4)?;
    let fields = behind_table(protos, counts.protos, 12)?;
    let methods = behind_table(fields, counts.fields, 8)?;
    let classes = behind_table(methods, counts.methods, 8)?;
    let data = behind_table(classes, counts.classes, 32)?;
    Ok(Starts {
        types,
        protos,
        fields,
        methods,
        classes,
        data,
    })
}

/// Where a table of so many entries begins, 0 for an empty one.
fn table_offset(count: u32, at: u32) -> u32
    ensures { result ≡ table_offset count at }
{
    if count == 0 { 0 } else { at }
}

/// Adds how many strings, types and protos there are, and where each table begins, 0 for an empty one.
fn push_front_pairs(out: &mut Vec<u32>, counts: Counts) -> Result<(), AllocError>
    ensures { OnOk result (out.new.items ≡ out.old.items ++ front_pairs counts) }
{
    let starts = starts_of(counts)?;
    out.extend_from_slice(&[
        counts.strings,
        table_offset(counts.strings, 112),
        counts.types,
        table_offset(counts.types, starts.types),
        counts.protos,
        table_offset(counts.protos, starts.protos),
    ])
}

/// Adds how many fields, methods and classes there are, and where each table begins, 0 for an empty one.
fn push_back_pairs(out: &mut Vec<u32>, counts: Counts) -> Result<(), AllocError>
    ensures { OnOk result (out.new.items ≡ out.old.items ++ back_pairs counts) }
{
    let starts = starts_of(counts)?;
    out.extend_from_slice(&[
        counts.fields,
        table_offset(counts.fields, starts.fields),
        counts.methods,
        table_offset(counts.methods, starts.methods),
        counts.classes,
        table_offset(counts.classes, starts.classes),
    ])
}

/// The words of the header from file_size on, of a file of this size whose map stands at a place.
#[tactic(auto, unfolding(crate::specs::File::header_words))]
fn header_words(alloc: Global, counts: Counts, size: u32, map: u32) -> Result<Vec<u32>, AllocError>
    ensures { IfOk result (λ v. v.items ≡ header_words counts size map) }
{
    let data = starts_of(counts)?.data;
    let mut out = Vec::from_slice(alloc, &[size, 112, 0x1234_5678, 0, 0, map])?;
    push_front_pairs(&mut out, counts)?;
    push_back_pairs(&mut out, counts)?;
    out.extend_from_slice(&[size.saturating_sub(data), data])?;
    Ok(out)
}

/// Adds the map's entries of the tables.
fn push_table_rows(rows: &mut Vec<u32>, counts: Counts) -> Result<(), AllocError>
    ensures { OnOk result (rows.new.items ≡ rows.old.items ++ table_rows counts) }
{
    let starts = starts_of(counts)?;
    push_row(rows, 1, counts.strings, 112)?;
    push_row(rows, 2, counts.types, starts.types)?;
    push_row(rows, 3, counts.protos, starts.protos)?;
    push_row(rows, 4, counts.fields, starts.fields)?;
    push_row(rows, 5, counts.methods, starts.methods)?;
    push_row(rows, 6, counts.classes, starts.classes)
}

/// The map's entries: the header, the tables and the runs that have any, and the map itself.
fn map_rows(alloc: Global, counts: Counts, runs: &[Run], at: u32) -> Result<Vec<u32>, AllocError>
    ensures { IfOk result (λ v. v.items ≡ map_rows counts runs.now at) }
{
    let mut rows = Vec::from_slice(alloc, &[0, 1, 0])?;
    push_table_rows(&mut rows, counts)?;
    push_run_rows(&mut rows, runs)?;
    rows.extend_from_slice(&[Kind::MapList.code(), 1, at])?;
    Ok(rows)
}

/// The map at a place.
#[tactic(auto, unfolding(crate::specs::File::map_words))]
fn map_bytes(alloc: Global, counts: Counts, runs: &[Run], at: u32) -> Result<Vec<u8>, AllocError>
    ensures { IfOk result (λ v. v.items ≡ words (map_words counts runs.now at)) }
{
    let rows = map_rows(alloc, counts, runs, at)?;
    let mut words = Vec::from_slice(alloc, &[word_of(rows.len() / 3)?])?;
    words.extend_from_slice(&rows)?;
    let mut out = Vec::new(alloc);
    push_words(&mut out, &words)?;
    Ok(out)
}

/// Where the runs end, the first of which stands behind a place.
fn ends_behind(at: u32, runs: &[Run]) -> Result<u32, AllocError>
    ensures { IfOk result (λ end. end ≡ ends_behind at runs.now) }
{
    let mut end = at;
    for run in runs {
        end = end_behind(end, run)?;
    }
    Ok(end)
}

/// Adds the rest of the header, the tables, the runs behind a place, so many zeros, and the map.
fn push_body(
    out: &mut Vec<u8>,
    header: &[u32],
    tables: &[u32],
    from: u32,
    runs: &[Run],
    zeros: usize,
    map: &[u8],
) -> Result<(), AllocError>
    ensures { OnOk result (out.new.items ≡ out.old.items ++ (words header.now ++ (words tables.now ++ (runs_text from runs.now ++ (replicate zeros 0 ++ map.now))))) }
{
    push_words(out, header)?;
    push_words(out, tables)?;
    push_runs(out, from, runs)?;
    push_zeros(out, zeros)?;
    out.extend_from_slice(map)
}

/// All from 32 on: the rest of the header, the tables, the runs, and the map at the next multiple of four.
#[tactic(auto, unfolding(crate::specs::File::body_text))]
fn body_of(
    alloc: Global,
    counts: Counts,
    tables: &[u32],
    runs: &[Run],
) -> Result<Vec<u8>, AllocError>
    ensures { IfOk result (λ v. v.items ≡ body_text counts tables.now runs.now) }
{
    let data = starts_of(counts)?.data;
    let end = ends_behind(data, runs)?;
    let at = up(end)?;
    let zeros = at.saturating_sub(end) as usize;
    let map = map_bytes(alloc, counts, runs, at)?;
    let size = behind(at, map.len())?;
    let header = header_words(alloc, counts, size, at)?;
    let mut out = Vec::with_capacity(alloc, size as usize)?;
    push_body(&mut out, &header, tables, data, runs, zeros, &map)?;
    Ok(out)
}

/// The SHA-1 of the bytes.
fn digest(bytes: &[u8]) -> [u8; 20]
    ensures is { result ≡ sha1 bytes.now }
    ensures long { length (sha1 bytes.now) ≡ 20 }
{
    Sha1::digest(bytes)
}

/// Adds the eight bytes with which a file of this version begins.
fn push_magic(out: &mut Vec<u8>, version: Version) -> Result<(), AllocError>
    ensures { OnOk result (out.new.items ≡ out.old.items ++ magic_of version) }
{
    match version {
        Version::V035 => out.extend_from_slice(b"dex\n035\0"),
        Version::V037 => out.extend_from_slice(b"dex\n037\0"),
    }
}

/// The signature of the bytes from 32 on, and these.
fn signed(alloc: Global, body: &[u8]) -> Result<Vec<u8>, AllocError>
    ensures is { IfOk result (λ v. v.items ≡ sha1 body.now ++ body.now) }
    ensures long { OnOk result (length (sha1 body.now) ≡ 20) }
{
    let mut out = Vec::with_capacity(alloc, body.len().saturating_add(20))?;
    out.extend_from_slice(&digest(body))?;
    out.extend_from_slice(body)?;
    Ok(out)
}

/// The file whose bytes from 32 on are these: before them the magic, the checksum of all behind it, and the signature.
#[tactic(auto, unfolding(crate::specs::File::file_text))]
fn sealed(alloc: Global, version: Version, body: &[u8]) -> Result<Vec<u8>, AllocError>
    ensures is { IfOk result (λ v. v.items ≡ file_text version body.now) }
    ensures long { OnOk result (length (sha1 body.now) ≡ 20) }
    ensures few { IfOk result (λ v. length v.items < 2 ^ 32) }
{
    let signed = signed(alloc, body)?;
    let mut out = Vec::with_capacity(alloc, body.len().saturating_add(32))?;
    push_magic(&mut out, version)?;
    push_words(&mut out, &[adler(&signed)])?;
    out.extend_from_slice(&signed)?;
    word_of(out.len())?;
    Ok(out)
}

/// The file of these tables and runs. Its magic, checksum and signature are right.
pub fn file_of(
    alloc: Global,
    version: Version,
    counts: Counts,
    tables: &[u32],
    runs: &[Run],
) -> Result<Vec<u8>, AllocError>
    ensures is { IfOk result (λ v. v.items ≡ file_text version (body_text counts tables.now runs.now)) }
    ensures sealed { IfOk result (λ v. IsSealed version v.items) }
    ensures few { IfOk result (λ v. length v.items < 2 ^ 32) }
{
    let body = body_of(alloc, counts, tables, runs)?;
    sealed(alloc, version, &body)
}
