//! The members of a class (Dalvik executable format, "class_data_item").

ghost use Rattle.std.specs.Prelude.{◌≡◌, ◌+◌, ◌≤◌, ◌<◌, ◌&&◌, ◌||◌, length, min, IfOk, IfSome, true, false, [], is_none, IfErr};
ghost use Rattle.dex_base.specs.Reading.{Gives};
ghost use Rattle.program_model.specs.MemberRules.{is_static, is_private, lacks_code};
ghost use Rattle.dex_read.specs.Counts.{CountsInFile};
ghost use Rattle.dex_read.specs.Ascending.{AllAscend, Ascends};
ghost use Rattle.dex_read.specs.ClassData.{stepped_at, ascends_at, field_entry_at, method_entry_at, place_in, agree, field_suits, is_direct_entry, method_suits, field_at, method_at, fields_at, methods_at, members_at};
ghost use Rattle.dex_read.specs.Faults.{is_free};

use crate::below::number_of;
use crate::fault::DexFault;
use crate::members::{Owner, Source, is_field_of, is_method_of, is_special};
use dex_pools::{PoolFault, Table};
use program_model::Flags;
use seq::Seq;
use std::alloc::Global;

/// A member as class data lists it: its number, its flags, and the offset of a method's code, 0 for none.
#[derive(Clone, Copy, Drop)]
pub struct Listed {
    pub number: u32,
    pub flags: Flags,
    pub code: u32,
}

/// The four lists of a class's members.
#[derive(Drop)]
pub struct Members {
    pub statics: Seq<Listed>,
    pub instances: Seq<Listed>,
    pub directs: Seq<Listed>,
    pub virtuals: Seq<Listed>,
}

/// Where the entry of this number stands in a list whose numbers ascend.
pub fn place_of(entries: &[Listed], number: u32) -> Option<usize>
    requires { Ascends entries.now }
    ensures place { result ≡ place_in number entries.now }
    ensures inside { IfSome result (λ place. place < length entries.now) }
{
    match entries.binary_search_by_key(&number, |entry| entry.number) {
        Ok(place) => Some(place),
        Err(_) => None,
    }
}

/// A number as one of 32 bits, the greatest one where it has more.
fn capped(number: u64) -> u32
    ensures { result ≡ min number 4294967295 }
{
    if number < 4_294_967_295 {
        number as u32
    } else {
        4_294_967_295
    }
}

/// The number whose step from the one before it stands at `at`, below the size of its table; and the place behind it.
#[tactic(auto, unfolding(crate::specs::ClassData::stepped_at))]
fn stepped_of(bytes: &[u8], size: u32, before: u32, at: usize) -> Result<(u32, usize), DexFault>
    ensures gives { Gives is_free (λ r. r) result (stepped_at bytes.now size before at) }
    ensures inside { IfOk result (λ r. r.1 ≤ length bytes.now) }
    ensures counts { IfErr result CountsInFile }
{
    let (step, next) = number_of(bytes, at)?;
    let number = u64::from(before) + u64::from(step);
    if number < u64::from(size) {
        Ok((number as u32, next))
    } else {
        let value = capped(number);
        Err(DexFault::Pool(PoolFault::Index { at, value, size }))
    }
}

/// That the entry at `place` of a list is above the one before it.
#[tactic(auto, unfolding(crate::specs::ClassData::ascends_at))]
pub fn check_ascends(place: u32, before: u32, number: u32) -> Result<(), DexFault>
    ensures gives { Gives is_free (λ u. u) result (ascends_at place before number) }
    ensures counts { IfErr result CountsInFile }
{
    if place == 0 || before < number {
        Ok(())
    } else {
        Err(DexFault::Pool(PoolFault::Order {
            table: Table::Members,
            place,
        }))
    }
}

/// The entry of a field at `at`, and the place behind it.
#[tactic(auto, unfolding(crate::specs::ClassData::field_entry_at))]
fn field_entry(
    bytes: &[u8],
    size: u32,
    place: u32,
    at: usize,
    before: u32,
) -> Result<(Listed, usize), DexFault>
    ensures gives { Gives is_free (λ r. (r.0, (r.1, r.0.number))) result (field_entry_at bytes.now size place (at, before)) }
    ensures inside { IfOk result (λ r. r.1 ≤ length bytes.now) }
    ensures counts { IfErr result CountsInFile }
{
    let (number, next) = stepped_of(bytes, size, before, at)?;
    let (flags, next) = number_of(bytes, next)?;
    check_ascends(place, before, number)?;
    let entry = Listed {
        number,
        flags: Flags(flags),
        code: 0,
    };
    Ok((entry, next))
}

/// The entry of a method at `at`, and the place behind it.
#[tactic(auto, unfolding(crate::specs::ClassData::method_entry_at))]
fn method_entry(
    bytes: &[u8],
    size: u32,
    place: u32,
    at: usize,
    before: u32,
) -> Result<(Listed, usize), DexFault>
    ensures gives { Gives is_free (λ r. (r.0, (r.1, r.0.number))) result (method_entry_at bytes.now size place (at, before)) }
    ensures inside { IfOk result (λ r. r.1 ≤ length bytes.now) }
    ensures counts { IfErr result CountsInFile }
{
    let (number, next) = stepped_of(bytes, size, before, at)?;
    let (flags, next) = number_of(bytes, next)?;
    let (code, next) = number_of(bytes, next)?;
    check_ascends(place, before, number)?;
    let entry = Listed {
        number,
        flags: Flags(flags),
        code,
    };
    Ok((entry, next))
}

/// Whether both are true or neither is.
fn agree(a: bool, b: bool) -> bool
    ensures { result ≡ agree a b }
{
    if a { b } else { !b }
}

/// Whether a field belongs to the class, is static exactly where it is listed so, and is not in the list before.
fn field_suits(
    source: &Source,
    class: u32,
    is_listed_static: bool,
    earlier: &[Listed],
    entry: Listed,
) -> bool
    requires { Ascends earlier.now }
    ensures { result ≡ field_suits source.now.program.now class is_listed_static earlier.now entry }
{
    is_field_of(source.program, class, entry.number)
        && (agree(entry.flags.has(Flags::STATIC), is_listed_static)
            && place_of(earlier, entry.number).is_none())
}

/// Whether a method is direct: static, private, or named with a leading `<`.
fn is_direct(source: &Source, entry: Listed) -> bool
    ensures { result ≡ is_direct_entry source.now.program.now entry }
{
    (entry.flags.has(Flags::STATIC) || entry.flags.has(Flags::PRIVATE))
        || is_special(source.program, entry.number)
}

/// Whether the flags are those of a method without code.
fn lacks_code(flags: Flags) -> bool
    ensures { result ≡ lacks_code flags }
{
    flags.has(Flags::ABSTRACT) || flags.has(Flags::NATIVE)
}

/// Whether a method belongs to the class, is direct exactly where it is listed so, has code exactly where it is neither
/// abstract nor native, and is not in the list before.
fn method_suits(
    source: &Source,
    class: u32,
    is_listed_direct: bool,
    earlier: &[Listed],
    entry: Listed,
) -> bool
    requires { Ascends earlier.now }
    ensures { result ≡ method_suits source.now.program.now class is_listed_direct earlier.now entry }
{
    is_method_of(source.program, class, entry.number)
        && (agree(is_direct(source, entry), is_listed_direct)
            && (agree(entry.code == 0, lacks_code(entry.flags))
                && place_of(earlier, entry.number).is_none()))
}

/// The field at `at`, which fits its class and its list, and the place behind it.
#[tactic(auto, unfolding(crate::specs::ClassData::field_at))]
fn field_of(
    source: &Source,
    owner: Owner,
    is_listed_static: bool,
    earlier: &[Listed],
    place: u32,
    at: usize,
    before: u32,
) -> Result<(Listed, usize), DexFault>
    requires { Ascends earlier.now }
    ensures gives { Gives is_free (λ r. (r.0, (r.1, r.0.number))) result (field_at source.now.bytes.now source.now.program.now owner is_listed_static earlier.now place (at, before)) }
    ensures inside { IfOk result (λ r. r.1 ≤ length source.now.bytes.now) }
    ensures counts { IfErr result CountsInFile }
{
    let (entry, next) = field_entry(source.bytes, source.sizes.fields, place, at, before)?;
    if field_suits(source, owner.kind, is_listed_static, earlier, entry) {
        Ok((entry, next))
    } else {
        Err(DexFault::Member {
            class: owner.place,
            place,
        })
    }
}

/// The method at `at`, which fits its class and its list, and the place behind it.
#[tactic(auto, unfolding(crate::specs::ClassData::method_at))]
fn method_of(
    source: &Source,
    owner: Owner,
    is_listed_direct: bool,
    earlier: &[Listed],
    place: u32,
    at: usize,
    before: u32,
) -> Result<(Listed, usize), DexFault>
    requires { Ascends earlier.now }
    ensures gives { Gives is_free (λ r. (r.0, (r.1, r.0.number))) result (method_at source.now.bytes.now source.now.program.now owner is_listed_direct earlier.now place (at, before)) }
    ensures inside { IfOk result (λ r. r.1 ≤ length source.now.bytes.now) }
    ensures counts { IfErr result CountsInFile }
{
    let (entry, next) = method_entry(source.bytes, source.sizes.methods, place, at, before)?;
    if method_suits(source, owner.kind, is_listed_direct, earlier, entry) {
        Ok((entry, next))
    } else {
        Err(DexFault::Member {
            class: owner.place,
            place,
        })
    }
}

/// One list of members, the place behind it, and the last number.
#[derive(Drop)]
struct MemberList {
    entries: Vec<Listed>,
    next: usize,
    last: u32,
}

/// So many fields from `at` on, and the place behind them. `earlier` is the list of the class's fields before this one.
fn fields_of(
    alloc: Global,
    source: &Source,
    owner: Owner,
    is_listed_static: bool,
    earlier: &[Listed],
    count: u32,
    at: usize,
) -> Result<MemberList, DexFault>
    requires inside { at ≤ length source.now.bytes.now }
    requires ascends { Ascends earlier.now }
    ensures gives { Gives is_free (λ r. (r.entries.items, (r.next, r.last))) result (fields_at source.now.bytes.now source.now.program.now owner is_listed_static earlier.now count at) }
    ensures inside { IfOk result (λ r. r.next ≤ length source.now.bytes.now) }
    ensures counts { IfErr result CountsInFile }
{
    let mut entries = Vec::new(alloc);
    let mut next = at;
    let mut last = 0;
    for place in 0..count {
        let (entry, behind) = field_of(
            source,
            owner,
            is_listed_static,
            earlier,
            place,
            next,
            last,
        )?;
        entries.push(entry)?;
        last = entry.number;
        next = behind;
    }
    Ok(MemberList {
        entries,
        next,
        last,
    })
}

/// So many methods from `at` on, and the place behind them. `earlier` is the list of the class's methods before this
/// one.
fn methods_of(
    alloc: Global,
    source: &Source,
    owner: Owner,
    is_listed_direct: bool,
    earlier: &[Listed],
    count: u32,
    at: usize,
) -> Result<MemberList, DexFault>
    requires inside { at ≤ length source.now.bytes.now }
    requires ascends { Ascends earlier.now }
    ensures gives { Gives is_free (λ r. (r.entries.items, (r.next, r.last))) result (methods_at source.now.bytes.now source.now.program.now owner is_listed_direct earlier.now count at) }
    ensures inside { IfOk result (λ r. r.next ≤ length source.now.bytes.now) }
    ensures counts { IfErr result CountsInFile }
{
    let mut entries = Vec::new(alloc);
    let mut next = at;
    let mut last = 0;
    for place in 0..count {
        let (entry, behind) = method_of(
            source,
            owner,
            is_listed_direct,
            earlier,
            place,
            next,
            last,
        )?;
        entries.push(entry)?;
        last = entry.number;
        next = behind;
    }
    Ok(MemberList {
        entries,
        next,
        last,
    })
}

/// The members of four lists.
fn members_of(
    statics: MemberList,
    instances: MemberList,
    directs: MemberList,
    virtuals: MemberList,
) -> Members
    ensures statics { result.statics ≡ statics.entries.items }
    ensures instances { result.instances ≡ instances.entries.items }
    ensures directs { result.directs ≡ directs.entries.items }
    ensures virtuals { result.virtuals ≡ virtuals.entries.items }
{
    Members {
        statics: Seq::of_vec(statics.entries),
        instances: Seq::of_vec(instances.entries),
        directs: Seq::of_vec(directs.entries),
        virtuals: Seq::of_vec(virtuals.entries),
    }
}

/// The members of the class whose class data stands at `at`.
#[tactic(auto, using(crate::proofs::Rising::fields_ascend, crate::proofs::Rising::methods_ascend, crate::proofs::Rising::none_ascends), unfolding(crate::specs::ClassData::members_at))]
pub fn read_members(
    alloc: Global,
    source: &Source,
    owner: Owner,
    at: usize,
) -> Result<Members, DexFault>
    ensures gives { Gives is_free (λ m. m) result (members_at source.now.bytes.now source.now.program.now owner at) }
    ensures ascend { IfOk result AllAscend }
    ensures counts { IfErr result CountsInFile }
{
    let bytes = source.bytes;
    let (static_count, next) = number_of(bytes, at)?;
    let (instance_count, next) = number_of(bytes, next)?;
    let (direct_count, next) = number_of(bytes, next)?;
    let (virtual_count, next) = number_of(bytes, next)?;
    let statics = fields_of(alloc, source, owner, true, &[], static_count, next)?;
    let instances = fields_of(
        alloc,
        source,
        owner,
        false,
        &statics.entries,
        instance_count,
        statics.next,
    )?;
    let directs = methods_of(
        alloc,
        source,
        owner,
        true,
        &[],
        direct_count,
        instances.next,
    )?;
    let virtuals = methods_of(
        alloc,
        source,
        owner,
        false,
        &directs.entries,
        virtual_count,
        directs.next,
    )?;
    Ok(members_of(statics, instances, directs, virtuals))
}
