//! Type lists, each different one once, in the order of first use (Dalvik executable format, "type_list").

ghost use Rattle.std.specs.Prelude.{◌≡◌, ◌+◌, ◌++◌, ◌∷◌, ◌%◌, [], length, map, replicate, IfOk, OnOk};
ghost use Rattle.std.specs.List.{flat_map};
ghost use Rattle.dex_pools.specs.Written.{renumbered};
ghost use Rattle.dex_write.specs.Numbers.{words, gap};
ghost use Rattle.dex_write.specs.Plans.{plan_in};
ghost use Rattle.dex_write.specs.declared.run.Kind.TheVariants.{TypeList};
ghost use Rattle.dex_write.specs.Lists.{lists_in, with_list, index_of, all_lists, indexes_of, proto_use, class_use, list_text, padded_text, lists_text, list_starts, list_at, used_offset, protos_use, classes_use, type_lists, lists_used, lists_at};

use crate::numbers::{at_place, behind, gap, push_words, push_zeros, up, word_of};
use crate::ordered::{Ordered, renumbered};
use crate::run::{Kind, Run};
use dex_base::write_u16;
use dex_pools::Interner;
use indexmap::IndexSet;
use program_model::Program;
use seq::Seq;
use std::alloc::{AllocError, Global};

/// The different lists so far.
type Known = IndexSet<Vec<u32>>;

/// The list in new numbers.
fn renumbered_list(alloc: Global, kinds: &[u32], types: &[u32]) -> Result<Vec<u32>, AllocError>
    ensures { IfOk result (λ v. v.items ≡ map (renumbered types.now) kinds.now) }
{
    let mut list = Vec::with_capacity(alloc, kinds.len())?;
    for kind in kinds {
        list.push(renumbered(types, *kind))?;
    }
    Ok(list)
}

/// Which of the known lists this one is, none for the empty one. A list that is not known yet becomes the last one.
fn know(known: &mut Known, list: Vec<u32>) -> Result<Option<usize>, AllocError>
    ensures lists { OnOk result (lists_in known.new.keys ≡ with_list (lists_in known.old.keys) list.items) }
    ensures index { IfOk result (λ index. index ≡ index_of (lists_in known.old.keys) list.items) }
{
    if list.as_slice().is_empty() {
        return Ok(None);
    }
    let (index, _) = known.insert_full(list)?;
    Ok(Some(index))
}

/// The parameters of a proto in new numbers.
fn proto_list(
    alloc: Global,
    program: &Program,
    old: u32,
    types: &[u32],
) -> Result<Vec<u32>, AllocError>
    ensures { IfOk result (λ v. v.items ≡ proto_use types.now program.now old) }
{
    match program.protos.items.get(old as usize) {
        Some(proto) => renumbered_list(alloc, proto.parameters.as_slice(), types),
        None => Ok(Vec::new(alloc)),
    }
}

/// The lists of the parameters of these protos: which of the known lists each is.
fn know_parameters(
    alloc: Global,
    program: &Program,
    protos: &[u32],
    types: &[u32],
    known: &mut Known,
) -> Result<Vec<Option<usize>>, AllocError>
    ensures lists { OnOk result (lists_in known.new.keys ≡ all_lists (lists_in known.old.keys) (map (proto_use types.now program.now) protos.now)) }
    ensures uses { IfOk result (λ v. v.items ≡ indexes_of (lists_in known.old.keys) (map (proto_use types.now program.now) protos.now)) }
{
    let mut uses = Vec::with_capacity(alloc, protos.len())?;
    for old in protos {
        let list = proto_list(alloc, program, *old, types)?;
        uses.push(know(known, list)?)?;
    }
    Ok(uses)
}

/// The interfaces of a class in new numbers.
fn class_list(alloc: Global, ordered: &Ordered, types: &[u32]) -> Result<Vec<u32>, AllocError>
    ensures { IfOk result (λ v. v.items ≡ class_use types.now (plan_in ordered.now)) }
{
    renumbered_list(alloc, ordered.class.interfaces.as_slice(), types)
}

/// The lists of the interfaces of the classes: which of the known lists each is.
fn know_interfaces(
    alloc: Global,
    order: &[Ordered],
    types: &[u32],
    known: &mut Known,
) -> Result<Vec<Option<usize>>, AllocError>
    ensures lists { OnOk result (lists_in known.new.keys ≡ all_lists (lists_in known.old.keys) (map (class_use types.now) (map plan_in order.now))) }
    ensures uses { IfOk result (λ v. v.items ≡ indexes_of (lists_in known.old.keys) (map (class_use types.now) (map plan_in order.now))) }
{
    let mut uses = Vec::with_capacity(alloc, order.len())?;
    for ordered in order {
        let list = class_list(alloc, ordered, types)?;
        uses.push(know(known, list)?)?;
    }
    Ok(uses)
}

/// Adds the size and the entries of a list.
fn push_list(out: &mut Vec<u8>, list: &[u32]) -> Result<(), AllocError>
    ensures { OnOk result (out.new.items ≡ out.old.items ++ list_text list.now) }
{
    push_words(out, &[word_of(list.len())?])?;
    for kind in list {
        write_u16(out, (*kind % 0x1_0000) as u16)?;
    }
    Ok(())
}

/// The bytes of type lists, and where each begins.
#[derive(Drop)]
struct ListBytes {
    bytes: Seq<u8>,
    starts: Seq<u32>,
}

/// Adds a list at the next multiple of four behind `at`.
fn push_padded(out: &mut Vec<u8>, at: u32, list: &[u32]) -> Result<(), AllocError>
    ensures { OnOk result (out.new.items ≡ out.old.items ++ padded_text at list.now) }
{
    push_zeros(out, gap(at))?;
    push_list(out, list)
}

/// Adds the known list of a number, where the lists stand from `base` on.
fn push_known(
    out: &mut Vec<u8>,
    starts: &mut Vec<u32>,
    base: u32,
    known: &Known,
    index: usize,
) -> Result<(), AllocError>
    ensures bytes { OnOk result (out.new.items ≡ out.old.items ++ lists_text (base + length out.old.items) (list_at (lists_in known.now.keys) index)) }
    ensures starts { OnOk result (starts.new.items ≡ starts.old.items ++ list_starts (base + length out.old.items) (list_at (lists_in known.now.keys) index)) }
{
    let Some(list) = known.get_index(index) else {
        return Ok(());
    };
    let at = behind(base, out.len())?;
    starts.push(up(at)?)?;
    push_padded(out, at, list.as_slice())
}

/// The known lists at multiples of four, the first from `base` on.
fn list_bytes(alloc: Global, known: &Known, base: u32) -> Result<ListBytes, AllocError>
    ensures bytes { IfOk result (λ lists. lists.bytes ≡ lists_text base (lists_in known.now.keys)) }
    ensures starts { IfOk result (λ lists. lists.starts ≡ list_starts base (lists_in known.now.keys)) }
{
    let mut bytes = Vec::new(alloc);
    let mut starts = Vec::with_capacity(alloc, known.len())?;
    for index in 0..known.len() {
        push_known(&mut bytes, &mut starts, base, known, index)?;
    }
    Ok(ListBytes {
        bytes: Seq::of_vec(bytes),
        starts: Seq::of_vec(starts),
    })
}

/// The offset of a list that is used, 0 for the empty one.
fn used_offset(starts: &[u32], index: Option<usize>) -> u32
    ensures { result ≡ used_offset starts.now index }
{
    match index {
        Some(index) => at_place(starts, index),
        None => 0,
    }
}

/// The offsets of the lists that are used.
fn used_offsets(
    alloc: Global,
    starts: &[u32],
    uses: &[Option<usize>],
) -> Result<Vec<u32>, AllocError>
    ensures { IfOk result (λ v. v.items ≡ map (used_offset starts.now) uses.now) }
{
    let mut offsets = Vec::with_capacity(alloc, uses.len())?;
    for index in uses {
        offsets.push(used_offset(starts, *index))?;
    }
    Ok(offsets)
}

/// The run of type lists, and the offsets of those of the protos and of the classes, 0 for an empty one.
#[derive(Drop)]
pub struct Lists {
    pub run: Run,
    pub parameters: Seq<u32>,
    pub interfaces: Seq<u32>,
}

/// The different lists, and which of them the protos that are used and the classes have, none for the empty one.
#[derive(Drop)]
struct Uses {
    known: Known,
    parameters: Vec<Option<usize>>,
    interfaces: Vec<Option<usize>>,
}

/// The lists of the protos that are used, in their order, and then of the classes.
#[tactic(auto, unfolding(crate::specs::Lists::type_lists))]
fn uses_of(
    alloc: Global,
    program: &Program,
    interner: &Interner,
    order: &[Ordered],
) -> Result<Uses, AllocError>
    ensures known { IfOk result (λ uses. lists_in uses.known.keys ≡ type_lists program.now interner.now (map plan_in order.now)) }
    ensures parameters { IfOk result (λ uses. uses.parameters.items ≡ indexes_of [] (protos_use program.now interner.now)) }
    ensures interfaces { IfOk result (λ uses. uses.interfaces.items ≡ indexes_of (all_lists [] (protos_use program.now interner.now)) (classes_use interner.now (map plan_in order.now))) }
{
    let types = interner.numbers().types.as_slice();
    let protos = interner.order().protos.as_slice();
    let mut known = IndexSet::new(alloc);
    let parameters = know_parameters(alloc, program, protos, types, &mut known)?;
    let interfaces = know_interfaces(alloc, order, types, &mut known)?;
    Ok(Uses {
        known,
        parameters,
        interfaces,
    })
}

/// The run of these lists from `at` on.
fn list_run(at: u32, lists: ListBytes) -> Result<Run, AllocError>
    ensures { IfOk result (λ run. run ≡ record { kind = TypeList; count = length lists.starts; at = at; bytes = lists.bytes }) }
{
    Ok(Run {
        kind: Kind::TypeList,
        count: word_of(lists.starts.len())?,
        at,
        bytes: lists.bytes,
    })
}

/// The run of the known lists, the first from `at` on, and the offsets of those that are used.
fn lists_used(alloc: Global, uses: &Uses, at: u32) -> Result<Lists, AllocError>
    ensures { IfOk result (λ lists. lists ≡ lists_used (lists_in uses.now.known.keys) uses.now.parameters.items uses.now.interfaces.items at) }
{
    let lists = list_bytes(alloc, &uses.known, at)?;
    let parameters = used_offsets(alloc, lists.starts.as_slice(), uses.parameters.as_slice())?;
    let interfaces = used_offsets(alloc, lists.starts.as_slice(), uses.interfaces.as_slice())?;
    Ok(Lists {
        run: list_run(at, lists)?,
        parameters: Seq::of_vec(parameters),
        interfaces: Seq::of_vec(interfaces),
    })
}

/// The type lists of the protos that are used and of the classes, the first from `at` on.
#[tactic(auto, unfolding(crate::specs::Lists::lists_at))]
pub fn lists_at(
    alloc: Global,
    program: &Program,
    interner: &Interner,
    order: &[Ordered],
    at: u32,
) -> Result<Lists, AllocError>
    ensures { IfOk result (λ lists. lists ≡ lists_at program.now interner.now (map plan_in order.now) at) }
{
    let uses = uses_of(alloc, program, interner, order)?;
    lists_used(alloc, &uses, at)
}
