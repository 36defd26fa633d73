//! The table of rules some of which have a condition.

ghost use Rattle.std.specs.Prelude.{◌≡◌, ◌<◌, ◌≤◌, ◌+◌, ◌^◌, ◌&&◌, Contains, List, [], true, false, not, length, replicate, set, IfOk, OnOk};
ghost use Rattle.hierarchy.specs.Shapes.{IsResolved};
ghost use Rattle.program_model.specs.ProgramRules.{is_well_formed};
ghost use Rattle.rule_text.specs.Related.{AreEach};
ghost use Rattle.if_text.specs.Items.{IfRule as Meant, Item, plain_of, ifs_of};
ghost use Rattle.if_text.specs.Readings.{AreRead, IsIfOf};
ghost use Rattle.if_rules.specs.Added.{AddsBy, AddsRound, AddsText, holds, left_of};
ghost use Rattle.if_rules.specs.Fired.{IsSettled, IsTableOf};
ghost use Rattle.if_rules.specs.Listed.{AreInstances, IsInstance};
ghost use Rattle.if_rules.specs.declared.instances.Instance.{Instance as Given};

use crate::instances::{Instance, instances_of};
use crate::live::holds;
use call_graph::{LiveSet, live_members};
use hierarchy::Hierarchy;
use if_text::{IfRule, IfRules};
use keep_rules::outside_of as table_of;
use program_model::{Outside, Program};
use rule_text::{Entry, RuleFault, Rules, read_rules};
use std::alloc::{AllocError, Global};

/// More bytes than a text may have.
const TOO_LONG: usize = 4_294_967_296;

/// The rules that the text of an instance spells, none where it spells none. A text too long to be read counts as want of memory.
#[tactic(auto, using(crate::proofs::Rounds::spells_read, crate::proofs::Rounds::spells_none))]
fn spelled(alloc: Global, text: &[u8]) -> Result<Vec<Entry>, AllocError>
    ensures { IfOk result (λ rules. AddsText text.now [] rules.items) }
{
    if text.len() >= TOO_LONG {
        return Err(AllocError);
    }
    match read_rules(alloc, text) {
        Ok(rules) => Ok(rules.entries),
        Err(RuleFault::NoMemory) => Err(AllocError),
        Err(_) => Ok(Vec::new(alloc)),
    }
}

/// Adds the rules of an instance.
#[tactic(auto, using(crate::proofs::Rounds::adds_behind))]
fn add(alloc: Global, instance: &Instance, entries: &mut Vec<Entry>) -> Result<(), AllocError>
    ensures { OnOk result (AddsText instance.now.text.items entries.old.items entries.new.items) }
{
    let mut rules = spelled(alloc, instance.text.as_slice())?;
    entries.append(&mut rules)?;
    Ok(())
}

/// Adds the rules of an instance that holds and wasn't added, and answers whether it did.
fn add_one(
    alloc: Global,
    instance: &Instance,
    added: bool,
    rules: &[IfRule],
    program: &Program,
    live: &LiveSet,
    entries: &mut Vec<Entry>,
    row: &mut Vec<bool>,
) -> Result<bool, AllocError>
    ensures tells { (rs : List Meant) → is_well_formed program.now ≡ true → AreEach IsIfOf rules.now rs → IfOk result (λ one. one ≡ (not added && holds program.now live.now rs instance.now)) }
    ensures fresh { IfOk result (λ one. one ≡ true → added ≡ false) }
    ensures adds { IfOk result (λ one. one ≡ true → AddsText instance.now.text.items entries.old.items entries.new.items) }
    ensures stays { IfOk result (λ one. one ≡ false → entries.new.items ≡ entries.old.items) }
{
    if added {
        return Ok(false);
    }
    let there = holds(rules, instance, program, live, row)?;
    if !there {
        return Ok(false);
    }
    add(alloc, instance, entries)?;
    Ok(true)
}

/// Notes that the instance at a place was added, if it was, and answers how many were.
fn note(added: &mut [bool], place: usize, one: bool) -> usize
    requires { place < length added.old }
    ensures size { length added.new ≡ length added.old }
    ensures few { result ≤ 1 }
    ensures on { one ≡ true → added.new ≡ set added.old place true }
    ensures counts { one ≡ true → result ≡ 1 }
    ensures off { one ≡ false → added.new ≡ added.old }
    ensures none { one ≡ false → result ≡ 0 }
{
    if one {
        added[place] = true;
        return 1;
    }
    0
}

/// Adds the rules of each instance that holds and wasn't added, and answers how many there were.
fn add_each(
    alloc: Global,
    instances: &[Instance],
    added: &mut [bool],
    rules: &[IfRule],
    program: &Program,
    live: &LiveSet,
    entries: &mut Vec<Entry>,
) -> Result<usize, AllocError>
    requires { length added.old ≡ length instances.now }
    ensures size { length added.new ≡ length added.old }
    ensures counts { IfOk result (λ count. count + left_of added.new ≡ left_of added.old) }
    ensures adds { (rs : List Meant) → is_well_formed program.now ≡ true → AreEach IsIfOf rules.now rs → ((i : Given) → Contains instances.now i → IsInstance program.now rs i)
        → IfOk result (λ count. AddsRound program.now live.now rs instances.now (length instances.now) count added.old added.new entries.old.items entries.new.items) }
{
    let mut count: usize = 0;
    let mut row = Vec::new(alloc);
    for place in 0..instances.len() {
        let before = added[place];
        let one = add_one(
            alloc,
            &instances[place],
            before,
            rules,
            program,
            live,
            entries,
            &mut row,
        )?;
        count += note(added, place, one);
    }
    Ok(count)
}

/// No instance was added.
fn none_added(alloc: Global, count: usize) -> Result<Vec<bool>, AllocError>
    ensures { IfOk result (λ added. added.items ≡ replicate count false) }
{
    let mut added = Vec::new(alloc);
    added.resize(count, false)?;
    Ok(added)
}

/// Adds the rules of the instances that hold by a table, and answers how many there were.
fn add_by(
    alloc: Global,
    instances: &[Instance],
    added: &mut [bool],
    rules: &mut IfRules,
    program: &Program,
    hierarchy: &Hierarchy,
    table: &Outside,
) -> Result<usize, AllocError>
    requires { length added.old ≡ length instances.now }
    ensures size { length added.new ≡ length added.old }
    ensures counts { IfOk result (λ count. count + left_of added.new ≡ left_of added.old) }
    ensures ifs { rules.new.ifs.items ≡ rules.old.ifs.items }
    ensures adds { (rs : List Meant) → is_well_formed program.now ≡ true → IsResolved program.now hierarchy.now → AreEach IsIfOf rules.old.ifs.items rs
        → ((i : Given) → Contains instances.now i → IsInstance program.now rs i)
        → IfOk result (AddsBy program.now table.now rs instances.now added.old added.new rules.old.plain.entries.items rules.new.plain.entries.items) }
{
    let live = live_members(alloc, program, hierarchy, table)?;
    add_each(
        alloc,
        instances,
        added,
        rules.ifs.as_slice(),
        program,
        &live,
        &mut rules.plain.entries,
    )
}

/// The table behind which no instance holds that wasn't added.
fn settle(
    alloc: Global,
    instances: &[Instance],
    rules: &mut IfRules,
    program: &Program,
    hierarchy: &Hierarchy,
) -> Result<Outside, AllocError>
    requires types { length program.now.types < 2 ^ 32 }
    requires fields { length program.now.fields < 2 ^ 32 }
    requires methods { length program.now.methods < 2 ^ 32 }
    requires classes { length program.now.classes < 2 ^ 32 }
    ensures { (items : List Item) → is_well_formed program.now ≡ true → IsResolved program.now hierarchy.now → AreRead items rules.old → AreInstances program.now (ifs_of items) instances.now
        → IfOk result (IsSettled program.now (plain_of items) (ifs_of items)) }
{
    let mut added = none_added(alloc, instances.len())?;
    let mut left = instances.len();
    loop {
        let table = table_of(alloc, &rules.plain, program, hierarchy)?;
        let count = add_by(
            alloc,
            instances,
            added.as_mut_slice(),
            rules,
            program,
            hierarchy,
            &table,
        )?;
        let done = count == 0;
        if done {
            return Ok(table);
        }
        left -= count;
    }
}

/// What the rules keep of the program, by number: the table of the rules without a condition, and of the instances of those with one that hold
/// where something is live by such a table. Without a rule that has a condition it is the table of the rules. Where it is answered, the rules
/// of the instances stand behind those without a condition. The only error is want of memory.
pub fn outside_of(
    alloc: Global,
    rules: &mut IfRules,
    program: &Program,
    hierarchy: &Hierarchy,
) -> Result<Outside, AllocError>
    requires types { length program.now.types < 2 ^ 32 }
    requires fields { length program.now.fields < 2 ^ 32 }
    requires methods { length program.now.methods < 2 ^ 32 }
    requires classes { length program.now.classes < 2 ^ 32 }
    ensures { (items : List Item) → is_well_formed program.now ≡ true → IsResolved program.now hierarchy.now → AreRead items rules.old → IfOk result (IsTableOf program.now items) }
{
    let count = rules.ifs.as_slice().len();
    let bare = count == 0;
    if bare {
        return table_of(alloc, &rules.plain, program, hierarchy);
    }
    let instances = instances_of(alloc, rules.ifs.as_slice(), program, hierarchy)?;
    settle(alloc, instances.as_slice(), rules, program, hierarchy)
}
