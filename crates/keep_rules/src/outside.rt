//! What the rules keep of a program.

ghost use Rattle.std.specs.Prelude.{◌≡◌, ◌<◌, ◌^◌, ◌&&◌, ℕ, List, [], true, length, nat_eq, nat_lt, IfOk, OnOk, All};
ghost use Rattle.std.specs.List.{list_any};
ghost use Rattle.program_model.specs.ProgramRules.{is_well_formed};
ghost use Rattle.hierarchy.specs.Shapes.{IsOf};
ghost use Rattle.rule_text.specs.Rules as meant;
ghost use Rattle.rule_text.specs.Related.{AreEach, AreEntriesOf, IsEntryOf, IsAssumeOf};
ghost use Rattle.rule_text.specs.Spelling.{word_eq, setting_word};
ghost use Rattle.rule_defs.specs.Kept.{is_setting};
ghost use Rattle.keep_rules.specs.Outside.{IsWithin};
ghost use Rattle.keep_rules.specs.Table.{has_pair, IsTable};
ghost use Rattle.keep_rules.specs.Grown.{GrewAll, all_marks};
ghost use Rattle.keep_rules.specs.Described.{has_both};
ghost use Rattle.keep_rules.specs.Entries.{setting_of, entry_marks, AddsPair, IsMarked, IsListed, HasFlags};
ghost use Rattle.keep_rules.specs.View.{IsReady};

use crate::assume::silence_by;
use crate::describe::{described_pairs, keep_described};
use crate::keep::keep_by;
use crate::marks::{Marks, numbers};
use crate::tables::view_of;
use crate::view::View;
use hierarchy::Hierarchy;
use program_model::{ClassIf, Outside, Program};
use rule_text::{AssumeRule, Entry, Rules, SettingName};
use seq::Seq;
use std::alloc::{AllocError, Global};

/// What an option turns off.
#[derive(Clone, Copy)]
enum Switch {
    Shrink,
    Optimise,
}

/// Whether the pair is of these.
fn is_pair(pair: &ClassIf, class: u32, owner: u32) -> bool
    ensures { result ≡ (nat_eq pair.now.class class && nat_eq pair.now.owner owner) }
{
    pair.class == class && pair.owner == owner
}

/// Whether the last of the pairs is this one.
fn is_last(pairs: &[ClassIf], class: u32, owner: u32) -> bool
    ensures { result ≡ true → has_pair pairs.now class owner ≡ true }
{
    match pairs.last() {
        Some(pair) => is_pair(pair, class, owner),
        None => false,
    }
}

/// Whether both numbers are below the size.
fn are_below(class: u32, owner: u32, size: u32) -> bool
    ensures { result ≡ (nat_lt class size && nat_lt owner size) }
{
    class < size && owner < size
}

/// Adds a pair whose numbers are below the size, unless it is the last.
fn add_pair(class: u32, owner: u32, size: u32, pairs: &mut Seq<ClassIf>) -> Result<(), AllocError>
    ensures { OnOk result (AddsPair class owner size pairs.old pairs.new) }
{
    let below = are_below(class, owner, size);
    if !below {
        return Ok(());
    }
    let last = is_last(pairs.as_slice(), class, owner);
    if last {
        return Ok(());
    }
    pairs.push(ClassIf { class, owner })?;
    Ok(())
}

/// The pairs whose numbers are below the size; where the pairs are in order, each once.
fn conditional(alloc: Global, pairs: &[(u32, u32)], size: u32) -> Result<Seq<ClassIf>, AllocError>
    ensures classes { IfOk result (All (λ pair. pair.class < size)) }
    ensures owners { IfOk result (All (λ pair. pair.owner < size)) }
    ensures pairs { IfOk result (λ out. (n k : ℕ) → n < size → k < size → has_pair out n k ≡ has_both pairs.now n k) }
{
    let mut out = Seq::new(alloc);
    for (class, owner) in pairs {
        add_pair(*class, *owner, size, &mut out)?;
    }
    Ok(out)
}

/// Whether an option is the one that turns this off.
fn is_name(name: SettingName, wanted: Switch) -> bool
    ensures { result ≡ word_eq (setting_word name) (setting_word (setting_of wanted)) }
{
    match wanted {
        Switch::Shrink => matches!(name, SettingName::DontShrink),
        Switch::Optimise => matches!(name, SettingName::DontOptimize),
    }
}

/// Whether an entry is the option that turns this off.
fn turns_off(entry: &Entry, wanted: Switch) -> bool
    ensures { (e : meant.Entry) → IsEntryOf entry.now e → result ≡ is_setting (setting_of wanted) e }
{
    match entry {
        Entry::Setting(setting) => is_name(setting.name, wanted),
        Entry::Keep(_) => false,
        Entry::Assume(_) => false,
    }
}

/// Whether some option turns this off.
fn is_off(entries: &[Entry], wanted: Switch) -> bool
    ensures { (es : List meant.Entry) → AreEach IsEntryOf entries.now es → result ≡ list_any (is_setting (setting_of wanted)) es }
{
    for entry in entries {
        let off = turns_off(entry, wanted);
        if off {
            return true;
        }
    }
    false
}

/// Marks the methods that a rule assumes to do nothing.
fn mark_silent(
    alloc: Global,
    rule: &AssumeRule,
    view: &View<'_>,
    marks: &mut Marks,
    row: &mut Vec<bool>,
) -> Result<(), AllocError>
    ensures { (a : meant.AssumeRule) → IsReady view.now → IsAssumeOf rule.now a → OnOk result (GrewAll (entry_marks view.now.program.now (meant.Assume a)) marks.old marks.new) }
{
    silence_by(alloc, rule, view, &mut marks.silent, row)?;
    Ok(())
}

/// Marks what an entry keeps, or which methods it assumes to do nothing.
fn mark_entry(
    alloc: Global,
    entry: &Entry,
    view: &View<'_>,
    marks: &mut Marks,
    row: &mut Vec<bool>,
) -> Result<(), AllocError>
    ensures { (e : meant.Entry) → IsReady view.now → IsEntryOf entry.now e → OnOk result (GrewAll (entry_marks view.now.program.now e) marks.old marks.new) }
{
    match entry {
        Entry::Setting(_) => Ok(()),
        Entry::Keep(rule) => {
            keep_by(alloc, rule, view, marks, row)?;
            Ok(())
        }
        Entry::Assume(rule) => {
            mark_silent(alloc, rule, view, marks, row)?;
            Ok(())
        }
    }
}

/// Marks what each entry keeps or assumes.
fn mark_entries(
    alloc: Global,
    entries: &[Entry],
    view: &View<'_>,
    marks: &mut Marks,
    row: &mut Vec<bool>,
) -> Result<(), AllocError>
    ensures { (es : List meant.Entry) → IsReady view.now → AreEach IsEntryOf entries.now es → OnOk result (GrewAll (all_marks view.now.program.now es) marks.old marks.new) }
{
    for entry in entries {
        mark_entry(alloc, entry, view, marks, row)?;
    }
    Ok(())
}

/// Marks what all rules keep.
fn mark_all(alloc: Global, rules: &Rules, view: &View<'_>) -> Result<Marks, AllocError>
    ensures { (es : List meant.Entry) → IsReady view.now → AreEntriesOf rules.now.entries.items es → IfOk result (IsMarked view.now.program.now es) }
{
    let mut marks = Marks::new(alloc, view.program)?;
    let mut row = Vec::new(alloc);
    mark_entries(alloc, rules.entries.as_slice(), view, &mut marks, &mut row)?;
    keep_described(
        alloc,
        view,
        marks.fields.described.as_slice(),
        marks.methods.described.as_slice(),
        &mut marks.classes,
    )?;
    Ok(marks)
}

/// The lists of what is marked.
fn listed(
    alloc: Global,
    rules: &Rules,
    program: &Program,
    marks: &Marks,
    pairs: &[(u32, u32)],
) -> Result<Outside, AllocError>
    requires types { length program.now.types < 2 ^ 32 }
    requires fields { length program.now.fields < 2 ^ 32 }
    requires methods { length program.now.methods < 2 ^ 32 }
    ensures within { IfOk result (IsWithin program.now) }
    ensures shut { IfOk result (λ outside. outside.shut ≡ []) }
    ensures lists { IfOk result (IsListed program.now marks.now pairs.now) }
    ensures flags { (es : List meant.Entry) → AreEntriesOf rules.now.entries.items es → IfOk result (HasFlags es) }
{
    let types = program.types.len() as u32;
    let fields = program.fields.len() as u32;
    let methods = program.methods.len() as u32;
    Ok(Outside {
        classes: numbers(alloc, marks.classes.as_slice(), types)?,
        methods: numbers(alloc, marks.methods.kept.as_slice(), methods)?,
        fields: numbers(alloc, marks.fields.kept.as_slice(), fields)?,
        methods_if: numbers(alloc, marks.methods.live.as_slice(), methods)?,
        fields_if: numbers(alloc, marks.fields.live.as_slice(), fields)?,
        classes_if: conditional(alloc, pairs, types)?,
        shrink: !is_off(rules.entries.as_slice(), Switch::Shrink),
        optimise: !is_off(rules.entries.as_slice(), Switch::Optimise),
        silent: numbers(alloc, marks.silent.as_slice(), methods)?,
        shut: Seq::new(alloc),
    })
}

/// What the rules keep of the program, by number, with the members and classes that are kept where a class is live
/// apart: the table that the rules mean, where the program is well-formed and the hierarchy its own. The list of shut
/// methods is empty. The only error is want of memory.
pub fn outside_of(
    alloc: Global,
    rules: &Rules,
    program: &Program,
    hierarchy: &Hierarchy,
) -> Result<Outside, AllocError>
    requires types { length program.now.types < 2 ^ 32 }
    requires fields { length program.now.fields < 2 ^ 32 }
    requires methods { length program.now.methods < 2 ^ 32 }
    requires classes { length program.now.classes < 2 ^ 32 }
    ensures within { IfOk result (IsWithin program.now) }
    ensures shut { IfOk result (λ outside. outside.shut ≡ []) }
    ensures table { (es : List meant.Entry) → is_well_formed program.now ≡ true → IsOf program.now hierarchy.now → AreEntriesOf rules.now.entries.items es
        → IfOk result (IsTable program.now es) }
{
    let view = view_of(alloc, program, hierarchy)?;
    let marks = mark_all(alloc, rules, &view)?;
    let pairs = described_pairs(
        alloc,
        &view,
        marks.fields.described_live.as_slice(),
        marks.methods.described_live.as_slice(),
    )?;
    let outside = listed(alloc, rules, program, &marks, pairs.as_slice())?;
    Ok(outside)
}
