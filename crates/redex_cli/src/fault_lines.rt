//! The line that is said for each status that is not `Done`.

ghost use Rattle.std.specs.Prelude.{◌≡◌, IfOk, string_bytes};
ghost use Rattle.redex_cli.specs.FaultLines.{number_line, counted_name, limit_text, no_memory_text, rule_line, rule_text, table_name, index_line, order_line, pool_text, code_words, code_number, code_line, sum_text, sums_line, member_line, dex_text, twice_line, split_line, hierarchy_text, typing_line, typing_text, input_text, status_text};

use crate::status::{InputFault, Status};
use code_read::CodeFault;
use command_line::USAGE;
use dex_pools::{PoolFault, Table};
use dex_read::DexFault;
use hierarchy::HierarchyFault;
use if_rules::RuleFault;
use program_model::{Counted, LimitFault};
use std::alloc::{AllocError, Global};
use verify::TypeFault;

/// A line of two texts and a number.
fn numbered(alloc: Global, opening: &str, words: &str, number: u64) -> Result<String, AllocError>
    ensures { IfOk result (λ text. string_bytes text ≡ number_line opening.now words.now number) }
{
    format!(in alloc; "{opening}: {words} {number}\n")
}

/// The line for want of memory.
fn no_memory_line(alloc: Global) -> Result<String, AllocError>
    ensures { IfOk result (λ text. string_bytes text ≡ no_memory_text) }
{
    String::from_str(alloc, "no memory\n")
}

/// The line of a fault of the rules at a line of their text.
fn rule_at(alloc: Global, line: u32, words: &str) -> Result<String, AllocError>
    ensures { IfOk result (λ text. string_bytes text ≡ rule_line line words.now) }
{
    format!(in alloc; "bad rules: line {line}: {words}\n")
}

/// The line of rules that are no text from a byte on.
fn rule_byte(alloc: Global, at: usize) -> Result<String, AllocError>
    ensures { IfOk result (λ text. string_bytes text ≡ rule_text (RuleFault.NotUtf8 at)) }
{
    format!(in alloc; "bad rules: byte {at}: not utf-8\n")
}

/// A rule file's fault.
fn rule_line(alloc: Global, fault: RuleFault) -> Result<String, AllocError>
    ensures { IfOk result (λ text. string_bytes text ≡ rule_text fault) }
{
    match fault {
        RuleFault::NoMemory => no_memory_line(alloc),
        RuleFault::Syntax { line } => rule_at(alloc, line, "syntax"),
        RuleFault::Option { line } => rule_at(alloc, line, "option"),
        RuleFault::NotUtf8 { at } => rule_byte(alloc, at),
        RuleFault::TooMany { count } => numbered(alloc, "bad rules", "too many:", u64::from(count)),
    }
}

/// A table's name.
fn table_name(table: Table) -> &'static str
    ensures { result.now ≡ table_name table }
{
    match table {
        Table::Strings => "strings",
        Table::Types => "types",
        Table::Protos => "protos",
        Table::Fields => "fields",
        Table::Methods => "methods",
        Table::Members => "members",
    }
}

/// What a limit counts.
fn counted_name(counted: Counted) -> &'static str
    ensures { result.now ≡ counted_name counted }
{
    match counted {
        Counted::RuleBytes => "rule bytes",
        Counted::FileBytes => "file bytes",
        Counted::ScriptBytes => "script bytes",
        Counted::Cells => "cells",
        Counted::Types => "types",
        Counted::Protos => "protos",
        Counted::Fields => "fields",
        Counted::Methods => "methods",
        Counted::TextUnits => "text units",
        Counted::Items => "items",
    }
}

/// A limit that is passed.
fn limit_line(alloc: Global, fault: LimitFault) -> Result<String, AllocError>
    ensures { IfOk result (λ text. string_bytes text ≡ limit_text fault) }
{
    numbered(alloc, "limit", counted_name(fault.counted), fault.number)
}

/// An index past its table.
fn index_line(
    alloc: Global,
    opening: &str,
    at: usize,
    value: u32,
    size: u32,
) -> Result<String, AllocError>
    ensures { IfOk result (λ text. string_bytes text ≡ index_line opening.now at value size) }
{
    format!(in alloc; "{opening}: index {value} of {size} at {at}\n")
}

/// An entry that is not above the one before it.
fn order_line(alloc: Global, opening: &str, table: Table, place: u32) -> Result<String, AllocError>
    ensures { IfOk result (λ text. string_bytes text ≡ order_line opening.now table place) }
{
    let name = table_name(table);
    format!(in alloc; "{opening}: order in {name} at {place}\n")
}

/// A fault of the tables, the values or the annotations of a file.
fn pool_line(alloc: Global, opening: &str, fault: &PoolFault) -> Result<String, AllocError>
    ensures { IfOk result (λ text. string_bytes text ≡ pool_text opening.now fault.now) }
{
    match fault {
        PoolFault::NoMemory => no_memory_line(alloc),
        PoolFault::Short { at } => numbered(alloc, opening, "short at", *at as u64),
        PoolFault::LongLeb { at } => numbered(alloc, opening, "long number at", *at as u64),
        PoolFault::BadText { at } => numbered(alloc, opening, "text at", *at as u64),
        PoolFault::BadDescriptor { at } => numbered(alloc, opening, "descriptor at", *at as u64),
        PoolFault::Index { at, value, size } => index_line(alloc, opening, *at, *value, *size),
        PoolFault::Order { table, place } => order_line(alloc, opening, *table, *place),
        PoolFault::BadValue { at } => numbered(alloc, opening, "value at", *at as u64),
        PoolFault::Deep { at } => numbered(alloc, opening, "depth at", *at as u64),
        PoolFault::Shorty { at } => numbered(alloc, opening, "shorty at", *at as u64),
        PoolFault::Limit(limit) => limit_line(alloc, *limit),
    }
}

/// The words and the number of a fault of code.
fn code_words(fault: &CodeFault) -> (&'static str, u32)
    ensures words { result.0.now ≡ code_words fault.now }
    ensures number { result.1 ≡ code_number fault.now }
{
    match fault {
        CodeFault::Opcode { unit } => ("opcode at", *unit),
        CodeFault::Cut { unit } => ("cut at", *unit),
        CodeFault::Target { unit } => ("target at", *unit),
        CodeFault::Payload { unit } => ("payload at", *unit),
        CodeFault::Operand { unit } => ("operand at", *unit),
        CodeFault::Region { place } => ("region", *place),
        CodeFault::Handler { place } => ("handler", *place),
        CodeFault::FallsOff { unit } => ("falls off at", *unit),
        CodeFault::Misplaced { unit } => ("misplaced at", *unit),
        CodeFault::NoMemory | CodeFault::Limit(_) => ("code", 0),
    }
}

/// The line of these words about a method's code.
fn code_line(
    alloc: Global,
    opening: &str,
    method: u32,
    words: &str,
    number: u32,
) -> Result<String, AllocError>
    ensures { IfOk result (λ text. string_bytes text ≡ code_line opening.now method words.now number) }
{
    format!(in alloc; "{opening}: method {method}: {words} {number}\n")
}

/// A fault of a method's code.
fn method_line(
    alloc: Global,
    opening: &str,
    method: u32,
    fault: &CodeFault,
) -> Result<String, AllocError>
    ensures { IfOk result (λ text. string_bytes text ≡ code_line opening.now method (code_words fault.now) (code_number fault.now)) }
{
    let (words, number) = code_words(fault);
    code_line(alloc, opening, method, words, number)
}

/// A checksum.
fn sum_text(alloc: Global, sum: u32) -> Result<String, AllocError>
    ensures { IfOk result (λ text. string_bytes text ≡ sum_text sum) }
{
    format!(in alloc; "{sum:08x}")
}

/// The line of two checksums.
fn sums_line(
    alloc: Global,
    opening: &str,
    stored: &str,
    computed: &str,
) -> Result<String, AllocError>
    ensures { IfOk result (λ text. string_bytes text ≡ sums_line opening.now stored.now computed.now) }
{
    format!(in alloc; "{opening}: checksum {stored}, computed {computed}\n")
}

/// A checksum that is not that of the bytes.
fn checksum_line(
    alloc: Global,
    opening: &str,
    stored: u32,
    computed: u32,
) -> Result<String, AllocError>
    ensures { IfOk result (λ text. string_bytes text ≡ sums_line opening.now (sum_text stored) (sum_text computed)) }
{
    let stored = sum_text(alloc, stored)?;
    let computed = sum_text(alloc, computed)?;
    sums_line(alloc, opening, stored.as_str(), computed.as_str())
}

/// A member that does not fit.
fn member_line(alloc: Global, opening: &str, class: u32, place: u32) -> Result<String, AllocError>
    ensures { IfOk result (λ text. string_bytes text ≡ member_line opening.now class place) }
{
    format!(in alloc; "{opening}: member {place} of class {class}\n")
}

/// A fault of a file or a library; the line begins with what is bad.
fn dex_line(alloc: Global, opening: &str, fault: &DexFault) -> Result<String, AllocError>
    ensures { IfOk result (λ text. string_bytes text ≡ dex_text opening.now fault.now) }
{
    match fault {
        DexFault::NoMemory => no_memory_line(alloc),
        DexFault::Short { at } => numbered(alloc, opening, "short at", *at as u64),
        DexFault::Magic => magic_line(alloc, opening),
        DexFault::Header { at } => numbered(alloc, opening, "header at", *at as u64),
        DexFault::Checksum { stored, computed } => checksum_line(
            alloc, opening, *stored, *computed,
        ),
        DexFault::Pool(fault) => pool_line(alloc, opening, fault),
        DexFault::Code { method, fault } => method_line(alloc, opening, *method, fault),
        DexFault::Member { class, place } => member_line(alloc, opening, *class, *place),
        DexFault::Root { class } => numbered(alloc, opening, "root class", u64::from(*class)),
        DexFault::FrameSize { method } => {
            numbered(alloc, opening, "frame of method", u64::from(*method))
        }
        DexFault::Limit(limit) => limit_line(alloc, *limit),
    }
}

/// A file of no version that is read.
fn magic_line(alloc: Global, opening: &str) -> Result<String, AllocError>
    ensures { IfOk result (λ text. string_bytes text ≡ dex_text opening.now DexFault.Magic) }
{
    format!(in alloc; "{opening}: magic\n")
}

/// A class that is defined twice.
fn twice_line(alloc: Global, class: u32) -> Result<String, AllocError>
    ensures { IfOk result (λ text. string_bytes text ≡ twice_line class) }
{
    format!(in alloc; "bad dex: class {class} twice\n")
}

/// A split override.
fn split_line(alloc: Global, class: u32, method: u32) -> Result<String, AllocError>
    ensures { IfOk result (λ text. string_bytes text ≡ split_line class method) }
{
    format!(in alloc; "bad dex: split override of method {method} in class {class}\n")
}

/// A fault of the graph of classes.
fn hierarchy_line(alloc: Global, fault: &HierarchyFault) -> Result<String, AllocError>
    ensures { IfOk result (λ text. string_bytes text ≡ hierarchy_text fault.now) }
{
    match fault {
        HierarchyFault::NoMemory => no_memory_line(alloc),
        HierarchyFault::Cycle { class } => {
            numbered(alloc, "bad dex", "cycle at class", u64::from(*class))
        }
        HierarchyFault::Twice { class } => twice_line(alloc, *class),
        HierarchyFault::SplitOverride { class, method } => split_line(alloc, *class, *method),
    }
}

/// A method without a typing.
fn typing_line(
    alloc: Global,
    method: u32,
    position: u32,
    register: u32,
) -> Result<String, AllocError>
    ensures { IfOk result (λ text. string_bytes text ≡ typing_line method position register) }
{
    format!(in alloc;
        "bad dex: method {method}: ill typed at position {position}, register {register}\n"
    )
}

/// A fault of the input.
fn input_line(alloc: Global, fault: &InputFault) -> Result<String, AllocError>
    ensures { IfOk result (λ text. string_bytes text ≡ input_text fault.now) }
{
    match fault {
        InputFault::Dex(fault) => dex_line(alloc, "bad dex", fault),
        InputFault::Hierarchy(fault) => hierarchy_line(alloc, fault),
        InputFault::Typing(TypeFault::NoMemory) => no_memory_line(alloc),
        InputFault::Typing(
            TypeFault::IllTyped {
                method,
                position,
                register,
            },
        ) => typing_line(alloc, *method, *position, *register),
        InputFault::Library(fault) => dex_line(alloc, "bad library", fault),
    }
}

/// The line of a script that is outside its grammar.
fn script_line(alloc: Global, line: u32) -> Result<String, AllocError>
    ensures { IfOk result (λ text. string_bytes text ≡ status_text (Status.BadScript line)) }
{
    numbered(alloc, "bad script", "line", u64::from(line))
}

/// The text that is said for a status: the usage text for `Usage`, none for `Done`.
pub fn status_line(alloc: Global, status: &Status) -> Result<String, AllocError>
    ensures { IfOk result (λ text. string_bytes text ≡ status_text status.now) }
{
    match status {
        Status::Done => Ok(String::new(alloc)),
        Status::Usage => String::from_str(alloc, USAGE),
        Status::BadRules(fault) => rule_line(alloc, *fault),
        Status::BadDex(fault) => input_line(alloc, fault),
        Status::Limit(fault) => limit_line(alloc, *fault),
        Status::ReadFault => String::from_str(alloc, "read fault\n"),
        Status::WriteFault => String::from_str(alloc, "write fault\n"),
        Status::NoMemory => no_memory_line(alloc),
        Status::BadScript(line) => script_line(alloc, *line),
    }
}
