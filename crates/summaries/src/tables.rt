//! What the search found, as tables by number.

ghost use Rattle.std.specs.Prelude.{◌≡◌, IfOk};
ghost use Rattle.domains.specs.Values.{any_value};

use crate::cells::Cell;
use crate::codes::Code;
use crate::pools::Pool;
use crate::rows::{behind, is_on};
use crate::spread::Spread;
use crate::starts::starts_of;
use domains::Value;
use facts::Facts;
use facts_check::{Marks, Pools, Start};
use pat_map::PatMap;
use program_model::{Class, Method, Program};
use seq::Seq;
use std::alloc::{AllocError, Global};

/// What each method number may return: nothing where a method has code, anything where it has none.
fn first_results(alloc: Global, program: &Program) -> Result<Vec<Value>, AllocError> {
    let mut results = Vec::with_capacity(alloc, program.methods.len())?;
    for _ in 0..program.methods.len() {
        results.push(Value::any())?;
    }
    for class in program.classes.as_slice() {
        note_results(&mut results, class);
    }
    Ok(results)
}

/// Notes the methods of a class that have code.
fn note_results(results: &mut [Value], class: &Class) {
    for method in class.methods.as_slice() {
        if method.body.is_some() {
            if let Some(result) = results.get_mut(method.name as usize) {
                *result = Value::none();
            }
        }
    }
}

/// So many values of nothing.
fn nothings(alloc: Global, count: u16) -> Result<Seq<Value>, AllocError> {
    let mut values = Seq::new(alloc);
    for _ in 0..count {
        values.items.push(Value::none())?;
    }
    Ok(values)
}

/// Notes the parameters of a method that has code.
fn note_parameters(
    alloc: Global,
    parameters: &mut [Seq<Value>],
    method: &Method,
) -> Result<(), AllocError> {
    if let Some(body) = &method.body {
        if let Some(words) = parameters.get_mut(method.name as usize) {
            *words = nothings(alloc, body.ins)?;
        }
    }
    Ok(())
}

/// An empty list for each of so many numbers.
fn no_lists<T: Drop>(alloc: Global, count: usize) -> Result<Vec<Seq<T>>, AllocError> {
    let mut lists: Vec<Seq<T>> = Vec::with_capacity(alloc, count)?;
    for _ in 0..count {
        lists.push(Seq::new(alloc))?;
    }
    Ok(lists)
}

/// What each parameter word of each method number can be: nothing where the method has code.
fn first_parameters(alloc: Global, program: &Program) -> Result<Vec<Seq<Value>>, AllocError> {
    let mut parameters = no_lists(alloc, program.methods.len())?;
    for class in program.classes.as_slice() {
        for method in class.methods.as_slice() {
            note_parameters(alloc, &mut parameters, method)?;
        }
    }
    Ok(parameters)
}

/// What is known of bodies, by the numbers of their methods.
#[derive(Drop)]
struct Table {
    starts: Vec<Seq<Start>>,
    parameters: Vec<Seq<Value>>,
    results: Vec<Value>,
    entered: Vec<bool>,
}

impl Table {
    /// Nothing is known but what methods without code may do.
    fn new(alloc: Global, program: &Program) -> Result<Table, AllocError> {
        let methods = program.methods.len();
        Ok(Table {
            starts: no_lists(alloc, methods)?,
            parameters: first_parameters(alloc, program)?,
            results: first_results(alloc, program)?,
            entered: vec![in alloc; false; methods]?,
        })
    }

    /// Fills in what is known of a body that a run enters.
    fn add(
        &mut self,
        alloc: Global,
        spread: &Spread<'_>,
        place: u32,
        code: &Code<'_>,
    ) -> Result<(), AllocError> {
        let number = code.number as usize;
        if let Some(mark) = self.entered.get_mut(number) {
            *mark = true;
        }
        if let Some(list) = self.starts.get_mut(number) {
            let starts = starts_of(alloc, spread.ground.sites, &spread.nodes, code)?;
            *list = Seq::of_vec(starts);
        }
        if let Some(words) = self.parameters.get_mut(number) {
            let values = spread
                .cells
                .values(alloc, code.first_word, code.body.ins as usize)?;
            *words = Seq::of_vec(values);
        }
        if let Some(result) = self.results.get_mut(number) {
            *result = spread
                .cells
                .value(behind(spread.ground.numbering.results, place));
        }
        Ok(())
    }

    /// Fills in what is known of all bodies.
    fn add_all(&mut self, alloc: Global, spread: &Spread<'_>) -> Result<(), AllocError> {
        let mut place = 0u32;
        for code in spread.ground.codes.all.as_slice() {
            if is_on(&spread.entered, place) {
                self.add(alloc, spread, place, code)?;
            }
            place = behind(place, 1);
        }
        Ok(())
    }
}

/// The words of a pool as registers.
fn registers_of(alloc: Global, cells: &[Cell]) -> Result<PatMap<Value>, AllocError> {
    let mut registers = PatMap::empty();
    let mut word = 0u32;
    for cell in cells {
        registers = registers.set(alloc, word, cell.value.same())?;
        word = behind(word, 1);
    }
    Ok(registers)
}

/// What virtual and interface calls pass.
fn calls_of(alloc: Global, pools: &[Pool]) -> Result<Vec<PatMap<Value>>, AllocError> {
    let mut calls = Vec::with_capacity(alloc, pools.len())?;
    for pool in pools {
        calls.push(registers_of(alloc, pool.words.as_slice())?)?;
    }
    Ok(calls)
}

/// To which of these calls a run comes.
fn reached_of(alloc: Global, pools: &[Pool]) -> Result<Vec<bool>, AllocError> {
    let mut reached = Vec::with_capacity(alloc, pools.len())?;
    for pool in pools {
        reached.push(pool.reached)?;
    }
    Ok(reached)
}

/// What virtual and interface calls pass and get back.
fn pools_of(alloc: Global, spread: &Spread<'_>) -> Result<Pools, AllocError> {
    let pools = spread.passing.all.as_slice();
    Ok(Pools {
        reached: reached_of(alloc, pools)?,
        calls: calls_of(alloc, pools)?,
        answers: spread
            .cells
            .values(alloc, spread.ground.numbering.answers, pools.len())?,
    })
}

/// Which classes are marked, or run no code when they are initialised.
fn marks_of(alloc: Global, spread: &Spread<'_>, marks: &[bool]) -> Result<Vec<bool>, AllocError> {
    let (program, hierarchy) = (spread.ground.program, spread.ground.hierarchy);
    let mut all = Vec::with_capacity(alloc, marks.len())?;
    let mut place = 0u32;
    for mark in marks {
        all.push(*mark || hierarchy.trivially_initialised(program, place))?;
        place = behind(place, 1);
    }
    Ok(all)
}

/// What each field can be, anything where the program defines none of this number.
fn fields_of(alloc: Global, spread: &Spread<'_>) -> Result<Vec<Value>, AllocError> {
    let program = spread.ground.program;
    let count = program.fields.len();
    let first = spread.ground.numbering.fields;
    let mut fields = Vec::with_capacity(alloc, count)?;
    for _ in 0..count {
        fields.push(Value::any())?;
    }
    for class in program.classes.as_slice() {
        for field in class.fields.as_slice() {
            if let Some(value) = fields.get_mut(field.name as usize) {
                *value = spread.cells.value(behind(first, field.name));
            }
        }
    }
    Ok(fields)
}

/// What the search found, as it is checked: tables without frames, pools, marks, and what is known where nodes begin.
#[derive(Drop)]
pub(crate) struct Pieces {
    pub(crate) facts: Facts,
    pub(crate) pools: Pools,
    pub(crate) marks: Marks,
    pub(crate) starts: Vec<Seq<Start>>,
}

/// What the search found.
pub(crate) fn pieces_of(alloc: Global, spread: &Spread<'_>) -> Result<Pieces, AllocError>
    ensures { IfOk result (λ pieces. pieces.facts.any ≡ any_value) }
{
    let mut table = Table::new(alloc, spread.ground.program)?;
    table.add_all(alloc, spread)?;
    let Table {
        starts,
        parameters,
        results,
        entered,
    } = table;
    let marks = Marks {
        entered,
        needed: marks_of(alloc, spread, spread.needed.marks())?,
        listed: marks_of(alloc, spread, spread.listed.marks())?,
    };
    let facts = Facts {
        frames: Vec::new(alloc),
        parameters,
        results,
        fields: fields_of(alloc, spread)?,
        quiet: Vec::new(alloc),
        any: Value::any(),
    };
    Ok(Pieces {
        facts,
        pools: pools_of(alloc, spread)?,
        marks,
        starts,
    })
}
