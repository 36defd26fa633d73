//! What float arithmetic answers.

ghost use Rattle.std.specs.Prelude.{◌≡◌, IfOk, OnOk, Some, cond};
ghost use Rattle.std.specs.HashMap.{get};
ghost use Rattle.std.specs.Option.{unwrap_or};
ghost use Rattle.dalvik_defs.specs.declared.tables.Floats.{Floats};
ghost use Rattle.dalvik_defs.specs.Operators.{float_answer, float_wide, float_word, number_of};
ghost use Rattle.dalvik_numbers.specs.Rows.{IsTable, Key, answer_in, key_eq, key_of};

use dalvik_defs::{FloatOp, FloatRow, Floats};
use std::alloc::{AllocError, Global};
use std::collections::HashMap;

/// The answer of each operation, by its number, on each pair of operands that a float table has.
#[derive(Drop)]
pub struct FloatTable {
    pub answers: HashMap<(u8, u64, u64), u64>,
}

/// A number for each operation.
fn number_of(op: FloatOp) -> u8
    ensures { result ≡ number_of op }
{
    op as u8
}

/// Puts the answer of a row in, before those that were put in.
fn put_row(answers: &mut HashMap<(u8, u64, u64), u64>, row: &FloatRow) -> Result<(), AllocError>
    ensures { OnOk result ((k : Key) → get key_eq answers.new k ≡ cond (key_eq (key_of row.now) k) (Some row.now.result) (get key_eq answers.old k)) }
{
    answers.insert((number_of(row.op), row.a, row.b), row.result)?;
    Ok(())
}

/// The answers of rows, of which the first one that fits counts.
fn answers_of(alloc: Global, rows: &[FloatRow]) -> Result<HashMap<(u8, u64, u64), u64>, AllocError>
    ensures { IfOk result (λ answers. (k : Key) → get key_eq answers k ≡ answer_in rows.now k) }
{
    let mut answers = HashMap::new(alloc);
    let mut at = rows.len();
    while at > 0 {
        at -= 1;
        put_row(&mut answers, &rows[at])?;
    }
    Ok(answers)
}

impl FloatTable {
    /// The table of these rows, of which the first one that fits counts. The only error is want of memory.
    pub fn new(alloc: Global, floats: &Floats) -> Result<FloatTable, AllocError>
        ensures { IfOk result (λ table. IsTable table floats.now) }
    {
        let answers = answers_of(alloc, floats.rows.as_slice())?;
        Ok(FloatTable { answers })
    }

    /// What is stored for the operation on the bits of its operands, 0 where there is nothing.
    fn stored(&self, op: FloatOp, a: u64, b: u64) -> u64
        ensures { result ≡ unwrap_or (get key_eq self.now.answers (number_of op, a, b)) 0 }
    {
        match self.answers.get(&(number_of(op), a, b)) {
            Some(result) => *result,
            None => 0,
        }
    }

    /// What the operation answers on the bits of its operands, 0 where the table has no row.
    #[tactic(auto, using(crate::proofs::Answers::stored_answer))]
    pub fn answer(&self, op: FloatOp, a: u64, b: u64) -> u64
        ensures { (floats : Floats) → IsTable self.now floats → result ≡ float_answer floats op a b }
    {
        self.stored(op, a, b)
    }

    /// The answer as a wide.
    pub fn wide(&self, op: FloatOp, a: u64, b: u64) -> u64
        ensures { (floats : Floats) → IsTable self.now floats → result ≡ float_wide floats op a b }
    {
        self.answer(op, a, b)
    }

    /// The answer, cut to a word.
    pub fn word(&self, op: FloatOp, a: u64, b: u64) -> u32
        ensures { (floats : Floats) → IsTable self.now floats → result ≡ float_word floats op a b }
    {
        (self.answer(op, a, b) % 4294967296) as u32
    }
}
