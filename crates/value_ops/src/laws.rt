//! Laws of the operations: what is answered holds of what the machine makes of what the operands hold of.
//!
//! Each function has an empty body: its contract is the law.

ghost use Rattle.std.specs.Prelude.{◌≡◌, ◌<◌, ◌^◌, ℕ, ℤ, ◌≤ℤ◌, false, true, Some};
ghost use Rattle.std.specs.Int.{w32, cast_signed, cast_unsigned};
ghost use Rattle.insn_set.specs.declared.ops.CmpOp.{CmpOp};
ghost use Rattle.insn_set.specs.declared.ops.CmpOp.TheVariants.{CmpLong};
ghost use Rattle.insn_set.specs.declared.ops.Item.{Item};
ghost use Rattle.insn_set.specs.declared.ops.Test.{Test};
ghost use Rattle.insn_set.specs.declared.ops.UnaryOp.{UnaryOp};
ghost use Rattle.insn_set.specs.declared.ops.BinaryOp.{BinaryOp};
ghost use Rattle.insn_set.specs.declared.ops.LiteralOp.{LiteralOp};
ghost use Rattle.dalvik_defs.specs.Arith.{Kind, answer, literal_answer};
ghost use Rattle.dalvik_defs.specs.Operators.{OnWord, OnWide, Shifts, comparison, sort_of, unary_answer};
ghost use Rattle.dalvik_defs.specs.declared.tables.Floats.{Floats};
ghost use Rattle.domains.specs.Datum.{Datum, Number, Plain, Single, Double, is_zero};
ghost use Rattle.domains.specs.Ranges.{first_word, last_word};
ghost use Rattle.domains.specs.Values.{Parts, value_holds};
ghost use Rattle.value_ops.specs.Left.{goes_on, held_value, null_value};
ghost use Rattle.value_ops.specs.Numbers.{binary_value, compared_value, literal_value, stored_value, unary_value};
ghost use Rattle.value_ops.specs.Tests.{equal_values, different_values, tested_values, keyed_value, unkeyed_value, consecutive, unpacked_value};
ghost use Rattle.value_ops.specs.Sound.{HoldsSome, HoldsBoth, IsNarrow, AreSame, AreOther, IsNone, AreWords, passes_words, answer_datum, kept_word, size_of};

/// What isn't null is held by what is left behind a use, and what is null by what is left behind a test for it.
pub fn uses_keep()
    ensures held { (x : Parts) (d : Datum) → is_zero d ≡ false → value_holds x d → HoldsSome (goes_on (held_value x)) d }
    ensures null { (x : Parts) (d : Datum) → is_zero d ≡ true → value_holds x d → HoldsSome (goes_on (null_value x)) d }
{}

/// Behind a test both operands are held: two words as the test answers of them, and whatever a register holds where they
/// are the same or aren't.
pub fn tests_keep()
    ensures words { (t : Test) (x y : Parts) (a b : ℕ) → a < 2 ^ 32 → b < 2 ^ 32 → value_holds x (Plain (Single a))
        → value_holds y (Plain (Single b)) → HoldsBoth (tested_values (passes_words t a b) t x y) (Plain (Single a)) (Plain (Single b)) }
    ensures same { (x y : Parts) (d e : Datum) → IsNarrow d → IsNarrow e → AreSame d e → value_holds x d → value_holds y e → HoldsBoth (equal_values x y) d e }
    ensures other { (x y : Parts) (d e : Datum) → IsNarrow d → IsNarrow e → AreOther d e → value_holds x d → value_holds y e → HoldsBoth (different_values x y) d e }
{}

/// At a target of a switch its key is held, and past it what is none of the keys, of which a packed
/// switch has consecutive ones.
pub fn switches_keep()
    ensures key { (z : ℤ) (x : Parts) (w : ℕ) → w < 2 ^ 32 → cast_signed w32 w ≡ z → value_holds x (Plain (Single w)) → HoldsSome (keyed_value z x) (Plain (Single w)) }
    ensures none { (zs : _) (x : Parts) (w : ℕ) → w < 2 ^ 32 → AreWords zs → IsNone zs (cast_signed w32 w) → value_holds x (Plain (Single w))
        → HoldsSome (unkeyed_value zs x) (Plain (Single w)) }
    ensures packed { (first : ℤ) (n : ℕ) (x : Parts) → unpacked_value first n x ≡ unkeyed_value (consecutive first n) x }
{}

/// What the machine answers on two operands of the operator's sort is held by what the operator makes of what holds of
/// them, and there is an answer.
pub fn answers_hold()
    ensures words { (op : BinaryOp) (k : Kind) (x y : Parts) (a b n : ℕ) → sort_of op ≡ OnWord k → a < 2 ^ 32 → b < 2 ^ 32 → n < 2 ^ 32
        → value_holds x (Plain (Single a)) → value_holds y (Plain (Single b)) → answer k false a b ≡ Some n
        → HoldsSome (binary_value op x y) (Plain (Single n)) }
    ensures wides { (op : BinaryOp) (k : Kind) (x y : Parts) (a b n : ℕ) → sort_of op ≡ OnWide k → value_holds x (Plain (Double a))
        → value_holds y (Plain (Double b)) → answer k true a b ≡ Some n → HoldsSome (binary_value op x y) (Plain (Double n)) }
    ensures shifts { (op : BinaryOp) (k : Kind) (x y : Parts) (a b n : ℕ) → sort_of op ≡ Shifts k → value_holds x (Plain (Double a))
        → value_holds y (Plain (Single b)) → answer k true a b ≡ Some n → HoldsSome (binary_value op x y) (Plain (Double n)) }
    ensures literals { (op : LiteralOp) (x : Parts) (z : ℤ) (a n : ℕ) → a < 2 ^ 32 → n < 2 ^ 32 → first_word ≤ℤ z → z ≤ℤ last_word
        → value_holds x (Plain (Single a)) → literal_answer op a (cast_unsigned w32 z) ≡ Some n
        → HoldsSome (literal_value op x z) (Plain (Single n)) }
{}

/// So it is of operators with one operand, of comparisons and of what an item or a field keeps of a word.
pub fn others_hold()
    ensures unary { (op : UnaryOp) (floats : Floats) (x : Parts) (m : Number) → value_holds x (Plain m)
        → value_holds (unary_value op x) (answer_datum (unary_answer floats op (size_of m))) }
    ensures longs { (x y : Parts) (a b : ℕ) → value_holds x (Plain (Double a)) → value_holds y (Plain (Double b)) → (floats : Floats)
        → value_holds (compared_value CmpLong x y) (Plain (Single (comparison floats CmpLong a b))) }
    ensures floats { (op : CmpOp) (x y : Parts) (d e : Datum) (floats : Floats) (a b : ℕ) → (op ≡ CmpLong → ⊥) → value_holds x d → value_holds y e
        → value_holds (compared_value op x y) (Plain (Single (comparison floats op a b))) }
    ensures stored { (i : Item) (x : Parts) (a : ℕ) → value_holds x (Plain (Single a)) → value_holds (stored_value i x) (Plain (Single (kept_word i a))) }
{}
